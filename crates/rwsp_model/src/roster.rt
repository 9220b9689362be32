ghost use Rattle.std.specs.Prelude.{◌≡◌, ◌+◌, ◌-◌, ◌*◌, ◌<◌, ◌≤◌, length, slice_get, Some};
ghost use Rattle.rwsp_terms.specs.Roster.{IsRoster};

use crate::Problem;
use rwsp_terms::Symbol;
use std::marker::Model;

/// A symbol for each day of each week, and the number of days.
#[derive(Drop)]
pub struct Roster {
    days: u32,
    cells: Vec<Symbol>,
}

impl Model for Roster {
    ghost use Rattle.rwsp_model.specs.Schedule.{Schedule};

    ghost Value = { Schedule };

    ghost view = { λ r. record { days = r.days; cells = r.cells.items } };
}

impl Roster {
    /// The roster of these cells: week after week, and in each week day after day.
    pub fn of(problem: &Problem, cells: Vec<Symbol>) -> Roster
        requires { IsRoster problem.now cells.items }
        ensures days { result.days ≡ problem.now.days }
        ensures cells { result.cells ≡ cells.items }
    {
        Roster {
            days: problem.days(),
            cells,
        }
    }

    /// The days of a week.
    pub fn days(&self) -> u32
        ensures { result ≡ self.now.days }
    {
        self.days
    }

    /// The symbols, week after week.
    pub fn cells(&self) -> &[Symbol]
        ensures { result.now ≡ self.now.cells }
    {
        &self.cells
    }

    /// The symbol at a position, counted from 0.
    pub fn at(&self, p: u32) -> Symbol
        requires { p < length self.now.cells }
        ensures { slice_get self.now.cells p ≡ Some result }
    {
        self.cells[p as usize]
    }

    /// The symbol of a day in a week, both counted from 1.
    pub fn cell(&self, week: u32, day: u32) -> Symbol
        requires week { (0 < week) × (week * self.now.days ≤ length self.now.cells) }
        requires day { (0 < day) × (day ≤ self.now.days) }
        ensures { slice_get self.now.cells ((week - 1) * self.now.days + (day - 1)) ≡ Some result }
    {
        let weeks_before = week as usize - 1;
        self.cells[weeks_before * self.days as usize + (day as usize - 1)]
    }
}

// A roster may be sent to other threads and shared with them.
fn shared<T: Send + Sync>(_: &T) {}

fn rosters_are_shared(roster: &Roster) {
    shared(roster);
}
