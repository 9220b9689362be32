// The demand of each day.
ghost use Rattle.std.specs.Prelude.{◌≡◌, ◌*◌, ◌↔◌, length, IsTrue};
ghost use Rattle.rwsp_terms.specs.Roster.{MeetsDay};
ghost use Rattle.rwsp_terms.specs.Instance.{IsSymbol, IsDay};
ghost use Rattle.roster_checker.specs.Places.{MeetsDemand};

use rwsp_model::{Problem, weeks_with};
use rwsp_terms::Symbol;

// Whether the number of weeks that hold the symbol on the day is in the range that is demanded.
fn is_in_range(problem: &Problem, cells: &[Symbol], x: Symbol, day: u32) -> bool
    requires cells { length cells.now ≡ problem.now.weeks * problem.now.days }
    requires symbol { IsSymbol problem.now x }
    requires day { IsDay problem.now day }
    ensures { IsTrue result ↔ MeetsDemand problem.now x.number day cells.now }
{
    let weeks = weeks_with(problem, cells, x, day) as i32;
    problem.demand_least(x, day) <= weeks && weeks <= problem.demand_greatest(x, day)
}

/// Whether each symbol, the day off too, is held on the day by as many weeks as are demanded.
pub fn day_is_met(problem: &Problem, cells: &[Symbol], day: u32) -> bool
    requires cells { length cells.now ≡ problem.now.weeks * problem.now.days }
    requires day { IsDay problem.now day }
    ensures { IsTrue result ↔ MeetsDay problem.now day cells.now }
{
    for number in 0..problem.shifts() + 1 {
        if !is_in_range(problem, cells, Symbol { number }, day) {
            return false;
        }
    }
    true
}
