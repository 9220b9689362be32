// The least rest between a shift and the next.
ghost use Rattle.std.specs.Prelude.{◌≡◌, ◌+◌, ◌-◌, ◌<◌, ◌≤◌, ℕ, length};
ghost use Rattle.rwsp_terms.specs.Instance.{IsShift};
ghost use Rattle.rwsp_terms.specs.Roster.{IsRoster};
ghost use Rattle.rwsp_terms.specs.Window.{cell};
ghost use Rattle.rwsp_terms.specs.declared.limits.TheConstants.{MOST_CELLS};
ghost use Rattle.made_problems.specs.Times.{start_later, end_of};
ghost use Rattle.roster_page.specs.LeastRest.{IsNext, rest_after, lesser, IsLeastBelow, IsLeastRest};

use made_problems::{DAY_MINUTES, length_of, start_of};
use rwsp_model::Problem;
use rwsp_terms::Symbol;

// The symbol at a position of the endless word that repeats the cells.
fn cell(cells: &[Symbol], position: usize) -> Symbol
    requires { 0 < length cells.now }
    ensures { result ≡ cell cells.now position }
{
    cells[position % cells.len()]
}

// The days from a shift to the next, round the cycle.
fn days_to_next(cells: &[Symbol], place: usize) -> usize
    requires few { length cells.now ≤ MOST_CELLS }
    requires within { place < length cells.now }
    requires shift { 0 < (cell cells.now place).number }
    ensures next { IsNext cells.now place result }
    ensures few { result ≤ length cells.now }
{
    for days in 1..cells.len() {
        if cell(cells, place + days).number > 0 {
            return days;
        }
    }
    cells.len()
}

// The minutes from the end of a shift to the start of another, some days later.
fn minutes_between(problem: &Problem, days: usize, x: Symbol, y: Symbol) -> u32
    requires days { days ≤ MOST_CELLS }
    requires x { IsShift problem.now x }
    requires y { IsShift problem.now y }
    ensures { result ≡ start_later problem.now days y - end_of problem.now x }
{
    let start = days as u32 * DAY_MINUTES + start_of(problem, y);
    let end = start_of(problem, x) + length_of(problem, x);
    start.saturating_sub(end)
}

// The rest behind the shift at a place.
fn rest_after(problem: &Problem, cells: &[Symbol], place: usize) -> u32
    requires roster { IsRoster problem.now cells.now }
    requires within { place < length cells.now }
    requires shift { 0 < (cell cells.now place).number }
    ensures { (n : ℕ) × IsNext cells.now place n × (result ≡ rest_after problem.now cells.now place n) }
{
    problem.prove_limits();
    let days = days_to_next(cells, place);
    minutes_between(problem, days, cell(cells, place), cell(cells, place + days))
}

// The lesser of the least so far, if there is one, and these minutes.
fn lesser(least: Option<u32>, minutes: u32) -> Option<u32>
    ensures { result ≡ lesser least minutes }
{
    match least {
        Some(other) if other <= minutes => Some(other),
        _ => Some(minutes),
    }
}

// The least rest behind the shifts up to a place, from that behind the shifts below it.
fn with_place(problem: &Problem, cells: &[Symbol], place: usize, least: Option<u32>) -> Option<u32>
    requires roster { IsRoster problem.now cells.now }
    requires within { place < length cells.now }
    requires below { IsLeastBelow problem.now cells.now place least }
    ensures { IsLeastBelow problem.now cells.now (place + 1) result }
{
    if cell(cells, place).number == 0 {
        return least;
    }
    lesser(least, rest_after(problem, cells, place))
}

/// The least rest behind the shifts of a roster, in minutes, or none where there is no shift. The cost grows with the
/// cells: from each shift on the days to the next are gone over once.
pub fn least_rest(problem: &Problem, cells: &[Symbol]) -> Option<u32>
    requires { IsRoster problem.now cells.now }
    ensures { IsLeastRest problem.now cells.now result }
{
    let mut least = None;
    for place in 0..cells.len() {
        least = with_place(problem, cells, place, least);
    }
    least
}
