// How many weeks of a roster hold a symbol on a day.
ghost use Rattle.std.specs.Prelude.{◌≡◌, ◌+◌, ◌-◌, ◌*◌, ◌<◌, ◌≤◌, ◌==◌, length, slice_index_or, count_by};
ghost use Rattle.std.specs.List.{range_with_len};
ghost use Rattle.rwsp_terms.specs.Instance.{off_symbol, IsDay};
ghost use Rattle.rwsp_terms.specs.Roster.{weeks_with};

use crate::Problem;
use rwsp_terms::Symbol;
use rwsp_terms::limits::{MOST_DAYS, MOST_WEEKS};

// Whether the week holds the symbol on the day. Weeks count from 0.
fn has_on_day(cells: &[Symbol], days: u32, week: u32, x: Symbol, day: u32) -> bool
    requires few { (days ≤ MOST_DAYS) × (week < MOST_WEEKS) }
    requires day { (0 < day) × (day ≤ days) }
    requires within { week * days + (day - 1) < length cells.now }
    ensures { result ≡ ((slice_index_or cells.now (week * days + (day - 1)) off_symbol).number == x.number) }
{
    cells[(week * days + (day - 1)) as usize].number == x.number
}

#[tactic(auto, using(rwsp_terms::proofs::Counting::count_then, rwsp_terms::proofs::Counting::count_else))]
fn count_weeks(cells: &[Symbol], days: u32, weeks: u32, x: Symbol, day: u32) -> u32
    requires few { (days ≤ MOST_DAYS) × (weeks ≤ MOST_WEEKS) }
    requires cells { length cells.now ≡ weeks * days }
    requires day { (0 < day) × (day ≤ days) }
    ensures value { result ≡ count_by (λ i.
        (slice_index_or cells.now (i * days + (day - 1)) off_symbol).number == x.number) (range_with_len 0 weeks) }
    ensures few { result ≤ weeks }
{
    let mut count = 0;
    for week in 0..weeks {
        if has_on_day(cells, days, week, x, day) {
            count += 1;
        }
    }
    count
}

/// How many weeks of the cells hold the symbol on the day. Days count from 1. Costs a step for each week.
pub fn weeks_with(problem: &Problem, cells: &[Symbol], x: Symbol, day: u32) -> u32
    requires cells { length cells.now ≡ problem.now.weeks * problem.now.days }
    requires day { IsDay problem.now day }
    ensures value { result ≡ weeks_with problem.now cells.now x.number day }
    ensures few { result ≤ MOST_WEEKS }
{
    count_weeks(cells, problem.days(), problem.weeks(), x, day)
}
