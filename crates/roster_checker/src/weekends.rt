// How many weeks of a roster have both days of the weekend off.
ghost use Rattle.std.specs.Prelude.{◌≡◌, ◌+◌, ◌*◌, ◌<◌, ◌≤◌, ◌&&◌, length, count_by};
ghost use Rattle.std.specs.List.{range_with_len};
ghost use Rattle.rwsp_terms.specs.Roster.{IsRoster};
ghost use Rattle.rwsp_terms.specs.declared.limits.TheConstants.{MOST_WEEKS, DAYS_OF_WEEK, SATURDAY, SUNDAY};
ghost use Rattle.refutation_terms.specs.FreeWeekends.{free_weekends, is_off_at};

use refutation_terms::laws::free_weekends_are_weeks;
use rwsp_model::{Problem, Roster};
use rwsp_terms::Symbol;
use rwsp_terms::limits::{DAYS_OF_WEEK, MOST_WEEKS, SATURDAY, SUNDAY};

// Whether both days of the weekend of a week are off. Weeks count from 0.
fn has_weekend_off(cells: &[Symbol], week: u32) -> bool
    requires few { week < MOST_WEEKS }
    requires within { week * DAYS_OF_WEEK + SUNDAY < length cells.now }
    ensures { result ≡ (is_off_at cells.now (week * DAYS_OF_WEEK + SATURDAY)
        && is_off_at cells.now (week * DAYS_OF_WEEK + SUNDAY)) }
{
    let monday = week * DAYS_OF_WEEK;
    cells[(monday + SATURDAY) as usize].number == 0 && cells[(monday + SUNDAY) as usize].number == 0
}

#[tactic(auto, using(rwsp_terms::proofs::Counting::count_then, rwsp_terms::proofs::Counting::count_else))]
fn count_weekends(cells: &[Symbol], weeks: u32) -> u32
    requires few { weeks ≤ MOST_WEEKS }
    requires cells { length cells.now ≡ weeks * DAYS_OF_WEEK }
    ensures value { result ≡ count_by (λ i. is_off_at cells.now (i * DAYS_OF_WEEK + SATURDAY)
        && is_off_at cells.now (i * DAYS_OF_WEEK + SUNDAY)) (range_with_len 0 weeks) }
    ensures few { result ≤ weeks }
{
    let mut count = 0;
    for week in 0..weeks {
        if has_weekend_off(cells, week) {
            count += 1;
        }
    }
    count
}

/// How many weekends of the roster are free: in how many weeks both days of the weekend are off.
pub fn free_weekends(problem: &Problem, roster: &Roster) -> u32
    requires roster { IsRoster problem.now roster.now.cells }
    requires week { problem.now.days ≡ DAYS_OF_WEEK }
    ensures value { result ≡ free_weekends roster.now.cells }
    ensures few { result ≤ problem.now.weeks }
{
    problem.prove_limits();
    free_weekends_are_weeks();
    count_weekends(roster.cells(), problem.weeks())
}
