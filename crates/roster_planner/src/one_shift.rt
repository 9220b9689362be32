// A problem with all its shifts made one.
ghost use Rattle.std.specs.Prelude.{IfOk};
ghost use Rattle.rwsp_terms.specs.Instance.{IsDay};
ghost use Rattle.domain_store.specs.Cycles.{AreShortRules};
ghost use Rattle.roster_planner.specs.OneShift.{HasDaysOf};

use clean_words::{Automaton, Told};
use rwsp_model::{Parts, Problem};
use rwsp_terms::{Bounds, DemandRow, Symbol};
use std::alloc::{AllocError, Global};

/// The automaton of the problem that tells days off from work alone: all its shifts are one, each day demands the sum,
/// and no sequence is forbidden.
pub fn one_shift(alloc: Global, problem: &Problem) -> Result<Automaton, AllocError>
    ensures days { IfOk result (λ a. HasDaysOf a.problem problem.now) }
    ensures short { IfOk result (λ a. AreShortRules a.problem a.rules) }
{
    let one = joined(alloc, problem)?;
    let automaton = Automaton::of_short_rules(alloc, &one, Told::DayOff);
    drop(one);
    automaton
}

// The problem with one shift, or the problem itself where that would be none.
fn joined(alloc: Global, problem: &Problem) -> Result<Problem, AllocError>
    ensures { IfOk result (λ one. HasDaysOf one problem.now) }
{
    let demand = joined_demand(alloc, problem)?;
    let mut parts = problem.parts().copy()?;
    parts.demand = demand;
    parts.shifts.truncate(1);
    let work = parts.work;
    if let Some(shift) = parts.shifts.first_mut() {
        shift.bounds = work;
    }
    parts.sequences = Vec::new(alloc);
    match Problem::of(parts) {
        Ok(one) => Ok(one),
        Err(_) => problem.copy(),
    }
}

// The demand of all shifts together.
fn joined_demand(alloc: Global, problem: &Problem) -> Result<Vec<DemandRow>, AllocError> {
    let mut ranges = Vec::new(alloc);
    for day in 1..problem.days() + 1 {
        ranges.push(joined_range(problem, day))?;
    }
    let mut demand = Vec::new(alloc);
    demand.push(DemandRow::of(ranges))?;
    Ok(demand)
}

// The least and the greatest number of weeks that hold a shift on the day, up to all weeks.
fn joined_range(problem: &Problem, day: u32) -> Bounds
    requires { IsDay problem.now day }
{
    let weeks = problem.weeks();
    let mut least = 0u32;
    let mut greatest = 0u32;
    for number in 1..problem.shifts() + 1 {
        let range = problem.demand(Symbol { number }, day);
        least = least.saturating_add(range.least).min(weeks);
        greatest = greatest.saturating_add(range.greatest).min(weeks);
    }
    Bounds { least, greatest }
}
