// A problem with one thing loosened.
ghost use Rattle.std.specs.Prelude.{◌≡◌, ◌+◌, ◌-◌, ◌<◌, ◌≤◌, IfOk, [], length, set, slice_index_or};
ghost use Rattle.rwsp_terms.specs.declared.limits.TheConstants.{GREATEST_BOUND};
ghost use Rattle.rwsp_terms.specs.Instance.{IsShift, IsDay, IsClass};
ghost use Rattle.rwsp_model.specs.Parts.{instance_of};
ghost use Rattle.rwsp_model.specs.Validity.{AreSmall, IsSmallRange};
ghost use Rattle.ways_out.specs.Loosened.{exact, highest, loosened, lowest, most_steps, with_bounds, with_demand, without_sequence, IsChange, IsStep};

use crate::change::Change;
use rwsp_model::{Parts, Problem};
use rwsp_terms::limits::GREATEST_SHORT_BOUND;
use rwsp_terms::{Bounds, Class, DemandRow, Symbol};
use std::alloc::{AllocError, Global};

/// How many steps a change has; none where it can't be loosened any more.
pub fn most_steps(problem: &Problem, change: Change) -> u32
    requires { IsChange problem.now change }
    ensures value { result ≡ most_steps problem.now change }
    ensures few { result ≤ GREATEST_BOUND }
{
    problem.prove_limits();
    match change {
        Change::LongerBlocks(class) => problem
            .cells()
            .max(GREATEST_SHORT_BOUND)
            .saturating_sub(problem.bounds(class).greatest),
        Change::ShorterBlocks(class) => problem.bounds(class).least.saturating_sub(1),
        Change::LowerDemand { day, shift } => problem.demand(shift, day).least,
        Change::HigherDemand { day, shift } => problem
            .weeks()
            .saturating_sub(problem.demand(shift, day).greatest),
        Change::Dropped(_) => 1,
    }
}

// Sets the bounds of the blocks of a class.
fn set_bounds(parts: &mut Parts, class: Class, bounds: Bounds)
    requires { IsClass (instance_of parts.old) class }
    ensures { instance_of parts.new ≡ with_bounds (instance_of parts.old) class (λ _. bounds) }
{
    match class {
        Class::Shift(shift) => parts.shifts[shift.number as usize - 1].bounds = bounds,
        Class::Off => parts.off = bounds,
        Class::Work => parts.work = bounds,
    }
}

// The problem with these bounds for the blocks of a class.
fn with_bounds(problem: &Problem, class: Class, bounds: Bounds) -> Result<Problem, AllocError>
    requires class { IsClass problem.now class }
    requires small { AreSmall bounds }
    ensures { IfOk result (λ P. P ≡ with_bounds problem.now class (λ _. bounds)) }
{
    problem.prove_limits();
    let mut parts = problem.parts().copy()?;
    set_bounds(&mut parts, class, bounds);
    Ok(Problem::of_valid(parts))
}

// The demand of a shift on each day.
fn demand_ranges(alloc: Global, problem: &Problem, shift: Symbol) -> Result<Vec<Bounds>, AllocError>
    requires { IsShift problem.now shift }
    ensures { IfOk result (λ ranges. ranges.items ≡ slice_index_or problem.now.demand (shift.number - 1) []) }
{
    problem.prove_limits();
    let rows = &problem.parts().demand;
    Vec::from_slice(alloc, rows[shift.number as usize - 1].ranges())
}

// Sets the demand of the shift at a place.
fn set_demand(parts: &mut Parts, place: usize, ranges: Vec<Bounds>)
    requires { place < length (instance_of parts.old).demand }
    ensures { instance_of parts.new
        ≡ record (instance_of parts.old) { demand = set (instance_of parts.old).demand place ranges.items } }
{
    parts.demand[place] = DemandRow::of(ranges);
}

// The problem with this demand of a shift on a day.
fn with_demand(
    alloc: Global,
    problem: &Problem,
    shift: Symbol,
    day: u32,
    demand: Bounds,
) -> Result<Problem, AllocError>
    requires shift { IsShift problem.now shift }
    requires day { IsDay problem.now day }
    requires small { IsSmallRange demand }
    ensures { IfOk result (λ P. P ≡ with_demand problem.now shift.number day (λ _. demand)) }
{
    problem.prove_limits();
    let mut ranges = demand_ranges(alloc, problem, shift)?;
    ranges[day as usize - 1] = demand;
    let mut parts = problem.parts().copy()?;
    set_demand(&mut parts, shift.number as usize - 1, ranges);
    Ok(Problem::of_valid(parts))
}

// The problem without the forbidden sequence at a place.
#[tactic(auto, using(rwsp_model::proofs::Sequences::without_one))]
fn without_sequence(alloc: Global, problem: &Problem, place: u32) -> Result<Problem, AllocError>
    requires { place < length problem.now.sequences }
    ensures { IfOk result (λ P. P ≡ without_sequence problem.now place) }
{
    let mut left = Vec::from_slice(alloc, problem.sequences())?;
    left.remove(place as usize);
    problem.with_sequences(left)
}

/// The problem with so many steps of a change, and all else as it is.
pub fn loosen(
    alloc: Global,
    problem: &Problem,
    change: Change,
    steps: u32,
) -> Result<Problem, AllocError>
    requires change { IsChange problem.now change }
    requires step { IsStep problem.now change steps }
    ensures { IfOk result (λ P. P ≡ loosened problem.now change steps) }
{
    problem.prove_limits();
    match change {
        Change::LongerBlocks(class) => {
            let Bounds { least, greatest } = problem.bounds(class);
            let bounds = Bounds {
                least,
                greatest: greatest + steps,
            };
            with_bounds(problem, class, bounds)
        }
        Change::ShorterBlocks(class) => {
            let Bounds { least, greatest } = problem.bounds(class);
            let bounds = Bounds {
                least: least - steps,
                greatest,
            };
            with_bounds(problem, class, bounds)
        }
        Change::LowerDemand { day, shift } => {
            let Bounds { least, greatest } = problem.demand(shift, day);
            let demand = Bounds {
                least: least - steps,
                greatest,
            };
            with_demand(alloc, problem, shift, day, demand)
        }
        Change::HigherDemand { day, shift } => {
            let Bounds { least, greatest } = problem.demand(shift, day);
            let demand = Bounds {
                least,
                greatest: greatest + steps,
            };
            with_demand(alloc, problem, shift, day, demand)
        }
        Change::Dropped(place) => without_sequence(alloc, problem, place),
    }
}

// The least number of a demand alone.
fn lowest(demand: Bounds) -> Bounds
    requires { IsSmallRange demand }
    ensures value { result ≡ lowest demand }
    ensures small { IsSmallRange result }
{
    Bounds {
        least: demand.least,
        greatest: demand.least.min(demand.greatest),
    }
}

// The greatest number of a demand alone.
fn highest(demand: Bounds) -> Bounds
    requires { IsSmallRange demand }
    ensures value { result ≡ highest demand }
    ensures small { IsSmallRange result }
{
    Bounds {
        least: demand.greatest.max(demand.least),
        greatest: demand.greatest,
    }
}

/// The problem with so many steps of a change of a demand, at the last number that they let in, alone. A change of
/// anything else is made as by `loosen`.
pub fn at_number(
    alloc: Global,
    problem: &Problem,
    change: Change,
    steps: u32,
) -> Result<Problem, AllocError>
    requires change { IsChange problem.now change }
    requires step { IsStep problem.now change steps }
    ensures { IfOk result (λ P. P ≡ exact problem.now change steps) }
{
    problem.prove_limits();
    match change {
        Change::LowerDemand { day, shift } => {
            let Bounds { least, greatest } = problem.demand(shift, day);
            let demand = Bounds {
                least: least - steps,
                greatest,
            };
            with_demand(alloc, problem, shift, day, lowest(demand))
        }
        Change::HigherDemand { day, shift } => {
            let Bounds { least, greatest } = problem.demand(shift, day);
            let demand = Bounds {
                least,
                greatest: greatest + steps,
            };
            with_demand(alloc, problem, shift, day, highest(demand))
        }
        Change::LongerBlocks(_) | Change::ShorterBlocks(_) | Change::Dropped(_) => {
            loosen(alloc, problem, change, steps)
        }
    }
}
