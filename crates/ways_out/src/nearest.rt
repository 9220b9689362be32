// The nearest number of steps of a change that gives a problem a roster.
ghost use Rattle.std.specs.Prelude.{◌≡◌, ◌↔◌, ◌<◌, ◌≤◌, IsTrue, IfOk, IfSome};
ghost use Rattle.rwsp_terms.specs.declared.limits.TheConstants.{GREATEST_BOUND, GREATEST_BUDGET};
ghost use Rattle.ways_out.specs.Loosened.{loosened, most_steps, IsChange, IsStep};
ghost use Rattle.ways_out.specs.Helping.{HasNone, HasRoster, IsLeftOpen, IsNextOpen, IsOutcome};
ghost use Rattle.ways_out.specs.Reached.{HasDoubled, NoneUpTo};
ghost use Rattle.ways_out.specs.Together.{IsOfDemand};

use crate::ahead::judge_ahead;
use crate::change::{Change, Outcome};
use crate::loosening::most_steps;
use crate::numbers::{outcome_by_few_lines, outcome_by_numbers};
use crate::plans::{Asked, Verdict, judge};
use clean_words::Gate;
use rwsp_terms::limits::USUAL_WORKERS;
use std::alloc::{AllocError, Global};
use std::thread::Threads;

// How many plans are made side by side that are likely to be left open.
const SIDE_BY_SIDE: usize = USUAL_WORKERS as usize;

/// How far the search for the nearest number of steps has come.
#[derive(Clone, Copy)]
pub struct Reached {
    /// There is no roster with up to so many steps.
    pub shut: u32,
    /// The most steps that were tried without a roster: these, or more than `shut` that were left open.
    pub tried: u32,
}

/// What one step says, two, four and so on, below some steps.
#[derive(Clone, Copy)]
pub struct Doubled {
    /// How far these have come.
    pub reached: Reached,
    /// The steps below which they were tried, or fewer that give a roster.
    pub end: u32,
}

// What one step says, two, four and so on, below so many; up to `shut` it is known that they give no roster. The first
// that gives one ends it. The plans grow with the logarithm of the steps. Where one was left open, as that of all steps
// may be, the next ones are likely to be so too, and several are made side by side.
fn double<R: Threads + Sync, G: Gate>(
    rt: &R,
    alloc: Global,
    asked: &Asked<'_, G>,
    change: Change,
    shut: u32,
    below: u32,
    is_open: bool,
) -> Result<Doubled, AllocError>
    requires change { IsChange asked.now.problem.now change }
    requires budget { (1 ≤ asked.now.effort.budget) × (asked.now.effort.budget ≤ GREATEST_BUDGET) }
    requires none { NoneUpTo asked.now.problem.now change shut }
    requires order { shut < below }
    requires steps { below ≤ most_steps asked.now.problem.now change }
    requires few { below ≤ GREATEST_BOUND }
    ensures doubled { IfOk result (HasDoubled asked.now.problem.now asked.now.effort change) }
    ensures within { IfOk result (λ d. d.end ≤ below) }
    ensures roster { IfOk result (λ d. d.end < below → HasRoster (loosened asked.now.problem.now change d.end)) }
{
    let mut reached = Reached { shut, tried: shut };
    let mut made = Vec::new(alloc);
    'doubling: loop {
        let steps = (reached.tried + 1).next_power_of_two();
        if steps >= below {
            return Ok(Doubled {
                reached,
                end: below,
            });
        }
        let is_likely_open = is_open || reached.shut < reached.tried;
        let many = if is_likely_open { SIDE_BY_SIDE } else { 1 };
        match judge_ahead(
            rt,
            alloc,
            asked,
            change,
            &mut made,
            reached.tried,
            steps,
            below,
            many,
        )? {
            Verdict::Enough(fewer) => return Ok(Doubled {
                reached,
                end: fewer,
            }),
            Verdict::Refuted => reached = Reached {
                shut: steps,
                tried: steps,
            },
            Verdict::Open => reached = Reached {
                shut: reached.shut,
                tried: steps,
            },
        }
    }
}

// The nearest number of steps with a roster, by halves of what is between what is reached and the end, which gives one.
fn narrow<R: Threads + Sync, G: Gate>(
    rt: &R,
    alloc: Global,
    asked: &Asked<'_, G>,
    change: Change,
    start: Doubled,
) -> Result<Outcome, AllocError>
    requires change { IsChange asked.now.problem.now change }
    requires budget { (1 ≤ asked.now.effort.budget) × (asked.now.effort.budget ≤ GREATEST_BUDGET) }
    requires doubled { HasDoubled asked.now.problem.now asked.now.effort change start }
    requires roster { HasRoster (loosened asked.now.problem.now change start.end) }
    ensures { IfOk result (IsOutcome asked.now.problem.now asked.now.effort change) }
{
    let mut reached = start.reached;
    let mut nearest = start.end;
    while reached.tried + 1 < nearest {
        let steps = reached.tried + (nearest - reached.tried) / 2;
        match judge(rt, alloc, asked, change, reached.tried, steps)? {
            Verdict::Enough(fewer) => nearest = fewer,
            Verdict::Refuted => reached = Reached {
                shut: steps,
                tried: steps,
            },
            Verdict::Open => reached = Reached {
                shut: reached.shut,
                tried: steps,
            },
        }
    }
    Ok(Outcome::Helps {
        steps: nearest,
        is_nearest: reached.shut == reached.tried,
    })
}

// The outcome where so many steps give a roster: one step is planned, two, four and so on below them, and then halves
// between the last that gave none and the first that gives one.
fn nearest_of<R: Threads + Sync, G: Gate>(
    rt: &R,
    alloc: Global,
    asked: &Asked<'_, G>,
    change: Change,
    found: u32,
) -> Result<Outcome, AllocError>
    requires change { IsChange asked.now.problem.now change }
    requires budget { (1 ≤ asked.now.effort.budget) × (asked.now.effort.budget ≤ GREATEST_BUDGET) }
    requires step { IsStep asked.now.problem.now change found }
    requires few { found ≤ GREATEST_BOUND }
    requires roster { HasRoster (loosened asked.now.problem.now change found) }
    ensures { IfOk result (IsOutcome asked.now.problem.now asked.now.effort change) }
{
    let near = double(rt, alloc, asked, change, 0, found, false)?;
    narrow(rt, alloc, asked, change, near)
}

/// The outcome where the plan with all steps is left open, and it is known of some that they give no roster: a bound
/// of many days is that of no short rule, and what is nearer may be easier to decide. So one step is planned, two,
/// four and so on.
pub fn outcome_by_doubling<R: Threads + Sync, G: Gate>(
    rt: &R,
    alloc: Global,
    asked: &Asked<'_, G>,
    change: Change,
    most: u32,
    shut: u32,
) -> Result<Outcome, AllocError>
    requires change { IsChange asked.now.problem.now change }
    requires budget { (1 ≤ asked.now.effort.budget) × (asked.now.effort.budget ≤ GREATEST_BUDGET) }
    requires most { (shut < most) × (most ≡ most_steps asked.now.problem.now change) }
    requires few { most ≤ GREATEST_BOUND }
    requires open { IsLeftOpen (loosened asked.now.problem.now change most) asked.now.effort }
    requires none { NoneUpTo asked.now.problem.now change shut }
    requires numbers { IsOfDemand change → IsNextOpen asked.now.problem.now asked.now.effort change shut }
    ensures { IfOk result (IsOutcome asked.now.problem.now asked.now.effort change) }
{
    let near = double(rt, alloc, asked, change, shut, most, true)?;
    if near.end < most {
        narrow(rt, alloc, asked, change, near)
    } else {
        Ok(Outcome::Open)
    }
}

// Whether the change is one of a demand.
fn is_of_demand(change: Change) -> bool
    ensures { IsTrue result ↔ IsOfDemand change }
{
    match change {
        Change::LowerDemand { .. } | Change::HigherDemand { .. } => true,
        _ => false,
    }
}

// The outcome where the plan with all steps is left open.
fn outcome_of_open<R: Threads + Sync, G: Gate>(
    rt: &R,
    alloc: Global,
    asked: &Asked<'_, G>,
    change: Change,
    most: u32,
) -> Result<Outcome, AllocError>
    requires change { IsChange asked.now.problem.now change }
    requires budget { (1 ≤ asked.now.effort.budget) × (asked.now.effort.budget ≤ GREATEST_BUDGET) }
    requires most { (0 < most) × (most ≡ most_steps asked.now.problem.now change) }
    requires few { most ≤ GREATEST_BOUND }
    requires open { IsLeftOpen (loosened asked.now.problem.now change most) asked.now.effort }
    requires none { HasNone asked.now.problem.now }
    ensures { IfOk result (IsOutcome asked.now.problem.now asked.now.effort change) }
{
    if is_of_demand(change) {
        outcome_by_numbers(rt, alloc, asked, change, most)
    } else {
        outcome_by_doubling(rt, alloc, asked, change, most, 0)
    }
}

// The outcome of a change of a demand that short logs decide.
fn soon_decided<R: Threads + Sync, G: Gate>(
    rt: &R,
    alloc: Global,
    asked: &Asked<'_, G>,
    change: Change,
    most: u32,
) -> Result<Option<Outcome>, AllocError>
    requires change { IsChange asked.now.problem.now change }
    requires budget { (1 ≤ asked.now.effort.budget) × (asked.now.effort.budget ≤ GREATEST_BUDGET) }
    requires most { most ≡ most_steps asked.now.problem.now change }
    requires none { HasNone asked.now.problem.now }
    ensures { IfOk result (λ found. IfSome found (IsOutcome asked.now.problem.now asked.now.effort change)) }
{
    match change {
        Change::LowerDemand { .. } | Change::HigherDemand { .. } => {
            outcome_by_few_lines(rt, alloc, asked, change, most)
        }
        _ => Ok(None),
    }
}

/// The outcome of a change. All steps are planned first: where they give no roster, none do, and one plan says so.
/// Where they are left open, each number of a demand is planned. Then come one step, two, four and so on, and where
/// there is a roster, halves between: the plans grow with the logarithm of the steps.
pub fn outcome_of<R: Threads + Sync, G: Gate>(
    rt: &R,
    alloc: Global,
    asked: &Asked<'_, G>,
    change: Change,
) -> Result<Outcome, AllocError>
    requires change { IsChange asked.now.problem.now change }
    requires budget { (1 ≤ asked.now.effort.budget) × (asked.now.effort.budget ≤ GREATEST_BUDGET) }
    requires none { HasNone asked.now.problem.now }
    ensures { IfOk result (IsOutcome asked.now.problem.now asked.now.effort change) }
{
    let most = most_steps(asked.problem, change);
    if most == 0 {
        return Ok(Outcome::Shut);
    }
    if let Some(outcome) = soon_decided(rt, alloc, asked, change, most)? {
        return Ok(outcome);
    }
    match judge(rt, alloc, asked, change, 0, most)? {
        Verdict::Enough(steps) => nearest_of(rt, alloc, asked, change, steps),
        Verdict::Refuted => Ok(Outcome::Shut),
        Verdict::Open => outcome_of_open(rt, alloc, asked, change, most),
    }
}
