// Whether single numbers of a demand give a problem a roster.
ghost use Rattle.std.specs.Prelude.{◌≡◌, ◌<◌, ◌≤◌, IfOk, IfSome};
ghost use Rattle.rwsp_terms.specs.declared.limits.TheConstants.{GREATEST_BOUND, GREATEST_BUDGET};
ghost use Rattle.ways_out.specs.Loosened.{exact, loosened, most_steps, IsChange, IsStep};
ghost use Rattle.ways_out.specs.Together.{IsOfDemand};
ghost use Rattle.ways_out.specs.Helping.{HasNone, IsLeftOpen, IsOutcome, IsPlan};
ghost use Rattle.ways_out.specs.Verdicts.{IsNumberVerdict, SaysOfNumbers};

use crate::change::{Change, Outcome};
use crate::loosening::at_number;
use crate::nearest::outcome_by_doubling;
use crate::plans::{Asked, Verdict, plan_within};
use clean_words::Gate;
use refutation_log::Found;
use roster_planner::{Effort, FEW_LINES};
use std::alloc::{AllocError, Global};
use std::thread::Threads;

/// What plans of one number after the other say of a change.
#[derive(Clone, Copy)]
pub enum Numbers {
    /// Its outcome.
    Decided(Outcome),
    /// There is no roster with so many steps, and the plan of the next number alone has spent its budget.
    Shut(u32),
}

// What is found says of the problem with the demand at a number alone. A roster of that is one of the loosened problem.
fn number_verdict<G>(
    asked: &Asked<'_, G>,
    effort: Effort,
    change: Change,
    steps: u32,
    found: Found,
) -> Verdict
    requires change { IsChange asked.now.problem.now change }
    requires plan { IsPlan (exact asked.now.problem.now change steps) effort found }
    ensures { IsNumberVerdict asked.now.problem.now effort change steps result }
{
    match found {
        Found::Roster(_) => Verdict::Enough(steps),
        Found::NoRoster(_) => Verdict::Refuted,
        Found::Undecided(_) => Verdict::Open,
    }
}

// What a plan says of the problem with the demand at a number alone.
fn judge_number<R: Threads + Sync, G: Gate>(
    rt: &R,
    alloc: Global,
    asked: &Asked<'_, G>,
    effort: Effort,
    change: Change,
    steps: u32,
) -> Result<Verdict, AllocError>
    requires change { IsChange asked.now.problem.now change }
    requires step { IsStep asked.now.problem.now change steps }
    requires budget { (1 ≤ effort.budget) × (effort.budget ≤ GREATEST_BUDGET) }
    ensures { IfOk result (IsNumberVerdict asked.now.problem.now effort change steps) }
{
    let single = at_number(alloc, asked.problem, change, steps)?;
    let found = plan_within(rt, alloc, &single, effort, asked.gate);
    drop(single);
    Ok(number_verdict(asked, effort, change, steps, found?))
}

// What plans of one number after the other say: with no roster at a number and none with fewer steps, there is none with
// so many. One number is decided more easily than a range, by a count of blocks often at once.
fn numbers_of<R: Threads + Sync, G: Gate>(
    rt: &R,
    alloc: Global,
    asked: &Asked<'_, G>,
    effort: Effort,
    change: Change,
    most: u32,
) -> Result<Numbers, AllocError>
    requires change { IsChange asked.now.problem.now change }
    requires budget { (1 ≤ effort.budget) × (effort.budget ≤ GREATEST_BUDGET) }
    requires most { most ≡ most_steps asked.now.problem.now change }
    requires none { HasNone asked.now.problem.now }
    requires demand { IsOfDemand change }
    ensures { IfOk result (SaysOfNumbers asked.now.problem.now asked.now.effort effort change) }
{
    asked.problem.prove_limits();
    let mut shut = 0;
    while shut < most {
        match judge_number(rt, alloc, asked, effort, change, shut + 1)? {
            Verdict::Refuted => shut += 1,
            Verdict::Enough(steps) => return Ok(Numbers::Decided(Outcome::Helps {
                steps,
                is_nearest: true,
            })),
            Verdict::Open => return Ok(Numbers::Shut(shut)),
        }
    }
    Ok(Numbers::Decided(Outcome::Shut))
}

/// The outcome of a change of a demand, where the problem's own log is short and those of single numbers are so too.
pub fn outcome_by_few_lines<R: Threads + Sync, G: Gate>(
    rt: &R,
    alloc: Global,
    asked: &Asked<'_, G>,
    change: Change,
    most: u32,
) -> Result<Option<Outcome>, AllocError>
    requires change { IsChange asked.now.problem.now change }
    requires budget { (1 ≤ asked.now.effort.budget) × (asked.now.effort.budget ≤ GREATEST_BUDGET) }
    requires most { most ≡ most_steps asked.now.problem.now change }
    requires none { HasNone asked.now.problem.now }
    requires demand { IsOfDemand change }
    ensures { IfOk result (λ found. IfSome found (IsOutcome asked.now.problem.now asked.now.effort change)) }
{
    if !asked.is_short {
        return Ok(None);
    }
    let effort = Effort {
        budget: asked.effort.budget.min(FEW_LINES),
        counts: asked.effort.counts,
    };
    match numbers_of(rt, alloc, asked, effort, change, most)? {
        Numbers::Decided(outcome) => Ok(Some(outcome)),
        Numbers::Shut(_) => Ok(None),
    }
}

/// The outcome of a change of a demand whose plan with all steps is left open, by plans of one number after the other.
/// Where a number is left open too, ranges from it on may still be decided.
pub fn outcome_by_numbers<R: Threads + Sync, G: Gate>(
    rt: &R,
    alloc: Global,
    asked: &Asked<'_, G>,
    change: Change,
    most: u32,
) -> Result<Outcome, AllocError>
    requires change { IsChange asked.now.problem.now change }
    requires budget { (1 ≤ asked.now.effort.budget) × (asked.now.effort.budget ≤ GREATEST_BUDGET) }
    requires most { (0 < most) × (most ≡ most_steps asked.now.problem.now change) }
    requires few { most ≤ GREATEST_BOUND }
    requires open { IsLeftOpen (loosened asked.now.problem.now change most) asked.now.effort }
    requires none { HasNone asked.now.problem.now }
    requires demand { IsOfDemand change }
    ensures { IfOk result (IsOutcome asked.now.problem.now asked.now.effort change) }
{
    match numbers_of(rt, alloc, asked, asked.effort, change, most)? {
        Numbers::Decided(outcome) => Ok(outcome),
        Numbers::Shut(shut) => outcome_by_doubling(rt, alloc, asked, change, most, shut),
    }
}
