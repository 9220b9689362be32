// Plans of several numbers of steps of a change, side by side.
ghost use Rattle.std.specs.Prelude.{◌<◌, ◌≤◌, IfOk, IfSome, OnOk};
ghost use Rattle.rwsp_terms.specs.declared.limits.TheConstants.{GREATEST_BOUND, GREATEST_BUDGET};
ghost use Rattle.ways_out.specs.Loosened.{most_steps, IsChange, IsStep};
ghost use Rattle.ways_out.specs.Verdicts.{IsMadeOf, AreMadeOf, IsVerdict};

use crate::change::Change;
use crate::plans::{Asked, Verdict, judge};
use clean_words::Gate;
use std::alloc::{AllocError, Global};
use std::thread;
use std::thread::Threads;

/// What a plan said of the problem with so many steps of a change. A roster was tried with fewer, but with more than
/// `low`.
#[derive(Clone, Copy)]
pub struct Made {
    pub low: u32,
    pub steps: u32,
    pub verdict: Verdict,
}

// What a plan says of the next power of two above `low`, doubled so many times, if that is below so many.
fn made_at<R: Threads + Sync, G: Gate>(
    rt: &R,
    alloc: Global,
    asked: &Asked<'_, G>,
    change: Change,
    low: u32,
    below: u32,
    times: usize,
) -> Result<Option<Made>, AllocError>
    requires change { IsChange asked.now.problem.now change }
    requires budget { (1 ≤ asked.now.effort.budget) × (asked.now.effort.budget ≤ GREATEST_BUDGET) }
    requires order { low < below }
    requires steps { below ≤ most_steps asked.now.problem.now change }
    requires few { below ≤ GREATEST_BOUND }
    ensures { IfOk result (λ made. IfSome made (IsMadeOf asked.now.problem.now asked.now.effort change)) }
{
    let next = (low + 1).next_power_of_two();
    let times = times.min(u32::BITS as usize) as u32;
    let steps = next.saturating_mul(2u32.saturating_pow(times));
    let low = low.max(steps / 2);
    if steps <= low || steps >= below {
        return Ok(None);
    }
    let verdict = judge(rt, alloc, asked, change, low, steps)?;
    Ok(Some(Made {
        low,
        steps,
        verdict,
    }))
}

// The plans of the next powers of two above `low`, at most so many, as far as these are below so many steps. Each is
// made in a thread of its own.
fn made_ahead<R: Threads + Sync, G: Gate>(
    rt: &R,
    alloc: Global,
    asked: &Asked<'_, G>,
    change: Change,
    low: u32,
    below: u32,
    many: usize,
) -> Result<Vec<Result<Option<Made>, AllocError>>, AllocError>
    requires change { IsChange asked.now.problem.now change }
    requires budget { (1 ≤ asked.now.effort.budget) × (asked.now.effort.budget ≤ GREATEST_BUDGET) }
    requires order { low < below }
    requires steps { below ≤ most_steps asked.now.problem.now change }
    requires few { below ≤ GREATEST_BOUND }
    ensures { IfOk result (λ v. AreMadeOf asked.now.problem.now asked.now.effort change v.items) }
{
    thread::map_indices(
        rt,
        alloc,
        many,
        &|times: usize| -> Result<Option<Made>, AllocError>
            requires change { IsChange asked.now.problem.now change }
            requires budget { (1 ≤ asked.now.effort.budget) × (asked.now.effort.budget ≤ GREATEST_BUDGET) }
            requires order { low < below }
            requires steps { below ≤ most_steps asked.now.problem.now change }
            requires few { below ≤ GREATEST_BOUND }
            ensures { IfOk result (λ made.
                IfSome made (IsMadeOf asked.entry.now.problem.now asked.entry.now.effort change)) }
        { made_at(rt, alloc, asked, change, low, below, times) },
    )
}

// What the plans say of so many steps, where one was made of them with this `low`.
fn said_of<G>(
    asked: &Asked<'_, G>,
    change: Change,
    made: &[Result<Option<Made>, AllocError>],
    low: u32,
    steps: u32,
) -> Result<Option<Verdict>, AllocError>
    requires { AreMadeOf asked.now.problem.now asked.now.effort change made.now }
    ensures { IfOk result (λ said. IfSome said (IsVerdict asked.now.problem.now asked.now.effort change low steps)) }
{
    for place in 0..made.len() {
        match &made[place] {
            Ok(Some(one)) => {
                if one.low == low && one.steps == steps {
                    return Ok(Some(one.verdict));
                }
            }
            Ok(None) => {}
            Err(_) => return Err(AllocError),
        }
    }
    Ok(None)
}

/// What a plan says of so many steps, the next power of two above `low`: one of those that were made ahead, or else of
/// the next of them, so many side by side. What is said doesn't depend on how many these are.
pub fn judge_ahead<R: Threads + Sync, G: Gate>(
    rt: &R,
    alloc: Global,
    asked: &Asked<'_, G>,
    change: Change,
    made: &mut Vec<Result<Option<Made>, AllocError>>,
    low: u32,
    steps: u32,
    below: u32,
    many: usize,
) -> Result<Verdict, AllocError>
    requires change { IsChange asked.now.problem.now change }
    requires budget { (1 ≤ asked.now.effort.budget) × (asked.now.effort.budget ≤ GREATEST_BUDGET) }
    requires order { (low < steps) × (steps < below) }
    requires steps { below ≤ most_steps asked.now.problem.now change }
    requires few { below ≤ GREATEST_BOUND }
    requires made { AreMadeOf asked.now.problem.now asked.now.effort change made.old.items }
    ensures said { IfOk result (IsVerdict asked.now.problem.now asked.now.effort change low steps) }
    ensures made { OnOk result (AreMadeOf asked.now.problem.now asked.now.effort change made.new.items) }
{
    if let Some(verdict) = said_of(asked, change, made, low, steps)? {
        return Ok(verdict);
    }
    *made = made_ahead(rt, alloc, asked, change, low, below, many)?;
    match said_of(asked, change, made, low, steps)? {
        Some(verdict) => Ok(verdict),
        None => judge(rt, alloc, asked, change, low, steps),
    }
}
