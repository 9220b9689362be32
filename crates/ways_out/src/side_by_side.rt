// The outcomes of many changes, by workers side by side.
ghost use Rattle.std.specs.Prelude.{◌<◌, ◌≤◌, length, All, IfOk, IfSome};
ghost use Rattle.std.specs.List.{AllZip};
ghost use Rattle.rwsp_terms.specs.declared.limits.TheConstants.{GREATEST_BUDGET, MOST_WORKERS};
ghost use Rattle.ways_out.specs.Loosened.{IsChange};
ghost use Rattle.ways_out.specs.Helping.{HasNone, Refutes, IsOutcome};
ghost use Rattle.ways_out.specs.Shares.{IsOutcomeAt, IsShare, AreShares};

use crate::change::{Change, Outcome};
use crate::listed::changed_rule;
use crate::nearest::outcome_of;
use crate::plans::Asked;
use crate::shown::is_shown;
use crate::together::Shown;
use clean_words::Gate;
use rwsp_model::number_of;
use rwsp_terms::RuleList;
use std::alloc::{AllocError, Global};
use std::sync::atomic::{AtomicUsize, Ordering};
use std::thread;
use std::thread::Threads;

/// The outcome of the change at a place.
#[derive(Clone, Copy)]
pub struct Placed {
    pub place: usize,
    pub outcome: Outcome,
}

/// A problem without a roster, the rules that show it, and the groups of changes that were refuted together.
#[derive(Drop)]
pub struct Refuted<'a, G> {
    pub asked: Asked<'a, G>,
    pub named: &'a RuleList,
    pub shown: &'a [Shown],
}

// The outcome of a change that a log of a group refutes, or which is planned.
fn outcome_by_group<R: Threads + Sync, G: Gate>(
    rt: &R,
    alloc: Global,
    refuted: &Refuted<'_, G>,
    change: Change,
) -> Result<Outcome, AllocError>
    requires change { IsChange refuted.now.asked.problem.now change }
    requires none { HasNone refuted.now.asked.problem.now }
    requires budget { (1 ≤ refuted.now.asked.effort.budget) × (refuted.now.asked.effort.budget ≤ GREATEST_BUDGET) }
    ensures { IfOk result (IsOutcome refuted.now.asked.problem.now refuted.now.asked.effort change) }
{
    if is_shown(alloc, refuted.asked.problem, refuted.shown, change)? {
        return Ok(Outcome::Shut);
    }
    outcome_of(rt, alloc, &refuted.asked, change)
}

// The outcome of a change. One of a rule that isn't named needs no plan: with the others as they are there is no
// roster.
fn outcome_by_rule<R: Threads + Sync, G: Gate>(
    rt: &R,
    alloc: Global,
    refuted: &Refuted<'_, G>,
    change: Change,
) -> Result<Outcome, AllocError>
    requires change { IsChange refuted.now.asked.problem.now change }
    requires refutes { Refutes refuted.now.asked.problem.now refuted.now.named.now }
    requires budget { (1 ≤ refuted.now.asked.effort.budget) × (refuted.now.asked.effort.budget ≤ GREATEST_BUDGET) }
    ensures { IfOk result (IsOutcome refuted.now.asked.problem.now refuted.now.asked.effort change) }
{
    let number = number_of(refuted.asked.problem, changed_rule(change));
    if refuted.named.holds(number) {
        outcome_by_group(rt, alloc, refuted, change)
    } else {
        Ok(Outcome::Shut)
    }
}

// The outcomes of the changes that a worker takes, behind the gate: the next one that no worker has taken, as long as
// there is one. So no worker idles while others have several to do.
fn share<R: Threads + Sync, G: Gate>(
    rt: &R,
    alloc: Global,
    refuted: &Refuted<'_, G>,
    changes: &[Change],
    next: &AtomicUsize,
    worker: usize,
) -> Result<Vec<Placed>, AllocError>
    requires changes { All (IsChange refuted.now.asked.problem.now) changes.now }
    requires refutes { Refutes refuted.now.asked.problem.now refuted.now.named.now }
    requires budget { (1 ≤ refuted.now.asked.effort.budget) × (refuted.now.asked.effort.budget ≤ GREATEST_BUDGET) }
    requires worker { worker < MOST_WORKERS }
    ensures { IfOk result (λ v. IsShare refuted.now.asked.problem.now refuted.now.asked.effort changes.now v.items) }
{
    refuted.asked.gate.enter(worker as u32 + 1);
    let mut outcomes = Vec::new(alloc);
    for _ in 0..changes.len() {
        let place = next.fetch_add(1, Ordering::SeqCst);
        if place >= changes.len() {
            break;
        }
        let outcome = outcome_by_rule(rt, alloc, refuted, changes[place])?;
        outcomes.push(Placed { place, outcome })?;
    }
    Ok(outcomes)
}

// The outcome of the change at a place, where this worker took it.
fn outcome_in<G>(
    refuted: &Refuted<'_, G>,
    changes: &[Change],
    outcomes: &[Placed],
    place: usize,
) -> Option<Outcome>
    requires { IsShare refuted.now.asked.problem.now refuted.now.asked.effort changes.now outcomes.now }
    ensures { IfSome result (IsOutcomeAt refuted.now.asked.problem.now refuted.now.asked.effort changes.now place) }
{
    for taken in 0..outcomes.len() {
        if outcomes[taken].place == place {
            return Some(outcomes[taken].outcome);
        }
    }
    None
}

// The outcome of the change at a place, where a worker took it. The lists are looked through, which takes as many steps
// as there are changes: next to a plan, nothing.
fn taken_at<G>(
    refuted: &Refuted<'_, G>,
    changes: &[Change],
    shares: &[Result<Vec<Placed>, AllocError>],
    place: usize,
) -> Result<Option<Outcome>, AllocError>
    requires { AreShares refuted.now.asked.problem.now refuted.now.asked.effort changes.now shares.now }
    ensures { IfOk result (λ found. IfSome found
        (IsOutcomeAt refuted.now.asked.problem.now refuted.now.asked.effort changes.now place)) }
{
    for worker in 0..shares.len() {
        match &shares[worker] {
            Ok(outcomes) => {
                let found = outcome_in(refuted, changes, outcomes, place);
                if found.is_some() {
                    return Ok(found);
                }
            }
            Err(_) => return Err(AllocError),
        }
    }
    Ok(None)
}

// The outcome of the change at a place. No clause says that the workers take every change, so one that none took would
// be looked at here.
fn outcome_at<R: Threads + Sync, G: Gate>(
    rt: &R,
    alloc: Global,
    refuted: &Refuted<'_, G>,
    changes: &[Change],
    shares: &[Result<Vec<Placed>, AllocError>],
    place: usize,
) -> Result<Outcome, AllocError>
    requires changes { All (IsChange refuted.now.asked.problem.now) changes.now }
    requires refutes { Refutes refuted.now.asked.problem.now refuted.now.named.now }
    requires budget { (1 ≤ refuted.now.asked.effort.budget) × (refuted.now.asked.effort.budget ≤ GREATEST_BUDGET) }
    requires shares { AreShares refuted.now.asked.problem.now refuted.now.asked.effort changes.now shares.now }
    requires place { place < length changes.now }
    ensures { IfOk result
        (IsOutcomeAt refuted.now.asked.problem.now refuted.now.asked.effort changes.now place) }
{
    match taken_at(refuted, changes, shares, place)? {
        Some(outcome) => Ok(outcome),
        None => outcome_by_rule(rt, alloc, refuted, changes[place]),
    }
}

// The outcomes of all workers, in the order of the changes.
fn in_order<R: Threads + Sync, G: Gate>(
    rt: &R,
    alloc: Global,
    refuted: &Refuted<'_, G>,
    changes: &[Change],
    shares: &[Result<Vec<Placed>, AllocError>],
) -> Result<Vec<Outcome>, AllocError>
    requires changes { All (IsChange refuted.now.asked.problem.now) changes.now }
    requires refutes { Refutes refuted.now.asked.problem.now refuted.now.named.now }
    requires budget { (1 ≤ refuted.now.asked.effort.budget) × (refuted.now.asked.effort.budget ≤ GREATEST_BUDGET) }
    requires shares { AreShares refuted.now.asked.problem.now refuted.now.asked.effort changes.now shares.now }
    ensures { IfOk result (λ v.
        AllZip (IsOutcome refuted.now.asked.problem.now refuted.now.asked.effort) changes.now v.items) }
{
    let mut outcomes = Vec::new(alloc);
    for place in 0..changes.len() {
        outcomes.push(outcome_at(rt, alloc, refuted, changes, shares, place)?)?;
    }
    Ok(outcomes)
}

/// The outcome of each change, by as many workers: each passes the gate, and then takes the next change that none has
/// taken. What is said of an outcome doesn't depend on how many there are.
pub fn outcomes_of<R: Threads + Sync, G: Gate>(
    rt: &R,
    alloc: Global,
    refuted: &Refuted<'_, G>,
    changes: &[Change],
    workers: u32,
) -> Result<Vec<Outcome>, AllocError>
    requires changes { All (IsChange refuted.now.asked.problem.now) changes.now }
    requires refutes { Refutes refuted.now.asked.problem.now refuted.now.named.now }
    requires budget { (1 ≤ refuted.now.asked.effort.budget) × (refuted.now.asked.effort.budget ≤ GREATEST_BUDGET) }
    requires workers { (1 ≤ workers) × (workers ≤ MOST_WORKERS) }
    ensures { IfOk result (λ v.
        AllZip (IsOutcome refuted.now.asked.problem.now refuted.now.asked.effort) changes.now v.items) }
{
    let next = AtomicUsize::new(0);
    let shares = thread::map_indices(
        rt,
        alloc,
        workers as usize,
        &|worker: usize| -> Result<Vec<Placed>, AllocError>
            requires changes { All (IsChange refuted.now.asked.problem.now) changes.now }
            requires refutes { Refutes refuted.now.asked.problem.now refuted.now.named.now }
            requires budget { (1 ≤ refuted.now.asked.effort.budget)
                × (refuted.now.asked.effort.budget ≤ GREATEST_BUDGET) }
            requires worker { worker < MOST_WORKERS }
            ensures { IfOk result (λ v. IsShare refuted.entry.now.asked.problem.now refuted.entry.now.asked.effort
                changes.entry.now v.items) }
        { share(rt, alloc, refuted, changes, &next, worker) },
    )?;
    in_order(rt, alloc, refuted, changes, &shares)
}
