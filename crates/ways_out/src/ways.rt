// The ways out of a problem.
ghost use Rattle.std.specs.Prelude.{◌≡◌, ◌≤◌, IfOk};
ghost use Rattle.rwsp_terms.specs.declared.limits.TheConstants.{GREATEST_BUDGET, MOST_WORKERS};
ghost use Rattle.refutation_terms.specs.Log.{Passes};
ghost use Rattle.refutation_terms.specs.Verdict.{kind_of_log};
ghost use Rattle.refutation_terms.specs.declared.lines.LogKind.TheVariants.{WithoutGoal};
ghost use Rattle.ways_out.specs.Answers.{AreWaysOut, AreWaysOf};
ghost use Rattle.ways_out.specs.Helping.{Refutes};

use crate::answer::WaysOut;
use crate::listed::changes_in;
use crate::plans::{Asked, plan_within};
use crate::side_by_side::{Refuted, outcomes_of};
use crate::together::shown_together;
use clean_words::Gate;
use refutation_log::{Found, Log};
use roster_planner::{Effort, FEW_LINES};
use rule_reducer::reduce_passing;
use rwsp_model::Problem;
use std::alloc::{AllocError, Global};
use std::thread::Threads;

// What is left of a log that passes, without the rules that it can do without. Its rules show that there is no roster.
fn reduced(alloc: Global, problem: &Problem, log: Log) -> Result<Log, AllocError>
    requires passes { Passes problem.now log }
    requires kind { kind_of_log log ≡ WithoutGoal }
    ensures { IfOk result (λ left. Refutes problem.now left.named) }
{
    let left = reduce_passing(alloc, problem, log)?;
    Ok(left)
}

// The outcome of each change where the rules of the log show that there is no roster.
fn outcomes_by_log<R: Threads + Sync, G: Gate>(
    rt: &R,
    alloc: Global,
    asked: Asked<'_, G>,
    log: &Log,
    workers: u32,
) -> Result<WaysOut, AllocError>
    requires refutes { Refutes asked.problem.now log.now.named }
    requires budget { (1 ≤ asked.effort.budget) × (asked.effort.budget ≤ GREATEST_BUDGET) }
    requires workers { (1 ≤ workers) × (workers ≤ MOST_WORKERS) }
    ensures says { IfOk result (AreWaysOut asked.entry.problem.now asked.entry.effort) }
    ensures own { IfOk result (AreWaysOf asked.entry.problem.now) }
{
    let changes = changes_in(alloc, asked.problem)?;
    let shown = shown_together(rt, alloc, &asked, log, &changes)?;
    let refuted = Refuted {
        asked,
        named: log.named(),
        shown: &shown,
    };
    let outcomes = outcomes_of(rt, alloc, &refuted, &changes, workers)?;
    Ok(WaysOut::Changes(outcomes))
}

/// Whether the problem has a roster, and if it has none, which numbers of it to change, each by itself, so that it has
/// one. Each plan has the whole effort. Changes of rules that the refutation can do without are no way out; those of the
/// others are planned by the workers side by side, who pass the gate, as those of each plan do.
///
/// What is said doesn't depend on the number of workers, and where no plan spends its budget nothing else can be said
/// (`ways_agree`).
pub fn ways_out<R: Threads + Sync, G: Gate>(
    rt: &R,
    alloc: Global,
    problem: &Problem,
    effort: Effort,
    workers: u32,
    gate: &G,
) -> Result<WaysOut, AllocError>
    requires budget { (1 ≤ effort.budget) × (effort.budget ≤ GREATEST_BUDGET) }
    requires workers { (1 ≤ workers) × (workers ≤ MOST_WORKERS) }
    ensures says { IfOk result (AreWaysOut problem.now effort) }
    ensures own { IfOk result (AreWaysOf problem.now) }
{
    let log = match plan_within(rt, alloc, problem, effort, gate)? {
        Found::Roster(roster) => return Ok(WaysOut::NoNeed(roster)),
        Found::Undecided(log) => return Ok(WaysOut::Undecided(log)),
        Found::NoRoster(log) => reduced(alloc, problem, log)?,
    };
    let asked = Asked {
        problem,
        effort,
        gate,
        is_short: log.lines().len() < FEW_LINES as usize,
    };
    let ways = outcomes_by_log(rt, alloc, asked, &log, workers);
    drop(log);
    ways
}
