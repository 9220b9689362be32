// A roster for a problem, or a refutation.
ghost use Rattle.std.specs.Prelude.{◌≡◌, ◌≤◌, length, nat_le, true, false, IfOk, OnOk};
ghost use Rattle.refutation_terms.specs.Log.{Fits, Passes};
ghost use Rattle.refutation_terms.specs.Strip.{IsReduced};
ghost use Rattle.refutation_log.specs.declared.found.Found.TheVariants as Founds;
ghost use Rattle.commands.specs.Plan.{IsPlanTold, TellsShortly, IsPlanAnswer, plan_text, plan_status, IsPlanOf};

use crate::telling::{log_told, put_refuted};
use clean_words::Gate;
use plain_words::pieces::{BUDGET_SPENT, MEND_LOOKS, REDUCE_MAY};
use plain_words::{Rosters, put_log_told, put_reduced_told, put_told};
use refutation_log::{Found, Log, print_log};
pub use roster_planner::Effort;
use roster_planner::plan_roster;
use roster_print::print_roster;
use rule_reducer::reduce_passing;
use rwsp_model::Problem;
use rwsp_terms::limits::GREATEST_BUDGET;
use std::alloc::{AllocError, Global};
use std::thread::Threads;

/// The most lines of a log that is reduced before it is told.
pub const MOST_LINES_REDUCED: u32 = 2_000;

/// The plan of the problem with this effort, and the random numbers of the seed.
pub fn job<R: Threads + Sync, G: Gate>(
    rt: &R,
    alloc: Global,
    problem: &Problem,
    effort: Effort,
    seed: u32,
    gate: &G,
) -> Result<Found, AllocError>
    requires { (1 ≤ effort.budget) × (effort.budget ≤ GREATEST_BUDGET) }
    ensures found { IfOk result (IsPlanAnswer problem.now effort.budget effort.counts) }
    ensures own { IfOk result (IsPlanOf problem.now) }
{
    plan_roster(rt, alloc, problem, effort, seed, gate)
}

/// The text of a plan: a roster, or a log.
pub fn text(alloc: Global, problem: &Problem, found: &Found) -> Result<Vec<u8>, AllocError>
    requires { IsPlanOf problem.now found.now }
    ensures { IfOk result (λ v. v.items ≡ plan_text problem.now found.now) }
{
    match found {
        Found::Roster(roster) => print_roster(alloc, problem, roster),
        Found::NoRoster(log) | Found::Undecided(log) => print_log(alloc, problem, log),
    }
}

/// What is told of the answer.
pub fn told(alloc: Global, problem: &Problem, found: &Found) -> Result<Vec<u8>, AllocError>
    requires { IsPlanOf problem.now found.now }
    ensures { IfOk result (λ v. IsPlanTold problem.now found.now v.items) }
{
    match found {
        Found::Roster(_) => Ok(Vec::new(alloc)),
        Found::NoRoster(log) => refuted_told(alloc, problem, log),
        Found::Undecided(log) => log_told(alloc, problem, BUDGET_SPENT, log),
    }
}

// What is told of the log of a refutation.
fn refuted_told(alloc: Global, problem: &Problem, log: &Log) -> Result<Vec<u8>, AllocError>
    requires { Passes problem.now log.now }
    ensures { IfOk result (λ v. IsPlanTold problem.now (Founds.NoRoster log.now) v.items) }
{
    let mut out = Vec::new(alloc);
    put_refuted(&mut out, problem, log)?;
    put_shortly(&mut out, problem, log)?;
    put_told(&mut out, problem, MEND_LOOKS, &[])?;
    Ok(out)
}

// Tells of a log: of one that isn't long, what reducing leaves of it.
fn put_shortly(out: &mut Vec<u8>, problem: &Problem, log: &Log) -> Result<(), AllocError>
    requires { Passes problem.now log.now }
    ensures { OnOk result (TellsShortly (nat_le (length log.now.lines) MOST_LINES_REDUCED) problem.now log.now
        out.old.items out.new.items) }
{
    if log.lines().len() <= MOST_LINES_REDUCED as usize {
        put_reduction(out, problem, log)
    } else {
        put_whole(out, problem, log)
    }
}

// Tells of what reducing leaves of a log.
fn put_reduction(out: &mut Vec<u8>, problem: &Problem, log: &Log) -> Result<(), AllocError>
    requires { Passes problem.now log.now }
    ensures { OnOk result (TellsShortly true problem.now log.now out.old.items out.new.items) }
{
    let reduced = reduction(*out.allocator(), problem, log)?;
    put_reduced_told(out, problem, log.named().numbers().len(), &reduced)?;
    Ok(())
}

// Tells of a whole log, and that reducing it may help.
fn put_whole(out: &mut Vec<u8>, problem: &Problem, log: &Log) -> Result<(), AllocError>
    requires { Fits problem.now log.now }
    ensures { OnOk result (TellsShortly false problem.now log.now out.old.items out.new.items) }
{
    put_log_told(out, problem, Rosters::Every, log)?;
    put_told(out, problem, REDUCE_MAY, &[])?;
    Ok(())
}

// What reducing leaves of a log that passes.
fn reduction(alloc: Global, problem: &Problem, log: &Log) -> Result<Log, AllocError>
    requires { Passes problem.now log.now }
    ensures reduced { IfOk result (IsReduced problem.now log.now) }
    ensures fits { IfOk result (Fits problem.now) }
{
    let copied = log.copy()?;
    reduce_passing(alloc, problem, copied)
}

/// The status of a plan.
pub fn status(found: &Found) -> u8
    ensures { result ≡ plan_status found.now }
{
    match found {
        Found::Roster(_) => 0,
        Found::NoRoster(_) => 1,
        Found::Undecided(_) => 4,
    }
}
