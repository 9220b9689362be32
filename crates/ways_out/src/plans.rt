// Whether a problem with something loosened has a roster.
ghost use Rattle.std.specs.Prelude.{◌<◌, ◌≤◌, IfOk};
ghost use Rattle.rwsp_terms.specs.declared.limits.TheConstants.{GREATEST_BUDGET};
ghost use Rattle.refutation_log.specs.Planned.{IsCounted, IsPlanned};
ghost use Rattle.ways_out.specs.Loosened.{loosened, IsChange, IsStep};
ghost use Rattle.ways_out.specs.Helping.{IsPlan};
ghost use Rattle.ways_out.specs.Verdicts.{IsVerdict};

use crate::change::Change;
use crate::enough::fewer_steps;
use crate::loosening::loosen;
use clean_words::Gate;
use refutation_log::Found;
use roster_planner::{Effort, plan_refutable};
use rwsp_model::Problem;
use std::alloc::{AllocError, Global};
use std::thread::Threads;

/// What all plans of changes have in common: the problem that is changed, the effort of each plan, and the gate before
/// its workers.
#[derive(Drop)]
pub struct Asked<'a, G> {
    pub problem: &'a Problem,
    pub effort: Effort,
    pub gate: &'a G,
    /// Whether the problem's own log is short. If so, single numbers are likely to be refuted by short logs too.
    pub is_short: bool,
}

/// What a plan says of a problem with so many steps of a change.
#[derive(Clone, Copy)]
pub enum Verdict {
    /// It has a roster, and with so many steps too, which are no more.
    Enough(u32),
    /// It has none.
    Refuted,
    /// The plan has spent its budget.
    Open,
}

/// The plan of a problem with this effort, in haste, since most changes are no way out. Every plan of this crate is made
/// by this call.
pub fn plan_within<R: Threads + Sync, G: Gate>(
    rt: &R,
    alloc: Global,
    problem: &Problem,
    effort: Effort,
    gate: &G,
) -> Result<Found, AllocError>
    requires { (1 ≤ effort.budget) × (effort.budget ≤ GREATEST_BUDGET) }
    ensures planned { IfOk result (IsPlanned problem.now effort.budget) }
    ensures counted { IfOk result (IsCounted problem.now effort.counts) }
{
    plan_refutable(rt, alloc, problem, effort, gate)
}

// What is found says of the problem with so many steps of a change. A roster is tried with fewer steps, but with more
// than `low`.
fn verdict_of<G>(
    alloc: Global,
    asked: &Asked<'_, G>,
    change: Change,
    low: u32,
    steps: u32,
    found: Found,
) -> Result<Verdict, AllocError>
    requires change { IsChange asked.now.problem.now change }
    requires steps { (low < steps) × IsStep asked.now.problem.now change steps }
    requires plan { IsPlan (loosened asked.now.problem.now change steps) asked.now.effort found }
    ensures { IfOk result (IsVerdict asked.now.problem.now asked.now.effort change low steps) }
{
    match found {
        Found::Roster(roster) => Ok(Verdict::Enough(fewer_steps(
            alloc,
            asked.problem,
            change,
            &roster,
            low,
            steps,
        )?)),
        Found::NoRoster(_) => Ok(Verdict::Refuted),
        Found::Undecided(_) => Ok(Verdict::Open),
    }
}

/// What a plan says of the problem with so many steps of a change. Where there is a roster, it is tried with fewer
/// steps too, but with more than `low`.
pub fn judge<R: Threads + Sync, G: Gate>(
    rt: &R,
    alloc: Global,
    asked: &Asked<'_, G>,
    change: Change,
    low: u32,
    steps: u32,
) -> Result<Verdict, AllocError>
    requires change { IsChange asked.now.problem.now change }
    requires steps { (low < steps) × IsStep asked.now.problem.now change steps }
    requires budget { (1 ≤ asked.now.effort.budget) × (asked.now.effort.budget ≤ GREATEST_BUDGET) }
    ensures { IfOk result (IsVerdict asked.now.problem.now asked.now.effort change low steps) }
{
    let loosened = loosen(alloc, asked.problem, change, steps)?;
    let found = plan_within(rt, alloc, &loosened, asked.effort, asked.gate);
    drop(loosened);
    verdict_of(alloc, asked, change, low, steps, found?)
}
