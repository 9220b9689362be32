// How few weeks are enough.
ghost use Rattle.std.specs.Prelude.{◌≡◌, ◌+◌, ◌≤◌, IfOk};
ghost use Rattle.rwsp_terms.specs.declared.limits.TheConstants.{GREATEST_STAFF_BUDGET};
ghost use Rattle.rwsp_terms.specs.Instance.{shift_count};
ghost use Rattle.domain_store.specs.Cycles.{AreShortRules};
ghost use Rattle.refutation_log.specs.Planned.{IsCounted, IsPlanned};
ghost use Rattle.crew_size.specs.Sizes.{IsSize, with_weeks};
ghost use Rattle.crew_size.specs.Runs.{IsStaffed, IsStaffCounted};
ghost use Rattle.crew_size.specs.Fitting.{FitsSizes};

use crate::Effort;
use crate::planning::plan_over;
use clean_words::{Automaton, Gate, Told};
use crew_size::{StaffEnd, StaffRun};
use refutation_log::Found;
use roster_finder::SteadyLayer;
use rwsp_model::Problem;
use std::alloc::{AllocError, Global};
use std::thread::Threads;

/// The numbers of weeks that are tried, from the first to the last.
#[derive(Clone, Copy)]
pub struct Sizes {
    pub low: u32,
    pub high: u32,
}

// What doesn't depend on the weeks, made once for all of them.
#[derive(Clone, Copy)]
struct Made<'a> {
    automaton: &'a Automaton,
    layer: &'a SteadyLayer,
}

/// Plans the problem for the lowest number of weeks, and for one more as long as there is a refutation, up to the
/// highest; each number of weeks has the whole budget. The workers of a plan pass the gate.
pub fn least_crew<R: Threads + Sync, G: Gate>(
    rt: &R,
    alloc: Global,
    problem: &Problem,
    sizes: Sizes,
    effort: Effort,
    gate: &G,
) -> Result<StaffRun, AllocError>
    requires sizes { (1 ≤ sizes.low) × (sizes.low ≤ sizes.high) }
    requires most { IsSize problem.now sizes.high }
    requires budget { (1 ≤ effort.budget) × (effort.budget ≤ GREATEST_STAFF_BUDGET) }
    ensures staffed { IfOk result (IsStaffed problem.now sizes.low sizes.high effort.budget) }
    ensures counted { IfOk result (IsStaffCounted problem.now effort.counts) }
    ensures fits { IfOk result (FitsSizes problem.now) }
{
    let automaton = Automaton::of_short_rules(alloc, problem, Told::DayOff)?;
    let run = crew_over(rt, alloc, &automaton, sizes, effort, gate);
    drop(automaton);
    run
}

// The same over the automaton of all short rules, with the layer of the problem's words.
fn crew_over<R: Threads + Sync, G: Gate>(
    rt: &R,
    alloc: Global,
    automaton: &Automaton,
    sizes: Sizes,
    effort: Effort,
    gate: &G,
) -> Result<StaffRun, AllocError>
    requires short { AreShortRules automaton.now.problem automaton.now.rules }
    requires sizes { (1 ≤ sizes.low) × (sizes.low ≤ sizes.high) }
    requires most { IsSize automaton.now.problem sizes.high }
    requires budget { (1 ≤ effort.budget) × (effort.budget ≤ GREATEST_STAFF_BUDGET) }
    ensures staffed { IfOk result (IsStaffed automaton.now.problem sizes.low sizes.high effort.budget) }
    ensures counted { IfOk result (IsStaffCounted automaton.now.problem effort.counts) }
    ensures fits { IfOk result (FitsSizes automaton.now.problem) }
{
    let layer = SteadyLayer::of(alloc, automaton.problem())?;
    let made = Made {
        automaton,
        layer: &layer,
    };
    let run = crew_by(rt, alloc, made, sizes, effort, gate);
    drop(layer);
    run
}

// One number of weeks after the other.
fn crew_by<R: Threads + Sync, G: Gate>(
    rt: &R,
    alloc: Global,
    made: Made<'_>,
    sizes: Sizes,
    effort: Effort,
    gate: &G,
) -> Result<StaffRun, AllocError>
    requires short { AreShortRules made.automaton.now.problem made.automaton.now.rules }
    requires symbols { made.layer.now.symbols ≡ shift_count made.automaton.now.problem + 1 }
    requires sizes { (1 ≤ sizes.low) × (sizes.low ≤ sizes.high) }
    requires most { IsSize made.automaton.now.problem sizes.high }
    requires budget { (1 ≤ effort.budget) × (effort.budget ≤ GREATEST_STAFF_BUDGET) }
    ensures staffed { IfOk result (IsStaffed made.entry.automaton.now.problem sizes.low sizes.high effort.budget) }
    ensures counted { IfOk result (IsStaffCounted made.entry.automaton.now.problem effort.counts) }
    ensures fits { IfOk result (FitsSizes made.entry.automaton.now.problem) }
{
    let mut logs = Vec::new(alloc);
    for weeks in sizes.low..sizes.high + 1 {
        match plan_for(rt, alloc, made, weeks, effort, gate)? {
            Found::NoRoster(log) => logs.push(log)?,
            Found::Roster(roster) => {
                return Ok(StaffRun::of(sizes.low, logs, StaffEnd::Least(roster)));
            }
            Found::Undecided(log) => {
                return Ok(StaffRun::of(sizes.low, logs, StaffEnd::Undecided(log)));
            }
        }
    }
    Ok(StaffRun::of(sizes.low, logs, StaffEnd::NoneTo))
}

// The plan for this number of weeks.
fn plan_for<R: Threads + Sync, G: Gate>(
    rt: &R,
    alloc: Global,
    made: Made<'_>,
    weeks: u32,
    effort: Effort,
    gate: &G,
) -> Result<Found, AllocError>
    requires short { AreShortRules made.automaton.now.problem made.automaton.now.rules }
    requires symbols { made.layer.now.symbols ≡ shift_count made.automaton.now.problem + 1 }
    requires size { IsSize made.automaton.now.problem weeks }
    requires budget { (1 ≤ effort.budget) × (effort.budget ≤ GREATEST_STAFF_BUDGET) }
    ensures planned { IfOk result (IsPlanned (with_weeks made.entry.automaton.now.problem weeks) effort.budget) }
    ensures counted { IfOk result (IsCounted (with_weeks made.entry.automaton.now.problem weeks) effort.counts) }
{
    let sized = made.automaton.with_weeks(weeks)?;
    let found = plan_over(rt, alloc, &sized, made.layer, effort, gate);
    drop(sized);
    found
}
