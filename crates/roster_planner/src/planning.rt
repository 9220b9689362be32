// A roster for a problem, or a refutation.
ghost use Rattle.std.specs.Prelude.{◌≡◌, ◌+◌, ◌≤◌, None, IfOk, IsTrue};
ghost use Rattle.std.specs.Option.{IfSome};
ghost use Rattle.rwsp_terms.specs.Instance.{shift_count};
ghost use Rattle.refutation_terms.specs.BlocksLeaf.{NoBlocksHold};
ghost use Rattle.refutation_terms.specs.Log.{OpeningFits, IsAllowed};
ghost use Rattle.refutation_terms.specs.Sharp.{IsScarcestTurn};
ghost use Rattle.domain_store.specs.Cycles.{AreShortRules};
ghost use Rattle.roster_finder.specs.Found.{IsRosterWith};
ghost use Rattle.refutation_log.specs.Planned.{IsCounted, IsPlanned};
ghost use Rattle.roster_planner.specs.FoundFrom.{IsFoundFrom};
ghost use Rattle.roster_search.specs.Guides.{IsWantedBehind};

use crate::Effort;
use crate::cases::search_cases;
use crate::counted::{counted_log, log_at_once};
use crate::days_off::roster_by_days_off;
use crate::effort::FEW_LINES;
use crate::narrowed::narrowed_roster;
use crate::propagation::domains_behind;
use crate::rosters::roster_behind;
use clean_words::{Automaton, Gate, Told};
use domain_store::Domains;
use refutation_log::{Found, scarcest_turn};
use refutation_terms::Opening;
use roster_finder::{Patience, RosterFinder, SteadyLayer};
use rwsp_model::{Problem, Roster};
use rwsp_terms::limits::GREATEST_BUDGET;
use std::alloc::{AllocError, Global};
use std::thread::Threads;

/// A roster, or a log of why there is none, within the budget. Where blocks are counted, that comes first: the log is
/// then one leaf, if no number of blocks of some symbol fits. Else a roster is looked for. Where none is found soon,
/// cases are distinguished: where a shift is demanded, it is taken for granted that week 1 has the first such shift on
/// the first such day, as some turned roster does.
///
/// Each case is looked at for reasons: windows, days, and the words of two turns. Bounds by weights are tried at the
/// top, shared out among workers, who pass the gate.
///
/// Rosters are looked for with the random numbers of the seed.
pub fn plan_roster<R: Threads + Sync, G: Gate>(
    rt: &R,
    alloc: Global,
    problem: &Problem,
    effort: Effort,
    seed: u32,
    gate: &G,
) -> Result<Found, AllocError>
    requires { (1 ≤ effort.budget) × (effort.budget ≤ GREATEST_BUDGET) }
    ensures planned { IfOk result (IsPlanned problem.now effort.budget) }
    ensures counted { IfOk result (IsCounted problem.now effort.counts) }
{
    plan_by(rt, alloc, problem, effort, gate, First::Rosters(seed))
}

/// A plan of a problem that is likely to have no roster: reasons come before rosters are looked for, and the finder has
/// fewer moves, in a short plan the fewest. Only where the budget is spent a roster is looked for with patience, unless
/// the plan is a short one. What it promises is what `plan_roster` does.
pub fn plan_refutable<R: Threads + Sync, G: Gate>(
    rt: &R,
    alloc: Global,
    problem: &Problem,
    effort: Effort,
    gate: &G,
) -> Result<Found, AllocError>
    requires { (1 ≤ effort.budget) × (effort.budget ≤ GREATEST_BUDGET) }
    ensures planned { IfOk result (IsPlanned problem.now effort.budget) }
    ensures counted { IfOk result (IsCounted problem.now effort.counts) }
{
    plan_by(rt, alloc, problem, effort, gate, First::Reasons)
}

// What a plan looks for before anything else: rosters, by the random numbers of a seed, or reasons.
#[derive(Clone, Copy)]
pub(crate) enum First {
    Rosters(u32),
    Reasons,
}

impl First {
    // The seed of the random numbers by which rosters are looked for.
    fn seed(self) -> u32 {
        match self {
            First::Rosters(seed) => seed,
            First::Reasons => 0,
        }
    }
}

// The plan that begins so.
fn plan_by<R: Threads + Sync, G: Gate>(
    rt: &R,
    alloc: Global,
    problem: &Problem,
    effort: Effort,
    gate: &G,
    first: First,
) -> Result<Found, AllocError>
    requires { (1 ≤ effort.budget) × (effort.budget ≤ GREATEST_BUDGET) }
    ensures planned { IfOk result (IsPlanned problem.now effort.budget) }
    ensures counted { IfOk result (IsCounted problem.now effort.counts) }
{
    match counted_plan(alloc, problem, effort)? {
        Some(found) => Ok(found),
        None => {
            let opening = scarcest_turn(problem);
            search_plan(rt, alloc, problem, &opening, effort.budget, gate, first)
        }
    }
}

/// The plan that `plan_roster` makes, over the automaton of the problem's short rules and the layer of its words, which
/// are the same for all numbers of weeks.
pub(crate) fn plan_over<R: Threads + Sync, G: Gate>(
    rt: &R,
    alloc: Global,
    automaton: &Automaton,
    layer: &SteadyLayer,
    effort: Effort,
    gate: &G,
) -> Result<Found, AllocError>
    requires short { AreShortRules automaton.now.problem automaton.now.rules }
    requires symbols { layer.now.symbols ≡ shift_count automaton.now.problem + 1 }
    requires budget { (1 ≤ effort.budget) × (effort.budget ≤ GREATEST_BUDGET) }
    ensures planned { IfOk result (IsPlanned automaton.now.problem effort.budget) }
    ensures counted { IfOk result (IsCounted automaton.now.problem effort.counts) }
{
    match counted_plan(alloc, automaton.problem(), effort)? {
        Some(found) => Ok(found),
        None => {
            let problem = automaton.problem();
            let doms = Domains::new(alloc, problem)?;
            let finder = RosterFinder::over(problem, layer, Some(&doms), Patience::Long);
            let opening = scarcest_turn(problem);
            rosters_first(rt, alloc, automaton, &finder, &opening, effort.budget, gate)
        }
    }
}

// The plan of one leaf, where blocks are counted and one of their leaves holds.
fn counted_plan(
    alloc: Global,
    problem: &Problem,
    effort: Effort,
) -> Result<Option<Found>, AllocError>
    requires { 1 ≤ effort.budget }
    ensures planned { IfOk result (λ found. IfSome found (IsPlanned problem.now effort.budget)) }
    ensures counted { IfOk result (λ found. IfSome found (IsCounted problem.now effort.counts)) }
    ensures none { IfOk result (λ found. found ≡ None → IsTrue effort.counts → NoBlocksHold problem.now) }
{
    if !effort.counts {
        return Ok(None);
    }
    match counted_log(alloc, problem, scarcest_turn(problem), None)? {
        Some(log) => Ok(Some(Found::NoRoster(log))),
        None => Ok(None),
    }
}

// What a search from this opening finds that begins so, where no leaf of windows or days closes all cases at once.
pub(crate) fn search_plan<R: Threads + Sync, G: Gate>(
    rt: &R,
    alloc: Global,
    problem: &Problem,
    opening: &Opening,
    budget: u32,
    gate: &G,
    first: First,
) -> Result<Found, AllocError>
    requires opening { let P = problem.now in
        OpeningFits P opening.now × IsAllowed P opening.now × IsScarcestTurn P opening.now }
    requires budget { (1 ≤ budget) × (budget ≤ GREATEST_BUDGET) }
    ensures { IfOk result (IsFoundFrom problem.now opening.now budget) }
{
    if let Some(log) = log_at_once(alloc, problem, opening)? {
        return Ok(Found::NoRoster(log));
    }
    let automaton = Automaton::of_short_rules(alloc, problem, Told::DayOff)?;
    let found = search_by(rt, alloc, &automaton, opening, budget, gate, first);
    // An owned value that a generic call takes is dropped there, which keeps the proof of this body small.
    drop(automaton);
    found
}

// The same over the automaton of all short rules.
fn search_by<R: Threads + Sync, G: Gate>(
    rt: &R,
    alloc: Global,
    automaton: &Automaton,
    opening: &Opening,
    budget: u32,
    gate: &G,
    first: First,
) -> Result<Found, AllocError>
    requires short { AreShortRules automaton.now.problem automaton.now.rules }
    requires opening { let P = automaton.now.problem in
        OpeningFits P opening.now × IsAllowed P opening.now × IsScarcestTurn P opening.now }
    requires budget { (1 ≤ budget) × (budget ≤ GREATEST_BUDGET) }
    ensures { IfOk result (IsFoundFrom automaton.now.problem opening.now budget) }
{
    let problem = automaton.problem();
    let doms = domains_behind(alloc, automaton, opening)?;
    let layer = SteadyLayer::of(alloc, problem)?;
    let finder = RosterFinder::over(problem, &layer, doms.as_ref(), Patience::Long);
    let finder = finder.seeded(first.seed());
    let found = match first {
        First::Rosters(_) => rosters_first(rt, alloc, automaton, &finder, opening, budget, gate),
        First::Reasons => reasons_first(rt, alloc, automaton, &finder, opening, budget, gate),
    };
    drop(finder);
    drop(layer);
    drop(doms);
    found
}

// The roster that is found soon, or what a search finds that distinguishes cases.
fn rosters_first<R: Threads + Sync, G: Gate>(
    rt: &R,
    alloc: Global,
    automaton: &Automaton,
    finder: &RosterFinder<'_>,
    opening: &Opening,
    budget: u32,
    gate: &G,
) -> Result<Found, AllocError>
    requires short { AreShortRules automaton.now.problem automaton.now.rules }
    requires same { finder.now ≡ automaton.now.problem }
    requires opening { let P = automaton.now.problem in
        OpeningFits P opening.now × IsAllowed P opening.now × IsScarcestTurn P opening.now }
    requires budget { (1 ≤ budget) × (budget ≤ GREATEST_BUDGET) }
    ensures { IfOk result (IsFoundFrom automaton.now.problem opening.now budget) }
{
    if let Some(roster) = roster_behind(alloc, finder, opening, Patience::Short)? {
        return Ok(Found::Roster(roster));
    }
    let found = search_cases(rt, alloc, automaton, finder, opening, budget, gate)?;
    let first = First::Rosters(finder.seed());
    or_late(alloc, finder, opening, budget, first, found)
}

// What a search finds that looks for rosters for a shorter time.
fn reasons_first<R: Threads + Sync, G: Gate>(
    rt: &R,
    alloc: Global,
    automaton: &Automaton,
    finder: &RosterFinder<'_>,
    opening: &Opening,
    budget: u32,
    gate: &G,
) -> Result<Found, AllocError>
    requires short { AreShortRules automaton.now.problem automaton.now.rules }
    requires same { finder.now ≡ automaton.now.problem }
    requires opening { let P = automaton.now.problem in
        OpeningFits P opening.now × IsAllowed P opening.now × IsScarcestTurn P opening.now }
    requires budget { (1 ≤ budget) × (budget ≤ GREATEST_BUDGET) }
    ensures { IfOk result (IsFoundFrom automaton.now.problem opening.now budget) }
{
    let most = if budget > FEW_LINES {
        Patience::Middle
    } else {
        Patience::Short
    };
    let hasty = finder.at_most(most);
    let found = search_cases(rt, alloc, automaton, &hasty, opening, budget, gate)?;
    or_late(alloc, finder, opening, budget, First::Reasons, found)
}

// Whether the budget was spent.
fn is_undecided(found: &Found) -> bool {
    matches!(found, Found::Undecided(_))
}

// What was found; or where a search has spent its budget, and this isn't that of a short plan, a roster that is found
// late.
fn or_late(
    alloc: Global,
    finder: &RosterFinder<'_>,
    opening: &Opening,
    budget: u32,
    first: First,
    found: Found,
) -> Result<Found, AllocError>
    requires opening { OpeningFits finder.now opening.now }
    requires found { IsFoundFrom finder.now opening.now budget found }
    ensures { IfOk result (IsFoundFrom finder.now opening.now budget) }
{
    if budget <= FEW_LINES || !is_undecided(&found) {
        return Ok(found);
    }
    match late_roster(alloc, finder, opening, first) {
        Ok(None) => Ok(found),
        Ok(Some(roster)) => {
            drop(found);
            Ok(Found::Roster(roster))
        }
        Err(error) => {
            drop(found);
            Err(error)
        }
    }
}

// A roster that is looked for with the patience that the search didn't have. One that was patient goes on with less to
// choose from, where no cells are given.
fn late_roster(
    alloc: Global,
    finder: &RosterFinder<'_>,
    opening: &Opening,
    first: First,
) -> Result<Option<Roster>, AllocError>
    requires opening { OpeningFits finder.now opening.now }
    ensures { IfOk result (λ found. IfSome found (IsWantedBehind finder.now opening.now None)) }
{
    let patience = match first {
        First::Rosters(_) => Patience::Middle,
        First::Reasons => Patience::Long,
    };
    let found = roster_behind(alloc, &finder.at_most(patience), opening, patience)?;
    if found.is_some() || matches!(first, First::Reasons) {
        return Ok(found);
    }
    match opening {
        Opening::Given(_) => Ok(None),
        Opening::Full | Opening::Turned(_) => roster_of_less(alloc, finder),
    }
}

// A roster that is found where the finder has less to choose: one number of a range of the demand, or the days off.
fn roster_of_less(alloc: Global, finder: &RosterFinder<'_>) -> Result<Option<Roster>, AllocError>
    ensures { IfOk result (λ found. IfSome found (IsRosterWith finder.now 0)) }
{
    let found = narrowed_roster(alloc, finder)?;
    if found.is_some() {
        return Ok(found);
    }
    roster_by_days_off(alloc, finder)
}
