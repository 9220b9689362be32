// A search with the guide of a planner.
ghost use Rattle.std.specs.Prelude.{◌≡◌, ◌+◌, ◌*◌, ◌^◌, ◌<◌, ◌≤◌, IfOk};
ghost use Rattle.rwsp_terms.specs.Instance.{cells, shift_count};
ghost use Rattle.refutation_terms.specs.Log.{OpeningFits, GoalFits, IsAllowed};
ghost use Rattle.domain_store.specs.Cycles.{AreShortRules};
ghost use Rattle.domain_store.specs.Looks.{HasPlainLeaves};
ghost use Rattle.roster_search.specs.Founds.{IsFound, HasSpentBudget};
ghost use Rattle.roster_search.specs.Guides.{AreUnweighed};

use crate::guide::PlannerGuide;
use crate::one_shift::one_shift;
use crate::starts::search_by_starts;
use clean_words::Automaton;
use domain_store::Propagator;
use refutation_log::Found;
use roster_finder::RosterFinder;
use roster_search::Aim;
use rwsp_terms::limits::GREATEST_BUDGET;
use std::alloc::{AllocError, Global};

/// What a search of the automaton's problem finds by these reasons. Cases are also closed by weights. A roster is
/// looked for by other means before the first split, with a goal first one with `wish` free weekends, where these are
/// more. Short searches that split on days off alone come first; then splits are in the order of the days, from the
/// turn on.
#[tactic(auto, using(roster_search::proofs::Reaching::goal_fits_full))]
pub fn planner_search<A: Propagator>(
    alloc: Global,
    automaton: &Automaton,
    finder: &RosterFinder<'_>,
    aim: Aim,
    wish: u32,
    reasons: &mut A,
) -> Result<Found, AllocError>
    requires short { AreShortRules automaton.now.problem automaton.now.rules }
    requires same { finder.now ≡ automaton.now.problem }
    requires budget { (1 ≤ aim.budget) × (aim.budget ≤ GREATEST_BUDGET) }
    requires opening { OpeningFits automaton.now.problem aim.opening × IsAllowed automaton.now.problem aim.opening }
    requires goal { GoalFits automaton.now.problem aim.opening aim.goal }
    requires serves { A.serves reasons.old automaton.now.problem }
    requires plain { HasPlainLeaves automaton.now.problem (A.leaves reasons.old) }
    requires unweighed { AreUnweighed aim.goal (A.leaves reasons.old) }
    ensures found { IfOk result (λ found. IsFound automaton.now.problem aim.opening aim.goal aim.budget
        (A.leaves reasons.old) (A.spent reasons.old) found) }
    ensures complete { let P = automaton.now.problem in IfOk result (λ found.
        HasSpentBudget found → aim.budget + 1 < 2 * (shift_count P + 1) ^ cells P) }
{
    let one = one_shift(alloc, automaton.problem())?;
    let mut guide = PlannerGuide::new(alloc, automaton, &one, finder, &aim, wish);
    let found = search_by_starts(alloc, automaton.problem(), aim, reasons, &mut guide);
    drop(guide);
    drop(one);
    found
}
