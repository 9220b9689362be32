// A search without a goal.
ghost use Rattle.std.specs.Prelude.{◌≡◌, ◌≤◌, IfOk};
ghost use Rattle.refutation_terms.specs.Log.{OpeningFits, IsAllowed};
ghost use Rattle.refutation_terms.specs.Sharp.{IsScarcestTurn};
ghost use Rattle.domain_store.specs.Cycles.{AreShortRules};
ghost use Rattle.roster_planner.specs.FoundFrom.{IsFoundFrom};

use crate::planner_search;
use crate::reasons::reasons_of;
use clean_words::{Automaton, Gate};
use refutation_log::Found;
use refutation_terms::Opening;
use roster_finder::RosterFinder;
use roster_search::Aim;
use rwsp_terms::limits::GREATEST_BUDGET;
use std::alloc::{AllocError, Global};
use std::thread::Threads;

/// What a search finds that distinguishes cases, by reasons for the opening with which it begins.
pub fn search_cases<R: Threads + Sync, G: Gate>(
    rt: &R,
    alloc: Global,
    automaton: &Automaton,
    finder: &RosterFinder<'_>,
    opening: &Opening,
    budget: u32,
    gate: &G,
) -> Result<Found, AllocError>
    requires short { AreShortRules automaton.now.problem automaton.now.rules }
    requires same { finder.now ≡ automaton.now.problem }
    requires opening { let P = automaton.now.problem in
        OpeningFits P opening.now × IsAllowed P opening.now × IsScarcestTurn P opening.now }
    requires budget { (1 ≤ budget) × (budget ≤ GREATEST_BUDGET) }
    ensures { IfOk result (IsFoundFrom automaton.now.problem opening.now budget) }
{
    automaton.problem().prove_limits();
    let aim = Aim {
        opening: opening.copy()?,
        goal: None,
        budget,
    };
    let mut reasons = reasons_of(rt, alloc, automaton, opening, gate)?;
    let found = planner_search(alloc, automaton, finder, aim, 0, &mut reasons);
    drop(reasons);
    found
}
