// A search with one goal, and the goal of the next.
ghost use Rattle.std.specs.Prelude.{◌≡◌, ◌+◌, ◌*◌, ◌^◌, ◌<◌, ◌≤◌, false, Some, IfOk};
ghost use Rattle.rwsp_terms.specs.declared.limits.TheConstants.{DAYS_OF_WEEK};
ghost use Rattle.rwsp_terms.specs.Instance.{cells, shift_count};
ghost use Rattle.domain_store.specs.Cycles.{AreShortRules};
ghost use Rattle.roster_planner.specs.CaseReasons.{AreCaseReasons, WeighNoWords};
ghost use Rattle.roster_search.specs.Founds.{HasSpentBudget};
ghost use Rattle.refutation_log.specs.Bests.{IsFoundWith, goal_behind};
ghost use Rattle.refutation_log.specs.Planned.{IsCounted};
ghost use Rattle.refutation_log.specs.FreeSharp.{FailsFreeAtTop};

use crate::top_leaf::proof_at_top;
use crate::{CaseReasons, case_reasons, planner_search};
use clean_words::Automaton;
use domain_store::{Domains, Propagator};
use refutation_log::{Found, Opening};
use roster_checker::free_weekends;
use roster_finder::RosterFinder;
use roster_search::Aim;
use rwsp_model::Problem;
use rwsp_terms::limits::GREATEST_BUDGET;
use std::alloc::{AllocError, Global};
use std::marker::Model;

/// The goal of the next search, in free weekends: one more than the best roster of all searches before has, and 0 where
/// they found none. No roster that they find is forgotten by it.
#[derive(Drop)]
pub struct RisingGoal {
    goal: u32,
}

impl Model for RisingGoal {
    ghost use Rattle.std.specs.Prelude.{ℕ};

    ghost Value = { ℕ };

    ghost view = { λ r. r.goal };
}

impl RisingGoal {
    /// The goal of the first search.
    pub fn new() -> RisingGoal
        ensures { result ≡ 0 }
    {
        RisingGoal { goal: 0 }
    }

    /// The goal itself.
    pub fn goal(&self) -> u32
        ensures { result ≡ self.now }
    {
        self.goal
    }

    /// A roster of the automaton's problem with at least as many free weekends as the goal, or a free log of why there
    /// is none, or one that has spent the budget. Where the wish is greater, a roster with as many is looked for first.
    pub fn search(
        &mut self,
        alloc: Global,
        automaton: &Automaton,
        finder: &RosterFinder<'_>,
        wish: u32,
        budget: u32,
    ) -> Result<Found, AllocError>
        requires short { AreShortRules automaton.now.problem automaton.now.rules }
        requires same { finder.now ≡ automaton.now.problem }
        requires week { automaton.now.problem.days ≡ DAYS_OF_WEEK }
        requires goal { self.old ≤ automaton.now.problem.weeks + 1 }
        requires budget { (1 ≤ budget) × (budget ≤ GREATEST_BUDGET) }
        ensures found { IfOk result (IsFoundWith automaton.now.problem budget self.old) }
        ensures counted { IfOk result (IsCounted automaton.now.problem false) }
        ensures goal { IfOk result (λ found. self.new ≡ goal_behind self.old found) }
        ensures few { IfOk result (λ _. self.new ≤ automaton.now.problem.weeks + 1) }
        ensures complete { IfOk result (λ found. HasSpentBudget found
            → budget + 1 < 2 * (shift_count automaton.now.problem + 1) ^ cells automaton.now.problem) }
    {
        let problem = automaton.problem();
        problem.prove_limits();
        let found = search_with(alloc, automaton, finder, self.goal, wish, budget)?;
        if let Found::Roster(roster) = &found {
            self.goal = free_weekends(problem, roster) + 1;
        }
        Ok(found)
    }
}

// The search with this goal.
fn search_with(
    alloc: Global,
    automaton: &Automaton,
    finder: &RosterFinder<'_>,
    goal: u32,
    wish: u32,
    budget: u32,
) -> Result<Found, AllocError>
    requires short { AreShortRules automaton.now.problem automaton.now.rules }
    requires same { finder.now ≡ automaton.now.problem }
    requires week { automaton.now.problem.days ≡ DAYS_OF_WEEK }
    requires goal { goal ≤ automaton.now.problem.weeks + 1 }
    requires budget { (1 ≤ budget) × (budget ≤ GREATEST_BUDGET) }
    ensures found { IfOk result (IsFoundWith automaton.now.problem budget goal) }
    ensures counted { IfOk result (IsCounted automaton.now.problem false) }
    ensures complete { IfOk result (λ found. HasSpentBudget found
        → budget + 1 < 2 * (shift_count automaton.now.problem + 1) ^ cells automaton.now.problem) }
{
    match proof_at_top(alloc, automaton, goal)? {
        Some(proof) => Ok(Found::NoRoster(proof)),
        None => split_cases(alloc, automaton, finder, goal, wish, budget),
    }
}

// Distinguishes cases, where the free leaf of one turn doesn't hold at the top.
fn split_cases(
    alloc: Global,
    automaton: &Automaton,
    finder: &RosterFinder<'_>,
    goal: u32,
    wish: u32,
    budget: u32,
) -> Result<Found, AllocError>
    requires short { AreShortRules automaton.now.problem automaton.now.rules }
    requires same { finder.now ≡ automaton.now.problem }
    requires week { automaton.now.problem.days ≡ DAYS_OF_WEEK }
    requires goal { goal ≤ automaton.now.problem.weeks + 1 }
    requires budget { (1 ≤ budget) × (budget ≤ GREATEST_BUDGET) }
    requires top { FailsFreeAtTop automaton.now.problem goal }
    ensures found { IfOk result (IsFoundWith automaton.now.problem budget goal) }
    ensures counted { IfOk result (IsCounted automaton.now.problem false) }
    ensures complete { IfOk result (λ found. HasSpentBudget found
        → budget + 1 < 2 * (shift_count automaton.now.problem + 1) ^ cells automaton.now.problem) }
{
    automaton.problem().prove_limits();
    let mut reasons = full_reasons(alloc, automaton)?;
    let aim = Aim {
        opening: Opening::Full,
        goal: Some(goal),
        budget,
    };
    let found = planner_search(alloc, automaton, finder, aim, wish, &mut reasons);
    drop(reasons);
    found
}

// The reasons of cases, for a search that begins with full domains.
fn full_reasons<'a>(alloc: Global, automaton: &'a Automaton) -> Result<CaseReasons<'a>, AllocError>
    requires short { AreShortRules automaton.now.problem automaton.now.rules }
    ensures serves { IfOk result (λ r. ⟦<CaseReasons<'a> as Propagator>⟧.serves r automaton.now.problem) }
    ensures reasons { IfOk result (λ r. AreCaseReasons automaton.now.problem
        (⟦<CaseReasons<'a> as Propagator>⟧.leaves r) (⟦<CaseReasons<'a> as Propagator>⟧.spent r)) }
    ensures unweighed { IfOk result (λ r. WeighNoWords (⟦<CaseReasons<'a> as Propagator>⟧.leaves r)) }
{
    let doms = Domains::new(alloc, automaton.problem())?;
    case_reasons(alloc, automaton, &doms)
}
