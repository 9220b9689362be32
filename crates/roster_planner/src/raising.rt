// A roster with the most free weekends, and why none has more.
ghost use Rattle.std.specs.Prelude.{◌≡◌, ℕ, ◌+◌, ◌*◌, ◌^◌, ◌<◌, ◌≤◌, false, IfOk};
ghost use Rattle.std.specs.Option.{IfSome};
ghost use Rattle.rwsp_terms.specs.declared.limits.TheConstants.{DAYS_OF_WEEK};
ghost use Rattle.rwsp_terms.specs.Instance.{Instance, cells, shift_count};
ghost use Rattle.domain_store.specs.Cycles.{AreShortRules};
ghost use Rattle.refutation_log.specs.Bests.{IsMeeting, IsFreeProof, IsBestFound, IsBestCounted, IsUndecided};
ghost use Rattle.refutation_log.specs.Bests.{goal_above, goal_of};

use crate::Effort;
use crate::counted::counted_log;
use crate::likely_most::likely_most;
use crate::one_goal::RisingGoal;
use clean_words::{Automaton, Told};
use domain_store::Domains;
use refutation_log::{BestFound, Found, Log, Opening};
use roster_finder::{Patience, RosterFinder, SteadyLayer};
use rwsp_model::{Problem, Roster};
use rwsp_terms::limits::GREATEST_BUDGET;
use std::alloc::{AllocError, Global};

/// The most free weekends that a roster of the problem can have: a roster with them, and the free log for one more.
///
/// Where the budget is spent, it is the roster with the most free weekends of all that were found. With each goal, a
/// roster with as many as seem likely is looked for first. The budget is for the lines of each log. Where blocks are
/// counted, that comes first.
pub fn best(alloc: Global, problem: &Problem, effort: Effort) -> Result<BestFound, AllocError>
    requires week { problem.now.days ≡ DAYS_OF_WEEK }
    requires budget { (1 ≤ effort.budget) × (effort.budget ≤ GREATEST_BUDGET) }
    ensures found { IfOk result (IsBestFound problem.now effort.budget) }
    ensures counted { IfOk result (IsBestCounted problem.now effort.counts) }
    ensures complete { IfOk result (λ found. IsUndecided found
        → effort.budget + 1 < 2 * (shift_count problem.now + 1) ^ cells problem.now) }
{
    if !effort.counts {
        return search_best(alloc, problem, effort.budget);
    }
    match counted_log(alloc, problem, Opening::Full, Some(0))? {
        Some(proof) => Ok(BestFound::NoRoster(proof)),
        None => search_best(alloc, problem, effort.budget),
    }
}

// The best roster by searches, whose logs may not count blocks.
fn search_best(alloc: Global, problem: &Problem, budget: u32) -> Result<BestFound, AllocError>
    requires week { problem.now.days ≡ DAYS_OF_WEEK }
    requires budget { (1 ≤ budget) × (budget ≤ GREATEST_BUDGET) }
    ensures found { IfOk result (IsBestFound problem.now budget) }
    ensures counted { IfOk result (IsBestCounted problem.now false) }
    ensures complete { IfOk result (λ found.
        IsUndecided found → budget + 1 < 2 * (shift_count problem.now + 1) ^ cells problem.now) }
{
    let automaton = Automaton::of_short_rules(alloc, problem, Told::DayOff)?;
    let found = best_over(alloc, &automaton, budget);
    drop(automaton);
    found
}

// The best roster by searches over the automaton of all short rules, with one finder for all goals.
fn best_over(alloc: Global, automaton: &Automaton, budget: u32) -> Result<BestFound, AllocError>
    requires short { AreShortRules automaton.now.problem automaton.now.rules }
    requires week { automaton.now.problem.days ≡ DAYS_OF_WEEK }
    requires budget { (1 ≤ budget) × (budget ≤ GREATEST_BUDGET) }
    ensures found { IfOk result (IsBestFound automaton.now.problem budget) }
    ensures counted { IfOk result (IsBestCounted automaton.now.problem false) }
    ensures complete { IfOk result (λ found. IsUndecided found
        → budget + 1 < 2 * (shift_count automaton.now.problem + 1) ^ cells automaton.now.problem) }
{
    let problem = automaton.problem();
    let doms = Domains::new(alloc, problem)?;
    let layer = SteadyLayer::of(alloc, problem)?;
    let finder = RosterFinder::over(problem, &layer, Some(&doms), Patience::Long);
    let mut rising = RisingGoal::new();
    let found = best_by(alloc, automaton, &finder, &mut rising, budget);
    drop(finder);
    drop(layer);
    drop(doms);
    found
}

// Searches with one goal after the other, over the automaton of all short rules: the roster is the one with the most
// free weekends of all that were found.
fn best_by(
    alloc: Global,
    automaton: &Automaton,
    finder: &RosterFinder<'_>,
    rising: &mut RisingGoal,
    budget: u32,
) -> Result<BestFound, AllocError>
    requires short { AreShortRules automaton.now.problem automaton.now.rules }
    requires same { finder.now ≡ automaton.now.problem }
    requires week { automaton.now.problem.days ≡ DAYS_OF_WEEK }
    requires first { rising.old ≡ 0 }
    requires budget { (1 ≤ budget) × (budget ≤ GREATEST_BUDGET) }
    ensures found { IfOk result (IsBestFound automaton.now.problem budget) }
    ensures counted { IfOk result (IsBestCounted automaton.now.problem false) }
    ensures most { IfOk result (λ found. rising.new ≡ goal_of found) }
    ensures complete { IfOk result (λ found. IsUndecided found
        → budget + 1 < 2 * (shift_count automaton.now.problem + 1) ^ cells automaton.now.problem) }
{
    let problem = automaton.problem();
    problem.prove_limits();
    let mut kept = None;
    let mut wish = likely_most(alloc, automaton)?;
    let mut too_many = wish + 1;
    loop {
        match rising.search(alloc, automaton, finder, wish, budget)? {
            Found::Roster(roster) => {
                kept = Some(roster);
                let goal = rising.goal();
                // Where the wish wasn't met, half of what is between is wished for next.
                if goal <= wish {
                    too_many = wish;
                }
                wish = halfway(goal, too_many);
            }
            Found::NoRoster(proof) => return Ok(ended(kept, proof)),
            Found::Undecided(partial) => {
                return Ok(BestFound::Undecided {
                    roster: kept,
                    partial,
                });
            }
        }
    }
}

// A number halfway between these, or the lower one where the other isn't above it.
fn halfway(low: u32, high: u32) -> u32 {
    if low < high {
        low + (high - low) / 2
    } else {
        low
    }
}

// What is found where no roster has more free weekends than the one that is kept.
fn ended(kept: Option<Roster>, proof: Log) -> BestFound
    ensures decided { IsUndecided result → ⊥ }
    ensures found { (P : Instance) (budget : ℕ) → IfSome kept (IsMeeting P)
        → IsFreeProof P budget (goal_above kept) proof → IsBestFound P budget result }
    ensures counted { (P : Instance) → proof.counts ≡ false → IsBestCounted P false result }
    ensures most { goal_of result ≡ goal_above kept }
{
    match kept {
        Some(roster) => BestFound::Best { roster, proof },
        None => BestFound::NoRoster(proof),
    }
}
