// The free leaf of one turn at the top: each free weekend weighs 1, and nothing else weighs.
ghost use Rattle.std.specs.Prelude.{◌≡◌, ◌↔◌, ◌+◌, ◌≤◌, [], false, IfOk, IsTrue, MatchOption};
ghost use Rattle.std.specs.Option.{IfSome};
ghost use Rattle.rwsp_terms.specs.declared.limits.TheConstants.{DAYS_OF_WEEK};
ghost use Rattle.refutation_terms.specs.declared.lines.Leaf.TheVariants.{Words};
ghost use Rattle.refutation_terms.specs.declared.lines.WordClaim.TheVariants.{Light};
ghost use Rattle.domain_store.specs.Cycles.{AreShortRules};
ghost use Rattle.refutation_log.specs.Bests.{IsFreeProof};
ghost use Rattle.refutation_log.specs.FreeSharp.{HoldsFreeAtTop, FailsFreeAtTop};

use clean_words::{Automaton, Claim, claim_escape};
use domain_store::Domains;
use refutation_log::{Log, one_leaf_log};
use refutation_terms::{Leaf, Opening, Terms, WordClaim};
use rwsp_terms::{RuleList, Weights};
use std::alloc::{AllocError, Global};

/// The log of one line that has this leaf, by all short rules, where it holds under full domains: no clean word of one
/// turn has as many free weekends as the goal.
pub fn proof_at_top(
    alloc: Global,
    automaton: &Automaton,
    goal: u32,
) -> Result<Option<Log>, AllocError>
    requires short { AreShortRules automaton.now.problem automaton.now.rules }
    requires week { automaton.now.problem.days ≡ DAYS_OF_WEEK }
    requires goal { goal ≤ automaton.now.problem.weeks + 1 }
    ensures proof { let P = automaton.now.problem in
        IfOk result (λ found. MatchOption found (FailsFreeAtTop P goal) (IsFreeProof P 1 goal)) }
    ensures counts { IfOk result (λ found. IfSome found (λ g. g.counts ≡ false)) }
{
    if holds_at_top(alloc, automaton, goal)? {
        Ok(Some(log_of_top(alloc, automaton, goal)?))
    } else {
        Ok(None)
    }
}

// Whether the leaf holds by the rules of the automaton.
fn holds_at_top(alloc: Global, automaton: &Automaton, goal: u32) -> Result<bool, AllocError>
    requires short { AreShortRules automaton.now.problem automaton.now.rules }
    requires week { automaton.now.problem.days ≡ DAYS_OF_WEEK }
    requires goal { goal ≤ automaton.now.problem.weeks + 1 }
    ensures { IfOk result
        (λ holds. IsTrue holds ↔ HoldsFreeAtTop automaton.now.problem goal automaton.now.rules) }
{
    let problem = automaton.problem();
    problem.prove_limits();
    let doms = Domains::new(alloc, problem)?;
    let weights = Weights::new(alloc);
    let claim = Claim {
        goal: Some(goal),
        position: 0,
        turns: 1,
        reward: 1,
        weights: &weights,
    };
    match claim_escape(alloc, automaton, &doms, claim)? {
        Some(_) => Ok(false),
        None => Ok(true),
    }
}

// The log of this leaf, where it holds.
fn log_of_top(alloc: Global, automaton: &Automaton, goal: u32) -> Result<Log, AllocError>
    requires short { AreShortRules automaton.now.problem automaton.now.rules }
    requires week { automaton.now.problem.days ≡ DAYS_OF_WEEK }
    requires goal { goal ≤ automaton.now.problem.weeks + 1 }
    requires holds { HoldsFreeAtTop automaton.now.problem goal automaton.now.rules }
    ensures proof { IfOk result (IsFreeProof automaton.now.problem 1 goal) }
    ensures counts { IfOk result (λ g. g.counts ≡ false) }
{
    let problem = automaton.problem();
    problem.prove_limits();
    let rules = automaton.rules().copy()?;
    let terms = Terms {
        goal: Some(goal),
        counts: false,
    };
    one_leaf_log(
        alloc,
        problem,
        Opening::Full,
        terms,
        light_leaf(alloc, rules),
    )
}

// The leaf by these rules.
fn light_leaf(alloc: Global, rules: RuleList) -> Leaf
    ensures { result ≡ Words 0 rules (Light 1 1 []) }
{
    Leaf::Words {
        p: 0,
        rules,
        claim: WordClaim::Light {
            turns: 1,
            reward: 1,
            weights: Weights::new(alloc),
        },
    }
}
