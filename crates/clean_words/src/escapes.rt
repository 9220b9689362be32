// The words that escape a leaf of words that claims too little weight.
ghost use Rattle.std.specs.Prelude.{◌≡◌, ◌+◌, ◌*◌, ◌<◌, ◌≤◌, IfOk, pos, neg_ℤ, ◌*ℤ◌, ◌≤ℤ◌};
ghost use Rattle.rwsp_terms.specs.Instance.{cells};
ghost use Rattle.rwsp_terms.specs.declared.limits.TheConstants.{GREATEST_REWARD, GREATEST_WEIGHT, LONGEST_WORD, MOST_DAYS, MOST_SHIFTS, MOST_SYMBOLS, MOST_WEEKS};
ghost use Rattle.refutation_terms.specs.declared.lines.WordClaim.TheVariants.{Light};
ghost use Rattle.refutation_terms.specs.WordsLeaf.{RewardFits};
ghost use Rattle.domain_store.specs.Store.{BelongsTo, has_domain};
ghost use Rattle.clean_words.specs.Claims.{IsGoalOf, IsEscapeFound};

use crate::{Automaton, CleanWords, heaviest, total};
use domain_store::Domains;
use rwsp_terms::{Weights, Word};
use std::alloc::{AllocError, Global};

/// What a leaf of words claims: the words that are clean for its rules weigh less than a roster, with as many free
/// weekends as the goal where the log has one.
#[derive(Clone, Copy)]
pub struct Claim<'a> {
    /// The goal of the log, in free weekends.
    pub goal: Option<u32>,
    /// The position of the words' first day; 0 where there is a goal.
    pub position: u32,
    /// The length of the words, in turns.
    pub turns: u32,
    /// What each free weekend weighs; 0 where there is no goal.
    pub reward: u32,
    /// What the symbols weigh on the days.
    pub weights: &'a Weights,
}

/// The least of the heaviest words of the claim's turns over the domains that are clean for the rules of the automaton,
/// where it weighs at least what is owed; None exactly where the claim holds.
pub fn claim_escape(
    alloc: Global,
    automaton: &Automaton,
    doms: &Domains,
    claim: Claim<'_>,
) -> Result<Option<Word>, AllocError>
    requires belongs { BelongsTo automaton.now.problem doms.now }
    requires position { claim.position < cells automaton.now.problem }
    requires some { 1 ≤ claim.turns }
    requires few { claim.turns * cells automaton.now.problem ≤ LONGEST_WORD }
    requires goal { IsGoalOf automaton.now.problem claim.goal }
    requires reward { RewardFits claim.goal claim.position claim.reward }
    ensures { let A = automaton.now in let c = claim.entry in
        let light = Light c.turns c.reward c.weights.now in
        IfOk result (IsEscapeFound A.problem c.goal (has_domain doms.now) c.position A.rules light) }
{
    let problem = automaton.problem();
    problem.prove_limits();
    let words = CleanWords {
        automaton,
        domains: doms,
        position: claim.position,
        days: claim.turns * problem.cells(),
    };
    let goal = claim.goal.unwrap_or(0);
    let least = times(
        claim.turns,
        total(problem, claim.weights, claim.reward, goal),
    );
    match heaviest(alloc, &words, claim.weights, claim.reward, least)? {
        Some(heavy) => Ok(Some(heavy.word)),
        None => Ok(None),
    }
}

// `turns` times the total.
fn times(turns: u32, total: i64) -> i64
    requires few { turns ≤ LONGEST_WORD }
    requires above { neg_ℤ (pos (MOST_DAYS * (MOST_SYMBOLS * (GREATEST_WEIGHT * (MOST_SHIFTS * MOST_WEEKS)))))
        ≤ℤ total }
    requires below { total ≤ℤ pos (MOST_DAYS * (MOST_SYMBOLS * (GREATEST_WEIGHT * (MOST_SHIFTS * MOST_WEEKS)))
        + GREATEST_REWARD * (MOST_WEEKS + 1)) }
    ensures { result ≡ pos turns *ℤ total }
{
    i64::from(turns) * total
}
