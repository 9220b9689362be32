// Bounds of one turn from position 0 on.
ghost use Rattle.std.specs.Prelude.{◌↔◌, IfOk, IsTrue};
ghost use Rattle.refutation_terms.specs.Sharp.{HoldsAtTop};
ghost use Rattle.domain_store.specs.Store.{has_domain, BelongsTo};
ghost use Rattle.clean_words.specs.Searched.{IsTopEscape};

use crate::Automaton;
use crate::escapes::{Claim, claim_escape};
use domain_store::Domains;
use rwsp_terms::{Weights, Word};
use std::alloc::{AllocError, Global};

// The words of one turn over domains, from position 0 on.
#[derive(Clone, Copy)]
pub struct Top<'a> {
    pub automaton: &'a Automaton,
    pub domains: &'a Domains,
    pub ghost belongs: { BelongsTo automaton.now.problem domains.now },
}

impl Top<'_> {
    // The least of the heaviest words, where the bound of these weights doesn't hold; None exactly where it holds.
    pub fn escape(&self, alloc: Global, weights: &Weights) -> Result<Option<Word>, AllocError>
        ensures { let A = self.now.automaton.now in
            IfOk result (IsTopEscape A.problem (has_domain self.now.domains.now) A.rules weights.now) }
    {
        self.automaton.problem().prove_limits();
        let claim = Claim {
            goal: None,
            position: 0,
            turns: 1,
            reward: 0,
            weights,
        };
        claim_escape(alloc, self.automaton, self.domains, claim)
    }

    // Whether the bound of these weights holds.
    pub fn holds(&self, alloc: Global, weights: &Weights) -> Result<bool, AllocError>
        ensures { let A = self.now.automaton.now in IfOk result
            (λ holds. IsTrue holds ↔ HoldsAtTop A.problem (has_domain self.now.domains.now) A.rules weights.now) }
    {
        Ok(self.escape(alloc, weights)?.is_none())
    }
}
