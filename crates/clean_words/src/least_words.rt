// The least clean words.
ghost use Rattle.std.specs.Prelude.{IfOk, pos};
ghost use Rattle.domain_store.specs.Store.{has_domain};
ghost use Rattle.clean_words.specs.Found.{IsLeastFound};

use crate::{CleanWords, Gain, HeavyWord, heaviest_by_gain};
use rwsp_terms::{Symbol, Word};
use std::alloc::{AllocError, Global};

/// The least of the words; None exactly where there is none.
pub fn escape(alloc: Global, words: &CleanWords<'_>) -> Result<Option<Word>, AllocError>
    ensures { let W = words.now in let A = W.automaton.now in
        IfOk result (IsLeastFound A.problem (has_domain W.domains.now) W.position W.days A.rules) }
{
    match heaviest_by_gain(alloc, words, &NoGain, 0)? {
        Some(HeavyWord { weight: _, word }) => Ok(Some(word)),
        None => Ok(None),
    }
}

// No symbol gains anything.
struct NoGain;

impl Gain for NoGain {
    ghost gain_of = { λ g day behind_off x. pos 0 };

    fn gain(&self, _day: u32, _behind_off: bool, _symbol: Symbol) -> i32 {
        0
    }
}
