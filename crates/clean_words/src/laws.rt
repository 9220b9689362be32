// A law of the definitions. The function's contract is the law.
ghost use Rattle.std.specs.Prelude.{ℕ, List, []};
ghost use Rattle.rwsp_terms.specs.declared.data.Symbol.{Symbol};
ghost use Rattle.rwsp_terms.specs.Instance.{Instance};
ghost use Rattle.refutation_terms.specs.Word.{Clean};

/// The empty word is clean for every list.
pub fn empty_word_is_clean()
    ensures { (P : Instance) (R : List ℕ) (p : ℕ) → Clean P R p [] }
{}
