// Laws of texts, instances and refusals. Each function's contract is the law.
ghost use Rattle.rwsp_file.specs.Laws.{CanonicalTextsAreShort, CanonicalTextsSpell, RefusalsAreExplained, TextsSpellOne, TextsSpellOrFail};
ghost use Rattle.rwsp_file.specs.FirstFailures.{RefusalsAreFirst};

/// A text spells at most one instance.
#[tactic(auto, using(crate::proofs::TextLaws::texts_spell_one))]
pub fn texts_spell_one()
    ensures { TextsSpellOne }
{}

/// A text that has no first failure spells an instance, and one that has a first failure spells none.
#[tactic(auto, using(crate::proofs::TextLaws::texts_spell_or_fail))]
pub fn texts_spell_or_fail()
    ensures { TextsSpellOrFail }
{}

/// The canonical text of a valid instance spells it and no other.
#[tactic(auto, using(crate::proofs::Printing::canonical_texts_spell))]
pub fn canonical_texts_spell()
    ensures { CanonicalTextsSpell }
{}

/// The canonical text of a valid instance has at most 1,048,576 bytes, the most that are read of a problem's file.
#[tactic(auto, using(crate::proofs::Printing::canonical_texts_are_short))]
pub fn canonical_texts_are_short()
    ensures { CanonicalTextsAreShort }
{}

/// A text is explained exactly where it is refused, and at the line of the refusal.
#[tactic(auto, using(crate::proofs::Explained::refusals_are_explained))]
pub fn refusals_are_explained()
    ensures { RefusalsAreExplained }
{}

/// The failure for which a text is refused is the first: what stands before it can be gone on with to a text of an
/// instance, and what stands up to its end cannot.
#[tactic(auto, using(crate::proofs::FirstFailures::refusals_are_first))]
pub fn refusals_are_first()
    ensures { RefusalsAreFirst }
{}
