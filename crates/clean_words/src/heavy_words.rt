// The heaviest clean words.
ghost use Rattle.std.specs.Prelude.{◌≡◌, IfOk, IfSome, MatchOption, Option, Some, ℤ, ◌≤ℤ◌, ◌<ℤ◌};
ghost use Rattle.clean_words.specs.Courses.{course};
ghost use Rattle.clean_words.specs.Found.{IsBestFound};

use crate::kept_rows::kept_rows;
use crate::walk::best_word;
use crate::{CleanWords, Gain};
use rwsp_terms::Word;
use std::alloc::{AllocError, Global};

/// A word with its weight.
#[derive(Drop)]
pub struct HeavyWord {
    pub weight: i64,
    pub word: Word,
}

/// The heaviest of the words, and the least of its weight, if it weighs `least` at least; None exactly where every clean
/// word weighs less. No word is sought then. Its memory grows with the states of each 128th day, its time with the
/// states times the symbols of all days.
pub fn heaviest_by_gain<G: Gain>(
    alloc: Global,
    words: &CleanWords<'_>,
    gain: &G,
    least: i64,
) -> Result<Option<HeavyWord>, AllocError>
    ensures { let W = words.now in
        let C = course W.automaton.now W.domains.now W.position (G.gain_of gain.now) in
        IfOk result (IsBestFound C W.days least) }
{
    words.prove_facts();
    let rows = kept_rows(alloc, words, gain)?;
    match reaching(rows.first.at(words.start()), least) {
        Some(weight) => {
            let word = best_word(alloc, words, gain, rows.kept)?;
            Ok(Some(HeavyWord { weight, word }))
        }
        None => Ok(None),
    }
}

// The weight, if it is `least` at least.
fn reaching(weight: Option<i32>, least: i64) -> Option<i64>
    ensures { MatchOption result (IfSome weight (λ w. w <ℤ least)) (λ w. (weight ≡ Some w) × (least ≤ℤ w)) }
{
    let weight = i64::from(weight?);
    if least <= weight { Some(weight) } else { None }
}
