// The words of a command line, read one after another.
ghost use Rattle.std.specs.Prelude.{◌≡◌, ◌+◌, ◌<◌, ◌≤◌, ◌^◌, ◌∷◌, [], map, MatchOption, IfSome, MatchBool, ◌≢◌};
ghost use Rattle.std.specs.String.{string_bytes};
ghost use Rattle.rwsp_text.specs.Reads.{Reads};
ghost use Rattle.rwsp_text.specs.Lines.{rest_of};
ghost use Rattle.crew_calendar.proofs.DateWords.{date_in};
ghost use Rattle.command_line.specs.Forms.{is_file_word, file_at, digits_at, date_at, range_at, setting_at, skipped};

use crew_calendar::{CivilDate, date_of};
use rwsp_text::number;
use std::marker::Model;

/// A word that names a file: it isn't empty and doesn't begin with `-`.
#[derive(Drop)]
pub struct FileName<'a> {
    word: &'a str,
}

impl<'a> Model for FileName<'a> {
    ghost use Rattle.std.specs.Prelude.{List, ℕ};

    ghost Value = { List ℕ };

    ghost view = { λ name. name.word.now };
}

impl<'a> FileName<'a> {
    /// The word.
    pub fn as_str(&self) -> &'a str
        ensures { result.now ≡ self.now }
    {
        self.word
    }
}

/// The words that are left. Where a method gives None, they are no longer of use.
#[derive(Drop)]
pub struct Words<'a> {
    words: &'a [String],
}

impl<'a> Model for Words<'a> {
    ghost use Rattle.std.specs.Prelude.{List, ℕ, map};
    ghost use Rattle.std.specs.String.{string_bytes};

    ghost Value = { List (List ℕ) };

    ghost view = { λ w. map string_bytes w.words.now };
}

impl<'a> Words<'a> {
    /// All words.
    pub fn of(words: &'a [String]) -> Words<'a>
        ensures { result ≡ map string_bytes words.now }
    {
        Words { words }
    }

    /// Whether no word is left.
    pub fn is_empty(&self) -> bool
        ensures { MatchBool result (self.now ≡ []) (self.now ≢ []) }
    {
        self.words.is_empty()
    }

    /// The next word.
    pub fn next(&mut self) -> Option<&'a str>
        ensures { MatchOption result ((self.old ≡ []) × (self.new ≡ [])) (λ w. self.old ≡ w.now ∷ self.new) }
    {
        let (word, rest) = self.words.split_first()?;
        self.words = rest;
        Some(word.as_str())
    }

    /// The file that the next word names.
    #[tactic(auto, unfolding(crate::specs::Forms::file_at))]
    pub fn file(&mut self) -> Option<FileName<'a>>
        ensures { Reads (file_at self.old) result self.new }
    {
        let word = self.next()?;
        if is_file_word(word) {
            Some(FileName { word })
        } else {
            None
        }
    }

    /// The number of the next word, from the least to the greatest.
    #[tactic(auto, unfolding(crate::specs::Forms::digits_at))]
    pub fn number(&mut self, least: u32, greatest: u32) -> Option<u32>
        ensures reads { Reads (digits_at least greatest self.old) result self.new }
        ensures range { IfSome result (λ n. (least ≤ n) × (n ≤ greatest)) }
    {
        let word = self.next()?;
        let n = number(word.as_bytes())?;
        if least <= n && n <= greatest {
            Some(n)
        } else {
            None
        }
    }

    /// The date of the next word.
    #[tactic(auto, unfolding(crate::specs::Forms::date_at))]
    pub fn date(&mut self) -> Option<CivilDate>
        ensures { Reads (date_at self.old) result self.new }
    {
        let word = self.next()?;
        date_in(word)
    }

    /// The first and the last of at most `most` numbers in a row, from 1 to the greatest.
    #[tactic(auto, unfolding(crate::specs::Forms::range_at))]
    pub fn range(&mut self, greatest: u32, most: u32) -> Option<(u32, u32)>
        requires { (1 ≤ most) × (greatest + most < 2 ^ 32) }
        ensures reads { Reads (range_at greatest most self.old) result self.new }
        ensures range { IfSome result (λ r.
            (1 ≤ r.0) × (r.0 ≤ r.1) × (r.1 ≤ greatest) × (r.1 < r.0 + most)) }
    {
        let low = self.number(1, greatest)?;
        let high = self.number(low, greatest.min(low + most - 1))?;
        Some((low, high))
    }

    /// The number behind the word, from the least to the greatest, where the word is the next one; else the usual number,
    /// and all words stay. Tells too whether the word was left out.
    #[tactic(auto, unfolding(crate::specs::Forms::setting_at))]
    pub fn setting(
        &mut self,
        word: &str,
        least: u32,
        usual: u32,
        greatest: u32,
    ) -> Option<(u32, bool)>
        requires { (least ≤ usual) × (usual ≤ greatest) }
        ensures reads { Reads (setting_at word.now least usual greatest self.old) result self.new }
        ensures range { IfSome result (λ n. (least ≤ n.0) × (n.0 ≤ greatest)) }
    {
        let Some(first) = self.first() else {
            return Some((usual, true));
        };
        if first != word {
            return Some((usual, true));
        }
        self.next();
        let given = self.number(least, greatest)?;
        Some((given, false))
    }

    /// Whether the next word is this one, which is then skipped.
    pub fn skips(&mut self, word: &str) -> bool
        ensures { (result, self.new) ≡ skipped word.now self.old }
    {
        let is_next = match self.first() {
            Some(first) => first == word,
            None => false,
        };
        if is_next {
            self.next();
        }
        is_next
    }

    // The next word, which stays.
    fn first(&self) -> Option<&'a str>
        ensures { MatchOption result (self.now ≡ []) (λ w. self.now ≡ w.now ∷ rest_of self.now) }
    {
        let word = self.words.first()?;
        Some(word.as_str())
    }
}

// The date that a word names.
fn date_in(word: &str) -> Option<CivilDate>
    ensures { result ≡ date_in word.now }
{
    date_of(word)
}

fn is_file_word(word: &str) -> bool
    ensures { result ≡ is_file_word word.now }
{
    let bytes = word.as_bytes();
    !bytes.is_empty() && bytes[0] != b'-'
}
