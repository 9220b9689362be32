// The fields of a line, read one after another.
ghost use Rattle.std.specs.Prelude.{◌≡◌, ◌≢◌, ◌<◌, ◌≤◌, ◌^◌, ℕ, List, [], ◌∷◌, length, take, Option, Some, None, MatchOption, IfSome, MatchBool};
ghost use Rattle.std.specs.List.{list_all};
ghost use Rattle.rwsp_text.specs.Lines.{words_of, words_after, rest_of};
ghost use Rattle.rwsp_text.specs.Fields.{is_plain_number, number_in, value_in, IsValue, is_visible, is_name, number_at, name_at, value_at, word_at, choice_at, place_at};
ghost use Rattle.rwsp_text.specs.Reads.{Reads, TakesNumber, ReadsRest};

use crate::digits::number;
use std::marker::Model;

/// The fields that are left; each ends at a blank, the last one at the end.
#[derive(Drop)]
pub struct Fields<'a> {
    bytes: &'a [u8],
    done: bool,
}

impl<'a> Model for Fields<'a> {
    ghost use Rattle.std.specs.Prelude.{List, ℕ};
    ghost use Rattle.rwsp_text.specs.Lines.{words_left};

    ghost Value = { List (List ℕ) };

    ghost view = { λ f. words_left f.bytes.now f.done };
}

impl<'a> Fields<'a> {
    /// All fields of a line without its LF.
    pub fn of(body: &'a [u8]) -> Fields<'a>
        ensures { result ≡ words_of body.now }
    {
        Fields {
            bytes: body,
            done: false,
        }
    }

    /// Whether no field is left.
    #[tactic(auto, using(crate::proofs::WordSteps::none_left, crate::proofs::WordSteps::some_left))]
    pub fn is_done(&self) -> bool
        ensures { MatchBool result (self.now ≡ []) (self.now ≢ []) }
    {
        self.done
    }

    // The first field, which stays.
    #[tactic(auto, using(crate::proofs::WordSteps::first_word))]
    fn first(&self) -> Option<&'a [u8]>
        ensures { MatchOption result (self.now ≡ []) (λ w. self.now ≡ w.now ∷ rest_of self.now) }
    {
        if self.done {
            None
        } else {
            let end = word_end(self.bytes);
            Some(&self.bytes[..end])
        }
    }

    /// The next field.
    #[tactic(auto, using(crate::proofs::WordSteps::last_word, crate::proofs::WordSteps::next_word))]
    pub fn next(&mut self) -> Option<&'a [u8]>
        ensures { MatchOption result ((self.old ≡ []) × (self.new ≡ [])) (λ w. self.old ≡ w.now ∷ self.new) }
    {
        if self.done {
            return None;
        }
        let bytes = self.bytes;
        let end = word_end(bytes);
        if end == bytes.len() {
            self.done = true;
        } else {
            self.bytes = &bytes[end + 1..];
        }
        Some(&bytes[..end])
    }

    /// The number of the next field, where it is in the range; else the field stays.
    #[tactic(auto, unfolding(crate::specs::Fields::number_at))]
    pub fn number(&mut self, low: u32, high: u32) -> Option<u32>
        requires { high < 10 ^ 9 }
        ensures takes { TakesNumber (number_at low high self.old) result self.old self.new }
        ensures range { IfSome result (λ n. (low ≤ n) × (n ≤ high)) }
    {
        let word = self.first()?;
        let n = number_in(low, high, word)?;
        self.next();
        Some(n)
    }

    /// The next field, where it is a name.
    #[tactic(auto, unfolding(crate::specs::Fields::name_at))]
    pub fn name(&mut self) -> Option<&'a [u8]>
        ensures { MatchOption result (name_at self.old ≡ None) (λ name. name_at self.old ≡ Some (name.now, self.new)) }
    {
        let word = self.next()?;
        if is_name(word) { Some(word) } else { None }
    }

    /// The value of the next field, which isn't 0.
    #[tactic(auto, unfolding(crate::specs::Fields::value_at))]
    pub fn value(&mut self, greatest: u32) -> Option<i32>
        requires { greatest < 10 ^ 9 }
        ensures reads { Reads (value_at greatest self.old) result self.new }
        ensures range { IfSome result (IsValue greatest) }
    {
        let word = self.next()?;
        value_in(greatest, word)
    }

    /// Takes the next field; None where it isn't the word.
    #[tactic(auto, unfolding(crate::specs::Fields::word_at))]
    pub fn word(&mut self, word: &[u8]) -> Option<()>
        ensures { ReadsRest (word_at word.now self.old) result self.new }
    {
        let field = self.next()?;
        if field == word { Some(()) } else { None }
    }

    /// True where the next field is the word `one`, false where it is `other`; None where it is neither.
    #[tactic(auto, unfolding(crate::specs::Fields::choice_at))]
    pub fn choice(&mut self, one: &[u8], other: &[u8]) -> Option<bool>
        ensures { Reads (choice_at one.now other.now self.old) result self.new }
    {
        let field = self.next()?;
        if field == one {
            Some(true)
        } else if field == other {
            Some(false)
        } else {
            None
        }
    }

    /// A position among the days of all weeks, from 0 on, by its week and its day.
    #[tactic(auto, unfolding(crate::specs::Fields::place_at))]
    pub fn place(&mut self, weeks: u32, days: u32) -> Option<u32>
        requires { (weeks < 10 ^ 4) × (days < 10 ^ 4) }
        ensures { Reads (place_at weeks days self.old) result self.new }
    {
        let week = self.number(1, weeks)?;
        let day = self.number(1, days)?;
        Some((week - 1) * days + (day - 1))
    }
}

// Where the first field ends.
#[tactic(auto, using(crate::proofs::WordSteps::word_found, crate::proofs::WordSteps::word_alone))]
fn word_end(bytes: &[u8]) -> usize
    ensures within { result ≤ length bytes.now }
    ensures fields { words_of bytes.now ≡ take result bytes.now ∷ words_after bytes.now result }
{
    for (i, byte) in bytes.iter().enumerate() {
        if *byte == b' ' {
            return i;
        }
    }
    bytes.len()
}

fn is_plain(text: &[u8]) -> bool
    ensures { result ≡ is_plain_number text.now }
{
    text.len() <= 1 || text[0] != b'0'
}

#[tactic(auto, using(crate::proofs::Numerals::not_plain, crate::proofs::Numerals::too_long))]
fn number_in(low: u32, high: u32, text: &[u8]) -> Option<u32>
    requires { high < 10 ^ 9 }
    ensures value { result ≡ number_in low high text.now }
    ensures range { IfSome result (λ n. (low ≤ n) × (n ≤ high)) }
{
    if !is_plain(text) {
        return None;
    }
    let n = number(text)?;
    if low <= n && n <= high { Some(n) } else { None }
}

#[tactic(auto, unfolding(crate::specs::Fields::value_in))]
fn value_in(greatest: u32, text: &[u8]) -> Option<i32>
    requires { greatest < 10 ^ 9 }
    ensures value { result ≡ value_in greatest text.now }
    ensures range { IfSome result (IsValue greatest) }
{
    let (first, rest) = text.split_first()?;
    if *first == b'-' {
        let n = number_in(1, greatest, rest)?;
        Some(-(n as i32))
    } else {
        let n = number_in(1, greatest, text)?;
        Some(n as i32)
    }
}

fn is_visible(byte: u8) -> bool
    ensures { result ≡ is_visible byte }
{
    !(byte == b' ' || byte == b'\t' || byte == b'\r' || byte == b'\n')
}

fn are_visible(word: &[u8]) -> bool
    ensures { result ≡ list_all is_visible word.now }
{
    word.iter().all(|b| is_visible(*b))
}

fn is_name(word: &[u8]) -> bool
    ensures { result ≡ is_name word.now }
{
    !word.is_empty() && are_visible(word)
}
