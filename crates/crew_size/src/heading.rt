// The headings of a staff text.
ghost use Rattle.std.specs.Prelude.{◌≡◌, ◌≢◌, ℕ, ◌++◌, ◌<◌, ◌^◌, List, [], MatchBool, MatchOption};
ghost use Rattle.crew_size.specs.Sections.{BeginsAsHeading};
ghost use Rattle.crew_size.specs.Places.{heading_line, IsHeadingNumber, MayFollow, IsNextOf, IsLastOf, HasNumber, HasNoNumber};
ghost use Rattle.crew_size.specs.declared.heading.Heading.{Heading};

use crate::sizes::is_size;
use rwsp_model::Problem;
use rwsp_text::number;

/// A heading that a text may have where it is accepted.
#[derive(Clone, Copy)]
pub enum Heading {
    /// This number of weeks has no roster; the log that shows it follows.
    Refuted(u32),
    /// This number of weeks has the roster that follows.
    Found(u32),
    /// No number of weeks up to this one has a roster.
    NoneTo(u32),
}

/// The heading that a line is, where its number has up to nine digits.
#[tactic(auto, using(crate::proofs::Headings::no_heading))]
pub fn heading_of(line: &[u8]) -> Option<Heading>
    ensures { MatchOption result
        ((h : Heading) → IsHeadingNumber h → line.now ≢ heading_line h)
        (λ h. IsHeadingNumber h × (line.now ≡ heading_line h)) }
{
    if let Some(weeks) = number_between(line, b"weeks ", b" none\n") {
        return Some(Heading::Refuted(weeks));
    }
    if let Some(weeks) = number_between(line, b"weeks ", b" roster\n") {
        return Some(Heading::Found(weeks));
    }
    match number_between(line, b"none to ", b"\n") {
        Some(last) => Some(Heading::NoneTo(last)),
        None => None,
    }
}

/// Whether the heading may follow sections of these sizes, the first and the next one.
pub fn may_stand(problem: &Problem, sizes: Option<(u32, u32)>, heading: Heading) -> bool
    requires { IsHeadingNumber heading }
    ensures { MatchBool result (MayFollow problem.now sizes heading) (MayFollow problem.now sizes heading → ⊥) }
{
    match heading {
        Heading::Refuted(weeks) => is_next(problem, sizes, weeks),
        Heading::Found(weeks) => is_next(problem, sizes, weeks),
        Heading::NoneTo(last) => is_last(sizes, last),
    }
}

/// Whether the bytes begin as a heading does.
pub fn begins_as_heading(bytes: &[u8]) -> bool
    ensures { MatchBool result (BeginsAsHeading bytes.now) (BeginsAsHeading bytes.now → ⊥) }
{
    if let Some(_) = behind(bytes, b"weeks ") {
        return true;
    }
    if let Some(_) = behind(bytes, b"none ") {
        return true;
    }
    false
}

fn is_next(problem: &Problem, sizes: Option<(u32, u32)>, weeks: u32) -> bool
    ensures { MatchBool result (IsNextOf problem.now sizes weeks) (IsNextOf problem.now sizes weeks → ⊥) }
{
    if !is_size(problem, weeks) {
        return false;
    }
    match sizes {
        None => true,
        Some((_, next)) => weeks == next,
    }
}

fn is_last(sizes: Option<(u32, u32)>, last: u32) -> bool
    requires { last < 10 ^ 9 }
    ensures { MatchBool result (IsLastOf sizes last) (IsLastOf sizes last → ⊥) }
{
    match sizes {
        None => false,
        Some((_, next)) => last + 1 == next,
    }
}

// The number between a word and what closes the line.
fn number_between(line: &[u8], word: &[u8], close: &[u8]) -> Option<u32>
    ensures { MatchOption result (HasNoNumber line.now word.now close.now) (HasNumber line.now word.now close.now) }
{
    let Some(rest) = behind(line, word) else {
        return None;
    };
    let Some(digits) = ahead(rest, close) else {
        return None;
    };
    plain_number(digits)
}

// What follows a word.
fn behind<'a>(line: &'a [u8], word: &[u8]) -> Option<&'a [u8]>
    ensures { MatchOption result
        ((rest : List ℕ) → line.now ≢ word.now ++ rest)
        (λ rest. line.now ≡ word.now ++ rest.now) }
{
    line.strip_prefix(word)
}

// What is in front of the close of a line.
fn ahead<'a>(line: &'a [u8], close: &[u8]) -> Option<&'a [u8]>
    ensures { MatchOption result
        ((front : List ℕ) → line.now ≢ front ++ close.now)
        (λ front. line.now ≡ front.now ++ close.now) }
{
    line.strip_suffix(close)
}

// The number that up to nine digits spell with no 0 in front.
fn plain_number(digits: &[u8]) -> Option<u32>
    ensures { MatchOption result (HasNoNumber digits.now [] []) (HasNumber digits.now [] []) }
{
    match behind(digits, b"0") {
        Some(_) => None,
        None => number(digits),
    }
}
