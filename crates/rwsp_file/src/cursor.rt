// A cursor over the words of a text.
ghost use Rattle.std.specs.Prelude.{◌≡◌, ◌≤◌, [], ◌∷◌, length, map, IfOk, MatchOption, position, not, ◌==◌};
ghost use Rattle.std.specs.List.{prefix_len};
ghost use Rattle.rwsp_text.specs.Places.{lexeme_at, AreWithin};
ghost use Rattle.rwsp_file.specs.Spelling.{on_line, past_line};
ghost use Rattle.rwsp_file.specs.Reading.{next_at, limited, number_at, bounds_at};
ghost use Rattle.rwsp_file.specs.Reads.{ReadsTokens};
ghost use Rattle.rwsp_file.specs.declared.misfit.Misfit.TheVariants.{BadWord};

use crate::limits::{BLOCK, Limit};
use crate::misfit::{Fault, Misfit, Place};
use rwsp_terms::Bounds;
use rwsp_text::{Token, number};
use std::alloc::{AllocError, Global};
use std::marker::Model;

/// A word of a text, and the number of its line.
#[derive(Drop)]
pub struct Lexeme<'a> {
    text: &'a [u8],
    line: u32,
}

impl<'a> Model for Lexeme<'a> {
    ghost use Rattle.rwsp_text.specs.Lexemes.{Lexeme};

    ghost Value = { Lexeme };

    ghost view = { λ w. record { text = w.text.now; line = w.line } };
}

/// The words of a text that are left, and the number of the line on which the text ends.
#[derive(Drop)]
pub struct Cursor<'a> {
    bytes: &'a [u8],
    tokens: &'a [Token],
    end: u32,
}

impl<'a> Model for Cursor<'a> {
    ghost use Rattle.std.specs.Prelude.{map};
    ghost use Rattle.rwsp_text.specs.Places.{lexeme_at, AreWithin};
    ghost use Rattle.rwsp_file.specs.Reading.{Unread};

    ghost Value = { Unread };

    ghost view = { λ c. record { lexemes = map (lexeme_at c.bytes.now) c.tokens.now; end = c.end } };

    ghost invariant = { λ c. AreWithin c.bytes.now c.tokens.now };
}

impl<'a> Lexeme<'a> {
    /// The bytes of the word.
    pub fn text(&self) -> &'a [u8]
        ensures { result.now ≡ self.now.text }
    {
        self.text
    }

    /// The number of its line.
    pub fn line(&self) -> u32
        ensures { result ≡ self.now.line }
    {
        self.line
    }

    /// The word as one that isn't what was awaited.
    pub fn misfit(&self, awaited: Place, fault: Fault) -> Misfit<'a>
        ensures { result ≡ BadWord awaited self.now fault }
    {
        let word = Lexeme {
            text: self.text,
            line: self.line,
        };
        Misfit::BadWord(awaited, word, fault)
    }

    /// The number that the word spells, where it keeps the limit.
    #[tactic(auto, unfolding(crate::specs::Reading::limited))]
    pub fn limited(&self, awaited: Place, limit: Limit) -> Result<u32, Misfit<'a>>
        ensures value { result ≡ limited awaited limit self.now }
        ensures within { IfOk result (λ n. (limit.least ≤ n) × (n ≤ limit.greatest)) }
    {
        let Some(n) = number(self.text) else {
            return Err(self.misfit(awaited, Fault::NoNumber));
        };
        if n < limit.least || n > limit.greatest {
            return Err(self.misfit(awaited, Fault::Beyond(limit)));
        }
        Ok(n)
    }
}

impl<'a> Cursor<'a> {
    /// The words of the bytes at these tokens.
    pub fn of(bytes: &'a [u8], tokens: &'a [Token], end: u32) -> Cursor<'a>
        requires { AreWithin bytes.now tokens.now }
        ensures { result ≡ record { lexemes = map (lexeme_at bytes.entry.now) tokens.entry.now; end = end } }
    {
        Cursor { bytes, tokens, end }
    }

    /// The next word, where something is awaited.
    #[tactic(auto, unfolding(crate::specs::Reading::next_at))]
    pub fn next(&mut self, awaited: Place) -> Result<Lexeme<'a>, Misfit<'a>>
        ensures { ReadsTokens (next_at awaited self.old) result self.new }
    {
        match self.pop() {
            Some(word) => Ok(word),
            None => Err(Misfit::TextEnds(awaited, self.end)),
        }
    }

    /// The next word as a number that keeps the limit.
    #[tactic(auto, unfolding(crate::specs::Reading::number_at))]
    pub fn number(&mut self, awaited: Place, limit: Limit) -> Result<u32, Misfit<'a>>
        ensures value { ReadsTokens (number_at awaited limit self.old) result self.new }
        ensures within { IfOk result (λ n. (limit.least ≤ n) × (n ≤ limit.greatest)) }
    {
        let word = self.next(awaited)?;
        word.limited(awaited, limit)
    }

    /// The next two words as the bounds of blocks, where these two are awaited.
    #[tactic(auto, unfolding(crate::specs::Reading::bounds_at))]
    pub fn bounds(&mut self, least: Place, greatest: Place) -> Result<Bounds, Misfit<'a>>
        ensures { ReadsTokens (bounds_at least greatest self.old) result self.new }
    {
        let least = self.number(least, BLOCK)?;
        let greatest = self.number(greatest, BLOCK)?;
        Ok(Bounds { least, greatest })
    }

    /// The next word, where there is one.
    pub fn pop(&mut self) -> Option<Lexeme<'a>>
        ensures { MatchOption result
            ((self.old.lexemes ≡ []) × (self.new ≡ self.old))
            (λ w. self.old ≡ record { lexemes = w ∷ self.new.lexemes; end = self.new.end }) }
    {
        let Some((token, rest)) = self.tokens.split_first() else {
            return None;
        };
        self.tokens = rest;
        Some(Lexeme {
            text: &self.bytes[token.start..token.end],
            line: token.line,
        })
    }

    /// The numbers of the lines of the words that are left.
    pub fn lines(&self, alloc: Global) -> Result<Vec<u32>, AllocError>
        ensures { IfOk result (λ v. v.items ≡ map (λ w. w.line) self.now.lexemes) }
    {
        lines_of(alloc, self.tokens)
    }

    /// How many words are left.
    pub fn len(&self) -> usize
        ensures { result ≡ length self.now.lexemes }
    {
        self.tokens.len()
    }

    /// Takes the words that follow on the line.
    pub fn take_line(&mut self, line: u32) -> Cursor<'a>
        ensures taken { result ≡ record { lexemes = on_line line self.old.lexemes; end = self.old.end } }
        ensures left { self.new ≡ record { lexemes = past_line line self.old.lexemes; end = self.old.end } }
    {
        let (front, rest) = self.tokens.split_at(count_on_line(self.tokens, line));
        self.tokens = rest;
        Cursor {
            bytes: self.bytes,
            tokens: front,
            end: self.end,
        }
    }
}

fn lines_of(alloc: Global, tokens: &[Token]) -> Result<Vec<u32>, AllocError>
    ensures { IfOk result (λ v. v.items ≡ map (λ t. t.line) tokens.now) }
{
    let mut lines = Vec::new(alloc);
    for i in 0..tokens.len() {
        lines.push(tokens[i].line)?;
    }
    Ok(lines)
}

fn place_past_line(tokens: &[Token], line: u32) -> Option<usize>
    ensures { result ≡ position (λ t. not (t.line == line)) tokens.now }
{
    tokens.iter().position(|token| token.line != line)
}

fn count_on_line(tokens: &[Token], line: u32) -> usize
    ensures count { result ≡ prefix_len (λ t. t.line == line) tokens.now }
    ensures within { result ≤ length tokens.now }
{
    place_past_line(tokens, line).unwrap_or(tokens.len())
}
