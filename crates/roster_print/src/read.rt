// What the weeks of a text say of their cells, and the roster that a text spells.
ghost use Rattle.std.specs.Prelude.{◌≡◌, ◌≤◌, List, [], length, map, Some, None, IfOk, OnOk, true, false, is_none};
ghost use Rattle.std.specs.List.{list_any, flat_map};
ghost use Rattle.rwsp_terms.specs.declared.limits.TheConstants.{LONGEST_FILE};
ghost use Rattle.rwsp_text.specs.Lexemes.{has_some};
ghost use Rattle.rwsp_text.specs.Places.{AreWithin};
ghost use Rattle.rwsp_terms.specs.declared.data.Symbol.{Symbol};
ghost use Rattle.rwsp_terms.specs.Roster.{IsRoster};
ghost use Rattle.rwsp_model.specs.Refusals.{IfRefused};
ghost use Rattle.roster_print.specs.Said.{said_of, or_off};
ghost use Rattle.roster_print.specs.RosterText.{SpellsRoster, SpellsWeeks};
ghost use Rattle.roster_print.specs.Refusal.{refusal_of_roster, refusal_of_weeks, week_refusal, first_refusal, numbered_weeks};
ghost use Rattle.roster_print.specs.Reading.{words_at, words_in, AppendsSaid};

use crate::RosterRefusal;
use rwsp_model::{Fail, Problem, Roster};
use rwsp_terms::Symbol;
use rwsp_text::{LineReader, Token, tokens};
use std::alloc::{AllocError, Global};

// What a word says of its cell: that it is open, where one may be, or its symbol.
fn said_of(problem: &Problem, lets_open: bool, word: &[u8]) -> Option<Option<Symbol>>
    ensures { result ≡ said_of problem.now lets_open word.now }
{
    if lets_open && word == b"?".as_slice() {
        return Some(None);
    }
    match problem.symbol(word) {
        None => None,
        Some(x) => Some(Some(x)),
    }
}

// Appends what the words say of their cells.
fn read_words(
    problem: &Problem,
    lets_open: bool,
    text: &[u8],
    words: &[Token],
    line: u32,
    said: &mut Vec<Option<Symbol>>,
) -> Result<(), Fail<RosterRefusal>>
    requires { AreWithin text.now words.now }
    ensures said { OnOk result
        (AppendsSaid (said_of problem.now lets_open) (words_at text.now words.now) said.old.items said.new.items) }
    ensures refused { IfRefused result (λ why. why ≡ RosterRefusal.Unknown line) }
    ensures unknown { IfRefused result (λ why.
        list_any (λ word. is_none (said_of problem.now lets_open word)) (words_at text.now words.now) ≡ true) }
{
    for word in words {
        let Some(cell) = said_of(problem, lets_open, &text[word.start..word.end]) else {
            return Err(Fail::Refused(RosterRefusal::Unknown(line)));
        };
        said.push(cell)?;
    }
    Ok(())
}

// Appends what a week says of its cells.
#[tactic(auto, using(crate::proofs::Reading::week_unknown, crate::proofs::Reading::week_wide, crate::proofs::Reading::week_accepted))]
fn read_week(
    problem: &Problem,
    lets_open: bool,
    text: &[u8],
    words: &[Token],
    line: u32,
    said: &mut Vec<Option<Symbol>>,
) -> Result<(), Fail<RosterRefusal>>
    requires { AreWithin text.now words.now }
    ensures said { OnOk result
        (AppendsSaid (said_of problem.now lets_open) (words_at text.now words.now) said.old.items said.new.items) }
    ensures accepted { OnOk result
        (week_refusal problem.now (said_of problem.now lets_open) (line, words_at text.now words.now) ≡ None) }
    ensures refused { IfRefused result (λ why.
        week_refusal problem.now (said_of problem.now lets_open) (line, words_at text.now words.now) ≡ Some why) }
{
    read_words(problem, lets_open, text, words, line, said)?;
    if words.len() != problem.days() as usize {
        return Err(Fail::Refused(RosterRefusal::Width(line)));
    }
    Ok(())
}

// The words of a text.
#[tactic(auto, using(crate::proofs::Reading::text_words))]
fn words_of(alloc: Global, text: &[u8]) -> Result<Vec<Token>, AllocError>
    requires { length text.now ≤ LONGEST_FILE }
    ensures words { IfOk result (λ words. words_at text.now words.items ≡ words_in text.now) }
    ensures within { IfOk result (λ words. AreWithin text.now words.items) }
{
    tokens(alloc, text)
}

// Appends what a line says of its cells. True where it is a week, false where it has no words.
fn read_line(
    alloc: Global,
    problem: &Problem,
    lets_open: bool,
    text: &[u8],
    line: u32,
    said: &mut Vec<Option<Symbol>>,
) -> Result<bool, Fail<RosterRefusal>>
    requires { length text.now ≤ LONGEST_FILE }
    ensures week { IfOk result (λ week. week ≡ has_some (words_in text.now)) }
    ensures said { OnOk result
        (AppendsSaid (said_of problem.now lets_open) (words_in text.now) said.old.items said.new.items) }
    ensures accepted { IfOk result (λ week. week ≡ true
        → week_refusal problem.now (said_of problem.now lets_open) (line, words_in text.now) ≡ None) }
    ensures refused { IfRefused result (λ why.
        (has_some (words_in text.now) ≡ true)
        × (week_refusal problem.now (said_of problem.now lets_open) (line, words_in text.now) ≡ Some why)) }
{
    let words = words_of(alloc, text)?;
    if words.is_empty() {
        return Ok(false);
    }
    read_week(problem, lets_open, text, &words, line, said)?;
    Ok(true)
}

// What all weeks say of their cells, and the number of weeks.
fn read_lines(
    alloc: Global,
    problem: &Problem,
    lets_open: bool,
    bytes: &[u8],
) -> Result<(Vec<Option<Symbol>>, u32), Fail<RosterRefusal>>
    requires { length bytes.now ≤ LONGEST_FILE }
    ensures said { IfOk result (λ read. AppendsSaid (said_of problem.now lets_open)
        (flat_map (λ week. week.1) (numbered_weeks bytes.now)) [] read.0.items) }
    ensures count { IfOk result (λ read. read.1 ≡ length (numbered_weeks bytes.now)) }
    ensures accepted { OnOk result
        (first_refusal problem.now (said_of problem.now lets_open) (numbered_weeks bytes.now) ≡ None) }
    ensures refused { IfRefused result (λ why.
        first_refusal problem.now (said_of problem.now lets_open) (numbered_weeks bytes.now) ≡ Some why) }
{
    let mut said = Vec::new(alloc);
    let mut weeks = 0;
    let mut line = 1;
    let mut reader = LineReader::new(bytes);
    while let Some(text) = reader.next() {
        if read_line(alloc, problem, lets_open, text, line, &mut said)? {
            weeks += 1;
        }
        line += 1;
    }
    Ok((said, weeks))
}

/// What the words of a text of at most 1,048,576 bytes say of the cells of a roster: each its symbol, or with `lets_open`
/// also `?` that a cell is left open. Lines without words are skipped, and every other line is a week. The first week
/// with a wrong word or a wrong number of words is refused, for a wrong word first, and the number of weeks only where
/// no week is refused.
pub fn read_weeks(
    alloc: Global,
    problem: &Problem,
    lets_open: bool,
    bytes: &[u8],
) -> Result<Vec<Option<Symbol>>, Fail<RosterRefusal>>
    requires { length bytes.now ≤ LONGEST_FILE }
    ensures spelled { IfOk result (λ said.
        SpellsWeeks problem.now (said_of problem.now lets_open) bytes.now said.items) }
    ensures refused { IfRefused result (λ why.
        refusal_of_weeks problem.now (said_of problem.now lets_open) bytes.now ≡ Some why) }
{
    let (said, weeks) = read_lines(alloc, problem, lets_open, bytes)?;
    if weeks != problem.weeks() {
        return Err(Fail::Refused(RosterRefusal::Weeks(weeks)));
    }
    Ok(said)
}

// The symbol of a cell, and of one that is open the day off.
fn or_off(cell: &Option<Symbol>) -> Symbol
    ensures { result ≡ or_off cell.now }
{
    match cell {
        Some(x) => *x,
        None => Symbol::OFF,
    }
}

// The symbols of cells of which none is open.
fn symbols_of(alloc: Global, said: &[Option<Symbol>]) -> Result<Vec<Symbol>, AllocError>
    ensures { IfOk result (λ symbols. symbols.items ≡ map or_off said.now) }
{
    let mut symbols = Vec::new(alloc);
    for cell in said {
        symbols.push(or_off(cell))?;
    }
    Ok(symbols)
}

/// The roster that a text of at most 1,048,576 bytes spells, which is refused as `read_weeks` says.
pub fn read_roster(
    alloc: Global,
    problem: &Problem,
    bytes: &[u8],
) -> Result<Roster, Fail<RosterRefusal>>
    requires { length bytes.now ≤ LONGEST_FILE }
    ensures spelled { IfOk result (λ s. SpellsRoster problem.now bytes.now s.cells) }
    ensures roster { IfOk result (λ s. IsRoster problem.now s.cells) }
    ensures days { IfOk result (λ s. s.days ≡ problem.now.days) }
    ensures refused { IfRefused result (λ why.
        refusal_of_roster problem.now bytes.now ≡ Some why) }
    ensures unspelled { IfRefused result (λ why.
        (s : List Symbol) → SpellsRoster problem.now bytes.now s → ⊥) }
{
    let said = read_weeks(alloc, problem, false, bytes)?;
    match symbols_of(alloc, &said) {
        Err(_) => Err(Fail::Memory),
        Ok(cells) => Ok(Roster::of(problem, cells)),
    }
}
