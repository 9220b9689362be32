// Reading the forbidden sequences.
ghost use Rattle.std.specs.Prelude.{◌≡◌, length, ◌≤◌};
ghost use Rattle.rwsp_terms.specs.declared.limits.TheConstants.{MOST_SHIFTS, MOST_SEQUENCES};
ghost use Rattle.rwsp_terms.specs.Instance.{symbol_among};
ghost use Rattle.rwsp_file.specs.Reading.{symbol_at, third_at, sequence_at, numbered_at, sequences_at, nothing_of};
ghost use Rattle.rwsp_file.specs.Reads.{ReadsTokens, ReadsUnless};

use crate::cursor::Cursor;
use crate::fields::Frame;
use crate::misfit::{Fault, Kind, Misfit, Place};
use crate::shifts::Shifts;
use rwsp_model::Fail;
use rwsp_terms::{Sequence, Symbol};
use std::alloc::Global;

fn symbol_in(shifts: &Shifts, name: &[u8]) -> Option<Symbol>
    requires { length shifts.now ≤ MOST_SHIFTS }
    ensures { result ≡ symbol_among shifts.now name.now }
{
    if name == b"-".as_slice() {
        return Some(Symbol::OFF);
    }
    let place = shifts.place(name)?;
    Some(Symbol {
        number: place as u8 + 1,
    })
}

#[tactic(auto, unfolding(crate::specs::Reading::symbol_at))]
fn read_symbol<'a>(
    awaited: Place,
    shifts: &Shifts,
    cursor: &mut Cursor<'a>,
) -> Result<Symbol, Misfit<'a>>
    requires { length shifts.now ≤ MOST_SHIFTS }
    ensures { ReadsTokens (symbol_at awaited shifts.now cursor.old) result cursor.new }
{
    let word = cursor.next(awaited)?;
    symbol_in(shifts, word.text()).ok_or(word.misfit(awaited, Fault::NoSymbol))
}

// The third symbol of a sequence, where its kind has one.
#[tactic(auto, unfolding(crate::specs::Reading::third_at))]
fn read_third<'a>(
    kind: Kind,
    number: u32,
    shifts: &Shifts,
    cursor: &mut Cursor<'a>,
) -> Result<Option<Symbol>, Misfit<'a>>
    requires { length shifts.now ≤ MOST_SHIFTS }
    ensures { ReadsTokens (third_at shifts.now kind number cursor.old) result cursor.new }
{
    match kind {
        Kind::Pair => Ok(None),
        Kind::Triple => {
            let third = read_symbol(Place::InSequence(kind, number, 3), shifts, cursor)?;
            Ok(Some(third))
        }
    }
}

#[tactic(auto, unfolding(crate::specs::Reading::sequence_at))]
fn read_sequence<'a>(
    kind: Kind,
    number: u32,
    shifts: &Shifts,
    cursor: &mut Cursor<'a>,
) -> Result<Sequence, Misfit<'a>>
    requires { length shifts.now ≤ MOST_SHIFTS }
    ensures { ReadsTokens (sequence_at shifts.now kind number cursor.old) result cursor.new }
{
    let first = read_symbol(Place::InSequence(kind, number, 1), shifts, cursor)?;
    let second = read_symbol(Place::InSequence(kind, number, 2), shifts, cursor)?;
    let third = read_third(kind, number, shifts, cursor)?;
    Ok(Sequence::on_every_day(first, second, third))
}

// The sequence that has the number among all. The pairs come first.
fn read_numbered<'a>(
    pairs: u32,
    number: u32,
    shifts: &Shifts,
    cursor: &mut Cursor<'a>,
) -> Result<Sequence, Misfit<'a>>
    requires { length shifts.now ≤ MOST_SHIFTS }
    ensures { ReadsTokens (numbered_at shifts.now pairs number cursor.old) result cursor.new }
{
    if number <= pairs {
        read_sequence(Kind::Pair, number, shifts, cursor)
    } else {
        read_sequence(Kind::Triple, number - pairs, shifts, cursor)
    }
}

/// Reads the forbidden sequences: the pairs, and then the triples.
#[tactic(auto, using(crate::proofs::ManySteps::many_ok, crate::proofs::ManySteps::loop_done))]
pub fn read_sequences<'a>(
    alloc: Global,
    shifts: &Shifts,
    frame: Frame,
    cursor: &mut Cursor<'a>,
) -> Result<Vec<Sequence>, Fail<Misfit<'a>>>
    requires shifts { length shifts.now ≤ MOST_SHIFTS }
    requires few { (frame.pairs ≤ MOST_SEQUENCES) × (frame.triples ≤ MOST_SEQUENCES) }
    ensures { ReadsUnless (λ v. v.items) (sequences_at shifts.now frame cursor.old) result cursor.new }
{
    let mut sequences = Vec::new(alloc);
    for i in 0..frame.pairs + frame.triples {
        let sequence = read_numbered(frame.pairs, i + 1, shifts, cursor).map_err(Fail::Refused)?;
        sequences.push(sequence)?;
    }
    Ok(sequences)
}

/// Refuses a word that is left.
pub fn read_end<'a>(cursor: &mut Cursor<'a>) -> Result<(), Misfit<'a>>
    ensures { result ≡ nothing_of cursor.old.lexemes }
{
    match cursor.pop() {
        Some(word) => Err(word.misfit(Place::TextEnd, Fault::NotEnd)),
        None => Ok(()),
    }
}
