// Reading the rows of shifts.
ghost use Rattle.std.specs.Prelude.{◌≡◌, ◌∷◌, ◌+◌, ◌<◌, ◌≤◌, length, IfOk, MatchResult, Ok, Err, false};
ghost use Rattle.std.specs.List.{list_any};
ghost use Rattle.std.specs.Str.{bytes_eq};
ghost use Rattle.rwsp_terms.specs.declared.limits.TheConstants.{MOST_SHIFTS};
ghost use Rattle.rwsp_file.specs.Reading.{words_of_row, row_words_at, is_new_name, holder, name_fault, new_name, numbers_of_row, shift_of, shift_at, shift_rows_at};
ghost use Rattle.rwsp_file.specs.Reads.{ReadsTokens, ReadsUnless, GivesUnless};

use crate::cursor::{Cursor, Lexeme};
use crate::limits::{BLOCK, MINUTES};
use crate::misfit::{Fault, Misfit, Place};
use crate::shifts::Shifts;
use rwsp_model::Fail;
use rwsp_terms::limits::LONGEST_NAME;
use rwsp_terms::{Bounds, Name, ShiftRow};
use std::alloc::{AllocError, Global};

/// The words of a shift.
#[derive(Drop)]
pub struct RowWords<'a> {
    pub name: Lexeme<'a>,
    pub start: Lexeme<'a>,
    pub minutes: Lexeme<'a>,
    pub long_name: Option<Lexeme<'a>>,
    pub least: Lexeme<'a>,
    pub greatest: Lexeme<'a>,
}

// The words of a shift from the first of its line and the others.
fn words_of_row<'a>(name: Lexeme<'a>, others: &mut Cursor<'a>) -> Option<RowWords<'a>>
    ensures { result ≡ words_of_row (name.entry ∷ others.old.lexemes) }
{
    let start = others.pop()?;
    let minutes = others.pop()?;
    let fourth = others.pop()?;
    let fifth = others.pop()?;
    let Some(sixth) = others.pop() else {
        return Some(RowWords {
            name,
            start,
            minutes,
            long_name: None,
            least: fourth,
            greatest: fifth,
        });
    };
    if others.pop().is_some() {
        return None;
    }
    Some(RowWords {
        name,
        start,
        minutes,
        long_name: Some(fourth),
        least: fifth,
        greatest: sixth,
    })
}

/// Reads the words of the next line that has any left, which is that of the shift.
#[tactic(auto, unfolding(crate::specs::Reading::row_words_at))]
pub fn read_row_words<'a>(shift: u32, cursor: &mut Cursor<'a>) -> Result<RowWords<'a>, Misfit<'a>>
    ensures { ReadsTokens (row_words_at shift cursor.old) result cursor.new }
{
    let awaited = Place::ShiftLine(shift);
    let first = cursor.next(awaited)?;
    let mut others = cursor.take_line(first.line());
    let misfit = first.misfit(awaited, Fault::WordCount(others.len() + 1));
    words_of_row(first, &mut others).ok_or(misfit)
}

fn is_taken(shifts: &Shifts, name: &[u8]) -> bool
    ensures { result ≡ list_any (λ row. bytes_eq name.now row.name) shifts.now }
{
    shifts.place(name).is_some()
}

fn is_new_name(shifts: &Shifts, name: &[u8]) -> bool
    ensures { result ≡ is_new_name shifts.now name.now }
{
    let taken = is_taken(shifts, name);
    name.len() <= LONGEST_NAME as usize && name != b"-".as_slice() && !taken
}

// The number of the shift that has the name.
fn holder(shifts: &Shifts, name: &[u8]) -> u32
    requires { length shifts.now < MOST_SHIFTS }
    ensures { result ≡ holder shifts.now name.now }
{
    shifts.place(name).unwrap_or(0) as u32 + 1
}

// What is wrong with a name that is not new.
fn name_fault(shifts: &Shifts, name: &[u8]) -> Fault
    requires { length shifts.now < MOST_SHIFTS }
    ensures { result ≡ name_fault shifts.now name.now }
{
    if name.len() > LONGEST_NAME as usize {
        Fault::LongName
    } else if name == b"-".as_slice() {
        Fault::OffName
    } else {
        Fault::TakenName(holder(shifts, name))
    }
}

#[tactic(auto, unfolding(crate::specs::Reading::new_name))]
fn check_name<'a>(shift: u32, shifts: &Shifts, word: &Lexeme<'a>) -> Result<(), Misfit<'a>>
    requires { (length shifts.now < MOST_SHIFTS) × (shift ≡ length shifts.now + 1) }
    ensures name { MatchResult result
        (λ _. new_name shifts.now word.now ≡ Ok word.now.text)
        (λ why. new_name shifts.now word.now ≡ Err why) }
    ensures fresh { IfOk result (λ _. list_any (λ other. bytes_eq word.now.text other.name) shifts.now ≡ false) }
{
    if is_new_name(shifts, word.text()) {
        Ok(())
    } else {
        Err(word.misfit(Place::ShiftName(shift), name_fault(shifts, word.text())))
    }
}

#[tactic(auto, unfolding(crate::specs::Reading::numbers_of_row))]
fn numbers_of_row<'a>(shift: u32, words: &RowWords<'a>) -> Result<(u32, u32, Bounds), Misfit<'a>>
    ensures { result ≡ numbers_of_row shift words.now }
{
    let start = words.start.limited(Place::Start(shift), MINUTES)?;
    let minutes = words.minutes.limited(Place::Minutes(shift), MINUTES)?;
    let least = words.least.limited(Place::LeastBlock(shift), BLOCK)?;
    let greatest = words.greatest.limited(Place::GreatestBlock(shift), BLOCK)?;
    Ok((start, minutes, Bounds { least, greatest }))
}

fn copied_name(alloc: Global, word: &Lexeme) -> Result<Name, AllocError>
    ensures { IfOk result (λ name. name ≡ word.now.text) }
{
    let bytes = Vec::from_slice(alloc, word.text())?;
    Ok(Name::of(bytes))
}

#[tactic(auto, unfolding(crate::specs::Reading::shift_of))]
fn shift_of<'a>(
    alloc: Global,
    shift: u32,
    shifts: &Shifts,
    words: &RowWords<'a>,
) -> Result<ShiftRow, Fail<Misfit<'a>>>
    requires { (length shifts.now < MOST_SHIFTS) × (shift ≡ length shifts.now + 1) }
    ensures value { GivesUnless (λ row. row) (shift_of shifts.now words.now) result }
    ensures fresh { IfOk result (λ row. list_any (λ other. bytes_eq row.name other.name) shifts.now ≡ false) }
{
    check_name(shift, shifts, &words.name).map_err(Fail::Refused)?;
    let (start, length, bounds) = numbers_of_row(shift, words).map_err(Fail::Refused)?;
    let name = copied_name(alloc, &words.name)?;
    Ok(ShiftRow {
        name,
        start,
        length,
        bounds,
    })
}

#[tactic(auto, unfolding(crate::specs::Reading::shift_at))]
fn read_shift<'a>(
    alloc: Global,
    shift: u32,
    shifts: &Shifts,
    cursor: &mut Cursor<'a>,
) -> Result<ShiftRow, Fail<Misfit<'a>>>
    requires { (length shifts.now < MOST_SHIFTS) × (shift ≡ length shifts.now + 1) }
    ensures value { ReadsUnless (λ row. row) (shift_at shifts.now cursor.old) result cursor.new }
    ensures fresh { IfOk result (λ row. list_any (λ other. bytes_eq row.name other.name) shifts.now ≡ false) }
{
    let words = read_row_words(shift, cursor).map_err(Fail::Refused)?;
    shift_of(alloc, shift, shifts, &words)
}

/// Reads a row for each shift.
#[tactic(auto, using(crate::proofs::ManySteps::many_ok, crate::proofs::ManySteps::loop_err, crate::proofs::ManySteps::loop_done))]
pub fn read_shifts<'a>(
    alloc: Global,
    count: u32,
    cursor: &mut Cursor<'a>,
) -> Result<Shifts, Fail<Misfit<'a>>>
    requires { count ≤ MOST_SHIFTS }
    ensures value { ReadsUnless (λ shifts. shifts) (shift_rows_at count cursor.old) result cursor.new }
    ensures long { IfOk result (λ shifts. length shifts ≡ count) }
{
    let mut shifts = Shifts::new(alloc);
    for shift in 0..count {
        let row = match read_shift(alloc, shift + 1, &shifts, cursor) {
            Ok(row) => row,
            Err(fail) => {
                // By a call, so that the drop of the shifts is one step of the proof.
                drop(shifts);
                return Err(fail);
            }
        };
        shifts = shifts.with(alloc, row)?;
    }
    Ok(shifts)
}
