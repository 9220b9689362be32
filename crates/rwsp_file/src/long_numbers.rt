// The shifts whose long name is a number.
ghost use Rattle.std.specs.Prelude.{◌≡◌, ◌≤◌, ◌++◌, [], length, IfOk, OnOk};
ghost use Rattle.std.specs.Option.{option_to_list};
ghost use Rattle.std.specs.List.{flat_map};
ghost use Rattle.rwsp_terms.specs.declared.limits.TheConstants.{LONGEST_FILE};
ghost use Rattle.rwsp_file.specs.Reading.{many, each};
ghost use Rattle.rwsp_file.specs.Reads.{ReadsTokens, ReadsUnless, GivesUnless};
ghost use Rattle.rwsp_file.specs.LongNumbers.{number_in, long_number, long_number_at, long_numbers_at, long_numbers};

use crate::cursor::{Cursor, Lexeme};
use crate::fields::{read_demand, read_size};
use crate::misfit::Misfit;
use crate::read::last_line;
use crate::row::{RowWords, read_row_words};
use rwsp_model::Fail;
use rwsp_text::{number, tokens};
use std::alloc::{AllocError, Global};

/// A shift whose line has six words of which the fourth, its long name, is a number. It may be that another line was
/// meant, since the two words behind it are read as the bounds of the shift's blocks.
#[derive(Clone, Copy, Debug, PartialEq, Eq)]
pub struct LongNumber {
    /// The number of the line.
    pub line: u32,
    /// Which shift it is, from 1 on.
    pub shift: u32,
    /// The fourth word.
    pub long_name: u32,
    /// The fifth word, which is read as the least block.
    pub least: u32,
    /// The sixth word, which is read as the greatest block.
    pub greatest: u32,
}

// The number that a word spells, where there is a word.
fn number_in(word: &Option<Lexeme>) -> Option<u32>
    ensures { result ≡ number_in word.now }
{
    match word {
        Some(word) => number(word.text()),
        None => None,
    }
}

fn long_number(shift: u32, words: &RowWords) -> Option<LongNumber>
    ensures { result ≡ long_number shift words.now }
{
    let long_name = number_in(&words.long_name)?;
    let least = number(words.least.text())?;
    let greatest = number(words.greatest.text())?;
    Some(LongNumber {
        line: words.name.line(),
        shift,
        long_name,
        least,
        greatest,
    })
}

#[tactic(auto, unfolding(crate::specs::LongNumbers::long_number_at))]
fn read_long_number<'a>(
    shift: u32,
    cursor: &mut Cursor<'a>,
) -> Result<Option<LongNumber>, Misfit<'a>>
    ensures { ReadsTokens (long_number_at shift cursor.old) result cursor.new }
{
    let words = read_row_words(shift, cursor)?;
    Ok(long_number(shift, &words))
}

// Reads a line for each shift.
#[tactic(auto, using(crate::proofs::ManySteps::many_ok, crate::proofs::ManySteps::loop_done))]
fn read_lines<'a>(
    alloc: Global,
    count: u32,
    cursor: &mut Cursor<'a>,
) -> Result<Vec<Option<LongNumber>>, Fail<Misfit<'a>>>
    ensures { ReadsUnless (λ v. v.items) (many (each long_number_at) count [] cursor.old) result cursor.new }
{
    let mut lines = Vec::new(alloc);
    for i in 0..count {
        let number = read_long_number(i + 1, cursor).map_err(Fail::Refused)?;
        lines.push(number)?;
    }
    Ok(lines)
}

// Appends the number, where there is one.
fn note(numbers: &mut Vec<LongNumber>, number: Option<LongNumber>) -> Result<(), AllocError>
    ensures { OnOk result (numbers.new.items ≡ numbers.old.items ++ option_to_list number) }
{
    if let Some(number) = number {
        numbers.push(number)?;
    }
    Ok(())
}

// Those that are there.
fn present(alloc: Global, lines: &[Option<LongNumber>]) -> Result<Vec<LongNumber>, AllocError>
    ensures { IfOk result (λ v. v.items ≡ flat_map option_to_list lines.now) }
{
    let mut numbers = Vec::new(alloc);
    for i in 0..lines.len() {
        note(&mut numbers, lines[i])?;
    }
    Ok(numbers)
}

#[tactic(auto, unfolding(crate::specs::LongNumbers::long_numbers_at))]
fn read_long_numbers<'a>(
    alloc: Global,
    cursor: &mut Cursor<'a>,
) -> Result<Vec<LongNumber>, Fail<Misfit<'a>>>
    ensures { GivesUnless (λ v. v.items) (long_numbers_at cursor.old) result }
{
    let size = read_size(cursor).map_err(Fail::Refused)?;
    // By a call, so that the drop is one step of the proof.
    let demand = read_demand(alloc, size, cursor)?;
    drop(demand);
    let lines = read_lines(alloc, size.shifts, cursor)?;
    let numbers = present(alloc, &lines)?;
    Ok(numbers)
}

/// The shifts whose line has six words of which the fourth, the long name, is a number, in order; none where the words
/// of the shifts can't be read. The cost grows with the bytes.
pub fn numeric_long_names(alloc: Global, bytes: &[u8]) -> Result<Vec<LongNumber>, AllocError>
    requires { length bytes.now ≤ LONGEST_FILE }
    ensures { IfOk result (λ v. v.items ≡ long_numbers bytes.now) }
{
    let tokens = tokens(alloc, bytes)?;
    let mut cursor = Cursor::of(bytes, &tokens, last_line(bytes));
    match read_long_numbers(alloc, &mut cursor) {
        Ok(numbers) => Ok(numbers),
        Err(Fail::Refused(_)) => Ok(Vec::new(alloc)),
        Err(Fail::Memory) => Err(AllocError),
    }
}
