// What is likely the cause of a refusal.
ghost use Rattle.std.specs.Prelude.{◌≡◌, ◌<◌, IfOk, IfSome, length, position};
ghost use Rattle.rwsp_file.specs.Reads.{ReadsUnless, GivesUnless};
ghost use Rattle.rwsp_file.specs.LikelyCauses.{has_byte, has_digit, begins_with, has_control, dots, is_range_byte, is_range_like, is_demand, is_bad_range, has_point, is_colon, minutes_from, minutes_of, clock_or_colon, word_cause, words_on, is_other_line, other_line, length_cause, row_cause, rows_cause, lines_cause, row_length_cause, shifts_skipped, counts_at, announced, size_cause, own_cause, place_cause, end_cause, bad_word_cause, likely};

use crate::cursor::{Cursor, Lexeme};
use crate::fields::{read_count, read_demand, read_size};
use crate::limits::sequence_limit;
use crate::misfit::{Fault, Kind, Misfit, Place};
use crate::row::read_shifts;
use rwsp_model::Fail;
use rwsp_text::number;
use std::alloc::{AllocError, Global};

/// How many pairs and triples a text announces, and on which line.
#[derive(Clone, Copy)]
pub struct Counts {
    pub line: u32,
    pub pairs: u32,
    pub triples: u32,
}

/// What is likely the cause of a refusal.
#[derive(Clone, Copy)]
pub enum Cause {
    /// The text begins with a byte order mark.
    ByteOrderMark,
    /// The text is in UTF-16.
    Utf16,
    /// The text has control bytes.
    NoPlainText,
    /// A no-break space in place of a blank.
    NoBreakSpace,
    /// A comma in place of a blank.
    Commas,
    /// A time HH:MM, which is so many minutes from midnight.
    Clock(u32),
    /// A colon.
    Colon,
    /// A range that isn't written LO..HI.
    RangeForm,
    /// A decimal point.
    DecimalPoint,
    /// This line has so many words, and there are so many days.
    OtherLength(u32, usize, u32),
    /// There are lines of demands of so many shifts, and so many shifts.
    MissingRow(u32, u32),
    /// A comment without its `#`.
    NoComment,
    /// One of the three numbers with which a text begins is missing.
    SizesFirst,
    /// A name of two words.
    TwoWordName,
    /// One of the six numbers behind the shifts is missing.
    FrameNumbers,
    /// So many pairs and triples are announced.
    Announced(Counts),
    /// There are no words.
    NoWords,
}

fn has_byte(byte: u8, word: &[u8]) -> bool
    ensures { result ≡ has_byte byte word.now }
{
    word.iter().any(|b| *b == byte)
}

fn has_digit(word: &[u8]) -> bool
    ensures { result ≡ has_digit word.now }
{
    word.iter().any(|b| b.is_ascii_digit())
}

fn begins_with(start: &[u8], word: &[u8]) -> bool
    ensures { result ≡ begins_with start.now word.now }
{
    start.len() <= word.len() && &word[..start.len()] == start
}

fn has_control(word: &[u8]) -> bool
    ensures { result ≡ has_control word.now }
{
    word.iter().any(|b| *b < 32)
}

fn dots(word: &[u8]) -> usize
    ensures { result ≡ dots word.now }
{
    word.iter().filter(|b| **b == b'.').count()
}

fn minutes_from(hours: Option<u32>, minutes: Option<u32>) -> Option<u32>
    ensures { result ≡ minutes_from hours minutes }
{
    let hours = hours?;
    let minutes = minutes?;
    if hours < 24 && minutes < 60 {
        Some(hours * 60 + minutes)
    } else {
        None
    }
}

fn place_of_colon(word: &[u8]) -> Option<usize>
    ensures { result ≡ position is_colon word.now }
{
    word.iter().position(|b| *b == b':')
}

// The minutes from midnight of a time.
fn minutes_of(word: &[u8]) -> Option<u32>
    ensures { result ≡ minutes_of word.now }
{
    let place = place_of_colon(word)?;
    minutes_from(number(&word[..place]), number(&word[place + 1..]))
}

fn clock_or_colon(word: &[u8]) -> Cause
    ensures { result ≡ clock_or_colon (minutes_of word.now) }
{
    match minutes_of(word) {
        Some(minutes) => Cause::Clock(minutes),
        None => Cause::Colon,
    }
}

// What the bytes of a word show that should be a number, wherever it is.
fn word_cause(word: &[u8]) -> Option<Cause>
    ensures { result ≡ word_cause word.now }
{
    if begins_with(&[239, 187, 191], word) {
        Some(Cause::ByteOrderMark)
    } else if begins_with(&[255, 254], word) || begins_with(&[254, 255], word) {
        Some(Cause::Utf16)
    } else if has_control(word) {
        Some(Cause::NoPlainText)
    } else if has_byte(194, word) && has_byte(160, word) {
        Some(Cause::NoBreakSpace)
    } else if has_byte(b',', word) {
        Some(Cause::Commas)
    } else if has_byte(b':', word) {
        Some(clock_or_colon(word))
    } else {
        None
    }
}

fn is_range_byte(b: u8) -> bool
    ensures { result ≡ is_range_byte b }
{
    b.is_ascii_digit() || b == b'-' || b == b'.'
}

fn is_range_like(word: &[u8]) -> bool
    ensures { result ≡ is_range_like word.now }
{
    word.iter().all(|b| is_range_byte(*b))
}

fn is_demand(awaited: Place) -> bool
    ensures { result ≡ is_demand awaited }
{
    match awaited {
        Place::Demand(_, _) => true,
        _ => false,
    }
}

// Whether a word is no demand for a `-` or for two dots.
fn is_bad_range(word: &[u8]) -> bool
    ensures { result ≡ is_bad_range word.now }
{
    is_range_like(word) && (has_byte(b'-', word) || 2 <= dots(word))
}

fn has_point(word: &[u8]) -> bool
    ensures { result ≡ has_point word.now }
{
    is_range_like(word) && dots(word) == 1
}

// How many words are on the line.
fn words_on(lines: &[u32], line: u32) -> usize
    ensures { result ≡ words_on lines.now line }
{
    lines.iter().filter(|l| **l == line).count()
}

fn is_other_line(lines: &[u32], words: u32, last: u32, line: u32) -> bool
    ensures { result ≡ is_other_line lines.now words last line }
{
    line <= last && words_on(lines, line) != words as usize
}

fn place_of_other(lines: &[u32], words: u32, last: u32) -> Option<usize>
    ensures place { result ≡ position (is_other_line lines.now words last) lines.now }
    ensures within { IfSome result (λ k. k < length lines.now) }
{
    lines
        .iter()
        .position(|line| is_other_line(lines, words, last, *line))
}

// The first line, up to the last one, which has not so many words. The cost grows with the words, and with the words up
// to that line times all words.
fn other_line(lines: &[u32], words: u32, last: u32) -> Option<u32>
    ensures { result ≡ other_line lines.now words last }
{
    let place = place_of_other(lines, words, last)?;
    Some(lines[place])
}

fn length_cause(lines: &[u32], days: u32, last: u32) -> Option<Cause>
    ensures { result ≡ length_cause lines.now days last }
{
    let line = other_line(lines, days, last)?;
    Some(Cause::OtherLength(line, words_on(lines, line), days))
}

fn row_cause(shifts: u32, shift: u32, day: u32, word: &[u8]) -> Option<Cause>
    ensures { result ≡ row_cause shifts shift day word.now }
{
    if day != 1 || has_digit(word) {
        None
    } else if shift == 1 {
        Some(Cause::NoComment)
    } else {
        Some(Cause::MissingRow(shift.saturating_sub(1), shifts))
    }
}

// What the lines before a word show that should be a demand.
fn rows_cause(
    alloc: Global,
    cursor: &mut Cursor,
    shift: u32,
    day: u32,
    word: &Lexeme,
) -> Result<Option<Cause>, AllocError>
    ensures { IfOk result (λ cause. cause ≡ rows_cause cursor.old shift day word.now) }
{
    let size = match read_size(cursor) {
        Ok(size) => size,
        Err(_) => return Ok(None),
    };
    let lines = cursor.lines(alloc)?;
    match length_cause(&lines, size.days, word.line().saturating_sub(1)) {
        Some(cause) => Ok(Some(cause)),
        None => Ok(row_cause(size.shifts, shift, day, word.text())),
    }
}

// What the lines of demands up to a word show.
fn lines_cause(
    alloc: Global,
    cursor: &mut Cursor,
    word: &Lexeme,
) -> Result<Option<Cause>, AllocError>
    ensures { IfOk result (λ cause. cause ≡ lines_cause cursor.old word.now) }
{
    let size = match read_size(cursor) {
        Ok(size) => size,
        Err(_) => return Ok(None),
    };
    let lines = cursor.lines(alloc)?;
    Ok(length_cause(&lines, size.days, word.line()))
}

// What is likely where a shift's line has not five or six words.
fn row_length_cause(
    alloc: Global,
    cursor: &mut Cursor,
    awaited: Place,
    word: &Lexeme,
) -> Result<Option<Cause>, AllocError>
    ensures { IfOk result (λ cause. cause ≡ row_length_cause cursor.old awaited word.now) }
{
    match awaited {
        Place::ShiftLine(shift) => {
            if shift == 1 && has_digit(word.text()) {
                lines_cause(alloc, cursor, word)
            } else {
                Ok(None)
            }
        }
        _ => Ok(None),
    }
}

// Past the demands and the shifts.
fn skip_shifts<'a>(alloc: Global, cursor: &mut Cursor<'a>) -> Result<(), Fail<Misfit<'a>>>
    ensures { ReadsUnless (λ none. none) (shifts_skipped cursor.old) result cursor.new }
{
    let size = read_size(cursor).map_err(Fail::Refused)?;
    // By calls, so that each drop is one step of the proof.
    let demand = read_demand(alloc, size, cursor)?;
    drop(demand);
    let shifts = read_shifts(alloc, size.shifts, cursor)?;
    drop(shifts);
    Ok(())
}

#[tactic(auto, unfolding(crate::specs::LikelyCauses::counts_at))]
fn read_counts<'a>(alloc: Global, cursor: &mut Cursor<'a>) -> Result<Counts, Fail<Misfit<'a>>>
    ensures { GivesUnless (λ counts. counts) (counts_at cursor.old) result }
{
    skip_shifts(alloc, cursor)?;
    cursor
        .bounds(Place::LeastOff, Place::GreatestOff)
        .map_err(Fail::Refused)?;
    cursor
        .bounds(Place::LeastWork, Place::GreatestWork)
        .map_err(Fail::Refused)?;
    let awaited = Place::Sequences(Kind::Pair);
    let word = cursor.next(awaited).map_err(Fail::Refused)?;
    let pairs = word
        .limited(awaited, sequence_limit(Kind::Pair))
        .map_err(Fail::Refused)?;
    let triples = read_count(Kind::Triple, cursor).map_err(Fail::Refused)?;
    Ok(Counts {
        line: word.line(),
        pairs,
        triples,
    })
}

// What a text announces, where it goes as far.
fn announced(alloc: Global, cursor: &mut Cursor) -> Result<Option<Cause>, AllocError>
    ensures { IfOk result (λ cause. cause ≡ announced (counts_at cursor.old)) }
{
    match read_counts(alloc, cursor) {
        Ok(counts) => Ok(Some(Cause::Announced(counts))),
        Err(Fail::Refused(_)) => Ok(None),
        Err(Fail::Memory) => Err(AllocError),
    }
}

fn size_cause(word: &[u8]) -> Option<Cause>
    ensures { result ≡ size_cause word.now }
{
    if has_digit(word) {
        Some(Cause::SizesFirst)
    } else {
        Some(Cause::NoComment)
    }
}

// What is usual at a place where a word should be a number, or what the lines before a word show that should be a
// demand.
fn own_cause(
    alloc: Global,
    cursor: &mut Cursor,
    awaited: Place,
    word: &Lexeme,
) -> Result<Option<Cause>, AllocError>
    ensures { IfOk result (λ cause. cause ≡ own_cause cursor.old awaited word.now) }
{
    match awaited {
        Place::Demand(shift, day) => rows_cause(alloc, cursor, shift, day, word),
        Place::Days | Place::Weeks | Place::Shifts => Ok(size_cause(word.text())),
        Place::Start(_) => Ok(if has_digit(word.text()) {
            None
        } else {
            Some(Cause::TwoWordName)
        }),
        Place::LeastOff
        | Place::GreatestOff
        | Place::LeastWork
        | Place::GreatestWork
        | Place::Sequences(_) => Ok(Some(Cause::FrameNumbers)),
        _ => Ok(None),
    }
}

// What a word shows that should be a number, by its place.
fn place_cause(
    alloc: Global,
    cursor: &mut Cursor,
    awaited: Place,
    word: &Lexeme,
) -> Result<Option<Cause>, AllocError>
    ensures { IfOk result (λ cause. cause ≡ place_cause cursor.old awaited word.now) }
{
    if is_demand(awaited) && is_bad_range(word.text()) {
        Ok(Some(Cause::RangeForm))
    } else if has_point(word.text()) {
        Ok(Some(Cause::DecimalPoint))
    } else {
        own_cause(alloc, cursor, awaited, word)
    }
}

// What is likely where the text ends too early.
fn end_cause(
    alloc: Global,
    cursor: &mut Cursor,
    awaited: Place,
) -> Result<Option<Cause>, AllocError>
    ensures { IfOk result (λ cause. cause ≡ end_cause cursor.old awaited) }
{
    match awaited {
        Place::Days => Ok(Some(Cause::NoWords)),
        Place::InSequence(_, _, _) => announced(alloc, cursor),
        _ => Ok(None),
    }
}

// What is likely where a word is refused.
fn bad_word_cause(
    alloc: Global,
    cursor: &mut Cursor,
    awaited: Place,
    word: &Lexeme,
    fault: Fault,
) -> Result<Option<Cause>, AllocError>
    ensures { IfOk result (λ cause. cause ≡ bad_word_cause cursor.old awaited word.now fault) }
{
    match fault {
        Fault::NoNumber => match word_cause(word.text()) {
            Some(cause) => Ok(Some(cause)),
            None => place_cause(alloc, cursor, awaited, word),
        },
        Fault::WordCount(_) => row_length_cause(alloc, cursor, awaited, word),
        Fault::NoSymbol => Ok(if has_byte(b',', word.text()) {
            Some(Cause::Commas)
        } else {
            None
        }),
        Fault::NotEnd => announced(alloc, cursor),
        Fault::Beyond(_)
        | Fault::TooManyDays(_, _)
        | Fault::LongName
        | Fault::OffName
        | Fault::TakenName(_) => Ok(None),
    }
}

/// What is likely the cause of the first failure, where that is plain. The cursor is at the front of the text. The cost
/// grows with the text.
pub fn likely(
    alloc: Global,
    cursor: &mut Cursor,
    misfit: &Misfit,
) -> Result<Option<Cause>, AllocError>
    ensures { IfOk result (λ cause. cause ≡ likely cursor.old misfit.now) }
{
    match misfit {
        Misfit::TextEnds(awaited, _) => end_cause(alloc, cursor, *awaited),
        Misfit::BadWord(awaited, word, fault) => {
            bad_word_cause(alloc, cursor, *awaited, word, *fault)
        }
    }
}
