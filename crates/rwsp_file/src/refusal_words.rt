// The words in which a refusal is explained.
ghost use Rattle.std.specs.Prelude.{◌≡◌, ◌<◌, ◌++◌, [], OnOk, codes};
ghost use Rattle.std.specs.Fmt.{decimal};
ghost use Rattle.rwsp_file.specs.declared.misfit.Place.TheVariants.{Weeks};
ghost use Rattle.rwsp_file.specs.declared.misfit.Fault.TheVariants.{TooManyDays, WordCount};
ghost use Rattle.rwsp_file.specs.declared.misfit.Misfit.TheVariants.{TextEnds};
ghost use Rattle.rwsp_file.specs.declared.likely.Cause.TheVariants.{Clock, OtherLength, MissingRow, Announced};
ghost use Rattle.rwsp_file.specs.RefusalWords.{is_visible_byte, hex_digit, byte_text, shown_word, kind_text, place_text, limit_text, reason_text, fault_text, misfit_text, cause_text, cause_line, word_found};

use crate::likely::{Cause, Counts};
use crate::limits::{CELLS, Limit};
use crate::misfit::{Fault, Kind, Misfit, Place};
use rwsp_terms::limits::LONGEST_NAME;
use rwsp_text::put_number;
use std::alloc::AllocError;

fn is_visible_byte(b: u8) -> bool
    ensures { result ≡ is_visible_byte b }
{
    32 <= b && b <= 126
}

fn hex_digit(digit: u8) -> u8
    requires { digit < 16 }
    ensures { result ≡ hex_digit digit }
{
    if digit < 10 { 48 + digit } else { 55 + digit }
}

fn put_byte(out: &mut Vec<u8>, b: u8) -> Result<(), AllocError>
    ensures { OnOk result (out.new.items ≡ out.old.items ++ byte_text b) }
{
    if is_visible_byte(b) {
        out.push(b)?;
        return Ok(());
    }
    out.extend_from_slice(b"\\x")?;
    out.push(hex_digit(b / 16))?;
    out.push(hex_digit(b % 16))?;
    Ok(())
}

/// Appends a word as it is shown: a byte that is no visible one of ASCII as `\xHH`. The cost grows with its bytes.
pub fn put_word(out: &mut Vec<u8>, word: &[u8]) -> Result<(), AllocError>
    ensures { OnOk result (out.new.items ≡ out.old.items ++ shown_word word.now) }
{
    for i in 0..word.len() {
        put_byte(out, word[i])?;
    }
    Ok(())
}

// A text, and a number behind it.
fn put_numbered(out: &mut Vec<u8>, text: &str, number: u32) -> Result<(), AllocError>
    ensures { OnOk result (out.new.items ≡ out.old.items ++ (text.now ++ decimal number)) }
{
    out.extend_from_slice(text.as_bytes())?;
    put_number(out, u64::from(number))
}

// Two texts, and a number behind each.
fn put_two_numbered(
    out: &mut Vec<u8>,
    text: &str,
    number: u32,
    second_text: &str,
    second: u32,
) -> Result<(), AllocError>
    ensures { OnOk result (out.new.items
        ≡ out.old.items ++ (text.now ++ decimal number ++ second_text.now ++ decimal second)) }
{
    put_numbered(out, text, number)?;
    put_numbered(out, second_text, second)
}

fn put_kind(out: &mut Vec<u8>, kind: Kind) -> Result<(), AllocError>
    ensures { OnOk result (out.new.items ≡ out.old.items ++ kind_text kind) }
{
    match kind {
        Kind::Pair => out.extend_from_slice(b"pair"),
        Kind::Triple => out.extend_from_slice(b"triple"),
    }
}

fn put_place(out: &mut Vec<u8>, place: Place) -> Result<(), AllocError>
    ensures { OnOk result (out.new.items ≡ out.old.items ++ place_text place) }
{
    match place {
        Place::Days => out.extend_from_slice(b"the number of days"),
        Place::Weeks => out.extend_from_slice(b"the number of weeks"),
        Place::Shifts => out.extend_from_slice(b"the number of shifts"),
        Place::Demand(shift, day) => {
            put_two_numbered(out, "the demand of shift ", shift, " on day ", day)
        }
        Place::ShiftLine(shift) => put_numbered(out, "the line of shift ", shift),
        Place::ShiftName(shift) => put_numbered(out, "the name of shift ", shift),
        Place::Start(shift) => put_numbered(out, "the start of shift ", shift),
        Place::Minutes(shift) => put_numbered(out, "the length of shift ", shift),
        Place::LeastBlock(shift) => put_numbered(out, "the least block of shift ", shift),
        Place::GreatestBlock(shift) => put_numbered(out, "the greatest block of shift ", shift),
        Place::LeastOff => out.extend_from_slice(b"the least block of days off"),
        Place::GreatestOff => out.extend_from_slice(b"the greatest block of days off"),
        Place::LeastWork => out.extend_from_slice(b"the least block of work"),
        Place::GreatestWork => out.extend_from_slice(b"the greatest block of work"),
        Place::Sequences(kind) => {
            out.extend_from_slice(b"the number of forbidden ")?;
            put_kind(out, kind)?;
            out.extend_from_slice(b"s")
        }
        Place::InSequence(kind, number, symbol) => {
            put_numbered(out, "symbol ", symbol)?;
            out.extend_from_slice(b" of forbidden ")?;
            put_kind(out, kind)?;
            put_numbered(out, " ", number)
        }
        Place::TextEnd => out.extend_from_slice(b"the end of the text"),
    }
}

fn put_limit(out: &mut Vec<u8>, limit: Limit) -> Result<(), AllocError>
    ensures { OnOk result (out.new.items ≡ out.old.items ++ limit_text limit) }
{
    if limit.least == 0 {
        put_numbered(out, " is at most ", limit.greatest)
    } else {
        put_two_numbered(out, " is ", limit.least, " to ", limit.greatest)
    }
}

fn put_reason(out: &mut Vec<u8>, fault: Fault) -> Result<(), AllocError>
    ensures { OnOk result (out.new.items ≡ out.old.items ++ reason_text fault) }
{
    match fault {
        Fault::LongName => {
            put_numbered(out, ", and this is longer than ", LONGEST_NAME)?;
            out.extend_from_slice(b" bytes")
        }
        Fault::OffName => out.extend_from_slice(b", and - is the day off"),
        Fault::TakenName(shift) => {
            put_numbered(out, ", and this is the name of shift ", shift)?;
            out.extend_from_slice(b" already")
        }
        Fault::NoSymbol => out.extend_from_slice(b", and this is no shift's name"),
        Fault::NoNumber
        | Fault::Beyond(_)
        | Fault::TooManyDays(_, _)
        | Fault::WordCount(_)
        | Fault::NotEnd => Ok(()),
    }
}

fn put_too_many_days(out: &mut Vec<u8>, weeks: u32, days: u32) -> Result<(), AllocError>
    ensures { OnOk result (out.new.items ≡ out.old.items ++ fault_text Weeks (TooManyDays weeks days)) }
{
    put_number(out, u64::from(weeks))?;
    put_numbered(out, " weeks of ", days)?;
    put_numbered(out, " days have more than ", CELLS.greatest)?;
    out.extend_from_slice(b" days")
}

// What is wrong with a line of so many words.
fn put_word_count(out: &mut Vec<u8>, awaited: Place, words: usize) -> Result<(), AllocError>
    ensures { OnOk result (out.new.items ≡ out.old.items ++ fault_text awaited (WordCount words)) }
{
    put_place(out, awaited)?;
    out.extend_from_slice(b" has five or six words, not ")?;
    put_number(out, words as u64)?;
    Ok(())
}

// What was awaited, and what is wrong with the word that is there.
fn put_awaited(out: &mut Vec<u8>, awaited: Place, fault: Fault) -> Result<(), AllocError>
    ensures { OnOk result (out.new.items
        ≡ out.old.items ++ (place_text awaited ++ codes " was awaited" ++ reason_text fault)) }
{
    put_place(out, awaited)?;
    out.extend_from_slice(b" was awaited")?;
    put_reason(out, fault)?;
    Ok(())
}

fn put_fault(out: &mut Vec<u8>, awaited: Place, fault: Fault) -> Result<(), AllocError>
    ensures { OnOk result (out.new.items ≡ out.old.items ++ fault_text awaited fault) }
{
    match fault {
        Fault::Beyond(limit) => {
            put_place(out, awaited)?;
            put_limit(out, limit)
        }
        Fault::TooManyDays(weeks, days) => put_too_many_days(out, weeks, days),
        Fault::WordCount(words) => put_word_count(out, awaited, words),
        Fault::NoNumber
        | Fault::LongName
        | Fault::OffName
        | Fault::TakenName(_)
        | Fault::NoSymbol
        | Fault::NotEnd => put_awaited(out, awaited, fault),
    }
}

// That the text ends on the line.
fn put_end_line(out: &mut Vec<u8>, line: u32) -> Result<(), AllocError>
    ensures { OnOk result (out.new.items
        ≡ out.old.items ++ (codes "line " ++ decimal line ++ codes ": the text ends, but ")) }
{
    put_numbered(out, "line ", line)?;
    out.extend_from_slice(b": the text ends, but ")
}

// That the text ends on the line, and what was awaited.
fn put_ends(out: &mut Vec<u8>, awaited: Place, line: u32) -> Result<(), AllocError>
    ensures { OnOk result (out.new.items ≡ out.old.items ++ misfit_text (TextEnds awaited line)) }
{
    put_end_line(out, line)?;
    put_place(out, awaited)?;
    out.extend_from_slice(b" was awaited")?;
    Ok(())
}

/// Appends the line, the word that was found, and what was awaited.
pub fn put_misfit(out: &mut Vec<u8>, misfit: &Misfit) -> Result<(), AllocError>
    ensures { OnOk result (out.new.items ≡ out.old.items ++ misfit_text misfit.now) }
{
    match misfit {
        Misfit::TextEnds(awaited, line) => put_ends(out, *awaited, *line),
        Misfit::BadWord(awaited, word, fault) => {
            put_numbered(out, "line ", word.line())?;
            out.extend_from_slice(b": ")?;
            put_word(out, word.text())?;
            out.extend_from_slice(b", but ")?;
            put_fault(out, *awaited, *fault)
        }
    }
}

// What a text announces.
fn put_counts(out: &mut Vec<u8>, counts: Counts) -> Result<(), AllocError>
    ensures { OnOk result (out.new.items ≡ out.old.items ++ cause_text [] (Announced counts)) }
{
    put_two_numbered(out, "line ", counts.line, " announces ", counts.pairs)?;
    put_numbered(out, " forbidden pairs and ", counts.triples)?;
    out.extend_from_slice(b" forbidden triples")?;
    Ok(())
}

// A line of another number of words than there are days.
fn put_other_length(out: &mut Vec<u8>, line: u32, words: usize, days: u32) -> Result<(), AllocError>
    ensures { OnOk result (out.new.items ≡ out.old.items ++ cause_text [] (OtherLength line words days)) }
{
    put_numbered(out, "line ", line)?;
    out.extend_from_slice(b" has ")?;
    put_number(out, words as u64)?;
    put_numbered(out, " words, and there are ", days)?;
    out.extend_from_slice(b" days")
}

// A time, in minutes.
fn put_clock(out: &mut Vec<u8>, word: &[u8], minutes: u32) -> Result<(), AllocError>
    ensures { OnOk result (out.new.items ≡ out.old.items ++ cause_text word.now (Clock minutes)) }
{
    out.extend_from_slice(b"times are minutes from midnight: ")?;
    put_word(out, word)?;
    put_numbered(out, " is ", minutes)?;
    Ok(())
}

// For how many of the shifts demands are there.
fn put_missing_row(out: &mut Vec<u8>, rows: u32, shifts: u32) -> Result<(), AllocError>
    ensures { OnOk result (out.new.items ≡ out.old.items ++ cause_text [] (MissingRow rows shifts)) }
{
    put_two_numbered(out, "demands are there for ", rows, " of ", shifts)?;
    out.extend_from_slice(b" shifts")
}

// The word that was found.
fn word_found<'a>(misfit: &Misfit<'a>) -> &'a [u8]
    ensures { result.now ≡ word_found misfit.now }
{
    match misfit {
        Misfit::TextEnds(_, _) => &[],
        Misfit::BadWord(_, word, _) => word.text(),
    }
}

fn put_cause(out: &mut Vec<u8>, word: &[u8], cause: Cause) -> Result<(), AllocError>
    ensures { OnOk result (out.new.items ≡ out.old.items ++ cause_text word.now cause) }
{
    match cause {
        Cause::ByteOrderMark => out.extend_from_slice(
            b"the text begins with a byte order mark: save it as UTF-8 without one",
        ),
        Cause::Utf16 => out.extend_from_slice(b"the text is in UTF-16: save it as UTF-8"),
        Cause::NoPlainText => {
            out.extend_from_slice(b"this is no plain text: save it as text, in UTF-8")
        }
        Cause::NoBreakSpace => out.extend_from_slice(b"a no-break space is no blank"),
        Cause::Commas => out.extend_from_slice(b"words stand apart by blanks, not by commas"),
        Cause::Clock(minutes) => put_clock(out, word, minutes),
        Cause::Colon => out.extend_from_slice(b"times are minutes from midnight: 06:00 is 360"),
        Cause::RangeForm => {
            out.extend_from_slice(b"a range is written 4..5, with two dots and no blanks")
        }
        Cause::DecimalPoint => out.extend_from_slice(b"numbers are whole, with no decimal point"),
        Cause::OtherLength(line, words, days) => put_other_length(out, line, words, days),
        Cause::MissingRow(rows, shifts) => put_missing_row(out, rows, shifts),
        Cause::NoComment => out.extend_from_slice(b"words that explain a number stand behind a #"),
        Cause::SizesFirst => {
            out.extend_from_slice(b"the text begins with the numbers of days, weeks and shifts")
        }
        Cause::TwoWordName => out.extend_from_slice(
            b"a shift's name is one word; a long name may stand behind the length",
        ),
        Cause::FrameNumbers => out.extend_from_slice(
            b"six numbers stand behind the shifts: 2 for days off, 2 for work, and how many pairs and triples",
        ),
        Cause::Announced(counts) => put_counts(out, counts),
        Cause::NoWords => out.extend_from_slice(b"the text has no words"),
    }
}

/// Appends the line that says what is likely the cause, where that is plain, with the word that was found.
pub fn put_cause_line(
    out: &mut Vec<u8>,
    misfit: &Misfit,
    cause: Option<Cause>,
) -> Result<(), AllocError>
    ensures { OnOk result (out.new.items ≡ out.old.items ++ cause_line (word_found misfit.now) cause) }
{
    let Some(cause) = cause else {
        return Ok(());
    };
    put_cause(out, word_found(misfit), cause)?;
    out.extend_from_slice(b"\n")
}
