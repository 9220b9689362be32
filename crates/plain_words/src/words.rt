// Words that sentences have in common.
#![tactic(auto, unfolding(crate::specs::Words::count_words, crate::specs::Words::days_words, crate::specs::Words::weeks_words, crate::specs::Words::range_words, crate::specs::Words::name_words, crate::specs::Words::shift_words))]

ghost use Rattle.std.specs.Prelude.{◌≡◌, ◌++◌, OnOk};
ghost use Rattle.std.specs.List.{list_all};
ghost use Rattle.rwsp_terms.specs.Instance.{name_numbered};
ghost use Rattle.plain_words.specs.Words.{count_words, days_words, weeks_words, range_words, is_of_number, is_like_words, name_words, shift_words, symbol_words};

use crate::pieces::{DAY, DAYS, Done, QUOTE, TO, WEEK, WEEKS, put};
use rwsp_model::Problem;
use rwsp_terms::{Bounds, Symbol};
use rwsp_text::put_number;
use shown_names::put_shown;

/// Appends a number of things, by the words for one and for any other number.
pub fn put_count(out: &mut Vec<u8>, count: u64, one: &[u8], many: &[u8]) -> Done
    ensures { OnOk result (out.new.items ≡ out.old.items ++ count_words count one.now many.now) }
{
    put_number(out, count)?;
    if count == 1 {
        put(out, one)
    } else {
        put(out, many)
    }
}

/// Appends a number of days.
pub fn put_days(out: &mut Vec<u8>, count: u32) -> Done
    ensures { OnOk result (out.new.items ≡ out.old.items ++ days_words count) }
{
    put_count(out, u64::from(count), DAY, DAYS)
}

/// Appends a number of weeks.
pub fn put_weeks(out: &mut Vec<u8>, count: u32) -> Done
    ensures { OnOk result (out.new.items ≡ out.old.items ++ weeks_words count) }
{
    put_count(out, u64::from(count), WEEK, WEEKS)
}

/// Appends a range of numbers, of which one alone stands where both are it.
pub fn put_range(out: &mut Vec<u8>, range: Bounds) -> Done
    ensures { OnOk result (out.new.items ≡ out.old.items ++ range_words range) }
{
    put_number(out, u64::from(range.least))?;
    if range.least != range.greatest {
        put(out, TO)?;
        put_number(out, u64::from(range.greatest))?;
    }
    Ok(())
}

// Whether the byte is a digit or a dot.
fn is_of_number(b: u8) -> bool
    ensures { result ≡ is_of_number b }
{
    (48 <= b && b <= 57) || b == 46
}

// Whether each byte is one.
fn are_of_number(name: &[u8]) -> bool
    ensures { result ≡ list_all is_of_number name.now }
{
    name.iter().all(|b| is_of_number(*b))
}

// Whether a name could be taken for a word or a number of the sentence.
fn is_like_words(name: &[u8]) -> bool
    ensures { result ≡ is_like_words name.now }
{
    name == b"off".as_slice() || name == b"work".as_slice() || are_of_number(name)
}

/// Appends a name as it is shown, in quotes where it could be taken for a word or a number of the sentence.
fn put_name_words(out: &mut Vec<u8>, name: &[u8]) -> Done
    ensures { OnOk result (out.new.items ≡ out.old.items ++ name_words name.now) }
{
    if is_like_words(name) {
        put(out, QUOTE)?;
        put_shown(out, name)?;
        put(out, QUOTE)
    } else {
        put_shown(out, name)
    }
}

// The name of a symbol by its number, or none where there is no such symbol.
fn name_numbered(problem: &Problem, number: u32) -> &[u8]
    ensures { result.now ≡ name_numbered problem.now number }
{
    if number <= u32::from(problem.shifts()) {
        problem.name(Symbol {
            number: number as u8,
        })
    } else {
        b"".as_slice()
    }
}

/// Appends the name of a shift by its number.
pub fn put_shift(out: &mut Vec<u8>, problem: &Problem, number: u32) -> Done
    ensures { OnOk result (out.new.items ≡ out.old.items ++ shift_words problem.now number) }
{
    put_name_words(out, name_numbered(problem, number))
}

/// Appends the name of a shift, or these words for the day off.
pub fn put_symbol(out: &mut Vec<u8>, problem: &Problem, x: Symbol, off: &[u8]) -> Done
    ensures { OnOk result (out.new.items ≡ out.old.items ++ symbol_words problem.now x off.now) }
{
    if x.number == 0 {
        put(out, off)
    } else {
        put_shift(out, problem, u32::from(x.number))
    }
}
