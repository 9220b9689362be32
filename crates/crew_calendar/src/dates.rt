// The dates of days in a row, and the words that name a date.
ghost use Rattle.std.specs.Prelude.{◌≡◌, ◌+◌, ◌++◌, ◌≤◌, ◌↔◌, pos, ◌+ℤ◌, IsOk, IfOk, OnOk, OnErr, IsTrue, MatchOption};
ghost use Rattle.crew_calendar.specs.Calendar.{Date as DateValue, epoch_day, date_text, weekday_name, weekday_text, IsWithinDates, FitsDates, IsNotBefore, IsDateWord};

use crate::civil_date::{CivilDate, from_jiff, to_jiff};
use jiff::civil::Date;
use jiff::{Error, ToSpan};
use jiff_core::civil::Weekday;
use jiff_fmt::temporal::DateTimePrinter;
use rwsp_terms::limits::{GREATEST_BOUND, LONGEST_CALENDAR};
use std::alloc::AllocError;

/// The minutes of a day.
pub const DAY_MINUTES: u32 = 24 * 60;

/// The most days from a date to that on which a duty of that date ends: both the start of a shift, in minutes after
/// midnight, and its length are at most the greatest bound.
pub const MOST_DAYS_LATER: u32 = 2 * GREATEST_BOUND / DAY_MINUTES;

/// The most days between two dates: from -9999-01-01 to 9999-12-31.
pub const MOST_DAYS_APART: u32 = 7_304_483;

// The first year that a word may name.
const FIRST_YEAR: i16 = 0;

// The date that many days later, where there is one.
fn days_later(date: Date, days: u32) -> Result<Date, Error>
    requires { days ≤ LONGEST_CALENDAR + MOST_DAYS_LATER }
    ensures succeeds { IsOk result ↔ IsWithinDates date days }
    ensures value { IfOk result (λ later. epoch_day later ≡ epoch_day date +ℤ pos days) }
{
    date.checked_add(i64::from(days).days())
}

/// Whether a calendar of `days` dates ends by 9999-12-31, with all its duties.
pub fn fits(date: CivilDate, days: u32) -> bool
    requires { days ≤ LONGEST_CALENDAR }
    ensures { IsTrue result ↔ FitsDates date days }
{
    days_later(to_jiff(date), days + MOST_DAYS_LATER).is_ok()
}

/// The date that many days later.
pub fn date_after(date: CivilDate, days: u32) -> CivilDate
    requires few { days ≤ LONGEST_CALENDAR + MOST_DAYS_LATER }
    requires within { IsWithinDates date days }
    ensures { epoch_day result ≡ epoch_day date +ℤ pos days }
{
    match days_later(to_jiff(date), days) {
        Ok(later) => from_jiff(later),
        Err(_) => unreachable!(),
    }
}

/// Whether a date is another one or comes after it.
pub fn is_not_before(date: CivilDate, start: CivilDate) -> bool
    ensures { IsTrue result ↔ IsNotBefore start date }
{
    to_jiff(start).to_plain().until(to_jiff(date).to_plain()) >= 0
}

/// The days from a date to another one.
pub fn days_between(start: CivilDate, date: CivilDate) -> u32
    requires { IsNotBefore start date }
    ensures value { epoch_day date ≡ epoch_day start +ℤ pos result }
    ensures few { result ≤ MOST_DAYS_APART }
{
    to_jiff(start).to_plain().until(to_jiff(date).to_plain()) as u32
}

// The English name of a day of the week.
fn weekday_name(weekday: Weekday) -> &'static str
    ensures { result.now ≡ weekday_name weekday }
{
    match weekday {
        Weekday::Monday => "Monday",
        Weekday::Tuesday => "Tuesday",
        Weekday::Wednesday => "Wednesday",
        Weekday::Thursday => "Thursday",
        Weekday::Friday => "Friday",
        Weekday::Saturday => "Saturday",
        Weekday::Sunday => "Sunday",
    }
}

/// Appends the English name of a date's day of the week.
pub fn put_weekday(out: &mut Vec<u8>, date: CivilDate) -> Result<(), AllocError>
    ensures { OnOk result (out.new.items ≡ out.old.items ++ weekday_text date) }
{
    let name = weekday_name(to_jiff(date).to_plain().weekday());
    out.extend_from_slice(name.as_bytes())
}

/// The date that a word of the form YYYY-MM-DD names; None exactly where it names none. Takes no memory.
pub fn date_of(word: &str) -> Option<CivilDate>
    ensures { MatchOption result ((date : DateValue) → IsDateWord word.now date → ⊥) (IsDateWord word.now) }
{
    let Ok(date) = word.parse::<Date>() else {
        return None;
    };
    if date.year() < FIRST_YEAR {
        return None;
    }
    let text = DateTimePrinter::new().date_text(date.to_plain());
    if text.as_str() == word {
        Some(from_jiff(date))
    } else {
        None
    }
}

/// Appends a date as YYYY-MM-DD. Where there is no memory nothing is appended.
pub fn put_date(out: &mut Vec<u8>, date: CivilDate) -> Result<(), AllocError>
    ensures ok { OnOk result (out.new.items ≡ out.old.items ++ date_text date) }
    ensures err { OnErr result (out.new.items ≡ out.old.items) }
{
    let text = DateTimePrinter::new().date_text(to_jiff(date).to_plain());
    out.extend_from_slice(text.as_bytes())
}
