// An employee's duties as an iCalendar (RFC 5545).
ghost use Rattle.std.specs.Prelude.{◌≡◌, ◌++◌, ◌∷◌, [], ◌+◌, ◌*◌, ◌/◌, ◌%◌, ◌<◌, ◌≤◌, IfOk, OnOk, MatchBool};
ghost use Rattle.rwsp_terms.specs.Instance.{IsShift};
ghost use Rattle.rwsp_terms.specs.Roster.{IsRoster};
ghost use Rattle.crew_calendar.specs.Crew.{IsEmployee};
ghost use Rattle.crew_calendar.specs.Calendar.{FitsDates, IsWithinDates, OnCalendar};
ghost use Rattle.crew_calendar.specs.Texts.{day_minutes, start_of, length_of};
ghost use Rattle.crew_calendar.specs.ContentLines.{content_text};
ghost use Rattle.crew_calendar.specs.Events.{compact_date, compact_moment, moment_at, uid_line, stamp_line, summary_line, opening_lines, closing_lines, time_lines, event_lines, events_on, first_lines, AreEvents, HasNoDuty, HasDuty};

use crate::content_lines::{put_content_line, put_escaped};
use crate::duty_lines::{length_of, put_two_digits, start_of};
use crate::places::symbol_on;
use crate::{CivilDate, DAY_MINUTES, MOST_DAYS_LATER, date_after};
use rwsp_model::{Problem, Roster};
use rwsp_terms::Symbol;
use rwsp_terms::limits::LONGEST_CALENDAR;
use rwsp_text::put_number;
use shown_names::put_shown;
use std::alloc::{AllocError, Global};

// Whose calendar it is, and its first date.
#[derive(Clone, Copy)]
struct Wanted {
    first: CivilDate,
    employee: u32,
}

// Appends a date as YYYYMMDD.
fn put_compact_date(out: &mut Vec<u8>, date: CivilDate) -> Result<(), AllocError>
    ensures { OnOk result (out.new.items ≡ out.old.items ++ compact_date date) }
{
    let year = u32::from(date.year.unsigned_abs());
    put_two_digits(out, year / 100)?;
    put_two_digits(out, year % 100)?;
    put_two_digits(out, u32::from(date.month))?;
    put_two_digits(out, u32::from(date.day))?;
    Ok(())
}

// Appends a date and a time of day, which is given in minutes after midnight.
fn put_compact_moment(out: &mut Vec<u8>, date: CivilDate, minutes: u32) -> Result<(), AllocError>
    requires { minutes < day_minutes }
    ensures { OnOk result (out.new.items ≡ out.old.items ++ compact_moment date minutes) }
{
    put_compact_date(out, date)?;
    out.push(b'T')?;
    put_two_digits(out, minutes / 60)?;
    put_two_digits(out, minutes % 60)?;
    out.extend_from_slice(b"00")?;
    Ok(())
}

// Appends a line with a moment behind a label.
fn put_moment_line(
    alloc: Global,
    out: &mut Vec<u8>,
    label: &[u8],
    date: CivilDate,
    minutes: u32,
) -> Result<(), AllocError>
    requires few { minutes / day_minutes ≤ LONGEST_CALENDAR + MOST_DAYS_LATER }
    requires within { IsWithinDates date (minutes / day_minutes) }
    ensures { OnOk result (OnCalendar date (minutes / day_minutes + 1) (λ on.
        out.new.items ≡ out.old.items ++ content_text ((label.now ++ moment_at on minutes) ∷ []))) }
{
    let mut line = Vec::from_slice(alloc, label)?;
    put_compact_moment(
        &mut line,
        date_after(date, minutes / DAY_MINUTES),
        minutes % DAY_MINUTES,
    )?;
    put_content_line(out, &line)?;
    Ok(())
}

// The line that names a duty of an employee by its date.
fn uid_line(alloc: Global, employee: u32, date: CivilDate) -> Result<Vec<u8>, AllocError>
    ensures { IfOk result (λ v. v.items ≡ uid_line employee date) }
{
    let mut line = Vec::from_slice(alloc, b"UID:".as_slice())?;
    put_number(&mut line, u64::from(employee))?;
    line.push(b'-')?;
    put_compact_date(&mut line, date)?;
    line.extend_from_slice(b"@rwsp")?;
    Ok(line)
}

// The line that stamps all events with midnight of the first date.
fn stamp_line(alloc: Global, first: CivilDate) -> Result<Vec<u8>, AllocError>
    ensures { IfOk result (λ v. v.items ≡ stamp_line first) }
{
    let mut line = Vec::from_slice(alloc, b"DTSTAMP:".as_slice())?;
    put_compact_moment(&mut line, first, 0)?;
    line.push(b'Z')?;
    Ok(line)
}

// The line that has a shift's name.
fn summary_line(alloc: Global, name: &[u8]) -> Result<Vec<u8>, AllocError>
    ensures { IfOk result (λ v. v.items ≡ summary_line name.now) }
{
    let mut shown = Vec::new(alloc);
    put_shown(&mut shown, name)?;
    let mut line = Vec::from_slice(alloc, b"SUMMARY:".as_slice())?;
    put_escaped(&mut line, &shown)?;
    Ok(line)
}

// Appends what comes before the times of an event.
fn put_opening(
    alloc: Global,
    out: &mut Vec<u8>,
    wanted: &Wanted,
    date: CivilDate,
) -> Result<(), AllocError>
    ensures { OnOk result (out.new.items
        ≡ out.old.items ++ content_text (opening_lines wanted.now.first date wanted.now.employee)) }
{
    let uid = uid_line(alloc, wanted.employee, date)?;
    let stamp = stamp_line(alloc, wanted.first)?;
    put_content_line(out, b"BEGIN:VEVENT".as_slice())?;
    put_content_line(out, &uid)?;
    put_content_line(out, &stamp)?;
    Ok(())
}

// Appends when a shift starts and ends, where it has a length.
fn put_times(
    alloc: Global,
    out: &mut Vec<u8>,
    first: CivilDate,
    start: u32,
    length: u32,
) -> Result<(), AllocError>
    requires few { (start + length) / day_minutes ≤ LONGEST_CALENDAR + MOST_DAYS_LATER }
    requires within { IsWithinDates first ((start + length) / day_minutes) }
    ensures { OnOk result (OnCalendar first ((start + length) / day_minutes + 1) (λ on.
        out.new.items ≡ out.old.items ++ content_text (time_lines on start length))) }
{
    put_moment_line(alloc, out, b"DTSTART:".as_slice(), first, start)?;
    if length == 0 {
        return Ok(());
    }
    put_moment_line(alloc, out, b"DTEND:".as_slice(), first, start + length)?;
    Ok(())
}

// Appends what comes behind the times of an event.
fn put_closing(alloc: Global, out: &mut Vec<u8>, name: &[u8]) -> Result<(), AllocError>
    ensures { OnOk result (out.new.items ≡ out.old.items ++ content_text (closing_lines name.now)) }
{
    let summary = summary_line(alloc, name)?;
    put_content_line(out, &summary)?;
    put_content_line(out, b"END:VEVENT".as_slice())?;
    Ok(())
}

// Appends the event of a shift that begins on a day, from 0 on, after the first date.
fn put_event(
    alloc: Global,
    out: &mut Vec<u8>,
    problem: &Problem,
    wanted: &Wanted,
    t: u32,
    shift: Symbol,
) -> Result<(), AllocError>
    requires shift { IsShift problem.now shift }
    requires day { t < LONGEST_CALENDAR }
    requires within { IsWithinDates wanted.now.first (t + MOST_DAYS_LATER) }
    ensures { OnOk result (OnCalendar wanted.now.first (t + 1 + MOST_DAYS_LATER) (λ on.
        out.new.items ≡ out.old.items
        ++ content_text (event_lines problem.now wanted.now.first on wanted.now.employee t shift))) }
{
    let start = t * DAY_MINUTES + start_of(problem, shift);
    put_opening(alloc, out, wanted, date_after(wanted.first, t))?;
    put_times(alloc, out, wanted.first, start, length_of(problem, shift))?;
    put_closing(alloc, out, problem.name(shift))?;
    Ok(())
}

// Appends the event of an employee's symbol on a day, where it is a shift.
fn put_duty_event(
    alloc: Global,
    out: &mut Vec<u8>,
    problem: &Problem,
    cells: &[Symbol],
    wanted: &Wanted,
    t: u32,
) -> Result<(), AllocError>
    requires roster { IsRoster problem.now cells.now }
    requires employee { IsEmployee problem.now wanted.now.employee }
    requires day { t < LONGEST_CALENDAR }
    requires within { IsWithinDates wanted.now.first (t + MOST_DAYS_LATER) }
    ensures { OnOk result (OnCalendar wanted.now.first (t + 1 + MOST_DAYS_LATER) (λ on.
        out.new.items ≡ out.old.items
        ++ content_text (events_on problem.now cells.now wanted.now.first on wanted.now.employee t))) }
{
    let symbol = symbol_on(problem, cells, wanted.employee, t);
    if symbol.number == 0 {
        return Ok(());
    }
    put_event(alloc, out, problem, wanted, t, symbol)
}

// Appends what is at the beginning of the calendar.
fn put_first_lines(out: &mut Vec<u8>) -> Result<(), AllocError>
    ensures { OnOk result (out.new.items ≡ out.old.items ++ content_text first_lines) }
{
    put_content_line(out, b"BEGIN:VCALENDAR".as_slice())?;
    put_content_line(out, b"VERSION:2.0".as_slice())?;
    put_content_line(out, b"PRODID:-//rwsp//crew calendar//EN".as_slice())?;
    Ok(())
}

/// Whether an employee has a duty on one of these days. Takes no memory.
pub fn has_duty(problem: &Problem, roster: &Roster, days: u32, employee: u32) -> bool
    requires roster { IsRoster problem.now roster.now.cells }
    requires employee { IsEmployee problem.now employee }
    requires days { days ≤ LONGEST_CALENDAR }
    ensures { MatchBool result (HasDuty problem.now roster.now.cells days employee)
        (HasNoDuty problem.now roster.now.cells days employee) }
{
    for t in 0..days {
        if symbol_on(problem, roster.cells(), employee, t).number != 0 {
            return true;
        }
    }
    false
}

/// The duties of an employee on `days` dates from the first on, as an iCalendar with an event for each day on a shift.
pub fn duty_calendar(
    alloc: Global,
    problem: &Problem,
    roster: &Roster,
    date: CivilDate,
    days: u32,
    employee: u32,
) -> Result<Vec<u8>, AllocError>
    requires roster { IsRoster problem.now roster.now.cells }
    requires employee { IsEmployee problem.now employee }
    requires days { days ≤ LONGEST_CALENDAR }
    requires fits { FitsDates date days }
    ensures { IfOk result (λ text. AreEvents problem.now roster.now.cells date days employee text.items) }
{
    let wanted = Wanted {
        first: date,
        employee,
    };
    let mut out = Vec::new(alloc);
    put_first_lines(&mut out)?;
    for t in 0..days {
        put_duty_event(alloc, &mut out, problem, roster.cells(), &wanted, t)?;
    }
    put_content_line(&mut out, b"END:VCALENDAR".as_slice())?;
    Ok(out)
}
