// The duties of an employee.
ghost use Rattle.std.specs.Prelude.{◌≡◌, ◌++◌, ◌+◌, ◌*◌, ◌/◌, ◌%◌, ◌<◌, ◌≤◌, IfOk, OnOk};
ghost use Rattle.rwsp_terms.specs.Instance.{IsShift};
ghost use Rattle.rwsp_terms.specs.Roster.{IsRoster};
ghost use Rattle.crew_calendar.specs.Crew.{IsEmployee};
ghost use Rattle.crew_calendar.specs.Calendar.{FitsDates, IsWithinDates, OnCalendar};
ghost use Rattle.crew_calendar.specs.Texts.{day_minutes, two_digits, clock_text, moment_text, start_of, length_of, shift_line, duty_line, AreDuties};

use crate::lines::put_name;
use crate::places::symbol_on;
use crate::{CivilDate, DAY_MINUTES, MOST_DAYS_LATER, date_after, put_date};
use rwsp_model::{Problem, Roster};
use rwsp_terms::Symbol;
use rwsp_terms::limits::{GREATEST_BOUND, LONGEST_CALENDAR};
use std::alloc::{AllocError, Global};

/// Appends a number in two digits.
pub fn put_two_digits(out: &mut Vec<u8>, n: u32) -> Result<(), AllocError>
    requires { n < 100 }
    ensures { OnOk result (out.new.items ≡ out.old.items ++ two_digits n) }
{
    out.push(b'0' + (n / 10) as u8)?;
    out.push(b'0' + (n % 10) as u8)?;
    Ok(())
}

// Appends a time of day, given in minutes after midnight.
fn put_clock(out: &mut Vec<u8>, minutes: u32) -> Result<(), AllocError>
    requires { minutes < day_minutes }
    ensures { OnOk result (out.new.items ≡ out.old.items ++ clock_text minutes) }
{
    put_two_digits(out, minutes / 60)?;
    out.push(b':')?;
    put_two_digits(out, minutes % 60)?;
    Ok(())
}

// Appends the moment that is `minutes` after the midnight of a date.
fn put_moment(out: &mut Vec<u8>, date: CivilDate, minutes: u32) -> Result<(), AllocError>
    requires few { minutes / day_minutes ≤ LONGEST_CALENDAR + MOST_DAYS_LATER }
    requires within { IsWithinDates date (minutes / day_minutes) }
    ensures { OnOk result (OnCalendar date (minutes / day_minutes + 1) (λ on.
        out.new.items ≡ out.old.items ++ moment_text on minutes)) }
{
    put_date(out, date_after(date, minutes / DAY_MINUTES))?;
    out.push(b' ')?;
    put_clock(out, minutes % DAY_MINUTES)?;
    Ok(())
}

/// When a shift starts, in minutes after midnight.
pub fn start_of(problem: &Problem, shift: Symbol) -> u32
    requires { IsShift problem.now shift }
    ensures value { result ≡ start_of problem.now shift }
    ensures few { result ≤ GREATEST_BOUND }
{
    problem.prove_limits();
    problem.start(shift)
}

/// How many minutes a shift has.
pub fn length_of(problem: &Problem, shift: Symbol) -> u32
    requires { IsShift problem.now shift }
    ensures value { result ≡ length_of problem.now shift }
    ensures few { result ≤ GREATEST_BOUND }
{
    problem.prove_limits();
    problem.length(shift)
}

// Appends the line of a shift that begins on a day, from 0 on, after a date.
fn put_shift(
    out: &mut Vec<u8>,
    problem: &Problem,
    date: CivilDate,
    t: u32,
    shift: Symbol,
) -> Result<(), AllocError>
    requires shift { IsShift problem.now shift }
    requires day { t < LONGEST_CALENDAR }
    requires within { IsWithinDates date (t + MOST_DAYS_LATER) }
    ensures { OnOk result (OnCalendar date (t + 1 + MOST_DAYS_LATER) (λ on.
        out.new.items ≡ out.old.items ++ shift_line problem.now on t shift)) }
{
    let start = t * DAY_MINUTES + start_of(problem, shift);
    put_moment(out, date, start)?;
    out.extend_from_slice(b" to ")?;
    put_moment(out, date, start + length_of(problem, shift))?;
    put_name(out, problem, shift)?;
    out.push(b'\n')?;
    Ok(())
}

// Appends the line of an employee's symbol on a day, where it is a shift.
fn put_duty(
    out: &mut Vec<u8>,
    problem: &Problem,
    cells: &[Symbol],
    date: CivilDate,
    t: u32,
    employee: u32,
) -> Result<(), AllocError>
    requires roster { IsRoster problem.now cells.now }
    requires employee { IsEmployee problem.now employee }
    requires day { t < LONGEST_CALENDAR }
    requires within { IsWithinDates date (t + MOST_DAYS_LATER) }
    ensures { OnOk result (OnCalendar date (t + 1 + MOST_DAYS_LATER) (λ on.
        out.new.items ≡ out.old.items ++ duty_line problem.now cells.now on employee t)) }
{
    let symbol = symbol_on(problem, cells, employee, t);
    if symbol.number == 0 {
        return Ok(());
    }
    put_shift(out, problem, date, t, symbol)
}

/// The duties of an employee on `days` dates from the first on: a line for each day on a shift, with the moments at
/// which the shift starts and ends, and its name. A shift may end on a later date.
pub fn duties(
    alloc: Global,
    problem: &Problem,
    roster: &Roster,
    date: CivilDate,
    days: u32,
    employee: u32,
) -> Result<Vec<u8>, AllocError>
    requires roster { IsRoster problem.now roster.now.cells }
    requires employee { IsEmployee problem.now employee }
    requires days { days ≤ LONGEST_CALENDAR }
    requires fits { FitsDates date days }
    ensures { IfOk result (λ text. AreDuties problem.now roster.now.cells date days employee text.items) }
{
    let mut out = Vec::new(alloc);
    for t in 0..days {
        put_duty(&mut out, problem, roster.cells(), date, t, employee)?;
    }
    Ok(out)
}
