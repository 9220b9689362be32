// The table of all employees for a spreadsheet.
ghost use Rattle.std.specs.Prelude.{◌≡◌, ◌++◌, ◌∷◌, ◌<◌, ◌≤◌, map, IfOk, OnOk};
ghost use Rattle.std.specs.Fmt.{decimal};
ghost use Rattle.rwsp_terms.specs.Roster.{IsRoster};
ghost use Rattle.std.specs.List.{flat_map};
ghost use Rattle.crew_calendar.specs.Crew.{employees};
ghost use Rattle.crew_calendar.specs.Calendar.{date_text, weekday_text, FitsDates};
ghost use Rattle.crew_calendar.specs.Csv.{field_text, next_text, record_text};
ghost use Rattle.crew_calendar.specs.Sheet.{head_cells, cell, IsSheet};

use crate::csv::{put_field, put_next_field};
use crate::places::symbol_on;
use crate::{CivilDate, date_after, put_date, put_weekday};
use rwsp_model::{Problem, Roster};
use rwsp_terms::Symbol;
use rwsp_terms::limits::LONGEST_CALENDAR;
use rwsp_text::put_number;
use std::alloc::{AllocError, Global};

// Appends a number as a field behind a comma.
fn put_next_number(alloc: Global, out: &mut Vec<u8>, n: u32) -> Result<(), AllocError>
    ensures { OnOk result (out.new.items ≡ out.old.items ++ next_text (decimal n)) }
{
    let mut text = Vec::new(alloc);
    put_number(&mut text, u64::from(n))?;
    put_next_field(out, &text)
}

// Appends the numbers of all employees, each behind a comma.
fn put_numbers(alloc: Global, out: &mut Vec<u8>, problem: &Problem) -> Result<(), AllocError>
    ensures { OnOk result (out.new.items
        ≡ out.old.items ++ flat_map (λ e. next_text (decimal e)) (employees problem.now)) }
{
    for employee in 1..problem.weeks() + 1 {
        put_next_number(alloc, out, employee)?;
    }
    Ok(())
}

// Appends the head.
fn put_head(alloc: Global, out: &mut Vec<u8>, problem: &Problem) -> Result<(), AllocError>
    ensures { OnOk result (out.new.items ≡ out.old.items ++ record_text (head_cells problem.now)) }
{
    out.extend_from_slice(b"date,weekday")?;
    put_numbers(alloc, out, problem)?;
    out.extend_from_slice(b"\r\n")?;
    Ok(())
}

// Appends the names of the symbols of all employees on a day, each behind a comma.
fn put_cells(
    out: &mut Vec<u8>,
    problem: &Problem,
    cells: &[Symbol],
    t: u32,
) -> Result<(), AllocError>
    requires roster { IsRoster problem.now cells.now }
    requires day { t < LONGEST_CALENDAR }
    ensures { OnOk result (out.new.items
        ≡ out.old.items ++ flat_map (λ e. next_text (cell problem.now cells.now t e)) (employees problem.now)) }
{
    for employee in 1..problem.weeks() + 1 {
        put_next_field(out, problem.name(symbol_on(problem, cells, employee, t)))?;
    }
    Ok(())
}

// Appends the fields of a date, and of its day of the week.
fn put_dated(alloc: Global, out: &mut Vec<u8>, date: CivilDate) -> Result<(), AllocError>
    ensures { OnOk result (out.new.items
        ≡ out.old.items ++ (field_text (date_text date) ++ next_text (weekday_text date))) }
{
    let mut text = Vec::new(alloc);
    put_date(&mut text, date)?;
    put_field(out, &text)?;
    let mut weekday = Vec::new(alloc);
    put_weekday(&mut weekday, date)?;
    put_next_field(out, &weekday)
}

// Appends the record of a day.
fn put_sheet_day(
    alloc: Global,
    out: &mut Vec<u8>,
    problem: &Problem,
    cells: &[Symbol],
    date: CivilDate,
    t: u32,
) -> Result<(), AllocError>
    requires roster { IsRoster problem.now cells.now }
    requires day { t < LONGEST_CALENDAR }
    ensures { OnOk result (out.new.items ≡ out.old.items
        ++ record_text (date_text date ∷ weekday_text date ∷ map (cell problem.now cells.now t) (employees problem.now))) }
{
    put_dated(alloc, out, date)?;
    put_cells(out, problem, cells, t)?;
    out.extend_from_slice(b"\r\n")?;
    Ok(())
}

/// The table of `days` dates from the first on as CSV (RFC 4180): a head with the numbers of the employees, and a record
/// for each date, with its day of the week and the name of each employee's symbol. It takes time by days times
/// employees.
pub fn crew_sheet(
    alloc: Global,
    problem: &Problem,
    roster: &Roster,
    date: CivilDate,
    days: u32,
) -> Result<Vec<u8>, AllocError>
    requires roster { IsRoster problem.now roster.now.cells }
    requires days { days ≤ LONGEST_CALENDAR }
    requires fits { FitsDates date days }
    ensures { IfOk result (λ text. IsSheet problem.now roster.now.cells date days text.items) }
{
    let mut out = Vec::new(alloc);
    put_head(alloc, &mut out, problem)?;
    for t in 0..days {
        put_sheet_day(
            alloc,
            &mut out,
            problem,
            roster.cells(),
            date_after(date, t),
            t,
        )?;
    }
    Ok(out)
}
