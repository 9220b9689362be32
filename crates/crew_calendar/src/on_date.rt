// Who works on one date.
ghost use Rattle.std.specs.Prelude.{◌≡◌, ◌++◌, ◌≤◌, IfOk, OnOk};
ghost use Rattle.rwsp_terms.specs.Instance.{shift_count};
ghost use Rattle.rwsp_terms.specs.Roster.{IsRoster};
ghost use Rattle.crew_calendar.specs.Crew.{IsEmployee};
ghost use Rattle.crew_calendar.specs.Calendar.{IsNotBefore};
ghost use Rattle.crew_calendar.specs.OnDate.{holder_text, holders_text, symbol_line, shift_lines, IsOn};

use crate::places::symbol_on;
use crate::{CivilDate, MOST_DAYS_APART, days_between, put_date, put_weekday};
use rwsp_model::{Problem, Roster};
use rwsp_terms::Symbol;
use rwsp_text::put_number;
use std::alloc::{AllocError, Global};

// Appends the number of an employee after a blank, where he has the symbol on the day.
fn put_holder(
    out: &mut Vec<u8>,
    problem: &Problem,
    cells: &[Symbol],
    t: u32,
    x: u8,
    employee: u32,
) -> Result<(), AllocError>
    requires roster { IsRoster problem.now cells.now }
    requires employee { IsEmployee problem.now employee }
    requires day { t ≤ MOST_DAYS_APART }
    ensures { OnOk result (out.new.items ≡ out.old.items ++ holder_text problem.now cells.now t x employee) }
{
    if symbol_on(problem, cells, employee, t).number != x {
        return Ok(());
    }
    out.push(b' ')?;
    put_number(out, u64::from(employee))
}

// Appends the numbers of all employees who have the symbol on the day.
fn put_holders(
    out: &mut Vec<u8>,
    problem: &Problem,
    cells: &[Symbol],
    t: u32,
    x: u8,
) -> Result<(), AllocError>
    requires roster { IsRoster problem.now cells.now }
    requires day { t ≤ MOST_DAYS_APART }
    ensures { OnOk result (out.new.items ≡ out.old.items ++ holders_text problem.now cells.now t x) }
{
    for employee in 1..problem.weeks() + 1 {
        put_holder(out, problem, cells, t, x, employee)?;
    }
    Ok(())
}

// Appends the line of a symbol: its name, and who has it on the day.
fn put_symbol(
    out: &mut Vec<u8>,
    problem: &Problem,
    cells: &[Symbol],
    t: u32,
    x: u8,
) -> Result<(), AllocError>
    requires roster { IsRoster problem.now cells.now }
    requires day { t ≤ MOST_DAYS_APART }
    requires symbol { x ≤ shift_count problem.now }
    ensures { OnOk result (out.new.items ≡ out.old.items ++ symbol_line problem.now cells.now t x) }
{
    out.extend_from_slice(problem.name(Symbol { number: x }))?;
    put_holders(out, problem, cells, t, x)?;
    out.push(b'\n')?;
    Ok(())
}

// Appends the lines of the shifts.
fn put_shifts(
    out: &mut Vec<u8>,
    problem: &Problem,
    cells: &[Symbol],
    t: u32,
) -> Result<(), AllocError>
    requires roster { IsRoster problem.now cells.now }
    requires day { t ≤ MOST_DAYS_APART }
    ensures { OnOk result (out.new.items ≡ out.old.items ++ shift_lines problem.now cells.now t) }
{
    for x in 1..problem.shifts() + 1 {
        put_symbol(out, problem, cells, t, x)?;
    }
    Ok(())
}

/// Who works on a date, where the first day of the roster was `start`: a line with the date and its day of the week,
/// and a line for each symbol. It takes time by symbols times employees.
pub fn who_works(
    alloc: Global,
    problem: &Problem,
    roster: &Roster,
    start: CivilDate,
    date: CivilDate,
) -> Result<Vec<u8>, AllocError>
    requires roster { IsRoster problem.now roster.now.cells }
    requires later { IsNotBefore start date }
    ensures { IfOk result (λ text. IsOn problem.now roster.now.cells start date text.items) }
{
    let t = days_between(start, date);
    let mut out = Vec::new(alloc);
    put_date(&mut out, date)?;
    out.push(b' ')?;
    put_weekday(&mut out, date)?;
    out.push(b'\n')?;
    put_shifts(&mut out, problem, roster.cells(), t)?;
    put_symbol(&mut out, problem, roster.cells(), t, 0)?;
    Ok(out)
}
