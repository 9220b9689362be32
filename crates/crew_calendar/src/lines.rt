// The table of all employees by dates.
ghost use Rattle.std.specs.Prelude.{◌≡◌, ◌++◌, ◌∷◌, [], ◌<◌, ◌≤◌, IfOk, OnOk};
ghost use Rattle.rwsp_terms.specs.Instance.{IsSymbol, name_of};
ghost use Rattle.rwsp_terms.specs.Roster.{IsRoster, MeetsAll};
ghost use Rattle.crew_calendar.specs.Calendar.{date_text, FitsDates};
ghost use Rattle.crew_calendar.specs.Texts.{crew_text, IsTable};
ghost use Rattle.crew_calendar.specs.Facts.{MeetsDemandDaily, FollowsCycle, IsClean, GoesRound};

use crate::places::symbol_on;
use crate::{CivilDate, date_after, put_date};
use rwsp_model::{Problem, Roster};
use rwsp_terms::Symbol;
use rwsp_terms::limits::LONGEST_CALENDAR;
use std::alloc::{AllocError, Global};

/// Appends the name of a symbol after a blank.
pub fn put_name(out: &mut Vec<u8>, problem: &Problem, symbol: Symbol) -> Result<(), AllocError>
    requires { IsSymbol problem.now symbol }
    ensures { OnOk result (out.new.items ≡ out.old.items ++ 32 ∷ name_of problem.now symbol) }
{
    out.push(b' ')?;
    out.extend_from_slice(problem.name(symbol))
}

// Appends the names of the symbols of all employees on a day.
fn put_crew(
    out: &mut Vec<u8>,
    problem: &Problem,
    cells: &[Symbol],
    t: u32,
) -> Result<(), AllocError>
    requires roster { IsRoster problem.now cells.now }
    requires day { t < LONGEST_CALENDAR }
    ensures { OnOk result (out.new.items ≡ out.old.items ++ crew_text problem.now cells.now t) }
{
    for employee in 1..problem.weeks() + 1 {
        put_name(out, problem, symbol_on(problem, cells, employee, t))?;
    }
    Ok(())
}

// Appends the line of a day.
fn put_day(
    out: &mut Vec<u8>,
    problem: &Problem,
    cells: &[Symbol],
    date: CivilDate,
    t: u32,
) -> Result<(), AllocError>
    requires roster { IsRoster problem.now cells.now }
    requires day { t < LONGEST_CALENDAR }
    ensures { OnOk result (out.new.items
        ≡ out.old.items ++ (date_text date ++ crew_text problem.now cells.now t ++ 10 ∷ [])) }
{
    put_date(out, date)?;
    put_crew(out, problem, cells, t)?;
    out.push(b'\n')?;
    Ok(())
}

// The lines of `days` dates from the first on.
fn day_lines(
    alloc: Global,
    problem: &Problem,
    cells: &[Symbol],
    date: CivilDate,
    days: u32,
) -> Result<Vec<u8>, AllocError>
    requires roster { IsRoster problem.now cells.now }
    requires days { days ≤ LONGEST_CALENDAR }
    requires fits { FitsDates date days }
    ensures { IfOk result (λ text. IsTable problem.now cells.now date days text.items) }
{
    let mut out = Vec::new(alloc);
    for t in 0..days {
        put_day(&mut out, problem, cells, date_after(date, t), t)?;
    }
    Ok(out)
}

/// The table of `days` dates from the first on: a line for each date, with the name of each employee's symbol. It
/// takes time by days times employees.
pub fn crew_table(
    alloc: Global,
    problem: &Problem,
    roster: &Roster,
    date: CivilDate,
    days: u32,
) -> Result<Vec<u8>, AllocError>
    requires roster { IsRoster problem.now roster.now.cells }
    requires days { days ≤ LONGEST_CALENDAR }
    requires fits { FitsDates date days }
    ensures table { IfOk result (λ text. IsTable problem.now roster.now.cells date days text.items) }

    // What a planner may rely on.
    ensures staffed { MeetsAll problem.now roster.now.cells → MeetsDemandDaily problem.now roster.now.cells }
    ensures cycle { FollowsCycle problem.now roster.now.cells }
    ensures clean { MeetsAll problem.now roster.now.cells → IsClean problem.now roster.now.cells }
    ensures round { GoesRound problem.now }
{
    problem.prove_limits();
    day_lines(alloc, problem, roster.cells(), date, days)
}
