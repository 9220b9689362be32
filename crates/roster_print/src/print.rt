// The text of a roster.
ghost use Rattle.std.specs.Prelude.{◌≡◌, ◌++◌, All, IfOk, OnOk, map};
ghost use Rattle.std.specs.List.{join_with_byte};
ghost use Rattle.rwsp_terms.specs.Instance.{IsSymbol, name_of};
ghost use Rattle.rwsp_terms.specs.Roster.{IsRoster};
ghost use Rattle.roster_print.specs.RosterText.{roster_text, week_text};

use crate::names::put_after_blanks;
use rwsp_model::{Problem, Roster};
use rwsp_terms::Symbol;
use std::alloc::{AllocError, Global};

// Appends the names of the symbols with single blanks between them.
fn put_names(out: &mut Vec<u8>, problem: &Problem, week: &[Symbol]) -> Result<(), AllocError>
    requires { All (IsSymbol problem.now) week.now }
    ensures { OnOk result (out.new.items
        ≡ out.old.items ++ join_with_byte 32 (map (name_of problem.now) week.now)) }
{
    if week.is_empty() {
        return Ok(());
    }
    out.extend_from_slice(problem.name(week[0]))?;
    put_after_blanks(out, problem, &week[1..])?;
    Ok(())
}

// Appends the line of a week.
fn put_week(out: &mut Vec<u8>, problem: &Problem, week: &[Symbol]) -> Result<(), AllocError>
    requires { All (IsSymbol problem.now) week.now }
    ensures { OnOk result (out.new.items ≡ out.old.items ++ week_text problem.now week.now) }
{
    put_names(out, problem, week)?;
    out.push(b'\n')?;
    Ok(())
}

/// The text of a roster: a line for each week, with the names of its symbols and single blanks between them.
pub fn print_roster(
    alloc: Global,
    problem: &Problem,
    roster: &Roster,
) -> Result<Vec<u8>, AllocError>
    requires roster { IsRoster problem.now roster.now.cells }
    requires days { roster.now.days ≡ problem.now.days }
    ensures { IfOk result (λ text. text.items ≡ roster_text problem.now roster.now.cells) }
{
    let mut out = Vec::new(alloc);
    let days = problem.days() as usize;
    let cells = roster.cells();
    for week in 0..problem.weeks() as usize {
        put_week(&mut out, problem, &cells[week * days..week * days + days])?;
    }
    Ok(out)
}
