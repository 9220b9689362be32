// The text of a run.
ghost use Rattle.std.specs.Prelude.{◌≡◌, ◌++◌, ◌<◌, IfOk, OnOk};
ghost use Rattle.rwsp_terms.specs.Roster.{IsRoster};
ghost use Rattle.roster_print.specs.RosterText.{roster_text};
ghost use Rattle.refutation_terms.specs.Log.{Fits};
ghost use Rattle.refutation_terms.specs.LogText.{log_text};
ghost use Rattle.crew_size.specs.Sizes.{IsSize, with_weeks};
ghost use Rattle.crew_size.specs.Texts.{staff_text, section_text, end_text, heading};
ghost use Rattle.crew_size.specs.Fitting.{FitsSizes, EndFits};
ghost use Rattle.crew_size.specs.declared.run.StaffEnd.TheVariants as Ends;

use crate::sizes::with_weeks;
use crate::{StaffEnd, StaffRun};
use refutation_log::{Log, print_log};
use roster_print::print_roster;
use rwsp_model::{Problem, Roster};
use rwsp_text::put_number;
use std::alloc::{AllocError, Global};

/// The staff text of a run: a section for each log, and the end.
pub fn print_staff(alloc: Global, problem: &Problem, run: &StaffRun) -> Result<Vec<u8>, AllocError>
    requires { FitsSizes problem.now run.now }
    ensures { IfOk result (λ text. text.items ≡ staff_text problem.now run.now) }
{
    let mut out = Vec::new(alloc);
    let mut weeks = run.low();
    for log in run.logs() {
        put_section(alloc, &mut out, problem, weeks, log)?;
        weeks += 1;
    }
    put_end(alloc, &mut out, problem, weeks, run.end())?;
    Ok(out)
}

// Appends the section of this number of weeks.
fn put_section(
    alloc: Global,
    out: &mut Vec<u8>,
    problem: &Problem,
    weeks: u32,
    log: &Log,
) -> Result<(), AllocError>
    requires size { IsSize problem.now weeks }
    requires fits { Fits (with_weeks problem.now weeks) log.now }
    ensures { OnOk result (out.new.items ≡ out.old.items ++ section_text problem.now weeks log.now) }
{
    put_heading(out, b"weeks ", weeks, b" none")?;
    put_log(alloc, out, problem, weeks, log)
}

// Appends the end, where this number of weeks comes next.
fn put_end(
    alloc: Global,
    out: &mut Vec<u8>,
    problem: &Problem,
    weeks: u32,
    end: &StaffEnd,
) -> Result<(), AllocError>
    requires fits { EndFits problem.now weeks end.now }
    requires some { end.now ≡ Ends.NoneTo → 0 < weeks }
    ensures { OnOk result (out.new.items ≡ out.old.items ++ end_text problem.now weeks end.now) }
{
    match end {
        StaffEnd::Least(roster) => {
            put_heading(out, b"weeks ", weeks, b" roster")?;
            put_roster(alloc, out, problem, weeks, roster)
        }
        StaffEnd::NoneTo => put_heading(out, b"none to ", weeks - 1, b""),
        StaffEnd::Undecided(log) => {
            put_heading(out, b"weeks ", weeks, b" undecided")?;
            put_log(alloc, out, problem, weeks, log)
        }
    }
}

// Appends a heading: a word, a number and what is said of it.
fn put_heading(out: &mut Vec<u8>, word: &[u8], number: u32, what: &[u8]) -> Result<(), AllocError>
    ensures { OnOk result (out.new.items ≡ out.old.items ++ heading word.now number what.now) }
{
    out.extend_from_slice(word)?;
    put_number(out, u64::from(number))?;
    out.extend_from_slice(what)?;
    out.push(b'\n')?;
    Ok(())
}

// Appends the text of a log for this number of weeks.
fn put_log(
    alloc: Global,
    out: &mut Vec<u8>,
    problem: &Problem,
    weeks: u32,
    log: &Log,
) -> Result<(), AllocError>
    requires size { IsSize problem.now weeks }
    requires fits { Fits (with_weeks problem.now weeks) log.now }
    ensures { OnOk result (out.new.items ≡ out.old.items ++ log_text (with_weeks problem.now weeks) log.now) }
{
    let sized = with_weeks(problem, weeks)?;
    let printed = print_log(alloc, &sized, log);
    drop(sized);
    let text = printed?;
    out.extend_from_slice(&text)?;
    Ok(())
}

// Appends the text of a roster of this number of weeks.
fn put_roster(
    alloc: Global,
    out: &mut Vec<u8>,
    problem: &Problem,
    weeks: u32,
    roster: &Roster,
) -> Result<(), AllocError>
    requires size { IsSize problem.now weeks }
    requires roster { IsRoster (with_weeks problem.now weeks) roster.now.cells }
    requires days { roster.now.days ≡ problem.now.days }
    ensures { OnOk result (
        out.new.items ≡ out.old.items ++ roster_text (with_weeks problem.now weeks) roster.now.cells) }
{
    let sized = with_weeks(problem, weeks)?;
    let printed = print_roster(alloc, &sized, roster);
    drop(sized);
    let text = printed?;
    out.extend_from_slice(&text)?;
    Ok(())
}
