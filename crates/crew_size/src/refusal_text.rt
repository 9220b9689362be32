// The text of a staff text's refusal.
ghost use Rattle.std.specs.Prelude.{◌≡◌, ◌++◌, [], OnOk, codes};
ghost use Rattle.roster_print.specs.RefusalText.{roster_refusal_text};
ghost use Rattle.roster_checker.specs.BreaksText.{breaks_text, HasBroken};
ghost use Rattle.refutation_log.specs.RefusalText.{log_refusal_text, HasSymbols};
ghost use Rattle.crew_size.specs.RefusalText.{staff_refusal_text, at_weeks, NamesItsOwn};

use crate::verdict::StaffRefusal;
use refutation_log::{LogRefusal, put_log_refusal};
use roster_checker::{Broken, put_breaks};
use roster_print::{RosterRefusal, put_roster_refusal};
use rwsp_model::Problem;
use rwsp_text::{put_labelled, put_line_number};
use std::alloc::AllocError;

// Appends the number of weeks at which the text fails.
fn put_weeks(out: &mut Vec<u8>, weeks: u32) -> Result<(), AllocError>
    ensures { OnOk result (out.new.items ≡ out.old.items ++ at_weeks weeks []) }
{
    put_labelled(out, b"staff refused: weeks ".as_slice(), weeks)?;
    out.push(b' ')?;
    Ok(())
}

// Appends the failure of the log of a number of weeks.
fn put_log(
    out: &mut Vec<u8>,
    problem: &Problem,
    weeks: u32,
    why: &LogRefusal,
) -> Result<(), AllocError>
    requires { HasSymbols problem.now why.now }
    ensures { OnOk result (out.new.items ≡ out.old.items ++ at_weeks weeks (log_refusal_text problem.now why.now)) }
{
    put_weeks(out, weeks)?;
    put_log_refusal(out, problem, why)
}

// Appends the failure of a roster's text.
fn put_roster(out: &mut Vec<u8>, weeks: u32, why: RosterRefusal) -> Result<(), AllocError>
    ensures { OnOk result (out.new.items ≡ out.old.items ++ at_weeks weeks (roster_refusal_text why)) }
{
    put_weeks(out, weeks)?;
    put_roster_refusal(out, why)
}

// Appends the rule that a roster breaks.
fn put_broken(
    out: &mut Vec<u8>,
    problem: &Problem,
    weeks: u32,
    broken: &Broken,
) -> Result<(), AllocError>
    requires { HasBroken problem.now broken.now }
    ensures { OnOk result (out.new.items ≡ out.old.items ++ at_weeks weeks (breaks_text problem.now broken.now)) }
{
    put_weeks(out, weeks)?;
    put_breaks(out, problem, broken)
}

/// Appends the failure without its LF.
pub fn put_staff_refusal(
    out: &mut Vec<u8>,
    problem: &Problem,
    why: &StaffRefusal,
) -> Result<(), AllocError>
    requires { NamesItsOwn problem.now why.now }
    ensures { OnOk result (out.new.items ≡ out.old.items ++ staff_refusal_text problem.now why.now) }
{
    match why {
        StaffRefusal::Form(n) => put_line_number(out, b"staff refused: form".as_slice(), *n),
        StaffRefusal::Log(weeks, why) => put_log(out, problem, *weeks, why),
        StaffRefusal::Roster(weeks, why) => put_roster(out, *weeks, *why),
        StaffRefusal::Breaks(weeks, broken) => put_broken(out, problem, *weeks, broken),
        StaffRefusal::Ends => put_ends(out),
    }
}

// Appends the failure of a text that stops before its end.
fn put_ends(out: &mut Vec<u8>) -> Result<(), AllocError>
    ensures { OnOk result (out.new.items ≡ out.old.items ++ codes "staff refused: ends") }
{
    out.extend_from_slice(b"staff refused: ends".as_slice())?;
    Ok(())
}
