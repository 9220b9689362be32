// What is said of what is wrong with a roster.
ghost use Rattle.std.specs.Prelude.{◌≡◌, ◌∷◌, [], IfOk};
ghost use Rattle.plain_words.specs.Statements.{told_lines};
ghost use Rattle.plain_words.specs.Told.{roster_refusal_statement};
ghost use Rattle.commands.specs.Verify.{IsBrokenRoster, IsFaultOf, broken_line, fault_line, breach_statement, fault_statement};

use crate::verify::{BrokenRoster, RosterFault};
use plain_words::{put_broken_told, put_roster_refusal_told};
use roster_checker::put_breaks;
use roster_print::{RosterRefusal, put_roster_refusal};
use rwsp_model::Problem;
use std::alloc::{AllocError, Global};

/// The line that says which rule a roster breaks, and where.
pub fn broken_line(
    alloc: Global,
    problem: &Problem,
    breach: &BrokenRoster,
) -> Result<Vec<u8>, AllocError>
    requires { IsBrokenRoster problem.now breach.now }
    ensures { IfOk result (λ v. v.items ≡ broken_line problem.now breach.now) }
{
    let mut out = Vec::new(alloc);
    put_breaks(&mut out, problem, &breach.broken)?;
    out.push(b'\n')?;
    Ok(out)
}

/// The line that says what is wrong with a roster.
pub fn fault_line(
    alloc: Global,
    problem: &Problem,
    fault: &RosterFault,
) -> Result<Vec<u8>, AllocError>
    requires { IsFaultOf problem.now fault.now }
    ensures { IfOk result (λ v. v.items ≡ fault_line problem.now fault.now) }
{
    match fault {
        RosterFault::Refused(refusal) => {
            let mut out = Vec::new(alloc);
            put_roster_refusal(&mut out, *refusal)?;
            out.push(b'\n')?;
            Ok(out)
        }
        RosterFault::Breaks(breach) => broken_line(alloc, problem, breach),
    }
}

/// What is told of a roster that breaks a rule.
pub fn broken_told(
    alloc: Global,
    problem: &Problem,
    breach: &BrokenRoster,
) -> Result<Vec<u8>, AllocError>
    requires { IsBrokenRoster problem.now breach.now }
    ensures { IfOk result (λ v. v.items ≡ told_lines problem.now (breach_statement problem.now breach.now ∷ [])) }
{
    let mut out = Vec::new(alloc);
    put_broken_told(&mut out, problem, breach.roster.cells(), breach.broken)?;
    Ok(out)
}

// What is told of bytes that spell no roster.
fn roster_refusal_told(
    alloc: Global,
    problem: &Problem,
    why: RosterRefusal,
) -> Result<Vec<u8>, AllocError>
    ensures { IfOk result (λ v. v.items ≡ told_lines problem.now (roster_refusal_statement why ∷ [])) }
{
    let mut out = Vec::new(alloc);
    put_roster_refusal_told(&mut out, problem, why)?;
    Ok(out)
}

/// What is told of what is wrong with a roster.
pub fn fault_told(
    alloc: Global,
    problem: &Problem,
    fault: &RosterFault,
) -> Result<Vec<u8>, AllocError>
    requires { IsFaultOf problem.now fault.now }
    ensures { IfOk result (λ v. v.items ≡ told_lines problem.now (fault_statement problem.now fault.now ∷ [])) }
{
    match fault {
        RosterFault::Refused(why) => roster_refusal_told(alloc, problem, *why),
        RosterFault::Breaks(breach) => broken_told(alloc, problem, breach),
    }
}
