// Whether a roster meets all rules of a problem.
ghost use Rattle.std.specs.Prelude.{◌≡◌, IfOk, IfErr};
ghost use Rattle.rwsp_terms.specs.Roster.{MeetsAll};
ghost use Rattle.roster_print.specs.RosterText.{SpellsRoster};
ghost use Rattle.commands.specs.Files.{IsWithinLimit};
ghost use Rattle.commands.specs.Verify.{IsRosterFault, IsVerified, IsVerifiedOf, IsVerifyTold, verify_text, verify_status, fault_status};
ghost use Rattle.commands.specs.declared.second_file.SecondKind.TheVariants as Kinds;

mod texts;

use crate::telling::one_told;
use plain_words::pieces::MEETS;
use roster_checker::{Broken, first_broken};
use roster_print::{RosterRefusal, read_roster};
use rwsp_model::{Fail, Problem, Roster};
use std::alloc::{AllocError, Global};
pub use texts::{broken_line, broken_told, fault_line, fault_told};

/// What is wrong with the bytes of a roster.
#[derive(Drop)]
pub enum RosterFault {
    /// They spell no roster of the problem.
    Refused(RosterRefusal),
    /// The roster breaks a rule.
    Breaks(BrokenRoster),
}

/// A roster, and the first rule that it breaks, and where.
#[derive(Drop)]
pub struct BrokenRoster {
    pub broken: Broken,
    pub roster: Roster,
}

/// What a roster is.
#[derive(Drop)]
pub enum Answer {
    /// It meets every rule.
    Meets,
    /// It doesn't.
    Fails(RosterFault),
}

/// The answer to the bytes of a roster.
pub fn job(alloc: Global, problem: &Problem, bytes: &[u8]) -> Result<Answer, AllocError>
    requires { IsWithinLimit Kinds.Roster bytes.now }
    ensures says { IfOk result (IsVerified problem.now bytes.now) }
    ensures own { IfOk result (IsVerifiedOf problem.now) }
{
    match right_roster(alloc, problem, bytes)? {
        Ok(_) => Ok(Answer::Meets),
        Err(fault) => Ok(Answer::Fails(fault)),
    }
}

/// The roster that the bytes spell, where it meets every rule; else what is wrong with them.
pub fn right_roster(
    alloc: Global,
    problem: &Problem,
    bytes: &[u8],
) -> Result<Result<Roster, RosterFault>, AllocError>
    requires { IsWithinLimit Kinds.Roster bytes.now }
    ensures spelled { IfOk result (λ read. IfOk read (λ s. SpellsRoster problem.now bytes.now s.cells)) }
    ensures meets { IfOk result (λ read. IfOk read (λ s. MeetsAll problem.now s.cells)) }
    ensures fault { IfOk result (λ read. IfErr read (IsRosterFault problem.now bytes.now)) }
{
    match read_roster(alloc, problem, bytes) {
        Ok(roster) => match first_broken(problem, &roster) {
            None => Ok(Ok(roster)),
            Some(broken) => Ok(Err(RosterFault::Breaks(BrokenRoster { broken, roster }))),
        },
        Err(Fail::Refused(why)) => Ok(Err(RosterFault::Refused(why))),
        Err(Fail::Memory) => Err(AllocError),
    }
}

/// The line of the answer.
pub fn text(alloc: Global, problem: &Problem, answer: &Answer) -> Result<Vec<u8>, AllocError>
    requires { IsVerifiedOf problem.now answer.now }
    ensures { IfOk result (λ v. v.items ≡ verify_text problem.now answer.now) }
{
    match answer {
        Answer::Meets => Vec::from_slice(alloc, b"meets\n".as_slice()),
        Answer::Fails(fault) => fault_line(alloc, problem, fault),
    }
}

/// What is told of the answer.
pub fn told(alloc: Global, problem: &Problem, answer: &Answer) -> Result<Vec<u8>, AllocError>
    requires { IsVerifiedOf problem.now answer.now }
    ensures { IfOk result (λ v. IsVerifyTold problem.now answer.now v.items) }
{
    match answer {
        Answer::Meets => one_told(alloc, problem, MEETS, &[]),
        Answer::Fails(fault) => fault_told(alloc, problem, fault),
    }
}

/// The status where a roster has this fault.
pub fn fault_status(fault: &RosterFault) -> u8
    ensures { result ≡ fault_status fault.now }
{
    match fault {
        RosterFault::Refused(_) => 3,
        RosterFault::Breaks(_) => 5,
    }
}

/// The status of the answer.
pub fn status(answer: &Answer) -> u8
    ensures { result ≡ verify_status answer.now }
{
    match answer {
        Answer::Meets => 0,
        Answer::Fails(fault) => fault_status(fault),
    }
}
