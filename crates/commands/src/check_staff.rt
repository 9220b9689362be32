// Whether a text that shows the least crew is right.
ghost use Rattle.std.specs.Prelude.{◌≡◌, IfOk};
ghost use Rattle.commands.specs.Files.{IsWithinLimit};
ghost use Rattle.commands.specs.CheckStaff.{IsCheckStaffTold, IsCheckedStaff, IsCheckedStaffOf, check_staff_text, check_staff_status};
ghost use Rattle.commands.specs.declared.second_file.SecondKind.TheVariants as Kinds;

mod texts;

use clean_words::Gate;
use crew_checker::check_staff;
use crew_size::{StaffRefusal, Staffed};
use rwsp_model::{Fail, Problem};
use rwsp_terms::limits::USUAL_WORKERS;
use std::alloc::{AllocError, Global};
use std::thread::Threads;
use texts::{staff_refusal_line, staff_refusal_told, staffed_line, staffed_told};

/// Whether a staff text is right.
#[derive(Drop)]
pub enum Answer {
    /// It is: what it decides.
    Accepted(Staffed),
    /// It isn't: its first failure.
    Refused(StaffRefusal),
}

/// The answer to the bytes of a staff text.
pub fn job<R: Threads + Sync, G: Gate>(
    rt: &R,
    alloc: Global,
    problem: &Problem,
    bytes: &[u8],
    gate: &G,
) -> Result<Answer, AllocError>
    requires { IsWithinLimit Kinds.Log bytes.now }
    ensures says { IfOk result (IsCheckedStaff problem.now bytes.now) }
    ensures own { IfOk result (IsCheckedStaffOf problem.now) }
{
    match check_staff(rt, alloc, problem, bytes, USUAL_WORKERS, gate) {
        Ok(staffed) => Ok(Answer::Accepted(staffed)),
        Err(Fail::Refused(why)) => Ok(Answer::Refused(why)),
        Err(Fail::Memory) => Err(AllocError),
    }
}

/// The line of the answer.
pub fn text(alloc: Global, problem: &Problem, answer: &Answer) -> Result<Vec<u8>, AllocError>
    requires { IsCheckedStaffOf problem.now answer.now }
    ensures { IfOk result (λ v. v.items ≡ check_staff_text problem.now answer.now) }
{
    match answer {
        Answer::Accepted(staffed) => staffed_line(alloc, *staffed),
        Answer::Refused(why) => staff_refusal_line(alloc, problem, why),
    }
}

/// What is told of the answer.
pub fn told(alloc: Global, problem: &Problem, answer: &Answer) -> Result<Vec<u8>, AllocError>
    requires { IsCheckedStaffOf problem.now answer.now }
    ensures { IfOk result (λ v. IsCheckStaffTold problem.now answer.now v.items) }
{
    match answer {
        Answer::Accepted(staffed) => staffed_told(alloc, problem, *staffed),
        Answer::Refused(why) => staff_refusal_told(alloc, problem, why),
    }
}

/// The status of the answer.
pub fn status(answer: &Answer) -> u8
    ensures { result ≡ check_staff_status answer.now }
{
    match answer {
        Answer::Accepted(_) => 0,
        Answer::Refused(_) => 5,
    }
}
