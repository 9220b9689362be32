// Who works on a date, by a roster that meets every rule.
ghost use Rattle.std.specs.Prelude.{◌≡◌, IfOk};
ghost use Rattle.crew_calendar.specs.Calendar.{IsNotBefore};
ghost use Rattle.commands.specs.Files.{IsWithinLimit};
ghost use Rattle.commands.specs.declared.second_file.SecondKind.TheVariants as Kinds;
ghost use Rattle.commands.specs.On.{IsOnAnswer, IsOnAnswerOf, IsOnTold, on_text, on_status};

use crate::text::Text;
use crate::verify::{RosterFault, fault_line, fault_status, fault_told, right_roster};
use crew_calendar::{CivilDate, who_works};
use rwsp_model::Problem;
use std::alloc::{AllocError, Global};

/// Who works on a date, or what is wrong with the roster.
#[derive(Drop)]
pub enum Answer {
    /// The roster meets every rule: who works.
    Shown(Text),
    /// The roster doesn't meet every rule.
    Fails(RosterFault),
}

/// The answer to the bytes of a roster.
pub fn job(
    alloc: Global,
    problem: &Problem,
    bytes: &[u8],
    start: CivilDate,
    date: CivilDate,
) -> Result<Answer, AllocError>
    requires short { IsWithinLimit Kinds.Roster bytes.now }
    requires later { IsNotBefore start date }
    ensures says { IfOk result (IsOnAnswer problem.now bytes.now start date) }
    ensures own { IfOk result (IsOnAnswerOf problem.now) }
{
    let roster = match right_roster(alloc, problem, bytes)? {
        Ok(roster) => roster,
        Err(fault) => return Ok(Answer::Fails(fault)),
    };
    let text = who_works(alloc, problem, &roster, start, date)?;
    Ok(Answer::Shown(Text::of(text)))
}

/// The text of the answer: who works, or a line.
pub fn text(alloc: Global, problem: &Problem, answer: &Answer) -> Result<Vec<u8>, AllocError>
    requires { IsOnAnswerOf problem.now answer.now }
    ensures { IfOk result (λ v. v.items ≡ on_text problem.now answer.now) }
{
    match answer {
        Answer::Shown(text) => text.copy(alloc),
        Answer::Fails(fault) => fault_line(alloc, problem, fault),
    }
}

/// What is told of the answer.
pub fn told(alloc: Global, problem: &Problem, answer: &Answer) -> Result<Vec<u8>, AllocError>
    requires { IsOnAnswerOf problem.now answer.now }
    ensures { IfOk result (λ v. IsOnTold problem.now answer.now v.items) }
{
    match answer {
        Answer::Shown(_) => Ok(Vec::new(alloc)),
        Answer::Fails(fault) => fault_told(alloc, problem, fault),
    }
}

/// The status of the answer.
pub fn status(answer: &Answer) -> u8
    ensures { result ≡ on_status answer.now }
{
    match answer {
        Answer::Shown(_) => 0,
        Answer::Fails(fault) => fault_status(fault),
    }
}
