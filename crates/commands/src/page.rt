// The page of a roster that meets every rule.
ghost use Rattle.std.specs.Prelude.{◌≡◌, IfOk};
ghost use Rattle.commands.specs.Files.{IsWithinLimit};
ghost use Rattle.commands.specs.Page.{IsPageAnswer, IsPageAnswerOf, IsPageTold, page_answer_text, page_status};
ghost use Rattle.commands.specs.declared.second_file.SecondKind.TheVariants as Kinds;

use crate::text::Text;
use crate::verify::{RosterFault, fault_line, fault_status, fault_told, right_roster};
use roster_page::page_text;
use rwsp_model::Problem;
use std::alloc::{AllocError, Global};

/// The page of a roster, or why there is none.
#[derive(Drop)]
pub enum Answer {
    /// The roster meets every rule.
    Shown(Text),
    /// It doesn't.
    Fails(RosterFault),
}

/// The answer to the bytes of a roster.
pub fn job(alloc: Global, problem: &Problem, bytes: &[u8]) -> Result<Answer, AllocError>
    requires { IsWithinLimit Kinds.Roster bytes.now }
    ensures says { IfOk result (IsPageAnswer problem.now bytes.now) }
    ensures own { IfOk result (IsPageAnswerOf problem.now) }
{
    let roster = match right_roster(alloc, problem, bytes)? {
        Ok(roster) => roster,
        Err(fault) => return Ok(Answer::Fails(fault)),
    };
    let text = page_text(alloc, problem, &roster)?;
    Ok(Answer::Shown(Text::of(text)))
}

/// The text of the answer: the page, or a line.
pub fn text(alloc: Global, problem: &Problem, answer: &Answer) -> Result<Vec<u8>, AllocError>
    requires { IsPageAnswerOf problem.now answer.now }
    ensures { IfOk result (λ v. v.items ≡ page_answer_text problem.now answer.now) }
{
    match answer {
        Answer::Shown(page) => page.copy(alloc),
        Answer::Fails(fault) => fault_line(alloc, problem, fault),
    }
}

/// What is told of the answer.
pub fn told(alloc: Global, problem: &Problem, answer: &Answer) -> Result<Vec<u8>, AllocError>
    requires { IsPageAnswerOf problem.now answer.now }
    ensures { IfOk result (λ v. IsPageTold problem.now answer.now v.items) }
{
    match answer {
        Answer::Shown(_) => Ok(Vec::new(alloc)),
        Answer::Fails(fault) => fault_told(alloc, problem, fault),
    }
}

/// The status of the answer.
pub fn status(answer: &Answer) -> u8
    ensures { result ≡ page_status answer.now }
{
    match answer {
        Answer::Shown(_) => 0,
        Answer::Fails(fault) => fault_status(fault),
    }
}
