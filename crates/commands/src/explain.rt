// What a problem's file says in words, or why it is refused.
ghost use Rattle.std.specs.Prelude.{◌≡◌, Some, IfOk};
ghost use Rattle.rwsp_file.specs.Reading.{file_refusal};
ghost use Rattle.rwsp_file.specs.declared.refusal.FileRefusal.{FileRefusal as Why};
ghost use Rattle.commands.specs.ProblemFile.{IsShortFile};
ghost use Rattle.commands.specs.Explain.{IsRefusalOf, problem_explanation, explain_text, explain_status};

use crate::problem_file::{Subject, refusal_words};
use crate::text::Text;
use plain_words::problem_words;
use rwsp_file::numeric_long_names;
use std::alloc::{AllocError, Global};

/// What is explained, each sentence a line.
#[derive(Drop)]
pub enum Answer {
    /// Why the problem's file is refused.
    Refused(Text),
    /// What the problem says.
    Said(Text),
}

/// What a problem says, which its file spells.
pub fn job(alloc: Global, subject: &Subject) -> Result<Answer, AllocError>
    requires { IsShortFile subject.now.file }
    ensures { IfOk result (λ answer. answer ≡ problem_explanation subject.now.problem subject.now.file) }
{
    let long_names = numeric_long_names(alloc, subject.file.bytes())?;
    let words = problem_words(alloc, &subject.problem, &long_names)?;
    Ok(Answer::Said(Text::of(words)))
}

/// Why the bytes of a file spell no problem.
pub fn refused(alloc: Global, bytes: &[u8]) -> Result<Answer, AllocError>
    requires short { IsShortFile bytes.now }
    requires refused { (why : Why) × (file_refusal bytes.now ≡ Some why) }
    ensures { IfOk result (IsRefusalOf bytes.now) }
{
    let words = refusal_words(alloc, bytes)?;
    Ok(Answer::Refused(Text::of(words)))
}

/// The text of the answer: its lines.
pub fn text(alloc: Global, answer: &Answer) -> Result<Vec<u8>, AllocError>
    ensures { IfOk result (λ v. v.items ≡ explain_text answer.now) }
{
    match answer {
        Answer::Refused(words) | Answer::Said(words) => words.copy(alloc),
    }
}

/// The status of the answer.
pub fn status(answer: &Answer) -> u8
    ensures { result ≡ explain_status answer.now }
{
    match answer {
        Answer::Refused(_) => 3,
        Answer::Said(_) => 0,
    }
}
