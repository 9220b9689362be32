// The reply of `explain`, which says in words what a problem's file says, or why it is refused.
ghost use Rattle.std.specs.Prelude.{◌≡◌, None, IfOk, IsErrOf};
ghost use Rattle.rwsp_io.specs.Told.{Rose, Missing};
ghost use Rattle.command_line.specs.declared.command.Command.TheVariants.{Explain};
ghost use Rattle.commands.specs.ProblemFile.{IsRefusedFile};
ghost use Rattle.rwsp_run.specs.Answers.{IsAnswerTo, IsSaidOfRefusal};
ghost use Rattle.rwsp_run.specs.Texts.{IsTextFor};

use crate::answer::Refusal;
use crate::reply::{Reply, explained, refused};
use command_line::FileName;
use commands::{ProblemRefusal, Stop, explain, problem_in};
use rwsp_io::Shelf;
use std::alloc::{AllocError, Global};

/// The reply of `explain`.
#[tactic(auto, using(crate::proofs::Files::refusal_printed))]
pub fn reply_on_explain<S: Shelf>(
    alloc: Global,
    shelf: &mut S,
    file: &FileName,
) -> Result<Reply, Stop>
    ensures answer { IfOk result (λ r. IsAnswerTo (Explain file.now) (S.held shelf.old) r.answer) }
    ensures text { IfOk result (λ r. IsTextFor (S.held shelf.old file.now) r.answer r.text.items) }
    ensures subject { IfOk result (λ r. r.subject ≡ None) }
    ensures missing { S.held shelf.old file.now ≡ Missing → IsErrOf result Stop.ReadFault }
    ensures fault { IsErrOf result Stop.ReadFault
        → Rose (S.faults shelf.old file.now) (S.faults shelf.new file.now) }
{
    match problem_in(alloc, shelf, file.as_str())? {
        Ok(subject) => {
            let words = explain::job(alloc, &subject)?;
            Ok(explained(alloc, words)?)
        }
        Err(why) => match words_on(alloc, &why)? {
            Some(words) => Ok(explained(alloc, words)?),
            None => Ok(refused(alloc, Refusal::Problem(why))?),
        },
    }
}

// The words on a file that is refused; None where it is too long.
fn words_on(alloc: Global, why: &ProblemRefusal) -> Result<Option<explain::Answer>, AllocError>
    requires { IsRefusedFile why.now }
    ensures { IfOk result (IsSaidOfRefusal why.now) }
{
    match why {
        ProblemRefusal::TooLong => Ok(None),
        ProblemRefusal::Refused(_, file) => {
            let words = explain::refused(alloc, file.bytes())?;
            Ok(Some(words))
        }
    }
}
