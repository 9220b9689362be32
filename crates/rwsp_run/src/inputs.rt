// What a task works on, read.
ghost use Rattle.std.specs.Prelude.{◌≡◌, None, IfOk, IfErr, IsErrOf};
ghost use Rattle.rwsp_io.specs.Told.{Rose, Missing};
ghost use Rattle.command_line.specs.declared.command.Command.TheVariants.{OnProblem, OnFiles};
ghost use Rattle.commands.specs.Files.{IsSecond};
ghost use Rattle.commands.specs.ProblemFile.{IsProblemOf, IsSubject};
ghost use Rattle.rwsp_run.specs.Commands.{second_kind, SuitsProblemTask, SuitsFilesTask};
ghost use Rattle.rwsp_run.specs.Answers.{IsAnswerTo, IsFileFault};
ghost use Rattle.rwsp_run.specs.Told.{IsTellable};
ghost use Rattle.rwsp_run.specs.declared.answer.Answer.TheVariants.{Refused};

use crate::answer::Refusal;
use crate::jobs::{second_kind, unfit_for_files_task, unfit_for_problem_task};
use command_line::{FileName, FilesTask, ProblemTask};
use commands::{Stop, Subject, problem_in, second_in};
use rwsp_io::Shelf;
use std::alloc::Global;

/// What a problem's file says, and the bytes of a second file.
#[derive(Drop)]
pub struct Files {
    pub subject: Subject,
    pub bytes: Vec<u8>,
}

/// What a problem's file says, or why the task on it isn't begun.
pub fn subject_for<S: Shelf>(
    alloc: Global,
    shelf: &mut S,
    file: &FileName,
    task: &ProblemTask,
) -> Result<Result<Subject, Refusal>, Stop>
    ensures problem { IfOk result (λ read. IfOk read (λ s. IsProblemOf (S.held shelf.old file.now) s.problem)) }
    ensures subject { IfOk result (λ read. IfOk read (IsSubject (S.held shelf.old file.now))) }
    ensures fit { IfOk result (λ read. IfOk read (λ s. SuitsProblemTask task.now s.problem)) }
    ensures refusal { IfOk result (λ read. IfErr read (λ why.
        IsAnswerTo (OnProblem file.now task.now) (S.held shelf.old) (Refused why))) }
    ensures tellable { IfOk result (λ read. IfErr read (λ why. IsTellable (Refused why) None)) }
    ensures missing { S.held shelf.old file.now ≡ Missing → IsErrOf result Stop.ReadFault }
    ensures fault { IsErrOf result Stop.ReadFault
        → Rose (S.faults shelf.old file.now) (S.faults shelf.new file.now) }
{
    let subject = match problem_in(alloc, shelf, file.as_str())? {
        Ok(subject) => subject,
        Err(why) => return Ok(Err(Refusal::Problem(why))),
    };
    match unfit_for_problem_task(task, &subject.problem) {
        None => Ok(Ok(subject)),
        Some(why) => Ok(Err(Refusal::Unfit(why))),
    }
}

/// The same with the bytes of a second file, or why the task on them isn't begun. The second file isn't read where the
/// task is refused by then.
pub fn files_for<S: Shelf>(
    alloc: Global,
    shelf: &mut S,
    file: &FileName,
    second: &FileName,
    task: &FilesTask,
) -> Result<Result<Files, Refusal>, Stop>
    ensures problem { IfOk result (λ read. IfOk read (λ files.
        IsProblemOf (S.held shelf.old file.now) files.subject.problem)) }
    ensures subject { IfOk result (λ read. IfOk read (λ files.
        IsSubject (S.held shelf.old file.now) files.subject)) }
    ensures fit { IfOk result (λ read. IfOk read (λ files. SuitsFilesTask task.now files.subject.problem)) }
    ensures second { IfOk result (λ read. IfOk read (λ files.
        IsSecond (second_kind task.now) (S.held shelf.old second.now) files.bytes.items)) }
    ensures refusal { IfOk result (λ read. IfErr read (λ why.
        IsAnswerTo (OnFiles file.now second.now task.now) (S.held shelf.old) (Refused why))) }
    ensures tellable { IfOk result (λ read. IfErr read (λ why. IsTellable (Refused why) None)) }
    ensures missing { S.held shelf.old file.now ≡ Missing → IsErrOf result Stop.ReadFault }
    ensures fault { IsErrOf result Stop.ReadFault
        → IsFileFault (S.held shelf.old) (S.faults shelf.old) (S.faults shelf.new)
        (OnFiles file.now second.now task.now) }
{
    let subject = match problem_in(alloc, shelf, file.as_str())? {
        Ok(subject) => subject,
        Err(why) => return Ok(Err(Refusal::Problem(why))),
    };
    if let Some(why) = unfit_for_files_task(task, &subject.problem) {
        return Ok(Err(Refusal::Unfit(why)));
    }
    let kind = second_kind(task);
    match second_in(alloc, shelf, second.as_str(), kind)? {
        Some(bytes) => Ok(Ok(Files { subject, bytes })),
        None => Ok(Err(Refusal::TooLong(kind))),
    }
}
