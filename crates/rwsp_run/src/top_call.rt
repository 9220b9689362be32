// One call that answers a command line.
ghost use Rattle.std.specs.Prelude.{◌≡◌, ℕ, List, IfOk, IsErrOf};
ghost use Rattle.std.specs.Io.KnownBytes.{Appends, Keeps};
ghost use Rattle.rwsp_io.specs.Told.{Rose, Missing};
ghost use Rattle.command_line.specs.Commands.{IsInRange, IsProblemTaskInRange, IsFilesTaskInRange, EndsInTime, IsWithinHorizon, ReadsProblem, file_of};
ghost use Rattle.commands.specs.Files.{IsWithinLimit};
ghost use Rattle.rwsp_run.specs.Commands.{IsProblemAnswer, IsFilesAnswer, IsPrintable, job_text, second_kind, SuitsProblemTask, SuitsFilesTask};
ghost use Rattle.rwsp_run.specs.Answers.{IsAnswer, IsAnswerTo, IsAsked, IsFileFault, IsReadFault};
ghost use Rattle.rwsp_run.specs.Texts.{IsTextOf, IsTextFor, AppendsPrefix};
ghost use Rattle.rwsp_run.specs.Told.{IsSubjectFor, IsSubjectOf, IsToldOf, WasPut};
ghost use Rattle.rwsp_run.specs.declared.jobs.JobAnswer.{JobAnswer as AnswerOfJob};
ghost use Rattle.rwsp_run.specs.declared.answer.Answer.TheVariants as Answers;

use crate::answer::{Answer, Outcome, Refusal};
use crate::explained::reply_on_explain;
use crate::inputs::{Files, files_for, subject_for};
use crate::jobs::{answer_on_files, answer_on_problem};
use crate::reply::{Reply, printed, refused, tried};
use crate::told::tell;
use clean_words::Gate;
use command_line::{Command, FilesTask, ProblemTask, command_of, is_within_horizon};
use commands::{Stop, Subject};
use rwsp_io::{Shelf, Sink, write_all};
use std::alloc::{AllocError, Global};
use std::thread::Threads;

/// Answers the words of a command line, over the files of the shelf. The words are looked at first, then the problem's
/// file, then the second file; a file behind an earlier refusal isn't read. The answer's whole text is composed before
/// its first byte is put. Behind that it is told in words what the answer means; where there is no memory for words, or
/// they can't be put, the outcome is the same. Workers pass the gate; no answer depends on it.
pub fn run<R: Threads + Sync, S: Shelf, K: Sink, T: Sink, G: Gate>(
    rt: &R,
    alloc: Global,
    words: &Vec<String>,
    shelf: &mut S,
    out: &mut K,
    told: &mut T,
    gate: &G,
) -> Outcome
    // What an answer says is true.
    ensures answer { (a : Answer) → result ≡ Outcome.Done a → IsAnswer (S.held shelf.old) words.now.items a }
    ensures answer_at_fault { (a : Answer) → result ≡ Outcome.WriteFault a
        → IsAnswer (S.held shelf.old) words.now.items a }

    // All of its text was written, or a prefix of it.
    ensures written { (a : Answer) → result ≡ Outcome.Done a
        → (text : List ℕ) × IsTextOf (S.held shelf.old) words.now.items a text
        × Appends (K.got out.old) (K.got out.new) text }
    ensures prefix { (a : Answer) → result ≡ Outcome.WriteFault a
        → (text : List ℕ) × IsTextOf (S.held shelf.old) words.now.items a text
        × AppendsPrefix (K.got out.old) (K.got out.new) text }
    ensures write_fault { (a : Answer) → result ≡ Outcome.WriteFault a → Rose (K.faults out.old) (K.faults out.new) }

    // All that it means was told, or a prefix of it where that sink failed, or nothing.
    ensures told { (a : Answer) → result ≡ Outcome.Done a → WasPut (IsToldOf (S.held shelf.old) words.now.items a)
        (T.got told.old) (T.got told.new) (Rose (T.faults told.old) (T.faults told.new)) }
    ensures told_at_fault { (a : Answer) → result ≡ Outcome.WriteFault a → WasPut (IsToldOf (S.held shelf.old) words.now.items a)
        (T.got told.old) (T.got told.new) (Rose (T.faults told.old) (T.faults told.new)) }

    // Where a file couldn't be read, or there was no memory, nothing was written, and nothing told.
    ensures read_fault { result ≡ Outcome.Stopped Stop.ReadFault
        → IsReadFault (S.held shelf.old) (S.faults shelf.old) (S.faults shelf.new) words.now.items }
    ensures missing { (command : Command) → IsAsked words.now.items command
        → S.held shelf.old (file_of command) ≡ Missing
        → result ≡ Outcome.Stopped Stop.ReadFault }
    ensures silent { (stop : Stop) → result ≡ Outcome.Stopped stop → Keeps (K.got out.old) (K.got out.new) }
    ensures untold { (stop : Stop) → result ≡ Outcome.Stopped stop → Keeps (T.got told.old) (T.got told.new) }
{
    let reply = match reply_to(rt, alloc, words, shelf, gate) {
        Ok(reply) => reply,
        Err(stop) => return Outcome::Stopped(stop),
    };
    let written = write_all(out, &reply.text);
    tell(alloc, told, &reply.answer, &reply.subject);
    match written {
        Ok(()) => Outcome::Done(reply.answer),
        Err(_) => Outcome::WriteFault(reply.answer),
    }
}

// The answer to the words, with its text.
fn reply_to<R: Threads + Sync, S: Shelf, G: Gate>(
    rt: &R,
    alloc: Global,
    words: &Vec<String>,
    shelf: &mut S,
    gate: &G,
) -> Result<Reply, Stop>
    ensures answer { IfOk result (λ r. IsAnswer (S.held shelf.old) words.now.items r.answer) }
    ensures text { IfOk result (λ r. IsTextOf (S.held shelf.old) words.now.items r.answer r.text.items) }
    ensures subject { IfOk result (λ r. IsSubjectOf (S.held shelf.old) words.now.items r.answer r.subject) }
    ensures missing { (command : Command) → IsAsked words.now.items command
        → S.held shelf.old (file_of command) ≡ Missing
        → IsErrOf result Stop.ReadFault }
    ensures fault { IsErrOf result Stop.ReadFault
        → IsReadFault (S.held shelf.old) (S.faults shelf.old) (S.faults shelf.new) words.now.items }
{
    let Some(command) = command_of(words) else {
        return Ok(refused(alloc, Refusal::Usage)?);
    };
    if is_within_horizon(&command) {
        reply_on(rt, alloc, shelf, &command, gate)
    } else {
        Ok(refused(alloc, Refusal::Horizon)?)
    }
}

// The reply to a command.
fn reply_on<R: Threads + Sync, S: Shelf, G: Gate>(
    rt: &R,
    alloc: Global,
    shelf: &mut S,
    command: &Command,
    gate: &G,
) -> Result<Reply, Stop>
    requires range { IsInRange command.now }
    requires horizon { IsWithinHorizon command.now }
    ensures answer { IfOk result (λ r. IsAnswerTo command.now (S.held shelf.old) r.answer) }
    ensures text { IfOk result (λ r. IsTextFor (S.held shelf.old (file_of command.now)) r.answer r.text.items) }
    ensures subject { IfOk result (λ r. IsSubjectFor (S.held shelf.old (file_of command.now)) r.answer r.subject) }
    ensures missing { ReadsProblem command.now → S.held shelf.old (file_of command.now) ≡ Missing
        → IsErrOf result Stop.ReadFault }
    ensures fault { IsErrOf result Stop.ReadFault → ReadsProblem command.now
        × IsFileFault (S.held shelf.old) (S.faults shelf.old) (S.faults shelf.new) command.now }
{
    match command {
        Command::Trial { number, weeks } => Ok(tried(rt, alloc, *number, *weeks, gate)?),
        Command::OnProblem { file, task } => match subject_for(alloc, shelf, file, task)? {
            Ok(subject) => Ok(reply_on_problem(rt, alloc, subject, *task, gate)?),
            Err(why) => Ok(refused(alloc, why)?),
        },
        Command::OnFiles { file, second, task } => {
            match files_for(alloc, shelf, file, second, task)? {
                Ok(files) => Ok(reply_on_files(rt, alloc, files, *task, gate)?),
                Err(why) => Ok(refused(alloc, why)?),
            }
        }
        Command::Explain { file } => reply_on_explain(alloc, shelf, file),
    }
}

// The reply of a task on a problem.
fn reply_on_problem<R: Threads + Sync, G: Gate>(
    rt: &R,
    alloc: Global,
    subject: Subject,
    task: ProblemTask,
    gate: &G,
) -> Result<Reply, AllocError>
    requires range { IsProblemTaskInRange task }
    requires fit { SuitsProblemTask task subject.problem }
    ensures { IfOk result (λ r. (a : AnswerOfJob) × (r.answer ≡ Answers.Job a)
        × IsProblemAnswer task subject.problem a × IsPrintable subject.problem a
        × (r.text.items ≡ job_text subject.problem a) × (r.subject ≡ Some subject)) }
{
    let answer = answer_on_problem(rt, alloc, &subject.problem, task, gate)?;
    printed(alloc, subject, answer)
}

// The reply of a task on a problem and a second file.
fn reply_on_files<R: Threads + Sync, G: Gate>(
    rt: &R,
    alloc: Global,
    files: Files,
    task: FilesTask,
    gate: &G,
) -> Result<Reply, AllocError>
    requires range { IsFilesTaskInRange task }
    requires horizon { EndsInTime task }
    requires fit { SuitsFilesTask task files.subject.problem }
    requires short { IsWithinLimit (second_kind task) files.bytes.items }
    ensures { IfOk result (λ r. (a : AnswerOfJob) × (r.answer ≡ Answers.Job a)
        × IsFilesAnswer task files.subject.problem files.bytes.items a × IsPrintable files.subject.problem a
        × (r.text.items ≡ job_text files.subject.problem a) × (r.subject ≡ Some files.subject)) }
{
    let Files { subject, bytes } = files;
    let answer = answer_on_files(rt, alloc, &subject.problem, bytes, task, gate)?;
    printed(alloc, subject, answer)
}
