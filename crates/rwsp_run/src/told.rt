// What an answer means, told in words.
ghost use Rattle.std.specs.Prelude.{◌≡◌, ◌++◌, Some, None, IfOk, OnOk};
ghost use Rattle.rwsp_io.specs.Told.{Rose};
ghost use Rattle.commands.specs.Lines.{line};
ghost use Rattle.rwsp_run.specs.declared.answer.Answer.TheVariants as Answers;
ghost use Rattle.rwsp_run.specs.Told.{IsTellable, IsToldBy, IsRefusalTold, refusal_words, WasPut};

use crate::answer::{Answer, Refusal, Unfit};
use crate::jobs;
use crate::jobs::JobAnswer;
use commands::{Subject, behind_rwsp, problem_refusal_told};
use plain_words::pieces::{HORIZON, NOT_WEEKLY, OPEN_WORD};
use plain_words::put_slips_told;
use rwsp_file::numeric_long_names;
use rwsp_io::{Sink, write_all};
use rwsp_text::put_number;
use std::alloc::{AllocError, Global};

/// Tells what an answer means, as far as there is memory for words and the sink takes them.
pub fn tell<T: Sink>(alloc: Global, told: &mut T, answer: &Answer, subject: &Option<Subject>)
    requires { IsTellable answer.now subject.now }
    ensures { WasPut (IsToldBy answer.now subject.now) (T.got told.old) (T.got told.new)
        (Rose (T.faults told.old) (T.faults told.new)) }
{
    if let Ok(words) = told_of(alloc, answer, subject) {
        let _ = write_all(told, &words);
    }
}

// The words on an answer.
fn told_of(alloc: Global, answer: &Answer, subject: &Option<Subject>) -> Result<Vec<u8>, AllocError>
    requires { IsTellable answer.now subject.now }
    ensures { IfOk result (λ v. IsToldBy answer.now subject.now v.items) }
{
    match answer {
        Answer::Refused(why) => refusal_told(alloc, why),
        Answer::Job(answer) => match subject {
            Some(subject) => job_told(alloc, subject, answer),
            None => unreachable!(),
        },
        Answer::Trial(_) | Answer::Explained(_) => Ok(Vec::new(alloc)),
    }
}

// The words on a job's answer, and behind them what looks like a slip in the problem's file.
fn job_told(alloc: Global, subject: &Subject, answer: &JobAnswer) -> Result<Vec<u8>, AllocError>
    requires { IsTellable (Answers.Job answer.now) (Some subject.now) }
    ensures { IfOk result (λ v. IsToldBy (Answers.Job answer.now) (Some subject.now) v.items) }
{
    let mut out = jobs::told_of(alloc, &subject.problem, answer)?;
    if let Some(telling) = jobs::slips_behind(answer) {
        let names = numeric_long_names(alloc, subject.file.bytes())?;
        put_slips_told(&mut out, telling, &subject.problem, &names)?;
    }
    Ok(out)
}

// The words on a refusal.
fn refusal_told(alloc: Global, why: &Refusal) -> Result<Vec<u8>, AllocError>
    requires { IsTellable (Answers.Refused why.now) None }
    ensures { IfOk result (λ v. IsRefusalTold why.now v.items) }
{
    if let Refusal::Problem(why) = why {
        return problem_refusal_told(alloc, why);
    }
    let mut words = Vec::new(alloc);
    put_refusal_words(&mut words, why)?;
    behind_rwsp(alloc, &words)
}

// Appends the line that says in words why a task isn't begun, but of a file that is refused.
fn put_refusal_words(out: &mut Vec<u8>, why: &Refusal) -> Result<(), AllocError>
    ensures { OnOk result (out.new.items ≡ out.old.items ++ refusal_words why.now) }
{
    match why {
        Refusal::Horizon => put_line(out, HORIZON),
        Refusal::Unfit(Unfit::NotWeekly(days)) => {
            out.extend_from_slice(NOT_WEEKLY)?;
            put_number(out, u64::from(*days))?;
            out.push(b'\n')?;
            Ok(())
        }
        Refusal::Unfit(Unfit::OpenWordTaken) => put_line(out, OPEN_WORD),
        _ => Ok(()),
    }
}

// Appends a line.
fn put_line(out: &mut Vec<u8>, words: &[u8]) -> Result<(), AllocError>
    ensures { OnOk result (out.new.items ≡ out.old.items ++ line words.now) }
{
    out.extend_from_slice(words)?;
    out.push(b'\n')?;
    Ok(())
}
