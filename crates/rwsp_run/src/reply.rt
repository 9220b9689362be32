// Answers with their texts.
ghost use Rattle.std.specs.Prelude.{◌≡◌, ◌≤◌, IfOk};
ghost use Rattle.std.specs.String.{string_bytes};
ghost use Rattle.commands.specs.Trial.{IsTrial, IsTrialText};
ghost use Rattle.commands.specs.Explain.{explain_text};
ghost use Rattle.rwsp_run.specs.Texts.{refusal_line, unfit_line};
ghost use Rattle.rwsp_run.specs.Commands.{job_text, IsPrintable};
ghost use Rattle.rwsp_run.specs.declared.answer.Answer.TheVariants as Answers;
ghost use Rattle.commands.specs.declared.trial.Answer.{Answer as TrialAnswer};

use crate::answer::{Answer, Refusal, Unfit};
use crate::jobs::{JobAnswer, text_of};
use clean_words::Gate;
use command_line::usage;
use commands::{Subject, explain, not_weekly_line, problem_refusal_line, too_long_line, trial};
use rwsp_terms::limits::MOST_WEEKS;
use std::alloc::{AllocError, Global};
use std::thread::Threads;

/// An answer and its whole text, with what a job's answer speaks of, until it was told in words.
#[derive(Drop)]
pub struct Reply {
    pub answer: Answer,
    pub text: Vec<u8>,
    pub subject: Option<Subject>,
}

// The line of a refusal.
fn refusal_line(alloc: Global, why: &Refusal) -> Result<String, AllocError>
    ensures { IfOk result (λ t. string_bytes t ≡ refusal_line why.now) }
{
    match why {
        Refusal::Usage => format!(in alloc; "{}\n", usage()),
        Refusal::Horizon => String::from_str(alloc, "horizon refused\n"),
        Refusal::Problem(why) => problem_refusal_line(alloc, why),
        Refusal::Unfit(why) => unfit_line(alloc, *why),
        Refusal::TooLong(kind) => too_long_line(alloc, *kind),
    }
}

// The line of a problem that isn't one for the command.
fn unfit_line(alloc: Global, why: Unfit) -> Result<String, AllocError>
    ensures { IfOk result (λ t. string_bytes t ≡ unfit_line why) }
{
    match why {
        Unfit::NotWeekly(days) => not_weekly_line(alloc, days),
        Unfit::OpenWordTaken => String::from_str(alloc, "fill refused: name ?\n"),
    }
}

// Its bytes.
fn refusal_text(alloc: Global, why: &Refusal) -> Result<Vec<u8>, AllocError>
    ensures { IfOk result (λ v. v.items ≡ refusal_line why.now) }
{
    let line = refusal_line(alloc, why)?;
    Vec::from_slice(alloc, line.as_bytes())
}

/// The reply of a refusal.
pub fn refused(alloc: Global, why: Refusal) -> Result<Reply, AllocError>
    ensures answer { IfOk result (λ r. r.answer ≡ Answers.Refused why) }
    ensures text { IfOk result (λ r. r.text.items ≡ refusal_line why) }
    ensures subject { IfOk result (λ r. r.subject ≡ None) }
{
    let text = refusal_text(alloc, &why)?;
    Ok(Reply {
        answer: Answer::Refused(why),
        text,
        subject: None,
    })
}

/// The reply of a trial.
pub fn tried<R: Threads + Sync, G: Gate>(
    rt: &R,
    alloc: Global,
    number: u32,
    weeks: u32,
    gate: &G,
) -> Result<Reply, AllocError>
    requires { (1 ≤ weeks) × (weeks ≤ MOST_WEEKS) }
    ensures { IfOk result (λ r. (trial : TrialAnswer) × (r.answer ≡ Answers.Trial trial)
        × IsTrial number weeks trial × IsTrialText trial r.text.items × (r.subject ≡ None)) }
{
    let trial = trial::job(rt, alloc, number, weeks, gate)?;
    Ok(Reply {
        answer: Answer::Trial(trial.answer),
        text: trial.text,
        subject: None,
    })
}

/// The reply of an answer on a problem.
pub fn printed(alloc: Global, subject: Subject, answer: JobAnswer) -> Result<Reply, AllocError>
    requires { IsPrintable subject.problem answer }
    ensures answer { IfOk result (λ r. r.answer ≡ Answers.Job answer) }
    ensures text { IfOk result (λ r. r.text.items ≡ job_text subject.problem answer) }
    ensures subject { IfOk result (λ r. r.subject ≡ Some subject) }
{
    match text_of(alloc, &subject.problem, &answer) {
        Ok(text) => Ok(Reply {
            answer: Answer::Job(answer),
            text,
            subject: Some(subject),
        }),
        Err(AllocError) => Err(without_memory((subject, answer))),
    }
}

/// The reply of an explanation.
pub fn explained(alloc: Global, words: explain::Answer) -> Result<Reply, AllocError>
    ensures answer { IfOk result (λ r. r.answer ≡ Answers.Explained words) }
    ensures text { IfOk result (λ r. r.text.items ≡ explain_text words) }
    ensures subject { IfOk result (λ r. r.subject ≡ None) }
{
    match explain::text(alloc, &words) {
        Ok(text) => Ok(Reply {
            answer: Answer::Explained(words),
            text,
            subject: None,
        }),
        Err(AllocError) => Err(without_memory(words)),
    }
}

// The end of a run that has an answer, of any type, and no memory for its text.
fn without_memory<A: Drop>(_answer: A) -> AllocError {
    AllocError
}
