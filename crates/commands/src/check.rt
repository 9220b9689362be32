// Whether a log passes, with a goal, behind given cells, or neither.
ghost use Rattle.std.specs.Prelude.{◌≡◌, ◌++◌, ◌≤◌, IfOk, OnOk};
ghost use Rattle.refutation_terms.specs.Log.{OpeningFits};
ghost use Rattle.refutation_log.specs.ReadLog.{HasLogsOf};
ghost use Rattle.plain_words.specs.Statements.{told_lines};
ghost use Rattle.plain_words.specs.LogTold.{accepted_statements};
ghost use Rattle.commands.specs.Files.{IsWithinLimit};
ghost use Rattle.commands.specs.Check.{IsCheckTold, IsChecked, IsCheckedOf, check_text, check_status, accepted_text, accepted_words, accepted_end};
ghost use Rattle.commands.specs.declared.second_file.SecondKind.TheVariants as Kinds;

use crate::log_refusal::{log_refusal_line, log_refusal_told};
use crate::put::put_numbers;
use clean_words::Gate;
use plain_words::put_accepted_told;
use refutation_checker::{PassedLog, UncheckedLog, check_with};
use refutation_log::{LogKind, LogRefusal, Opening, put_cells_line};
use rwsp_model::{Fail, Problem};
use rwsp_terms::limits::MOST_WORKERS;
use rwsp_text::put_labelled;
use std::alloc::{AllocError, Global};
use std::thread::Threads;

/// Whether a log passes.
#[derive(Drop)]
pub enum Answer {
    /// It does: no roster meets the rules that it names and has the cells that it gives, or where it has a goal none with
    /// as many free weekends.
    Accepted(PassedLog),
    /// It doesn't: its first line with a cause, and the lowest cause there.
    Refused(LogRefusal),
}

/// The answer to the bytes of a log without a goal, worked out by `workers` threads at most.
pub fn job<R: Threads + Sync, G: Gate>(
    rt: &R,
    alloc: Global,
    problem: &Problem,
    bytes: &[u8],
    workers: u32,
    gate: &G,
) -> Result<Answer, AllocError>
    requires short { IsWithinLimit Kinds.Log bytes.now }
    requires workers { (1 ≤ workers) × (workers ≤ MOST_WORKERS) }
    ensures says { IfOk result (IsChecked problem.now LogKind.WithoutGoal bytes.now) }
    ensures own { IfOk result (IsCheckedOf problem.now) }
{
    let log = UncheckedLog {
        kind: LogKind::WithoutGoal,
        bytes,
    };
    checked(rt, alloc, problem, log, workers, gate)
}

/// The answer to the bytes of a log of a kind, worked out by `workers` threads at most.
pub(crate) fn checked<R: Threads + Sync, G: Gate>(
    rt: &R,
    alloc: Global,
    problem: &Problem,
    log: UncheckedLog<'_>,
    workers: u32,
    gate: &G,
) -> Result<Answer, AllocError>
    requires kind { HasLogsOf problem.now log.kind }
    requires short { IsWithinLimit Kinds.Log log.bytes.now }
    requires workers { (1 ≤ workers) × (workers ≤ MOST_WORKERS) }
    ensures says { IfOk result (IsChecked problem.now log.entry.kind log.entry.bytes.now) }
    ensures own { IfOk result (IsCheckedOf problem.now) }
{
    match check_with(rt, alloc, problem, log, workers, gate) {
        Ok(passed) => Ok(Answer::Accepted(passed)),
        Err(Fail::Refused(why)) => Ok(Answer::Refused(why)),
        Err(Fail::Memory) => Err(AllocError),
    }
}

/// The line of the answer.
pub fn text(alloc: Global, problem: &Problem, answer: &Answer) -> Result<Vec<u8>, AllocError>
    requires { IsCheckedOf problem.now answer.now }
    ensures { IfOk result (λ v. v.items ≡ check_text problem.now answer.now) }
{
    match answer {
        Answer::Accepted(passed) => accepted_line(alloc, problem, passed),
        Answer::Refused(why) => log_refusal_line(alloc, problem, why),
    }
}

// The line that names the goal of an accepted log, if it has one, the rules that it names, and its given cells, if it
// gives any.
fn accepted_line(
    alloc: Global,
    problem: &Problem,
    passed: &PassedLog,
) -> Result<Vec<u8>, AllocError>
    requires { OpeningFits problem.now passed.now.opening }
    ensures { IfOk result (λ v. v.items ≡ accepted_text problem.now passed.now) }
{
    let mut out = Vec::new(alloc);
    put_accepted(&mut out, passed.goal)?;
    put_numbers(&mut out, passed.named.numbers())?;
    put_accepted_end(&mut out, problem, &passed.opening)?;
    Ok(out)
}

// Appends the goal, if there is one, and the word before the rules.
fn put_accepted(out: &mut Vec<u8>, goal: Option<u32>) -> Result<(), AllocError>
    ensures { OnOk result (out.new.items ≡ out.old.items ++ accepted_words goal) }
{
    match goal {
        None => out.extend_from_slice(b"accepted: rules".as_slice())?,
        Some(goal) => {
            put_labelled(out, b"accepted: goal ".as_slice(), goal)?;
            out.extend_from_slice(b" rules".as_slice())?;
        }
    }
    Ok(())
}

// Appends the given cells, as in the header of a log, or else the end of the line.
fn put_accepted_end(
    out: &mut Vec<u8>,
    problem: &Problem,
    opening: &Opening,
) -> Result<(), AllocError>
    requires { OpeningFits problem.now opening.now }
    ensures { OnOk result (out.new.items ≡ out.old.items ++ accepted_end problem.now opening.now) }
{
    match opening {
        Opening::Given(given) => {
            out.push(b' ')?;
            put_cells_line(out, problem, given)?;
        }
        Opening::Full | Opening::Turned(_) => out.push(b'\n')?,
    }
    Ok(())
}

/// What is told of the answer.
pub fn told(alloc: Global, problem: &Problem, answer: &Answer) -> Result<Vec<u8>, AllocError>
    requires { IsCheckedOf problem.now answer.now }
    ensures { IfOk result (λ v. IsCheckTold problem.now answer.now v.items) }
{
    match answer {
        Answer::Accepted(passed) => accepted_told(alloc, problem, passed),
        Answer::Refused(why) => log_refusal_told(alloc, problem, why),
    }
}

// What is told of an accepted log.
fn accepted_told(
    alloc: Global,
    problem: &Problem,
    passed: &PassedLog,
) -> Result<Vec<u8>, AllocError>
    requires { OpeningFits problem.now passed.now.opening }
    ensures { IfOk result (λ v. v.items ≡ told_lines problem.now
        (accepted_statements problem.now passed.now.opening passed.now.goal passed.now.named)) }
{
    let mut out = Vec::new(alloc);
    put_accepted_told(
        &mut out,
        problem,
        &passed.opening,
        passed.goal,
        passed.named.numbers(),
    )?;
    Ok(out)
}

/// The status of the answer.
pub fn status(answer: &Answer) -> u8
    ensures { result ≡ check_status answer.now }
{
    match answer {
        Answer::Accepted(_) => 0,
        Answer::Refused(_) => 5,
    }
}
