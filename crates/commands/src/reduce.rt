// A log without the rules that it can do without.
ghost use Rattle.std.specs.Prelude.{◌≡◌, IfOk};
ghost use Rattle.refutation_terms.specs.Log.{Fits};
ghost use Rattle.refutation_terms.specs.LogText.{log_text};
ghost use Rattle.refutation_terms.specs.Verdict.{kind_of_log};
ghost use Rattle.refutation_terms.specs.declared.lines.LogRefusal.{LogRefusal as Why};
ghost use Rattle.refutation_log.specs.ReadLog.{IsUnread};
ghost use Rattle.plain_words.specs.Statements.{told_lines};
ghost use Rattle.plain_words.specs.LogTold.{log_statements};
ghost use Rattle.plain_words.specs.declared.reason.Rosters.TheVariants.{Every};
ghost use Rattle.commands.specs.Files.{IsWithinLimit};
ghost use Rattle.commands.specs.Reduce.{IsReduceTold, IsReduction, IsReductionOf, reduce_text, reduce_status};
ghost use Rattle.commands.specs.declared.second_file.SecondKind.TheVariants as Kinds;

use crate::log_refusal::{log_refusal_line, log_refusal_told};
use clean_words::Gate;
use plain_words::{Rosters, put_log_told};
use refutation_checker::{UncheckedLog, check_with};
use refutation_log::{Log, LogKind, LogRefusal, print_log, read_log};
use rule_reducer::reduce;
use rwsp_model::{Fail, Problem};
use rwsp_terms::limits::USUAL_WORKERS;
use std::alloc::{AllocError, Global};
use std::thread::Threads;

/// What is left of a log.
#[derive(Drop)]
pub enum Answer {
    /// The log without the rules that it can do without.
    Reduced(Log),
    /// It doesn't pass: its first line with a cause, and the lowest cause there.
    Refused(LogRefusal),
}

/// The answer of a reduction to the bytes of a log. Once they are read as a log, they are let go.
pub fn job<R: Threads + Sync, G: Gate>(
    rt: &R,
    alloc: Global,
    problem: &Problem,
    bytes: Vec<u8>,
    gate: &G,
) -> Result<Answer, AllocError>
    requires { IsWithinLimit Kinds.Log bytes.items }
    ensures says { IfOk result (IsReduction problem.now bytes.items) }
    ensures own { IfOk result (IsReductionOf problem.now) }
{
    match read_log(alloc, problem, LogKind::WithoutGoal, &bytes) {
        Ok(log) => {
            drop(bytes);
            reduced(alloc, problem, log)
        }
        Err(Fail::Refused(_)) => first_refusal(rt, alloc, problem, &bytes, gate),
        Err(Fail::Memory) => Err(AllocError),
    }
}

// The log, which has no goal and gives no cells, without the rules that it can do without.
fn reduced(alloc: Global, problem: &Problem, log: Log) -> Result<Answer, AllocError>
    requires kind { kind_of_log log ≡ LogKind.WithoutGoal }
    requires fits { Fits problem.now log }
    ensures says { IfOk result (IsReduction problem.now (log_text problem.now log)) }
    ensures own { IfOk result (IsReductionOf problem.now) }
{
    match reduce(alloc, problem, log) {
        Ok(log) => Ok(Answer::Reduced(log)),
        Err(Fail::Refused(why)) => Ok(Answer::Refused(why)),
        Err(Fail::Memory) => Err(AllocError),
    }
}

// Why bytes are refused that spell no log: a line before the first that isn't spelled may have a cause too.
fn first_refusal<R: Threads + Sync, G: Gate>(
    rt: &R,
    alloc: Global,
    problem: &Problem,
    bytes: &[u8],
    gate: &G,
) -> Result<Answer, AllocError>
    requires short { IsWithinLimit Kinds.Log bytes.now }
    requires unread { (why : Why) × IsUnread problem.now LogKind.WithoutGoal bytes.now why }
    ensures says { IfOk result (IsReduction problem.now bytes.now) }
    ensures own { IfOk result (IsReductionOf problem.now) }
{
    problem.prove_limits();
    let log = UncheckedLog {
        kind: LogKind::WithoutGoal,
        bytes,
    };
    match check_with(rt, alloc, problem, log, USUAL_WORKERS, gate) {
        Ok(_) => unreachable!(),
        Err(Fail::Refused(why)) => Ok(Answer::Refused(why)),
        Err(Fail::Memory) => Err(AllocError),
    }
}

/// The text of what is left, or the line of the refusal.
pub fn text(alloc: Global, problem: &Problem, answer: &Answer) -> Result<Vec<u8>, AllocError>
    requires { IsReductionOf problem.now answer.now }
    ensures { IfOk result (λ v. v.items ≡ reduce_text problem.now answer.now) }
{
    match answer {
        Answer::Reduced(log) => print_log(alloc, problem, log),
        Answer::Refused(why) => log_refusal_line(alloc, problem, why),
    }
}

/// What is told of the answer.
pub fn told(alloc: Global, problem: &Problem, answer: &Answer) -> Result<Vec<u8>, AllocError>
    requires { IsReductionOf problem.now answer.now }
    ensures { IfOk result (λ v. IsReduceTold problem.now answer.now v.items) }
{
    match answer {
        Answer::Reduced(log) => reduced_told(alloc, problem, log),
        Answer::Refused(why) => log_refusal_told(alloc, problem, why),
    }
}

// What is told of a log that is left.
fn reduced_told(alloc: Global, problem: &Problem, log: &Log) -> Result<Vec<u8>, AllocError>
    requires { Fits problem.now log.now }
    ensures { IfOk result (λ v.
        v.items ≡ told_lines problem.now (log_statements problem.now Every log.now)) }
{
    let mut out = Vec::new(alloc);
    put_log_told(&mut out, problem, Rosters::Every, log)?;
    Ok(out)
}

/// The status of the answer.
pub fn status(answer: &Answer) -> u8
    ensures { result ≡ reduce_status answer.now }
{
    match answer {
        Answer::Reduced(_) => 0,
        Answer::Refused(_) => 5,
    }
}
