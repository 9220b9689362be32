// Logs without the rules that they can do without.
ghost use Rattle.std.specs.Prelude.{IfOk, OnOk};
ghost use Rattle.rwsp_model.specs.Refusals.{MatchAnswer};
ghost use Rattle.refutation_terms.specs.Log.{Fits, Passes};
ghost use Rattle.refutation_terms.specs.LogText.{log_text};
ghost use Rattle.refutation_terms.specs.Strip.{IsReduced, NeedsEachRule};
ghost use Rattle.refutation_terms.specs.Verdict.{kind_of_log, IsRefused};
ghost use Rattle.refutation_log.specs.Needs.{NeedsTogether};
ghost use Rattle.rule_reducer.specs.Citing.{AreCited};
ghost use Rattle.rule_reducer.specs.Kept.{KeepsAllButRules};

use crate::citations::{Citations, citations_of};
use crate::descent::{LastRefusal, descend};
use crate::shrinking_log::ShrinkingLog;
use refutation_checker::check_log;
use refutation_log::Log;
use refutation_terms::LogRefusal;
use rwsp_model::{Fail, Problem};
use std::alloc::{AllocError, Global};

// The descents themselves, with what the log cites at the start.
fn descend_all(
    alloc: Global,
    problem: &Problem,
    log: &mut ShrinkingLog,
    cited: &Citations,
) -> Result<(), AllocError>
    requires passes { Passes problem.now log.old }
    requires cited { AreCited problem.now log.old cited.now.for_good cited.now.in_lists }
    ensures reduced { OnOk result (IsReduced problem.now log.old log.new) }
    ensures passes { OnOk result (Passes problem.now log.new) }
{
    let mut last = LastRefusal { place: 0 };
    loop {
        let named = log.named().len();
        descend(alloc, problem, log, cited, &mut last)?;
        if log.named().len() == named {
            return Ok(());
        }
    }
}

/// What repeated descents leave of a log that passes, each of which drops rules from the highest number down wherever
/// the log then still passes: a log that needs each rule that it names.
///
/// A strip leaves the domains at each line as they are. So a rule that no line cites is dropped, and one that the turn
/// or a leaf that isn't one of words cites is kept, without judging anything; for each other rule the leaves of words
/// that list it are judged without it, up to the first that doesn't hold. The log loses its rules in place, so beside
/// it there is memory for a line at a time.
pub fn reduce_passing(alloc: Global, problem: &Problem, log: Log) -> Result<Log, AllocError>
    requires { Passes problem.now log }
    ensures reduced { IfOk result (IsReduced problem.now log) }
    ensures passes { IfOk result (Passes problem.now) }
    ensures fits { IfOk result (Fits problem.now) }
    ensures kept { IfOk result (KeepsAllButRules log) }
    ensures needed { IfOk result (NeedsEachRule problem.now) }
    ensures together { IfOk result (NeedsTogether problem.now) }
{
    let mut reduced = ShrinkingLog::of(log);
    let cited = citations_of(alloc, problem, &reduced)?;
    descend_all(alloc, problem, &mut reduced, &cited)?;
    Ok(reduced.into_log())
}

/// The same of a log that may not pass, which is then refused with the cause that checking its text gives.
pub fn reduce(alloc: Global, problem: &Problem, log: Log) -> Result<Log, Fail<LogRefusal>>
    requires { Fits problem.now log }
    ensures reduced { MatchAnswer result
        (λ g. IsReduced problem.now log g)
        (IsRefused problem.now (kind_of_log log) (log_text problem.now log)) }
    ensures accepted { IfOk result (λ g. Passes problem.now log) }
    ensures passes { IfOk result (Passes problem.now) }
    ensures fits { IfOk result (Fits problem.now) }
    ensures kept { IfOk result (KeepsAllButRules log) }
    ensures needed { IfOk result (NeedsEachRule problem.now) }
    ensures together { IfOk result (NeedsTogether problem.now) }
{
    if let Err(fail) = check_log(alloc, problem, &log) {
        return Err(fail);
    }
    match reduce_passing(alloc, problem, log) {
        Ok(reduced) => Ok(reduced),
        Err(_) => Err(Fail::Memory),
    }
}
