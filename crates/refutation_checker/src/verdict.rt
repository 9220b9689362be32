// The verdict on the text of a log.
ghost use Rattle.std.specs.Prelude.{◌≡◌, ℕ, ◌≤◌, List, length, [], IfOk, false};
ghost use Rattle.rwsp_terms.specs.Instance.{Instance};
ghost use Rattle.rwsp_terms.specs.declared.limits.TheConstants.{LONGEST_LOG, MOST_WORKERS};
ghost use Rattle.rwsp_model.specs.Refusals.{MatchAnswer};
ghost use Rattle.refutation_terms.specs.declared.lines.LogKind.{LogKind as TheKind};
ghost use Rattle.refutation_terms.specs.Log.{OpeningFits};
ghost use Rattle.refutation_terms.specs.Verdict.{IsRefused};
ghost use Rattle.refutation_log.specs.ReadLog.{HasLogsOf};
ghost use Rattle.refutation_checker.specs.Accepted.{IsPassedText};
ghost use Rattle.refutation_checker.specs.ChunkVerdicts.{IsJudged};
ghost use Rattle.refutation_checker.specs.Starts.{StandsBehind};
ghost use Rattle.refutation_checker.specs.Turns.{HasSoundHeader, judging_under};

use crate::Chunk;
use crate::chunk::judge_chunk;
use crate::header::judge_header;
use crate::judge::Judging;
use crate::workers::judge_by_workers;
use clean_words::Gate;
use domain_store::Walk;
use refutation_log::{Header, lines_of_header};
use refutation_terms::{LogKind, LogRefusal, Opening};
use rwsp_model::{Fail, Problem};
use rwsp_terms::RuleList;
use std::alloc::{AllocError, Global};
use std::thread::Threads;

/// A text that is said to be that of a log of this kind.
#[derive(Clone, Copy)]
pub struct UncheckedLog<'a> {
    pub kind: LogKind,
    pub bytes: &'a [u8],
}

/// What a log that passes shows: no roster meets these rules; or where it gives cells none that does holds them, and
/// where it has a goal none that does has as many free weekends.
#[derive(Drop)]
pub struct PassedLog {
    pub named: RuleList,
    pub opening: Opening,
    pub goal: Option<u32>,
}

/// The verdict on a text as a log of a kind: what it shows where it is the text of a log that passes, else the first
/// line with a cause to refuse it, and on that line the lowest cause. Logs with a goal are for weeks of seven days.
///
/// The lines below the header are cut into chunks of equal length, of which the last may be shorter: at most one for
/// each worker, and fewer where there are fewer lines. The gate is passed once for each chunk, before its first line;
/// chunks count from 1.
pub fn check_with<R: Threads + Sync, G: Gate>(
    rt: &R,
    alloc: Global,
    problem: &Problem,
    log: UncheckedLog<'_>,
    workers: u32,
    gate: &G,
) -> Result<PassedLog, Fail<LogRefusal>>
    requires kind { HasLogsOf problem.now log.kind }
    requires long { length log.bytes.now ≤ LONGEST_LOG }
    requires workers { (1 ≤ workers) × (workers ≤ MOST_WORKERS) }
    ensures { MatchAnswer result
        (IsPassedText problem.now log.entry.kind log.entry.bytes.now)
        (IsRefused problem.now log.entry.kind log.entry.bytes.now) }
{
    let header = match judge_header(alloc, problem, log.kind, log.bytes) {
        Ok(header) => header,
        Err(fail) => return Err(fail),
    };
    let Ok(lines) = lines_below(alloc, problem, &header) else {
        return Err(Fail::Memory);
    };
    let judging = Judging {
        problem,
        named: &header.named,
        terms: header.terms(),
    };
    let judged = judge_by_workers(rt, alloc, &judging, lines, workers, gate);
    drop(judging);
    verdict_of(header, judged)
}

/// The verdict on a log, worked out on one thread.
pub fn check(
    alloc: Global,
    problem: &Problem,
    kind: LogKind,
    bytes: &[u8],
) -> Result<PassedLog, Fail<LogRefusal>>
    requires kind { HasLogsOf problem.now kind }
    requires long { length bytes.now ≤ LONGEST_LOG }
    ensures { MatchAnswer result
        (IsPassedText problem.now kind bytes.now)
        (IsRefused problem.now kind bytes.now) }
{
    let header = match judge_header(alloc, problem, kind, bytes) {
        Ok(header) => header,
        Err(fail) => return Err(fail),
    };
    let Ok(lines) = lines_below(alloc, problem, &header) else {
        return Err(Fail::Memory);
    };
    let judging = Judging {
        problem,
        named: &header.named,
        terms: header.terms(),
    };
    let judged = judge_chunk(alloc, &judging, lines);
    drop(judging);
    verdict_of(header, judged)
}

// The verdict on a text that begins with the header, by what was found in the lines below it.
fn verdict_of(
    header: Header,
    judged: Result<bool, Fail<LogRefusal>>,
) -> Result<PassedLog, Fail<LogRefusal>>
    ensures { (P : Instance) (kind : TheKind) (text : List ℕ) → HasLogsOf P kind
        → HasSoundHeader P kind text header.entry
        → IsJudged (judging_under P header.entry) header.entry.opening [] header.entry.body.now judged
        → MatchAnswer result (IsPassedText P kind text) (IsRefused P kind text) }
{
    match judged {
        Ok(true) => Ok(PassedLog {
            named: header.named,
            opening: header.opening,
            goal: header.goal,
        }),
        Ok(false) => Err(Fail::Refused(LogRefusal::Ends)),
        Err(fail) => Err(fail),
    }
}

// All lines below a header.
fn lines_below<'a>(
    alloc: Global,
    problem: &Problem,
    header: &Header<'a>,
) -> Result<Chunk<'a>, AllocError>
    requires fits { OpeningFits problem.now header.now.opening }
    ensures start { IfOk result (λ lines. StandsBehind problem.now header.now.goal header.now.counts
        header.now.opening [] lines) }
    ensures part { IfOk result (λ lines. lines.walk.whole ≡ false) }
    ensures bytes { IfOk result (λ lines. lines.bytes ≡ header.now.body.now) }
    ensures first { IfOk result (λ lines. lines.first ≤ 4) }
{
    let walk = Walk::new(alloc, problem, &header.opening)?;
    Ok(Chunk {
        number: 1,
        walk,
        bytes: header.body,
        first: lines_of_header(&header.opening, header.terms()) + 1,
    })
}
