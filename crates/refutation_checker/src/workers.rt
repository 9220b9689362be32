// The lines of a log, judged by several workers.
ghost use Rattle.std.specs.Prelude.{◌≡◌, ◌≤◌, [], false};
ghost use Rattle.rwsp_terms.specs.declared.limits.TheConstants.{MOST_WORKERS};
ghost use Rattle.refutation_terms.specs.declared.lines.Opening.{Opening};
ghost use Rattle.refutation_checker.specs.Starts.{StandsBehind};
ghost use Rattle.refutation_checker.specs.Chunks.{IsJudgeable};
ghost use Rattle.refutation_checker.specs.ChunkVerdicts.{IsAnswerTo, IsJudged, joined_from};

use crate::chunk::judge_chunk;
use crate::judge::Judging;
use crate::{Chunk, chunks_for};
use clean_words::Gate;
use refutation_terms::LogRefusal;
use rwsp_model::Fail;
use std::alloc::Global;
use std::thread;
use std::thread::Threads;

/// What `judge_chunk` answers to all lines, which are cut into chunks of equal length: at most one for each worker, and
/// none where there is no line. The gate is passed once for each chunk, before its first line. One worker has all
/// lines, and they needn't be counted.
pub fn judge_by_workers<R: Threads + Sync, G: Gate>(
    rt: &R,
    alloc: Global,
    judging: &Judging,
    all: Chunk,
    workers: u32,
    gate: &G,
) -> Result<bool, Fail<LogRefusal>>
    requires start { IsJudgeable judging.now.problem all }
    requires part { all.walk.whole ≡ false }
    requires workers { (1 ≤ workers) × (workers ≤ MOST_WORKERS) }
    ensures { (o : Opening) → StandsBehind judging.now.problem judging.now.goal judging.now.counts o [] all.entry →
        IsJudged judging.now o [] all.entry.bytes result }
{
    if all.bytes.is_empty() {
        return Ok(false);
    }
    if workers == 1 {
        return judge_behind_gate(alloc, judging, gate, all);
    }
    let Ok(chunks) = chunks_for(alloc, judging.problem, judging.terms, all, workers) else {
        return Err(Fail::Memory);
    };
    let answers = thread::map_vec(
        rt,
        chunks,
        &|chunk: Chunk| -> Result<bool, Fail<LogRefusal>>
            requires { IsJudgeable judging.now.problem chunk }
            ensures { IsAnswerTo judging.entry.now chunk.entry result }
        { judge_behind_gate(alloc, judging, gate, chunk) },
    );
    match answers {
        Ok(answers) => joined(answers),
        Err(_) => Err(Fail::Memory),
    }
}

// What `judge_chunk` answers to a chunk, behind the gate.
fn judge_behind_gate<G: Gate>(
    alloc: Global,
    judging: &Judging,
    gate: &G,
    chunk: Chunk,
) -> Result<bool, Fail<LogRefusal>>
    requires { IsJudgeable judging.now.problem chunk }
    ensures { IsAnswerTo judging.now chunk.entry result }
{
    gate.enter(chunk.number);
    judge_chunk(alloc, judging, chunk)
}

// The first failure among answers, or else the last answer.
fn joined(answers: Vec<Result<bool, Fail<LogRefusal>>>) -> Result<bool, Fail<LogRefusal>>
    ensures { result ≡ joined_from false answers.items }
{
    let mut whole = false;
    for answer in answers {
        match answer {
            Ok(last) => whole = last,
            Err(fail) => return Err(fail),
        }
    }
    Ok(whole)
}
