// The lines of a chunk, judged one after the other.
ghost use Rattle.std.specs.Prelude.{◌+◌, ◌^◌, ◌<◌, length};
ghost use Rattle.domain_store.specs.States.{IsWalkOf};
ghost use Rattle.refutation_checker.specs.Chunks.{IsJudgeable};
ghost use Rattle.refutation_checker.specs.ChunkVerdicts.{IsAnswerTo};

use crate::Chunk;
use crate::judge::{Judge, Judging};
use domain_store::Walk;
use refutation_log::LineReader;
use refutation_terms::LogRefusal;
use rwsp_model::Fail;
use std::alloc::Global;

/// Whether the tree is whole behind the lines of the chunk, where none of them is refused, or why its first line that
/// is refused is.
pub fn judge_chunk(alloc: Global, judging: &Judging, chunk: Chunk) -> Result<bool, Fail<LogRefusal>>
    requires { IsJudgeable judging.now.problem chunk }
    ensures { IsAnswerTo judging.now chunk.entry result }
{
    let mut walk = chunk.walk;
    let mut judge = Judge::new(judging);
    let judged = judge_lines(alloc, &mut judge, &mut walk, chunk.bytes, chunk.first);
    drop(judge);
    drop(walk);
    judged
}

// The same of lines behind the walk, the first of which has this number.
fn judge_lines(
    alloc: Global,
    judge: &mut Judge,
    walk: &mut Walk,
    bytes: &[u8],
    first: u32,
) -> Result<bool, Fail<LogRefusal>>
    requires state { IsWalkOf judge.old.problem walk.old }
    requires few { first + length bytes.now < 2 ^ 31 }
    ensures { IsAnswerTo judge.old (record { walk = walk.old; bytes = bytes.now; first = first }) result }
{
    let mut reader = LineReader::new(bytes);
    let mut number = first;
    while let Some(bytes) = reader.next() {
        match judge.read(alloc, walk, bytes, number) {
            Err(fail) => return Err(fail),
            Ok(line) => {
                drop(line);
                number += 1;
            }
        }
    }
    Ok(walk.is_whole())
}
