// Where the chunks of a log's lines start, and the walk there.
//
// The lines in front of a chunk are passed without being read: it only counts which of them are splits, and so which
// splits are open at its start. These alone are read then. A line that isn't spelled is refused by its own chunk, and
// so the answers to later chunks, whose walks may be wrong, count for nothing.
ghost use Rattle.std.specs.Prelude.{◌≡◌, ◌≢◌, ◌+◌, ◌^◌, ◌<◌, ◌≤◌, ℕ, [], length, Option, None, Some, All, IfOk, IfSome, MatchOption, true, false};
ghost use Rattle.std.specs.Int.{div_ceil};
ghost use Rattle.rwsp_terms.specs.declared.data.Symbol.{Symbol as TheSymbol};
ghost use Rattle.refutation_terms.specs.declared.lines.Line.TheVariants.{Split};
ghost use Rattle.refutation_terms.specs.Tree.{is_idle};
ghost use Rattle.domain_store.specs.States.{IsWalkOf};
ghost use Rattle.refutation_checker.specs.Chunks.{IsCutOff, AreAllChunks, IsJudgeable, IsFew, line_count};
ghost use Rattle.refutation_checker.specs.UnreadSplits.{AreEntered, IsEntered, IsInto, ArePassed, IsBehind};

use crate::line_ends::{count_lines, lines_end};
use crate::text_chunk::Chunk;
use crate::unread_splits::{UnreadSplit, pass_line};
use domain_store::Walk;
use refutation_log::{LineReader, read_line};
use refutation_terms::{Line, Terms};
use rwsp_model::{Fail, Problem};
use rwsp_terms::Symbol;
use rwsp_terms::limits::{MOST_CELLS, MOST_SHIFTS};
use std::alloc::{AllocError, Global};

// The most splits that a walk can have open, as each takes a symbol from a domain.
const MOST_OPEN: usize = (MOST_CELLS * MOST_SHIFTS) as usize;

// The walk reads a split, if it isn't idle, and goes past its first side if that was passed. Whether it did.
fn enter_split(walk: &mut Walk, p: u32, x: Symbol, in_second: bool) -> Result<bool, AllocError>
    requires part { walk.old.whole ≡ false }
    requires position { p < length walk.old.store.sets }
    ensures part { IfOk result (λ entered. entered ≡ true → walk.new.whole ≡ false) }
    ensures entered { IfOk result (AreEntered p x in_second walk.old walk.new) }
{
    if walk.is_idle(p, x) {
        return Ok(false);
    }
    walk.read_split(p, x)?;
    if in_second {
        walk.read_leaf();
        return Ok(true);
    }
    Ok(true)
}

// The split that a line is.
fn split_of(line: &Line) -> Option<(u32, Symbol)>
    ensures { MatchOption result
        ((p : ℕ) (x : TheSymbol) → line.now ≡ Split p x → ⊥)
        (λ split. line.now ≡ Split split.0 split.1) }
{
    match line {
        Line::Split { p, x } => Some((*p, *x)),
        _ => None,
    }
}

// The walk reads the line of a split, if it is spelled, and goes past its first side if that was passed. Whether it
// did.
fn enter(
    alloc: Global,
    problem: &Problem,
    terms: Terms,
    walk: &mut Walk,
    split: &UnreadSplit,
) -> Result<bool, AllocError>
    requires state { IsWalkOf problem.now walk.old }
    requires part { walk.old.whole ≡ false }
    ensures part { IfOk result (λ entered. entered ≡ true → walk.new.whole ≡ false) }
    ensures state { IfOk result (λ entered. entered ≡ true →
        IsWalkOf problem.now walk.new) }
    ensures entered { IfOk result (IsEntered problem.now terms.goal terms.counts split.now walk.old walk.new) }
{
    problem.prove_limits();
    walk.domains().prove_facts();
    let line = match read_line(alloc, problem, terms, split.line) {
        Ok(line) => line,
        Err(Fail::Memory) => return Err(AllocError),
        Err(Fail::Refused(_)) => return Ok(false),
    };
    let found = split_of(&line);
    drop(line);
    match found {
        Some((p, x)) => enter_split(walk, p, x, split.in_second),
        None => Ok(false),
    }
}

// The walk that a walk becomes by the lines that lead into these splits. None where one of the splits isn't spelled, or
// is idle. Costs the reading of these lines.
fn walk_into(
    alloc: Global,
    problem: &Problem,
    terms: Terms,
    start: &Walk,
    splits: &[UnreadSplit],
) -> Result<Option<Walk>, AllocError>
    requires state { IsWalkOf problem.now start.now }
    requires part { start.now.whole ≡ false }
    ensures state { IfOk result (λ found. IfSome found (λ walk.
        IsWalkOf problem.now walk)) }
    ensures into { IfOk result (IsInto problem.now terms.goal terms.counts start.now splits.now) }
{
    let mut walk = start.copy()?;
    for split in splits {
        if !enter(alloc, problem, terms, &mut walk, split)? {
            return Ok(None);
        }
    }
    Ok(Some(walk))
}

// Whether the splits are so many that one of them is idle.
fn are_too_many(
    alloc: Global,
    problem: &Problem,
    terms: Terms,
    start: &Walk,
    splits: &[UnreadSplit],
) -> Result<bool, AllocError>
    requires state { IsWalkOf problem.now start.now }
    requires part { start.now.whole ≡ false }
    ensures { IfOk result (λ many. many ≡ true → IsInto problem.now terms.goal terms.counts start.now splits.now None) }
{
    if splits.len() <= MOST_OPEN {
        return Ok(false);
    }
    let found = walk_into(alloc, problem, terms, start, splits)?;
    Ok(found.is_none())
}

// Passes lines, and counts them. None where the line behind them isn't the first that is refused: the whole tree ends
// in them, or one is an idle split.
fn pass_lines<'a>(
    alloc: Global,
    problem: &Problem,
    terms: Terms,
    start: &Walk,
    splits: &mut Vec<UnreadSplit<'a>>,
    bytes: &'a [u8],
) -> Result<Option<u32>, AllocError>
    requires state { IsWalkOf problem.now start.now }
    requires part { start.now.whole ≡ false }
    requires few { length bytes.now < 2 ^ 31 }
    ensures few { IfOk result (λ passed. IfSome passed (λ count. count ≤ length bytes.now)) }
    ensures passed { IfOk result
        (ArePassed problem.now terms.goal terms.counts start.now splits.old.items splits.new.items bytes.now) }
{
    problem.prove_limits();
    let mut reader = LineReader::new(bytes);
    let mut count = 0;
    while let Some(line) = reader.next() {
        if !pass_line(splits, line)? {
            return Ok(None);
        }
        if are_too_many(alloc, problem, terms, start, splits)? {
            return Ok(None);
        }
        count += 1;
    }
    Ok(Some(count))
}

// Passes lines, and gives their number and the walk behind them. None where the line behind them isn't the first that
// is refused.
fn walk_behind<'a>(
    alloc: Global,
    problem: &Problem,
    terms: Terms,
    start: &Walk,
    splits: &mut Vec<UnreadSplit<'a>>,
    bytes: &'a [u8],
) -> Result<Option<(u32, Walk)>, AllocError>
    requires state { IsWalkOf problem.now start.now }
    requires part { start.now.whole ≡ false }
    requires few { length bytes.now < 2 ^ 31 }
    ensures few { IfOk result (λ found. IfSome found (λ next. next.0 ≤ length bytes.now)) }
    ensures state { IfOk result (λ found. IfSome found (λ next.
        IsWalkOf problem.now next.1)) }
    ensures behind { IfOk result
        (IsBehind problem.now terms.goal terms.counts start.now splits.old.items splits.new.items bytes.now) }
{
    let Some(count) = pass_lines(alloc, problem, terms, start, splits, bytes)? else {
        return Ok(None);
    };
    match walk_into(alloc, problem, terms, start, splits)? {
        Some(walk) => Ok(Some((count, walk))),
        None => Ok(None),
    }
}

// Cuts a chunk of `size` lines off the front, and gives what is left; None where no further chunk is needed, and then
// the chunk has all lines.
fn cut_off<'a>(
    problem: &Problem,
    terms: Terms,
    start: &Walk,
    splits: &mut Vec<UnreadSplit<'a>>,
    all: Chunk<'a>,
    size: usize,
) -> Result<(Chunk<'a>, Option<Chunk<'a>>), AllocError>
    requires state { IsWalkOf problem.now start.now }
    requires part { start.now.whole ≡ false }
    requires few { all.first + length all.bytes < 2 ^ 31 }
    requires some { all.bytes ≢ [] }
    requires size { 1 ≤ size }
    ensures { IfOk result
        (λ cut. IsCutOff problem.now terms.goal terms.counts size start.now splits.old.items splits.new.items
        all.entry cut.0 cut.1) }
{
    let bytes = all.bytes;
    let end = lines_end(bytes, size);
    if end == bytes.len() {
        return Ok((all, None));
    }
    let alloc = *splits.allocator();
    match walk_behind(alloc, problem, terms, start, splits, &bytes[..end])? {
        None => Ok((all, None)),
        Some((count, walk)) => {
            let (lines, below) = bytes.split_at(end);
            let rest = Chunk {
                number: all.number,
                walk,
                bytes: below,
                first: all.first + count,
            };
            let chunk = Chunk {
                number: all.number,
                walk: all.walk,
                bytes: lines,
                first: all.first,
            };
            Ok((chunk, Some(rest)))
        }
    }
}

// The chunk with this number in place of its own.
fn numbered(chunk: Chunk, number: u32) -> Chunk
    ensures { result ≡ chunk.entry }
{
    Chunk {
        number,
        walk: chunk.walk,
        bytes: chunk.bytes,
        first: chunk.first,
    }
}

// Chunks of `size` lines each. Where a line is seen to be refused, the chunk that holds it has all further lines, and
// is the last.
fn chunks_of<'a>(
    alloc: Global,
    problem: &Problem,
    terms: Terms,
    start: &Walk,
    all: Chunk<'a>,
    size: usize,
) -> Result<Vec<Chunk<'a>>, AllocError>
    requires begun { start.now ≡ all.walk }
    requires start { IsJudgeable problem.now all }
    requires part { all.walk.whole ≡ false }
    requires some { all.bytes ≢ [] }
    requires size { 1 ≤ size }
    ensures chunks { IfOk result (λ v. AreAllChunks problem.now terms.goal terms.counts size all.entry v.items) }
    ensures each { IfOk result (λ v. All (IsJudgeable problem.now) v.items) }
    ensures few { IfOk result (λ v. IsFew (length v.items) size all.entry.bytes) }
{
    let mut splits = Vec::new(alloc);
    let mut chunks = Vec::new(alloc);
    let mut rest = Some(all);
    while let Some(lines) = rest {
        let number = chunks.len() as u32 + 1;
        let (chunk, below) = cut_off(problem, terms, start, &mut splits, lines, size)?;
        chunks.push(numbered(chunk, number))?;
        rest = below;
    }
    Ok(chunks)
}

/// All lines below a header, cut into chunks of equal length, of which the last may be shorter: one for each worker at
/// most. Goes over the bytes three times, and reads no line but the splits that are open where a chunk starts.
pub fn chunks_for<'a>(
    alloc: Global,
    problem: &Problem,
    terms: Terms,
    all: Chunk<'a>,
    workers: u32,
) -> Result<Vec<Chunk<'a>>, AllocError>
    requires start { IsJudgeable problem.now all }
    requires part { all.walk.whole ≡ false }
    requires some { all.bytes ≢ [] }
    requires workers { 1 ≤ workers }
    ensures chunks { IfOk result (λ v.
        AreAllChunks problem.now terms.goal terms.counts (div_ceil (line_count all.entry.bytes) workers)
        all.entry v.items) }
    ensures each { IfOk result (λ v. All (IsJudgeable problem.now) v.items) }
    ensures few { IfOk result (λ v. length v.items ≤ workers) }
{
    let size = count_lines(all.bytes).div_ceil(workers as usize);
    let start = all.walk.copy()?;
    chunks_of(alloc, problem, terms, &start, all, size)
}
