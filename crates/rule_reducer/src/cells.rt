// Given cells that a log can do without.
ghost use Rattle.std.specs.Prelude.{◌≡◌, ◌≤◌, ◌<◌, IfOk, OnOk};
ghost use Rattle.rwsp_terms.specs.declared.limits.TheConstants.{MOST_CELLS};
ghost use Rattle.refutation_terms.specs.Log.{Passes};
ghost use Rattle.refutation_checker.specs.LogVerdicts.{judging_of, with_opening};
ghost use Rattle.rule_reducer.specs.Leaving.{is_outside, cells_outside, opening_outside, cell_count, IsPartLeft, AreCellsLeft, LosesCells};

use refutation_checker::{Judge, OpenedLog, judge_of, passes_by};
use refutation_log::Log;
use refutation_terms::{GivenCells, Opening};
use rwsp_model::Problem;
use std::alloc::{AllocError, Global};

// The positions from the one on and before the other.
#[derive(Clone, Copy)]
struct Part {
    from: u32,
    to: u32,
}

fn is_outside(part: Part, p: u32) -> bool
    ensures { result ≡ is_outside part.from part.to p }
{
    p < part.from || part.to <= p
}

// The cells that aren't in the part.
fn cells_outside(alloc: Global, given: &GivenCells, part: Part) -> Result<GivenCells, AllocError>
    ensures { IfOk result (λ rest. rest ≡ cells_outside part.from part.to given.now) }
{
    let mut rest = GivenCells::new(alloc);
    for cell in given.cells() {
        if is_outside(part, cell.p) {
            rest.put(*cell)?;
        }
    }
    Ok(rest)
}

// The opening without its cells in the part.
fn opening_outside(alloc: Global, opening: &Opening, part: Part) -> Result<Opening, AllocError>
    ensures { IfOk result (λ rest. rest ≡ opening_outside part.from part.to opening.now) }
{
    match opening {
        Opening::Given(given) => Ok(Opening::Given(cells_outside(alloc, given, part)?)),
        _ => opening.copy(),
    }
}

/// How many cells the opening gives.
pub fn cell_count(opening: &Opening) -> usize
    ensures { result ≡ cell_count opening.now }
{
    match opening {
        Opening::Given(given) => given.len(),
        _ => 0,
    }
}

// Leaves out the cells of the part if the log passes without them.
fn leave_part(
    alloc: Global,
    problem: &Problem,
    judge: &mut Judge<'_>,
    part: Part,
    opening: &mut Opening,
    log: &Log,
) -> Result<(), AllocError>
    requires judge { judge.old ≡ judging_of problem.now log.now }
    requires passes { Passes problem.now (with_opening opening.old log.now) }
    ensures same { judge.new ≡ judge.old }
    ensures left { OnOk result (IsPartLeft problem.now log.now part.from part.to opening.old opening.new) }
{
    let rest = opening_outside(alloc, opening, part)?;
    if cell_count(&rest) == cell_count(opening) {
        return Ok(());
    }
    let opened = OpenedLog {
        opening: &rest,
        log,
    };
    let judged = passes_by(alloc, problem, judge, &opened);
    drop(opened);
    let passes = judged?;
    if passes {
        *opening = rest;
        return Ok(());
    }
    Ok(())
}

// Leaves out the cells of each part of so many positions without which the log passes.
fn leave_parts(
    alloc: Global,
    problem: &Problem,
    judge: &mut Judge<'_>,
    size: u32,
    opening: &mut Opening,
    log: &Log,
) -> Result<(), AllocError>
    requires size { (1 ≤ size) × (size ≤ MOST_CELLS) }
    requires judge { judge.old ≡ judging_of problem.now log.now }
    requires passes { Passes problem.now (with_opening opening.old log.now) }
    ensures { OnOk result (AreCellsLeft problem.now log.now size opening.old opening.new) }
{
    let end = problem.cells();
    let mut from = 0;
    while from < end {
        let part = Part {
            from,
            to: from + size,
        };
        leave_part(alloc, problem, judge, part, opening, log)?;
        from += size;
    }
    Ok(())
}

// The log with this opening in place of its own.
fn with_opening(log: Log, opening: Opening) -> Log
    ensures { result ≡ with_opening opening log }
{
    let _tree = log.lines();
    let (named, _, goal, counts, lines) = log.into_parts();
    Log::new(named, opening, goal, counts, lines)
}

/// The log, which passes, without the cells of each part of so many positions without which it passes still. Each part
/// with a cell costs a look at the log's lines, up to the first that fails.
pub fn leave_cells(alloc: Global, problem: &Problem, log: Log, size: u32) -> Result<Log, AllocError>
    requires size { (1 ≤ size) × (size ≤ MOST_CELLS) }
    requires passes { Passes problem.now log }
    ensures { IfOk result (LosesCells problem.now size log) }
{
    let mut opening = log.opening().copy()?;
    let mut judge = judge_of(problem, &log);
    let left = leave_parts(alloc, problem, &mut judge, size, &mut opening, &log);
    drop(judge);
    left?;
    Ok(with_opening(log, opening))
}
