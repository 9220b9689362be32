// Logs without the given cells and the rules that they can do without.
ghost use Rattle.std.specs.Prelude.{IfOk};
ghost use Rattle.refutation_terms.specs.Log.{Fits, Passes};
ghost use Rattle.refutation_terms.specs.Strip.{NeedsEachCell, NeedsEachRule};
ghost use Rattle.rule_reducer.specs.Kept.{LosesCellsAndRules};
ghost use Rattle.rule_reducer.specs.Leaving.{IsRound};

use crate::cells::{cell_count, leave_cells};
use crate::reducing::reduce_passing;
use refutation_log::Log;
use rwsp_model::Problem;
use std::alloc::{AllocError, Global};

// Leaves out cells many at once: first those of all positions, then of halves, and so on down to two. Where few of many
// cells are needed, the log is judged some times for each of those and each halving.
fn thin_cells(alloc: Global, problem: &Problem, log: Log) -> Result<Log, AllocError>
    requires { Passes problem.now log }
    ensures passes { IfOk result (Passes problem.now) }
    ensures kept { IfOk result (LosesCellsAndRules log) }
{
    let mut left = log;
    let mut size = problem.cells();
    while size > 1 {
        left = leave_cells(alloc, problem, left, size)?;
        size /= 2;
    }
    Ok(left)
}

// One round over the cells, each by itself, and then over the rules.
fn reduce_once(alloc: Global, problem: &Problem, log: Log) -> Result<Log, AllocError>
    requires { Passes problem.now log }
    ensures kept { IfOk result (LosesCellsAndRules log) }
    ensures round { IfOk result (IsRound problem.now log) }
{
    let left = leave_cells(alloc, problem, log, 1)?;
    let reduced = reduce_passing(alloc, problem, left)?;
    Ok(reduced)
}

// Rounds until one leaves nothing out, which shows that each cell and each rule is needed.
fn reduce_by_rounds(alloc: Global, problem: &Problem, log: Log) -> Result<Log, AllocError>
    requires { Passes problem.now log }
    ensures passes { IfOk result (Passes problem.now) }
    ensures kept { IfOk result (LosesCellsAndRules log) }
    ensures cells { IfOk result (NeedsEachCell problem.now) }
    ensures rules { IfOk result (NeedsEachRule problem.now) }
{
    let mut left = log;
    loop {
        let cells = cell_count(left.opening());
        let rules = left.named().len();
        left = reduce_once(alloc, problem, left)?;
        if cell_count(left.opening()) == cells && left.named().len() == rules {
            return Ok(left);
        }
    }
}

/// A log that passes, without given cells and rules that it can do without: it needs each that is left. Cells are left
/// out many at once, and then one by one, in rounds over the cells and the rules (the deletion filter of J. Chinneck
/// and E. Dravnieks, 1991).
pub fn reduce_fill(alloc: Global, problem: &Problem, log: Log) -> Result<Log, AllocError>
    requires { Passes problem.now log }
    ensures passes { IfOk result (Passes problem.now) }
    ensures fits { IfOk result (Fits problem.now) }
    ensures kept { IfOk result (LosesCellsAndRules log) }
    ensures cells { IfOk result (NeedsEachCell problem.now) }
    ensures rules { IfOk result (NeedsEachRule problem.now) }
{
    let thinned = thin_cells(alloc, problem, log)?;
    let reduced = reduce_by_rounds(alloc, problem, thinned)?;
    Ok(reduced)
}
