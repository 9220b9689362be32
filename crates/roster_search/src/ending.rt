// The logs that a search ends with.
ghost use Rattle.std.specs.Prelude.{◌≡◌, ◌≤◌, ◌++◌, length, replicate, false, IfOk};
ghost use Rattle.refutation_terms.specs.declared.lines.Line.TheVariants.{Unfinished};
ghost use Rattle.refutation_terms.specs.Log.{IsAllowed};
ghost use Rattle.roster_search.specs.Founds.{gives_cells};
ghost use Rattle.roster_search.specs.Written.{IsProgress, IsEnded};

use crate::progress::Progress;
use refutation_log::{Found, Log};
use refutation_terms::{Line, Opening};
use rwsp_model::Problem;
use rwsp_terms::limits::GREATEST_BUDGET;
use std::alloc::AllocError;

/// The log of the lines, once they are a whole tree or the budget is spent. What is open then is left unfinished. No
/// line of a search counts blocks, so the log may count only where it gives cells, as each such log may.
pub fn end(problem: &Problem, progress: Progress) -> Result<Found, AllocError>
    requires written { IsProgress problem.now progress }
    requires allowed { IsAllowed problem.now progress.aim.opening }
    requires few { length progress.lines.items ≤ progress.aim.budget }
    requires budget { progress.aim.budget ≤ GREATEST_BUDGET }
    requires spent { progress.walk.whole ≡ false → progress.aim.budget ≤ length progress.lines.items }
    ensures { IfOk result (IsEnded problem.now progress.aim progress.lines.items) }
{
    let Progress {
        aim,
        walk,
        mut lines,
        named,
    } = progress;
    named.numbers();
    problem.prove_limits();
    let is_whole = walk.is_whole();
    let count = walk.open_count();
    drop(walk);
    let counts = gives_cells(&aim.opening);
    if is_whole {
        return Ok(Found::NoRoster(Log::new(named, aim.opening, aim.goal, counts, lines)));
    }
    leave_open(&mut lines, count)?;
    Ok(Found::Undecided(Log::new(named, aim.opening, aim.goal, counts, lines)))
}

/// Whether the opening gives cells: then the log of a search may count blocks.
pub fn gives_cells(opening: &Opening) -> bool
    ensures { result ≡ gives_cells opening.now }
{
    match opening {
        Opening::Given(_) => true,
        _ => false,
    }
}

// Writes `count` unfinished lines.
fn leave_open(lines: &mut Vec<Line>, count: usize) -> Result<(), AllocError>
    ensures { IfOk result (λ _. lines.new.items ≡ lines.old.items ++ replicate count Unfinished) }
{
    for _ in 0..count {
        lines.push(Line::Unfinished)?;
    }
    Ok(())
}
