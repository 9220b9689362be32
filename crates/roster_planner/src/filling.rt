// A roster that holds given cells, or a refutation.
ghost use Rattle.std.specs.Prelude.{◌≤◌, IfOk};
ghost use Rattle.refutation_terms.specs.declared.lines.Opening.TheVariants.{Given};
ghost use Rattle.refutation_terms.specs.GivenCells.{AreGivenIn};
ghost use Rattle.refutation_log.specs.Filled.{IsCountedFirst, IsFilledWith};
ghost use Rattle.roster_planner.specs.FoundFrom.{IsFoundFrom};

use crate::counted::counted_fill;
use crate::planning::{First, search_plan};
use clean_words::Gate;
use refutation_log::Found;
use refutation_terms::{GivenCells, Opening};
use rule_reducer::reduce_fill;
use rwsp_model::Problem;
use rwsp_terms::limits::GREATEST_BUDGET;
use std::alloc::{AllocError, Global};
use std::thread::Threads;

/// A roster that meets every rule and holds the given cells, or a log of why there is none, within the budget, which
/// needs each cell and each rule that it names; or a sharp one that has spent the budget and names all cells. Blocks
/// are counted first: where a leaf of blocks holds, it is the whole log, and names no cell. Else the search is that of
/// a plan with the given cells in place of a turn.
pub fn fill<R: Threads + Sync, G: Gate>(
    rt: &R,
    alloc: Global,
    problem: &Problem,
    given: &GivenCells,
    budget: u32,
    gate: &G,
) -> Result<Found, AllocError>
    requires budget { (1 ≤ budget) × (budget ≤ GREATEST_BUDGET) }
    requires given { AreGivenIn problem.now given.now }
    ensures filled { IfOk result (IsFilledWith problem.now given.now budget) }
    ensures counted { IfOk result (IsCountedFirst problem.now) }
{
    match counted_fill(alloc, problem)? {
        Some(log) => Ok(Found::NoRoster(log)),
        None => fill_by_cases(rt, alloc, problem, given, budget, gate),
    }
}

// What a search finds, whose log is then reduced where it passes.
fn fill_by_cases<R: Threads + Sync, G: Gate>(
    rt: &R,
    alloc: Global,
    problem: &Problem,
    given: &GivenCells,
    budget: u32,
    gate: &G,
) -> Result<Found, AllocError>
    requires budget { (1 ≤ budget) × (budget ≤ GREATEST_BUDGET) }
    requires given { AreGivenIn problem.now given.now }
    ensures { IfOk result (IsFilledWith problem.now given.now budget) }
{
    match searched(rt, alloc, problem, given, budget, gate)? {
        Found::NoRoster(log) => Ok(Found::NoRoster(reduce_fill(alloc, problem, log)?)),
        found => Ok(found),
    }
}

// What a search finds: its log names all the cells, needed or not.
fn searched<R: Threads + Sync, G: Gate>(
    rt: &R,
    alloc: Global,
    problem: &Problem,
    given: &GivenCells,
    budget: u32,
    gate: &G,
) -> Result<Found, AllocError>
    requires budget { (1 ≤ budget) × (budget ≤ GREATEST_BUDGET) }
    requires given { AreGivenIn problem.now given.now }
    ensures { IfOk result (IsFoundFrom problem.now (Given given.now) budget) }
{
    let opening = Opening::Given(given.copy()?);
    let first = First::Rosters(0);
    let found = search_plan(rt, alloc, problem, &opening, budget, gate, first);
    drop(opening);
    found
}
