// A log of one leaf, where counting blocks leaves no roster.
ghost use Rattle.std.specs.Prelude.{Bool, None, IfOk, MatchOption};
ghost use Rattle.std.specs.Option.{IfSome};
ghost use Rattle.rwsp_terms.specs.Instance.{Instance};
ghost use Rattle.refutation_terms.specs.BlocksLeaf.{IsFirstBlocks, NoBlocksHold};
ghost use Rattle.refutation_terms.specs.Log.{OpeningFits, IsAllowed, GoalFits, CountsFit};
ghost use Rattle.refutation_terms.specs.Tree.{opening as opening_domains};
ghost use Rattle.domain_store.specs.Store.{Store, BelongsTo, has_domain};
ghost use Rattle.refutation_log.specs.Filled.{IsCountedFill};
ghost use Rattle.refutation_log.specs.Planned.{NoPlainLeafHolds};
ghost use Rattle.roster_planner.specs.Counted.{IsCountedProof, IsPlainProof, IsPlainLeaf, IsPlainLook};

use crate::of_cases::plain_reasons;
use domain_store::{Domains, Look, Propagator, Walk, first_blocks};
use refutation_log::{Log, one_leaf_log};
use refutation_terms::{GivenCells, Leaf, Line, Opening, Terms};
use roster_search::gives_cells;
use rwsp_model::Problem;
use rwsp_terms::Symbol;
use std::alloc::{AllocError, Global};

/// The log with this opening, and this goal or none, whose tree is the first leaf of blocks, where one holds. Where a
/// window leaf or a day leaf holds before the first line, it is that one in place of it, and the log may not count.
pub fn counted_log(
    alloc: Global,
    problem: &Problem,
    opening: Opening,
    goal: Option<u32>,
) -> Result<Option<Log>, AllocError>
    requires opening { OpeningFits problem.now opening × IsAllowed problem.now opening }
    requires either { (counts : Bool) → CountsFit opening counts }
    requires goal { GoalFits problem.now opening goal }
    ensures { let P = problem.now in
        IfOk result (λ found. MatchOption found (NoBlocksHold P) (IsCountedProof P opening goal)) }
{
    match first_blocks(problem) {
        Some(x) => Ok(Some(log_of_blocks(alloc, problem, opening, goal, x)?)),
        None => Ok(None),
    }
}

/// The log with this opening whose tree is a window leaf or a day leaf that holds before the first line, where one
/// does.
pub fn log_at_once(
    alloc: Global,
    problem: &Problem,
    opening: &Opening,
) -> Result<Option<Log>, AllocError>
    requires { OpeningFits problem.now opening.now × IsAllowed problem.now opening.now }
    ensures { IfOk result (λ found. IfSome found (IsPlainProof problem.now opening.now None)) }
{
    match plain_leaf(alloc, problem, opening)? {
        Some(leaf) => Ok(Some(plain_log(alloc, problem, opening.copy()?, None, leaf)?)),
        None => Ok(None),
    }
}

/// The log that gives no cells, whose tree is the first leaf of blocks, where one holds: then there is no roster,
/// whatever cells are given.
pub fn counted_fill(alloc: Global, problem: &Problem) -> Result<Option<Log>, AllocError>
    ensures { let P = problem.now in
        IfOk result (λ found. MatchOption found (NoBlocksHold P) (IsCountedFill P)) }
{
    match first_blocks(problem) {
        Some(x) => Ok(Some(fill_of_blocks(alloc, problem, x)?)),
        None => Ok(None),
    }
}

// The same where the leaf of blocks of this symbol is the first that holds.
fn fill_of_blocks(alloc: Global, problem: &Problem, x: Symbol) -> Result<Log, AllocError>
    requires { IsFirstBlocks problem.now x }
    ensures { IfOk result (IsCountedFill problem.now) }
{
    let opening = Opening::Given(GivenCells::new(alloc));
    let terms = Terms {
        goal: None,
        counts: true,
    };
    one_leaf_log(alloc, problem, opening, terms, Leaf::Blocks { x })
}

// The log where the leaf of blocks of this symbol is the first that holds.
fn log_of_blocks(
    alloc: Global,
    problem: &Problem,
    opening: Opening,
    goal: Option<u32>,
    x: Symbol,
) -> Result<Log, AllocError>
    requires opening { OpeningFits problem.now opening × IsAllowed problem.now opening }
    requires either { (counts : Bool) → CountsFit opening counts }
    requires goal { GoalFits problem.now opening goal }
    requires blocks { IsFirstBlocks problem.now x }
    ensures { IfOk result (IsCountedProof problem.now opening goal) }
{
    match plain_leaf(alloc, problem, &opening)? {
        Some(leaf) => plain_log(alloc, problem, opening, goal, leaf),
        None => blocks_log(alloc, problem, opening, goal, x),
    }
}

// The log of this window leaf or day leaf.
fn plain_log(
    alloc: Global,
    problem: &Problem,
    opening: Opening,
    goal: Option<u32>,
    leaf: Leaf,
) -> Result<Log, AllocError>
    requires opening { OpeningFits problem.now opening × IsAllowed problem.now opening }
    requires goal { GoalFits problem.now opening goal }
    requires leaf { IsPlainLeaf problem.now (opening_domains problem.now opening) leaf }
    ensures { IfOk result (IsPlainProof problem.now opening goal) }
{
    let terms = Terms {
        goal,
        counts: gives_cells(&opening),
    };
    one_leaf_log(alloc, problem, opening, terms, leaf)
}

// The log of the leaf of blocks of the symbol.
fn blocks_log(
    alloc: Global,
    problem: &Problem,
    opening: Opening,
    goal: Option<u32>,
    x: Symbol,
) -> Result<Log, AllocError>
    requires opening { OpeningFits problem.now opening × IsAllowed problem.now opening }
    requires either { (counts : Bool) → CountsFit opening counts }
    requires goal { GoalFits problem.now opening goal }
    requires blocks { IsFirstBlocks problem.now x }
    requires no_plain { NoPlainLeafHolds problem.now (opening_domains problem.now opening) }
    ensures { IfOk result (IsCountedProof problem.now opening goal) }
{
    let terms = Terms { goal, counts: true };
    one_leaf_log(alloc, problem, opening, terms, Leaf::Blocks { x })
}

// A window leaf or a day leaf that holds before the first line, where there is one.
fn plain_leaf(
    alloc: Global,
    problem: &Problem,
    opening: &Opening,
) -> Result<Option<Leaf>, AllocError>
    requires { OpeningFits problem.now opening.now }
    ensures { let P = problem.now in let D = opening_domains P opening.now in
        IfOk result (λ found. MatchOption found (NoPlainLeafHolds P D) (IsPlainLeaf P D)) }
{
    problem.prove_limits();
    let walk = Walk::new(alloc, problem, opening)?;
    let look = plain_look(alloc, problem, walk.domains());
    drop(walk);
    let look = look?;
    Ok(closing_leaf(look))
}

// What is seen of windows and days under the domains.
fn plain_look(alloc: Global, problem: &Problem, doms: &Domains) -> Result<Look, AllocError>
    requires { BelongsTo problem.now doms.now }
    ensures { IfOk result (IsPlainLook problem.now doms.now) }
{
    let mut reasons = plain_reasons(alloc, problem, doms)?;
    let look = reasons.look(alloc, doms);
    drop(reasons);
    look
}

// The leaf that is seen, where there is one.
fn closing_leaf(look: Look) -> Option<Leaf>
    ensures { (P : Instance) (S : Store) → IsPlainLook P S look
        → MatchOption result (NoPlainLeafHolds P (has_domain S)) (IsPlainLeaf P (has_domain S)) }
{
    match look {
        Look::Closed(Line::Closing(leaf)) => Some(leaf),
        _ => None,
    }
}
