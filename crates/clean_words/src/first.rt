// The first plain bound that holds, with the bounds shared out among workers.
ghost use Rattle.std.specs.Prelude.{◌≡◌, ℕ, ◌+◌, ◌-◌, ◌*◌, ◌/◌, ◌^◌, ◌<◌, ◌≤◌, length, IfOk};
ghost use Rattle.rwsp_terms.specs.declared.limits.TheConstants.{MOST_SHIFTS, MOST_WORKERS};
ghost use Rattle.refutation_terms.specs.Sharp.{HoldsAtTop, plain_bounds};
ghost use Rattle.domain_store.specs.Store.{has_domain, BelongsTo};
ghost use Rattle.clean_words.specs.First.{IsFirstHolding, first_answer};

use crate::Automaton;
use crate::gate::Gate;
use crate::plain::plain_bounds;
use crate::top::Top;
use domain_store::Domains;
use rwsp_terms::Weights;
use std::alloc::{AllocError, Global};
use std::thread;
use std::thread::Threads;

/// The index of the first plain bound that holds with the rules of the automaton, for one turn from position 0; none
/// exactly where none does. The bounds are cut into chunks of equal length, one for each worker, and each worker passes
/// the gate once.
pub fn first_plain<R: Threads + Sync, G: Gate>(
    rt: &R,
    alloc: Global,
    automaton: &Automaton,
    doms: &Domains,
    workers: u32,
    gate: &G,
) -> Result<Option<usize>, AllocError>
    requires belongs { BelongsTo automaton.now.problem doms.now }
    requires workers { (1 ≤ workers) × (workers ≤ MOST_WORKERS) }
    ensures { IfOk result
        (λ found. IsFirstHolding (HoldsAtTop automaton.now.problem (has_domain doms.now) automaton.now.rules) 0
        (plain_bounds automaton.now.problem) found) }
{
    let problem = automaton.problem();
    problem.prove_limits();
    let bounds = plain_bounds(alloc, problem)?;
    let top = Top {
        automaton,
        domains: doms,
    };
    let found = first_holding(rt, alloc, &top, &bounds, workers, gate);
    drop(bounds);
    found
}

// The index of the first of some bounds that holds at the top.
fn first_holding<R: Threads + Sync, G: Gate>(
    rt: &R,
    alloc: Global,
    top: &Top<'_>,
    bounds: &[Weights],
    workers: u32,
    gate: &G,
) -> Result<Option<usize>, AllocError>
    requires some { 0 < length bounds.now }
    requires few { length bounds.now ≤ 2 * (MOST_SHIFTS + 1) }
    requires workers { (1 ≤ workers) × (workers ≤ MOST_WORKERS) }
    ensures { let A = top.now.automaton.now in
        IfOk result (λ found. IsFirstHolding
        (HoldsAtTop A.problem (has_domain top.now.domains.now) A.rules) 0 bounds.now found) }
{
    let size = bounds.len().div_ceil(workers as usize);
    let answers = thread::map_chunks(
        rt,
        alloc,
        bounds,
        size,
        &|start: usize, chunk: &[Weights]| -> Result<Option<usize>, AllocError>
            requires { (0 < size) × (start + length chunk.now < 2 ^ 31) }
            ensures { IfOk result
                (λ found. IsFirstHolding (HoldsAtTop top.entry.now.automaton.now.problem
                (has_domain top.entry.now.domains.now) top.entry.now.automaton.now.rules)
                start chunk.entry.now found) }
        { first_of_chunk(alloc, top, gate, (start / size) as u32 + 1, start, chunk) },
    )?;
    first_answer(&answers)
}

// The first bound of a chunk that holds, by its index among all.
fn first_of_chunk<G: Gate>(
    alloc: Global,
    top: &Top<'_>,
    gate: &G,
    chunk: u32,
    start: usize,
    bounds: &[Weights],
) -> Result<Option<usize>, AllocError>
    requires few { start + length bounds.now < 2 ^ 31 }
    ensures { let A = top.now.automaton.now in
        IfOk result (λ found. IsFirstHolding
        (HoldsAtTop A.problem (has_domain top.now.domains.now) A.rules) start bounds.now found) }
{
    gate.enter(chunk);
    for (i, weights) in bounds.iter().enumerate() {
        if top.holds(alloc, weights)? {
            return Ok(Some(start + i));
        }
    }
    Ok(None)
}

// The first answer that isn't none.
fn first_answer(answers: &[Result<Option<usize>, AllocError>]) -> Result<Option<usize>, AllocError>
    ensures { result ≡ first_answer answers.now }
{
    for answer in answers {
        if !matches!(answer, Ok(None)) {
            return *answer;
        }
    }
    Ok(None)
}
