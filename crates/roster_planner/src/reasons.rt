// The reasons by which the search of a plan closes cases.
ghost use Rattle.std.specs.Prelude.{◌≡◌, IfOk, Ok};
ghost use Rattle.refutation_terms.specs.Log.{OpeningFits};
ghost use Rattle.domain_store.specs.Cycles.{AreShortRules};
ghost use Rattle.roster_planner.specs.Reasons.{AreReasons};

use crate::{CaseReasons, case_reasons};
use clean_words::{Automaton, Gate};
use domain_store::{Pair, Propagator, Walk};
use propagators::RootBounds;
use refutation_terms::Opening;
use std::alloc::{AllocError, Global};
use std::thread::Threads;

// The workers among whom the plain bounds are shared out.
const WORKERS: u32 = rwsp_terms::limits::USUAL_WORKERS;

/// The reasons of cases, and bounds at the top.
pub type Reasons<'a> = Pair<CaseReasons<'a>, RootBounds<'a>>;

/// The reasons of a plan of the automaton's problem, whose search begins with the opening. The workers pass the gate.
pub fn reasons_of<'a, R: Threads + Sync, G: Gate>(
    rt: &R,
    alloc: Global,
    automaton: &'a Automaton,
    opening: &Opening,
    gate: &G,
) -> Result<Reasons<'a>, AllocError>
    requires short { AreShortRules automaton.now.problem automaton.now.rules }
    requires opening { OpeningFits automaton.now.problem opening.now }
    ensures serves { IfOk result (λ r. ⟦<Reasons<'a> as Propagator>⟧.serves r automaton.now.problem) }
    ensures reasons { IfOk result (λ r. AreReasons automaton.now.problem opening.now
        (⟦<Reasons<'a> as Propagator>⟧.leaves r) (⟦<Reasons<'a> as Propagator>⟧.spent r)) }
{
    let problem = automaton.problem();
    problem.prove_limits();
    let walk = Walk::new(alloc, problem, opening)?;
    let doms = walk.domains();
    let bounds = RootBounds::new(rt, alloc, automaton, doms, WORKERS, gate);
    let cases = case_reasons(alloc, automaton, doms);
    // No value of these large types is dropped in this body, which keeps its proof small.
    drop(walk);
    let (cases, bounds) = both(cases, bounds)?;
    Ok(Pair::new(cases, bounds))
}

// Both values, where both were made.
fn both<A: Drop, B: Drop>(
    first: Result<A, AllocError>,
    second: Result<B, AllocError>,
) -> Result<(A, B), AllocError>
    ensures { IfOk result (λ pair. (first ≡ Ok pair.0) × (second ≡ Ok pair.1)) }
{
    let one = first?;
    let other = second?;
    Ok((one, other))
}
