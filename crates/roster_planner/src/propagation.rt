// Domains behind propagation, for what looks for rosters by other means.
ghost use Rattle.std.specs.Prelude.{IfOk};
ghost use Rattle.std.specs.Option.{IfSome};
ghost use Rattle.rwsp_terms.specs.Instance.{Instance};
ghost use Rattle.refutation_terms.specs.Log.{OpeningFits};
ghost use Rattle.domain_store.specs.Cycles.{AreShortRules};
ghost use Rattle.domain_store.specs.Store.{BelongsTo};

use crate::case_reasons;
use clean_words::Automaton;
use domain_store::{Domains, Look, Propagator, Walk};
use refutation_terms::Opening;
use rwsp_model::Problem;
use std::alloc::{AllocError, Global};

/// The domains within which a roster is looked for by other means. Behind given cells all is taken away that windows,
/// days and the words of two turns see to be spent; None where a leaf of theirs closes what is left, so that no roster
/// holds the cells. Else the domains are full: a turn is no rule, and a roster that is found need not be turned.
pub fn domains_behind(
    alloc: Global,
    automaton: &Automaton,
    opening: &Opening,
) -> Result<Option<Domains>, AllocError>
    requires short { AreShortRules automaton.now.problem automaton.now.rules }
    requires opening { OpeningFits automaton.now.problem opening.now }
    ensures { IfOk result (λ doms. IfSome doms (BelongsTo automaton.now.problem)) }
{
    let problem = automaton.problem();
    match opening {
        Opening::Given(_) => {
            let mut doms = opening_domains(alloc, problem, opening)?;
            if narrow(alloc, automaton, &mut doms)? {
                Ok(Some(doms))
            } else {
                Ok(None)
            }
        }
        Opening::Full | Opening::Turned(_) => Ok(Some(Domains::new(alloc, problem)?)),
    }
}

// The domains before the first line of a log with this opening.
fn opening_domains(
    alloc: Global,
    problem: &Problem,
    opening: &Opening,
) -> Result<Domains, AllocError>
    requires { OpeningFits problem.now opening.now }
    ensures { IfOk result (BelongsTo problem.now) }
{
    let walk = Walk::new(alloc, problem, opening)?;
    let doms = walk.domains().copy()?;
    drop(walk);
    Ok(doms)
}

// Takes away what is spent. Whether no leaf closes what is left.
fn narrow(alloc: Global, automaton: &Automaton, doms: &mut Domains) -> Result<bool, AllocError>
    requires short { AreShortRules automaton.now.problem automaton.now.rules }
    requires belongs { BelongsTo automaton.now.problem doms.old }
    ensures { BelongsTo automaton.now.problem doms.new }
{
    let mut reasons = case_reasons(alloc, automaton, doms)?;
    let is_open = take_all_spent(alloc, automaton.problem(), &mut reasons, doms);
    drop(reasons);
    is_open
}

// Takes away a symbol that the propagator sees to be spent, as long as there is one. Whether it sees no leaf then. Each
// symbol is taken away once at most.
fn take_all_spent<A: Propagator>(
    alloc: Global,
    problem: &Problem,
    propagator: &mut A,
    doms: &mut Domains,
) -> Result<bool, AllocError>
    requires serves { A.serves propagator.old problem.now }
    requires belongs { BelongsTo problem.now doms.old }
    ensures { BelongsTo problem.now doms.new }
{
    problem.prove_limits();
    propagator.undone(doms);
    for _ in 0..problem.cells() * u32::from(problem.shifts()) + 1 {
        if let Some(is_open) = take_spent(alloc, propagator, doms)? {
            return Ok(is_open);
        }
    }
    Ok(true)
}

// Takes a spent symbol away where the propagator sees one, and else says whether it sees no leaf.
fn take_spent<A: Propagator>(
    alloc: Global,
    propagator: &mut A,
    doms: &mut Domains,
) -> Result<Option<bool>, AllocError>
    requires problem { (P : Instance) × A.serves propagator.old P × BelongsTo P doms.old }
    requires tracked { A.tracks propagator.old doms.old }
    ensures serves { (P : Instance) → A.serves propagator.old P → A.serves propagator.new P }
    ensures belongs { (P : Instance) → BelongsTo P doms.old → BelongsTo P doms.new }
    ensures tracked { IfOk result (λ _. A.tracks propagator.new doms.new) }
{
    doms.prove_facts();
    let look = propagator.look(alloc, doms)?;
    match look {
        Look::Quiet => Ok(Some(true)),
        Look::Closed(_) => Ok(Some(false)),
        Look::Cut { p, x, line } => {
            drop(line);
            doms.remove(p, x);
            propagator.narrowed(doms, p);
            Ok(None)
        }
    }
}
