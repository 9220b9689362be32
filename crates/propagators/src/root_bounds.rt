// The bounds that are tried at the top of a search.
ghost use Rattle.std.specs.Prelude.{◌≡◌, ℕ, ◌<◌, ◌≤◌, ◌↔◌, length, slice_get, Option, Some, None, IfOk, IsTrue};
ghost use Rattle.rwsp_terms.specs.declared.data.Symbol.{Symbol};
ghost use Rattle.rwsp_terms.specs.Instance.{cells};
ghost use Rattle.refutation_terms.specs.declared.lines.Line.{Line};
ghost use Rattle.rwsp_terms.specs.declared.limits.TheConstants.{MOST_WORKERS};
ghost use Rattle.rwsp_terms.specs.Weights.{AreWeights};
ghost use Rattle.refutation_terms.specs.Word.{AreSame};
ghost use Rattle.refutation_terms.specs.Sharp.{plain_bounds};
ghost use Rattle.domain_store.specs.Store.{Store, BelongsTo, has_domain};
ghost use Rattle.domain_store.specs.Cycles.{AreShortRules};
ghost use Rattle.propagators.specs.TopBounds.{IsStartBound, IsTopAnswer, IsTopWatch, IsBoundLook};

use clean_words::{Automaton, Gate, first_plain, plain_bounds, search_weights};
use domain_store::{Domains, Look, Propagator};
use refutation_terms::{Leaf, Line, WordClaim};
use rwsp_model::Problem;
use rwsp_terms::Weights;
use std::alloc::{AllocError, Global};
use std::marker::Model;
use std::thread::Threads;

// The rounds of the search for weights.
const ROUNDS: u32 = rwsp_terms::limits::SEARCHED_ROUNDS;

/// Closes the domains that it was made with where a bound of one turn from position 0 on holds there: a plain bound,
/// or one of the first 32 searched weights. It closes no others, and takes no symbol away.
///
/// All bounds are tried when it is made, so a look only compares domains, and does so only where a bound holds.
#[derive(Drop)]
pub struct RootBounds<'a> {
    automaton: &'a Automaton,
    start: Domains,
    // those of a bound that holds
    weights: Option<Weights>,
}

impl<'a> Model for RootBounds<'a> {
    ghost use Rattle.propagators.specs.TopBounds.{TopWatch};

    ghost Value = { TopWatch };

    ghost use Rattle.propagators.specs.TopBounds.{IsTopWatch};

    ghost view = { λ w. record {
      problem = w.automaton.now.problem;
      start = w.start;
      rules = w.automaton.now.rules;
      weights = w.weights;
    } };

    ghost invariant = { λ w. IsTopWatch
        (record {
          problem = w.automaton.now.problem;
          start = w.start;
          rules = w.automaton.now.rules;
          weights = w.weights;
        }) };
}

impl<'a> RootBounds<'a> {
    /// Tries the bounds under the domains, by the automaton of all short rules: the plain ones shared out among
    /// workers, who pass the gate, and where none holds the searched ones.
    pub fn new<R: Threads + Sync, G: Gate>(
        rt: &R,
        alloc: Global,
        automaton: &'a Automaton,
        doms: &Domains,
        workers: u32,
        gate: &G,
    ) -> Result<RootBounds<'a>, AllocError>
        requires short { AreShortRules automaton.now.problem automaton.now.rules }
        requires belongs { BelongsTo automaton.now.problem doms.now }
        requires workers { (1 ≤ workers) × (workers ≤ MOST_WORKERS) }
        ensures serves { IfOk result (λ b. ⟦<RootBounds<'a> as Propagator>⟧.serves b automaton.now.problem) }
        ensures tracks { IfOk result (λ b. (S : Store) → ⟦<RootBounds<'a> as Propagator>⟧.tracks b S) }
        ensures leaves { IfOk result (λ b. (S : Store) (line : Line)
            → ⟦<RootBounds<'a> as Propagator>⟧.leaves b S line ↔ IsStartBound automaton.now.problem doms.now S line) }
        ensures none_spent { IfOk result (λ b. (S : Store) (p : ℕ) (x : Symbol)
            → ⟦<RootBounds<'a> as Propagator>⟧.spent b S p x → ⊥) }
    {
        let weights = holding_weights(rt, alloc, automaton, doms, workers, gate)?;
        let start = doms.copy()?;
        Ok(RootBounds {
            automaton,
            start,
            weights,
        })
    }

    // What holds of each.
    fn prove_facts(&self)
        ensures { IsTopWatch self.now }
    {
        let _ = &self.weights;
    }

    // The bound that holds, where the domains are those of the start.
    fn closing(&self, doms: &Domains) -> Result<Option<Line>, AllocError>
        requires { BelongsTo self.now.problem doms.now }
        ensures { IfOk result (IsBoundLook self.now.problem self.now.start doms.now) }
    {
        self.prove_facts();
        let problem = self.automaton.problem();
        problem.prove_limits();
        let Some(weights) = &self.weights else {
            return Ok(None);
        };
        if !are_same(problem, &self.start, doms) {
            return Ok(None);
        }
        let rules = self.automaton.rules().copy()?;
        let weights = weights.copy()?;
        Ok(Some(Line::Closing(Leaf::Words {
            p: 0,
            rules,
            claim: WordClaim::Light {
                turns: 1,
                weights,
                reward: 0,
            },
        })))
    }
}

impl<'a> Propagator for RootBounds<'a> {
    ghost serves = { λ w P. w.problem ≡ P };

    ghost tracks = { λ w S. Unit {0} };

    ghost leaves = { λ w S line. IsStartBound w.problem w.start S line };

    ghost spent = { λ w S p x. ⊥ };

    fn prove_spent(&self) {}

    fn look(&mut self, _alloc: Global, doms: &Domains) -> Result<Look, AllocError> {
        match self.closing(doms)? {
            Some(line) => Ok(Look::Closed(line)),
            None => Ok(Look::Quiet),
        }
    }

    fn narrowed(&mut self, _doms: &Domains, _p: u32) {}

    fn undone(&mut self, _doms: &Domains) {}
}

// The weights of a bound that holds with the rules of the automaton; None exactly where none of them holds.
fn holding_weights<R: Threads + Sync, G: Gate>(
    rt: &R,
    alloc: Global,
    automaton: &Automaton,
    doms: &Domains,
    workers: u32,
    gate: &G,
) -> Result<Option<Weights>, AllocError>
    requires belongs { BelongsTo automaton.now.problem doms.now }
    requires workers { (1 ≤ workers) × (workers ≤ MOST_WORKERS) }
    ensures { IfOk result (IsTopAnswer automaton.now.problem (has_domain doms.now) automaton.now.rules) }
{
    match first_plain(rt, alloc, automaton, doms, workers, gate)? {
        Some(index) => Ok(Some(plain_bound(alloc, automaton.problem(), index)?)),
        None => search_weights(alloc, automaton, doms, ROUNDS),
    }
}

// The plain bound at the index.
fn plain_bound(alloc: Global, problem: &Problem, index: usize) -> Result<Weights, AllocError>
    requires { index < length (plain_bounds problem.now) }
    ensures bound { IfOk result (λ y. slice_get (plain_bounds problem.now) index ≡ Some y) }
    ensures weights { IfOk result AreWeights }
{
    let bounds = plain_bounds(alloc, problem)?;
    let weights = bounds[index].copy()?;
    weights.entries();
    Ok(weights)
}

// Whether the two leave the same symbols at each position. Takes a step for each position up to the first at which
// they differ.
fn are_same(problem: &Problem, start: &Domains, doms: &Domains) -> bool
    requires start { BelongsTo problem.now start.now }
    requires doms { BelongsTo problem.now doms.now }
    ensures { IsTrue result ↔ AreSame problem.now (has_domain doms.now) (has_domain start.now) }
{
    doms.prove_facts();
    start.prove_facts();
    for p in 0..problem.cells() {
        if !is_same_at(start, doms, p) {
            return false;
        }
    }
    true
}

// Whether the two leave the same symbols at the position.
fn is_same_at(start: &Domains, doms: &Domains, p: u32) -> bool
    requires start { p < length start.now.sets }
    requires doms { p < length doms.now.sets }
    ensures { IsTrue result ↔ ((x : ℕ) → has_domain doms.now p x ≡ has_domain start.now p x) }
{
    doms.prove_facts();
    start.prove_facts();
    start.set(p).is_same(doms.set(p))
}
