// The leaf of two turns round the cycle.
ghost use Rattle.std.specs.Prelude.{◌≡◌, ℕ, ◌↔◌, IfOk};
ghost use Rattle.rwsp_terms.specs.declared.data.Symbol.{Symbol};
ghost use Rattle.refutation_terms.specs.declared.lines.Line.{Line};
ghost use Rattle.domain_store.specs.Store.{Store, BelongsTo, has_domain};
ghost use Rattle.propagators.specs.Known.{KnowsDomains};
ghost use Rattle.domain_store.specs.Cycles.{AreShortRules, IsCycleLeaf, IsCycleSpent};
ghost use Rattle.domain_store.specs.Looks.{IsLook};
ghost use Rattle.propagators.specs.ShortCycles.{IsShortCycle};

use crate::{Cycle, first_unsupported};
use clean_words::Automaton;
use domain_store::{Domains, Look, Propagator};
use std::alloc::{AllocError, Global};
use std::marker::Model;

/// Closes where no word of two turns round the cycle is clean for the short rules, and takes away the symbols that no
/// such word has at their position (the regular constraint, kept domain consistent). There are two turns so that the
/// seam of the cycle lies within the words. It keeps which states of the rules' automaton the domains leave.
#[derive(Drop)]
pub struct CycleProp<'a> {
    cycle: Cycle<'a>,
}

impl<'a> Model for CycleProp<'a> {
    ghost use Rattle.propagators.specs.Known.{KnownCycle};

    ghost Value = { KnownCycle };

    ghost use Rattle.domain_store.specs.Cycles.{AreShortRules};

    ghost view = { λ c. c.cycle };

    ghost invariant = { λ c. AreShortRules c.cycle.problem c.cycle.rules };
}

impl<'a> CycleProp<'a> {
    /// Tracks the domains. Its one leaf is that of two turns from position 0 on, by all short rules.
    pub fn new(
        alloc: Global,
        automaton: &'a Automaton,
        doms: &Domains,
    ) -> Result<CycleProp<'a>, AllocError>
        requires belongs { BelongsTo automaton.now.problem doms.now }
        requires short { AreShortRules automaton.now.problem automaton.now.rules }
        ensures serves { IfOk result (λ c. ⟦<CycleProp<'a> as Propagator>⟧.serves c automaton.now.problem) }
        ensures tracks { IfOk result (λ c. ⟦<CycleProp<'a> as Propagator>⟧.tracks c doms.now) }
        ensures leaves { IfOk result (λ c. (S : Store) (line : Line)
            → ⟦<CycleProp<'a> as Propagator>⟧.leaves c S line ↔ IsCycleLeaf automaton.now.problem line) }
        ensures spent { IfOk result (λ c. (S : Store) (p : ℕ) (x : Symbol)
            → ⟦<CycleProp<'a> as Propagator>⟧.spent c S p x ↔ IsCycleSpent automaton.now.problem (has_domain S) p x) }
    {
        let cycle = Cycle::new(alloc, automaton, doms)?;
        Ok(CycleProp { cycle })
    }
}

impl<'a> Propagator for CycleProp<'a> {
    ghost serves = { λ c P. c.problem ≡ P };

    ghost tracks = { λ c S. KnowsDomains c S };

    ghost leaves = { λ c S line. IsCycleLeaf c.problem line };

    ghost spent = { λ c S p x. IsCycleSpent c.problem (has_domain S) p x };

    fn prove_spent(&self) {}

    fn look(&mut self, _alloc: Global, doms: &Domains) -> Result<Look, AllocError> {
        seen(&mut self.cycle, doms)
    }

    fn narrowed(&mut self, doms: &Domains, p: u32) {
        self.cycle.narrowed(doms, p);
    }

    fn undone(&mut self, doms: &Domains) {
        self.cycle.undo_to(doms);
    }
}

// What the words of two turns say.
fn seen(cycle: &mut Cycle<'_>, doms: &Domains) -> Result<Look, AllocError>
    requires { IsShortCycle cycle.old doms.now }
    ensures look { let P = cycle.old.problem in
        IfOk result (λ look. IsLook P (IsCycleLeaf P) (IsCycleSpent P (has_domain doms.now)) doms.now look) }
    ensures same { cycle.new ≡ cycle.old }
{
    cycle.problem().prove_limits();
    if cycle.is_dead() {
        return Ok(Look::Closed(cycle.dead_leaf()?));
    }
    match first_unsupported(cycle, doms) {
        Some((p, x)) => Ok(Look::Cut {
            p,
            x,
            line: cycle.dead_leaf()?,
        }),
        None => Ok(Look::Quiet),
    }
}
