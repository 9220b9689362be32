// Two propagators as one.
ghost use Rattle.std.specs.Prelude.{◌≡◌, ℕ, ◌⊎◌, ◌↔◌, Ok, IfOk};
ghost use Rattle.rwsp_terms.specs.declared.data.Symbol.{Symbol};
ghost use Rattle.rwsp_terms.specs.Instance.{Instance};
ghost use Rattle.refutation_terms.specs.declared.lines.Line.{Line};
ghost use Rattle.domain_store.specs.Store.{Store};
ghost use Rattle.domain_store.specs.declared.look.Look.{Look};
ghost use Rattle.domain_store.specs.Looks.{joined};

use crate::{Domains, Look, Propagator};
use std::alloc::{AllocError, Global};

/// The leaves and the spent symbols of two propagators. The first is asked first.
#[derive(Drop)]
pub struct Pair<A, B> {
    first: A,
    second: B,
}

impl<A: Propagator, B: Propagator> Pair<A, B> {
    /// The two as one. Takes no memory.
    pub fn new(first: A, second: B) -> Pair<A, B>
        ensures serves { (P : Instance) → ⟦<Pair<A, B> as Propagator>⟧.serves result P
            ↔ (A.serves first P × B.serves second P) }
        ensures tracks { (S : Store) → ⟦<Pair<A, B> as Propagator>⟧.tracks result S
            ↔ (A.tracks first S × B.tracks second S) }
        ensures leaves { (S : Store) (line : Line) → ⟦<Pair<A, B> as Propagator>⟧.leaves result S line
            ↔ (A.leaves first S line ⊎ B.leaves second S line) }
        ensures spent { (S : Store) (p : ℕ) (x : Symbol) → ⟦<Pair<A, B> as Propagator>⟧.spent result S p x
            ↔ (A.spent first S p x ⊎ B.spent second S p x) }
    {
        Pair { first, second }
    }
}

impl<A: Propagator, B: Propagator> Propagator for Pair<A, B> {
    ghost serves = { λ w P. A.serves w.first P × B.serves w.second P };

    ghost tracks = { λ w S. A.tracks w.first S × B.tracks w.second S };

    ghost leaves = { λ w S line. A.leaves w.first S line ⊎ B.leaves w.second S line };

    ghost spent = { λ w S p x. A.spent w.first S p x ⊎ B.spent w.second S p x };

    fn prove_spent(&self) {
        self.first.prove_spent();
        self.second.prove_spent();
    }

    fn look(&mut self, alloc: Global, doms: &Domains) -> Result<Look, AllocError> {
        let first = self.first.look(alloc, doms)?;
        if let Look::Closed(_) = first {
            return Ok(first);
        }
        joined(first, self.second.look(alloc, doms))
    }

    fn narrowed(&mut self, doms: &Domains, p: u32) {
        self.first.narrowed(doms, p);
        self.second.narrowed(doms, p);
    }

    fn undone(&mut self, doms: &Domains) {
        self.first.undone(doms);
        self.second.undone(doms);
    }
}

// What two looks see together, where the second didn't fail.
fn joined(first: Look, second: Result<Look, AllocError>) -> Result<Look, AllocError>
    ensures { IfOk result (λ look. (other : Look) × (second ≡ Ok other) × (look ≡ joined first other)) }
{
    if let Look::Quiet = first {
        return second;
    }
    match second {
        Err(_) | Ok(Look::Closed(_)) => {
            drop(first);
            second
        }
        Ok(_) => {
            drop(second);
            Ok(first)
        }
    }
}
