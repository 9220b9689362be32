// The one view that a search has of its reasons.
ghost use Rattle.std.specs.Prelude.{ℕ, ◌<◌, ◌↔◌, length, IfOk};
ghost use Rattle.rwsp_terms.specs.declared.data.Symbol.{Symbol};
ghost use Rattle.rwsp_terms.specs.Instance.{Instance};
ghost use Rattle.refutation_terms.specs.declared.lines.Line.{Line};
ghost use Rattle.domain_store.specs.Store.{Store, BelongsTo};
ghost use Rattle.domain_store.specs.Looks.{IsLook, IsNarrowedAt, IsSame, AreSpentBesideAnother};

use crate::{Domains, Look};
use std::alloc::{AllocError, Global};

/// Sees whether domains are closed by a leaf, and which symbols are spent: those that a leaf closes once they are
/// alone.
///
/// It may keep what it knows of the domains that it tracks; a search tells it of each change.
pub trait Propagator {
    // it was made for this problem
    ghost serves: { Self → Instance → Type 0 };

    // it tracks these domains
    ghost tracks: { Self → Store → Type 0 };

    // its leaves under these domains
    ghost leaves: { Self → Store → Line → Type 0 };

    // the symbols that are spent for it under these domains, by position
    ghost spent: { Self → Store → ℕ → Symbol → Type 0 };

    /// A spent symbol is in the domain of its position, with another beside it. This does nothing when the program
    /// runs.
    fn prove_spent(&self)
        ensures { AreSpentBesideAnother (serves self.now) (spent self.now) };

    /// A leaf that closes the domains, or else a spent symbol, or neither where there is none. What it tracks stays.
    fn look(&mut self, alloc: Global, doms: &Domains) -> Result<Look, AllocError>
        requires problem { (P : Instance) × serves self.old P × BelongsTo P doms.now }
        requires tracked { tracks self.old doms.now }
        ensures look { IfOk result (λ look. (P : Instance) → serves self.old P
            → IsLook P (leaves self.old doms.now) (spent self.old doms.now) doms.now look) }
        ensures tracks { (S : Store) → tracks self.old S ↔ tracks self.new S }
        ensures same { IsSame serves leaves spent self.old self.new };

    /// Tracks the present domains, which differ from tracked ones at position `p` alone, where symbols were taken
    /// away.
    fn narrowed(&mut self, doms: &Domains, p: u32)
        requires problem { (P : Instance) × serves self.old P × BelongsTo P doms.now }
        requires position { p < length doms.now.sets }
        requires tracked { (before : Store) × tracks self.old before × IsNarrowedAt before doms.now p }
        ensures tracks { tracks self.new doms.now }
        ensures same { IsSame serves leaves spent self.old self.new };

    /// Tracks the present domains, whichever domains of its problem it tracked before.
    fn undone(&mut self, doms: &Domains)
        requires problem { (P : Instance) × serves self.old P × BelongsTo P doms.now }
        ensures tracks { tracks self.new doms.now }
        ensures same { IsSame serves leaves spent self.old self.new };
}
