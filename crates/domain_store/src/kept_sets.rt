// The domains that something was made for, kept while a store goes on.
ghost use Rattle.std.specs.Prelude.{◌≡◌, ◌<◌, [], length, replicate, slice_index_or, slice_set, IfOk, MatchOption};
ghost use Rattle.domain_store.specs.Store.{domain_at};

use crate::{Domains, SymbolSet};
use std::alloc::{AllocError, Global};
use std::marker::Model;

/// For each position a set of symbols: the domains of some earlier time. Who follows a store compares them with the
/// present ones, since an undoing doesn't say what it gave back.
#[derive(Drop)]
pub struct KeptSets {
    sets: Vec<SymbolSet>,
}

impl Model for KeptSets {
    ghost use Rattle.std.specs.Prelude.{List, ℕ};

    ghost Value = { List (List ℕ) };

    ghost view = { λ k. k.sets.items };
}

impl KeptSets {
    /// No symbol at any of `cells` positions.
    #[tactic(auto, using(std::proofs::lemmas::List::replicate_more))]
    pub fn empty(alloc: Global, cells: u32) -> Result<KeptSets, AllocError>
        ensures { IfOk result (λ k. k ≡ replicate cells []) }
    {
        let mut sets = Vec::with_capacity(alloc, cells as usize)?;
        for _ in 0..cells {
            sets.push(SymbolSet::empty())?;
        }
        Ok(KeptSets { sets })
    }

    /// The present domains.
    pub fn of(alloc: Global, doms: &Domains) -> Result<KeptSets, AllocError>
        ensures { IfOk result (λ k. k ≡ doms.now.sets) }
    {
        let cells = doms.cells();
        let mut sets = Vec::with_capacity(alloc, cells as usize)?;
        for p in 0..cells {
            sets.push(*doms.set(p))?;
        }
        Ok(KeptSets { sets })
    }

    /// The sets, by position.
    pub fn sets(&self) -> &[SymbolSet]
        ensures { result.now ≡ self.now }
    {
        &self.sets
    }

    /// The set of the position.
    pub fn at(&self, p: u32) -> &SymbolSet
        requires { p < length self.now }
        ensures { result.now ≡ slice_index_or self.now p [] }
    {
        &self.sets[p as usize]
    }

    /// The present domain of the position, where it is another than the kept one.
    pub fn changed(&self, doms: &Domains, p: u32) -> Option<SymbolSet>
        requires kept { p < length self.now }
        requires position { p < length doms.now.sets }
        ensures { MatchOption result (slice_index_or self.now p [] ≡ domain_at doms.now p)
            (λ set. set ≡ domain_at doms.now p) }
    {
        let set = doms.set(p);
        if self.at(p).is_same(set) {
            None
        } else {
            Some(*set)
        }
    }

    /// Keeps this set for the position.
    pub fn put(&mut self, p: u32, set: SymbolSet)
        requires { p < length self.old }
        ensures { self.new ≡ slice_set self.old p set }
    {
        self.sets[p as usize] = set;
    }
}
