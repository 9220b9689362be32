// Domains with their trail.
ghost use Rattle.std.specs.Prelude.{◌≡◌, ℕ, ◌+◌, ◌-◌, ◌*◌, ◌<◌, ◌≤◌, ◌↔◌, All, [], ◌∷◌, ◌++◌, length, map, IsTrue, IfOk, MatchOption, vec_len, vec_capacity, ◌==◌, not, ◌&&◌, ◌||◌, nat_le, slice_index_or};
ghost use Rattle.rwsp_terms.specs.Instance.{cells, shift_count};
ghost use Rattle.rwsp_terms.specs.Roster.{IsRoster};
ghost use Rattle.rwsp_terms.specs.declared.data.Symbol.{Symbol};
ghost use Rattle.domain_store.specs.Sets.{without_symbol, IsDomain};

use crate::Mark;
use crate::change::Change;
use crate::symbol_set::SymbolSet;
use rwsp_model::{Problem, Roster};
use rwsp_terms::Symbol;
use rwsp_terms::limits::{MOST_CELLS, MOST_SHIFTS, MOST_SYMBOLS};
use std::alloc::{AllocError, Global};
use std::marker::Model;
use std::mem;

/// The symbols that each position may still have, with a trail of the changes (the trail of D. Warren's abstract
/// machine, 1983): so going back costs as much as what was changed since, and no copy of all domains.
///
/// Positions count from 0, week after week. Each change takes a symbol or more from one domain, and leaves one at
/// least.
#[derive(Drop)]
pub struct Domains {
    days: u32,
    weeks: u32,
    shifts: u8,
    sets: Vec<SymbolSet>,
    trail: Vec<Change>,
    // how many symbols the domains have beyond one for each
    spare: u32,
}

impl Model for Domains {
    ghost use Rattle.domain_store.specs.Store.{Store};

    ghost Value = { Store };

    ghost use Rattle.std.specs.Prelude.{vec_capacity};
    ghost use Rattle.domain_store.specs.Kept.{IsKept};

    ghost view = { λ d.
        record { days = d.days; weeks = d.weeks; shifts = d.shifts; sets = d.sets.items; trail = d.trail.items } };

    ghost invariant = { λ d.
        IsKept
        (record { days = d.days; weeks = d.weeks; shifts = d.shifts; sets = d.sets.items; trail = d.trail.items })
        d.spare (vec_capacity d.trail) };
}

impl Domains {
    ghost use Rattle.domain_store.specs.Store.{Store, domain_at, has_domain, IsDecided, BelongsTo, full_store, changed, store_at, HasSameShape, IsStore, HasDomains};

    /// The domains that have all symbols of the problem, and room for all changes that can be made.
    pub fn new(alloc: Global, problem: &Problem) -> Result<Domains, AllocError>
        ensures full { IfOk result (λ D. D ≡ full_store problem.now) }
        ensures belongs { IfOk result (λ D. BelongsTo problem.now D) }
        ensures has { IfOk result (λ D.
            (p x : ℕ) → p < cells problem.now → has_domain D p x ≡ nat_le x (shift_count problem.now)) }
    {
        problem.prove_limits();
        let days = problem.days();
        let weeks = problem.weeks();
        let shifts = problem.shifts();
        let cells = problem.cells();
        let sets = vec![in alloc; SymbolSet::up_to(shifts); cells as usize]?;
        let spare = cells * shifts as u32;
        let trail = Vec::with_capacity(alloc, spare as usize)?;
        Ok(Domains {
            days,
            weeks,
            shifts,
            sets,
            trail,
            spare,
        })
    }

    /// A copy of the domains and their trail, with room for all changes that can still be made. A mark of these domains
    /// is one of the copy.
    pub fn copy(&self) -> Result<Domains, AllocError>
        ensures { IfOk result (λ D. D ≡ self.now) }
    {
        let alloc = *self.sets.allocator();
        let sets = Vec::from_slice(alloc, &self.sets)?;
        let room = self.sets.len() * self.shifts as usize;
        let trail = copied_trail(alloc, &self.trail, room)?;
        Ok(Domains {
            days: self.days,
            weeks: self.weeks,
            shifts: self.shifts,
            sets,
            trail,
            spare: self.spare,
        })
    }

    /// Brings into a proof what holds of all domains, now and as they were at each mark. Does nothing when run.
    pub fn prove_facts(&self)
        ensures now { IsStore self.now }
        ensures tests { HasDomains self.now }
        ensures before { (len : ℕ) → len ≤ length self.now.trail → IsStore (store_at self.now len) }
    {
        let _ = &self.sets;
    }

    /// The days of a week.
    pub fn days(&self) -> u32
        ensures { result ≡ self.now.days }
    {
        self.days
    }

    /// The weeks of a roster.
    pub fn weeks(&self) -> u32
        ensures { result ≡ self.now.weeks }
    {
        self.weeks
    }

    /// The number of shifts, which is the number of the last symbol.
    pub fn shifts(&self) -> u8
        ensures value { result ≡ self.now.shifts }
        ensures few { result ≤ MOST_SHIFTS }
    {
        self.prove_facts();
        self.shifts
    }

    /// The number of positions: the weeks times the days.
    pub fn cells(&self) -> u32
        ensures value { result ≡ self.now.weeks * self.now.days }
        ensures positions { result ≡ length self.now.sets }
        ensures few { result ≤ MOST_CELLS }
    {
        self.prove_facts();
        self.weeks * self.days
    }

    /// Whether the domain of the position has the symbol.
    pub fn has(&self, p: u32, x: Symbol) -> bool
        requires { p < length self.now.sets }
        ensures { result ≡ has_domain self.now p x.number }
    {
        let set = &self.sets[p as usize];
        set.has(x.number)
    }

    /// The domain of the position.
    pub fn set(&self, p: u32) -> &SymbolSet
        requires { p < length self.now.sets }
        ensures { result.now ≡ domain_at self.now p }
    {
        &self.sets[p as usize]
    }

    /// How many symbols the domain of the position has.
    pub fn size(&self, p: u32) -> u32
        requires { p < length self.now.sets }
        ensures value { result ≡ length (domain_at self.now p) }
        ensures some { 1 ≤ result }
        ensures few { result ≤ MOST_SYMBOLS }
    {
        self.prove_facts();
        let set = &self.sets[p as usize];
        set.size()
    }

    /// The symbol of the position, where its domain has one alone.
    pub fn only(&self, p: u32) -> Option<Symbol>
        requires { p < length self.now.sets }
        ensures { MatchOption result (2 ≤ length (domain_at self.now p)) (λ x. domain_at self.now p ≡ x.number ∷ []) }
    {
        self.prove_facts();
        let set = &self.sets[p as usize];
        match set.only() {
            Some(number) => Some(Symbol { number }),
            None => None,
        }
    }

    /// Whether the domain of the position has the symbol and no other.
    #[tactic(auto, using(crate::proofs::StoreLemmas::has_where_alone))]
    pub fn has_only(&self, p: u32, x: Symbol) -> bool
        requires { p < length self.now.sets }
        ensures only { IsTrue result ↔ (domain_at self.now p ≡ x.number ∷ []) }
        ensures held { IsTrue result → IsTrue (has_domain self.now p x.number) }
        ensures others { IsTrue result ↔ ((y : ℕ) → IsTrue (has_domain self.now p y) → y ≡ x.number) }
    {
        self.prove_facts();
        let set = &self.sets[p as usize];
        set.is_only(x.number)
    }

    /// How many changes the trail has.
    pub fn trail_len(&self) -> usize
        ensures { result ≡ length self.now.trail }
    {
        self.trail.len()
    }

    /// Whether each position has one symbol.
    pub fn decided(&self) -> bool
        ensures { IsTrue result ↔ IsDecided self.now }
    {
        self.spare == 0
    }

    /// Leaves the position this symbol alone. The change is noted on the trail.
    pub fn set_only(&mut self, p: u32, x: Symbol)
        requires position { p < length self.old.sets }
        requires held { IsTrue (has_domain self.old p x.number) }
        requires another { 2 ≤ length (domain_at self.old p) }
        ensures changed { self.new ≡ changed self.old p (x.number ∷ []) }
        ensures same { HasSameShape self.old self.new }
        ensures has { (q y : ℕ)
            → has_domain self.new q y ≡ ((not (q == p) || (y == x.number)) && has_domain self.old q y) }
        ensures marks { (len : ℕ) → len ≤ length self.old.trail → store_at self.new len ≡ store_at self.old len }
    {
        self.prove_facts();
        self.change(p, SymbolSet::single(x.number));
    }

    /// Takes the symbol from the domain of the position. The change is noted on the trail.
    pub fn remove(&mut self, p: u32, x: Symbol)
        requires position { p < length self.old.sets }
        requires held { IsTrue (has_domain self.old p x.number) }
        requires another { 2 ≤ length (domain_at self.old p) }
        ensures changed { self.new ≡ changed self.old p (without_symbol x.number (domain_at self.old p)) }
        ensures same { HasSameShape self.old self.new }
        ensures has { (q y : ℕ)
            → has_domain self.new q y ≡ ((not (q == p) || not (y == x.number)) && has_domain self.old q y) }
        ensures marks { (len : ℕ) → len ≤ length self.old.trail → store_at self.new len ≡ store_at self.old len }
    {
        self.prove_facts();
        let rest = self.set(p).without(x.number);
        self.change(p, rest);
    }

    /// The place in the trail that the domains have reached.
    pub fn mark(&self) -> Mark
        ensures len { result.len ≡ length self.now.trail }
        ensures here { store_at self.now result.len ≡ self.now }
    {
        Mark {
            len: self.trail.len(),
        }
    }

    /// Puts back the domains at the mark, the last change first, and cuts the trail there.
    pub fn undo_to(&mut self, mark: Mark)
        requires { mark.len ≤ length self.old.trail }
        ensures undone { self.new ≡ store_at self.old mark.len }
        ensures same { HasSameShape self.old self.new }
        ensures marks { (len : ℕ) → len ≤ mark.len → store_at self.new len ≡ store_at self.old len }
    {
        while self.trail_len() > mark.len {
            self.undo_last();
        }
    }

    /// The roster of the only symbols.
    pub fn to_roster(&self, problem: &Problem) -> Result<Roster, AllocError>
        requires decided { IsDecided self.now }
        requires belongs { BelongsTo problem.now self.now }
        ensures days { IfOk result (λ R. R.days ≡ problem.now.days) }
        ensures cells { IfOk result (λ R. map (λ x. x.number ∷ []) R.cells ≡ self.now.sets) }
        ensures roster { IfOk result (λ R. IsRoster problem.now R.cells) }
        ensures has { IfOk result (λ R.
            (p : ℕ) (d : Symbol) → p < length R.cells
            → IsTrue (has_domain self.now p (slice_index_or R.cells p d).number)) }
    {
        self.prove_facts();
        let alloc = *self.sets.allocator();
        let cells = only_symbols(alloc, &self.sets)?;
        Ok(Roster::of(problem, cells))
    }

    // Puts a smaller domain at the position.
    fn change(&mut self, p: u32, set: SymbolSet)
        requires position { p < length self.old.sets }
        requires domain { IsDomain self.old.shifts set }
        requires smaller { length set < length (domain_at self.old p) }
        ensures { self.new ≡ changed self.old p set }
    {
        let size = set.size();
        let before = mem::replace(&mut self.sets[p as usize], set);
        self.spare -= before.size() - size;
        note(
            &mut self.trail,
            Change {
                position: p,
                before,
            },
        );
    }

    // Puts back the domain from before the last change.
    fn undo_last(&mut self)
        requires { 0 < length self.old.trail }
        ensures { self.new ≡ store_at self.old (length self.old.trail - 1) }
    {
        if let Some(change) = self.trail.pop() {
            let Change { position, before } = change;
            let size = before.size();
            let after = mem::replace(&mut self.sets[position as usize], before);
            self.spare = self.spare + size - after.size();
        }
    }
}

// Notes a change on a trail that has room for it.
fn note(trail: &mut Vec<Change>, change: Change)
    requires { vec_len trail.old < vec_capacity trail.old }
    ensures items { trail.new.items ≡ trail.old.items ++ change ∷ [] }
    ensures room { vec_capacity trail.old ≤ vec_capacity trail.new }
{
    let _ = trail.push(change);
}

// A copy of the trail, with this much room.
fn copied_trail(alloc: Global, trail: &[Change], room: usize) -> Result<Vec<Change>, AllocError>
    ensures items { IfOk result (λ v. v.items ≡ trail.now) }
    ensures room { IfOk result (λ v. room ≤ vec_capacity v) }
{
    let mut copies = Vec::with_capacity(alloc, room)?;
    copies.extend_from_slice(trail)?;
    Ok(copies)
}

fn only_symbols(alloc: Global, sets: &[SymbolSet]) -> Result<Vec<Symbol>, AllocError>
    requires { All (λ set. length set ≡ 1) sets.now }
    ensures { IfOk result (λ v. map (λ x. x.number ∷ []) v.items ≡ sets.now) }
{
    let mut symbols = Vec::with_capacity(alloc, sets.len())?;
    for set in sets {
        if let Some(number) = set.only() {
            symbols.push(Symbol { number })?;
        }
    }
    Ok(symbols)
}

// Domains may be sent to other threads and shared with them.
fn shared<T: Send + Sync>(_: &T) {}

fn domains_are_shared(domains: &Domains) {
    shared(domains);
}
