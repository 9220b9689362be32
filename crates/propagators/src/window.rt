// The leaves of windows.
ghost use Rattle.std.specs.Prelude.{◌≡◌, ℕ, ◌<◌, ◌≤◌, length, IfOk, MatchOption, true, false, slice_set, slice_index_or, None};
ghost use Rattle.rwsp_terms.specs.declared.data.Symbol.{Symbol};
ghost use Rattle.rwsp_terms.specs.declared.limits.TheConstants.{MOST_CELLS, MOST_SHIFTS};
ghost use Rattle.rwsp_terms.specs.Instance.{cells};
ghost use Rattle.refutation_terms.specs.declared.lines.Line.{Line};
ghost use Rattle.refutation_terms.specs.declared.lines.Line.TheVariants.{Closing};
ghost use Rattle.refutation_terms.specs.declared.lines.Leaf.TheVariants.{Window};
ghost use Rattle.refutation_terms.specs.Log.{LineFits};
ghost use Rattle.domain_store.specs.Sets.{has_symbol};
ghost use Rattle.domain_store.specs.Store.{Store, BelongsTo, domain_at};
ghost use Rattle.propagators.specs.Windows.{IsWindowLeaf, IsWatch, IsSpan, IsWindow};

use crate::window_over::{WindowLeaf, window_over};
use domain_store::{Domains, KeptSets, Look, Propagator, SymbolSet};
use refutation_terms::Line;
use rwsp_model::Problem;
use rwsp_terms::limits::MOST_SYMBOLS;
use std::alloc::{AllocError, Global};
use std::marker::Model;

/// Closes where every word over the domains of a window is bad for a rule. It takes no symbol away.
///
/// It keeps the domains that it tracks, and which positions are pending: those that lost a symbol since a look found
/// nothing there. A look goes over the windows of these positions alone, at a cost of a few steps for each
/// rule and each day of its bound, and of one for each position between two of them; what an undoing gives back costs
/// nothing at the next look.
#[derive(Drop)]
pub struct WindowProp<'a> {
    problem: &'a Problem,
    sets: KeptSets,
    pending: Vec<bool>,
    // all pending positions come from the first on and before the end
    first: u32,
    end: u32,
}

impl<'a> Model for WindowProp<'a> {
    ghost use Rattle.propagators.specs.Windows.{WindowWatch};

    ghost Value = { WindowWatch };

    ghost use Rattle.propagators.specs.Windows.{IsWatch, IsSpan};

    ghost view = { λ w. record { problem = w.problem.now; sets = w.sets; pending = w.pending.items } };

    ghost invariant = { λ w. IsWatch
        (record { problem = w.problem.now; sets = w.sets; pending = w.pending.items })
        × IsSpan w.pending.items w.first w.end };
}

impl<'a> WindowProp<'a> {
    /// Tracks the domains. Its leaves are all window leaves of the problem.
    pub fn new(
        alloc: Global,
        problem: &'a Problem,
        doms: &Domains,
    ) -> Result<WindowProp<'a>, AllocError>
        requires { BelongsTo problem.now doms.now }
        ensures serves { IfOk result (λ w. ⟦<WindowProp<'a> as Propagator>⟧.serves w problem.now) }
        ensures tracks { IfOk result (λ w. ⟦<WindowProp<'a> as Propagator>⟧.tracks w doms.now) }
        ensures leaves { IfOk result (λ w. (S : Store) (number p len : ℕ)
            → LineFits problem.now None false (Closing (Window number p len))
            → ⟦<WindowProp<'a> as Propagator>⟧.leaves w S (Closing (Window number p len))) }
        ensures windows_only { IfOk result (λ w. (S : Store) (line : Line)
            → ⟦<WindowProp<'a> as Propagator>⟧.leaves w S line → IsWindowLeaf problem.now line) }
        ensures none_spent { IfOk result (λ w. (S : Store) (p : ℕ) (x : Symbol)
            → ⟦<WindowProp<'a> as Propagator>⟧.spent w S p x → ⊥) }
    {
        doms.prove_facts();
        let cells = problem.cells();
        let sets = KeptSets::of(alloc, doms)?;
        let pending = vec![in alloc; true; cells as usize]?;
        Ok(WindowProp {
            problem,
            sets,
            pending,
            first: 0,
            end: cells,
        })
    }

    // What holds of each.
    fn prove_facts(&self)
        ensures { IsWatch self.now }
    {
        let _ = &self.sets;
    }

    // A span with all pending positions: its first position, and its end.
    fn span(&self) -> (u32, u32)
        ensures { IsSpan self.now.pending result.0 result.1 }
    {
        (self.first, self.end)
    }

    // Clears the span, where no position is pending.
    fn empty_span(&mut self)
        requires { (q : ℕ) → slice_index_or self.old.pending q false ≡ false }
        ensures { self.new ≡ self.old }
    {
        self.first = self.end;
    }

    // A window leaf that holds over a pending position of these; where there is none, they are pending no longer.
    fn look_within(&mut self, doms: &Domains, first: u32, end: u32) -> Option<WindowLeaf>
        requires domains { BelongsTo self.old.problem doms.now }
        requires tracked { self.old.sets ≡ doms.now.sets }
        requires span { IsSpan self.old.pending first end }
        ensures problem { self.new.problem ≡ self.old.problem }
        ensures sets { self.new.sets ≡ self.old.sets }
        ensures seen { MatchOption result ((q : ℕ) → slice_index_or self.new.pending q false ≡ false)
            (λ leaf. IsWindow self.old.problem doms.now leaf.rule leaf.p leaf.len) }
    {
        self.prove_facts();
        for p in first..end {
            if let Some(leaf) = self.look_at(doms, p) {
                return Some(leaf);
            }
        }
        None
    }

    // A window leaf that holds over the position, if it is pending; where there is none, it is pending no longer.
    fn look_at(&mut self, doms: &Domains, p: u32) -> Option<WindowLeaf>
        requires domains { BelongsTo self.old.problem doms.now }
        requires tracked { self.old.sets ≡ doms.now.sets }
        requires position { p < cells self.old.problem }
        ensures problem { self.new.problem ≡ self.old.problem }
        ensures sets { self.new.sets ≡ self.old.sets }
        ensures seen { MatchOption result (slice_index_or self.new.pending p false ≡ false)
            (λ leaf. IsWindow self.old.problem doms.now leaf.rule leaf.p leaf.len) }
        ensures others { (q : ℕ) → slice_index_or self.new.pending q false ≡ true
            → slice_index_or self.old.pending q false ≡ true }
    {
        if !self.pending[p as usize] {
            return None;
        }
        let Some(leaf) = window_over(self.problem, doms, p) else {
            self.pending[p as usize] = false;
            return None;
        };
        Some(leaf)
    }

    // Gives the position its present domain. Where that is the one that is tracked, nothing changes.
    fn take_over(&mut self, doms: &Domains, p: u32)
        requires kept { p < length self.old.sets }
        requires position { p < length doms.now.sets }
        ensures problem { self.new.problem ≡ self.old.problem }
        ensures sets { self.new.sets ≡ slice_set self.old.sets p (domain_at doms.now p) }
    {
        doms.prove_facts();
        if let Some(set) = self.sets.changed(doms, p) {
            self.put(p, set);
        }
    }

    // Gives the position another domain. Where that lacks a symbol, the position is pending.
    fn put(&mut self, p: u32, set: SymbolSet)
        requires position { p < length self.old.sets }
        requires few { p < MOST_CELLS }
        requires small { (x : ℕ) → has_symbol set x ≡ true → x ≤ MOST_SHIFTS }
        ensures problem { self.new.problem ≡ self.old.problem }
        ensures sets { self.new.sets ≡ slice_set self.old.sets p set }
    {
        let is_lost = !is_part(self.sets.at(p), &set);
        let was_pending = self.pending[p as usize];
        let (first, end) = widened(self.first, self.end, p, is_lost);
        self.pending[p as usize] = was_pending | is_lost;
        self.sets.put(p, set);
        self.first = first;
        self.end = end;
    }
}

impl<'a> Propagator for WindowProp<'a> {
    ghost serves = { λ w P. w.problem ≡ P };

    ghost tracks = { λ w S. w.sets ≡ S.sets };

    ghost leaves = { λ w S line. IsWindowLeaf w.problem line };

    ghost spent = { λ w S p x. ⊥ };

    fn prove_spent(&self) {}

    fn look(&mut self, _alloc: Global, doms: &Domains) -> Result<Look, AllocError> {
        let (first, end) = self.span();
        if let Some(leaf) = self.look_within(doms, first, end) {
            return Ok(Look::Closed(leaf.line()));
        }
        self.empty_span();
        self.prove_facts();
        Ok(Look::Quiet)
    }

    fn narrowed(&mut self, doms: &Domains, p: u32) {
        self.prove_facts();
        doms.prove_facts();
        self.take_over(doms, p);
    }

    fn undone(&mut self, doms: &Domains) {
        self.prove_facts();
        doms.prove_facts();
        for p in 0..doms.cells() {
            self.take_over(doms, p);
        }
    }
}

// The span from `first` to `end`, widened to take in the position where it must.
fn widened(first: u32, end: u32, p: u32, takes_in: bool) -> (u32, u32)
    requires { p < MOST_CELLS }
    ensures position { takes_in ≡ true → (result.0 ≤ p) × (p < result.1) }
    ensures others { (q : ℕ) → first ≤ q → q < end → (result.0 ≤ q) × (q < result.1) }
    ensures within { (n : ℕ) → end ≤ n → p < n → result.1 ≤ n }
{
    if !takes_in {
        return (first, end);
    }
    if first >= end {
        return (p, p + 1);
    }
    (first.min(p), end.max(p + 1))
}

// Whether the second set has all symbols of the first.
fn is_part(part: &SymbolSet, whole: &SymbolSet) -> bool
    requires { (x : ℕ) → has_symbol part.now x ≡ true → x ≤ MOST_SHIFTS }
    ensures { result ≡ true → (x : ℕ) → has_symbol part.now x ≡ true → has_symbol whole.now x ≡ true }
{
    for x in 0..MOST_SYMBOLS as u8 {
        if part.has(x) && !whole.has(x) {
            return false;
        }
    }
    true
}
