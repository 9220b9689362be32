// The clean words of two turns, kept while domains change.
ghost use Rattle.std.specs.Prelude.{◌≡◌, ◌↔◌, ℕ, ◌+◌, ◌-◌, ◌*◌, ◌<◌, ◌≤◌, false, true, length, slice_index_or, slice_set, IfOk, IsTrue};
ghost use Rattle.rwsp_terms.specs.Instance.{cells, shift_count};
ghost use Rattle.refutation_terms.specs.declared.lines.Line.TheVariants.{Closing};
ghost use Rattle.refutation_terms.specs.declared.lines.Leaf.TheVariants.{Words};
ghost use Rattle.refutation_terms.specs.declared.lines.WordClaim.TheVariants.{Dead};
ghost use Rattle.refutation_terms.specs.WordsLeaf.{IsDead};
ghost use Rattle.refutation_terms.specs.Sharp.{NoWordHas};
ghost use Rattle.domain_store.specs.Sets.{has_symbol};
ghost use Rattle.domain_store.specs.Store.{BelongsTo, domain_at};
ghost use Rattle.propagators.specs.KeptCycle.{HasJoiningStep};
ghost use Rattle.propagators.specs.Marks.{IsFirstFront, IsFirstBack};

use crate::day_marks::DayMarks;
use crate::marks::{Marks, WORD_BITS};
use clean_words::{Automaton, Step};
use domain_store::{Domains, KeptSets, SymbolSet};
use refutation_terms::{Leaf, Line, WordClaim};
use rwsp_model::Problem;
use rwsp_terms::Symbol;
use rwsp_terms::limits::{LONGEST_WORD, MOST_CELLS};
use std::alloc::{AllocError, Global};
use std::marker::Model;

/// The clean words of two turns round the cycle, from position 0 on, over domains that change (G. Pesant's layered
/// graph of a regular language, 2004: a symbol is supported where a step by it joins what is reached from the front
/// with what leads to the end).
///
/// The steps of the rules' automaton serve every day. What is kept beside them for each place between days, and changes
/// with the domains, is which states are reached from the front, and from which states words lead to the end: a bit
/// each.
#[derive(Drop)]
pub struct Cycle<'a> {
    automaton: &'a Automaton,
    sets: KeptSets,
    front: DayMarks,
    back: DayMarks,
    // the positions at which a symbol may be without support
    pending: Vec<bool>,
}

impl<'a> Model for Cycle<'a> {
    ghost use Rattle.propagators.specs.Known.{KnownCycle};

    ghost Value = { KnownCycle };

    ghost use Rattle.propagators.specs.Known.{known};
    ghost use Rattle.propagators.specs.KeptCycle.{IsCycle, AreAwaited};

    ghost view = { λ c. known c.automaton.now c.sets };

    ghost invariant = { λ c.
        IsCycle c.automaton.now c.sets c.front c.back
        × AreAwaited (known c.automaton.now c.sets) c.pending.items };
}

impl<'a> Cycle<'a> {
    ghost use Rattle.propagators.specs.Known.{KnowsDomains, KnowsAllBut, knows_symbol, IsSupportedAt};

    /// A cycle of the domains. Takes all memory that it will ever need: two bits for each state and each place between
    /// days.
    pub fn new(
        alloc: Global,
        automaton: &'a Automaton,
        doms: &Domains,
    ) -> Result<Cycle<'a>, AllocError>
        requires { BelongsTo automaton.now.problem doms.now }
        ensures problem { IfOk result (λ C. C.problem ≡ automaton.now.problem) }
        ensures rules { IfOk result (λ C. C.rules ≡ automaton.now.rules) }
        ensures stands { IfOk result (λ C. KnowsDomains C doms.now) }
    {
        let mut cycle = Cycle::empty(alloc, automaton)?;
        cycle.undo_to(doms);
        Ok(cycle)
    }

    // A cycle in which no position has a symbol.
    fn empty(alloc: Global, automaton: &'a Automaton) -> Result<Cycle<'a>, AllocError>
        ensures problem { IfOk result (λ C. C.problem ≡ automaton.now.problem) }
        ensures rules { IfOk result (λ C. C.rules ≡ automaton.now.rules) }
    {
        automaton.prove_facts();
        automaton.problem().prove_limits();
        let cells = automaton.problem().cells();
        let days = 2 * cells as usize;
        let words = automaton.states() / WORD_BITS + 1;
        let front = first_front(alloc, days, words)?;
        let back = first_back(alloc, days, words)?;
        let sets = KeptSets::empty(alloc, cells)?;
        let pending = vec![in alloc; false; cells as usize]?;
        Ok(Cycle {
            automaton,
            sets,
            front,
            back,
            pending,
        })
    }

    /// The problem.
    pub fn problem(&self) -> &Problem
        ensures { result.now ≡ self.now.problem }
    {
        self.automaton.problem()
    }

    /// The dead leaf of two turns from position 0 on, by a copy of the list of rules.
    pub fn dead_leaf(&self) -> Result<Line, AllocError>
        ensures { IfOk result (λ line. line ≡ Closing (Words 0 self.now.rules (Dead (2 * cells self.now.problem)))) }
    {
        let rules = self.automaton.rules().copy()?;
        Ok(Line::Closing(Leaf::Words {
            p: 0,
            rules,
            claim: WordClaim::Dead {
                len: 2 * self.automaton.problem().cells(),
            },
        }))
    }

    /// Whether no word of two turns over the domains is clean.
    pub fn is_dead(&self) -> bool
        ensures { IsTrue result
            ↔ IsDead self.now.problem (knows_symbol self.now) 0 (2 * cells self.now.problem) self.now.rules }
    {
        !self.back.row(0).has(0)
    }

    /// Whether some clean word of two turns over the domains has the symbol at the position, in its first turn.
    pub fn supported(&self, p: u32, x: Symbol) -> bool
        requires { p < cells self.now.problem }
        ensures { (result ≡ false) ↔ NoWordHas self.now.problem (knows_symbol self.now) self.now.rules p x }
    {
        let steps = self.automaton.steps();
        let before = self.front.row(p as usize);
        let behind = self.back.row(p as usize + 1);
        self.sets.at(p).has(x.number) && has_joining_step(steps, x, before, behind)
    }

    /// Whether a symbol may be without support at the position: its domain or the marks there have changed since it was
    /// settled.
    pub fn is_pending(&self, p: u32) -> bool
        requires { p < cells self.now.problem }
        ensures { result ≡ false → IsSupportedAt self.now p }
    {
        self.pending[p as usize]
    }

    /// Takes in that each symbol of the position is supported, until a change may have taken that away.
    pub fn settle(&mut self, p: u32)
        requires position { p < cells self.old.problem }
        requires supported { IsSupportedAt self.old p }
        ensures { self.new ≡ self.old }
    {
        self.pending[p as usize] = false;
    }

    /// Takes in the present domains, which differ at one position at most. Takes no memory.
    pub fn narrowed(&mut self, doms: &Domains, p: u32)
        requires position { p < length doms.now.sets }
        requires differs { KnowsAllBut self.old doms.now p }
        ensures problem { self.new.problem ≡ self.old.problem }
        ensures rules { self.new.rules ≡ self.old.rules }
        ensures stands { KnowsDomains self.new doms.now }
    {
        self.prove_facts();
        doms.prove_facts();
        self.take_over(doms, p);
    }

    /// Takes in the present domains, whichever domains of the same problem it was for before. Takes no memory.
    /// Compares the domains of all positions, and mends the days of those that differ.
    pub fn undo_to(&mut self, doms: &Domains)
        requires { BelongsTo self.old.problem doms.now }
        ensures problem { self.new.problem ≡ self.old.problem }
        ensures rules { self.new.rules ≡ self.old.rules }
        ensures stands { KnowsDomains self.new doms.now }
    {
        self.prove_facts();
        doms.prove_facts();
        for p in 0..doms.cells() {
            self.take_over(doms, p);
        }
    }

    // Brings into a proof what holds of all cycles. Does nothing when run.
    fn prove_facts(&self)
        ensures long { length self.now.sets ≡ cells self.now.problem }
        ensures few { cells self.now.problem ≤ MOST_CELLS }
    {
        let _ = &self.sets;
    }

    // Gives the position its present domain. Where that is the one that was taken in, no mark changes.
    fn take_over(&mut self, doms: &Domains, p: u32)
        requires belongs { BelongsTo self.old.problem doms.now }
        requires kept { p < length self.old.sets }
        requires position { p < length doms.now.sets }
        ensures problem { self.new.problem ≡ self.old.problem }
        ensures rules { self.new.rules ≡ self.old.rules }
        ensures sets { self.new.sets ≡ slice_set self.old.sets p (domain_at doms.now p) }
    {
        doms.prove_facts();
        if let Some(set) = self.sets.changed(doms, p) {
            self.put(p, set);
        }
    }

    // Gives the position another domain. Its two days are mended, as far as marks change: at most twice over the
    // steps on all days for the front, and twice for the back. The positions whose marks change are pending then.
    fn put(&mut self, p: u32, set: SymbolSet)
        requires position { p < length self.old.sets }
        requires small { (x : ℕ) → IsTrue (has_symbol set x) → x ≤ shift_count self.old.problem }
        ensures problem { self.new.problem ≡ self.old.problem }
        ensures rules { self.new.rules ≡ self.old.rules }
        ensures sets { self.new.sets ≡ slice_set self.old.sets p set }
    {
        let first = p as usize;
        self.sets.put(p, set);
        let sets = self.sets.sets();
        let cells = sets.len();
        let second = first + cells;
        let steps = self.automaton.steps();
        let end = self.front.mend_front(steps, sets, first);
        self.front.mend_front(steps, sets, second);
        let low = self.back.mend_back(steps, sets, second);
        let start = self.back.mend_back(steps, sets, first);
        raise(&mut self.pending, start, end + 1);
        raise(&mut self.pending, low, cells);
    }
}

// What is reached from the front where no position has a symbol: state 0 before the first day, and nothing behind it.
fn first_front(alloc: Global, days: usize, words: usize) -> Result<DayMarks, AllocError>
    requires days { days ≤ LONGEST_WORD }
    requires words { 0 < words }
    ensures { IfOk result (IsFirstFront days words) }
{
    let mut start = Marks::none(alloc, words)?;
    start.put(0);
    let mut front = DayMarks::none(alloc, days + 1, words)?;
    front.put_row(0, start);
    Ok(front)
}

// From where words lead to the end where no position has a symbol: each state behind the last day, and none before it.
fn first_back(alloc: Global, days: usize, words: usize) -> Result<DayMarks, AllocError>
    requires { days ≤ LONGEST_WORD }
    ensures { IfOk result (IsFirstBack days words) }
{
    let mut back = DayMarks::none(alloc, days + 1, words)?;
    back.put_row(days, Marks::all(alloc, words)?);
    Ok(back)
}

// Raises the flags from `start` on that come before `end`.
fn raise(flags: &mut Vec<bool>, start: usize, end: usize)
    ensures long { length flags.new.items ≡ length flags.old.items }
    ensures kept { (q : ℕ) → slice_index_or flags.new.items q false ≡ false
        → slice_index_or flags.old.items q false ≡ false }
    ensures raised { (q : ℕ) → start ≤ q → q < end → q < length flags.old.items
        → slice_index_or flags.new.items q false ≡ true }
{
    for q in start..end.min(flags.len()) {
        flags[q] = true;
    }
}

// Whether a step by the symbol leads from a marked state to a marked one.
fn has_joining_step(steps: &[Step], x: Symbol, before: &Marks, behind: &Marks) -> bool
    ensures { IsTrue result ↔ HasJoiningStep steps.now x before.now behind.now }
{
    for step in steps {
        if step.symbol == x && before.has(step.from) && behind.has(step.to) {
            return true;
        }
    }
    false
}
