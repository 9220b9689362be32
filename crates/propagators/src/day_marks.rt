// Sets of states for all places between days.
ghost use Rattle.std.specs.Prelude.{◌≡◌, ◌≢◌, ℕ, ◌+◌, ◌*◌, ◌<◌, ◌≤◌, false, true, length, replicate, slice_set, IfOk};
ghost use Rattle.domain_store.specs.Sets.{has_symbol};
ghost use Rattle.propagators.specs.Marks.{row_at, IsWide, IsPass, MendsFront, MendsBack, FitsInto};

use crate::marks::{Marks, Way};
use clean_words::Step;
use domain_store::SymbolSet;
use rwsp_terms::limits::MOST_CELLS;
use std::alloc::{AllocError, Global};
use std::marker::Model;
use std::mem;

// For each day, and for the end of the last, which states are marked; with room for one row more.
#[derive(Drop)]
pub struct DayMarks {
    rows: Vec<Marks>,
    spare: Marks,
}

impl Model for DayMarks {
    ghost use Rattle.std.specs.Prelude.{List, ℕ, length};
    ghost use Rattle.propagators.specs.Marks.{IsWide};

    ghost Value = { List (List ℕ) };

    ghost view = { λ d. d.rows.items };

    ghost invariant = { λ d. IsWide d.rows.items (length d.spare) };
}

impl DayMarks {
    // No state is marked on any of `days` days, whose rows have `words` words each.
    #[tactic(auto, using(std::proofs::lemmas::List::replicate_more))]
    pub fn none(alloc: Global, days: usize, words: usize) -> Result<DayMarks, AllocError>
        ensures { IfOk result (λ rows. rows ≡ replicate days (replicate words 0)) }
    {
        let spare = Marks::none(alloc, words)?;
        let mut rows = Vec::with_capacity(alloc, days)?;
        for _ in 0..days {
            rows.push(Marks::none(alloc, words)?)?;
        }
        Ok(DayMarks { rows, spare })
    }

    // The marks of a day.
    pub fn row(&self, day: usize) -> &Marks
        requires { day < length self.now }
        ensures { result.now ≡ row_at self.now day }
    {
        &self.rows[day]
    }

    // Gives a day these marks.
    pub fn put_row(&mut self, day: usize, row: Marks)
        requires day { day < length self.old }
        requires wide { length row ≡ length (row_at self.old day) }
        ensures { self.new ≡ slice_set self.old day row }
    {
        self.rows[day] = row;
    }

    // Marks in the row `there` the states to which steps lead this way from those of the row `here`, by the symbols of
    // the set. False where they were marked so before.
    fn renew(
        &mut self,
        steps: &[Step],
        set: &SymbolSet,
        way: Way,
        here: usize,
        there: usize,
    ) -> bool
        requires apart { (here < length self.old) × (there < length self.old) × (here ≢ there) }
        requires wide { (width : ℕ) × IsWide self.old width × FitsInto width steps.now }
        ensures step { IsPass way steps.now (has_symbol set.now) (row_at self.new here) (row_at self.new there) }
        ensures others { (i : ℕ) → i ≢ there → row_at self.new i ≡ row_at self.old i }
        ensures unchanged { result ≡ false → self.new ≡ self.old }
        ensures long { length self.new ≡ length self.old }
        ensures wide { (width : ℕ) → IsWide self.old width → IsWide self.new width }
    {
        self.spare.put_behind(steps, set, way, &self.rows[here]);
        if self.spare.is_same(&self.rows[there]) {
            return false;
        }
        mem::swap(&mut self.spare, &mut self.rows[there]);
        true
    }

    // Mends the steps behind a day whose domain has changed, until a day keeps its marks: all further ones depend on
    // these alone. Gives the last day whose marks may be others now.
    pub fn mend_front(&mut self, steps: &[Step], sets: &[SymbolSet], day: usize) -> usize
        requires some { 0 < length sets.now }
        requires day { day + 1 < length self.old }
        requires wide { (width : ℕ) × IsWide self.old width × FitsInto width steps.now }
        ensures steps { MendsFront steps.now sets.now day self.old self.new }
        ensures first { row_at self.new 0 ≡ row_at self.old 0 }
        ensures reach { (day ≤ result) × (result < length self.old) }
        ensures before { (i : ℕ) → i ≤ day → row_at self.new i ≡ row_at self.old i }
        ensures behind { (i : ℕ) → result < i → i < length self.old → row_at self.new i ≡ row_at self.old i }
        ensures long { length self.new ≡ length self.old }
        ensures wide { (width : ℕ) → IsWide self.old width → IsWide self.new width }
    {
        for i in day..self.rows.len() - 1 {
            if !self.renew(steps, &sets[i % sets.len()], Way::On, i, i + 1) {
                return i;
            }
        }
        self.rows.len() - 1
    }

    // Mends the steps before a day whose domain has changed, back until a day keeps its marks. Gives that day: behind
    // it the marks may be others now.
    pub fn mend_back(&mut self, steps: &[Step], sets: &[SymbolSet], day: usize) -> usize
        requires some { 0 < length sets.now }
        requires day { day + 1 < length self.old }
        requires few { length self.old ≤ 2 * MOST_CELLS + 1 }
        requires wide { (width : ℕ) × IsWide self.old width × FitsInto width steps.now }
        ensures steps { MendsBack steps.now sets.now day self.old self.new }
        ensures last { (i : ℕ) → day < i → row_at self.new i ≡ row_at self.old i }
        ensures reach { result ≤ day }
        ensures before { (i : ℕ) → i < result → row_at self.new (i + 1) ≡ row_at self.old (i + 1) }
        ensures long { length self.new ≡ length self.old }
        ensures wide { (width : ℕ) → IsWide self.old width → IsWide self.new width }
    {
        let mut i = day + 1;
        while 0 < i {
            i -= 1;
            if !self.renew(steps, &sets[i % sets.len()], Way::Back, i + 1, i) {
                return i;
            }
        }
        0
    }
}
