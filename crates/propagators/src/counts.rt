// Counts of the symbols of each day under domains.
ghost use Rattle.std.specs.Prelude.{◌≡◌, ◌+◌, ◌-◌, ◌*◌, ◌<◌, ◌≤◌, IfOk, length};
ghost use Rattle.rwsp_terms.specs.Instance.{Instance, shift_count};
ghost use Rattle.refutation_terms.specs.DayLeaf.{fixed, possible};
ghost use Rattle.domain_store.specs.Store.{Store, domain_at, has_domain, BelongsTo};

use crate::recount::{alone, held, recount};
use domain_store::{Domains, KeptSets, SymbolSet};
use rwsp_model::Problem;
use rwsp_terms::Symbol;
use rwsp_terms::limits::{MOST_SHIFTS, MOST_SYMBOLS, MOST_WEEKS};
use std::alloc::{AllocError, Global};
use std::marker::Model;

/// For each day and symbol the number of weeks that certainly hold the symbol on the day, since it is alone in the
/// domain there, and the number of those that can hold it, since it is in the domain there. They are kept with the
/// domains that they count.
///
/// Days count from 1, and positions from 0, week after week.
#[derive(Drop)]
pub struct Counts {
    days: u32,
    weeks: u32,
    shifts: u8,
    sets: KeptSets,
    // `MOST_SYMBOLS` counters for each day, one for each symbol that may be
    fixed: Vec<u32>,
    possible: Vec<u32>,
}

impl Model for Counts {
    ghost use Rattle.propagators.specs.Counted.{Counted};

    ghost Value = { Counted };

    ghost use Rattle.propagators.specs.Tallies.{IsTallied};

    ghost view = { λ c. record { days = c.days; weeks = c.weeks; shifts = c.shifts; sets = c.sets } };

    ghost invariant = { λ c.
        IsTallied
        (record { days = c.days; weeks = c.weeks; shifts = c.shifts; sets = c.sets })
        c.fixed.items c.possible.items };
}

impl Counts {
    ghost use Rattle.propagators.specs.Counted.{Counted, StandsFor, HasShapeOf, DiffersAtMostAt, with_set};
    ghost use Rattle.propagators.specs.Tallies.{is_held, is_alone, column_count};

    /// The counts of the domains.
    pub fn new(alloc: Global, problem: &Problem, doms: &Domains) -> Result<Counts, AllocError>
        requires { BelongsTo problem.now doms.now }
        ensures { IfOk result (λ C. StandsFor C doms.now) }
    {
        let mut counts = Counts::of_empty_sets(alloc, problem)?;
        counts.undo_to(doms);
        Ok(counts)
    }

    /// Counts the present domains, which differ at one position at most. Takes a time that doesn't grow with the
    /// problem.
    pub fn narrowed(&mut self, doms: &Domains, p: u32)
        requires position { p < length doms.now.sets }
        requires differs { DiffersAtMostAt self.old doms.now p }
        ensures { StandsFor self.new doms.now }
    {
        self.prove_facts();
        doms.prove_facts();
        self.take_over(doms, p);
    }

    /// Counts the present domains, whichever domains of the same problem it counted before.
    pub fn undo_to(&mut self, doms: &Domains)
        requires { HasShapeOf self.old doms.now }
        ensures { StandsFor self.new doms.now }
    {
        self.prove_facts();
        doms.prove_facts();
        for p in 0..doms.cells() {
            self.take_over(doms, p);
        }
    }

    /// How many weeks certainly hold the symbol on the day: it is alone in the domain there.
    pub fn fixed(&self, x: Symbol, day: u32) -> u32
        requires day { (0 < day) × (day ≤ self.now.days) }
        requires symbol { x.number ≤ self.now.shifts }
        ensures kept { result
            ≡ column_count (is_alone self.now.shifts x.number) self.now.days self.now.weeks self.now.sets (day - 1) }
        ensures value { (P : Instance) (S : Store) → BelongsTo P S → StandsFor self.now S
            → result ≡ fixed P (has_domain S) day x.number }
        ensures few { result ≤ self.now.weeks }
        ensures small { result ≤ MOST_WEEKS }
    {
        self.fixed[(day as usize - 1) * MOST_SYMBOLS as usize + x.number as usize]
    }

    /// How many weeks can hold the symbol on the day: it is in the domain there.
    pub fn possible(&self, x: Symbol, day: u32) -> u32
        requires day { (0 < day) × (day ≤ self.now.days) }
        requires symbol { x.number ≤ self.now.shifts }
        ensures kept { result ≡ column_count (is_held x.number) self.now.days self.now.weeks self.now.sets (day - 1) }
        ensures value { (P : Instance) (S : Store) → BelongsTo P S → StandsFor self.now S
            → result ≡ possible P (has_domain S) day x.number }
        ensures few { result ≤ self.now.weeks }
        ensures small { result ≤ MOST_WEEKS }
    {
        self.possible[(day as usize - 1) * MOST_SYMBOLS as usize + x.number as usize]
    }

    // Brings into a proof what holds of all counts. Does nothing when run.
    fn prove_facts(&self)
        ensures long { length self.now.sets ≡ self.now.weeks * self.now.days }
        ensures some_days { 1 ≤ self.now.days }
        ensures few_weeks { self.now.weeks ≤ MOST_WEEKS }
        ensures few_shifts { self.now.shifts ≤ MOST_SHIFTS }
    {
        let _ = &self.sets;
    }

    // Counts of the problem's shape in which no position has a symbol.
    fn of_empty_sets(alloc: Global, problem: &Problem) -> Result<Counts, AllocError>
        ensures days { IfOk result (λ C. C.days ≡ problem.now.days) }
        ensures weeks { IfOk result (λ C. C.weeks ≡ problem.now.weeks) }
        ensures shifts { IfOk result (λ C. C.shifts ≡ shift_count problem.now) }
    {
        let days = problem.days();
        let weeks = problem.weeks();
        let shifts = problem.shifts();
        let counters = days as usize * MOST_SYMBOLS as usize;
        let sets = KeptSets::empty(alloc, problem.cells())?;
        let fixed = vec![in alloc; 0; counters]?;
        let possible = vec![in alloc; 0; counters]?;
        Ok(Counts {
            days,
            weeks,
            shifts,
            sets,
            fixed,
            possible,
        })
    }

    // Gives the position its present domain. Where that is the one that is counted, no counter changes.
    fn take_over(&mut self, doms: &Domains, p: u32)
        requires kept { p < length self.old.sets }
        requires position { p < length doms.now.sets }
        ensures { self.new ≡ with_set self.old p (domain_at doms.now p) }
    {
        if let Some(set) = self.sets.changed(doms, p) {
            self.put(p, set);
        }
    }

    // Gives the position another domain.
    fn put(&mut self, p: u32, set: SymbolSet)
        requires { p < length self.old.sets }
        ensures { self.new ≡ with_set self.old p set }
    {
        let row = (p % self.days) as usize * MOST_SYMBOLS as usize;
        let is_held = held(&set);
        let is_alone = alone(&set, self.shifts);
        let before = *self.sets.at(p);
        self.sets.put(p, set);
        let was_held = held(&before);
        let was_alone = alone(&before, self.shifts);
        recount(&mut self.possible, row, &was_held, &is_held);
        recount(&mut self.fixed, row, &was_alone, &is_alone);
    }
}

// Counts may be sent to other threads and shared with them.
fn shared<T: Send + Sync>(_: &T) {}

fn counts_are_shared(counts: &Counts) {
    shared(counts);
}
