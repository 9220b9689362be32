// The leaves of days.
ghost use Rattle.std.specs.Prelude.{◌≡◌, ℕ, ◌↔◌, IfOk, Bool, false, None};
ghost use Rattle.rwsp_terms.specs.declared.data.Symbol.{Symbol};
ghost use Rattle.refutation_terms.specs.declared.lines.Line.{Line};
ghost use Rattle.refutation_terms.specs.declared.lines.Line.TheVariants.{Closing};
ghost use Rattle.refutation_terms.specs.declared.lines.Leaf.TheVariants.{Day};
ghost use Rattle.refutation_terms.specs.Log.{LineFits};
ghost use Rattle.domain_store.specs.Store.{Store, BelongsTo, has_domain};
ghost use Rattle.propagators.specs.Counted.{StandsFor};
ghost use Rattle.propagators.specs.Days.{AreCountsOf, IsDayLeaf, IsDaySpent};
ghost use Rattle.domain_store.specs.Looks.{IsLook};

use crate::Counts;
use crate::day_cut::first_cut;
use domain_store::{Domains, Look, Propagator};
use refutation_terms::{Leaf, Line};
use rwsp_model::Problem;
use rwsp_terms::Symbol;
use std::alloc::{AllocError, Global};
use std::marker::Model;

/// Closes where more weeks certainly hold a symbol on a day than may hold it, or fewer can hold it than must, and
/// takes away what would lead there at once: a cardinality constraint for each day. It keeps counts of the domains that
/// it tracks: a look takes a step for each day and symbol, and one for each week where a symbol is taken away.
#[derive(Drop)]
pub struct DayProp<'a> {
    problem: &'a Problem,
    counts: Counts,
}

impl<'a> Model for DayProp<'a> {
    ghost use Rattle.propagators.specs.Days.{DayWatch};

    ghost Value = { DayWatch };

    ghost use Rattle.propagators.specs.Counted.{CountsFor};

    ghost view = { λ d. record { problem = d.problem.now; counts = d.counts } };

    ghost invariant = { λ d. CountsFor d.problem.now d.counts };
}

impl<'a> DayProp<'a> {
    /// Tracks the domains. Its leaves are all day leaves of the problem.
    pub fn new(
        alloc: Global,
        problem: &'a Problem,
        doms: &Domains,
    ) -> Result<DayProp<'a>, AllocError>
        requires { BelongsTo problem.now doms.now }
        ensures serves { IfOk result (λ d. ⟦<DayProp<'a> as Propagator>⟧.serves d problem.now) }
        ensures tracks { IfOk result (λ d. ⟦<DayProp<'a> as Propagator>⟧.tracks d doms.now) }
        ensures leaves { IfOk result (λ d. (S : Store) (j : ℕ) (x : Symbol) (over : Bool)
            → LineFits problem.now None false (Closing (Day j x over))
            → ⟦<DayProp<'a> as Propagator>⟧.leaves d S (Closing (Day j x over))) }
        ensures days_only { IfOk result (λ d. (S : Store) (line : Line)
            → ⟦<DayProp<'a> as Propagator>⟧.leaves d S line → IsDayLeaf problem.now line) }
        ensures spent { IfOk result (λ d. (S : Store) (p : ℕ) (x : Symbol)
            → ⟦<DayProp<'a> as Propagator>⟧.spent d S p x ↔ IsDaySpent problem.now (has_domain S) p x) }
    {
        let counts = Counts::new(alloc, problem, doms)?;
        Ok(DayProp { problem, counts })
    }
}

impl<'a> Propagator for DayProp<'a> {
    ghost serves = { λ d P. d.problem ≡ P };

    ghost tracks = { λ d S. StandsFor d.counts S };

    ghost leaves = { λ d S line. IsDayLeaf d.problem line };

    ghost spent = { λ d S p x. IsDaySpent d.problem (has_domain S) p x };

    fn prove_spent(&self) {}

    fn look(&mut self, _alloc: Global, doms: &Domains) -> Result<Look, AllocError> {
        Ok(seen(self.problem, &self.counts, doms))
    }

    fn narrowed(&mut self, doms: &Domains, p: u32) {
        self.counts.narrowed(doms, p);
    }

    fn undone(&mut self, doms: &Domains) {
        self.counts.undo_to(doms);
    }
}

// What the counts say.
fn seen(problem: &Problem, counts: &Counts, doms: &Domains) -> Look
    requires { AreCountsOf problem.now doms.now counts.now }
    ensures { IsLook problem.now (IsDayLeaf problem.now) (IsDaySpent problem.now (has_domain doms.now)) doms.now
        result }
{
    problem.prove_limits();
    doms.prove_facts();
    if let Some((day, x, over)) = counts.overrun(problem) {
        return Look::Closed(Line::Closing(Leaf::Day { day, x, over }));
    }
    match first_cut(problem, counts, doms) {
        Some(cut) => cut.look(),
        None => Look::Quiet,
    }
}
