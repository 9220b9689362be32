// Symbols that a day leaf takes away.
ghost use Rattle.std.specs.Prelude.{◌≡◌, ◌+◌, ◌-◌, ◌<◌, length, MatchOption, true, false};
ghost use Rattle.rwsp_terms.specs.Instance.{IsDay, IsSymbol};
ghost use Rattle.refutation_terms.specs.DayLeaf.{fixed, possible};
ghost use Rattle.domain_store.specs.Store.{has_domain, BelongsTo};
ghost use Rattle.refutation_terms.specs.declared.lines.Line.TheVariants.{Closing};
ghost use Rattle.refutation_terms.specs.declared.lines.Leaf.TheVariants.{Day};
ghost use Rattle.domain_store.specs.declared.look.Look.TheVariants.{Cut};
ghost use Rattle.propagators.specs.DayCuts.{TakesNoneOn, TakesNoneAtAll};
ghost use Rattle.propagators.specs.Days.{AreCountsOf, TakesNone, IsSaturation, IsNeighbour, IsPlaceAnswer, IsDayCut};

use crate::Counts;
use domain_store::{Domains, Look, position_of};
use refutation_terms::{Leaf, Line};
use rwsp_model::Problem;
use rwsp_terms::Symbol;

/// A symbol `x` at a position, and the day leaf that holds once `x` is alone there. Days count from 1, positions from
/// 0.
#[derive(Clone, Copy)]
pub struct DayCut {
    pub p: u32,
    pub x: Symbol,
    pub day: u32,
    pub counted: Symbol,
    pub over: bool,
}

impl DayCut {
    /// The cut with its leaf.
    pub fn look(self) -> Look
        ensures { result ≡ Cut self.p self.x (Closing (Day self.day self.counted self.over)) }
    {
        Look::Cut {
            p: self.p,
            x: self.x,
            line: Line::Closing(Leaf::Day {
                day: self.day,
                x: self.counted,
                over: self.over,
            }),
        }
    }
}

/// The first symbol that a day leaf takes away, by the day and the symbol that are counted, then by week.
pub fn first_cut(problem: &Problem, counts: &Counts, doms: &Domains) -> Option<DayCut>
    requires { AreCountsOf problem.now doms.now counts.now }
    ensures { MatchOption result
        (TakesNoneAtAll problem.now (has_domain doms.now))
        (λ cut. IsDayCut problem.now (has_domain doms.now) cut.p cut.x cut.day cut.counted cut.over) }
{
    for day in 1..problem.days() + 1 {
        if let Some(cut) = cut_on_day(problem, counts, doms, day) {
            return Some(cut);
        }
    }
    None
}

// The first on the day.
fn cut_on_day(problem: &Problem, counts: &Counts, doms: &Domains, day: u32) -> Option<DayCut>
    requires counts { AreCountsOf problem.now doms.now counts.now }
    requires day { IsDay problem.now day }
    ensures { MatchOption result
        (TakesNoneOn problem.now (has_domain doms.now) day)
        (λ cut. IsDayCut problem.now (has_domain doms.now) cut.p cut.x cut.day cut.counted cut.over) }
{
    for number in 0..problem.shifts() + 1 {
        if let Some(cut) = cut_by(problem, counts, doms, day, Symbol { number }) {
            return Some(cut);
        }
    }
    None
}

// The first by the number of weeks that hold the symbol on the day.
fn cut_by(
    problem: &Problem,
    counts: &Counts,
    doms: &Domains,
    day: u32,
    counted: Symbol,
) -> Option<DayCut>
    requires counts { AreCountsOf problem.now doms.now counts.now }
    requires day { IsDay problem.now day }
    requires symbol { IsSymbol problem.now counted }
    ensures { MatchOption result
        (TakesNone problem.now (has_domain doms.now) day counted.number)
        (λ cut. IsDayCut problem.now (has_domain doms.now) cut.p cut.x cut.day cut.counted cut.over) }
{
    let Some(over) = saturation(problem, counts, doms, day, counted) else {
        return None;
    };
    let Some((p, other)) = place_beside(problem, doms, day, counted) else {
        return None;
    };
    let x = if over { counted } else { other };
    Some(DayCut {
        p,
        x,
        day,
        counted,
        over,
    })
}

// Whether one week more that certainly holds the symbol would be too many (true), or one fewer that can hold it too
// few, where it is beside another on the day at all.
fn saturation(
    problem: &Problem,
    counts: &Counts,
    doms: &Domains,
    day: u32,
    x: Symbol,
) -> Option<bool>
    requires counts { AreCountsOf problem.now doms.now counts.now }
    requires day { IsDay problem.now day }
    requires symbol { IsSymbol problem.now x }
    ensures { IsSaturation problem.now (has_domain doms.now) day x.number result }
{
    let fixed = counts.fixed(x, day);
    let possible = counts.possible(x, day);
    if possible <= fixed {
        return None;
    }
    if fixed as i32 >= problem.demand_greatest(x, day) {
        return Some(true);
    }
    if possible as i32 <= problem.demand_least(x, day) {
        return Some(false);
    }
    None
}

// The first position of the day that has the symbol beside another, and that other.
fn place_beside(problem: &Problem, doms: &Domains, day: u32, x: Symbol) -> Option<(u32, Symbol)>
    requires domains { BelongsTo problem.now doms.now }
    requires day { IsDay problem.now day }
    ensures { IsPlaceAnswer problem.now (has_domain doms.now) day x.number result }
{
    for week in 0..problem.weeks() {
        let p = position_of(problem, doms, week, day);
        if let Some(other) = neighbour(problem, doms, p, x) {
            return Some((p, other));
        }
    }
    None
}

// A symbol that is beside this one in the domain of the position.
fn neighbour(problem: &Problem, doms: &Domains, p: u32, x: Symbol) -> Option<Symbol>
    requires domains { BelongsTo problem.now doms.now }
    requires position { p < length doms.now.sets }
    ensures { IsNeighbour problem.now (has_domain doms.now) p x.number result }
{
    if !doms.has(p, x) {
        return None;
    }
    doms.prove_facts();
    for number in 0..problem.shifts() + 1 {
        let other = Symbol { number };
        if number != x.number && doms.has(p, other) {
            return Some(other);
        }
    }
    None
}
