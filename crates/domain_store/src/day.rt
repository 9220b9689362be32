// Day leaves: too many weeks certainly hold a symbol on a day, or too few can.
ghost use Rattle.std.specs.Prelude.{◌≡◌, ◌+◌, ◌-◌, ◌*◌, ◌<◌, ◌≤◌, ◌↔◌, length, IsTrue};
ghost use Rattle.rwsp_terms.specs.Instance.{IsDay, IsSymbol};
ghost use Rattle.rwsp_terms.specs.declared.limits.TheConstants.{MOST_WEEKS};
ghost use Rattle.refutation_terms.specs.declared.lines.Line.TheVariants.{Closing};
ghost use Rattle.refutation_terms.specs.declared.lines.Leaf.TheVariants.{Day};
ghost use Rattle.refutation_terms.specs.DayLeaf.{is_only, fixed, possible};
ghost use Rattle.refutation_terms.specs.Log.{Holds};
ghost use Rattle.domain_store.specs.Store.{BelongsTo, has_domain};

use crate::Domains;
use rwsp_model::Problem;
use rwsp_terms::Symbol;

// Whether the domain of the position has the symbol and no other.
fn is_only(problem: &Problem, doms: &Domains, p: u32, x: Symbol) -> bool
    requires domains { BelongsTo problem.now doms.now }
    requires position { p < length doms.now.sets }
    ensures { result ≡ is_only problem.now (has_domain doms.now) p x.number }
{
    for number in 0..problem.shifts() + 1 {
        if number != x.number && doms.has(p, Symbol { number }) {
            return false;
        }
    }
    doms.has(p, x)
}

// How many weeks certainly hold the symbol on the day.
#[tactic(auto, using(rwsp_terms::proofs::Counting::count_then, rwsp_terms::proofs::Counting::count_else))]
fn count_fixed(problem: &Problem, doms: &Domains, day: u32, x: Symbol) -> u32
    requires domains { BelongsTo problem.now doms.now }
    requires day { IsDay problem.now day }
    ensures value { result ≡ fixed problem.now (has_domain doms.now) day x.number }
    ensures few { result ≤ MOST_WEEKS }
{
    let mut count = 0;
    for week in 0..problem.weeks() {
        if is_only(problem, doms, position_of(problem, doms, week, day), x) {
            count += 1;
        }
    }
    count
}

// How many weeks can hold the symbol on the day.
#[tactic(auto, using(rwsp_terms::proofs::Counting::count_then, rwsp_terms::proofs::Counting::count_else))]
fn count_possible(problem: &Problem, doms: &Domains, day: u32, x: Symbol) -> u32
    requires domains { BelongsTo problem.now doms.now }
    requires day { IsDay problem.now day }
    ensures value { result ≡ possible problem.now (has_domain doms.now) day x.number }
    ensures few { result ≤ MOST_WEEKS }
{
    let mut count = 0;
    for week in 0..problem.weeks() {
        if doms.has(position_of(problem, doms, week, day), x) {
            count += 1;
        }
    }
    count
}

/// The position of the day in the week. Weeks and positions count from 0, days from 1.
pub fn position_of(problem: &Problem, doms: &Domains, week: u32, day: u32) -> u32
    requires domains { BelongsTo problem.now doms.now }
    requires week { week < problem.now.weeks }
    requires day { IsDay problem.now day }
    ensures value { result ≡ week * problem.now.days + (day - 1) }
    ensures within { result < length doms.now.sets }
{
    problem.prove_limits();
    doms.prove_facts();
    week * problem.days() + (day - 1)
}

/// Whether more weeks certainly hold the symbol on the day than may hold it, where `over` is set, and otherwise
/// whether fewer can hold it than must. Days count from 1. Costs a step for each week, and takes no memory.
pub fn day_holds(problem: &Problem, doms: &Domains, day: u32, x: Symbol, over: bool) -> bool
    requires domains { BelongsTo problem.now doms.now }
    requires day { IsDay problem.now day }
    requires symbol { IsSymbol problem.now x }
    ensures { IsTrue result ↔ Holds problem.now None (has_domain doms.now) (Closing (Day day x over)) }
{
    if over {
        let fixed = count_fixed(problem, doms, day, x) as i32;
        fixed > problem.demand_greatest(x, day)
    } else {
        let possible = count_possible(problem, doms, day, x) as i32;
        possible < problem.demand_least(x, day)
    }
}
