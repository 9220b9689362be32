// How much each symbol of a domain is needed on its day.
ghost use Rattle.std.specs.Prelude.{◌≡◌, ◌+◌, ◌<◌, ◌≤◌, length, IsTrue, None, MatchOption};
ghost use Rattle.rwsp_terms.specs.Instance.{IsSymbol};
ghost use Rattle.domain_store.specs.Store.{BelongsTo, has_domain};
ghost use Rattle.roster_search.specs.Guides.{IsEmpty};

use domain_store::Domains;
use rwsp_model::Problem;
use rwsp_terms::Symbol;
use rwsp_terms::limits::{MOST_CELLS, MOST_DAYS};

/// The symbol of the domain that is needed most on the day of the position, of several the first: the value that a
/// search tries first. Costs a step for each symbol and week.
pub fn most_needed(problem: &Problem, domains: &Domains, p: u32) -> Option<Symbol>
    requires belongs { BelongsTo problem.now domains.now }
    requires position { p < length domains.now.sets }
    ensures { MatchOption result (IsEmpty domains.now p) (λ x. IsTrue (has_domain domains.now p x.number)) }
{
    domains.prove_facts();
    let mut best: Option<Wanted> = None;
    for number in 0..domains.shifts() + 1 {
        let x = Symbol { number };
        if domains.has(p, x) {
            let here = need_of(problem, domains, p, x);
            if is_better(&here, &best) {
                best = Some(here);
            }
        }
    }
    match best {
        Some(wanted) => Some(wanted.x),
        None => None,
    }
}

// A symbol of a domain, and how much it is needed on a day: the weeks that still need it, and the places, which are
// the weeks that may have it or not.
#[derive(Clone, Copy)]
struct Wanted {
    x: Symbol,
    weeks: i32,
    places: i32,
}

// Whether the symbol is needed more than the best so far, as fractions.
fn is_better(here: &Wanted, best: &Option<Wanted>) -> bool
    ensures { best.now ≡ None → IsTrue result }
{
    match best {
        Some(best) => {
            i64::from(here.weeks) * i64::from(best.places)
                > i64::from(best.weeks) * i64::from(here.places)
        }
        None => true,
    }
}

// How much the symbol is needed on the day of the position.
fn need_of(problem: &Problem, domains: &Domains, p: u32, x: Symbol) -> Wanted
    requires symbol { IsSymbol problem.now x }
    ensures { result.x ≡ x }
{
    let days = problem.days();
    let column = count_column(domains, p % days, days, x);
    Wanted {
        x,
        weeks: problem.demand_least(x, p % days + 1) - column.fixed as i32,
        places: column.possible as i32 - column.fixed as i32,
    }
}

// How many positions of a day certainly hold a symbol, and how many can hold it.
#[derive(Clone, Copy)]
struct Column {
    fixed: u32,
    possible: u32,
}

// The counts of the positions that are whole weeks behind the first.
fn count_column(domains: &Domains, first: u32, days: u32, x: Symbol) -> Column
    requires some { 1 ≤ days }
    requires few { (first ≤ MOST_DAYS) × (days ≤ MOST_DAYS) }
    ensures { (result.fixed ≤ result.possible) × (result.possible ≤ MOST_CELLS + MOST_DAYS) }
{
    let mut fixed = 0;
    let mut possible = 0;
    let mut q = first;
    while q < domains.cells() {
        let held = domains.has(q, x);
        possible += u32::from(held);
        fixed += u32::from(held && domains.size(q) == 1);
        q += days;
    }
    Column { fixed, possible }
}
