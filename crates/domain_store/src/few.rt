// The few leaf: fewer weeks than the goal can have their weekend off.
ghost use Rattle.std.specs.Prelude.{◌≡◌, ◌+◌, ◌<◌, ◌≤◌, ◌↔◌, IsTrue, count_by};
ghost use Rattle.std.specs.List.{range_with_len};
ghost use Rattle.rwsp_terms.specs.declared.limits.TheConstants.{MOST_WEEKS, DAYS_OF_WEEK};
ghost use Rattle.refutation_terms.specs.FewLeaf.{may_be_free, HasTooFewFree};
ghost use Rattle.domain_store.specs.Store.{BelongsTo, has_domain};

use crate::Domains;
use crate::day::position_of;
use rwsp_model::Problem;
use rwsp_terms::Symbol;
use rwsp_terms::limits::{SATURDAY, SUNDAY};

// Whether the domains leave the day off on both days of the weekend of a week.
fn may_be_free(problem: &Problem, doms: &Domains, week: u32) -> bool
    requires domains { BelongsTo problem.now doms.now }
    requires days { problem.now.days ≡ DAYS_OF_WEEK }
    requires week { week < problem.now.weeks }
    ensures { result ≡ may_be_free (has_domain doms.now) week }
{
    doms.has(position_of(problem, doms, week, SATURDAY + 1), Symbol::OFF)
        && doms.has(position_of(problem, doms, week, SUNDAY + 1), Symbol::OFF)
}

// How many weeks can have their weekend off.
#[tactic(auto, using(rwsp_terms::proofs::Counting::count_then, rwsp_terms::proofs::Counting::count_else))]
fn count_free(problem: &Problem, doms: &Domains) -> u32
    requires domains { BelongsTo problem.now doms.now }
    requires days { problem.now.days ≡ DAYS_OF_WEEK }
    ensures value { result ≡ count_by (may_be_free (has_domain doms.now)) (range_with_len 0 problem.now.weeks) }
    ensures few { result ≤ MOST_WEEKS }
{
    let mut count = 0;
    for week in 0..problem.weeks() {
        if may_be_free(problem, doms, week) {
            count += 1;
        }
    }
    count
}

/// Whether fewer weeks than the goal can still have both days of the weekend off. Costs a step for each week, and takes
/// no memory.
pub fn few_holds(problem: &Problem, doms: &Domains, goal: u32) -> bool
    requires domains { BelongsTo problem.now doms.now }
    requires days { problem.now.days ≡ DAYS_OF_WEEK }
    ensures { IsTrue result ↔ HasTooFewFree problem.now goal (has_domain doms.now) }
{
    count_free(problem, doms) < goal
}
