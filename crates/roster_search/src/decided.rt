// Rosters of decided domains.
ghost use Rattle.std.specs.Prelude.{ℕ, Bool, IfOk};
ghost use Rattle.rwsp_terms.specs.declared.data.Symbol.{Symbol};
ghost use Rattle.refutation_terms.specs.declared.lines.Opening.{Opening};
ghost use Rattle.refutation_terms.specs.WindowLeaf.{WindowFits, IsBlocked};
ghost use Rattle.refutation_terms.specs.DayLeaf.{DayFits, DayHolds};
ghost use Rattle.refutation_terms.specs.FewLeaf.{FewHolds};
ghost use Rattle.refutation_terms.specs.Log.{GoalFits};
ghost use Rattle.domain_store.specs.Store.{has_domain, BelongsTo, IsDecided};
ghost use Rattle.roster_search.specs.Guides.{IsMetRoster};

use domain_store::Domains;
use rwsp_model::{Problem, Roster};
use std::alloc::AllocError;

/// The roster of the only symbols of domains under which no window leaf and no day leaf holds, nor with a goal the leaf
/// of few weeks: it meets every rule, and has as many free weekends as the goal.
pub fn met_roster(
    problem: &Problem,
    goal: Option<u32>,
    domains: &Domains,
) -> Result<Roster, AllocError>
    requires goal { (start : Opening) × GoalFits problem.now start goal }
    requires decided { IsDecided domains.now }
    requires belongs { BelongsTo problem.now domains.now }
    requires windows { (number p len : ℕ) → WindowFits problem.now number p len
        → IsBlocked problem.now (has_domain domains.now) number p len → ⊥ }
    requires days { (j : ℕ) (x : Symbol) (over : Bool) → DayFits problem.now j x
        → DayHolds problem.now (has_domain domains.now) j x over → ⊥ }
    requires few { FewHolds problem.now goal (has_domain domains.now) → ⊥ }
    ensures { IfOk result (IsMetRoster problem.now goal domains.now) }
{
    problem.prove_limits();
    domains.prove_facts();
    let roster = domains.to_roster(problem)?;
    Ok(roster)
}
