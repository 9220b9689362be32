// The search.
ghost use Rattle.std.specs.Prelude.{◌≡◌, ℕ, ◌+◌, ◌*◌, ◌^◌, ◌<◌, ◌≤◌, ◌↔◌, Option, None, IfOk, IfSome};
ghost use Rattle.rwsp_terms.specs.Instance.{Instance, cells, shift_count};
ghost use Rattle.refutation_terms.specs.Log.{OpeningFits, GoalFits, IsAllowed};
ghost use Rattle.domain_store.specs.Looks.{HasPlainLeaves, IsSame};
ghost use Rattle.roster_search.specs.Founds.{IsFound, HasSpentBudget};
ghost use Rattle.roster_search.specs.Guides.{AreUnweighed, IsWantedBehind};
ghost use Rattle.roster_search.specs.Written.{HasRoom, IsSearching, IsLater};

use crate::ending::end;
use crate::progress::Progress;
use crate::search_step::step;
use crate::sight::Arrival;
use crate::{Aim, Guide};
use domain_store::Propagator;
use refutation_log::Found;
use rwsp_model::{Problem, Roster};
use rwsp_terms::limits::GREATEST_BUDGET;
use std::alloc::{AllocError, Global};

/// Looks for a roster that holds what the opening gives, by splitting cases, and writes the cases down as the lines of a
/// log (backtracking: S. Golomb and L. Baumert, 1965). The guide may give a leaf where a case begins, a roster at the
/// start, and a place to split.
pub fn search<A: Propagator, G: Guide>(
    alloc: Global,
    problem: &Problem,
    aim: Aim,
    propagator: &mut A,
    guide: &mut G,
) -> Result<Found, AllocError>
    requires budget { (1 ≤ aim.budget) × (aim.budget ≤ GREATEST_BUDGET) }
    requires opening { OpeningFits problem.now aim.opening × IsAllowed problem.now aim.opening }
    requires goal { GoalFits problem.now aim.opening aim.goal }
    requires serves { A.serves propagator.old problem.now }
    requires plain { HasPlainLeaves problem.now (A.leaves propagator.old) }
    requires unweighed { AreUnweighed aim.goal (A.leaves propagator.old) }
    requires guide { G.serves guide.old problem.now aim.goal }
    ensures found { IfOk result (λ found. IsFound problem.now aim.opening aim.goal aim.budget
        (A.leaves propagator.old) (A.spent propagator.old) found) }
    ensures complete { IfOk result (λ found.
        HasSpentBudget found → aim.budget + 1 < 2 * (shift_count problem.now + 1) ^ cells problem.now) }
    ensures same { IsSame A.serves A.leaves A.spent propagator.old propagator.new }
    ensures guide { (P : Instance) (g : Option ℕ) → G.serves guide.old P g ↔ G.serves guide.new P g }
{
    let mut progress = Progress::new(alloc, problem, aim)?;
    propagator.undone(progress.walk.domains());
    let written = write_lines(alloc, problem, propagator, guide, &mut progress);
    match written {
        Ok(None) => end(problem, progress),
        Ok(Some(roster)) => {
            drop(progress);
            Ok(Found::Roster(roster))
        }
        Err(error) => {
            drop(progress);
            Err(error)
        }
    }
}

// Writes lines until they are one whole tree or the budget is spent, or gives the roster that it meets before. The guide
// is asked for one behind the first step.
fn write_lines<A: Propagator, G: Guide>(
    alloc: Global,
    problem: &Problem,
    propagator: &mut A,
    guide: &mut G,
    progress: &mut Progress,
) -> Result<Option<Roster>, AllocError>
    requires searching { IsSearching problem.now A.serves A.tracks A.leaves propagator.old progress.old }
    requires guide { G.serves guide.old problem.now progress.old.aim.goal }
    ensures searching { IfOk result (λ found. found ≡ None
        → IsSearching problem.now A.serves A.tracks A.leaves propagator.new progress.new) }
    ensures later { IfOk result (λ found. found ≡ None
        → IsLater problem.now (A.leaves propagator.old) (A.spent propagator.old) progress.old progress.new) }
    ensures ended { IfOk result (λ found. found ≡ None → HasRoom progress.new → ⊥) }
    ensures roster { IfOk result (λ found.
        IfSome found (IsWantedBehind problem.now progress.old.aim.opening progress.old.aim.goal)) }
    ensures same { IsSame A.serves A.leaves A.spent propagator.old propagator.new }
    ensures guide { (P : Instance) (goal : Option ℕ) → G.serves guide.old P goal ↔ G.serves guide.new P goal }
{
    let mut arrival = Arrival::NewCase;
    let mut is_due = true;
    while progress.goes_on() {
        progress.prove_domains();
        match step(alloc, problem, propagator, guide, &mut arrival, progress)? {
            Some(roster) => return Ok(Some(roster)),
            None => {}
        }
        match asked_if_due(alloc, guide, progress, is_due)? {
            Some(roster) => return Ok(Some(roster)),
            None => {}
        }
        is_due = false;
    }
    Ok(None)
}

// The guide's roster, if it is due and the tree isn't whole.
fn asked_if_due<G: Guide>(
    alloc: Global,
    guide: &mut G,
    progress: &Progress,
    is_due: bool,
) -> Result<Option<Roster>, AllocError>
    requires problem { (P : Instance) × (goal : Option ℕ) × G.serves guide.old P goal
        × OpeningFits P progress.now.aim.opening × GoalFits P progress.now.aim.opening goal }
    ensures wanted { IfOk result (λ found. (P : Instance) (goal : Option ℕ)
        → G.serves guide.old P goal → IfSome found (IsWantedBehind P progress.now.aim.opening goal)) }
    ensures guide { (P : Instance) (goal : Option ℕ) → G.serves guide.old P goal ↔ G.serves guide.new P goal }
{
    if is_due && progress.is_open() {
        guide.roster(alloc, &progress.aim.opening)
    } else {
        Ok(None)
    }
}
