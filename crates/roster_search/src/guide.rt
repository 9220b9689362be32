// What a search may be given from outside.
ghost use Rattle.std.specs.Prelude.{◌↔◌, ℕ, Option, IfOk};
ghost use Rattle.std.specs.Option.{IfSome};
ghost use Rattle.rwsp_terms.specs.Instance.{Instance};
ghost use Rattle.refutation_terms.specs.Log.{OpeningFits, GoalFits};
ghost use Rattle.domain_store.specs.Store.{BelongsTo};
ghost use Rattle.roster_search.specs.Guides.{IsLeafGiven, IsSplitIn, IsWantedBehind};

use crate::NextSplit;
use domain_store::Domains;
use refutation_terms::{Line, Opening};
use rwsp_model::Roster;
use std::alloc::{AllocError, Global};

/// Advice for a search: better leaves, a roster by other means, where to split (a branching heuristic). It can't make
/// the search unsound, which keeps its promises whatever its guide gives and whatever it leaves out: what it gives is
/// true, and costs a line of the log at most.
pub trait Guide {
    // it was made for this problem, and for logs with this goal or without one
    ghost serves: { Self → Instance → Option ℕ → Type 0 };

    /// A leaf that holds under the domains, if it has one. It is asked where a case begins, and again where spent
    /// symbols were taken away since and no more are seen.
    fn leaf(&mut self, alloc: Global, doms: &Domains) -> Result<Option<Line>, AllocError>
        requires problem { (P : Instance) × (goal : Option ℕ) × serves self.old P goal × BelongsTo P doms.now }
        ensures leaf { IfOk result (λ line.
            (P : Instance) (goal : Option ℕ) → serves self.old P goal → IsLeafGiven P goal doms.now line) }
        ensures serves { (P : Instance) (goal : Option ℕ) → serves self.old P goal ↔ serves self.new P goal };

    /// A roster that meets every rule, has as many free weekends as the goal and holds the cells that the opening gives,
    /// if it has one. It is asked once, behind the first step of a search, where that leaves something open.
    fn roster(&mut self, alloc: Global, opening: &Opening) -> Result<Option<Roster>, AllocError>
        requires problem { (P : Instance) × (goal : Option ℕ) × serves self.old P goal
            × OpeningFits P opening.now × GoalFits P opening.now goal }
        ensures wanted { IfOk result (λ found. (P : Instance) (goal : Option ℕ)
            → serves self.old P goal → IfSome found (IsWantedBehind P opening.now goal)) }
        ensures serves { (P : Instance) (goal : Option ℕ) → serves self.old P goal ↔ serves self.new P goal };

    /// Where to split, if it has a choice. It is asked where there is no leaf and no spent symbol.
    fn split(&mut self, doms: &Domains) -> Option<NextSplit>
        requires problem { (P : Instance) × (goal : Option ℕ) × serves self.old P goal × BelongsTo P doms.now }
        ensures split { IfSome result (IsSplitIn doms.now) }
        ensures serves { (P : Instance) (goal : Option ℕ) → serves self.old P goal ↔ serves self.new P goal };
}

/// The guide that gives nothing, for any problem and goal.
#[derive(Drop)]
pub struct NoGuide;

impl Guide for NoGuide {
    ghost serves = { λ w P goal. Unit {0} };

    fn leaf(&mut self, _alloc: Global, _doms: &Domains) -> Result<Option<Line>, AllocError> {
        Ok(None)
    }

    fn roster(&mut self, _alloc: Global, _opening: &Opening) -> Result<Option<Roster>, AllocError> {
        Ok(None)
    }

    fn split(&mut self, _doms: &Domains) -> Option<NextSplit> {
        None
    }
}
