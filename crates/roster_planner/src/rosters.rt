// Rosters by other means than cases.
ghost use Rattle.std.specs.Prelude.{None, IfOk};
ghost use Rattle.std.specs.Option.{IfSome};
ghost use Rattle.refutation_terms.specs.Log.{OpeningFits};
ghost use Rattle.roster_search.specs.Guides.{IsWantedBehind};

use refutation_terms::Opening;
use roster_finder::{Patience, RosterFinder};
use rwsp_model::Roster;
use std::alloc::{AllocError, Global};

/// A roster that meets every rule and holds the cells that the opening gives, where one is found.
pub fn roster_behind(
    alloc: Global,
    finder: &RosterFinder<'_>,
    opening: &Opening,
    patience: Patience,
) -> Result<Option<Roster>, AllocError>
    requires { OpeningFits finder.now opening.now }
    ensures { IfOk result (λ found. IfSome found (IsWantedBehind finder.now opening.now None)) }
{
    match opening {
        Opening::Given(given) => finder.find_given(alloc, given, patience),
        Opening::Full | Opening::Turned(_) => finder.find(alloc, 0, patience),
    }
}
