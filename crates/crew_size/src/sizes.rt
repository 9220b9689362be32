// A problem with another number of weeks.
ghost use Rattle.std.specs.Prelude.{◌≡◌, IfOk, MatchBool};
ghost use Rattle.crew_size.specs.Sizes.{with_weeks, IsSize};

use rwsp_model::Problem;
use rwsp_terms::limits::{MOST_CELLS, MOST_WEEKS};
use std::alloc::AllocError;

/// Whether the problem may have this number of weeks.
pub fn is_size(problem: &Problem, weeks: u32) -> bool
    ensures { MatchBool result (IsSize problem.now weeks) (IsSize problem.now weeks → ⊥) }
{
    if weeks < 1 {
        return false;
    }
    if weeks > MOST_WEEKS {
        return false;
    }
    weeks * problem.days() <= MOST_CELLS
}

/// The problem with this number of weeks in place of its own, and all else the same.
pub fn with_weeks(problem: &Problem, weeks: u32) -> Result<Problem, AllocError>
    requires { IsSize problem.now weeks }
    ensures { IfOk result (λ sized. sized ≡ with_weeks problem.now weeks) }
{
    problem.with_weeks(weeks)
}
