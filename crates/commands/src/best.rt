// A roster with the most free weekends, and why none has more.
ghost use Rattle.std.specs.Prelude.{◌≡◌, ◌≤◌, IfOk};
ghost use Rattle.rwsp_terms.specs.declared.limits.TheConstants.{DAYS_OF_WEEK};
ghost use Rattle.commands.specs.Best.{IsBestTold, IsBestAnswer, IsBestOf, best_text, best_status};

mod texts;

use crate::telling::log_told;
use plain_words::pieces::BUDGET_SPENT;
use refutation_log::{BestFound, print_log};
use roster_planner::{Effort, best};
use rwsp_model::Problem;
use rwsp_terms::limits::GREATEST_BUDGET;
use std::alloc::{AllocError, Global};
use texts::{best_text, best_told, none_told, undecided_text};

/// What is found of the most free weekends of the problem, with the effort for each goal.
pub fn job(alloc: Global, problem: &Problem, effort: Effort) -> Result<BestFound, AllocError>
    requires weekly { problem.now.days ≡ DAYS_OF_WEEK }
    requires budget { (1 ≤ effort.budget) × (effort.budget ≤ GREATEST_BUDGET) }
    ensures says { IfOk result (IsBestAnswer problem.now effort.budget effort.counts) }
    ensures own { IfOk result (IsBestOf problem.now) }
{
    best(alloc, problem, effort)
}

/// The text of what was found: a roster with the number of its free weekends, and a free log.
pub fn text(alloc: Global, problem: &Problem, found: &BestFound) -> Result<Vec<u8>, AllocError>
    requires { IsBestOf problem.now found.now }
    ensures { IfOk result (λ v. v.items ≡ best_text problem.now found.now) }
{
    match found {
        BestFound::Best { roster, proof } => best_text(alloc, problem, roster, proof),
        BestFound::NoRoster(log) => print_log(alloc, problem, log),
        BestFound::Undecided { roster, partial } => {
            undecided_text(alloc, problem, roster, partial)
        }
    }
}

/// What is told of the answer.
pub fn told(alloc: Global, problem: &Problem, found: &BestFound) -> Result<Vec<u8>, AllocError>
    requires { IsBestOf problem.now found.now }
    ensures { IfOk result (λ v. IsBestTold problem.now found.now v.items) }
{
    match found {
        BestFound::Best { roster, proof } => best_told(alloc, problem, roster, proof),
        BestFound::NoRoster(log) => none_told(alloc, problem, log),
        BestFound::Undecided { partial, .. } => log_told(alloc, problem, BUDGET_SPENT, partial),
    }
}

/// The status of what was found.
pub fn status(found: &BestFound) -> u8
    ensures { result ≡ best_status found.now }
{
    match found {
        BestFound::Best { .. } => 0,
        BestFound::NoRoster(_) => 1,
        BestFound::Undecided { .. } => 4,
    }
}
