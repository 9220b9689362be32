// Which number to change.
ghost use Rattle.std.specs.Prelude.{◌≡◌, ◌≤◌, IfOk};
ghost use Rattle.commands.specs.Mend.{IsMendTold, IsMendAnswer};
ghost use Rattle.std.specs.List.{AllZip};
ghost use Rattle.ways_out.specs.Answers.{AreWaysOf, HasSteps};
ghost use Rattle.ways_out.specs.Changes.{changes};
ghost use Rattle.plain_words.specs.Statements.{told_lines};
ghost use Rattle.plain_words.specs.Told.{ways_statements};
ghost use Rattle.ways_out.specs.Texts.{ways_text, ways_status};

use crate::telling::{log_told, one_told};
use clean_words::Gate;
use plain_words::pieces::{MEND_SPENT, NO_CHANGE_NEEDED};
use plain_words::put_ways_told;
use roster_planner::Effort;
use rwsp_model::Problem;
use rwsp_terms::limits::{GREATEST_BUDGET, USUAL_WORKERS};
use std::alloc::{AllocError, Global};
use std::thread::Threads;
use ways_out::{Outcome, WaysOut, print_ways, status_of_ways, ways_out};

/// Whether the problem has a roster, or which numbers of it to change so that it has one. Each plan has the whole effort.
pub fn job<R: Threads + Sync, G: Gate>(
    rt: &R,
    alloc: Global,
    problem: &Problem,
    effort: Effort,
    gate: &G,
) -> Result<WaysOut, AllocError>
    requires { (1 ≤ effort.budget) × (effort.budget ≤ GREATEST_BUDGET) }
    ensures says { IfOk result (IsMendAnswer problem.now effort.budget effort.counts) }
    ensures own { IfOk result (AreWaysOf problem.now) }
{
    ways_out(rt, alloc, problem, effort, USUAL_WORKERS, gate)
}

/// The text of the answer: a line for each change that helps and a last line, or a roster, or a log.
pub fn text(alloc: Global, problem: &Problem, answer: &WaysOut) -> Result<Vec<u8>, AllocError>
    requires { AreWaysOf problem.now answer.now }
    ensures { IfOk result (λ v. v.items ≡ ways_text problem.now answer.now) }
{
    print_ways(alloc, problem, answer)
}

/// What is told of the answer.
pub fn told(alloc: Global, problem: &Problem, answer: &WaysOut) -> Result<Vec<u8>, AllocError>
    requires { AreWaysOf problem.now answer.now }
    ensures { IfOk result (λ v. IsMendTold problem.now answer.now v.items) }
{
    match answer {
        WaysOut::NoNeed(_) => one_told(alloc, problem, NO_CHANGE_NEEDED, &[]),
        WaysOut::Undecided(log) => log_told(alloc, problem, MEND_SPENT, log),
        WaysOut::Changes(outcomes) => changes_told(alloc, problem, outcomes),
    }
}

// What is told of the outcomes of all changes.
fn changes_told(
    alloc: Global,
    problem: &Problem,
    outcomes: &[Outcome],
) -> Result<Vec<u8>, AllocError>
    requires { AllZip (HasSteps problem.now) (changes problem.now) outcomes.now }
    ensures { IfOk result (λ v. v.items ≡ told_lines problem.now (ways_statements problem.now outcomes.now)) }
{
    let mut out = Vec::new(alloc);
    put_ways_told(&mut out, problem, outcomes)?;
    Ok(out)
}

/// The status of the answer.
pub fn status(answer: &WaysOut) -> u8
    ensures { result ≡ ways_status answer.now }
{
    status_of_ways(answer)
}
