// A roster that holds given cells, or why there is none.
ghost use Rattle.std.specs.Prelude.{◌≡◌, ◌≤◌, IfOk};
ghost use Rattle.rwsp_terms.specs.declared.limits.TheConstants.{GREATEST_BUDGET};
ghost use Rattle.plain_words.specs.Statements.{told_lines};
ghost use Rattle.commands.specs.Files.{IsWithinLimit};
ghost use Rattle.commands.specs.Plan.{IsPlanOf};
ghost use Rattle.commands.specs.Fill.{IsFillTold, filled_statements, IsFillAnswer, IsFillAnswerOf, fill_answer_text, fill_status};
ghost use Rattle.commands.specs.declared.second_file.SecondKind.TheVariants as Kinds;

use crate::plan;
use crate::telling::log_told;
use crate::verify::{RosterFault, fault_line, fault_told};
use clean_words::Gate;
use plain_words::pieces::{BUDGET_SPENT, NONE_WITH_CELLS};
use refutation_log::{Found, read_cells};
use roster_planner::fill;
use roster_print::RosterRefusal;
use rwsp_model::{Fail, Problem};
use std::alloc::{AllocError, Global};
use std::thread::Threads;

/// What is found behind given cells.
#[derive(Drop)]
pub enum Answer {
    /// A roster that holds them, or a log of why there is none.
    Found(Found),
    /// The bytes give no cells of the problem.
    Refused(RosterRefusal),
}

/// The answer to the bytes of given cells, with a log of at most `budget` lines.
pub fn job<R: Threads + Sync, G: Gate>(
    rt: &R,
    alloc: Global,
    problem: &Problem,
    bytes: &[u8],
    budget: u32,
    gate: &G,
) -> Result<Answer, AllocError>
    requires short { IsWithinLimit Kinds.Roster bytes.now }
    requires budget { (1 ≤ budget) × (budget ≤ GREATEST_BUDGET) }
    ensures says { IfOk result (IsFillAnswer problem.now bytes.now budget) }
    ensures own { IfOk result (IsFillAnswerOf problem.now) }
{
    match read_cells(alloc, problem, bytes) {
        Ok(given) => {
            let found = fill(rt, alloc, problem, &given, budget, gate)?;
            Ok(Answer::Found(found))
        }
        Err(Fail::Refused(why)) => Ok(Answer::Refused(why)),
        Err(Fail::Memory) => Err(AllocError),
    }
}

/// The text of the answer: a roster, or a log, or the line of the refusal.
pub fn text(alloc: Global, problem: &Problem, answer: &Answer) -> Result<Vec<u8>, AllocError>
    requires { IsFillAnswerOf problem.now answer.now }
    ensures { IfOk result (λ v. v.items ≡ fill_answer_text problem.now answer.now) }
{
    match answer {
        Answer::Found(found) => plan::text(alloc, problem, found),
        Answer::Refused(why) => fault_line(alloc, problem, &RosterFault::Refused(*why)),
    }
}

/// What is told of the answer.
pub fn told(alloc: Global, problem: &Problem, answer: &Answer) -> Result<Vec<u8>, AllocError>
    requires { IsFillAnswerOf problem.now answer.now }
    ensures { IfOk result (λ v. IsFillTold problem.now answer.now v.items) }
{
    match answer {
        Answer::Found(found) => filled_told(alloc, problem, found),
        Answer::Refused(why) => fault_told(alloc, problem, &RosterFault::Refused(*why)),
    }
}

// What is told of what was found.
fn filled_told(alloc: Global, problem: &Problem, found: &Found) -> Result<Vec<u8>, AllocError>
    requires { IsPlanOf problem.now found.now }
    ensures { IfOk result (λ v. v.items ≡ told_lines problem.now (filled_statements problem.now found.now)) }
{
    match found {
        Found::Roster(_) => Ok(Vec::new(alloc)),
        Found::NoRoster(log) => log_told(alloc, problem, NONE_WITH_CELLS, log),
        Found::Undecided(log) => log_told(alloc, problem, BUDGET_SPENT, log),
    }
}

/// The status of the answer.
pub fn status(answer: &Answer) -> u8
    ensures { result ≡ fill_status answer.now }
{
    match answer {
        Answer::Found(found) => plan::status(found),
        Answer::Refused(_) => 3,
    }
}
