// The least crew.
ghost use Rattle.std.specs.Prelude.{◌≡◌, ◌++◌, ◌<◌, ◌+◌, ◌≤◌, IfOk, OnOk, codes};
ghost use Rattle.std.specs.Fmt.{decimal};
ghost use Rattle.crew_size.specs.Fitting.{FitsSizes};
ghost use Rattle.plain_words.specs.Statements.{told_lines};
ghost use Rattle.commands.specs.Lines.{line};
ghost use Rattle.rwsp_terms.specs.declared.limits.TheConstants.{MOST_WEEKS, MOST_SIZES, GREATEST_STAFF_BUDGET};
ghost use Rattle.commands.specs.Staff.{IsStaffTold, IsStaffAnswer, IsStaffAnswerOf, staff_answer_text, end_status, spent_statements, staff_status};

use crate::telling::one_told;
use clean_words::Gate;
use crew_size::{StaffEnd, StaffRun, print_staff};
use plain_words::pieces::{LAST_LOG_SPENT, STAFF_RANGE};
use plain_words::{Part, put_staff_told, put_told};
use roster_planner::least_crew;
pub use roster_planner::{Effort, Sizes};
use rwsp_model::Problem;
use rwsp_terms::limits::MOST_CELLS;
use rwsp_text::put_labelled;
use std::alloc::{AllocError, Global};
use std::thread::Threads;

/// What is found of the least crew.
#[derive(Drop)]
pub enum Answer {
    /// The least crew, or that there is none up to the last size, or how far the search came.
    Run(StaffRun),
    /// The problem would have too many cells with this number of weeks.
    Range(u32),
}

/// The answer to `staff`: each number of weeks is planned with the whole effort, from the first to the last, until one has
/// a roster.
pub fn job<R: Threads + Sync, G: Gate>(
    rt: &R,
    alloc: Global,
    problem: &Problem,
    sizes: Sizes,
    effort: Effort,
    gate: &G,
) -> Result<Answer, AllocError>
    requires some { 1 ≤ sizes.low }
    requires sizes { (sizes.low ≤ sizes.high) × (sizes.high ≤ MOST_WEEKS) × (sizes.high < sizes.low + MOST_SIZES) }
    requires budget { (1 ≤ effort.budget) × (effort.budget ≤ GREATEST_STAFF_BUDGET) }
    ensures says { IfOk result (IsStaffAnswer problem.now sizes.low sizes.high effort.budget effort.counts) }
    ensures own { IfOk result (IsStaffAnswerOf problem.now) }
{
    if sizes.high * problem.days() > MOST_CELLS {
        return Ok(Answer::Range(sizes.high));
    }
    let run = least_crew(rt, alloc, problem, sizes, effort, gate)?;
    Ok(Answer::Run(run))
}

/// The text of the answer: a staff text, or a line.
pub fn text(alloc: Global, problem: &Problem, answer: &Answer) -> Result<Vec<u8>, AllocError>
    requires { IsStaffAnswerOf problem.now answer.now }
    ensures { IfOk result (λ v. v.items ≡ staff_answer_text problem.now answer.now) }
{
    match answer {
        Answer::Run(run) => print_staff(alloc, problem, run),
        Answer::Range(weeks) => range_line(alloc, *weeks),
    }
}

// The line that says that a number of weeks gives too many cells.
fn range_line(alloc: Global, weeks: u32) -> Result<Vec<u8>, AllocError>
    ensures { IfOk result (λ v. v.items ≡ line (codes "staff range: weeks " ++ decimal weeks)) }
{
    let mut out = Vec::new(alloc);
    put_labelled(&mut out, b"staff range: weeks ".as_slice(), weeks)?;
    out.push(b'\n')?;
    Ok(out)
}

/// What is told of the answer.
pub fn told(alloc: Global, problem: &Problem, answer: &Answer) -> Result<Vec<u8>, AllocError>
    requires { IsStaffAnswerOf problem.now answer.now }
    ensures { IfOk result (λ v. IsStaffTold problem.now answer.now v.items) }
{
    match answer {
        Answer::Run(run) => run_told(alloc, problem, run),
        Answer::Range(weeks) => one_told(alloc, problem, STAFF_RANGE, &[Part::Number(*weeks)]),
    }
}

// What is told of a search by numbers of weeks.
fn run_told(alloc: Global, problem: &Problem, run: &StaffRun) -> Result<Vec<u8>, AllocError>
    requires { FitsSizes problem.now run.now }
    ensures { IfOk result (λ v. IsStaffTold problem.now (Answer.Run run.now) v.items) }
{
    let mut out = Vec::new(alloc);
    put_spent(&mut out, problem, run.end())?;
    put_staff_told(&mut out, problem, run)?;
    Ok(out)
}

// Tells that the budget was spent, where it was.
fn put_spent(out: &mut Vec<u8>, problem: &Problem, end: &StaffEnd) -> Result<(), AllocError>
    ensures { OnOk result (out.new.items ≡ out.old.items ++ told_lines problem.now (spent_statements end.now)) }
{
    match end {
        StaffEnd::Undecided(_) => put_told(out, problem, LAST_LOG_SPENT, &[]),
        StaffEnd::Least(_) | StaffEnd::NoneTo => Ok(()),
    }
}

/// The status of the answer.
pub fn status(answer: &Answer) -> u8
    ensures { result ≡ staff_status answer.now }
{
    match answer {
        Answer::Run(run) => end_status(run.end()),
        Answer::Range(_) => 3,
    }
}

// The status where the sizes of a crew ended in this way.
fn end_status(end: &StaffEnd) -> u8
    ensures { result ≡ end_status end.now }
{
    match end {
        StaffEnd::Least(_) => 0,
        StaffEnd::NoneTo => 1,
        StaffEnd::Undecided(_) => 4,
    }
}
