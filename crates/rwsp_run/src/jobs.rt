// What each task needs, does, prints and ends with: a line each, for the module of the command.
ghost use Rattle.std.specs.Prelude.{◌≡◌, IfOk};
ghost use Rattle.command_line.specs.Commands.{IsProblemTaskInRange, IsFilesTaskInRange, EndsInTime};
ghost use Rattle.commands.specs.Files.{IsWithinLimit};
ghost use Rattle.rwsp_run.specs.Commands.{IsProblemAnswer, IsFilesAnswer, IsPrintable, IsJobTold, slips_behind, slips_behind_log, slips_behind_run, job_text, second_kind, SuitsProblemTask, SuitsFilesTask, unfit_by_days, unfit_by_names, unfit_for_problem_task, unfit_for_files_task};

use crate::answer::Unfit;
use clean_words::Gate;
use command_line::{FilesTask, ProblemTask};
use commands::plan::Effort;
use commands::staff::Sizes;
use commands::{
    SecondKind, best, check, check_fill, check_free, check_staff, crew, fill, ics, mend, on, page,
    plan, reduce, rest, roster, staff, verify,
};
use crew_size::StaffEnd;
use made_problems::LeastRest;
use plain_words::Telling;
use refutation_log::{BestFound, Found, Log, is_open_word_taken};
use rwsp_file::print_problem;
use rwsp_model::Problem;
use rwsp_terms::limits::DAYS_OF_WEEK;
use std::alloc::{AllocError, Global};
use std::thread::Threads;
use ways_out::WaysOut;

/// The answer to a command on a problem, as its module in `commands` has it.
#[derive(Drop)]
pub enum JobAnswer {
    /// The problem was printed in its canonical form.
    Show,
    Plan(Found),
    Best(BestFound),
    Staff(staff::Answer),
    Verify(verify::Answer),
    /// To a log, with a goal or without.
    Check(check::Answer),
    CheckStaff(check_staff::Answer),
    Reduce(reduce::Answer),
    Crew(crew::Answer),
    Mend(WaysOut),
    Rest(LeastRest),
    Page(page::Answer),
    Ics(ics::Answer),
    On(on::Answer),
    Roster(roster::Answer),
    Fill(fill::Answer),
}

/// The kind of the task's second file.
pub fn second_kind(task: &FilesTask) -> SecondKind
    ensures { result ≡ second_kind task.now }
{
    match task {
        FilesTask::Verify
        | FilesTask::Crew { .. }
        | FilesTask::Page
        | FilesTask::Ics { .. }
        | FilesTask::On { .. }
        | FilesTask::Fill { .. } => SecondKind::Roster,
        _ => SecondKind::Log,
    }
}

/// Why the problem isn't one for the task on it; None where it is.
pub fn unfit_for_problem_task(task: &ProblemTask, problem: &Problem) -> Option<Unfit>
    ensures { result ≡ unfit_for_problem_task task.now problem.now }
{
    match task {
        ProblemTask::Best { .. } => unfit_by_days(problem),
        _ => None,
    }
}

/// Why the problem isn't one for the task on two files; None where it is.
pub fn unfit_for_files_task(task: &FilesTask, problem: &Problem) -> Option<Unfit>
    ensures { result ≡ unfit_for_files_task task.now problem.now }
{
    match task {
        FilesTask::CheckFree => unfit_by_days(problem),
        FilesTask::Fill { .. } | FilesTask::CheckFill => unfit_by_names(problem),
        _ => None,
    }
}

// Why it isn't one for a task that is for weeks of seven days.
fn unfit_by_days(problem: &Problem) -> Option<Unfit>
    ensures { result ≡ unfit_by_days problem.now }
{
    let days = problem.days();
    if days == DAYS_OF_WEEK {
        None
    } else {
        Some(Unfit::NotWeekly(days))
    }
}

// Why it isn't one for a task that leaves cells open by the word `?`.
fn unfit_by_names(problem: &Problem) -> Option<Unfit>
    ensures { result ≡ unfit_by_names problem.now }
{
    if is_open_word_taken(problem) {
        Some(Unfit::OpenWordTaken)
    } else {
        None
    }
}

/// The answer of a task on a problem.
pub fn answer_on_problem<R: Threads + Sync, G: Gate>(
    rt: &R,
    alloc: Global,
    problem: &Problem,
    task: ProblemTask,
    gate: &G,
) -> Result<JobAnswer, AllocError>
    requires range { IsProblemTaskInRange task }
    requires fit { SuitsProblemTask task problem.now }
    ensures answer { IfOk result (IsProblemAnswer task problem.now) }
    ensures printable { IfOk result (IsPrintable problem.now) }
{
    match task {
        ProblemTask::Show => Ok(JobAnswer::Show),
        ProblemTask::Plan {
            budget,
            counts,
            seed,
        } => {
            let found = plan::job(rt, alloc, problem, Effort { budget, counts }, seed, gate)?;
            Ok(JobAnswer::Plan(found))
        }
        ProblemTask::Best { budget, counts } => {
            let found = best::job(alloc, problem, Effort { budget, counts })?;
            Ok(JobAnswer::Best(found))
        }
        ProblemTask::Staff {
            low,
            high,
            budget,
            counts,
        } => {
            let effort = Effort { budget, counts };
            let answer = staff::job(rt, alloc, problem, Sizes { low, high }, effort, gate)?;
            Ok(JobAnswer::Staff(answer))
        }
        ProblemTask::Mend { budget, counts } => {
            let ways = mend::job(rt, alloc, problem, Effort { budget, counts }, gate)?;
            Ok(JobAnswer::Mend(ways))
        }
        ProblemTask::Rest { minutes } => {
            let answer = rest::job(alloc, problem, minutes)?;
            Ok(JobAnswer::Rest(answer))
        }
    }
}

/// The answer of a task on a problem and the bytes of its second file.
pub fn answer_on_files<R: Threads + Sync, G: Gate>(
    rt: &R,
    alloc: Global,
    problem: &Problem,
    bytes: Vec<u8>,
    task: FilesTask,
    gate: &G,
) -> Result<JobAnswer, AllocError>
    requires range { IsFilesTaskInRange task }
    requires horizon { EndsInTime task }
    requires fit { SuitsFilesTask task problem.now }
    requires short { IsWithinLimit (second_kind task) bytes.items }
    ensures answer { IfOk result (IsFilesAnswer task problem.now bytes.items) }
    ensures printable { IfOk result (IsPrintable problem.now) }
{
    match task {
        FilesTask::Verify => {
            let answer = verify::job(alloc, problem, &bytes)?;
            Ok(JobAnswer::Verify(answer))
        }
        FilesTask::Check { workers } => {
            let answer = check::job(rt, alloc, problem, &bytes, workers, gate)?;
            Ok(JobAnswer::Check(answer))
        }
        FilesTask::CheckFree => {
            let answer = check_free::job(rt, alloc, problem, &bytes, gate)?;
            Ok(JobAnswer::Check(answer))
        }
        FilesTask::CheckStaff => {
            let answer = check_staff::job(rt, alloc, problem, &bytes, gate)?;
            Ok(JobAnswer::CheckStaff(answer))
        }
        FilesTask::Reduce => {
            let answer = reduce::job(rt, alloc, problem, bytes, gate)?;
            Ok(JobAnswer::Reduce(answer))
        }
        FilesTask::Crew { date, days, layout } => {
            let answer = crew::job(alloc, problem, &bytes, date, days, layout)?;
            Ok(JobAnswer::Crew(answer))
        }
        FilesTask::Page => {
            let answer = page::job(alloc, problem, &bytes)?;
            Ok(JobAnswer::Page(answer))
        }
        FilesTask::Ics {
            date,
            days,
            employee,
        } => {
            let answer = ics::job(alloc, problem, &bytes, date, days, employee)?;
            Ok(JobAnswer::Ics(answer))
        }
        FilesTask::On { start, date } => {
            let answer = on::job(alloc, problem, &bytes, start, date)?;
            Ok(JobAnswer::On(answer))
        }
        FilesTask::Roster => {
            let answer = roster::job(alloc, problem, &bytes)?;
            Ok(JobAnswer::Roster(answer))
        }
        FilesTask::Fill { budget } => {
            let answer = fill::job(rt, alloc, problem, &bytes, budget, gate)?;
            Ok(JobAnswer::Fill(answer))
        }
        FilesTask::CheckFill => {
            let answer = check_fill::job(rt, alloc, problem, &bytes, gate)?;
            Ok(JobAnswer::Check(answer))
        }
    }
}

/// The text of an answer on a problem.
pub fn text_of(alloc: Global, problem: &Problem, answer: &JobAnswer) -> Result<Vec<u8>, AllocError>
    requires { IsPrintable problem.now answer.now }
    ensures { IfOk result (λ v. v.items ≡ job_text problem.now answer.now) }
{
    match answer {
        JobAnswer::Show => print_problem(alloc, problem),
        JobAnswer::Plan(found) => plan::text(alloc, problem, found),
        JobAnswer::Best(found) => best::text(alloc, problem, found),
        JobAnswer::Staff(answer) => staff::text(alloc, problem, answer),
        JobAnswer::Verify(answer) => verify::text(alloc, problem, answer),
        JobAnswer::Check(answer) => check::text(alloc, problem, answer),
        JobAnswer::CheckStaff(answer) => check_staff::text(alloc, problem, answer),
        JobAnswer::Reduce(answer) => reduce::text(alloc, problem, answer),
        JobAnswer::Crew(answer) => crew::text(alloc, problem, answer),
        JobAnswer::Mend(ways) => mend::text(alloc, problem, ways),
        JobAnswer::Rest(answer) => rest::text(alloc, answer),
        JobAnswer::Page(answer) => page::text(alloc, problem, answer),
        JobAnswer::Ics(answer) => ics::text(alloc, problem, answer),
        JobAnswer::On(answer) => on::text(alloc, problem, answer),
        JobAnswer::Roster(answer) => roster::text(alloc, problem, answer),
        JobAnswer::Fill(answer) => fill::text(alloc, problem, answer),
    }
}

/// What is told in words of an answer on a problem.
pub fn told_of(alloc: Global, problem: &Problem, answer: &JobAnswer) -> Result<Vec<u8>, AllocError>
    requires { IsPrintable problem.now answer.now }
    ensures { IfOk result (λ v. IsJobTold problem.now answer.now v.items) }
{
    match answer {
        JobAnswer::Show => Ok(Vec::new(alloc)),
        JobAnswer::Plan(found) => plan::told(alloc, problem, found),
        JobAnswer::Best(found) => best::told(alloc, problem, found),
        JobAnswer::Staff(answer) => staff::told(alloc, problem, answer),
        JobAnswer::Verify(answer) => verify::told(alloc, problem, answer),
        JobAnswer::Check(answer) => check::told(alloc, problem, answer),
        JobAnswer::CheckStaff(answer) => check_staff::told(alloc, problem, answer),
        JobAnswer::Reduce(answer) => reduce::told(alloc, problem, answer),
        JobAnswer::Crew(answer) => crew::told(alloc, problem, answer),
        JobAnswer::Mend(ways) => mend::told(alloc, problem, ways),
        JobAnswer::Rest(answer) => rest::told(alloc, problem, answer),
        JobAnswer::Page(answer) => page::told(alloc, problem, answer),
        JobAnswer::Ics(answer) => ics::told(alloc, problem, answer),
        JobAnswer::On(answer) => on::told(alloc, problem, answer),
        JobAnswer::Roster(answer) => roster::told(alloc, problem, answer),
        JobAnswer::Fill(answer) => fill::told(alloc, problem, answer),
    }
}

/// Which sentences about the problem stand behind what is told of an answer.
pub fn slips_behind(answer: &JobAnswer) -> Option<Telling>
    ensures { result ≡ slips_behind answer.now }
{
    match answer {
        JobAnswer::Plan(Found::NoRoster(log)) => Some(slips_behind_log(log)),
        JobAnswer::Plan(Found::Undecided(_)) => Some(Telling::WithCounts),
        JobAnswer::Best(BestFound::Best { .. }) => Some(Telling::LongNames),
        JobAnswer::Best(BestFound::NoRoster(log)) => Some(slips_behind_log(log)),
        JobAnswer::Best(BestFound::Undecided { .. }) => Some(Telling::WithCounts),
        JobAnswer::Staff(staff::Answer::Run(run)) => Some(slips_behind_run(run.end())),
        JobAnswer::Mend(WaysOut::Undecided(_) | WaysOut::Changes(_)) => Some(Telling::WithCounts),
        JobAnswer::Fill(fill::Answer::Found(Found::NoRoster(log))) => Some(slips_behind_log(log)),
        JobAnswer::Fill(fill::Answer::Found(Found::Undecided(_))) => Some(Telling::WithCounts),
        _ => None,
    }
}

// Which stand behind that of a log: one that counts blocks has shown a count.
fn slips_behind_log(log: &Log) -> Telling
    ensures { result ≡ slips_behind_log log.now }
{
    if log.counts() {
        Telling::Slips
    } else {
        Telling::WithCounts
    }
}

// Which stand behind that of a search by numbers of weeks.
fn slips_behind_run(end: &StaffEnd) -> Telling
    ensures { result ≡ slips_behind_run end.now }
{
    match end {
        StaffEnd::Least(_) => Telling::LongNames,
        _ => Telling::Unsized,
    }
}

impl JobAnswer {
    ghost use Rattle.rwsp_run.specs.Commands.{job_status};

    /// The status where its text was written.
    pub fn status(&self) -> u8
        ensures { result ≡ job_status self.now }
    {
        match self {
            JobAnswer::Show => 0,
            JobAnswer::Plan(found) => plan::status(found),
            JobAnswer::Best(found) => best::status(found),
            JobAnswer::Staff(answer) => staff::status(answer),
            JobAnswer::Verify(answer) => verify::status(answer),
            JobAnswer::Check(answer) => check::status(answer),
            JobAnswer::CheckStaff(answer) => check_staff::status(answer),
            JobAnswer::Reduce(answer) => reduce::status(answer),
            JobAnswer::Crew(answer) => crew::status(answer),
            JobAnswer::Mend(ways) => mend::status(ways),
            JobAnswer::Rest(answer) => rest::status(answer),
            JobAnswer::Page(answer) => page::status(answer),
            JobAnswer::Ics(answer) => ics::status(answer),
            JobAnswer::On(answer) => on::status(answer),
            JobAnswer::Roster(answer) => roster::status(answer),
            JobAnswer::Fill(answer) => fill::status(answer),
        }
    }
}
