// The forms of command lines. Each function reads what is behind the word of its form.
ghost use Rattle.std.specs.Prelude.{◌≡◌, [], IfSome};
ghost use Rattle.rwsp_text.specs.Reads.{Reads};
ghost use Rattle.command_line.specs.Forms.{form_at, named_at};
ghost use Rattle.command_line.specs.Commands.{IsCommandOf, IsInRange, IsFilesTaskInRange, IsLayoutInRange, layout_at, usage_text, forms, plan_form, check_form, files_form, show_form, trial_form, best_form, staff_form, crew_form, mend_form, fill_form, rest_form, ics_form, on_form, explain_form};

use crate::command::{
    Command, CrewLayout, FilesTask, GREATEST_NUMBER, ProblemTask, USUAL_MEND_BUDGET,
};
use crate::words::Words;
use rwsp_terms::limits::{
    GREATEST_BUDGET, GREATEST_STAFF_BUDGET, LONGEST_CALENDAR, LONGEST_REST, MOST_SIZES, MOST_WEEKS,
    MOST_WORKERS, USUAL_BEST_BUDGET, USUAL_BUDGET, USUAL_STAFF_BUDGET, USUAL_WORKERS,
};

const USAGE: &str =
    "usage: rwsp plan FILE [--budget B] [--seed S] | check FILE LOG [--workers N] | verify FILE ROSTER | reduce FILE LOG | show FILE | trial NUMBER WEEKS | best FILE [--budget B] | check-free FILE LOG | staff FILE LOW HIGH [--budget B] | check-staff FILE TEXT | crew FILE ROSTER DATE DAYS [EMPLOYEE | --csv] | mend FILE [--budget B] | fill FILE CELLS [--budget B] | check-fill FILE LOG | rest FILE MINUTES | page FILE ROSTER | ics FILE ROSTER DATE DAYS EMPLOYEE | on FILE ROSTER START DATE | roster FILE ANSWER | explain FILE";

/// The line that lists all forms, without its LF.
#[tactic(auto, unfolding(crate::specs::Commands::usage_text))]
pub fn usage() -> &'static str
    ensures { result.now ≡ usage_text }
{
    USAGE
}

/// The command that the words are a form of; None exactly where they are a form of none. Takes no memory.
#[tactic(auto, unfolding(crate::specs::Forms::said_by))]
pub fn command_of<'a>(words: &'a Vec<String>) -> Option<Command<'a>>
    ensures form { IsCommandOf words.now.items result }
    ensures range { IfSome result IsInRange }
{
    let mut words = Words::of(words);
    let word = words.next()?;
    let command = form_of(word, &mut words)?;
    if words.is_empty() {
        Some(command)
    } else {
        None
    }
}

// What the words behind this one say, in its form.
fn form_of<'a>(word: &str, words: &mut Words<'a>) -> Option<Command<'a>>
    ensures form { Reads (named_at forms word.now words.old) result words.new }
    ensures range { IfSome result IsInRange }
{
    match word {
        "plan" => plan(words),
        "check" => check(words),
        "verify" => on_files(words, FilesTask::Verify),
        "reduce" => on_files(words, FilesTask::Reduce),
        "show" => show(words),
        "trial" => trial(words),
        "best" => best(words),
        "check-free" => on_files(words, FilesTask::CheckFree),
        "staff" => staff(words),
        "check-staff" => on_files(words, FilesTask::CheckStaff),
        "crew" => crew(words),
        "mend" => mend(words),
        "fill" => fill(words),
        "check-fill" => on_files(words, FilesTask::CheckFill),
        "rest" => rest(words),
        "page" => on_files(words, FilesTask::Page),
        "ics" => ics(words),
        "on" => on(words),
        "roster" => on_files(words, FilesTask::Roster),
        "explain" => explain(words),
        _ => None,
    }
}

fn plan<'a>(words: &mut Words<'a>) -> Option<Command<'a>>
    ensures form { Reads (form_at plan_form words.old) result words.new }
    ensures range { IfSome result IsInRange }
{
    let file = words.file()?;
    let early = words.setting("--budget", 1, USUAL_BUDGET, GREATEST_BUDGET)?;
    let (seed, _) = words.setting("--seed", 0, 0, GREATEST_NUMBER)?;
    let (budget, counts) = if early.1 {
        words.setting("--budget", 1, USUAL_BUDGET, GREATEST_BUDGET)?
    } else {
        early
    };
    let task = ProblemTask::Plan {
        budget,
        counts,
        seed,
    };
    Some(Command::OnProblem { file, task })
}

fn check<'a>(words: &mut Words<'a>) -> Option<Command<'a>>
    ensures form { Reads (form_at check_form words.old) result words.new }
    ensures range { IfSome result IsInRange }
{
    let file = words.file()?;
    let second = words.file()?;
    let (workers, _) = words.setting("--workers", 1, USUAL_WORKERS, MOST_WORKERS)?;
    let task = FilesTask::Check { workers };
    Some(Command::OnFiles { file, second, task })
}

// A form of two files and nothing else, whatever its word is and what the second file is called.
fn on_files<'a>(words: &mut Words<'a>, task: FilesTask) -> Option<Command<'a>>
    requires { IsFilesTaskInRange task }
    ensures form { Reads (form_at (files_form [] [] task) words.old) result words.new }
    ensures range { IfSome result IsInRange }
{
    let file = words.file()?;
    let second = words.file()?;
    Some(Command::OnFiles { file, second, task })
}

fn show<'a>(words: &mut Words<'a>) -> Option<Command<'a>>
    ensures form { Reads (form_at show_form words.old) result words.new }
    ensures range { IfSome result IsInRange }
{
    let file = words.file()?;
    let task = ProblemTask::Show;
    Some(Command::OnProblem { file, task })
}

fn trial<'a>(words: &mut Words<'a>) -> Option<Command<'a>>
    ensures form { Reads (form_at trial_form words.old) result words.new }
    ensures range { IfSome result IsInRange }
{
    let number = words.number(0, GREATEST_NUMBER)?;
    let weeks = words.number(1, MOST_WEEKS)?;
    Some(Command::Trial { number, weeks })
}

fn best<'a>(words: &mut Words<'a>) -> Option<Command<'a>>
    ensures form { Reads (form_at best_form words.old) result words.new }
    ensures range { IfSome result IsInRange }
{
    let file = words.file()?;
    let (budget, counts) = words.setting("--budget", 1, USUAL_BEST_BUDGET, GREATEST_BUDGET)?;
    let task = ProblemTask::Best { budget, counts };
    Some(Command::OnProblem { file, task })
}

fn staff<'a>(words: &mut Words<'a>) -> Option<Command<'a>>
    ensures form { Reads (form_at staff_form words.old) result words.new }
    ensures range { IfSome result IsInRange }
{
    let file = words.file()?;
    let (low, high) = words.range(MOST_WEEKS, MOST_SIZES)?;
    let (budget, counts) = words.setting("--budget", 1, USUAL_STAFF_BUDGET, GREATEST_STAFF_BUDGET)?;
    let task = ProblemTask::Staff {
        low,
        high,
        budget,
        counts,
    };
    Some(Command::OnProblem { file, task })
}

fn crew<'a>(words: &mut Words<'a>) -> Option<Command<'a>>
    ensures form { Reads (form_at crew_form words.old) result words.new }
    ensures range { IfSome result IsInRange }
{
    let file = words.file()?;
    let second = words.file()?;
    let date = words.date()?;
    let days = words.number(1, LONGEST_CALENDAR)?;
    let layout = crew_layout(words)?;
    let task = FilesTask::Crew { date, days, layout };
    Some(Command::OnFiles { file, second, task })
}

// The layout that the last word asks for, where there is one.
fn crew_layout(words: &mut Words<'_>) -> Option<CrewLayout>
    ensures form { Reads (layout_at words.old) result words.new }
    ensures range { IfSome result IsLayoutInRange }
{
    if words.is_empty() {
        Some(CrewLayout::Table)
    } else if words.skips("--csv") {
        Some(CrewLayout::Csv)
    } else {
        Some(CrewLayout::Duties(words.number(1, MOST_WEEKS)?))
    }
}

fn mend<'a>(words: &mut Words<'a>) -> Option<Command<'a>>
    ensures form { Reads (form_at mend_form words.old) result words.new }
    ensures range { IfSome result IsInRange }
{
    let file = words.file()?;
    let (budget, counts) = words.setting("--budget", 1, USUAL_MEND_BUDGET, GREATEST_BUDGET)?;
    let task = ProblemTask::Mend { budget, counts };
    Some(Command::OnProblem { file, task })
}

fn fill<'a>(words: &mut Words<'a>) -> Option<Command<'a>>
    ensures form { Reads (form_at fill_form words.old) result words.new }
    ensures range { IfSome result IsInRange }
{
    let file = words.file()?;
    let second = words.file()?;
    let (budget, _) = words.setting("--budget", 1, USUAL_BUDGET, GREATEST_BUDGET)?;
    let task = FilesTask::Fill { budget };
    Some(Command::OnFiles { file, second, task })
}

fn rest<'a>(words: &mut Words<'a>) -> Option<Command<'a>>
    ensures form { Reads (form_at rest_form words.old) result words.new }
    ensures range { IfSome result IsInRange }
{
    let file = words.file()?;
    let minutes = words.number(0, LONGEST_REST)?;
    let task = ProblemTask::Rest { minutes };
    Some(Command::OnProblem { file, task })
}

fn ics<'a>(words: &mut Words<'a>) -> Option<Command<'a>>
    ensures form { Reads (form_at ics_form words.old) result words.new }
    ensures range { IfSome result IsInRange }
{
    let file = words.file()?;
    let second = words.file()?;
    let date = words.date()?;
    let days = words.number(1, LONGEST_CALENDAR)?;
    let employee = words.number(1, MOST_WEEKS)?;
    let task = FilesTask::Ics {
        date,
        days,
        employee,
    };
    Some(Command::OnFiles { file, second, task })
}

fn on<'a>(words: &mut Words<'a>) -> Option<Command<'a>>
    ensures form { Reads (form_at on_form words.old) result words.new }
    ensures range { IfSome result IsInRange }
{
    let file = words.file()?;
    let second = words.file()?;
    let start = words.date()?;
    let date = words.date()?;
    let task = FilesTask::On { start, date };
    Some(Command::OnFiles { file, second, task })
}

fn explain<'a>(words: &mut Words<'a>) -> Option<Command<'a>>
    ensures form { Reads (form_at explain_form words.old) result words.new }
    ensures range { IfSome result IsInRange }
{
    let file = words.file()?;
    Some(Command::Explain { file })
}
