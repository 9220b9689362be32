// What a command line asks for.
ghost use Rattle.std.specs.Prelude.{IsTrue, ◌↔◌};
ghost use Rattle.command_line.specs.Commands.{IsInRange, IsWithinHorizon};

use crate::words::FileName;
use crew_calendar::{CivilDate, fits, is_not_before};

/// The greatest number that nine digits spell.
pub const GREATEST_NUMBER: u32 = 999_999_999;

/// The lines of the log of each plan of a search for numbers to change, where no budget is given.
pub const USUAL_MEND_BUDGET: u32 = 2_000;

/// What is to be done, and the files that it reads.
#[derive(Drop)]
pub enum Command<'a> {
    /// What a search finds for the problem of a number and of some weeks.
    Trial {
        number: u32,
        weeks: u32,
    },
    /// A task on the problem of a file.
    OnProblem {
        file: FileName<'a>,
        task: ProblemTask,
    },
    /// A task on the problem of a file, and on a second file.
    OnFiles {
        file: FileName<'a>,
        second: FileName<'a>,
        task: FilesTask,
    },
    /// Words on what a problem's file says, or why it is refused.
    Explain {
        file: FileName<'a>,
    },
}

/// A task on a problem alone.
#[derive(Clone, Copy)]
pub enum ProblemTask {
    /// A roster, looked for by the random numbers of the seed, or the log of a refutation of at most `budget` lines,
    /// which may count blocks where it says so.
    Plan {
        budget: u32,
        counts: bool,
        seed: u32,
    },
    /// The canonical text.
    Show,
    /// A roster with the most free weekends, and a free log for one more; for each goal at most `budget` lines.
    Best {
        budget: u32,
        counts: bool,
    },
    /// The least number of weeks, from the first to the last, for which the problem has a roster; for each lesser
    /// one a log of at most this many lines.
    Staff {
        low: u32,
        high: u32,
        budget: u32,
        counts: bool,
    },
    /// Which numbers to change so that there is a roster; each plan has a log of at most `budget` lines.
    Mend {
        budget: u32,
        counts: bool,
    },
    /// The problem with at least this many minutes between shifts.
    Rest {
        minutes: u32,
    },
}

/// A task on a problem and a second file.
#[derive(Clone, Copy)]
pub enum FilesTask {
    /// Whether a log passes, checked by some workers.
    Check {
        workers: u32,
    },
    /// Whether a roster meets all rules.
    Verify,
    /// A log without the rules that it can do without.
    Reduce,
    /// Whether a free log passes.
    CheckFree,
    /// Whether what `staff` wrote is right.
    CheckStaff,
    /// The calendar of a roster from a date on, for some days.
    Crew {
        date: CivilDate,
        days: u32,
        layout: CrewLayout,
    },
    /// A page in HTML that shows a roster.
    Page,
    /// The duties of an employee from a date on, for some days, as an iCalendar.
    Ics {
        date: CivilDate,
        days: u32,
        employee: u32,
    },
    /// Who works on a date, where the first day of the roster was `start`.
    On {
        start: CivilDate,
        date: CivilDate,
    },
    /// The roster that stands in an answer.
    Roster,
    /// A roster that holds given cells, or why there is none, by a fill log of at most `budget` lines.
    Fill {
        budget: u32,
    },
    /// Whether a fill log passes.
    CheckFill,
}

/// How a calendar is laid out.
#[derive(Clone, Copy)]
pub enum CrewLayout {
    /// A table of all employees.
    Table,
    /// The duties of one employee.
    Duties(u32),
    /// The table of all employees for a spreadsheet.
    Csv,
}

/// Whether a calendar that the command asks for ends by 9999-12-31, with all duties, and a date doesn't come before the
/// first day of the roster.
pub fn is_within_horizon(command: &Command) -> bool
    requires { IsInRange command.now }
    ensures { IsTrue result ↔ IsWithinHorizon command.now }
{
    match command {
        Command::OnFiles {
            task: FilesTask::Crew { date, days, .. } | FilesTask::Ics { date, days, .. },
            ..
        } => fits(*date, *days),
        Command::OnFiles {
            task: FilesTask::On { start, date },
            ..
        } => is_not_before(*date, *start),
        _ => true,
    }
}
