// What a run ends with.
ghost use Rattle.std.specs.Prelude.{◌≡◌};
ghost use Rattle.rwsp_run.specs.Status.{status_of_stop};

use crate::jobs::JobAnswer;
use commands::{ProblemRefusal, SecondKind, Stop, explain, trial};

/// Why a problem isn't one for a command.
#[derive(Clone, Copy)]
pub enum Unfit {
    /// Its week has this number of days, and the command is for weeks of seven.
    NotWeekly(u32),
    /// A shift has the name `?`, by which the command leaves a cell open.
    OpenWordTaken,
}

/// Why a command's job isn't begun.
#[derive(Drop)]
pub enum Refusal {
    /// The words are no command.
    Usage,
    /// The calendar would go past 9999-12-31.
    Horizon,
    /// The first file is no problem.
    Problem(ProblemRefusal),
    /// The problem isn't one for the command.
    Unfit(Unfit),
    /// The second file is longer than its kind may be.
    TooLong(SecondKind),
}

/// The answer to a command line.
#[derive(Drop)]
pub enum Answer {
    Refused(Refusal),
    Trial(trial::Answer),
    Job(JobAnswer),
    /// The problem's file or its refusal, in words.
    Explained(explain::Answer),
}

/// How a run ended.
#[derive(Drop)]
pub enum Outcome {
    /// The text of the answer was written.
    Done(Answer),
    /// A prefix of the answer's text was written, and then the output failed.
    WriteFault(Answer),
    /// There is no answer; nothing was written.
    Stopped(Stop),
}

impl Outcome {
    ghost use Rattle.rwsp_run.specs.Status.{status_of};

    /// The status that the program ends with.
    pub fn status(&self) -> u8
        ensures { result ≡ status_of self.now }
    {
        match self {
            Outcome::Done(answer) => answer.status(),
            Outcome::WriteFault(_) => 7,
            Outcome::Stopped(stop) => status_of_stop(*stop),
        }
    }

    /// The status that the program ends with, where nothing else is asked of the outcome.
    pub fn into_status(self) -> u8
        ensures { result ≡ status_of self }
    {
        let status = self.status();
        drop(self);
        status
    }
}

// The status where there is no answer.
fn status_of_stop(stop: Stop) -> u8
    ensures { result ≡ status_of_stop stop }
{
    match stop {
        Stop::ReadFault => 6,
        Stop::Memory => 8,
    }
}

impl Answer {
    ghost use Rattle.rwsp_run.specs.Status.{status_of_answer};

    // The status where its text was written.
    fn status(&self) -> u8
        ensures { result ≡ status_of_answer self.now }
    {
        match self {
            Answer::Refused(Refusal::Usage) => 2,
            Answer::Refused(_) => 3,
            Answer::Trial(_) => 0,
            Answer::Job(answer) => answer.status(),
            Answer::Explained(words) => explain::status(words),
        }
    }
}
