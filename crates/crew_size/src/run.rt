// What a search size by size gives.
ghost use Rattle.std.specs.Prelude.{◌≡◌};

use refutation_log::Log;
use rwsp_model::Roster;
use std::marker::Model;

/// How a search size by size ends.
#[derive(Drop)]
pub enum StaffEnd {
    /// The next number of weeks has this roster.
    Least(Roster),
    /// Each number of weeks up to the last one was refuted.
    NoneTo,
    /// For the next number of weeks the budget was spent on this log.
    Undecided(Log),
}

/// The first number of weeks, a log for it and for each one above, and the end.
#[derive(Drop)]
pub struct StaffRun {
    low: u32,
    logs: Vec<Log>,
    end: StaffEnd,
}

impl Model for StaffRun {
    ghost use Rattle.crew_size.specs.Texts.{Staff};

    ghost Value = { Staff };

    ghost view = { λ r. record { low = r.low; logs = r.logs.items; end = r.end } };
}

impl StaffRun {
    /// The run with the logs for `low` weeks, `low + 1` and so on.
    pub fn of(low: u32, logs: Vec<Log>, end: StaffEnd) -> StaffRun
        ensures low { result.low ≡ low }
        ensures logs { result.logs ≡ logs.items }
        ensures end { result.end ≡ end }
    {
        StaffRun { low, logs, end }
    }

    /// The first number of weeks.
    pub fn low(&self) -> u32
        ensures { result ≡ self.now.low }
    {
        self.low
    }

    /// The logs: for the first number of weeks, for one more, and so on.
    pub fn logs(&self) -> &[Log]
        ensures { result.now ≡ self.now.logs }
    {
        &self.logs
    }

    /// What there is for the number of weeks behind the last log.
    pub fn end(&self) -> &StaffEnd
        ensures { result.now ≡ self.now.end }
    {
        &self.end
    }
}
