use crate::Log;
use rwsp_model::Roster;

/// What a search for the most free weekends finds.
#[derive(Drop)]
pub enum BestFound {
    /// A roster that meets every rule, and a free log that passes: no roster has more free weekends than it.
    Best {
        roster: Roster,
        proof: Log,
    },
    /// A free log of goal 0 that passes: no roster meets every rule.
    NoRoster(Log),
    /// The whole budget was spent. The roster that has the most free weekends of those found, if one was, and the log
    /// of the goal above it, whose first lines hold; all further lines are unfinished.
    Undecided {
        roster: Option<Roster>,
        partial: Log,
    },
}
