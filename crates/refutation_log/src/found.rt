use crate::Log;
use rwsp_model::Roster;

/// What a search finds.
#[derive(Drop)]
pub enum Found {
    /// A roster that meets every rule.
    Roster(Roster),
    /// A log that passes: no roster meets the rules that it names.
    NoRoster(Log),
    /// The whole budget was spent on lines that hold; all further lines are unfinished.
    Undecided(Log),
}
