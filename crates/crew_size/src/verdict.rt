use refutation_terms::LogRefusal;
use roster_checker::Broken;
use roster_print::RosterRefusal;

/// The first and the last number of weeks that an accepted text decides.
#[derive(Clone, Copy, PartialEq, Eq)]
pub enum Staffed {
    /// The last has a roster, and no smaller one from the first on has one.
    Least(u32, u32),
    /// None from the first to the last has a roster.
    NoneTo(u32, u32),
}

/// Why a staff text is refused. Lines count from 1.
#[derive(Drop)]
pub enum StaffRefusal {
    /// The line is where a heading has to be and is none that may be there, or the text of the roster behind it is too
    /// long.
    Form(u32),
    /// The log of this number of weeks is refused; its lines count from its own first line.
    Log(u32, LogRefusal),
    /// The text behind the last heading spells no roster of this number of weeks; its lines count from its own first
    /// line.
    Roster(u32, RosterRefusal),
    /// The roster of this number of weeks breaks a rule.
    Breaks(u32, Broken),
    /// The text ends in a heading's place before an end was read.
    Ends,
}
