//! Ways out of a problem without a roster: which numbers of it to change, each by itself, so that it has one.
#![tactic(auto)]

mod ahead;
mod answer;
mod change;
mod enough;
mod laws;
mod listed;
mod loosening;
mod nearest;
mod numbers;
mod plans;
mod print;
mod shown;
mod side_by_side;
mod together;
mod ways;

pub use answer::WaysOut;
pub use change::{Change, Outcome};
pub use laws::{changes_are_listed, other_rules_stay, rosters_stay, ways_agree};
pub use listed::{changed_rule, changes_in};
pub use print::{print_ways, status_of_ways};
pub use ways::ways_out;
