//! What a problem says, and what is told of the answers of commands, in words.
#![tactic(auto)]

mod counted;
mod filled;
mod hours;
mod laws;
mod log_told;
mod part;
pub mod pieces;
mod problem;
mod reason;
mod rule_words;
mod slips;
mod statement;
mod told;
mod ways;
mod words;

pub use laws::{
    broken_days_are_told, cited_days_are_found, counted_are_leaves, counted_are_leaves_of,
    named_rules_are_said, rules_are_said_once,
};
pub use log_told::{
    put_accepted_told, put_end_told, put_log_told, put_reduced_told, put_staff_told, rosters_of,
};
pub use part::Part;
pub use pieces::Done;
pub use problem::{Telling, problem_words, put_slips_told};
pub use reason::Rosters;
pub use rule_words::put_rule_words;
pub use statement::{put_headed_told, put_told};
pub use told::{
    put_broken_told, put_log_refusal_told, put_roster_refusal_told, put_staff_refusal_told,
    put_staffed_told,
};
pub use ways::put_ways_told;
pub use words::{put_range, put_weeks};
