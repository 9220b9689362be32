//! The text of a roster, read and printed, and the printed text of a rule.
#![tactic(auto)]

mod laws;
mod names;
mod print;
mod read;
mod refusal;
mod refusal_text;
mod rule;

pub use laws::{
    printed_is_short, printed_is_spelled, refusals_are_first, refusals_decide_spelling,
    spelled_is_roster, text_spells_one_roster,
};
pub use names::put_after_blanks;
pub use print::print_roster;
pub use read::{read_roster, read_weeks};
pub use refusal::RosterRefusal;
pub use refusal_text::put_roster_refusal;
pub use rule::put_rule;
