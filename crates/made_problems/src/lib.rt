//! Problems that are made: of a number, as the demand of a hidden roster; and of another problem, with a least rest
//! between shifts as forbidden sequences.
#![tactic(auto)]

mod counts;
mod draws;
mod generator;
mod hidden;
mod laws;
mod rested;
mod stint;
mod times;

pub use generator::gen_problem;
pub use laws::{
    each_number_has_one_problem, hidden_rosters_meet, rosters_rest, sequences_are_those,
    stints_are_usual,
};
pub use rested::{LeastRest, require_rest};
pub use times::{DAY_MINUTES, is_too_short, length_of, start_of};
