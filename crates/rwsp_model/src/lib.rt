//! Problems with their limits and rules, and rosters.
#![tactic(auto)]

mod demand;
mod fail;
mod laws;
mod problem;
mod refusal;
mod roster;
mod rules;
mod validity;
mod weeks;

pub use fail::Fail;
pub use laws::{
    every_rule_is_listed, refusals_decide_validity, rules_have_one_number,
    valid_instances_keep_limits,
};
pub use problem::{Parts, Problem};
pub use refusal::PartsRefusal;
pub use roster::Roster;
pub use rules::{is_short, number_of, rule_at, rule_count, short_rules};
pub use validity::count_in;
pub use weeks::weeks_with;
