//! The words in which rotating workforce schedules are spoken of: the plain data, and in specs/ the definitions.
#![tactic(auto)]

mod data;
mod laws;
pub mod limits;
mod rule_list;
mod weights;
mod word;

pub use data::{Bounds, Class, DemandRow, Name, Rule, Sequence, ShiftRow, Symbol, Weight};
pub use laws::{rule_lists_are_sets, weights_are_told_by_values, window_is_long};
pub use rule_list::RuleList;
pub use weights::Weights;
pub use word::Word;
