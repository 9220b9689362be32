//! Logs of refutations without the rules and the given cells that they can do without.
#![tactic(auto)]

mod cells;
mod citations;
mod descent;
mod fills;
mod lists;
mod numbered_rule;
mod reducing;
mod refusing_lines;
mod shrinking_log;
mod stripped_lines;
mod stripping;

pub use fills::reduce_fill;
pub use reducing::{reduce, reduce_passing};
pub use stripping::strip;
