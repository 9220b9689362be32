//! Whether a roster meets the rules of its problem, and else where it breaks the first one.
#![tactic(auto)]

mod broken;
mod days;
mod laws;
mod place;
mod rules;
mod text;
mod weekends;

pub use broken::{Broken, first_broken};
pub use laws::{first_broken_rule_is_not_met, first_broken_rule_is_unique};
pub use text::put_breaks;
pub use weekends::free_weekends;
