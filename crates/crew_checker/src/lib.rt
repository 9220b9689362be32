//! The verdict on a text that shows the least crew, and the roster at its end.
#![tactic(auto)]

mod check;
mod laws;
mod least;
mod sections;

pub use check::check_staff;
pub use laws::staff_texts_have_a_verdict;
pub use least::read_least;
