//! The words in which refutations are spoken of: the lines of a log, and in specs/ what it means that a log passes.
#![tactic(auto)]

mod cells;
pub mod examples;
pub mod laws;
mod lines;

pub use cells::{GivenCell, GivenCells};
pub use lines::{Leaf, Line, LogKind, LogRefusal, Opening, Terms, Turn, Version, WordClaim};
