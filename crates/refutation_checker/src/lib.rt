//! The verdict on a refutation's log: that it passes, or its first line that is refused, with the cause. A long log is
//! cut into chunks for several workers.
#![tactic(auto)]

mod chunk;
mod chunk_starts;
mod header;
mod judge;
mod kept;
mod laws;
mod leaf;
mod leaf_judge;
mod line_ends;
mod line_walk;
mod log_check;
mod long_rules;
mod outside;
mod plain_causes;
mod short_words;
mod text_chunk;
mod tried_words;
mod turn;
mod unread_splits;
mod verdict;
mod word_leaves;
mod workers;

pub use chunk_starts::chunks_for;
pub use clean_words::{Gate, NoGate};
pub use judge::{Judge, Judging};
pub use laws::texts_have_a_verdict;
pub use leaf_judge::{LeafJudge, go_past};
pub use log_check::{OpenedLog, check_log, judge_of, passes_by};
pub use text_chunk::Chunk;
pub use verdict::{PassedLog, UncheckedLog, check, check_with};
