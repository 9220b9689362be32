//! What only tests need: files and outputs in memory, and small problems.
#![tactic(auto)]

mod failing_calls;
mod meeting;
mod memory;
mod problems;

pub use meeting::Meeting;
pub use memory::{MemoryShelf, MemorySink};
pub use problems::{
    ALL_OF_FOUR_WEEKS, CROWDED_TWOS_IN_SIX, D, D_ON_BOTH_DAYS, D_ON_DAY_1, D_ON_EITHER_DAY,
    DAYS_AND_NIGHTS, DAYS_OR_NIGHTS, HALF_OF_FOUR, LONG_BLOCKS, LONGER_BLOCKS, MOST_OF_FOUR,
    MOST_OF_FOUR_WEEKS, N, NO_DEMAND, OFF, ONE_CELL, SEQUENCES, SEQUENCES_IN_TWO_WEEKS,
    THREE_IN_FIVE, THREE_IN_TWO, THREE_SHIFTS, TWO_D_AND_ONE, TWO_IN_FOUR, TWOS_IN_FOUR,
    TWOS_IN_SIX, all_rules, log_of, log_of_kind, one_rule, problem_of, roster_of, take_away,
};
