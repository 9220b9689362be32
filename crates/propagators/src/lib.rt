//! Propagators: they see whether domains are closed by a leaf, and which symbols a leaf takes away. They keep counts of
//! days and the clean words of two turns while domains change. And leaves of words that weigh too little, by the nearest
//! point of the counts of clean words to the demand, which are looked for and not kept.
#![tactic(auto)]

mod counts;
mod cycle;
mod cycle_cut;
mod day;
mod day_cut;
mod day_marks;
mod demand;
mod field;
mod marks;
mod near_closing;
mod near_leaf;
mod near_search;
mod near_small;
mod nearest_weights;
mod overruns;
mod recount;
mod root_bounds;
mod sweep;
mod two_turns;
mod window;
mod window_over;

pub use counts::Counts;
pub use cycle::CycleProp;
pub use cycle_cut::first_unsupported;
pub use day::DayProp;
pub use nearest_weights::NearestWeights;
pub use root_bounds::RootBounds;
pub use two_turns::Cycle;
pub use window::WindowProp;
