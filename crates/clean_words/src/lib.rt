//! The clean words over domains, from a position on: the least, and the heaviest. Each rule has a monitor, which goes
//! along the words that keep it; the monitors of a list together are its automaton, made once and then small; and passes
//! over the days with this automaton find the words.
//!
//! Bounds by weights, which relax the demand (Lagrangian bounds): what rosters weigh at least, the heaviest clean
//! words, and the search for a bound that holds. And the nearest point of the hull of given vectors to a box, in whole
//! numbers, for those who look for weights or mix words.
#![tactic(auto)]

mod automaton;
mod choice;
mod class;
mod classes;
mod clean;
mod corner;
mod day_gains;
mod escapes;
mod facts;
mod first;
mod gain;
mod gate;
mod heavy_words;
mod hull;
mod image;
mod joint;
mod kept_rows;
mod last;
mod laws;
mod least;
mod least_words;
mod monitor;
mod monitor_table;
mod most;
mod never;
mod plain;
mod row;
mod rows;
mod rule_table;
mod search;
mod step;
mod step_list;
mod table;
mod top;
mod totals;
mod walk;
mod weighed_words;
mod weighing;
mod weight_table;
mod words;

pub use automaton::Automaton;
pub use clean::is_clean;
pub use escapes::{Claim, claim_escape};
pub use first::first_plain;
pub use gain::Gain;
pub use gate::{Gate, NoGate};
pub use heavy_words::{HeavyWord, heaviest_by_gain};
pub use hull::{Hull, SCALE};
pub use last::Told;
pub use laws::empty_word_is_clean;
pub use least_words::escape;
pub use plain::plain_bounds;
pub use rwsp_terms::Weights;
pub use search::search_weights;
pub use step::Step;
pub use totals::total;
pub use weighed_words::heaviest;
pub use words::CleanWords;
