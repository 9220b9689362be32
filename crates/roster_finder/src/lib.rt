//! A search for rosters that distinguishes no cases: a fractional roster by column generation, a start word that follows
//! it, and windows of that word (large neighbourhoods), each rewritten in the best way. It answers a checked roster, or
//! nothing.
#![tactic(auto)]

mod cost;
mod counters;
mod cuts;
mod day_domains;
mod demand;
mod draft;
mod finding;
mod heavy_word;
mod laws;
mod mixture;
mod nodes;
mod numbers;
mod prices;
mod quotas;
mod random;
mod rewriting;
mod setting;
mod shares;
mod start;
mod steady_layer;
mod step;
mod table;
mod used;
mod walk;
mod window;

pub use finding::{Patience, RosterFinder, met_roster};
pub use laws::closed_walks_are_clean;
// Parts of the search, which tests try one by one.
pub use cuts::add_cuts;
pub use demand::{Demand, Range};
pub use quotas::Quota;
pub use setting::Setting;
pub use shares::ONE_USE;
pub use steady_layer::SteadyLayer;
pub use step::Step;
pub use table::Table;
