//! The page of a roster, in HTML.
#![tactic(auto)]

mod clock;
mod demand;
mod escaped;
mod laws;
mod least_rest;
mod legend;
mod page;
mod pieces;
mod rules;
mod short;
mod table;
mod words;

pub use laws::{names_are_read_back, pages_are_read_back, pages_show_one_roster};
pub use page::page_text;
