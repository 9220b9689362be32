//! Problem files, both ways.
#![tactic(auto)]

mod cursor;
mod demand;
mod explain;
mod fields;
mod laws;
mod likely;
mod limits;
mod long_numbers;
mod misfit;
mod print;
mod read;
mod refusal;
mod refusal_words;
mod row;
mod sequences;
mod shifts;

pub use explain::explain_refusal;
pub use laws::{
    canonical_texts_spell, refusals_are_explained, refusals_are_first, texts_spell_one,
    texts_spell_or_fail,
};
pub use long_numbers::{LongNumber, numeric_long_names};
pub use print::print_problem;
pub use read::read_problem;
pub use refusal::FileRefusal;
