//! Logs of refutations, their texts both ways, and what searches find: a roster, or such a log.
#![tactic(auto)]

mod best_found;
mod cells_laws;
mod cells_line;
mod cells_text;
mod cited;
mod fields;
mod found;
mod gather;
mod header;
mod laws;
mod leaf;
mod line;
mod log;
mod one_leaf;
mod print;
mod read;
mod refusal;
mod refusal_text;
mod turn;

pub use best_found::BestFound;
pub use cells_laws::{refusals_decide_cells, spelled_are_given, text_gives_one_list};
pub use cells_line::put_cells_line;
pub use cells_text::{is_open_word_taken, read_cells};
pub use cited::{put_cited, put_opening_cited};
pub use fields::{put_place, put_word};
pub use found::Found;
pub use header::{Header, lines_of_header, read_header};
pub use laws::{
    logs_have_one_text, texts_have_one_header, texts_have_one_verdict, texts_of_logs_are_read,
    unread_texts_have_one_cause,
};
pub use line::read_line;
pub use log::{Log, copy_line};
pub use one_leaf::one_leaf_log;
pub use print::{print_log, put_named};
pub use read::read_log;
pub use refusal::LineRefusal;
pub use refusal_text::put_log_refusal;
pub use refutation_terms::{
    GivenCell, GivenCells, Leaf, Line, LogKind, LogRefusal, Opening, Terms, Turn, WordClaim,
};
pub use rwsp_text::LineReader;
pub use turn::scarcest_turn;
