//! Texts: their words and lines, the numbers that words spell, and the fields of lines, which tables of kinds describe.
#![tactic(auto)]

mod digits;
mod fields;
mod labels;
mod laws;
mod reader;
mod scan;

pub use digits::{number, put_number, put_signed};
pub use fields::Fields;
pub use labels::{put_labelled, put_line_number};
pub use laws::{lines_are_blankless, lines_are_read, lines_say_one, printed_is_read};
pub use reader::LineReader;
pub use scan::{Token, tokens};
