//! Names as people read them.
#![tactic(auto)]

mod names;

pub use names::{character_len, is_printable, put_hex, put_shown};
