//! Where files are read from and answers are written to: shelves and sinks, those of the system among them. Each counts
//! its faults, so that a caller can tell a fault of the outside from one of its own. And the words of a command line.
#![tactic(auto)]

mod interrupted;
mod shelf;
mod sink;
mod system_files;
mod words;

pub use interrupted::{read_again, write_again};
pub use shelf::{ReadFail, Shelf, ShelfFault, read_all};
pub use sink::{Sink, SinkFault, WriteFault, write_all};
pub use system_files::{RealShelf, RealSink};
pub use words::{WordsFail, command_words};
