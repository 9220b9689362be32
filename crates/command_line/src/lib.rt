//! The words of the command line, and what they ask for.
#![tactic(auto)]

mod command;
mod forms;
mod laws;
mod words;

pub use command::{
    Command, CrewLayout, FilesTask, GREATEST_NUMBER, ProblemTask, is_within_horizon,
};
pub use forms::{command_of, usage};
pub use laws::dates_are_named;
pub use words::FileName;
