//! The commands, a module each: what it answers, the texts and statuses of its answers, and its job on a problem and
//! the bytes of its second file.
#![tactic(auto)]

pub mod best;
pub mod check;
pub mod check_fill;
pub mod check_free;
pub mod check_staff;
pub mod crew;
pub mod explain;
pub mod fill;
pub mod ics;
mod log_refusal;
pub mod mend;
pub mod on;
pub mod page;
pub mod plan;
mod problem_file;
mod put;
pub mod reduce;
pub mod rest;
pub mod roster;
mod second_file;
pub mod staff;
mod stop;
mod telling;
mod text;
pub mod trial;
pub mod verify;

pub use problem_file::{
    ProblemRefusal, Subject, problem_in, problem_refusal_line, problem_refusal_told,
};
pub use put::not_weekly_line;
pub use second_file::{SecondKind, second_in, too_long_line};
pub use stop::Stop;
pub use telling::behind_rwsp;
pub use text::Text;
