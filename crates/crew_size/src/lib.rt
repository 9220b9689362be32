//! How few weeks, and so how few employees, are enough: a problem is planned for one number of weeks after the other,
//! and each number that is too small has its refutation. The text of such a run, its headings, and what it means.
#![tactic(auto)]

mod heading;
mod laws;
mod print;
mod refusal_text;
mod run;
mod section;
mod sizes;
mod verdict;

pub use heading::{Heading, heading_of, may_stand};
pub use laws::{
    accepted_texts_decide, enough_budget_decides, logs_are_cut_whole, printed_runs_are_accepted,
    searches_agree, searches_decide, staff_texts_have_one_verdict,
};
pub use print::print_staff;
pub use refusal_text::put_staff_refusal;
pub use run::{StaffEnd, StaffRun};
pub use section::{count_feeds, section_end};
pub use sizes::{is_size, with_weeks};
pub use verdict::{StaffRefusal, Staffed};
