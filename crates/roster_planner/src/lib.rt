//! Plans of problems: a roster, or a log of why there is none, whose splits are forced where anything forces them.
//! Plans behind given cells. The least crew: plans for one number of weeks after the other. And the most free weekends:
//! plans for one goal after the other.
#![tactic(auto)]

mod cases;
mod counted;
mod days_off;
mod effort;
mod filling;
mod guide;
mod likely_most;
mod narrowed;
mod of_cases;
mod off_weights;
mod one_goal;
mod one_shift;
mod planning;
mod propagation;
mod raising;
mod reasons;
mod rosters;
mod searching;
mod staffing;
mod starts;
mod top_leaf;

pub use effort::{Effort, FEW_LINES};
pub use filling::fill;
pub use of_cases::{CaseReasons, case_reasons};
pub use planning::{plan_refutable, plan_roster};
pub use raising::best;
pub use searching::planner_search;
pub use staffing::{Sizes, least_crew};
