// What is found of the ways out of a problem.
use crate::change::Outcome;
use refutation_log::Log;
use rwsp_model::Roster;

/// What is found of the ways out of a problem.
#[derive(Drop)]
pub enum WaysOut {
    /// None is needed: a roster that meets every rule.
    NoNeed(Roster),
    /// Whether one is needed was left open: the log of the plan, which has spent its budget.
    Undecided(Log),
    /// No roster meets every rule. What is known of each change of the problem, in order.
    Changes(Vec<Outcome>),
}
