// What a search finds for the problem of a number.
ghost use Rattle.std.specs.Prelude.{◌≤◌, IfOk};
ghost use Rattle.made_problems.specs.Generated.{IsGenerated};
ghost use Rattle.commands.specs.Trial.{IsTried, IsTrial, IsTrialText};

mod texts;

use clean_words::Gate;
use made_problems::{gen_problem, hidden_rosters_meet};
use refutation_log::Found;
use roster_planner::{Effort, plan_roster};
use rwsp_model::Problem;
use rwsp_terms::limits::{MOST_WEEKS, TRIAL_BUDGET};
use std::alloc::{AllocError, Global};
use std::thread::Threads;
use texts::text_of_trial;

/// What was found for the problem of a number and a count of weeks: a roster, or the whole budget was spent.
#[derive(Drop)]
pub struct Answer {
    pub number: u32,
    pub weeks: u32,
    pub found: Found,
}

/// A trial and its whole text.
#[derive(Drop)]
pub struct Trial {
    pub answer: Answer,
    pub text: Vec<u8>,
}

/// Tries the problem of the number and the weeks. It has a roster, so nothing refutes it.
pub fn job<R: Threads + Sync, G: Gate>(
    rt: &R,
    alloc: Global,
    number: u32,
    weeks: u32,
    gate: &G,
) -> Result<Trial, AllocError>
    requires { (1 ≤ weeks) × (weeks ≤ MOST_WEEKS) }
    ensures trial { IfOk result (λ t. IsTrial number weeks t.answer) }
    ensures text { IfOk result (λ t. IsTrialText t.answer t.text.items) }
{
    let problem = gen_problem(alloc, number, weeks)?;
    let found = tried(rt, alloc, &problem, number, weeks, gate)?;
    let answer = Answer {
        number,
        weeks,
        found,
    };
    let text = text_of_trial(alloc, &problem, &answer)?;
    Ok(Trial { answer, text })
}

// What the search finds for a generated problem.
fn tried<R: Threads + Sync, G: Gate>(
    rt: &R,
    alloc: Global,
    problem: &Problem,
    number: u32,
    weeks: u32,
    gate: &G,
) -> Result<Found, AllocError>
    requires generated { IsGenerated number weeks problem.now }
    requires weeks { 1 ≤ weeks }
    ensures { IfOk result (IsTried problem.now) }
{
    hidden_rosters_meet();
    let effort = Effort {
        budget: TRIAL_BUDGET,
        counts: false,
    };
    plan_roster(rt, alloc, problem, effort, 0, gate)
}
