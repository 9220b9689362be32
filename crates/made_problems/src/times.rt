// When shifts start and end.
ghost use Rattle.std.specs.Prelude.{◌≡◌, ◌+◌, ◌≤◌};
ghost use Rattle.rwsp_terms.specs.Instance.{IsShift};
ghost use Rattle.rwsp_terms.specs.declared.limits.TheConstants.{GREATEST_BOUND, LONGEST_REST};
ghost use Rattle.made_problems.specs.Times.{start_of, end_of, is_too_short};

use rwsp_model::Problem;
use rwsp_terms::Symbol;
use rwsp_terms::limits::{GREATEST_BOUND, LONGEST_REST};

/// The minutes of a day.
pub const DAY_MINUTES: u32 = 24 * 60;

/// When a shift starts, in minutes after midnight.
#[tactic(auto, using(crate::proofs::Rows::start_is))]
pub fn start_of(problem: &Problem, shift: Symbol) -> u32
    requires { IsShift problem.now shift }
    ensures value { result ≡ start_of problem.now shift }
    ensures few { result ≤ GREATEST_BOUND }
{
    problem.prove_limits();
    problem.start(shift)
}

/// How many minutes a shift has.
#[tactic(auto, using(crate::proofs::Rows::length_is))]
pub fn length_of(problem: &Problem, shift: Symbol) -> u32
    requires { IsShift problem.now shift }
    ensures value { start_of problem.now shift + result ≡ end_of problem.now shift }
    ensures few { result ≤ GREATEST_BOUND }
{
    problem.prove_limits();
    problem.length(shift)
}

/// Whether there are fewer minutes than these between the end of a shift and the start of one some days later.
pub fn is_too_short(problem: &Problem, days: u32, minutes: u32, x: Symbol, y: Symbol) -> bool
    requires days { days ≤ 2 }
    requires minutes { minutes ≤ LONGEST_REST }
    requires x { IsShift problem.now x }
    requires y { IsShift problem.now y }
    ensures { result ≡ is_too_short problem.now days minutes x y }
{
    let start = days * DAY_MINUTES + start_of(problem, y);
    let end = start_of(problem, x) + length_of(problem, x);
    start < end + minutes
}
