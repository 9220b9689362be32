// Changes that a log refutes which is there already.
ghost use Rattle.std.specs.Prelude.{IfOk, IsTrue};
ghost use Rattle.ways_out.specs.Loosened.{IsChange};
ghost use Rattle.ways_out.specs.Helping.{HasNone, HelpsNever};

use crate::change::Change;
use crate::loosening::{loosen, most_steps};
use crate::together::{Shown, has};
use refutation_checker::check;
use refutation_log::LogKind;
use rwsp_model::{Fail, Problem};
use rwsp_terms::limits::LONGEST_LOG;
use std::alloc::{AllocError, Global};

// Whether the text is that of a log that refutes the problem. It is judged as `check` judges it, so nothing rests on
// where it comes from.
fn is_refuted(alloc: Global, problem: &Problem, text: &[u8]) -> Result<bool, AllocError>
    ensures { IfOk result (λ b. IsTrue b → HasNone problem.now) }
{
    if text.len() > LONGEST_LOG as usize {
        return Ok(false);
    }
    match check(alloc, problem, LogKind::WithoutGoal, text) {
        Ok(_) => Ok(true),
        Err(Fail::Refused(_)) => Ok(false),
        Err(Fail::Memory) => Err(AllocError),
    }
}

// Whether a log of a group that the change is of refutes the problem.
fn is_refuted_by(
    alloc: Global,
    problem: &Problem,
    shown: &[Shown],
    change: Change,
) -> Result<bool, AllocError>
    ensures { IfOk result (λ b. IsTrue b → HasNone problem.now) }
{
    for place in 0..shown.len() {
        if has(shown[place].group, change) && is_refuted(alloc, problem, &shown[place].text)? {
            return Ok(true);
        }
    }
    Ok(false)
}

/// Whether a log of a group that the change is of shows that it gives no roster: it refutes the problem with the change
/// alone at its utmost too. That takes no plan, and the time of a check.
pub fn is_shown(
    alloc: Global,
    problem: &Problem,
    shown: &[Shown],
    change: Change,
) -> Result<bool, AllocError>
    requires { IsChange problem.now change }
    ensures { IfOk result (λ b. IsTrue b → HelpsNever problem.now change) }
{
    let steps = most_steps(problem, change);
    if steps == 0 {
        return Ok(true);
    }
    let loosened = loosen(alloc, problem, change, steps)?;
    let is_refuted = is_refuted_by(alloc, &loosened, shown, change);
    drop(loosened);
    Ok(is_refuted?)
}
