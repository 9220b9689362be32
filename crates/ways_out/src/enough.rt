// How few steps of a change a roster needs.
ghost use Rattle.std.specs.Prelude.{◌<◌, ◌≤◌, IsTrue, IfOk};
ghost use Rattle.rwsp_terms.specs.Roster.{IsRoster, MeetsAll};
ghost use Rattle.ways_out.specs.Loosened.{loosened, IsChange, IsStep};
ghost use Rattle.ways_out.specs.Helping.{HasRoster};

use crate::change::Change;
use crate::loosening::loosen;
use roster_checker::first_broken;
use rwsp_model::{Problem, Roster};
use std::alloc::{AllocError, Global};

/// Whether the roster meets every rule of the problem with so many steps of a change.
pub fn is_enough(
    alloc: Global,
    problem: &Problem,
    change: Change,
    roster: &Roster,
    steps: u32,
) -> Result<bool, AllocError>
    requires change { IsChange problem.now change }
    requires step { IsStep problem.now change steps }
    requires roster { IsRoster problem.now roster.now.cells }
    ensures { IfOk result (λ b. IsTrue b → MeetsAll (loosened problem.now change steps) roster.now.cells) }
{
    let loosened = loosen(alloc, problem, change, steps)?;
    let broken = first_broken(&loosened, roster);
    drop(loosened);
    Ok(broken.is_none())
}

/// The fewest steps, more than `low`, with which a roster that so many steps give meets every rule, by halving. No plan
/// is made, and the tries grow with the logarithm of the steps.
pub fn fewer_steps(
    alloc: Global,
    problem: &Problem,
    change: Change,
    roster: &Roster,
    low: u32,
    steps: u32,
) -> Result<u32, AllocError>
    requires change { IsChange problem.now change }
    requires steps { (low < steps) × IsStep problem.now change steps }
    requires roster { MeetsAll (loosened problem.now change steps) roster.now.cells }
    ensures { IfOk result (λ n. (low < n) × (n ≤ steps) × HasRoster (loosened problem.now change n)) }
{
    let mut few = low;
    let mut enough = steps;
    while few + 1 < enough {
        let middle = few + (enough - few) / 2;
        if is_enough(alloc, problem, change, roster, middle)? {
            enough = middle;
        } else {
            few = middle;
        }
    }
    Ok(enough)
}
