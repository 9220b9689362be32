// The moves of a table as steps.
ghost use Rattle.std.specs.Prelude.{◌≡◌, ◌↔◌, ℕ, ◌+◌, ◌<◌, length, AllPairs, Contains, Some, IfOk, OnOk};
ghost use Rattle.rwsp_terms.specs.declared.data.Symbol.{Symbol};
ghost use Rattle.rwsp_terms.specs.declared.limits.TheConstants.{MOST_SYMBOLS};
ghost use Rattle.clean_words.specs.Automata.{StepBefore};
ghost use Rattle.clean_words.specs.Moves.{move_at};
ghost use Rattle.clean_words.specs.Tables.{AreStepsBefore};

use crate::Step;
use crate::table::Row;
use rwsp_terms::Symbol;
use rwsp_terms::limits::MOST_SYMBOLS;
use std::alloc::{AllocError, Global};

// Puts the move of a state by the symbol of a number, if there is one, behind the steps before it.
fn put_step(
    steps: &mut Vec<Step>,
    moves: &[Row],
    state: usize,
    number: u8,
) -> Result<(), AllocError>
    requires state { state < length moves.now }
    requires number { number < MOST_SYMBOLS }
    ensures { OnOk result (AreStepsBefore moves.now steps.old.items state number
        → AreStepsBefore moves.now steps.new.items state (number + 1)) }
{
    if let Some(to) = moves[state][number as usize] {
        steps.push(Step {
            from: state,
            symbol: Symbol { number },
            to,
        })?;
    }
    Ok(())
}

// Puts the moves of a state behind the steps from the states before it.
fn put_steps(steps: &mut Vec<Step>, moves: &[Row], state: usize) -> Result<(), AllocError>
    requires state { state < length moves.now }
    ensures { OnOk result (AreStepsBefore moves.now steps.old.items state 0
        → AreStepsBefore moves.now steps.new.items (state + 1) 0) }
{
    for number in 0..MOST_SYMBOLS as u8 {
        put_step(steps, moves, state, number)?;
    }
    Ok(())
}

// All moves, ascending by the state and then by the symbol.
pub fn steps_of(alloc: Global, moves: &[Row]) -> Result<Vec<Step>, AllocError>
    ensures ordered { IfOk result (λ steps. AllPairs StepBefore steps.items) }
    ensures all { IfOk result (λ steps. (s : ℕ) (x : Symbol) (t : ℕ)
        → Contains steps.items (record { from = s; symbol = x; to = t }) ↔ (move_at moves.now s x.number ≡ Some t)) }
{
    let mut steps = Vec::new(alloc);
    for state in 0..moves.len() {
        put_steps(&mut steps, moves, state)?;
    }
    Ok(steps)
}
