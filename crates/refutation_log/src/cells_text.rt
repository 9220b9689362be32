// The cells that a text gives.
ghost use Rattle.std.specs.Prelude.{◌≡◌, ◌≢◌, ◌↔◌, ◌≤◌, ◌<◌, ◌^◌, length, IsTrue, Some, None, IfOk};
ghost use Rattle.rwsp_terms.specs.declared.limits.TheConstants.{LONGEST_FILE};
ghost use Rattle.rwsp_terms.specs.Instance.{symbol_of};
ghost use Rattle.rwsp_model.specs.Refusals.{MatchAnswer, IfRefused};
ghost use Rattle.roster_print.specs.Said.{open_word};
ghost use Rattle.refutation_terms.specs.GivenCells.{AreGivenIn};
ghost use Rattle.refutation_log.specs.CellsText.{SpellsGiven, given_from, refusal_of_cells};

use refutation_terms::{GivenCell, GivenCells};
use roster_print::{RosterRefusal, read_weeks};
use rwsp_model::{Fail, Problem};
use rwsp_terms::Symbol;
use std::alloc::{AllocError, Global};

/// Whether a shift of the problem has the name `?`, which stands for a cell that is left open.
pub fn is_open_word_taken(problem: &Problem) -> bool
    ensures { IsTrue result ↔ (symbol_of problem.now open_word ≢ None) }
{
    problem.symbol(b"?".as_slice()).is_some()
}

// The cells that have a symbol.
fn cells_given(alloc: Global, said: &[Option<Symbol>]) -> Result<GivenCells, AllocError>
    requires { length said.now < 2 ^ 32 }
    ensures { IfOk result (λ given. given ≡ given_from 0 said.now) }
{
    let mut given = GivenCells::new(alloc);
    for p in 0..said.len() {
        if let Some(x) = said[p] {
            given.put(GivenCell { p: p as u32, x })?;
        }
    }
    Ok(given)
}

/// The cells that a text of at most 1,048,576 bytes gives: a roster's text in which `?` stands for a cell that is left
/// open. It is refused as a roster's text is.
pub fn read_cells(
    alloc: Global,
    problem: &Problem,
    bytes: &[u8],
) -> Result<GivenCells, Fail<RosterRefusal>>
    requires { length bytes.now ≤ LONGEST_FILE }
    ensures given { IfOk result (λ given. AreGivenIn problem.now given) }
    ensures answer { MatchAnswer result (SpellsGiven problem.now bytes.now)
        (λ why. refusal_of_cells problem.now bytes.now ≡ Some why) }
    ensures unspelled { IfRefused result (λ why. (given : _) → SpellsGiven problem.now bytes.now given → ⊥) }
{
    let said = read_weeks(alloc, problem, true, bytes)?;
    problem.prove_limits();
    match cells_given(alloc, &said) {
        Err(_) => Err(Fail::Memory),
        Ok(given) => Ok(given),
    }
}
