// The names of symbols in a row.
ghost use Rattle.std.specs.Prelude.{◌≡◌, ◌++◌, ◌∷◌, All, OnOk};
ghost use Rattle.std.specs.List.{flat_map};
ghost use Rattle.rwsp_terms.specs.Instance.{IsSymbol, name_of};

use rwsp_model::Problem;
use rwsp_terms::Symbol;
use std::alloc::AllocError;

/// Appends the name of each symbol after a blank.
pub fn put_after_blanks(
    out: &mut Vec<u8>,
    problem: &Problem,
    symbols: &[Symbol],
) -> Result<(), AllocError>
    requires { All (IsSymbol problem.now) symbols.now }
    ensures { OnOk result (out.new.items
        ≡ out.old.items ++ flat_map (λ x. 32 ∷ name_of problem.now x) symbols.now) }
{
    for symbol in symbols {
        out.push(b' ')?;
        out.extend_from_slice(problem.name(*symbol))?;
    }
    Ok(())
}
