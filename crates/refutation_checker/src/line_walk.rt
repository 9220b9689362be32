// Lines that a walk reads.
ghost use Rattle.std.specs.Prelude.{◌≡◌, ◌∷◌, [], IfOk, false};
ghost use Rattle.domain_store.specs.States.{HasReadOn};
ghost use Rattle.refutation_checker.specs.LineTexts.{MayStep};

use domain_store::Walk;
use refutation_terms::Line;
use std::alloc::AllocError;

/// The walk reads a line that is no idle split.
pub fn step(walk: &mut Walk, line: &Line) -> Result<(), AllocError>
    requires part { walk.old.whole ≡ false }
    requires useful { MayStep walk.old.store line.now }
    ensures { IfOk result (λ _. HasReadOn walk.old (line.now ∷ []) walk.new) }
{
    match line {
        Line::Split { p, x } => walk.read_split(*p, *x),
        _ => {
            walk.read_leaf();
            Ok(())
        }
    }
}
