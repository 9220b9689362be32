// Whether a fill log passes. The answer is as for `check`, with the given cells.
ghost use Rattle.std.specs.Prelude.{IfOk};
ghost use Rattle.commands.specs.Files.{IsWithinLimit};
ghost use Rattle.commands.specs.Check.{IsChecked, IsCheckedOf};
ghost use Rattle.commands.specs.declared.second_file.SecondKind.TheVariants as Kinds;

use crate::check::{Answer, checked};
use clean_words::Gate;
use refutation_checker::UncheckedLog;
use refutation_log::LogKind;
use rwsp_model::Problem;
use rwsp_terms::limits::USUAL_WORKERS;
use std::alloc::{AllocError, Global};
use std::thread::Threads;

/// The answer to the bytes of a fill log, worked out by as many threads as for `check` where nothing is said.
pub fn job<R: Threads + Sync, G: Gate>(
    rt: &R,
    alloc: Global,
    problem: &Problem,
    bytes: &[u8],
    gate: &G,
) -> Result<Answer, AllocError>
    requires { IsWithinLimit Kinds.Log bytes.now }
    ensures says { IfOk result (IsChecked problem.now LogKind.WithCells bytes.now) }
    ensures own { IfOk result (IsCheckedOf problem.now) }
{
    let log = UncheckedLog {
        kind: LogKind::WithCells,
        bytes,
    };
    checked(rt, alloc, problem, log, USUAL_WORKERS, gate)
}
