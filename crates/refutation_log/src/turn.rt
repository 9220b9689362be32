ghost use Rattle.std.specs.Prelude.{◌≡◌, ◌↔◌, ◌<ℤ◌, IsTrue, IfSome, None};
ghost use Rattle.rwsp_terms.specs.declared.data.Symbol.{Symbol};
ghost use Rattle.rwsp_terms.specs.Instance.{IsDay, IsShift, least, shift_count};
ghost use Rattle.refutation_terms.specs.declared.lines.LogKind.TheVariants.{WithoutGoal};
ghost use Rattle.refutation_terms.specs.Sharp.{IsDemanded, IsScarcestTurn};
ghost use Rattle.refutation_terms.specs.Verdict.{kind_by};
ghost use Rattle.refutation_log.specs.Turns.{IsScarcestUpTo};

use refutation_terms::{Opening, Turn};
use rwsp_model::Problem;
use rwsp_terms::Symbol;

/// The turn to a shift that some week must hold on a day: to the scarcest, which fewest weeks must hold, and of those
/// as scarce to the first, by days and then by shifts. Where no shift must be there, it is no turn. The fewer weeks may
/// be week 1, the more is known of it.
pub fn scarcest_turn(problem: &Problem) -> Opening
    ensures scarcest { IsScarcestTurn problem.now result }
    ensures of_kind { kind_by result None ≡ WithoutGoal }
{
    let mut best = None;
    for day in 0..problem.days() {
        best = scarcest_with(problem, day + 1, best);
    }
    match best {
        Some(turn) => Opening::Turned(turn),
        None => Opening::Full,
    }
}

// The scarcest turn up to the day, where this is that of the days before it.
fn scarcest_with(problem: &Problem, day: u32, before: Option<Turn>) -> Option<Turn>
    requires day { IsDay problem.now day }
    requires before { IsScarcestUpTo problem.now day 0 before }
    ensures { IsScarcestUpTo problem.now day (shift_count problem.now) result }
{
    let mut best = before;
    for shift in 0..problem.shifts() {
        let turn = Turn {
            day,
            x: Symbol { number: shift + 1 },
        };
        if is_scarcer(problem, turn, best) {
            best = Some(turn);
        }
    }
    best
}

// Whether some week must hold the turn's shift on its day, and fewer than must hold that of the other, if there is one.
fn is_scarcer(problem: &Problem, turn: Turn, other: Option<Turn>) -> bool
    requires place { IsDay problem.now turn.day × IsShift problem.now turn.x }
    requires other { IfSome other (λ t. IsDemanded problem.now t.day t.x) }
    ensures { IsTrue result ↔ (IsDemanded problem.now turn.day turn.x ×
        IfSome other (λ t. least problem.now turn.x.number turn.day <ℤ least problem.now t.x.number t.day)) }
{
    let weeks = problem.demand_least(turn.x, turn.day);
    match other {
        None => weeks >= 1,
        Some(other) => weeks >= 1 && weeks < problem.demand_least(other.x, other.day),
    }
}
