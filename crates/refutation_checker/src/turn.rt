// The turn of a header, judged.
ghost use Rattle.std.specs.Prelude.{MatchOption};
ghost use Rattle.refutation_terms.specs.Log.{OpeningFits};
ghost use Rattle.refutation_checker.specs.Turns.{IsSoundTurn, TurnFault, IsTurnFault};

use refutation_terms::{LogRefusal, Opening, Turn};
use rwsp_model::{Problem, number_of};
use rwsp_terms::{Rule, RuleList};

// Why the turn of line 3 is refused: the rule of its day isn't named, or no week must hold its
// symbol then.
fn turn_fault(problem: &Problem, named: &RuleList, turn: Turn) -> Option<LogRefusal>
    requires { OpeningFits problem.now (Opening.Turned turn) }
    ensures { MatchOption result (IsSoundTurn problem.now named.now (Opening.Turned turn))
        (TurnFault problem.now named.now turn) }
{
    let day = number_of(problem, Rule::Day(turn.day));
    if !named.holds(day) {
        return Some(LogRefusal::Unnamed(3, day));
    }
    if problem.demand_least(turn.x, turn.day) < 1 {
        return Some(LogRefusal::Turn(3));
    }
    None
}

/// The cause of a turn, whose line is the third; None where there is none, and for no turn.
pub fn turn_refusal(problem: &Problem, named: &RuleList, opening: &Opening) -> Option<LogRefusal>
    requires { OpeningFits problem.now opening.now }
    ensures { MatchOption result (IsSoundTurn problem.now named.now opening.now)
        (IsTurnFault problem.now named.now opening.now) }
{
    match opening {
        Opening::Turned(turn) => turn_fault(problem, named, *turn),
        Opening::Full | Opening::Given(_) => None,
    }
}
