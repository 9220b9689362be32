// The rules of a line's list whose windows are too long for layers.
ghost use Rattle.std.specs.Prelude.{◌≤◌, ◌<◌, ◌↔◌, ℕ, length, Bool, Option, IsTrue, MatchOption};
ghost use Rattle.rwsp_terms.specs.Rules.{rules, NamesShortOnly};
ghost use Rattle.rwsp_model.specs.RuleNumbers.{IsShortNumber};
ghost use Rattle.refutation_terms.specs.Ranges.{AreRules};
ghost use Rattle.refutation_terms.specs.Log.{LineFits, ListsShortOnly};
ghost use Rattle.refutation_terms.specs.Verdict.{IsLeast, ListsLong};
ghost use Rattle.refutation_terms.specs.Leaves.{IsLongIn};

use refutation_terms::{Leaf, Line};
use rwsp_model::{Problem, is_short, rule_at};
use rwsp_terms::RuleList;

// Whether the rule of the number is short.
#[tactic(auto, using(crate::proofs::Lists::short_number))]
fn is_short_number(problem: &Problem, number: u32) -> bool
    requires { (0 < number) × (number ≤ length (rules problem.now)) }
    ensures { IsTrue result ↔ IsShortNumber problem.now number }
{
    is_short(problem, rule_at(problem, number))
}

// The least number in the list of a rule that isn't short.
fn least_long(problem: &Problem, list: &RuleList) -> Option<u32>
    requires { AreRules problem.now list.now }
    ensures { MatchOption result
        (NamesShortOnly problem.now list.now)
        (λ k. IsLeast (IsLongIn problem.now list.now) k) }
{
    for number in list.numbers() {
        if !is_short_number(problem, *number) {
            return Some(*number);
        }
    }
    None
}

/// The number of the least rule in the list of a leaf that isn't short; None where all are short, and for
/// lines without a list. Goes along the list once.
pub fn long_rule(problem: &Problem, line: &Line) -> Option<u32>
    requires { (goal : Option ℕ) × (counts : Bool) × LineFits problem.now goal counts line.now }
    ensures { MatchOption result
        (ListsShortOnly problem.now line.now)
        (λ k. IsLeast (ListsLong problem.now line.now) k) }
{
    let Line::Closing(leaf) = line else {
        return None;
    };
    match leaf {
        Leaf::Words { rules, .. } => least_long(problem, rules),
        _ => None,
    }
}
