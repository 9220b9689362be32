// The rules that the lines of a log cite.
ghost use Rattle.std.specs.Prelude.{◌≡◌, ◌⊎◌, ◌↔◌, ℕ, Bool, Option, OnOk, OnErr};
ghost use Rattle.rwsp_terms.specs.declared.data.Rule.{Rule};
ghost use Rattle.rwsp_terms.specs.Rules.{Names};
ghost use Rattle.refutation_terms.specs.Log.{LineFits, Cites, OpeningFits, OpeningCites};
ghost use Rattle.refutation_log.specs.Cited.{Adds, AddsSome, IsCited};

use crate::leaf::{put_day_rule, put_leaf_cited};
use refutation_terms::{Line, Opening};
use rwsp_model::Problem;
use rwsp_terms::RuleList;
use std::alloc::AllocError;

/// Puts the rules that the line of a log with a goal or without cites into the list. After want of memory some of them
/// may have been added.
pub fn put_cited(rules: &mut RuleList, problem: &Problem, line: &Line) -> Result<(), AllocError>
    requires { (goal : Option ℕ) × (counts : Bool) × LineFits problem.now goal counts line.now }
    ensures ok { OnOk result (Adds rules.old rules.new (IsCited problem.now (Cites problem.now line.now))) }
    ensures names { OnOk result ((r : Rule) → Names problem.now rules.new r
        ↔ (Names problem.now rules.old r ⊎ Cites problem.now line.now r)) }
    ensures err { OnErr result (AddsSome rules.old rules.new (IsCited problem.now (Cites problem.now line.now))) }
{
    put_line_cited(rules, problem, line)
}

fn put_line_cited(rules: &mut RuleList, problem: &Problem, line: &Line) -> Result<(), AllocError>
    requires { (goal : Option ℕ) × (counts : Bool) × LineFits problem.now goal counts line.now }
    ensures ok { OnOk result (Adds rules.old rules.new (IsCited problem.now (Cites problem.now line.now))) }
    ensures err { OnErr result (AddsSome rules.old rules.new (IsCited problem.now (Cites problem.now line.now))) }
{
    match line {
        Line::Split { .. } | Line::Unfinished => Ok(()),
        Line::Closing(leaf) => put_leaf_cited(rules, problem, leaf),
    }
}

/// Puts the rule that the opening of a log rests on into the list, that of the day of its turn. After want of memory
/// the list is unchanged.
pub fn put_opening_cited(
    rules: &mut RuleList,
    problem: &Problem,
    opening: &Opening,
) -> Result<(), AllocError>
    requires { OpeningFits problem.now opening.now }
    ensures ok { OnOk result (Adds rules.old rules.new (IsCited problem.now (OpeningCites opening.now))) }
    ensures names { OnOk result ((r : Rule) → Names problem.now rules.new r
        ↔ (Names problem.now rules.old r ⊎ OpeningCites opening.now r)) }
    ensures err { OnErr result (rules.new ≡ rules.old) }
{
    match opening {
        Opening::Full | Opening::Given(_) => Ok(()),
        Opening::Turned(turn) => put_day_rule(rules, problem, turn.day),
    }
}
