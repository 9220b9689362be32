// Whether a line holds by itself: what can be judged without searching for a word.
ghost use Rattle.std.specs.Prelude.{◌≡◌, ◌<◌, ◌↔◌, ℕ, length, Bool, Option, IsTrue, false, MatchOption};
ghost use Rattle.refutation_terms.specs.Log.{Cites, CitesOnlyNamed, GoalFits, LineFits};
ghost use Rattle.refutation_terms.specs.Verdict.{IsLeast, IsUnnamed};
ghost use Rattle.refutation_terms.specs.declared.lines.Opening.TheVariants.{Full};
ghost use Rattle.refutation_terms.specs.Tree.{is_idle};
ghost use Rattle.domain_store.specs.Store.{BelongsTo, has_domain};
ghost use Rattle.refutation_checker.specs.LineVerdicts.{StandsPlainly, IsPlainlySound, IsPlainFailure, PlainCause};

use crate::leaf::{leaf_stands, unnamed_in_leaf};
use crate::long_rules::long_rule;
use domain_store::Domains;
use refutation_terms::{Line, LogRefusal, Terms};
use rwsp_model::Problem;
use rwsp_terms::{RuleList, Symbol};

// Whether the symbol is in the domain of the position beside another.
fn can_split(problem: &Problem, doms: &Domains, p: u32, x: Symbol) -> bool
    requires domains { BelongsTo problem.now doms.now }
    requires position { p < length doms.now.sets }
    ensures { IsTrue result ↔ (is_idle problem.now (has_domain doms.now) p x.number ≡ false) }
{
    problem.prove_limits();
    doms.prove_facts();
    if doms.size(p) < 2 {
        return false;
    }
    doms.has(p, x)
}

// Whether a split isn't idle, or a leaf that isn't one of words holds. Leaves of words aren't judged here.
fn stands_plainly(problem: &Problem, terms: Terms, doms: &Domains, line: &Line) -> bool
    requires goal { GoalFits problem.now Full terms.goal }
    requires domains { BelongsTo problem.now doms.now }
    requires line { LineFits problem.now terms.goal terms.counts line.now }
    ensures { IsTrue result ↔ StandsPlainly problem.now terms.goal (has_domain doms.now) line.now }
{
    doms.prove_facts();
    match line {
        Line::Split { p, x } => can_split(problem, doms, *p, *x),
        Line::Closing(leaf) => leaf_stands(problem, terms, doms, leaf),
        Line::Unfinished => false,
    }
}

// The cause of a line that doesn't hold by itself.
fn plain_failure(line: &Line, number: u32) -> LogRefusal
    ensures { IsPlainFailure number line.now result }
{
    match line {
        Line::Split { .. } => LogRefusal::Idle(number),
        Line::Unfinished => LogRefusal::Unfinished(number),
        _ => LogRefusal::Fails(number),
    }
}

// The number of the least rule that the line cites and the list doesn't name; None where it names them all.
fn unnamed_rule(problem: &Problem, named: &RuleList, line: &Line) -> Option<u32>
    requires { (goal : Option ℕ) × (counts : Bool) × LineFits problem.now goal counts line.now }
    ensures { MatchOption result
        (CitesOnlyNamed problem.now named.now line.now)
        (λ k. IsLeast (IsUnnamed problem.now named.now (Cites problem.now line.now)) k) }
{
    match line {
        Line::Split { .. } | Line::Unfinished => None,
        Line::Closing(leaf) => unnamed_in_leaf(problem, named, leaf),
    }
}

/// The lowest cause to refuse a line as text line `number`, other than a word that escapes a leaf; None exactly
/// where there is no other cause. It goes by a rule that isn't named, an idle split, a rule of a list that isn't short,
/// a leaf that isn't one of words and doesn't hold, and a case that wasn't worked out.
pub fn plain_refusal(
    problem: &Problem,
    named: &RuleList,
    terms: Terms,
    doms: &Domains,
    line: &Line,
    number: u32,
) -> Option<LogRefusal>
    requires goal { GoalFits problem.now Full terms.goal }
    requires domains { BelongsTo problem.now doms.now }
    requires line { LineFits problem.now terms.goal terms.counts line.now }
    ensures { MatchOption result
        (IsPlainlySound problem.now terms.goal named.now (has_domain doms.now) line.now)
        (λ why. PlainCause problem.now terms.goal named.now (has_domain doms.now) number line.now why) }
{
    if let Some(rule) = unnamed_rule(problem, named, line) {
        return Some(LogRefusal::Unnamed(number, rule));
    }
    if let Some(rule) = long_rule(problem, line) {
        return Some(LogRefusal::Long(number, rule));
    }
    if stands_plainly(problem, terms, doms, line) {
        return None;
    }
    Some(plain_failure(line, number))
}
