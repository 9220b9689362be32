// What goes by the kind of a leaf: whether it holds by itself, and which rule that it cites isn't named.
ghost use Rattle.std.specs.Prelude.{◌⊎◌, ◌↔◌, ℕ, Bool, Option, Contains, IsTrue, false};
ghost use Rattle.rwsp_terms.specs.Instance.{IsSymbol};
ghost use Rattle.refutation_terms.specs.declared.lines.Opening.TheVariants.{Full};
ghost use Rattle.refutation_terms.specs.declared.lines.Line.TheVariants.{Closing};
ghost use Rattle.refutation_terms.specs.declared.lines.Leaf.TheVariants.{Few};
ghost use Rattle.refutation_terms.specs.Ranges.{WeightsFit};
ghost use Rattle.refutation_terms.specs.BlocksLeaf.{BlocksCite, IsBlockRule};
ghost use Rattle.refutation_terms.specs.WordsLeaf.{WordsFit, WordsCite};
ghost use Rattle.refutation_terms.specs.Leaves.{LeafFits, LeafCites};
ghost use Rattle.refutation_terms.specs.Log.{GoalFits, Holds};
ghost use Rattle.domain_store.specs.Store.{BelongsTo, has_domain};
ghost use Rattle.refutation_log.specs.Cited.{IsCited, IsWeighedDayRule};
ghost use Rattle.refutation_checker.specs.LineVerdicts.{StandsPlainly};
ghost use Rattle.refutation_checker.specs.Outside.{IsLeastOutside, IsLeastUnnamed};

use crate::outside::{
    day_outside, each_day_outside, least_day_outside, least_outside, lesser, outside, rules_outside,
};
use domain_store::{Domains, blocks_holds, day_holds, few_holds, window_holds};
use refutation_terms::{Leaf, Terms, WordClaim};
use rwsp_model::Problem;
use rwsp_terms::{Class, Rule, RuleList, Symbol, Weights};

/// Whether the leaf holds, if it isn't one of words. Those aren't judged here.
pub fn leaf_stands(problem: &Problem, terms: Terms, doms: &Domains, leaf: &Leaf) -> bool
    requires goal { GoalFits problem.now Full terms.goal }
    requires domains { BelongsTo problem.now doms.now }
    requires fits { LeafFits problem.now terms.goal terms.counts leaf.now }
    ensures { IsTrue result ↔ StandsPlainly problem.now terms.goal (has_domain doms.now) (Closing leaf.now) }
{
    match leaf {
        Leaf::Window { rule, p, len } => window_holds(problem, doms, *rule, *p, *len),
        Leaf::Day { day, x, over } => day_holds(problem, doms, *day, *x, *over),
        Leaf::Words { .. } => true,
        Leaf::Few => few_stands(problem, terms.goal, doms),
        Leaf::Blocks { x } => blocks_holds(problem, *x),
    }
}

// Whether fewer weeks than the goal can be free; not without a goal.
fn few_stands(problem: &Problem, goal: Option<u32>, doms: &Domains) -> bool
    requires goal { GoalFits problem.now Full goal }
    requires domains { BelongsTo problem.now doms.now }
    ensures { IsTrue result ↔ Holds problem.now goal (has_domain doms.now) (Closing Few) }
{
    match goal {
        Some(goal) => few_holds(problem, doms, goal),
        None => false,
    }
}

/// The number of the least rule that the leaf cites and the list doesn't name; None where it names them all.
///
/// Each number that the leaf cites is looked up in the list, which costs the logarithm of the list's length.
pub fn unnamed_in_leaf(problem: &Problem, named: &RuleList, leaf: &Leaf) -> Option<u32>
    requires { (goal : Option ℕ) × (counts : Bool) × LeafFits problem.now goal counts leaf.now }
    ensures { IsLeastUnnamed problem.now named.now (LeafCites problem.now leaf.now) result }
{
    match leaf {
        Leaf::Few => None,
        Leaf::Window { rule, .. } => outside(*rule, named),
        Leaf::Day { day, .. } => day_outside(problem, *day, named),
        Leaf::Words { rules, claim, .. } => unnamed_in_words(problem, named, rules, claim),
        Leaf::Blocks { x } => unnamed_in_blocks(problem, named, *x),
    }
}

// The number of the least rule that a leaf of words cites, by its list or its claim, and the named ones lack.
fn unnamed_in_words(
    problem: &Problem,
    named: &RuleList,
    rules: &RuleList,
    claim: &WordClaim,
) -> Option<u32>
    requires { (goal : Option ℕ) × (p : ℕ) × WordsFit problem.now goal p rules.now claim.now }
    ensures { IsLeastUnnamed problem.now named.now (WordsCite problem.now rules.now claim.now) result }
{
    match claim {
        WordClaim::Dead { .. } => least_outside(rules, named),
        WordClaim::Light { weights, .. } => least_of_words(problem, rules, weights, named),
    }
}

// The least rule of the list or of a day with a weight that isn't named.
fn least_of_words(
    problem: &Problem,
    rules: &RuleList,
    weights: &Weights,
    named: &RuleList,
) -> Option<u32>
    requires { WeightsFit problem.now weights.now }
    ensures { IsLeastOutside (λ k. Contains rules.now k ⊎ IsWeighedDayRule problem.now weights.now k) named.now result }
{
    lesser(
        least_outside(rules, named),
        least_day_outside(problem, weights, named),
    )
}

// The least rule on the lengths of blocks, or of a day, that isn't named.
fn unnamed_in_blocks(problem: &Problem, named: &RuleList, x: Symbol) -> Option<u32>
    requires { IsSymbol problem.now x }
    ensures { IsLeastUnnamed problem.now named.now (BlocksCite problem.now x) result }
{
    lesser(
        unnamed_length(problem, named, x),
        each_day_outside(problem, named),
    )
}

// The least rule on the lengths of the blocks of the symbol that isn't named, and for the day off of those of work too.
fn unnamed_length(problem: &Problem, named: &RuleList, x: Symbol) -> Option<u32>
    requires { IsSymbol problem.now x }
    ensures { IsLeastOutside (IsCited problem.now (IsBlockRule x.number)) named.now result }
{
    if x.number == 0 {
        rules_outside(
            problem,
            &[
                Rule::Most(Class::Off),
                Rule::Least(Class::Off),
                Rule::Most(Class::Work),
                Rule::Least(Class::Work),
            ],
            named,
        )
    } else {
        let class = Class::Shift(x);
        rules_outside(problem, &[Rule::Most(class), Rule::Least(class)], named)
    }
}
