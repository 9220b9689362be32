// Lines without one rule.
ghost use Rattle.std.specs.Prelude.{◌≡◌, ℕ, map, Some, IsTrue, false, IfOk, OnOk, All, ◌≢◌};
ghost use Rattle.rwsp_terms.specs.Instance.{Instance};
ghost use Rattle.rwsp_terms.specs.Rules.{rule_of};
ghost use Rattle.rwsp_terms.specs.declared.data.Weight.{Weight};
ghost use Rattle.refutation_terms.specs.Strip.{strip_line, strip_claim, without_day};
ghost use Rattle.rule_reducer.specs.Citing.{HasList};

use crate::lists::{weights_without, without};
use crate::numbered_rule::NumberedRule;
use refutation_log::copy_line;
use refutation_terms::{Leaf, Line, WordClaim};
use rwsp_terms::{Rule, Weights};
use std::alloc::{AllocError, Global};

// Whether some symbol has a weight on the day.
fn weighs_on(weights: &Weights, day: u32) -> bool
    ensures { (result ≡ false) → All (λ (e : Weight). e.day ≢ day) weights.now }
{
    for entry in weights.entries() {
        if entry.day == day {
            return true;
        }
    }
    false
}

// Whether a strip of the rule takes weights out of these.
fn loses_weights(weights: &Weights, rule: Rule) -> bool
    ensures { (result ≡ false) → without_day (Some rule) weights.now ≡ weights.now }
{
    match rule {
        Rule::Day(day) => weighs_on(weights, day),
        _ => false,
    }
}

// Whether a strip of the rule can change the claim, which weighs something on its day.
fn claim_loses_weights(claim: &WordClaim, rule: Rule) -> bool
    ensures { (result ≡ false) → (P : Instance) (number : ℕ) →
        rule_of P number ≡ Some rule → strip_claim P number claim.now ≡ claim.now }
{
    match claim {
        WordClaim::Dead { .. } => false,
        WordClaim::Light { weights, .. } => loses_weights(weights, rule),
    }
}

/// Whether a strip of the rule can change the line: a leaf of words that lists the rule, or has weights on its day.
pub fn lists(line: &Line, dropped: NumberedRule) -> bool
    ensures leaf { IsTrue result → HasList line.now }
    ensures same { (result ≡ false) → (P : Instance) →
        rule_of P dropped.number ≡ Some dropped.rule → strip_line P dropped.number line.now ≡ line.now }
{
    match line {
        Line::Closing(leaf) => leaf_lists(leaf, dropped),
        _ => false,
    }
}

fn leaf_lists(leaf: &Leaf, dropped: NumberedRule) -> bool
    ensures leaf { IsTrue result → HasList (Line.Closing leaf.now) }
    ensures same { (result ≡ false) → (P : Instance) → rule_of P dropped.number ≡ Some dropped.rule →
        strip_line P dropped.number (Line.Closing leaf.now) ≡ Line.Closing leaf.now }
{
    match leaf {
        Leaf::Words { rules, claim, .. } => {
            if rules.holds(dropped.number) {
                return true;
            }
            claim_loses_weights(claim, dropped.rule)
        }
        _ => false,
    }
}

// The claim without the rule.
fn strip_claim(alloc: Global, claim: &WordClaim, rule: Rule) -> Result<WordClaim, AllocError>
    ensures { IfOk result (λ kept. (P : Instance) (number : ℕ) →
        rule_of P number ≡ Some rule → kept ≡ strip_claim P number claim.now) }
{
    match claim {
        WordClaim::Dead { len } => Ok(WordClaim::Dead { len: *len }),
        WordClaim::Light {
            turns,
            reward,
            weights,
        } => {
            let weights = weights_without(alloc, weights, rule)?;
            Ok(WordClaim::Light {
                turns: *turns,
                reward: *reward,
                weights,
            })
        }
    }
}

/// The line without the rule.
pub fn strip_line(alloc: Global, line: &Line, dropped: NumberedRule) -> Result<Line, AllocError>
    ensures { IfOk result (λ kept. (P : Instance) →
        rule_of P dropped.number ≡ Some dropped.rule → kept ≡ strip_line P dropped.number line.now) }
{
    match line {
        Line::Closing(Leaf::Words { p, rules, claim }) => {
            let rules = without(alloc, rules, dropped.number)?;
            let claim = strip_claim(alloc, claim, dropped.rule)?;
            Ok(Line::Closing(Leaf::Words {
                p: *p,
                rules,
                claim,
            }))
        }
        _ => copy_line(line),
    }
}

// Takes the rule out of the line. A line that doesn't list it isn't copied.
fn strip_in_place(alloc: Global, line: &mut Line, dropped: NumberedRule) -> Result<(), AllocError>
    ensures { OnOk result ((P : Instance) →
        rule_of P dropped.number ≡ Some dropped.rule → line.new ≡ strip_line P dropped.number line.old) }
{
    if !lists(line, dropped) {
        return Ok(());
    }
    let stripped = strip_line(alloc, line, dropped)?;
    *line = stripped;
    Ok(())
}

/// Takes the rule out of all lines. After want of memory it may be out of some of them.
pub fn strip_lines(
    alloc: Global,
    lines: &mut [Line],
    dropped: NumberedRule,
) -> Result<(), AllocError>
    ensures { OnOk result ((P : Instance) →
        rule_of P dropped.number ≡ Some dropped.rule → lines.new ≡ map (strip_line P dropped.number) lines.old) }
{
    for i in 0..lines.len() {
        strip_in_place(alloc, &mut lines[i], dropped)?;
    }
    Ok(())
}
