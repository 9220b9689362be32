// What is left of a line's rules and weights without one rule.
ghost use Rattle.std.specs.Prelude.{◌≡◌, ◌<◌, ◌++◌, ◌∷◌, [], Some, All, OnOk, IfOk};
ghost use Rattle.std.specs.List.Sorted.{IsStrictlyIncreasing};
ghost use Rattle.rwsp_terms.specs.declared.data.Rule.TheVariants.{Day};
ghost use Rattle.rwsp_terms.specs.Weights.{AreWeights, ComesBefore, IsWeight};
ghost use Rattle.refutation_terms.specs.Strip.{without_rule, without_day};

use rwsp_terms::{Rule, RuleList, Weight, Weights};
use std::alloc::{AllocError, Global};

// Puts a number behind the others, except the one that is left out.
fn put_other(kept: &mut RuleList, listed: u32, left_out: u32) -> Result<(), AllocError>
    requires ascends { IsStrictlyIncreasing kept.old }
    requires last { All (λ k. k < listed) kept.old }
    ensures { OnOk result (kept.new ≡ kept.old ++ without_rule left_out (listed ∷ [])) }
{
    if listed == left_out {
        return Ok(());
    }
    kept.put(listed)
}

/// The list without the number.
pub fn without(alloc: Global, list: &RuleList, number: u32) -> Result<RuleList, AllocError>
    ensures { IfOk result (λ kept. kept ≡ without_rule number list.now) }
{
    let mut kept = RuleList::new(alloc);
    for listed in list.numbers() {
        put_other(&mut kept, *listed, number)?;
    }
    Ok(kept)
}

// Puts a weight behind the others, except one on the day that is left out.
fn put_weight_elsewhere(kept: &mut Weights, entry: Weight, day: u32) -> Result<(), AllocError>
    requires weights { AreWeights kept.old }
    requires last { All (λ e. ComesBefore e entry) kept.old }
    requires weight { IsWeight entry }
    ensures { OnOk result (kept.new ≡ kept.old ++ without_day (Some (Day day)) (entry ∷ [])) }
{
    if entry.day == day {
        return Ok(());
    }
    kept.put(entry.day, entry.symbol, entry.value)
}

// The weights except those on the day.
fn weights_elsewhere(alloc: Global, weights: &Weights, day: u32) -> Result<Weights, AllocError>
    ensures { IfOk result (λ kept. kept ≡ without_day (Some (Day day)) weights.now) }
{
    let mut kept = Weights::new(alloc);
    for entry in weights.entries() {
        put_weight_elsewhere(&mut kept, *entry, day)?;
    }
    Ok(kept)
}

/// The weights except those on a day whose rule this is.
pub fn weights_without(alloc: Global, weights: &Weights, rule: Rule) -> Result<Weights, AllocError>
    ensures { IfOk result (λ kept. kept ≡ without_day (Some rule) weights.now) }
{
    match rule {
        Rule::Day(day) => weights_elsewhere(alloc, weights, day),
        _ => weights.copy(),
    }
}
