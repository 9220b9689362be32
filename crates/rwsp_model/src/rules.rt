// The rules of a problem and their numbers.
ghost use Rattle.std.specs.Prelude.{◌≡◌, ◌↔◌, ◌⊎◌, ℕ, ◌+◌, ◌*◌, ◌<◌, ◌≤◌, length, Some, IsTrue, IfOk, OnOk, All, Contains};
ghost use Rattle.std.specs.List.Sorted.{IsStrictlyIncreasing};
ghost use Rattle.rwsp_terms.specs.Instance.{shift_count, IsClass};
ghost use Rattle.rwsp_terms.specs.Roster.{IsRule};
ghost use Rattle.rwsp_terms.specs.Rules.{rules, rule_of, IsShort, NamesShortRules};
ghost use Rattle.rwsp_model.specs.RuleNumbers.{class_place, place_of, IsShortNumber};

use crate::Problem;
use rwsp_terms::limits::{GREATEST_SHORT_BOUND, MOST_RULES, MOST_SHIFTS};
use rwsp_terms::{Class, Rule, RuleList, Symbol};
use std::alloc::{AllocError, Global};

/// The number of rules.
#[tactic(auto, using(crate::proofs::Numbering::rules_are_many))]
pub fn rule_count(problem: &Problem) -> u32
    ensures value { result ≡ length (rules problem.now) }
    ensures few { result ≤ MOST_RULES }
{
    problem.prove_limits();
    let blocks = 2 * (u32::from(problem.shifts()) + 2);
    blocks + problem.sequence_count() + problem.days()
}

// The class of a place among those whose blocks have rules.
fn class_standing(problem: &Problem, place: u32) -> Class
    requires { place < shift_count problem.now + 2 }
    ensures class { IsClass problem.now result }
    ensures place { class_place problem.now result ≡ place }
{
    problem.prove_limits();
    let shifts = u32::from(problem.shifts());
    if place < shifts {
        Class::Shift(Symbol {
            number: place as u8 + 1,
        })
    } else if place == shifts {
        Class::Off
    } else {
        Class::Work
    }
}

// The rule of a place among the first ones, which are those on blocks.
fn block_rule(problem: &Problem, place: u32) -> Rule
    requires { place < 2 * (shift_count problem.now + 2) }
    ensures rule { IsRule problem.now result }
    ensures place { place_of problem.now result ≡ place }
{
    let class = class_standing(problem, place / 2);
    if place % 2 == 0 {
        Rule::Most(class)
    } else {
        Rule::Least(class)
    }
}

// The rule of a place in the list, counted from 0.
#[tactic(auto, using(crate::proofs::Numbering::rules_are_many))]
fn rule_standing(problem: &Problem, place: u32) -> Rule
    requires { place < length (rules problem.now) }
    ensures rule { IsRule problem.now result }
    ensures place { place_of problem.now result ≡ place }
{
    let blocks = 2 * (u32::from(problem.shifts()) + 2);
    let sequences = problem.sequence_count();
    if place < blocks {
        block_rule(problem, place)
    } else if place - blocks < sequences {
        Rule::Never(place - blocks)
    } else {
        Rule::Day(place - blocks - sequences + 1)
    }
}

/// The rule of a number. Numbers count from 1.
pub fn rule_at(problem: &Problem, number: u32) -> Rule
    requires { (0 < number) × (number ≤ length (rules problem.now)) }
    ensures value { rule_of problem.now number ≡ Some result }
    ensures rule { IsRule problem.now result }
{
    rule_standing(problem, number - 1)
}

// The place of a class among those whose blocks have rules.
fn class_place(problem: &Problem, class: Class) -> u32
    requires { IsClass problem.now class }
    ensures value { result ≡ class_place problem.now class }
    ensures few { result < MOST_SHIFTS + 2 }
{
    problem.prove_limits();
    match class {
        Class::Shift(shift) => u32::from(shift.number) - 1,
        Class::Off => u32::from(problem.shifts()),
        Class::Work => u32::from(problem.shifts()) + 1,
    }
}

// The place of a rule in the list, counted from 0.
#[tactic(auto, using(crate::proofs::Sequences::few_sequences))]
fn place_of(problem: &Problem, rule: Rule) -> u32
    requires { IsRule problem.now rule }
    ensures value { result ≡ place_of problem.now rule }
    ensures few { result < MOST_RULES }
{
    problem.prove_limits();
    let blocks = 2 * (u32::from(problem.shifts()) + 2);
    match rule {
        Rule::Most(class) => 2 * class_place(problem, class),
        Rule::Least(class) => 2 * class_place(problem, class) + 1,
        Rule::Never(place) => blocks + place,
        Rule::Day(day) => blocks + problem.sequence_count() + (day - 1),
    }
}

/// The number of a rule, from 1 on.
pub fn number_of(problem: &Problem, rule: Rule) -> u32
    requires { IsRule problem.now rule }
    ensures value { rule_of problem.now result ≡ Some rule }
    ensures within { (1 ≤ result) × (result ≤ length (rules problem.now)) }
    ensures few { result ≤ MOST_RULES }
{
    place_of(problem, rule) + 1
}

/// Whether a line of a log may cite the rule in a list: whether its windows are at most two days longer than the
/// greatest short bound.
pub fn is_short(problem: &Problem, rule: Rule) -> bool
    requires { IsRule problem.now rule }
    ensures { IsTrue result ↔ IsShort problem.now rule }
{
    match rule {
        Rule::Most(class) => problem.bounds(class).greatest <= GREATEST_SHORT_BOUND,
        Rule::Least(class) => problem.bounds(class).least <= GREATEST_SHORT_BOUND,
        Rule::Never(_) => true,
        Rule::Day(_) => false,
    }
}

// Puts the number into the list, where it is that of a short rule.
fn put_if_short(list: &mut RuleList, problem: &Problem, number: u32) -> Result<(), AllocError>
    requires ascends { IsStrictlyIncreasing list.old }
    requires number { (0 < number) × (number ≤ length (rules problem.now)) }
    ensures ascends { IsStrictlyIncreasing list.new }
    ensures holds { OnOk result ((k : ℕ)
        → Contains list.new k ↔ (Contains list.old k ⊎ ((k ≡ number) × IsShortNumber problem.now k))) }
{
    if is_short(problem, rule_at(problem, number)) {
        list.put(number)?;
    }
    Ok(())
}

/// The list of all short rules.
pub fn short_rules(alloc: Global, problem: &Problem) -> Result<RuleList, AllocError>
    ensures ascends { IfOk result (λ R. IsStrictlyIncreasing R) }
    ensures in_range { IfOk result (All (λ k. (0 < k) × (k ≤ length (rules problem.now)))) }
    ensures numbers { IfOk result (λ R. (k : ℕ) → Contains R k ↔ IsShortNumber problem.now k) }
    ensures rules { IfOk result (λ R. NamesShortRules problem.now R) }
{
    let mut list = RuleList::new(alloc);
    for place in 0..rule_count(problem) {
        put_if_short(&mut list, problem, place + 1)?;
    }
    Ok(list)
}
