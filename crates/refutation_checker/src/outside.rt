// The least of some numbers that a list doesn't hold.
ghost use Rattle.std.specs.Prelude.{◌≡◌, Contains, All, Option};
ghost use Rattle.rwsp_terms.specs.Instance.{IsDay};
ghost use Rattle.rwsp_terms.specs.Roster.{IsRule};
ghost use Rattle.refutation_terms.specs.Ranges.{WeightsFit};
ghost use Rattle.refutation_log.specs.Cited.{IsCited, IsDayRule, IsSomeDay, IsWeighedDayRule};
ghost use Rattle.refutation_checker.specs.Outside.{IsLeastOutside, lesser};

use rwsp_model::{Problem, number_of};
use rwsp_terms::{Rule, RuleList, Weights};

/// The number, if the list doesn't hold it.
pub fn outside(number: u32, named: &RuleList) -> Option<u32>
    ensures { IsLeastOutside (λ k. k ≡ number) named.now result }
{
    if named.holds(number) {
        None
    } else {
        Some(number)
    }
}

/// The number of the day's rule, if the list doesn't hold it.
#[tactic(auto, using(crate::proofs::Lists::day_outside))]
pub fn day_outside(problem: &Problem, day: u32, named: &RuleList) -> Option<u32>
    requires { IsDay problem.now day }
    ensures { IsLeastOutside (IsDayRule problem.now day) named.now result }
{
    outside(number_of(problem, Rule::Day(day)), named)
}

/// The least number of the first list that the second doesn't hold.
pub fn least_outside(cited: &RuleList, named: &RuleList) -> Option<u32>
    ensures { IsLeastOutside (Contains cited.now) named.now result }
{
    for number in cited.numbers() {
        if !named.holds(*number) {
            return Some(*number);
        }
    }
    None
}

/// The lesser of the numbers that are there.
pub fn lesser(a: Option<u32>, b: Option<u32>) -> Option<u32>
    ensures { result ≡ lesser a b }
{
    match (a, b) {
        (None, _) => b,
        (_, None) => a,
        (Some(a), Some(b)) => Some(a.min(b)),
    }
}

/// The least rule of a day with a weight that the list doesn't hold.
pub fn least_day_outside(problem: &Problem, weights: &Weights, named: &RuleList) -> Option<u32>
    requires { WeightsFit problem.now weights.now }
    ensures { IsLeastOutside (IsWeighedDayRule problem.now weights.now) named.now result }
{
    let mut least = None;
    for entry in weights.entries() {
        least = lesser(least, day_outside(problem, entry.day, named));
    }
    least
}

/// The least of the numbers of these rules that the list doesn't hold.
pub fn rules_outside(problem: &Problem, rules: &[Rule], named: &RuleList) -> Option<u32>
    requires { All (IsRule problem.now) rules.now }
    ensures { IsLeastOutside (IsCited problem.now (Contains rules.now)) named.now result }
{
    let mut least = None;
    for rule in rules {
        least = lesser(least, outside(number_of(problem, *rule), named));
    }
    least
}

/// The least rule of a day that the list doesn't hold. Looks up each day of the cycle.
pub fn each_day_outside(problem: &Problem, named: &RuleList) -> Option<u32>
    ensures { IsLeastOutside (IsCited problem.now (IsSomeDay problem.now)) named.now result }
{
    let mut least = None;
    for day in 0..problem.days() {
        least = lesser(least, day_outside(problem, day + 1, named));
    }
    least
}
