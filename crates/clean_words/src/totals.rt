// What a roster that meets the demand weighs at least.
ghost use Rattle.std.specs.Prelude.{◌≡◌, ◌+◌, ◌≤◌, ℤ, pos, negsuc, neg_ℤ, ◌≤ℤ◌, ◌*ℤ◌, ◌*◌};
ghost use Rattle.rwsp_terms.specs.declared.limits.TheConstants.{GREATEST_REWARD, GREATEST_WEIGHT, MOST_DAYS, MOST_SHIFTS, MOST_SYMBOLS, MOST_WEEKS};
ghost use Rattle.std.specs.List.{range_with_len};
ghost use Rattle.rwsp_terms.specs.Instance.{IsDay, IsSymbol, shift_count};
ghost use Rattle.rwsp_terms.specs.Weights.{weight_at};
ghost use Rattle.refutation_terms.specs.Word.{int_sum_by, least_weight};
ghost use Rattle.refutation_terms.specs.WordsLeaf.{owed};

use rwsp_model::Problem;
use rwsp_terms::{Symbol, Weights};

/// The least that a roster can weigh which meets the demand and has as many free weekends as the goal, with the reward
/// for each. Costs a step for each day and symbol, with a look-up among the weights.
pub fn total(problem: &Problem, weights: &Weights, reward: u32, goal: u32) -> i64
    requires reward { reward ≤ GREATEST_REWARD }
    requires goal { goal ≤ MOST_WEEKS + 1 }
    ensures value { result ≡ owed problem.now (Some goal) weights.now reward }
    ensures above { neg_ℤ (pos (MOST_DAYS * (MOST_SYMBOLS * (GREATEST_WEIGHT * (MOST_SHIFTS * MOST_WEEKS))))) ≤ℤ
        result }
    ensures below { result ≤ℤ pos (MOST_DAYS * (MOST_SYMBOLS * (GREATEST_WEIGHT * (MOST_SHIFTS * MOST_WEEKS)))
        + GREATEST_REWARD * (MOST_WEEKS + 1)) }
{
    let mut sum = 0;
    for i in 0..problem.days() {
        sum += day_total(problem, weights, i + 1);
    }
    sum + i64::from(reward) * i64::from(goal)
}

// The sum of the least weights of the symbols of one day.
fn day_total(problem: &Problem, weights: &Weights, day: u32) -> i64
    requires { IsDay problem.now day }
    ensures value { result ≡ int_sum_by
        (λ x. least_weight problem.now weights.now day x) (range_with_len 0 (shift_count problem.now + 1)) }
    ensures above { neg_ℤ (pos (MOST_SYMBOLS * (GREATEST_WEIGHT * (MOST_SHIFTS * MOST_WEEKS)))) ≤ℤ result }
    ensures below { result ≤ℤ pos (MOST_SYMBOLS * (GREATEST_WEIGHT * (MOST_SHIFTS * MOST_WEEKS))) }
{
    let mut sum = 0;
    for number in 0..problem.shifts() + 1 {
        sum += least_weight(problem, weights, day, Symbol { number });
    }
    sum
}

// The least that the weeks weigh which hold the symbol on the day.
fn least_weight(problem: &Problem, weights: &Weights, day: u32, x: Symbol) -> i64
    requires day { IsDay problem.now day }
    requires symbol { IsSymbol problem.now x }
    ensures value { result ≡ least_weight problem.now weights.now day x.number }
    ensures above { neg_ℤ (pos (GREATEST_WEIGHT * (MOST_SHIFTS * MOST_WEEKS))) ≤ℤ result }
    ensures below { result ≤ℤ pos (GREATEST_WEIGHT * (MOST_SHIFTS * MOST_WEEKS)) }
{
    let weight = weight_at(weights, day, x);
    let at_least = weeks_weight(weight, problem.demand_least(x, day));
    let at_most = weeks_weight(weight, problem.demand_greatest(x, day));
    at_least.min(at_most)
}

// What `weeks` weeks weigh.
fn weeks_weight(weight: i64, weeks: i32) -> i64
    requires weight { (neg_ℤ (pos GREATEST_WEIGHT) ≤ℤ weight) × (weight ≤ℤ pos GREATEST_WEIGHT) }
    requires weeks { (neg_ℤ (pos (MOST_SHIFTS * MOST_WEEKS)) ≤ℤ weeks) × (weeks ≤ℤ pos MOST_WEEKS) }
    ensures value { result ≡ weight *ℤ weeks }
    ensures above { neg_ℤ (pos (GREATEST_WEIGHT * (MOST_SHIFTS * MOST_WEEKS))) ≤ℤ result }
    ensures below { result ≤ℤ pos (GREATEST_WEIGHT * (MOST_SHIFTS * MOST_WEEKS)) }
{
    weight * i64::from(weeks)
}

// What the symbol weighs on the day.
fn weight_at(weights: &Weights, day: u32, x: Symbol) -> i64
    ensures value { result ≡ weight_at weights.now day x.number }
    ensures low { neg_ℤ (pos GREATEST_WEIGHT) ≤ℤ result }
    ensures high { result ≤ℤ pos GREATEST_WEIGHT }
{
    weights.entries();
    i64::from(weights.at(day, x))
}
