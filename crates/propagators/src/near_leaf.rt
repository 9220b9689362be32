// A leaf of words that weigh too little, after an exact test.
ghost use Rattle.std.specs.Prelude.{◌*◌, ◌<◌, ◌≤◌, ◌+◌, IfOk, IfSome, OnOk, Some, None, pos, neg_ℤ, ◌≤ℤ◌};
ghost use Rattle.rwsp_terms.specs.Instance.{cells, IsDay};
ghost use Rattle.rwsp_terms.specs.declared.limits.TheConstants.{GREATEST_REWARD, LONGEST_WORD};
ghost use Rattle.refutation_terms.specs.Ranges.{AreWeightsOf};
ghost use Rattle.refutation_terms.specs.WordsLeaf.{RewardFits};
ghost use Rattle.propagators.specs.Fields.{IsField, IsLeafIn};

use crate::demand::Shape;
use crate::field::Field;
use clean_words::{Claim, claim_escape};
use refutation_terms::{Leaf, Line, WordClaim};
use rwsp_model::Problem;
use rwsp_terms::limits::{GREATEST_REWARD, GREATEST_WEIGHT, LONGEST_WORD};
use rwsp_terms::{Symbol, Weights};
use std::alloc::{AllocError, Global};

// The leaf of these weights, one for each coordinate, where it holds.
pub fn leaf_of(
    alloc: Global,
    field: &Field<'_>,
    turns: u32,
    weights: &[i64],
) -> Result<Option<Line>, AllocError>
    requires field { IsField field.now }
    requires some { 1 ≤ turns }
    requires few { turns * cells field.now.automaton.now.problem ≤ LONGEST_WORD }
    ensures { IfOk result (λ found. IfSome found (IsLeafIn field.now)) }
{
    let problem = field.automaton.problem();
    problem.prove_limits();
    let (position, reward) = begin_and_reward(field, weights);
    let weights = weights_of(alloc, problem, weights)?;
    let claim = Claim {
        goal: field.goal,
        position,
        turns,
        reward,
        weights: &weights,
    };
    if let Some(_) = claim_escape(alloc, field.automaton, field.doms, claim)? {
        return Ok(None);
    }
    let rules = field.automaton.rules().copy()?;
    let claim = WordClaim::Light {
        turns,
        reward,
        weights,
    };
    Ok(Some(Line::Closing(Leaf::Words {
        p: position,
        rules,
        claim,
    })))
}

// The position of the words' first day, and what each free weekend weighs: with a goal the words begin on the first
// day, and the weight behind those of days and symbols is the reward; without one nothing is rewarded.
fn begin_and_reward(field: &Field<'_>, weights: &[i64]) -> (u32, u32)
    requires { IsField field.now }
    ensures position { result.0 < cells field.now.automaton.now.problem }
    ensures reward { RewardFits field.now.goal result.0 result.1 }
{
    match field.goal {
        None => (field.place.position, 0),
        Some(_) => (0, reward_of(field.automaton.problem(), weights)),
    }
}

// The reward among the weights of all coordinates.
fn reward_of(problem: &Problem, weights: &[i64]) -> u32
    ensures { result ≤ GREATEST_REWARD }
{
    let place = Shape::of(problem).size();
    let reward = weights.get(place).copied().unwrap_or(0);
    let greatest = i64::from(GREATEST_REWARD);
    reward.max(0).min(greatest) as u32
}

// The weights by day and symbol.
fn weights_of(alloc: Global, problem: &Problem, numbers: &[i64]) -> Result<Weights, AllocError>
    ensures { IfOk result (λ y. AreWeightsOf problem.now y) }
{
    let shape = Shape::of(problem);
    let mut weights = Weights::new(alloc);
    for i in 0..problem.days() {
        put_day(&mut weights, problem, numbers, shape.day_start(i), i + 1)?;
    }
    Ok(weights)
}

// The weights of one day, whose first coordinate this is.
fn put_day(
    weights: &mut Weights,
    problem: &Problem,
    numbers: &[i64],
    start: usize,
    day: u32,
) -> Result<(), AllocError>
    requires weights { AreWeightsOf problem.now weights.old }
    requires day { IsDay problem.now day }
    ensures { OnOk result (AreWeightsOf problem.now weights.new) }
{
    for number in 0..problem.shifts() + 1 {
        let coordinate = start.wrapping_add(usize::from(number));
        let value = numbers.get(coordinate).copied().unwrap_or(0);
        weights.put(day, Symbol { number }, as_weight(value))?;
    }
    Ok(())
}

// The number in the range of weights.
fn as_weight(value: i64) -> i32
    ensures low { neg_ℤ (pos GREATEST_WEIGHT) ≤ℤ result }
    ensures high { result ≤ℤ pos GREATEST_WEIGHT }
{
    let greatest = i64::from(GREATEST_WEIGHT);
    value.max(-greatest).min(greatest) as i32
}
