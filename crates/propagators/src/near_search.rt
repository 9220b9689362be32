// The search for weights by the nearest point of the counts of words to the demand.
ghost use Rattle.std.specs.Prelude.{◌≤◌, IfOk, IfSome};

use crate::demand::times;
use crate::field::Field;
use crate::sweep::Sweep;
use clean_words::{Hull, SCALE};
use rwsp_terms::limits::GREATEST_WEIGHT;
use std::alloc::{AllocError, Global};

// How many turns words have at first and at most, how many words are tried, and how many steps are taken toward the
// demand after each.
#[derive(Clone, Copy, Drop)]
pub struct Effort {
    pub first_turns: u32,
    pub most_turns: u32,
    pub rounds: u32,
    pub steps: u32,
}

// After this many rounds, more turns are tried with the present weights.
const ROUNDS_PER_TRY: u32 = 16;

// In one search no more steps of the automaton are looked at than this, so that no problem waits for it long.
const MOST_LOOKS: u64 = 100_000_000;

// Looks for weights whose bound holds for `first_turns` turns or more, beginning with these weights. Answers how many
// turns it is, and leaves the weights there; no proof says that the bound holds. Each round finds the heaviest word by
// the weights, and the next weights lead from the nearest mix of the words so far to the demand (C. Holloway, 1974).
pub fn search(
    alloc: Global,
    field: &Field<'_>,
    sweep: &mut Sweep,
    weights: &mut Vec<i64>,
    effort: Effort,
) -> Result<Option<u32>, AllocError>
    requires { (1 ≤ effort.first_turns) × (effort.first_turns ≤ effort.most_turns) }
    ensures { IfOk result (λ found. IfSome found (λ t. (1 ≤ t) × (t ≤ effort.most_turns))) }
{
    let turns = effort.first_turns;
    let low = times(alloc, &field.demand.low, turns)?;
    let high = times(alloc, &field.demand.high, turns)?;
    let mut hull = Hull::new(alloc, low, high)?;
    let days = field.days(turns);
    for round in 0..rounds_within(sweep, days, effort) {
        let Some(word) = field.heaviest(sweep, weights, turns) else {
            return Ok(None);
        };
        if field.is_light(word, weights, turns) {
            return Ok(Some(turns));
        }
        let size = field.demand.low.len();
        let counts = sweep.counts(alloc, field.place, days, size)?;
        if !turn(alloc, &mut hull, counts, effort.steps, weights)? {
            return Ok(None);
        }
        if round % ROUNDS_PER_TRY == ROUNDS_PER_TRY - 1 {
            let more = more_turns(field, sweep, weights, effort);
            if more.is_some() {
                return Ok(more);
            }
        }
    }
    Ok(None)
}

// Puts the counts of one more word into the hull, and makes the weights those of the direction from its nearest point
// to the demand. False where nothing is left to gain: the word is there already, or the hull nearly reaches the demand.
fn turn(
    alloc: Global,
    hull: &mut Hull,
    counts: Vec<i64>,
    steps: u32,
    weights: &mut Vec<i64>,
) -> Result<bool, AllocError> {
    if hull.contains(&counts) {
        return Ok(false);
    }
    hull.push(counts)?;
    hull.descend(steps);
    let Some(next) = direction(alloc, hull.off())? else {
        return Ok(false);
    };
    *weights = next;
    Ok(true)
}

// As many rounds as look at no more than `MOST_LOOKS` steps.
fn rounds_within(sweep: &Sweep, days: u32, effort: Effort) -> u32 {
    let looks = sweep.looks(days).max(1);
    u64::from(effort.rounds).min(MOST_LOOKS / looks) as u32
}

// Four times as many turns, and so on up to the most, whose bound holds with these weights.
fn more_turns(field: &Field<'_>, sweep: &mut Sweep, weights: &[i64], effort: Effort) -> Option<u32>
    requires { (1 ≤ effort.first_turns) × (effort.first_turns ≤ effort.most_turns) }
    ensures { IfSome result (λ t. (1 ≤ t) × (t ≤ effort.most_turns)) }
{
    let mut more = effort.first_turns;
    for _ in 0..8 {
        if more >= effort.most_turns {
            return None;
        }
        more = more.saturating_mul(4).min(effort.most_turns);
        if field.closes(sweep, weights, more) {
            return Some(more);
        }
    }
    None
}

// Weights in the direction that leads to the demand, the greatest of them `GREATEST_WEIGHT`.
// None where the mix is nearly there.
fn direction(alloc: Global, off: &[i64]) -> Result<Option<Vec<i64>>, AllocError> {
    let most = greatest(off);
    if most < i64::from(SCALE / 256) {
        return Ok(None);
    }
    let mut weights = Vec::new(alloc);
    for x in off {
        let weight = x
            .saturating_mul(i64::from(GREATEST_WEIGHT))
            .checked_div(most)
            .unwrap_or(0);
        weights.push(weight)?;
    }
    Ok(Some(weights))
}

// The greatest of the numbers without their signs.
pub fn greatest(numbers: &[i64]) -> i64 {
    let mut most = 0i64;
    for x in numbers {
        most = most.max(x.saturating_abs());
    }
    most
}
