// Weights and turns that a reader can follow.
ghost use Rattle.std.specs.Prelude.{◌≤◌};

use crate::field::Field;
use crate::near_search::greatest;
use crate::sweep::Sweep;
use std::alloc::{AllocError, Global};

// The greatest weights that are tried, in order.
const SCALES: [i64; 8] = [1, 2, 3, 5, 8, 12, 20, 50];

// The first scaled weights whose bound still holds, where some do.
pub fn small_weights(
    alloc: Global,
    field: &Field<'_>,
    sweep: &mut Sweep,
    weights: &[i64],
    turns: u32,
) -> Result<Option<Vec<i64>>, AllocError> {
    for scale in SCALES {
        let scaled = scaled(alloc, weights, scale)?;
        if field.closes(sweep, &scaled, turns) {
            return Ok(Some(scaled));
        }
    }
    Ok(None)
}

// The weights rounded, so that the greatest is this.
fn scaled(alloc: Global, weights: &[i64], scale: i64) -> Result<Vec<i64>, AllocError> {
    let most = greatest(weights);
    let mut scaled = Vec::new(alloc);
    for weight in weights {
        let doubled = weight.saturating_mul(scale).saturating_mul(2);
        let half = most.saturating_mul(weight.signum());
        let rounded = doubled
            .saturating_add(half)
            .checked_div(most.saturating_mul(2));
        scaled.push(rounded.unwrap_or(0))?;
    }
    Ok(scaled)
}

// The least of 1, 2, 4, .. turns whose bound holds, or these turns.
pub fn few_turns(field: &Field<'_>, sweep: &mut Sweep, weights: &[i64], turns: u32) -> u32
    requires { 1 ≤ turns }
    ensures some { 1 ≤ result }
    ensures few { result ≤ turns }
{
    let mut fewer = 1u32;
    for _ in 0..15 {
        if fewer >= turns {
            return turns;
        }
        if field.closes(sweep, weights, fewer) {
            return fewer;
        }
        fewer = fewer.saturating_mul(2);
    }
    turns
}
