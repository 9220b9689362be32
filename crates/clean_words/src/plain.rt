// The plain bounds: +1 or -1 on all shifts, or on one shift.
ghost use Rattle.std.specs.Prelude.{◌≡◌, ◌≢◌, ℕ, ◌+◌, ◌<◌, ◌≤◌, List, [], ◌∷◌, ◌++◌, map, All, IfOk, OnOk, ℤ, pos, negsuc, ◌≤ℤ◌, neg_ℤ};
ghost use Rattle.rwsp_terms.specs.declared.limits.TheConstants.{GREATEST_WEIGHT};
ghost use Rattle.std.specs.List.{range_with_len, flat_map};
ghost use Rattle.rwsp_terms.specs.Instance.{Instance, shift_count, symbol_numbered};
ghost use Rattle.rwsp_terms.specs.Weights.{IsWeight, ComesBefore};
ghost use Rattle.refutation_terms.specs.Sharp.{plain_bounds, weights_on, both_signs};
ghost use Rattle.clean_words.specs.Days.{weight_of, weights_of_day};

use rwsp_model::Problem;
use rwsp_terms::{Symbol, Weights};
use std::alloc::{AllocError, Global};

/// The plain bounds in order: +1, then -1, for all shifts on every day; then for each shift +1, then -1, on every day.
pub fn plain_bounds(alloc: Global, problem: &Problem) -> Result<Vec<Weights>, AllocError>
    ensures { IfOk result (λ bounds. bounds.items ≡ plain_bounds problem.now) }
{
    let mut bounds = Vec::new(alloc);
    push_both(alloc, &mut bounds, problem, 1, problem.shifts())?;
    for i in 0..problem.shifts() {
        push_both(alloc, &mut bounds, problem, i + 1, 1)?;
    }
    Ok(bounds)
}

// Both signs for some shifts.
fn push_both(
    alloc: Global,
    bounds: &mut Vec<Weights>,
    problem: &Problem,
    first: u8,
    count: u8,
) -> Result<(), AllocError>
    requires { first + count ≤ 255 }
    ensures { OnOk result (bounds.new.items ≡ bounds.old.items ++ both_signs problem.now (range_with_len first count)) }
{
    let above = weights_on(alloc, problem, first, count, 1)?;
    let below = weights_on(alloc, problem, first, count, -1)?;
    bounds.push(above)?;
    bounds.push(below)?;
    Ok(())
}

// The value for each of some shifts on every day.
fn weights_on(
    alloc: Global,
    problem: &Problem,
    first: u8,
    count: u8,
    value: i32,
) -> Result<Weights, AllocError>
    requires few { first + count ≤ 255 }
    requires low { neg_ℤ (pos GREATEST_WEIGHT) ≤ℤ value }
    requires high { value ≤ℤ pos GREATEST_WEIGHT }
    requires some { value ≢ pos 0 }
    ensures { IfOk result (λ y. y ≡ weights_on problem.now (range_with_len first count) value) }
{
    let mut weights = Weights::new(alloc);
    for i in 0..problem.days() {
        push_day(&mut weights, i + 1, first, count, value)?;
    }
    Ok(weights)
}

// The value for each of some shifts on a day that is later than all before.
fn push_day(
    weights: &mut Weights,
    day: u32,
    first: u8,
    count: u8,
    value: i32,
) -> Result<(), AllocError>
    requires later { All (λ e. e.day < day) weights.old }
    requires few { first + count ≤ 255 }
    requires low { neg_ℤ (pos GREATEST_WEIGHT) ≤ℤ value }
    requires high { value ≤ℤ pos GREATEST_WEIGHT }
    requires some { value ≢ pos 0 }
    ensures { OnOk result (weights.new ≡ weights.old ++ weights_of_day day (range_with_len first count) value) }
{
    for i in 0..count {
        push_weight(weights, day, Symbol { number: first + i }, value)?;
    }
    Ok(())
}

// Appends a weight, whose day and symbol come behind those of all others.
fn push_weight(weights: &mut Weights, day: u32, x: Symbol, value: i32) -> Result<(), AllocError>
    requires last { All (λ e. ComesBefore e (weight_of day x.number value)) weights.old }
    requires low { neg_ℤ (pos GREATEST_WEIGHT) ≤ℤ value }
    requires high { value ≤ℤ pos GREATEST_WEIGHT }
    requires some { value ≢ pos 0 }
    ensures { OnOk result (weights.new ≡ weights.old ++ weight_of day x.number value ∷ []) }
{
    weights.entries();
    weights.put(day, x, value)?;
    Ok(())
}
