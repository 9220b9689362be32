// The weights of a line, gathered one by one.
ghost use Rattle.std.specs.Prelude.{◌≡◌, ◌↔◌, ℤ, IfOk, OnOk, AllPairs, IsTrue, MatchBool, Some};
ghost use Rattle.rwsp_terms.specs.Instance.{symbol_of};
ghost use Rattle.rwsp_terms.specs.Places.{Precedes};
ghost use Rattle.rwsp_terms.specs.Weights.{AreWeights, ComesBefore};
ghost use Rattle.rwsp_text.specs.Fields.{IsValue};
ghost use Rattle.rwsp_terms.specs.declared.limits.TheConstants.{GREATEST_WEIGHT};
ghost use Rattle.refutation_log.specs.Gathering.{IsAdded, with_last};

use rwsp_model::Problem;
use rwsp_terms::{Symbol, Weight, Weights};
use std::alloc::AllocError;

/// The weights so far: all of known symbols and ascending, all of known symbols, or not all.
#[derive(Drop)]
pub enum Gathered {
    Rising(Weights),
    Falling,
    Unknown,
}

/// The weights with one more of the symbol of this name.
pub fn add(
    state: Gathered,
    problem: &Problem,
    day: u32,
    name: &[u8],
    value: i32,
) -> Result<Gathered, AllocError>
    requires { IsValue GREATEST_WEIGHT value }
    ensures { IfOk result (IsAdded state (symbol_of problem.now name.now) day value) }
{
    let Some(x) = problem.symbol(name) else {
        return Ok(Gathered::Unknown);
    };
    match state {
        Gathered::Unknown => Ok(Gathered::Unknown),
        Gathered::Falling => Ok(Gathered::Falling),
        Gathered::Rising(weights) => add_behind(weights, day, x, value),
    }
}

fn add_behind(mut weights: Weights, day: u32, x: Symbol, value: i32) -> Result<Gathered, AllocError>
    requires { IsValue GREATEST_WEIGHT value }
    ensures { IfOk result (IsAdded (Gathered.Rising weights) (Some x) day value) }
{
    if goes_behind(weights.entries(), day, x) {
        append(&mut weights, day, x, value)?;
        Ok(Gathered::Rising(weights))
    } else {
        Ok(Gathered::Falling)
    }
}

// Puts a weight behind all others.
#[tactic(auto, using(crate::proofs::Behind::weight_behind))]
fn append(weights: &mut Weights, day: u32, x: Symbol, value: i32) -> Result<(), AllocError>
    requires weights { AreWeights weights.old }
    requires last { AllPairs ComesBefore (with_last weights.old day x value) }
    requires value { IsValue GREATEST_WEIGHT value }
    ensures { OnOk result (weights.new ≡ with_last weights.old day x value) }
{
    weights.put(day, x, value)
}

fn precedes(entry: &Weight, day: u32, x: Symbol) -> bool
    ensures { IsTrue result ↔ Precedes entry.now day x.number }
{
    entry.day < day || entry.day == day && entry.symbol.number < x.number
}

// Whether weights ascend with one of the symbol on the day behind them.
fn goes_behind(entries: &[Weight], day: u32, x: Symbol) -> bool
    requires { AllPairs ComesBefore entries.now }
    ensures { (v : ℤ) → MatchBool result
        (AllPairs ComesBefore (with_last entries.now day x v))
        (AllPairs ComesBefore (with_last entries.now day x v) → ⊥) }
{
    match entries.last() {
        None => true,
        Some(entry) => precedes(entry, day, x),
    }
}
