// Whether a word is clean, by the monitors of its rules alone.
ghost use Rattle.std.specs.Prelude.{◌≡◌, ◌↔◌, ℕ, ◌+◌, ◌^◌, ◌<◌, ◌≤◌, length, All, IsTrue, Some};
ghost use Rattle.rwsp_terms.specs.declared.limits.TheConstants.{MOST_SYMBOLS};
ghost use Rattle.refutation_terms.specs.Word.{Clean};
ghost use Rattle.clean_words.specs.Monitors.{IsSound, state_behind, Spares};

use crate::monitor::{Monitor, monitor_of};
use rwsp_model::Problem;
use rwsp_terms::{RuleList, Symbol};

/// Whether the word from a position on is clean for the list. Costs a step for each rule and each of its days.
pub fn is_clean(problem: &Problem, list: &RuleList, p: u32, word: &[Symbol]) -> bool
    requires symbols { All (λ x. x.number < MOST_SYMBOLS) word.now }
    requires few { p + length word.now < 2 ^ 32 }
    ensures { IsTrue result ↔ Clean problem.now list.now p word.now }
{
    for place in 0..list.len() {
        if !is_spared(problem, list.at(place), p, word) {
            return false;
        }
    }
    true
}

// Whether no part of the word is bad for the rule of the number.
fn is_spared(problem: &Problem, number: u32, p: u32, word: &[Symbol]) -> bool
    requires symbols { All (λ x. x.number < MOST_SYMBOLS) word.now }
    requires few { p + length word.now < 2 ^ 32 }
    ensures { IsTrue result ↔ Spares problem.now number p word.now }
{
    match monitor_of(problem, number) {
        Some(monitor) => goes_along(monitor, p, word),
        None => true,
    }
}

// Whether the monitor goes on along the word.
fn goes_along(monitor: Monitor, p: u32, word: &[Symbol]) -> bool
    requires sound { IsSound monitor }
    requires symbols { All (λ x. x.number < MOST_SYMBOLS) word.now }
    requires few { p + length word.now < 2 ^ 32 }
    ensures { IsTrue result ↔ ((s : ℕ) × (state_behind monitor p word.now ≡ Some s)) }
{
    let mut state = monitor.first();
    for day in 0..word.len() {
        match monitor.next(p + day as u32, state, word[day]) {
            Some(to) => state = to,
            None => return false,
        }
    }
    true
}
