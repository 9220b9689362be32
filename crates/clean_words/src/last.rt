// What the states of an automaton tell of the words that lead to them.
ghost use Rattle.std.specs.Prelude.{◌≡◌, ◌+◌, ◌≤◌};
ghost use Rattle.clean_words.specs.Monitors.{label};

use rwsp_terms::Symbol;

/// What a state tells of the words that lead to it, at least.
#[derive(Clone, Copy)]
pub enum Told {
    /// Whether their last symbol is the day off.
    DayOff,
    /// Their last symbol.
    LastSymbol,
}

// What is told of words with this last symbol, as a number: 1 of the day off alone. Of the empty word 0 is told.
pub fn label(told: Told, x: Symbol) -> u32
    ensures value { result ≡ label told x }
    ensures few { result ≤ x.number + 1 }
{
    match told {
        Told::DayOff => if x.number == 0 { 1 } else { 0 },
        Told::LastSymbol => u32::from(x.number) + 1,
    }
}
