ghost use Rattle.std.specs.Prelude.{◌≡◌, ◌<◌, length, slice_get, Some};

use crate::Symbol;
use std::marker::Model;

/// Symbols in a row, one for each day.
#[derive(Debug, Drop)]
pub struct Word {
    symbols: Vec<Symbol>,
}

impl Model for Word {
    ghost use Rattle.std.specs.Prelude.{List};
    ghost use Rattle.rwsp_terms.specs.declared.data.Symbol.{Symbol};

    ghost Value = { List Symbol };

    ghost view = { λ w. w.symbols.items };
}

impl Word {
    /// The word of these symbols.
    pub fn of(symbols: Vec<Symbol>) -> Word
        ensures { result ≡ symbols.items }
    {
        Word { symbols }
    }

    /// The number of days.
    pub fn len(&self) -> usize
        ensures { result ≡ length self.now }
    {
        self.symbols.len()
    }

    /// The symbols, day after day.
    pub fn symbols(&self) -> &[Symbol]
        ensures { result.now ≡ self.now }
    {
        &self.symbols
    }

    /// The symbol at a place, counted from 0.
    pub fn at(&self, i: usize) -> Symbol
        requires { i < length self.now }
        ensures { slice_get self.now i ≡ Some result }
    {
        self.symbols[i]
    }
}

// A word may be sent to other threads and shared with them.
fn shared<T: Send + Sync>(_: &T) {}

fn words_are_shared(word: &Word) {
    shared(word);
}
