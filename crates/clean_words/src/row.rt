// Rows of gains.
ghost use Rattle.std.specs.Prelude.{◌≡◌, replicate, Some, pos, IfOk};
ghost use Rattle.clean_words.specs.Rows.{Row, gain_at};

use std::alloc::{AllocError, Global};
use std::marker::Model;

/// For each state the greatest gain of the words from there to the end; None where no word leads there.
#[derive(Drop)]
pub struct Row {
    gains: Vec<Option<i32>>,
}

impl Model for Row {
    ghost use Rattle.clean_words.specs.Rows.{Row};

    ghost Value = { Row };

    ghost view = { λ r. r.gains.items };
}

impl Row {
    /// The row of these gains.
    pub fn of(gains: Vec<Option<i32>>) -> Row
        ensures { result ≡ gains.items }
    {
        Row { gains }
    }

    /// The row behind the last day, where nothing more is gained.
    pub fn end(alloc: Global, states: usize) -> Result<Row, AllocError>
        ensures { IfOk result (λ r. r ≡ replicate states (Some (pos 0))) }
    {
        let gains = vec![in alloc; Some(0); states]?;
        Ok(Row { gains })
    }

    /// The gain from a state on.
    pub fn at(&self, state: usize) -> Option<i32>
        ensures { result ≡ gain_at self.now state }
    {
        if state < self.gains.len() {
            self.gains[state]
        } else {
            None
        }
    }
}
