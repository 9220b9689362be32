// Rows that are kept, one for every `STRIDE` days, to go forward along.
ghost use Rattle.std.specs.Prelude.{◌≡◌, ℕ, ◌+◌, ◌-◌, ◌<◌, ◌≤◌, IfOk, OnOk};
ghost use Rattle.rwsp_terms.specs.declared.limits.TheConstants.{LONGEST_WORD};
ghost use Rattle.clean_words.specs.Trellis.{Trellis, trellis, IsRow};
ghost use Rattle.clean_words.specs.Kept.{AreKept};

use crate::row::Row;
use crate::rows::row_before;
use crate::{CleanWords, Gain};
use std::alloc::{AllocError, Global};
use std::mem;

// The days from a row that is kept to the next.
pub const STRIDE: u32 = 128;

/// The rows of the end and of every 128th day before it, but for the first day, whose row is apart (rows of dynamic
/// programming kept as checkpoints: J. Grice, R. Hughey and D. Speck, 1997).
#[derive(Drop)]
pub struct KeptRows {
    pub kept: Vec<Row>,
    pub first: Row,
}

/// The rows of the words, by one pass from the last day back (dynamic programming: R. Bellman, 1957). Its time grows
/// with the states times the symbols of all days, its memory with the states of each 128th day.
pub fn kept_rows<G: Gain>(
    alloc: Global,
    words: &CleanWords<'_>,
    gain: &G,
) -> Result<KeptRows, AllocError>
    ensures kept { IfOk result
        (λ rows. AreKept (trellis words.now (G.gain_of gain.now)) words.now.days rows.kept.items) }
    ensures first { IfOk result (λ rows. IsRow (trellis words.now (G.gain_of gain.now)) 0 rows.first) }
{
    words.prove_facts();
    let mut kept = Vec::new(alloc);
    let mut first = Row::end(alloc, words.automaton.states())?;
    for left in 0..words.days {
        let row = row_before(alloc, words, gain, words.days - 1 - left, &first)?;
        let next = mem::replace(&mut first, row);
        keep(&mut kept, next, left)?;
    }
    Ok(KeptRows { kept, first })
}

// Keeps the row with `left` days behind it, if `STRIDE` divides these.
fn keep(kept: &mut Vec<Row>, row: Row, left: u32) -> Result<(), AllocError>
    requires { left < LONGEST_WORD }
    ensures { OnOk result ((T : Trellis) → IsRow T (T.days - left) row → AreKept T left kept.old.items
        → AreKept T (left + 1) kept.new.items) }
{
    if left % STRIDE == 0 {
        kept.push(row)?;
    }
    Ok(())
}
