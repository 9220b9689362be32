// Rows of a pass over the days, from the last day back.
ghost use Rattle.std.specs.Prelude.{◌≡◌, ◌+◌, ◌-◌, ◌*◌, ◌<◌, ◌≤◌, length, IfOk};
ghost use Rattle.clean_words.specs.Trellis.{trellis, IsRow, AreRows};
ghost use Rattle.clean_words.specs.Choices.{weight_of};

use crate::choice::{Choice, choose};
use crate::day_gains::DayGains;
use crate::row::Row;
use crate::{CleanWords, Gain};
use std::alloc::{AllocError, Global};

/// The row of a day, of the row of the next. Its time grows with the states times the symbols.
pub fn row_before<G: Gain>(
    alloc: Global,
    words: &CleanWords<'_>,
    gain: &G,
    day: u32,
    next: &Row,
) -> Result<Row, AllocError>
    requires day { day < words.now.days }
    requires next { IsRow (trellis words.now (G.gain_of gain.now)) (day + 1) next.now }
    ensures { IfOk result (λ row. IsRow (trellis words.now (G.gain_of gain.now)) day row) }
{
    words.prove_facts();
    let gains = DayGains::on(alloc, words, gain, day)?;
    let mut row = Vec::with_capacity(alloc, words.automaton.states())?;
    for state in 0..words.automaton.states() {
        let behind = gains.behind(words.automaton.is_off(state));
        let choice = choose(words.automaton, state, behind, next);
        row.push(weight_of(choice))?;
    }
    Ok(Row::of(row))
}

fn weight_of(choice: Option<Choice>) -> Option<i32>
    ensures { result ≡ weight_of choice }
{
    match choice {
        Some(c) => Some(c.weight),
        None => None,
    }
}

/// The rows of `count` days in a row, the last day first, of the row of that day.
pub fn rows_before<G: Gain>(
    alloc: Global,
    words: &CleanWords<'_>,
    gain: &G,
    last: u32,
    row: Row,
    count: u32,
) -> Result<Vec<Row>, AllocError>
    requires some { 1 ≤ count }
    requires inside { (count ≤ last) × (last ≤ words.now.days) }
    requires row { IsRow (trellis words.now (G.gain_of gain.now)) last row }
    ensures rows { IfOk result (λ rows. AreRows (trellis words.now (G.gain_of gain.now)) last rows.items) }
    ensures long { IfOk result (λ rows. length rows.items ≡ count) }
{
    let mut rows = Vec::with_capacity(alloc, count as usize)?;
    rows.push(row)?;
    for i in 1..count {
        let before = row_before(alloc, words, gain, last - i, &rows[i as usize - 1])?;
        rows.push(before)?;
    }
    Ok(rows)
}
