// Going forward along rows, from the first day to the end.
ghost use Rattle.std.specs.Prelude.{◌≡◌, ℕ, ◌+◌, ◌-◌, ◌*◌, ◌<◌, ◌≤◌, List, length, IfOk, OnOk, ℤ};
ghost use Rattle.rwsp_terms.specs.declared.data.Symbol.{Symbol};
ghost use Rattle.clean_words.specs.Trellis.{trellis, start_of, IsRow, AreRows, Leads, IsBest};
ghost use Rattle.clean_words.specs.Kept.{AreKept, IsOnBest};

use crate::choice::choose;
use crate::day_gains::DayGains;
use crate::kept_rows::STRIDE;
use crate::row::Row;
use crate::rows::rows_before;
use crate::{CleanWords, Gain};
use rwsp_terms::{Symbol, Word};
use std::alloc::{AllocError, Global};

// The first days of the best word, and the state where they lead.
#[derive(Drop)]
pub struct Walk {
    pub symbols: Vec<Symbol>,
    pub state: usize,
}

/// The best word, by the rows that were kept. The rows between two of them are made again.
pub fn best_word<G: Gain>(
    alloc: Global,
    words: &CleanWords<'_>,
    gain: &G,
    mut kept: Vec<Row>,
) -> Result<Word, AllocError>
    requires kept { AreKept (trellis words.now (G.gain_of gain.now)) words.now.days kept.items }
    requires some { let T = trellis words.now (G.gain_of gain.now) in
        (u : List Symbol) × (w : ℤ) × Leads T 0 (start_of T) u w }
    ensures { let T = trellis words.now (G.gain_of gain.now) in
        IfOk result (λ word. (w : ℤ) × IsBest T 0 (start_of T) word w) }
{
    words.prove_facts();
    let mut walk = Walk {
        symbols: Vec::new(alloc),
        state: words.start(),
    };
    let mut left = words.days;
    while let Some(row) = kept.pop() {
        let behind = kept.len() as u32 * STRIDE;
        let rows = rows_before(alloc, words, gain, words.days - behind, row, left - behind)?;
        go_along(alloc, words, gain, rows, &mut walk)?;
        left = behind;
    }
    Ok(Word::of(walk.symbols))
}

// Goes on by a day for each of the rows, which are those of the next days, the last day first.
fn go_along<G: Gain>(
    alloc: Global,
    words: &CleanWords<'_>,
    gain: &G,
    mut rows: Vec<Row>,
    walk: &mut Walk,
) -> Result<(), AllocError>
    requires rows { AreRows (trellis words.now (G.gain_of gain.now))
        (length walk.old.symbols.items + length rows.items) rows.items }
    requires inside { length walk.old.symbols.items + length rows.items ≤ words.now.days }
    requires walk { IsOnBest (trellis words.now (G.gain_of gain.now)) walk.old.symbols.items walk.old.state }
    ensures walk { OnOk result
        (IsOnBest (trellis words.now (G.gain_of gain.now)) walk.new.symbols.items walk.new.state) }
    ensures day { OnOk result
        (length walk.new.symbols.items ≡ length walk.old.symbols.items + length rows.items) }
{
    while let Some(next) = rows.pop() {
        go_on(alloc, words, gain, &next, walk)?;
    }
    Ok(())
}

// Goes on by one day, with the row of the next.
fn go_on<G: Gain>(
    alloc: Global,
    words: &CleanWords<'_>,
    gain: &G,
    next: &Row,
    walk: &mut Walk,
) -> Result<(), AllocError>
    requires next { IsRow (trellis words.now (G.gain_of gain.now)) (length walk.old.symbols.items + 1) next.now }
    requires day { length walk.old.symbols.items < words.now.days }
    requires walk { IsOnBest (trellis words.now (G.gain_of gain.now)) walk.old.symbols.items walk.old.state }
    ensures walk { OnOk result
        (IsOnBest (trellis words.now (G.gain_of gain.now)) walk.new.symbols.items walk.new.state) }
    ensures day { OnOk result (length walk.new.symbols.items ≡ length walk.old.symbols.items + 1) }
{
    words.prove_facts();
    let gains = DayGains::on(alloc, words, gain, walk.symbols.len() as u32)?;
    let behind = gains.behind(words.automaton.is_off(walk.state));
    let Some(choice) = choose(words.automaton, walk.state, behind, next) else {
        unreachable!()
    };
    walk.symbols.push(choice.symbol)?;
    walk.state = choice.to;
    Ok(())
}
