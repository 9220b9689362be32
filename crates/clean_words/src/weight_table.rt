// Weights laid out by day and symbol, so that a look-up reads one entry and doesn't go along all weights.
ghost use Rattle.std.specs.Prelude.{◌≡◌, ◌+◌, ◌*◌, ◌<◌, ◌≤◌, IfOk};
ghost use Rattle.rwsp_terms.specs.declared.limits.TheConstants.{MOST_DAYS, MOST_SYMBOLS};
ghost use Rattle.rwsp_terms.specs.Weights.{weight_at};
ghost use Rattle.clean_words.specs.WeightTables.{HoldsWeights};

use rwsp_terms::limits::MOST_SYMBOLS;
use rwsp_terms::{Symbol, Weights};
use std::alloc::{AllocError, Global};

// The table of the first `days` days. It is made once for a leaf, in time that grows with its entries times the
// weights.
pub fn weight_table(alloc: Global, weights: &Weights, days: u32) -> Result<Vec<i32>, AllocError>
    requires { days ≤ MOST_DAYS }
    ensures { IfOk result (λ table. HoldsWeights weights.now table.items (days * MOST_SYMBOLS)) }
{
    let mut table = Vec::new(alloc);
    for k in 0..days * MOST_SYMBOLS {
        let symbol = Symbol {
            number: (k % MOST_SYMBOLS) as u8,
        };
        table.push(weights.at(k / MOST_SYMBOLS + 1, symbol))?;
    }
    Ok(table)
}

// What a symbol weighs on the day that comes `behind` days after day 1.
pub fn weight_in(weights: &Weights, table: &[i32], days: u32, behind: u32, symbol: Symbol) -> i32
    requires table { HoldsWeights weights.now table.now (days * MOST_SYMBOLS) }
    requires day { behind < days }
    ensures { result ≡ weight_at weights.now (behind + 1) symbol.number }
{
    weights.entries();
    if u32::from(symbol.number) < MOST_SYMBOLS {
        table[behind as usize * MOST_SYMBOLS as usize + symbol.number as usize]
    } else {
        weights.at(behind + 1, symbol)
    }
}
