// The view by the cells of a roster: one symbol is possible at each position.
ghost use Rattle.std.specs.Prelude.{◌≡◌, ◌<◌, length};
ghost use Rattle.rwsp_terms.specs.Window.{cell};
ghost use Rattle.domain_store.specs.Views.{held_by};

use crate::View;
use rwsp_model::Roster;
use rwsp_terms::{Class, Symbol};

impl View for Roster {
    ghost has_days = { λ r. 0 < length r.cells };

    ghost allows = { λ r. held_by r.cells };

    fn prove_some(&self) {}

    fn lies_in(&self, class: Class, p: u32) -> bool {
        class.has(symbol_at(self.cells(), p))
    }

    fn lies_outside(&self, class: Class, p: u32) -> bool {
        !class.has(symbol_at(self.cells(), p))
    }
}

// The symbol at a position of the endless word that repeats the cells.
fn symbol_at(cells: &[Symbol], position: u32) -> Symbol
    requires { 0 < length cells.now }
    ensures { result ≡ cell cells.now position }
{
    let position = position as usize;
    // most positions are in the first round, and a division costs more than a test
    if position < cells.len() {
        cells[position]
    } else {
        cells[position % cells.len()]
    }
}
