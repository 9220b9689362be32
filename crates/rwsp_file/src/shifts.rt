// The shifts of a text, whose names are looked up.
ghost use Rattle.std.specs.Prelude.{◌≡◌, List, [], ◌∷◌, ◌++◌, IfOk, OnOk, IfSome, map, position, false, ◌<◌, length};
ghost use Rattle.std.specs.List.{list_any};
ghost use Rattle.std.specs.Str.{bytes_eq};
ghost use Rattle.rwsp_terms.specs.declared.data.ShiftRow.{ShiftRow};

use indexmap::IndexSet;
use rwsp_terms::ShiftRow;
use std::alloc::{AllocError, Global};
use std::marker::Model;

/// Shifts in the order of the file, with distinct names.
#[derive(Drop)]
pub struct Shifts {
    rows: Vec<ShiftRow>,
    names: IndexSet<Vec<u8>>,
}

impl Model for Shifts {
    ghost use Rattle.std.specs.Prelude.{◌≡◌, List, map};
    ghost use Rattle.rwsp_terms.specs.declared.data.ShiftRow.{ShiftRow};

    ghost Value = { List ShiftRow };

    ghost view = { λ s. s.rows.items };

    ghost invariant = { λ s. map (λ name. name.items) s.names.keys ≡ map (λ row. row.name) s.rows.items };
}

impl Shifts {
    /// No shifts.
    pub fn new(alloc: Global) -> Shifts
        ensures { result ≡ [] }
    {
        Shifts {
            rows: Vec::new(alloc),
            names: IndexSet::new(alloc),
        }
    }

    /// The place of the shift of that name, counted from 0.
    pub fn place(&self, name: &[u8]) -> Option<usize>
        ensures place { result ≡ position (λ row. bytes_eq name.now row.name) self.now }
        ensures within { IfSome result (λ k. k < length self.now) }
    {
        self.names.get_index_of(name)
    }

    /// The shifts with another one behind them.
    pub fn with(self, alloc: Global, row: ShiftRow) -> Result<Shifts, AllocError>
        requires { list_any (λ other. bytes_eq row.name other.name) self ≡ false }
        ensures { IfOk result (λ shifts. shifts ≡ self ++ row ∷ []) }
    {
        let Shifts {
            mut rows,
            mut names,
        } = self;
        match put_row(alloc, &mut rows, &mut names, row) {
            Ok(()) => Ok(Shifts { rows, names }),
            Err(fail) => {
                // By a call, so that the drop of the names is one step of the proof.
                drop(names);
                Err(fail)
            }
        }
    }

    /// The shifts in order.
    pub fn rows(self) -> Vec<ShiftRow>
        ensures { result.items ≡ self }
    {
        let Shifts { rows, names } = self;
        drop(names);
        rows
    }
}

// Puts a row and its name behind the others.
fn put_row(
    alloc: Global,
    rows: &mut Vec<ShiftRow>,
    names: &mut IndexSet<Vec<u8>>,
    row: ShiftRow,
) -> Result<(), AllocError>
    requires names { map (λ name. name.items) names.old.keys ≡ map (λ row. row.name) rows.old.items }
    requires fresh { list_any (λ other. bytes_eq row.name other.name) rows.old.items ≡ false }
    ensures rows { OnOk result (rows.new.items ≡ rows.old.items ++ row ∷ []) }
    ensures names { OnOk result (map (λ name. name.items) names.new.keys ≡ map (λ row. row.name) rows.new.items) }
{
    let name = Vec::from_slice(alloc, row.name.bytes())?;
    names.insert_full(name)?;
    rows.push(row)?;
    Ok(())
}
