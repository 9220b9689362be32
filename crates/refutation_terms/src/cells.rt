// Cells that are given beforehand.
ghost use Rattle.std.specs.Prelude.{◌≡◌, ◌==◌, not, [], ◌∷◌, ◌++◌, filter, length, IfOk, OnErr};
ghost use Rattle.rwsp_terms.specs.Instance.{Instance};
ghost use Rattle.refutation_terms.specs.GivenCells.{AreGivenIn};

use rwsp_terms::Symbol;
use std::alloc::{AllocError, Global};
use std::marker::Model;

/// A cell of a roster that is given: the position, counted from 0, and the symbol that it holds.
#[derive(Clone, Copy, Debug, PartialEq, Eq)]
pub struct GivenCell {
    pub p: u32,
    pub x: Symbol,
}

/// Given cells, seen as a list.
#[derive(Drop)]
pub struct GivenCells {
    cells: Vec<GivenCell>,
}

impl Model for GivenCells {
    ghost use Rattle.std.specs.Prelude.{List};
    ghost use Rattle.refutation_terms.specs.declared.cells.GivenCell.{GivenCell};

    ghost Value = { List GivenCell };

    ghost view = { λ c. c.cells.items };
}

impl GivenCells {
    /// No cell.
    pub fn new(alloc: Global) -> GivenCells
        ensures { result ≡ [] }
    {
        GivenCells {
            cells: Vec::new(alloc),
        }
    }

    /// Adds a cell behind the others. After want of memory nothing was added.
    pub fn put(&mut self, cell: GivenCell) -> Result<(), AllocError>
        ensures added { IfOk result (λ _. self.new ≡ self.old ++ cell ∷ []) }
        ensures failed { OnErr result (self.new ≡ self.old) }
    {
        self.cells.push(cell)?;
        Ok(())
    }

    /// A copy of the cells.
    pub fn copy(&self) -> Result<GivenCells, AllocError>
        ensures { IfOk result (λ same. same ≡ self.now) }
    {
        let mut copies = GivenCells::new(*self.cells.allocator());
        for cell in &self.cells {
            copies.put(*cell)?;
        }
        Ok(copies)
    }

    /// A copy without the cell at the position. Where the cells are a problem's, so are those that are left.
    pub fn without(&self, p: u32) -> Result<GivenCells, AllocError>
        ensures left { IfOk result (λ left. left ≡ filter (λ c. not (c.p == p)) self.now) }
        ensures given { IfOk result (λ left. (P : Instance) → AreGivenIn P self.now → AreGivenIn P left) }
    {
        let mut left = GivenCells::new(*self.cells.allocator());
        for cell in &self.cells {
            if cell.p != p {
                left.put(*cell)?;
            }
        }
        Ok(left)
    }

    /// How many cells are given.
    pub fn len(&self) -> usize
        ensures { result ≡ length self.now }
    {
        self.cells.len()
    }

    /// The cells in order.
    pub fn cells(&self) -> &[GivenCell]
        ensures { result.now ≡ self.now }
    {
        &self.cells
    }
}
