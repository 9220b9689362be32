// Tables of an exact size: a place outside of one is ruled out by a clause.
ghost use Rattle.std.specs.Prelude.{◌≡◌, ◌+◌, ◌*◌, ◌<◌, length, IfOk};

use std::alloc::{AllocError, Global};

/// A table of values by row and column.
#[derive(Drop)]
pub struct Table<T: Copy + Drop> {
    /// How many rows it has; they count from 0.
    pub rows: usize,
    /// How many columns it has; they count from 0.
    pub columns: usize,
    entries: Vec<T>,
    ghost whole: { length entries.items ≡ columns * rows },
}

impl<T: Copy + Drop> Table<T> {
    /// A table that has one value everywhere.
    pub fn new(alloc: Global, rows: usize, columns: usize, value: T) -> Result<Table<T>, AllocError>
        ensures rows { IfOk result (λ t. t.rows ≡ rows) }
        ensures columns { IfOk result (λ t. t.columns ≡ columns) }
    {
        // No memory holds more places than a number of it can count.
        let Some(places) = columns.checked_mul(rows) else {
            return Err(AllocError);
        };
        Ok(Table {
            rows,
            columns,
            entries: vec![in alloc; value; places]?,
        })
    }

    /// The place of a value in the list of all.
    #[tactic(auto, using(crate::proofs::Places::place_within))]
    pub fn place(&self, row: usize, column: usize) -> usize
        requires row { row < self.now.rows }
        requires column { column < self.now.columns }
        ensures place { result < self.now.columns * self.now.rows }
        ensures entry { result < length self.now.entries.items }
    {
        row * self.columns + column
    }

    /// The value in a row and a column.
    pub fn at(&self, row: usize, column: usize) -> T
        requires row { row < self.now.rows }
        requires column { column < self.now.columns }
    {
        self.entries[self.place(row, column)]
    }

    /// Puts a value into a row and a column.
    pub fn set(&mut self, row: usize, column: usize, value: T)
        requires row { row < self.old.rows }
        requires column { column < self.old.columns }
        ensures rows { self.new.rows ≡ self.old.rows }
        ensures columns { self.new.columns ≡ self.old.columns }
    {
        let place = self.place(row, column);
        self.entries[place] = value;
    }

    /// The values of a row.
    pub fn row(&self, row: usize) -> &[T]
        requires { row < self.now.rows }
        ensures { length result.now ≡ self.now.columns }
    {
        let first = row * self.columns;
        &self.entries[first..first + self.columns]
    }

    /// All values, row by row.
    pub fn entries(&self) -> &[T]
        ensures { length result.now ≡ self.now.columns * self.now.rows }
    {
        &self.entries
    }

    /// Writes one value into each place of a row.
    pub fn fill_row(&mut self, row: usize, value: T)
        requires { row < self.old.rows }
        ensures rows { self.new.rows ≡ self.old.rows }
        ensures columns { self.new.columns ≡ self.old.columns }
    {
        for column in 0..self.columns {
            self.set(row, column, value);
        }
    }

    /// Writes one value everywhere.
    pub fn fill(&mut self, value: T)
        ensures rows { self.new.rows ≡ self.old.rows }
        ensures columns { self.new.columns ≡ self.old.columns }
    {
        fill(&mut self.entries, value);
    }
}

/// Writes one value everywhere.
pub(crate) fn fill<T: Copy + Drop>(list: &mut [T], value: T) {
    for entry in list {
        *entry = value;
    }
}
