// Lists and tables of numbers that are themselves places: each is below one number.
ghost use Rattle.std.specs.Prelude.{◌≡◌, ◌*◌, ◌<◌, ◌≤◌, ◌^◌, length, All, IfOk};
ghost use Rattle.roster_finder.specs.Steps.{IsUnder};

use std::alloc::{AllocError, Global};

/// A list of numbers that are all below one: so each is a place in a list of that length.
#[derive(Drop)]
pub(crate) struct Numbers {
    pub below: usize,
    entries: Vec<usize>,
    ghost within: { All (IsUnder below) entries.items },
}

impl Numbers {
    /// A list of zeros.
    pub fn zeros(alloc: Global, len: usize, below: usize) -> Result<Numbers, AllocError>
        requires { 0 < below }
        ensures below { IfOk result (λ list. list.below ≡ below) }
        ensures length { IfOk result (λ list. length list.entries.items ≡ len) }
    {
        Ok(Numbers {
            below,
            entries: vec![in alloc; 0; len]?,
        })
    }

    /// The list of the numbers below one, in order.
    pub fn counting(alloc: Global, below: usize) -> Result<Numbers, AllocError>
        ensures below { IfOk result (λ list. list.below ≡ below) }
        ensures length { IfOk result (λ list. length list.entries.items ≡ below) }
    {
        let mut entries = Vec::new(alloc);
        for number in 0..below {
            entries.push(number)?;
        }
        Ok(Numbers { below, entries })
    }

    /// An empty list.
    pub fn none(alloc: Global, below: usize) -> Numbers
        ensures { result.below ≡ below }
    {
        Numbers {
            below,
            entries: Vec::new(alloc),
        }
    }

    /// Adds a number.
    pub fn push(&mut self, number: usize) -> Result<(), AllocError>
        requires { number < self.old.below }
        ensures { self.new.below ≡ self.old.below }
    {
        self.entries.push(number)?;
        Ok(())
    }

    pub fn len(&self) -> usize
        ensures { result ≡ length self.now.entries.items }
    {
        self.entries.len()
    }

    pub fn entries(&self) -> &[usize]
        ensures { result.now ≡ self.now.entries.items }
    {
        &self.entries
    }

    pub fn at(&self, place: usize) -> usize
        requires { place < length self.now.entries.items }
        ensures { result < self.now.below }
    {
        self.entries[place]
    }

    pub fn set(&mut self, place: usize, number: usize)
        requires place { place < length self.old.entries.items }
        requires number { number < self.old.below }
        ensures below { self.new.below ≡ self.old.below }
        ensures length { length self.new.entries.items ≡ length self.old.entries.items }
    {
        self.entries[place] = number;
    }
}

/// A table of such numbers by row and column.
#[derive(Drop)]
pub(crate) struct NumberTable {
    pub rows: usize,
    pub columns: usize,
    pub numbers: Numbers,
    ghost whole: { length numbers.entries.items ≡ columns * rows },
}

impl NumberTable {
    /// A table of zeros.
    pub fn zeros(
        alloc: Global,
        rows: usize,
        columns: usize,
        below: usize,
    ) -> Result<NumberTable, AllocError>
        requires { 0 < below }
        ensures rows { IfOk result (λ t. t.rows ≡ rows) }
        ensures columns { IfOk result (λ t. t.columns ≡ columns) }
        ensures below { IfOk result (λ t. t.numbers.below ≡ below) }
    {
        // No memory holds more places than a number of it can count.
        let Some(places) = columns.checked_mul(rows) else {
            return Err(AllocError);
        };
        Ok(NumberTable {
            rows,
            columns,
            numbers: Numbers::zeros(alloc, places, below)?,
        })
    }

    // The place of a number in the list of all.
    #[tactic(auto, using(crate::proofs::Places::place_within))]
    fn place(&self, row: usize, column: usize) -> usize
        requires row { row < self.now.rows }
        requires column { column < self.now.columns }
        ensures { result < length self.now.numbers.entries.items }
    {
        row * self.columns + column
    }

    pub fn at(&self, row: usize, column: usize) -> usize
        requires row { row < self.now.rows }
        requires column { column < self.now.columns }
        ensures { result < self.now.numbers.below }
    {
        self.numbers.at(self.place(row, column))
    }

    pub fn set(&mut self, row: usize, column: usize, number: usize)
        requires row { row < self.old.rows }
        requires column { column < self.old.columns }
        requires number { number < self.old.numbers.below }
        ensures rows { self.new.rows ≡ self.old.rows }
        ensures columns { self.new.columns ≡ self.old.columns }
        ensures below { self.new.numbers.below ≡ self.old.numbers.below }
    {
        let place = self.place(row, column);
        self.numbers.set(place, number);
    }
}

/// A large table of such numbers, which holds them in 32 bits.
#[derive(Drop)]
pub(crate) struct ShortNumberTable {
    pub rows: usize,
    pub columns: usize,
    pub below: usize,
    entries: Vec<u32>,
    ghost few: { below ≤ 2 ^ 32 },
    ghost within: { All (IsUnder below) entries.items },
    ghost whole: { length entries.items ≡ columns * rows },
}

impl ShortNumberTable {
    /// A table of zeros.
    pub fn zeros(
        alloc: Global,
        rows: usize,
        columns: usize,
        below: usize,
    ) -> Result<ShortNumberTable, AllocError>
        requires some { 0 < below }
        requires few { below ≤ 2 ^ 32 }
        ensures rows { IfOk result (λ t. t.rows ≡ rows) }
        ensures columns { IfOk result (λ t. t.columns ≡ columns) }
        ensures below { IfOk result (λ t. t.below ≡ below) }
    {
        // No memory holds more places than a number of it can count.
        let Some(places) = columns.checked_mul(rows) else {
            return Err(AllocError);
        };
        Ok(ShortNumberTable {
            rows,
            columns,
            below,
            entries: vec![in alloc; 0; places]?,
        })
    }

    // The place of a number in the list of all.
    #[tactic(auto, using(crate::proofs::Places::place_within))]
    fn place(&self, row: usize, column: usize) -> usize
        requires row { row < self.now.rows }
        requires column { column < self.now.columns }
        ensures { result < length self.now.entries.items }
    {
        row * self.columns + column
    }

    pub fn at(&self, row: usize, column: usize) -> usize
        requires row { row < self.now.rows }
        requires column { column < self.now.columns }
        ensures { result < self.now.below }
    {
        self.entries[self.place(row, column)] as usize
    }

    pub fn set(&mut self, row: usize, column: usize, number: usize)
        requires row { row < self.old.rows }
        requires column { column < self.old.columns }
        requires number { number < self.old.below }
        ensures rows { self.new.rows ≡ self.old.rows }
        ensures columns { self.new.columns ≡ self.old.columns }
        ensures below { self.new.below ≡ self.old.below }
    {
        let place = self.place(row, column);
        self.entries[place] = number as u32;
    }
}
