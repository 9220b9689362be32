// How often each symbol is wanted on each weekday.
ghost use Rattle.std.specs.Prelude.{◌≡◌, ◌+◌, ◌*◌, ◌<◌, ◌≤◌, IfOk};
ghost use Rattle.rwsp_terms.specs.Instance.{shift_count};
ghost use Rattle.rwsp_terms.specs.declared.limits.TheConstants.{MOST_CELLS, MOST_DAYS, MOST_WEEKS};

use crate::table::Table;
use rwsp_model::Problem;
use rwsp_terms::Symbol;
use std::alloc::{AllocError, Global};

/// A least and a greatest number.
#[derive(Clone, Copy)]
pub struct Range {
    /// The least number.
    pub least: i64,
    /// The greatest number.
    pub greatest: i64,
}

impl Range {
    /// Nothing but 0.
    pub const NONE: Range = Range {
        least: 0,
        greatest: 0,
    };
}

/// For each symbol and weekday, in how many weeks it is, and how many weekends are free at least. Symbols and weekdays
/// count from 0.
#[derive(Drop)]
pub struct Demand {
    /// How many days a week has.
    pub days: usize,
    /// How many weeks there are.
    pub weeks: usize,
    /// How many symbols there are, the day off among them.
    pub symbols: usize,
    /// How many weekends are free at least.
    pub free: u32,
    // By symbol and weekday.
    ranges: Table<Range>,
    ghost some_days: { 0 < days },
    ghost some_weeks: { 0 < weeks },
    ghost few_weeks: { weeks ≤ MOST_WEEKS },
    ghost few_days: { days ≤ MOST_DAYS },
    ghost few_cells: { weeks * days ≤ MOST_CELLS },
    ghost some_symbols: { 0 < symbols },
    ghost rows: { ranges.rows ≡ symbols },
    ghost columns: { ranges.columns ≡ days },
}

impl Demand {
    /// The demand of a problem for a roster with so many free weekends at least.
    pub fn of(alloc: Global, problem: &Problem, free: u32) -> Result<Demand, AllocError>
        ensures symbols { IfOk result (λ d. d.symbols ≡ shift_count problem.now + 1) }
        ensures days { IfOk result (λ d. d.days ≡ problem.now.days) }
        ensures weeks { IfOk result (λ d. d.weeks ≡ problem.now.weeks) }
    {
        problem.prove_limits();
        let days = problem.days() as usize;
        let weeks = problem.weeks() as usize;
        let symbols = usize::from(problem.shifts()) + 1;
        let mut ranges = Table::new(alloc, symbols, days, Range::NONE)?;
        put_ranges(&mut ranges, problem);
        Ok(Demand {
            days,
            weeks,
            symbols,
            free,
            ranges,
        })
    }

    /// The days of a roster.
    #[tactic(auto, using(crate::proofs::Places::some_cells))]
    pub fn cells(&self) -> usize
        ensures value { result ≡ self.now.weeks * self.now.days }
        ensures some { 0 < result }
        ensures few { result ≤ MOST_CELLS }
    {
        self.weeks * self.days
    }

    /// How many weekends should be free.
    pub fn weekends(&self) -> Range {
        Range {
            least: i64::from(self.free),
            greatest: self.cells() as i64,
        }
    }

    /// How many ranges of days there are.
    pub fn coordinates(&self) -> usize
        ensures { result ≡ self.now.days * self.now.symbols }
    {
        self.ranges.entries().len()
    }

    /// The place of a symbol on a weekday among all, symbol by symbol.
    pub fn coordinate(&self, symbol: usize, weekday: usize) -> usize
        requires symbol { symbol < self.now.symbols }
        requires weekday { weekday < self.now.days }
        ensures { result < self.now.days * self.now.symbols }
    {
        self.ranges.place(symbol, weekday)
    }

    /// In how many weeks a symbol is on a weekday.
    pub fn range(&self, symbol: usize, weekday: usize) -> Range
        requires symbol { symbol < self.now.symbols }
        requires weekday { weekday < self.now.days }
    {
        self.ranges.at(symbol, weekday)
    }
}

// Puts the ranges of all symbols into their places.
fn put_ranges(ranges: &mut Table<Range>, problem: &Problem)
    requires rows { ranges.old.rows ≡ shift_count problem.now + 1 }
    requires columns { ranges.old.columns ≡ problem.now.days }
    ensures rows { ranges.new.rows ≡ ranges.old.rows }
    ensures columns { ranges.new.columns ≡ ranges.old.columns }
{
    for number in 0..problem.shifts() + 1 {
        put_symbol(ranges, problem, number);
    }
}

// Puts the ranges of a symbol into their places.
fn put_symbol(ranges: &mut Table<Range>, problem: &Problem, number: u8)
    requires symbol { number ≤ shift_count problem.now }
    requires rows { ranges.old.rows ≡ shift_count problem.now + 1 }
    requires columns { ranges.old.columns ≡ problem.now.days }
    ensures rows { ranges.new.rows ≡ ranges.old.rows }
    ensures columns { ranges.new.columns ≡ ranges.old.columns }
{
    let symbol = Symbol { number };
    for day in 0..problem.days() {
        let range = Range {
            least: i64::from(problem.demand_least(symbol, day + 1)),
            greatest: i64::from(problem.demand_greatest(symbol, day + 1)),
        };
        ranges.set(usize::from(number), day as usize, range);
    }
}
