// Counters that should stay within ranges: of each symbol on each weekday, and of free weekends.
ghost use Rattle.std.specs.Prelude.{◌≡◌, ◌<◌, IfOk, IfSome};

use crate::cost::{minus, plus, times};
use crate::demand::{Demand, Range};
use crate::random::Random;
use crate::table::Table;
use std::alloc::{AllocError, Global};

/// Lots are drawn below this.
const LOTS: i64 = 1 << 30;

/// A count, the range in which it should lie, and what it weighs to be off by one.
#[derive(Clone, Copy)]
pub(crate) struct Counter {
    count: i64,
    range: Range,
    weight: i64,
}

impl Counter {
    // No count yet.
    fn within(range: Range) -> Counter {
        Counter {
            count: 0,
            range,
            weight: 1,
        }
    }

    // The counter with some more counts.
    fn counting(self, number: i64) -> Counter {
        Counter {
            count: plus(self.count, number),
            ..self
        }
    }

    // How far the count is off its range.
    fn deviation(self) -> i64 {
        let under = minus(self.range.least, self.count);
        let over = minus(self.count, self.range.greatest);
        under.max(over).max(0)
    }

    // What that weighs.
    fn cost(self) -> i64 {
        times(self.deviation(), self.weight)
    }

    // What one more costs: the weight where there are enough, and this with a minus where some are lacking.
    fn price(self) -> i64 {
        if self.count < self.range.least {
            minus(0, self.weight)
        } else if self.count < self.range.greatest {
            0
        } else {
            self.weight
        }
    }

    fn changed(self, change: Change) -> Counter {
        match change {
            Change::Clear => Counter { count: 0, ..self },
            Change::WeighOne => Counter { weight: 1, ..self },
            Change::WeighMore if self.deviation() > 0 => Counter {
                weight: plus(self.weight, 1),
                ..self
            },
            Change::WeighMore => self,
        }
    }
}

/// What is changed of counters.
#[derive(Clone, Copy)]
pub(crate) enum Change {
    /// All counts become 0.
    Clear,
    /// Each counter weighs 1.
    WeighOne,
    /// Each counter that is off weighs 1 more (constraint weighting, as in P. Morris's breakout method, 1993).
    WeighMore,
}

/// A counter for each weekday and symbol, and one of free weekends.
#[derive(Drop)]
pub(crate) struct Counters {
    // By weekday and symbol.
    pub cells: Table<Counter>,
    weekends: Counter,
}

impl Counters {
    /// No counts yet, for a demand.
    pub fn new(alloc: Global, demand: &Demand) -> Result<Counters, AllocError>
        ensures weekdays { IfOk result (λ c. c.cells.rows ≡ demand.now.days) }
        ensures symbols { IfOk result (λ c. c.cells.columns ≡ demand.now.symbols) }
    {
        let none = Counter::within(Range::NONE);
        let mut cells = Table::new(alloc, demand.days, demand.symbols, none)?;
        put_ranges(&mut cells, demand);
        Ok(Counters {
            cells,
            weekends: Counter::within(demand.weekends()),
        })
    }

    pub fn add_to_cell(&mut self, symbol: usize, weekday: usize, number: i64)
        requires weekday { weekday < self.old.cells.rows }
        requires symbol { symbol < self.old.cells.columns }
        ensures weekdays { self.new.cells.rows ≡ self.old.cells.rows }
        ensures symbols { self.new.cells.columns ≡ self.old.cells.columns }
    {
        let counter = self.cells.at(weekday, symbol);
        self.cells.set(weekday, symbol, counter.counting(number));
    }

    pub fn add_to_weekends(&mut self, number: i64)
        ensures weekdays { self.new.cells.rows ≡ self.old.cells.rows }
        ensures symbols { self.new.cells.columns ≡ self.old.cells.columns }
    {
        self.weekends = self.weekends.counting(number);
    }

    /// What one more day of a symbol costs on a weekday.
    pub fn price(&self, symbol: usize, weekday: usize) -> i64
        requires weekday { weekday < self.now.cells.rows }
        requires symbol { symbol < self.now.cells.columns }
    {
        self.cells.at(weekday, symbol).price()
    }

    /// Whether there are too few days of a symbol on a weekday.
    pub fn lacks(&self, symbol: usize, weekday: usize) -> bool
        requires weekday { weekday < self.now.cells.rows }
        requires symbol { symbol < self.now.cells.columns }
    {
        let counter = self.cells.at(weekday, symbol);
        counter.count < counter.range.least
    }

    /// A weekday and a symbol, drawn from those of which there are too few or too many days. None where there are none.
    /// Costs a look at each counter.
    pub fn drawn_off(&self, random: &mut Random) -> Option<(usize, usize)>
        ensures { IfSome result (λ place. (place.0 < self.now.cells.rows) × (place.1 < self.now.cells.columns)) }
    {
        let mut drawn: Option<(usize, usize)> = None;
        let mut most: i64 = -1;
        for weekday in 0..self.cells.rows {
            for symbol in 0..self.cells.columns {
                if self.cells.at(weekday, symbol).deviation() == 0 {
                    continue;
                }
                let lot = random.cost_below(LOTS);
                if lot > most {
                    most = lot;
                    drawn = Some((weekday, symbol));
                }
            }
        }
        drawn
    }

    /// What one more free weekend costs.
    pub fn weekend_price(&self) -> i64 {
        self.weekends.price()
    }

    /// How far all counters are off.
    pub fn deviation(&self) -> i64 {
        let mut sum = self.weekends.deviation();
        for counter in self.cells.entries() {
            sum = plus(sum, counter.deviation());
        }
        sum
    }

    /// What all counters weigh that are off.
    pub fn cost(&self) -> i64 {
        let mut sum = self.weekends.cost();
        for counter in self.cells.entries() {
            sum = plus(sum, counter.cost());
        }
        sum
    }

    /// Changes each counter.
    pub fn change_all(&mut self, change: Change)
        ensures weekdays { self.new.cells.rows ≡ self.old.cells.rows }
        ensures symbols { self.new.cells.columns ≡ self.old.cells.columns }
    {
        self.weekends = self.weekends.changed(change);
        change_cells(&mut self.cells, change);
    }
}

// Changes each counter of a table.
fn change_cells(cells: &mut Table<Counter>, change: Change)
    ensures weekdays { cells.new.rows ≡ cells.old.rows }
    ensures symbols { cells.new.columns ≡ cells.old.columns }
{
    for weekday in 0..cells.rows {
        for symbol in 0..cells.columns {
            let counter = cells.at(weekday, symbol);
            cells.set(weekday, symbol, counter.changed(change));
        }
    }
}

// Puts the counters of the demand's ranges into their places.
fn put_ranges(cells: &mut Table<Counter>, demand: &Demand)
    requires weekdays { cells.old.rows ≡ demand.now.days }
    requires symbols { cells.old.columns ≡ demand.now.symbols }
    ensures weekdays { cells.new.rows ≡ cells.old.rows }
    ensures symbols { cells.new.columns ≡ cells.old.columns }
{
    for weekday in 0..demand.days {
        for symbol in 0..demand.symbols {
            cells.set(
                weekday,
                symbol,
                Counter::within(demand.range(symbol, weekday)),
            );
        }
    }
}
