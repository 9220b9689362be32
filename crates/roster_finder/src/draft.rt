// Words that are on their way to a roster, with their counters.
ghost use Rattle.std.specs.Prelude.{◌≡◌, ◌*◌, ◌<◌, IfOk};
ghost use Rattle.roster_finder.specs.Walks.{HaveOneShape, IsWalkOf};

use crate::counters::{Change, Counters};
use crate::setting::Setting;
use crate::walk::Walk;
use std::alloc::AllocError;

/// A window of a cyclic word: some days from a position on.
#[derive(Clone, Copy)]
pub(crate) struct Window {
    pub start: usize,
    pub len: usize,
}

/// A cyclic word, made of steps of the layer, and its counters.
#[derive(Drop)]
pub(crate) struct Draft {
    pub walk: Walk,
    pub counters: Counters,
    ghost weekdays: { counters.cells.rows ≡ walk.days },
    ghost symbols: { counters.cells.columns ≡ walk.symbols.below },
}

impl Draft {
    pub fn new(setting: Setting<'_>) -> Result<Draft, AllocError>
        requires { 0 < setting.layer.now.nodes }
        ensures walk { IfOk result (λ d. IsWalkOf setting.entry.layer.now d.walk) }
        ensures days { IfOk result (λ d. d.walk.days ≡ setting.entry.demand.now.days) }
        ensures cells { IfOk result
            (λ d. d.walk.cells ≡ setting.entry.demand.now.weeks * setting.entry.demand.now.days) }
    {
        let walk = Walk::new(setting)?;
        let counters = Counters::new(setting.alloc, setting.demand)?;
        Ok(Draft { walk, counters })
    }

    /// Counts the days of a window, and the free weekends that end in it or right behind it, each `times` times.
    pub fn count(&mut self, window: Window, times: i64)
        requires { window.start < self.old.walk.cells }
        ensures { HaveOneShape self.new.walk self.old.walk }
    {
        let mut at = window.start;
        for _ in 0..window.len {
            self.count_day(at, times);
            at = self.walk.next(at);
        }
        if self.walk.ends_weekend(at) {
            self.counters.add_to_weekends(times);
        }
    }

    // Counts a day, and the free weekend that ends on it, if one does.
    fn count_day(&mut self, position: usize, times: i64)
        requires { position < self.old.walk.cells }
        ensures { HaveOneShape self.new.walk self.old.walk }
    {
        let weekday = self.walk.weekday(position);
        let symbol = self.walk.symbol(position);
        self.counters.add_to_cell(symbol, weekday, times);
        if self.walk.ends_weekend(position) {
            self.counters.add_to_weekends(times);
        }
    }

    /// Counts all days and free weekends anew.
    pub fn count_all(&mut self)
        ensures { HaveOneShape self.new.walk self.old.walk }
    {
        self.counters.change_all(Change::Clear);
        for position in 0..self.walk.cells {
            self.count_day(position, 1);
        }
    }

    /// Changes each counter.
    pub fn change_counters(&mut self, change: Change)
        ensures { HaveOneShape self.new.walk self.old.walk }
    {
        self.counters.change_all(change);
    }
}
