// Moves that rewrite a window of a word by the clean word that costs least.
ghost use Rattle.std.specs.Prelude.{◌≡◌, ◌<◌, ◌≤◌, length, IfOk, IfSome};
ghost use Rattle.roster_finder.specs.DayDomains.{AreDomainsFor};
ghost use Rattle.roster_finder.specs.Steps.{IsStepWithin};
ghost use Rattle.roster_finder.specs.declared.window.TheConstants.{LONGEST_WINDOW};

use crate::cost::{plus, times};
use crate::draft::{Draft, Window};
use crate::numbers::{NumberTable, Numbers};
use crate::random::Random;
use crate::rewriting::Rewriting;
use crate::setting::Setting;
use crate::steady_layer::SteadyLayer;
use crate::step::Step;
use crate::table::{Table, fill};
use crate::walk::Walk;
use std::alloc::AllocError;
use std::mem;

/// The most days of a window.
pub(crate) const LONGEST_WINDOW: usize = 21;

/// More than any walk costs.
const FAR: i64 = 1 << 60;

/// What the price of a counter counts.
const UNIT: i64 = 256;

/// Each price is raised by a random number below this. So a walk through equally good words doesn't stop.
const NOISE: u32 = 256;

/// A rewriting by a wish may cost so much more than what was before.
const MOST_RISE: i64 = 1;

/// Room for moves (large neighbourhoods: P. Shaw, 1998).
#[derive(Drop)]
pub(crate) struct Mover {
    // By day of the window and symbol.
    prices: Table<i64>,
    weekend_price: i64,
    // The least cost of the walks to each node, on one day and on the next.
    costs: Vec<i64>,
    next_costs: Vec<i64>,
    // By day of the window and node: the node before it on a walk of least cost.
    parents: NumberTable,
    // The symbols of a window before it was rewritten.
    kept: Numbers,
    ghost days: { prices.rows ≡ LONGEST_WINDOW },
    ghost parent_days: { parents.rows ≡ LONGEST_WINDOW },
    ghost parent_nodes: { parents.numbers.below ≡ parents.columns },
    ghost kept_days: { length kept.entries.items ≡ LONGEST_WINDOW },
    ghost kept_symbols: { kept.below ≡ prices.columns },
    ghost costs_whole: { length costs.items ≡ parents.columns },
    ghost next_whole: { length next_costs.items ≡ parents.columns },
}

impl Mover {
    ghost use Rattle.roster_finder.specs.Moves.{IsMoverOf, IsRewritingOf, IsWindowOf};
    ghost use Rattle.roster_finder.specs.Walks.{HaveOneShape, IsWalkOf};

    pub fn new(setting: Setting<'_>) -> Result<Mover, AllocError>
        requires { 0 < setting.layer.now.nodes }
        ensures { IfOk result (IsMoverOf setting.entry.layer.now) }
    {
        let Setting { alloc, layer, .. } = setting;
        Ok(Mover {
            prices: Table::new(alloc, LONGEST_WINDOW, layer.symbols, 0)?,
            weekend_price: 0,
            costs: vec![in alloc; FAR; layer.nodes]?,
            next_costs: vec![in alloc; FAR; layer.nodes]?,
            parents: NumberTable::zeros(alloc, LONGEST_WINDOW, layer.nodes, layer.nodes)?,
            kept: Numbers::zeros(alloc, LONGEST_WINDOW, layer.symbols)?,
        })
    }

    /// Rewrites a window in the way that costs least. The word stays as it was where it would go by a wish and cost more
    /// than before, and not a little. Costs a look at each step of the layer on each day of the window.
    pub fn rewrite(
        &mut self,
        layer: &SteadyLayer,
        draft: &mut Draft,
        random: &mut Random,
        rewriting: Rewriting<'_>,
    )
        requires mover { IsMoverOf layer.now self.old }
        requires walk { IsWalkOf layer.now draft.old.walk }
        requires rewriting { IsRewritingOf draft.old.walk rewriting }
        ensures mover { IsMoverOf layer.now self.new }
        ensures walk { HaveOneShape draft.new.walk draft.old.walk }
    {
        if rewriting.wish.is_none() {
            self.write_best(layer, draft, random, rewriting);
            return;
        }
        let before = draft.counters.cost();
        self.keep(&draft.walk, rewriting.window);
        self.write_best(layer, draft, random, rewriting);
        if draft.counters.cost() > plus(before, MOST_RISE) {
            self.put_back(layer, draft, rewriting.window);
        }
    }

    // Keeps the symbols of a window.
    fn keep(&mut self, walk: &Walk, window: Window)
        requires symbols { walk.now.symbols.below ≡ self.old.prices.columns }
        requires window { IsWindowOf walk.now window }
        ensures symbols { self.new.prices.columns ≡ self.old.prices.columns }
        ensures nodes { self.new.parents.columns ≡ self.old.parents.columns }
    {
        for day in 0..window.len {
            let symbol = walk.symbol(walk.later(window.start, day));
            self.kept.set(day, symbol);
        }
    }

    // Puts the symbols of a window back.
    fn put_back(&self, layer: &SteadyLayer, draft: &mut Draft, window: Window)
        requires mover { IsMoverOf layer.now self.now }
        requires walk { IsWalkOf layer.now draft.old.walk }
        requires window { IsWindowOf draft.old.walk window }
        ensures { HaveOneShape draft.new.walk draft.old.walk }
    {
        draft.count(window, -1);
        for day in 0..window.len {
            let position = draft.walk.later(window.start, day);
            draft.walk.set_symbol(position, self.kept.at(day));
        }
        draft.walk.retrace(layer, window.start, window.len);
        draft.count(window, 1);
    }

    // Rewrites a window in the way that costs least, where there is one.
    fn write_best(
        &mut self,
        layer: &SteadyLayer,
        draft: &mut Draft,
        random: &mut Random,
        rewriting: Rewriting<'_>,
    )
        requires mover { IsMoverOf layer.now self.old }
        requires walk { IsWalkOf layer.now draft.old.walk }
        requires rewriting { IsRewritingOf draft.old.walk rewriting }
        ensures mover { IsMoverOf layer.now self.new }
        ensures walk { HaveOneShape draft.new.walk draft.old.walk }
    {
        let window = rewriting.window;
        draft.count(window, -1);
        self.weekend_price = times(draft.counters.weekend_price(), UNIT);
        set_prices(&mut self.prices, draft, random, rewriting);
        self.sweep(layer, &draft.walk, window);
        self.write(layer, &mut draft.walk, window);
        draft.count(window, 1);
    }

    // Finds the least costs of the walks from the node before the window to each node behind it (R. Bellman, 1957).
    fn sweep(&mut self, layer: &SteadyLayer, walk: &Walk, window: Window)
        requires mover { IsMoverOf layer.now self.old }
        requires walk { IsWalkOf layer.now walk.now }
        requires window { IsWindowOf walk.now window }
        ensures { IsMoverOf layer.now self.new }
    {
        fill(&mut self.costs, FAR);
        let start = walk.node(window.start);
        self.costs[start] = 0;
        for day in 0..window.len {
            let weekday = walk.weekday(walk.later(window.start, day));
            self.sweep_day(layer, day, weekday);
        }
    }

    // Finds the least costs behind a day of the window by those before it.
    fn sweep_day(&mut self, layer: &SteadyLayer, day: usize, weekday: usize)
        requires mover { IsMoverOf layer.now self.old }
        requires day { day < LONGEST_WINDOW }
        ensures { IsMoverOf layer.now self.new }
    {
        fill(&mut self.next_costs, FAR);
        for number in 0..layer.step_count() {
            self.take(layer.step(number), day, weekday);
        }
        mem::swap(&mut self.costs, &mut self.next_costs);
    }

    // Takes a step on a day of the window, where that costs less than another way to its node.
    fn take(&mut self, step: Step, day: usize, weekday: usize)
        requires step { IsStepWithin self.old.parents.columns self.old.prices.columns step }
        requires day { day < LONGEST_WINDOW }
        ensures nodes { self.new.parents.columns ≡ self.old.parents.columns }
        ensures symbols { self.new.prices.columns ≡ self.old.prices.columns }
    {
        let before = self.costs[step.from];
        if before == FAR || self.prices.at(day, step.symbol) == FAR {
            return;
        }
        let cost = plus(before, self.price_of(step, day, weekday));
        if cost < self.next_costs[step.to] {
            self.next_costs[step.to] = cost;
            self.parents.set(day, step.to, step.from);
        }
    }

    // What a step costs on a day of the window.
    fn price_of(&self, step: Step, day: usize, weekday: usize) -> i64
        requires symbol { step.symbol < self.now.prices.columns }
        requires day { day < LONGEST_WINDOW }
    {
        let price = self.prices.at(day, step.symbol);
        if step.ends_weekend(weekday) {
            plus(price, self.weekend_price)
        } else {
            price
        }
    }

    // The node behind the window that costs least among those from which the word can continue as it is.
    fn best_end(&self, layer: &SteadyLayer, walk: &Walk, window: Window) -> Option<usize>
        requires mover { IsMoverOf layer.now self.now }
        requires walk { IsWalkOf layer.now walk.now }
        requires window { IsWindowOf walk.now window }
        ensures { IfSome result (λ n. n < layer.now.nodes) }
    {
        let behind = walk.later(window.start, window.len);
        let kept = walk.cells - window.len;
        let mut least = FAR;
        let mut best: Option<usize> = None;
        for node in 0..layer.nodes {
            let cost = self.costs[node];
            if cost < least && walk.joins(layer, node, behind, kept) {
                least = cost;
                best = Some(node);
            }
        }
        best
    }

    // Writes the walk of least cost into the window, where there is one that the word behind continues.
    fn write(&self, layer: &SteadyLayer, walk: &mut Walk, window: Window)
        requires mover { IsMoverOf layer.now self.now }
        requires walk { IsWalkOf layer.now walk.old }
        requires window { IsWindowOf walk.old window }
        ensures { HaveOneShape walk.new walk.old }
    {
        let Some(end) = self.best_end(layer, walk, window) else {
            return;
        };
        let mut node = end;
        for day in (0..window.len).rev() {
            let position = walk.later(window.start, day);
            walk.set_symbol(position, layer.last(node));
            node = self.parents.at(day, node);
        }
        walk.retrace(layer, window.start, window.len);
    }
}

// Prices each symbol on each day of a window by the counts without it. One that the day may not have is too far off.
fn set_prices(prices: &mut Table<i64>, draft: &Draft, random: &mut Random, rewriting: Rewriting<'_>)
    requires symbols { prices.old.columns ≡ draft.now.walk.symbols.below }
    requires days { rewriting.window.len ≤ prices.old.rows }
    requires start { rewriting.window.start < draft.now.walk.cells }
    requires within { rewriting.window.len ≤ draft.now.walk.cells }
    requires domains { AreDomainsFor draft.now.walk rewriting.domains.now }
    ensures days { prices.new.rows ≡ prices.old.rows }
    ensures symbols { prices.new.columns ≡ prices.old.columns }
{
    for day in 0..rewriting.window.len {
        let position = draft.walk.later(rewriting.window.start, day);
        let weekday = draft.walk.weekday(position);
        for symbol in 0..prices.columns {
            let price = times(draft.counters.price(symbol, weekday), UNIT);
            let noise = random.noise(NOISE);
            let is_allowed = rewriting.allows(position, symbol);
            let set = if is_allowed { plus(price, noise) } else { FAR };
            prices.set(day, symbol, set);
        }
    }
}
