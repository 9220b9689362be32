// Closed walks through the steady layer: cyclic words that are clean where they lead on from node to node.
ghost use Rattle.std.specs.Prelude.{◌≡◌, ◌+◌, ◌*◌, ◌<◌, ◌≤◌, length, IfOk, IfSome};
ghost use Rattle.rwsp_terms.specs.declared.limits.TheConstants.{MOST_CELLS};

use crate::numbers::Numbers;
use crate::setting::Setting;
use crate::steady_layer::SteadyLayer;
use crate::step::LAST_OF_WEEKEND;
use std::alloc::AllocError;

/// A cyclic word and the nodes that it passes.
#[derive(Drop)]
pub(crate) struct Walk {
    /// The number of days of a week.
    pub days: usize,
    /// The number of days of the whole walk.
    pub cells: usize,
    // The symbol of each day.
    symbols: Numbers,
    // The node before each day.
    nodes: Numbers,
    ghost some_days: { 0 < days },
    ghost some_cells: { 0 < cells },
    ghost few_cells: { cells ≤ MOST_CELLS },
    ghost symbols_whole: { length symbols.entries.items ≡ cells },
    ghost nodes_whole: { length nodes.entries.items ≡ cells },
}

impl Walk {
    ghost use Rattle.roster_finder.specs.Cycles.{IsCleanCycle};
    ghost use Rattle.roster_finder.specs.Led.{word_of};
    ghost use Rattle.roster_finder.specs.Walks.{HaveOneShape, IsWalkOf};

    /// A walk through all weeks, all its days of symbol 0 at node 0.
    pub fn new(setting: Setting<'_>) -> Result<Walk, AllocError>
        requires { 0 < setting.layer.now.nodes }
        ensures walk { IfOk result (IsWalkOf setting.entry.layer.now) }
        ensures days { IfOk result (λ w. w.days ≡ setting.entry.demand.now.days) }
        ensures cells { IfOk result (λ w. w.cells ≡ setting.entry.demand.now.weeks * setting.entry.demand.now.days) }
    {
        let cells = setting.demand.cells();
        let symbols = setting.demand.symbols;
        Ok(Walk {
            days: setting.demand.days,
            cells,
            symbols: Numbers::zeros(setting.alloc, cells, symbols)?,
            nodes: Numbers::zeros(setting.alloc, cells, setting.layer.nodes)?,
        })
    }

    /// The word, where it leads round, as it does; so it is clean however often it is repeated.
    pub fn closed_word(&self, layer: &SteadyLayer) -> Option<&[usize]>
        requires { IsWalkOf layer.now self.now }
        ensures word { IfSome result (λ w. w.now ≡ self.now.symbols.entries.items) }
        ensures clean { IfSome result (λ w. IsCleanCycle layer.now.automaton 0 (word_of w.now)) }
    {
        let word = self.symbols.entries();
        if layer.leads_round(word) {
            Some(word)
        } else {
            None
        }
    }

    pub fn symbol(&self, position: usize) -> usize
        requires { position < self.now.cells }
        ensures { result < self.now.symbols.below }
    {
        self.symbols.at(position)
    }

    pub fn node(&self, position: usize) -> usize
        requires { position < self.now.cells }
        ensures { result < self.now.nodes.below }
    {
        self.nodes.at(position)
    }

    pub fn set_symbol(&mut self, position: usize, symbol: usize)
        requires position { position < self.old.cells }
        requires symbol { symbol < self.old.symbols.below }
        ensures { HaveOneShape self.new self.old }
    {
        self.symbols.set(position, symbol);
    }

    pub fn set_node(&mut self, position: usize, node: usize)
        requires position { position < self.old.cells }
        requires node { node < self.old.nodes.below }
        ensures { HaveOneShape self.new self.old }
    {
        self.nodes.set(position, node);
    }

    pub fn weekday(&self, position: usize) -> usize
        ensures { result < self.now.days }
    {
        position % self.days
    }

    /// The position that many days later, round the cycle.
    pub fn later(&self, position: usize, days: usize) -> usize
        requires position { position < self.now.cells }
        requires days { days ≤ self.now.cells }
        ensures { result < self.now.cells }
    {
        (position + days) % self.cells
    }

    /// The position a day later, round the cycle.
    pub fn next(&self, position: usize) -> usize
        requires { position < self.now.cells }
        ensures { result < self.now.cells }
    {
        let next = position + 1;
        if next < self.cells { next } else { 0 }
    }

    // The symbol of the day before, round the cycle.
    fn symbol_before(&self, position: usize) -> usize
        requires { position < self.now.cells }
    {
        let day_before = if position == 0 {
            self.cells - 1
        } else {
            position - 1
        };
        self.symbol(day_before)
    }

    /// Whether a position is the last day of a weekend and that is off, like the day before.
    pub fn ends_weekend(&self, position: usize) -> bool
        requires { position < self.now.cells }
    {
        self.weekday(position) == LAST_OF_WEEKEND
            && self.symbol(position) == 0
            && self.symbol_before(position) == 0
    }

    /// Whether the word from a position on can be followed from a node until it passes the nodes that it passes now,
    /// within this many days. A node forgets within a block of shifts and one of days off.
    pub fn joins(&self, layer: &SteadyLayer, from: usize, position: usize, days: usize) -> bool
        requires walk { IsWalkOf layer.now self.now }
        requires node { from < layer.now.nodes }
        requires position { position < self.now.cells }
    {
        let mut node = from;
        let mut at = position;
        for _ in 0..days {
            if self.node(at) == node {
                return true;
            }
            let Some(next) = layer.next(node, self.symbol(at)) else {
                return false;
            };
            node = next;
            at = self.next(at);
        }
        self.node(at) == node
    }

    /// Follows the word from a position on and writes the nodes that it passes, until these agree behind `days` days.
    /// No clause says that the word leads on from each of them; one that didn't would be left as it is there.
    pub fn retrace(&mut self, layer: &SteadyLayer, position: usize, days: usize)
        requires walk { IsWalkOf layer.now self.old }
        requires position { position < self.old.cells }
        ensures { HaveOneShape self.new self.old }
    {
        let mut node = self.node(position);
        let mut at = position;
        for day in 0..self.cells {
            if day > days && self.node(at) == node {
                return;
            }
            self.set_node(at, node);
            let Some(next) = layer.next(node, self.symbol(at)) else {
                return;
            };
            node = next;
            at = self.next(at);
        }
    }
}
