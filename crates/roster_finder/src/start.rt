// Start words: closed walks that follow the shares.
ghost use Rattle.std.specs.Prelude.{◌≡◌, ◌+◌, ◌<◌, ◌≤◌, length, IfOk, IfSome};

use crate::cost::{minus, plus, times};
use crate::day_domains::DayDomains;
use crate::draft::Draft;
use crate::random::Random;
use crate::setting::Setting;
use crate::shares::{ONE_USE, Shares};
use crate::steady_layer::SteadyLayer;
use crate::table::Table;
use std::alloc::AllocError;

/// What a step counts that is still due.
const STEP_DUE: i64 = 1_000;

/// What counts against a step that no share takes.
const NO_SHARE: i64 = 1_000_000;

/// So often a first node is drawn at most.
const DRAWS: usize = 20;

/// What a start word follows: shares, the symbols that days may have, and random numbers below `noise`.
#[derive(Clone, Copy)]
pub(crate) struct Lead<'a> {
    pub shares: &'a Shares,
    pub domains: &'a DayDomains,
    pub noise: u32,
}

/// Room for start words.
#[derive(Drop)]
pub(crate) struct Starter {
    // By day and node: whether the walk can be closed from there.
    closes: Table<bool>,
    // By weekday and step: how often it was taken.
    taken: Table<i64>,
    // By node: whether a walk may begin there. Where some days are settled, none begins again at a node from which none
    // could be closed, since most can't then.
    begins: Vec<bool>,
    ghost some_days: { 0 < closes.rows },
}

impl Starter {
    ghost use Rattle.roster_finder.specs.Starters.{AreSharesOf, IsStarterOf};
    ghost use Rattle.roster_finder.specs.DayDomains.{AreDomainsFor};
    ghost use Rattle.roster_finder.specs.Walks.{HaveOneShape, IsWalkOf};

    pub fn new(setting: Setting<'_>, draft: &Draft) -> Result<Starter, AllocError>
        ensures { IfOk result (IsStarterOf setting.entry.layer.now draft.now.walk) }
    {
        let Setting { alloc, layer, .. } = setting;
        let walk = &draft.walk;
        Ok(Starter {
            closes: Table::new(alloc, walk.cells + 1, layer.nodes, false)?,
            taken: Table::new(alloc, walk.days, layer.step_count(), 0)?,
            begins: vec![in alloc; true; layer.nodes]?,
        })
    }

    /// Rounds the shares to a word and counts it. False where each of the first nodes that were drawn has no closed
    /// walk.
    pub fn start(
        &mut self,
        layer: &SteadyLayer,
        lead: Lead<'_>,
        draft: &mut Draft,
        random: &mut Random,
    ) -> bool
        requires nodes { 0 < layer.now.nodes }
        requires walk { IsWalkOf layer.now draft.old.walk }
        requires starter { IsStarterOf layer.now draft.old.walk self.old }
        requires shares { AreSharesOf layer.now draft.old.walk lead.shares.now }
        requires domains { AreDomainsFor draft.old.walk lead.domains.now }
        ensures walk { HaveOneShape draft.new.walk draft.old.walk }
        ensures starter { IsStarterOf layer.now draft.new.walk self.new }
    {
        for _ in 0..DRAWS {
            let first = drawn_node(layer, lead.shares, &self.begins, random);
            mark_closing(&mut self.closes, layer, lead.domains, first);
            if self.closes.at(0, first) {
                self.write(layer, lead, draft, random, first);
                draft.count_all();
                return true;
            }
            if lead.domains.open().len() < draft.walk.cells {
                self.begins[first] = false;
            }
        }
        false
    }

    // Writes the word day by day from its first node. Costs a look at each symbol on each day.
    fn write(
        &mut self,
        layer: &SteadyLayer,
        lead: Lead<'_>,
        draft: &mut Draft,
        random: &mut Random,
        first: usize,
    )
        requires first { first < layer.now.nodes }
        requires walk { IsWalkOf layer.now draft.old.walk }
        requires starter { IsStarterOf layer.now draft.old.walk self.old }
        requires shares { AreSharesOf layer.now draft.old.walk lead.shares.now }
        requires domains { AreDomainsFor draft.old.walk lead.domains.now }
        ensures walk { HaveOneShape draft.new.walk draft.old.walk }
        ensures starter { IsStarterOf layer.now draft.new.walk self.new }
    {
        self.taken.fill(0);
        let mut node = first;
        for day in 0..draft.walk.cells {
            draft.walk.set_node(day, node);
            let weekday = draft.walk.weekday(day);
            let place = Place { day, weekday, node };
            if let Some(number) = self.best_step(layer, lead, random, place) {
                let taken = self.taken.at(weekday, number);
                self.taken.set(weekday, number, plus(taken, 1));
                draft.walk.set_symbol(day, layer.step(number).symbol);
                node = layer.step(number).to;
            }
        }
    }

    // The number of the step that is most due among those after which the walk can be closed.
    fn best_step(
        &self,
        layer: &SteadyLayer,
        lead: Lead<'_>,
        random: &mut Random,
        place: Place,
    ) -> Option<usize>
        requires day { (place.day + 1 < self.now.closes.rows) × (place.day < lead.domains.now.left.rows) }
        requires node { place.node < layer.now.nodes }
        requires nodes { self.now.closes.columns ≡ layer.now.nodes }
        requires symbols { lead.domains.now.left.columns ≡ layer.now.symbols }
        requires weekday { (place.weekday < self.now.taken.rows) × (place.weekday < lead.shares.now.uses.rows) }
        requires steps { (self.now.taken.columns ≡ length layer.now.steps.items)
            × (lead.shares.now.uses.columns ≡ length layer.now.steps.items) }
        ensures { IfSome result (λ n. n < length layer.now.steps.items) }
    {
        let mut most = i64::MIN;
        let mut best: Option<usize> = None;
        for symbol in 0..layer.symbols {
            if let Some(number) = self.closing_step(layer, lead.domains, place, symbol) {
                let taken = self.taken.at(place.weekday, number);
                let share = lead.shares.uses.at(place.weekday, number);
                let due = plus(due_of(share, taken), random.noise(lead.noise));
                if due > most {
                    most = due;
                    best = Some(number);
                }
            }
        }
        best
    }

    // The number of the step by a symbol, if the day may have it and the walk can be closed after it.
    fn closing_step(
        &self,
        layer: &SteadyLayer,
        domains: &DayDomains,
        place: Place,
        symbol: usize,
    ) -> Option<usize>
        requires day { (place.day + 1 < self.now.closes.rows) × (place.day < domains.now.left.rows) }
        requires node { place.node < layer.now.nodes }
        requires nodes { self.now.closes.columns ≡ layer.now.nodes }
        requires symbol { symbol < layer.now.symbols }
        requires symbols { domains.now.left.columns ≡ layer.now.symbols }
        ensures { IfSome result (λ n. n < length layer.now.steps.items) }
    {
        let number = layer.step_number(place.node, symbol)?;
        let is_closing = self.closes.at(place.day + 1, layer.step(number).to);
        if is_closing && domains.may_have(place.day, symbol) {
            Some(number)
        } else {
            None
        }
    }
}

// A place of a word: its day, and the node before it.
#[derive(Clone, Copy)]
struct Place {
    day: usize,
    weekday: usize,
    node: usize,
}

// Marks on each day the nodes from which the first node is reached in the end. Costs a look at each step on each day.
fn mark_closing(closes: &mut Table<bool>, layer: &SteadyLayer, domains: &DayDomains, first: usize)
    requires first { first < layer.now.nodes }
    requires days { closes.old.rows ≡ domains.now.left.rows + 1 }
    requires symbols { domains.now.left.columns ≡ layer.now.symbols }
    requires nodes { closes.old.columns ≡ layer.now.nodes }
    ensures rows { closes.new.rows ≡ closes.old.rows }
    ensures columns { closes.new.columns ≡ closes.old.columns }
{
    let cells = closes.rows - 1;
    closes.fill_row(cells, false);
    closes.set(cells, first, true);
    for day in (0..cells).rev() {
        mark_before(closes, layer, domains, day);
    }
}

// Marks on a day the nodes from which a step leads on it to a node that is marked behind it.
fn mark_before(marks: &mut Table<bool>, layer: &SteadyLayer, domains: &DayDomains, day: usize)
    requires day { (day + 1 < marks.old.rows) × (day < domains.now.left.rows) }
    requires nodes { marks.old.columns ≡ layer.now.nodes }
    requires symbols { domains.now.left.columns ≡ layer.now.symbols }
    ensures rows { marks.new.rows ≡ marks.old.rows }
    ensures columns { marks.new.columns ≡ marks.old.columns }
{
    marks.fill_row(day, false);
    for number in 0..layer.step_count() {
        let step = layer.step(number);
        if marks.at(day + 1, step.to) && domains.may_have(day, step.symbol) {
            marks.set(day, step.from, true);
        }
    }
}

// A node to begin with: that of a step on the first weekday, drawn by the shares, or else any, of those at which a walk
// may begin.
fn drawn_node(layer: &SteadyLayer, shares: &Shares, begins: &[bool], random: &mut Random) -> usize
    requires nodes { 0 < layer.now.nodes }
    requires weekdays { 0 < shares.now.uses.rows }
    requires steps { shares.now.uses.columns ≡ length layer.now.steps.items }
    requires begins { length begins.now ≡ layer.now.nodes }
    ensures { result < layer.now.nodes }
{
    // The shares of a weekday are some hundred uses at most, so that their sum is less than 2^31.
    let mut drawn = random.cost_below(first_shares(layer, shares, begins));
    for number in 0..layer.step_count() {
        let share = first_share(layer, shares, begins, number);
        if drawn < share {
            return layer.step(number).from;
        }
        drawn = minus(drawn, share);
    }
    let from = random.below(layer.nodes);
    let later = beginning_within(begins, from, layer.nodes);
    later.or(beginning_within(begins, 0, from)).unwrap_or(from)
}

// The share of a step on the first weekday, if a walk may begin with it.
fn first_share(layer: &SteadyLayer, shares: &Shares, begins: &[bool], number: usize) -> i64
    requires weekdays { 0 < shares.now.uses.rows }
    requires number { number < length layer.now.steps.items }
    requires steps { shares.now.uses.columns ≡ length layer.now.steps.items }
    requires begins { length begins.now ≡ layer.now.nodes }
{
    if begins[layer.step(number).from] {
        shares.uses.at(0, number)
    } else {
        0
    }
}

// The sum of these shares.
fn first_shares(layer: &SteadyLayer, shares: &Shares, begins: &[bool]) -> i64
    requires weekdays { 0 < shares.now.uses.rows }
    requires steps { shares.now.uses.columns ≡ length layer.now.steps.items }
    requires begins { length begins.now ≡ layer.now.nodes }
{
    let mut sum = 0;
    for number in 0..layer.step_count() {
        sum = plus(sum, first_share(layer, shares, begins, number));
    }
    sum
}

// The first node within this range at which a walk may begin.
fn beginning_within(begins: &[bool], from: usize, end: usize) -> Option<usize>
    requires { end ≤ length begins.now }
    ensures { IfSome result (λ n. n < end) }
{
    for node in from..end {
        if begins[node] {
            return Some(node);
        }
    }
    None
}

// What a step counts by its share and by how often it was taken.
fn due_of(share: i64, taken: i64) -> i64 {
    let wanted = if share == 0 {
        -NO_SHARE
    } else {
        times(STEP_DUE, share) / ONE_USE
    };
    minus(wanted, times(STEP_DUE, taken))
}
