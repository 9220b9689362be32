// The pricing problem of column generation: heavy words of many weeks, and the parts of them that lead round.
ghost use Rattle.std.specs.Prelude.{◌≡◌, ◌+◌, ◌*◌, ◌<◌, ◌≤◌, length, IfOk, IfSome};
ghost use Rattle.roster_finder.specs.ByStep.{IsByStep};
ghost use Rattle.roster_finder.specs.declared.heavy_word.TheConstants.{MOST_WORD_WEEKS};

use crate::cost::{minus, plus, times};
use crate::numbers::{NumberTable, ShortNumberTable};
use crate::setting::Setting;
use crate::steady_layer::SteadyLayer;
use crate::table::{Table, fill};
use std::alloc::AllocError;
use std::mem;

/// The most weeks of a word.
pub(crate) const MOST_WORD_WEEKS: usize = 3_000;

/// Less than any word weighs.
const NEVER: i64 = -(1 << 60);

/// A word of whole weeks by its weight and by how often it takes each step on each weekday.
#[derive(Drop)]
pub(crate) struct HeavyWord {
    pub weeks: usize,
    pub weight: i64,
    /// By weekday and step.
    pub uses: Table<i64>,
    ghost some_weeks: { 0 < weeks },
    ghost few_weeks: { weeks ≤ MOST_WORD_WEEKS },
}

/// Room to weigh words.
#[derive(Drop)]
pub(crate) struct Weigher {
    // The greatest weight of the words to each node, on one day and on the next.
    weights: Vec<i64>,
    next_weights: Vec<i64>,
    // By day and node: the last step of a heaviest word to it.
    last_steps: ShortNumberTable,
    ghost weights_whole: { length weights.items ≡ last_steps.columns },
    ghost next_whole: { length next_weights.items ≡ last_steps.columns },
}

impl Weigher {
    ghost use Rattle.roster_finder.specs.Weighers.{IsWeigherOf};

    /// Room for words of `weeks` weeks at most.
    pub fn new(setting: Setting<'_>, weeks: usize) -> Result<Weigher, AllocError>
        requires { 0 < length setting.layer.now.steps.items }
        ensures weigher { IfOk result (IsWeigherOf setting.entry.layer.now) }
        ensures days { IfOk result (λ w. w.last_steps.rows ≡ setting.entry.demand.now.days * weeks) }
    {
        let Setting {
            alloc,
            layer,
            demand,
        } = setting;
        // No memory holds more days than a number of it can count.
        let Some(days) = demand.days.checked_mul(weeks) else {
            return Err(AllocError);
        };
        Ok(Weigher {
            weights: vec![in alloc; 0; layer.nodes]?,
            next_weights: vec![in alloc; 0; layer.nodes]?,
            last_steps: ShortNumberTable::zeros(alloc, days, layer.nodes, layer.step_count())?,
        })
    }

    /// The part that leads round, from a node back to this node, of the heaviest word of `weeks` weeks by what each step
    /// weighs on each weekday, from any node to any node (R. Bellman, 1957): the part that weighs most for its weeks.
    /// Where there is none, the whole word.
    /// Costs a look at each step on each day.
    pub fn heaviest(
        &mut self,
        setting: Setting<'_>,
        weights: &Table<i64>,
        weeks: usize,
    ) -> Result<HeavyWord, AllocError>
        requires weigher { IsWeigherOf setting.layer.now self.old }
        requires nodes { 0 < setting.layer.now.nodes }
        requires steps { 0 < length setting.layer.now.steps.items }
        requires weights { IsByStep setting weights.now }
        requires some { 0 < weeks }
        requires few { weeks ≤ MOST_WORD_WEEKS }
        requires days { setting.demand.now.days * weeks ≤ self.old.last_steps.rows }
        ensures weigher { IsWeigherOf setting.entry.layer.now self.new }
        ensures days { self.new.last_steps.rows ≡ self.old.last_steps.rows }
        ensures uses { IfOk result (λ w. IsByStep setting.entry w.uses) }
    {
        self.weigh(setting, weights, setting.demand.days * weeks);
        let taken = self.traced(setting, weeks)?;
        heavy_part(setting, weights, &taken)
    }

    // Weighs the words of so many days to each node.
    fn weigh(&mut self, setting: Setting<'_>, weights: &Table<i64>, days: usize)
        requires weigher { IsWeigherOf setting.layer.now self.old }
        requires weights { IsByStep setting weights.now }
        requires days { days ≤ self.old.last_steps.rows }
        ensures weigher { IsWeigherOf setting.entry.layer.now self.new }
        ensures days { self.new.last_steps.rows ≡ self.old.last_steps.rows }
    {
        fill(&mut self.weights, 0);
        for day in 0..days {
            let weekday = day % setting.demand.days;
            self.weigh_day(setting.layer, weights.row(weekday), day);
        }
    }

    // Weighs the words of a day more, on which the steps have these weights.
    fn weigh_day(&mut self, layer: &SteadyLayer, weights: &[i64], day: usize)
        requires weigher { IsWeigherOf layer.now self.old }
        requires weights { length weights.now ≡ length layer.now.steps.items }
        requires day { day < self.old.last_steps.rows }
        ensures weigher { IsWeigherOf layer.now self.new }
        ensures days { self.new.last_steps.rows ≡ self.old.last_steps.rows }
    {
        fill(&mut self.next_weights, NEVER);
        for number in 0..layer.step_count() {
            self.take(layer, number, weights[number], day);
        }
        mem::swap(&mut self.weights, &mut self.next_weights);
    }

    // Takes a step on a day, where the word by it weighs more than another one to its node.
    fn take(&mut self, layer: &SteadyLayer, number: usize, weight: i64, day: usize)
        requires weigher { IsWeigherOf layer.now self.old }
        requires number { number < length layer.now.steps.items }
        requires day { day < self.old.last_steps.rows }
        ensures weigher { IsWeigherOf layer.now self.new }
        ensures days { self.new.last_steps.rows ≡ self.old.last_steps.rows }
    {
        let step = layer.step(number);
        let weight = plus(self.weights[step.from], weight);
        if weight > self.next_weights[step.to] {
            self.next_weights[step.to] = weight;
            self.last_steps.set(day, step.to, number);
        }
    }

    // The node that a heaviest word ends at.
    fn heaviest_end(&self) -> usize
        requires { 0 < self.now.last_steps.columns }
        ensures { result < self.now.last_steps.columns }
    {
        let mut best: usize = 0;
        for node in 0..self.weights.len() {
            if self.weights[node] > self.weights[best] {
                best = node;
            }
        }
        best
    }

    // The numbers of the steps of the heaviest word of `weeks` weeks, by week and weekday.
    fn traced(&self, setting: Setting<'_>, weeks: usize) -> Result<NumberTable, AllocError>
        requires weigher { IsWeigherOf setting.layer.now self.now }
        requires nodes { 0 < setting.layer.now.nodes }
        requires steps { 0 < length setting.layer.now.steps.items }
        requires days { setting.demand.now.days * weeks ≤ self.now.last_steps.rows }
        ensures weeks { IfOk result (λ taken. taken.rows ≡ weeks) }
        ensures weekdays { IfOk result (λ taken. taken.columns ≡ setting.entry.demand.now.days) }
        ensures steps { IfOk result (λ taken. taken.numbers.below ≡ length setting.entry.layer.now.steps.items) }
    {
        let Setting {
            alloc,
            layer,
            demand,
        } = setting;
        let mut node = self.heaviest_end();
        let mut taken = NumberTable::zeros(alloc, weeks, demand.days, layer.step_count())?;
        for week in (0..weeks).rev() {
            node = self.trace_week(layer, &mut taken, week, node);
        }
        Ok(taken)
    }

    // Writes the steps of a week of the heaviest word that ends at a node. The node that the week begins at.
    #[tactic(auto, using(crate::proofs::Places::place_within))]
    fn trace_week(
        &self,
        layer: &SteadyLayer,
        taken: &mut NumberTable,
        week: usize,
        end: usize,
    ) -> usize
        requires weigher { IsWeigherOf layer.now self.now }
        requires week { week < taken.old.rows }
        requires end { end < layer.now.nodes }
        requires days { taken.old.columns * taken.old.rows ≤ self.now.last_steps.rows }
        requires steps { taken.old.numbers.below ≡ length layer.now.steps.items }
        ensures node { result < layer.now.nodes }
        ensures taken { (taken.new.rows ≡ taken.old.rows) × (taken.new.columns ≡ taken.old.columns)
            × (taken.new.numbers.below ≡ taken.old.numbers.below) }
    {
        let mut node = end;
        for weekday in (0..taken.columns).rev() {
            let day = week * taken.columns + weekday;
            let number = self.last_steps.at(day, node);
            taken.set(week, weekday, number);
            node = layer.step(number).from;
        }
        node
    }
}

// A place between two weeks of a word: its node there, and what it weighs up to there.
#[derive(Clone, Copy)]
struct Place {
    node: usize,
    weight: i64,
}

// A part of a word, from the place of one number to that of another.
#[derive(Clone, Copy)]
struct Part {
    first: usize,
    last: usize,
    weight: i64,
    ghost some: { first < last },
    ghost few: { last ≤ MOST_WORD_WEEKS },
}

impl Part {
    // That between these places.
    fn between(places: &[Place], first: usize, last: usize) -> Part
        requires some { first < last }
        requires last { last < length places.now }
        requires few { length places.now ≤ MOST_WORD_WEEKS + 1 }
        ensures { result.last ≡ last }
    {
        Part {
            first,
            last,
            weight: minus(places[last].weight, places[first].weight),
        }
    }

    fn weeks(self) -> usize
        ensures some { 0 < result }
        ensures few { result ≤ MOST_WORD_WEEKS }
    {
        self.last - self.first
    }

    // Whether it weighs more for its weeks than the other part, where there is one.
    fn is_heavier(self, other: Option<Part>) -> bool {
        match other {
            Some(other) => {
                let mine = times(self.weight, other.weeks() as i64);
                mine > times(other.weight, self.weeks() as i64)
            }
            None => true,
        }
    }
}

// The part that leads round and weighs most for its weeks, of the word of these steps.
fn heavy_part(
    setting: Setting<'_>,
    weights: &Table<i64>,
    taken: &NumberTable,
) -> Result<HeavyWord, AllocError>
    requires weights { IsByStep setting weights.now }
    requires some { 0 < taken.now.rows }
    requires few { taken.now.rows ≤ MOST_WORD_WEEKS }
    requires weekdays { taken.now.columns ≡ setting.demand.now.days }
    requires steps { taken.now.numbers.below ≡ length setting.layer.now.steps.items }
    ensures { IfOk result (λ w. IsByStep setting.entry w.uses) }
{
    let places = places_of(setting, weights, taken)?;
    let part = best_part(&places);
    Ok(HeavyWord {
        weeks: part.weeks(),
        weight: part.weight,
        uses: uses_of(setting, taken, part)?,
    })
}

// How often the steps of a part of a word are taken on each weekday.
fn uses_of(setting: Setting<'_>, taken: &NumberTable, part: Part) -> Result<Table<i64>, AllocError>
    requires part { part.last ≤ taken.now.rows }
    requires weekdays { taken.now.columns ≡ setting.demand.now.days }
    requires steps { taken.now.numbers.below ≡ length setting.layer.now.steps.items }
    ensures { IfOk result (IsByStep setting.entry) }
{
    let Setting {
        alloc,
        layer,
        demand,
    } = setting;
    let mut uses = Table::new(alloc, demand.days, layer.step_count(), 0i64)?;
    for week in part.first..part.last {
        use_week(&mut uses, taken, week);
    }
    Ok(uses)
}

// Counts the steps of a week of a word.
fn use_week(uses: &mut Table<i64>, taken: &NumberTable, week: usize)
    requires week { week < taken.now.rows }
    requires weekdays { uses.old.rows ≡ taken.now.columns }
    requires steps { uses.old.columns ≡ taken.now.numbers.below }
    ensures rows { uses.new.rows ≡ uses.old.rows }
    ensures columns { uses.new.columns ≡ uses.old.columns }
{
    for weekday in 0..taken.columns {
        let number = taken.at(week, weekday);
        let count = plus(uses.at(weekday, number), 1);
        uses.set(weekday, number, count);
    }
}

// The places between the weeks of the word of these steps: before its first week, and behind each.
fn places_of(
    setting: Setting<'_>,
    weights: &Table<i64>,
    taken: &NumberTable,
) -> Result<Vec<Place>, AllocError>
    requires weights { IsByStep setting weights.now }
    requires some { 0 < taken.now.rows }
    requires weekdays { taken.now.columns ≡ setting.demand.now.days }
    requires steps { taken.now.numbers.below ≡ length setting.layer.now.steps.items }
    ensures { IfOk result (λ places. length places.items ≡ taken.now.rows + 1) }
{
    let layer = setting.layer;
    let last_day = taken.columns - 1;
    let first = layer.step(taken.at(0, 0));
    let mut weight = 0;
    let mut places = Vec::new(setting.alloc);
    places.push(Place {
        node: first.from,
        weight,
    })?;
    for week in 0..taken.rows {
        weight = plus(weight, week_weight(weights, taken, week));
        let last = layer.step(taken.at(week, last_day));
        places.push(Place {
            node: last.to,
            weight,
        })?;
    }
    Ok(places)
}

// What a week of a word weighs.
fn week_weight(weights: &Table<i64>, taken: &NumberTable, week: usize) -> i64
    requires week { week < taken.now.rows }
    requires weekdays { weights.now.rows ≡ taken.now.columns }
    requires steps { weights.now.columns ≡ taken.now.numbers.below }
{
    let mut sum = 0;
    for weekday in 0..taken.columns {
        sum = plus(sum, weights.at(weekday, taken.at(week, weekday)));
    }
    sum
}

// The part between two places with one node that weighs most for its weeks; the whole word, where there is none.
// Costs a look at each pair of places.
fn best_part(places: &[Place]) -> Part
    requires some { 1 < length places.now }
    requires few { length places.now ≤ MOST_WORD_WEEKS + 1 }
    ensures { result.last < length places.now }
{
    let mut best: Option<Part> = None;
    for last in 0..places.len() {
        best = best_part_to(places, last, best);
    }
    match best {
        Some(part) => part,
        None => Part::between(places, 0, places.len() - 1),
    }
}

// The best part that ends at a place, where it is better than the best one so far.
fn best_part_to(places: &[Place], last: usize, so_far: Option<Part>) -> Option<Part>
    requires last { last < length places.now }
    requires few { length places.now ≤ MOST_WORD_WEEKS + 1 }
    requires within { IfSome so_far (λ p. p.last < length places.now) }
    ensures { IfSome result (λ p. p.last < length places.now) }
{
    let mut best = so_far;
    for first in 0..last {
        let part = Part::between(places, first, last);
        if places[first].node == places[last].node && part.is_heavier(best) {
            best = Some(part);
        }
    }
    best
}
