// The restricted master of column generation: a mixture of clean words, its columns, that comes near to the demand.
ghost use Rattle.std.specs.Prelude.{◌≡◌, ◌<◌, ◌≤◌, ◌≤ℤ◌, pos, [], length, All, IfOk, OnOk};
ghost use Rattle.roster_finder.specs.ByStep.{IsByStep};
ghost use Rattle.roster_finder.specs.Quotas.{IsQuotaOf};
ghost use Rattle.roster_finder.specs.Words.{IsWordOf};
ghost use Rattle.roster_finder.specs.declared.setting.Setting.{Setting};
ghost use Rattle.roster_finder.specs.declared.heavy_word.TheConstants.{MOST_WORD_WEEKS};
ghost use Rattle.roster_finder.specs.declared.mixture.TheConstants.{COUNTED_DAYS};

use crate::cost::{plus, times};
use crate::cuts::add_cuts;
use crate::heavy_word::{HeavyWord, Weigher};
use crate::prices::{least_weight, price_quotas, price_steps, prices_of};
use crate::quotas::Quota;
use crate::random::Random;
use crate::setting::Setting;
use crate::steady_layer::SteadyLayer;
use crate::table::Table;
use clean_words::{Hull, SCALE};
use std::alloc::AllocError;

/// About how many days a word has: enough that it comes back to a node, and a part of it leads round.
const WORD_DAYS: usize = 448;

/// The fewest weeks of a word.
const FEWEST_WEEKS: usize = 24;

/// About how many days a word has that is to say that none is heavy enough: so many that its free ends matter little.
const LONG_WORD_DAYS: usize = 3_000;

/// About how many days the coordinates of a word count.
const COUNTED_DAYS: usize = 16_800;

/// The most words that are weighed for a first mixture, and for one with new cuts.
const FIRST_ROUNDS: usize = 200;

const CUT_ROUNDS: usize = 80;

/// About the most steps that are looked at for a mixture.
const MOST_LOOKS: usize = 400_000_000;

/// How often a mixture is bettered at most for each word.
const BETTERINGS: u32 = 100;

/// Of more words than this, those without a part are dropped.
const MANY_WORDS: usize = 100;

/// A mixture is near the demand where each of its numbers is off by less than this.
const NEAR: i64 = SCALE as i64 / 16;

/// What came of a word that was to be added.
#[derive(Clone, Copy, PartialEq, Eq)]
enum Addition {
    Added,
    Known,
    TooLight,
}

/// Words, and a mixture of them.
#[derive(Drop)]
pub(crate) struct Mixture {
    // Weights are blurred by random numbers below this.
    noise: u32,
    // What else the mixture has to come to: free weekends, and cuts that it is led over.
    quotas: Vec<Quota>,
    // How many words are weighed at most.
    rounds: usize,
    // For how many turns through all weeks the coordinates of words count.
    turns: usize,
    // The weeks of a word, and of a long one.
    word_weeks: usize,
    long_weeks: usize,
    words: Vec<HeavyWord>,
    hull: Hull,
    weigher: Weigher,
    // By weekday and step.
    weights: Table<i64>,
    ghost beside: { length words.items ≡ length hull.vectors },
    ghost few_turns: { turns ≤ COUNTED_DAYS },
    ghost some_weeks: { 0 < word_weeks },
    ghost no_longer: { word_weeks ≤ long_weeks },
    ghost few_weeks: { long_weeks ≤ MOST_WORD_WEEKS },
}

impl Mixture {
    ghost use Rattle.roster_finder.specs.Mixtures.{IsMixtureOf};

    /// No words yet, and no cuts.
    pub fn new(setting: Setting<'_>, noise: u32) -> Result<Mixture, AllocError>
        requires { 0 < length setting.layer.now.steps.items }
        ensures { IfOk result (IsMixtureOf setting.entry) }
    {
        let Setting {
            alloc,
            layer,
            demand,
        } = setting;
        let turns = times_within(COUNTED_DAYS, demand.cells(), 1);
        let word_weeks = times_within(WORD_DAYS, demand.days, FEWEST_WEEKS);
        let long_weeks = times_within(LONG_WORD_DAYS, demand.days, word_weeks);
        let quotas = first_quotas(setting)?;
        Ok(Mixture {
            noise,
            hull: hull_of(setting, &quotas, turns)?,
            quotas,
            rounds: FIRST_ROUNDS,
            turns,
            word_weeks,
            long_weeks,
            words: Vec::new(alloc),
            weigher: Weigher::new(setting, long_weeks)?,
            weights: Table::new(alloc, demand.days, layer.step_count(), 0)?,
        })
    }

    /// Brings the mixture near to the demand and over the cuts. False where none comes there, since no word is heavy
    /// enough by some weights (G. Dantzig and P. Wolfe's generation of columns, 1960).
    /// Costs for each word a look at each step on each of its days, and at all words for each time that it is bettered.
    pub fn approach(
        &mut self,
        setting: Setting<'_>,
        random: &mut Random,
    ) -> Result<bool, AllocError>
        requires mixture { IsMixtureOf setting self.old }
        requires nodes { 0 < setting.layer.now.nodes }
        requires steps { 0 < length setting.layer.now.steps.items }
        ensures { OnOk result (IsMixtureOf setting.entry self.new) }
    {
        self.hull.descend(BETTERINGS);
        for _ in 0..self.affordable_rounds(setting) {
            let far = furthest(self.hull.off());
            if far < NEAR && !self.words.is_empty() {
                return Ok(true);
            }
            let addition = self.add_heaviest(setting, random, far)?;
            if addition != Addition::Added {
                return Ok(addition == Addition::Known);
            }
        }
        Ok(true)
    }

    // How many words may be weighed.
    fn affordable_rounds(&self, setting: Setting<'_>) -> usize {
        let days = setting.demand.days.saturating_mul(self.word_weeks);
        let looks = days.saturating_mul(setting.layer.step_count()).max(1);
        (MOST_LOOKS / looks).min(self.rounds)
    }

    // Weighs the steps by how far each coordinate is off, and adds a heaviest word that leads round, a long one where a
    // short one adds nothing.
    fn add_heaviest(
        &mut self,
        setting: Setting<'_>,
        random: &mut Random,
        far: i64,
    ) -> Result<Addition, AllocError>
        requires mixture { IsMixtureOf setting self.old }
        requires nodes { 0 < setting.layer.now.nodes }
        requires steps { 0 < length setting.layer.now.steps.items }
        requires far { pos 0 ≤ℤ far }
        ensures { OnOk result (IsMixtureOf setting.entry self.new) }
    {
        let prices = prices_of(setting, &self.quotas, self.hull.off(), far)?;
        price_steps(setting, &prices, random, self.noise, &mut self.weights);
        price_quotas(setting, &prices, &self.quotas, &mut self.weights);
        let wanted = least_weight(setting, &prices, &self.quotas);
        let addition = self.add_from(setting, self.word_weeks, wanted)?;
        if addition == Addition::Added {
            return Ok(addition);
        }
        self.add_from(setting, self.long_weeks, wanted)
    }

    // Adds the word that leads round of the heaviest of `weeks` weeks, if it is heavy enough.
    #[tactic(auto, using(crate::proofs::Places::days_within))]
    fn add_from(
        &mut self,
        setting: Setting<'_>,
        weeks: usize,
        wanted: i64,
    ) -> Result<Addition, AllocError>
        requires mixture { IsMixtureOf setting self.old }
        requires nodes { 0 < setting.layer.now.nodes }
        requires steps { 0 < length setting.layer.now.steps.items }
        requires some { 0 < weeks }
        requires few { weeks ≤ self.old.long_weeks }
        ensures kept { self.new.long_weeks ≡ self.old.long_weeks }
        ensures mixture { OnOk result (IsMixtureOf setting.entry self.new) }
    {
        let word = self.weigher.heaviest(setting, &self.weights, weeks)?;
        let weight = times(word.weight, setting.demand.weeks as i64);
        if weight < times(wanted, word.weeks as i64) {
            return Ok(Addition::TooLight);
        }
        self.add_word(setting, word)
    }

    // Adds a word, unless the hull has its coordinates already.
    fn add_word(&mut self, setting: Setting<'_>, word: HeavyWord) -> Result<Addition, AllocError>
        requires mixture { IsMixtureOf setting self.old }
        requires word { IsWordOf setting word }
        ensures kept { self.new.long_weeks ≡ self.old.long_weeks }
        ensures mixture { OnOk result (IsMixtureOf setting.entry self.new) }
    {
        let row = self.row_of(setting, &word)?;
        if self.hull.contains(&row) {
            return Ok(Addition::Known);
        }
        add(&mut self.words, &mut self.hull, word, row)?;
        self.hull.descend(BETTERINGS);
        drop_unused(&mut self.words, &mut self.hull);
        Ok(Addition::Added)
    }

    /// How often the mixture takes each step on each weekday as it goes through all weeks once, by weekday and step, in
    /// parts of a use: one use counts `one_use`.
    pub fn uses(&self, setting: Setting<'_>, one_use: i64) -> Result<Table<i64>, AllocError>
        requires { IsMixtureOf setting self.now }
        ensures { IfOk result (IsByStep setting.entry) }
    {
        let days = setting.demand.days;
        let steps = setting.layer.step_count();
        let mut uses = Table::new(setting.alloc, days, steps, 0)?;
        self.put_uses(setting, &mut uses, one_use);
        Ok(uses)
    }

    // Writes how often each step is taken on each weekday.
    fn put_uses(&self, setting: Setting<'_>, uses: &mut Table<i64>, one_use: i64)
        requires mixture { IsMixtureOf setting self.now }
        requires uses { IsByStep setting uses.old }
        ensures { IsByStep setting.entry uses.new }
    {
        for weekday in 0..setting.demand.days {
            for number in 0..setting.layer.step_count() {
                let mixed = self.mixed_uses(setting, weekday, number, one_use);
                uses.set(weekday, number, mixed);
            }
        }
    }

    fn mixed_uses(&self, setting: Setting<'_>, weekday: usize, number: usize, one_use: i64) -> i64
        requires mixture { IsMixtureOf setting self.now }
        requires weekday { weekday < setting.demand.now.days }
        requires number { number < length setting.layer.now.steps.items }
    {
        let weeks = setting.demand.weeks as i64;
        let parts = self.hull.parts();
        let mut sum = 0;
        for place in 0..self.words.len() {
            let word = &self.words[place];
            let uses = times(word.uses.at(weekday, number), one_use);
            let mean = in_weeks(uses, word, weeks);
            sum = plus(sum, times(mean, i64::from(parts[place])));
        }
        sum / i64::from(SCALE)
    }

    /// Takes cuts round the parts that these uses hardly leave into account. Each word keeps its part. False where there
    /// are no new cuts.
    pub fn cut(&mut self, setting: Setting<'_>, uses: &Table<i64>) -> Result<bool, AllocError>
        requires mixture { IsMixtureOf setting self.old }
        requires uses { IsByStep setting uses.now }
        ensures { OnOk result (IsMixtureOf setting.entry self.new) }
    {
        let before = self.quotas.len();
        add_cuts(setting, uses, &mut self.quotas)?;
        if self.quotas.len() == before {
            return Ok(false);
        }
        self.hull = self.renewed_hull(setting)?;
        self.rounds = CUT_ROUNDS;
        Ok(true)
    }

    // The hull by all quotas, in which each word has the part that it has now.
    fn renewed_hull(&self, setting: Setting<'_>) -> Result<Hull, AllocError>
        requires { IsMixtureOf setting self.now }
        ensures { IfOk result (λ h. length h.vectors ≡ length self.now.words.items) }
    {
        let mut hull = hull_of(setting, &self.quotas, self.turns)?;
        for place in 0..self.words.len() {
            let row = self.row_of(setting, &self.words[place])?;
            let part = self.hull.parts()[place];
            hull.push_part(row, part)?;
        }
        Ok(hull)
    }

    // The coordinates of a word, as it goes through all weeks `turns` times in the mean: how often it has each symbol on
    // each weekday, and what it has of each quota.
    #[tactic(auto, using(crate::proofs::QuotaSteps::steps_fit))]
    fn row_of(&self, setting: Setting<'_>, word: &HeavyWord) -> Result<Vec<i64>, AllocError>
        requires mixture { IsMixtureOf setting self.now }
        requires word { IsWordOf setting word.now }
    {
        let Setting {
            alloc,
            layer,
            demand,
        } = setting;
        let weeks = times(demand.weeks as i64, self.turns as i64);
        let mut row = Vec::new(alloc);
        for symbol in 0..demand.symbols {
            for weekday in 0..demand.days {
                let count = count_of(layer, word.uses.row(weekday), symbol);
                row.push(in_weeks(count, word, weeks))?;
            }
        }
        for place in 0..self.quotas.len() {
            let count = self.quotas[place].uses(&word.uses);
            row.push(in_weeks(count, word, weeks))?;
        }
        Ok(row)
    }
}

// Adds a word, and its coordinates to the hull.
fn add(
    words: &mut Vec<HeavyWord>,
    hull: &mut Hull,
    word: HeavyWord,
    row: Vec<i64>,
) -> Result<(), AllocError>
    requires { length words.old.items ≡ length hull.old.vectors }
    ensures beside { length words.new.items ≡ length hull.new.vectors }
    ensures words { OnOk result ((setting : Setting) → IsWordOf setting word
        → All (IsWordOf setting) words.old.items → All (IsWordOf setting) words.new.items) }
{
    words.push(word)?;
    if hull.push(row).is_err() {
        words.pop();
        return Err(AllocError);
    }
    Ok(())
}

// Takes out the first word that has no part, where there are many.
#[tactic(auto, using(crate::proofs::Words::removed_words))]
fn drop_unused(words: &mut Vec<HeavyWord>, hull: &mut Hull)
    requires { length words.old.items ≡ length hull.old.vectors }
    ensures beside { length words.new.items ≡ length hull.new.vectors }
    ensures words { (setting : Setting)
        → All (IsWordOf setting) words.old.items → All (IsWordOf setting) words.new.items }
{
    if hull.count() <= MANY_WORDS {
        return;
    }
    if let Some(place) = hull.drop_unused() {
        words.remove(place);
    }
}

// How often a symbol is in a word, by how often the word takes each step.
fn count_of(layer: &SteadyLayer, uses: &[i64], symbol: usize) -> i64 {
    let mut sum = 0;
    for (step, count) in layer.steps().iter().zip(uses.iter()) {
        if step.symbol == symbol {
            sum = plus(sum, *count);
        }
    }
    sum
}

// The greatest of the numbers without their signs.
fn furthest(numbers: &[i64]) -> i64
    ensures { pos 0 ≤ℤ result }
{
    let mut most: i64 = 0;
    for number in numbers {
        most = most.max(number.saturating_abs());
    }
    most
}

// The quota of free weekends, where some are wanted.
fn first_quotas(setting: Setting<'_>) -> Result<Vec<Quota>, AllocError>
    ensures { IfOk result (λ quotas. All (IsQuotaOf setting.entry) quotas.items) }
{
    let mut quotas = Vec::new(setting.alloc);
    if setting.demand.free > 0 {
        quotas.push(Quota::of_weekends(setting)?)?;
    }
    Ok(quotas)
}

// No words yet, and the box of the ranges of all coordinates, each `turns` times.
fn hull_of(setting: Setting<'_>, quotas: &[Quota], turns: usize) -> Result<Hull, AllocError>
    requires { turns ≤ COUNTED_DAYS }
    ensures { IfOk result (λ h. h.vectors ≡ []) }
{
    let Setting { alloc, demand, .. } = setting;
    let turns = turns as i64;
    let mut low = Vec::new(alloc);
    let mut high = Vec::new(alloc);
    for symbol in 0..demand.symbols {
        for weekday in 0..demand.days {
            let range = demand.range(symbol, weekday);
            low.push(times(range.least, turns))?;
            high.push(times(range.greatest, turns))?;
        }
    }
    for quota in quotas {
        let range = quota.range(demand);
        low.push(times(range.least, turns))?;
        high.push(times(range.greatest, turns))?;
    }
    Hull::new(alloc, low, high)
}

// What a count within a word is within so many weeks in the mean, rounded.
fn in_weeks(count: i64, word: &HeavyWord, weeks: i64) -> i64 {
    let of = word.weeks as i64;
    plus(times(count, weeks), of / 2) / of
}

// How many times a number of days has another one in it; a least number where that is more.
#[tactic(auto, using(crate::proofs::Places::quotient_within))]
fn times_within(days: usize, part: usize, least: usize) -> usize
    requires part { 0 < part }
    requires few { least ≤ days }
    ensures most { result ≤ days }
    ensures least { least ≤ result }
{
    (days / part).max(least)
}
