ghost use Rattle.std.specs.Prelude.{◌≡◌, ◌↔◌, ℕ, ◌<◌, ◌≤◌, ◌≤ℤ◌, pos, neg_ℤ, [], length, slice_index_or, AllPairs, IsTrue, MatchResult, IfOk, OnOk, OnErr};
ghost use Rattle.rwsp_terms.specs.Weights.{AreWeights, ComesBefore, weight_at};
ghost use Rattle.rwsp_terms.specs.Places.{EntryStands, EntryBelongs, Precedes, is_at, SetsWeight};
ghost use Rattle.rwsp_terms.specs.declared.data.Weight.{Weight};

use crate::limits::GREATEST_WEIGHT;
use crate::{Symbol, Weight};
use std::alloc::{AllocError, Global};
use std::marker::Model;

/// What symbols weigh on days, ascending by day and then by symbol; where nothing is listed the weight is 0.
#[derive(Drop)]
pub struct Weights {
    entries: Vec<Weight>,
}

impl Model for Weights {
    ghost use Rattle.std.specs.Prelude.{List};
    ghost use Rattle.rwsp_terms.specs.declared.data.Weight.{Weight};

    ghost Value = { List Weight };

    ghost use Rattle.rwsp_terms.specs.Weights.{AreWeights};

    ghost view = { λ w. w.entries.items };

    ghost invariant = { λ w. AreWeights w.entries.items };
}

impl Weights {
    /// The weights that are 0 everywhere.
    pub fn new(alloc: Global) -> Weights
        ensures { result ≡ [] }
    {
        Weights {
            entries: Vec::new(alloc),
        }
    }

    /// A copy of the weights.
    pub fn copy(&self) -> Result<Weights, AllocError>
        ensures { IfOk result (λ w. w ≡ self.now) }
    {
        let entries = Vec::from_slice(*self.entries.allocator(), &self.entries)?;
        Ok(Weights { entries })
    }

    /// The number of weights that aren't 0.
    pub fn len(&self) -> usize
        ensures { result ≡ length self.now }
    {
        self.entries.len()
    }

    /// The weights that aren't 0, ascending by day and then by symbol.
    pub fn entries(&self) -> &[Weight]
        ensures value { result.now ≡ self.now }
        ensures weights { AreWeights result.now }
    {
        &self.entries
    }

    /// What the symbol weighs on the day.
    pub fn at(&self, day: u32, x: Symbol) -> i32
        ensures { result ≡ weight_at self.now day x.number }
    {
        value_at(&self.entries, day, x)
    }

    /// Sets what the symbol weighs on the day; 0 takes its entry out.
    pub fn put(&mut self, day: u32, x: Symbol, value: i32) -> Result<(), AllocError>
        requires low { neg_ℤ (pos GREATEST_WEIGHT) ≤ℤ value }
        requires high { value ≤ℤ pos GREATEST_WEIGHT }
        ensures weights { AreWeights self.new }
        ensures sets { OnOk result (SetsWeight self.old self.new day x.number value) }
        ensures kept { OnErr result (self.new ≡ self.old) }
    {
        let entry = Weight {
            day,
            symbol: x,
            value,
        };
        match place_of_entry(&self.entries, day, x) {
            Ok(place) => {
                change_entry(&mut self.entries, place, entry);
                Ok(())
            }
            Err(place) => add_entry(&mut self.entries, place, entry),
        }
    }
}

fn is_at(entry: &Weight, day: u32, x: Symbol) -> bool
    ensures { result ≡ is_at entry.now day x.number }
{
    entry.day == day && entry.symbol.number == x.number
}

fn precedes(entry: &Weight, day: u32, x: Symbol) -> bool
    ensures { IsTrue result ↔ Precedes entry.now day x.number }
{
    entry.day < day || entry.day == day && entry.symbol.number < x.number
}

#[tactic(auto, using(crate::proofs::Ascending::weight_here, crate::proofs::Ascending::weight_later))]
fn value_at(entries: &[Weight], day: u32, x: Symbol) -> i32
    ensures { result ≡ weight_at entries.now day x.number }
{
    for entry in entries {
        if is_at(entry, day, x) {
            return entry.value;
        }
    }
    0
}

// How many entries come before that of the symbol on the day.
fn entries_before(entries: &[Weight], day: u32, x: Symbol) -> usize
    ensures within { result ≤ length entries.now }
    ensures before { (k : ℕ) (d : Weight) → k < result → Precedes (slice_index_or entries.now k d) day x.number }
    ensures next { (d : Weight) → result < length entries.now
        → ¬ Precedes (slice_index_or entries.now result d) day x.number }
{
    for (i, entry) in entries.iter().enumerate() {
        if !precedes(entry, day, x) {
            return i;
        }
    }
    entries.len()
}

// The place of the entry of the symbol on the day, or else the place where it belongs.
fn place_of_entry(entries: &[Weight], day: u32, x: Symbol) -> Result<usize, usize>
    requires { AllPairs ComesBefore entries.now }
    ensures { MatchResult result (λ i. EntryStands entries.now day x.number i)
        (λ i. EntryBelongs entries.now day x.number i) }
{
    let place = entries_before(entries, day, x);
    if place == entries.len() {
        return Err(place);
    }
    if is_at(&entries[place], day, x) {
        Ok(place)
    } else {
        Err(place)
    }
}

fn change_entry(entries: &mut Vec<Weight>, place: usize, entry: Weight)
    requires weights { AreWeights entries.old.items }
    requires place { EntryStands entries.old.items entry.day entry.symbol.number place }
    requires value { (neg_ℤ (pos GREATEST_WEIGHT) ≤ℤ entry.value) × (entry.value ≤ℤ pos GREATEST_WEIGHT) }
    ensures { SetsWeight entries.old.items entries.new.items entry.day entry.symbol.number entry.value }
{
    if entry.value == 0 {
        entries.remove(place);
    } else {
        entries[place] = entry;
    }
}

fn add_entry(entries: &mut Vec<Weight>, place: usize, entry: Weight) -> Result<(), AllocError>
    requires weights { AreWeights entries.old.items }
    requires place { EntryBelongs entries.old.items entry.day entry.symbol.number place }
    requires value { (neg_ℤ (pos GREATEST_WEIGHT) ≤ℤ entry.value) × (entry.value ≤ℤ pos GREATEST_WEIGHT) }
    ensures weights { AreWeights entries.new.items }
    ensures sets { OnOk result (SetsWeight entries.old.items entries.new.items entry.day entry.symbol.number
        entry.value) }
    ensures kept { OnErr result (entries.new.items ≡ entries.old.items) }
{
    if entry.value != 0 {
        entries.insert(place, entry)?;
    }
    Ok(())
}

// Weights may be sent to other threads and shared with them.
fn shared<T: Send + Sync>(_: &T) {}

fn weights_are_shared(weights: &Weights) {
    shared(weights);
}
