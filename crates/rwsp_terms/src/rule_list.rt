ghost use Rattle.std.specs.Prelude.{◌≡◌, ◌↔◌, ◌⊎◌, ℕ, ◌<◌, [], length, slice_get, Some, Contains, IsTrue, MatchResult, IfOk, OnOk, OnErr};
ghost use Rattle.std.specs.List.Sorted.{IsStrictlyIncreasing};
ghost use Rattle.rwsp_terms.specs.Places.{NumberStands, NumberBelongs};

use std::alloc::{AllocError, Global};
use std::marker::Model;

/// Numbers of rules, ascending and without repeats.
#[derive(Drop)]
pub struct RuleList {
    numbers: Vec<u32>,
}

impl Model for RuleList {
    ghost use Rattle.std.specs.Prelude.{List, ℕ};
    ghost use Rattle.std.specs.List.Sorted.{IsStrictlyIncreasing};

    ghost Value = { List ℕ };

    ghost view = { λ r. r.numbers.items };

    ghost invariant = { λ r. IsStrictlyIncreasing r.numbers.items };
}

impl RuleList {
    /// The empty list.
    pub fn new(alloc: Global) -> RuleList
        ensures { result ≡ [] }
    {
        RuleList {
            numbers: Vec::new(alloc),
        }
    }

    /// A copy of the list.
    pub fn copy(&self) -> Result<RuleList, AllocError>
        ensures { IfOk result (λ r. r ≡ self.now) }
    {
        let numbers = Vec::from_slice(*self.numbers.allocator(), &self.numbers)?;
        Ok(RuleList { numbers })
    }

    /// The number of rules that it lists.
    pub fn len(&self) -> usize
        ensures { result ≡ length self.now }
    {
        self.numbers.len()
    }

    /// The numbers, ascending.
    pub fn numbers(&self) -> &[u32]
        ensures value { result.now ≡ self.now }
        ensures ascends { IsStrictlyIncreasing result.now }
    {
        &self.numbers
    }

    /// The number at a place, counted from 0.
    pub fn at(&self, i: usize) -> u32
        requires { i < length self.now }
        ensures { slice_get self.now i ≡ Some result }
    {
        self.numbers[i]
    }

    /// Whether it lists the number.
    pub fn holds(&self, number: u32) -> bool
        ensures { IsTrue result ↔ Contains self.now number }
    {
        place_of_number(&self.numbers, number).is_ok()
    }

    /// Puts the number into its place. One that is there changes nothing.
    pub fn put(&mut self, number: u32) -> Result<(), AllocError>
        ensures ascends { IsStrictlyIncreasing self.new }
        ensures holds { OnOk result ((k : ℕ) → Contains self.new k ↔ (Contains self.old k ⊎ (k ≡ number))) }
        ensures kept { OnErr result (self.new ≡ self.old) }
    {
        match place_of_number(&self.numbers, number) {
            Ok(_) => Ok(()),
            Err(place) => insert_number(&mut self.numbers, place, number),
        }
    }
}

// The place of a number that is there, or else the place where it belongs.
fn place_of_number(numbers: &[u32], number: u32) -> Result<usize, usize>
    requires { IsStrictlyIncreasing numbers.now }
    ensures { MatchResult result (λ i. NumberStands numbers.now i number) (λ i. NumberBelongs numbers.now i number) }
{
    numbers.binary_search(&number)
}

fn insert_number(numbers: &mut Vec<u32>, place: usize, number: u32) -> Result<(), AllocError>
    requires ascends { IsStrictlyIncreasing numbers.old.items }
    requires place { NumberBelongs numbers.old.items place number }
    ensures ascends { IsStrictlyIncreasing numbers.new.items }
    ensures holds { OnOk result ((k : ℕ)
        → Contains numbers.new.items k ↔ (Contains numbers.old.items k ⊎ (k ≡ number))) }
    ensures kept { OnErr result (numbers.new.items ≡ numbers.old.items) }
{
    numbers.insert(place, number)?;
    Ok(())
}

// A list of rules may be sent to other threads and shared with them.
fn shared<T: Send + Sync>(_: &T) {}

fn rule_lists_are_shared(rules: &RuleList) {
    shared(rules);
}
