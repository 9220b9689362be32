// Sets of states.
ghost use Rattle.std.specs.Prelude.{◌≡◌, ◌⊎◌, ◌↔◌, ℕ, ◌-◌, ◌*◌, ◌^◌, ◌<◌, length, replicate, IfOk, IsTrue, All, false};
ghost use Rattle.domain_store.specs.Sets.{has_symbol};
ghost use Rattle.propagators.specs.Marks.{is_marked, here_of, there_of, IsPass};

use clean_words::Step;
use domain_store::SymbolSet;
use std::alloc::{AllocError, Global};
use std::marker::Model;

/// The states that one word of bits is for.
pub const WORD_BITS: usize = 64;

/// Which way words are followed: from the front on, or from the end back.
#[derive(Clone, Copy)]
pub enum Way {
    On,
    Back,
}

impl Way {
    // The state from which the step leads this way.
    fn here(self, step: &Step) -> usize
        ensures { result ≡ here_of self step.now }
    {
        match self {
            Way::On => step.from,
            Way::Back => step.to,
        }
    }

    // The state to which it leads.
    fn there(self, step: &Step) -> usize
        ensures { result ≡ there_of self step.now }
    {
        match self {
            Way::On => step.to,
            Way::Back => step.from,
        }
    }
}

// For each state whether it is marked: a bit each, in words. Seen as the list of the words.
#[derive(Drop)]
pub struct Marks {
    words: Vec<u64>,
}

impl Model for Marks {
    ghost use Rattle.std.specs.Prelude.{List, ℕ};

    ghost Value = { List ℕ };

    ghost view = { λ m. m.words.items };
}

impl Marks {
    // No state marked, in this number of words.
    pub fn none(alloc: Global, words: usize) -> Result<Marks, AllocError>
        ensures { IfOk result (λ m. m ≡ replicate words 0) }
    {
        let words = vec![in alloc; 0; words]?;
        Ok(Marks { words })
    }

    // Each state marked that this number of words has a bit for.
    pub fn all(alloc: Global, words: usize) -> Result<Marks, AllocError>
        ensures { IfOk result (λ m. m ≡ replicate words (2 ^ WORD_BITS - 1)) }
    {
        let words = vec![in alloc; u64::MAX; words]?;
        Ok(Marks { words })
    }

    // Whether the state is marked.
    pub fn has(&self, state: usize) -> bool
        ensures { result ≡ is_marked self.now state }
    {
        let place = state / WORD_BITS;
        place < self.words.len() && (self.words[place] >> (state % WORD_BITS)) & 1 == 1
    }

    // Marks the state.
    pub fn put(&mut self, state: usize)
        requires { state < WORD_BITS * length self.old }
        ensures long { length self.new ≡ length self.old }
        ensures marks { (t : ℕ)
            → IsTrue (is_marked self.new t) ↔ (IsTrue (is_marked self.old t) ⊎ (state ≡ t)) }
    {
        let place = state / WORD_BITS;
        let before = self.words[place];
        self.words[place] = before | (1 << (state % WORD_BITS));
    }

    // Takes all marks away.
    pub fn clear(&mut self)
        ensures long { length self.new ≡ length self.old }
        ensures none { (state : ℕ) → is_marked self.new state ≡ false }
    {
        for place in 0..self.words.len() {
            self.words[place] = 0;
        }
    }

    // Whether both mark the same states.
    pub fn is_same(&self, other: &Marks) -> bool
        ensures { IsTrue result ↔ (self.now ≡ other.now) }
    {
        self.words.as_slice() == other.words.as_slice()
    }

    // Marks the states to which the steps lead this way, by symbols of the set, from the states that are marked before.
    // Goes once over the steps.
    pub fn put_behind(&mut self, steps: &[Step], set: &SymbolSet, way: Way, before: &Marks)
        requires { All (λ s. there_of way s < WORD_BITS * length self.old) steps.now }
        ensures long { length self.new ≡ length self.old }
        ensures marks { IsPass way steps.now (has_symbol set.now) before.now self.new }
    {
        self.clear();
        for step in steps {
            if !before.has(way.here(step)) || !set.has(step.symbol.number) {
                continue;
            }
            self.put(way.there(step));
        }
    }
}
