// What a search goes over.
use crate::demand::{Demand, Shape};
use crate::sweep::{Place, Sweep};
use clean_words::Automaton;
use domain_store::Domains;

// The words of an automaton over domains, where they lie, and what they are weighed against: the demand, and the goal
// of free weekends where there is one.
#[derive(Clone, Copy)]
pub struct Field<'a> {
    pub automaton: &'a Automaton,
    pub doms: &'a Domains,
    pub goal: Option<u32>,
    pub place: &'a Place,
    pub demand: &'a Demand,
}

impl<'a> Field<'a> {
    // What the heaviest word of `turns` turns weighs. None where there is no word.
    pub fn heaviest(&self, sweep: &mut Sweep, weights: &[i64], turns: u32) -> Option<i64> {
        sweep.heaviest(self.place, self.days(turns), weights)
    }

    // Whether a word of `turns` turns weighs less than the demand asks for.
    pub fn is_light(&self, word: i64, weights: &[i64], turns: u32) -> bool {
        word < self.demand.total(weights).wrapping_mul(i64::from(turns))
    }

    // Whether there are words of `turns` turns, and each weighs less than the demand asks for.
    pub fn closes(&self, sweep: &mut Sweep, weights: &[i64], turns: u32) -> bool {
        match self.heaviest(sweep, weights, turns) {
            Some(word) => self.is_light(word, weights, turns),
            None => false,
        }
    }

    // The days of `turns` turns.
    pub fn days(&self, turns: u32) -> u32 {
        let Shape { cells, .. } = self.place.shape;
        turns.wrapping_mul(cells)
    }
}
