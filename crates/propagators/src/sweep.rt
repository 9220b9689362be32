// The heaviest word over domains, by one pass from the last day back.
ghost use Rattle.std.specs.Prelude.{◌≡◌, ◌<◌, length, IfOk};
ghost use Rattle.propagators.specs.declared.sweep.TheConstants.{PLACES};

use crate::demand::Shape;
use clean_words::Automaton;
use domain_store::Domains;
use rwsp_terms::Symbol;
use rwsp_terms::limits::MOST_SYMBOLS;
use std::alloc::{AllocError, Global};
use std::mem;

// Less than any word weighs, and what is below half of it too.
const NEVER: i64 = -(1 << 60);

// The place of what a day off gains behind a day off, behind what the symbols gain.
const OFF_AGAIN: usize = MOST_SYMBOLS as usize;

// The places of what a day gains.
const PLACES: usize = OFF_AGAIN + 1;

// Where words lie: from a position on, over domains.
#[derive(Drop)]
pub struct Place {
    pub shape: Shape,
    pub position: u32,
    // For each position a mask of the symbols that are left.
    pub masks: Vec<u16>,
}

impl Place {
    // From the position on, over these domains.
    pub fn of(
        alloc: Global,
        shape: Shape,
        doms: &Domains,
        position: u32,
    ) -> Result<Place, AllocError>
        ensures { IfOk result (λ place. place.position ≡ position) }
    {
        let mut masks = Vec::new(alloc);
        for p in 0..doms.cells() {
            masks.push(mask_of(doms, p))?;
        }
        Ok(Place {
            shape,
            position,
            masks,
        })
    }

    // The symbols that are left on a day of the words.
    fn mask(&self, day: u32) -> u16 {
        let p = self
            .position
            .wrapping_add(day)
            .checked_rem(self.shape.cells)
            .unwrap_or(0);
        self.masks.get(p as usize).copied().unwrap_or(0)
    }

    // Whether a weekend ends on a day of the words.
    fn ends_weekend(&self, day: u32) -> bool {
        self.shape.ends_weekend(self.position.wrapping_add(day))
    }

    // The coordinate of symbol 0 on a day of the words.
    fn day_start(&self, day: u32) -> usize {
        self.shape.day_start(self.position.wrapping_add(day))
    }
}

fn mask_of(doms: &Domains, p: u32) -> u16
    requires { p < length doms.now.sets }
{
    let mut mask: u16 = 0;
    for number in 0..doms.shifts() + 1 {
        if doms.has(p, Symbol { number }) {
            mask |= bit(number);
        }
    }
    mask
}

fn bit(number: u8) -> u16 {
    1u16.wrapping_shl(u32::from(number))
}

// A step between two states.
#[derive(Clone, Copy, Drop)]
struct Move {
    from: usize,
    to: usize,
}

// The room for passes over days.
#[derive(Drop)]
pub struct Sweep {
    // The number of steps.
    steps: u64,
    // For each place of a gain the steps that gain it, ascending by the state that they are from.
    moves: Vec<Vec<Move>>,
    // For each place of a gain and each state, where the step leads.
    ends: Vec<Option<usize>>,
    // What the words from each state to the end weigh at most, on one day and on the next.
    now: Vec<i64>,
    next: Vec<i64>,
    // What the symbols gain on the present day, and a day off behind a day off.
    gains: Vec<i64>,
    // By day and state: the place of what a heaviest word gains first. There is room for the first days alone.
    choices: Vec<u8>,
}

impl Sweep {
    // Room for passes, with the steps of heaviest words of at most `days` days.
    pub fn of(alloc: Global, automaton: &Automaton, days: u32) -> Result<Sweep, AllocError> {
        automaton.prove_facts();
        let states = automaton.states();
        let ends = ends_of(alloc, automaton)?;
        Ok(Sweep {
            steps: automaton.steps().len() as u64,
            moves: moves_of(alloc, &ends, states)?,
            ends,
            now: vec![in alloc; NEVER; states]?,
            next: vec![in alloc; NEVER; states]?,
            gains: vec![in alloc; NEVER; PLACES]?,
            choices: vec![in alloc; 0u8; states.saturating_mul(days as usize)]?,
        })
    }

    // What the heaviest word of `days` days weighs, by dynamic programming (R. Bellman, 1957). None where there is no
    // word.
    // Cost: a look at each step on each day on which its symbol is left.
    pub fn heaviest(&mut self, place: &Place, days: u32, weights: &[i64]) -> Option<i64> {
        self.next.fill(0);
        for i in 0..days {
            let day = days - 1 - i;
            self.set_gains(place, day, weights);
            self.weigh_day(day);
            mem::swap(&mut self.now, &mut self.next);
        }
        match self.next.first() {
            Some(weight) if *weight > NEVER / 2 => Some(*weight),
            _ => None,
        }
    }

    // What each symbol gains on a day: nothing that a word could make up for where the symbol isn't left.
    fn set_gains(&mut self, place: &Place, day: u32, weights: &[i64]) {
        let mask = place.mask(day);
        let start = place.day_start(day);
        for number in 0..MOST_SYMBOLS as u8 {
            let coordinate = start.wrapping_add(usize::from(number));
            let gain = if mask & bit(number) == 0 {
                NEVER
            } else {
                entry_or(weights, coordinate, 0)
            };
            put(&mut self.gains, usize::from(number), gain);
        }
        let reward = if place.ends_weekend(day) {
            entry_or(weights, place.shape.size(), 0)
        } else {
            0
        };
        let off_again = entry_or(&self.gains, 0, NEVER).wrapping_add(reward);
        put(&mut self.gains, OFF_AGAIN, off_again);
    }

    // One day of a pass. Of steps that gain as much the one whose place comes first is chosen.
    fn weigh_day(&mut self, day: u32) {
        let row = (day as usize).saturating_mul(self.now.len());
        self.now.fill(NEVER);
        let mut place: u8 = 0;
        for moves in self.moves.iter() {
            let gain = entry_or(&self.gains, usize::from(place), NEVER);
            if gain > NEVER / 2 {
                let choices = Choices {
                    all: &mut self.choices,
                    row,
                    place,
                };
                weigh_moves(moves, gain, &self.next, &mut self.now, choices);
            }
            place = place.wrapping_add(1);
        }
    }

    // How often each symbol is on each day of the week in the heaviest word, after a pass over no more days than there
    // is room for, and how many free weekends it has.
    pub fn counts(
        &self,
        alloc: Global,
        place: &Place,
        days: u32,
        size: usize,
    ) -> Result<Vec<i64>, AllocError> {
        let mut counts = vec![in alloc; 0i64; size]?;
        let mut state = 0;
        for day in 0..days {
            let gained = self.first_gain(day, state);
            let Some(to) = self.end_of(gained, state) else {
                break;
            };
            let is_off_again = gained == OFF_AGAIN;
            let symbol = if is_off_again { 0 } else { gained };
            add_one(&mut counts, place.day_start(day).wrapping_add(symbol));
            if is_off_again && place.ends_weekend(day) {
                add_one(&mut counts, place.shape.size());
            }
            state = to;
        }
        Ok(counts)
    }

    // The place of what a heaviest word from a state gains first on a day.
    fn first_gain(&self, day: u32, state: usize) -> usize {
        let row = (day as usize).saturating_mul(self.now.len());
        usize::from(entry_or(&self.choices, row.saturating_add(state), 0))
    }

    // Where the step from a state leads that gains what has this place.
    fn end_of(&self, place: usize, state: usize) -> Option<usize> {
        entry_or(&self.ends, place_of(place, state, self.now.len()), None)
    }

    // The number of steps in a pass over `days` days.
    pub fn looks(&self, days: u32) -> u64 {
        u64::from(days).saturating_mul(self.steps)
    }
}

// Where the first gains of heaviest words are written: in the row of a day, by the state.
#[derive(Drop)]
struct Choices<'a> {
    all: &'a mut [u8],
    row: usize,
    place: u8,
}

// Lets the heaviest words from each state begin with one of these steps, which gain as much, where they weigh more so.
fn weigh_moves(moves: &[Move], gain: i64, next: &[i64], now: &mut [i64], choices: Choices<'_>) {
    let Choices { all, row, place } = choices;
    for step in moves {
        let weight = entry_or(next, step.to, NEVER).wrapping_add(gain);
        let from = step.from;
        if weight > entry_or(now, from, NEVER) {
            put(now, from, weight);
            put(all, row.saturating_add(from), place);
        }
    }
}

// The place of a step in the list of all that are by place of their gain and by state.
fn place_of(place: usize, state: usize, states: usize) -> usize {
    place.saturating_mul(states).saturating_add(state)
}

// Where the step from each state leads, for each place of a gain.
fn ends_of(alloc: Global, automaton: &Automaton) -> Result<Vec<Option<usize>>, AllocError> {
    let mut ends = Vec::new(alloc);
    automaton.prove_facts();
    for place in 0..PLACES {
        for state in 0..automaton.states() {
            ends.push(end_of(automaton, place, state))?;
        }
    }
    Ok(ends)
}

// Where the step from a state leads that gains what has this place. A day off behind a day off has a place of its own.
fn end_of(automaton: &Automaton, place: usize, state: usize) -> Option<usize>
    requires place { place < PLACES }
    requires state { state < length automaton.now.moves }
{
    let is_off = place == 0 || place == OFF_AGAIN;
    if is_off && automaton.is_off(state) != (place == OFF_AGAIN) {
        return None;
    }
    let number = if is_off { 0 } else { place as u8 };
    automaton.follow(state, Symbol { number })
}

// The steps for each place of a gain.
fn moves_of(
    alloc: Global,
    ends: &[Option<usize>],
    states: usize,
) -> Result<Vec<Vec<Move>>, AllocError> {
    let mut all = Vec::new(alloc);
    for place in 0..PLACES {
        let mut moves = Vec::new(alloc);
        for from in 0..states {
            let number = place_of(place, from, states);
            if let Some(to) = entry_or(ends, number, None) {
                moves.push(Move { from, to })?;
            }
        }
        all.push(moves)?;
    }
    Ok(all)
}

fn add_one(counts: &mut [i64], coordinate: usize) {
    if let Some(count) = counts.get_mut(coordinate) {
        *count = count.wrapping_add(1);
    }
}

fn entry_or<T: Copy>(list: &[T], place: usize, other: T) -> T {
    match list.get(place) {
        Some(entry) => *entry,
        None => other,
    }
}

fn put<T: Copy + Drop>(list: &mut [T], place: usize, value: T) {
    if let Some(entry) = list.get_mut(place) {
        *entry = value;
    }
}
