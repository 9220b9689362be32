// The table of the words along which two tables go.
ghost use Rattle.std.specs.Prelude.{◌≡◌, ◌+◌, ◌<◌, ◌≤◌, length, map, slice_index, IfOk, IfSome, OnOk};
ghost use Rattle.rwsp_terms.specs.Instance.{shift_count};
ghost use Rattle.rwsp_terms.specs.declared.limits.TheConstants.{MOST_SYMBOLS};
ghost use Rattle.clean_words.specs.Joint.{StandsAt, Extends, Judges, IsRow, AreStates, AreStarts, no_pair};
ghost use Rattle.clean_words.specs.Moves.{start_at};
ghost use Rattle.clean_words.specs.Tables.{IsTable, GoesWithBoth};

use crate::table::{Row, Table, move_at};
use rwsp_model::Problem;
use rwsp_terms::limits::MOST_SYMBOLS;
use std::alloc::{AllocError, Global};

// A state of the first table and one of the second.
#[derive(Clone, Copy, PartialEq, Eq)]
pub struct Both {
    pub first: usize,
    pub second: usize,
}

// The pairs of states that words were found to lead to, each a state, and the moves of the first of them.
#[derive(Drop)]
struct Joint {
    pairs: Vec<Both>,
    // The place of each pair in the list, or that of another: what is noted is looked at again there.
    places: Vec<usize>,
    width: usize,
    moves: Vec<Row>,
}

impl Joint {
    // No pairs yet.
    fn new(alloc: Global, first: &Table, second: &Table) -> Result<Joint, AllocError>
        ensures pairs { IfOk result (λ j. length j.pairs.items ≡ 0) }
        ensures moves { IfOk result (λ j. length j.moves.items ≡ 0) }
    {
        let width = second.moves.len();
        Ok(Joint {
            pairs: Vec::new(alloc),
            places: vec![in alloc; 0; first.moves.len().saturating_mul(width)]?,
            width,
            moves: Vec::new(alloc),
        })
    }

    // Where the state of a pair is noted.
    fn place_of(&self, pair: Both) -> usize {
        pair.first
            .wrapping_mul(self.width)
            .wrapping_add(pair.second)
    }

    // The state of the pair, if it has one.
    fn found(&self, pair: Both) -> Option<usize>
        ensures { IfSome result (λ state. StandsAt self.now.pairs.items state pair) }
    {
        let state = *self.places.get(self.place_of(pair))?;
        if state >= self.pairs.len() {
            return None;
        }
        if self.pairs[state] == pair {
            Some(state)
        } else {
            None
        }
    }

    // A state for a pair that has none.
    fn new_state(&mut self, pair: Both) -> Result<usize, AllocError>
        ensures grows { OnOk result (Extends self.old.pairs.items self.new.pairs.items) }
        ensures moves { OnOk result (self.new.moves.items ≡ self.old.moves.items) }
        ensures state { IfOk result (λ state. StandsAt self.new.pairs.items state pair) }
        ensures first { IfOk result (λ state. length self.old.pairs.items ≡ 0 → state ≡ 0) }
    {
        let state = self.pairs.len();
        let place = self.place_of(pair);
        self.pairs.push(pair)?;
        if place < self.places.len() {
            self.places[place] = state;
        }
        Ok(state)
    }

    // The state of the pair, which is made where none is found.
    fn state_of(&mut self, pair: Both) -> Result<usize, AllocError>
        ensures grows { OnOk result (Extends self.old.pairs.items self.new.pairs.items) }
        ensures moves { OnOk result (self.new.moves.items ≡ self.old.moves.items) }
        ensures state { IfOk result (λ state. StandsAt self.new.pairs.items state pair) }
        ensures first { IfOk result (λ state. length self.old.pairs.items ≡ 0 → state ≡ 0) }
    {
        match self.found(pair) {
            Some(state) => Ok(state),
            None => self.new_state(pair),
        }
    }

    // The state behind a pair by the symbol of a number; none where one of the tables doesn't go on.
    fn move_by(
        &mut self,
        first: &Table,
        second: &Table,
        pair: Both,
        number: u8,
    ) -> Result<Option<usize>, AllocError>
        ensures grows { OnOk result (Extends self.old.pairs.items self.new.pairs.items) }
        ensures moves { OnOk result (self.new.moves.items ≡ self.old.moves.items) }
        ensures judges { IfOk result (Judges first.now second.now self.new.pairs.items pair number) }
    {
        let Some(a) = move_at(&first.moves, pair.first, number) else {
            return Ok(None);
        };
        let Some(b) = move_at(&second.moves, pair.second, number) else {
            return Ok(None);
        };
        let next = Both {
            first: a,
            second: b,
        };
        Ok(Some(self.state_of(next)?))
    }

    // The moves of a pair by the first symbols.
    fn row_of(
        &mut self,
        first: &Table,
        second: &Table,
        pair: Both,
        symbols: u8,
    ) -> Result<Row, AllocError>
        requires symbols { symbols ≤ MOST_SYMBOLS }
        ensures grows { OnOk result (Extends self.old.pairs.items self.new.pairs.items) }
        ensures moves { OnOk result (self.new.moves.items ≡ self.old.moves.items) }
        ensures row { IfOk result (IsRow first.now second.now self.new.pairs.items pair symbols) }
    {
        let mut row = [None; MOST_SYMBOLS as usize];
        for number in 0..symbols {
            row[number as usize] = self.move_by(first, second, pair, number)?;
        }
        Ok(row)
    }

    // Puts the moves of the first state that has none yet.
    fn put_moves(&mut self, first: &Table, second: &Table, symbols: u8) -> Result<(), AllocError>
        requires symbols { symbols ≤ MOST_SYMBOLS }
        requires states { AreStates first.now second.now symbols self.old.pairs.items self.old.moves.items }
        requires next { length self.old.moves.items < length self.old.pairs.items }
        ensures states { OnOk result
            (AreStates first.now second.now symbols self.new.pairs.items self.new.moves.items) }
        ensures grows { OnOk result (Extends self.old.pairs.items self.new.pairs.items) }
        ensures next { OnOk result (length self.new.moves.items ≡ length self.old.moves.items + 1) }
    {
        let pair = self.pairs[self.moves.len()];
        let row = self.row_of(first, second, pair, symbols)?;
        self.moves.push(row)?;
        Ok(())
    }

    // The moves of all states, breadth first.
    fn put_all_moves(
        &mut self,
        first: &Table,
        second: &Table,
        symbols: u8,
    ) -> Result<(), AllocError>
        requires symbols { symbols ≤ MOST_SYMBOLS }
        requires states { AreStates first.now second.now symbols self.old.pairs.items self.old.moves.items }
        ensures states { OnOk result
            (AreStates first.now second.now symbols self.new.pairs.items self.new.moves.items) }
        ensures grows { OnOk result (Extends self.old.pairs.items self.new.pairs.items) }
        ensures all { OnOk result (length self.new.moves.items ≡ length self.new.pairs.items) }
    {
        while self.moves.len() < self.pairs.len() {
            self.put_moves(first, second, symbols)?;
        }
        Ok(())
    }

    // The states where words begin, for each day of the week.
    fn starts(
        &mut self,
        alloc: Global,
        first: &Table,
        second: &Table,
    ) -> Result<Vec<usize>, AllocError>
        requires few { length self.old.pairs.items ≡ 0 }
        requires long { length second.now.starts.items ≡ length first.now.starts.items }
        ensures moves { OnOk result (self.new.moves.items ≡ self.old.moves.items) }
        ensures starts { IfOk result (λ starts. AreStarts first.now second.now self.new.pairs.items starts.items) }
    {
        let mut starts = Vec::new(alloc);
        for day in 0..first.starts.len() {
            let pair = Both {
                first: first.starts[day],
                second: second.starts[day],
            };
            starts.push(self.state_of(pair)?)?;
        }
        Ok(starts)
    }
}

// What each pair tells: what its first state tells.
fn told_of(alloc: Global, first: &Table, pairs: &[Both]) -> Result<Vec<usize>, AllocError>
    ensures { IfOk result (λ told. told.items
        ≡ map (λ b. slice_index first.now.told.items b.first) pairs.now) }
{
    let mut told = Vec::new(alloc);
    for pair in pairs {
        told.push(told_at(&first.told, pair.first))?;
    }
    Ok(told)
}

// What a state tells.
fn told_at(told: &[usize], state: usize) -> usize
    ensures { result ≡ slice_index told.now state }
{
    match told.get(state) {
        Some(label) => *label,
        None => 0,
    }
}

/// The table that goes along the words along which both tables go, and tells what the first tells (the product of two
/// automata, by the states that words lead to). Costs a step for each of its states and each symbol.
pub fn joined(
    alloc: Global,
    problem: &Problem,
    first: &Table,
    second: &Table,
) -> Result<Table, AllocError>
    requires first { IsTable problem.now first.now }
    requires second { IsTable problem.now second.now }
    ensures table { IfOk result (IsTable problem.now) }
    ensures first { IfOk result (λ t. start_at t.starts.items 0 ≡ 0) }
    ensures both { IfOk result (GoesWithBoth first.now second.now) }
{
    problem.prove_limits();
    let mut joint = Joint::new(alloc, first, second)?;
    let starts = joint.starts(alloc, first, second)?;
    joint.put_all_moves(first, second, problem.shifts() + 1)?;
    let told = told_of(alloc, first, &joint.pairs)?;
    Ok(Table {
        starts,
        moves: joint.moves,
        told,
    })
}
