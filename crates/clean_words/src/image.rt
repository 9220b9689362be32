// A table with a state for each class of another's states.
ghost use Rattle.std.specs.Prelude.{◌≡◌, ℕ, ◌<◌, List, length, map, slice_index, IfOk, IsTrue};
ghost use Rattle.std.specs.Option.{option_map};
ghost use Rattle.clean_words.specs.Tables.{IsReader, IsKept, HasStates};

use crate::table::{Row, Table};
use rwsp_model::Problem;
use rwsp_terms::RuleList;
use rwsp_terms::limits::MOST_SYMBOLS;
use std::alloc::{AllocError, Global};

// The class of a state.
pub fn class_of(classes: &[usize], state: usize) -> usize
    ensures { result ≡ slice_index classes.now state }
{
    match classes.get(state) {
        Some(class) => *class,
        None => 0,
    }
}

// The class of the state where a move leads.
fn class_to(classes: &[usize], to: Option<usize>) -> Option<usize>
    ensures { result ≡ option_map (slice_index classes.now) to }
{
    match to {
        Some(state) => Some(class_of(classes, state)),
        None => None,
    }
}

// The moves to classes in place of those to states.
fn image_of(classes: &[usize], row: &Row) -> Row
    ensures { result ≡ map (option_map (slice_index classes.now)) row.now }
{
    let mut image = [None; MOST_SYMBOLS as usize];
    for number in 0..image.len() {
        image[number] = class_to(classes, row[number]);
    }
    image
}

// The classes of some states.
fn classes_at(alloc: Global, states: &[usize], classes: &[usize]) -> Result<Vec<usize>, AllocError>
    ensures { IfOk result (λ found. found.items ≡ map (slice_index classes.now) states.now) }
{
    let mut found = Vec::new(alloc);
    for state in states {
        found.push(class_of(classes, *state))?;
    }
    Ok(found)
}

// The table of the classes, each with the moves of its first state. Classes are numbered in the order of these.
fn quotient(alloc: Global, table: &Table, classes: &[usize]) -> Result<Table, AllocError>
    requires long { length table.now.told.items ≡ length table.now.moves.items }
    ensures starts { IfOk result (λ t. t.starts.items ≡ map (slice_index classes.now) table.now.starts.items) }
    ensures long { IfOk result (λ t. length t.told.items ≡ length t.moves.items) }
    ensures states { IfOk result
        (λ t. HasStates classes.now (length table.now.moves.items) (length t.moves.items)) }
{
    let mut moves = Vec::new(alloc);
    let mut told = Vec::new(alloc);
    for state in 0..table.moves.len() {
        if class_of(classes, state) == moves.len() {
            moves.push(image_of(classes, &table.moves[state]))?;
            told.push(table.told[state])?;
        }
    }
    let starts = classes_at(alloc, &table.starts, classes)?;
    Ok(Table {
        starts,
        moves,
        told,
    })
}

// Whether the class tells what the state tells, and has moves by the same symbols, to the classes of the states where
// the state's moves lead.
fn is_kept(table: &Table, small: &Table, classes: &[usize], state: usize) -> bool
    requires state { state < length table.now.moves.items }
    requires long { length table.now.told.items ≡ length table.now.moves.items }
    requires small_long { length small.now.told.items ≡ length small.now.moves.items }
    ensures { IsTrue result → IsKept table.now small.now classes.now state }
{
    let class = class_of(classes, state);
    if class >= small.moves.len() || small.told[class] != table.told[state] {
        return false;
    }
    small.moves[class] == image_of(classes, &table.moves[state])
}

// Whether each class is as its states are.
fn are_kept(table: &Table, small: &Table, classes: &[usize]) -> bool
    requires long { length table.now.told.items ≡ length table.now.moves.items }
    requires small_long { length small.now.told.items ≡ length small.now.moves.items }
    ensures { IsTrue result → (k : ℕ) → k < length table.now.moves.items
        → IsKept table.now small.now classes.now k }
{
    for state in 0..table.moves.len() {
        if !is_kept(table, small, classes, state) {
            return false;
        }
    }
    true
}

// The table of the classes; the table itself where they aren't classes of states that continue together.
pub fn merged(
    alloc: Global,
    problem: &Problem,
    rules: &RuleList,
    table: Table,
    classes: &[usize],
) -> Result<Table, AllocError>
    requires { IsReader problem.now rules.now table }
    ensures { IfOk result (IsReader problem.now rules.now) }
{
    problem.prove_limits();
    let _ = rules;
    let small = quotient(alloc, &table, classes)?;
    if class_of(classes, 0) == 0 && are_kept(&table, &small, classes) {
        Ok(small)
    } else {
        Ok(table)
    }
}
