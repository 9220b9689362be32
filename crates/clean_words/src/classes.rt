// Classes of states that no continuation tells apart.
use crate::image::class_of;
use crate::table::{Row, Table};
use std::alloc::{AllocError, Global};
use std::collections::HashMap;

// The multiplier of a hash of words. It is odd, so that no two numbers have the same product in 64 bits.
const MULTIPLIER: u64 = 0x517c_c1b7_2722_0a95;

// Classes of states, and how many there are.
#[derive(Drop)]
struct Classes {
    of_state: Vec<usize>,
    count: usize,
}

// A number for a state's class and the classes that its moves lead to. Where these differ the numbers differ too, but
// for rare ones: then states are joined that differ, which is seen when the table of the classes is compared.
fn fingerprint(class: usize, row: &Row, classes: &[usize]) -> u64 {
    let mut print = class as u64;
    for to in row {
        let next = match to {
            Some(state) => (class_of(classes, *state) as u64).wrapping_add(1),
            None => 0,
        };
        print = (print.rotate_left(5) ^ next).wrapping_mul(MULTIPLIER);
    }
    print
}

// The states of one class that have moves by the same symbols to the same classes stay together. Classes are numbered
// in the order of their first states. Costs a look-up for each state.
fn refined(alloc: Global, moves: &[Row], classes: &[usize]) -> Result<Classes, AllocError> {
    let mut numbers = HashMap::new(alloc);
    let mut of_state = Vec::new(alloc);
    for (row, class) in moves.iter().zip(classes) {
        let next = numbers.len();
        let print = fingerprint(*class, row, classes);
        of_state.push(*numbers.entry(print)?.or_insert(next))?;
    }
    Ok(Classes {
        of_state,
        count: numbers.len(),
    })
}

// The class of each state: states are in one class where they tell the same, and so do those that they lead to by any
// word (E. Moore, 1956). Classes are refined until their number stays, which takes as many rounds as the longest word
// that is needed to tell two states apart has symbols.
pub fn classes_of(alloc: Global, table: &Table) -> Result<Vec<usize>, AllocError> {
    let mut classes = Classes {
        of_state: Vec::from_slice(alloc, &table.told)?,
        count: 0,
    };
    for _ in 0..table.moves.len() {
        let finer = refined(alloc, &table.moves, &classes.of_state)?;
        let is_stable = finer.count == classes.count;
        classes = finer;
        if is_stable {
            break;
        }
    }
    Ok(classes.of_state)
}
