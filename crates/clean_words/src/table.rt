// An automaton as a table.
ghost use Rattle.std.specs.Prelude.{◌≡◌};
ghost use Rattle.clean_words.specs.Moves.{move_at};

use rwsp_terms::limits::MOST_SYMBOLS;

// Where a state's words lead, by the number of the symbol; None where no word goes on with it.
pub type Row = [Option<usize>; MOST_SYMBOLS as usize];

// The states where words begin, the moves of all states, and what each state tells of the words that lead to it.
#[derive(Drop)]
pub struct Table {
    // For each day of the week the state of the words that begin there.
    pub starts: Vec<usize>,
    pub moves: Vec<Row>,
    pub told: Vec<usize>,
}

// Where the symbol of a number leads from a state.
pub fn move_at(moves: &[Row], state: usize, number: u8) -> Option<usize>
    ensures { result ≡ move_at moves.now state number }
{
    if state >= moves.len() {
        return None;
    }
    if u32::from(number) < MOST_SYMBOLS {
        moves[state][number as usize]
    } else {
        None
    }
}
