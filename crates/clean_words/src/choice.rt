// What is chosen at a state.
ghost use Rattle.std.specs.Prelude.{◌≡◌, ◌*◌, ◌-◌, ◌+◌, ◌<◌, ◌≤◌, length};
ghost use Rattle.rwsp_terms.specs.declared.limits.TheConstants.{GREATEST_REWARD, GREATEST_WEIGHT, LONGEST_WORD, MOST_SYMBOLS};
ghost use Rattle.clean_words.specs.Moves.{move_at};
ghost use Rattle.clean_words.specs.Rows.{AreWithin, IsWithin, gain_at};
ghost use Rattle.clean_words.specs.Choices.{IsChosen, choice_by, choice_with, preferred};

use crate::Automaton;
use crate::row::Row;
use rwsp_terms::Symbol;

/// A symbol, the state where it leads, and the greatest gain of the words that begin with it.
#[derive(Clone, Copy)]
pub struct Choice {
    pub weight: i32,
    pub symbol: Symbol,
    pub to: usize,
}

/// The choice of the greatest gain at a state, and among these that of the lowest symbol; None where no word leads to
/// the end. `gains` has what each symbol gains, None where the domain hasn't the symbol, and `next` what is gained from
/// the next day on. Its time grows with the symbols.
pub fn choose(
    automaton: &Automaton,
    state: usize,
    gains: &[Option<i32>],
    next: &Row,
) -> Option<Choice>
    requires state { state < length automaton.now.moves }
    requires few { length gains.now ≤ MOST_SYMBOLS }
    requires gains { AreWithin (GREATEST_WEIGHT + GREATEST_REWARD) gains.now }
    requires next { AreWithin ((GREATEST_WEIGHT + GREATEST_REWARD) * (LONGEST_WORD - 1)) next.now }
    ensures { IsChosen (choice_by gains.now automaton.now.moves state next.now) (length gains.now) result }
{
    let mut best = None;
    for i in 0..gains.len() {
        let choice = choice_by(automaton, state, i as u8, gains[i], next);
        best = preferred(best, choice);
    }
    best
}

// The choice of the symbol of a number, which gains this much.
fn choice_by(
    automaton: &Automaton,
    state: usize,
    number: u8,
    gain: Option<i32>,
    next: &Row,
) -> Option<Choice>
    requires state { state < length automaton.now.moves }
    requires symbol { number < MOST_SYMBOLS }
    requires gain { IsWithin (GREATEST_WEIGHT + GREATEST_REWARD) gain }
    requires next { AreWithin ((GREATEST_WEIGHT + GREATEST_REWARD) * (LONGEST_WORD - 1)) next.now }
    ensures { result ≡ choice_with number gain (move_at automaton.now.moves state number) next.now }
{
    let gained = gain?;
    let symbol = Symbol { number };
    let to = automaton.follow(state, symbol)?;
    let after = next.at(to)?;
    Some(Choice {
        weight: gained + after,
        symbol,
        to,
    })
}

// The later choice only where it gains more.
fn preferred(earlier: Option<Choice>, later: Option<Choice>) -> Option<Choice>
    ensures { result ≡ preferred earlier later }
{
    match (earlier, later) {
        (Some(a), Some(b)) => Some(if a.weight < b.weight { b } else { a }),
        (Some(a), None) => Some(a),
        (None, _) => later,
    }
}
