// Rules against sequences: what watches words for them.
ghost use Rattle.std.specs.Prelude.{◌≡◌, ◌<◌};
ghost use Rattle.clean_words.specs.Sequences.{is_on_day, has_one, has_two, stops_by, never_to};
ghost use Rattle.clean_words.specs.declared.never.TheConstants.{STATES};

use rwsp_terms::{Sequence, Symbol};

// The states: whether the word ends with the first symbol of the sequence, and whether with the first two, each on its
// day of the week.
pub const STATES: u32 = 4;

// Whether the sequence may begin on the day, counted from 0.
pub fn is_on_day(day: Option<u32>, days: u32, at: u32) -> bool
    requires { 0 < days }
    ensures { result ≡ is_on_day day days at }
{
    match day {
        Some(day) => at % days + 1 == day,
        None => true,
    }
}

fn has_one(state: u32) -> bool
    ensures { result ≡ has_one state }
{
    state % 2 == 1
}

fn has_two(state: u32) -> bool
    ensures { result ≡ has_two state }
{
    state > 1
}

// Whether the symbol is the last of a sequence, of whose first symbols these are there.
fn stops_by(third: Option<Symbol>, second: Symbol, one: bool, two: bool, x: Symbol) -> bool
    ensures { result ≡ stops_by third second one two x }
{
    match third {
        Some(third) => two && x.number == third.number,
        None => one && x.number == second.number,
    }
}

// Whether the symbol is the last of the sequence.
pub fn never_stops(sequence: Sequence, state: u32, x: Symbol) -> bool
    ensures { result ≡ stops_by sequence.third sequence.second (has_one state) (has_two state) x }
{
    stops_by(
        sequence.third,
        sequence.second,
        has_one(state),
        has_two(state),
        x,
    )
}

// Where the symbol leads. `here` says whether the sequence may begin on its day.
pub fn never_to(sequence: Sequence, here: bool, state: u32, x: Symbol) -> u32
    ensures value { result ≡ never_to sequence here state x }
    ensures inside { result < STATES }
{
    let begins = if here && x.number == sequence.first.number {
        1
    } else {
        0
    };
    let goes_on = if has_one(state) && x.number == sequence.second.number {
        2
    } else {
        0
    };
    begins + goes_on
}
