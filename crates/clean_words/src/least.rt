// Rules on the least length of blocks: what watches words for them.
ghost use Rattle.std.specs.Prelude.{◌≡◌, ◌≤◌};
ghost use Rattle.rwsp_terms.specs.declared.limits.TheConstants.{GREATEST_BOUND};
ghost use Rattle.clean_words.specs.Blocks.{longer, least_stops, least_to};

use crate::class::is_in;
use rwsp_terms::{Class, Symbol};

// The state is the number of days of the class at the end of the word, behind a day outside. The least length stands
// for so many days or more, and for a block that the word begins with, which may have begun before the word.
pub fn least_stops(class: Class, least: u32, state: u32, x: Symbol) -> bool
    ensures { result ≡ least_stops class least state x }
{
    if is_in(class, x) {
        return false;
    }
    0 < state && state < least
}

pub fn least_to(class: Class, least: u32, state: u32, x: Symbol) -> u32
    requires few { least ≤ GREATEST_BOUND }
    requires state { state ≤ least }
    ensures value { result ≡ least_to class least state x }
    ensures inside { result ≤ least }
{
    if is_in(class, x) {
        longer(state, least)
    } else {
        0
    }
}

// One day more, counted up to the least length.
fn longer(state: u32, least: u32) -> u32
    requires few { least ≤ GREATEST_BOUND }
    requires state { state ≤ least }
    ensures value { result ≡ longer state least }
    ensures inside { result ≤ least }
{
    if state < least { state + 1 } else { state }
}
