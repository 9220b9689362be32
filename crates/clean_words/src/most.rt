// Rules on the greatest length of blocks: what watches words for them.
ghost use Rattle.std.specs.Prelude.{◌≡◌, ◌≤◌};
ghost use Rattle.rwsp_terms.specs.declared.limits.TheConstants.{GREATEST_BOUND};
ghost use Rattle.clean_words.specs.Blocks.{most_stops, most_to};

use crate::class::is_in;
use rwsp_terms::{Class, Symbol};

// The state is the number of days of the class at the end of the word. One day too many stops it.
pub fn most_stops(class: Class, greatest: u32, state: u32, x: Symbol) -> bool
    ensures { result ≡ most_stops class greatest state x }
{
    is_in(class, x) && greatest <= state
}

pub fn most_to(class: Class, state: u32, x: Symbol) -> u32
    requires { state ≤ GREATEST_BOUND }
    ensures { result ≡ most_to class state x }
{
    if is_in(class, x) { state + 1 } else { 0 }
}
