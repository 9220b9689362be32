// How counters change with a domain.
ghost use Rattle.std.specs.Prelude.{◌≡◌, ℕ, ◌+◌, ◌<◌, ◌≤◌, false, length, slice_index, slice_index_or};
ghost use Rattle.propagators.specs.Tallies.{is_held, is_alone, TestsOf, IsRecounted, one_if};

use domain_store::SymbolSet;
use rwsp_terms::limits::{MOST_SYMBOLS, MOST_WEEKS};

// For each symbol below `MOST_SYMBOLS`, whether the set has it.
pub fn held(set: &SymbolSet) -> [bool; MOST_SYMBOLS as usize]
    ensures { TestsOf is_held set.now result }
{
    let mut flags = [false; MOST_SYMBOLS as usize];
    for x in 0..MOST_SYMBOLS as u8 {
        flags[x as usize] = set.has(x);
    }
    flags
}

// For each symbol below `MOST_SYMBOLS`, whether the set has it and no other.
pub fn alone(set: &SymbolSet, last: u8) -> [bool; MOST_SYMBOLS as usize]
    requires { last < MOST_SYMBOLS }
    ensures { TestsOf (is_alone last) set.now result }
{
    let mut flags = [false; MOST_SYMBOLS as usize];
    for x in 0..MOST_SYMBOLS as u8 {
        flags[x as usize] = is_alone(set, x, last);
    }
    flags
}

fn is_alone(set: &SymbolSet, x: u8, last: u8) -> bool
    requires { last < MOST_SYMBOLS }
    ensures { result ≡ is_alone last x set.now }
{
    for z in 0..last + 1 {
        if z != x && set.has(z) {
            return false;
        }
    }
    set.has(x)
}

// The counters of a day, from a place on, count what is, in place of what was.
pub fn recount(
    counters: &mut [u32],
    row: usize,
    were: &[bool; MOST_SYMBOLS as usize],
    are: &[bool; MOST_SYMBOLS as usize],
)
    requires within { row + MOST_SYMBOLS ≤ length counters.old }
    requires small { (x : ℕ) → x < MOST_SYMBOLS → slice_index counters.old (row + x) ≤ MOST_WEEKS }
    requires counted { (x : ℕ) → x < MOST_SYMBOLS
        → one_if (slice_index_or were.now x false) ≤ slice_index counters.old (row + x) }
    ensures { IsRecounted row were.now are.now counters.old counters.new }
{
    for x in 0..MOST_SYMBOLS as usize {
        counters[row + x] = recounted(counters[row + x], were[x], are[x]);
    }
}

fn recounted(count: u32, was: bool, is: bool) -> u32
    requires small { count ≤ MOST_WEEKS }
    requires counted { one_if was ≤ count }
    ensures { result + one_if was ≡ count + one_if is }
{
    count + is as u32 - was as u32
}
