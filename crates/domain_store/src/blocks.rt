// Leaves that count blocks: no number of blocks of a symbol has as many days as the demand asks for.
ghost use Rattle.std.specs.Prelude.{◌≡◌, ◌*◌, ◌<◌, ◌≤◌, ◌↔◌, IsTrue, MatchOption, pos, neg_ℤ, ◌≤ℤ◌};
ghost use Rattle.rwsp_terms.specs.Instance.{IsShift, IsSymbol, cells, off_symbol};
ghost use Rattle.rwsp_terms.specs.declared.limits.TheConstants.{GREATEST_BOUND, MOST_CELLS, MOST_DAYS, MOST_SHIFTS, MOST_WEEKS};
ghost use Rattle.refutation_terms.specs.BlocksLeaf.{BlocksHold, NoBlocksHold, OffBlocksFit, least_days, most_days, shortest};
ghost use Rattle.refutation_terms.specs.BlocksLeaf.{IsFirstBlocks};

use rwsp_model::Problem;
use rwsp_terms::{Bounds, Class, Symbol};

/// Whether no number of blocks of the symbol, up to one for each cell, has as many days as the demand asks for. For a
/// shift it costs a step for each day, for the day off also one for each cell. Takes no memory.
pub fn blocks_holds(problem: &Problem, x: Symbol) -> bool
    requires { IsSymbol problem.now x }
    ensures { IsTrue result ↔ BlocksHold problem.now x }
{
    if x == Symbol::OFF {
        off_blocks_hold(problem)
    } else {
        shift_blocks_hold(problem, x)
    }
}

/// The first symbol no number of whose blocks fits, the shifts in their order and then the day off.
pub fn first_blocks(problem: &Problem) -> Option<Symbol>
    ensures { MatchOption result (NoBlocksHold problem.now) (IsFirstBlocks problem.now) }
{
    for number in 1..problem.shifts() + 1 {
        if blocks_holds(problem, Symbol { number }) {
            return Some(Symbol { number });
        }
    }
    if blocks_holds(problem, Symbol::OFF) {
        Some(Symbol::OFF)
    } else {
        None
    }
}

// Whether no number of blocks of a shift fits. More blocks can have more days, so it is enough to try the most that there
// is room for.
fn shift_blocks_hold(problem: &Problem, x: Symbol) -> bool
    requires { IsShift problem.now x }
    ensures { IsTrue result ↔ BlocksHold problem.now x }
{
    let bounds = problem.bounds(Class::Shift(x));
    let room = most_days(problem, x) as u32;
    let blocks = (room / shortest(bounds)).min(problem.cells());
    days_of_blocks(blocks, bounds.greatest) < least_days(problem, x)
}

// Whether no number of blocks of the day off fits. Each number is tried, since more of them leave fewer days for work.
fn off_blocks_hold(problem: &Problem) -> bool
    ensures { IsTrue result ↔ BlocksHold problem.now off_symbol }
{
    let least = least_days(problem, Symbol::OFF);
    let most = most_days(problem, Symbol::OFF);
    for k in 0..problem.cells() + 1 {
        if off_blocks_fit(problem, least, most, k) {
            return false;
        }
    }
    true
}

// Whether this many blocks of days off, and as many blocks of work between them, can have as many days as the demand
// asks for.
fn off_blocks_fit(problem: &Problem, least: i64, most: i64, k: u32) -> bool
    requires least { least ≡ least_days problem.now 0 }
    requires most { most ≡ most_days problem.now 0 }
    requires blocks { k ≤ cells problem.now }
    ensures { IsTrue result ↔ OffBlocksFit problem.now k }
{
    let off = problem.bounds(Class::Off);
    let work = problem.bounds(Class::Work);
    let cells = i64::from(problem.cells());
    let low = least
        .max(days_of_blocks(k, shortest(off)))
        .max(cells - days_of_blocks(k, work.greatest));
    let high = most
        .min(days_of_blocks(k, off.greatest))
        .min(cells - days_of_blocks(k, shortest(work)));
    low <= high
}

// How many days so many blocks of this length have.
fn days_of_blocks(blocks: u32, length: u32) -> i64
    requires few { blocks ≤ MOST_CELLS }
    requires short { length ≤ GREATEST_BOUND }
    ensures value { result ≡ pos (blocks * length) }
    ensures few { result ≤ℤ pos (MOST_CELLS * GREATEST_BOUND) }
{
    i64::from(blocks * length)
}

// How many days a block has at least.
fn shortest(bounds: Bounds) -> u32
    requires { bounds.least ≤ GREATEST_BOUND }
    ensures value { result ≡ shortest bounds }
    ensures some { 1 ≤ result }
    ensures short { result ≤ GREATEST_BOUND }
{
    bounds.least.max(1)
}

// How many days a roster that meets the demand has the symbol at least.
fn least_days(problem: &Problem, x: Symbol) -> i64
    requires { IsSymbol problem.now x }
    ensures value { result ≡ least_days problem.now x.number }
    ensures some { pos 0 ≤ℤ result }
    ensures few { result ≤ℤ pos (MOST_DAYS * MOST_WEEKS) }
{
    let mut sum = 0;
    for i in 0..problem.days() {
        sum += i64::from(problem.demand_least(x, i + 1).max(0));
    }
    sum
}

// How many days it has the symbol at most. Of the day off that may be less than none.
fn most_days(problem: &Problem, x: Symbol) -> i64
    requires { IsSymbol problem.now x }
    ensures value { result ≡ most_days problem.now x.number }
    ensures above { neg_ℤ (pos (MOST_DAYS * (MOST_SHIFTS * MOST_WEEKS))) ≤ℤ result }
    ensures below { result ≤ℤ pos (MOST_DAYS * MOST_WEEKS) }
    ensures shift { 0 < x.number → pos 0 ≤ℤ result }
{
    let weeks = problem.weeks() as i32;
    let mut sum = 0;
    for i in 0..problem.days() {
        sum += i64::from(problem.demand_greatest(x, i + 1).min(weeks));
    }
    sum
}
