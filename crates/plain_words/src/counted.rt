// What counting days alone says against a roster.
#![tactic(auto, unfolding(crate::specs::Counting::misfit_words, crate::specs::Counting::no_block_words, crate::specs::Counting::made_words, crate::specs::Counting::rounds_words, crate::specs::Counting::unlike_words, crate::specs::Counting::turns_words, crate::specs::Counting::off_misfit_words, crate::specs::Counting::counted_words), using(crate::proofs::Joined::sum_more))]

ghost use Rattle.std.specs.Prelude.{◌≡◌, ◌+◌, ◌*◌, ◌<◌, ◌≤◌, ◌++◌, nat_lt, OnOk};
ghost use Rattle.rwsp_terms.specs.Instance.{cells, IsClass, IsDay, IsSymbol};
ghost use Rattle.rwsp_terms.specs.declared.data.Class.TheVariants.{Off, Work};
ghost use Rattle.plain_words.specs.Counting.{is_misfit, lengths, asked_on, IsAsked, days_asked, days_of, rounds, room_for, are_few, all_days, misfit_words, no_block_words, blocks_for, made_words, rounds_words, unlike_words, turns_words, off_misfit_words, counted_words};

use crate::filled::put_filled;
use crate::part::Part::{BlockRange, BlocksHave, DayRange, Days, Number, OfClass, RoundsHave};
use crate::pieces::{
    COMMA, DEMAND_LEAVES, DEMAND_NEEDS, Done, FIXED_ROUNDS, MADE, MISFIT, NO_BLOCK, ROUNDS, UNLIKE,
    put,
};
use crate::rule_words::least_of_day;
use domain_store::blocks_holds;
use rwsp_model::Problem;
use rwsp_terms::limits::{GREATEST_BOUND, MOST_DAYS, MOST_SYMBOLS, MOST_WEEKS};
use rwsp_terms::{Bounds, Class, Symbol};

/// What is counted of the demand: of a shift by its number at least or at most, or of days off or of work at least.
#[derive(Clone, Copy)]
pub enum Asked {
    Least(u8),
    Most(u8),
    Free,
    Needed,
}

/// The most days that a demand asks for.
pub const MOST_ASKED: u32 = MOST_DAYS * MOST_WEEKS * MOST_SYMBOLS;

/// Whether no number of blocks of the symbol has as many days as the demand asks for.
pub fn is_misfit(problem: &Problem, x: Symbol) -> bool
    requires { IsSymbol problem.now x }
    ensures { result ≡ is_misfit problem.now x }
{
    blocks_holds(problem, x)
}

// What is counted on a day.
fn asked_on(problem: &Problem, what: Asked, day: u32) -> u32
    requires what { IsAsked problem.now what }
    requires day { IsDay problem.now day }
    ensures value { result ≡ asked_on problem.now what day }
    ensures few { result ≤ MOST_WEEKS * MOST_SYMBOLS }
{
    match what {
        Asked::Least(number) => problem.demand(Symbol { number }, day).least,
        Asked::Most(number) => {
            let demand = problem.demand(Symbol { number }, day);
            demand.greatest.min(problem.weeks())
        }
        Asked::Free => problem.demand_least(Symbol::OFF, day).max(0) as u32,
        Asked::Needed => least_of_day(problem, day),
    }
}

// What is counted on all days of the cycle.
fn days_asked(problem: &Problem, what: Asked) -> u32
    requires { IsAsked problem.now what }
    ensures value { result ≡ days_asked problem.now what }
    ensures few { result ≤ MOST_ASKED }
{
    let mut sum = 0;
    for i in 0..problem.days() {
        sum += asked_on(problem, what, i + 1);
    }
    sum
}

// How many days a roster has of a class.
fn days_of(problem: &Problem, class: Class) -> Bounds
    requires { IsClass problem.now class }
    ensures value { result ≡ days_of problem.now class }
    ensures few { (result.least ≤ MOST_ASKED) × (result.greatest ≤ MOST_ASKED) }
{
    let cells = problem.cells();
    match class {
        Class::Shift(shift) => Bounds {
            least: days_asked(problem, Asked::Least(shift.number)),
            greatest: days_asked(problem, Asked::Most(shift.number)),
        },
        Class::Off => Bounds {
            least: days_asked(problem, Asked::Free),
            greatest: cells.saturating_sub(days_asked(problem, Asked::Needed)),
        },
        Class::Work => Bounds {
            least: days_asked(problem, Asked::Needed),
            greatest: cells.saturating_sub(days_asked(problem, Asked::Free)),
        },
    }
}

// All days of the cycle.
fn all_days(problem: &Problem) -> Bounds
    ensures value { result ≡ all_days problem.now }
    ensures few { (result.least ≤ MOST_ASKED) × (result.greatest ≤ MOST_ASKED) }
{
    let cells = problem.cells();
    Bounds {
        least: cells,
        greatest: cells,
    }
}

// The lengths of the blocks of a class, of at least one day.
fn lengths_of(problem: &Problem, class: Class) -> Bounds
    requires { IsClass problem.now class }
    ensures value { result ≡ lengths problem.now class }
    ensures some { 1 ≤ result.least }
    ensures short { (result.least ≤ GREATEST_BOUND) × (result.greatest ≤ GREATEST_BOUND) }
{
    let bounds = problem.bounds(class);
    Bounds {
        least: bounds.least.max(1),
        greatest: bounds.greatest,
    }
}

// The lengths of a block of days off and one of work together.
fn rounds(problem: &Problem) -> Bounds
    ensures value { result ≡ rounds problem.now }
    ensures some { 1 ≤ result.least }
    ensures short { (result.least ≤ 2 * GREATEST_BOUND) × (result.greatest ≤ 2 * GREATEST_BOUND) }
{
    let off = lengths_of(problem, Class::Off);
    let work = lengths_of(problem, Class::Work);
    Bounds {
        least: off.least + work.least,
        greatest: off.greatest + work.greatest,
    }
}

// For how many blocks of the shortest length there is room in so many days.
fn room_for(lengths: Bounds, days: u32) -> u32
    requires { 1 ≤ lengths.least }
    ensures value { result ≡ room_for lengths days }
    ensures few { result ≤ days }
{
    days / lengths.least
}

// Whether as many blocks as there is room for have fewer days than the least.
fn are_few(lengths: Bounds, days: Bounds) -> bool
    requires some { 1 ≤ lengths.least }
    requires short { lengths.greatest ≤ 2 * GREATEST_BOUND }
    requires few { days.greatest ≤ MOST_ASKED }
    ensures { result ≡ are_few lengths days }
{
    room_for(lengths, days.greatest) * lengths.greatest < days.least
}

// How many blocks of these lengths, of at least one day each, make so many days.
fn blocks_for(lengths: Bounds, days: Bounds) -> Bounds
    requires some { 1 ≤ lengths.least }
    requires long { 1 ≤ lengths.greatest }
    requires short { lengths.greatest ≤ 2 * GREATEST_BOUND }
    requires few { days.least ≤ MOST_ASKED }
    ensures { result ≡ blocks_for lengths days }
{
    Bounds {
        least: (days.least + (lengths.greatest - 1)) / lengths.greatest,
        greatest: room_for(lengths, days.greatest),
    }
}

// Appends that so many days of a class can't be made of its blocks.
fn put_misfit(out: &mut Vec<u8>, problem: &Problem, class: Class) -> Done
    requires { IsClass problem.now class }
    ensures { OnOk result (out.new.items ≡ out.old.items ++ misfit_words problem.now class) }
{
    let days = days_of(problem, class);
    let lengths = lengths_of(problem, class);
    let room = room_for(lengths, days.greatest);
    let parts = [
        DayRange(days),
        OfClass(class),
        DayRange(lengths),
        BlocksHave(room),
        Days(room * lengths.greatest),
        Number(room + 1),
        Number((room + 1) * lengths.least),
    ];
    put_filled(out, problem, MISFIT, &parts)
}

// Appends that no block of a class has such a length.
fn put_no_block(out: &mut Vec<u8>, problem: &Problem, class: Class) -> Done
    requires { IsClass problem.now class }
    ensures { OnOk result (out.new.items ≡ out.old.items ++ no_block_words problem.now class) }
{
    let parts = [DayRange(lengths_of(problem, class)), OfClass(class)];
    put_filled(out, problem, NO_BLOCK, &parts)
}

// Appends how many blocks of a class so many of its days make.
fn put_made(out: &mut Vec<u8>, problem: &Problem, class: Class) -> Done
    requires class { IsClass problem.now class }
    requires long { 1 ≤ (lengths problem.now class).greatest }
    ensures { OnOk result (out.new.items ≡ out.old.items ++ made_words problem.now class) }
{
    let days = days_of(problem, class);
    let lengths = lengths_of(problem, class);
    let blocks = BlockRange(blocks_for(lengths, days));
    let parts = [DayRange(days), OfClass(class), blocks, DayRange(lengths)];
    put_filled(out, problem, MADE, &parts)
}

// Appends how many days blocks of days off and of work take together, where there is room for so many.
fn put_rounds(out: &mut Vec<u8>, problem: &Problem, rounds: Bounds, room: u32, days: u32) -> Done
    requires few { room ≤ MOST_ASKED }
    requires short { (rounds.least ≤ 2 * GREATEST_BOUND) × (rounds.greatest ≤ 2 * GREATEST_BOUND) }
    ensures { OnOk result (out.new.items ≡ out.old.items ++ rounds_words problem.now rounds room days) }
{
    if rounds.least == rounds.greatest {
        let parts = [Number(rounds.least), Number(days)];
        return put_filled(out, problem, FIXED_ROUNDS, &parts);
    }
    let parts = [
        RoundsHave(room),
        Days(room * rounds.greatest),
        Number(room + 1),
        Number((room + 1) * rounds.least),
        Number(days),
    ];
    put_filled(out, problem, ROUNDS, &parts)
}

// Appends that days off, days of work and all days make different numbers of blocks.
fn put_unlike(out: &mut Vec<u8>, problem: &Problem) -> Done
    requires off { 1 ≤ (lengths problem.now Off).greatest }
    requires work { 1 ≤ (lengths problem.now Work).greatest }
    ensures { OnOk result (out.new.items ≡ out.old.items ++ unlike_words problem.now) }
{
    put_made(out, problem, Class::Off)?;
    put(out, COMMA)?;
    put_made(out, problem, Class::Work)?;
    let blocks = blocks_for(rounds(problem), all_days(problem));
    let parts = [Days(problem.cells()), BlockRange(blocks)];
    put_filled(out, problem, UNLIKE, &parts)
}

// Appends which numbers of blocks do not agree.
fn put_turns(out: &mut Vec<u8>, problem: &Problem) -> Done
    requires off { 1 ≤ (lengths problem.now Off).greatest }
    requires work { 1 ≤ (lengths problem.now Work).greatest }
    ensures { OnOk result (out.new.items ≡ out.old.items ++ turns_words problem.now) }
{
    if are_few(rounds(problem), all_days(problem)) {
        let rounds = rounds(problem);
        let cells = problem.cells();
        put_rounds(out, problem, rounds, room_for(rounds, cells), cells)
    } else if are_few(
        lengths_of(problem, Class::Off),
        days_of(problem, Class::Off),
    ) {
        put_misfit(out, problem, Class::Off)
    } else if are_few(
        lengths_of(problem, Class::Work),
        days_of(problem, Class::Work),
    ) {
        put_misfit(out, problem, Class::Work)
    } else {
        put_unlike(out, problem)
    }
}

// Whether no block of a class has such a length.
fn has_no_block(problem: &Problem, class: Class) -> bool
    requires { IsClass problem.now class }
    ensures { result ≡ nat_lt (lengths problem.now class).greatest (lengths problem.now class).least }
{
    let lengths = lengths_of(problem, class);
    lengths.greatest < lengths.least
}

// Appends why no number of blocks has as many days off, and days of work between, as there have to be.
fn put_off_misfit(out: &mut Vec<u8>, problem: &Problem) -> Done
    ensures { OnOk result (out.new.items ≡ out.old.items ++ off_misfit_words problem.now) }
{
    let off = days_of(problem, Class::Off);
    let needed = days_asked(problem, Asked::Needed);
    let cells = problem.cells();
    if cells < needed {
        let parts = [Days(needed), Number(cells)];
        put_filled(out, problem, DEMAND_NEEDS, &parts)
    } else if off.greatest < off.least {
        put_filled(out, problem, DEMAND_LEAVES, &[DayRange(off)])
    } else if has_no_block(problem, Class::Off) {
        put_no_block(out, problem, Class::Off)
    } else if has_no_block(problem, Class::Work) {
        put_no_block(out, problem, Class::Work)
    } else {
        put_turns(out, problem)
    }
}

/// Appends why no number of blocks of the symbol fits.
pub fn put_counted(out: &mut Vec<u8>, problem: &Problem, x: Symbol) -> Done
    requires { IsSymbol problem.now x }
    ensures { OnOk result (out.new.items ≡ out.old.items ++ counted_words problem.now x) }
{
    if x.number == 0 {
        put_off_misfit(out, problem)
    } else {
        put_misfit(out, problem, Class::Shift(x))
    }
}
