// Sentences with parts in their holes.
#![tactic(auto, unfolding(crate::specs::Filled::shifts_words, crate::specs::Filled::span_words, crate::specs::Filled::block_range_words, crate::specs::Filled::works_words, crate::specs::Filled::rosters_words, crate::specs::Filled::part_words), using(crate::proofs::Joined::piece_more))]

ghost use Rattle.std.specs.Prelude.{◌≡◌, ◌++◌, OnOk};
ghost use Rattle.plain_words.specs.Filled.{next_shift_words, other_shifts_words, shifts_words, span_words, block_range_words, works_words, rosters_words, part_words, filled};

use crate::part::Part;
use crate::pieces::{
    AND_AT_MOST, AT_LEAST, BLOCK, BLOCK_HAS, BLOCKS, BLOCKS_HAVE, CASE_CLOSED, CASES_CLOSED,
    CHANGE_LEFT, CHANGES_LEFT, COMMA, Done, GIVEN, HOLE, IS_OFF, LEFT_OPEN, LEFT_OPEN_MANY,
    MAYBE_NEARER, OF, OF_DAYS_OFF, OFF, OR_MORE, PAIR, PAIRS, ROUND_HAS, ROUNDS_HAVE, SHIFT,
    SHIFTS, TO, TRIPLE, TRIPLES, WEEKEND, WEEKENDS, WHOLE, WITH, WORKS, put,
};
use crate::reason::Rosters;
use crate::rule_words::{put_class, put_crossed, put_rule_in};
use crate::words::{put_count, put_days, put_range, put_shift, put_symbol, put_weeks};
use rwsp_model::Problem;
use rwsp_terms::{Bounds, Class, Symbol};
use rwsp_text::put_number;

// Appends the name of a shift behind another.
fn put_next_shift(out: &mut Vec<u8>, problem: &Problem, number: u8) -> Done
    ensures { OnOk result (out.new.items ≡ out.old.items ++ next_shift_words problem.now number) }
{
    put(out, COMMA)?;
    put_shift(out, problem, u32::from(number))
}

// Appends the names of all shifts but the first.
fn put_other_shifts(out: &mut Vec<u8>, problem: &Problem) -> Done
    ensures { OnOk result (out.new.items ≡ out.old.items ++ other_shifts_words problem.now) }
{
    problem.prove_limits();
    let others = problem.shifts() - 1;
    for place in 0..others {
        put_next_shift(out, problem, place + 2)?;
    }
    Ok(())
}

// Appends the number of the shifts, and their names.
fn put_shifts(out: &mut Vec<u8>, problem: &Problem) -> Done
    ensures { OnOk result (out.new.items ≡ out.old.items ++ shifts_words problem.now) }
{
    put_count(out, u64::from(problem.shifts()), SHIFT, SHIFTS)?;
    put_shift(out, problem, 1)?;
    put_other_shifts(out, problem)
}

// Appends from how many days to how many.
fn put_span(out: &mut Vec<u8>, days: Bounds) -> Done
    ensures { OnOk result (out.new.items ≡ out.old.items ++ span_words days) }
{
    if days.least == days.greatest {
        put_days(out, days.least)
    } else if days.least < days.greatest {
        put_number(out, u64::from(days.least))?;
        put(out, TO)?;
        put_days(out, days.greatest)
    } else {
        put(out, AT_LEAST)?;
        put_number(out, u64::from(days.least))?;
        put(out, AND_AT_MOST)?;
        put_days(out, days.greatest)
    }
}

// Appends from how many blocks to how many.
fn put_block_range(out: &mut Vec<u8>, blocks: Bounds) -> Done
    ensures { OnOk result (out.new.items ≡ out.old.items ++ block_range_words blocks) }
{
    if blocks.least == blocks.greatest {
        return put_count(out, u64::from(blocks.least), BLOCK, BLOCKS);
    }
    put_number(out, u64::from(blocks.least))?;
    put(out, TO)?;
    put_count(out, u64::from(blocks.greatest), BLOCK, BLOCKS)
}

// Appends what somebody does who has the symbol.
fn put_works(out: &mut Vec<u8>, problem: &Problem, x: Symbol) -> Done
    ensures { OnOk result (out.new.items ≡ out.old.items ++ works_words problem.now x) }
{
    if x.number == 0 {
        put(out, IS_OFF)
    } else {
        put(out, WORKS)?;
        put_shift(out, problem, u32::from(x.number))
    }
}

// Appends which rosters something is said of.
fn put_rosters(out: &mut Vec<u8>, rosters: Rosters) -> Done
    ensures { OnOk result (out.new.items ≡ out.old.items ++ rosters_words rosters) }
{
    match rosters {
        Rosters::Every => Ok(()),
        Rosters::Free(count) => {
            put(out, WITH)?;
            put_count(out, u64::from(count), WEEKEND, WEEKENDS)?;
            put(out, OR_MORE)
        }
        Rosters::Weeks(count) => {
            put(out, OF)?;
            put_weeks(out, count)
        }
        Rosters::Given => put(out, GIVEN),
    }
}

// Appends a part.
fn put_part(out: &mut Vec<u8>, problem: &Problem, part: Part) -> Done
    ensures { OnOk result (out.new.items ≡ out.old.items ++ part_words problem.now part) }
{
    match part {
        Part::Number(n) => put_number(out, u64::from(n)),
        Part::Length(n) => put_number(out, n),
        Part::Days(n) => put_days(out, n),
        Part::Weeks(n) => put_weeks(out, n),
        Part::Weekends(n) => put_count(out, u64::from(n), WEEKEND, WEEKENDS),
        Part::Pairs(n) => put_count(out, n, PAIR, PAIRS),
        Part::Triples(n) => put_count(out, n, TRIPLE, TRIPLES),
        Part::BlocksHave(n) => put_count(out, u64::from(n), BLOCK_HAS, BLOCKS_HAVE),
        Part::RoundsHave(n) => put_count(out, u64::from(n), ROUND_HAS, ROUNDS_HAVE),
        Part::Closed(n) => put_count(out, n, CASE_CLOSED, CASES_CLOSED),
        Part::Open(n) => put_count(out, n, LEFT_OPEN, LEFT_OPEN_MANY),
        Part::Left(0) => Ok(()),
        Part::Left(n) => put_count(out, n, CHANGE_LEFT, CHANGES_LEFT),
        Part::Range(range) => put_range(out, range),
        Part::DayRange(days) => put_span(out, days),
        Part::BlockRange(blocks) => put_block_range(out, blocks),
        Part::Name(number) => put_shift(out, problem, number),
        Part::AllShifts => put_shifts(out, problem),
        Part::Crossed(number, range) => put_crossed(out, problem, number, range),
        Part::Works(x) => put_works(out, problem, x),
        Part::Held(x) => put_symbol(out, problem, x, OFF),
        Part::OfClass(class) => put_class(out, problem, class),
        Part::BlockOf(Class::Off) => put(out, OF_DAYS_OFF),
        Part::BlockOf(class) => put_class(out, problem, class),
        Part::Rule(number) => put_rule_in(out, problem, number),
        Part::Of(rosters) => put_rosters(out, rosters),
        Part::Unknown(Rosters::Every) => put(out, WHOLE),
        Part::Unknown(rosters) => put_rosters(out, rosters),
        Part::Nearest(true) => Ok(()),
        Part::Nearest(false) => put(out, MAYBE_NEARER),
    }
}

/// Appends a sentence: for each hole the next of the parts.
pub fn put_filled(out: &mut Vec<u8>, problem: &Problem, text: &[u8], parts: &[Part]) -> Done
    ensures { OnOk result (out.new.items ≡ out.old.items ++ filled problem.now text.now parts.now) }
{
    let mut used = 0;
    for byte in text {
        if *byte == HOLE && used < parts.len() {
            put_part(out, problem, parts[used])?;
            used += 1;
        } else {
            out.push(*byte)?;
        }
    }
    Ok(())
}
