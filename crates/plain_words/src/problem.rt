// A problem in words.
#![tactic(auto, unfolding(crate::specs::Statements::line, crate::specs::Statements::statement_words, crate::specs::Sentences::problem_words, crate::specs::Sentences::slip_lines), using(crate::proofs::Joined::two_of, crate::proofs::Joined::named_more, crate::proofs::Joined::one_of, crate::proofs::Joined::behind, crate::proofs::Joined::three_of))]

ghost use Rattle.std.specs.Prelude.{◌≡◌, ◌≤◌, ◌∷◌, [], ◌++◌, map, IfOk, OnOk};
ghost use Rattle.std.specs.List.{flat_map, range_with_len};
ghost use Rattle.rwsp_terms.specs.Instance.{shift_count};
ghost use Rattle.plain_words.specs.Statements.{lines};
ghost use Rattle.plain_words.specs.Sentences.{size_statement, hours_statement, rule_statements, numeric_name, counted_at, counted, slips_by, counted_by, slip_statements, slip_lines, problem_words};

use crate::counted::is_misfit;
use crate::hours::put_hours;
use crate::part::Part::{AllShifts, Days, Name, Number, Rule, Weeks};
use crate::pieces::{Done, NUMBERED_RULE, NUMERIC_NAME, SIZE};
use crate::slips::put_slips;
use crate::statement::{Teller, put_counted_if, put_line, told_by};
use rwsp_file::LongNumber;
use rwsp_model::{Problem, rule_count};
use rwsp_terms::Symbol;
use std::alloc::{AllocError, Global};

/// Which sentences about a problem are told behind an answer to it.
#[derive(Clone, Copy)]
pub enum Telling {
    /// Long names that are numbers.
    LongNames,
    /// What looks like a slip, such names too.
    Slips,
    /// So much of it as another number of weeks doesn't change.
    Unsized,
    /// What looks like a slip, and what counting alone says against a roster.
    WithCounts,
}

// Appends the size and the hours.
fn put_front(out: &mut Vec<u8>, by: &Teller) -> Done
    ensures { OnOk result (out.new.items ≡ out.old.items
        ++ lines by.now (size_statement by.now.problem.now ∷ hours_statement by.now.problem.now ∷ [])) }
{
    let parts = [
        Weeks(by.problem.weeks()),
        Days(by.problem.days()),
        AllShifts,
    ];
    put_line(out, by, SIZE, &parts)?;
    put_hours(out, by)
}

// Appends each rule.
fn put_rules(out: &mut Vec<u8>, by: &Teller) -> Done
    ensures { OnOk result (out.new.items ≡ out.old.items ++ lines by.now (rule_statements by.now.problem.now)) }
{
    for place in 0..rule_count(by.problem) {
        let parts = [Number(place + 1), Rule(place + 1)];
        put_line(out, by, NUMBERED_RULE, &parts)?;
    }
    Ok(())
}

// Appends which long names are numbers.
fn put_numeric_names(out: &mut Vec<u8>, by: &Teller, names: &[LongNumber]) -> Done
    ensures { OnOk result (out.new.items ≡ out.old.items ++ lines by.now (map numeric_name names.now)) }
{
    for long in names {
        let parts = [
            Number(long.line),
            Number(long.long_name),
            Name(long.shift),
            Number(long.least),
            Number(long.greatest),
        ];
        put_line(out, by, NUMERIC_NAME, &parts)?;
    }
    Ok(())
}

// Appends what counting says against a roster, of one symbol.
fn put_counted_at(out: &mut Vec<u8>, by: &Teller, number: u8) -> Done
    requires { number ≤ shift_count by.now.problem.now }
    ensures { OnOk result (out.new.items ≡ out.old.items ++ lines by.now (counted_at by.now.problem.now number)) }
{
    let x = Symbol { number };
    put_counted_if(out, by, is_misfit(by.problem, x), b"".as_slice(), x)
}

// Says of each shift what counting its blocks shows.
fn put_counted_shifts(out: &mut Vec<u8>, by: &Teller) -> Done
    ensures { OnOk result (out.new.items ≡ out.old.items ++ lines by.now
        (flat_map (counted_at by.now.problem.now) (range_with_len 1 (shift_count by.now.problem.now)))) }
{
    for place in 0..by.problem.shifts() {
        put_counted_at(out, by, place + 1)?;
    }
    Ok(())
}

// Says of the shifts, and then of the day off, what counting blocks shows.
fn put_counts(out: &mut Vec<u8>, by: &Teller) -> Done
    ensures { OnOk result (out.new.items ≡ out.old.items ++ lines by.now (counted by.now.problem.now)) }
{
    put_counted_shifts(out, by)?;
    put_counted_at(out, by, 0)
}

// Appends such slips.
fn put_slips_by(out: &mut Vec<u8>, by: &Teller, telling: Telling) -> Done
    ensures { OnOk result (out.new.items ≡ out.old.items ++ lines by.now (slips_by telling by.now.problem.now)) }
{
    match telling {
        Telling::LongNames => Ok(()),
        Telling::Slips | Telling::WithCounts => put_slips(out, by, true),
        Telling::Unsized => put_slips(out, by, false),
    }
}

// Appends such counts.
fn put_counts_by(out: &mut Vec<u8>, by: &Teller, telling: Telling) -> Done
    ensures { OnOk result (out.new.items ≡ out.old.items ++ lines by.now (counted_by telling by.now.problem.now)) }
{
    match telling {
        Telling::WithCounts => put_counts(out, by),
        Telling::LongNames | Telling::Slips | Telling::Unsized => Ok(()),
    }
}

// Appends what stands behind the rules.
fn put_behind(out: &mut Vec<u8>, by: &Teller, names: &[LongNumber], telling: Telling) -> Done
    ensures { OnOk result (out.new.items ≡ out.old.items
        ++ lines by.now (slip_statements telling by.now.problem.now names.now)) }
{
    put_slips_by(out, by, telling)?;
    put_numeric_names(out, by, names)?;
    put_counts_by(out, by, telling)
}

/// A problem in words, a line for each sentence: its size and hours, each rule, what looks like a slip, the long names
/// that are numbers, and what counting alone says against a roster. It costs a step for each cell, and for each two
/// forbidden sequences.
pub fn problem_words(
    alloc: Global,
    problem: &Problem,
    names: &[LongNumber],
) -> Result<Vec<u8>, AllocError>
    ensures { IfOk result (λ v. v.items ≡ problem_words problem.now names.now) }
{
    let by = Teller {
        front: b"".as_slice(),
        problem,
    };
    let mut out = Vec::new(alloc);
    put_front(&mut out, &by)?;
    put_rules(&mut out, &by)?;
    put_behind(&mut out, &by, names, Telling::WithCounts)?;
    Ok(out)
}

/// Tells of a problem behind an answer, as much as `telling` says.
pub fn put_slips_told(
    out: &mut Vec<u8>,
    telling: Telling,
    problem: &Problem,
    names: &[LongNumber],
) -> Done
    ensures { OnOk result (out.new.items ≡ out.old.items ++ slip_lines telling problem.now names.now) }
{
    put_behind(out, &told_by(problem), names, telling)
}
