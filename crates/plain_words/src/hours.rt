// The hours a week that the demand of a problem comes to.
#![tactic(auto, using(crate::proofs::Joined::sum_more))]

ghost use Rattle.std.specs.Prelude.{◌≡◌, ◌+◌, ◌*◌, ◌<◌, ◌≤◌, ◌++◌, OnOk};
ghost use Rattle.rwsp_terms.specs.Instance.{shift_count, IsDay};
ghost use Rattle.rwsp_terms.specs.declared.limits.TheConstants.{GREATEST_BOUND, MOST_DAYS, MOST_SHIFTS, MOST_WEEKS};
ghost use Rattle.plain_words.specs.Statements.{said};
ghost use Rattle.plain_words.specs.Sentences.{minutes_of, end_of, demanded_minutes, day_minutes, all_minutes, mean_tenths, hours_statement};

use crate::part::Part::Length;
use crate::pieces::{Done, HOURS, HOURS_RANGE};
use crate::statement::{Teller, put_line};
use rwsp_model::Problem;
use rwsp_terms::{Bounds, Symbol};

// How many minutes a shift has.
fn minutes_of(problem: &Problem, number: u8) -> u32
    requires { (0 < number) × (number ≤ shift_count problem.now) }
    ensures value { result ≡ minutes_of problem.now number }
    ensures few { result ≤ GREATEST_BOUND }
{
    problem.prove_limits();
    problem.length(Symbol { number })
}

// The greatest number of a range, or its least.
fn end_of(is_most: bool, range: Bounds) -> u32
    ensures { result ≡ end_of is_most range }
{
    if is_most { range.greatest } else { range.least }
}

// The minutes that are demanded of a shift on a day, in all weeks.
fn demanded_minutes(problem: &Problem, is_most: bool, day: u32, number: u8) -> u64
    requires day { IsDay problem.now day }
    requires shift { (0 < number) × (number ≤ shift_count problem.now) }
    ensures value { result ≡ demanded_minutes problem.now is_most day number }
    ensures few { result ≤ MOST_WEEKS * GREATEST_BOUND }
{
    let count = end_of(is_most, problem.demand(Symbol { number }, day));
    u64::from(count) * u64::from(minutes_of(problem, number))
}

// The minutes that a day demands.
fn day_minutes(problem: &Problem, is_most: bool, day: u32) -> u64
    requires { IsDay problem.now day }
    ensures value { result ≡ day_minutes problem.now is_most day }
    ensures few { result ≤ MOST_SHIFTS * (MOST_WEEKS * GREATEST_BOUND) }
{
    let mut sum = 0;
    for place in 0..problem.shifts() {
        sum += demanded_minutes(problem, is_most, day, place + 1);
    }
    sum
}

// The minutes that all days demand.
fn all_minutes(problem: &Problem, is_most: bool) -> u64
    ensures value { result ≡ all_minutes problem.now is_most }
    ensures few { result ≤ MOST_DAYS * (MOST_SHIFTS * (MOST_WEEKS * GREATEST_BOUND)) }
{
    problem.prove_limits();
    let mut sum = 0;
    for i in 0..problem.days() {
        sum += day_minutes(problem, is_most, i + 1);
    }
    sum
}

// The mean of the hours a week, in tenths of an hour.
fn mean_tenths(problem: &Problem, is_most: bool) -> u64
    ensures { result ≡ mean_tenths problem.now is_most }
{
    let weeks = u64::from(problem.weeks());
    (all_minutes(problem, is_most) + 3 * weeks) / (6 * weeks)
}

/// Appends the mean of the hours a week that the demand comes to. It costs a step for each shift on each day.
pub fn put_hours(out: &mut Vec<u8>, by: &Teller) -> Done
    ensures { OnOk result (out.new.items ≡ out.old.items ++ said by.now (hours_statement by.now.problem.now)) }
{
    let least = mean_tenths(by.problem, false);
    let greatest = mean_tenths(by.problem, true);
    let text = if least == greatest {
        HOURS
    } else {
        HOURS_RANGE
    };
    let parts = [
        Length(least / 10),
        Length(least % 10),
        Length(greatest / 10),
        Length(greatest % 10),
    ];
    put_line(out, by, text, &parts)
}
