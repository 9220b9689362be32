// Rosters behind given cells of small problems, worked by hand.
ghost use Rattle.std.specs.Prelude.{◌≤◌, length};
ghost use Rattle.rwsp_terms.specs.declared.limits.TheConstants.{GREATEST_BUDGET, LONGEST_FILE};

use clean_words::NoGate;
use refutation_log::{Found, Log, read_cells};
use refutation_terms::Opening;
use roster_planner::fill;
use rwsp_model::Problem;
use std::alloc::{AllocError, Global};
use std::test::Fail;
use std::thread::Threads;
use test_helpers::{THREE_IN_FIVE, TWOS_IN_FOUR, problem_of};

// What is found: a roster, or how many cells and rules a log names.
#[derive(Clone, Copy, Debug, PartialEq, Eq)]
enum End {
    Roster,
    NoRoster(usize, usize),
    Undecided,
    Refused,
}

fn end_of(found: &Found) -> End {
    match found {
        Found::Roster(_) => End::Roster,
        Found::NoRoster(log) => End::NoRoster(cells_named(log), log.named().len()),
        Found::Undecided(_) => End::Undecided,
    }
}

fn cells_named(log: &Log) -> usize {
    match log.opening() {
        Opening::Given(given) => given.len(),
        _ => 0,
    }
}

// What is found within 100 lines behind the cells that a text gives.
fn filled<R: Threads + Sync>(
    rt: &R,
    alloc: Global,
    problem: &Problem,
    text: &[u8],
) -> Result<End, AllocError>
    requires { length text.now ≤ LONGEST_FILE }
{
    filled_within(rt, alloc, problem, text, 100)
}

// What is found within so many lines.
fn filled_within<R: Threads + Sync>(
    rt: &R,
    alloc: Global,
    problem: &Problem,
    text: &[u8],
    budget: u32,
) -> Result<End, AllocError>
    requires text { length text.now ≤ LONGEST_FILE }
    requires budget { (1 ≤ budget) × (budget ≤ GREATEST_BUDGET) }
{
    let Ok(given) = read_cells(alloc, problem, text) else {
        return Ok(End::Refused);
    };
    let found = fill(rt, alloc, problem, &given, budget, &NoGate)?;
    Ok(end_of(&found))
}

// All rosters of `TWOS_IN_FOUR`.
const ROUNDS: [[u8; 4]; 4] = [*b"DD--", *b"-DD-", *b"--DD", *b"D--D"];

fn letter(code: u32) -> u8 {
    match code % 3 {
        0 => b'?',
        1 => b'D',
        _ => b'-',
    }
}

// Whether the letters are those of the round, where they aren't open.
fn is_in(given: [u8; 4], round: [u8; 4]) -> bool {
    for i in 0..4 {
        if given[i] != b'?' && given[i] != round[i] {
            return false;
        }
    }
    true
}

fn is_fillable(given: [u8; 4]) -> bool {
    for round in ROUNDS {
        if is_in(given, round) {
            return true;
        }
    }
    false
}

#[test]
fn each_filling_of_four_cells(rt: HostRuntime) -> Result<(), Fail> {
    let problem = problem_of(rt.alloc(), TWOS_IN_FOUR)?;
    for code in 0..81 {
        let given = [
            letter(code),
            letter(code / 3),
            letter(code / 9),
            letter(code / 27),
        ];
        let text = [
            given[0], b'\n', given[1], b'\n', given[2], b'\n', given[3], b'\n',
        ];
        let end = filled(&rt, rt.alloc(), &problem, text.as_slice())?;
        assert_eq!(rt; end == End::Roster, is_fillable(given));
    }
    Ok(())
}

#[test]
fn cells_that_a_rule_forbids(rt: HostRuntime) -> Result<(), Fail> {
    let four = problem_of(rt.alloc(), TWOS_IN_FOUR)?;
    // no three D in a row
    let end = filled(&rt, rt.alloc(), &four, b"D\nD\nD\n?\n".as_slice())?;
    assert_eq!(rt; end, End::NoRoster(3, 1));
    Ok(())
}

#[test]
fn blocks_are_counted_first(rt: HostRuntime) -> Result<(), Fail> {
    let odd = problem_of(rt.alloc(), THREE_IN_FIVE)?;
    // no D in twos on three days: both lengths of its blocks, and the day's rule
    let open = filled(&rt, rt.alloc(), &odd, b"?\n?\n?\n?\n?\n".as_slice())?;
    assert_eq!(rt; open, End::NoRoster(0, 3));
    // nor with cells that a rule forbids
    let all = filled(&rt, rt.alloc(), &odd, b"D\nD\nD\n-\n-\n".as_slice())?;
    assert_eq!(rt; all, End::NoRoster(0, 3));
    Ok(())
}

// Work in twos, both A or both B, with a day off between: once A and three times B are demanded. There is no roster,
// since A comes twice or not at all; and no leaf says so at the first line, since AA-AA- and BB-BB- keep the rules of
// blocks and pairs, have the demand on the average, and one block of A and two of B have as many days as it asks for.
const AS_AND_BS_IN_TWOS: &[u8] =
    b"1\n6\n2\n1\n3\nA 360 480 1 2\nB 840 480 1 2\n1 1\n2 2\n2 0\nA B\nB A\n";

#[test]
fn a_spent_budget(rt: HostRuntime) -> Result<(), Fail> {
    let problem = problem_of(rt.alloc(), AS_AND_BS_IN_TWOS)?;
    let none = b"?\n?\n?\n?\n?\n?\n".as_slice();
    let spent = filled_within(&rt, rt.alloc(), &problem, none, 1)?;
    assert_eq!(rt; spent, End::Undecided);
    let no_cell = match filled(&rt, rt.alloc(), &problem, none)? {
        End::NoRoster(0, _) => true,
        _ => false,
    };
    assert_eq!(rt; no_cell, true);
    Ok(())
}
