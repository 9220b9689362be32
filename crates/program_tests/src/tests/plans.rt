// Rosters and refutations: what `plan` prints is right by `verify` and `check`.
use super::logs::{BOTH_DAYS, TOO_MANY, TWOS, checks, they_meet};
use super::{NINE_WEEKS, TWO_DAYS, USAGE, line_ends, shelf_of, status_of, verifies, words_of};
use clean_words::NoGate;
use std::alloc::{AllocError, Global};
use std::test::Fail;
use std::thread::Threads;
use test_helpers::MemorySink;

// Three of five days, in twos: there is no roster, and no leaf holds at the first line.
pub const THREE_OF_FIVE: &str = "1\n5\n1\n3\nD 360 480 2 2\n1 2\n2 2\n0 0\n";

// The status of the words, over a problem, and what is written goes into the sink.
fn status_over<R: Threads + Sync>(
    rt: &R,
    alloc: Global,
    words: &[&str],
    problem: &str,
    sink: &mut MemorySink,
) -> Result<u8, AllocError> {
    let words = words_of(alloc, words)?;
    let mut shelf = shelf_of(alloc, &[("F", problem)], 50, &[])?;
    status_of(rt, alloc, &words, &mut shelf, sink, &NoGate)
}

fn text_in(alloc: Global, sink: &MemorySink) -> Result<String, Fail> {
    let text = Vec::from_slice(alloc, sink.bytes())?;
    Ok(String::from_utf8(text).ok().ok_or("a text")?)
}

// What is printed with this status, or nothing with another.
pub fn printed<R: Threads + Sync>(
    rt: &R,
    alloc: Global,
    words: &[&str],
    problem: &str,
    status: u8,
) -> Result<String, Fail> {
    let mut sink = MemorySink::new(alloc, 1_000_000, 100_000, Vec::new(alloc))?;
    if status_over(rt, alloc, words, problem, &mut sink)? == status {
        text_in(alloc, &sink)
    } else {
        Ok(String::new(alloc))
    }
}

// Whether `check` accepts the log.
pub fn is_accepted<R: Threads + Sync>(
    rt: &R,
    alloc: Global,
    problem: &str,
    log: &str,
) -> Result<bool, AllocError> {
    let words = words_of(alloc, &["check", "F", "G"])?;
    let files = [("F", problem), ("G", log)];
    let mut shelf = shelf_of(alloc, &files, 1000, &[])?;
    let mut sink = MemorySink::new(alloc, 1000, 1000, Vec::new(alloc))?;
    Ok(status_of(rt, alloc, &words, &mut shelf, &mut sink, &NoGate)? == 0)
}

// Whether `plan` refutes, and `check` accepts what it prints.
fn is_refuted<R: Threads + Sync>(rt: &R, alloc: Global, problem: &str) -> Result<bool, Fail> {
    let log = printed(rt, alloc, &["plan", "F"], problem, 1)?;
    Ok(is_accepted(rt, alloc, problem, log.as_str())?)
}

// The nine weeks with at most four days of work in seven.
pub const FOUR_OF_SEVEN: &str =
    "7\n9\n3\n2 2 2 2 2 2 2\n2 2 2 2 2 2 2\n2 2 2 2 2 2 2\nD 360 480 2 7\nA 840 480 2 6\nN 1320 480 2 5\n3 4\n4 4\n3 0\nN D\nN A\nA D\n";

// Whether the log has a turn and one line behind it.
fn is_one_leaf(log: &str) -> bool {
    log.lines()
        .nth(2)
        .is_some_and(|line| line.starts_with("turn "))
        && log.lines().count() == 4
}

// A day leaf, a leaf of blocks, a dead leaf, or a bound at the top is enough.
#[test]
fn one_leaf_is_enough(rt: HostRuntime) -> Result<(), Fail> {
    let alloc = rt.alloc();
    let whole: &[&str] = &["plan", "F"];
    let least: &[&str] = &["plan", "F", "--budget", "1"];
    for (problem, words) in [
        (BOTH_DAYS, whole),
        (TOO_MANY, whole),
        (FOUR_OF_SEVEN, whole),
        (FOUR_OF_SEVEN, least),
        (TWOS, whole),
        (TWOS, least),
    ] {
        let log = printed(&rt, alloc, words, problem, 1)?;
        assert!(rt; is_one_leaf(log.as_str()), "{problem}{log}");
        assert!(rt;
            is_accepted(&rt, alloc, problem, log.as_str())?,
            "{problem}"
        );
    }
    Ok(())
}

// Two chunks of the bounds are tried at once, in a search that doesn't count blocks first.
#[test]
fn bounds_are_shared_out(rt: HostRuntime) -> Result<(), Fail> {
    let words = ["plan", "F", "--budget", "2000"];
    assert!(rt; they_meet(&rt, rt.alloc(), &words, &[("F", TWOS)], 1)?);
    Ok(())
}

#[test]
fn the_only_roster_is_found(rt: HostRuntime) -> Result<(), Fail> {
    let files = [("F", TWO_DAYS)];
    for line in [
        "plan F",
        "plan F --seed 0",
        "plan F --seed 999999999",
        "plan F --seed 1 --budget 20",
        "plan F --budget 20 --seed 1",
    ] {
        assert!(rt;
            line_ends(&rt, rt.alloc(), line, &files, 0, "D -\n")?,
            "{line}"
        );
    }
    for line in [
        "plan F --seed",
        "plan F --seed 1000000000",
        "plan F --seed 0000000001",
        "plan F --seed 1 --seed 1",
        "plan F --seed 1 --budget 1 --seed 1",
        "plan F --budget 1 --seed 1 --budget 1",
    ] {
        assert!(rt;
            line_ends(&rt, rt.alloc(), line, &files, 2, USAGE)?,
            "{line}"
        );
    }
    Ok(())
}

// Without a seed it is 0; another one gives another roster here.
#[test]
fn seeds_tell_rosters_apart(rt: HostRuntime) -> Result<(), Fail> {
    let alloc = rt.alloc();
    let plain = printed(&rt, alloc, &["plan", "F"], NINE_WEEKS, 0)?;
    let zero = printed(&rt, alloc, &["plan", "F", "--seed", "0"], NINE_WEEKS, 0)?;
    assert!(rt; plain.as_str() == zero.as_str());
    let mut has_other = false;
    for seed in ["1", "2", "3", "4", "5"] {
        let words = ["plan", "F", "--seed", seed];
        let roster = printed(&rt, alloc, &words, NINE_WEEKS, 0)?;
        assert!(rt;
            verifies(&rt, alloc, NINE_WEEKS, roster.as_str(), 0, "meets\n")?,
            "{seed}"
        );
        if roster.as_str() != plain.as_str() {
            has_other = true;
        }
    }
    assert!(rt; has_other);
    Ok(())
}

#[test]
fn refutations_are_accepted(rt: HostRuntime) -> Result<(), Fail> {
    let none = "2\n1\n1\n0 0\nD 360 480 1 1\n1 1\n1 1\n0 0\n";
    let full_column = "2\n2\n2\n2 0\n1 0\nD 360 480 1 4\nN 1320 480 1 4\n1 4\n1 4\n0 0\n";
    let crossed = "2\n2\n1\n1 1\nD 360 480 3 2\n1 4\n1 4\n0 0\n";
    let all_off = "2\n1\n1\n0 0\nD 360 480 1 7\n1 7\n1 7\n0 0\n";
    for problem in [
        TOO_MANY,
        TWOS,
        THREE_OF_FIVE,
        none,
        full_column,
        crossed,
        all_off,
    ] {
        assert!(rt; is_refuted(&rt, rt.alloc(), problem)?, "{problem}");
    }
    Ok(())
}

// A budget of one line is spent on the first split.
#[test]
fn a_budget_of_one_line(rt: HostRuntime) -> Result<(), Fail> {
    let alloc = rt.alloc();
    let words = ["plan", "F", "--budget", "1"];
    let log = printed(&rt, alloc, &words, THREE_OF_FIVE, 4)?;
    assert!(rt;
        log.as_str()
            .starts_with("rwsp-log 2\nrules 7\nturn D 1\nsplit ")
    );
    assert!(rt; log.as_str().ends_with("\nopen\nopen\n"));
    assert_eq!(rt; log.as_str().lines().count(), 6);
    let refused = "log refused: open line 5\n";
    assert!(rt; checks(&rt, alloc, THREE_OF_FIVE, log.as_str(), 5, refused)?);
    Ok(())
}

// The nine weeks have a roster, and what is found meets all rules.
#[test]
fn a_roster_for_nine_weeks(rt: HostRuntime) -> Result<(), Fail> {
    let alloc = rt.alloc();
    let roster = printed(&rt, alloc, &["plan", "F"], NINE_WEEKS, 0)?;
    assert!(rt; verifies(&rt, alloc, NINE_WEEKS, roster.as_str(), 0, "meets\n")?);
    Ok(())
}
