// Free logs, to the byte. The cases are worked by hand.
use super::plans::printed;
use super::{TWO_DAYS, USAGE, ends, ran, verifies};
use std::alloc::Global;
use std::test::Fail;
use std::thread::Threads;

// Three weeks of two day shifts a day, in blocks of six or seven, with two to four days off between them.
pub const THREE_WEEKS: &str = "7\n3\n1\n2 2 2 2 2 2 2\nD 360 480 6 7\n2 4\n6 7\n0 0\n";

// At most four days off in a row, and blocks of six or seven days of work: two of three weekends can't be free.
pub const ONE_OF_THREE: &str = "rwsp-free 1\nrules 3 5 6\ngoal 2\nfree 1 1 rules 3 5 6 weights\n";

const WITHOUT_THE_GREATEST_WORK: &str =
    "rwsp-free 1\nrules 3 6\ngoal 2\nfree 1 1 rules 3 6 weights\n";

const MORE_THAN_WEEKS: &str = "rwsp-free 1\nrules\ngoal 4\nfew\n";

const GREATEST_REWARD: &str = "rwsp-free 1\nrules 3 5 6\ngoal 2\nfree 1 1000 rules 3 5 6 weights\n";

const TOO_GREAT_A_REWARD: &str =
    "rwsp-free 1\nrules 3 5 6\ngoal 2\nfree 1 1001 rules 3 5 6 weights\n";

// 16,800 days.
const MOST_TURNS: &str = "rwsp-free 1\nrules 3 5 6\ngoal 2\nfree 800 1 rules 3 5 6 weights\n";

const TOO_MANY_TURNS: &str = "rwsp-free 1\nrules 3 5 6\ngoal 2\nfree 801 1 rules 3 5 6 weights\n";

const NO_TURN: &str = "rwsp-free 1\nrules 3 5 6\ngoal 2\nfree 0 1 rules 3 5 6 weights\n";

// A bound leaf is none of a free log.
const BOUND: &str = "rwsp-free 1\nrules 3 5 6\ngoal 2\nbound 1 1 1 rules 3 5 6 weights\n";

const FORM_OF_LEAF: &str = "log refused: form line 4\n";

const TOO_GREAT_A_GOAL: &str = "rwsp-free 1\nrules\ngoal 5\nfew\n";

#[test]
fn free_logs(rt: HostRuntime) -> Result<(), Fail> {
    let cases = [
        (ONE_OF_THREE, 0, "accepted: goal 2 rules 3 5 6\n"),
        (MORE_THAN_WEEKS, 0, "accepted: goal 4 rules\n"),
        (
            WITHOUT_THE_GREATEST_WORK,
            5,
            "log refused: escape line 4: D D D - - - - D D D D D D D D D D - - - -\n",
        ),
        (TOO_GREAT_A_GOAL, 5, "log refused: form line 3\n"),
        (GREATEST_REWARD, 0, "accepted: goal 2 rules 3 5 6\n"),
        (TOO_GREAT_A_REWARD, 5, FORM_OF_LEAF),
        (MOST_TURNS, 0, "accepted: goal 2 rules 3 5 6\n"),
        (TOO_MANY_TURNS, 5, FORM_OF_LEAF),
        (NO_TURN, 5, FORM_OF_LEAF),
        (BOUND, 5, FORM_OF_LEAF),
        ("", 5, "log refused: ends\n"),
    ];
    for (log, status, text) in cases {
        let files = [("F", THREE_WEEKS), ("G", log)];
        let words = ["check-free", "F", "G"];
        assert!(rt;
            ends(&rt, rt.alloc(), &words, &files, status, text)?,
            "{text}"
        );
    }
    Ok(())
}

// The second file is looked for only where the week has seven days.
#[test]
fn weeks_of_other_days(rt: HostRuntime) -> Result<(), Fail> {
    let words: &[&str] = &["check-free", "F", "G"];
    let no_log: &[&str] = &["check-free", "F"];
    let best: &[&str] = &["best", "F"];
    let none: &[&str] = &["best", "F", "--budget", "0"];
    let many: &[&str] = &["best", "F", "--budget", "200001"];
    let cases = [
        (best, TWO_DAYS, 3, "not weekly: days 2\n"),
        (none, THREE_WEEKS, 2, USAGE),
        (many, THREE_WEEKS, 2, USAGE),
        (words, TWO_DAYS, 3, "not weekly: days 2\n"),
        (words, THREE_WEEKS, 6, ""),
        (no_log, THREE_WEEKS, 2, USAGE),
    ];
    for (words, problem, status, text) in cases {
        assert!(rt;
            ends(&rt, rt.alloc(), words, &[("F", problem)], status, text)?,
            "{text}"
        );
    }
    Ok(())
}

// One week with one roster.
pub const ONE_WEEK: &str =
    "7\n1\n3\n1 1 0 0 0 0 0\n0 0 1 1 1 0 0\n0 0 0 0 0 0 0\nD 360 480 2 7\nA 840 480 2 6\nN 1320 480 2 5\n2 4\n4 7\n3 0\nN D\nN A\nA D\n";

// One week with two employees on its first day.
const TWO_IN_ONE_WEEK: &str =
    "7\n1\n3\n2 1 0 0 0 0 0\n0 0 1 1 1 0 0\n0 0 0 0 0 0 0\nD 360 480 2 7\nA 840 480 2 6\nN 1320 480 2 5\n2 4\n4 7\n3 0\nN D\nN A\nA D\n";

// Whether `check-free` accepts the log for this problem, and the answer begins with `answer`.
fn is_accepted<R: Threads + Sync>(
    rt: &R,
    alloc: Global,
    problem: &str,
    log: &str,
    answer: &str,
) -> Result<bool, Fail> {
    let files = [("F", problem), ("G", log)];
    let ending = ran(rt, alloc, "check-free F G", &files, 0, 0)?;
    Ok(ending.status == 0 && ending.text.as_str().starts_with(answer))
}

// Whether `best` prints a roster with one free weekend that meets every rule, and a reason of one line why none has
// two.
fn has_one_free<R: Threads + Sync>(
    rt: &R,
    alloc: Global,
    problem: &str,
    budget: &str,
) -> Result<bool, Fail> {
    let words = ["best", "F", "--budget", budget];
    let text = printed(rt, alloc, &words, problem, 0)?;
    let rest = text.as_str().strip_prefix("free 1\n").ok_or("one")?;
    let at = rest.find("rwsp-free 1\n").ok_or("a free log")?;
    let (roster, log) = rest.split_at(at);
    let free = roster.lines().filter(|line| line.ends_with(" - -")).count();
    Ok(
        free == 1
            && verifies(rt, alloc, problem, roster, 0, "meets\n")?
            && log.contains("\ngoal 2\n")
            && log.lines().count() == 4
            && is_accepted(rt, alloc, problem, log, "accepted: goal 2 rules ")?,
    )
}

// One weekend of one or of three can be free.
#[test]
fn the_most_free_weekends(rt: HostRuntime) -> Result<(), Fail> {
    let alloc = rt.alloc();
    assert!(rt; has_one_free(&rt, alloc, ONE_WEEK, "32767")?);
    assert!(rt; has_one_free(&rt, alloc, THREE_WEEKS, "200000")?);
    let words = ["best", "F", "--budget", "32767"];
    let text = printed(&rt, alloc, &words, ONE_WEEK, 0)?;
    assert!(rt;
        text.as_str()
            .starts_with("free 1\nD D A A A - -\nrwsp-free 1\n")
    );
    Ok(())
}

// Where there is no roster, and where the budget is spent before one is found, a log of goal 0 is all that is printed.
#[test]
fn no_roster_to_be_best(rt: HostRuntime) -> Result<(), Fail> {
    let alloc = rt.alloc();
    let none = printed(&rt, alloc, &["best", "F"], TWO_IN_ONE_WEEK, 1)?;
    let answer = "accepted: goal 0 rules ";
    assert!(rt; is_accepted(&rt, alloc, TWO_IN_ONE_WEEK, none.as_str(), answer)?);
    let words = ["best", "F", "--budget", "1"];
    let spent = printed(&rt, alloc, &words, ONE_WEEK, 4)?;
    assert!(rt; spent.as_str().contains("\ngoal 0\n"));
    let files = [("F", ONE_WEEK), ("G", spent.as_str())];
    let refused = ran(&rt, alloc, "check-free F G", &files, 0, 0)?;
    assert_eq!(rt; refused.status, 5);
    assert!(rt; refused.text.as_str() == "log refused: open line 5\n");
    Ok(())
}
