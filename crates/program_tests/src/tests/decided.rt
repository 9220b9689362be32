// How much `plan` decides: problems, each with a budget that is enough for it, half as much again as it took. A roster
// is verified, and a log is checked; which roster comes, and which log, isn't asked.
use super::plans::{is_accepted, printed};
use super::verifies;
use std::alloc::Global;
use std::test::Fail;
use std::thread::Threads;

// Whether `plan` ends with this status within so many lines, and its answer is right. With another status nothing is
// printed, which is neither a roster nor a log.
fn is_decided<R: Threads + Sync>(
    rt: &R,
    alloc: Global,
    problem: &str,
    lines: u32,
    status: u8,
) -> Result<bool, Fail> {
    let budget = format!(in alloc; "{lines}")?;
    let words = ["plan", "F", "--budget", budget.as_str()];
    let answer = printed(rt, alloc, &words, problem, status)?;
    Ok(match status {
        0 => verifies(rt, alloc, problem, answer.as_str(), 0, "meets\n")?,
        _ => is_accepted(rt, alloc, problem, answer.as_str())?,
    })
}

// Crews of 5 to 16 weeks whose demands are ranges.
const WITH_RANGES: [(&str, u32); 7] = [
    (
        "7\n15\n2\n5..6 5..6 5..6 5..6 5..6 4..5 4..5\n5..6 5..6 5..6 5..6 5..6 4..5 4..5\nD 0 480 2 4\nN 0 480 1 6\n2 4\n4 7\n1 0\nN D\n",
        2,
    ),
    (
        "7\n16\n2\n5..6 5..6 5..6 5..6 5..6 5..6 4..5\n4..5 4..5 4..5 4..5 4..5 3..4 3..4\nD 0 480 2 5\nN 0 480 1 5\n1 3\n3 6\n1 0\nN D\n",
        2,
    ),
    (
        "7\n12\n3\n3..4 3..4 3..4 3..4 3..4 2..3 2..3\n3..4 3..4 3..4 3..4 3..4 2..3 2..3\n2..3 2..3 2..3 2..3 2..3 1..2 2..3\nE 0 480 2 5\nL 0 480 1 4\nN 0 480 2 4\n1 3\n3 5\n3 0\nL E\nN E\nN L\n",
        2,
    ),
    (
        "7\n16\n2\n6..7 6..7 6..7 6..7 6..7 5..6 5..6\n4..5 4..5 4..5 4..5 4..5 4..5 4..5\nD 0 480 2 6\nN 0 480 2 4\n2 4\n2 6\n1 0\nN D\n",
        2,
    ),
    (
        "7\n7\n3\n2..3 2..3 2..3 2..3 2..3 2..3 1..2\n1..2 1..2 1..2 1..2 1..2 1..2 1..2\n2..3 2..3 2..3 2..3 2..3 1..2 1..2\nE 0 480 2 5\nL 0 480 1 4\nN 0 480 1 5\n1 4\n4 7\n3 0\nL E\nN E\nN L\n",
        2,
    ),
    (
        "7\n12\n2\n4..5 4..5 4..5 4..5 4..5 4..5 3..4\n4..5 4..5 4..5 4..5 4..5 3..4 4..5\nD 0 480 1 5\nN 0 480 2 5\n1 4\n4 6\n1 0\nN D\n",
        2,
    ),
    (
        "7\n5\n2\n2..3 2..3 2..3 2..3 2..3 1..2 1..2\n1..2 1..2 1..2 1..2 1..2 1..2 1..2\nD 0 480 2 5\nN 0 480 1 5\n1 4\n4 7\n1 0\nN D\n",
        2,
    ),
];

#[test]
fn rosters_of_ranges(rt: HostRuntime) -> Result<(), Fail> {
    for (problem, lines) in &WITH_RANGES {
        assert!(rt;
            is_decided(&rt, rt.alloc(), problem, *lines, 0)?,
            "{problem}"
        );
    }
    Ok(())
}

// Exact demands of 5 to 60 weeks that have a roster.
const WITH_ROSTERS: [(&str, u32); 8] = [
    (
        "7\n5\n3\n1 2 3 3 2 0 0\n0 2 2 0 1 1 0\n0 0 0 2 2 0 0\nD 360 480 2 7\nA 840 480 2 6\nN 1320 480 2 5\n2 4\n4 7\n3 0\nN D\nN A\nA D\n",
        2,
    ),
    (
        "7\n10\n3\n2 2 2 2 2 2 2\n1 1 1 1 1 1 1\n1 1 1 1 1 1 1\nD 360 480 1 4\nA 840 480 3 6\nN 1320 480 2 5\n1 4\n2 7\n2 1\nN D\nN A\nD - N\n",
        2,
    ),
    (
        "7\n17\n3\n2 2 4 4 2 2 1\n3 3 4 5 4 4 5\n3 1 3 3 6 7 4\nD 360 480 1 5\nA 840 480 3 6\nN 1320 480 1 3\n2 4\n2 7\n3 0\nN D\nN A\nA D\n",
        2,
    ),
    (
        "7\n25\n3\n5 5 5 5 6 4 4\n5 5 5 5 5 4 4\n6 6 6 7 6 4 5\nD 360 480 3 4\nA 840 480 2 3\nN 1320 480 1 4\n1 4\n4 6\n3 1\nN D\nN A\nA D\nN - N\n",
        2,
    ),
    (
        "7\n30\n3\n7 7 7 7 7 4 4\n7 7 7 7 7 5 5\n8 8 8 8 8 5 5\nD 360 480 2 3\nA 840 480 3 4\nN 1320 480 1 6\n2 4\n5 7\n3 1\nN D\nN A\nA D\nN - N\n",
        2,
    ),
    (
        "7\n36\n2\n11 11 11 11 11 11 11\n12 12 12 12 12 12 12\nD 360 480 1 6\nN 840 480 2 3\n2 4\n5 7\n1 0\nN D\n",
        2,
    ),
    (
        "7\n45\n2\n10 9 13 12 10 12 10\n13 12 12 13 20 17 13\nD 360 480 1 5\nN 840 480 2 5\n2 4\n2 5\n1 0\nN D\n",
        2,
    ),
    (
        "7\n60\n3\n20 18 19 23 25 22 22\n13 12 11 9 8 13 16\n8 10 7 4 6 4 4\nD 360 480 2 7\nA 840 480 2 6\nN 1320 480 2 5\n2 4\n4 7\n3 0\nN D\nN A\nA D\n",
        2,
    ),
];

#[test]
fn rosters_of_exact_demands(rt: HostRuntime) -> Result<(), Fail> {
    for (problem, lines) in &WITH_ROSTERS {
        assert!(rt;
            is_decided(&rt, rt.alloc(), problem, *lines, 0)?,
            "{problem}"
        );
    }
    Ok(())
}

// Demands of 4 to 56 weeks that no roster meets: one leaf is enough for each but the last.
const WITHOUT_ROSTERS: [(&str, u32); 9] = [
    (
        "7\n4\n3\n1 1 1 1 1 0 1\n1 1 1 1 2 0 1\n1 0 2 0 1 1 1\nD 360 480 3 4\nA 840 480 3 5\nN 1320 480 3 5\n2 3\n4 5\n2 1\nN D\nA D\nN - N\n",
        2,
    ),
    (
        "7\n6\n3\n1 1 1 1 0 1 1\n1 1 1 1 1 0 0\n0 0 0 0 0 1 1\nD 360 480 2 6\nA 840 480 2 6\nN 1320 480 2 6\n1 3\n2 6\n2 1\nN D\nA D\nN - N\n",
        2,
    ),
    (
        "7\n7\n3\n1 1 1 1 1 1 1\n1 1 1 1 1 1 1\n0 0 0 0 0 0 0\nD 360 480 1 6\nA 840 480 2 3\nN 1320 480 1 4\n2 5\n3 6\n3 0\nN D\nN A\nA D\n",
        2,
    ),
    (
        "7\n12\n3\n3 3 3 3 3 3 3\n4 4 4 4 4 3 3\n4 4 4 4 4 3 3\nD 360 480 1 5\nA 840 480 3 6\nN 1320 480 1 5\n1 5\n5 6\n2 0\nN A\nA D\n",
        2,
    ),
    (
        "7\n20\n2\n9 9 10 9 9 7 6\n4 4 4 4 4 3 3\nD 360 480 3 3\nN 840 480 2 4\n1 3\n4 6\n1 1\nN D\nD - N\n",
        2,
    ),
    (
        "7\n23\n3\n7 7 7 7 7 7 7\n6 6 6 6 6 6 6\n4 4 4 4 4 4 4\nD 360 480 2 5\nA 840 480 3 4\nN 1320 480 2 5\n2 4\n2 5\n3 0\nN D\nN A\nA D\n",
        2,
    ),
    (
        "7\n51\n2\n24 25 23 24 24 17 16\n10 10 11 10 10 7 7\nD 360 480 3 3\nN 840 480 3 4\n2 3\n2 7\n1 1\nN D\nD - N\n",
        2,
    ),
    (
        "7\n56\n3\n20 20 20 20 21 17 17\n17 17 17 17 17 15 15\n13 13 13 12 13 11 11\nD 360 480 2 5\nA 840 480 1 3\nN 1320 480 3 5\n1 4\n2 5\n3 1\nN D\nN A\nA D\nN - N\n",
        2,
    ),
    (
        "7\n5\n3\n2 2 2 2 2 1 1\n1 1 1 1 1 1 1\n1 1 1 1 1 1 1\nD 360 480 1 4\nA 840 480 2 6\nN 1320 480 3 6\n2 3\n5 6\n3 1\nN D\nN A\nA D\nN - N\n",
        50,
    ),
];

#[test]
fn refutations_are_found(rt: HostRuntime) -> Result<(), Fail> {
    for (problem, lines) in &WITHOUT_ROSTERS {
        assert!(rt;
            is_decided(&rt, rt.alloc(), problem, *lines, 1)?,
            "{problem}"
        );
    }
    Ok(())
}
