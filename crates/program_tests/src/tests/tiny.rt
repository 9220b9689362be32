// Tiny problems against a listing of all their rosters.
use super::plans::{is_accepted, printed};
use super::{ran, verifies};
use std::alloc::{AllocError, Global};
use std::test::Fail;
use std::thread::Threads;

// Problems; the texts of their rosters, with a blank line below each; some cells; and what `verify` says of these. The
// rows are what `bench/tiny_problems --every 4001 --first 57 --table` prints, which goes through all words by the rules
// as docs/FORMATS.md gives them.
const TINY: [(&str, &str, &str, &str); 36] = [
    (
        "1\n4\n1\n0..1\nA 360 480 1 5\n2 3\n1 5\n0 0\n",
        "-\n-\n-\nA\n\n-\n-\nA\n-\n\n-\nA\n-\n-\n\nA\n-\n-\n-\n\n",
        "-\nA\n-\n-\n",
        "meets\n",
    ),
    (
        "1\n4\n1\n2..2\nA 360 480 2 2\n0 0\n2 5\n0 0\n",
        "",
        "A\n-\n-\n-\n",
        "breaks rule 2 min shift A week 4 day 1 length 3\n",
    ),
    (
        "2\n2\n1\n0..1 1..1\nA 360 480 1 1\n1 5\n1 5\n0 0\n",
        "- -\n- A\n\n- A\n- -\n\n",
        "A -\nA A\n",
        "breaks rule 1 max shift A week 2 day 1 length 2\n",
    ),
    (
        "2\n2\n1\n0..2 1..1\nA 360 480 0 0\n1 1\n2 5\n0 0\n",
        "",
        "A A\n- A\n",
        "breaks rule 1 max shift A week 1 day 1 length 1\n",
    ),
    (
        "1\n3\n2\n0..1\n0..1\nA 360 480 1 2\nB 360 480 2 2\n1 5\n1 1\n0 0\n",
        "-\n-\nA\n\n-\nA\n-\n\nA\n-\n-\n\n",
        "A\nA\n-\n",
        "breaks rule 7 max work week 1 day 1 length 2\n",
    ),
    (
        "1\n3\n2\n0..1\n2..3\nA 360 480 1 2\nB 360 480 1 2\n1 2\n1 1\n1 0\nA B\n",
        "",
        "B\n-\n-\n",
        "breaks rule 10 day 1\n",
    ),
    (
        "1\n3\n2\n1..2\n0..1\nA 360 480 1 1\nB 360 480 2 2\n1 2\n1 1\n1 1\nB B\nA - B\n",
        "-\n-\nA\n\n-\nA\n-\n\nA\n-\n-\n\n",
        "B\nB\nA\n",
        "breaks rule 7 max work week 1 day 1 length 2\n",
    ),
    (
        "1\n3\n2\n1..2\n2..3\nA 360 480 1 1\nB 360 480 1 1\n1 5\n1 2\n0 0\n",
        "",
        "B\n-\nB\n",
        "breaks rule 3 max shift B week 3 day 1 length 2\n",
    ),
    (
        "1\n4\n2\n0..1\n1..1\nA 360 480 1 2\nB 360 480 1 5\n1 5\n2 2\n2 0\nB -\n- A\n",
        "-\n-\nB\nA\n\n-\nB\nA\n-\n\nA\n-\n-\nB\n\nB\nA\n-\n-\n\n",
        "-\nA\nA\nA\n",
        "breaks rule 1 max shift A week 2 day 1 length 3\n",
    ),
    (
        "1\n4\n2\n0..1\n3..3\nA 360 480 1 2\nB 360 480 2 2\n1 2\n2 2\n1 1\nB B\nA - B\n",
        "",
        "A\nA\nA\nB\n",
        "breaks rule 1 max shift A week 1 day 1 length 3\n",
    ),
    (
        "1\n4\n2\n1..2\n1..1\nA 360 480 1 1\nB 360 480 1 2\n1 5\n1 5\n2 0\nB -\n- A\n",
        "-\n-\nB\nA\n\n-\nB\nA\n-\n\nA\n-\n-\nB\n\nB\nA\n-\n-\n\n",
        "-\nB\nA\nA\n",
        "breaks rule 1 max shift A week 3 day 1 length 2\n",
    ),
    (
        "1\n4\n2\n1..2\n3..3\nA 360 480 1 1\nB 360 480 1 1\n1 2\n1 5\n1 1\nB B\nA - B\n",
        "",
        "A\nB\nA\n-\n",
        "breaks rule 11 day 1\n",
    ),
    (
        "1\n4\n2\n2..2\n0..1\nA 360 480 1 5\nB 360 480 1 5\n1 1\n1 1\n0 0\n",
        "-\nA\n-\nA\n\nA\n-\nA\n-\n\n",
        "-\n-\nA\n-\n",
        "breaks rule 5 max off week 1 day 1 length 2\n",
    ),
    (
        "1\n4\n2\n2..2\n2..3\nA 360 480 1 5\nB 360 480 1 2\n2 2\n1 1\n1 0\nA B\n",
        "",
        "B\nA\nB\nB\n",
        "breaks rule 3 max shift B week 3 day 1 length 3\n",
    ),
    (
        "2\n1\n2\n0..0 0..1\n0..1 0..0\nA 360 480 2 2\nB 360 480 1 5\n1 1\n1 1\n1 1\nB B\nA - B\n",
        "B -\n\n",
        "- A\n",
        "breaks rule 2 min shift A week 1 day 1 length 3\n",
    ),
    (
        "2\n1\n2\n0..1 0..0\n0..1 0..0\nA 360 480 2 2\nB 360 480 1 2\n2 2\n1 2\n0 0\n",
        "",
        "- B\n",
        "breaks rule 6 min off week 1 day 2 length 3\n",
    ),
    (
        "2\n1\n2\n0..1 0..1\n0..1 0..0\nA 360 480 2 2\nB 360 480 1 1\n1 1\n1 2\n1 0\nA B\n",
        "B -\n\n",
        "- B\n",
        "breaks rule 11 day 2\n",
    ),
    (
        "2\n2\n2\n0..0 0..0\n0..0 1..1\nA 360 480 1 2\nB 360 480 2 2\n2 2\n1 2\n2 0\nB -\n- A\n",
        "",
        "A B\nB A\n",
        "breaks rule 7 max work week 1 day 1 length 3\n",
    ),
    (
        "2\n2\n2\n0..0 0..0\n1..1 1..1\nA 360 480 1 1\nB 360 480 1 5\n2 2\n2 2\n0 0\n",
        "- -\nB B\n\n- B\nB -\n\nB -\n- B\n\nB B\n- -\n\n",
        "B A\nA -\n",
        "breaks rule 1 max shift A week 1 day 2 length 2\n",
    ),
    (
        "2\n2\n2\n0..0 0..0\n1..2 1..1\nA 360 480 1 1\nB 360 480 2 2\n1 1\n2 2\n1 0\nA B\n",
        "",
        "- B\n- B\n",
        "breaks rule 4 min shift B week 1 day 1 length 3\n",
    ),
    (
        "2\n2\n2\n0..0 0..1\n1..2 0..1\nA 360 480 1 5\nB 360 480 1 1\n1 1\n1 5\n1 0\nA B\n",
        "B -\nB -\n\n",
        "A -\n- B\n",
        "breaks rule 5 max off week 1 day 2 length 2\n",
    ),
    (
        "2\n2\n2\n0..0 1..1\n0..0 0..1\nA 360 480 2 2\nB 360 480 2 2\n2 2\n1 5\n2 0\nB -\n- A\n",
        "",
        "A -\nA B\n",
        "breaks rule 2 min shift A week 1 day 2 length 3\n",
    ),
    (
        "2\n2\n2\n0..0 1..2\n0..1 0..1\nA 360 480 1 1\nB 360 480 1 5\n1 2\n1 1\n1 1\nB B\nA - B\n",
        "- A\n- A\n\n",
        "B B\n- -\n",
        "breaks rule 7 max work week 1 day 1 length 2\n",
    ),
    (
        "2\n2\n2\n0..1 0..0\n0..0 0..0\nA 360 480 1 5\nB 360 480 2 2\n1 5\n1 2\n2 0\nB -\n- A\n",
        "",
        "A -\nA -\n",
        "breaks rule 10 not - A week 1 day 2 length 2\n",
    ),
    (
        "2\n2\n2\n0..1 1..1\n0..1 0..0\nA 360 480 1 1\nB 360 480 1 2\n1 2\n1 5\n1 1\nB B\nA - B\n",
        "- -\nB A\n\n- A\nB -\n\nB -\n- A\n\nB A\n- -\n\n",
        "- -\nB A\n",
        "meets\n",
    ),
    (
        "2\n2\n2\n0..1 1..1\n1..1 0..0\nA 360 480 1 1\nB 360 480 1 1\n1 1\n1 1\n0 0\n",
        "",
        "A A\n- -\n",
        "breaks rule 1 max shift A week 1 day 1 length 2\n",
    ),
    (
        "2\n2\n2\n1..1 0..0\n0..0 1..2\nA 360 480 1 2\nB 360 480 1 2\n2 2\n1 2\n1 1\nB B\nA - B\n",
        "- -\nA B\n\n- B\nA -\n\nA -\n- B\n\nA B\n- -\n\n",
        "B B\nA B\n",
        "breaks rule 3 max shift B week 2 day 2 length 3\n",
    ),
    (
        "2\n2\n2\n1..1 0..0\n0..1 1..2\nA 360 480 1 2\nB 360 480 1 1\n1 1\n2 2\n0 0\n",
        "",
        "A B\nB A\n",
        "breaks rule 3 max shift B week 1 day 2 length 2\n",
    ),
    (
        "2\n2\n2\n1..1 0..1\n0..0 1..1\nA 360 480 1 5\nB 360 480 1 5\n2 2\n2 2\n1 1\nB B\nA - B\n",
        "- -\nA B\n\n- B\nA -\n\nA -\n- B\n\nA B\n- -\n\n",
        "B B\nB -\n",
        "breaks rule 6 min off week 2 day 1 length 3\n",
    ),
    (
        "2\n2\n2\n1..1 0..1\n1..1 1..1\nA 360 480 1 5\nB 360 480 1 1\n2 2\n1 5\n1 0\nA B\n",
        "",
        "- B\n- A\n",
        "breaks rule 6 min off week 1 day 2 length 3\n",
    ),
    (
        "2\n2\n2\n1..2 0..0\n0..1 0..1\nA 360 480 1 5\nB 360 480 1 1\n1 2\n2 2\n0 0\n",
        "- -\nA B\n\n- B\nA -\n\nA -\n- B\n\nA B\n- -\n\n",
        "A -\nA A\n",
        "breaks rule 7 max work week 2 day 1 length 3\n",
    ),
    (
        "2\n2\n2\n1..2 0..0\n1..1 0..1\nA 360 480 2 2\nB 360 480 2 2\n1 5\n2 2\n1 0\nA B\n",
        "",
        "- -\n- A\n",
        "breaks rule 2 min shift A week 2 day 1 length 3\n",
    ),
    (
        "2\n2\n2\n1..2 0..1\n1..1 0..1\nA 360 480 1 2\nB 360 480 1 1\n1 5\n1 5\n1 0\nA B\n",
        "A -\nB -\n\nA -\nB A\n\nB -\nA -\n\nB A\nA -\n\n",
        "- A\nA B\n",
        "breaks rule 9 not A B week 2 day 1 length 2\n",
    ),
    (
        "2\n2\n2\n1..2 1..1\n0..0 0..1\nA 360 480 1 1\nB 360 480 1 2\n1 5\n1 5\n1 1\nB B\nA - B\n",
        "",
        "- A\n- B\n",
        "breaks rule 10 not A - B week 1 day 2 length 3\n",
    ),
    (
        "2\n2\n2\n1..2 1..2\n0..1 0..0\nA 360 480 2 2\nB 360 480 2 2\n2 2\n1 2\n0 0\n",
        "- -\nA A\n\n- A\nA -\n\nA -\n- A\n\nA A\n- -\n\n",
        "B -\nB -\n",
        "breaks rule 4 min shift B week 1 day 2 length 3\n",
    ),
    (
        "2\n2\n2\n1..2 1..2\n1..1 0..0\nA 360 480 2 2\nB 360 480 1 2\n1 1\n1 2\n1 0\nA B\n",
        "",
        "B -\nB B\n",
        "breaks rule 3 max shift B week 2 day 1 length 3\n",
    ),
];

// Whether `check` accepts the log, and what `reduce` makes of it.
fn is_refutation<R: Threads + Sync>(
    rt: &R,
    alloc: Global,
    problem: &str,
    log: &str,
) -> Result<bool, Fail> {
    let reduced = ran(rt, alloc, "reduce F G", &[("F", problem), ("G", log)], 0, 0)?;
    Ok(
        is_accepted(rt, alloc, problem, log)?
            && is_accepted(rt, alloc, problem, reduced.text.as_str())?,
    )
}

// Whether `verify` says this of the cells, and accepts each roster of the listing.
fn are_judged<R: Threads + Sync>(
    rt: &R,
    alloc: Global,
    problem: &str,
    rosters: &str,
    cells: &str,
    verdict: &str,
) -> Result<bool, AllocError> {
    let status = if verdict == "meets\n" { 0 } else { 5 };
    for roster in rosters.split("\n\n") {
        if !roster.is_empty() && !verifies(rt, alloc, problem, roster, 0, "meets\n")? {
            return Ok(false);
        }
    }
    verifies(rt, alloc, problem, cells, status, verdict)
}

#[test]
fn words_are_judged(rt: HostRuntime) -> Result<(), Fail> {
    for (problem, rosters, cells, verdict) in &TINY {
        assert!(rt;
            are_judged(&rt, rt.alloc(), problem, rosters, cells, verdict)?,
            "{problem}{cells}"
        );
    }
    Ok(())
}

// Whether the plan is a roster of the listing, which isn't empty.
fn is_listed<R: Threads + Sync>(
    rt: &R,
    alloc: Global,
    problem: &str,
    rosters: &str,
) -> Result<bool, Fail> {
    let roster = printed(rt, alloc, &["plan", "F"], problem, 0)?;
    Ok(!roster.is_empty() && rosters.contains(roster.as_str()))
}

// A plan is a roster of the listing, or a refutation where that is empty. The refutation of the problem before is none
// where there are rosters.
#[test]
fn plans_are_as_listed(rt: HostRuntime) -> Result<(), Fail> {
    let alloc = rt.alloc();
    let mut other = String::from_str(alloc, "rwsp-log 1\nrules\nopen\n")?;
    for (problem, rosters, _, _) in &TINY {
        if rosters.is_empty() {
            other = printed(&rt, alloc, &["plan", "F"], problem, 1)?;
        }
        let is_right = if rosters.is_empty() {
            is_refutation(&rt, alloc, problem, other.as_str())?
        } else {
            is_listed(&rt, alloc, problem, rosters)?
                && !is_accepted(&rt, alloc, problem, other.as_str())?
        };
        assert!(rt; is_right, "{problem}{other}");
    }
    Ok(())
}
