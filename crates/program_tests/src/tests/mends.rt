// Which numbers to change, to the byte. What the answers should be was counted by hand, and by listing all rosters.
use super::plans::{THREE_OF_FIVE, printed};
use super::{NINE_WEEKS, USAGE, line_ends, ran, verifies};
use std::alloc::{AllocError, Global};
use std::test::Fail;
use std::thread::Threads;

// Two rows of weeks, and both work from Monday to Friday, but at most four days in a row.
const CLINIC: &str = "7\n2\n1\n2 2 2 2 2 0 0\nD 420 480 2 5\n2 3\n2 4\n0 0\n";

// Two days of three are next to each other, round the cycle. The day off between them is the only one.
const ONCE: &str = "1\n3\n1\n2\nD 360 480 1 2\n1 1\n1 2\n1 0\nD D\n";

// The same sequence stands twice: dropping one of them changes nothing.
const TWICE: &str = "1\n3\n1\n2\nD 360 480 1 2\n1 1\n1 2\n2 0\nD D\nD D\n";

// A least of 1, a demand of all weeks and a bound of 10,000 days can't be loosened. Without the forbidden sequence the
// two days would be work without an end.
const AT_THE_LIMITS: &str = "1\n2\n1\n2\nD 360 480 1 10000\n1 1\n1 10000\n1 0\nD D\n";

// Ten weeks of fourteen work, and the four others are one block, as two have six days at least. So the ten are one block
// too; that nine in a row aren't enough takes more than a line. Three single weeks of work leave three blocks of days
// off, which have eleven days; four leave twelve days at least, and more leave more.
const TEN_OF_FOURTEEN: &str = "1\n14\n1\n10\nD 360 480 1 1\n3 4\n1 30\n0 0\n";

// In blocks of two, five weeks never work, however long the blocks of days off may be; but if they may be long, it takes
// more than a line. All else leaves too few days off, or too many.
const FIVE_BY_PAIRS: &str = "1\n14\n1\n5\nD 360 480 2 2\n2 2\n1 30\n0 0\n";

const CASES: [(&str, &str, u8, &str); 9] = [
    (
        "mend F",
        CLINIC,
        0,
        "rule 5 max work: 4 to 5\nrule 7 day 1 D: 2 to 0..2\nrule 11 day 5 D: 2 to 0..2\nno other\n",
    ),
    ("mend F", THREE_OF_FIVE, 1, "no other\n"),
    ("mend F", ONCE, 0, "rule 7 not D D: dropped\nno other\n"),
    ("mend F", TWICE, 1, "no other\n"),
    (
        "mend F",
        AT_THE_LIMITS,
        0,
        "rule 8 day 1 D: 2 to 1..2\nno other\n",
    ),
    (
        "mend F --budget 1",
        TEN_OF_FOURTEEN,
        0,
        "rule 1 max shift D: 1 to 10 or nearer\nrule 7 day 1 D: 10 to 3..10\nno other\n",
    ),
    ("mend F --budget 1", FIVE_BY_PAIRS, 4, "open 1\n"),
    ("mend F --budget 0", CLINIC, 2, USAGE),
    ("mend F G", CLINIC, 2, USAGE),
];

#[test]
fn ways_out(rt: HostRuntime) -> Result<(), Fail> {
    for (line, problem, status, text) in &CASES {
        assert!(rt;
            line_ends(&rt, rt.alloc(), line, &[("F", *problem)], *status, text)?,
            "{line}"
        );
    }
    Ok(())
}

#[test]
fn no_change_is_needed(rt: HostRuntime) -> Result<(), Fail> {
    let found = ran(&rt, rt.alloc(), "mend F", &[("F", NINE_WEEKS)], 0, 0)?;
    let text = found.text.as_str();
    let roster = text
        .strip_prefix("no change is needed\n")
        .ok_or("a roster")?;
    assert!(rt; found.status == 0);
    assert!(rt; verifies(&rt, rt.alloc(), NINE_WEEKS, roster, 0, "meets\n")?);
    Ok(())
}

#[test]
fn a_spent_budget_gives_the_log_of_the_plan(rt: HostRuntime) -> Result<(), Fail> {
    let files = [("F", THREE_OF_FIVE)];
    let planned = ran(&rt, rt.alloc(), "plan F --budget 1", &files, 0, 0)?;
    assert!(rt;
        line_ends(
            &rt,
            rt.alloc(),
            "mend F --budget 1",
            &files,
            4,
            planned.text.as_str()
        )?
    );
    Ok(())
}

// A ward of twelve whose nights come in blocks of exactly four.
fn ward(alloc: Global, nights: &str) -> Result<String, AllocError> {
    format!(in alloc;
        "7\n12\n3\n4..5 4..5 4..5 4..5 4..5 2..3 2..3\n3..4 3..4 3..4 3..4 3..4 2 2\n{nights}\nEarly 360 480 2 5\nLate 840 480 2 5\nNight 1320 480 4 4\n2 4\n3 6\n3 0\nLate Early\nNight Early\nNight Late\n"
    )
}

// The nights of a week: two on each day, but two to four on one.
fn nights_with(alloc: Global, widened: u32) -> Result<String, AllocError> {
    let mut nights = String::new(alloc);
    for day in 1..8 {
        nights.push_str(if day == widened { " 2..4" } else { " 2" })?;
    }
    Ok(nights)
}

// Whether the words, which plan, find a roster of the ward where a day may have four nights.
fn is_planned<R: Threads + Sync>(
    rt: &R,
    alloc: Global,
    words: &[&str],
    day: u32,
) -> Result<bool, Fail> {
    let nights = nights_with(alloc, day)?;
    let problem = ward(alloc, nights.as_str())?;
    let roster = printed(rt, alloc, words, problem.as_str(), 0)?;
    Ok(verifies(rt, alloc, problem.as_str(), roster.as_str(), 0, "meets\n")?)
}

// Fourteen nights are no blocks of four, and sixteen are: with four of them on one day, whichever it is. They are
// planned with a small budget too, which soon ends the search by cases.
#[test]
fn a_way_out_can_be_planned(rt: HostRuntime) -> Result<(), Fail> {
    let alloc = rt.alloc();
    let problem = ward(alloc, "2 2 2 2 2 2 2")?;
    let ways = printed(&rt, alloc, &["mend", "F"], problem.as_str(), 0)?;
    for day in 1..8 {
        let way = format!(in alloc; " day {day} Night: 2 to 2..4\n")?;
        assert!(rt; ways.as_str().contains(way.as_str()), "{way}");
        let words = ["plan", "F", "--budget", "100"];
        assert!(rt; is_planned(&rt, alloc, &words, day)?, "{day}");
    }
    assert!(rt; is_planned(&rt, alloc, &["plan", "F"], 1)?);
    Ok(())
}
