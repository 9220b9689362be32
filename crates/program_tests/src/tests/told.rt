// What is told of answers, to the byte. The sentences are those of docs/WORDS.md.
use super::explained::{CLINIC, COMMA};
use super::plans::THREE_OF_FIVE;
use super::{
    Ending, NINE_WEEKS, NINE_WEEKS_ROSTER, ended_by, outcome_of, shelf_by_sevens, sink_of, words_in,
};
use clean_words::NoGate;
use std::alloc::Global;
use std::test::Fail;
use std::thread::Threads;
use test_helpers::MemorySink;

// One day a week, on which two or three of three work.
const TWO_OR_THREE: &str = "1\n3\n1\n2..3\nD 360 480 1 3\n1 3\n1 3\n0 0\n";

const CLINIC_LOG: &str = "rwsp-log 3\nrules 3 4 5 6 7 8 9 10 11 12 13\nturn D 1\nblocks -\n";

// What is told of the clinic, by `plan` and by `mend`.
const PLAN_WORDS: &str =
    "rwsp: there is no roster; the log printed is the reason\nrwsp: it was refuted by a count, without cases\nrwsp: no roster meets these rules together (the log is the proof):\nrwsp: 3: at most 3 days off in a row\nrwsp: 4: at least 2 days off in a row\nrwsp: 5: at most 4 days of work in a row\nrwsp: 6: at least 2 days of work in a row\nrwsp: 7: day 1: D 2, off 0\nrwsp: 8: day 2: D 2, off 0\nrwsp: 9: day 3: D 2, off 0\nrwsp: 10: day 4: D 2, off 0\nrwsp: 11: day 5: D 2, off 0\nrwsp: 12: day 6: D 0, off 2\nrwsp: 13: day 7: D 0, off 2\nrwsp: counting shows it: 4 days off make 2 blocks of 2 to 3 days, 10 days of work make 3 to 5 blocks of 2 to 4 days, and 14 days make 2 to 3 blocks of each; but round the cycle there are as many blocks of one as of the other\nrwsp: `mend` looks for single changes that give a roster\n";

const MEND_WORDS: &str =
    "rwsp: each of these changes alone gives a roster:\nrwsp: 5: change the greatest block of work from 4 to 5 days\nrwsp: 7: let day 1 have 0 to 2 D in place of 2\nrwsp: 11: let day 5 have 0 to 2 D in place of 2\nrwsp: no other single change gives a roster\nrwsp: 4 days off make 2 blocks of 2 to 3 days, 10 days of work make 3 to 5 blocks of 2 to 4 days, and 14 days make 2 to 3 blocks of each; but round the cycle there are as many blocks of one as of the other\n";

// How a run ends, and what is told by it, where there is room for so much of that.
fn told_in<R: Threads + Sync>(
    rt: &R,
    alloc: Global,
    line: &str,
    files: &[(&str, &str)],
    room: usize,
) -> Result<(Ending, Ending), Fail> {
    let words = words_in(alloc, line)?;
    let mut shelf = shelf_by_sevens(alloc, files, 0)?;
    let mut sink = sink_of(alloc, 0)?;
    let mut told = MemorySink::new(alloc, room, 9, Vec::new(alloc))?;
    let outcome = outcome_of(rt, alloc, &words, &mut shelf, &mut sink, &mut told, &NoGate);
    let status = outcome.into_status();
    let said = ended_by(alloc, status, &told)?;
    let printed = ended_by(alloc, status, &sink)?;
    Ok((printed, said))
}

// Command lines with their files, their statuses and what is told.
const CASES: [(&str, &str, &str, u8, &str); 11] = [
    ("plan F", CLINIC, "", 1, PLAN_WORDS),
    ("mend F", CLINIC, "", 0, MEND_WORDS),
    (
        "verify F G",
        NINE_WEEKS,
        NINE_WEEKS_ROSTER,
        0,
        "rwsp: the roster meets every rule\n",
    ),
    (
        "verify F G",
        TWO_OR_THREE,
        "D\n-\n-\n",
        5,
        "rwsp: the roster breaks rule 7: on day 1 there are 1 of D, and 2 to 3 are wanted\n",
    ),
    (
        "plan F",
        COMMA,
        "",
        3,
        "rwsp: line 3: 1,, but the number of shifts was awaited\nrwsp: words stand apart by blanks, not by commas\n",
    ),
    ("explain F", COMMA, "", 3, ""),
    ("show F", CLINIC, "", 0, ""),
    ("plan", "", "", 2, ""),
    (
        "on F G 2026-12-01 2026-11-30",
        CLINIC,
        "",
        3,
        "rwsp: the calendar would reach too far, or the date comes before the roster's first day\n",
    ),
    (
        "best F",
        TWO_OR_THREE,
        "",
        3,
        "rwsp: the command is for weeks of seven days, and these have 1\n",
    ),
    (
        "plan F --budget 1",
        THREE_OF_FIVE,
        "",
        4,
        "rwsp: the budget was spent; the log printed is as far as it came, and no reason\nrwsp: 0 cases are closed and 2 were left open, so nothing is known of rosters as a whole\nrwsp: 3 days of D cannot be made of blocks of 2 days: 1 block has at most 2 days, and 2 at least 4\nrwsp: 1 block of days off and of work has at most 4 days, 2 at least 6, and there are 5\n",
    ),
];

#[test]
fn words_on_answers(rt: HostRuntime) -> Result<(), Fail> {
    for (line, problem, second, status, told) in &CASES {
        let files = [("F", *problem), ("G", *second)];
        let (printed, said) = told_in(&rt, rt.alloc(), line, &files, 10_000)?;
        assert_eq!(rt; printed.status, *status, "{line}");
        assert_eq!(rt; said.text.as_str(), *told, "{line}");
    }
    Ok(())
}

// A sink that is closed or full gets what there is room for of the words, and neither the answer nor the status is
// another.
#[test]
fn words_that_cannot_be_told(rt: HostRuntime) -> Result<(), Fail> {
    let files = [("F", CLINIC)];
    for room in [0usize, 1, 9, 100] {
        let (printed, said) = told_in(&rt, rt.alloc(), "plan F", &files, room)?;
        assert_eq!(rt; printed.status, 1);
        assert_eq!(rt; printed.text.as_str(), CLINIC_LOG);
        assert_eq!(rt; said.text.as_str(), &PLAN_WORDS[..room]);
    }
    Ok(())
}
