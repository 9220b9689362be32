// Logs that count blocks, to the byte. The cases are worked by hand.
use super::plans::{FOUR_OF_SEVEN, THREE_OF_FIVE};
use super::{NINE_WEEKS, line_ends};
use std::test::Fail;

// Three days D are no sum of blocks of two.
const COUNTED: &str = "rwsp-log 3\nrules 1 2 7\nturn D 1\nblocks D\n";

const WITH_ALL_RULES: &str = "rwsp-log 3\nrules 1 2 3 4 5 6 7\nturn D 1\nblocks D\n";

const OF_FIVE_WEEKS: &str =
    "weeks 5 none\nrwsp-log 3\nrules 1 2 7\nturn D 1\nblocks D\nnone to 5\n";

// Seven days D in blocks of three.
const THREES: &str = "7\n3\n1\n1 1 1 1 1 1 1\nD 360 480 3 3\n1 14\n1 7\n0 0\n";

const OF_THREES: &str = "rwsp-free 2\nrules 1 2 7 8 9 10 11 12 13\ngoal 0\nblocks D\n";

// A command, a problem, a second file, the status and what is printed.
const ANSWERS: [(&str, &str, &str, u8, &str); 5] = [
    ("plan F", THREE_OF_FIVE, "", 1, COUNTED),
    // 42 days of work are no sum of blocks of four, and every shift has blocks enough
    (
        "plan F",
        FOUR_OF_SEVEN,
        "",
        1,
        "rwsp-log 3\nrules 7 8 9 10 14 15 16 17 18 19 20\nturn D 1\nblocks -\n",
    ),
    ("staff F 5 5", THREE_OF_FIVE, "", 1, OF_FIVE_WEEKS),
    ("best F", THREES, "", 1, OF_THREES),
    ("reduce F G", THREE_OF_FIVE, WITH_ALL_RULES, 0, COUNTED),
];

// A problem, a log over it, the status and the verdict.
const VERDICTS: [(&str, &str, u8, &str); 13] = [
    (THREE_OF_FIVE, COUNTED, 0, "accepted: rules 1 2 7\n"),
    (
        THREE_OF_FIVE,
        "rwsp-log 3\nrules 1 7\nturn D 1\nblocks D\n",
        5,
        "log refused: unnamed 2 line 4\n",
    ),
    (
        THREE_OF_FIVE,
        "rwsp-log 3\nrules 1 2\nturn\nblocks D\n",
        5,
        "log refused: unnamed 7 line 4\n",
    ),
    // the leaf goes by no domains
    (
        THREE_OF_FIVE,
        "rwsp-log 3\nrules 1 2 7\nturn\nsplit 1 1 D\nblocks D\nblocks D\n",
        0,
        "accepted: rules 1 2 7\n",
    ),
    // one or two blocks of days off, and three days of work in blocks of two
    (
        THREE_OF_FIVE,
        "rwsp-log 3\nrules 3 4 5 6 7\nturn\nblocks -\n",
        0,
        "accepted: rules 3 4 5 6 7\n",
    ),
    (
        THREE_OF_FIVE,
        "rwsp-log 3\nrules 3 4 5 7\nturn\nblocks -\n",
        5,
        "log refused: unnamed 6 line 4\n",
    ),
    (
        THREE_OF_FIVE,
        "rwsp-log 2\nrules 1 2 7\nturn D 1\nblocks D\n",
        5,
        "log refused: form line 4\n",
    ),
    (
        THREE_OF_FIVE,
        "rwsp-log 1\nrules 1 2 7\nblocks D\n",
        5,
        "log refused: form line 3\n",
    ),
    (
        THREE_OF_FIVE,
        "rwsp-log 3\nrules 1 2 7\nblocks D\n",
        5,
        "log refused: form line 3\n",
    ),
    (
        THREE_OF_FIVE,
        "rwsp-log 3\nrules 1 2 7\nturn\nblocks Q\n",
        5,
        "log refused: name line 4\n",
    ),
    // fourteen days D in blocks of two to seven, and 21 days off in six to ten blocks, with as many of work
    (
        NINE_WEEKS,
        "rwsp-log 3\nrules 1 2 3 4 5 6 7 8 9 10 11 12 13 14 15 16 17 18 19 20\nturn\nblocks D\n",
        5,
        "log refused: fails line 4\n",
    ),
    (
        NINE_WEEKS,
        "rwsp-log 3\nrules 1 2 3 4 5 6 7 8 9 10 11 12 13 14 15 16 17 18 19 20\nturn\nblocks -\n",
        5,
        "log refused: fails line 4\n",
    ),
    (
        FOUR_OF_SEVEN,
        "rwsp-log 3\nrules 7 8 9 10 14 15 16 17 18 19 20\nturn\nblocks -\n",
        0,
        "accepted: rules 7 8 9 10 14 15 16 17 18 19 20\n",
    ),
];

#[test]
fn answers_that_count(rt: HostRuntime) -> Result<(), Fail> {
    for (line, problem, second, status, text) in &ANSWERS {
        let files = [("F", *problem), ("G", *second)];
        assert!(rt;
            line_ends(&rt, rt.alloc(), line, &files, *status, text)?,
            "{line}"
        );
    }
    Ok(())
}

#[test]
fn logs_that_count_are_judged(rt: HostRuntime) -> Result<(), Fail> {
    for (problem, log, status, text) in &VERDICTS {
        let files = [("F", *problem), ("G", *log)];
        assert!(rt;
            line_ends(&rt, rt.alloc(), "check F G", &files, *status, text)?,
            "{log}"
        );
    }
    Ok(())
}

// A command of the other two verdicts, a problem, a text, the status and the verdict.
const OTHER_VERDICTS: [(&str, &str, &str, u8, &str); 3] = [
    (
        "check-staff F G",
        THREE_OF_FIVE,
        OF_FIVE_WEEKS,
        0,
        "accepted: none 5 to 5\n",
    ),
    (
        "check-free F G",
        THREES,
        OF_THREES,
        0,
        "accepted: goal 0 rules 1 2 7 8 9 10 11 12 13\n",
    ),
    (
        "check-free F G",
        THREES,
        "rwsp-free 1\nrules 1 2 7 8 9 10 11 12 13\ngoal 0\nblocks D\n",
        5,
        "log refused: form line 4\n",
    ),
];

#[test]
fn other_texts_that_count_are_judged(rt: HostRuntime) -> Result<(), Fail> {
    for (line, problem, text, status, verdict) in &OTHER_VERDICTS {
        let files = [("F", *problem), ("G", *text)];
        assert!(rt;
            line_ends(&rt, rt.alloc(), line, &files, *status, verdict)?,
            "{text}"
        );
    }
    Ok(())
}
