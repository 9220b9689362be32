// Logs checked and reduced: what is printed, to the byte, and the status.
use super::{NINE_WEEKS, TWO_DAYS, ends, shelf_of, status_of, words_of};
use std::alloc::{AllocError, Global};
use std::test::Fail;
use std::thread::Threads;
use test_helpers::{Meeting, MemorySink};

// Three days of six, and all blocks are of two days.
pub const TWOS: &str = "1\n6\n1\n3\nD 360 480 2 2\n2 2\n2 2\n0 0\n";

// Two days of four, and days off in twos.
const TWO_OF_FOUR: &str = "1\n4\n1\n2\nD 360 480 1 1\n2 2\n1 4\n0 0\n";

// Single days, and both days are demanded.
pub const BOTH_DAYS: &str = "2\n1\n1\n1 1\nD 360 480 1 1\n1 1\n1 1\n0 0\n";

// One cell.
const ONE_CELL: &str = "1\n1\n1\n1\nD 360 480 1 7\n1 1\n1 7\n0 0\n";

// One or two days of four, and days off in twos.
const RANGES: &str = "1\n4\n1\n1..2\nD 360 480 1 1\n2 2\n1 4\n0 0\n";

// Blocks of up to 31 days.
const LONG_BLOCKS: &str = "2\n1\n1\n1 0\nD 360 480 1 31\n1 1\n1 1\n0 0\n";

// No day is demanded.
const NO_DAY: &str = "2\n1\n1\n0 0\nD 360 480 1 1\n1 1\n1 1\n0 0\n";

// Three demanded of two weeks.
pub const TOO_MANY: &str = "1\n2\n1\n3\nD 360 480 1 2\n1 2\n1 2\n0 0\n";

pub const SPLIT: &str =
    "rwsp-log 1\nrules 1 2 3 4\nsplit 1 1 D\ndead 1 1 7 rules 1 2 3 4\ndead 1 1 7 rules 1 2 3 4\n";

const SPLIT_TOO_SHORT: &str =
    "rwsp-log 1\nrules 1 2 3 4\nsplit 1 1 D\ndead 1 1 6 rules 1 2 3 4\ndead 1 1 6 rules 1 2 3 4\n";

pub const TURN: &str = "rwsp-log 2\nrules 1 2 3 4 7\nturn D 1\ndead 1 1 7 rules 1 2 3 4\n";

pub fn checks<R: Threads + Sync>(
    rt: &R,
    alloc: Global,
    problem: &str,
    log: &str,
    status: u8,
    text: &str,
) -> Result<bool, AllocError> {
    let files = [("F", problem), ("G", log)];
    ends(rt, alloc, &["check", "F", "G"], &files, status, text)
}

fn reduces<R: Threads + Sync>(
    rt: &R,
    alloc: Global,
    problem: &str,
    log: &str,
    status: u8,
    text: &str,
) -> Result<bool, AllocError> {
    let files = [("F", problem), ("G", log)];
    ends(rt, alloc, &["reduce", "F", "G"], &files, status, text)
}

#[test]
fn logs_that_pass(rt: HostRuntime) -> Result<(), Fail> {
    let cases = [
        (
            BOTH_DAYS,
            "rwsp-log 1\nrules 1 7 8\nbound 1 1 1 rules 1 weights 1 D 1 2 D 1\n",
            "accepted: rules 1 7 8\n",
        ),
        (
            TWO_OF_FOUR,
            "rwsp-log 1\nrules 1 3 4 7\nbound 1 1 2 rules 1 3 4 weights 1 D 1\n",
            "accepted: rules 1 3 4 7\n",
        ),
        (TWOS, SPLIT, "accepted: rules 1 2 3 4\n"),
        (TWOS, TURN, "accepted: rules 1 2 3 4 7\n"),
        (
            ONE_CELL,
            "rwsp-log 1\nrules 3 5\nsplit 1 1 D\nwindow 5 1 1 8\nwindow 3 1 1 2\n",
            "accepted: rules 3 5\n",
        ),
        (
            TOO_MANY,
            "rwsp-log 1\nrules 7\nday 1 - over\n",
            "accepted: rules 7\n",
        ),
    ];
    for (problem, log, text) in cases {
        assert!(rt; checks(&rt, rt.alloc(), problem, log, 0, text)?, "{text}");
    }
    Ok(())
}

// Problems, a log over each, and the refusal of the log's first bad line.
const REFUSED_LINES: [(&str, &str, &str); 12] = [
    (
        TWO_OF_FOUR,
        "rwsp-log 1\nrules 1 3 4 7\nbound 1 1 1 rules 1 3 4 weights 1 D 1\n",
        "log refused: escape line 3: D - - D\n",
    ),
    (
        TWO_OF_FOUR,
        "rwsp-log 1\nrules 1 3 4\nbound 1 1 2 rules 1 3 4 weights 1 D 1\n",
        "log refused: unnamed 7 line 3\n",
    ),
    (
        RANGES,
        "rwsp-log 1\nrules 1 3 4 7\nbound 1 1 2 rules 1 3 4 weights 1 D 1\n",
        "log refused: escape line 3: - D - - D - - D\n",
    ),
    (
        TWOS,
        "rwsp-log 1\nrules 1\nsplit 1 1 D\nsplit 1 1 D\n",
        "log refused: idle line 4\n",
    ),
    (
        LONG_BLOCKS,
        "rwsp-log 1\nrules 1\ndead 1 1 2 rules 1\n",
        "log refused: long 1 line 3\n",
    ),
    (
        TWOS,
        "rwsp-log 1\nrules 1\nsplit 1 1 Q\n",
        "log refused: name line 3\n",
    ),
    (
        TWOS,
        "rwsp-log 1\nrules 1\nsplit 7 1 D\n",
        "log refused: form line 3\n",
    ),
    (
        ONE_CELL,
        "rwsp-log 1\nrules 3 5\nsplit 1 1 D\nwindow 5 1 1 7\nwindow 3 1 1 2\n",
        "log refused: fails line 4\n",
    ),
    (
        ONE_CELL,
        "rwsp-log 1\nrules 3\nsplit 1 1 D\nwindow 5 1 1 8\nwindow 3 1 1 2\n",
        "log refused: unnamed 5 line 4\n",
    ),
    (
        ONE_CELL,
        "rwsp-log 1\nrules 3 5\nsplit 1 1 D\nwindow 5 1 1 8\n",
        "log refused: ends\n",
    ),
    (
        TOO_MANY,
        "rwsp-log 1\nrules 4\nday 1 - over\n",
        "log refused: unnamed 7 line 3\n",
    ),
    (
        NO_DAY,
        "rwsp-log 2\nrules 7\nturn D 1\nopen\n",
        "log refused: turn line 3\n",
    ),
];

#[test]
fn lines_that_are_refused(rt: HostRuntime) -> Result<(), Fail> {
    for (problem, log, text) in REFUSED_LINES {
        assert!(rt; checks(&rt, rt.alloc(), problem, log, 5, text)?, "{text}");
    }
    Ok(())
}

#[test]
fn logs_with_a_turn_that_are_refused(rt: HostRuntime) -> Result<(), Fail> {
    let cases = [
        (
            "rwsp-log 2\nrules 1 2 3 4 7\nturn D 1\ndead 1 1 6 rules 1 2 3 4\n",
            "log refused: escape line 4: D - - D D -\n",
        ),
        (
            "rwsp-log 2\nrules 1 2 3 4\nturn D 1\ndead 1 1 7 rules 1 2 3 4\n",
            "log refused: unnamed 7 line 3\n",
        ),
        (
            "rwsp-log 2\nrules 1 2 3 4 7\nturn Q 1\ndead 1 1 7 rules 1 2 3 4\n",
            "log refused: name line 3\n",
        ),
        (
            "rwsp-log 2\nrules 1 2 3 4 7\ndead 1 1 7 rules 1 2 3 4\n",
            "log refused: form line 3\n",
        ),
        ("rwsp-log 3\nrules 1\nopen\n", "log refused: form line 3\n"),
        ("rwsp-log 4\nrules 1\nopen\n", "log refused: form line 1\n"),
        (
            "rwsp-log 1\nrules 2 1\nopen\n",
            "log refused: form line 2\n",
        ),
        ("rwsp-log 1\nrules 1\nopen\n", "log refused: open line 3\n"),
    ];
    for (log, text) in cases {
        assert!(rt; checks(&rt, rt.alloc(), TWOS, log, 5, text)?, "{text}");
    }
    Ok(())
}

// A log that is cut after some of its lines, or before its last byte, or continues behind its tree.
#[test]
fn logs_that_are_cut(rt: HostRuntime) -> Result<(), Fail> {
    let ends = "log refused: ends\n";
    let cases = [
        ("", ends),
        ("rwsp-log 1\n", ends),
        ("rwsp-log 1\nrules 1 2 3 4\n", ends),
        ("rwsp-log 1\nrules 1 2 3 4\nsplit 1 1 D\n", ends),
        (
            "rwsp-log 1\nrules 1 2 3 4\nsplit 1 1 D\ndead 1 1 7 rules 1 2 3 4\n",
            ends,
        ),
        (
            "rwsp-log 1\nrules 1 2 3 4\nsplit 1 1 D\ndead 1 1 7 rules 1 2 3 4\ndead 1 1 7 rules 1 2 3 4",
            "log refused: form line 5\n",
        ),
        (
            "rwsp-log 1\nrules 1 2 3 4\nsplit 1 1 D\ndead 1 1 7 rules 1 2 3 4\ndead 1 1 7 rules 1 2 3 4\nopen\n",
            "log refused: extra line 6\n",
        ),
    ];
    for (log, text) in cases {
        assert!(rt; checks(&rt, rt.alloc(), TWOS, log, 5, text)?, "{text}");
    }
    Ok(())
}

// The first line that is refused is the same for any number of workers.
#[test]
fn any_number_of_workers(rt: HostRuntime) -> Result<(), Fail> {
    let alloc = rt.alloc();
    let files = [("F", TWOS), ("G", SPLIT_TOO_SHORT)];
    let escape = "log refused: escape line 4: D - - D D -\n";
    for workers in ["1", "2", "3", "64"] {
        let words = ["check", "F", "G", "--workers", workers];
        assert!(rt; ends(&rt, alloc, &words, &files, 5, escape)?, "{workers}");
    }
    Ok(())
}

// As many splits in a row as a roster may have cells.
#[test]
fn splits_in_a_row(rt: HostRuntime) -> Result<(), Fail> {
    let alloc = rt.alloc();
    let problem = "7\n600\n1\n0 0 0 0 0 0 0\nD 360 480 1 7\n1 7\n1 7\n0 0\n";
    let mut log = String::from_str(alloc, "rwsp-log 1\nrules\n")?;
    for p in 0..4200u32 {
        let week = p / 7 + 1;
        let day = p % 7 + 1;
        let line = format!(in alloc; "split {week} {day} D\n")?;
        log.push_str(line.as_str())?;
    }
    assert!(rt; checks(&rt, alloc, problem, log.as_str(), 5, "log refused: ends\n")?);
    Ok(())
}

#[test]
fn rules_that_are_needed(rt: HostRuntime) -> Result<(), Fail> {
    let three_days = "3\n1\n1\n2 0 1\nD 360 480 1 2\n1 7\n1 7\n0 0\n";
    let cases = [
        (
            TWO_OF_FOUR,
            "rwsp-log 1\nrules 1 3 4 7\nbound 1 1 2 rules 1 3 4 weights 1 D 1\n",
            "rwsp-log 1\nrules 1 4 7\nbound 1 1 2 rules 1 4 weights 1 D 1\n",
        ),
        (
            three_days,
            "rwsp-log 1\nrules 1 7 8 9\nbound 1 1 1 rules 1 weights 1 D 1 2 D 1 3 D 1\n",
            "rwsp-log 1\nrules 7\nbound 1 1 1 rules weights 1 D 1\n",
        ),
        (TWOS, TURN, TURN),
    ];
    for (problem, log, text) in cases {
        assert!(rt; reduces(&rt, rt.alloc(), problem, log, 0, text)?, "{text}");
    }
    Ok(())
}

// The first line with a cause is refused, also before one that isn't spelled.
#[test]
fn logs_that_are_not_reduced(rt: HostRuntime) -> Result<(), Fail> {
    let cases = [
        (
            TWO_OF_FOUR,
            "rwsp-log 1\nrules 1 3 4 7\nbound 1 1 1 rules 1 3 4 weights 1 D 1\n",
            "log refused: escape line 3: D - - D\n",
        ),
        (
            ONE_CELL,
            "rwsp-log 1\nrules 3 5\nsplit 1 1 D\nwindow 5 1 1 7\nwindow 3 1\n",
            "log refused: fails line 4\n",
        ),
        (TWO_DAYS, "", "log refused: ends\n"),
        (
            NINE_WEEKS,
            "rwsp-log 1\nrules\nopen",
            "log refused: form line 3\n",
        ),
    ];
    for (problem, log, text) in cases {
        assert!(rt; reduces(&rt, rt.alloc(), problem, log, 5, text)?, "{text}");
    }
    Ok(())
}

// Whether the words end with this status, over these files, and two workers meet at the gate.
pub fn they_meet<R: Threads + Sync>(
    rt: &R,
    alloc: Global,
    words: &[&str],
    files: &[(&str, &str)],
    status: u8,
) -> Result<bool, AllocError> {
    let gate = Meeting::new();
    let words = words_of(alloc, words)?;
    let mut shelf = shelf_of(alloc, files, 50, &[])?;
    let mut sink = MemorySink::new(alloc, 1000, 100, Vec::new(alloc))?;
    let ended = status_of(rt, alloc, &words, &mut shelf, &mut sink, &gate)?;
    Ok(ended == status && gate.took_place())
}

// Two chunks of a log are judged at once.
#[test]
fn workers_are_there_at_once(rt: HostRuntime) -> Result<(), Fail> {
    let words = ["check", "F", "G", "--workers", "2"];
    assert!(rt; they_meet(&rt, rt.alloc(), &words, &[("F", TWOS), ("G", SPLIT)], 0)?);
    Ok(())
}
