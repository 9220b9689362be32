// Each limit and the first number beyond it: of command lines, problem files, logs, staff texts, and of their lengths.
use super::logs::{TWOS, checks};
use super::{TWO_DAYS, USAGE, ends, line_ends, ran, shelf_of, shows, status_of, words_in};
use clean_words::NoGate;
use std::alloc::Global;
use std::test::Fail;
use std::thread::Threads;
use test_helpers::MemorySink;

// What is a command line finds no file; what isn't is answered by the usage.
const LINES: [(&str, u8, &str); 70] = [
    ("", 2, USAGE),
    ("show", 2, USAGE),
    ("show ", 2, USAGE),
    ("show F", 6, ""),
    ("show -F", 2, USAGE),
    ("verify F G", 6, ""),
    ("verify F", 2, USAGE),
    ("verify F -", 2, USAGE),
    ("reduce F G", 6, ""),
    ("reduce F G H", 2, USAGE),
    ("plan F --budget 1", 6, ""),
    ("plan F --budget 0", 2, USAGE),
    ("plan F --budget 200000", 6, ""),
    ("plan F --budget 200001", 2, USAGE),
    ("plan F --budget 000000005", 6, ""),
    ("plan F --budget 0000000005", 2, USAGE),
    ("plan F --budget -1", 2, USAGE),
    ("plan --budget 5 F", 2, USAGE),
    ("check F G --workers 1", 6, ""),
    ("check F G --workers 0", 2, USAGE),
    ("check F G --workers 64", 6, ""),
    ("check F G --workers 65", 2, USAGE),
    ("check F --workers 4", 2, USAGE),
    ("trial 0 0", 2, USAGE),
    ("trial 0 601", 2, USAGE),
    ("trial 1000000000 1", 2, USAGE),
    ("trial one 1", 2, USAGE),
    ("trial 0", 2, USAGE),
    ("trial 0 1 2", 2, USAGE),
    ("crew F G 2024-02-29 1", 6, ""),
    ("crew F G 2025-02-29 1", 2, USAGE),
    ("crew F G 2025-2-28 1", 2, USAGE),
    ("crew F G 20250228 1", 2, USAGE),
    ("crew F G 2024-02-28 0", 2, USAGE),
    ("crew F G 2024-02-28 400", 6, ""),
    ("crew F G 2024-02-28 401", 2, USAGE),
    ("crew F G 2024-02-28 1 1", 6, ""),
    ("crew F G 2024-02-28 1 0", 2, USAGE),
    ("crew F G 2024-02-28 1 600", 6, ""),
    ("crew F G 2024-02-28 1 601", 2, USAGE),
    ("crew F -G 2024-02-28 1", 2, USAGE),
    ("crew F G 9999-12-17 1", 6, ""),
    ("crew F G 9999-12-18 1", 3, "horizon refused\n"),
    ("crew F G 9998-11-13 400", 6, ""),
    ("crew F G 9998-11-14 400", 3, "horizon refused\n"),
    ("crew F G 0000-01-01 1", 6, ""),
    ("staff F 0 1", 2, USAGE),
    ("staff F 1 64", 6, ""),
    ("staff F 1 65", 2, USAGE),
    ("staff F 537 600", 6, ""),
    ("staff F 600 600", 6, ""),
    ("staff F 600 601", 2, USAGE),
    ("staff F 2 1", 2, USAGE),
    ("staff F 1 2 --budget 0", 2, USAGE),
    ("staff F 1 2 --budget 10000", 6, ""),
    ("staff F 1 2 --budget 10001", 2, USAGE),
    ("check-staff F G", 6, ""),
    ("check-staff F", 2, USAGE),
    ("best F", 6, ""),
    ("best", 2, USAGE),
    ("best F --budget 0", 2, USAGE),
    ("best F --budget 1", 6, ""),
    ("best F --budget 200000", 6, ""),
    ("best F --budget 200001", 2, USAGE),
    ("check-free F G", 6, ""),
    ("check-free F", 2, USAGE),
    ("explain F", 6, ""),
    ("explain", 2, USAGE),
    ("explain -F", 2, USAGE),
    ("explain F G", 2, USAGE),
];

#[test]
fn command_lines(rt: HostRuntime) -> Result<(), Fail> {
    for (line, status, text) in &LINES {
        assert!(rt;
            line_ends(&rt, rt.alloc(), line, &[], *status, text)?,
            "{line}"
        );
    }
    assert!(rt; ends(&rt, rt.alloc(), &[], &[], 2, USAGE)?, "no words");
    Ok(())
}

// Problems at the limits, which are printed as they are.
const PROBLEMS_AT: [&str; 9] = [
    "28\n150\n1\n0 0 0 0 0 0 0 0 0 0 0 0 0 0 0 0 0 0 0 0 0 0 0 0 0 0 0 0\nD 360 480 1 1\n1 1\n1 1\n0 0\n",
    "7\n600\n1\n0 0 0 0 0 0 0\nD 360 480 1 7\n1 7\n1 7\n0 0\n",
    "1\n1\n1\n1\nD 360 480 1 1\n1 1\n1 1\n0 0\n",
    "1\n1\n8\n0\n0\n0\n0\n0\n0\n0\n0\nA 0 0 0 0\nB 0 0 0 0\nC 0 0 0 0\nD 0 0 0 0\nE 0 0 0 0\nF 0 0 0 0\nG 0 0 0 0\nH 0 0 0 0\n0 0\n0 0\n0 0\n",
    "2\n1\n1\n600 0..600\nD 360 480 1 1\n1 1\n1 1\n0 0\n",
    "2\n1\n1\n600..0 0\nD 10000 10000 1 1\n1 1\n1 1\n0 0\n",
    "2\n1\n1\n1 0\nD 360 480 10000 10000\n10000 10000\n10000 10000\n0 0\n",
    "2\n1\n1\n1 0\nDDDDDDDDDDDDDDDDDDDDDDDDDDDDDDDD 360 480 1 1\n1 1\n1 1\n0 0\n",
    "2\n1\n1\n1 0\nD 360 480 1 1\n1 1\n1 1\n1 1\nD -\nD - D\n",
];

#[test]
fn problems_at_the_limits(rt: HostRuntime) -> Result<(), Fail> {
    for problem in &PROBLEMS_AT {
        assert!(rt; shows(&rt, rt.alloc(), problem, 0, problem)?, "{problem}");
    }
    Ok(())
}

// As many sequences of two or three as there may be.
#[test]
fn sequences_at_the_limit(rt: HostRuntime) -> Result<(), Fail> {
    for (count, sequence) in [("64 0\n", "D D\n"), ("0 64\n", "D - D\n")] {
        let mut problem = String::from_str(rt.alloc(), "2\n1\n1\n1 0\nD 360 480 1 1\n1 1\n1 1\n")?;
        problem.push_str(count)?;
        for _ in 0..64u32 {
            problem.push_str(sequence)?;
        }
        assert!(rt;
            shows(&rt, rt.alloc(), problem.as_str(), 0, problem.as_str())?,
            "{count}"
        );
    }
    Ok(())
}

// Problems with one number or name beyond a limit, and what refuses them.
const PROBLEMS_BEYOND: [(&str, &str); 24] = [
    (
        "0\n1\n1\n1 0\nD 360 480 1 1\n1 1\n1 1\n0 0\n",
        "range 1 line 1\n",
    ),
    (
        "29\n1\n1\n1 0\nD 360 480 1 1\n1 1\n1 1\n0 0\n",
        "range 1 line 1\n",
    ),
    (
        "2\n0\n1\n1 0\nD 360 480 1 1\n1 1\n1 1\n0 0\n",
        "range 2 line 2\n",
    ),
    (
        "2\n601\n1\n1 0\nD 360 480 1 1\n1 1\n1 1\n0 0\n",
        "range 2 line 2\n",
    ),
    (
        "28\n151\n1\n1 0\nD 360 480 1 1\n1 1\n1 1\n0 0\n",
        "range 3 line 2\n",
    ),
    (
        "8\n526\n1\n1 0\nD 360 480 1 1\n1 1\n1 1\n0 0\n",
        "range 3 line 2\n",
    ),
    (
        "2\n1\n0\n1 0\nD 360 480 1 1\n1 1\n1 1\n0 0\n",
        "range 4 line 3\n",
    ),
    (
        "2\n1\n9\n1 0\nD 360 480 1 1\n1 1\n1 1\n0 0\n",
        "range 4 line 3\n",
    ),
    (
        "2\n1\n1\n601 0\nD 360 480 1 1\n1 1\n1 1\n0 0\n",
        "range 5 line 4\n",
    ),
    (
        "2\n1\n1\n0 601..0\nD 360 480 1 1\n1 1\n1 1\n0 0\n",
        "range 5 line 4\n",
    ),
    (
        "2\n1\n1\n0 0..601\nD 360 480 1 1\n1 1\n1 1\n0 0\n",
        "range 5 line 4\n",
    ),
    (
        "2\n1\n1\n1 0\nD 10001 480 1 1\n1 1\n1 1\n0 0\n",
        "range 6 line 5\n",
    ),
    (
        "2\n1\n1\n1 0\nD 360 10001 1 1\n1 1\n1 1\n0 0\n",
        "range 6 line 5\n",
    ),
    (
        "2\n1\n1\n1 0\nD 360 480 10001 1\n1 1\n1 1\n0 0\n",
        "range 7 line 5\n",
    ),
    (
        "2\n1\n1\n1 0\nD 360 480 1 10001\n1 1\n1 1\n0 0\n",
        "range 7 line 5\n",
    ),
    (
        "2\n1\n1\n1 0\nD 360 480 1 1\n10001 1\n1 1\n0 0\n",
        "range 7 line 6\n",
    ),
    (
        "2\n1\n1\n1 0\nD 360 480 1 1\n1 10001\n1 1\n0 0\n",
        "range 7 line 6\n",
    ),
    (
        "2\n1\n1\n1 0\nD 360 480 1 1\n1 1\n10001 1\n0 0\n",
        "range 7 line 7\n",
    ),
    (
        "2\n1\n1\n1 0\nD 360 480 1 1\n1 1\n1 10001\n0 0\n",
        "range 7 line 7\n",
    ),
    (
        "2\n1\n1\n1 0\nD 360 480 1 1\n1 1\n1 1\n65 0\n",
        "range 8 line 8\n",
    ),
    (
        "2\n1\n1\n1 0\nD 360 480 1 1\n1 1\n1 1\n0 65\n",
        "range 9 line 8\n",
    ),
    (
        "2\n1\n1\n1 0\nDDDDDDDDDDDDDDDDDDDDDDDDDDDDDDDDD 360 480 1 1\n1 1\n1 1\n0 0\n",
        "name line 5\n",
    ),
    (
        "0000000002\n1\n1\n1 0\nD 360 480 1 1\n1 1\n1 1\n0 0\n",
        "number line 1\n",
    ),
    (
        "2\n1000000000\n1\n1 0\nD 360 480 1 1\n1 1\n1 1\n0 0\n",
        "number line 2\n",
    ),
];

#[test]
fn problems_beyond_the_limits(rt: HostRuntime) -> Result<(), Fail> {
    for (problem, why) in &PROBLEMS_BEYOND {
        assert!(rt; is_refused(&rt, rt.alloc(), problem, why)?, "{problem}");
    }
    Ok(())
}

// Whether the problem is refused for this.
fn is_refused<R: Threads + Sync>(
    rt: &R,
    alloc: Global,
    problem: &str,
    why: &str,
) -> Result<bool, Fail> {
    let refused = ran(rt, alloc, "show F", &[("F", problem)], 0, 0)?;
    Ok(refused.status == 3 && refused.text.strip_prefix("file refused: ") == Some(why))
}

// No shift and no day off is allowed, so every sequence of days is bad for rule 1 or 3.
const NOTHING: &str = "1\n6\n1\n3\nD 360 480 1 0\n1 0\n1 6\n0 0\n";

const THIRTY: &str = "1\n6\n1\n3\nD 360 480 1 30\n1 6\n1 6\n0 0\n";

const THIRTY_ONE: &str = "1\n6\n1\n3\nD 360 480 1 31\n1 6\n1 6\n0 0\n";

const FORM: &str = "log refused: form line 3\n";

const PASSES: &str = "accepted: rules 1 3\n";

// Logs with one number at its limit or beyond.
const LOGS: [(&str, &str, u8, &str); 33] = [
    (
        NOTHING,
        "rwsp-log 1\nrules 1 3\ndead 1 1 1 rules 1 3\n",
        0,
        PASSES,
    ),
    (
        NOTHING,
        "rwsp-log 1\nrules 1 3\ndead 1 1 0 rules 1 3\n",
        5,
        FORM,
    ),
    (
        NOTHING,
        "rwsp-log 1\nrules 1 3\ndead 1 1 16800 rules 1 3\n",
        0,
        PASSES,
    ),
    (
        NOTHING,
        "rwsp-log 1\nrules 1 3\ndead 1 1 16801 rules 1 3\n",
        5,
        FORM,
    ),
    (
        NOTHING,
        "rwsp-log 1\nrules 1 3\ndead 6 1 1 rules 1 3\n",
        0,
        PASSES,
    ),
    (
        NOTHING,
        "rwsp-log 1\nrules 1 3\ndead 7 1 1 rules 1 3\n",
        5,
        FORM,
    ),
    (
        NOTHING,
        "rwsp-log 1\nrules 1 3\ndead 0 1 1 rules 1 3\n",
        5,
        FORM,
    ),
    (
        NOTHING,
        "rwsp-log 1\nrules 1 3\ndead 1 2 1 rules 1 3\n",
        5,
        FORM,
    ),
    (
        NOTHING,
        "rwsp-log 1\nrules 1 3\ndead 1 0 1 rules 1 3\n",
        5,
        FORM,
    ),
    (
        NOTHING,
        "rwsp-log 1\nrules 1 3\ndead 1 1 1 rules 1 8\n",
        5,
        FORM,
    ),
    (
        NOTHING,
        "rwsp-log 1\nrules 1 3\ndead 1 1 1 rules 0 1\n",
        5,
        FORM,
    ),
    (
        NOTHING,
        "rwsp-log 1\nrules 1 3\nbound 1 1 2800 rules 1 3 weights 1 D 1000\n",
        5,
        "log refused: unnamed 7 line 3\n",
    ),
    (
        NOTHING,
        "rwsp-log 1\nrules 1 3 7\nbound 1 1 2800 rules 1 3 weights 1 D 1000\n",
        0,
        "accepted: rules 1 3 7\n",
    ),
    (
        NOTHING,
        "rwsp-log 1\nrules 1 3 7\nbound 1 1 2800 rules 1 3 weights 1 D -1000\n",
        0,
        "accepted: rules 1 3 7\n",
    ),
    (
        NOTHING,
        "rwsp-log 1\nrules 1 3 7\nbound 1 1 2801 rules 1 3 weights 1 D 1000\n",
        5,
        FORM,
    ),
    (
        NOTHING,
        "rwsp-log 1\nrules 1 3 7\nbound 1 1 0 rules 1 3 weights 1 D 1000\n",
        5,
        FORM,
    ),
    (
        NOTHING,
        "rwsp-log 1\nrules 1 3 7\nbound 1 1 1 rules 1 3 weights 1 D 1001\n",
        5,
        FORM,
    ),
    (
        NOTHING,
        "rwsp-log 1\nrules 1 3 7\nbound 1 1 1 rules 1 3 weights 1 D -1001\n",
        5,
        FORM,
    ),
    (
        NOTHING,
        "rwsp-log 1\nrules 1 3 7\nbound 1 1 1 rules 1 3 weights 1 D 0\n",
        5,
        FORM,
    ),
    (
        NOTHING,
        "rwsp-log 1\nrules 1 3 7\nbound 1 1 1 rules 1 3 weights 2 D 1\n",
        5,
        FORM,
    ),
    (
        NOTHING,
        "rwsp-log 1\nrules 1 3\nwindow 1 6 1 16800\n",
        5,
        "log refused: fails line 3\n",
    ),
    (
        NOTHING,
        "rwsp-log 1\nrules 1 3\nwindow 1 6 1 16801\n",
        5,
        FORM,
    ),
    (
        NOTHING,
        "rwsp-log 1\nrules 1 3\nwindow 7 1 1 1\n",
        5,
        "log refused: unnamed 7 line 3\n",
    ),
    (NOTHING, "rwsp-log 1\nrules 1 3\nwindow 8 1 1 1\n", 5, FORM),
    (
        NOTHING,
        "rwsp-log 1\nrules 1 3\nsplit 6 1 D\n",
        5,
        "log refused: ends\n",
    ),
    (
        NOTHING,
        "rwsp-log 1\nrules 1 3\nsplit 1000000000 1 D\n",
        5,
        FORM,
    ),
    (
        NOTHING,
        "rwsp-log 1\nrules 7\nopen\n",
        5,
        "log refused: open line 3\n",
    ),
    (
        NOTHING,
        "rwsp-log 1\nrules 8\nopen\n",
        5,
        "log refused: form line 2\n",
    ),
    (
        NOTHING,
        "rwsp-log 0\nrules 7\nopen\n",
        5,
        "log refused: form line 1\n",
    ),
    (
        NOTHING,
        "rwsp-log 2\nrules 7\nturn D 1\nopen\n",
        5,
        "log refused: open line 4\n",
    ),
    (NOTHING, "rwsp-log 2\nrules 7\nturn D 2\nopen\n", 5, FORM),
    (
        THIRTY,
        "rwsp-log 1\nrules 1\ndead 1 1 1 rules 1\n",
        5,
        "log refused: escape line 3: -\n",
    ),
    (
        THIRTY_ONE,
        "rwsp-log 1\nrules 1\ndead 1 1 1 rules 1\n",
        5,
        "log refused: long 1 line 3\n",
    ),
];

#[test]
fn logs(rt: HostRuntime) -> Result<(), Fail> {
    for (problem, log, status, text) in &LOGS {
        assert!(rt;
            checks(&rt, rt.alloc(), problem, log, *status, text)?,
            "{log}"
        );
    }
    Ok(())
}

const FOUR_WEEKS_OF_SEVEN: &str =
    "28\n1\n1\n0 0 0 0 0 0 0 0 0 0 0 0 0 0 0 0 0 0 0 0 0 0 0 0 0 0 0 0\nD 360 480 1 7\n1 7\n1 7\n0 0\n";

// Numbers of weeks, of a staff text and of a search for the least crew.
const SIZES: [(&str, &str, &str, u8, &str); 8] = [
    (
        "check-staff F G",
        TWOS,
        "weeks 600 none\n",
        5,
        "staff refused: weeks 600 log refused: ends\n",
    ),
    (
        "check-staff F G",
        TWOS,
        "weeks 601 none\n",
        5,
        "staff refused: form line 1\n",
    ),
    (
        "check-staff F G",
        TWOS,
        "weeks 0 none\n",
        5,
        "staff refused: form line 1\n",
    ),
    (
        "check-staff F G",
        FOUR_WEEKS_OF_SEVEN,
        "weeks 150 none\n",
        5,
        "staff refused: weeks 150 log refused: ends\n",
    ),
    (
        "check-staff F G",
        FOUR_WEEKS_OF_SEVEN,
        "weeks 151 none\n",
        5,
        "staff refused: form line 1\n",
    ),
    (
        "check-staff F G",
        TWOS,
        "weeks 1000000000 none\n",
        5,
        "staff refused: form line 1\n",
    ),
    (
        "staff F 100 151",
        FOUR_WEEKS_OF_SEVEN,
        "",
        3,
        "staff range: weeks 151\n",
    ),
    (
        "staff F 600 600",
        FOUR_WEEKS_OF_SEVEN,
        "",
        3,
        "staff range: weeks 600\n",
    ),
];

#[test]
fn sizes_of_a_crew(rt: HostRuntime) -> Result<(), Fail> {
    for (line, problem, second, status, text) in &SIZES {
        let files = [("F", *problem), ("G", *second)];
        assert!(rt;
            line_ends(&rt, rt.alloc(), line, &files, *status, text)?,
            "{second}"
        );
    }
    Ok(())
}

// Files that begin with a text and are as long as they may be, by a comment, or a byte longer. A roster behind a
// heading may be as long as one by itself.
const LENGTHS: [(&str, &str, usize, u8, &str); 9] = [
    ("show L", TWO_DAYS, 1_048_576, 0, TWO_DAYS),
    ("show L", TWO_DAYS, 1_048_577, 3, "too long: problem\n"),
    ("explain L", TWO_DAYS, 1_048_577, 3, "too long: problem\n"),
    ("verify F L", "D -\n", 1_048_576, 0, "meets\n"),
    ("verify F L", "D -\n", 1_048_577, 3, "too long: roster\n"),
    (
        "crew F L 2024-02-28 1",
        "D -\n",
        1_048_576,
        0,
        "2024-02-28 D\n",
    ),
    (
        "crew F L 2024-02-28 1",
        "D -\n",
        1_048_577,
        3,
        "too long: roster\n",
    ),
    (
        "check-staff F L",
        "weeks 1 roster\nD -\n",
        1_048_591,
        0,
        "accepted: least 1 from 1\n",
    ),
    (
        "check-staff F L",
        "weeks 1 roster\nD -\n",
        1_048_592,
        5,
        "staff refused: form line 1\n",
    ),
];

// Whether the line ends so over a file of this length.
fn length_ends<R: Threads + Sync>(
    rt: &R,
    alloc: Global,
    line: &str,
    front: &str,
    length: usize,
    status: u8,
    text: &str,
) -> Result<bool, Fail> {
    let mut bytes = Vec::from_slice(alloc, front.as_bytes())?;
    bytes.push(b'#')?;
    bytes.resize(length, b'x')?;
    let long = String::from_utf8(bytes).ok().ok_or("a text")?;
    let mut shelf = shelf_of(
        alloc,
        &[("F", TWO_DAYS), ("L", long.as_str())],
        100_000,
        &[],
    )?;
    let mut sink = MemorySink::new(alloc, 1000, 1000, Vec::new(alloc))?;
    let words = words_in(alloc, line)?;
    let ended = status_of(rt, alloc, &words, &mut shelf, &mut sink, &NoGate)?;
    Ok(ended == status && sink.bytes() == text.as_bytes())
}

#[test]
fn lengths_of_files(rt: HostRuntime) -> Result<(), Fail> {
    for (line, front, length, status, text) in &LENGTHS {
        assert!(rt;
            length_ends(&rt, rt.alloc(), line, front, *length, *status, text)?,
            "{line} {length}"
        );
    }
    Ok(())
}
