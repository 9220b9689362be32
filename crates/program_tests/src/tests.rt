// Command lines over files in memory: what is printed, to the byte, and the status.
mod answers;
mod blocks;
mod crews;
mod dates;
mod decided;
mod explained;
mod faults;
mod fills;
mod frees;
mod largest;
mod limits;
mod logs;
mod mends;
mod pages;
mod plans;
mod rests;
mod staffs;
mod tiny;
mod told;
mod trials;

ghost use Rattle.std.specs.Prelude.{◌<◌};

use clean_words::{Gate, NoGate};
use rwsp_run::{Outcome, run};
use std::alloc::{AllocError, Global};
use std::test::Fail;
use std::thread::Threads;
use test_helpers::{MemoryShelf, MemorySink};

const NINE_WEEKS: &str =
    "#Length of the schedule\n7\n#Number of Employees\n9\n##Number of Shifts\n3\n# Temporal requirements\n2 2 2 2 2 2 2\n2 2 2 2 2 2 2\n2 2 2 2 2 2 2\n#Name, start, length, least and greatest block\nD 360 480 2 7\nA 840 480 2 6\nN 1320 480 2 5\n# Days-off blocks\n2 4\n# Work blocks\n4 7\n# Forbidden sequences of length two and three\n3 0\nN D\nN A\nA D\n";

const NINE_WEEKS_ROSTER: &str =
    "D D A A N N -\n- - D D A A N\nN - - - D D A\nA N N - - - D\nD A A N N - -\n- D D A A N N\n- - - D D A A\nN N - - - D D\nA A N N - - -\n";

const TWO_DAYS: &str = "2\n1\n1\n1 0\nD 360 480 1 1\n1 1\n1 1\n0 0\n";

fn words_of(alloc: Global, words: &[&str]) -> Result<Vec<String>, AllocError> {
    let mut all = Vec::new(alloc);
    for word in words {
        all.push(String::from_str(alloc, word)?)?;
    }
    Ok(all)
}

// The words of a command line that has single blanks between them.
fn words_in(alloc: Global, line: &str) -> Result<Vec<String>, AllocError> {
    let mut all = Vec::new(alloc);
    for word in line.split(' ') {
        all.push(String::from_str(alloc, word)?)?;
    }
    Ok(all)
}

// A shelf with these files, which gives a few bytes at a time, and whose calls with these numbers fail.
fn shelf_of(
    alloc: Global,
    files: &[(&str, &str)],
    step: usize,
    failing: &[u64],
) -> Result<MemoryShelf, AllocError>
    requires { 0 < step }
{
    let mut all = Vec::new(alloc);
    for (name, text) in files {
        let name = String::from_str(alloc, name)?;
        let text = Vec::from_slice(alloc, text.as_bytes())?;
        all.push((name, text))?;
    }
    let failing = Vec::from_slice(alloc, failing)?;
    Ok(MemoryShelf::new(all, step, failing))
}

// How a run ended: its status, and the text that it wrote.
#[derive(Drop)]
struct Ending {
    status: u8,
    text: String,
}

// A sink that takes forty bytes at a time, and whose call with this number fails; none has the number 0.
fn sink_of(alloc: Global, failing: u64) -> Result<MemorySink, AllocError> {
    let failing = Vec::from_slice(alloc, &[failing])?;
    Ok(MemorySink::new(alloc, 10_000, 40, failing)?)
}

// A shelf with these files, which gives seven bytes at a time, and whose call with this number fails.
fn shelf_by_sevens(
    alloc: Global,
    files: &[(&str, &str)],
    failing: u64,
) -> Result<MemoryShelf, AllocError> {
    shelf_of(alloc, files, 7, &[failing])
}

fn ended_by(alloc: Global, status: u8, sink: &MemorySink) -> Result<Ending, Fail> {
    let bytes = Vec::from_slice(alloc, sink.bytes())?;
    let text = String::from_utf8(bytes).ok().ok_or("a text")?;
    Ok(Ending { status, text })
}

// How a run ends, of which nothing is promised: a test that calls `run` itself takes long to prove, for all that `run`
// promises.
fn outcome_of<R: Threads + Sync, G: Gate>(
    rt: &R,
    alloc: Global,
    words: &Vec<String>,
    shelf: &mut MemoryShelf,
    sink: &mut MemorySink,
    told: &mut MemorySink,
    gate: &G,
) -> Outcome {
    run(rt, alloc, words, shelf, sink, told, gate)
}

// The status of a run that can tell nothing, as where standard error is closed.
fn status_of<R: Threads + Sync, G: Gate>(
    rt: &R,
    alloc: Global,
    words: &Vec<String>,
    shelf: &mut MemoryShelf,
    sink: &mut MemorySink,
    gate: &G,
) -> Result<u8, AllocError> {
    let mut told = MemorySink::new(alloc, 0, 1, Vec::new(alloc))?;
    let outcome = outcome_of(rt, alloc, words, shelf, sink, &mut told, gate);
    Ok(outcome.into_status())
}

// A run of a command line over these files. The call of the shelf and the call of the sink with these numbers fail;
// none has the number 0.
fn ran<R: Threads + Sync>(
    rt: &R,
    alloc: Global,
    line: &str,
    files: &[(&str, &str)],
    failing_read: u64,
    failing_write: u64,
) -> Result<Ending, Fail> {
    let words = words_in(alloc, line)?;
    let mut shelf = shelf_by_sevens(alloc, files, failing_read)?;
    let mut sink = sink_of(alloc, failing_write)?;
    let status = status_of(rt, alloc, &words, &mut shelf, &mut sink, &NoGate)?;
    ended_by(alloc, status, &sink)
}

// Whether a command line ends with the status and prints the text, over these files.
fn line_ends<R: Threads + Sync>(
    rt: &R,
    alloc: Global,
    line: &str,
    files: &[(&str, &str)],
    status: u8,
    text: &str,
) -> Result<bool, Fail> {
    let found = ran(rt, alloc, line, files, 0, 0)?;
    Ok(found.status == status && found.text.as_str() == text)
}

// Whether the words end with the status and print the text, over these files.
fn ends<R: Threads + Sync>(
    rt: &R,
    alloc: Global,
    words: &[&str],
    files: &[(&str, &str)],
    status: u8,
    text: &str,
) -> Result<bool, AllocError> {
    let words = words_of(alloc, words)?;
    let mut shelf = shelf_of(alloc, files, 50, &[])?;
    let mut sink = MemorySink::new(alloc, 10_000, 7, Vec::new(alloc))?;
    let ended = status_of(rt, alloc, &words, &mut shelf, &mut sink, &NoGate)?;
    Ok(ended == status && sink.bytes() == text.as_bytes())
}

fn verifies<R: Threads + Sync>(
    rt: &R,
    alloc: Global,
    problem: &str,
    roster: &str,
    status: u8,
    text: &str,
) -> Result<bool, AllocError> {
    let files = [("F", problem), ("R", roster)];
    ends(rt, alloc, &["verify", "F", "R"], &files, status, text)
}

#[test]
fn a_roster_that_meets_all_rules(rt: HostRuntime) -> Result<(), Fail> {
    assert!(rt; verifies(&rt, rt.alloc(), NINE_WEEKS, NINE_WEEKS_ROSTER, 0, "meets\n")?);
    let ranges = "2\n1\n1\n0..1 0..1\nD 360 480 1 1\n1 1\n1 1\n0 0\n";
    assert!(rt; verifies(&rt, rt.alloc(), ranges, "- D\n", 0, "meets\n")?);
    Ok(())
}

#[test]
fn the_first_rule_that_is_broken(rt: HostRuntime) -> Result<(), Fail> {
    let changed =
        "- D A A N N -\n- - D D A A N\nN - - - D D A\nA N N - - - D\nD A A N N - -\n- D D A A N N\n- - - D D A A\nN N - - - D D\nA A N N - - -\n";
    let endless = "2\n1\n2\n1 0\n0 1\nD 360 480 1 7\nN 1320 480 1 7\n1 7\n1 7\n0 0\n";
    let round = "2\n3\n1\n1 1\nD 360 480 3 5\n1 5\n1 5\n0 0\n";
    let none = "2\n1\n1\n0 0\nD 360 480 1 1\n1 1\n1 1\n0 0\n";
    let ranges = "2\n1\n1\n0..1 0..1\nD 360 480 1 1\n1 1\n1 1\n0 0\n";
    let cases = [
        (
            NINE_WEEKS,
            changed,
            "breaks rule 2 min shift D week 1 day 1 length 3\n",
        ),
        (
            endless,
            "D N\n",
            "breaks rule 7 max work week 1 day 1 length 8\n",
        ),
        (
            round,
            "D -\n- -\n- D\n",
            "breaks rule 2 min shift D week 3 day 1 length 4\n",
        ),
        (none, "D -\n", "breaks rule 7 day 1\n"),
        (
            ranges,
            "- -\n",
            "breaks rule 3 max off week 1 day 1 length 2\n",
        ),
    ];
    for (problem, roster, text) in cases {
        assert!(rt;
            verifies(&rt, rt.alloc(), problem, roster, 5, text)?,
            "{text}"
        );
    }
    Ok(())
}

#[test]
fn refused_rosters(rt: HostRuntime) -> Result<(), Fail> {
    let cases = [
        ("D Q\n", "roster refused: unknown line 1\n"),
        ("D\n", "roster refused: width line 1\n"),
        ("", "roster refused: weeks 0\n"),
        ("D -\n- D\n", "roster refused: weeks 2\n"),
    ];
    for (roster, text) in cases {
        assert!(rt;
            verifies(&rt, rt.alloc(), TWO_DAYS, roster, 3, text)?,
            "{text}"
        );
    }
    Ok(())
}

#[test]
fn refused_problems(rt: HostRuntime) -> Result<(), Fail> {
    let cases = [
        ("", "file refused: ends line 1\n"),
        ("2\n1\n1\n1\n", "file refused: ends line 5\n"),
        (
            "28\n151\n1\n0 0 0 0 0 0 0\nD 360 480 1 7\n1 7\n1 7\n0 0\n",
            "file refused: range 3 line 2\n",
        ),
        (
            "2\n1\n1\n1 0\nD 360 480 1 1\n1 1\n1 1\n0 0\nD\n",
            "file refused: extra line 9\n",
        ),
        (
            "2x\n1\n1\n1 0\nD 360 480 1 1\n1 1\n1 1\n0 0\n",
            "file refused: number line 1\n",
        ),
        (
            "2\n1\n1\n1 0\nD 360 480 1\n1 1\n1 1\n0 0\n",
            "file refused: row line 5\n",
        ),
        (
            "2\n1\n1\n1 0\n- 360 480 1 1\n1 1\n1 1\n0 0\n",
            "file refused: name line 5\n",
        ),
        (
            "2\n1\n1\n1 0\nD 360 480 1 1\n1 1\n1 1\n1 0\nQ D\n",
            "file refused: unknown line 9\n",
        ),
        (
            "2\n1\n1\n1 0\nD 360 480 1 1\n1 10001\n1 1\n0 0\n",
            "file refused: range 7 line 6\n",
        ),
        (
            "2\n1\n1\n1.. 0\nD 360 480 1 1\n1 1\n1 1\n0 0\n",
            "file refused: number line 4\n",
        ),
        (
            "2\n1\n1\n0..601 0\nD 360 480 1 1\n1 1\n1 1\n0 0\n",
            "file refused: range 5 line 4\n",
        ),
    ];
    for (problem, text) in cases {
        assert!(rt;
            verifies(&rt, rt.alloc(), problem, "D -\n", 3, text)?,
            "{text}"
        );
    }
    Ok(())
}

const USAGE: &str =
    "usage: rwsp plan FILE [--budget B] [--seed S] | check FILE LOG [--workers N] | verify FILE ROSTER | reduce FILE LOG | show FILE | trial NUMBER WEEKS | best FILE [--budget B] | check-free FILE LOG | staff FILE LOW HIGH [--budget B] | check-staff FILE TEXT | crew FILE ROSTER DATE DAYS [EMPLOYEE | --csv] | mend FILE [--budget B] | fill FILE CELLS [--budget B] | check-fill FILE LOG | rest FILE MINUTES | page FILE ROSTER | ics FILE ROSTER DATE DAYS EMPLOYEE | on FILE ROSTER START DATE | roster FILE ANSWER | explain FILE\n";

// A file that isn't held can't be read; behind a refused problem it isn't looked for.
#[test]
fn files_that_are_missing(rt: HostRuntime) -> Result<(), Fail> {
    let words = ["verify", "F", "R"];
    assert!(rt; ends(&rt, rt.alloc(), &words, &[], 6, "")?);
    assert!(rt; ends(&rt, rt.alloc(), &words, &[("F", TWO_DAYS)], 6, "")?);
    assert!(rt;
        ends(
            &rt,
            rt.alloc(),
            &words,
            &[("F", "2\n")],
            3,
            "file refused: ends line 2\n"
        )?
    );
    Ok(())
}

fn shows<R: Threads + Sync>(
    rt: &R,
    alloc: Global,
    problem: &str,
    status: u8,
    text: &str,
) -> Result<bool, AllocError> {
    ends(rt, alloc, &["show", "F"], &[("F", problem)], status, text)
}

#[test]
fn problems_in_canonical_form(rt: HostRuntime) -> Result<(), Fail> {
    let commented =
        "## Length of the schedule\r\n2\r\n## Employees\r\n1\r\n1\r\n1\t0\r\nD 360 480 Day 1 1\r\n1 1\r\n1 1\r\n0 0\r\n";
    assert!(rt; shows(&rt, rt.alloc(), commented, 0, TWO_DAYS)?);
    let longest = "7\n600\n1\n0 0 0 0 0 0 0\nD 360 480 1 7\n1 7\n1 7\n0 0\n";
    assert!(rt; shows(&rt, rt.alloc(), longest, 0, longest)?);
    let ranges = "2\n1\n1\n0..1 2..2\nD 360 480 1 1\n1 1\n1 1\n0 0\n";
    let printed = "2\n1\n1\n0..1 2\nD 360 480 1 1\n1 1\n1 1\n0 0\n";
    assert!(rt; shows(&rt, rt.alloc(), ranges, 0, printed)?);
    let nine =
        "7\n9\n3\n2 2 2 2 2 2 2\n2 2 2 2 2 2 2\n2 2 2 2 2 2 2\nD 360 480 2 7\nA 840 480 2 6\nN 1320 480 2 5\n2 4\n4 7\n3 0\nN D\nN A\nA D\n";
    assert!(rt; shows(&rt, rt.alloc(), NINE_WEEKS, 0, nine)?);
    Ok(())
}

// Texts that begin with a byte order mark, or have control bytes in a name. These are printed as they are.
const MARKED: [(&str, &str, &str, u8, &str); 8] = [
    (
        "show F",
        "\u{feff}2\n1\n",
        "",
        3,
        "file refused: number line 1\n",
    ),
    (
        "show F",
        "\u{feff}# days\n2\n",
        "",
        3,
        "file refused: number line 1\n",
    ),
    (
        "verify F G",
        TWO_DAYS,
        "\u{feff}D -\n",
        3,
        "roster refused: unknown line 1\n",
    ),
    (
        "verify F G",
        TWO_DAYS,
        "# days\n\u{feff}D -\n",
        3,
        "roster refused: unknown line 2\n",
    ),
    (
        "check F G",
        TWO_DAYS,
        "\u{feff}rwsp-log 1\n",
        5,
        "log refused: form line 1\n",
    ),
    (
        "check-staff F G",
        TWO_DAYS,
        "\u{feff}none to 3\n",
        5,
        "staff refused: form line 1\n",
    ),
    ("plan F", RED, "", 0, "D\u{1b}[31m -\n"),
    (
        "crew F G 2024-02-28 1",
        RED,
        "D\u{1b}[31m -\n",
        0,
        "2024-02-28 D\u{1b}[31m\n",
    ),
];

const RED: &str = "2\n1\n1\n1 0\nD\u{1b}[31m 360 480 1 1\n1 1\n1 1\n0 0\n";

#[test]
fn byte_order_marks_and_control_bytes(rt: HostRuntime) -> Result<(), Fail> {
    for (line, problem, second, status, text) in &MARKED {
        let files = [("F", *problem), ("G", *second)];
        assert!(rt;
            line_ends(&rt, rt.alloc(), line, &files, *status, text)?,
            "{line}"
        );
    }
    Ok(())
}
