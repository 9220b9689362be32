// Given cells and fill logs, to the byte where no search chooses. The cases are worked by hand.
use super::{NINE_WEEKS, TWO_DAYS, USAGE, line_ends, ran};
use std::alloc::Global;
use std::test::Fail;
use std::thread::Threads;

// A shift has the name that leaves a cell open.
const OPEN_WORD: &str = "2\n1\n1\n1 0\n? 360 480 1 1\n1 1\n1 1\n0 0\n";

// Two employees are wanted on the first day of a single week.
const TWO_OF_ONE: &str = "2\n1\n1\n2 0\nD 360 480 1 1\n1 1\n1 1\n0 0\n";

// Two weeks, of which each works on one of the two days.
const TWO_WEEKS: &str = "2\n2\n1\n1 1\nD 360 480 1 2\n1 2\n1 2\n0 0\n";

// Day 1 is off, and rule 7 wants somebody there.
const DAY_OFF: &str = "rwsp-fill 1\nrules 7\ncells 1 1 -\nday 1 - over\n";

// Week 1 may not have N and the day after it D (rule 11), whatever the other weeks have.
const N_BEFORE_D: &str =
    "? ? ? ? N D ?\n- - D D A A N\n? ? ? ? ? ? ?\n? ? ? ? ? ? ?\n? ? ? ? ? ? ?\n? ? ? ? ? ? ?\n? ? ? ? ? ? ?\n? ? ? ? ? ? ?\n? ? ? ? ? ? -\n";

// Work in twos, both A or both B, with a day off between: once A and three times B are demanded. There is no roster,
// since A comes twice or not at all; but with the two given days off no first line says so, as they part the cells
// into such twos.
const AS_AND_BS_IN_TWOS: &str =
    "1\n6\n2\n1\n3\nA 360 480 1 2\nB 840 480 1 2\n1 1\n2 2\n2 0\nA B\nB A\n";

const FORM: &str = "log refused: form line 3\n";

// What `fill` answers where nothing is searched, or there is one roster.
#[test]
fn given_cells(rt: HostRuntime) -> Result<(), Fail> {
    let fill = "fill F G";
    let one = "D -\n";
    let cases = [
        (fill, TWO_DAYS, "? ?\n", 0, one),
        (fill, TWO_DAYS, "# given\nD ?\n", 0, one),
        (fill, TWO_DAYS, "? -\n", 0, one),
        (fill, TWO_DAYS, "D -\n", 0, one),
        (fill, TWO_WEEKS, "D -\n? ?\n", 0, "D -\n- D\n"),
        (
            fill,
            TWO_DAYS,
            "? Q\n",
            3,
            "roster refused: unknown line 1\n",
        ),
        (fill, TWO_DAYS, "?\n", 3, "roster refused: width line 1\n"),
        (fill, TWO_DAYS, "", 3, "roster refused: weeks 0\n"),
        (fill, OPEN_WORD, "? ?\n", 3, "fill refused: name ?\n"),
        ("fill F G --budget 0", TWO_DAYS, "? ?\n", 2, USAGE),
        ("fill F G --budget 200001", TWO_DAYS, "? ?\n", 2, USAGE),
    ];
    for (line, problem, cells, status, text) in cases {
        let files = [("F", problem), ("G", cells)];
        assert!(rt;
            line_ends(&rt, rt.alloc(), line, &files, status, text)?,
            "{text}"
        );
    }
    Ok(())
}

// The second file is looked for only where no shift has the name `?`.
#[test]
fn second_files_of_fill(rt: HostRuntime) -> Result<(), Fail> {
    let taken = "fill refused: name ?\n";
    let cases = [
        ("fill F G", OPEN_WORD, 3, taken),
        ("check-fill F G", OPEN_WORD, 3, taken),
        ("fill F G", TWO_DAYS, 6, ""),
        ("check-fill F G", TWO_DAYS, 6, ""),
        ("fill F", TWO_DAYS, 2, USAGE),
        ("check-fill F", TWO_DAYS, 2, USAGE),
    ];
    for (line, problem, status, text) in cases {
        assert!(rt;
            line_ends(&rt, rt.alloc(), line, &[("F", problem)], status, text)?,
            "{line}"
        );
    }
    Ok(())
}

#[test]
fn fill_logs_and_their_forms(rt: HostRuntime) -> Result<(), Fail> {
    let cases = [
        (TWO_DAYS, DAY_OFF, 0, "accepted: rules 7 cells 1 1 -\n"),
        (
            TWO_OF_ONE,
            "rwsp-fill 1\nrules 7\ncells\nday 1 - over\n",
            0,
            "accepted: rules 7 cells\n",
        ),
        (
            TWO_DAYS,
            "rwsp-log 1\nrules 7\nday 1 - over\n",
            5,
            "log refused: form line 1\n",
        ),
        (
            TWO_DAYS,
            "rwsp-fill 1\nrules 9\ncells 1 1 -\n",
            5,
            "log refused: form line 2\n",
        ),
        (TWO_DAYS, "rwsp-fill 1\nrules 7\ncells 1 3 -\n", 5, FORM),
        (
            TWO_DAYS,
            "rwsp-fill 1\nrules 7\ncells 1 2 - 1 1 -\n",
            5,
            FORM,
        ),
        (
            TWO_DAYS,
            "rwsp-fill 1\nrules 7\ncells 1 1 - 1 1 D\n",
            5,
            FORM,
        ),
    ];
    for (problem, log, status, text) in cases {
        let files = [("F", problem), ("G", log)];
        assert!(rt;
            line_ends(&rt, rt.alloc(), "check-fill F G", &files, status, text)?,
            "{log}"
        );
    }
    Ok(())
}

#[test]
fn fill_logs_and_their_faults(rt: HostRuntime) -> Result<(), Fail> {
    let cases = [
        (
            TWO_DAYS,
            "rwsp-fill 1\nrules 7\ncells 1 1 Q\nday 1 - over\n",
            5,
            "log refused: name line 3\n",
        ),
        (
            TWO_DAYS,
            "rwsp-fill 1\nrules\ncells 1 1 -\nday 1 - over\n",
            5,
            "log refused: unnamed 7 line 4\n",
        ),
        (
            TWO_DAYS,
            "rwsp-fill 1\nrules 7\ncells 1 1 -\nsplit 1 1 -\n",
            5,
            "log refused: idle line 4\n",
        ),
        (
            TWO_DAYS,
            "rwsp-fill 1\nrules 7\ncells 1 1 D\nday 1 - over\n",
            5,
            "log refused: fails line 4\n",
        ),
        (
            TWO_DAYS,
            "rwsp-fill 1\nrules 1\ncells 1 1 D\ndead 1 1 1 rules 1\n",
            5,
            "log refused: escape line 4: D\n",
        ),
        (
            TWO_DAYS,
            "rwsp-fill 1\nrules 7\ncells 1 1 -\nopen\n",
            5,
            "log refused: open line 4\n",
        ),
        (
            TWO_DAYS,
            "rwsp-fill 1\nrules 7\ncells 1 1 -\n",
            5,
            "log refused: ends\n",
        ),
        (
            TWO_DAYS,
            "rwsp-fill 1\nrules 7\ncells 1 1 -\nday 1 - over\nopen\n",
            5,
            "log refused: extra line 5\n",
        ),
    ];
    for (problem, log, status, text) in cases {
        let files = [("F", problem), ("G", log)];
        assert!(rt;
            line_ends(&rt, rt.alloc(), "check-fill F G", &files, status, text)?,
            "{log}"
        );
    }
    Ok(())
}

// Whether `check-fill` accepts a fill log with this answer.
fn is_accepted<'x, R: Threads + Sync>(
    rt: &R,
    alloc: Global,
    problem: &'x str,
    log: &'x str,
    answer: &str,
) -> Result<bool, Fail> {
    let files = [("F", problem), ("G", log)];
    line_ends(rt, alloc, "check-fill F G", &files, 0, answer)
}

// Whether `fill` prints a fill log that `check-fill` accepts with this answer.
fn is_refuted<'x, R: Threads + Sync>(
    rt: &R,
    alloc: Global,
    problem: &'x str,
    cells: &'x str,
    answer: &str,
) -> Result<bool, Fail> {
    let files = [("F", problem), ("G", cells)];
    let found = ran(rt, alloc, "fill F G", &files, 0, 0)?;
    let log = found.text.as_str();
    Ok(
        found.status == 1
            && log.starts_with("rwsp-fill 1\n")
            && is_accepted(rt, alloc, problem, log, answer)?,
    )
}

// Of the given cells those are named that can't stand together, and the rules by which they can't.
#[test]
fn cells_that_cannot_stand(rt: HostRuntime) -> Result<(), Fail> {
    let cases = [
        (TWO_DAYS, "- ?\n", "accepted: rules 7 cells 1 1 -\n"),
        // Blocks are counted first, and then no cell is named.
        (TWO_OF_ONE, "? -\n", "accepted: rules 1 2 7 8 cells\n"),
        (
            TWO_WEEKS,
            "D ?\nD -\n",
            "accepted: rules 7 cells 1 1 D 2 1 D\n",
        ),
        (
            NINE_WEEKS,
            N_BEFORE_D,
            "accepted: rules 11 cells 1 5 N 1 6 D\n",
        ),
    ];
    for (problem, cells, answer) in cases {
        assert!(rt;
            is_refuted(&rt, rt.alloc(), problem, cells, answer)?,
            "{cells}"
        );
    }
    Ok(())
}

// A fill log that has spent its budget names all given cells, whatever its lines need.
#[test]
fn a_spent_budget_of_fill(rt: HostRuntime) -> Result<(), Fail> {
    let files = [("F", AS_AND_BS_IN_TWOS), ("G", "-\n?\n?\n-\n?\n?\n")];
    let found = ran(&rt, rt.alloc(), "fill F G --budget 1", &files, 0, 0)?;
    assert_eq!(rt; found.status, 4);
    let log = found.text.as_str();
    assert!(rt;
        log.starts_with("rwsp-fill 1\nrules\ncells 1 1 - 4 1 -\nsplit ")
            && log.ends_with("\nopen\n"),
        "{log}"
    );
    Ok(())
}
