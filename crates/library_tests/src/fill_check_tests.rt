// Fill logs, judged with their texts and without. What is refused, and why, is tried on the program's own tests.
use refutation_checker::{NoGate, UncheckedLog, check_log, check_with};
use refutation_log::{LogKind, LogRefusal};
use rwsp_model::Fail::{Memory, Refused};
use rwsp_model::Problem;
use std::alloc::Global;
use std::test::Fail;
use std::thread::Threads;
use test_helpers::{TWOS_IN_SIX, log_of_kind, problem_of};

// Four days are off, of which three may be.
const FOUR_OFF: &[u8] = b"rwsp-fill 1\nrules 7\ncells 1 1 - 2 1 - 3 1 - 4 1 -\nday 1 - over\n";

const THREE_OFF: &[u8] = b"rwsp-fill 1\nrules 7\ncells 1 1 - 2 1 - 4 1 -\nday 1 - over\n";

// A split on a given cell is idle.
const SPLIT_ON_A_CELL: &[u8] =
    b"rwsp-fill 1\nrules 1 2 3 4\ncells 2 1 D\nsplit 2 1 D\nopen\nopen\n";

// A fill log's text, and whether it passes.
const FILL_LOGS: [(&[u8], bool); 3] = [
    (FOUR_OFF, true),
    (THREE_OFF, false),
    (SPLIT_ON_A_CELL, false),
];

// Whether the fill log passes that is read from the text.
fn passes_by_itself(alloc: Global, problem: &Problem, text: &[u8]) -> Result<bool, Fail> {
    let log = log_of_kind(alloc, problem, LogKind::WithCells, text)?;
    match check_log(alloc, problem, &log) {
        Ok(()) => Ok(true),
        Err(Refused(_)) => Ok(false),
        Err(Memory) => Err(Fail::from("no memory")),
    }
}

// What is said of the text of a fill log, with the line that is refused.
#[derive(Clone, Copy, Debug, PartialEq)]
enum Verdict {
    Passes,
    Idle(u32),
    Fails(u32),
    Unfinished(u32),
    Extra(u32),
    Ends,
    Other,
}

use Verdict::{Ends, Extra, Fails, Idle, Passes, Unfinished};

// Texts of fill logs of four cells that are days off, of which three may be, and what is said of each: the given cells
// count as no lines, and a line behind the whole tree is refused whatever it is.
const VERDICTS: [(&[u8], Verdict); 7] = [
    (FOUR_OFF, Passes),
    (THREE_OFF, Fails(4)),
    (SPLIT_ON_A_CELL, Idle(4)),
    (
        b"rwsp-fill 1\nrules 7\ncells 1 1 - 2 1 - 3 1 - 4 1 -\nsplit 5 1 D\nday 1 - over\nday 1 - over\n",
        Passes,
    ),
    (
        b"rwsp-fill 1\nrules 7\ncells 1 1 - 2 1 - 3 1 - 4 1 -\nsplit 5 1 D\nday 1 - over\nday 1 - over\nopen\n",
        Extra(7),
    ),
    (
        b"rwsp-fill 1\nrules 7\ncells 1 1 - 2 1 - 3 1 - 4 1 -\nsplit 5 1 D\nday 1 - over\nopen\n",
        Unfinished(6),
    ),
    (
        b"rwsp-fill 1\nrules 7\ncells 1 1 - 2 1 - 3 1 - 4 1 -\nsplit 5 1 D\nday 1 - over\n",
        Ends,
    ),
];

// What so many workers say of the text.
fn verdict_by<R: Threads + Sync>(
    rt: &R,
    alloc: Global,
    problem: &Problem,
    text: &[u8],
    workers: u32,
) -> Verdict {
    if text.len() > 1_000 || workers < 1 || workers > 4 {
        return Verdict::Other;
    }
    let log = UncheckedLog {
        kind: LogKind::WithCells,
        bytes: text,
    };
    match check_with(rt, alloc, problem, log, workers, &NoGate) {
        Ok(_) => Passes,
        Err(Refused(LogRefusal::Idle(line))) => Idle(line),
        Err(Refused(LogRefusal::Fails(line))) => Fails(line),
        Err(Refused(LogRefusal::Unfinished(line))) => Unfinished(line),
        Err(Refused(LogRefusal::Extra(line))) => Extra(line),
        Err(Refused(LogRefusal::Ends)) => Ends,
        Err(_) => Verdict::Other,
    }
}

#[test]
fn fill_logs_pass(rt: HostRuntime) -> Result<(), Fail> {
    let problem = problem_of(rt.alloc(), TWOS_IN_SIX)?;
    for (text, passes) in FILL_LOGS {
        assert_eq!(rt; passes_by_itself(rt.alloc(), &problem, text)?, passes);
    }
    Ok(())
}

#[test]
fn any_number_of_workers(rt: HostRuntime) -> Result<(), Fail> {
    let problem = problem_of(rt.alloc(), TWOS_IN_SIX)?;
    for (text, verdict) in VERDICTS {
        for workers in [1, 2, 4] {
            assert_eq!(rt;
                verdict_by(&rt, rt.alloc(), &problem, text, workers),
                verdict
            );
        }
    }
    Ok(())
}
