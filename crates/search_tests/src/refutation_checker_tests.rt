// Refutations of small problems, worked by hand. What else is refused and why is said by the clauses, and tried on the
// program's own tests.
use refutation_checker::{NoGate, PassedLog, UncheckedLog, check, check_log, check_with};
use refutation_terms::{LogKind, LogRefusal};
use rwsp_model::Fail::Refused;
use rwsp_model::Problem;
use rwsp_terms::Word;
use rwsp_terms::limits::MOST_WORKERS;
use std::alloc::Global;
use std::test::Fail;
use std::thread::Threads;
use test_helpers::{
    LONG_BLOCKS, Meeting, OFF, ONE_CELL, TWO_IN_FOUR, TWOS_IN_SIX, log_of, problem_of,
};

const SPLIT_TWOS: &[u8] =
    b"rwsp-log 1\nrules 1 2 3 4\nsplit 1 1 D\ndead 1 1 7 rules 1 2 3 4\ndead 1 1 7 rules 1 2 3 4\n";

const PASSING: [(&[u8], &[u8]); 4] = [
    (
        TWO_IN_FOUR,
        b"rwsp-log 1\nrules 1 3 4 7\nbound 1 1 2 rules 1 3 4 weights 1 D 1\n",
    ),
    (TWOS_IN_SIX, SPLIT_TWOS),
    (
        TWOS_IN_SIX,
        b"rwsp-log 2\nrules 1 2 3 4 7\nturn D 1\ndead 1 1 7 rules 1 2 3 4\n",
    ),
    (
        ONE_CELL,
        b"rwsp-log 1\nrules 3 5\nsplit 1 1 D\nwindow 5 1 1 8\nwindow 3 1 1 2\n",
    ),
];

// Whether a short text passes.
fn text_passes(alloc: Global, problem: &Problem, text: &[u8]) -> bool {
    text.len() <= 1_000 && check(alloc, problem, LogKind::WithoutGoal, text).is_ok()
}

// Whether the log of the text passes.
fn log_passes(alloc: Global, problem: &Problem, text: &[u8]) -> Result<bool, Fail> {
    let log = log_of(alloc, problem, text)?;
    Ok(check_log(alloc, problem, &log).is_ok())
}

#[test]
fn refutations_pass(rt: HostRuntime) -> Result<(), Fail> {
    let alloc = rt.alloc();
    for (problem, text) in PASSING {
        let problem = problem_of(alloc, problem)?;
        assert!(rt; text_passes(alloc, &problem, text));
        assert!(rt; log_passes(alloc, &problem, text)?);
    }
    Ok(())
}

#[test]
fn workers_are_there_at_once(rt: HostRuntime) -> Result<(), Fail> {
    let alloc = rt.alloc();
    let problem = problem_of(alloc, TWOS_IN_SIX)?;
    let gate = Meeting::new();
    let log = UncheckedLog {
        kind: LogKind::WithoutGoal,
        bytes: SPLIT_TWOS,
    };
    let passed = check_with(&rt, alloc, &problem, log, 2, &gate)?;
    assert_eq!(rt; passed.named.numbers(), [1, 2, 3, 4].as_slice());
    assert!(rt; gate.took_place());
    Ok(())
}

// What a free log shows, by some workers.
fn free_goal<R: Threads + Sync>(
    rt: &R,
    alloc: Global,
    problem: &Problem,
    text: &[u8],
    workers: u32,
) -> Result<PassedLog, Fail> {
    if problem.days() != 7 || text.len() > 1_000 || workers == 0 || workers > MOST_WORKERS {
        return Err(Fail::from("another problem, or a long text"));
    }
    let log = UncheckedLog {
        kind: LogKind::WithGoal,
        bytes: text,
    };
    Ok(check_with(rt, alloc, problem, log, workers, &NoGate)?)
}

// The line of a free log that is refused for an escape, and the word.
fn free_escape<R: Threads + Sync>(
    rt: &R,
    alloc: Global,
    problem: &Problem,
    text: &[u8],
) -> Result<(u32, Word), Fail> {
    if problem.days() != 7 || text.len() > 1_000 {
        return Err(Fail::from("another problem, or a long text"));
    }
    let log = UncheckedLog {
        kind: LogKind::WithGoal,
        bytes: text,
    };
    match check_with(rt, alloc, problem, log, 1, &NoGate) {
        Err(Refused(LogRefusal::Escape(line, word))) => Ok((line, word)),
        _ => Err(Fail::from("no escape")),
    }
}

const FREE: &[u8] = b"rwsp-free 1\nrules 3 5 6\ngoal 2\nfree 1 1 rules 3 5 6 weights\n";

const FREE_WITHOUT_5: &[u8] = b"rwsp-free 1\nrules 3 6\ngoal 2\nfree 1 1 rules 3 6 weights\n";

// At most one weekend of three can be free, and two where work may be longer.
#[test]
fn free_logs_are_judged(rt: HostRuntime) -> Result<(), Fail> {
    let alloc = rt.alloc();
    let problem = problem_of(alloc, LONG_BLOCKS)?;
    for workers in [1, 4] {
        let passed = free_goal(&rt, alloc, &problem, FREE, workers)?;
        assert_eq!(rt; passed.goal, Some(2));
        assert_eq!(rt; passed.named.numbers(), [3, 5, 6].as_slice());
    }
    let (line, word) = free_escape(&rt, alloc, &problem, FREE_WITHOUT_5)?;
    assert_eq!(rt; line, 4);
    let mut shown = Vec::new(alloc);
    for symbol in word.symbols() {
        shown.push(if *symbol == OFF { b'-' } else { b'D' })?;
    }
    assert_eq!(rt; shown.as_slice(), b"DDD----DDDDDDDDDD----".as_slice());
    Ok(())
}
