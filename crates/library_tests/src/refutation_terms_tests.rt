// The definitions of refutations tried on small problems: the checker accepts a log exactly where it passes.
// More logs are judged in `program_tests`.
use refutation_checker::{NoGate, UncheckedLog, check_with};
use refutation_terms::{LogKind, LogRefusal};
use rwsp_model::Fail::Refused;
use rwsp_model::Problem;
use rwsp_terms::RuleList;
use std::alloc::Global;
use std::test::Fail;
use std::thread::Threads;
use test_helpers::{TWOS_IN_SIX, problem_of};

// Single D and single days off by turns can't go round three cells.
const ODD_CYCLE: &[u8] = b"1\n3\n1\n0..3\nD 360 480 1 1\n1 1\n1 1\n0 0\n";

// One D in two cells, where D and the day off may not follow each other, nor three D: rules 7, 8 and 9. The day is 10.
const UNMIXED: &[u8] = b"1\n2\n1\n1\nD 360 480 1 9\n1 9\n1 9\n2 1\nD -\n- D\nD D D\n";

// One week in which D may be on any day.
const ONE_WEEK: &[u8] =
    b"7\n1\n1\n0..1 0..1 0..1 0..1 0..1 0..1 0..1\nD 360 480 1 7\n1 7\n1 7\n0 0\n";

// A problem, a log that passes, and the rules that it names: a split with two dead sides; two splits, whose four cases
// are closed by forbidden pairs and by days; a turn, behind which a pair and a triple leave no word.
const PASSING: [(&[u8], &[u8], &[u32]); 3] = [
    (
        ODD_CYCLE,
        b"rwsp-log 1\nrules 1 3\nsplit 1 1 D\ndead 1 1 4 rules 1 3\ndead 1 1 4 rules 1 3\n",
        &[1, 3],
    ),
    (
        UNMIXED,
        b"rwsp-log 1\nrules 7 8 10\nsplit 1 1 D\nsplit 2 1 D\nday 1 D over\nwindow 7 1 1 2\nsplit 2 1 D\nwindow 8 1 1 2\nday 1 D short\n",
        &[7, 8, 10],
    ),
    (
        UNMIXED,
        b"rwsp-log 2\nrules 7 9 10\nturn D 1\ndead 1 1 3 rules 7 9\n",
        &[7, 9, 10],
    ),
];

// The rules that a log names, if it passes.
fn passed_rules<R: Threads + Sync>(
    rt: &R,
    alloc: Global,
    problem: &Problem,
    text: &[u8],
) -> Option<RuleList> {
    if text.len() > 1_000 {
        return None;
    }
    let log = UncheckedLog {
        kind: LogKind::WithoutGoal,
        bytes: text,
    };
    match check_with(rt, alloc, problem, log, 1, &NoGate) {
        Ok(passed) => Some(passed.named),
        Err(_) => None,
    }
}

// Whether a log passes and names these rules.
fn passes_by<R: Threads + Sync>(
    rt: &R,
    alloc: Global,
    problem: &Problem,
    text: &[u8],
    rules: &[u32],
) -> bool {
    match passed_rules(rt, alloc, problem, text) {
        Some(named) => named.numbers() == rules,
        None => false,
    }
}

#[test]
fn logs_that_pass(rt: HostRuntime) -> Result<(), Fail> {
    for (problem, text, rules) in PASSING {
        let problem = problem_of(rt.alloc(), problem)?;
        assert!(rt;
            passes_by(&rt, rt.alloc(), &problem, text, rules),
            "{rules:?}"
        );
    }
    Ok(())
}

// The line of the first case that wasn't worked out, if the log is refused for that.
fn unfinished_line<R: Threads + Sync>(
    rt: &R,
    alloc: Global,
    problem: &Problem,
    text: &[u8],
) -> Option<u32> {
    if text.len() > 1_000 {
        return None;
    }
    let log = UncheckedLog {
        kind: LogKind::WithoutGoal,
        bytes: text,
    };
    match check_with(rt, alloc, problem, log, 1, &NoGate) {
        Err(Refused(LogRefusal::Unfinished(line))) => Some(line),
        _ => None,
    }
}

#[test]
fn a_log_with_open_sides(rt: HostRuntime) -> Result<(), Fail> {
    let problem = problem_of(rt.alloc(), TWOS_IN_SIX)?;
    let text = b"rwsp-log 1\nrules\nsplit 1 1 D\nopen\nopen\n";
    assert_eq!(rt; unfinished_line(&rt, rt.alloc(), &problem, text), Some(4));
    Ok(())
}

// The goal of a free log, if it passes.
fn passed_goal<R: Threads + Sync>(
    rt: &R,
    alloc: Global,
    problem: &Problem,
    text: &[u8],
) -> Option<u32> {
    if problem.days() != 7 || text.len() > 1_000 {
        return None;
    }
    let log = UncheckedLog {
        kind: LogKind::WithGoal,
        bytes: text,
    };
    match check_with(rt, alloc, problem, log, 1, &NoGate) {
        Ok(passed) => passed.goal,
        Err(_) => None,
    }
}

// No roster of one week has two free weekends, whatever the rules.
#[test]
fn a_goal_above_the_weeks(rt: HostRuntime) -> Result<(), Fail> {
    let problem = problem_of(rt.alloc(), ONE_WEEK)?;
    let text = b"rwsp-free 1\nrules\ngoal 2\nfew\n";
    assert_eq!(rt; passed_goal(&rt, rt.alloc(), &problem, text), Some(2));
    Ok(())
}
