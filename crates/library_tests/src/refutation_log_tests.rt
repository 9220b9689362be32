// Texts of logs, read and printed.
ghost use Rattle.refutation_terms.specs.Log.{Fits};

use refutation_log::{
    Log, LogKind, LogRefusal, Opening, Turn, print_log, put_cited, read_header, read_line,
    read_log, scarcest_turn,
};
use rwsp_model::{Fail as Failure, Problem};
use rwsp_terms::RuleList;
use std::alloc::{AllocError, Global};
use std::test::Fail;
use test_helpers::{
    D, D_ON_BOTH_DAYS, LONG_BLOCKS, NO_DEMAND, ONE_CELL, THREE_IN_FIVE, TWO_D_AND_ONE, TWO_IN_FOUR,
    TWOS_IN_SIX, log_of, log_of_kind, problem_of,
};

const TEXTS: [(&[u8], &[u8]); 11] = [
    (
        D_ON_BOTH_DAYS,
        b"rwsp-log 1\nrules 1 7 8\nbound 1 1 1 rules 1 weights 1 D 1 2 D 1\n",
    ),
    (D_ON_BOTH_DAYS, b"rwsp-log 1\nrules\nday 1 - over\n"),
    (
        D_ON_BOTH_DAYS,
        b"rwsp-log 1\nrules\nbound 1 2 8400 rules weights 1 - -1000 1 D 1000\n",
    ),
    (
        TWO_IN_FOUR,
        b"rwsp-log 1\nrules 1 3 4 7\nbound 1 1 2 rules 1 3 4 weights 1 D 1\n",
    ),
    (
        TWOS_IN_SIX,
        b"rwsp-log 1\nrules 1 2 3 4\nsplit 1 1 D\ndead 1 1 7 rules 1 2 3 4\ndead 1 1 7 rules 1 2 3 4\n",
    ),
    (TWOS_IN_SIX, b"rwsp-log 1\nrules\nsplit 6 1 D\nopen\nopen\n"),
    (
        TWOS_IN_SIX,
        b"rwsp-log 2\nrules 1 2 3 4 7\nturn D 1\ndead 1 1 7 rules 1 2 3 4\n",
    ),
    (
        THREE_IN_FIVE,
        b"rwsp-log 2\nrules 7\nturn D 1\nsplit 2 1 D\nopen\nopen\n",
    ),
    (
        ONE_CELL,
        b"rwsp-log 1\nrules 3 5\nsplit 1 1 D\nwindow 5 1 1 8\nwindow 3 1 1 2\n",
    ),
    (
        THREE_IN_FIVE,
        b"rwsp-log 3\nrules 1 2 7\nturn D 1\nblocks D\n",
    ),
    (
        THREE_IN_FIVE,
        b"rwsp-log 3\nrules\nturn\nsplit 2 1 D\nblocks -\nopen\n",
    ),
];

fn read_and_printed(
    alloc: Global,
    problem: &[u8],
    kind: LogKind,
    text: &[u8],
) -> Result<Vec<u8>, Fail> {
    let problem = problem_of(alloc, problem)?;
    let log = log_of_kind(alloc, &problem, kind, text)?;
    Ok(print_log(alloc, &problem, &log)?)
}

#[test]
fn texts_come_back(rt: HostRuntime) -> Result<(), Fail> {
    for (problem, text) in TEXTS {
        let printed = read_and_printed(rt.alloc(), problem, LogKind::WithoutGoal, text)?;
        assert_eq!(rt; printed.as_slice(), text);
    }
    Ok(())
}

// Fill logs of two D and two days off in turn, in six cells.
const FILL_TEXTS: [&[u8]; 3] = [
    b"rwsp-fill 1\nrules 7\ncells 1 1 - 2 1 - 3 1 - 4 1 -\nday 1 - over\n",
    b"rwsp-fill 1\nrules 1 2 3 4\ncells 2 1 D\nsplit 1 1 D\ndead 1 1 7 rules 1 2 3 4\nblocks D\n",
    b"rwsp-fill 1\nrules\ncells\nopen\n",
];

#[test]
fn fill_logs_come_back(rt: HostRuntime) -> Result<(), Fail> {
    for text in FILL_TEXTS {
        let printed = read_and_printed(rt.alloc(), TWOS_IN_SIX, LogKind::WithCells, text)?;
        assert_eq!(rt; printed.as_slice(), text);
    }
    Ok(())
}

// Why a text is refused, with the line. Reading finds no other causes than these four.
#[derive(Clone, Copy, PartialEq)]
enum Cause {
    Form(u32),
    Name(u32),
    Extra(u32),
    Ends,
}

use Cause::{Ends, Extra, Form, Name};

fn cause_of(why: &LogRefusal) -> Option<Cause> {
    match why {
        LogRefusal::Form(line) => Some(Form(*line)),
        LogRefusal::Name(line) => Some(Name(*line)),
        LogRefusal::Extra(line) => Some(Extra(*line)),
        LogRefusal::Ends => Some(Ends),
        _ => None,
    }
}

const REFUSALS: [(&[u8], Cause); 41] = [
    (b"", Ends),
    (b"rwsp-log 1\n", Ends),
    (b"rwsp-log 1", Form(1)),
    (b"rwsp-log 4\nrules\nopen\n", Form(1)),
    (b"rwsp-log 3\nrules\nopen\n", Form(3)),
    (b"rwsp-log 3\nrules\nturn D\n", Form(3)),
    (b"rwsp-log 3\nrules\nturn\n", Ends),
    (b"rwsp-log 1\nrules\nblocks D\n", Form(3)),
    (b"rwsp-log 2\nrules\nturn D 1\nblocks D\n", Form(4)),
    (b"rwsp-log 3\nrules\nturn\nblocks Q\n", Name(4)),
    (b"rwsp-log 3\nrules\nturn\nblocks D D\n", Form(4)),
    (b"rwsp-log 2\nrules\nopen\n", Form(3)),
    (b"rwsp-log 2\nrules\nturn Q 1\n", Name(3)),
    (b"rwsp-log 2\nrules\nturn D 2\n", Form(3)),
    (b"rwsp-log 2\nrules\nturn D 1\n", Ends),
    (b"rwsp-log 1\nrules 1 1\nopen\n", Form(2)),
    (b"rwsp-log 1\nrules 2 1\nopen\n", Form(2)),
    (b"rwsp-log 1\nrules 8\nopen\n", Form(2)),
    (b"rwsp-log 1\nrules \nopen\n", Form(2)),
    (
        b"rwsp-log 1\nrules 1 2 3 4\nsplit 1 1 D\ndead 1 1 7 rules 1 2 3 4\n",
        Ends,
    ),
    (b"rwsp-log 1\nrules 1\nsplit 1 1 Q\n", Name(3)),
    (b"rwsp-log 1\nrules 1\nsplit 7 1 D\n", Form(3)),
    (b"rwsp-log 1\nrules\nopen\r\n", Form(3)),
    (b"rwsp-log 1\nrules\nopen \n", Form(3)),
    (b"rwsp-log 1\nrules\nopen", Form(3)),
    (b"rwsp-log 1\nrules\nopen\nopen\n", Extra(4)),
    (b"rwsp-log 1\nrules\nopen\nwhatever", Extra(4)),
    (b"rwsp-log 1\nrules\nday 01 D over\n", Form(3)),
    (b"rwsp-log 1\nrules\nday 1 D under\n", Form(3)),
    (
        b"rwsp-log 1\nrules\nbound 1 1 1 rules weights 1 D 0\n",
        Form(3),
    ),
    (
        b"rwsp-log 1\nrules\nbound 1 1 1 rules weights 1 D -0\n",
        Form(3),
    ),
    (
        b"rwsp-log 1\nrules\nbound 1 1 1 rules weights 1 D 1001\n",
        Form(3),
    ),
    (
        b"rwsp-log 1\nrules\nbound 1 1 2801 rules weights\n",
        Form(3),
    ),
    (
        b"rwsp-log 1\nrules\nbound 1 1 1 rules weights 1 D 1 1 - 1\n",
        Form(3),
    ),
    (
        b"rwsp-log 1\nrules\nbound 1 1 1 rules weights 1 D 1 1 D 1\n",
        Form(3),
    ),
    (
        b"rwsp-log 1\nrules\nbound 1 1 1 rules weights 1 D 1 1 - 1 1 Q 1\n",
        Name(3),
    ),
    (
        b"rwsp-log 1\nrules\nbound 1 1 1 rules weights 1 D 1 1 - 1 1 Q\n",
        Form(3),
    ),
    (b"rwsp-log 1\nrules\nwindow 1 1 1 16801\n", Form(3)),
    (b"rwsp-log 1\nrules\nopened\n", Form(3)),
    (b"rwsp-log 1\nrules\nfew\n", Form(3)),
    (b"rwsp-log 1\nrules\nfree 1 1 rules weights\n", Form(3)),
];

const FILL_REFUSALS: [(&[u8], Cause); 19] = [
    (b"", Ends),
    (b"rwsp-fill 1", Form(1)),
    (b"rwsp-fill 2\nrules\ncells\n", Form(1)),
    (b"rwsp-log 3\nrules\nturn\n", Form(1)),
    (b"rwsp-fill 1\n", Ends),
    (b"rwsp-fill 1\nrules 8\ncells\n", Form(2)),
    (b"rwsp-fill 1\ncells\n", Form(2)),
    (b"rwsp-fill 1\nrules\n", Ends),
    (b"rwsp-fill 1\nrules\nturn\n", Form(3)),
    (b"rwsp-fill 1\nrules\ncells", Form(3)),
    (b"rwsp-fill 1\nrules\ncells \n", Form(3)),
    (b"rwsp-fill 1\nrules\ncells 1 1\n", Form(3)),
    (b"rwsp-fill 1\nrules\ncells 1 2 D\n", Form(3)),
    (b"rwsp-fill 1\nrules\ncells 7 1 D\n", Form(3)),
    (b"rwsp-fill 1\nrules\ncells 1 1 D 1 1 D\n", Form(3)),
    (b"rwsp-fill 1\nrules\ncells 2 1 Q 1 1 D\n", Form(3)),
    (b"rwsp-fill 1\nrules\ncells 1 1 Q 2 1\n", Form(3)),
    (b"rwsp-fill 1\nrules\ncells 1 1 Q 2 1 D\n", Name(3)),
    (b"rwsp-fill 1\nrules\ncells 1 1 D\n", Ends),
];

// Whether the text is refused for this cause as a log of the kind, which isn't that of logs with a goal.
fn is_refused_for(
    alloc: Global,
    problem: &Problem,
    kind: LogKind,
    text: &[u8],
    wanted: Cause,
) -> bool {
    if text.len() > 1_000_000 || matches!(kind, LogKind::WithGoal) {
        return false;
    }
    match read_log(alloc, problem, kind, text) {
        Err(Failure::Refused(why)) => cause_of(&why) == Some(wanted),
        _ => false,
    }
}

#[test]
fn other_texts_are_refused(rt: HostRuntime) -> Result<(), Fail> {
    let problem = problem_of(rt.alloc(), TWOS_IN_SIX)?;
    for (text, wanted) in &REFUSALS {
        assert!(rt;
            is_refused_for(rt.alloc(), &problem, LogKind::WithoutGoal, text, *wanted),
            "{text:?}"
        );
    }
    Ok(())
}

#[test]
fn other_fill_logs_are_refused(rt: HostRuntime) -> Result<(), Fail> {
    let problem = problem_of(rt.alloc(), TWOS_IN_SIX)?;
    for (text, wanted) in &FILL_REFUSALS {
        assert!(rt;
            is_refused_for(rt.alloc(), &problem, LogKind::WithCells, text, *wanted),
            "{text:?}"
        );
    }
    Ok(())
}

#[test]
fn many_splits_and_nothing_more(rt: HostRuntime) -> Result<(), Fail> {
    let problem = problem_of(rt.alloc(), TWOS_IN_SIX)?;
    let mut text = b"rwsp-log 1\nrules\n".to_vec(rt.alloc())?;
    for _ in 0..4200 {
        text.extend_from_slice(b"split 1 1 D\n")?;
    }
    assert!(rt; is_refused_for(rt.alloc(), &problem, LogKind::WithoutGoal, &text, Ends));
    Ok(())
}

const FREE_TEXTS: [(&[u8], bool); 18] = [
    (
        b"rwsp-free 1\nrules 3 5 6\ngoal 2\nfree 1 1 rules 3 5 6 weights\n",
        true,
    ),
    (
        b"rwsp-free 1\nrules 7\ngoal 0\nfree 800 1000 rules weights 1 - -1000 1 D 1000\n",
        true,
    ),
    (b"rwsp-free 1\nrules\ngoal 4\nfew\n", true),
    (b"rwsp-free 1\nrules\ngoal 1\nwindow 1 3 7 2\n", true),
    (b"rwsp-free 1\nrules\ngoal 1\nday 7 D short\n", true),
    (
        b"rwsp-free 1\nrules 1 2\ngoal 1\ndead 1 1 7 rules 1 2\n",
        true,
    ),
    (b"rwsp-free 1\nrules\ngoal 1\nopen\n", true),
    (b"rwsp-free 1\nrules\ngoal 5\nfew\n", false),
    (b"rwsp-free 1\nrules\ngoal 01\nfew\n", false),
    (b"rwsp-free 2\nrules\ngoal 1\nfew\n", true),
    (
        b"rwsp-free 2\nrules 1 2 7 8 9 10 11 12 13\ngoal 1\nblocks D\n",
        true,
    ),
    (b"rwsp-free 1\nrules\ngoal 1\nblocks D\n", false),
    (b"rwsp-free 3\nrules\ngoal 1\nfew\n", false),
    (b"rwsp-free 1\nrules\nfew\n", false),
    (b"rwsp-free 1\nrules\ngoal 1\nfew 1\n", false),
    (
        b"rwsp-free 1\nrules\ngoal 1\nfree 801 1 rules weights\n",
        false,
    ),
    (
        b"rwsp-free 1\nrules\ngoal 1\nfree 1 1001 rules weights\n",
        false,
    ),
    (
        b"rwsp-free 1\nrules\ngoal 1\nbound 1 1 1 rules weights\n",
        false,
    ),
];

// Whether the text is read as that of a free log of one line.
fn is_free_log_of_one_line(alloc: Global, problem: &Problem, text: &[u8]) -> bool {
    match read_header(alloc, problem, LogKind::WithGoal, text) {
        Ok(header) => read_line(alloc, problem, header.terms(), header.body).is_ok(),
        Err(_) => false,
    }
}

#[test]
fn free_logs_of_one_line(rt: HostRuntime) -> Result<(), Fail> {
    let problem = problem_of(rt.alloc(), LONG_BLOCKS)?;
    for (text, is_read) in FREE_TEXTS {
        let found = is_free_log_of_one_line(rt.alloc(), &problem, text);
        assert!(rt; found == is_read, "{text:?}");
        if is_read {
            let printed = read_and_printed(rt.alloc(), LONG_BLOCKS, LogKind::WithGoal, text)?;
            assert_eq!(rt; printed.as_slice(), text);
        }
    }
    Ok(())
}

fn put_all_cited(rules: &mut RuleList, problem: &Problem, log: &Log) -> Result<(), AllocError>
    requires { Fits problem.now log.now }
{
    for line in log.lines() {
        put_cited(rules, problem, line)?;
    }
    Ok(())
}

fn turn_of(alloc: Global, text: &[u8]) -> Result<Option<Turn>, Fail> {
    let problem = problem_of(alloc, text)?;
    match scarcest_turn(&problem) {
        Opening::Turned(turn) => Ok(Some(turn)),
        _ => Ok(None),
    }
}

#[test]
fn turns(rt: HostRuntime) -> Result<(), Fail> {
    assert_eq!(rt; turn_of(rt.alloc(), NO_DEMAND)?, None);
    let turn = Turn { day: 1, x: D };
    assert_eq!(rt; turn_of(rt.alloc(), D_ON_BOTH_DAYS)?, Some(turn));
    let scarcer = Turn { day: 3, x: D };
    assert_eq!(rt; turn_of(rt.alloc(), TWO_D_AND_ONE)?, Some(scarcer));
    Ok(())
}

// The rules that the log of a text cites.
fn cited(alloc: Global, problem: &Problem, text: &[u8]) -> Result<RuleList, Fail> {
    let log = log_of(alloc, problem, text)?;
    let mut rules = RuleList::new(alloc);
    put_all_cited(&mut rules, problem, &log)?;
    Ok(rules)
}

#[test]
fn cited_rules(rt: HostRuntime) -> Result<(), Fail> {
    let problem = problem_of(rt.alloc(), D_ON_BOTH_DAYS)?;
    let text = b"rwsp-log 1\nrules\nbound 1 1 1 rules 1 3 weights 1 D 1 2 D 1\n";
    let rules = cited(rt.alloc(), &problem, text)?;
    assert_eq!(rt; rules.numbers(), [1u32, 3, 7, 8].as_slice());
    Ok(())
}
