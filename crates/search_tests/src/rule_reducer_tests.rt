ghost use Rattle.refutation_terms.specs.Log.{Fits};

use refutation_log::{Log, print_log};
use refutation_terms::LogRefusal;
use rule_reducer::{reduce, strip};
use rwsp_model::{Fail as Failure, Problem, rule_at, rule_count};
use rwsp_terms::Word;
use std::alloc::Global;
use std::test::Fail;
use test_helpers::{D, OFF, ONE_CELL, TWO_D_AND_ONE, TWO_IN_FOUR, TWOS_IN_SIX, log_of, problem_of};

const BOUND: &[u8] = b"rwsp-log 1\nrules 1 3 4 7\nbound 1 1 2 rules 1 3 4 weights 1 D 1\n";

const BOUND_WITHOUT_3: &[u8] = b"rwsp-log 1\nrules 1 4 7\nbound 1 1 2 rules 1 4 weights 1 D 1\n";

// A problem, a log's text, the number of a rule, and the text without the rule.
const STRIPPED: [(&[u8], &[u8], u32, &[u8]); 3] = [
    (TWO_IN_FOUR, BOUND, 3, BOUND_WITHOUT_3),
    (
        TWO_IN_FOUR,
        BOUND,
        7,
        b"rwsp-log 1\nrules 1 3 4\nbound 1 1 2 rules 1 3 4 weights\n",
    ),
    (
        ONE_CELL,
        b"rwsp-log 2\nrules 3 5 7\nturn D 1\nsplit 1 1 D\nwindow 5 1 1 8\ndead 1 1 2 rules 3 5\n",
        5,
        b"rwsp-log 2\nrules 3 7\nturn D 1\nsplit 1 1 D\nwindow 5 1 1 8\ndead 1 1 2 rules 3\n",
    ),
];

// The text of the log without the rule, where the problem has a rule of this number.
fn stripped_text(alloc: Global, problem: &Problem, log: &Log, number: u32) -> Result<Vec<u8>, Fail>
    requires { Fits problem.now log.now }
{
    if number < 1 || number > rule_count(problem) {
        return Err(Fail::from("no rule"));
    }
    let kept = strip(alloc, log, rule_at(problem, number), problem)?;
    Ok(print_log(alloc, problem, &kept)?)
}

fn stripped(alloc: Global, problem: &[u8], text: &[u8], number: u32) -> Result<Vec<u8>, Fail> {
    let problem = problem_of(alloc, problem)?;
    let log = log_of(alloc, &problem, text)?;
    stripped_text(alloc, &problem, &log, number)
}

#[test]
fn rules_are_stripped(rt: HostRuntime) -> Result<(), Fail> {
    for (problem, text, number, wanted) in STRIPPED {
        let printed = stripped(rt.alloc(), problem, text, number)?;
        assert_eq!(rt; printed.as_slice(), wanted);
    }
    Ok(())
}

const TURNED: &[u8] = b"rwsp-log 2\nrules 1 2 3 4 7\nturn D 1\ndead 1 1 7 rules 1 2 3 4\n";

// A problem, a log's text, and what is left of it.
const REDUCED: [(&[u8], &[u8], &[u8]); 4] = [
    (TWO_IN_FOUR, BOUND, BOUND_WITHOUT_3),
    (
        TWO_D_AND_ONE,
        b"rwsp-log 1\nrules 1 7 8 9\nbound 1 1 1 rules 1 weights 1 D 1 2 D 1 3 D 1\n",
        b"rwsp-log 1\nrules 7\nbound 1 1 1 rules weights 1 D 1\n",
    ),
    (TWOS_IN_SIX, TURNED, TURNED),
    (
        ONE_CELL,
        b"rwsp-log 1\nrules 1 3 5\nsplit 1 1 D\nwindow 5 1 1 8\nwindow 3 1 1 2\n",
        b"rwsp-log 1\nrules 3 5\nsplit 1 1 D\nwindow 5 1 1 8\nwindow 3 1 1 2\n",
    ),
];

fn reduced_text(alloc: Global, problem: &Problem, log: Log) -> Result<Vec<u8>, Fail>
    requires { Fits problem.now log }
{
    let kept = reduce(alloc, problem, log)?;
    Ok(print_log(alloc, problem, &kept)?)
}

fn reduced(alloc: Global, problem: &[u8], text: &[u8]) -> Result<Vec<u8>, Fail> {
    let problem = problem_of(alloc, problem)?;
    let log = log_of(alloc, &problem, text)?;
    reduced_text(alloc, &problem, log)
}

#[test]
fn logs_are_reduced(rt: HostRuntime) -> Result<(), Fail> {
    for (problem, text, wanted) in REDUCED {
        let printed = reduced(rt.alloc(), problem, text)?;
        assert_eq!(rt; printed.as_slice(), wanted);
    }
    Ok(())
}

// The line of an escape, and the word, for which the log isn't reduced.
fn escape_from(alloc: Global, problem: &Problem, text: &[u8]) -> Result<(u32, Word), Fail> {
    let log = log_of(alloc, problem, text)?;
    match reduce(alloc, problem, log) {
        Err(Failure::Refused(LogRefusal::Escape(line, word))) => Ok((line, word)),
        _ => Err(Fail::from("no escape")),
    }
}

#[test]
fn a_log_that_fails_is_refused(rt: HostRuntime) -> Result<(), Fail> {
    let problem = problem_of(rt.alloc(), TWO_IN_FOUR)?;
    let text = b"rwsp-log 1\nrules 1 3 4 7\nbound 1 1 1 rules 1 3 4 weights 1 D 1\n";
    let (line, word) = escape_from(rt.alloc(), &problem, text)?;
    assert_eq!(rt; line, 3);
    assert_eq!(rt; word.symbols(), [D, OFF, OFF, D].as_slice());
    Ok(())
}
