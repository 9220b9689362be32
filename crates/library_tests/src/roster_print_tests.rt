use roster_print::{RosterRefusal, print_roster, put_rule, read_roster};
use rwsp_model::{Fail as Failure, Problem, number_of, rule_at, rule_count};
use std::alloc::{AllocError, Global};
use std::test::Fail;
use test_helpers::{
    D, OFF, SEQUENCES, SEQUENCES_IN_TWO_WEEKS, THREE_SHIFTS, problem_of, roster_of,
};

// Why the text spells no roster, if it doesn't.
fn refusal(alloc: Global, problem: &Problem, text: &[u8]) -> Option<RosterRefusal> {
    if text.len() > 10_000 {
        return None;
    }
    match read_roster(alloc, problem, text) {
        Err(Failure::Refused(why)) => Some(why),
        _ => None,
    }
}

#[test]
fn texts_are_read(rt: HostRuntime) -> Result<(), Fail> {
    let problem = problem_of(rt.alloc(), SEQUENCES)?;
    let text = b"# D Q\r\n\n \t\r\n\tD  -\r\n   # D\n";
    let roster = roster_of(rt.alloc(), &problem, text)?;
    assert_eq!(rt; roster.cells(), [D, OFF].as_slice());
    Ok(())
}

#[test]
fn texts_are_refused(rt: HostRuntime) -> Result<(), Fail> {
    let problem = problem_of(rt.alloc(), SEQUENCES)?;
    let refusals: [(&[u8], RosterRefusal); 7] = [
        (b"D Q", RosterRefusal::Unknown(1)),
        (b"D", RosterRefusal::Width(1)),
        (b"", RosterRefusal::Weeks(0)),
        (b"D -\n- D", RosterRefusal::Weeks(2)),
        (b"\nD\nQ D", RosterRefusal::Width(2)),
        (b"D D D Q\nD", RosterRefusal::Unknown(1)),
        (
            b"# D Q\r\n\n \t\r\n\tD  -\r\n   # D\nQ#",
            RosterRefusal::Unknown(6),
        ),
    ];
    for (text, why) in refusals {
        assert_eq!(rt; refusal(rt.alloc(), &problem, text), Some(why));
    }
    Ok(())
}

#[test]
fn rosters_are_printed(rt: HostRuntime) -> Result<(), Fail> {
    let alloc = rt.alloc();
    let problem = problem_of(alloc, SEQUENCES_IN_TWO_WEEKS)?;
    let roster = roster_of(alloc, &problem, b"- D\n\nD\tD")?;
    let text = print_roster(alloc, &problem, &roster)?;
    assert_eq!(rt; text.as_slice(), b"- D\nD D\n".as_slice());
    Ok(())
}

// The rules of a problem in the order of their numbers.
const RULES: [(&[u8], &[u8]); 2] = [
    (
        SEQUENCES,
        b"max shift D\nmin shift D\nmax off\nmin off\nmax work\nmin work\nnot D D\nnot D - D\nday 1\nday 2\n",
    ),
    (
        THREE_SHIFTS,
        b"max shift D\nmin shift D\nmax shift A\nmin shift A\nmax shift N\nmin shift N\nmax off\nmin off\nmax work\nmin work\nnot D -\nnot D -\nnot D -\nday 1\nday 2\nday 3\nday 4\nday 5\nday 6\nday 7\n",
    ),
];

// Whether each rule has the number that it is found by.
fn are_numbered(problem: &Problem) -> bool {
    for place in 0..rule_count(problem) {
        if number_of(problem, rule_at(problem, place + 1)) != place + 1 {
            return false;
        }
    }
    true
}

// Each rule, by its number, on a line.
fn rules_of(alloc: Global, problem: &Problem) -> Result<Vec<u8>, AllocError> {
    let mut out = Vec::new(alloc);
    for place in 0..rule_count(problem) {
        put_rule(&mut out, problem, rule_at(problem, place + 1))?;
        out.push(b'\n')?;
    }
    Ok(out)
}

#[test]
fn rules_are_printed_by_their_numbers(rt: HostRuntime) -> Result<(), Fail> {
    for (text, rules) in RULES {
        let problem = problem_of(rt.alloc(), text)?;
        assert!(rt; are_numbered(&problem));
        let printed = rules_of(rt.alloc(), &problem)?;
        assert_eq!(rt; printed.as_slice(), rules);
    }
    Ok(())
}
