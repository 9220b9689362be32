// Given cells, read.
use refutation_log::{GivenCell, is_open_word_taken, read_cells};
use roster_print::RosterRefusal;
use rwsp_model::{Fail as Failure, Problem};
use std::alloc::Global;
use std::test::Fail;
use test_helpers::{D, OFF, SEQUENCES, SEQUENCES_IN_TWO_WEEKS, problem_of};

// The cells that the text gives.
fn cells_of(alloc: Global, problem: &Problem, text: &[u8]) -> Result<Vec<GivenCell>, Fail> {
    if text.len() > 10_000 {
        return Err(Fail::from("a long text"));
    }
    match read_cells(alloc, problem, text) {
        Ok(given) => Ok(Vec::from_slice(alloc, given.cells())?),
        Err(why) => Err(Fail::from(why)),
    }
}

#[test]
fn open_cells_are_left_out(rt: HostRuntime) -> Result<(), Fail> {
    let problem = problem_of(rt.alloc(), SEQUENCES_IN_TWO_WEEKS)?;
    let given = cells_of(rt.alloc(), &problem, b"# ? D\n? -\r\n\n\tD ? # -\n")?;
    let first = GivenCell { p: 1, x: OFF };
    let second = GivenCell { p: 2, x: D };
    assert_eq!(rt; given.as_slice(), [first, second].as_slice());
    let none = cells_of(rt.alloc(), &problem, b"? ?\n? ?")?;
    assert!(rt; none.is_empty());
    Ok(())
}

// Why the text gives no cells, if it doesn't.
fn refusal(alloc: Global, problem: &Problem, text: &[u8]) -> Option<RosterRefusal> {
    if text.len() > 10_000 {
        return None;
    }
    match read_cells(alloc, problem, text) {
        Err(Failure::Refused(why)) => Some(why),
        _ => None,
    }
}

#[test]
fn other_cells_are_refused(rt: HostRuntime) -> Result<(), Fail> {
    let problem = problem_of(rt.alloc(), SEQUENCES)?;
    let refusals: [(&[u8], RosterRefusal); 6] = [
        (b"? Q", RosterRefusal::Unknown(1)),
        (b"?? D", RosterRefusal::Unknown(1)),
        (b"\n?", RosterRefusal::Width(2)),
        (b"? ? ? Q", RosterRefusal::Unknown(1)),
        (b"", RosterRefusal::Weeks(0)),
        (b"? D\n? ?", RosterRefusal::Weeks(2)),
    ];
    for (text, why) in refusals {
        assert_eq!(rt; refusal(rt.alloc(), &problem, text), Some(why));
    }
    Ok(())
}

#[test]
fn a_shift_may_be_called_as_an_open_cell(rt: HostRuntime) -> Result<(), Fail> {
    let problem = problem_of(rt.alloc(), SEQUENCES)?;
    assert!(rt; !is_open_word_taken(&problem));
    let other = problem_of(rt.alloc(), b"1\n1\n1\n1\n? 360 480 1 7\n1 1\n1 7\n0 0\n")?;
    assert!(rt; is_open_word_taken(&other));
    Ok(())
}
