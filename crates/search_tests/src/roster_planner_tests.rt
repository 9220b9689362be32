// The search for the least crew by itself, and the text of what it gives.
use clean_words::NoGate;
use crew_checker::check_staff;
use crew_size::{Staffed, is_size, print_staff, with_weeks};
use roster_planner::{Effort, Sizes, least_crew};
use rwsp_model::Problem;
use std::alloc::Global;
use std::test::Fail;
use std::thread::Threads;
use test_helpers::{TWOS_IN_SIX, problem_of};

// The text of a search of two and three weeks, which counts blocks first or not.
fn staff_text<R: Threads + Sync>(
    rt: &R,
    alloc: Global,
    problem: &Problem,
    counts: bool,
) -> Result<Vec<u8>, Fail> {
    if !is_size(problem, 3) {
        return Err(Fail::from("three weeks are too long"));
    }
    let sizes = Sizes { low: 2, high: 3 };
    let effort = Effort {
        budget: 2_000,
        counts,
    };
    let run = least_crew(rt, alloc, problem, sizes, effort, &NoGate)?;
    Ok(print_staff(alloc, problem, &run)?)
}

// What a staff text decides, if it is accepted.
fn decided<R: Threads + Sync>(
    rt: &R,
    alloc: Global,
    problem: &Problem,
    text: &[u8],
) -> Option<Staffed> {
    if text.len() > 10_000 {
        return None;
    }
    check_staff(rt, alloc, problem, text, 2, &NoGate).ok()
}

// Whether blocks are counted first, and how the text ends.
const ENDS: [(bool, &[u8]); 2] = [
    (false, b"\nnone to 3\n"),
    (
        true,
        b"\nweeks 3 none\nrwsp-log 3\nrules 1 2 7\nturn D 1\nblocks D\nnone to 3\n",
    ),
];

// Three days of work are asked of two weeks, or of three, in blocks of two. For two weeks a day leaf holds, which comes
// before a leaf of blocks.
#[test]
fn two_and_three_weeks_are_too_few(rt: HostRuntime) -> Result<(), Fail> {
    let alloc = rt.alloc();
    let problem = problem_of(alloc, TWOS_IN_SIX)?;
    for (counts, end) in ENDS {
        let text = staff_text(&rt, alloc, &problem, counts)?;
        assert!(rt; text.starts_with(b"weeks 2 none\nrwsp-log 2\n"));
        assert!(rt; text.ends_with(end));
        assert!(rt; decided(&rt, alloc, &problem, &text) == Some(Staffed::NoneTo(2, 3)));
    }
    Ok(())
}

// The days, weeks and shifts of the problem with another number of weeks.
fn sizes_with(problem: &Problem, weeks: u32) -> Result<[u32; 3], Fail> {
    if !is_size(problem, weeks) {
        return Err(Fail::from("no size"));
    }
    let sized = with_weeks(problem, weeks)?;
    Ok([sized.days(), sized.weeks(), u32::from(sized.shifts())])
}

#[test]
fn a_problem_with_other_weeks(rt: HostRuntime) -> Result<(), Fail> {
    let problem = problem_of(rt.alloc(), TWOS_IN_SIX)?;
    assert_eq!(rt; sizes_with(&problem, 600)?, [1, 600, 1]);
    Ok(())
}
