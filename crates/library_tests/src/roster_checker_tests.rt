// Rosters worked by hand, and where they break a rule first.
use roster_checker::{first_broken, free_weekends};
use std::alloc::Global;
use std::test::Fail;
use test_helpers::{DAYS_OR_NIGHTS, problem_of, roster_of};

// Weeks of two days with D and N in any number, a roster, and the rule, week, day and length where it is broken first.
const CASES: [(&[u8], &[u8], Option<[u32; 4]>); 5] = [
    (
        b"2\n3\n2\n0..3 0..3\n0..3 0..3\nD 360 480 3 7\nN 360 480 1 7\n1 7\n1 7\n0 0\n",
        b"D -\n- -\n- D\n",
        Some([2, 3, 1, 4]),
    ),
    (
        b"2\n1\n2\n0..1 0..1\n0..1 0..1\nD 360 480 1 7\nN 360 480 1 7\n1 7\n1 7\n0 0\n",
        b"D -\n",
        None,
    ),
    // work without end
    (
        b"2\n1\n2\n0..1 0..1\n0..1 0..1\nD 360 480 1 7\nN 360 480 1 7\n1 7\n1 7\n0 0\n",
        b"D N\n",
        Some([7, 1, 1, 8]),
    ),
    (
        b"2\n1\n2\n0..1 0..1\n0..1 0..1\nD 360 480 1 7\nN 360 480 1 7\n1 7\n1 7\n2 0\nN D\nD -\n",
        b"- D\n",
        Some([10, 1, 2, 2]),
    ),
    (
        b"2\n1\n2\n0..1 0..1\n0..1 0..1\nD 360 480 1 7\nN 360 480 1 7\n1 7\n1 7\n0 2\n- D N\nD - D\n",
        b"- D\n",
        Some([10, 1, 2, 3]),
    ),
];

fn broken(alloc: Global, text: &[u8], cells: &[u8]) -> Result<Option<[u32; 4]>, Fail> {
    let problem = problem_of(alloc, text)?;
    let roster = roster_of(alloc, &problem, cells)?;
    Ok(first_broken(&problem, &roster).map(|b| [b.rule, b.week, b.day, b.length]))
}

#[test]
fn rosters_break_a_rule_first(rt: HostRuntime) -> Result<(), Fail> {
    for (text, cells, wanted) in CASES {
        assert_eq!(rt; broken(rt.alloc(), text, cells)?, wanted);
    }
    Ok(())
}

#[test]
fn a_weekend_is_free_where_both_its_days_are_off(rt: HostRuntime) -> Result<(), Fail> {
    let alloc = rt.alloc();
    let problem = problem_of(alloc, DAYS_OR_NIGHTS)?;
    let cells = b"D D D D D - -\nD D D D D D -\n- - D D D - D\n";
    let roster = roster_of(alloc, &problem, cells)?;
    assert!(rt; problem.days() == 7);
    assert_eq!(rt; free_weekends(&problem, &roster), 1);
    Ok(())
}
