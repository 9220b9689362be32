// Which parts make a problem, and what a problem tells.
use rwsp_model::{Parts, PartsRefusal, Problem, short_rules};
use rwsp_terms::{Bounds, DemandRow, Name, ShiftRow, Symbol};
use std::alloc::{AllocError, Global};
use std::test::Fail;
use test_helpers::{D, OFF, THREE_SHIFTS, problem_of};

// Weeks with one shift, whose demand has as many ranges.
fn parts_of(
    alloc: Global,
    days: u32,
    weeks: u32,
    ranges: usize,
    name: &[u8],
) -> Result<Parts, AllocError> {
    let once = Bounds {
        least: 1,
        greatest: 1,
    };
    let row = ShiftRow {
        name: Name::of(name.to_vec(alloc)?),
        start: 360,
        length: 480,
        bounds: once,
    };
    Ok(Parts {
        days,
        weeks,
        demand: vec![in alloc; DemandRow::of(vec![in alloc; once; ranges]?)]?,
        shifts: vec![in alloc; row]?,
        off: once,
        work: once,
        sequences: Vec::new(alloc),
    })
}

// Why the parts make no problem, if they don't.
fn refusal(parts: Parts) -> Option<PartsRefusal> {
    match Problem::of(parts) {
        Ok(_) => None,
        Err(why) => Some(why),
    }
}

#[test]
fn parts_make_a_problem_or_are_refused(rt: HostRuntime) -> Result<(), Fail> {
    let cases: [(u32, u32, usize, &[u8], Option<PartsRefusal>); 9] = [
        (7, 600, 7, b"D", None),
        (28, 150, 28, b"D", None),
        (7, 601, 7, b"D", Some(PartsRefusal::Range(2))),
        (7, 0, 7, b"D", Some(PartsRefusal::Range(2))),
        (7, 3, 6, b"D", Some(PartsRefusal::Shape)),
        (28, 151, 28, b"D", Some(PartsRefusal::Range(3))),
        (29, 0, 29, b"D", Some(PartsRefusal::Range(1))),
        (7, 3, 7, b"D E", Some(PartsRefusal::Name(1))),
        (7, 3, 7, b"-", Some(PartsRefusal::Name(1))),
    ];
    for (days, weeks, ranges, name, want) in cases {
        let parts = parts_of(rt.alloc(), days, weeks, ranges, name)?;
        let found = refusal(parts);
        assert_eq!(rt; found, want, "{days} days, {weeks} weeks");
    }
    Ok(())
}

#[test]
fn what_a_problem_tells(rt: HostRuntime) -> Result<(), Fail> {
    let problem = problem_of(rt.alloc(), THREE_SHIFTS)?.copy()?;
    let named = [
        problem.symbol(b"N"),
        problem.symbol(b"-"),
        problem.symbol(b"E"),
    ];
    assert_eq!(rt; named, [Some(Symbol { number: 3 }), Some(OFF), None]);
    assert!(rt; problem.days() == 7);
    let demand = [
        problem.demand_least(D, 7),
        problem.demand_greatest(D, 7),
        problem.demand_least(OFF, 7),
        problem.demand_greatest(OFF, 7),
    ];
    assert_eq!(rt; demand, [1, 2, -3, 0], "3 weeks, and 3 to 6 shifts");
    let short = short_rules(rt.alloc(), &problem)?;
    assert_eq!(rt;
        short.numbers(),
        [2, 4, 6, 7, 8, 9, 10, 11, 12, 13].as_slice()
    );
    Ok(())
}
