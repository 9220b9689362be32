// Counts of small problems.
use domain_store::Domains;
use propagators::Counts;
use rwsp_terms::Symbol;
use std::alloc::Global;
use std::test::Fail;
use test_helpers::{D_ON_DAY_1, OFF, THREE_IN_TWO, problem_of};

// The first leaf of a day that holds where all symbols are left: its day, its symbol, and whether there are too many.
fn overrun_in(alloc: Global, text: &[u8]) -> Result<Option<(u32, Symbol, bool)>, Fail> {
    let problem = problem_of(alloc, text)?;
    let doms = Domains::new(alloc, &problem)?.copy()?;
    let counts = Counts::new(alloc, &problem, &doms)?;
    Ok(counts.overrun(&problem))
}

// Of two weeks less three shifts -1 have a day off.
#[test]
fn days_off_are_counted(rt: HostRuntime) -> Result<(), Fail> {
    let alloc = rt.alloc();
    assert_eq!(rt; overrun_in(alloc, THREE_IN_TWO)?, Some((1, OFF, true)));
    assert_eq!(rt; overrun_in(alloc, D_ON_DAY_1)?, None);
    Ok(())
}
