// Small cycles worked by hand.
ghost use Rattle.std.specs.Prelude.{◌≡◌};
ghost use Rattle.domain_store.specs.Store.{BelongsTo, HasSameShape};
ghost use Rattle.propagators.specs.Known.{KnowsDomains};

use crate::propagators_tests::{Kind, Seen, seen_by};
use clean_words::{Automaton, Told};
use domain_store::Domains;
use propagators::Cycle;
use rwsp_model::Problem;
use rwsp_terms::Symbol;
use std::alloc::{AllocError, Global};
use std::test::Fail;
use test_helpers::{D, D_ON_BOTH_DAYS, OFF, TWOS_IN_FOUR, TWOS_IN_SIX, problem_of, take_away};

// Whether some word has the symbol at the position.
fn supports(cycle: &Cycle<'_>, p: u32, x: Symbol) -> bool {
    p < cycle.problem().cells() && cycle.supported(p, x)
}

// Six days never close up, and four have a day off two days after the shift.
#[test]
fn a_first_shift_is_seen(rt: HostRuntime) -> Result<(), Fail> {
    let alloc = rt.alloc();
    // all symbols are left, then position 0 has the shift
    assert_eq!(rt;
        seen_by(&rt, alloc, Kind::Cycle, TWOS_IN_SIX, None)?,
        Seen::Quiet
    );
    assert_eq!(rt;
        seen_by(&rt, alloc, Kind::Cycle, TWOS_IN_SIX, Some(OFF))?,
        Seen::Dead(12)
    );
    assert_eq!(rt;
        seen_by(&rt, alloc, Kind::Cycle, TWOS_IN_FOUR, None)?,
        Seen::Quiet
    );
    assert_eq!(rt;
        seen_by(&rt, alloc, Kind::Cycle, TWOS_IN_FOUR, Some(OFF))?,
        Seen::Cut(2, 1)
    );
    Ok(())
}

// Whether the cycle isn't dead, whether D is supported on the second day, and whether the day off is.
fn supported_on_second(
    alloc: Global,
    automaton: &Automaton,
    doms: &Domains,
) -> Result<(bool, bool, bool), AllocError>
    requires { BelongsTo automaton.now.problem doms.now }
{
    let cycle = Cycle::new(alloc, automaton, doms)?;
    Ok((
        !cycle.is_dead(),
        supports(&cycle, 1, D),
        supports(&cycle, 1, OFF),
    ))
}

// The same where the first day has no day off.
fn supported_behind_a_shift(alloc: Global, problem: &Problem) -> Result<(bool, bool, bool), Fail> {
    let automaton = Automaton::of_short_rules(alloc, problem, Told::DayOff)?;
    let mut doms = Domains::new(alloc, problem)?;
    take_away(&mut doms, 0, OFF)?;
    Ok(supported_on_second(alloc, &automaton, &doms)?)
}

// Work of one day: D on the first of two days, and the second is off.
#[test]
fn no_shift_is_supported_behind_a_shift(rt: HostRuntime) -> Result<(), Fail> {
    let alloc = rt.alloc();
    let problem = problem_of(alloc, D_ON_BOTH_DAYS)?;
    assert!(rt; supported_behind_a_shift(alloc, &problem)? == (true, false, true));
    Ok(())
}

// Leaves D alone at position 0, and has the cycle take that in. Whether it is dead then.
fn dies_by_d(cycle: &mut Cycle<'_>, doms: &mut Domains) -> Result<bool, Fail>
    requires { KnowsDomains cycle.old doms.old }
    ensures problem { cycle.new.problem ≡ cycle.old.problem }
    ensures shape { HasSameShape doms.old doms.new }
{
    if doms.cells() == 0 || !doms.has(0, D) || doms.size(0) < 2 {
        return Err(Fail::from("nothing is left beside D"));
    }
    doms.set_only(0, D);
    cycle.narrowed(doms, 0);
    Ok(cycle.is_dead())
}

// Whether the cycle is dead with D alone at position 0, and neither before nor when that is undone.
fn is_undone(alloc: Global, automaton: &Automaton, doms: &mut Domains) -> Result<bool, Fail>
    requires { BelongsTo automaton.now.problem doms.old }
{
    let start = doms.copy()?;
    let mut cycle = Cycle::new(alloc, automaton, doms)?;
    let was_alive = !cycle.is_dead();
    let dies = dies_by_d(&mut cycle, doms)?;
    cycle.undo_to(&start);
    Ok(was_alive && dies && !cycle.is_dead() && supports(&cycle, 0, D))
}

// Whether that is so from full domains on.
fn is_undone_from_full(alloc: Global, problem: &Problem) -> Result<bool, Fail> {
    let automaton = Automaton::of_short_rules(alloc, problem, Told::DayOff)?;
    let mut doms = Domains::new(alloc, problem)?;
    is_undone(alloc, &automaton, &mut doms)
}

// Two D and two days off in turn: a first D kills six days, until it is undone.
#[test]
fn what_is_narrowed_is_undone(rt: HostRuntime) -> Result<(), Fail> {
    let alloc = rt.alloc();
    let problem = problem_of(alloc, TWOS_IN_SIX)?;
    assert!(rt; is_undone_from_full(alloc, &problem)?);
    Ok(())
}
