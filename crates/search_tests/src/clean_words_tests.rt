// The clean words of two small problems.
ghost use Rattle.std.specs.Prelude.{◌≤◌, IfOk};
ghost use Rattle.domain_store.specs.Store.{BelongsTo};

use clean_words::{Automaton, CleanWords, HeavyWord, Told, Weights, escape, heaviest};
use domain_store::Domains;
use rwsp_model::Problem;
use rwsp_terms::Symbol;
use std::alloc::{AllocError, Global};
use std::test::Fail;
use test_helpers::{D, OFF, TWO_IN_FOUR, TWOS_IN_SIX, problem_of, take_away};

// The heaviest word of two turns from position 0 on, where each D weighs 1.
fn heaviest_of_two_turns(
    alloc: Global,
    problem: &Problem,
    doms: &Domains,
) -> Result<Option<HeavyWord>, AllocError>
    requires { BelongsTo problem.now doms.now }
{
    problem.prove_limits();
    let automaton = Automaton::of_short_rules(alloc, problem, Told::DayOff)?;
    let words = CleanWords {
        automaton: &automaton,
        domains: doms,
        position: 0,
        days: 2 * problem.cells(),
    };
    let mut weights = Weights::new(alloc);
    for day in 1..problem.days() + 1 {
        weights.put(day, D, 1)?;
    }
    heaviest(alloc, &words, &weights, 0, i64::MIN)
}

#[test]
fn a_heaviest_word(rt: HostRuntime) -> Result<(), Fail> {
    let problem = problem_of(rt.alloc(), TWO_IN_FOUR)?;
    let doms = Domains::new(rt.alloc(), &problem)?;
    let heavy = heaviest_of_two_turns(rt.alloc(), &problem, &doms)?.ok_or("no clean word")?;
    assert_eq!(rt; heavy.weight, 3);
    let word: [Symbol; 8] = [OFF, D, OFF, OFF, D, OFF, OFF, D];
    assert_eq!(rt; heavy.word.symbols(), word.as_slice());
    Ok(())
}

// All symbols at each position, but D alone at position 0.
fn begins_with_d(alloc: Global, problem: &Problem) -> Result<Domains, Fail>
    ensures { IfOk result (BelongsTo problem.now) }
{
    let mut doms = Domains::new(alloc, problem)?;
    take_away(&mut doms, 0, OFF)?;
    Ok(doms)
}

// The least clean word of these days from position 0 on.
fn least_of(
    alloc: Global,
    problem: &Problem,
    doms: &Domains,
    days: u32,
) -> Result<Option<Vec<Symbol>>, Fail>
    requires belongs { BelongsTo problem.now doms.now }
    requires few { days ≤ 7 }
{
    problem.prove_limits();
    let automaton = Automaton::of_short_rules(alloc, problem, Told::DayOff)?;
    let words = CleanWords {
        automaton: &automaton,
        domains: doms,
        position: 0,
        days,
    };
    match escape(alloc, &words)? {
        Some(word) => Ok(Some(word.symbols().to_vec(alloc)?)),
        None => Ok(None),
    }
}

#[test]
fn a_dead_word(rt: HostRuntime) -> Result<(), Fail> {
    let problem = problem_of(rt.alloc(), TWOS_IN_SIX)?;
    let doms = begins_with_d(rt.alloc(), &problem)?;
    let word = least_of(rt.alloc(), &problem, &doms, 6)?;
    let least: [Symbol; 6] = [D, OFF, OFF, D, D, OFF];
    assert_eq!(rt; word.ok_or("no clean word")?.as_slice(), least.as_slice());
    let word = least_of(rt.alloc(), &problem, &doms, 7)?;
    assert!(rt; word.is_none());
    Ok(())
}
