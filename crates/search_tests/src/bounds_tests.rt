// Bounds of small problems. The heaviest words are compared with a listing in `all_words.rt`.
ghost use Rattle.std.specs.Prelude.{◌≤◌};
ghost use Rattle.rwsp_terms.specs.declared.limits.TheConstants.{GREATEST_WEIGHT, MOST_WORKERS};
ghost use Rattle.domain_store.specs.Store.{BelongsTo};

use clean_words::{
    Automaton, CleanWords, Gate, NoGate, Told, Weights, first_plain, heaviest, plain_bounds,
    search_weights,
};
use domain_store::Domains;
use rwsp_terms::{Symbol, Weight};
use std::alloc::Global;
use std::test::Fail;
use std::thread::Threads;
use test_helpers::{
    D, D_ON_BOTH_DAYS, LONG_BLOCKS, LONGER_BLOCKS, Meeting, OFF, TWOS_IN_SIX, problem_of,
};

// What the heaviest word weighs by its free weekends alone, in three weeks of seven days.
fn weight_under(alloc: Global, automaton: &Automaton, doms: &Domains) -> Result<Option<i64>, Fail>
    requires { BelongsTo automaton.now.problem doms.now }
{
    let problem = automaton.problem();
    if problem.days() != 7 || problem.cells() != 21 {
        return Err(Fail::from("not three weeks"));
    }
    let words = CleanWords {
        automaton,
        domains: doms,
        position: 0,
        days: 21,
    };
    let weights = Weights::new(alloc);
    match heaviest(alloc, &words, &weights, 1, 0)? {
        Some(found) => Ok(Some(found.weight)),
        None => Ok(None),
    }
}

fn greatest_weight(alloc: Global, text: &[u8]) -> Result<Option<i64>, Fail> {
    let problem = problem_of(alloc, text)?;
    let automaton = Automaton::of_short_rules(alloc, &problem, Told::DayOff)?;
    let doms = Domains::new(alloc, &problem)?;
    weight_under(alloc, &automaton, &doms)
}

#[test]
fn free_weekends_are_rewarded(rt: HostRuntime) -> Result<(), Fail> {
    for (text, weight) in [(LONG_BLOCKS, 1), (LONGER_BLOCKS, 2)] {
        assert_eq!(rt; greatest_weight(rt.alloc(), text)?, Some(weight));
    }
    Ok(())
}

fn weight(day: u32, symbol: Symbol, value: i32) -> Weight {
    Weight { day, symbol, value }
}

fn searched(alloc: Global, text: &[u8], rounds: u32) -> Result<Option<Weights>, Fail>
    requires { rounds ≤ GREATEST_WEIGHT }
{
    let problem = problem_of(alloc, text)?;
    let automaton = Automaton::of_short_rules(alloc, &problem, Told::DayOff)?;
    let doms = Domains::new(alloc, &problem)?;
    Ok(search_weights(alloc, &automaton, &doms, rounds)?)
}

#[test]
fn searched_weights(rt: HostRuntime) -> Result<(), Fail> {
    let alloc = rt.alloc();
    let one_a_day = [
        weight(1, OFF, -1),
        weight(1, D, 1),
        weight(2, OFF, -1),
        weight(2, D, 1),
    ];
    for (text, rounds, is_found) in [
        (D_ON_BOTH_DAYS, 0, false),
        (D_ON_BOTH_DAYS, 2, false),
        (TWOS_IN_SIX, 32, false),
        (D_ON_BOTH_DAYS, 3, true),
        (D_ON_BOTH_DAYS, 1000, true),
    ] {
        match searched(alloc, text, rounds)? {
            Some(found) => {
                assert!(rt; is_found, "{rounds}");
                assert_eq!(rt; found.entries(), one_a_day.as_slice());
            }
            None => assert!(rt; !is_found, "{rounds}"),
        }
    }
    Ok(())
}

// Every shift weighs 1 or -1 on every day, then the one shift that there is.
#[test]
fn plain_bounds_in_order(rt: HostRuntime) -> Result<(), Fail> {
    let problem = problem_of(rt.alloc(), D_ON_BOTH_DAYS)?;
    let bounds = plain_bounds(rt.alloc(), &problem)?;
    assert_eq!(rt; bounds.len(), 4);
    for (weights, value) in bounds.iter().zip([1, -1, 1, -1].iter()) {
        let both = [weight(1, D, *value), weight(2, D, *value)];
        assert_eq!(rt; weights.entries(), both.as_slice());
    }
    Ok(())
}

// The first plain bound that holds, with all short rules and full domains.
fn plain<R: Threads + Sync, G: Gate>(
    rt: &R,
    alloc: Global,
    text: &[u8],
    workers: u32,
    gate: &G,
) -> Result<Option<usize>, Fail>
    requires { (1 ≤ workers) × (workers ≤ MOST_WORKERS) }
{
    let problem = problem_of(alloc, text)?;
    let automaton = Automaton::of_short_rules(alloc, &problem, Told::DayOff)?;
    let doms = Domains::new(alloc, &problem)?;
    Ok(first_plain(rt, alloc, &automaton, &doms, workers, gate)?)
}

#[test]
fn plain_bounds_by_workers(rt: HostRuntime) -> Result<(), Fail> {
    let alloc = rt.alloc();
    for workers in [1, 2, 4, 64] {
        assert_eq!(rt;
            plain(&rt, alloc, D_ON_BOTH_DAYS, workers, &NoGate)?,
            Some(0)
        );
        assert_eq!(rt; plain(&rt, alloc, TWOS_IN_SIX, workers, &NoGate)?, None);
    }
    Ok(())
}

#[test]
fn workers_are_there_at_once(rt: HostRuntime) -> Result<(), Fail> {
    let gate = Meeting::new();
    let found = plain(&rt, rt.alloc(), TWOS_IN_SIX, 2, &gate)?;
    assert_eq!(rt; found, None);
    assert!(rt; gate.took_place());
    Ok(())
}
