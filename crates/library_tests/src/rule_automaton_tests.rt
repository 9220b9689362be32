use clean_words::{Automaton, Told};
use rwsp_terms::Symbol;
use rwsp_terms::limits::MOST_SYMBOLS;
use std::test::Fail;
use test_helpers::{D, DAYS_AND_NIGHTS, N, OFF, problem_of};

// Three shifts in blocks of 2 to 6 days, 2 to 4 days off, 4 to 7 days of work.
const THREE_SHIFTS: &[u8] =
    b"1\n1\n3\n0\n0\n0\nA 360 480 2 6\nB 360 480 2 6\nC 360 480 2 6\n2 4\n4 7\n0 0\n";

// Six shifts; each block has 1 to 10 days.
const SIX_SHIFTS: &[u8] =
    b"1\n1\n6\n0\n0\n0\n0\n0\n0\nA 360 480 1 10\nB 360 480 1 10\nC 360 480 1 10\nD 360 480 1 10\nE 360 480 1 10\nF 360 480 1 10\n1 10\n1 10\n0 0\n";

// Eight shifts in blocks of 1 to 7 days, 1 to 4 days off, 1 to 7 days of work.
const EIGHT_SHIFTS: &[u8] =
    b"1\n1\n8\n0\n0\n0\n0\n0\n0\n0\n0\nA 360 480 1 7\nB 360 480 1 7\nC 360 480 1 7\nD 360 480 1 7\nE 360 480 1 7\nF 360 480 1 7\nG 360 480 1 7\nH 360 480 1 7\n1 4\n1 7\n0 0\n";

// The numbers of states were counted by a program of another language: the least automata, by E. Moore's partitions.
#[test]
fn automata_are_small(rt: HostRuntime) -> Result<(), Fail> {
    for (text, told, states) in [
        (THREE_SHIFTS, Told::DayOff, 62),
        (THREE_SHIFTS, Told::LastSymbol, 66),
        (SIX_SHIFTS, Told::DayOff, 21),
        (SIX_SHIFTS, Told::LastSymbol, 71),
        (EIGHT_SHIFTS, Told::DayOff, 12),
        (EIGHT_SHIFTS, Told::LastSymbol, 61),
    ] {
        let problem = problem_of(rt.alloc(), text)?;
        let automaton = Automaton::of_short_rules(rt.alloc(), &problem, told)?;
        assert_eq!(rt; automaton.states(), states);
    }
    Ok(())
}

// Where a word leads from the start.
fn lead(automaton: &Automaton, word: &[Symbol]) -> Option<usize> {
    let mut state = 0;
    for x in word {
        if state >= automaton.states() || u32::from(x.number) >= MOST_SYMBOLS {
            return None;
        }
        state = automaton.follow(state, *x)?;
    }
    Some(state)
}

#[test]
fn automata_read_words(rt: HostRuntime) -> Result<(), Fail> {
    let problem = problem_of(rt.alloc(), DAYS_AND_NIGHTS)?;
    let automaton = Automaton::of_short_rules(rt.alloc(), &problem, Told::DayOff)?.copy()?;
    assert_eq!(rt; automaton.problem().shifts(), 2);
    assert_eq!(rt; automaton.rules().len(), 8);
    assert_eq!(rt; lead(&automaton, &[D, OFF, D]), None);
    assert_eq!(rt; lead(&automaton, &[D, D, N]), None);
    let state = lead(&automaton, &[D, OFF, OFF, D, D, D, OFF]).unwrap_or(usize::MAX);
    assert!(rt; state < automaton.states());
    assert!(rt; automaton.is_off(state));
    assert!(rt; automaton.steps().len() >= automaton.states());
    Ok(())
}
