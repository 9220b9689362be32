ghost use Rattle.std.specs.Prelude.{◌<◌};
ghost use Rattle.rwsp_terms.specs.declared.limits.TheConstants.{MOST_SYMBOLS};

use clean_words::Automaton;
use rwsp_terms::Symbol;
use std::alloc::Global;
use std::test::Fail;
use test_helpers::{
    D, D_ON_BOTH_DAYS, DAYS_AND_NIGHTS, N, OFF, TWOS_IN_SIX, all_rules, one_rule, problem_of,
};

fn symbol(letter: u8) -> Symbol
    ensures { result.number < MOST_SYMBOLS }
{
    match letter {
        b'D' => D,
        b'N' => N,
        _ => OFF,
    }
}

// The first place whose symbol makes the word unclean.
fn first_unclean(automaton: &Automaton, word: &[u8]) -> Option<usize> {
    let mut state = automaton.start(0);
    for (i, letter) in word.iter().enumerate() {
        if state as usize >= automaton.states() {
            return None;
        }
        match automaton.follow(state, symbol(*letter)) {
            Some(next) => state = next,
            None => return Some(i),
        }
    }
    None
}

const NIGHTS: [u8; 31] = [b'N'; 31];

const LONG_PAUSE: [u8; 35] = [b'-'; 35];

#[test]
fn words_by_all_rules(rt: HostRuntime) -> Result<(), Fail> {
    let problem = problem_of(rt.alloc(), DAYS_AND_NIGHTS)?;
    let rules = all_rules(rt.alloc(), &problem)?;
    assert_eq!(rt;
        rules.rules().numbers(),
        [1, 2, 3, 4, 6, 8, 9, 10].as_slice()
    );
    for (word, want) in [
        (b"".as_slice(), None),
        (b"D--DDD".as_slice(), None),
        (b"DNN--".as_slice(), None),
        (b"D-D".as_slice(), Some(2)),
        (b"--D-".as_slice(), Some(3)),
        (b"--DNN".as_slice(), Some(3)),
        (b"--DD-".as_slice(), Some(4)),
        (b"--DDD-".as_slice(), None),
        (b"DDDD".as_slice(), Some(3)),
        (b"DDNN".as_slice(), Some(2)),
        (b"NND".as_slice(), Some(2)),
        (&NIGHTS[..30], None),
        (&NIGHTS, Some(30)),
        (&LONG_PAUSE, None),
    ] {
        assert_eq!(rt; first_unclean(&rules, word), want, "{word:?}");
    }
    Ok(())
}

// The first place whose symbol makes the word unclean, by one rule of a problem or by all its short rules.
fn unclean_by(
    alloc: Global,
    problem: &[u8],
    rule: Option<u32>,
    word: &[u8],
) -> Result<Option<usize>, Fail> {
    let problem = problem_of(alloc, problem)?;
    let rules = match rule {
        Some(number) => one_rule(alloc, &problem, number)?,
        None => all_rules(alloc, &problem)?,
    };
    Ok(first_unclean(&rules, word))
}

// Rule 1 is the greatest length of D, and rule 4 the least of days off.
#[test]
fn words_by_some_rules(rt: HostRuntime) -> Result<(), Fail> {
    for (problem, rule, word, want) in [
        (TWOS_IN_SIX, Some(4), b"-D".as_slice(), None),
        (TWOS_IN_SIX, Some(4), b"D-D", Some(2)),
        (D_ON_BOTH_DAYS, Some(1), b"DD", Some(1)),
        (TWOS_IN_SIX, None, b"D--DD-", None),
        (TWOS_IN_SIX, None, b"D--DD-D", Some(6)),
    ] {
        assert_eq!(rt;
            unclean_by(rt.alloc(), problem, rule, word)?,
            want,
            "{word:?}"
        );
    }
    Ok(())
}
