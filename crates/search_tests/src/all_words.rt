// A trial of the definitions: `escape` and `heaviest` against a look at all words, where what is bad for a rule and
// what a word weighs are written anew.
ghost use Rattle.std.specs.Prelude.{◌≡◌, ◌≤◌, ◌<◌, ◌≤ℤ◌, negsuc, pos, IfOk};
ghost use Rattle.rwsp_terms.specs.declared.limits.TheConstants.{LONGEST_WORD};
ghost use Rattle.rwsp_terms.specs.Instance.{cells};
ghost use Rattle.domain_store.specs.Store.{BelongsTo};

use clean_words::{Automaton, CleanWords, HeavyWord, Told, Weights, escape, heaviest};
use domain_store::Domains;
use rwsp_model::Problem;
use rwsp_terms::{Bounds, Class, Sequence, Symbol, Word};
use std::alloc::{AllocError, Global};
use std::process::Abort;
use std::test::Fail;
use test_helpers::{D, OFF, TWO_IN_FOUR, TWOS_IN_SIX, problem_of, take_away};

// What a symbol weighs on a day: from -3 to 3.
fn value(day: u32, x: Symbol) -> i32
    ensures low { negsuc 2 ≤ℤ result }
    ensures high { result ≤ℤ pos 3 }
{
    let number = day.wrapping_mul(5).wrapping_add(u32::from(x.number) * 3);
    (number % 7) as i32 - 3
}

fn weights_of(alloc: Global, problem: &Problem) -> Result<Weights, AllocError> {
    let mut weights = Weights::new(alloc);
    for i in 0..problem.days() {
        put_day(&mut weights, i + 1, problem.shifts())?;
    }
    Ok(weights)
}

fn put_day(weights: &mut Weights, day: u32, last: u8) -> Result<(), AllocError> {
    for number in 0..=last {
        let x = Symbol { number };
        weights.put(day, x, value(day, x))?;
    }
    Ok(())
}

// What a word weighs from a position on.
fn weight_from(problem: &Problem, p: u32, word: &[Symbol]) -> i64 {
    let mut sum = 0i64;
    let mut place = p;
    for x in word {
        let day = (place % problem.days()).wrapping_add(1);
        sum = sum.wrapping_add(i64::from(value(day, *x)));
        place = place.wrapping_add(1);
    }
    sum
}

// The word of a number whose highest digit is the first symbol: so words are in order.
fn word_numbered(
    alloc: Global,
    number: u32,
    symbols: u32,
    len: u32,
) -> Result<Vec<Symbol>, AllocError> {
    let mut word = Vec::new(alloc);
    let mut rest = number;
    for _ in 0..len {
        let digit = rest.checked_rem(symbols).unwrap_or(0);
        word.push(Symbol {
            number: u8::try_from(digit).unwrap_or(0),
        })?;
        rest = rest.checked_div(symbols).unwrap_or(0);
    }
    word.reverse();
    Ok(word)
}

fn is_in(class: Class, x: Symbol) -> bool {
    match class {
        Class::Shift(y) => x == y,
        Class::Off => x == OFF,
        Class::Work => x != OFF,
    }
}

fn all_in(class: Class, part: &[Symbol]) -> bool {
    part.iter().all(|x| is_in(class, *x))
}

// Whether the part is a block that is too short, between two symbols that aren't in the class.
fn is_too_short(part: &[Symbol], class: Class, least: u32) -> bool {
    let [before, block @ .., after] = part else {
        return false;
    };
    !is_in(class, *before)
        && !is_in(class, *after)
        && !block.is_empty()
        && block.len() < least as usize
        && all_in(class, block)
}

fn is_bad_block(part: &[Symbol], class: Class, bounds: Bounds) -> bool {
    let is_too_long = part.len() > bounds.greatest as usize && all_in(class, part);
    is_too_long || is_too_short(part, class, bounds.least)
}

fn is_bad_shift_block(problem: &Problem, part: &[Symbol]) -> bool {
    for number in 1..=problem.shifts() {
        let class = Class::Shift(Symbol { number });
        if is_bad_block(part, class, problem.bounds(class)) {
            return true;
        }
    }
    false
}

fn is_forbidden(problem: &Problem, part: &[Symbol]) -> bool {
    let sequence = match part {
        [a, b] => Sequence::on_every_day(*a, *b, None),
        [a, b, c] => Sequence::on_every_day(*a, *b, Some(*c)),
        _ => return false,
    };
    problem.sequences().contains(&sequence)
}

fn is_bad(problem: &Problem, part: &[Symbol]) -> bool {
    is_bad_shift_block(problem, part)
        || is_bad_block(part, Class::Off, problem.bounds(Class::Off))
        || is_bad_block(part, Class::Work, problem.bounds(Class::Work))
        || is_forbidden(problem, part)
}

// Whether no part of the word is bad.
fn is_clean(problem: &Problem, word: &[Symbol]) -> bool {
    for start in 0..word.len() {
        for end in start..word.len() {
            if is_bad(problem, &word[start..end + 1]) {
                return false;
            }
        }
    }
    true
}

// A problem, maybe a position at which it has no day off, the position where words begin, and their turns.
#[derive(Clone, Copy)]
struct Case {
    text: &'static [u8],
    working: Option<u32>,
    first: u32,
    turns: u32,
}

const CASES: [Case; 6] = [
    Case {
        text: TWO_IN_FOUR,
        working: None,
        first: 1,
        turns: 2,
    },
    Case {
        text: TWOS_IN_SIX,
        working: None,
        first: 5,
        turns: 1,
    },
    // single days of work and one or two days off
    Case {
        text: b"2\n2\n1\n1 1\nD 360 480 1 1\n1 2\n1 1\n0 0\n",
        working: Some(0),
        first: 3,
        turns: 2,
    },
    // blocks of three D at least, and of one day of work at most: no word of five days round D is clean
    Case {
        text: b"1\n4\n1\n1\nD 360 480 3 4\n1 4\n1 1\n0 0\n",
        working: Some(2),
        first: 0,
        turns: 2,
    },
    // blocks of two shifts and of work, with no D behind an N
    Case {
        text: b"2\n2\n2\n0..1 0..1\n0..1 0..1\nD 360 480 1 2\nN 360 480 2 3\n1 2\n2 4\n1 0\nN D\n",
        working: None,
        first: 2,
        turns: 2,
    },
    // no N behind two D
    Case {
        text: b"3\n3\n2\n0..1 0..1 0..1\n0..1 0..1 0..1\nD 360 480 1 3\nN 360 480 1 2\n2 3\n1 5\n0 1\nD D N\n",
        working: Some(8),
        first: 4,
        turns: 1,
    },
];

// Whether a word from a position on has no day off where the case has none, round the cycle.
fn is_over(case: &Case, cells: u32, p: u32, word: &[Symbol]) -> bool {
    let mut place = p;
    for x in word {
        if *x == OFF && place.checked_rem(cells) == case.working {
            return false;
        }
        place = place.wrapping_add(1);
    }
    true
}

// The first of the heaviest clean words, where all weights are `times` times the value.
fn heaviest_of_all(
    alloc: Global,
    problem: &Problem,
    case: &Case,
    len: u32,
    times: i64,
) -> Result<Option<HeavyWord>, AllocError> {
    let mut best: Option<HeavyWord> = None;
    let symbols = u32::from(problem.shifts()) + 1;
    for number in 0..symbols.wrapping_pow(len) {
        let word = word_numbered(alloc, number, symbols, len)?;
        if is_over(case, problem.cells(), case.first, &word) && is_clean(problem, &word) {
            let weight = weight_from(problem, case.first, &word).wrapping_mul(times);
            if is_heavier(weight, &best) {
                best = Some(HeavyWord {
                    weight,
                    word: Word::of(word),
                });
            }
        }
    }
    Ok(best)
}

fn is_heavier(weight: i64, best: &Option<HeavyWord>) -> bool {
    match best {
        Some(heavy) => heavy.weight < weight,
        None => true,
    }
}

fn is_same(found: &Option<HeavyWord>, best: &Option<HeavyWord>) -> bool {
    match (found, best) {
        (Some(a), Some(b)) => a.weight == b.weight && a.word.symbols() == b.word.symbols(),
        (None, None) => true,
        _ => false,
    }
}

// All symbols at each position, but for the day off at one of them.
fn domains_of(alloc: Global, problem: &Problem, working: Option<u32>) -> Result<Domains, Fail>
    ensures { IfOk result (BelongsTo problem.now) }
{
    let mut doms = Domains::new(alloc, problem)?;
    match working {
        Some(p) => {
            take_away(&mut doms, p, OFF)?;
            Ok(doms)
        }
        None => Ok(doms),
    }
}

// The clean words of a case of this length.
fn words_of<'a>(
    automaton: &'a Automaton,
    domains: &'a Domains,
    case: &Case,
    days: u32,
) -> CleanWords<'a>
    requires belongs { BelongsTo automaton.now.problem domains.now }
    requires position { case.now.first < cells automaton.now.problem }
    requires few { days ≤ LONGEST_WORD }
    ensures automaton { result.automaton.now ≡ automaton.now }
{
    CleanWords {
        automaton,
        domains,
        position: case.first,
        days,
    }
}

// Whether the least of the words is that of all words.
fn is_least(
    alloc: Global,
    problem: &Problem,
    words: &CleanWords<'_>,
    case: &Case,
) -> Result<bool, AllocError> {
    let word = escape(alloc, words)?;
    let found = word.map(|word| HeavyWord { weight: 0, word });
    let best = heaviest_of_all(alloc, problem, case, words.days, 0)?;
    Ok(is_same(&found, &best))
}

// Whether the heaviest of the words is that of all words.
fn is_heaviest(
    alloc: Global,
    problem: &Problem,
    words: &CleanWords<'_>,
    case: &Case,
) -> Result<bool, AllocError> {
    let weights = weights_of(alloc, problem)?;
    let found = heaviest(alloc, words, &weights, 0, i64::MIN)?;
    let best = heaviest_of_all(alloc, problem, case, words.days, 1)?;
    Ok(is_same(&found, &best))
}

// The least clean words of up to nine days, and the heaviest of the turns.
fn compare(
    rt: &impl Abort,
    alloc: Global,
    problem: &Problem,
    automaton: &Automaton,
    doms: &Domains,
    case: &Case,
) -> Result<(), Fail>
    requires same { automaton.now.problem ≡ problem.now }
    requires belongs { BelongsTo problem.now doms.now }
{
    problem.prove_limits();
    assert!(rt; case.first < problem.cells());
    for len in 1..10 {
        let words = words_of(automaton, doms, case, len);
        assert!(rt; is_least(alloc, problem, &words, case)?, "{len}");
    }
    assert!(rt; case.turns == 1 || case.turns == 2);
    let words = words_of(automaton, doms, case, case.turns * problem.cells());
    assert!(rt; is_heaviest(alloc, problem, &words, case)?);
    Ok(())
}

fn compare_on(rt: &impl Abort, alloc: Global, problem: &Problem, case: &Case) -> Result<(), Fail> {
    let automaton = Automaton::of_short_rules(alloc, problem, Told::DayOff)?;
    let doms = domains_of(alloc, problem, case.working)?;
    compare(rt, alloc, problem, &automaton, &doms, case)
}

#[test]
fn words_against_all_words(rt: HostRuntime) -> Result<(), Fail> {
    for case in &CASES {
        let problem = problem_of(rt.alloc(), case.text)?;
        compare_on(&rt, rt.alloc(), &problem, case)?;
    }
    Ok(())
}
