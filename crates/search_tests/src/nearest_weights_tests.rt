// Single days of the shift D with single days off between them: D can be on half of the days, and on no more.
ghost use Rattle.domain_store.specs.Store.{BelongsTo};

use clean_words::{Automaton, Told};
use domain_store::Domains;
use propagators::NearestWeights;
use refutation_terms::{Leaf, Line, WordClaim};
use rwsp_model::Problem;
use rwsp_terms::{Symbol, Weight};
use std::alloc::{AllocError, Global};
use std::test::Fail;
use test_helpers::{D, HALF_OF_FOUR, MOST_OF_FOUR, OFF, problem_of, take_away};

fn weight(symbol: Symbol, value: i32) -> Weight {
    Weight {
        day: 1,
        symbol,
        value,
    }
}

// The position of a bound leaf of one turn, where a day off weighs -1 and D 1. Any other leaf has the greatest number.
fn position(leaf: &Line) -> u32 {
    let wanted = [weight(OFF, -1), weight(D, 1)];
    match leaf {
        Line::Closing(
            Leaf::Words {
                p,
                claim: WordClaim::Light { turns, weights, .. },
                ..
            },
        ) => {
            if *turns == 1 && weights.entries() == wanted.as_slice() {
                *p
            } else {
                u32::MAX
            }
        }
        _ => u32::MAX,
    }
}

fn position_of(leaf: &Option<Line>) -> Option<u32> {
    match leaf {
        Some(leaf) => Some(position(leaf)),
        None => None,
    }
}

// The leaf at the top of a tree, or within.
fn leaf_of(
    alloc: Global,
    nearest: &mut NearestWeights<'_>,
    doms: &Domains,
    is_within: bool,
) -> Result<Option<u32>, AllocError>
    requires { BelongsTo nearest.old.problem doms.now }
{
    let leaf = if is_within {
        nearest.leaf_within(alloc, doms, None)?
    } else {
        nearest.leaf_at_top(alloc, doms, None)?
    };
    Ok(position_of(&leaf))
}

fn leaf_under(
    alloc: Global,
    problem: &Problem,
    doms: &Domains,
    is_within: bool,
) -> Result<Option<u32>, AllocError>
    requires { BelongsTo problem.now doms.now }
{
    let automaton = Automaton::of_short_rules(alloc, problem, Told::DayOff)?;
    let mut nearest = NearestWeights::new(alloc, &automaton);
    leaf_of(alloc, &mut nearest, doms, is_within)
}

// The leaf at the top.
fn at_top(alloc: Global, problem: &Problem) -> Result<Option<u32>, Fail> {
    let doms = Domains::new(alloc, problem)?;
    Ok(leaf_under(alloc, problem, &doms, false)?)
}

// The leaf where D is at position 0 and the day off at position 1.
fn within(alloc: Global, problem: &Problem) -> Result<Option<u32>, Fail> {
    let mut doms = Domains::new(alloc, problem)?;
    take_away(&mut doms, 0, OFF)?;
    take_away(&mut doms, 1, D)?;
    Ok(leaf_under(alloc, problem, &doms, true)?)
}

#[test]
fn half_of_the_days(rt: HostRuntime) -> Result<(), Fail> {
    let alloc = rt.alloc();
    let problem = problem_of(alloc, MOST_OF_FOUR)?;
    assert_eq!(rt; at_top(alloc, &problem)?, Some(0));
    assert_eq!(rt; within(alloc, &problem)?, Some(1));
    let problem = problem_of(alloc, HALF_OF_FOUR)?;
    assert_eq!(rt; at_top(alloc, &problem)?, None);
    assert_eq!(rt; within(alloc, &problem)?, None);
    Ok(())
}
