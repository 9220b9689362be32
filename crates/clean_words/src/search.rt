// The search for weights whose bound holds.
ghost use Rattle.std.specs.Prelude.{◌≡◌, ℕ, ◌+◌, ◌-◌, ◌*◌, ◌<◌, ◌≤◌, ◌==◌, ◌≤ℤ◌, pos, neg_ℤ, length, count_by, slice_index_or, IfOk, OnOk};
ghost use Rattle.rwsp_terms.specs.declared.limits.TheConstants.{GREATEST_WEIGHT};
ghost use Rattle.rwsp_terms.specs.Instance.{cells, IsDay, IsSymbol};
ghost use Rattle.rwsp_terms.specs.Weights.{weight_at};
ghost use Rattle.refutation_terms.specs.Sharp.{step, AreStepped};
ghost use Rattle.domain_store.specs.Store.{has_domain, BelongsTo};
ghost use Rattle.clean_words.specs.Searched.{IsFirstSearched, IsFollowing, AreValuesWithin, AreSteppedOn};

use crate::Automaton;
use crate::top::Top;
use domain_store::Domains;
use rwsp_model::{Problem, weeks_with};
use rwsp_terms::{Symbol, Weights};
use std::alloc::{AllocError, Global};

/// The first of the weights of `rounds` rounds whose bound of one turn from position 0 holds with the rules of the
/// automaton; None exactly where none of these bounds holds.
///
/// The weights of the first round are 0 everywhere. Those of the next follow from the least of the heaviest clean
/// words: where it has a symbol on a day in more weeks than are demanded at most, the weight goes down by one, and
/// where in fewer than are demanded at least, up by one (a step by the signs of a subgradient: N. Shor, 1962; for
/// bounds M. Held and R. Karp, 1971).
pub fn search_weights(
    alloc: Global,
    automaton: &Automaton,
    doms: &Domains,
    rounds: u32,
) -> Result<Option<Weights>, AllocError>
    requires belongs { BelongsTo automaton.now.problem doms.now }
    requires few { rounds ≤ GREATEST_WEIGHT }
    ensures { let A = automaton.now in
        IfOk result (λ found. IsFirstSearched A.problem (has_domain doms.now) A.rules rounds found) }
{
    let top = Top {
        automaton,
        domains: doms,
    };
    let mut weights = Weights::new(alloc);
    for round in 0..rounds {
        match following(alloc, &top, &weights)? {
            Some(next) => weights = next,
            None => return Ok(Some(weights)),
        }
    }
    Ok(None)
}

// The weights that follow where the bound of these doesn't hold; None exactly where it holds.
fn following(alloc: Global, top: &Top<'_>, weights: &Weights) -> Result<Option<Weights>, AllocError>
    requires within { AreValuesWithin (GREATEST_WEIGHT - 1) weights.now }
    ensures { let A = top.now.automaton.now in
        IfOk result (λ next. IsFollowing A.problem (has_domain top.now.domains.now) A.rules weights.now next) }
{
    let Some(word) = top.escape(alloc, weights)? else {
        return Ok(None);
    };
    let next = next_weights(alloc, top.automaton.problem(), weights, word.symbols())?;
    Ok(Some(next))
}

// All weights one step on, by a word of one turn.
fn next_weights(
    alloc: Global,
    problem: &Problem,
    weights: &Weights,
    word: &[Symbol],
) -> Result<Weights, AllocError>
    requires word { length word.now ≡ cells problem.now }
    requires within { AreValuesWithin (GREATEST_WEIGHT - 1) weights.now }
    ensures { IfOk result (λ next. AreStepped problem.now weights.now word.now next) }
{
    let mut next = Weights::new(alloc);
    for i in 0..problem.days() {
        put_day(&mut next, problem, weights, word, i + 1)?;
    }
    next.entries();
    Ok(next)
}

// The weights of one day one step on.
fn put_day(
    next: &mut Weights,
    problem: &Problem,
    weights: &Weights,
    word: &[Symbol],
    day: u32,
) -> Result<(), AllocError>
    requires word { length word.now ≡ cells problem.now }
    requires within { AreValuesWithin (GREATEST_WEIGHT - 1) weights.now }
    requires day { IsDay problem.now day }
    ensures { OnOk result (AreSteppedOn problem.now weights.now word.now day next.old next.new) }
{
    for number in 0..problem.shifts() + 1 {
        let x = Symbol { number };
        next.put(day, x, step(problem, weights, word, day, x))?;
    }
    Ok(())
}

// A weight one step on.
fn step(problem: &Problem, weights: &Weights, word: &[Symbol], day: u32, x: Symbol) -> i32
    requires word { length word.now ≡ cells problem.now }
    requires within { AreValuesWithin (GREATEST_WEIGHT - 1) weights.now }
    requires day { IsDay problem.now day }
    requires symbol { IsSymbol problem.now x }
    ensures value { result ≡ step problem.now weights.now word.now day x.number }
    ensures above { neg_ℤ (pos GREATEST_WEIGHT) ≤ℤ result }
    ensures below { result ≤ℤ pos GREATEST_WEIGHT }
{
    let weeks = weeks_with(problem, word, x, day) as i32;
    let weight = weights.at(day, x);
    if problem.demand_greatest(x, day) < weeks {
        weight - 1
    } else if weeks < problem.demand_least(x, day) {
        weight + 1
    } else {
        weight
    }
}
