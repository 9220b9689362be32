// Words few of which are clean, by the states of an automaton that they lead to.
ghost use Rattle.std.specs.Prelude.{◌+◌, ◌<◌, ◌≤◌, length, All, IsTrue, IfOk, OnOk};
ghost use Rattle.rwsp_terms.specs.Instance.{cells, shift_count};
ghost use Rattle.rwsp_terms.specs.declared.limits.TheConstants.{LONGEST_WORD};
ghost use Rattle.refutation_terms.specs.WordsLeaf.{IsDead};
ghost use Rattle.domain_store.specs.Store.{BelongsTo, has_domain};
ghost use Rattle.refutation_checker.specs.ShortWords.{AreStates, GoOn, HaveAll, by_move};

use clean_words::Automaton;
use domain_store::Domains;
use rwsp_terms::Symbol;
use std::alloc::{AllocError, Global};

// The most states that are followed.
const MOST_FOLLOWED: usize = 100;

/// Whether it is plain that no word of `len` days over the domains from position `p` on is clean for the rules of the
/// automaton: day after day clean words lead to few states, and then to none. Where there are more this says nothing.
pub fn is_plainly_dead(
    alloc: Global,
    automaton: &Automaton,
    doms: &Domains,
    p: u32,
    len: u32,
) -> Result<bool, AllocError>
    requires belongs { BelongsTo automaton.now.problem doms.now }
    requires position { p < cells automaton.now.problem }
    requires few { len ≤ LONGEST_WORD }
    ensures { IfOk result (λ plain. IsTrue plain
        → IsDead automaton.now.problem (has_domain doms.now) p len automaton.now.rules) }
{
    doms.prove_facts();
    automaton.prove_facts();
    let cells = doms.cells();
    let mut states = vec![in alloc; automaton.start(p)]?;
    for day in 0..len {
        if states.len() > MOST_FOLLOWED {
            return Ok(false);
        }
        states = day_later(alloc, automaton, doms, (p + day) % cells, &states)?;
    }
    Ok(states.is_empty())
}

// Where the symbols of the position's domain lead from the states.
fn day_later(
    alloc: Global,
    automaton: &Automaton,
    doms: &Domains,
    position: u32,
    states: &[usize],
) -> Result<Vec<usize>, AllocError>
    requires position { position < length doms.now.sets }
    requires states { AreStates automaton.now states.now }
    ensures states { IfOk result (λ later. AreStates automaton.now later.items) }
    ensures go_on { IfOk result (λ later. All (λ state. GoOn (has_domain doms.now position)
        (shift_count automaton.now.problem + 1) (by_move automaton.now state) later.items) states.now) }
{
    let mut later = Vec::new(alloc);
    for place in 0..states.len() {
        put_later(&mut later, automaton, doms, position, states[place])?;
    }
    Ok(later)
}

// Puts the states where the symbols of the position's domain lead from the state behind others.
fn put_later(
    later: &mut Vec<usize>,
    automaton: &Automaton,
    doms: &Domains,
    position: u32,
    state: usize,
) -> Result<(), AllocError>
    requires position { position < length doms.now.sets }
    requires state { state < length automaton.now.moves }
    requires states { AreStates automaton.now later.old.items }
    ensures keeps { OnOk result (HaveAll later.old.items later.new.items) }
    ensures states { OnOk result (AreStates automaton.now later.new.items) }
    ensures goes_on { OnOk result (GoOn (has_domain doms.now position)
        (shift_count automaton.now.problem + 1) (by_move automaton.now state) later.new.items) }
{
    automaton.prove_facts();
    for number in 0..automaton.problem().shifts() + 1 {
        let x = Symbol { number };
        if doms.has(position, x) {
            if let Some(next) = automaton.follow(state, x) {
                later.push(next)?;
            }
        }
    }
    Ok(())
}
