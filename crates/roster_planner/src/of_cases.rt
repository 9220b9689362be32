// The reasons by which a search closes cases.
ghost use Rattle.std.specs.Prelude.{IfOk, ℕ, ◌↔◌};
ghost use Rattle.rwsp_terms.specs.declared.data.Symbol.{Symbol};
ghost use Rattle.domain_store.specs.Store.{BelongsTo, Store, has_domain};
ghost use Rattle.domain_store.specs.Cycles.{AreShortRules};
ghost use Rattle.domain_store.specs.Looks.{HasPlainLeaves};
ghost use Rattle.propagators.specs.Days.{IsDaySpent};
ghost use Rattle.roster_planner.specs.CaseReasons.{AreCaseReasons, ArePlain, WeighNoWords};

use clean_words::Automaton;
use domain_store::{Domains, Pair, Propagator};
use propagators::{CycleProp, DayProp, WindowProp};
use rwsp_model::Problem;
use std::alloc::{AllocError, Global};

/// Windows and days, asked in this order.
pub type PlainReasons<'a> = Pair<WindowProp<'a>, DayProp<'a>>;

/// Windows, days and words of two turns, asked in this order.
pub type CaseReasons<'a> = Pair<PlainReasons<'a>, CycleProp<'a>>;

/// The reasons of an automaton's problem that weigh no words, for any search. Its rules are all short ones.
pub fn case_reasons<'a>(
    alloc: Global,
    automaton: &'a Automaton,
    doms: &Domains,
) -> Result<CaseReasons<'a>, AllocError>
    requires belongs { BelongsTo automaton.now.problem doms.now }
    requires short { AreShortRules automaton.now.problem automaton.now.rules }
    ensures serves { IfOk result (λ r. ⟦<CaseReasons<'a> as Propagator>⟧.serves r automaton.now.problem) }
    ensures reasons { IfOk result (λ r. AreCaseReasons automaton.now.problem
        (⟦<CaseReasons<'a> as Propagator>⟧.leaves r) (⟦<CaseReasons<'a> as Propagator>⟧.spent r)) }
    ensures unweighed { IfOk result (λ r. WeighNoWords (⟦<CaseReasons<'a> as Propagator>⟧.leaves r)) }
{
    let cycle = CycleProp::new(alloc, automaton, doms)?;
    let plain = plain_reasons(alloc, automaton.problem(), doms)?;
    Ok(Pair::new(plain, cycle))
}

/// The reasons of windows and days, which track the domains.
pub fn plain_reasons<'a>(
    alloc: Global,
    problem: &'a Problem,
    doms: &Domains,
) -> Result<PlainReasons<'a>, AllocError>
    requires { BelongsTo problem.now doms.now }
    ensures serves { IfOk result (λ r. ⟦<PlainReasons<'a> as Propagator>⟧.serves r problem.now) }
    ensures tracks { IfOk result (λ r. ⟦<PlainReasons<'a> as Propagator>⟧.tracks r doms.now) }
    ensures leaves { IfOk result (λ r. HasPlainLeaves problem.now (⟦<PlainReasons<'a> as Propagator>⟧.leaves r)) }
    ensures only { IfOk result (λ r. ArePlain (⟦<PlainReasons<'a> as Propagator>⟧.leaves r)) }
    ensures spent { IfOk result (λ r. (S : Store) (p : ℕ) (x : Symbol)
        → ⟦<PlainReasons<'a> as Propagator>⟧.spent r S p x ↔ IsDaySpent problem.now (has_domain S) p x) }
{
    let windows = WindowProp::new(alloc, problem, doms)?;
    let days = DayProp::new(alloc, problem, doms)?;
    Ok(Pair::new(windows, days))
}
