// Each propagator once in ample memory. What it sees under which domains, its clauses say.
ghost use Rattle.std.specs.Prelude.{◌≤◌};
ghost use Rattle.rwsp_terms.specs.Instance.{Instance};
ghost use Rattle.rwsp_terms.specs.declared.limits.TheConstants.{MOST_WORKERS};
ghost use Rattle.domain_store.specs.Store.{BelongsTo};

use clean_words::{Automaton, NoGate, Told};
use domain_store::{Domains, Look, Pair, Propagator};
use propagators::{CycleProp, DayProp, RootBounds, WindowProp};
use refutation_terms::{Leaf, Line, WordClaim};
use rwsp_model::Problem;
use rwsp_terms::Symbol;
use std::alloc::{AllocError, Global};
use std::test::Fail;
use std::thread::Threads;
use test_helpers::{D_ON_DAY_1, OFF, ONE_CELL, THREE_IN_TWO, problem_of, take_away};

#[derive(Clone, Copy, Debug, PartialEq, Eq)]
pub enum Seen {
    Quiet,
    // the length of a window
    Window(u32),
    // the number of a symbol
    Day(u8),
    // the length of the words of a dead leaf
    Dead(u32),
    Bound,
    // the position and the number of a symbol
    Cut(u32, u8),
    Other,
}

// The propagators.
#[derive(Clone, Copy)]
pub enum Kind {
    Windows,
    Days,
    // the windows, then the days
    Both,
    // the bounds at the top, by one worker and by 64
    Bounds,
    ManyBounds,
    Cycle,
}

fn seen_in(look: &Look) -> Seen {
    match look {
        Look::Quiet => Seen::Quiet,
        Look::Closed(Line::Closing(Leaf::Window { len, .. })) => Seen::Window(*len),
        Look::Closed(Line::Closing(Leaf::Day { x, .. })) => Seen::Day(x.number),
        Look::Closed(
            Line::Closing(
                Leaf::Words {
                    claim: WordClaim::Dead { len },
                    ..
                },
            ),
        ) => Seen::Dead(*len),
        Look::Closed(
            Line::Closing(
                Leaf::Words {
                    claim: WordClaim::Light { .. },
                    ..
                },
            ),
        ) => Seen::Bound,
        Look::Closed(_) => Seen::Other,
        Look::Cut { p, x, .. } => Seen::Cut(*p, x.number),
    }
}

// What a propagator sees, in ample memory.
fn sees<A: Propagator + Drop>(
    mut prop: A,
    alloc: Global,
    problem: &Problem,
    doms: &Domains,
) -> Result<Seen, AllocError>
    requires serves { A.serves prop problem.now }
    requires belongs { BelongsTo problem.now doms.now }
    requires tracks { A.tracks prop doms.now }
{
    let look = prop.look(alloc, doms)?;
    Ok(seen_in(&look))
}

fn windows_see(alloc: Global, problem: &Problem, doms: &Domains) -> Result<Seen, AllocError>
    requires { BelongsTo problem.now doms.now }
{
    let windows = WindowProp::new(alloc, problem, doms)?;
    sees(windows, alloc, problem, doms)
}

fn days_see(alloc: Global, problem: &Problem, doms: &Domains) -> Result<Seen, AllocError>
    requires { BelongsTo problem.now doms.now }
{
    let days = DayProp::new(alloc, problem, doms)?;
    sees(days, alloc, problem, doms)
}

fn both_see(alloc: Global, problem: &Problem, doms: &Domains) -> Result<Seen, AllocError>
    requires { BelongsTo problem.now doms.now }
{
    let windows = WindowProp::new(alloc, problem, doms)?;
    let days = DayProp::new(alloc, problem, doms)?;
    let two = Pair::new(windows, days);
    sees(two, alloc, problem, doms)
}

fn bounds_see<R: Threads + Sync>(
    rt: &R,
    alloc: Global,
    problem: &Problem,
    doms: &Domains,
    workers: u32,
) -> Result<Seen, AllocError>
    requires belongs { BelongsTo problem.now doms.now }
    requires workers { (1 ≤ workers) × (workers ≤ MOST_WORKERS) }
{
    let automaton = Automaton::of_short_rules(alloc, problem, Told::DayOff)?;
    let tops = RootBounds::new(rt, alloc, &automaton, doms, workers, &NoGate)?;
    sees(tops, alloc, problem, doms)
}

fn cycle_sees(alloc: Global, problem: &Problem, doms: &Domains) -> Result<Seen, AllocError>
    requires { BelongsTo problem.now doms.now }
{
    let automaton = Automaton::of_short_rules(alloc, problem, Told::DayOff)?;
    let cycle = CycleProp::new(alloc, &automaton, doms)?;
    sees(cycle, alloc, problem, doms)
}

fn kind_sees<R: Threads + Sync>(
    rt: &R,
    alloc: Global,
    kind: Kind,
    problem: &Problem,
    doms: &Domains,
) -> Result<Seen, AllocError>
    requires { BelongsTo problem.now doms.now }
{
    match kind {
        Kind::Windows => windows_see(alloc, problem, doms),
        Kind::Days => days_see(alloc, problem, doms),
        Kind::Both => both_see(alloc, problem, doms),
        Kind::Bounds => bounds_see(rt, alloc, problem, doms, 1),
        Kind::ManyBounds => bounds_see(rt, alloc, problem, doms, 64),
        Kind::Cycle => cycle_sees(alloc, problem, doms),
    }
}

// What a propagator sees where all symbols are left, or all but one at position 0.
pub fn seen_by<R: Threads + Sync>(
    rt: &R,
    alloc: Global,
    kind: Kind,
    text: &[u8],
    taken: Option<Symbol>,
) -> Result<Seen, Fail> {
    let problem = problem_of(alloc, text)?;
    let mut doms = Domains::new(alloc, &problem)?;
    take_from_first(&mut doms, taken)?;
    Ok(kind_sees(rt, alloc, kind, &problem, &doms)?)
}

// Takes the symbol away from position 0, if there is one to take.
fn take_from_first(doms: &mut Domains, taken: Option<Symbol>) -> Result<(), Fail>
    ensures { (P : Instance) → BelongsTo P doms.old → BelongsTo P doms.new }
{
    match taken {
        Some(x) => take_away(doms, 0, x),
        None => Ok(()),
    }
}

// Eight days of work on the one cell.
#[test]
fn windows_are_seen(rt: HostRuntime) -> Result<(), Fail> {
    assert_eq!(rt;
        seen_by(&rt, rt.alloc(), Kind::Windows, ONE_CELL, Some(OFF))?,
        Seen::Window(8)
    );
    Ok(())
}

// Two weeks less three shifts leave a day off -1 times. Where D is asked on the first of two days alone, the day off is
// spent there, and D on the second.
#[test]
fn days_are_seen(rt: HostRuntime) -> Result<(), Fail> {
    assert_eq!(rt;
        seen_by(&rt, rt.alloc(), Kind::Days, THREE_IN_TWO, None)?,
        Seen::Day(0)
    );
    let spent = seen_by(&rt, rt.alloc(), Kind::Days, D_ON_DAY_1, None)?;
    assert!(rt;
        spent == Seen::Cut(0, 0) || spent == Seen::Cut(1, 1),
        "{spent:?}"
    );
    Ok(())
}

#[test]
fn bounds_are_seen_by_any_number_of_workers(rt: HostRuntime) -> Result<(), Fail> {
    assert_eq!(rt;
        seen_by(&rt, rt.alloc(), Kind::Bounds, THREE_IN_TWO, None)?,
        Seen::Bound
    );
    assert_eq!(rt;
        seen_by(&rt, rt.alloc(), Kind::ManyBounds, THREE_IN_TWO, None)?,
        Seen::Bound
    );
    Ok(())
}

#[test]
fn a_pair_sees_what_the_second_does(rt: HostRuntime) -> Result<(), Fail> {
    assert_eq!(rt;
        seen_by(&rt, rt.alloc(), Kind::Both, THREE_IN_TWO, None)?,
        Seen::Day(0)
    );
    Ok(())
}
