// Searches for rosters of small problems, worked by hand.
ghost use Rattle.std.specs.Prelude.{◌≡◌, IfOk, None};
ghost use Rattle.std.specs.Option.{IfSome};
ghost use Rattle.rwsp_terms.specs.Roster.{MeetsAll};
ghost use Rattle.refutation_terms.specs.declared.lines.Opening.TheVariants.{Full};
ghost use Rattle.domain_store.specs.Looks.{HasPlainLeaves};

use clean_words::{Automaton, NoGate};
use domain_store::{Domains, Look, Pair, Propagator};
use propagators::{DayProp, RootBounds, WindowProp};
use refutation_log::Found;
use refutation_terms::{Line, Opening};
use roster_search::{Aim, Guide, NextSplit, NoGuide, chronological, search};
use rwsp_model::{Problem, Roster};
use std::alloc::{AllocError, Global};
use std::test::Fail;
use std::thread::Threads;
use test_helpers::{CROWDED_TWOS_IN_SIX, D_ON_DAY_1, D_ON_EITHER_DAY, problem_of};

// A roster with any number of free weekends, within 100 splits and leaves.
fn any_roster() -> Aim
    ensures { result ≡ record { opening = Full; goal = None; budget = 100 } }
{
    Aim {
        opening: Opening::Full,
        goal: None,
        budget: 100,
    }
}

// A propagator that counts how often it looks, and how often it hears of a change.
#[derive(Drop)]
struct Told<A> {
    inner: A,
    looks: u32,
    changes: u32,
}

impl<A: Propagator> Propagator for Told<A> {
    ghost serves = { λ t P. A.serves t.inner P };

    ghost tracks = { λ t S. A.tracks t.inner S };

    ghost leaves = { λ t S line. A.leaves t.inner S line };

    ghost spent = { λ t S p x. A.spent t.inner S p x };

    fn prove_spent(&self) {
        self.inner.prove_spent();
    }

    fn look(&mut self, alloc: Global, doms: &Domains) -> Result<Look, AllocError> {
        self.looks = self.looks.saturating_add(1);
        self.inner.look(alloc, doms)
    }

    fn narrowed(&mut self, doms: &Domains, p: u32) {
        self.changes = self.changes.saturating_add(1);
        self.inner.narrowed(doms, p);
    }

    fn undone(&mut self, doms: &Domains) {
        self.changes = self.changes.saturating_add(1);
        self.inner.undone(doms);
    }
}

// The windows and the days of the problem, which have heard of no change yet.
fn reasons<'a>(
    alloc: Global,
    problem: &'a Problem,
) -> Result<Told<Pair<WindowProp<'a>, DayProp<'a>>>, AllocError>
    ensures serves { IfOk result
        (λ t. ⟦<Told<Pair<WindowProp<'a>, DayProp<'a>>> as Propagator>⟧.serves t problem.now) }
    ensures plain { IfOk result
        (λ t. HasPlainLeaves problem.now (⟦<Told<Pair<WindowProp<'a>, DayProp<'a>>> as Propagator>⟧.leaves t)) }
{
    let doms = Domains::new(alloc, problem)?;
    let windows = WindowProp::new(alloc, problem, &doms)?;
    let days = DayProp::new(alloc, problem, &doms)?;
    Ok(Told {
        inner: Pair::new(windows, days),
        looks: 0,
        changes: 0,
    })
}

// A guide whose leaves are those of a propagator.
#[derive(Drop)]
struct ByLook<A> {
    propagator: A,
}

impl<A: Propagator> Guide for ByLook<A> {
    ghost serves = { λ g P goal. A.serves g.propagator P × (goal ≡ None) };

    fn leaf(&mut self, alloc: Global, doms: &Domains) -> Result<Option<Line>, AllocError> {
        self.propagator.undone(doms);
        match self.propagator.look(alloc, doms)? {
            Look::Closed(line) => Ok(Some(line)),
            _ => Ok(None),
        }
    }

    fn roster(&mut self, _alloc: Global, _opening: &Opening) -> Result<Option<Roster>, AllocError> {
        Ok(None)
    }

    fn split(&mut self, _doms: &Domains) -> Option<NextSplit> {
        None
    }
}

// The roster that a search without a guide finds.
fn found_by<A: Propagator>(
    alloc: Global,
    problem: &Problem,
    propagator: &mut A,
) -> Result<Option<Roster>, AllocError>
    requires serves { A.serves propagator.old problem.now }
    requires plain { HasPlainLeaves problem.now (A.leaves propagator.old) }
    ensures days { IfOk result (λ found. IfSome found (λ s. s.days ≡ problem.now.days)) }
    ensures meets { IfOk result (λ found. IfSome found (λ s. MeetsAll problem.now s.cells)) }
{
    match search(alloc, problem, any_roster(), propagator, &mut NoGuide)? {
        Found::Roster(roster) => Ok(Some(roster)),
        _ => Ok(None),
    }
}

// A guide whose roster is found by a search without a guide.
#[derive(Drop)]
struct BySearch {
    problem: Problem,
}

impl Guide for BySearch {
    ghost serves = { λ g P goal. (g.problem ≡ P) × (goal ≡ None) };

    fn leaf(&mut self, _alloc: Global, _doms: &Domains) -> Result<Option<Line>, AllocError> {
        Ok(None)
    }

    fn roster(&mut self, alloc: Global, opening: &Opening) -> Result<Option<Roster>, AllocError> {
        if let Opening::Given(_) = opening {
            return Ok(None);
        }
        let mut propagator = reasons(alloc, &self.problem)?;
        found_by(alloc, &self.problem, &mut propagator)
    }

    fn split(&mut self, _doms: &Domains) -> Option<NextSplit> {
        None
    }
}

// A guide that splits in chronological order from a position on.
#[derive(Drop)]
struct InOrder {
    problem: Problem,
    first: u32,
}

impl Guide for InOrder {
    ghost serves = { λ g P goal. (g.problem ≡ P) × (goal ≡ None) };

    fn leaf(&mut self, _alloc: Global, _doms: &Domains) -> Result<Option<Line>, AllocError> {
        Ok(None)
    }

    fn roster(&mut self, _alloc: Global, _opening: &Opening) -> Result<Option<Roster>, AllocError> {
        Ok(None)
    }

    fn split(&mut self, doms: &Domains) -> Option<NextSplit> {
        chronological(&self.problem, doms, self.first)
    }
}

// What was found: the first symbol of a roster, or the number of lines of a log.
#[derive(Clone, Copy, Debug, PartialEq, Eq)]
enum End {
    Roster(u8),
    NoRoster(usize),
    Undecided(usize),
}

fn end_of(found: &Found) -> End {
    match found {
        Found::Roster(roster) => match roster.cells() {
            [first, ..] => End::Roster(first.number),
            [] => End::Roster(9),
        },
        Found::NoRoster(log) => End::NoRoster(log.lines().len()),
        Found::Undecided(log) => End::Undecided(log.lines().len()),
    }
}

// What a search does.
#[derive(Clone, Copy)]
struct Run {
    end: End,
    looks: u32,
    changes: u32,
}

// Where a search with this guide ends.
fn guided_end<A: Propagator, G: Guide>(
    alloc: Global,
    problem: &Problem,
    propagator: &mut A,
    guide: &mut G,
) -> Result<End, AllocError>
    requires serves { A.serves propagator.old problem.now }
    requires plain { HasPlainLeaves problem.now (A.leaves propagator.old) }
    requires guide { G.serves guide.old problem.now None }
{
    let found = search(alloc, problem, any_roster(), propagator, guide)?;
    Ok(end_of(&found))
}

fn guided<G: Guide>(alloc: Global, problem: &Problem, guide: &mut G) -> Result<Run, AllocError>
    requires { G.serves guide.old problem.now None }
{
    let mut told = reasons(alloc, problem)?;
    Ok(Run {
        end: guided_end(alloc, problem, &mut told, guide)?,
        looks: told.looks,
        changes: told.changes,
    })
}

// Where a search without a guide ends.
fn unguided_end<A: Propagator>(
    alloc: Global,
    problem: &Problem,
    propagator: &mut A,
) -> Result<End, AllocError>
    requires serves { A.serves propagator.old problem.now }
    requires plain { HasPlainLeaves problem.now (A.leaves propagator.old) }
{
    let found = search(alloc, problem, any_roster(), propagator, &mut NoGuide)?;
    Ok(end_of(&found))
}

fn unguided(alloc: Global, problem: &Problem) -> Result<Run, AllocError> {
    let mut told = reasons(alloc, problem)?;
    Ok(Run {
        end: unguided_end(alloc, problem, &mut told)?,
        looks: told.looks,
        changes: told.changes,
    })
}

#[test]
fn a_propagator_is_asked_and_told(rt: HostRuntime) -> Result<(), Fail> {
    // two cuts, and the roster is there
    let problem = problem_of(rt.alloc(), D_ON_DAY_1)?;
    let run = unguided(rt.alloc(), &problem)?;
    assert_eq!(rt; run.end, End::Roster(1));
    assert_eq!(rt; (run.looks, run.changes), (3, 3));
    Ok(())
}

// A search that is given a roster.
fn by_search(alloc: Global, problem: &Problem) -> Result<Run, AllocError> {
    let mut guide = BySearch {
        problem: problem.copy()?,
    };
    guided(alloc, problem, &mut guide)
}

// A search that splits in chronological order from day 2 on.
fn in_order(alloc: Global, problem: &Problem) -> Result<Run, AllocError> {
    let mut guide = InOrder {
        problem: problem.copy()?,
        first: 1,
    };
    guided(alloc, problem, &mut guide)
}

// A search that is given the bounds at the top.
fn by_bounds<R: Threads + Sync>(
    rt: &R,
    alloc: Global,
    problem: &Problem,
) -> Result<Run, AllocError> {
    let full = Domains::new(alloc, problem)?;
    let automaton = Automaton::of_short_rules(alloc, problem, clean_words::Told::DayOff)?;
    let mut guide = ByLook {
        propagator: RootBounds::new(rt, alloc, &automaton, &full, 1, &NoGate)?,
    };
    guided(alloc, problem, &mut guide)
}

#[test]
fn what_a_guide_gives_is_used(rt: HostRuntime) -> Result<(), Fail> {
    let alloc = rt.alloc();
    let either = problem_of(alloc, D_ON_EITHER_DAY)?;
    let crowded = problem_of(alloc, CROWDED_TWOS_IN_SIX)?;
    let cases = [
        // of symbols that are needed no more than another, the day off is tried first
        (guided(alloc, &either, &mut NoGuide)?, End::Roster(0), 4),
        (in_order(alloc, &either)?, End::Roster(1), 4),
        (by_search(alloc, &either)?, End::Roster(0), 1),
        (by_bounds(&rt, alloc, &crowded)?, End::NoRoster(1), 1),
    ];
    for (run, end, looks) in cases {
        assert_eq!(rt; (run.end, run.looks), (end, looks));
    }
    Ok(())
}
