ghost use Rattle.std.specs.Prelude.{◌≤◌, length};
ghost use Rattle.rwsp_terms.specs.declared.limits.TheConstants.{LONGEST_FILE};

use domain_store::{Domains, Walk};
use refutation_log::read_cells;
use refutation_terms::Opening;
use roster_finder::{Patience, RosterFinder, SteadyLayer};
use rwsp_model::{Problem, Roster};
use rwsp_terms::Symbol;
use std::alloc::{AllocError, Global};
use std::test::Fail;
use test_helpers::{ALL_OF_FOUR_WEEKS, D, MOST_OF_FOUR_WEEKS, problem_of};

// How many weeks hold D on a day.
fn working(cells: &[Symbol], day: usize) -> usize {
    cells
        .iter()
        .enumerate()
        .filter(|(i, x)| i % 7 == day && **x == D)
        .count()
}

fn find_roster(alloc: Global, problem: &Problem) -> Result<Option<Roster>, AllocError> {
    let doms = Domains::new(alloc, problem)?;
    let layer = SteadyLayer::of(alloc, problem)?;
    let finder = RosterFinder::over(problem, &layer, Some(&doms), Patience::Long);
    finder.find(alloc, 0, Patience::Long)
}

fn roster_found(alloc: Global, problem: &Problem) -> Result<Roster, Fail> {
    Ok(find_roster(alloc, problem)?.ok_or("no roster")?)
}

// Whether a roster with these symbols is found.
fn finds(alloc: Global, problem: &Problem, cells: &[Symbol]) -> Result<bool, Fail> {
    let found = roster_found(alloc, problem)?;
    Ok(found.cells() == cells)
}

#[test]
fn a_roster_is_found_and_is_the_same_each_time(rt: HostRuntime) -> Result<(), Fail> {
    let problem = problem_of(rt.alloc(), MOST_OF_FOUR_WEEKS)?;
    let first = roster_found(rt.alloc(), &problem)?;
    assert_eq!(rt; first.cells().len(), 28);
    for day in 0..7 {
        let weeks = working(first.cells(), day);
        assert!(rt; weeks == 2 || weeks == 3, "{weeks} on {day}");
    }
    assert!(rt; finds(rt.alloc(), &problem, first.cells())?);
    Ok(())
}

#[test]
fn none_is_found_where_there_is_none(rt: HostRuntime) -> Result<(), Fail> {
    let problem = problem_of(rt.alloc(), ALL_OF_FOUR_WEEKS)?;
    assert!(rt; find_roster(rt.alloc(), &problem)?.is_none());
    Ok(())
}

#[test]
fn none_is_found_without_domains(rt: HostRuntime) -> Result<(), Fail> {
    let problem = problem_of(rt.alloc(), MOST_OF_FOUR_WEEKS)?;
    let layer = SteadyLayer::of(rt.alloc(), &problem)?;
    let finder = RosterFinder::over(&problem, &layer, None, Patience::Long);
    assert!(rt; finder.find(rt.alloc(), 0, Patience::Long)?.is_none());
    Ok(())
}

#[test]
fn weekends_are_free_where_the_demand_lets_them(rt: HostRuntime) -> Result<(), Fail> {
    let problem = problem_of(rt.alloc(), MOST_OF_FOUR_WEEKS)?;
    assert!(rt; problem.days() == 7);
    let doms = Domains::new(rt.alloc(), &problem)?;
    let layer = SteadyLayer::of(rt.alloc(), &problem)?;
    let finder = RosterFinder::over(&problem, &layer, Some(&doms), Patience::Long);
    // at most two weeks have a day off
    for (free, is_found) in [(0, true), (1, true), (2, true), (3, false)] {
        let found = finder.find(rt.alloc(), free, Patience::Long)?;
        assert!(rt; found.is_some() == is_found, "{free}");
    }
    Ok(())
}

// A roster that holds the cells that a text gives, if the text gives some and one is found.
fn filled(alloc: Global, problem: &Problem, text: &[u8]) -> Result<Option<Roster>, AllocError>
    requires { length text.now ≤ LONGEST_FILE }
{
    let Ok(given) = read_cells(alloc, problem, text) else {
        return Ok(None);
    };
    let opening = Opening::Given(given.copy()?);
    let walk = Walk::new(alloc, problem, &opening)?;
    let layer = SteadyLayer::of(alloc, problem)?;
    let finder = RosterFinder::over(problem, &layer, Some(walk.domains()), Patience::Long);
    finder.find_given(alloc, &given, Patience::Long)
}

// D is asked for in two or three of four weeks on each day: on the first day in all that are given, and in three.
const FOUR_MONDAYS: &[u8] = b"D ? ? ? ? ? ?\nD ? ? ? ? ? ?\nD ? ? ? ? ? ?\nD ? ? ? ? ? ?\n";

const THREE_MONDAYS: &[u8] = b"D ? ? ? ? ? ?\nD ? ? ? ? ? ?\nD ? ? ? ? ? ?\n? ? ? ? ? ? ?\n";

#[test]
fn given_cells_are_held_where_a_roster_has_them(rt: HostRuntime) -> Result<(), Fail> {
    let problem = problem_of(rt.alloc(), MOST_OF_FOUR_WEEKS)?;
    let roster = filled(rt.alloc(), &problem, THREE_MONDAYS)?.ok_or("no roster")?;
    for (p, x) in roster.cells().iter().enumerate() {
        assert!(rt; p % 7 != 0 || (*x == D) == (p < 21), "{p}");
    }
    assert!(rt; filled(rt.alloc(), &problem, FOUR_MONDAYS)?.is_none());
    Ok(())
}
