// Rosters of problems with a narrower demand.
ghost use Rattle.std.specs.Prelude.{◌≡◌, ◌+◌, IfOk};
ghost use Rattle.std.specs.Option.{IfSome};
ghost use Rattle.rwsp_terms.specs.Instance.{shift_count};
ghost use Rattle.roster_finder.specs.Found.{IsRosterWith};

use domain_store::Domains;
use roster_finder::{Patience, RosterFinder, SteadyLayer, met_roster};
use rwsp_model::{Problem, Roster};
use rwsp_terms::{Bounds, DemandRow};
use std::alloc::{AllocError, Global};
use std::cmp::Reverse;

// So many narrower demands are tried at most. All searches together make no more moves than one with patience.
const MOST_TRIES: usize = 10;

// Where the layer has many steps, this divided by their number, since then a short search is a greater part of one with
// patience.
const MOST_STEP_TRIES: usize = 2_250;

// The least or the greatest number of a range of the demand.
#[derive(Clone, Copy)]
struct End {
    // The row of the shift, and the place of the day in it, both counted from 0.
    row: usize,
    place: usize,
    number: u32,
    // How many days of the shift have this range.
    alike: usize,
    // By how much the greatest number of the range is above the least.
    width: u32,
}

/// A roster that is found where a range of the demand is narrowed to its least or its greatest number alone, one range
/// after the other. A range hides from the finder which of its numbers blocks can make up.
///
/// The ranges that fewest days of their shift have come first, and of these the widest: where one was loosened so that
/// there is a roster, it is mostly among them, and a roster has the number at its new end.
pub fn narrowed_roster(
    alloc: Global,
    finder: &RosterFinder<'_>,
) -> Result<Option<Roster>, AllocError>
    ensures { IfOk result (λ found. IfSome found (IsRosterWith finder.now 0)) }
{
    let mut ends = ends_of(alloc, finder.problem())?;
    ends.truncate(most_tries(finder.layer()));
    for end in &ends {
        let found = roster_at(alloc, finder, *end)?;
        if found.is_some() {
            return Ok(found);
        }
    }
    Ok(None)
}

// So many ends are tried over this layer.
fn most_tries(layer: &SteadyLayer) -> usize {
    (MOST_STEP_TRIES / layer.step_count().max(1))
        .max(1)
        .min(MOST_TRIES)
}

// The ends of all ranges that have two, in the order in which they are tried.
fn ends_of(alloc: Global, problem: &Problem) -> Result<Vec<End>, AllocError> {
    let mut ends = Vec::new(alloc);
    for (row, demand) in problem.parts().demand.iter().enumerate() {
        put_ends(&mut ends, row, demand.ranges())?;
    }
    ends.sort_by_key(|end| (end.alike, Reverse(end.width)))?;
    Ok(ends)
}

// Puts the ends of a shift's ranges behind the others. Costs a look at each pair of days.
fn put_ends(ends: &mut Vec<End>, row: usize, ranges: &[Bounds]) -> Result<(), AllocError> {
    for (place, range) in ranges.iter().enumerate() {
        let Bounds { least, greatest } = *range;
        if least < greatest {
            let end = End {
                row,
                place,
                number: least,
                alike: ranges.iter().filter(|other| **other == *range).count(),
                width: greatest - least,
            };
            ends.push(end)?;
            ends.push(End {
                number: greatest,
                ..end
            })?;
        }
    }
    Ok(())
}

// A roster of the problem that is found soon where the range is narrowed to this end.
fn roster_at(
    alloc: Global,
    finder: &RosterFinder<'_>,
    end: End,
) -> Result<Option<Roster>, AllocError>
    ensures { IfOk result (λ found. IfSome found (IsRosterWith finder.now 0)) }
{
    let Some(narrower) = narrowed_problem(alloc, finder.problem(), end)? else {
        return Ok(None);
    };
    let found = found_soon(alloc, &narrower, finder.layer(), finder.seed());
    drop(narrower);
    match found? {
        Some(roster) => checked(alloc, finder.problem(), &roster),
        None => Ok(None),
    }
}

/// A roster of the problem that is found soon over the layer, by the random numbers of the seed.
pub(crate) fn found_soon(
    alloc: Global,
    problem: &Problem,
    layer: &SteadyLayer,
    seed: u32,
) -> Result<Option<Roster>, AllocError>
    requires { layer.now.symbols ≡ shift_count problem.now + 1 }
{
    let doms = Domains::new(alloc, problem)?;
    let finder = RosterFinder::over(problem, layer, Some(&doms), Patience::Short).seeded(seed);
    let found = finder.find(alloc, 0, Patience::Short);
    drop(finder);
    drop(doms);
    found
}

// The roster with these cells, where it meets every rule of the problem.
fn checked(alloc: Global, problem: &Problem, roster: &Roster) -> Result<Option<Roster>, AllocError>
    ensures { IfOk result (λ found. IfSome found (IsRosterWith problem.now 0)) }
{
    let mut symbols = Vec::new(alloc);
    for cell in roster.cells() {
        symbols.push(usize::from(cell.number))?;
    }
    met_roster(alloc, problem, 0, &symbols)
}

// The problem whose range is narrowed to this end, and all else as it is.
fn narrowed_problem(
    alloc: Global,
    problem: &Problem,
    end: End,
) -> Result<Option<Problem>, AllocError>
    ensures { IfOk result (λ found. IfSome found (λ P. shift_count P ≡ shift_count problem.now)) }
{
    let demand = narrowed_demand(alloc, problem, end)?;
    let mut parts = problem.parts().copy()?;
    parts.demand = demand;
    match Problem::of(parts) {
        Ok(narrower) => Ok(Some(narrower)),
        // Parts are refused for what they say alone. Those of a problem with a number of its own aren't.
        Err(_) => Ok(None),
    }
}

// The demand of all shifts, with the range narrowed to this end.
fn narrowed_demand(
    alloc: Global,
    problem: &Problem,
    end: End,
) -> Result<Vec<DemandRow>, AllocError> {
    let mut demand = problem.parts().demand.clone()?;
    if end.row < demand.len() {
        let ranges = narrowed_ranges(alloc, demand[end.row].ranges(), end)?;
        demand[end.row] = DemandRow::of(ranges);
    }
    Ok(demand)
}

// The ranges of the shift, with the one narrowed to this end.
fn narrowed_ranges(alloc: Global, ranges: &[Bounds], end: End) -> Result<Vec<Bounds>, AllocError> {
    let mut narrower = Vec::from_slice(alloc, ranges)?;
    if let Some(range) = narrower.get_mut(end.place) {
        *range = Bounds {
            least: end.number,
            greatest: end.number,
        };
    }
    Ok(narrower)
}
