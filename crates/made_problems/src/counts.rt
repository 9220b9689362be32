// The demand that a roster meets exactly.
ghost use Rattle.std.specs.Prelude.{◌≡◌, ◌+◌, ◌-◌, ◌*◌, ◌<◌, ◌≤◌, ◌==◌, length, slice_index_or, IfOk};
ghost use Rattle.rwsp_terms.specs.Instance.{off_symbol};
ghost use Rattle.made_problems.specs.Generated.{count_on, demand_row, demand_of};

use crate::generator::DAYS;
use crate::hidden::{AFTERNOON, DAY, NIGHT};
use rwsp_terms::limits::MOST_WEEKS;
use rwsp_terms::{Bounds, DemandRow, Symbol};
use std::alloc::{AllocError, Global};

// Whether the week, counted from 0, holds the symbol on the day, counted from 1.
fn has_on_day(cells: &[Symbol], week: u32, x: Symbol, day: u32) -> bool
    requires few { week < MOST_WEEKS }
    requires day { (1 ≤ day) × (day ≤ DAYS) }
    requires within { week * DAYS + (day - 1) < length cells.now }
    ensures { result ≡ ((slice_index_or cells.now (week * DAYS + (day - 1)) off_symbol).number == x.number) }
{
    cells[(week * DAYS + (day - 1)) as usize].number == x.number
}

// How many weeks hold the symbol on the day. The cost grows with the weeks.
#[tactic(auto, using(rwsp_terms::proofs::Counting::count_then, rwsp_terms::proofs::Counting::count_else))]
fn count_on(cells: &[Symbol], weeks: u32, x: Symbol, day: u32) -> u32
    requires few { weeks ≤ MOST_WEEKS }
    requires day { (1 ≤ day) × (day ≤ DAYS) }
    requires cells { length cells.now ≡ weeks * DAYS }
    ensures value { result ≡ count_on weeks cells.now x.number day }
    ensures few { result ≤ weeks }
{
    let mut count = 0;
    for week in 0..weeks {
        if has_on_day(cells, week, x, day) {
            count += 1;
        }
    }
    count
}

fn demand_row(
    alloc: Global,
    cells: &[Symbol],
    weeks: u32,
    x: Symbol,
) -> Result<DemandRow, AllocError>
    requires few { weeks ≤ MOST_WEEKS }
    requires cells { length cells.now ≡ weeks * DAYS }
    ensures { IfOk result (λ row. row ≡ demand_row weeks cells.now x.number) }
{
    let mut ranges = Vec::new(alloc);
    for day in 0..DAYS {
        let count = count_on(cells, weeks, x, day + 1);
        ranges.push(Bounds {
            least: count,
            greatest: count,
        })?;
    }
    Ok(DemandRow::of(ranges))
}

/// For each shift and day exactly the weeks of the roster that hold the shift there.
pub fn demand_of(alloc: Global, cells: &[Symbol], weeks: u32) -> Result<Vec<DemandRow>, AllocError>
    requires few { weeks ≤ MOST_WEEKS }
    requires cells { length cells.now ≡ weeks * DAYS }
    ensures { IfOk result (λ v. v.items ≡ demand_of weeks cells.now) }
{
    let mut rows = Vec::new(alloc);
    rows.push(demand_row(alloc, cells, weeks, DAY)?)?;
    rows.push(demand_row(alloc, cells, weeks, AFTERNOON)?)?;
    rows.push(demand_row(alloc, cells, weeks, NIGHT)?)?;
    Ok(rows)
}
