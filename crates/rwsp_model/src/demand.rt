// How many weeks are to hold a symbol on a day.
ghost use Rattle.std.specs.Prelude.{◌≡◌, ◌+◌, ◌-◌, ◌*◌, ◌<◌, ◌≤◌, ◌≤ℤ◌, ◌-ℤ◌, pos, neg_ℤ, length, All, slice_index_or};
ghost use Rattle.std.specs.List.{sum_by};
ghost use Rattle.rwsp_terms.specs.Instance.{least, greatest, shift_demand, no_bounds, IsShift, IsDay};
ghost use Rattle.rwsp_model.specs.Parts.{instance_of};
ghost use Rattle.rwsp_model.specs.Validity.{KeepsLimits, IsSmallRange};

use crate::Parts;
use rwsp_terms::limits::{MOST_SHIFTS, MOST_WEEKS};
use rwsp_terms::{Bounds, DemandRow, Symbol};

fn range_at(row: &[Bounds], day: u32) -> Bounds
    requires day { (0 < day) × (day ≤ length row.now) }
    requires small { IsSmallRange (slice_index_or row.now (day - 1) no_bounds) }
    ensures value { result ≡ slice_index_or row.now (day - 1) no_bounds }
    ensures small { IsSmallRange result }
{
    row[day as usize - 1]
}

// How many shifts are demanded on a day, at least and at most.
fn column_range(rows: &[DemandRow], day: u32) -> Bounds
    requires day { 0 < day }
    requires few { length rows.now ≤ MOST_SHIFTS }
    requires rows { All (λ row. (day ≤ length row) × IsSmallRange (slice_index_or row (day - 1) no_bounds)) rows.now }
    ensures least { result.least ≡ sum_by (λ row. (slice_index_or row (day - 1) no_bounds).least) rows.now }
    ensures greatest { result.greatest ≡ sum_by (λ row. (slice_index_or row (day - 1) no_bounds).greatest) rows.now }
    ensures small { (result.least ≤ MOST_WEEKS * MOST_SHIFTS) × (result.greatest ≤ MOST_WEEKS * MOST_SHIFTS) }
{
    let mut least = 0;
    let mut greatest = 0;
    for row in rows {
        let range = range_at(row.ranges(), day);
        least += range.least;
        greatest += range.greatest;
    }
    Bounds { least, greatest }
}

/// How many employees a shift needs on a day.
pub fn shift_range(parts: &Parts, shift: Symbol, day: u32) -> Bounds
    requires limits { KeepsLimits (instance_of parts.now) }
    requires shift { IsShift (instance_of parts.now) shift }
    requires day { IsDay (instance_of parts.now) day }
    ensures value { result ≡ shift_demand (instance_of parts.now) shift.number day }
    ensures small { IsSmallRange result }
{
    range_at(parts.demand[shift.number as usize - 1].ranges(), day)
}

// The weeks that are left beside those that are demanded; fewer than none where more are demanded than there are.
fn weeks_left(weeks: u32, demanded: u32) -> i32
    requires weeks { weeks ≤ MOST_WEEKS }
    requires demanded { demanded ≤ MOST_WEEKS * MOST_SHIFTS }
    ensures value { result ≡ pos weeks -ℤ pos demanded }
    ensures above { neg_ℤ (pos (MOST_WEEKS * MOST_SHIFTS)) ≤ℤ result }
    ensures below { result ≤ℤ pos MOST_WEEKS }
{
    weeks as i32 - demanded as i32
}

/// The least number of weeks that hold the symbol on the day. Of the day off it may be negative.
pub fn least_of(parts: &Parts, symbol: Symbol, day: u32) -> i32
    requires limits { KeepsLimits (instance_of parts.now) }
    requires symbol { symbol.number ≤ length parts.now.shifts.items }
    requires day { (0 < day) × (day ≤ parts.now.days) }
    ensures value { result ≡ least (instance_of parts.now) symbol.number day }
    ensures above { neg_ℤ (pos (MOST_WEEKS * MOST_SHIFTS)) ≤ℤ result }
    ensures below { result ≤ℤ pos MOST_WEEKS }
{
    if symbol.number == 0 {
        weeks_left(parts.weeks, column_range(&parts.demand, day).greatest)
    } else {
        shift_range(parts, symbol, day).least as i32
    }
}

/// The greatest number of weeks that hold the symbol on the day. Of the day off it may be negative.
pub fn greatest_of(parts: &Parts, symbol: Symbol, day: u32) -> i32
    requires limits { KeepsLimits (instance_of parts.now) }
    requires symbol { symbol.number ≤ length parts.now.shifts.items }
    requires day { (0 < day) × (day ≤ parts.now.days) }
    ensures value { result ≡ greatest (instance_of parts.now) symbol.number day }
    ensures above { neg_ℤ (pos (MOST_WEEKS * MOST_SHIFTS)) ≤ℤ result }
    ensures below { result ≤ℤ pos MOST_WEEKS }
{
    if symbol.number == 0 {
        weeks_left(parts.weeks, column_range(&parts.demand, day).least)
    } else {
        shift_range(parts, symbol, day).greatest as i32
    }
}
