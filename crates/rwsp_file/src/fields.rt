// Reading the fields of a text in their order.
ghost use Rattle.std.specs.Prelude.{◌≡◌, IfOk, ◌≤◌};
ghost use Rattle.rwsp_terms.specs.declared.limits.TheConstants.{MOST_DAYS, MOST_SHIFTS, MOST_SEQUENCES};
ghost use Rattle.rwsp_file.specs.Reading.{limited_weeks, weeks_at, size_at, demand_at, demand_row_at, demand_rows_at, count_at, frame_at};
ghost use Rattle.rwsp_file.specs.Reads.{ReadsTokens, ReadsUnless};

use crate::cursor::{Cursor, Lexeme};
use crate::demand::demand;
use crate::limits::{CELLS, DAYS, DEMAND, SHIFTS, WEEKS, sequence_limit};
use crate::misfit::{Fault, Kind, Misfit, Place};
use rwsp_model::Fail;
use rwsp_terms::{Bounds, DemandRow};
use std::alloc::Global;

/// How many days, weeks and shifts a problem has.
#[derive(Clone, Copy)]
pub struct Size {
    pub days: u32,
    pub weeks: u32,
    pub shifts: u32,
}

/// The bounds of the blocks of days off and of work, and how many pairs and triples there are.
#[derive(Clone, Copy)]
pub struct Frame {
    pub off: Bounds,
    pub work: Bounds,
    pub pairs: u32,
    pub triples: u32,
}

#[tactic(auto, unfolding(crate::specs::Reading::limited_weeks))]
fn limited_weeks<'a>(days: u32, word: &Lexeme<'a>) -> Result<u32, Misfit<'a>>
    requires { days ≤ MOST_DAYS }
    ensures { result ≡ limited_weeks days word.now }
{
    let weeks = word.limited(Place::Weeks, WEEKS)?;
    if weeks * days > CELLS.greatest {
        return Err(word.misfit(Place::Weeks, Fault::TooManyDays(weeks, days)));
    }
    Ok(weeks)
}

#[tactic(auto, unfolding(crate::specs::Reading::weeks_at))]
fn read_weeks<'a>(days: u32, cursor: &mut Cursor<'a>) -> Result<u32, Misfit<'a>>
    requires { days ≤ MOST_DAYS }
    ensures { ReadsTokens (weeks_at days cursor.old) result cursor.new }
{
    let word = cursor.next(Place::Weeks)?;
    limited_weeks(days, &word)
}

/// Reads the numbers of days, weeks and shifts.
#[tactic(auto, unfolding(crate::specs::Reading::size_at))]
pub fn read_size<'a>(cursor: &mut Cursor<'a>) -> Result<Size, Misfit<'a>>
    ensures value { ReadsTokens (size_at cursor.old) result cursor.new }
    ensures few { IfOk result (λ size. size.shifts ≤ MOST_SHIFTS) }
{
    let days = cursor.number(Place::Days, DAYS)?;
    let weeks = read_weeks(days, cursor)?;
    let shifts = cursor.number(Place::Shifts, SHIFTS)?;
    Ok(Size {
        days,
        weeks,
        shifts,
    })
}

/// Reads how many sequences of a kind are forbidden.
pub fn read_count<'a>(kind: Kind, cursor: &mut Cursor<'a>) -> Result<u32, Misfit<'a>>
    ensures value { ReadsTokens (count_at kind cursor.old) result cursor.new }
    ensures few { IfOk result (λ n. n ≤ MOST_SEQUENCES) }
{
    cursor.number(Place::Sequences(kind), sequence_limit(kind))
}

/// Reads the bounds of the blocks of days off and of work, and the numbers of pairs and triples.
#[tactic(auto, unfolding(crate::specs::Reading::frame_at))]
pub fn read_frame<'a>(cursor: &mut Cursor<'a>) -> Result<Frame, Misfit<'a>>
    ensures value { ReadsTokens (frame_at cursor.old) result cursor.new }
    ensures few { IfOk result (λ frame. (frame.pairs ≤ MOST_SEQUENCES) × (frame.triples ≤ MOST_SEQUENCES)) }
{
    let off = cursor.bounds(Place::LeastOff, Place::GreatestOff)?;
    let work = cursor.bounds(Place::LeastWork, Place::GreatestWork)?;
    let pairs = read_count(Kind::Pair, cursor)?;
    let triples = read_count(Kind::Triple, cursor)?;
    Ok(Frame {
        off,
        work,
        pairs,
        triples,
    })
}

#[tactic(auto, unfolding(crate::specs::Reading::demand_at, crate::specs::Reading::limited_demand))]
fn read_demand_of_day<'a>(awaited: Place, cursor: &mut Cursor<'a>) -> Result<Bounds, Misfit<'a>>
    ensures { ReadsTokens (demand_at awaited cursor.old) result cursor.new }
{
    let word = cursor.next(awaited)?;
    let Some(range) = demand(word.text()) else {
        return Err(word.misfit(awaited, Fault::NoNumber));
    };
    if range.least > DEMAND.greatest || range.greatest > DEMAND.greatest {
        return Err(word.misfit(awaited, Fault::Beyond(DEMAND)));
    }
    Ok(range)
}

#[tactic(auto, using(crate::proofs::ManySteps::many_ok, crate::proofs::ManySteps::loop_done))]
fn read_demand_row<'a>(
    alloc: Global,
    days: u32,
    shift: u32,
    cursor: &mut Cursor<'a>,
) -> Result<DemandRow, Fail<Misfit<'a>>>
    ensures { ReadsUnless (λ row. row) (demand_row_at days shift cursor.old) result cursor.new }
{
    let mut ranges = Vec::new(alloc);
    for day in 0..days {
        let awaited = Place::Demand(shift, day + 1);
        let range = read_demand_of_day(awaited, cursor).map_err(Fail::Refused)?;
        ranges.push(range)?;
    }
    Ok(DemandRow::of(ranges))
}

/// Reads a row of demands for each shift.
#[tactic(auto, using(crate::proofs::ManySteps::many_ok, crate::proofs::ManySteps::loop_done))]
pub fn read_demand<'a>(
    alloc: Global,
    size: Size,
    cursor: &mut Cursor<'a>,
) -> Result<Vec<DemandRow>, Fail<Misfit<'a>>>
    ensures { ReadsUnless (λ v. v.items) (demand_rows_at size cursor.old) result cursor.new }
{
    let mut rows = Vec::new(alloc);
    for shift in 0..size.shifts {
        let row = read_demand_row(alloc, size.days, shift + 1, cursor)?;
        rows.push(row)?;
    }
    Ok(rows)
}
