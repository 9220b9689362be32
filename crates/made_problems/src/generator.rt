// Problems by their numbers.
ghost use Rattle.std.specs.Prelude.{◌≡◌, ◌≤◌, IfOk};
ghost use Rattle.rwsp_model.specs.Parts.{instance_of};
ghost use Rattle.made_problems.specs.Generated.{shift, shifts, sequences, problem_with, IsGenerated};

use crate::counts::demand_of;
use crate::hidden::{AFTERNOON, DAY, NIGHT, roster_of, stints_of};
use rwsp_model::{Parts, Problem};
use rwsp_terms::limits::MOST_WEEKS;
use rwsp_terms::{Bounds, DemandRow, Name, Sequence, ShiftRow};
use std::alloc::{AllocError, Global};

/// The days of a week.
pub const DAYS: u32 = 7;

const MINUTES_OF_SHIFT: u32 = 480;

const LEAST_BLOCK: u32 = 2;

const OFF: Bounds = Bounds {
    least: 2,
    greatest: 4,
};

const WORK: Bounds = Bounds {
    least: 4,
    greatest: 7,
};

fn shift(alloc: Global, name: &[u8], start: u32, greatest: u32) -> Result<ShiftRow, AllocError>
    ensures { IfOk result (λ row. row ≡ shift name.now start greatest) }
{
    Ok(ShiftRow {
        name: Name::of(Vec::from_slice(alloc, name)?),
        start,
        length: MINUTES_OF_SHIFT,
        bounds: Bounds {
            least: LEAST_BLOCK,
            greatest,
        },
    })
}

fn shifts(alloc: Global) -> Result<Vec<ShiftRow>, AllocError>
    ensures { IfOk result (λ v. v.items ≡ shifts) }
{
    let mut rows = Vec::new(alloc);
    rows.push(shift(alloc, b"D".as_slice(), 360, 7)?)?;
    rows.push(shift(alloc, b"A".as_slice(), 840, 6)?)?;
    rows.push(shift(alloc, b"N".as_slice(), 1320, 5)?)?;
    Ok(rows)
}

fn sequences(alloc: Global) -> Result<Vec<Sequence>, AllocError>
    ensures { IfOk result (λ v. v.items ≡ sequences) }
{
    Ok(vec![in alloc;
        Sequence::on_every_day(NIGHT, DAY, None),
        Sequence::on_every_day(NIGHT, AFTERNOON, None),
        Sequence::on_every_day(AFTERNOON, DAY, None),
    ]?)
}

fn parts_with(alloc: Global, weeks: u32, demand: Vec<DemandRow>) -> Result<Parts, AllocError>
    ensures { IfOk result (λ parts. instance_of parts ≡ problem_with weeks demand.items) }
{
    Ok(Parts {
        days: DAYS,
        weeks,
        demand,
        shifts: shifts(alloc)?,
        off: OFF,
        work: WORK,
        sequences: sequences(alloc)?,
    })
}

/// The problem of a number: three shifts over weeks of seven days, where the demand is what a hidden roster holds.
/// The roster is made of stints of 6 to 11 days, by the draws that the number begins. The cost grows with the cells.
pub fn gen_problem(alloc: Global, number: u32, weeks: u32) -> Result<Problem, AllocError>
    requires { (1 ≤ weeks) × (weeks ≤ MOST_WEEKS) }
    ensures { IfOk result (IsGenerated number weeks) }
{
    let stints = stints_of(alloc, number, weeks * DAYS)?;
    let cells = roster_of(alloc, &stints)?;
    let demand = demand_of(alloc, &cells, weeks)?;
    let parts = parts_with(alloc, weeks, demand)?;
    Ok(Problem::of_valid(parts))
}
