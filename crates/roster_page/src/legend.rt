// The legend of the shifts.
ghost use Rattle.std.specs.Prelude.{◌≡◌, ◌++◌, ◌<◌, OnOk};
ghost use Rattle.rwsp_terms.specs.Instance.{shift_count};
ghost use Rattle.roster_page.specs.PageText.{shift_times, shift_row, shift_rows, legend_table};

use crate::clock::{put_hours, put_moment};
use crate::pieces::{LAST_CELL, LEGEND_TOP, NEXT_CELL, PLAIN_CELL, TABLE_END, put};
use crate::table::minutes_of;
use crate::words::{put_shift_head, shift_at};
use made_problems::{length_of, start_of};
use rwsp_model::Problem;
use std::alloc::AllocError;

// Appends the start, the end and the hours of a shift.
#[tactic(auto, unfolding(crate::specs::PageText::shift_times))]
fn put_shift_times(out: &mut Vec<u8>, problem: &Problem, place: u8) -> Result<(), AllocError>
    requires { place < shift_count problem.now }
    ensures { OnOk result (out.new.items ≡ out.old.items ++ shift_times problem.now place) }
{
    problem.prove_limits();
    let shift = shift_at(place);
    let start = start_of(problem, shift);
    let end = start + length_of(problem, shift);
    put(out, PLAIN_CELL)?;
    put_moment(out, start)?;
    put(out, NEXT_CELL)?;
    put_moment(out, end)?;
    put(out, NEXT_CELL)?;
    put_hours(out, minutes_of(problem, shift))?;
    put(out, LAST_CELL)
}

// Appends the row of a shift.
#[tactic(auto, unfolding(crate::specs::PageText::shift_row))]
fn put_shift_row(out: &mut Vec<u8>, problem: &Problem, place: u8) -> Result<(), AllocError>
    requires { place < shift_count problem.now }
    ensures { OnOk result (out.new.items ≡ out.old.items ++ shift_row problem.now place) }
{
    put_shift_head(out, problem, place)?;
    put_shift_times(out, problem, place)
}

// Appends a row for each shift.
#[tactic(auto, unfolding(crate::specs::PageText::shift_rows))]
fn put_shift_rows(out: &mut Vec<u8>, problem: &Problem) -> Result<(), AllocError>
    ensures { OnOk result (out.new.items ≡ out.old.items ++ shift_rows problem.now) }
{
    for place in 0..problem.shifts() {
        put_shift_row(out, problem, place)?;
    }
    Ok(())
}

/// Appends the legend.
#[tactic(auto, unfolding(crate::specs::PageText::legend_table))]
pub fn put_legend(out: &mut Vec<u8>, problem: &Problem) -> Result<(), AllocError>
    ensures { OnOk result (out.new.items ≡ out.old.items ++ legend_table problem.now) }
{
    put(out, LEGEND_TOP)?;
    put_shift_rows(out, problem)?;
    put(out, TABLE_END)
}
