// The table of the demand.
ghost use Rattle.std.specs.Prelude.{◌≡◌, ◌++◌, ◌<◌, OnOk};
ghost use Rattle.rwsp_terms.specs.Instance.{shift_count};
ghost use Rattle.rwsp_terms.specs.Roster.{IsRoster};
ghost use Rattle.roster_page.specs.PageText.{count_at, demand_cell, demand_cells, demand_row, demand_rows, demand_table};

use crate::pieces::{
    BODY_TOP, DEMAND_END, DEMAND_TOP, OPENED, PLAIN_CELL, ROW_END, TABLE_END, put,
};
use crate::words::{put_day_heads, put_shift_head, shift_at};
use plain_words::put_range;
use rwsp_model::{Problem, weeks_with};
use rwsp_terms::Symbol;
use rwsp_text::put_number;
use std::alloc::AllocError;

// How many have a shift on a day, where both count from 0.
#[tactic(auto, unfolding(crate::specs::PageText::count_at))]
fn count_at(problem: &Problem, cells: &[Symbol], place: u8, day: u32) -> u32
    requires roster { IsRoster problem.now cells.now }
    requires place { place < shift_count problem.now }
    requires day { day < problem.now.days }
    ensures { result ≡ count_at problem.now cells.now place day }
{
    problem.prove_limits();
    weeks_with(problem, cells, shift_at(place), day + 1)
}

// Appends how many have a shift on a day, and how many are demanded, where both count from 0.
#[tactic(auto, unfolding(crate::specs::PageText::demand_cell))]
fn put_demand_cell(
    out: &mut Vec<u8>,
    problem: &Problem,
    cells: &[Symbol],
    place: u8,
    day: u32,
) -> Result<(), AllocError>
    requires roster { IsRoster problem.now cells.now }
    requires place { place < shift_count problem.now }
    requires day { day < problem.now.days }
    ensures { OnOk result (out.new.items ≡ out.old.items ++ demand_cell problem.now cells.now place day) }
{
    problem.prove_limits();
    put(out, PLAIN_CELL)?;
    put_number(out, u64::from(count_at(problem, cells, place, day)))?;
    put(out, OPENED)?;
    put_range(out, problem.demand(shift_at(place), day + 1))?;
    put(out, DEMAND_END)
}

// Appends the cells of a shift.
#[tactic(auto, unfolding(crate::specs::PageText::demand_cells))]
fn put_demand_cells(
    out: &mut Vec<u8>,
    problem: &Problem,
    cells: &[Symbol],
    place: u8,
) -> Result<(), AllocError>
    requires roster { IsRoster problem.now cells.now }
    requires place { place < shift_count problem.now }
    ensures { OnOk result (out.new.items ≡ out.old.items ++ demand_cells problem.now cells.now place) }
{
    for day in 0..problem.days() {
        put_demand_cell(out, problem, cells, place, day)?;
    }
    Ok(())
}

// Appends the row of a shift.
#[tactic(auto, unfolding(crate::specs::PageText::demand_row))]
fn put_demand_row(
    out: &mut Vec<u8>,
    problem: &Problem,
    cells: &[Symbol],
    place: u8,
) -> Result<(), AllocError>
    requires roster { IsRoster problem.now cells.now }
    requires place { place < shift_count problem.now }
    ensures { OnOk result (out.new.items ≡ out.old.items ++ demand_row problem.now cells.now place) }
{
    put_shift_head(out, problem, place)?;
    put_demand_cells(out, problem, cells, place)?;
    put(out, ROW_END)
}

// Appends a row for each shift.
#[tactic(auto, unfolding(crate::specs::PageText::demand_rows))]
fn put_demand_rows(out: &mut Vec<u8>, problem: &Problem, cells: &[Symbol]) -> Result<(), AllocError>
    requires { IsRoster problem.now cells.now }
    ensures { OnOk result (out.new.items ≡ out.old.items ++ demand_rows problem.now cells.now) }
{
    for place in 0..problem.shifts() {
        put_demand_row(out, problem, cells, place)?;
    }
    Ok(())
}

/// Appends the table of the demand. The cost grows with the shifts times the cells.
#[tactic(auto, unfolding(crate::specs::PageText::demand_table))]
pub fn put_demand_table(
    out: &mut Vec<u8>,
    problem: &Problem,
    cells: &[Symbol],
) -> Result<(), AllocError>
    requires { IsRoster problem.now cells.now }
    ensures { OnOk result (out.new.items ≡ out.old.items ++ demand_table problem.now cells.now) }
{
    put(out, DEMAND_TOP)?;
    put_day_heads(out, problem)?;
    put(out, BODY_TOP)?;
    put_demand_rows(out, problem, cells)?;
    put(out, TABLE_END)
}
