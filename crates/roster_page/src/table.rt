// The table of the roster.
ghost use Rattle.std.specs.Prelude.{◌≡◌, ◌++◌, ◌+◌, ◌*◌, ◌<◌, ◌≤◌, length, All, OnOk};
ghost use Rattle.rwsp_terms.specs.Instance.{IsSymbol};
ghost use Rattle.rwsp_terms.specs.Roster.{IsRoster};
ghost use Rattle.rwsp_terms.specs.declared.limits.TheConstants.{DAYS_OF_WEEK};
ghost use Rattle.roster_print.specs.RosterText.{week_at};
ghost use Rattle.roster_page.specs.Hours.{minutes_of, minutes_in};
ghost use Rattle.roster_page.specs.PageText.{weekend_head, roster_head, cell_text, cells_text, hours_cell, is_free, free_text, weekend_cell, week_top, week_end, week_row, week_rows, roster_table};

use crate::clock::put_hours;
use crate::pieces::{
    BODY_TOP, CELL_END, CELL_TOP, CLASS_END, FREE, HEAD_END, HOURS_HEAD, PLAIN_CELL, ROSTER_TOP,
    ROW_END, TABLE_END, WEEK_TOP, WEEKEND_HEAD, put,
};
use crate::words::{put_day_heads, put_name};
use rwsp_model::Problem;
use rwsp_terms::Symbol;
use rwsp_terms::limits::{DAYS_OF_WEEK, GREATEST_BOUND, MOST_CELLS, MOST_WEEKS, SATURDAY, SUNDAY};
use rwsp_text::put_number;
use std::alloc::AllocError;

#[tactic(auto, unfolding(crate::specs::PageText::weekend_head))]
fn put_weekend_head(out: &mut Vec<u8>, problem: &Problem) -> Result<(), AllocError>
    ensures { OnOk result (out.new.items ≡ out.old.items ++ weekend_head problem.now) }
{
    if problem.days() == DAYS_OF_WEEK {
        put(out, WEEKEND_HEAD)?;
    }
    Ok(())
}

#[tactic(auto, unfolding(crate::specs::PageText::roster_head))]
fn put_roster_head(out: &mut Vec<u8>, problem: &Problem) -> Result<(), AllocError>
    ensures { OnOk result (out.new.items ≡ out.old.items ++ roster_head problem.now) }
{
    put(out, ROSTER_TOP)?;
    put_day_heads(out, problem)?;
    put(out, HOURS_HEAD)?;
    put_weekend_head(out, problem)?;
    put(out, BODY_TOP)
}

// Appends the cell of a symbol.
#[tactic(auto, unfolding(crate::specs::PageText::cell_text))]
fn put_cell(out: &mut Vec<u8>, problem: &Problem, symbol: Symbol) -> Result<(), AllocError>
    requires { IsSymbol problem.now symbol }
    ensures { OnOk result (out.new.items ≡ out.old.items ++ cell_text problem.now symbol) }
{
    put(out, CELL_TOP)?;
    put_number(out, u64::from(symbol.number))?;
    put(out, CLASS_END)?;
    put_name(out, problem, symbol)?;
    put(out, CELL_END)
}

// Appends the cells of a week.
fn put_cells(out: &mut Vec<u8>, problem: &Problem, week: &[Symbol]) -> Result<(), AllocError>
    requires { All (IsSymbol problem.now) week.now }
    ensures { OnOk result (out.new.items ≡ out.old.items ++ cells_text problem.now week.now) }
{
    for i in 0..week.len() {
        put_cell(out, problem, week[i])?;
    }
    Ok(())
}

/// The minutes of a symbol; the day off has none.
#[tactic(auto, using(crate::proofs::Minutes::minutes_are))]
pub fn minutes_of(problem: &Problem, symbol: Symbol) -> u32
    requires { IsSymbol problem.now symbol }
    ensures value { result ≡ minutes_of problem.now symbol }
    ensures few { result ≤ GREATEST_BOUND }
{
    problem.prove_limits();
    if symbol.number == 0 {
        return 0;
    }
    problem.length(symbol)
}

/// The minutes of all symbols of a row.
#[tactic(auto, unfolding(crate::specs::Hours::minutes_in))]
pub fn minutes_in(problem: &Problem, row: &[Symbol]) -> u32
    requires symbols { All (IsSymbol problem.now) row.now }
    requires few { length row.now ≤ MOST_CELLS }
    ensures { result ≡ minutes_in problem.now row.now }
{
    let mut sum = 0;
    for i in 0..row.len() {
        sum += minutes_of(problem, row[i]);
    }
    sum
}

// Appends the cell of the hours of a week.
#[tactic(auto, unfolding(crate::specs::PageText::hours_cell))]
fn put_hours_cell(out: &mut Vec<u8>, problem: &Problem, week: &[Symbol]) -> Result<(), AllocError>
    requires symbols { All (IsSymbol problem.now) week.now }
    requires few { length week.now ≤ MOST_CELLS }
    ensures { OnOk result (out.new.items ≡ out.old.items ++ hours_cell problem.now week.now) }
{
    put(out, PLAIN_CELL)?;
    put_hours(out, minutes_in(problem, week))?;
    put(out, CELL_END)
}

// Whether both days of the weekend of a week are off.
fn is_free(week: &[Symbol]) -> bool
    requires { length week.now ≡ DAYS_OF_WEEK }
    ensures { result ≡ is_free week.now }
{
    week[SATURDAY as usize].number == 0 && week[SUNDAY as usize].number == 0
}

#[tactic(auto, unfolding(crate::specs::PageText::free_text))]
fn put_free(out: &mut Vec<u8>, week: &[Symbol]) -> Result<(), AllocError>
    requires { length week.now ≡ DAYS_OF_WEEK }
    ensures { OnOk result (out.new.items ≡ out.old.items ++ free_text week.now) }
{
    if is_free(week) {
        put(out, FREE)?;
    }
    Ok(())
}

// Appends the cell of the weekend, where the week has seven days.
#[tactic(auto, unfolding(crate::specs::PageText::weekend_cell))]
fn put_weekend_cell(out: &mut Vec<u8>, problem: &Problem, week: &[Symbol]) -> Result<(), AllocError>
    requires { length week.now ≡ problem.now.days }
    ensures { OnOk result (out.new.items ≡ out.old.items ++ weekend_cell problem.now week.now) }
{
    if problem.days() != DAYS_OF_WEEK {
        return Ok(());
    }
    put(out, PLAIN_CELL)?;
    put_free(out, week)?;
    put(out, CELL_END)
}

// Appends what is behind the cells of a week.
#[tactic(auto, unfolding(crate::specs::PageText::week_end))]
fn put_week_end(out: &mut Vec<u8>, problem: &Problem, week: &[Symbol]) -> Result<(), AllocError>
    requires symbols { All (IsSymbol problem.now) week.now }
    requires long { length week.now ≡ problem.now.days }
    ensures { OnOk result (out.new.items ≡ out.old.items ++ week_end problem.now week.now) }
{
    problem.prove_limits();
    put_hours_cell(out, problem, week)?;
    put_weekend_cell(out, problem, week)?;
    put(out, ROW_END)
}

// The symbols of a week, counted from 0.
fn week_at<'a>(problem: &Problem, cells: &'a [Symbol], week: u32) -> &'a [Symbol]
    requires roster { IsRoster problem.now cells.now }
    requires week { week < problem.now.weeks }
    ensures value { result.now ≡ week_at problem.now cells.now week }
    ensures symbols { All (IsSymbol problem.now) result.now }
    ensures long { length result.now ≡ problem.now.days }
{
    problem.prove_limits();
    let days = problem.days() as usize;
    let start = week as usize * days;
    &cells[start..start + days]
}

// Appends the front of the row of a week, counted from 0.
#[tactic(auto, unfolding(crate::specs::PageText::week_top))]
fn put_week_top(out: &mut Vec<u8>, week: u32) -> Result<(), AllocError>
    requires { week < MOST_WEEKS }
    ensures { OnOk result (out.new.items ≡ out.old.items ++ week_top week) }
{
    put(out, WEEK_TOP)?;
    put_number(out, u64::from(week + 1))?;
    put(out, HEAD_END)
}

// Appends the row of a week, counted from 0.
#[tactic(auto, unfolding(crate::specs::PageText::week_row))]
fn put_week_row(
    out: &mut Vec<u8>,
    problem: &Problem,
    cells: &[Symbol],
    week: u32,
) -> Result<(), AllocError>
    requires roster { IsRoster problem.now cells.now }
    requires week { week < problem.now.weeks }
    ensures { OnOk result (out.new.items ≡ out.old.items ++ week_row problem.now cells.now week) }
{
    problem.prove_limits();
    let row = week_at(problem, cells, week);
    put_week_top(out, week)?;
    put_cells(out, problem, row)?;
    put_week_end(out, problem, row)
}

// Appends a row for each week.
#[tactic(auto, unfolding(crate::specs::PageText::week_rows))]
fn put_week_rows(out: &mut Vec<u8>, problem: &Problem, cells: &[Symbol]) -> Result<(), AllocError>
    requires { IsRoster problem.now cells.now }
    ensures { OnOk result (out.new.items ≡ out.old.items ++ week_rows problem.now cells.now) }
{
    for week in 0..problem.weeks() {
        put_week_row(out, problem, cells, week)?;
    }
    Ok(())
}

/// Appends the table of the roster. The cost grows with the cells.
#[tactic(auto, unfolding(crate::specs::PageText::roster_table))]
pub fn put_roster_table(
    out: &mut Vec<u8>,
    problem: &Problem,
    cells: &[Symbol],
) -> Result<(), AllocError>
    requires { IsRoster problem.now cells.now }
    ensures { OnOk result (out.new.items ≡ out.old.items ++ roster_table problem.now cells.now) }
{
    put_roster_head(out, problem)?;
    put_week_rows(out, problem, cells)?;
    put(out, TABLE_END)
}
