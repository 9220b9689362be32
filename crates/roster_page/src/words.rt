// Words that several parts of a page have.
ghost use Rattle.std.specs.Prelude.{◌≡◌, ◌++◌, ◌<◌, OnOk};
ghost use Rattle.rwsp_terms.specs.Instance.{shift_count, IsSymbol};
ghost use Rattle.made_problems.specs.Rested.{shift_at};
ghost use Rattle.roster_page.specs.PageText.{name_text, day_head, day_heads, shift_head};

use crate::escaped::put_escaped;
use crate::pieces::{CLASS_END, DAY_HEAD, HEAD_END, SHIFT_TOP, put};
use rwsp_model::Problem;
use rwsp_terms::Symbol;
use rwsp_terms::limits::{MOST_DAYS, MOST_SHIFTS};
use rwsp_text::put_number;
use std::alloc::AllocError;

/// Appends the name of a symbol.
#[tactic(auto, unfolding(crate::specs::PageText::name_text))]
pub fn put_name(out: &mut Vec<u8>, problem: &Problem, symbol: Symbol) -> Result<(), AllocError>
    requires { IsSymbol problem.now symbol }
    ensures { OnOk result (out.new.items ≡ out.old.items ++ name_text problem.now symbol) }
{
    put_escaped(out, problem.name(symbol))
}

// Appends the head of a day, where days count from 0.
#[tactic(auto, unfolding(crate::specs::PageText::day_head))]
fn put_day_head(out: &mut Vec<u8>, day: u32) -> Result<(), AllocError>
    requires { day < MOST_DAYS }
    ensures { OnOk result (out.new.items ≡ out.old.items ++ day_head day) }
{
    put(out, DAY_HEAD)?;
    put_number(out, u64::from(day + 1))?;
    put(out, HEAD_END)
}

/// Appends a head for each day.
#[tactic(auto, unfolding(crate::specs::PageText::day_heads))]
pub fn put_day_heads(out: &mut Vec<u8>, problem: &Problem) -> Result<(), AllocError>
    ensures { OnOk result (out.new.items ≡ out.old.items ++ day_heads problem.now) }
{
    for day in 0..problem.days() {
        put_day_head(out, day)?;
    }
    Ok(())
}

/// The shift at a place, counted from 0.
pub fn shift_at(place: u8) -> Symbol
    requires { place < MOST_SHIFTS }
    ensures { result ≡ shift_at place }
{
    Symbol { number: place + 1 }
}

/// Appends the front of a row that a shift heads, where shifts count from 0.
#[tactic(auto, unfolding(crate::specs::PageText::shift_head))]
pub fn put_shift_head(out: &mut Vec<u8>, problem: &Problem, place: u8) -> Result<(), AllocError>
    requires { place < shift_count problem.now }
    ensures { OnOk result (out.new.items ≡ out.old.items ++ shift_head problem.now place) }
{
    problem.prove_limits();
    put(out, SHIFT_TOP)?;
    put_number(out, u64::from(place + 1))?;
    put(out, CLASS_END)?;
    put_name(out, problem, shift_at(place))?;
    put(out, HEAD_END)
}
