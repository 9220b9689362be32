// What is to be known in short.
ghost use Rattle.std.specs.Prelude.{◌≡◌, ◌++◌, OnOk};
ghost use Rattle.rwsp_terms.specs.Roster.{IsRoster};
ghost use Rattle.roster_page.specs.PageText.{rest_text, weekends_item, short_text};

use crate::clock::put_hours;
use crate::pieces::{LEAST_REST_ITEM, NO_SHIFT, OF_WORD, SHORT_END, SHORT_TOP, WEEKENDS_ITEM, put};
use crate::table::minutes_in;
use roster_checker::free_weekends;
use rwsp_model::{Problem, Roster};
use rwsp_terms::limits::DAYS_OF_WEEK;
use rwsp_text::put_number;
use std::alloc::AllocError;

#[tactic(auto, unfolding(crate::specs::PageText::rest_text))]
fn put_rest(out: &mut Vec<u8>, rest: Option<u32>) -> Result<(), AllocError>
    ensures { OnOk result (out.new.items ≡ out.old.items ++ rest_text rest) }
{
    match rest {
        None => put(out, NO_SHIFT),
        Some(minutes) => put_hours(out, minutes),
    }
}

// Appends the free weekends, where the week has seven days.
#[tactic(auto, unfolding(crate::specs::PageText::weekends_item))]
fn put_weekends(out: &mut Vec<u8>, problem: &Problem, roster: &Roster) -> Result<(), AllocError>
    requires { IsRoster problem.now roster.now.cells }
    ensures { OnOk result (out.new.items ≡ out.old.items ++ weekends_item problem.now roster.now.cells) }
{
    if problem.days() != DAYS_OF_WEEK {
        return Ok(());
    }
    put(out, WEEKENDS_ITEM)?;
    put_number(out, u64::from(free_weekends(problem, roster)))?;
    put(out, OF_WORD)?;
    put_number(out, u64::from(problem.weeks()))
}

/// Appends the mean of the hours of a week, in whole minutes, the least rest, and the free weekends.
#[tactic(auto, unfolding(crate::specs::PageText::short_text))]
pub fn put_short(
    out: &mut Vec<u8>,
    problem: &Problem,
    roster: &Roster,
    rest: Option<u32>,
) -> Result<(), AllocError>
    requires { IsRoster problem.now roster.now.cells }
    ensures { OnOk result (out.new.items ≡ out.old.items ++ short_text problem.now roster.now.cells rest) }
{
    problem.prove_limits();
    let minutes = minutes_in(problem, roster.cells());
    put(out, SHORT_TOP)?;
    put_hours(out, minutes / problem.weeks())?;
    put(out, LEAST_REST_ITEM)?;
    put_rest(out, rest)?;
    put_weekends(out, problem, roster)?;
    put(out, SHORT_END)
}
