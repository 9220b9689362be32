// The page.
ghost use Rattle.std.specs.Prelude.{◌≡◌, ◌++◌, IfOk, OnOk};
ghost use Rattle.rwsp_terms.specs.Roster.{IsRoster};
ghost use Rattle.roster_page.specs.PageText.{style_text, page_head, page_rest, page_text, IsPage};

use crate::demand::put_demand_table;
use crate::least_rest::least_rest;
use crate::legend::put_legend;
use crate::pieces::{
    AFTER_STYLE, AFTER_TITLE, END, HEAD, STYLE_IN_THE_DARK, STYLE_OF_COLOURS, STYLE_OF_TABLES,
    STYLE_OF_TEXT, STYLE_ON_PAPER, put,
};
use crate::rules::put_rules;
use crate::short::put_short;
use crate::table::put_roster_table;
use plain_words::put_weeks;
use rwsp_model::{Problem, Roster};
use std::alloc::{AllocError, Global};

#[tactic(auto, unfolding(crate::specs::PageText::style_text))]
fn put_style(out: &mut Vec<u8>) -> Result<(), AllocError>
    ensures { OnOk result (out.new.items ≡ out.old.items ++ style_text) }
{
    put(out, STYLE_OF_TEXT)?;
    put(out, STYLE_OF_TABLES)?;
    put(out, STYLE_OF_COLOURS)?;
    put(out, STYLE_IN_THE_DARK)?;
    put(out, STYLE_ON_PAPER)
}

// Appends what is in front of the table.
#[tactic(auto, unfolding(crate::specs::PageText::page_head))]
fn put_head(out: &mut Vec<u8>, problem: &Problem) -> Result<(), AllocError>
    ensures { OnOk result (out.new.items ≡ out.old.items ++ page_head problem.now) }
{
    put(out, HEAD)?;
    put_weeks(out, problem.weeks())?;
    put(out, AFTER_TITLE)?;
    put_style(out)?;
    put(out, AFTER_STYLE)?;
    put_weeks(out, problem.weeks())
}

// Appends what is behind the table.
#[tactic(auto, unfolding(crate::specs::PageText::page_rest))]
fn put_page_rest(
    out: &mut Vec<u8>,
    problem: &Problem,
    roster: &Roster,
    rest: Option<u32>,
) -> Result<(), AllocError>
    requires { IsRoster problem.now roster.now.cells }
    ensures { OnOk result (out.new.items ≡ out.old.items ++ page_rest problem.now roster.now.cells rest) }
{
    put_short(out, problem, roster, rest)?;
    put_legend(out, problem)?;
    put_demand_table(out, problem, roster.cells())?;
    put_rules(out, problem)?;
    put(out, END)
}

/// The page of a roster, in HTML: one file, with nothing from elsewhere. The cost grows with the cells times the
/// shifts.
#[tactic(auto, unfolding(crate::specs::PageText::page_text))]
pub fn page_text(alloc: Global, problem: &Problem, roster: &Roster) -> Result<Vec<u8>, AllocError>
    requires { IsRoster problem.now roster.now.cells }
    ensures { IfOk result (λ page. IsPage problem.now roster.now.cells page.items) }
{
    let rest = least_rest(problem, roster.cells());
    let mut out = Vec::new(alloc);
    put_head(&mut out, problem)?;
    put_roster_table(&mut out, problem, roster.cells())?;
    put_page_rest(&mut out, problem, roster, rest)?;
    Ok(out)
}
