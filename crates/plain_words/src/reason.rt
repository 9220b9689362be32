// Words of what a refutation says.
#![tactic(auto, unfolding(crate::specs::Statements::next_number, crate::specs::Statements::given_words, crate::specs::Statements::cells_words))]

ghost use Rattle.std.specs.Prelude.{◌≡◌, ◌++◌, All, OnOk};
ghost use Rattle.std.specs.List.{flat_map};
ghost use Rattle.refutation_log.specs.Printing.{IsCellOf};
ghost use Rattle.plain_words.specs.Statements.{rules_text, and_text, next_number, given_words, cells_words};

use crate::filled::put_filled;
use crate::part::Part::{Held, Number, Of};
use crate::pieces::{
    ALONE, AND_RULE, AND_RULES, APART, BLANK, CELL, Done, TOGETHER, WHATEVER, WHATEVER_RULES, put,
};
use refutation_terms::GivenCell;
use rwsp_model::Problem;
use rwsp_text::put_number;

/// Which rosters something is said of.
#[derive(Clone, Copy)]
pub enum Rosters {
    /// All of the problem.
    Every,
    /// Those with this number of free weekends, or more.
    Free(u32),
    /// Those of this number of weeks.
    Weeks(u32),
    /// Those that hold given cells.
    Given,
}

/// This text before rules, or that it is whatever the rules where there are none.
pub fn rules_text(some: &'static [u8], rules: &[u32]) -> &'static [u8]
    ensures { result.now ≡ rules_text some.now rules.now }
{
    match rules {
        [] => WHATEVER,
        _ => some,
    }
}

// What is said before them behind cells.
fn and_text(rules: &[u32]) -> &'static [u8]
    ensures { result.now ≡ and_text rules.now }
{
    match rules {
        [] => WHATEVER_RULES,
        [_] => AND_RULE,
        _ => AND_RULES,
    }
}

/// Appends each number behind a blank.
pub fn put_numbers(out: &mut Vec<u8>, rules: &[u32]) -> Done
    ensures { OnOk result (out.new.items ≡ out.old.items ++ flat_map next_number rules.now) }
{
    for rule in rules {
        put(out, BLANK)?;
        put_number(out, u64::from(*rule))?;
    }
    Ok(())
}

// Appends a cell before others or before the rules: its week, its day and what it holds.
fn put_given(out: &mut Vec<u8>, problem: &Problem, cell: GivenCell) -> Done
    requires { IsCellOf problem.now cell }
    ensures { OnOk result (out.new.items ≡ out.old.items ++ given_words problem.now cell) }
{
    problem.prove_limits();
    let week = cell.p / problem.days() + 1;
    let day = cell.p % problem.days() + 1;
    let parts = [Number(week), Number(day), Held(cell.x)];
    put_filled(out, problem, CELL, &parts)
}

// Appends the cells.
fn put_all_given(out: &mut Vec<u8>, problem: &Problem, given: &[GivenCell]) -> Done
    requires { All (IsCellOf problem.now) given.now }
    ensures { OnOk result (out.new.items ≡ out.old.items ++ flat_map (given_words problem.now) given.now) }
{
    for cell in given {
        put_given(out, problem, *cell)?;
    }
    Ok(())
}

/// Appends that these cells and these rules can't stand together, or that the rules alone leave no roster.
pub fn put_cells(out: &mut Vec<u8>, problem: &Problem, given: &[GivenCell], rules: &[u32]) -> Done
    requires { All (IsCellOf problem.now) given.now }
    ensures { OnOk result (out.new.items ≡ out.old.items ++ cells_words problem.now given.now rules.now) }
{
    if given.is_empty() {
        put(out, ALONE)?;
        put_filled(
            out,
            problem,
            rules_text(TOGETHER, rules),
            &[Of(Rosters::Every)],
        )
    } else {
        put(out, APART)?;
        put_all_given(out, problem, given)?;
        put(out, and_text(rules))?;
        put_numbers(out, rules)
    }
}
