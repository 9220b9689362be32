// All changes of a problem, and the rules that they change.
ghost use Rattle.std.specs.Prelude.{◌≡◌, ◌++◌, IfOk, OnOk, All, flat_map};
ghost use Rattle.std.specs.List.{range_with_len};
ghost use Rattle.rwsp_terms.specs.Instance.{shift_count};
ghost use Rattle.ways_out.specs.Changes.{changes, changes_of, demand_changes};
ghost use Rattle.ways_out.specs.Loosened.{changed_rule, IsChange};

use crate::change::Change;
use rwsp_model::{Problem, rule_at, rule_count};
use rwsp_terms::{Rule, Symbol};
use std::alloc::{AllocError, Global};

// Appends the changes of a day, by shift.
fn put_changes_of_day(out: &mut Vec<Change>, problem: &Problem, day: u32) -> Result<(), AllocError>
    ensures { OnOk result (out.new.items
        ≡ out.old.items ++ flat_map (demand_changes day) (range_with_len 1 (shift_count problem.now))) }
{
    for place in 0..problem.shifts() {
        let shift = Symbol { number: place + 1 };
        out.push(Change::LowerDemand { day, shift })?;
        out.push(Change::HigherDemand { day, shift })?;
    }
    Ok(())
}

// Appends the changes of a rule.
fn put_changes_of(out: &mut Vec<Change>, problem: &Problem, rule: Rule) -> Result<(), AllocError>
    ensures { OnOk result (out.new.items ≡ out.old.items ++ changes_of problem.now rule) }
{
    match rule {
        Rule::Most(class) => out.push(Change::LongerBlocks(class))?,
        Rule::Least(class) => out.push(Change::ShorterBlocks(class))?,
        Rule::Never(place) => out.push(Change::Dropped(place))?,
        Rule::Day(day) => put_changes_of_day(out, problem, day)?,
    }
    Ok(())
}

/// All changes of the problem, by the numbers of their rules. There are two for each shift and day at most, and one for
/// each other rule.
pub fn changes_in(alloc: Global, problem: &Problem) -> Result<Vec<Change>, AllocError>
    ensures value { IfOk result (λ all. all.items ≡ changes problem.now) }
    ensures known { IfOk result (λ all. All (IsChange problem.now) all.items) }
{
    let mut all = Vec::new(alloc);
    for place in 0..rule_count(problem) {
        put_changes_of(&mut all, problem, rule_at(problem, place + 1))?;
    }
    Ok(all)
}

/// The rule that a change loosens.
pub fn changed_rule(change: Change) -> Rule
    ensures { result ≡ changed_rule change }
{
    match change {
        Change::LongerBlocks(class) => Rule::Most(class),
        Change::ShorterBlocks(class) => Rule::Least(class),
        Change::LowerDemand { day, .. } | Change::HigherDemand { day, .. } => Rule::Day(day),
        Change::Dropped(place) => Rule::Never(place),
    }
}
