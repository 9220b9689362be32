// The text of the ways out.
ghost use Rattle.std.specs.Prelude.{◌≡◌, ◌∷◌, ◌++◌, ◌+◌, [], IfOk, OnOk, count_by, codes};
ghost use Rattle.std.specs.List.{AllZip, list_any};
ghost use Rattle.rwsp_terms.specs.Roster.{IsRoster, IsRule};
ghost use Rattle.rwsp_model.specs.RuleNumbers.{place_of};
ghost use Rattle.roster_print.specs.RosterText.{roster_text};
ghost use Rattle.ways_out.specs.Loosened.{IsChange, IsStep};
ghost use Rattle.ways_out.specs.Changes.{changes};
ghost use Rattle.ways_out.specs.Answers.{AreWaysOf, HasSteps};
ghost use Rattle.ways_out.specs.Texts.{number_change, range_text, demand_change, change_text, rule_label, way_end, way_line, outcome_text, outcomes_text, others_line, is_open, is_way, ways_text, outcomes_status, ways_status};

use crate::answer::WaysOut;
use crate::change::{Change, Outcome};
use crate::listed::{changed_rule, changes_in};
use refutation_log::print_log;
use roster_print::{print_roster, put_rule};
use rwsp_model::{Problem, Roster, number_of};
use rwsp_terms::{Bounds, Rule};
use rwsp_text::put_number;
use std::alloc::{AllocError, Global};

// Appends from which number to which.
fn put_number_change(out: &mut Vec<u8>, from: u32, to: u32) -> Result<(), AllocError>
    ensures { OnOk result (out.new.items ≡ out.old.items ++ number_change from to) }
{
    out.extend_from_slice(b": ")?;
    put_number(out, u64::from(from))?;
    out.extend_from_slice(b" to ")?;
    put_number(out, u64::from(to))
}

// Appends a demand.
fn put_range(out: &mut Vec<u8>, range: Bounds) -> Result<(), AllocError>
    ensures { OnOk result (out.new.items ≡ out.old.items ++ range_text range) }
{
    put_number(out, u64::from(range.least))?;
    if range.least != range.greatest {
        out.extend_from_slice(b"..")?;
        put_number(out, u64::from(range.greatest))?;
    }
    Ok(())
}

// Appends from which demand of a shift to which.
fn put_demand_change(
    out: &mut Vec<u8>,
    name: &[u8],
    from: Bounds,
    to: Bounds,
) -> Result<(), AllocError>
    ensures { OnOk result (out.new.items ≡ out.old.items ++ demand_change name.now from to) }
{
    out.extend_from_slice(b" ")?;
    out.extend_from_slice(name)?;
    out.extend_from_slice(b": ")?;
    put_range(out, from)?;
    out.extend_from_slice(b" to ")?;
    put_range(out, to)
}

// Appends what is changed by so many steps.
fn put_change(
    out: &mut Vec<u8>,
    problem: &Problem,
    change: Change,
    steps: u32,
) -> Result<(), AllocError>
    requires change { IsChange problem.now change }
    requires step { IsStep problem.now change steps }
    ensures { OnOk result (out.new.items ≡ out.old.items ++ change_text problem.now change steps) }
{
    problem.prove_limits();
    match change {
        Change::LongerBlocks(class) => {
            let greatest = problem.bounds(class).greatest;
            put_number_change(out, greatest, greatest + steps)
        }
        Change::ShorterBlocks(class) => {
            let least = problem.bounds(class).least;
            put_number_change(out, least, least - steps)
        }
        Change::LowerDemand { day, shift } => {
            let from = problem.demand(shift, day);
            let to = Bounds {
                least: from.least - steps,
                greatest: from.greatest,
            };
            put_demand_change(out, problem.name(shift), from, to)
        }
        Change::HigherDemand { day, shift } => {
            let from = problem.demand(shift, day);
            let to = Bounds {
                least: from.least,
                greatest: from.greatest + steps,
            };
            put_demand_change(out, problem.name(shift), from, to)
        }
        Change::Dropped(_) => out.extend_from_slice(b": dropped"),
    }
}

// The number of a rule, from 1 on.
fn rule_number(problem: &Problem, rule: Rule) -> u32
    requires { IsRule problem.now rule }
    ensures { result ≡ place_of problem.now rule + 1 }
{
    number_of(problem, rule)
}

// Appends the number and the text of a rule.
fn put_rule_label(out: &mut Vec<u8>, problem: &Problem, rule: Rule) -> Result<(), AllocError>
    requires { IsRule problem.now rule }
    ensures { OnOk result (out.new.items ≡ out.old.items ++ rule_label problem.now rule) }
{
    out.extend_from_slice(b"rule ")?;
    put_number(out, u64::from(rule_number(problem, rule)))?;
    out.extend_from_slice(b" ")?;
    put_rule(out, problem, rule)
}

// Appends the end of the line of a change.
fn put_way_end(out: &mut Vec<u8>, is_nearest: bool) -> Result<(), AllocError>
    ensures { OnOk result (out.new.items ≡ out.old.items ++ way_end is_nearest) }
{
    if is_nearest {
        out.extend_from_slice(b"\n")
    } else {
        out.extend_from_slice(b" or nearer\n")
    }
}

// Appends the line of a change that helps.
fn put_way(
    out: &mut Vec<u8>,
    problem: &Problem,
    change: Change,
    steps: u32,
    is_nearest: bool,
) -> Result<(), AllocError>
    requires change { IsChange problem.now change }
    requires step { IsStep problem.now change steps }
    ensures { OnOk result (out.new.items ≡ out.old.items ++ way_line problem.now change steps is_nearest) }
{
    put_rule_label(out, problem, changed_rule(change))?;
    put_change(out, problem, change, steps)?;
    put_way_end(out, is_nearest)
}

// Appends the line of a change, if it helps.
fn put_outcome(
    out: &mut Vec<u8>,
    problem: &Problem,
    change: Change,
    outcome: Outcome,
) -> Result<(), AllocError>
    requires change { IsChange problem.now change }
    requires steps { HasSteps problem.now change outcome }
    ensures { OnOk result (out.new.items ≡ out.old.items ++ outcome_text problem.now change outcome) }
{
    match outcome {
        Outcome::Helps { steps, is_nearest } => put_way(out, problem, change, steps, is_nearest),
        Outcome::Shut | Outcome::Open => Ok(()),
    }
}

// Whether the change was left open.
fn is_open(outcome: &Outcome) -> bool
    ensures { result ≡ is_open outcome.now }
{
    matches!(outcome, Outcome::Open)
}

// How many changes without a line were left open.
fn count_open(outcomes: &[Outcome]) -> usize
    ensures { result ≡ count_by is_open outcomes.now }
{
    outcomes.iter().filter(|outcome| is_open(outcome)).count()
}

// Appends the last line.
fn put_others(out: &mut Vec<u8>, count: usize) -> Result<(), AllocError>
    ensures { OnOk result (out.new.items ≡ out.old.items ++ others_line count) }
{
    if count == 0 {
        out.extend_from_slice(b"no other\n")
    } else {
        out.extend_from_slice(b"open ")?;
        put_number(out, count as u64)?;
        out.extend_from_slice(b"\n")
    }
}

// The lines of the changes that help, and the last line.
fn outcomes_text(
    alloc: Global,
    problem: &Problem,
    outcomes: &[Outcome],
) -> Result<Vec<u8>, AllocError>
    requires { AllZip (HasSteps problem.now) (changes problem.now) outcomes.now }
    ensures { IfOk result (λ text. text.items
        ≡ outcomes_text problem.now (changes problem.now) outcomes.now ++ others_line (count_by is_open outcomes.now)) }
{
    let changes = changes_in(alloc, problem)?;
    let mut out = Vec::new(alloc);
    for (place, outcome) in outcomes.iter().enumerate() {
        put_outcome(&mut out, problem, changes[place], *outcome)?;
    }
    put_others(&mut out, count_open(outcomes))?;
    Ok(out)
}

// The line that says that nothing has to be changed, and a roster.
fn no_need_text(alloc: Global, problem: &Problem, roster: &Roster) -> Result<Vec<u8>, AllocError>
    requires roster { IsRoster problem.now roster.now.cells }
    requires days { roster.now.days ≡ problem.now.days }
    ensures { IfOk result (λ text. text.items
        ≡ codes "no change is needed" ++ 10 ∷ [] ++ roster_text problem.now roster.now.cells) }
{
    let mut out = Vec::from_slice(alloc, b"no change is needed\n")?;
    let text = print_roster(alloc, problem, roster)?;
    out.extend_from_slice(&text)?;
    Ok(out)
}

/// The text of the ways out: a line for each change that helps, and a last one of all others; or a roster behind a line
/// that says that nothing has to be changed; or the log that has spent its budget.
pub fn print_ways(alloc: Global, problem: &Problem, ways: &WaysOut) -> Result<Vec<u8>, AllocError>
    requires { AreWaysOf problem.now ways.now }
    ensures { IfOk result (λ text. text.items ≡ ways_text problem.now ways.now) }
{
    match ways {
        WaysOut::NoNeed(roster) => no_need_text(alloc, problem, roster),
        WaysOut::Undecided(log) => print_log(alloc, problem, log),
        WaysOut::Changes(outcomes) => outcomes_text(alloc, problem, outcomes),
    }
}

/// The status of an answer.
pub fn status_of_ways(ways: &WaysOut) -> u8
    ensures { result ≡ ways_status ways.now }
{
    match ways {
        WaysOut::NoNeed(_) => 0,
        WaysOut::Undecided(_) => 4,
        WaysOut::Changes(outcomes) => status_of_outcomes(outcomes),
    }
}

// Whether a change helps.
fn is_way(outcome: &Outcome) -> bool
    ensures { result ≡ is_way outcome.now }
{
    matches!(outcome, Outcome::Helps { .. })
}

fn has_way(outcomes: &[Outcome]) -> bool
    ensures { result ≡ list_any is_way outcomes.now }
{
    outcomes.iter().any(|outcome| is_way(outcome))
}

fn status_of_outcomes(outcomes: &[Outcome]) -> u8
    ensures { result ≡ outcomes_status outcomes.now }
{
    if has_way(outcomes) {
        0
    } else if count_open(outcomes) == 0 {
        1
    } else {
        4
    }
}
