// What is told of the changes of a problem without a roster.
ghost use Rattle.std.specs.Prelude.{◌≡◌, ◌++◌, ◌∷◌, [], length, OnOk, count_by};
ghost use Rattle.std.specs.List.{AllZip, flat_map, list_any, range_with_len};
ghost use Rattle.rwsp_terms.specs.Instance.{IsDay, IsShift, shift_demand};
ghost use Rattle.ways_out.specs.Answers.{HasSteps};
ghost use Rattle.ways_out.specs.Changes.{changes};
ghost use Rattle.ways_out.specs.Loosened.{IsChange, IsStep};
ghost use Rattle.ways_out.specs.Texts.{is_open, is_way};
ghost use Rattle.plain_words.specs.Statements.{told_lines};
ghost use Rattle.plain_words.specs.Told.{of_length, widened, changed, way_statement, way_in, other_ways, ways_statements};

use crate::part::Part::{BlockOf, Days, Left, Name, Nearest, Number, Range, Rule};
use crate::pieces::{
    DROPPED, Done, LONGER, NO_CHANGE, NO_OTHER_CHANGE, SHORTER, WAYS_FRONT, WIDENED,
};
use crate::rule_words::rule_number;
use crate::statement::{put_if, put_told, told_by};
use rwsp_model::Problem;
use rwsp_terms::{Bounds, Class, Symbol};
use ways_out::{Change, Outcome, changed_rule, changes_in};

// A change that helps: by so many steps, and whether fewer don't.
#[derive(Clone, Copy)]
struct Way {
    rule: u32,
    steps: u32,
    is_nearest: bool,
}

// Tells of a change of the greatest or the least block of a class.
fn put_length(
    out: &mut Vec<u8>,
    problem: &Problem,
    text: &[u8],
    class: Class,
    ends: (u32, u32),
    way: Way,
) -> Done
    ensures { OnOk result (out.new.items ≡ out.old.items
        ++ told_lines problem.now (of_length text.now way.rule class ends.0 ends.1 way.is_nearest ∷ [])) }
{
    let parts = [
        Number(way.rule),
        BlockOf(class),
        Number(ends.0),
        Days(ends.1),
        Nearest(way.is_nearest),
    ];
    put_told(out, problem, text, &parts)
}

// Tells of a change of the demand of a shift on a day.
fn put_widened(
    out: &mut Vec<u8>,
    problem: &Problem,
    day: u32,
    shift: Symbol,
    to: Bounds,
    way: Way,
) -> Done
    requires day { IsDay problem.now day }
    requires shift { IsShift problem.now shift }
    ensures { OnOk result (out.new.items ≡ out.old.items ++ told_lines problem.now
        (widened way.rule day shift.number (shift_demand problem.now shift.number day) to way.is_nearest ∷ [])) }
{
    let parts = [
        Number(way.rule),
        Number(day),
        Range(to),
        Name(u32::from(shift.number)),
        Range(problem.demand(shift, day)),
        Nearest(way.is_nearest),
    ];
    put_told(out, problem, WIDENED, &parts)
}

// Tells what a change makes of a number, or that it drops a sequence.
fn put_change(out: &mut Vec<u8>, problem: &Problem, change: Change, way: Way) -> Done
    requires change { IsChange problem.now change }
    requires step { IsStep problem.now change way.steps }
    ensures { OnOk result (out.new.items ≡ out.old.items
        ++ told_lines problem.now (changed problem.now way.rule change way.steps way.is_nearest ∷ [])) }
{
    problem.prove_limits();
    match change {
        Change::LongerBlocks(class) => {
            let from = problem.bounds(class).greatest;
            put_length(out, problem, LONGER, class, (from, from + way.steps), way)
        }
        Change::ShorterBlocks(class) => {
            let from = problem.bounds(class).least;
            put_length(out, problem, SHORTER, class, (from, from - way.steps), way)
        }
        Change::LowerDemand { day, shift } => {
            let mut to = problem.demand(shift, day);
            to.least -= way.steps;
            put_widened(out, problem, day, shift, to, way)
        }
        Change::HigherDemand { day, shift } => {
            let mut to = problem.demand(shift, day);
            to.greatest += way.steps;
            put_widened(out, problem, day, shift, to, way)
        }
        Change::Dropped(_) => {
            let nearest = Nearest(way.is_nearest);
            let parts = [Number(way.rule), Rule(way.rule), nearest];
            put_told(out, problem, DROPPED, &parts)
        }
    }
}

// Tells of a change, if it helps.
fn put_outcome_told(out: &mut Vec<u8>, problem: &Problem, change: Change, outcome: Outcome) -> Done
    requires change { IsChange problem.now change }
    requires steps { HasSteps problem.now change outcome }
    ensures { OnOk result (out.new.items
        ≡ out.old.items ++ told_lines problem.now (way_statement problem.now change outcome)) }
{
    match outcome {
        Outcome::Helps { steps, is_nearest } => {
            let rule = rule_number(problem, changed_rule(change));
            let way = Way {
                rule,
                steps,
                is_nearest,
            };
            put_change(out, problem, change, way)
        }
        Outcome::Shut | Outcome::Open => Ok(()),
    }
}

// Tells of each change that helps.
fn put_outcomes_told(out: &mut Vec<u8>, problem: &Problem, outcomes: &[Outcome]) -> Done
    requires { AllZip (HasSteps problem.now) (changes problem.now) outcomes.now }
    ensures { OnOk result (out.new.items ≡ out.old.items
        ++ told_lines problem.now (flat_map (way_in problem.now outcomes.now) (range_with_len 0 (length outcomes.now)))) }
{
    let changes = changes_in(*out.allocator(), problem)?;
    for (place, outcome) in outcomes.iter().enumerate() {
        put_outcome_told(out, problem, changes[place], *outcome)?;
    }
    Ok(())
}

// Whether a change helps.
fn has_way(outcomes: &[Outcome]) -> bool
    ensures { result ≡ list_any is_way outcomes.now }
{
    outcomes
        .iter()
        .any(|outcome| matches!(outcome, Outcome::Helps { .. }))
}

// How many changes were left open.
fn count_open(outcomes: &[Outcome]) -> usize
    ensures { result ≡ count_by is_open outcomes.now }
{
    outcomes
        .iter()
        .filter(|outcome| matches!(outcome, Outcome::Open))
        .count()
}

// Tells that no other change helps, of which so many were left open.
fn put_other_ways(out: &mut Vec<u8>, problem: &Problem, has_way: bool, left: usize) -> Done
    ensures { OnOk result (out.new.items ≡ out.old.items ++ told_lines problem.now (other_ways has_way left ∷ [])) }
{
    if !has_way && left == 0 {
        put_told(out, problem, NO_CHANGE, &[])
    } else {
        put_told(out, problem, NO_OTHER_CHANGE, &[Left(left as u64)])
    }
}

/// Tells of the changes of a problem without a roster: each that helps, and how many were left open.
#[tactic(auto, using(crate::proofs::Joined::three_of))]
pub fn put_ways_told(out: &mut Vec<u8>, problem: &Problem, outcomes: &[Outcome]) -> Done
    requires { AllZip (HasSteps problem.now) (changes problem.now) outcomes.now }
    ensures { OnOk result (out.new.items
        ≡ out.old.items ++ told_lines problem.now (ways_statements problem.now outcomes.now)) }
{
    let has_way = has_way(outcomes);
    put_if(out, &told_by(problem), has_way, WAYS_FRONT, &[])?;
    put_outcomes_told(out, problem, outcomes)?;
    put_other_ways(out, problem, has_way, count_open(outcomes))
}
