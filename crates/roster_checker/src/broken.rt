// The first rule that a roster breaks.
ghost use Rattle.std.specs.Prelude.{◌≡◌, ◌+◌, ◌-◌, ◌<◌, ◌≤◌, length, MatchOption, Some};
ghost use Rattle.rwsp_terms.specs.Roster.{IsRoster, MeetsAll};
ghost use Rattle.rwsp_terms.specs.Rules.{rules};
ghost use Rattle.rwsp_terms.specs.declared.limits.TheConstants.{MOST_CELLS};
ghost use Rattle.roster_checker.specs.FirstBroken.{IsFirstBroken, MeetsBelow};
ghost use Rattle.roster_checker.specs.Places.{IsBrokenAt};

use crate::place::Place;
use crate::rules::first_place;
use rwsp_model::{Problem, Roster, rule_at, rule_count};

/// The first rule that a roster breaks, by its number, and where: the week and the day on which the first bad window
/// begins, both counted from 1, and how many days it has. For a rule of a day, week is 1, day is that day and length
/// is 0.
#[derive(Clone, Copy, PartialEq, Eq)]
pub struct Broken {
    pub rule: u32,
    pub week: u32,
    pub day: u32,
    pub length: u32,
}

// The answer for the rule and the place where it is broken first.
fn broken_at(problem: &Problem, rule: u32, place: Place) -> Broken
    requires { place.position < MOST_CELLS }
    ensures rule { result.rule ≡ rule }
    ensures place { IsBrokenAt problem.now result place.position place.length }
{
    let days = problem.days();
    Broken {
        rule,
        week: place.position / days + 1,
        day: place.position % days + 1,
        length: place.length,
    }
}

// Where the rule of the number is broken first, if all rules with lower numbers are met.
fn breach(problem: &Problem, roster: &Roster, number: u32) -> Option<Broken>
    requires roster { IsRoster problem.now roster.now.cells }
    requires number { (0 < number) × (number ≤ length (rules problem.now)) }
    requires lower { MeetsBelow problem.now roster.now.cells number }
    ensures { MatchOption result
        (MeetsBelow problem.now roster.now.cells (number + 1))
        (IsFirstBroken problem.now roster.now.cells) }
{
    problem.prove_limits();
    match first_place(problem, roster, rule_at(problem, number)) {
        None => None,
        Some(place) => Some(broken_at(problem, number, place)),
    }
}

/// The first rule that the roster breaks, and where it does so first; `None` where the roster meets every rule.
/// It scans the cells twice at most for each rule and takes no memory.
pub fn first_broken(problem: &Problem, roster: &Roster) -> Option<Broken>
    requires { IsRoster problem.now roster.now.cells }
    ensures { MatchOption result (MeetsAll problem.now roster.now.cells) (IsFirstBroken problem.now roster.now.cells) }
{
    for number in 1..rule_count(problem) + 1 {
        if let Some(broken) = breach(problem, roster, number) {
            return Some(broken);
        }
    }
    None
}
