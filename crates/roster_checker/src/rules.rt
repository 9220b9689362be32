// Where a rule is broken first.
ghost use Rattle.std.specs.Prelude.{◌-◌, length, MatchOption};
ghost use Rattle.rwsp_terms.specs.Instance.{IsDay};
ghost use Rattle.rwsp_terms.specs.Window.{Bad};
ghost use Rattle.rwsp_terms.specs.Roster.{HasNoWindow, IsRoster, IsRule, MeetsDay, MeetsRule};
ghost use Rattle.rwsp_terms.specs.declared.data.Rule.TheVariants.{Day};
ghost use Rattle.roster_checker.specs.FirstBroken.{IsFirstWindow};
ghost use Rattle.roster_checker.specs.Places.{IsFirstPlace};

use crate::days::day_is_met;
use crate::place::Place;
use domain_store::first_bad_window;
use rwsp_model::{Problem, Roster};
use rwsp_terms::Rule;

// The first window that breaks the rule.
fn first_window(problem: &Problem, roster: &Roster, rule: Rule) -> Option<Place>
    requires roster { IsRoster problem.now roster.now.cells }
    requires rule { IsRule problem.now rule }
    ensures { MatchOption result
        (HasNoWindow (Bad problem.now rule) roster.now.cells)
        (λ w. IsFirstWindow (Bad problem.now rule) roster.now.cells w.position w.length) }
{
    problem.prove_limits();
    match first_bad_window(roster, problem, rule, problem.cells()) {
        Some(window) => Some(Place {
            position: window.start,
            length: window.length,
        }),
        None => None,
    }
}

// The day in the first week, where its demand is not met.
fn failed_day(problem: &Problem, roster: &Roster, day: u32) -> Option<Place>
    requires roster { IsRoster problem.now roster.now.cells }
    requires day { IsDay problem.now day }
    ensures { MatchOption result
        (MeetsDay problem.now day roster.now.cells)
        (λ w. IsFirstPlace problem.now (Day day) roster.now.cells w.position w.length) }
{
    if day_is_met(problem, roster.cells(), day) {
        None
    } else {
        Some(Place {
            position: day - 1,
            length: 0,
        })
    }
}

/// Where the roster breaks the rule first. For a rule of a day that is the day in the first week, without a length.
pub fn first_place(problem: &Problem, roster: &Roster, rule: Rule) -> Option<Place>
    requires roster { IsRoster problem.now roster.now.cells }
    requires rule { IsRule problem.now rule }
    ensures { MatchOption result
        (MeetsRule problem.now rule roster.now.cells)
        (λ w. IsFirstPlace problem.now rule roster.now.cells w.position w.length) }
{
    match rule {
        Rule::Day(day) => failed_day(problem, roster, day),
        _ => first_window(problem, roster, rule),
    }
}
