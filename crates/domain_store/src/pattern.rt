// What the windows that break a rule have in common. This is the one place that tells the kinds of rules on windows
// apart.
ghost use Rattle.std.specs.Prelude.{◌≡◌, ℕ, ◌<◌, ◌≤◌, List, length, MatchOption, Option};
ghost use Rattle.rwsp_terms.specs.Instance.{bounds, IsClass};
ghost use Rattle.rwsp_terms.specs.Roster.{IsRule};
ghost use Rattle.rwsp_terms.specs.Window.{Bad, IsSequence, TooLong, TooShort};
ghost use Rattle.rwsp_terms.specs.declared.data.Rule.TheVariants.{Never};
ghost use Rattle.rwsp_terms.specs.declared.data.Symbol.{Symbol};
ghost use Rattle.rwsp_terms.specs.declared.limits.TheConstants.{GREATEST_BOUND};
ghost use Rattle.domain_store.specs.Patterns.{IsPatternOf, days_of, last_side};

use rwsp_model::Problem;
use rwsp_terms::{Class, Rule, Sequence, Symbol};

/// On which side of a class a day is.
#[derive(Clone, Copy)]
pub enum Side {
    In(Class),
    Outside(Class),
}

/// A first day, then days of one class, from the fewest to the most, then a last day where the pattern has one.
#[derive(Clone, Copy)]
pub struct Pattern {
    pub first: Side,
    pub inner: Class,
    pub fewest: u32,
    pub most: u32,
    pub last: Option<Side>,
    /// The day of the week on which it begins, counted from 1; None where that may be any.
    pub day: Option<u32>,
    /// The days of a week.
    pub week: u32,
}

/// What is common to all windows that break the rule. No window breaks the rule of a day.
pub fn pattern_of(problem: &Problem, rule: Rule) -> Option<Pattern>
    requires { IsRule problem.now rule }
    ensures { MatchOption result
        ((p : ℕ) (u : List Symbol) → Bad problem.now rule p u → ⊥)
        (IsPatternOf (Bad problem.now rule)) }
{
    match rule {
        Rule::Most(class) => Some(over_greatest(problem, class)),
        Rule::Least(class) => Some(under_least(problem, class)),
        Rule::Never(place) => Some(forbidden(problem, place)),
        Rule::Day(_) => None,
    }
}

fn over_greatest(problem: &Problem, class: Class) -> Pattern
    requires { IsClass problem.now class }
    ensures { IsPatternOf (λ p. TooLong class (bounds problem.now class).greatest) result }
{
    longer_than(class, problem.bounds(class).greatest, problem.days())
}

fn under_least(problem: &Problem, class: Class) -> Pattern
    requires { IsClass problem.now class }
    ensures { IsPatternOf (λ p. TooShort class (bounds problem.now class).least) result }
{
    shorter_than(class, problem.bounds(class).least, problem.days())
}

// Sequences count from 0.
fn forbidden(problem: &Problem, place: u32) -> Pattern
    requires { place < length problem.now.sequences }
    ensures { IsPatternOf (Bad problem.now (Never place)) result }
{
    symbols_in_a_row(problem.sequence(place), problem.days())
}

// One day more than the greatest length, all in the class.
fn longer_than(class: Class, greatest: u32, week: u32) -> Pattern
    requires few { greatest ≤ GREATEST_BOUND }
    requires week { 0 < week }
    ensures { IsPatternOf (λ p. TooLong class greatest) result }
{
    Pattern {
        first: Side::In(class),
        inner: class,
        fewest: greatest,
        most: greatest,
        last: None,
        day: None,
        week,
    }
}

// A block with fewer days than the least length, between two days outside the class.
fn shorter_than(class: Class, least: u32, week: u32) -> Pattern
    requires few { least ≤ GREATEST_BOUND }
    requires week { 0 < week }
    ensures { IsPatternOf (λ p. TooShort class least) result }
{
    Pattern {
        first: Side::Outside(class),
        inner: class,
        fewest: 1,
        most: least.saturating_sub(1),
        last: Some(Side::Outside(class)),
        day: None,
        week,
    }
}

// The symbols of the sequence, on its day of the week.
fn symbols_in_a_row(sequence: Sequence, week: u32) -> Pattern
    requires { 0 < week }
    ensures { IsPatternOf (IsSequence week sequence) result }
{
    Pattern {
        first: Side::In(Class::Shift(sequence.first)),
        inner: Class::Shift(sequence.second),
        fewest: 1,
        most: 1,
        last: last_side(sequence.third),
        day: sequence.day,
        week,
    }
}

// The last day of a sequence, where it has three.
fn last_side(third: Option<Symbol>) -> Option<Side>
    ensures { result ≡ last_side third }
{
    match third {
        Some(symbol) => Some(Side::In(Class::Shift(symbol))),
        None => None,
    }
}

impl Pattern {
    /// How many days a window has behind the first day and the inner ones.
    pub fn days_behind(self) -> u32
        ensures value { result ≡ days_of self.last }
        ensures few { result ≤ 1 }
    {
        match self.last {
            Some(_) => 1,
            None => 0,
        }
    }
}
