// The windows that break a rule, by where they begin.
//
// A window that begins at a position and breaks a rule has one length: a longest run of the class decides it. So a
// rule is judged at a position by going along that run once, and where there is no bad window, the run tells how many
// further positions have none either.
ghost use Rattle.std.specs.Prelude.{◌≡◌, ℕ, ◌+◌, ◌-◌, ◌*◌, ◌<◌, ◌≤◌, ◌↔◌, IsTrue, MatchOption};
ghost use Rattle.rwsp_terms.specs.Roster.{IsRule};
ghost use Rattle.rwsp_terms.specs.Window.{IsOnDay};
ghost use Rattle.rwsp_terms.specs.declared.limits.TheConstants.{GREATEST_BOUND, LONGEST_WORD, MOST_CELLS};
ghost use Rattle.domain_store.specs.Views.{LiesIn};
ghost use Rattle.domain_store.specs.Patterns.{IsJudged, Keeps, KeepsLast, IsStart, NonePlaced, IsFirstPlaced};
ghost use Rattle.domain_store.specs.BadWindows.{IsBadLength, HasNoneBefore, IsFirstBad, HasNoneOver, IsBadNear};

use crate::View;
use crate::pattern::{Pattern, Side, pattern_of};
use rwsp_model::Problem;
use rwsp_terms::{Class, Rule};

/// A window that breaks a rule: the position of its first day, counted from 0, and how many days it has.
#[derive(Clone, Copy)]
pub struct BadWindow {
    pub start: u32,
    pub length: u32,
}

/// How many days the window has that begins at the position and breaks the rule, whichever possible word is there.
/// There is one such length at most. It costs a step for each of its days.
pub fn bad_length<V: View>(view: &V, problem: &Problem, rule: Rule, p: u32) -> Option<u32>
    requires view { V.has_days view.now }
    requires rule { IsRule problem.now rule }
    requires position { p ≤ LONGEST_WORD * (MOST_CELLS + 1) }
    ensures { IsBadLength problem.now rule (V.allows view.now) p result }
{
    view.prove_some();
    let Some(pattern) = pattern_of(problem, rule) else {
        return None;
    };
    match window_from(view, pattern, p) {
        Start::Bad(length) => Some(length),
        Start::Clean(_) => None,
    }
}

/// The first window that begins before `end` and breaks the rule, whichever possible word is there. It costs two steps
/// at most for each position before `end` and each day of the window.
pub fn first_bad_window<V: View>(
    view: &V,
    problem: &Problem,
    rule: Rule,
    end: u32,
) -> Option<BadWindow>
    requires view { V.has_days view.now }
    requires rule { IsRule problem.now rule }
    requires end { end ≤ LONGEST_WORD * (MOST_CELLS + 1) }
    ensures { MatchOption result
        (HasNoneBefore problem.now rule (V.allows view.now) end)
        (IsFirstBad problem.now rule (V.allows view.now) end) }
{
    view.prove_some();
    let Some(pattern) = pattern_of(problem, rule) else {
        return None;
    };
    first_window(view, pattern, 0, end)
}

/// A window that breaks the rule, whichever possible word is there; where there is none, no such window has the
/// position in it. It goes back as far as such a window can begin, and costs a few steps for each day of the run that
/// it finds there.
pub fn bad_window_over<V: View>(
    view: &V,
    problem: &Problem,
    rule: Rule,
    p: u32,
) -> Option<BadWindow>
    requires view { V.has_days view.now }
    requires rule { IsRule problem.now rule }
    requires position { (LONGEST_WORD ≤ p) × (p < LONGEST_WORD * (MOST_CELLS + 1)) }
    ensures { MatchOption result
        (HasNoneOver problem.now rule (V.allows view.now) p)
        (IsBadNear problem.now rule (V.allows view.now) p) }
{
    view.prove_some();
    let Some(pattern) = pattern_of(problem, rule) else {
        return None;
    };
    // a window over the position has the days of the class between its first day and the position
    let run = days_before(view, pattern.inner, p, pattern.most);
    first_window(view, pattern, p - run - 1, p + 1)
}

// What a pattern says of the windows that begin at a position: that there is one, and its days; or that there is none,
// and at how many positions from there on there is none.
#[derive(Clone, Copy)]
enum Start {
    Bad(u32),
    Clean(u32),
}

// The first window of the pattern that begins at the position `from` or later, and before `end`.
fn first_window<V: View>(view: &V, pattern: Pattern, from: u32, end: u32) -> Option<BadWindow>
    requires view { V.has_days view.now }
    requires pattern { IsJudged pattern }
    requires end { end ≤ LONGEST_WORD * (MOST_CELLS + 1) }
    ensures { MatchOption result
        (NonePlaced (V.allows view.now) pattern from end)
        (IsFirstPlaced (V.allows view.now) pattern from end) }
{
    let mut start = from;
    while start < end {
        match window_from(view, pattern, start) {
            Start::Bad(length) => return Some(BadWindow { start, length }),
            Start::Clean(positions) => start += positions,
        }
    }
    None
}

// The window of the pattern that begins at the position.
fn window_from<V: View>(view: &V, pattern: Pattern, p: u32) -> Start
    requires view { V.has_days view.now }
    requires pattern { IsJudged pattern }
    requires position { p ≤ LONGEST_WORD * (MOST_CELLS + 1) }
    ensures { IsStart (V.allows view.now) pattern p result }
{
    view.prove_some();
    if !is_on_day(pattern, p) {
        return Start::Clean(1);
    }
    if !keeps(view, pattern.first, p) {
        return Start::Clean(1);
    }
    let run = days_from(view, pattern.inner, p + 1, pattern.most);
    if run < pattern.fewest {
        return Start::Clean(clean_from(run, pattern.most));
    }
    if !keeps_last(view, pattern.last, p + 1 + run) {
        return Start::Clean(clean_from(run, pattern.most));
    }
    Start::Bad(1 + run + pattern.days_behind())
}

// How many positions have no window where the first has none and a run of this many days of the class follows it. Where
// these are all that were counted, more may follow, and the next position is looked at by itself.
fn clean_from(run: u32, most: u32) -> u32
    requires run { run ≤ most }
    requires most { most ≤ GREATEST_BOUND }
    ensures some { 0 < result }
    ensures few { result ≤ most + 1 }
    ensures part { run < most → result ≡ run + 1 }
    ensures all { most ≤ run → result ≡ 1 }
{
    if run < most { run + 1 } else { 1 }
}

// Whether the pattern may begin on the position's day of the week.
fn is_on_day(pattern: Pattern, p: u32) -> bool
    requires { IsJudged pattern }
    ensures { IsTrue result ↔ IsOnDay pattern.week pattern.day p }
{
    match pattern.day {
        Some(day) => p % pattern.week + 1 == day,
        None => true,
    }
}

// Whether each possible symbol of the position is on the side.
fn keeps<V: View>(view: &V, side: Side, p: u32) -> bool
    requires { V.has_days view.now }
    ensures { IsTrue result ↔ Keeps (V.allows view.now) side p }
{
    match side {
        Side::In(class) => view.lies_in(class, p),
        Side::Outside(class) => view.lies_outside(class, p),
    }
}

// Whether each possible symbol of the last day is on its side; true where the pattern has no last day.
fn keeps_last<V: View>(view: &V, last: Option<Side>, p: u32) -> bool
    requires { V.has_days view.now }
    ensures { IsTrue result ↔ KeepsLast (V.allows view.now) last p }
{
    match last {
        Some(side) => keeps(view, side, p),
        None => true,
    }
}

// How many days from this one on lie in the class, counted up to a most.
fn days_from<V: View>(view: &V, class: Class, p: u32, most: u32) -> u32
    requires view { V.has_days view.now }
    requires position { p ≤ LONGEST_WORD * (MOST_CELLS + 1) + 1 }
    requires most { most ≤ GREATEST_BOUND }
    ensures few { result ≤ most }
    ensures within { (i : ℕ) → i < result → LiesIn (V.allows view.now) class (p + i) }
    ensures ends { result < most → LiesIn (V.allows view.now) class (p + result) → ⊥ }
{
    for ahead in 0..most {
        if !view.lies_in(class, p + ahead) {
            return ahead;
        }
    }
    most
}

// How many days right before this one lie in the class, counted up to a most.
fn days_before<V: View>(view: &V, class: Class, p: u32, most: u32) -> u32
    requires view { V.has_days view.now }
    requires most { most ≤ p }
    ensures few { result ≤ most }
    ensures ends { result < most → LiesIn (V.allows view.now) class (p - result - 1) → ⊥ }
{
    for back in 0..most {
        if !view.lies_in(class, p - back - 1) {
            return back;
        }
    }
    most
}
