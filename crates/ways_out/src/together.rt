// Changes that are planned together: one refutation for all of them.
ghost use Rattle.std.specs.Prelude.{◌≤◌, IsTrue, All};
ghost use Rattle.rwsp_terms.specs.declared.limits.TheConstants.{GREATEST_BUDGET};
ghost use Rattle.ways_out.specs.Loosened.{IsChange};
ghost use Rattle.ways_out.specs.Together.{IsOfDemand};

use crate::change::Change;
use crate::listed::changed_rule;
use crate::loosening::{loosen, most_steps};
use crate::plans::{Asked, plan_within};
use clean_words::Gate;
use refutation_log::{Found, Log, print_log};
use roster_planner::Effort;
use rwsp_model::{Problem, number_of};
use rwsp_terms::RuleList;
use rwsp_terms::limits::GREATEST_BUDGET;
use std::alloc::{AllocError, Global};
use std::thread;
use std::thread::Threads;

// How many times as many lines as another plan one of several changes may write, and how many times those of the
// problem's own log. A plan that writes more is likely to find a roster in the end, or to be left open.
const SEVERAL: u32 = 2;

const AS_LONG: u32 = 6;

// The workers: two for each direction. Both plan all days together, and then each its half of them.
const WORKERS: usize = 4;

/// A direction in which the demand of a shift on a day is loosened.
#[derive(Clone, Copy, PartialEq, Eq)]
pub enum Direction {
    Lower,
    Higher,
}

/// The changes of the demand in a direction, of all shifts on the days from the first to the last.
#[derive(Clone, Copy)]
pub struct Group {
    pub direction: Direction,
    pub first: u32,
    pub last: u32,
}

/// Changes, and the text of a log that refutes the problem with all of them at their utmost.
#[derive(Drop)]
pub struct Shown {
    pub group: Group,
    pub text: Vec<u8>,
}

// What a plan says of the problem with all changes of a group at their utmost.
#[derive(Drop)]
enum Sight {
    // It has no roster, by the log of this text.
    Refuted(Vec<u8>),
    // It has one, or there are too few changes to plan them together.
    Roster,
    // The plan has spent its budget.
    Open,
}

// What all groups have in common: what is asked, the rules that are named, the changes, and the effort.
#[derive(Drop)]
struct Grouping<'a, G> {
    asked: &'a Asked<'a, G>,
    named: &'a RuleList,
    changes: &'a [Change],
    effort: Effort,
}

/// Whether the change is one of the group.
pub fn has(group: Group, change: Change) -> bool
    ensures { IsTrue result → IsOfDemand change }
{
    match change {
        Change::LowerDemand { day, .. } => {
            group.direction == Direction::Lower && group.first <= day && day <= group.last
        }
        Change::HigherDemand { day, .. } => {
            group.direction == Direction::Higher && group.first <= day && day <= group.last
        }
        _ => false,
    }
}

// How far a plan of several changes goes, where the problem's own log has so many lines.
fn effort_of_groups(effort: Effort, lines: usize) -> Effort
    requires { (1 ≤ effort.budget) × (effort.budget ≤ GREATEST_BUDGET) }
    ensures { (1 ≤ result.budget) × (result.budget ≤ GREATEST_BUDGET) }
{
    let lines = lines.min(GREATEST_BUDGET as usize) as u32;
    let most = (lines * AS_LONG).min(effort.budget * SEVERAL);
    Effort {
        budget: most.min(GREATEST_BUDGET).max(1),
        counts: effort.counts,
    }
}

// Whether the change is one of the group and of a named rule.
fn is_member<G>(grouping: &Grouping<'_, G>, group: Group, change: Change) -> bool
    requires { IsChange grouping.now.asked.now.problem.now change }
    ensures { IsTrue result → IsOfDemand change }
{
    has(group, change)
        && grouping
            .named
            .holds(number_of(grouping.asked.problem, changed_rule(change)))
}

// Whether the group has two changes at least, of named rules.
fn has_several<G>(grouping: &Grouping<'_, G>, group: Group) -> bool
    requires { All (IsChange grouping.now.asked.now.problem.now) grouping.now.changes.now }
{
    let mut has_one = false;
    for place in 0..grouping.changes.len() {
        if is_member(grouping, group, grouping.changes[place]) {
            if has_one {
                return true;
            }
            has_one = true;
        }
    }
    false
}

// The problem with all changes of the group at their utmost.
fn loosened_together<G>(
    alloc: Global,
    grouping: &Grouping<'_, G>,
    group: Group,
) -> Result<Problem, AllocError>
    requires { All (IsChange grouping.now.asked.now.problem.now) grouping.now.changes.now }
{
    let own = grouping.asked.problem.copy()?;
    let mut all = own;
    for place in 0..grouping.changes.len() {
        let change = grouping.changes[place];
        let steps = most_steps(&all, change);
        if steps > 0 && is_member(grouping, group, change) {
            all = loosen(alloc, &all, change, steps)?;
        }
    }
    Ok(all)
}

// The part of the days that a worker plans one by one: half of them, in a direction.
fn part_of(worker: usize, days: u32) -> Group {
    let direction = if worker % 2 == 0 {
        Direction::Lower
    } else {
        Direction::Higher
    };
    let middle = days / 2 + 1;
    if worker < 2 {
        Group {
            direction,
            first: 1,
            last: middle,
        }
    } else {
        Group {
            direction,
            first: middle + 1,
            last: days,
        }
    }
}

// What a plan says of the group.
fn sight_of<R: Threads + Sync, G: Gate>(
    rt: &R,
    alloc: Global,
    grouping: &Grouping<'_, G>,
    group: Group,
) -> Result<Sight, AllocError>
    requires changes { All (IsChange grouping.now.asked.now.problem.now) grouping.now.changes.now }
    requires budget { (1 ≤ grouping.now.effort.budget) × (grouping.now.effort.budget ≤ GREATEST_BUDGET) }
{
    if !has_several(grouping, group) {
        return Ok(Sight::Roster);
    }
    let all = loosened_together(alloc, grouping, group)?;
    let found = plan_within(rt, alloc, &all, grouping.effort, grouping.asked.gate);
    let sight = match found? {
        Found::Roster(_) => Ok(Sight::Roster),
        Found::Undecided(_) => Ok(Sight::Open),
        Found::NoRoster(log) => match print_log(alloc, &all, &log) {
            Ok(text) => Ok(Sight::Refuted(text)),
            Err(_) => Err(AllocError),
        },
    };
    drop(all);
    sight
}

// The group of all days in a direction, if it is refuted, or if it has a roster the refuted days of this part of them.
fn shown_in<R: Threads + Sync, G: Gate>(
    rt: &R,
    alloc: Global,
    grouping: &Grouping<'_, G>,
    part: Group,
) -> Result<Vec<Shown>, AllocError>
    requires changes { All (IsChange grouping.now.asked.now.problem.now) grouping.now.changes.now }
    requires budget { (1 ≤ grouping.now.effort.budget) × (grouping.now.effort.budget ≤ GREATEST_BUDGET) }
{
    let group = Group {
        direction: part.direction,
        first: 1,
        last: grouping.asked.problem.days(),
    };
    match sight_of(rt, alloc, grouping, group)? {
        Sight::Refuted(text) => {
            let mut shown = Vec::new(alloc);
            shown.push(Shown { group, text })?;
            Ok(shown)
        }
        Sight::Roster => shown_days(rt, alloc, grouping, part),
        Sight::Open => Ok(Vec::new(alloc)),
    }
}

// The refuted days of a part, up to the first that is left open.
fn shown_days<R: Threads + Sync, G: Gate>(
    rt: &R,
    alloc: Global,
    grouping: &Grouping<'_, G>,
    part: Group,
) -> Result<Vec<Shown>, AllocError>
    requires changes { All (IsChange grouping.now.asked.now.problem.now) grouping.now.changes.now }
    requires budget { (1 ≤ grouping.now.effort.budget) × (grouping.now.effort.budget ≤ GREATEST_BUDGET) }
{
    let mut shown = Vec::new(alloc);
    for before in 0..grouping.asked.problem.days() {
        let day = before + 1;
        if part.first <= day && day <= part.last {
            let on_day = Group {
                direction: part.direction,
                first: day,
                last: day,
            };
            match sight_of(rt, alloc, grouping, on_day)? {
                Sight::Refuted(text) => shown.push(Shown {
                    group: on_day,
                    text,
                })?,
                Sight::Roster => {}
                Sight::Open => return Ok(shown),
            }
        }
    }
    Ok(shown)
}

/// The refuted groups, of changes of the rules that the problem's log names: those of a direction on all days, or where
/// they have a roster on single days. Where that log is short, none are looked for.
pub fn shown_together<R: Threads + Sync, G: Gate>(
    rt: &R,
    alloc: Global,
    asked: &Asked<'_, G>,
    log: &Log,
    changes: &[Change],
) -> Result<Vec<Shown>, AllocError>
    requires changes { All (IsChange asked.now.problem.now) changes.now }
    requires budget { (1 ≤ asked.now.effort.budget) × (asked.now.effort.budget ≤ GREATEST_BUDGET) }
{
    if asked.is_short {
        return Ok(Vec::new(alloc));
    }
    let grouping = Grouping {
        asked,
        named: log.named(),
        changes,
        effort: effort_of_groups(asked.effort, log.lines().len()),
    };
    let shares = thread::map_indices(
        rt,
        alloc,
        WORKERS,
        &|worker: usize| -> Result<Vec<Shown>, AllocError>
            requires changes { All (IsChange grouping.asked.now.problem.now) grouping.changes.now }
            requires budget { (1 ≤ grouping.effort.budget) × (grouping.effort.budget ≤ GREATEST_BUDGET) }
        {
            shown_in(
                rt,
                alloc,
                &grouping,
                part_of(worker, grouping.asked.problem.days()),
            )
        },
    )?;
    joined(alloc, shares)
}

// All that was shown, where each worker ended.
fn joined(
    alloc: Global,
    shares: Vec<Result<Vec<Shown>, AllocError>>,
) -> Result<Vec<Shown>, AllocError> {
    let mut all = Vec::new(alloc);
    for share in shares {
        for shown in share? {
            all.push(shown)?;
        }
    }
    Ok(all)
}
