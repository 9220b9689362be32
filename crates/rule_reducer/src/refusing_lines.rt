// The lines of a log that refuse a strip: leaves of words that don't hold without the rule.
ghost use Rattle.std.specs.Prelude.{◌≡◌, ◌<◌, ◌≤◌, [], length, take, Some, IsTrue, IfOk, MatchOption};
ghost use Rattle.rwsp_terms.specs.Rules.{rule_of};
ghost use Rattle.refutation_terms.specs.Log.{Fits, LineFits, ListsShortOnly, Passes};
ghost use Rattle.refutation_terms.specs.Strip.{strip};
ghost use Rattle.domain_store.specs.States.{IsStateOf, IsWalkOf};
ghost use Rattle.refutation_checker.specs.LogVerdicts.{judging_of};
ghost use Rattle.rule_reducer.specs.Without.{HoldsWithout, TellsWithout};

use crate::numbered_rule::NumberedRule;
use crate::shrinking_log::ShrinkingLog;
use crate::stripped_lines::{lists, strip_line};
use domain_store::Walk;
use refutation_checker::{LeafJudge, go_past};
use refutation_terms::Line;
use rwsp_model::Problem;
use std::alloc::{AllocError, Global};

// Whether the line, which is next for the walk, doesn't hold without the rule. Only a line that lists the rule is
// judged.
fn refuses(
    alloc: Global,
    judge: &mut LeafJudge,
    walk: &Walk,
    line: &Line,
    dropped: NumberedRule,
) -> Result<bool, AllocError>
    requires state { IsWalkOf judge.old.problem walk.now }
    requires fits { LineFits judge.old.problem judge.old.goal judge.old.counts line.now }
    requires short { ListsShortOnly judge.old.problem line.now }
    requires rule { rule_of judge.old.problem dropped.number ≡ Some dropped.rule }
    ensures same { judge.new ≡ judge.old }
    ensures refuses { IfOk result (TellsWithout judge.old dropped.number line.now walk.now) }
{
    if lists(line, dropped) {
        let stripped = strip_line(alloc, line, dropped)?;
        let judged = judge.holds(alloc, walk, &stripped);
        drop(stripped);
        let holds = judged?;
        return Ok(!holds);
    }
    Ok(false)
}

// A judge of the leaves of the log.
fn judge_of<'a>(problem: &'a Problem, log: &'a ShrinkingLog) -> LeafJudge<'a>
    requires { Fits problem.now log.now }
    ensures { result ≡ judging_of problem.now log.now }
{
    LeafJudge::new(problem, log.named(), log.terms())
}

// The walk to a place among the lines of a log that passes, without judging any.
fn walk_to(
    alloc: Global,
    problem: &Problem,
    log: &ShrinkingLog,
    place: usize,
) -> Result<Walk, AllocError>
    requires passes { Passes problem.now log.now }
    requires place { place ≤ length log.now.lines }
    ensures { IfOk result (IsStateOf problem.now log.now.opening (take place log.now.lines)) }
{
    let lines = log.lines();
    let mut walk = Walk::new(alloc, problem, log.opening())?;
    for i in 0..place {
        go_past(&mut walk, problem, &lines[i])?;
    }
    Ok(walk)
}

/// Whether the line at the place refuses the strip of the rule. False where there is no such line, or where it doesn't
/// list the rule.
pub fn refuses_at(
    alloc: Global,
    problem: &Problem,
    log: &ShrinkingLog,
    dropped: NumberedRule,
    place: usize,
) -> Result<bool, AllocError>
    requires passes { Passes problem.now log.now }
    requires rule { rule_of problem.now dropped.number ≡ Some dropped.rule }
    ensures { IfOk result (λ yes. IsTrue yes → Passes problem.now (strip problem.now dropped.number log.now) → ⊥) }
{
    let lines = log.lines();
    if place >= lines.len() {
        return Ok(false);
    }
    if !lists(&lines[place], dropped) {
        return Ok(false);
    }
    refuses_behind(alloc, problem, log, dropped, place)
}

// Whether the line at the place, which is there, doesn't hold without the rule.
fn refuses_behind(
    alloc: Global,
    problem: &Problem,
    log: &ShrinkingLog,
    dropped: NumberedRule,
    place: usize,
) -> Result<bool, AllocError>
    requires passes { Passes problem.now log.now }
    requires rule { rule_of problem.now dropped.number ≡ Some dropped.rule }
    requires place { place < length log.now.lines }
    ensures { IfOk result (λ yes. IsTrue yes → Passes problem.now (strip problem.now dropped.number log.now) → ⊥) }
{
    let lines = log.lines();
    let walk = walk_to(alloc, problem, log, place)?;
    let mut judge = judge_of(problem, log);
    let refused = refuses(alloc, &mut judge, &walk, &lines[place], dropped);
    drop(judge);
    drop(walk);
    refused
}

/// The first line that refuses the strip of the rule; None exactly where each line holds without the rule. Lines that
/// don't list the rule aren't judged.
pub fn refusing_line(
    alloc: Global,
    problem: &Problem,
    log: &ShrinkingLog,
    dropped: NumberedRule,
) -> Result<Option<usize>, AllocError>
    requires passes { Passes problem.now log.now }
    requires rule { rule_of problem.now dropped.number ≡ Some dropped.rule }
    ensures { IfOk result (λ found. MatchOption found
        (HoldsWithout problem.now dropped.number log.now)
        (λ k. Passes problem.now (strip problem.now dropped.number log.now) → ⊥)) }
{
    let mut walk = Walk::new(alloc, problem, log.opening())?;
    let mut judge = judge_of(problem, log);
    let found = first_refusing(alloc, problem, log, &mut judge, &mut walk, dropped);
    drop(judge);
    drop(walk);
    found
}

// The first line that refuses the strip, by a walk that has read no line yet.
fn first_refusing(
    alloc: Global,
    problem: &Problem,
    log: &ShrinkingLog,
    judge: &mut LeafJudge,
    walk: &mut Walk,
    dropped: NumberedRule,
) -> Result<Option<usize>, AllocError>
    requires passes { Passes problem.now log.now }
    requires rule { rule_of problem.now dropped.number ≡ Some dropped.rule }
    requires judge { judge.old ≡ judging_of problem.now log.now }
    requires walk { IsStateOf problem.now log.now.opening [] walk.old }
    ensures { IfOk result (λ found. MatchOption found
        (HoldsWithout problem.now dropped.number log.now)
        (λ k. Passes problem.now (strip problem.now dropped.number log.now) → ⊥)) }
{
    let lines = log.lines();
    for i in 0..lines.len() {
        let line = &lines[i];
        let refused = refuses(alloc, judge, walk, line, dropped)?;
        if refused {
            return Ok(Some(i));
        }
        go_past(walk, problem, line)?;
    }
    Ok(None)
}
