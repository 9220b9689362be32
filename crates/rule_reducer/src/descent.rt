// Descents through the rules that a log names.
ghost use Rattle.std.specs.Prelude.{◌<◌, ◌≤◌, ◌∷◌, [], ◌≡◌, length, Some, OnOk, IfOk, MatchBool};
ghost use Rattle.rwsp_terms.specs.Rules.{rules, rule_of};
ghost use Rattle.refutation_terms.specs.Log.{Passes};
ghost use Rattle.refutation_terms.specs.Strip.{strip, StripsTo, DescendsTo};
ghost use Rattle.rule_reducer.specs.Citing.{AreCited};
ghost use Rattle.rule_reducer.specs.Without.{HoldsWithout};

use crate::citations::Citations;
use crate::numbered_rule::NumberedRule;
use crate::refusing_lines::{refuses_at, refusing_line};
use crate::shrinking_log::ShrinkingLog;
use rwsp_model::{Problem, rule_at};
use std::alloc::{AllocError, Global};

/// The line that refused the last strip. The next one is tried there first: a line that can't do without one rule often
/// needs others.
#[derive(Drop)]
pub struct LastRefusal {
    pub place: usize,
}

// Whether each line holds without the rule. Only lines that list it are judged.
fn holds_without(
    alloc: Global,
    problem: &Problem,
    log: &ShrinkingLog,
    last: &mut LastRefusal,
    dropped: NumberedRule,
) -> Result<bool, AllocError>
    requires passes { Passes problem.now log.now }
    requires rule { rule_of problem.now dropped.number ≡ Some dropped.rule }
    ensures { IfOk result (λ yes. MatchBool yes
        (HoldsWithout problem.now dropped.number log.now)
        (Passes problem.now (strip problem.now dropped.number log.now) → ⊥)) }
{
    let refused = refuses_at(alloc, problem, log, dropped, last.place)?;
    if refused {
        return Ok(false);
    }
    if let Some(place) = refusing_line(alloc, problem, log, dropped)? {
        last.place = place;
        return Ok(false);
    }
    Ok(true)
}

// Whether the log passes without the rule. No line is judged for a rule that none lists, nor for one that is cited for
// good.
fn can_drop(
    alloc: Global,
    problem: &Problem,
    log: &ShrinkingLog,
    cited: &Citations,
    last: &mut LastRefusal,
    dropped: NumberedRule,
) -> Result<bool, AllocError>
    requires passes { Passes problem.now log.now }
    requires cited { AreCited problem.now log.now cited.now.for_good cited.now.in_lists }
    requires rule { rule_of problem.now dropped.number ≡ Some dropped.rule }
    ensures { IfOk result (λ yes. MatchBool yes
        (Passes problem.now (strip problem.now dropped.number log.now))
        (Passes problem.now (strip problem.now dropped.number log.now) → ⊥)) }
{
    if cited.for_good.holds(dropped.number) {
        return Ok(false);
    }
    if cited.in_lists.holds(dropped.number) {
        let held = holds_without(alloc, problem, log, last, dropped)?;
        return Ok(held);
    }
    Ok(true)
}

// Drops the rule of the number exactly where the log then passes.
fn drop_rule(
    alloc: Global,
    problem: &Problem,
    log: &mut ShrinkingLog,
    cited: &Citations,
    last: &mut LastRefusal,
    number: u32,
) -> Result<(), AllocError>
    requires passes { Passes problem.now log.old }
    requires cited { AreCited problem.now log.old cited.now.for_good cited.now.in_lists }
    requires number { (0 < number) × (number ≤ length (rules problem.now)) }
    ensures { OnOk result (StripsTo problem.now (number ∷ []) log.old log.new) }
{
    let rule = rule_at(problem, number);
    let dropped = NumberedRule { number, rule };
    let droppable = can_drop(alloc, problem, log, cited, last, dropped)?;
    if droppable {
        log.strip(alloc, dropped)?;
        return Ok(());
    }
    Ok(())
}

/// One descent: from the highest number down, each rule that the log names at the start is dropped exactly where the
/// log then passes (the deletion filter of J. Chinneck and E. Dravnieks, 1991).
pub fn descend(
    alloc: Global,
    problem: &Problem,
    log: &mut ShrinkingLog,
    cited: &Citations,
    last: &mut LastRefusal,
) -> Result<(), AllocError>
    requires passes { Passes problem.now log.old }
    requires cited { AreCited problem.now log.old cited.now.for_good cited.now.in_lists }
    ensures descends { OnOk result (DescendsTo problem.now log.old log.new) }
    ensures passes { OnOk result (Passes problem.now log.new) }
    ensures cited { OnOk result (AreCited problem.now log.new cited.now.for_good cited.now.in_lists) }
{
    let named = log.named().copy()?;
    let count = named.len();
    for done in 0..count {
        let number = named.at(count - 1 - done);
        drop_rule(alloc, problem, log, cited, last, number)?;
    }
    Ok(())
}
