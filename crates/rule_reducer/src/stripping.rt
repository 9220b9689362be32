// Logs without one rule.
ghost use Rattle.std.specs.Prelude.{◌≡◌, ℕ, Some, IfOk};
ghost use Rattle.rwsp_terms.specs.Roster.{IsRule};
ghost use Rattle.rwsp_terms.specs.Rules.{rule_of};
ghost use Rattle.refutation_terms.specs.Log.{Fits};
ghost use Rattle.refutation_terms.specs.Strip.{strip};

use crate::numbered_rule::NumberedRule;
use crate::shrinking_log::ShrinkingLog;
use refutation_log::Log;
use rwsp_model::{Problem, number_of};
use rwsp_terms::Rule;
use std::alloc::{AllocError, Global};

/// The log without a rule in its header and in the lists of leaves of words; the rule of a day also loses that day's
/// weights. Leaves that aren't of words and cite the rule stay; so do the opening, the goal, and whether the log may
/// count.
pub fn strip(alloc: Global, log: &Log, rule: Rule, problem: &Problem) -> Result<Log, AllocError>
    requires fits { Fits problem.now log.now }
    requires rule { IsRule problem.now rule }
    ensures value { IfOk result (λ kept. (number : ℕ) →
        rule_of problem.now number ≡ Some rule → kept ≡ strip problem.now number log.now) }
    ensures fits { IfOk result (Fits problem.now) }
{
    let number = number_of(problem, rule);
    let _tree = log.lines();
    let own = log.copy()?;
    let mut kept = ShrinkingLog::of(own);
    kept.strip(alloc, NumberedRule { number, rule })?;
    Ok(kept.into_log())
}
