// A log that loses rules in place.
ghost use Rattle.std.specs.Prelude.{◌≡◌, ◌≤◌, length, Option, Some, OnOk};
ghost use Rattle.rwsp_terms.specs.Instance.{Instance};
ghost use Rattle.rwsp_terms.specs.Rules.{rule_of};
ghost use Rattle.refutation_terms.specs.Tree.{IsTree};
ghost use Rattle.refutation_terms.specs.Strip.{strip};

use crate::lists::without;
use crate::numbered_rule::NumberedRule;
use crate::stripped_lines::strip_lines;
use refutation_log::Log;
use refutation_terms::{Line, Opening, Terms};
use rwsp_terms::RuleList;
use std::alloc::{AllocError, Global};
use std::marker::Model;

/// A log from which rules are taken out in place. A strip costs one pass over the lines, and memory for one line at a
/// time.
#[derive(Drop)]
pub struct ShrinkingLog {
    named: RuleList,
    opening: Opening,
    goal: Option<u32>,
    counts: bool,
    lines: Vec<Line>,
}

impl Model for ShrinkingLog {
    ghost use Rattle.std.specs.Prelude.{◌≤◌, length};
    ghost use Rattle.rwsp_terms.specs.declared.limits.TheConstants.{MOST_LINES};
    ghost use Rattle.refutation_terms.specs.Log.{Log as LogValue};

    ghost Value = { LogValue };

    ghost view = { λ g. record {
      named = g.named;
      opening = g.opening;
      goal = g.goal;
      counts = g.counts;
      lines = g.lines.items;
    } };

    ghost invariant = { λ g. length g.lines.items ≤ MOST_LINES };
}

impl ShrinkingLog {
    /// The log, to lose rules.
    pub fn of(log: Log) -> ShrinkingLog
        ensures { result ≡ log }
    {
        let (named, opening, goal, counts, lines) = log.into_parts();
        ShrinkingLog {
            named,
            opening,
            goal,
            counts,
            lines,
        }
    }

    /// The rules that it names.
    pub fn named(&self) -> &RuleList
        ensures { result.now ≡ self.now.named }
    {
        &self.named
    }

    /// What is known before its first line.
    pub fn opening(&self) -> &Opening
        ensures { result.now ≡ self.now.opening }
    {
        &self.opening
    }

    /// What its lines may be, by its goal and by whether they may count blocks.
    pub fn terms(&self) -> Terms
        ensures goal { result.goal ≡ self.now.goal }
        ensures counts { result.counts ≡ self.now.counts }
    {
        Terms {
            goal: self.goal,
            counts: self.counts,
        }
    }

    /// Its lines.
    pub fn lines(&self) -> &[Line]
        ensures { result.now ≡ self.now.lines }
    {
        &self.lines
    }

    /// Takes out the rule. After want of memory some lines may be without it already.
    pub fn strip(&mut self, alloc: Global, dropped: NumberedRule) -> Result<(), AllocError>
        ensures { OnOk result ((P : Instance) →
            rule_of P dropped.number ≡ Some dropped.rule → self.new ≡ strip P dropped.number self.old) }
    {
        let named = without(alloc, &self.named, dropped.number)?;
        strip_lines(alloc, &mut self.lines, dropped)?;
        self.named = named;
        Ok(())
    }

    /// The log, whose lines are one whole tree.
    pub fn into_log(self) -> Log
        requires { IsTree self.lines }
        ensures { result ≡ self }
    {
        Log::new(self.named, self.opening, self.goal, self.counts, self.lines)
    }
}
