// Logs, and copies of them.
ghost use Rattle.std.specs.Prelude.{◌≡◌, ◌≤◌, length, IfOk};
ghost use Rattle.rwsp_terms.specs.declared.limits.TheConstants.{MOST_LINES};
ghost use Rattle.refutation_terms.specs.Tree.{IsTree};

use crate::leaf::copy_leaf;
use refutation_terms::{Line, Opening, Terms};
use rwsp_terms::RuleList;
use std::alloc::{AllocError, Global};
use std::marker::Model;

/// The rules that a refutation names, what is known before its first line, its goal if it has one, whether its lines
/// may count blocks, and its lines, which are one whole tree. A log with a goal says that no roster has as many free
/// weekends as the goal.
#[derive(Drop)]
pub struct Log {
    named: RuleList,
    opening: Opening,
    goal: Option<u32>,
    counts: bool,
    lines: Vec<Line>,
}

impl Model for Log {
    ghost use Rattle.std.specs.Prelude.{◌≡◌, ◌≤◌, length, Some, []};
    ghost use Rattle.rwsp_terms.specs.declared.limits.TheConstants.{MOST_LINES};
    ghost use Rattle.refutation_terms.specs.Log.{Log as LogValue};
    ghost use Rattle.refutation_terms.specs.Tree.{after_trees};

    ghost Value = { LogValue };

    ghost view = { λ g. record {
      named = g.named;
      opening = g.opening;
      goal = g.goal;
      counts = g.counts;
      lines = g.lines.items;
    } };

    ghost invariant = { λ g. (after_trees 1 g.lines.items ≡ Some []) × (length g.lines.items ≤ MOST_LINES) };
}

impl Log {
    ghost use Rattle.refutation_terms.specs.Log.{Log as LogValue};

    /// The log of these rules, this opening, this goal if there is one, and these lines, which may count blocks or not.
    pub fn new(
        named: RuleList,
        opening: Opening,
        goal: Option<u32>,
        counts: bool,
        lines: Vec<Line>,
    ) -> Log
        requires tree { IsTree lines.items }
        requires few { length lines.items ≤ MOST_LINES }
        ensures named { result.named ≡ named }
        ensures opening { result.opening ≡ opening }
        ensures goal { result.goal ≡ goal }
        ensures counts { result.counts ≡ counts }
        ensures lines { result.lines ≡ lines.items }
    {
        Log {
            named,
            opening,
            goal,
            counts,
            lines,
        }
    }

    /// The rules that it names.
    pub fn named(&self) -> &RuleList
        ensures { result.now ≡ self.now.named }
    {
        &self.named
    }

    /// What is known before its first line: that week 1 holds the symbol of its turn, if it has one, or given cells.
    pub fn opening(&self) -> &Opening
        ensures { result.now ≡ self.now.opening }
    {
        &self.opening
    }

    /// How many free weekends it says that no roster has, if it is a free log.
    pub fn goal(&self) -> Option<u32>
        ensures { result ≡ self.now.goal }
    {
        self.goal
    }

    /// Whether its lines may count blocks.
    pub fn counts(&self) -> bool
        ensures { result ≡ self.now.counts }
    {
        self.counts
    }

    /// What its lines may be, by its goal and by whether they may count blocks.
    pub fn terms(&self) -> Terms
        ensures goal { result.goal ≡ self.now.goal }
        ensures counts { result.counts ≡ self.now.counts }
    {
        Terms {
            goal: self.goal,
            counts: self.counts,
        }
    }

    /// The lines, which are one whole tree: a split before its sides.
    pub fn lines(&self) -> &[Line]
        ensures value { result.now ≡ self.now.lines }
        ensures tree { IsTree self.now.lines }
        ensures few { length result.now ≤ MOST_LINES }
    {
        &self.lines
    }

    /// Its rules, its opening, its goal, whether its lines may count blocks, and its lines, by themselves.
    pub fn into_parts(self) -> (RuleList, Opening, Option<u32>, bool, Vec<Line>)
        ensures named { result.0 ≡ self.named }
        ensures opening { result.1 ≡ self.opening }
        ensures goal { result.2 ≡ self.goal }
        ensures counts { result.3 ≡ self.counts }
        ensures lines { result.4.items ≡ self.lines }
        ensures few { length result.4.items ≤ MOST_LINES }
    {
        (self.named, self.opening, self.goal, self.counts, self.lines)
    }

    /// A copy of the log.
    pub fn copy(&self) -> Result<Log, AllocError>
        ensures { IfOk result (λ same. same ≡ self.now) }
    {
        let named = self.named.copy()?;
        let opening = self.opening.copy()?;
        let lines = copy_lines(*self.lines.allocator(), &self.lines)?;
        Ok(Log {
            named,
            opening,
            goal: self.goal,
            counts: self.counts,
            lines,
        })
    }
}

/// A copy of the line.
pub fn copy_line(line: &Line) -> Result<Line, AllocError>
    ensures { IfOk result (λ same. same ≡ line.now) }
{
    match line {
        Line::Split { p, x } => Ok(Line::Split { p: *p, x: *x }),
        Line::Closing(leaf) => {
            let leaf = copy_leaf(leaf)?;
            Ok(Line::Closing(leaf))
        }
        Line::Unfinished => Ok(Line::Unfinished),
    }
}

// A copy of the lines.
fn copy_lines(alloc: Global, lines: &[Line]) -> Result<Vec<Line>, AllocError>
    ensures { IfOk result (λ same. same.items ≡ lines.now) }
{
    let mut same = Vec::new(alloc);
    for line in lines {
        let copied = copy_line(line)?;
        same.push(copied)?;
    }
    Ok(same)
}
