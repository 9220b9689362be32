// Which rules the lines of a log cite, and which of them no strip takes out.
ghost use Rattle.std.specs.Prelude.{◌≡◌, ◌↔◌, ◌⊎◌, ℕ, slice_get, Some, Option, Bool, IfOk, OnOk, true, false};
ghost use Rattle.rwsp_terms.specs.declared.data.Rule.{Rule};
ghost use Rattle.rwsp_terms.specs.Rules.{Names};
ghost use Rattle.refutation_terms.specs.declared.lines.Line.{Line};
ghost use Rattle.refutation_terms.specs.Log.{Fits, LineFits, OpeningFits, Cites, OpeningCites};
ghost use Rattle.rule_reducer.specs.Citing.{is_plain, OneCites, AreCited};

use crate::shrinking_log::ShrinkingLog;
use refutation_log::{put_cited, put_opening_cited};
use refutation_terms::{Leaf, Line, Opening};
use rwsp_model::Problem;
use rwsp_terms::RuleList;
use std::alloc::{AllocError, Global};

/// The rules that the lines of a log cite.
#[derive(Drop)]
pub struct Citations {
    /// Those that the turn or a leaf that isn't one of words cites: no strip takes them out there.
    pub for_good: RuleList,
    /// Those that leaves of words cite by their lists and their weights.
    pub in_lists: RuleList,
}

// Whether the line is a leaf that isn't one of words.
fn is_plain(line: &Line) -> bool
    ensures { result ≡ is_plain line.now }
{
    match line {
        Line::Closing(Leaf::Words { .. }) => false,
        Line::Closing(_) => true,
        _ => false,
    }
}

// Puts the rules that a plain leaf cites into the list.
fn put_plain(rules: &mut RuleList, problem: &Problem, line: &Line) -> Result<(), AllocError>
    requires { (goal : Option ℕ) × (counts : Bool) × LineFits problem.now goal counts line.now }
    ensures { OnOk result ((r : Rule) →
        Names problem.now rules.new r ↔
        (Names problem.now rules.old r ⊎ ((is_plain line.now ≡ true) × Cites problem.now line.now r))) }
{
    if is_plain(line) {
        return put_cited(rules, problem, line);
    }
    Ok(())
}

// Puts the rules that a line cites which is no plain leaf into the list.
fn put_listed(rules: &mut RuleList, problem: &Problem, line: &Line) -> Result<(), AllocError>
    requires { (goal : Option ℕ) × (counts : Bool) × LineFits problem.now goal counts line.now }
    ensures { OnOk result ((r : Rule) →
        Names problem.now rules.new r ↔
        (Names problem.now rules.old r ⊎ ((is_plain line.now ≡ false) × Cites problem.now line.now r))) }
{
    if is_plain(line) {
        return Ok(());
    }
    put_cited(rules, problem, line)
}

// Puts the rules that plain leaves cite into one list, and those that other lines cite into the other.
fn put_all(
    plain: &mut RuleList,
    listed: &mut RuleList,
    problem: &Problem,
    lines: &[Line],
) -> Result<(), AllocError>
    requires { (goal : Option ℕ) × (counts : Bool)
        × ((k : ℕ) (line : Line) → slice_get lines.now k ≡ Some line → LineFits problem.now goal counts line) }
    ensures plain { OnOk result ((r : Rule) →
        Names problem.now plain.new r ↔ (Names problem.now plain.old r ⊎ OneCites problem.now true lines.now r)) }
    ensures listed { OnOk result ((r : Rule) →
        Names problem.now listed.new r ↔ (Names problem.now listed.old r ⊎ OneCites problem.now false lines.now r)) }
{
    for line in lines {
        put_plain(plain, problem, line)?;
        put_listed(listed, problem, line)?;
    }
    Ok(())
}

// The rule that an opening cites, that of the day of its turn.
fn opening_citation(
    alloc: Global,
    problem: &Problem,
    opening: &Opening,
) -> Result<RuleList, AllocError>
    requires { OpeningFits problem.now opening.now }
    ensures { IfOk result (λ rules. (r : Rule) → Names problem.now rules r ↔ OpeningCites opening.now r) }
{
    let mut rules = RuleList::new(alloc);
    put_opening_cited(&mut rules, problem, opening)?;
    Ok(rules)
}

/// The rules that the lines of the log and its turn cite, found by going through the lines once.
pub fn citations_of(
    alloc: Global,
    problem: &Problem,
    log: &ShrinkingLog,
) -> Result<Citations, AllocError>
    requires { Fits problem.now log.now }
    ensures { IfOk result (λ cited. AreCited problem.now log.now cited.for_good cited.in_lists) }
{
    let mut for_good = opening_citation(alloc, problem, log.opening())?;
    let mut in_lists = RuleList::new(alloc);
    put_all(&mut for_good, &mut in_lists, problem, log.lines())?;
    Ok(Citations { for_good, in_lists })
}
