// The verdict on a log without its text.
ghost use Rattle.std.specs.Prelude.{◌≡◌, ◌↔◌, ◌+◌, ◌<◌, length, IsTrue, IfOk, MatchOption};
ghost use Rattle.rwsp_model.specs.Refusals.{MatchAnswer};
ghost use Rattle.refutation_terms.specs.declared.lines.Opening.TheVariants.{Full};
ghost use Rattle.refutation_terms.specs.Log.{GoalFits, Fits, Passes};
ghost use Rattle.refutation_terms.specs.LogText.{log_text};
ghost use Rattle.refutation_terms.specs.Verdict.{kind_of_log, IsRefused};
ghost use Rattle.refutation_checker.specs.LogVerdicts.{judging_of, IsPassed, IsRefusedAt, IsCauseIn};
ghost use Rattle.refutation_checker.specs.Turns.{IsSoundTurn};

use crate::judge::{Judge, Judging};
use crate::turn::turn_refusal;
use domain_store::Walk;
use refutation_log::{Log, lines_of_header};
use refutation_terms::{LogRefusal, Opening};
use rwsp_model::{Fail, Problem};
use std::alloc::{AllocError, Global};
use std::marker::Model;

/// A log with this opening in place of its own.
#[derive(Drop)]
pub struct OpenedLog<'a> {
    pub opening: &'a Opening,
    pub log: &'a Log,
}

impl<'a> Model for OpenedLog<'a> {
    ghost use Rattle.refutation_terms.specs.Log.{Log as LogValue};
    ghost use Rattle.refutation_checker.specs.LogVerdicts.{with_opening};

    ghost Value = { LogValue };

    ghost view = { λ g. with_opening g.opening.now g.log.now };
}

/// The verdict on the text of a log as one of its kind, without its text.
pub fn check_log(alloc: Global, problem: &Problem, log: &Log) -> Result<(), Fail<LogRefusal>>
    requires { Fits problem.now log.now }
    ensures { MatchAnswer result
        (λ _. Passes problem.now log.now)
        (IsRefused problem.now (kind_of_log log.now) (log_text problem.now log.now)) }
{
    problem.prove_limits();
    let mut judge = judge_of(problem, log);
    let opened = OpenedLog {
        opening: log.opening(),
        log,
    };
    let found = first_cause(alloc, problem, &mut judge, &opened);
    drop(judge);
    drop(opened);
    match found {
        Ok(None) => Ok(()),
        Ok(Some(why)) => Err(Fail::Refused(why)),
        Err(_) => Err(Fail::Memory),
    }
}

/// A judge of the lines of logs that name the rules of this log and are of its terms. It serves for several in turn,
/// whatever they open with.
pub fn judge_of<'a>(problem: &'a Problem, log: &'a Log) -> Judge<'a>
    requires { GoalFits problem.now Full log.now.goal }
    ensures { result ≡ judging_of problem.now log.now }
{
    let judging = Judging {
        problem,
        named: log.named(),
        terms: log.terms(),
    };
    let judge = Judge::new(&judging);
    drop(judging);
    judge
}

/// Whether a log passes that fits the problem, as is also one of which a cell or a rule was left out, by a judge that
/// judged others that name the same rules.
pub fn passes_by(
    alloc: Global,
    problem: &Problem,
    judge: &mut Judge,
    log: &OpenedLog,
) -> Result<bool, AllocError>
    requires fits { Fits problem.now log.now }
    requires judge { judge.old ≡ judging_of problem.now log.now }
    ensures same { judge.new ≡ judge.old }
    ensures passes { IfOk result (λ passes. IsTrue passes ↔ Passes problem.now log.now) }
{
    let found = first_cause(alloc, problem, judge, log)?;
    Ok(found.is_none())
}

// The cause of the first line that has one: that of the turn, or one of the tree.
fn first_cause(
    alloc: Global,
    problem: &Problem,
    judge: &mut Judge,
    log: &OpenedLog,
) -> Result<Option<LogRefusal>, AllocError>
    requires fits { Fits problem.now log.now }
    requires judge { judge.old ≡ judging_of problem.now log.now }
    ensures same { judge.new ≡ judge.old }
    ensures cause { IfOk result
        (λ found. MatchOption found (Passes problem.now log.now) (IsCauseIn problem.now log.now)) }
{
    if let Some(why) = turn_refusal(problem, log.log.named(), log.opening) {
        return Ok(Some(why));
    }
    let mut walk = Walk::new(alloc, problem, log.opening)?;
    let found = tree_cause(alloc, judge, &mut walk, log);
    drop(walk);
    found
}

// The cause of the first line of the tree that has one, by a walk that has read no line yet, behind a sound turn.
fn tree_cause(
    alloc: Global,
    judge: &mut Judge,
    walk: &mut Walk,
    log: &OpenedLog,
) -> Result<Option<LogRefusal>, AllocError>
    requires fits { Fits judge.old.problem log.now }
    requires judge { judge.old ≡ judging_of judge.old.problem log.now }
    requires turn { IsSoundTurn judge.old.problem log.now.named log.now.opening }
    requires before { IsPassed judge.old.problem log.now 0 walk.old }
    ensures same { judge.new ≡ judge.old }
    ensures cause { IfOk result
        (λ found. MatchOption found (Passes judge.old.problem log.now) (IsCauseIn judge.old.problem log.now)) }
{
    let count = log.log.lines().len();
    for i in 0..count {
        if let Some(why) = pass_at(alloc, judge, walk, log, i)? {
            return Ok(Some(why));
        }
    }
    Ok(None)
}

// Judges the line at a place, counted from 0, behind the lines before.
fn pass_at(
    alloc: Global,
    judge: &mut Judge,
    walk: &mut Walk,
    log: &OpenedLog,
    i: usize,
) -> Result<Option<LogRefusal>, AllocError>
    requires place { i < length log.now.lines }
    requires fits { Fits judge.old.problem log.now }
    requires judge { judge.old ≡ judging_of judge.old.problem log.now }
    requires before { IsPassed judge.old.problem log.now i walk.old }
    ensures same { judge.new ≡ judge.old }
    ensures passed { IfOk result (λ found. MatchOption found
        (IsPassed judge.old.problem log.now (i + 1) walk.new)
        (IsRefusedAt judge.old.problem log.now i)) }
{
    let lines = log.log.lines();
    let number = lines_of_header(log.opening, log.log.terms()) + i as u32 + 1;
    judge.pass(alloc, walk, &lines[i], number)
}
