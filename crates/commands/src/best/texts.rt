// What is said of what a search for the most free weekends found.
ghost use Rattle.std.specs.Prelude.{◌≡◌, ◌++◌, IfOk, OnOk, Some};
ghost use Rattle.refutation_terms.specs.Log.{Fits};
ghost use Rattle.refutation_terms.specs.LogText.{log_text};
ghost use Rattle.refutation_log.specs.declared.best_found.BestFound.TheVariants.{Best, NoRoster};
ghost use Rattle.commands.specs.Best.{IsBestTold, counted_text, found_text, IsWeeklyRoster, IsRosterFound};

use crate::telling::put_refuted;
use plain_words::pieces::HAS_WEEKENDS;
use plain_words::{Part, put_log_told, put_told, rosters_of};
use refutation_log::{Log, print_log};
use roster_checker::free_weekends;
use roster_print::print_roster;
use rwsp_model::{Problem, Roster};
use rwsp_text::put_labelled;
use std::alloc::{AllocError, Global};

// Appends how many free weekends the roster has, and the roster.
fn put_counted(out: &mut Vec<u8>, problem: &Problem, roster: &Roster) -> Result<(), AllocError>
    requires { IsWeeklyRoster problem.now roster.now }
    ensures { OnOk result (out.new.items ≡ out.old.items ++ counted_text problem.now roster.now) }
{
    put_labelled(out, b"free ".as_slice(), free_weekends(problem, roster))?;
    out.push(b'\n')?;
    let text = print_roster(*out.allocator(), problem, roster)?;
    out.extend_from_slice(&text)?;
    Ok(())
}

// Appends the log.
fn put_log(out: &mut Vec<u8>, problem: &Problem, log: &Log) -> Result<(), AllocError>
    requires { Fits problem.now log.now }
    ensures { OnOk result (out.new.items ≡ out.old.items ++ log_text problem.now log.now) }
{
    let text = print_log(*out.allocator(), problem, log)?;
    out.extend_from_slice(&text)?;
    Ok(())
}

/// The text of the best roster and of the proof that none is better.
pub fn best_text(
    alloc: Global,
    problem: &Problem,
    roster: &Roster,
    proof: &Log,
) -> Result<Vec<u8>, AllocError>
    requires roster { IsWeeklyRoster problem.now roster.now }
    requires fits { Fits problem.now proof.now }
    ensures { IfOk result (λ v.
        v.items ≡ counted_text problem.now roster.now ++ log_text problem.now proof.now) }
{
    let mut out = Vec::new(alloc);
    put_counted(&mut out, problem, roster)?;
    put_log(&mut out, problem, proof)?;
    Ok(out)
}

/// The text of what is known where the budget was spent.
pub fn undecided_text(
    alloc: Global,
    problem: &Problem,
    roster: &Option<Roster>,
    partial: &Log,
) -> Result<Vec<u8>, AllocError>
    requires roster { IsRosterFound problem.now roster.now }
    requires fits { Fits problem.now partial.now }
    ensures { IfOk result (λ v.
        v.items ≡ found_text problem.now roster.now ++ log_text problem.now partial.now) }
{
    match roster {
        Some(roster) => best_text(alloc, problem, roster, partial),
        None => print_log(alloc, problem, partial),
    }
}

/// What is told of the best roster and of the proof that none is better.
pub fn best_told(
    alloc: Global,
    problem: &Problem,
    roster: &Roster,
    proof: &Log,
) -> Result<Vec<u8>, AllocError>
    requires roster { IsWeeklyRoster problem.now roster.now }
    requires fits { Fits problem.now proof.now }
    ensures { IfOk result (λ v. IsBestTold problem.now (Best roster.now proof.now) v.items) }
{
    let mut out = Vec::new(alloc);
    let weekends = Part::Weekends(free_weekends(problem, roster));
    put_told(&mut out, problem, HAS_WEEKENDS, &[weekends])?;
    put_log_told(&mut out, problem, rosters_of(proof), proof)?;
    Ok(out)
}

/// What is told of the proof that there is no roster.
pub fn none_told(alloc: Global, problem: &Problem, log: &Log) -> Result<Vec<u8>, AllocError>
    requires { Fits problem.now log.now }
    ensures { IfOk result (λ v. IsBestTold problem.now (NoRoster log.now) v.items) }
{
    let mut out = Vec::new(alloc);
    put_refuted(&mut out, problem, log)?;
    put_log_told(&mut out, problem, rosters_of(log), log)?;
    Ok(out)
}
