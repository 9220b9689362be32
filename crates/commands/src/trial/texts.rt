// The text of a trial.
ghost use Rattle.std.specs.Prelude.{◌≡◌, ◌++◌, ◌*◌, ◌≤◌, IfOk, OnOk, length};
ghost use Rattle.std.specs.Fmt.{decimal};
ghost use Rattle.rwsp_terms.specs.Instance.{IsDay};
ghost use Rattle.commands.specs.Trial.{IsTried, demand_on, whole_demand, trial_line, found_line, trial_text};

use crate::trial::Answer;
use refutation_log::{Found, print_log};
use roster_print::print_roster;
use rwsp_model::Problem;
use rwsp_terms::Symbol;
use rwsp_terms::limits::{MOST_SHIFTS, MOST_WEEKS};
use rwsp_text::{put_labelled, put_number};
use std::alloc::{AllocError, Global};

fn demand_on(problem: &Problem, day: u32) -> u32
    requires { IsDay problem.now day }
    ensures value { result ≡ demand_on problem.now day }
    ensures few { result ≤ MOST_WEEKS * MOST_SHIFTS }
{
    let mut demand = 0;
    for x in 0..problem.shifts() {
        demand += problem.demand_least(Symbol { number: x + 1 }, day) as u32;
    }
    demand
}

fn whole_demand(problem: &Problem) -> u32
    ensures { result ≡ whole_demand problem.now }
{
    let mut demand = 0;
    for day in 0..problem.days() {
        demand += demand_on(problem, day + 1);
    }
    demand
}

fn trial_line(alloc: Global, problem: &Problem, trial: &Answer) -> Result<Vec<u8>, AllocError>
    ensures { IfOk result (λ v. v.items ≡ trial_line problem.now trial.now) }
{
    let mut out = Vec::new(alloc);
    put_labelled(&mut out, b"number ".as_slice(), trial.number)?;
    put_labelled(&mut out, b" weeks ".as_slice(), trial.weeks)?;
    put_labelled(&mut out, b" days ".as_slice(), problem.days())?;
    put_labelled(
        &mut out,
        b" shifts ".as_slice(),
        u32::from(problem.shifts()),
    )?;
    put_labelled(&mut out, b" demand ".as_slice(), whole_demand(problem))?;
    Ok(out)
}

// Appends a label and the number of bytes of a text.
fn put_bytes(out: &mut Vec<u8>, label: &[u8], text: &[u8]) -> Result<(), AllocError>
    ensures { OnOk result (out.new.items ≡ out.old.items ++ label.now ++ decimal (length text.now)) }
{
    out.extend_from_slice(label)?;
    put_number(out, text.len() as u64)
}

fn put_found_line(
    out: &mut Vec<u8>,
    alloc: Global,
    problem: &Problem,
    found: &Found,
) -> Result<(), AllocError>
    requires { IsTried problem.now found.now }
    ensures { OnOk result (out.new.items ≡ out.old.items ++ found_line problem.now found.now) }
{
    match found {
        Found::Roster(roster) => {
            let text = print_roster(alloc, problem, roster)?;
            put_bytes(out, b"answer roster bytes ".as_slice(), &text)
        }
        Found::Undecided(log) => {
            let text = print_log(alloc, problem, log)?;
            put_bytes(out, b"answer undecided bytes ".as_slice(), &text)
        }
        Found::NoRoster(_) => unreachable!(),
    }
}

/// The text of a trial: the numbers of its problem, and what was found.
pub fn text_of_trial(
    alloc: Global,
    problem: &Problem,
    trial: &Answer,
) -> Result<Vec<u8>, AllocError>
    requires { IsTried problem.now trial.now.found }
    ensures { IfOk result (λ v. v.items ≡ trial_text problem.now trial.now) }
{
    let mut out = trial_line(alloc, problem, trial)?;
    out.push(b'\n')?;
    put_found_line(&mut out, alloc, problem, &trial.found)?;
    out.push(b'\n')?;
    Ok(out)
}
