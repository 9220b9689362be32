// The problem with a least rest between shifts.
ghost use Rattle.std.specs.Prelude.{◌≡◌, ◌++◌, ◌≤◌, IfOk};
ghost use Rattle.std.specs.Fmt.{decimal};
ghost use Rattle.commands.specs.Lines.{line};
ghost use Rattle.commands.specs.Rest.{IsRestTold, IsRestAnswer, rest_text, rest_status};

use crate::telling::one_told;
use made_problems::{LeastRest, require_rest, rosters_rest};
use plain_words::Part;
use plain_words::pieces::{REST_FORBIDS, TOO_MANY_PAIRS, TOO_MANY_TRIPLES};
use rwsp_file::{canonical_texts_spell, print_problem};
use rwsp_model::{Problem, count_in};
use rwsp_terms::limits::LONGEST_REST;
use rwsp_text::put_labelled;
use std::alloc::{AllocError, Global};

/// The problem with at least this many minutes between the end of a shift and the start of the next within two days.
pub fn job(alloc: Global, problem: &Problem, minutes: u32) -> Result<LeastRest, AllocError>
    requires { minutes ≤ LONGEST_REST }
    ensures { IfOk result (IsRestAnswer problem.now minutes) }
{
    rosters_rest();
    canonical_texts_spell();
    require_rest(alloc, problem, minutes)
}

// The line of a refusal: what there would be too many of, and how many.
fn refused_line(alloc: Global, label: &[u8], count: u32) -> Result<Vec<u8>, AllocError>
    ensures { IfOk result (λ v. v.items ≡ line (label.now ++ decimal count)) }
{
    let mut out = Vec::new(alloc);
    put_labelled(&mut out, label, count)?;
    out.push(b'\n')?;
    Ok(out)
}

/// The text of the answer: the problem's, or a line.
pub fn text(alloc: Global, answer: &LeastRest) -> Result<Vec<u8>, AllocError>
    ensures { IfOk result (λ v. v.items ≡ rest_text answer.now) }
{
    match answer {
        LeastRest::Rested(problem) => print_problem(alloc, problem),
        LeastRest::Pairs(count) => refused_line(alloc, b"rest refused: pairs ".as_slice(), *count),
        LeastRest::Triples(count) => refused_line(
            alloc,
            b"rest refused: triples ".as_slice(),
            *count,
        ),
    }
}

/// What is told of the answer.
pub fn told(alloc: Global, problem: &Problem, answer: &LeastRest) -> Result<Vec<u8>, AllocError>
    ensures { IfOk result (λ v. IsRestTold problem.now answer.now v.items) }
{
    match answer {
        LeastRest::Rested(rested) => {
            let pairs = Part::Pairs(count_in(2, rested.sequences()) as u64);
            let triples = Part::Triples(count_in(3, rested.sequences()) as u64);
            one_told(alloc, problem, REST_FORBIDS, &[pairs, triples])
        }
        LeastRest::Pairs(n) => one_told(alloc, problem, TOO_MANY_PAIRS, &[Part::Number(*n)]),
        LeastRest::Triples(n) => one_told(alloc, problem, TOO_MANY_TRIPLES, &[Part::Number(*n)]),
    }
}

/// The status of the answer.
pub fn status(answer: &LeastRest) -> u8
    ensures { result ≡ rest_status answer.now }
{
    match answer {
        LeastRest::Rested(_) => 0,
        _ => 3,
    }
}
