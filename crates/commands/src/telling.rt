// What is told behind the program's name.
ghost use Rattle.std.specs.Prelude.{◌≡◌, ◌∷◌, ◌++◌, [], IfOk, OnOk};
ghost use Rattle.refutation_terms.specs.Log.{Fits};
ghost use Rattle.plain_words.specs.Statements.{Says, told_lines};
ghost use Rattle.commands.specs.Told.{name_where, behind_rwsp, said_behind, refuted_statements};

use plain_words::pieces::{NONE_HERE, TOLD};
use plain_words::{Part, put_end_told, put_log_told, put_told, rosters_of};
use refutation_log::Log;
use rwsp_model::Problem;
use std::alloc::{AllocError, Global};

// Appends a byte, behind the program's name where it begins a line.
fn put_byte(out: &mut Vec<u8>, begins: bool, byte: u8) -> Result<(), AllocError>
    ensures { OnOk result (out.new.items ≡ out.old.items ++ (name_where begins ++ byte ∷ [])) }
{
    if begins {
        out.extend_from_slice(TOLD)?;
    }
    out.push(byte)?;
    Ok(())
}

/// The lines of a text, each behind the program's name.
pub fn behind_rwsp(alloc: Global, text: &[u8]) -> Result<Vec<u8>, AllocError>
    ensures { IfOk result (λ v. v.items ≡ behind_rwsp text.now) }
{
    let mut out = Vec::new(alloc);
    let mut begins = true;
    for byte in text {
        put_byte(&mut out, begins, *byte)?;
        begins = *byte == b'\n';
    }
    Ok(out)
}

/// What is told in one sentence, with these parts in its holes.
pub fn one_told(
    alloc: Global,
    problem: &Problem,
    sentence: &[u8],
    parts: &[Part],
) -> Result<Vec<u8>, AllocError>
    ensures { IfOk result (λ v. v.items ≡ told_lines problem.now (Says sentence.now parts.now ∷ [])) }
{
    let mut out = Vec::new(alloc);
    put_told(&mut out, problem, sentence, parts)?;
    Ok(out)
}

/// Tells that there is no roster, and how the search ended, by its log.
pub fn put_refuted(out: &mut Vec<u8>, problem: &Problem, log: &Log) -> Result<(), AllocError>
    ensures { OnOk result (
        out.new.items ≡ out.old.items ++ told_lines problem.now (refuted_statements log.now)) }
{
    put_told(out, problem, NONE_HERE, &[])?;
    put_end_told(out, problem, log.lines())?;
    Ok(())
}

/// What is told in a sentence, and what a log says.
pub fn log_told(
    alloc: Global,
    problem: &Problem,
    sentence: &[u8],
    log: &Log,
) -> Result<Vec<u8>, AllocError>
    requires { Fits problem.now log.now }
    ensures { IfOk result (λ v.
        v.items ≡ told_lines problem.now (said_behind problem.now sentence.now log.now)) }
{
    let mut out = Vec::new(alloc);
    put_told(&mut out, problem, sentence, &[])?;
    put_log_told(&mut out, problem, rosters_of(log), log)?;
    Ok(out)
}
