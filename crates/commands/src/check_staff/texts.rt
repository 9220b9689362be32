// What is said of the answers to a staff text.
ghost use Rattle.std.specs.Prelude.{◌≡◌, ◌++◌, IfOk, OnOk, codes};
ghost use Rattle.std.specs.Fmt.{decimal};
ghost use Rattle.crew_size.specs.RefusalText.{staff_refusal_text, NamesItsOwn};
ghost use Rattle.plain_words.specs.Statements.{told_lines};
ghost use Rattle.plain_words.specs.Told.{staffed_statements, staff_refusal_statements};
ghost use Rattle.commands.specs.Lines.{line};
ghost use Rattle.commands.specs.CheckStaff.{staffed_text};

use crew_size::{StaffRefusal, Staffed, put_staff_refusal};
use plain_words::{put_staff_refusal_told, put_staffed_told};
use rwsp_model::Problem;
use rwsp_text::put_labelled;
use std::alloc::{AllocError, Global};

// Appends two numbers, each behind a label.
fn put_two(
    out: &mut Vec<u8>,
    label: &[u8],
    first: u32,
    between: &[u8],
    second: u32,
) -> Result<(), AllocError>
    ensures { OnOk result (
        out.new.items ≡ out.old.items ++ (label.now ++ decimal first) ++ between.now ++ decimal second) }
{
    put_labelled(out, label, first)?;
    put_labelled(out, between, second)
}

// Appends the least number of weeks that has a roster, and the first that was tried.
fn put_least(out: &mut Vec<u8>, low: u32, weeks: u32) -> Result<(), AllocError>
    ensures { OnOk result (
        out.new.items
        ≡ out.old.items ++ (codes "accepted: least " ++ decimal weeks) ++ codes " from " ++ decimal low) }
{
    put_two(
        out,
        b"accepted: least ".as_slice(),
        weeks,
        b" from ".as_slice(),
        low,
    )
}

// Appends the first and the last number of weeks that have no roster.
fn put_none(out: &mut Vec<u8>, low: u32, last: u32) -> Result<(), AllocError>
    ensures { OnOk result (
        out.new.items ≡ out.old.items ++ (codes "accepted: none " ++ decimal low) ++ codes " to " ++ decimal last) }
{
    put_two(
        out,
        b"accepted: none ".as_slice(),
        low,
        b" to ".as_slice(),
        last,
    )
}

// Appends what an accepted text decides.
fn put_staffed(out: &mut Vec<u8>, staffed: Staffed) -> Result<(), AllocError>
    ensures { OnOk result (out.new.items ≡ out.old.items ++ staffed_text staffed) }
{
    match staffed {
        Staffed::Least(low, weeks) => put_least(out, low, weeks),
        Staffed::NoneTo(low, last) => put_none(out, low, last),
    }
}

/// The line that says what an accepted text decides.
pub fn staffed_line(alloc: Global, staffed: Staffed) -> Result<Vec<u8>, AllocError>
    ensures { IfOk result (λ v. v.items ≡ line (staffed_text staffed)) }
{
    let mut out = Vec::new(alloc);
    put_staffed(&mut out, staffed)?;
    out.push(b'\n')?;
    Ok(out)
}

/// The line of the first failure of a staff text.
pub fn staff_refusal_line(
    alloc: Global,
    problem: &Problem,
    why: &StaffRefusal,
) -> Result<Vec<u8>, AllocError>
    requires { NamesItsOwn problem.now why.now }
    ensures { IfOk result (λ v. v.items ≡ line (staff_refusal_text problem.now why.now)) }
{
    let mut out = Vec::new(alloc);
    put_staff_refusal(&mut out, problem, why)?;
    out.push(b'\n')?;
    Ok(out)
}

/// What is told of an accepted text.
pub fn staffed_told(
    alloc: Global,
    problem: &Problem,
    staffed: Staffed,
) -> Result<Vec<u8>, AllocError>
    ensures { IfOk result (λ v. v.items ≡ told_lines problem.now (staffed_statements staffed)) }
{
    let mut out = Vec::new(alloc);
    put_staffed_told(&mut out, problem, staffed)?;
    Ok(out)
}

/// What is told of the first failure of a staff text.
pub fn staff_refusal_told(
    alloc: Global,
    problem: &Problem,
    why: &StaffRefusal,
) -> Result<Vec<u8>, AllocError>
    requires { NamesItsOwn problem.now why.now }
    ensures { IfOk result (λ v.
        v.items ≡ told_lines problem.now (staff_refusal_statements problem.now why.now)) }
{
    let mut out = Vec::new(alloc);
    put_staff_refusal_told(&mut out, problem, why)?;
    Ok(out)
}
