// The line of a header that gives cells, read and printed.
ghost use Rattle.std.specs.Prelude.{◌≡◌, ◌++◌, All, Some, None, OnOk, MatchOption, map};
ghost use Rattle.std.specs.List.{flat_map};
ghost use Rattle.rwsp_text.specs.Fields.{cell_fields, cells_at};
ghost use Rattle.rwsp_text.specs.Lines.{words_of};
ghost use Rattle.rwsp_model.specs.Refusals.{MatchAnswer};
ghost use Rattle.refutation_terms.specs.GivenCells.{AreGivenIn};
ghost use Rattle.refutation_terms.specs.LogText.{named_cell, cells_text};
ghost use Rattle.refutation_terms.specs.Verdict.{CellsCause};
ghost use Rattle.refutation_log.specs.Headers.{StopsFor};
ghost use Rattle.refutation_log.specs.Printing.{IsCellOf, spaced};
ghost use Rattle.refutation_log.specs.Reading.{cell_at, cells_line_at, AnswersCells};
ghost use Rattle.refutation_log.specs.Refusals.{SpellsGivenCells, AreCellsRefused};

use crate::LineRefusal;
use crate::fields::{put_place, put_word};
use crate::line::body_of;
use refutation_terms::{GivenCell, GivenCells, LogRefusal};
use rwsp_model::{Fail, Problem};
use rwsp_text::{Fields, LineReader};
use std::alloc::{AllocError, Global};

const FORM: Fail<LineRefusal> = Fail::Refused(LineRefusal::Form);

const NAME: Fail<LineRefusal> = Fail::Refused(LineRefusal::Name);

/// The given cells of the third line of a text, from a reader behind its second.
pub fn cells_line(
    alloc: Global,
    problem: &Problem,
    reader: &mut LineReader,
) -> Result<GivenCells, Fail<LogRefusal>>
    ensures { MatchAnswer result
        (λ given. AreGivenIn problem.now given × (reader.old ≡ cells_text problem.now given ++ reader.new))
        (StopsFor (CellsCause problem.now) reader.old) }
{
    let Some(bytes) = reader.next() else {
        return Err(Fail::Refused(LogRefusal::Ends));
    };
    match read_given(alloc, problem, bytes) {
        Ok(given) => Ok(given),
        Err(Fail::Memory) => Err(Fail::Memory),
        Err(Fail::Refused(LineRefusal::Form)) => Err(Fail::Refused(LogRefusal::Form(3))),
        Err(Fail::Refused(LineRefusal::Name)) => Err(Fail::Refused(LogRefusal::Name(3))),
    }
}

// The given cells that a line spells.
fn read_given(
    alloc: Global,
    problem: &Problem,
    bytes: &[u8],
) -> Result<GivenCells, Fail<LineRefusal>>
    ensures { MatchAnswer result (SpellsGivenCells problem.now bytes.now) (AreCellsRefused problem.now bytes.now) }
{
    problem.prove_limits();
    match body_of(bytes) {
        None => Err(FORM),
        Some(body) => given_of(alloc, problem, body),
    }
}

#[tactic(auto, unfolding(crate::specs::Reading::cells_line_at))]
fn given_of(alloc: Global, problem: &Problem, body: &[u8]) -> Result<GivenCells, Fail<LineRefusal>>
    ensures { AnswersCells problem.now (cells_line_at problem.now (words_of body.now)) result }
{
    let mut fields = Fields::of(body);
    let Some(()) = fields.word(b"cells") else {
        return Err(FORM);
    };
    given_in(alloc, problem, &mut fields)
}

// The given cells that all fields which are left write. A field that is no part of one ends the reading; a name that is
// no symbol's does so only once all are read.
#[tactic(auto, unfolding(rwsp_text::specs::Fields::cells_at))]
fn given_in(
    alloc: Global,
    problem: &Problem,
    fields: &mut Fields,
) -> Result<GivenCells, Fail<LineRefusal>>
    ensures { AnswersCells problem.now (cells_at problem.now.weeks problem.now.days fields.old) result }
{
    problem.prove_limits();
    let mut given = GivenCells::new(alloc);
    let mut is_known = true;
    let mut next = 0;
    while !fields.is_done() {
        let Some((p, name)) = cell(problem, next, fields) else {
            return Err(FORM);
        };
        match problem.symbol(name) {
            Some(x) => given.put(GivenCell { p, x })?,
            None => is_known = false,
        }
        next = p + 1;
    }
    if is_known { Ok(given) } else { Err(NAME) }
}

// The position and the name of the next cell, which isn't in front of a position.
#[tactic(auto, unfolding(crate::specs::Reading::cell_at))]
fn cell<'a>(problem: &Problem, least: u32, fields: &mut Fields<'a>) -> Option<(u32, &'a [u8])>
    ensures { MatchOption result (cell_at problem.now least fields.old ≡ None)
        (λ r. cell_at problem.now least fields.old ≡ Some (record { p = r.0; name = r.1.now }, fields.new)) }
{
    problem.prove_limits();
    let p = fields.place(problem.weeks(), problem.days())?;
    let name = fields.name()?;
    if least <= p { Some((p, name)) } else { None }
}

/// Appends the line of a header that gives cells.
#[tactic(auto, using(crate::proofs::PrintedTexts::cells_line))]
pub fn put_cells_line(
    out: &mut Vec<u8>,
    problem: &Problem,
    given: &GivenCells,
) -> Result<(), AllocError>
    requires { AreGivenIn problem.now given.now }
    ensures { OnOk result (out.new.items ≡ out.old.items ++ cells_text problem.now given.now) }
{
    out.extend_from_slice(b"cells")?;
    put_cells(out, problem, given.cells())?;
    out.push(b'\n')?;
    Ok(())
}

// Appends the week, the day and the name of each given cell, each behind a blank.
fn put_cells(out: &mut Vec<u8>, problem: &Problem, given: &[GivenCell]) -> Result<(), AllocError>
    requires { All (IsCellOf problem.now) given.now }
    ensures { OnOk result (out.new.items ≡ out.old.items
        ++ spaced (flat_map (cell_fields problem.now.days) (map (named_cell problem.now) given.now))) }
{
    for cell in given {
        put_cell(out, problem, *cell)?;
    }
    Ok(())
}

#[tactic(auto, using(crate::proofs::PrintedTexts::cell_text))]
fn put_cell(out: &mut Vec<u8>, problem: &Problem, cell: GivenCell) -> Result<(), AllocError>
    requires { IsCellOf problem.now cell }
    ensures { OnOk result (out.new.items ≡ out.old.items
        ++ spaced (cell_fields problem.now.days (named_cell problem.now cell))) }
{
    put_place(out, problem, cell.p)?;
    put_word(out, problem.name(cell.x))
}
