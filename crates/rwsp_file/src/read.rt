// Reading problem files.
ghost use Rattle.std.specs.Prelude.{◌≡◌, ◌==◌, ◌≤◌, count_by, length, option_map, Some, Ok, IfOk};
ghost use Rattle.rwsp_terms.specs.declared.limits.TheConstants.{LONGEST_FILE};
ghost use Rattle.rwsp_text.specs.Lexemes.{last_line};
ghost use Rattle.rwsp_model.specs.Refusals.{IfRefused};
ghost use Rattle.rwsp_model.specs.Parts.{instance_of};
ghost use Rattle.rwsp_file.specs.Spelling.{SpellsProblem};
ghost use Rattle.rwsp_file.specs.Misfits.{refusal_of};
ghost use Rattle.rwsp_file.specs.Reading.{instance_at, reading, misfit_in, unread_of, file_refusal};
ghost use Rattle.rwsp_file.specs.Reads.{GivesUnless, ReadsUnless};

use crate::FileRefusal;
use crate::cursor::Cursor;
use crate::fields::{read_demand, read_frame, read_size};
use crate::misfit::Misfit;
use crate::row::read_shifts;
use crate::sequences::{read_end, read_sequences};
use rwsp_model::{Fail, Parts, Problem};
use rwsp_text::tokens;
use std::alloc::Global;

fn count_line_ends(bytes: &[u8]) -> usize
    ensures count { result ≡ count_by (λ b. b == 10) bytes.now }
    ensures few { result ≤ length bytes.now }
{
    bytes.iter().filter(|b| **b == b'\n').count()
}

/// The number of the line on which the bytes end.
pub fn last_line(bytes: &[u8]) -> u32
    requires { length bytes.now ≤ LONGEST_FILE }
    ensures { result ≡ last_line bytes.now }
{
    count_line_ends(bytes) as u32 + 1
}

// Reads the numbers and the shifts of a problem.
#[tactic(auto, unfolding(crate::specs::Reading::instance_at))]
fn read_instance<'a>(alloc: Global, cursor: &mut Cursor<'a>) -> Result<Parts, Fail<Misfit<'a>>>
    ensures { ReadsUnless instance_of (instance_at cursor.old) result cursor.new }
{
    let size = read_size(cursor).map_err(Fail::Refused)?;
    let demand = read_demand(alloc, size, cursor)?;
    let shifts = read_shifts(alloc, size.shifts, cursor)?;
    // The shifts are let go by a call, so that their drop is one step of the proof.
    let frame = match read_frame(cursor) {
        Ok(frame) => frame,
        Err(why) => {
            drop(shifts);
            return Err(Fail::Refused(why));
        }
    };
    let sequences = match read_sequences(alloc, &shifts, frame, cursor) {
        Ok(sequences) => sequences,
        Err(fail) => {
            drop(shifts);
            return Err(fail);
        }
    };
    Ok(Parts {
        days: size.days,
        weeks: size.weeks,
        demand,
        shifts: shifts.rows(),
        off: frame.off,
        work: frame.work,
        sequences,
    })
}

/// Reads all of a text, up to the first failure.
#[tactic(auto, unfolding(crate::specs::Reading::reading))]
pub fn read_parts<'a>(alloc: Global, cursor: &mut Cursor<'a>) -> Result<Parts, Fail<Misfit<'a>>>
    ensures { GivesUnless instance_of (reading cursor.old) result }
{
    let parts = read_instance(alloc, cursor)?;
    match read_end(cursor) {
        Ok(()) => Ok(parts),
        Err(why) => {
            // By a call, so that the drop of the parts is one step of the proof.
            drop(parts);
            Err(Fail::Refused(why))
        }
    }
}

// The parts, or the refusal alone.
fn refused_parts(alloc: Global, cursor: &mut Cursor) -> Result<Parts, Fail<FileRefusal>>
    ensures ok { IfOk result (λ parts. reading cursor.old ≡ Ok (instance_of parts)) }
    ensures refused { IfRefused result (λ why. option_map refusal_of (misfit_in (reading cursor.old)) ≡ Some why) }
{
    match read_parts(alloc, cursor) {
        Ok(parts) => Ok(parts),
        Err(Fail::Refused(misfit)) => Err(Fail::Refused(misfit.refusal())),
        Err(Fail::Memory) => Err(Fail::Memory),
    }
}

fn parts_of(alloc: Global, bytes: &[u8]) -> Result<Parts, Fail<FileRefusal>>
    requires { length bytes.now ≤ LONGEST_FILE }
    ensures ok { IfOk result (λ parts. reading (unread_of bytes.now) ≡ Ok (instance_of parts)) }
    ensures refused { IfRefused result (λ why. file_refusal bytes.now ≡ Some why) }
{
    let tokens = tokens(alloc, bytes)?;
    let mut cursor = Cursor::of(bytes, &tokens, last_line(bytes));
    refused_parts(alloc, &mut cursor)
}

/// The problem that the bytes spell, or the first failure in them. The cost grows with the bytes.
pub fn read_problem(alloc: Global, bytes: &[u8]) -> Result<Problem, Fail<FileRefusal>>
    requires { length bytes.now ≤ LONGEST_FILE }
    ensures ok { IfOk result (λ P. SpellsProblem bytes.now P) }
    ensures refused { IfRefused result (λ why. file_refusal bytes.now ≡ Some why) }
{
    let parts = parts_of(alloc, bytes)?;
    Ok(Problem::of_valid(parts))
}
