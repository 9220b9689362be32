// The second file of a command.
ghost use Rattle.std.specs.Prelude.{◌≡◌, ◌≤◌, IfOk, IfErr, MatchOption};
ghost use Rattle.std.specs.String.{string_bytes};
ghost use Rattle.rwsp_io.specs.Told.{NeverFall, Rose};
ghost use Rattle.commands.specs.Files.{WhereTold, IsSecond, IsTooLong, IsStop, longest, too_long_line};
ghost use Rattle.commands.specs.declared.second_file.SecondKind.TheVariants as Kinds;

use crate::stop::Stop;
use rwsp_io::{ReadFail, Shelf, read_all};
use rwsp_terms::limits::{LONGEST_FILE, LONGEST_LOG};
use std::alloc::{AllocError, Global};

/// What a second file is to hold. A staff text may be as long as a log.
#[derive(Clone, Copy)]
pub enum SecondKind {
    Roster,
    Log,
}

// The most bytes that a file of the kind may have.
fn longest(kind: SecondKind) -> usize
    ensures value { result ≡ longest kind }
    ensures few { result ≤ longest Kinds.Log }
{
    match kind {
        SecondKind::Roster => LONGEST_FILE as usize,
        SecondKind::Log => LONGEST_LOG as usize,
    }
}

/// All bytes of a file of the kind; None where it is too long.
pub fn second_in<S: Shelf>(
    alloc: Global,
    shelf: &mut S,
    name: &str,
    kind: SecondKind,
) -> Result<Option<Vec<u8>>, Stop>
    ensures read { IfOk result (λ found. MatchOption found
        (WhereTold (S.held shelf.old name.now) (IsTooLong kind))
        (λ bytes. IsSecond kind (S.held shelf.old name.now) bytes.items)) }
    ensures stop { IfErr result (IsStop (Rose (S.faults shelf.old name.now) (S.faults shelf.new name.now))) }
    ensures faults { NeverFall (S.faults shelf.old) (S.faults shelf.new) }
{
    match read_all(alloc, shelf, name, longest(kind)) {
        Ok(bytes) => Ok(Some(bytes)),
        Err(ReadFail::Fault) => Err(Stop::ReadFault),
        Err(ReadFail::TooLong) => Ok(None),
        Err(ReadFail::Memory) => Err(Stop::Memory),
    }
}

/// The line that says that the second file is too long.
pub fn too_long_line(alloc: Global, kind: SecondKind) -> Result<String, AllocError>
    ensures { IfOk result (λ t. string_bytes t ≡ too_long_line kind) }
{
    match kind {
        SecondKind::Roster => String::from_str(alloc, "too long: roster\n"),
        SecondKind::Log => String::from_str(alloc, "too long: log\n"),
    }
}
