// The problem's file, read and understood.
ghost use Rattle.std.specs.Prelude.{◌≡◌, ℕ, List, Some, IfOk, IfErr, IsErrOf};
ghost use Rattle.std.specs.String.{string_bytes};
ghost use Rattle.rwsp_io.specs.Told.{NeverFall, Rose, Missing, Bytes};
ghost use Rattle.rwsp_file.specs.Reading.{file_refusal};
ghost use Rattle.rwsp_file.specs.RefusalWords.{refusal_words};
ghost use Rattle.rwsp_file.specs.declared.refusal.FileRefusal.{FileRefusal as Why};
ghost use Rattle.commands.specs.Files.{IsStop};
ghost use Rattle.commands.specs.ProblemFile.{IsProblemRead, IsRefusedFile, IsShortFile, problem_refusal_line, IsProblemRefusalTold};

use crate::stop::Stop;
use crate::telling::behind_rwsp;
use crate::text::Text;
use rwsp_file::{FileRefusal, explain_refusal, read_problem};
use rwsp_io::{ReadFail, Shelf, read_all};
use rwsp_model::{Fail, Problem};
use rwsp_terms::limits::LONGEST_FILE;
use std::alloc::{AllocError, Global};

/// A problem, and the bytes of the file that spells it.
#[derive(Drop)]
pub struct Subject {
    pub problem: Problem,
    pub file: Text,
}

/// Why the problem's file is refused.
#[derive(Drop)]
pub enum ProblemRefusal {
    /// It has more bytes than a problem may have.
    TooLong,
    /// It spells no problem; its bytes.
    Refused(FileRefusal, Text),
}

/// What a problem's file says, or why it is refused.
pub fn problem_in<S: Shelf>(
    alloc: Global,
    shelf: &mut S,
    name: &str,
) -> Result<Result<Subject, ProblemRefusal>, Stop>
    ensures read { IfOk result (IsProblemRead (S.held shelf.old name.now)) }
    ensures stop { IfErr result (IsStop (Rose (S.faults shelf.old name.now) (S.faults shelf.new name.now))) }
    ensures missing { S.held shelf.old name.now ≡ Missing → IsErrOf result Stop.ReadFault }
    ensures held { (other : List ℕ) → S.held shelf.new other ≡ S.held shelf.old other }
    ensures faults { NeverFall (S.faults shelf.old) (S.faults shelf.new) }
{
    match read_all(alloc, shelf, name, LONGEST_FILE as usize) {
        Ok(bytes) => Ok(subject_of(alloc, bytes)?),
        Err(ReadFail::Fault) => Err(Stop::ReadFault),
        Err(ReadFail::TooLong) => Ok(Err(ProblemRefusal::TooLong)),
        Err(ReadFail::Memory) => Err(Stop::Memory),
    }
}

// What the bytes of a file say, or why they are refused.
fn subject_of(alloc: Global, bytes: Vec<u8>) -> Result<Result<Subject, ProblemRefusal>, AllocError>
    requires { IsShortFile bytes.items }
    ensures { IfOk result (IsProblemRead (Bytes bytes.items)) }
{
    match read_problem(alloc, &bytes) {
        Ok(problem) => Ok(Ok(Subject {
            problem,
            file: Text::of(bytes),
        })),
        Err(Fail::Refused(why)) => Ok(Err(ProblemRefusal::Refused(why, Text::of(bytes)))),
        Err(Fail::Memory) => Err(AllocError),
    }
}

/// The line that says why a problem's file is refused.
pub fn problem_refusal_line(alloc: Global, refusal: &ProblemRefusal) -> Result<String, AllocError>
    ensures { IfOk result (λ t. string_bytes t ≡ problem_refusal_line refusal.now) }
{
    match refusal {
        ProblemRefusal::TooLong => String::from_str(alloc, "too long: problem\n"),
        ProblemRefusal::Refused(refusal, _) => format!(in alloc; "{refusal}\n"),
    }
}

/// The words that say why the bytes of a file spell no problem.
pub fn refusal_words(alloc: Global, bytes: &[u8]) -> Result<Vec<u8>, AllocError>
    requires short { IsShortFile bytes.now }
    requires refused { (why : Why) × (file_refusal bytes.now ≡ Some why) }
    ensures { IfOk result (λ v. refusal_words bytes.now ≡ Some v.items) }
{
    match explain_refusal(alloc, bytes)? {
        Some(words) => Ok(words),
        None => unreachable!(),
    }
}

/// What is told of the refusal: these words, each line behind the program's name.
pub fn problem_refusal_told(alloc: Global, refusal: &ProblemRefusal) -> Result<Vec<u8>, AllocError>
    requires { IsRefusedFile refusal.now }
    ensures { IfOk result (λ v. IsProblemRefusalTold refusal.now v.items) }
{
    match refusal {
        ProblemRefusal::TooLong => Ok(Vec::new(alloc)),
        ProblemRefusal::Refused(_, file) => {
            let words = refusal_words(alloc, file.bytes())?;
            behind_rwsp(alloc, &words)
        }
    }
}
