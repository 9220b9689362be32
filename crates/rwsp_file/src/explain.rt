// Why a text is no problem's, in words.
ghost use Rattle.std.specs.Prelude.{◌≡◌, ◌≤◌, length, IfOk, MatchOption, None, Some};
ghost use Rattle.rwsp_terms.specs.declared.limits.TheConstants.{LONGEST_FILE};
ghost use Rattle.rwsp_file.specs.Reading.{misfit_in, reading};
ghost use Rattle.rwsp_file.specs.RefusalWords.{misfit_words, refusal_words};

use crate::cursor::Cursor;
use crate::likely::likely;
use crate::misfit::Misfit;
use crate::read::{last_line, read_parts};
use crate::refusal_words::{put_cause_line, put_misfit};
use rwsp_model::Fail;
use rwsp_text::tokens;
use std::alloc::{AllocError, Global};

// The first failure, where there is one.
fn first_misfit<'a>(
    alloc: Global,
    cursor: &mut Cursor<'a>,
) -> Result<Option<Misfit<'a>>, AllocError>
    ensures { IfOk result (λ misfit. misfit ≡ misfit_in (reading cursor.old)) }
{
    match read_parts(alloc, cursor) {
        Ok(parts) => {
            // By a call, so that the drop is one step of the proof.
            drop(parts);
            Ok(None)
        }
        Err(Fail::Refused(misfit)) => Ok(Some(misfit)),
        Err(Fail::Memory) => Err(AllocError),
    }
}

// The words of a failure. The cursor is at the front of the text.
fn misfit_words(alloc: Global, cursor: &mut Cursor, misfit: &Misfit) -> Result<Vec<u8>, AllocError>
    ensures { IfOk result (λ words. words.items ≡ misfit_words cursor.old misfit.now) }
{
    let cause = likely(alloc, cursor, misfit)?;
    let mut words = Vec::new(alloc);
    put_misfit(&mut words, misfit)?;
    words.push(b'\n')?;
    put_cause_line(&mut words, misfit, cause)?;
    Ok(words)
}

/// Why the bytes spell no problem, in one or two lines that each end with LF: the line, the word that was found and
/// what was awaited, and where it is plain what is likely the cause. None where they spell a problem. The cost grows
/// with the bytes.
pub fn explain_refusal(alloc: Global, bytes: &[u8]) -> Result<Option<Vec<u8>>, AllocError>
    requires { length bytes.now ≤ LONGEST_FILE }
    ensures { IfOk result (λ words. MatchOption words
        (refusal_words bytes.now ≡ None)
        (λ v. refusal_words bytes.now ≡ Some v.items)) }
{
    let tokens = tokens(alloc, bytes)?;
    let end = last_line(bytes);
    let mut cursor = Cursor::of(bytes, &tokens, end);
    let misfit = first_misfit(alloc, &mut cursor)?;
    let mut again = Cursor::of(bytes, &tokens, end);
    match misfit {
        Some(misfit) => {
            let words = misfit_words(alloc, &mut again, &misfit)?;
            Ok(Some(words))
        }
        None => Ok(None),
    }
}
