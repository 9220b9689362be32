// The text of a log's refusal.
ghost use Rattle.std.specs.Prelude.{◌≡◌, ◌++◌, All, OnOk, codes};
ghost use Rattle.std.specs.Fmt.{decimal};
ghost use Rattle.rwsp_terms.specs.Instance.{IsSymbol};
ghost use Rattle.rwsp_text.specs.Labels.{at_line};
ghost use Rattle.refutation_log.specs.RefusalText.{log_refusal_text, word_text, HasSymbols};

use refutation_terms::LogRefusal;
use roster_print::put_after_blanks;
use rwsp_model::Problem;
use rwsp_terms::Symbol;
use rwsp_text::{put_labelled, put_line_number};
use std::alloc::AllocError;

// Appends a label that names a rule, and the number of the line.
fn put_rule_line(out: &mut Vec<u8>, label: &[u8], rule: u32, number: u32) -> Result<(), AllocError>
    ensures { OnOk result (out.new.items ≡ out.old.items ++ at_line (label.now ++ decimal rule) number) }
{
    put_labelled(out, label, rule)?;
    put_labelled(out, b" line ".as_slice(), number)
}

/// Appends the refusal without its LF.
pub fn put_log_refusal(
    out: &mut Vec<u8>,
    problem: &Problem,
    why: &LogRefusal,
) -> Result<(), AllocError>
    requires { HasSymbols problem.now why.now }
    ensures { OnOk result (out.new.items ≡ out.old.items ++ log_refusal_text problem.now why.now) }
{
    match why {
        LogRefusal::Form(n) => put_line_number(out, b"log refused: form".as_slice(), *n),
        LogRefusal::Name(n) => put_line_number(out, b"log refused: name".as_slice(), *n),
        LogRefusal::Unnamed(n, k) => put_unnamed(out, *k, *n),
        LogRefusal::Idle(n) => put_line_number(out, b"log refused: idle".as_slice(), *n),
        LogRefusal::Long(n, k) => put_rule_line(out, b"log refused: long ".as_slice(), *k, *n),
        LogRefusal::Fails(n) => put_line_number(out, b"log refused: fails".as_slice(), *n),
        LogRefusal::Escape(n, word) => put_escape(out, problem, *n, word.symbols()),
        LogRefusal::Unfinished(n) => put_line_number(out, b"log refused: open".as_slice(), *n),
        LogRefusal::Ends => put_ends(out),
        LogRefusal::Extra(n) => put_line_number(out, b"log refused: extra".as_slice(), *n),
        LogRefusal::Turn(n) => put_line_number(out, b"log refused: turn".as_slice(), *n),
    }
}

// Appends the refusal by a rule that isn't named.
fn put_unnamed(out: &mut Vec<u8>, rule: u32, number: u32) -> Result<(), AllocError>
    ensures { OnOk result (out.new.items
        ≡ out.old.items ++ at_line (codes "log refused: unnamed " ++ decimal rule) number) }
{
    put_rule_line(out, b"log refused: unnamed ".as_slice(), rule, number)
}

// Appends the refusal of a text that ends before its tree.
fn put_ends(out: &mut Vec<u8>) -> Result<(), AllocError>
    ensures { OnOk result (out.new.items ≡ out.old.items ++ codes "log refused: ends") }
{
    out.extend_from_slice(b"log refused: ends".as_slice())?;
    Ok(())
}

// Appends the refusal by a word that escapes.
fn put_escape(
    out: &mut Vec<u8>,
    problem: &Problem,
    number: u32,
    word: &[Symbol],
) -> Result<(), AllocError>
    requires { All (IsSymbol problem.now) word.now }
    ensures { OnOk result (out.new.items
        ≡ out.old.items ++ at_line (codes "log refused: escape") number ++ codes ":"
        ++ word_text problem.now word.now) }
{
    put_line_number(out, b"log refused: escape".as_slice(), number)?;
    out.push(b':')?;
    put_after_blanks(out, problem, word)
}
