// The lines of an iCalendar (RFC 5545).
ghost use Rattle.std.specs.Prelude.{◌≡◌, ◌++◌, ◌∷◌, ◌≤◌, ℕ, List, IfOk, OnOk};
ghost use Rattle.crew_calendar.specs.ContentLines.{is_special, escape, escaped, width, folded_from, content_line};

use std::alloc::AllocError;

/// The most bytes of a row, without CR LF.
pub const LONGEST_ROW: usize = 75;

// Whether a byte is a backslash, a comma or a semicolon.
fn is_special(b: u8) -> bool
    ensures { result ≡ is_special b }
{
    b == b'\\' || b == b',' || b == b';'
}

// Appends a byte, behind a backslash where it is special.
fn put_escape(out: &mut Vec<u8>, b: u8) -> Result<(), AllocError>
    ensures { OnOk result (out.new.items ≡ out.old.items ++ escape b) }
{
    if is_special(b) {
        out.push(b'\\')?;
    }
    out.push(b)?;
    Ok(())
}

/// Appends a text, escaped.
pub fn put_escaped(out: &mut Vec<u8>, text: &[u8]) -> Result<(), AllocError>
    ensures { OnOk result (out.new.items ≡ out.old.items ++ escaped text.now) }
{
    for b in text {
        put_escape(out, *b)?;
    }
    Ok(())
}

// As many bytes as the character has that this byte begins.
fn width(b: u8) -> usize
    ensures value { result ≡ width b }
    ensures few { result ≤ 4 }
{
    if b < 192 {
        1
    } else if b < 224 {
        2
    } else if b < 240 {
        3
    } else {
        4
    }
}

// Appends a byte of a line to a row that has `column` bytes, or to a new row; gives how many the row has then.
fn put_in_row(out: &mut Vec<u8>, b: u8, column: usize) -> Result<usize, AllocError>
    requires { column ≤ LONGEST_ROW }
    ensures row { IfOk result (λ next. next ≤ LONGEST_ROW) }
    ensures folded { IfOk result (λ next. (line : List ℕ) → out.old.items ++ folded_from column (b ∷ line)
        ≡ out.new.items ++ folded_from next line) }
{
    if column + width(b) <= LONGEST_ROW {
        out.push(b)?;
        return Ok(column + 1);
    }
    out.extend_from_slice(b"\r\n ")?;
    out.push(b)?;
    Ok(2)
}

/// Appends a line in rows of at most 75 bytes, with CR LF at its end.
pub fn put_content_line(out: &mut Vec<u8>, line: &[u8]) -> Result<(), AllocError>
    ensures { OnOk result (out.new.items ≡ out.old.items ++ content_line line.now) }
{
    let mut column = 0;
    for b in line {
        column = put_in_row(out, *b, column)?;
    }
    out.extend_from_slice(b"\r\n")?;
    Ok(())
}
