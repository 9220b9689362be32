// Records of a spreadsheet (RFC 4180).
ghost use Rattle.std.specs.Prelude.{◌≡◌, ◌++◌, OnOk};
ghost use Rattle.std.specs.List.{flat_map, list_any};
ghost use Rattle.crew_calendar.specs.Csv.{is_mark, doubled, field_text, next_text};

use std::alloc::AllocError;

// Whether a byte is a comma, a quote, CR or LF.
fn is_mark(b: u8) -> bool
    ensures { result ≡ is_mark b }
{
    b == b',' || b == b'"' || b == b'\r' || b == b'\n'
}

// Whether a text has one of these.
fn has_mark(text: &[u8]) -> bool
    ensures { result ≡ list_any is_mark text.now }
{
    text.iter().any(|b| is_mark(*b))
}

// Appends a byte, twice where it is a quote.
fn put_doubled(out: &mut Vec<u8>, b: u8) -> Result<(), AllocError>
    ensures { OnOk result (out.new.items ≡ out.old.items ++ doubled b) }
{
    if b == b'"' {
        out.push(b)?;
    }
    out.push(b)?;
    Ok(())
}

// Appends the bytes of a field, each quote twice.
fn put_all_doubled(out: &mut Vec<u8>, text: &[u8]) -> Result<(), AllocError>
    ensures { OnOk result (out.new.items ≡ out.old.items ++ flat_map doubled text.now) }
{
    for b in text {
        put_doubled(out, *b)?;
    }
    Ok(())
}

/// Appends a field, in quotes where it has a comma, a quote, CR or LF.
pub fn put_field(out: &mut Vec<u8>, text: &[u8]) -> Result<(), AllocError>
    ensures { OnOk result (out.new.items ≡ out.old.items ++ field_text text.now) }
{
    if !has_mark(text) {
        return out.extend_from_slice(text);
    }
    out.push(b'"')?;
    put_all_doubled(out, text)?;
    out.push(b'"')?;
    Ok(())
}

/// Appends a field behind a comma.
pub fn put_next_field(out: &mut Vec<u8>, text: &[u8]) -> Result<(), AllocError>
    ensures { OnOk result (out.new.items ≡ out.old.items ++ next_text text.now) }
{
    out.push(b',')?;
    put_field(out, text)
}
