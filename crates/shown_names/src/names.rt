// A name as people read it.
ghost use Rattle.std.specs.Prelude.{◌≡◌, ◌++◌, ◌<◌, IfOk, OnOk, length, drop};
ghost use Rattle.std.specs.Str.{is_utf8};
ghost use Rattle.shown_names.specs.ShownNames.{begins_with_text, character_len, hex_digit, hex_text, is_printable, first_shown, shown_from, shown};

use std::alloc::AllocError;
use std::str;

// Whether the bytes are text in UTF-8.
fn is_text(bytes: &[u8]) -> bool
    ensures { result ≡ is_utf8 bytes.now }
{
    match str::from_utf8(bytes) {
        Ok(_) => true,
        Err(_) => false,
    }
}

// Whether the first `n` bytes are there and are text in UTF-8.
fn begins_with_text(bytes: &[u8], n: usize) -> bool
    ensures { result ≡ begins_with_text bytes.now n }
{
    n <= bytes.len() && is_text(&bytes[..n])
}

/// How many bytes the character has that begins the bytes; 0 where none does.
#[tactic(auto, unfolding(crate::specs::ShownNames::character_len))]
pub fn character_len(bytes: &[u8]) -> usize
    ensures { result ≡ character_len bytes.now }
{
    if begins_with_text(bytes, 1) {
        1
    } else if begins_with_text(bytes, 2) {
        2
    } else if begins_with_text(bytes, 3) {
        3
    } else if begins_with_text(bytes, 4) {
        4
    } else {
        0
    }
}

// A hexadecimal digit.
fn hex_digit(digit: u8) -> u8
    requires { digit < 16 }
    ensures { result ≡ hex_digit digit }
{
    if digit < 10 { 48 + digit } else { 55 + digit }
}

/// Appends a byte as `\xHH`.
pub fn put_hex(out: &mut Vec<u8>, b: u8) -> Result<(), AllocError>
    ensures { OnOk result (out.new.items ≡ out.old.items ++ hex_text b) }
{
    out.extend_from_slice(b"\\x")?;
    out.push(hex_digit(b / 16))?;
    out.push(hex_digit(b % 16))?;
    Ok(())
}

/// Whether a byte is no control byte of ASCII.
pub fn is_printable(b: u8) -> bool
    ensures { result ≡ is_printable b }
{
    32 <= b && b != 127
}

// Appends a byte that begins a character of this length, or begins none.
fn put_first(out: &mut Vec<u8>, b: u8, len: usize) -> Result<(), AllocError>
    ensures { OnOk result (out.new.items ≡ out.old.items ++ first_shown b len) }
{
    if 0 < len && is_printable(b) {
        out.push(b)?;
    } else {
        put_hex(out, b)?;
    }
    Ok(())
}

// Appends the first of the bytes, which goes on with a character where `more` bytes do; gives how many of the others
// go on with its character.
fn put_next(out: &mut Vec<u8>, bytes: &[u8], more: usize) -> Result<usize, AllocError>
    requires { 0 < length bytes.now }
    ensures { IfOk result (λ next. out.old.items ++ shown_from more bytes.now
        ≡ out.new.items ++ shown_from next (drop 1 bytes.now)) }
{
    if 0 < more {
        out.push(bytes[0])?;
        return Ok(more - 1);
    }
    let len = character_len(bytes);
    put_first(out, bytes[0], len)?;
    Ok(len.saturating_sub(1))
}

/// Appends a name as it is shown: each byte that is a control byte of ASCII, or no part of text in UTF-8, as `\xHH`.
pub fn put_shown(out: &mut Vec<u8>, name: &[u8]) -> Result<(), AllocError>
    ensures { OnOk result (out.new.items ≡ out.old.items ++ shown name.now) }
{
    let mut more = 0;
    for i in 0..name.len() {
        more = put_next(out, &name[i..], more)?;
    }
    Ok(())
}
