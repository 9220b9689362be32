// Names as they stand in a page.
ghost use Rattle.std.specs.Prelude.{◌≡◌, ◌++◌, ◌+◌, ◌<◌, length, drop, IfOk, OnOk};
ghost use Rattle.roster_page.specs.Escaped.{entity_text, is_special, plain_text, first_text, escaped_within, escaped};

use shown_names::{character_len, is_printable, put_hex};
use std::alloc::AllocError;

// Appends a character by its number of two digits.
#[tactic(auto, unfolding(crate::specs::Escaped::entity_text))]
fn put_entity(out: &mut Vec<u8>, b: u8) -> Result<(), AllocError>
    requires { b < 100 }
    ensures { OnOk result (out.new.items ≡ out.old.items ++ entity_text b) }
{
    out.extend_from_slice(&[b'&', b'#', b'0' + b / 10, b'0' + b % 10, b';'])
}

fn is_special(b: u8) -> bool
    ensures { result ≡ is_special b }
{
    b == b'"' || b == b'&' || b == b'\'' || b == b'<' || b == b'>' || b == b'\\'
}

// Appends a byte of a character.
#[tactic(auto, unfolding(crate::specs::Escaped::plain_text))]
fn put_plain(out: &mut Vec<u8>, b: u8) -> Result<(), AllocError>
    ensures { OnOk result (out.new.items ≡ out.old.items ++ plain_text b) }
{
    if is_special(b) {
        return put_entity(out, b);
    }
    out.push(b)?;
    Ok(())
}

// Appends the first byte of a character of `bytes` bytes, or where these are 0 a byte that is in none.
#[tactic(auto, unfolding(crate::specs::Escaped::first_text))]
fn put_first(out: &mut Vec<u8>, b: u8, bytes: usize) -> Result<(), AllocError>
    ensures { OnOk result (out.new.items ≡ out.old.items ++ first_text b bytes) }
{
    if 0 < bytes && is_printable(b) {
        put_plain(out, b)
    } else {
        put_hex(out, b)
    }
}

// Appends the byte at a place, where `within` bytes of a character are still to come, and gives how many are then left.
fn put_byte(
    out: &mut Vec<u8>,
    name: &[u8],
    place: usize,
    within: usize,
) -> Result<usize, AllocError>
    requires { place < length name.now }
    ensures { IfOk result (λ w. out.new.items ++ escaped_within w (drop (place + 1) name.now)
        ≡ out.old.items ++ escaped_within within (drop place name.now)) }
{
    if within > 0 {
        put_plain(out, name[place])?;
        return Ok(within - 1);
    }
    let bytes = character_len(&name[place..]);
    put_first(out, name[place], bytes)?;
    Ok(bytes.saturating_sub(1))
}

/// Appends a name. What the markup would take for its own stands as a character's number, and a byte that a reader
/// doesn't see, or that is in no character, as `\xHH`.
pub fn put_escaped(out: &mut Vec<u8>, name: &[u8]) -> Result<(), AllocError>
    ensures { OnOk result (out.new.items ≡ out.old.items ++ escaped name.now) }
{
    let mut within = 0;
    for place in 0..name.len() {
        within = put_byte(out, name, place, within)?;
    }
    Ok(())
}
