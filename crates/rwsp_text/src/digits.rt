// Numbers in decimal digits.
ghost use Rattle.std.specs.Prelude.{◌≡◌, ◌+◌, ◌<◌, ◌≤◌, ◌^◌, ◌++◌, length, true, OnOk, OnErr};
ghost use Rattle.std.specs.List.{list_all};
ghost use Rattle.std.specs.Char.{is_ascii_digit};
ghost use Rattle.std.specs.Fmt.{decimal, signed_decimal};
ghost use Rattle.rwsp_text.specs.Numbers.{number_of, value_of};

use itoa::Buffer;
use std::alloc::AllocError;

fn are_digits(bytes: &[u8]) -> bool
    ensures { result ≡ list_all is_ascii_digit bytes.now }
{
    bytes.iter().all(|b| b.is_ascii_digit())
}

fn value(bytes: &[u8]) -> u64
    requires few { length bytes.now ≤ 9 }
    requires digits { list_all is_ascii_digit bytes.now ≡ true }
    ensures value { result ≡ value_of bytes.now }
    ensures small { result < 2 ^ 32 }
{
    let mut n: u64 = 0;
    for b in bytes {
        n = n * 10 + u64::from(*b - b'0');
    }
    n
}

/// The number that 1 to 9 decimal digits spell, and None where the bytes are anything else. Takes no memory.
pub fn number(bytes: &[u8]) -> Option<u32>
    ensures { result ≡ number_of bytes.now }
{
    if !bytes.is_empty() && bytes.len() <= 9 && are_digits(bytes) {
        Some(value(bytes) as u32)
    } else {
        None
    }
}

/// Appends the decimal digits of a number, with no zero in front. Where there is no memory nothing is appended.
pub fn put_number(out: &mut Vec<u8>, value: u64) -> Result<(), AllocError>
    ensures ok { OnOk result (out.new.items ≡ out.old.items ++ decimal value) }
    ensures err { OnErr result (out.new.items ≡ out.old.items) }
{
    let mut digits = Buffer::new();
    out.extend_from_slice(digits.format(value).as_bytes())
}

/// Appends the decimal digits of a number that may be negative, behind a `-` where it is. Where there is no memory
/// nothing is appended.
pub fn put_signed(out: &mut Vec<u8>, value: i32) -> Result<(), AllocError>
    ensures ok { OnOk result (out.new.items ≡ out.old.items ++ signed_decimal value) }
    ensures err { OnErr result (out.new.items ≡ out.old.items) }
{
    let mut text = Buffer::new();
    out.extend_from_slice(text.format(value).as_bytes())
}
