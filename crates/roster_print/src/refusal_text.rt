// The text of a refusal.
ghost use Rattle.std.specs.Prelude.{◌≡◌, ◌++◌, OnOk};
ghost use Rattle.std.specs.Fmt.{decimal};
ghost use Rattle.roster_print.specs.RefusalText.{roster_refusal_text};

use crate::refusal::RosterRefusal;
use rwsp_text::put_labelled;
use std::alloc::AllocError;

// Appends a refusal that ends with a number.
fn put_numbered(out: &mut Vec<u8>, label: &[u8], number: u32) -> Result<(), AllocError>
    ensures { OnOk result (out.new.items ≡ out.old.items ++ (label.now ++ decimal number)) }
{
    put_labelled(out, label, number)
}

/// Appends the refusal without its LF.
pub fn put_roster_refusal(out: &mut Vec<u8>, refusal: RosterRefusal) -> Result<(), AllocError>
    ensures { OnOk result (out.new.items ≡ out.old.items ++ roster_refusal_text refusal) }
{
    match refusal {
        RosterRefusal::Unknown(n) => put_numbered(
            out,
            b"roster refused: unknown line ".as_slice(),
            n,
        ),
        RosterRefusal::Width(n) => put_numbered(out, b"roster refused: width line ".as_slice(), n),
        RosterRefusal::Weeks(n) => put_numbered(out, b"roster refused: weeks ".as_slice(), n),
    }
}
