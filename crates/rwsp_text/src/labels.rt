// Labels with numbers.
ghost use Rattle.std.specs.Prelude.{◌≡◌, ◌++◌, OnOk};
ghost use Rattle.std.specs.Fmt.{decimal};
ghost use Rattle.rwsp_text.specs.Labels.{at_line};

use crate::put_number;
use std::alloc::AllocError;

/// Appends a label and a number.
pub fn put_labelled(out: &mut Vec<u8>, label: &[u8], number: u32) -> Result<(), AllocError>
    ensures { OnOk result (out.new.items ≡ out.old.items ++ label.now ++ decimal number) }
{
    out.extend_from_slice(label)?;
    put_number(out, u64::from(number))
}

/// Appends the number of the line to a label.
pub fn put_line_number(out: &mut Vec<u8>, label: &[u8], number: u32) -> Result<(), AllocError>
    ensures { OnOk result (out.new.items ≡ out.old.items ++ at_line label.now number) }
{
    out.extend_from_slice(label)?;
    put_labelled(out, b" line ".as_slice(), number)
}
