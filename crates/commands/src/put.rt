// Numbers and lines.
ghost use Rattle.std.specs.Prelude.{◌≡◌, ◌∷◌, ◌++◌, IfOk, OnOk};
ghost use Rattle.std.specs.List.{flat_map};
ghost use Rattle.std.specs.String.{string_bytes};
ghost use Rattle.std.specs.Fmt.{decimal};
ghost use Rattle.commands.specs.Lines.{not_weekly_line};

use rwsp_text::put_labelled;
use std::alloc::{AllocError, Global};

/// Appends the numbers, each behind a blank.
pub fn put_numbers(out: &mut Vec<u8>, numbers: &[u32]) -> Result<(), AllocError>
    ensures { OnOk result (out.new.items ≡ out.old.items ++ flat_map (λ k. 32 ∷ decimal k) numbers.now) }
{
    for number in numbers {
        put_labelled(out, b" ".as_slice(), *number)?;
    }
    Ok(())
}

/// The line that says that a week has another number of days than seven.
pub fn not_weekly_line(alloc: Global, days: u32) -> Result<String, AllocError>
    ensures { IfOk result (λ t. string_bytes t ≡ not_weekly_line days) }
{
    format!(in alloc; "not weekly: days {days}\n")
}
