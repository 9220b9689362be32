// The fields of lines, each with a blank in front.
ghost use Rattle.std.specs.Prelude.{◌≡◌, ◌++◌, ◌∷◌, ◌<◌, OnOk};
ghost use Rattle.std.specs.Fmt.{signed_decimal, decimal};
ghost use Rattle.rwsp_terms.specs.Instance.{cells, IsSymbol};
ghost use Rattle.rwsp_text.specs.Fields.{numbers, weight_fields};
ghost use Rattle.refutation_terms.specs.Ranges.{WeightsFit};
ghost use Rattle.refutation_terms.specs.LogText.{place_words, named_weight, way};
ghost use Rattle.refutation_log.specs.Printing.{spaced, weight_words};

use rwsp_model::Problem;
use rwsp_terms::Weight;
use rwsp_text::{put_number, put_signed};
use std::alloc::AllocError;

/// A blank and a word.
pub fn put_word(out: &mut Vec<u8>, word: &[u8]) -> Result<(), AllocError>
    ensures { OnOk result (out.new.items ≡ out.old.items ++ 32 ∷ word.now) }
{
    out.push(b' ')?;
    out.extend_from_slice(word)
}

/// A blank and a number.
pub fn put_count(out: &mut Vec<u8>, count: u32) -> Result<(), AllocError>
    ensures { OnOk result (out.new.items ≡ out.old.items ++ 32 ∷ decimal count) }
{
    out.push(b' ')?;
    put_number(out, u64::from(count))
}

/// A blank, and `over` or `short`.
pub fn put_way(out: &mut Vec<u8>, over: bool) -> Result<(), AllocError>
    ensures { OnOk result (out.new.items ≡ out.old.items ++ 32 ∷ way over) }
{
    if over {
        put_word(out, b"over")
    } else {
        put_word(out, b"short")
    }
}

/// The week and the day of a position, each behind a blank.
pub fn put_place(out: &mut Vec<u8>, problem: &Problem, p: u32) -> Result<(), AllocError>
    requires { p < cells problem.now }
    ensures { OnOk result (out.new.items ≡ out.old.items ++ spaced (place_words problem.now p)) }
{
    problem.prove_limits();
    let days = problem.days();
    put_count(out, p / days + 1)?;
    put_count(out, p % days + 1)
}

/// All numbers, each behind a blank.
pub fn put_numbers(out: &mut Vec<u8>, all: &[u32]) -> Result<(), AllocError>
    ensures { OnOk result (out.new.items ≡ out.old.items ++ spaced (numbers all.now)) }
{
    for number in all {
        put_count(out, *number)?;
    }
    Ok(())
}

/// The day, the name and the value of each weight, each behind a blank.
pub fn put_weights(
    out: &mut Vec<u8>,
    problem: &Problem,
    entries: &[Weight],
) -> Result<(), AllocError>
    requires { WeightsFit problem.now entries.now }
    ensures { OnOk result (out.new.items ≡ out.old.items ++ spaced (weight_words problem.now entries.now)) }
{
    for entry in entries {
        put_weight(out, problem, entry)?;
    }
    Ok(())
}

fn put_weight(out: &mut Vec<u8>, problem: &Problem, entry: &Weight) -> Result<(), AllocError>
    requires { IsSymbol problem.now entry.now.symbol }
    ensures { OnOk result (out.new.items ≡ out.old.items
        ++ spaced (weight_fields (named_weight problem.now entry.now))) }
{
    put_count(out, entry.day)?;
    put_word(out, problem.name(entry.symbol))?;
    put_value(out, entry.value)
}

fn put_value(out: &mut Vec<u8>, value: i32) -> Result<(), AllocError>
    ensures { OnOk result (out.new.items ≡ out.old.items ++ 32 ∷ signed_decimal value) }
{
    out.push(b' ')?;
    put_signed(out, value)
}
