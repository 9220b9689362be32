// The text of the first rule that a roster breaks.
ghost use Rattle.std.specs.Prelude.{◌≡◌, ◌++◌, OnOk};
ghost use Rattle.roster_checker.specs.BreaksText.{place_text, breaks_text, HasBroken};

use crate::broken::Broken;
use roster_print::put_rule;
use rwsp_model::{Problem, rule_at};
use rwsp_terms::Rule;
use rwsp_text::put_labelled;
use std::alloc::AllocError;

// Appends where the first bad window begins and how long it is; of a day, nothing.
fn put_place(out: &mut Vec<u8>, rule: Rule, broken: &Broken) -> Result<(), AllocError>
    ensures { OnOk result (out.new.items ≡ out.old.items ++ place_text rule broken.now) }
{
    if let Rule::Day(_) = rule {
        return Ok(());
    }
    put_labelled(out, b" week ".as_slice(), broken.week)?;
    put_labelled(out, b" day ".as_slice(), broken.day)?;
    put_labelled(out, b" length ".as_slice(), broken.length)
}

/// Appends the broken rule of the problem and its place, without an LF.
pub fn put_breaks(out: &mut Vec<u8>, problem: &Problem, broken: &Broken) -> Result<(), AllocError>
    requires { HasBroken problem.now broken.now }
    ensures { OnOk result (out.new.items ≡ out.old.items ++ breaks_text problem.now broken.now) }
{
    put_labelled(out, b"breaks rule ".as_slice(), broken.rule)?;
    out.extend_from_slice(b" ".as_slice())?;
    let rule = rule_at(problem, broken.rule);
    put_rule(out, problem, rule)?;
    put_place(out, rule, broken)
}
