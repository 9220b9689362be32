// The lines of statements.
#![tactic(auto, unfolding(crate::specs::Statements::line, crate::specs::Statements::statement_words), using(crate::proofs::Joined::one_of))]

ghost use Rattle.std.specs.Prelude.{◌≡◌, ◌++◌, ◌∷◌, [], All, OnOk};
ghost use Rattle.rwsp_terms.specs.Instance.{IsSymbol};
ghost use Rattle.refutation_log.specs.Printing.{IsCellOf};
ghost use Rattle.plain_words.specs.Statements.{Says, Headed, Counted, ByNumbers, Cells, said, said_if, lines, told_lines};
ghost use Rattle.plain_words.specs.LogTold.{first_statement, enough_statement, none_statement};

use crate::counted::put_counted;
use crate::filled::put_filled;
use crate::part::Part::{self, Of, Range, Weeks};
use crate::pieces::{
    BY_NUMBERS, Done, FIRST_ENOUGH, LEAST_ENOUGH, LINE_END, NONE_ENOUGH, TOGETHER, TOLD, put,
};
use crate::reason::{Rosters, put_cells, put_numbers, rules_text};
use refutation_terms::GivenCell;
use rwsp_model::Problem;
use rwsp_terms::{Bounds, Symbol};

/// Who tells: what stands before each line, and the problem that it is about.
#[derive(Clone, Copy)]
pub struct Teller<'a> {
    pub front: &'a [u8],
    pub problem: &'a Problem,
}

/// The program, which tells of a problem.
pub fn told_by(problem: &Problem) -> Teller<'_>
    ensures front { result.front.now ≡ TOLD.now }
    ensures problem { result.problem.now ≡ problem.now }
{
    Teller {
        front: TOLD,
        problem,
    }
}

/// Appends the line of a sentence, with these parts in its holes.
pub fn put_line(out: &mut Vec<u8>, by: &Teller, text: &[u8], parts: &[Part]) -> Done
    ensures { OnOk result (out.new.items ≡ out.old.items ++ said by.now (Says text.now parts.now)) }
{
    put(out, by.front)?;
    put_filled(out, by.problem, text, parts)?;
    put(out, LINE_END)
}

/// Appends the line of a sentence, where the test says so.
pub fn put_if(out: &mut Vec<u8>, by: &Teller, is_said: bool, text: &[u8], parts: &[Part]) -> Done
    ensures { OnOk result (out.new.items ≡ out.old.items ++ lines by.now (said_if is_said (Says text.now parts.now))) }
{
    if is_said {
        put_line(out, by, text, parts)
    } else {
        Ok(())
    }
}

/// Tells a sentence, with these parts in its holes.
pub fn put_told(out: &mut Vec<u8>, problem: &Problem, text: &[u8], parts: &[Part]) -> Done
    ensures { OnOk result (out.new.items ≡ out.old.items ++ told_lines problem.now (Says text.now parts.now ∷ [])) }
{
    put_line(out, &told_by(problem), text, parts)
}

/// Tells a sentence behind a name or a date.
pub fn put_headed_told(out: &mut Vec<u8>, problem: &Problem, head: &[u8], text: &[u8]) -> Done
    ensures { OnOk result (out.new.items ≡ out.old.items ++ told_lines problem.now (Headed head.now text.now ∷ [])) }
{
    put(out, TOLD)?;
    put(out, head)?;
    put(out, text)?;
    put(out, LINE_END)
}

/// Appends the line of what counting the blocks of a symbol shows, behind these words, where the test says so.
pub fn put_counted_if(out: &mut Vec<u8>, by: &Teller, is_said: bool, head: &[u8], x: Symbol) -> Done
    requires { IsSymbol by.now.problem.now x }
    ensures { OnOk result (out.new.items ≡ out.old.items ++ lines by.now (said_if is_said (Counted head.now x))) }
{
    if !is_said {
        return Ok(());
    }
    put(out, by.front)?;
    put(out, head)?;
    put_counted(out, by.problem, x)?;
    put(out, LINE_END)
}

/// Tells that given cells and these rules can't stand together.
pub fn put_cells_told(
    out: &mut Vec<u8>,
    problem: &Problem,
    given: &[GivenCell],
    rules: &[u32],
) -> Done
    requires { All (IsCellOf problem.now) given.now }
    ensures { OnOk result (out.new.items ≡ out.old.items ++ told_lines problem.now (Cells given.now rules.now ∷ [])) }
{
    put(out, TOLD)?;
    put_cells(out, problem, given, rules)?;
    put(out, LINE_END)
}

/// Tells that no such roster meets the rules with these numbers together.
pub fn put_numbers_told(
    out: &mut Vec<u8>,
    problem: &Problem,
    rosters: Rosters,
    rules: &[u32],
) -> Done
    ensures { OnOk result (out.new.items ≡ out.old.items ++ told_lines problem.now (ByNumbers rosters rules.now ∷ [])) }
{
    put(out, TOLD)?;
    put_filled(out, problem, rules_text(BY_NUMBERS, rules), &[Of(rosters)])?;
    put_numbers(out, rules)?;
    put(out, LINE_END)
}

/// Tells what is said before the rules that no such roster meets together, or that there is none whatever the rules.
pub fn put_first_told(out: &mut Vec<u8>, problem: &Problem, rosters: Rosters, rules: &[u32]) -> Done
    ensures { OnOk result (out.new.items
        ≡ out.old.items ++ told_lines problem.now (first_statement rosters rules.now ∷ [])) }
{
    put_told(out, problem, rules_text(TOGETHER, rules), &[Of(rosters)])
}

/// Tells that a number of weeks is enough, and which fewer are not.
pub fn put_enough_told(out: &mut Vec<u8>, problem: &Problem, low: u32, weeks: u32) -> Done
    ensures { OnOk result (out.new.items ≡ out.old.items ++ told_lines problem.now (enough_statement low weeks ∷ [])) }
{
    if low == weeks {
        return put_told(out, problem, FIRST_ENOUGH, &[Weeks(weeks)]);
    }
    let fewer = Bounds {
        least: low,
        greatest: weeks.saturating_sub(1),
    };
    put_told(out, problem, LEAST_ENOUGH, &[Weeks(weeks), Range(fewer)])
}

/// Tells which numbers of weeks have no roster.
pub fn put_none_told(out: &mut Vec<u8>, problem: &Problem, low: u32, last: u32) -> Done
    ensures { OnOk result (out.new.items ≡ out.old.items ++ told_lines problem.now (none_statement low last ∷ [])) }
{
    let range = Bounds {
        least: low,
        greatest: last,
    };
    put_told(out, problem, NONE_ENOUGH, &[Range(range)])
}
