// The roster that stands in an answer of `plan`, `best` or `staff`.
ghost use Rattle.std.specs.Prelude.{◌≡◌, ℕ, List, IfOk, MatchOption};
ghost use Rattle.rwsp_terms.specs.declared.data.Symbol.{Symbol};
ghost use Rattle.rwsp_terms.specs.Roster.{IsRoster};
ghost use Rattle.crew_size.specs.Sizes.{with_weeks, IsSize};
ghost use Rattle.commands.specs.Files.{IsWithinLimit};
ghost use Rattle.commands.specs.declared.second_file.SecondKind.TheVariants as Kinds;
ghost use Rattle.commands.specs.Roster.{IsJudged, SpellsShort, SpellsNone, StandsIn, IsRosterAnswer, IsRosterAnswerOf, IsRosterTold, roster_answer_text, roster_status};

mod laws;
mod of_best;

use crate::telling::one_told;
use crate::text::Text;
use crate::verify::{BrokenRoster, broken_line, broken_told};
use crew_checker::read_least;
use crew_size::with_weeks;
pub use laws::{
    bests_are_given_back, plans_are_given_back, shown_rosters_stand, staffs_are_given_back,
    staffs_spell_no_roster,
};
use of_best::best_roster;
use plain_words::pieces::NO_ROSTER_THERE;
use roster_checker::first_broken;
use roster_print::{print_roster, read_roster};
use rwsp_model::{Fail, Problem, Roster};
use rwsp_terms::limits::LONGEST_FILE;
use std::alloc::{AllocError, Global};

/// The roster of an answer, or why there is none.
#[derive(Drop)]
pub enum Answer {
    /// It meets every rule: its text.
    Shown(Text),
    /// It has this number of weeks, and breaks a rule.
    Breaks(u32, BrokenRoster),
    /// There is none.
    NoRoster,
}

/// The answer to the bytes of an answer: what is said of the roster that stands in them. It takes time by the bytes.
pub fn job(alloc: Global, problem: &Problem, bytes: &[u8]) -> Result<Answer, AllocError>
    requires { IsWithinLimit Kinds.Log bytes.now }
    ensures says { IfOk result (IsRosterAnswer problem.now bytes.now) }
    ensures own { IfOk result (IsRosterAnswerOf problem.now) }
{
    let Some((weeks, roster)) = roster_in(alloc, problem, bytes)? else {
        return Ok(Answer::NoRoster);
    };
    judged(alloc, problem, weeks, roster)
}

// The roster that stands in the bytes, with its number of weeks. First all of them are taken for a roster, as `plan`
// prints one; then for an answer of `best`; then for one of `staff`.
fn roster_in(
    alloc: Global,
    problem: &Problem,
    bytes: &[u8],
) -> Result<Option<(u32, Roster)>, AllocError>
    requires { IsWithinLimit Kinds.Log bytes.now }
    ensures stands { IfOk result (λ found. MatchOption found
        ((m : ℕ) (s : List Symbol) → StandsIn problem.now bytes.now m s → ⊥)
        (λ here. StandsIn problem.now bytes.now here.0 here.1.cells)) }
    ensures size { IfOk result (λ found. MatchOption found (Unit {0}) (λ here. IsSize problem.now here.0)) }
    ensures roster { IfOk result (λ found. MatchOption found (Unit {0})
        (λ here. IsRoster (with_weeks problem.now here.0) here.1.cells)) }
    ensures days { IfOk result (λ found. MatchOption found (Unit {0})
        (λ here. here.1.days ≡ problem.now.days)) }
{
    problem.prove_limits();
    if let Some(roster) = whole_roster(alloc, problem, bytes)? {
        return Ok(Some((problem.weeks(), roster)));
    }
    if let Some(roster) = best_roster(alloc, problem, bytes)? {
        return Ok(Some((problem.weeks(), roster)));
    }
    read_least(alloc, problem, bytes)
}

// The roster that the bytes spell as a whole.
fn whole_roster(
    alloc: Global,
    problem: &Problem,
    bytes: &[u8],
) -> Result<Option<Roster>, AllocError>
    ensures spelled { IfOk result (λ found. MatchOption found (SpellsNone problem.now bytes.now)
        (λ roster. SpellsShort problem.now bytes.now roster.cells)) }
    ensures roster { IfOk result (λ found. MatchOption found (Unit {0})
        (λ roster. IsRoster problem.now roster.cells)) }
    ensures days { IfOk result (λ found. MatchOption found (Unit {0})
        (λ roster. roster.days ≡ problem.now.days)) }
{
    if bytes.len() > LONGEST_FILE as usize {
        return Ok(None);
    }
    match read_roster(alloc, problem, bytes) {
        Ok(roster) => Ok(Some(roster)),
        Err(Fail::Refused(_)) => Ok(None),
        Err(Fail::Memory) => Err(AllocError),
    }
}

// What is said of a roster with this number of weeks.
fn judged(
    alloc: Global,
    problem: &Problem,
    weeks: u32,
    roster: Roster,
) -> Result<Answer, AllocError>
    requires size { IsSize problem.now weeks }
    requires roster { IsRoster (with_weeks problem.now weeks) roster.cells }
    requires days { roster.days ≡ problem.now.days }
    ensures says { IfOk result (IsJudged problem.now weeks roster) }
    ensures own { IfOk result (IsRosterAnswerOf problem.now) }
{
    let sized = with_weeks(problem, weeks)?;
    match first_broken(&sized, &roster) {
        Some(broken) => Ok(Answer::Breaks(weeks, BrokenRoster { broken, roster })),
        None => {
            let text = print_roster(alloc, &sized, &roster)?;
            Ok(Answer::Shown(Text::of(text)))
        }
    }
}

/// The text of the answer: the roster, or a line.
pub fn text(alloc: Global, problem: &Problem, answer: &Answer) -> Result<Vec<u8>, AllocError>
    requires { IsRosterAnswerOf problem.now answer.now }
    ensures { IfOk result (λ v. v.items ≡ roster_answer_text problem.now answer.now) }
{
    match answer {
        Answer::Shown(text) => text.copy(alloc),
        Answer::Breaks(weeks, breach) => {
            let sized = with_weeks(problem, *weeks)?;
            broken_line(alloc, &sized, breach)
        }
        Answer::NoRoster => Vec::from_slice(alloc, b"no roster in the answer\n".as_slice()),
    }
}

/// What is told of the answer.
pub fn told(alloc: Global, problem: &Problem, answer: &Answer) -> Result<Vec<u8>, AllocError>
    requires { IsRosterAnswerOf problem.now answer.now }
    ensures { IfOk result (λ v. IsRosterTold problem.now answer.now v.items) }
{
    match answer {
        Answer::Shown(_) => Ok(Vec::new(alloc)),
        Answer::Breaks(weeks, breach) => {
            let sized = with_weeks(problem, *weeks)?;
            broken_told(alloc, &sized, breach)
        }
        Answer::NoRoster => one_told(alloc, problem, NO_ROSTER_THERE, &[]),
    }
}

/// The status of the answer.
pub fn status(answer: &Answer) -> u8
    ensures { result ≡ roster_status answer.now }
{
    match answer {
        Answer::Shown(_) => 0,
        Answer::Breaks(..) => 5,
        Answer::NoRoster => 5,
    }
}
