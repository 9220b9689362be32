// The roster at the end of a text of `staff`, by reading alone.
ghost use Rattle.std.specs.Prelude.{◌≡◌, ◌≢◌, ℕ, ◌++◌, ◌<◌, ◌≤◌, List, length, MatchOption, IfOk};
ghost use Rattle.rwsp_terms.specs.declared.limits.TheConstants.{LONGEST_LOG};
ghost use Rattle.rwsp_terms.specs.declared.data.Symbol.{Symbol};
ghost use Rattle.rwsp_terms.specs.Roster.{IsRoster};
ghost use Rattle.crew_size.specs.Sizes.{with_weeks, IsSize};
ghost use Rattle.crew_size.specs.Places.{IsHeadingNumber, MayFollow, heading_line};
ghost use Rattle.crew_size.specs.declared.heading.Heading.{Heading};
ghost use Rattle.crew_checker.specs.Least.{HasLeast, SpellsFor, BeginsWithLog, BeginsWithSection, IsLeastEnd};

use crew_size::{Heading, heading_of, may_stand, section_end, with_weeks};
use refutation_log::{LineReader, LogKind, read_log};
use roster_print::read_roster;
use rwsp_model::{Fail, Problem, Roster};
use rwsp_terms::limits::LONGEST_FILE;
use std::alloc::{AllocError, Global};

/// The roster at the end of a text of `staff`, with its number of weeks; None where the bytes are no such text. Each
/// log is read, but what it says isn't judged, nor is the roster. It takes time by the bytes.
pub fn read_least(
    alloc: Global,
    problem: &Problem,
    bytes: &[u8],
) -> Result<Option<(u32, Roster)>, AllocError>
    requires { length bytes.now ≤ LONGEST_LOG }
    ensures text { IfOk result (λ found. MatchOption found
        ((n : ℕ) (s : List Symbol) → HasLeast problem.now bytes.now n s → ⊥)
        (λ least. HasLeast problem.now bytes.now least.0 least.1.cells)) }
    ensures size { IfOk result (λ found. MatchOption found (Unit {0}) (λ least. IsSize problem.now least.0)) }
    ensures roster { IfOk result (λ found. MatchOption found (Unit {0})
        (λ least. IsRoster (with_weeks problem.now least.0) least.1.cells)) }
    ensures days { IfOk result (λ found. MatchOption found (Unit {0})
        (λ least. least.1.days ≡ problem.now.days)) }
{
    problem.prove_limits();
    let mut sizes = None;
    let mut rest = bytes;
    while let Some((weeks, behind)) = section(alloc, problem, sizes, rest)? {
        sizes = Some((weeks, weeks + 1));
        rest = behind;
    }
    least_end(alloc, problem, sizes, rest)
}

// The number of weeks of the section with which the bytes begin behind sections of these sizes, and what follows it.
fn section<'a>(
    alloc: Global,
    problem: &Problem,
    sizes: Option<(u32, u32)>,
    bytes: &'a [u8],
) -> Result<Option<(u32, &'a [u8])>, AllocError>
    requires { length bytes.now ≤ LONGEST_LOG }
    ensures section { IfOk result (λ found. MatchOption found
        ((m : ℕ) (rest : List ℕ) → BeginsWithSection problem.now sizes bytes.now m rest → ⊥)
        (λ section. BeginsWithSection problem.now sizes bytes.now section.0 section.1.now)) }
    ensures shorter { IfOk result (λ found. MatchOption found (Unit {0})
        (λ section. length section.1.now < length bytes.now)) }
{
    let Some((heading, behind)) = heading_here(problem, sizes, bytes) else {
        return Ok(None);
    };
    let Heading::Refuted(weeks) = heading else {
        return Ok(None);
    };
    match behind_log(alloc, problem, weeks, behind)? {
        Some(rest) => Ok(Some((weeks, rest))),
        None => Ok(None),
    }
}

// The heading with which the bytes begin, where it may follow sections of these sizes, and what is behind it.
fn heading_here<'a>(
    problem: &Problem,
    sizes: Option<(u32, u32)>,
    bytes: &'a [u8],
) -> Option<(Heading, &'a [u8])>
    ensures heading { MatchOption result
        ((h : Heading) (rest : List ℕ)
        → IsHeadingNumber h → MayFollow problem.now sizes h → bytes.now ≢ heading_line h ++ rest)
        (λ here. IsHeadingNumber here.0 × MayFollow problem.now sizes here.0
        × (bytes.now ≡ heading_line here.0 ++ here.1.now)) }
    ensures shorter { MatchOption result (Unit {0}) (λ here. length here.1.now < length bytes.now) }
{
    let mut reader = LineReader::new(bytes);
    let Some(line) = reader.next() else {
        return None;
    };
    let Some(heading) = heading_of(line) else {
        return None;
    };
    if may_stand(problem, sizes, heading) {
        Some((heading, reader.rest()))
    } else {
        None
    }
}

// What follows the log for this number of weeks with which the bytes begin.
fn behind_log<'a>(
    alloc: Global,
    problem: &Problem,
    weeks: u32,
    bytes: &'a [u8],
) -> Result<Option<&'a [u8]>, AllocError>
    requires size { IsSize problem.now weeks }
    requires few { length bytes.now ≤ LONGEST_LOG }
    ensures log { IfOk result (λ found. MatchOption found
        ((rest : List ℕ) → BeginsWithLog problem.now weeks bytes.now rest → ⊥)
        (λ rest. BeginsWithLog problem.now weeks bytes.now rest.now)) }
    ensures shorter { IfOk result (λ found. MatchOption found (Unit {0})
        (λ rest. length rest.now ≤ length bytes.now)) }
{
    problem.prove_limits();
    let (log, rest) = bytes.split_at(section_end(bytes));
    let sized = with_weeks(problem, weeks)?;
    match read_log(alloc, &sized, LogKind::WithoutGoal, log) {
        Ok(_) => Ok(Some(rest)),
        Err(Fail::Refused(_)) => Ok(None),
        Err(Fail::Memory) => Err(AllocError),
    }
}

// The roster of the bytes, with its number of weeks, where they are its heading and its text behind sections of these
// sizes.
fn least_end(
    alloc: Global,
    problem: &Problem,
    sizes: Option<(u32, u32)>,
    bytes: &[u8],
) -> Result<Option<(u32, Roster)>, AllocError>
    ensures end { IfOk result (λ found. MatchOption found
        ((n : ℕ) (s : List Symbol) → IsLeastEnd problem.now sizes bytes.now n s → ⊥)
        (λ least. IsLeastEnd problem.now sizes bytes.now least.0 least.1.cells)) }
    ensures size { IfOk result (λ found. MatchOption found (Unit {0}) (λ least. IsSize problem.now least.0)) }
    ensures roster { IfOk result (λ found. MatchOption found (Unit {0})
        (λ least. IsRoster (with_weeks problem.now least.0) least.1.cells)) }
    ensures days { IfOk result (λ found. MatchOption found (Unit {0})
        (λ least. least.1.days ≡ problem.now.days)) }
{
    let Some((heading, behind)) = heading_here(problem, sizes, bytes) else {
        return Ok(None);
    };
    let Heading::Found(weeks) = heading else {
        return Ok(None);
    };
    match sized_roster(alloc, problem, weeks, behind)? {
        Some(roster) => Ok(Some((weeks, roster))),
        None => Ok(None),
    }
}

// The roster of this number of weeks that the bytes spell.
fn sized_roster(
    alloc: Global,
    problem: &Problem,
    weeks: u32,
    bytes: &[u8],
) -> Result<Option<Roster>, AllocError>
    requires { IsSize problem.now weeks }
    ensures spelled { IfOk result (λ found. MatchOption found
        ((s : List Symbol) → SpellsFor problem.now weeks bytes.now s → ⊥)
        (λ roster. SpellsFor problem.now weeks bytes.now roster.cells)) }
    ensures roster { IfOk result (λ found. MatchOption found (Unit {0})
        (λ roster. IsRoster (with_weeks problem.now weeks) roster.cells)) }
    ensures days { IfOk result (λ found. MatchOption found (Unit {0})
        (λ roster. roster.days ≡ problem.now.days)) }
{
    if bytes.len() > LONGEST_FILE as usize {
        return Ok(None);
    }
    let sized = with_weeks(problem, weeks)?;
    match read_roster(alloc, &sized, bytes) {
        Ok(roster) => Ok(Some(roster)),
        Err(Fail::Refused(_)) => Ok(None),
        Err(Fail::Memory) => Err(AllocError),
    }
}
