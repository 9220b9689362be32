// The roster of an answer of `best`, by reading alone.
ghost use Rattle.std.specs.Prelude.{◌≡◌, ◌≢◌, ◌+◌, ◌<◌, ◌≤◌, List, length, MatchBool, MatchOption, IfOk};
ghost use Rattle.rwsp_terms.specs.declared.limits.TheConstants.{DAYS_OF_WEEK, LONGEST_LOG};
ghost use Rattle.rwsp_terms.specs.declared.data.Symbol.{Symbol};
ghost use Rattle.rwsp_terms.specs.Roster.{IsRoster};
ghost use Rattle.roster_print.specs.RosterText.{roster_text};
ghost use Rattle.commands.specs.ReadBest.{IsFreeLog, IsBestWith, AreBestParts, free_line, left_behind, lines_len};

use refutation_log::{LineReader, Log, LogKind, read_log};
use roster_checker::free_weekends;
use roster_print::{print_roster, read_roster};
use rwsp_model::{Fail, Problem, Roster};
use rwsp_terms::limits::{DAYS_OF_WEEK, LONGEST_FILE};
use rwsp_text::put_labelled;
use std::alloc::{AllocError, Global};

/// The roster of an answer of `best`; None where the bytes are no such answer. Its text is as `best` prints it, and the
/// free log behind it is read, but what that says isn't judged, nor is the roster. It takes time by the bytes.
pub fn best_roster(
    alloc: Global,
    problem: &Problem,
    bytes: &[u8],
) -> Result<Option<Roster>, AllocError>
    requires { length bytes.now ≤ LONGEST_LOG }
    ensures best { IfOk result (λ found. MatchOption found
        ((s : List Symbol) → IsBestWith problem.now bytes.now s → ⊥)
        (λ roster. IsBestWith problem.now bytes.now roster.cells)) }
    ensures days { IfOk result (λ found. MatchOption found (Unit {0})
        (λ roster. roster.days ≡ problem.now.days)) }
{
    problem.prove_limits();
    if problem.days() != DAYS_OF_WEEK {
        return Ok(None);
    }
    let mut reader = LineReader::new(bytes);
    let Some(first) = reader.next() else {
        return Ok(None);
    };
    let rest = reader.rest();
    let (part, log) = rest.split_at(lines_len(problem.weeks(), rest));
    of_parts(alloc, problem, first, part, log)
}

// The roster whose text is the part, where the line in front says how many free weekends it has, and the log behind is
// one for one more.
fn of_parts(
    alloc: Global,
    problem: &Problem,
    first: &[u8],
    part: &[u8],
    log: &[u8],
) -> Result<Option<Roster>, AllocError>
    requires weekly { problem.now.days ≡ DAYS_OF_WEEK }
    requires few { length log.now ≤ LONGEST_LOG }
    ensures parts { IfOk result (λ found. MatchOption found
        ((s : List Symbol) → AreBestParts problem.now first.now part.now log.now s → ⊥)
        (λ roster. AreBestParts problem.now first.now part.now log.now roster.cells)) }
    ensures days { IfOk result (λ found. MatchOption found (Unit {0})
        (λ roster. roster.days ≡ problem.now.days)) }
{
    problem.prove_limits();
    let Some(roster) = printed_roster(alloc, problem, part)? else {
        return Ok(None);
    };
    let free = free_weekends(problem, &roster);
    if !says_free(alloc, first, free)? {
        return Ok(None);
    }
    if !is_free_log(alloc, problem, log, free + 1)? {
        return Ok(None);
    }
    Ok(Some(roster))
}

// The roster whose text the bytes are, as it is printed.
fn printed_roster(
    alloc: Global,
    problem: &Problem,
    bytes: &[u8],
) -> Result<Option<Roster>, AllocError>
    ensures printed { IfOk result (λ found. MatchOption found
        ((s : List Symbol) → IsRoster problem.now s → bytes.now ≢ roster_text problem.now s)
        (λ roster. bytes.now ≡ roster_text problem.now roster.cells)) }
    ensures roster { IfOk result (λ found. MatchOption found (Unit {0})
        (λ roster. IsRoster problem.now roster.cells)) }
    ensures days { IfOk result (λ found. MatchOption found (Unit {0})
        (λ roster. roster.days ≡ problem.now.days)) }
{
    problem.prove_limits();
    if bytes.len() > LONGEST_FILE as usize {
        return Ok(None);
    }
    let roster = match read_roster(alloc, problem, bytes) {
        Ok(roster) => roster,
        Err(Fail::Refused(_)) => return Ok(None),
        Err(Fail::Memory) => return Err(AllocError),
    };
    let text = print_roster(alloc, problem, &roster)?;
    if are_same(text.as_slice(), bytes) {
        Ok(Some(roster))
    } else {
        Ok(None)
    }
}

// Whether the bytes are these.
fn are_same(bytes: &[u8], others: &[u8]) -> bool
    ensures { MatchBool result (bytes.now ≡ others.now) (bytes.now ≢ others.now) }
{
    bytes == others
}

// Whether the line says that there are so many free weekends.
fn says_free(alloc: Global, line: &[u8], free: u32) -> Result<bool, AllocError>
    ensures { IfOk result (λ says. MatchBool says (line.now ≡ free_line free) (line.now ≢ free_line free)) }
{
    let mut text = Vec::new(alloc);
    put_labelled(&mut text, b"free ".as_slice(), free)?;
    text.push(b'\n')?;
    Ok(are_same(line, text.as_slice()))
}

// Whether the bytes are a free log with the goal.
fn is_free_log(
    alloc: Global,
    problem: &Problem,
    bytes: &[u8],
    goal: u32,
) -> Result<bool, AllocError>
    requires weekly { problem.now.days ≡ DAYS_OF_WEEK }
    requires few { length bytes.now ≤ LONGEST_LOG }
    ensures { IfOk result (λ is. MatchBool is
        (IsFreeLog problem.now goal bytes.now) (IsFreeLog problem.now goal bytes.now → ⊥)) }
{
    problem.prove_limits();
    match read_log(alloc, problem, LogKind::WithGoal, bytes) {
        Ok(log) => Ok(has_goal(&log, goal)),
        Err(Fail::Refused(_)) => Ok(false),
        Err(Fail::Memory) => Err(AllocError),
    }
}

// Whether the log has the goal.
fn has_goal(log: &Log, goal: u32) -> bool
    ensures { MatchBool result (log.now.goal ≡ Some goal) (log.now.goal ≢ Some goal) }
{
    match log.goal() {
        Some(own) => own == goal,
        None => false,
    }
}

// Of so many lines, how many are left behind a byte.
fn left_behind(lines: u32, byte: u8) -> u32
    requires { 0 < lines }
    ensures { result ≡ left_behind lines byte }
{
    if byte == b'\n' { lines - 1 } else { lines }
}

// How many bytes the first lines have, as many as there are weeks.
fn lines_len(weeks: u32, bytes: &[u8]) -> usize
    ensures value { result ≡ lines_len weeks bytes.now }
    ensures within { result ≤ length bytes.now }
{
    let mut left = weeks;
    for i in 0..bytes.len() {
        if left == 0 {
            return i;
        }
        left = left_behind(left, bytes[i]);
    }
    bytes.len()
}
