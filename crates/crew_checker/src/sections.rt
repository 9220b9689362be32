// The sections of a staff text, judged one after the other.
ghost use Rattle.std.specs.Prelude.{◌≡◌, ◌≢◌, ℕ, ◌<◌, ◌≤◌, ◌^◌, List, length, MatchOption, IfOk, IsSome};
ghost use Rattle.rwsp_terms.specs.declared.limits.TheConstants.{LONGEST_LOG, MOST_WORKERS};
ghost use Rattle.rwsp_terms.specs.Instance.{Instance};
ghost use Rattle.rwsp_model.specs.Refusals.{MatchAnswer};
ghost use Rattle.refutation_terms.specs.declared.lines.LogKind.TheVariants.{WithoutGoal};
ghost use Rattle.refutation_terms.specs.Log.{Log};
ghost use Rattle.refutation_terms.specs.Verdict.{IsAccepted, IsRefused};
ghost use Rattle.crew_size.specs.Sizes.{with_weeks, IsSize};
ghost use Rattle.crew_size.specs.Texts.{refuted_line, roster_line, none_line};
ghost use Rattle.crew_size.specs.Places.{Place, IsPlace, IsAt, IsNextOf, IsLastOf, IsHeadingNumber, MayFollow, heading_line, IsShortPlace, IsFurther, IsHeadingAnswer, first_size};
ghost use Rattle.crew_size.specs.declared.heading.Heading.{Heading};

use clean_words::Gate;
use crew_size::{
    Heading, StaffRefusal, Staffed, count_feeds, heading_of, may_stand, section_end, with_weeks,
};
use refutation_checker::{UncheckedLog, check_with};
use refutation_log::{LineReader, LogKind, LogRefusal};
use roster_checker::first_broken;
use roster_print::read_roster;
use rwsp_model::{Fail, Problem};
use rwsp_terms::limits::LONGEST_FILE;
use std::alloc::Global;
use std::marker::Model;
use std::thread::Threads;

// Who judges logs: this number of workers at most, who pass the gate.
#[derive(Drop)]
struct Workers<'a, R, G> {
    rt: &'a R,
    count: u32,
    gate: &'a G,
}

/// What is left of a staff text behind the sections that have been judged.
#[derive(Drop)]
pub struct Sections<'a> {
    // the first number of weeks and the next one, where there is a section
    sizes: Option<(u32, u32)>,
    rest: &'a [u8],
    // the number of the first line that is left
    line: u32,
}

impl<'a> Model for Sections<'a> {
    ghost use Rattle.crew_size.specs.Places.{Place};

    ghost Value = { Place };

    ghost view = { λ s. record { sizes = s.sizes; rest = s.rest.now; line = s.line } };
}

impl<'a> Sections<'a> {
    /// All sections of the text.
    pub fn new(bytes: &'a [u8]) -> Sections<'a>
        ensures sizes { result.sizes ≡ None }
        ensures rest { result.rest ≡ bytes.now }
        ensures line { result.line ≡ 1 }
    {
        Sections {
            sizes: None,
            rest: bytes,
            line: 1,
        }
    }

    /// Judges the next section, or the end: None behind a section whose log passes.
    pub fn pass<R: Threads + Sync, G: Gate>(
        &mut self,
        rt: &R,
        alloc: Global,
        problem: &Problem,
        workers: u32,
        gate: &G,
    ) -> Result<Option<Staffed>, Fail<StaffRefusal>>
        requires short { IsShortPlace self.old }
        requires workers { (1 ≤ workers) × (workers ≤ MOST_WORKERS) }
        ensures verdict { (text : List ℕ)
            → IsPlace problem.now text self.old → IsHeadingAnswer problem.now text self.new result }
        ensures further { IfOk result (λ found. MatchOption found (IsFurther self.new self.old) (λ _. Unit {0})) }
    {
        let mut reader = LineReader::new(self.rest);
        let Some(line) = reader.next() else {
            return Err(Fail::Refused(StaffRefusal::Ends));
        };
        let Some(heading) = heading_in_place(problem, self.sizes, line) else {
            return Err(Fail::Refused(StaffRefusal::Form(self.line)));
        };
        let bytes = reader.rest();
        match heading {
            Heading::Refuted(weeks) => {
                let judges = Workers {
                    rt,
                    count: workers,
                    gate,
                };
                let passed = self.pass_log(&judges, alloc, problem, weeks, bytes);
                drop(judges);
                passed
            }
            Heading::Found(weeks) => {
                roster_end(alloc, problem, self.sizes, self.line, weeks, bytes)
            }
            Heading::NoneTo(last) => none_end(self.sizes, self.line, last, bytes),
        }
    }

    // Judges the log of this number of weeks, with which the bytes behind its heading begin.
    fn pass_log<R: Threads + Sync, G: Gate>(
        &mut self,
        workers: &Workers<R, G>,
        alloc: Global,
        problem: &Problem,
        weeks: u32,
        bytes: &'a [u8],
    ) -> Result<Option<Staffed>, Fail<StaffRefusal>>
        requires short { IsShortPlace self.old }
        requires behind { length bytes.now < length self.old.rest }
        requires next { IsNextOf problem.now self.old.sizes weeks }
        requires workers { (1 ≤ workers.now.count) × (workers.now.count ≤ MOST_WORKERS) }
        ensures verdict { (text : List ℕ)
            → IsAt problem.now text self.old.sizes self.old.line (refuted_line weeks) bytes.now →
            IsHeadingAnswer problem.now text self.new result }
        ensures further { IfOk result (λ found. MatchOption found (IsFurther self.new self.old) (λ _. Unit {0})) }
    {
        let (log, rest) = bytes.split_at(section_end(bytes));
        match check_log(workers, alloc, problem, weeks, log) {
            Err(Fail::Memory) => Err(Fail::Memory),
            Err(Fail::Refused(why)) => Err(Fail::Refused(StaffRefusal::Log(weeks, why))),
            Ok(()) => {
                self.sizes = Some((first_size(self.sizes, weeks), weeks + 1));
                self.line += 1 + count_feeds(log) as u32;
                self.rest = rest;
                Ok(None)
            }
        }
    }
}

// Checks the log, which has no goal, for the problem with this number of weeks.
fn check_log<R: Threads + Sync, G: Gate>(
    workers: &Workers<R, G>,
    alloc: Global,
    problem: &Problem,
    weeks: u32,
    bytes: &[u8],
) -> Result<(), Fail<LogRefusal>>
    requires size { IsSize problem.now weeks }
    requires long { length bytes.now ≤ LONGEST_LOG }
    requires workers { (1 ≤ workers.now.count) × (workers.now.count ≤ MOST_WORKERS) }
    ensures { MatchAnswer result (λ _. (g : Log) × IsAccepted (with_weeks problem.now weeks) WithoutGoal bytes.now g)
        (IsRefused (with_weeks problem.now weeks) WithoutGoal bytes.now) }
{
    let Ok(sized) = with_weeks(problem, weeks) else {
        return Err(Fail::Memory);
    };
    let log = UncheckedLog {
        kind: LogKind::WithoutGoal,
        bytes,
    };
    let checked = check_with(workers.rt, alloc, &sized, log, workers.count, workers.gate);
    drop(sized);
    match checked {
        Ok(accepted) => {
            drop(accepted);
            Ok(())
        }
        Err(fail) => Err(fail),
    }
}

// The heading that the line is, where it may follow sections of these sizes.
fn heading_in_place(problem: &Problem, sizes: Option<(u32, u32)>, line: &[u8]) -> Option<Heading>
    ensures { MatchOption result
        ((h : Heading) → IsHeadingNumber h → MayFollow problem.now sizes h → line.now ≢ heading_line h)
        (λ h. MayFollow problem.now sizes h × (line.now ≡ heading_line h)) }
{
    let heading = heading_of(line)?;
    if may_stand(problem, sizes, heading) {
        Some(heading)
    } else {
        None
    }
}

// The verdict on a text that ends with these bytes behind the heading of a roster of this size.
fn roster_end(
    alloc: Global,
    problem: &Problem,
    sizes: Option<(u32, u32)>,
    line: u32,
    weeks: u32,
    bytes: &[u8],
) -> Result<Option<Staffed>, Fail<StaffRefusal>>
    requires next { IsNextOf problem.now sizes weeks }
    ensures verdict { (text : List ℕ) (place : Place) → IsAt problem.now text sizes line (roster_line weeks) bytes.now →
        IsHeadingAnswer problem.now text place result }
    ensures some { IfOk result IsSome }
{
    if bytes.len() > LONGEST_FILE as usize {
        return Err(Fail::Refused(StaffRefusal::Form(line)));
    }
    let Ok(sized) = with_weeks(problem, weeks) else {
        return Err(Fail::Memory);
    };
    match read_roster(alloc, &sized, bytes) {
        Err(Fail::Memory) => Err(Fail::Memory),
        Err(Fail::Refused(why)) => Err(Fail::Refused(StaffRefusal::Roster(weeks, why))),
        Ok(roster) => match first_broken(&sized, &roster) {
            Some(broken) => Err(Fail::Refused(StaffRefusal::Breaks(weeks, broken))),
            None => Ok(Some(Staffed::Least(first_size(sizes, weeks), weeks))),
        },
    }
}

// The verdict on a text that ends with these bytes behind the heading of an end without a roster.
fn none_end(
    sizes: Option<(u32, u32)>,
    line: u32,
    last: u32,
    bytes: &[u8],
) -> Result<Option<Staffed>, Fail<StaffRefusal>>
    requires last { IsLastOf sizes last }
    requires few { line < 2 ^ 31 }
    ensures verdict { (P : Instance) (text : List ℕ) (place : Place)
        → IsAt P text sizes line (none_line last) bytes.now →
        IsHeadingAnswer P text place result }
    ensures some { IfOk result IsSome }
{
    if !bytes.is_empty() {
        return Err(Fail::Refused(StaffRefusal::Form(line + 1)));
    }
    Ok(Some(Staffed::NoneTo(first_size(sizes, last), last)))
}

// The first number of weeks, or this one where there is no section.
fn first_size(sizes: Option<(u32, u32)>, weeks: u32) -> u32
    ensures { result ≡ first_size sizes weeks }
{
    match sizes {
        None => weeks,
        Some((first, _)) => first,
    }
}
