// The header of a log's text: its version, the rules that it names, and its turn, its goal or its given cells.
ghost use Rattle.std.specs.Prelude.{◌≡◌, ◌≤◌, ◌+◌, ◌++◌, Some, IfOk, MatchOption, MatchResult};
ghost use Rattle.rwsp_model.specs.Refusals.{MatchAnswer};
ghost use Rattle.refutation_terms.specs.Ranges.{AreRules};
ghost use Rattle.refutation_terms.specs.LogText.{version_text, rules_text, goal_text};
ghost use Rattle.refutation_terms.specs.Verdict.{kind_of, header_lines, TurnsTo, VersionCause, RulesCause, GoalCause};
ghost use Rattle.rwsp_text.specs.Lines.{words_of};
ghost use Rattle.refutation_log.specs.Refusals.{SpellsVersion, SpellsRules, SpellsGoal, IsTurnRefused, SpellsOpening, IsOpeningRefused};
ghost use Rattle.refutation_log.specs.Reading.{named_at, goal_at, turn_at};
ghost use Rattle.refutation_log.specs.Headers.{BeginsWithHeader, IsHeaderRefused, StopsFor, version_counts, HasOpening, IsThird, StopsAtThird, OpeningReadCause};

use crate::LineRefusal;
use crate::cells_line::cells_line;
use crate::line::{body_of, rule_numbers};
use refutation_terms::{LogKind, LogRefusal, Opening, Terms, Turn, Version};
use rwsp_model::{Fail, Problem};
use rwsp_terms::RuleList;
use rwsp_text::{Fields, LineReader};
use std::alloc::{AllocError, Global};

/// The number of lines of the header of a log with this opening and of these terms: three with a turn, a goal or given
/// cells, or where it may count, else two.
pub fn lines_of_header(opening: &Opening, terms: Terms) -> u32
    ensures value { result ≡ header_lines opening.now terms.goal terms.counts }
    ensures few { result ≤ 3 }
{
    match (opening, terms.goal, terms.counts) {
        (Opening::Full, None, false) => 2,
        _ => 3,
    }
}

/// What is in front of a log's lines, and the bytes of these lines.
#[derive(Drop)]
pub struct Header<'a> {
    pub named: RuleList,
    pub opening: Opening,
    pub goal: Option<u32>,
    pub counts: bool,
    pub body: &'a [u8],
}

impl<'a> Header<'a> {
    /// What the lines behind it may be.
    pub fn terms(&self) -> Terms
        ensures goal { result.goal ≡ self.now.goal }
        ensures counts { result.counts ≡ self.now.counts }
    {
        Terms {
            goal: self.goal,
            counts: self.counts,
        }
    }
}

/// The header of a text, as that of a log of this kind. Refused are a line that isn't spelled as it should be, a turn
/// to a name that is no symbol's or a given cell with one, and a text that ends before its header does; what the turn
/// says isn't looked at.
pub fn read_header<'a>(
    alloc: Global,
    problem: &Problem,
    kind: LogKind,
    bytes: &'a [u8],
) -> Result<Header<'a>, Fail<LogRefusal>>
    ensures { MatchAnswer result
        (λ h. BeginsWithHeader problem.now kind bytes.now h.named h.opening h.goal h.counts h.body.now)
        (IsHeaderRefused problem.now kind bytes.now) }
{
    let mut reader = LineReader::new(bytes);
    let version = match version_line(&mut reader, kind) {
        Ok(version) => version,
        Err(why) => return Err(Fail::Refused(why)),
    };
    let named = match rules_line(alloc, problem, &mut reader) {
        Ok(named) => named,
        Err(fail) => return Err(fail),
    };
    match third_line(alloc, problem, version, &mut reader) {
        Ok((opening, goal)) => Ok(Header {
            named,
            opening,
            goal,
            counts: version_counts(version),
            body: reader.rest(),
        }),
        Err(fail) => Err(fail),
    }
}

// The version that the first line says.
fn version_line(reader: &mut LineReader, kind: LogKind) -> Result<Version, LogRefusal>
    ensures { MatchResult result
        (λ v. (kind_of v ≡ kind) × (reader.old ≡ version_text v ++ reader.new))
        (StopsFor (VersionCause kind) reader.old) }
{
    let Some(bytes) = reader.next() else {
        return Err(LogRefusal::Ends);
    };
    match read_version(kind, bytes) {
        None => Err(LogRefusal::Form(1)),
        Some(version) => Ok(version),
    }
}

// Whether a log of this version may count.
fn version_counts(version: Version) -> bool
    ensures { result ≡ version_counts version }
{
    match version {
        Version::Version3 | Version::Free2 | Version::Fill1 => true,
        Version::Version1 | Version::Version2 | Version::Free1 => false,
    }
}

// The opening and the goal of the third line, or neither a turn nor a goal where the version has no third line.
fn third_line(
    alloc: Global,
    problem: &Problem,
    version: Version,
    reader: &mut LineReader,
) -> Result<(Opening, Option<u32>), Fail<LogRefusal>>
    ensures { MatchAnswer result
        (λ r. IsThird problem.now version r.0 r.1 reader.old reader.new)
        (StopsAtThird problem.now version reader.old) }
{
    match version {
        Version::Version1 => Ok((Opening::Full, None)),
        Version::Version2 | Version::Version3 => {
            match opening_line(problem, version_counts(version), reader) {
                Ok(opening) => Ok((opening, None)),
                Err(why) => Err(Fail::Refused(why)),
            }
        }
        Version::Free1 | Version::Free2 => match goal_line(problem, reader) {
            Ok(goal) => Ok((Opening::Full, Some(goal))),
            Err(why) => Err(Fail::Refused(why)),
        },
        Version::Fill1 => match cells_line(alloc, problem, reader) {
            Ok(given) => Ok((Opening::Given(given), None)),
            Err(fail) => Err(fail),
        },
    }
}

// The goal of the third line of a free log.
fn goal_line(problem: &Problem, reader: &mut LineReader) -> Result<u32, LogRefusal>
    ensures { MatchResult result
        (λ goal. (goal ≤ problem.now.weeks + 1) × (reader.old ≡ goal_text goal ++ reader.new))
        (StopsFor (GoalCause problem.now) reader.old) }
{
    let Some(bytes) = reader.next() else {
        return Err(LogRefusal::Ends);
    };
    match read_goal(problem, bytes) {
        None => Err(LogRefusal::Form(3)),
        Some(goal) => Ok(goal),
    }
}

// The rules that the second line names.
fn rules_line(
    alloc: Global,
    problem: &Problem,
    reader: &mut LineReader,
) -> Result<RuleList, Fail<LogRefusal>>
    ensures { MatchAnswer result
        (λ R. AreRules problem.now R × (reader.old ≡ rules_text R ++ reader.new))
        (StopsFor (RulesCause problem.now) reader.old) }
{
    let Some(bytes) = reader.next() else {
        return Err(Fail::Refused(LogRefusal::Ends));
    };
    match read_rules(alloc, problem, bytes) {
        Err(_) => Err(Fail::Memory),
        Ok(None) => Err(Fail::Refused(LogRefusal::Form(2))),
        Ok(Some(named)) => Ok(named),
    }
}

// The opening of the third line of a log without a goal or given cells, which may count or not.
fn opening_line(
    problem: &Problem,
    counts: bool,
    reader: &mut LineReader,
) -> Result<Opening, LogRefusal>
    ensures { MatchResult result
        (λ o. HasOpening problem.now counts o reader.old reader.new)
        (StopsFor (OpeningReadCause problem.now counts) reader.old) }
{
    let Some(bytes) = reader.next() else {
        return Err(LogRefusal::Ends);
    };
    match read_opening(problem, counts, bytes) {
        Ok(opening) => Ok(opening),
        Err(LineRefusal::Form) => Err(LogRefusal::Form(3)),
        Err(LineRefusal::Name) => Err(LogRefusal::Name(3)),
    }
}

// The version that the first line says; None where it says none of the kind that is asked for.
fn read_version(kind: LogKind, bytes: &[u8]) -> Option<Version>
    ensures { SpellsVersion kind bytes.now result }
{
    match kind {
        LogKind::WithoutGoal => read_log_version(bytes),
        LogKind::WithGoal => read_free_version(bytes),
        LogKind::WithCells => read_fill_version(bytes),
    }
}

fn read_log_version(bytes: &[u8]) -> Option<Version>
    ensures { SpellsVersion LogKind.WithoutGoal bytes.now result }
{
    if bytes == b"rwsp-log 1\n".as_slice() {
        Some(Version::Version1)
    } else if bytes == b"rwsp-log 2\n".as_slice() {
        Some(Version::Version2)
    } else if bytes == b"rwsp-log 3\n".as_slice() {
        Some(Version::Version3)
    } else {
        None
    }
}

fn read_free_version(bytes: &[u8]) -> Option<Version>
    ensures { SpellsVersion LogKind.WithGoal bytes.now result }
{
    if bytes == b"rwsp-free 1\n".as_slice() {
        Some(Version::Free1)
    } else if bytes == b"rwsp-free 2\n".as_slice() {
        Some(Version::Free2)
    } else {
        None
    }
}

fn read_fill_version(bytes: &[u8]) -> Option<Version>
    ensures { SpellsVersion LogKind.WithCells bytes.now result }
{
    if bytes == b"rwsp-fill 1\n".as_slice() {
        Some(Version::Fill1)
    } else {
        None
    }
}

// The rules that the second line names; None where the line spells no list of rules.
fn read_rules(
    alloc: Global,
    problem: &Problem,
    bytes: &[u8],
) -> Result<Option<RuleList>, AllocError>
    ensures { IfOk result (SpellsRules problem.now bytes.now) }
{
    problem.prove_limits();
    match body_of(bytes) {
        None => Ok(None),
        Some(body) => rules_of(alloc, problem, body),
    }
}

#[tactic(auto, unfolding(crate::specs::Reading::named_at))]
fn rules_of(alloc: Global, problem: &Problem, body: &[u8]) -> Result<Option<RuleList>, AllocError>
    ensures { IfOk result (λ o. named_at problem.now (words_of body.now) ≡ o) }
{
    let mut fields = Fields::of(body);
    let Some(()) = fields.word(b"rules") else {
        return Ok(None);
    };
    let list = rule_numbers(alloc, problem, &mut fields)?;
    if fields.is_done() {
        Ok(Some(list))
    } else {
        Ok(None)
    }
}

// The goal that the third line spells.
fn read_goal(problem: &Problem, bytes: &[u8]) -> Option<u32>
    ensures { SpellsGoal problem.now bytes.now result }
{
    problem.prove_limits();
    match body_of(bytes) {
        None => None,
        Some(body) => goal_of(problem, body),
    }
}

#[tactic(auto, unfolding(crate::specs::Reading::goal_at))]
fn goal_of(problem: &Problem, body: &[u8]) -> Option<u32>
    ensures { goal_at problem.now (words_of body.now) ≡ result }
{
    let mut fields = Fields::of(body);
    fields.word(b"goal")?;
    let goal = fields.number(0, problem.weeks() + 1)?;
    if fields.is_done() { Some(goal) } else { None }
}

// The opening that the third line spells: a turn, or none in a log that may count.
fn read_opening(problem: &Problem, counts: bool, bytes: &[u8]) -> Result<Opening, LineRefusal>
    ensures { MatchResult result
        (SpellsOpening problem.now counts bytes.now) (IsOpeningRefused problem.now counts bytes.now) }
{
    if counts && bytes == b"turn\n".as_slice() {
        return Ok(Opening::Full);
    }
    match read_turn(problem, bytes) {
        Ok(turn) => Ok(Opening::Turned(turn)),
        Err(why) => Err(why),
    }
}

// The turn that the third line spells.
fn read_turn(problem: &Problem, bytes: &[u8]) -> Result<Turn, LineRefusal>
    ensures { MatchResult result (λ t. TurnsTo problem.now bytes.now t.day t.x) (IsTurnRefused problem.now bytes.now) }
{
    problem.prove_limits();
    let Some(body) = body_of(bytes) else {
        return Err(LineRefusal::Form);
    };
    let Some((name, day)) = turn_parts(problem, body) else {
        return Err(LineRefusal::Form);
    };
    match problem.symbol(name) {
        None => Err(LineRefusal::Name),
        Some(x) => Ok(Turn { day, x }),
    }
}

#[tactic(auto, unfolding(crate::specs::Reading::turn_at))]
fn turn_parts<'a>(problem: &Problem, body: &'a [u8]) -> Option<(&'a [u8], u32)>
    ensures { MatchOption result (turn_at problem.now (words_of body.now) ≡ None)
        (λ r. turn_at problem.now (words_of body.now) ≡ Some (r.0.now, r.1)) }
{
    let mut fields = Fields::of(body);
    fields.word(b"turn")?;
    let name = fields.name()?;
    let day = fields.number(1, problem.days())?;
    if fields.is_done() {
        Some((name, day))
    } else {
        None
    }
}
