// A log read from its text, line by line.
ghost use Rattle.std.specs.Prelude.{◌≡◌, ◌≤◌, ◌<◌, ◌+◌, ◌^◌, ◌++◌, ◌∷◌, [], length, OnOk};
ghost use Rattle.rwsp_terms.specs.declared.limits.TheConstants.{LONGEST_LOG};
ghost use Rattle.rwsp_model.specs.Refusals.{MatchAnswer};
ghost use Rattle.refutation_terms.specs.Ranges.{AreRules};
ghost use Rattle.refutation_terms.specs.Log.{OpeningFits, GoalFits, CountsFit};
ghost use Rattle.refutation_terms.specs.Verdict.{Spells};
ghost use Rattle.refutation_log.specs.ReadLog.{HasLogsOf, IsReadAs, IsUnread, AreLinesUnder, IsLogUnder, IsUnreadUnder, IsTreeLineRefused, open_after};

use crate::header::{Header, lines_of_header, read_header};
use crate::line::read_line;
use crate::{LineRefusal, Log};
use refutation_terms::{Line, LogKind, LogRefusal, Terms};
use rwsp_model::{Fail, Problem};
use rwsp_text::LineReader;
use std::alloc::{AllocError, Global};

/// The log of this kind that a text spells. Refused are a line that isn't spelled as one, a name that is no symbol's, a
/// text that ends before the tree does, and a line behind the tree; what the lines say isn't looked at.
pub fn read_log(
    alloc: Global,
    problem: &Problem,
    kind: LogKind,
    bytes: &[u8],
) -> Result<Log, Fail<LogRefusal>>
    requires kind { HasLogsOf problem.now kind }
    requires few { length bytes.now ≤ LONGEST_LOG }
    ensures { MatchAnswer result (IsReadAs problem.now kind bytes.now) (IsUnread problem.now kind bytes.now) }
{
    let header = match read_header(alloc, problem, kind, bytes) {
        Ok(header) => header,
        Err(fail) => return Err(fail),
    };
    log_behind(alloc, problem, header)
}

// The log with this header, whose lines are all that is behind it.
fn log_behind(alloc: Global, problem: &Problem, header: Header) -> Result<Log, Fail<LogRefusal>>
    requires named { AreRules problem.now header.named }
    requires opening { OpeningFits problem.now header.opening }
    requires goal { GoalFits problem.now header.opening header.goal }
    requires counts { CountsFit header.opening header.counts }
    requires few { length header.body.now ≤ LONGEST_LOG }
    ensures { MatchAnswer result
        (IsLogUnder problem.now header.entry header.entry.body.now)
        (IsUnreadUnder problem.now header.entry header.entry.body.now) }
{
    let mut reader = LineReader::new(header.body);
    let lines = match read_lines(alloc, problem, &mut reader, &header) {
        Ok(lines) => lines,
        Err(fail) => return Err(fail),
    };
    match reader.next() {
        None => Ok(Log::new(
            header.named,
            header.opening,
            header.goal,
            header.counts,
            lines,
        )),
        Some(_) => Err(Fail::Refused(LogRefusal::Extra(
            lines_of_header(&header.opening, header.terms()) + lines.len() as u32 + 1,
        ))),
    }
}

fn read_lines(
    alloc: Global,
    problem: &Problem,
    reader: &mut LineReader,
    header: &Header,
) -> Result<Vec<Line>, Fail<LogRefusal>>
    requires named { AreRules problem.now header.now.named }
    requires opening { OpeningFits problem.now header.now.opening }
    requires goal { GoalFits problem.now header.now.opening header.now.goal }
    requires counts { CountsFit header.now.opening header.now.counts }
    requires few { length reader.old ≤ LONGEST_LOG }
    ensures { MatchAnswer result
        (λ v. AreLinesUnder problem.now header.now reader.old reader.new v.items)
        (IsUnreadUnder problem.now header.now reader.old) }
{
    problem.prove_limits();
    let terms = header.terms();
    let first = lines_of_header(&header.opening, terms) + 1;
    let mut lines = Vec::new(alloc);
    let mut count: u64 = 1;
    while count > 0 {
        let Some(bytes) = reader.next() else {
            return Err(Fail::Refused(LogRefusal::Ends));
        };
        let n = first + lines.len() as u32;
        let line = match tree_line(alloc, problem, terms, bytes, n) {
            Ok(line) => line,
            Err(fail) => return Err(fail),
        };
        count = open_after(count, &line);
        let Ok(()) = push_line(&mut lines, line) else {
            return Err(Fail::Memory);
        };
    }
    Ok(lines)
}

fn push_line(lines: &mut Vec<Line>, line: Line) -> Result<(), AllocError>
    ensures { OnOk result (lines.new.items ≡ lines.old.items ++ line ∷ []) }
{
    lines.push(line)?;
    Ok(())
}

// A line of the tree of a log of these terms, which is line n of the text.
fn tree_line(
    alloc: Global,
    problem: &Problem,
    terms: Terms,
    bytes: &[u8],
    n: u32,
) -> Result<Line, Fail<LogRefusal>>
    ensures { MatchAnswer result
        (Spells problem.now terms.goal terms.counts bytes.now)
        (IsTreeLineRefused problem.now terms.goal terms.counts bytes.now n) }
{
    match read_line(alloc, problem, terms, bytes) {
        Ok(line) => Ok(line),
        Err(Fail::Memory) => Err(Fail::Memory),
        Err(Fail::Refused(LineRefusal::Form)) => Err(Fail::Refused(LogRefusal::Form(n))),
        Err(Fail::Refused(LineRefusal::Name)) => Err(Fail::Refused(LogRefusal::Name(n))),
    }
}

fn open_after(count: u64, line: &Line) -> u64
    requires { (0 < count) × (count < 2 ^ 63) }
    ensures { result ≡ open_after count line.now }
{
    match line {
        Line::Split { .. } => count + 1,
        _ => count - 1,
    }
}
