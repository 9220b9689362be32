// The calendar of a roster that meets every rule.
ghost use Rattle.std.specs.Prelude.{◌≡◌, ◌∷◌, ◌++◌, ◌≤◌, [], IfOk, codes};
ghost use Rattle.std.specs.Fmt.{decimal};
ghost use Rattle.crew_calendar.specs.Calendar.{FitsDates};
ghost use Rattle.plain_words.specs.Statements.{told_lines};
ghost use Rattle.command_line.specs.Commands.{IsLayoutInRange};
ghost use Rattle.commands.specs.Lines.{line};
ghost use Rattle.commands.specs.Files.{IsWithinLimit};
ghost use Rattle.commands.specs.declared.second_file.SecondKind.TheVariants as Kinds;
ghost use Rattle.commands.specs.Crew.{IsCrewAnswer, IsCrewAnswerOf, IsCrewTold, crew_text, crew_status, first_day_statements, no_employee_statement};

use crate::telling::one_told;
use crate::text::Text;
use crate::verify::{RosterFault, fault_line, fault_status, fault_told, right_roster};
use command_line::CrewLayout;
use crew_calendar::{CivilDate, crew_sheet, crew_table, duties, put_date, put_weekday};
use plain_words::pieces::{NO_EMPLOYEE, NO_MONDAY};
use plain_words::{Part, put_headed_told};
use rwsp_model::Problem;
use rwsp_terms::limits::{DAYS_OF_WEEK, LONGEST_CALENDAR};
use rwsp_text::put_labelled;
use std::alloc::{AllocError, Global};

/// The calendar of a roster, or why there is none.
#[derive(Drop)]
pub enum Answer {
    /// The roster meets every rule: a table of all employees, also one for a spreadsheet, or the duties of one, from a
    /// date on.
    Shown(Text, CivilDate),
    /// The problem has no employee with this number.
    NoEmployee(u32),
    /// The roster doesn't meet every rule.
    Fails(RosterFault),
}

/// The answer to the bytes of a roster.
pub fn job(
    alloc: Global,
    problem: &Problem,
    bytes: &[u8],
    date: CivilDate,
    days: u32,
    layout: CrewLayout,
) -> Result<Answer, AllocError>
    requires short { IsWithinLimit Kinds.Roster bytes.now }
    requires days { days ≤ LONGEST_CALENDAR }
    requires layout { IsLayoutInRange layout }
    requires fits { FitsDates date days }
    ensures says { IfOk result (IsCrewAnswer problem.now bytes.now date days layout) }
    ensures own { IfOk result (IsCrewAnswerOf problem.now) }
{
    let roster = match right_roster(alloc, problem, bytes)? {
        Ok(roster) => roster,
        Err(fault) => return Ok(Answer::Fails(fault)),
    };
    match layout {
        CrewLayout::Duties(number) if number > problem.weeks() => Ok(Answer::NoEmployee(number)),
        CrewLayout::Duties(number) => {
            let text = duties(alloc, problem, &roster, date, days, number)?;
            Ok(Answer::Shown(Text::of(text), date))
        }
        CrewLayout::Table => {
            let text = crew_table(alloc, problem, &roster, date, days)?;
            Ok(Answer::Shown(Text::of(text), date))
        }
        CrewLayout::Csv => {
            let text = crew_sheet(alloc, problem, &roster, date, days)?;
            Ok(Answer::Shown(Text::of(text), date))
        }
    }
}

/// The text of the answer: the calendar, or a line.
pub fn text(alloc: Global, problem: &Problem, answer: &Answer) -> Result<Vec<u8>, AllocError>
    requires { IsCrewAnswerOf problem.now answer.now }
    ensures { IfOk result (λ v. v.items ≡ crew_text problem.now answer.now) }
{
    match answer {
        Answer::Shown(calendar, _) => calendar.copy(alloc),
        Answer::NoEmployee(number) => no_employee_line(alloc, *number),
        Answer::Fails(fault) => fault_line(alloc, problem, fault),
    }
}

/// What is told of the answer.
pub fn told(alloc: Global, problem: &Problem, answer: &Answer) -> Result<Vec<u8>, AllocError>
    requires { IsCrewAnswerOf problem.now answer.now }
    ensures { IfOk result (λ v. IsCrewTold problem.now answer.now v.items) }
{
    match answer {
        Answer::Shown(_, date) => first_day_told(alloc, problem, *date),
        Answer::NoEmployee(number) => no_employee_told(alloc, problem, *number),
        Answer::Fails(fault) => fault_told(alloc, problem, fault),
    }
}

/// What is told of the first date of a calendar: that it is no Monday, where the weeks have seven days.
pub fn first_day_told(
    alloc: Global,
    problem: &Problem,
    date: CivilDate,
) -> Result<Vec<u8>, AllocError>
    ensures { IfOk result (λ v. v.items ≡ told_lines problem.now (first_day_statements problem.now date)) }
{
    let mut out = Vec::new(alloc);
    let mut weekday = Vec::new(alloc);
    put_weekday(&mut weekday, date)?;
    if problem.days() == DAYS_OF_WEEK && weekday.as_slice() != b"Monday".as_slice() {
        let mut head = Vec::new(alloc);
        put_date(&mut head, date)?;
        put_headed_told(&mut out, problem, &head, NO_MONDAY)?;
    }
    Ok(out)
}

/// What is told where the problem has no employee with this number.
pub fn no_employee_told(
    alloc: Global,
    problem: &Problem,
    number: u32,
) -> Result<Vec<u8>, AllocError>
    ensures { IfOk result (λ v. v.items ≡ told_lines problem.now (no_employee_statement number ∷ [])) }
{
    one_told(alloc, problem, NO_EMPLOYEE, &[Part::Number(number)])
}

/// The line that says that the problem has no employee with this number.
pub fn no_employee_line(alloc: Global, number: u32) -> Result<Vec<u8>, AllocError>
    ensures { IfOk result (λ v. v.items ≡ line (codes "no employee " ++ decimal number)) }
{
    let mut out = Vec::new(alloc);
    put_labelled(&mut out, b"no employee ".as_slice(), number)?;
    out.push(b'\n')?;
    Ok(out)
}

/// The status of the answer.
pub fn status(answer: &Answer) -> u8
    ensures { result ≡ crew_status answer.now }
{
    match answer {
        Answer::Shown(..) => 0,
        Answer::NoEmployee(_) => 3,
        Answer::Fails(fault) => fault_status(fault),
    }
}
