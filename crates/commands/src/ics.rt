// An employee's duties as an iCalendar, by a roster that meets every rule.
ghost use Rattle.std.specs.Prelude.{◌≡◌, ◌≤◌, IfOk};
ghost use Rattle.crew_calendar.specs.Calendar.{FitsDates};
ghost use Rattle.commands.specs.Files.{IsWithinLimit};
ghost use Rattle.commands.specs.declared.second_file.SecondKind.TheVariants as Kinds;
ghost use Rattle.commands.specs.Ics.{IsIcsAnswer, IsIcsAnswerOf, IsIcsTold, ics_text, ics_status};

use crate::crew::{first_day_told, no_employee_line, no_employee_told};
use crate::telling::one_told;
use crate::text::Text;
use crate::verify::{RosterFault, fault_line, fault_status, fault_told, right_roster};
use crew_calendar::{CivilDate, duty_calendar, has_duty};
use plain_words::pieces::NO_DUTY;
use rwsp_model::Problem;
use rwsp_terms::limits::LONGEST_CALENDAR;
use std::alloc::{AllocError, Global};

/// An employee's duties, or why there are none.
#[derive(Drop)]
pub enum Answer {
    /// The roster meets every rule: the duties from a date on.
    Shown(Text, CivilDate),
    /// The employee has no duty on these days.
    NoDuty,
    /// The problem has no employee with this number.
    NoEmployee(u32),
    /// The roster doesn't meet every rule.
    Fails(RosterFault),
}

/// The answer to the bytes of a roster.
pub fn job(
    alloc: Global,
    problem: &Problem,
    bytes: &[u8],
    date: CivilDate,
    days: u32,
    employee: u32,
) -> Result<Answer, AllocError>
    requires short { IsWithinLimit Kinds.Roster bytes.now }
    requires days { days ≤ LONGEST_CALENDAR }
    requires employee { 1 ≤ employee }
    requires fits { FitsDates date days }
    ensures says { IfOk result (IsIcsAnswer problem.now bytes.now date days employee) }
    ensures own { IfOk result (IsIcsAnswerOf problem.now) }
{
    let roster = match right_roster(alloc, problem, bytes)? {
        Ok(roster) => roster,
        Err(fault) => return Ok(Answer::Fails(fault)),
    };
    if employee > problem.weeks() {
        return Ok(Answer::NoEmployee(employee));
    }
    if !has_duty(problem, &roster, days, employee) {
        return Ok(Answer::NoDuty);
    }
    let text = duty_calendar(alloc, problem, &roster, date, days, employee)?;
    Ok(Answer::Shown(Text::of(text), date))
}

/// The text of the answer: the calendar, or a line.
pub fn text(alloc: Global, problem: &Problem, answer: &Answer) -> Result<Vec<u8>, AllocError>
    requires { IsIcsAnswerOf problem.now answer.now }
    ensures { IfOk result (λ v. v.items ≡ ics_text problem.now answer.now) }
{
    match answer {
        Answer::Shown(calendar, _) => calendar.copy(alloc),
        Answer::NoDuty => Vec::from_slice(alloc, b"no duty\n".as_slice()),
        Answer::NoEmployee(number) => no_employee_line(alloc, *number),
        Answer::Fails(fault) => fault_line(alloc, problem, fault),
    }
}

/// What is told of the answer.
pub fn told(alloc: Global, problem: &Problem, answer: &Answer) -> Result<Vec<u8>, AllocError>
    requires { IsIcsAnswerOf problem.now answer.now }
    ensures { IfOk result (λ v. IsIcsTold problem.now answer.now v.items) }
{
    match answer {
        Answer::Shown(_, date) => first_day_told(alloc, problem, *date),
        Answer::NoDuty => one_told(alloc, problem, NO_DUTY, &[]),
        Answer::NoEmployee(number) => no_employee_told(alloc, problem, *number),
        Answer::Fails(fault) => fault_told(alloc, problem, fault),
    }
}

/// The status of the answer.
pub fn status(answer: &Answer) -> u8
    ensures { result ≡ ics_status answer.now }
{
    match answer {
        Answer::Shown(..) => 0,
        Answer::NoDuty => 3,
        Answer::NoEmployee(_) => 3,
        Answer::Fails(fault) => fault_status(fault),
    }
}
