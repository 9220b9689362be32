// What is told of refusals, of rosters that break a rule and of verdicts on numbers of weeks.
#![tactic(auto, unfolding(crate::specs::Statements::next_symbol, crate::specs::Statements::row_words, crate::specs::Statements::line, crate::specs::Statements::statement_words), using(crate::proofs::Joined::one_of, crate::proofs::Lines::own_sized, crate::proofs::Lines::sized_failure))]

ghost use Rattle.std.specs.Prelude.{◌≡◌, ◌*◌, ◌++◌, ◌∷◌, ◌≤◌, [], length, IfSome, OnOk, IsTrue};
ghost use Rattle.std.specs.List.{find, flat_map, range_with_len};
ghost use Rattle.rwsp_terms.specs.Instance.{shift_count, IsDay};
ghost use Rattle.roster_checker.specs.BreaksText.{HasBroken};
ghost use Rattle.crew_size.specs.RefusalText.{NamesItsOwn};
ghost use Rattle.crew_size.specs.Sizes.{with_weeks, IsSize};
ghost use Rattle.plain_words.specs.Statements as Told;
ghost use Rattle.plain_words.specs.Statements.{next_symbol, row_words, said, told_line, told_lines};
ghost use Rattle.plain_words.specs.RuleWords.{first_crossed};
ghost use Rattle.plain_words.specs.Told.{at_line, at_rule, log_refusal_statement, roster_refusal_statement, breaks, rule_broken, wanted_range, class_of, is_outside, first_outside, broken_day, broken_statement, is_size, failure_statement, failed_size, staff_refusal_statements, staffed_statements};

use crate::filled::put_filled;
use crate::part::Part::{Days, Number, OfClass, Range, Rule as Stated, Weeks};
use crate::pieces::{
    BREAKS, COMMA, DAY_OFF, Done, ESCAPES, FOR_WEEKS, FORBIDDEN, LINE_END, LOG_ENDS, LOG_EXTRA,
    LOG_FAILS, LOG_FORM, LOG_IDLE, LOG_NAME, LOG_OPEN, LOG_TURN, LONG_RULE, MISCOUNTED,
    ROSTER_UNKNOWN, ROSTER_WEEKS, ROSTER_WIDTH, STAFF_ENDS, STAFF_FORM, STAFF_PASSES, TOLD,
    TOO_LONG, TOO_SHORT, UNNAMED, put,
};
use crate::rule_words::{first_crossed, off_range};
use crate::statement::{Teller, put_enough_told, put_line, put_none_told, put_told, told_by};
use crate::words::put_symbol;
use crew_size::{StaffRefusal, Staffed, with_weeks};
use refutation_terms::LogRefusal;
use roster_checker::Broken;
use roster_print::RosterRefusal;
use rwsp_model::{Problem, rule_at, weeks_with};
use rwsp_terms::limits::{MOST_CELLS, MOST_WEEKS};
use rwsp_terms::{Bounds, Class, Rule, Symbol};

// Appends those behind the first.
fn put_others(out: &mut Vec<u8>, problem: &Problem, symbols: &[Symbol]) -> Done
    ensures { OnOk result (out.new.items ≡ out.old.items ++ flat_map (next_symbol problem.now) symbols.now) }
{
    for symbol in symbols {
        put(out, COMMA)?;
        put_symbol(out, problem, *symbol, DAY_OFF)?;
    }
    Ok(())
}

// Appends symbols in a row.
fn put_row(out: &mut Vec<u8>, problem: &Problem, symbols: &[Symbol]) -> Done
    ensures { OnOk result (out.new.items ≡ out.old.items ++ row_words problem.now symbols.now) }
{
    let Some((first, others)) = symbols.split_first() else {
        return Ok(());
    };
    put_symbol(out, problem, *first, DAY_OFF)?;
    put_others(out, problem, others)
}

// Appends the line of which days in a row escape a line of a log.
fn put_escapes(out: &mut Vec<u8>, by: &Teller, number: u32, word: &[Symbol]) -> Done
    ensures { OnOk result (out.new.items ≡ out.old.items ++ said by.now (Told.Escapes number word.now)) }
{
    put(out, by.front)?;
    put_filled(out, by.problem, ESCAPES, &[Number(number)])?;
    put_row(out, by.problem, word)?;
    put(out, LINE_END)
}

// Appends why a line of a text is refused, or another sentence with one number.
fn put_at(out: &mut Vec<u8>, by: &Teller, text: &[u8], number: u32) -> Done
    ensures { OnOk result (out.new.items ≡ out.old.items ++ said by.now (at_line text.now number)) }
{
    put_line(out, by, text, &[Number(number)])
}

// Appends why a line of a log is refused that rests on a rule, or lists one.
fn put_at_rule(out: &mut Vec<u8>, by: &Teller, text: &[u8], number: u32, rule: u32) -> Done
    ensures { OnOk result (out.new.items ≡ out.old.items ++ said by.now (at_rule text.now number rule)) }
{
    let parts = [Number(number), Number(rule), Stated(rule)];
    put_line(out, by, text, &parts)
}

/// Appends why a log is refused.
pub fn put_log_refusal(out: &mut Vec<u8>, by: &Teller, why: &LogRefusal) -> Done
    ensures { OnOk result (out.new.items ≡ out.old.items ++ said by.now (log_refusal_statement why.now)) }
{
    match why {
        LogRefusal::Form(n) => put_at(out, by, LOG_FORM, *n),
        LogRefusal::Name(n) => put_at(out, by, LOG_NAME, *n),
        LogRefusal::Unnamed(n, rule) => put_at_rule(out, by, UNNAMED, *n, *rule),
        LogRefusal::Idle(n) => put_at(out, by, LOG_IDLE, *n),
        LogRefusal::Long(n, rule) => put_at_rule(out, by, LONG_RULE, *n, *rule),
        LogRefusal::Fails(n) => put_at(out, by, LOG_FAILS, *n),
        LogRefusal::Escape(n, word) => put_escapes(out, by, *n, word.symbols()),
        LogRefusal::Unfinished(n) => put_at(out, by, LOG_OPEN, *n),
        LogRefusal::Ends => put_line(out, by, LOG_ENDS, &[]),
        LogRefusal::Extra(n) => put_at(out, by, LOG_EXTRA, *n),
        LogRefusal::Turn(n) => put_at(out, by, LOG_TURN, *n),
    }
}

/// Tells why a log is refused.
pub fn put_log_refusal_told(out: &mut Vec<u8>, problem: &Problem, why: &LogRefusal) -> Done
    ensures { OnOk result (out.new.items
        ≡ out.old.items ++ told_lines problem.now (log_refusal_statement why.now ∷ [])) }
{
    put_log_refusal(out, &told_by(problem), why)
}

// Appends why a roster is refused.
fn put_roster_refusal(out: &mut Vec<u8>, by: &Teller, why: RosterRefusal) -> Done
    ensures { OnOk result (out.new.items ≡ out.old.items ++ said by.now (roster_refusal_statement why)) }
{
    match why {
        RosterRefusal::Unknown(n) => put_at(out, by, ROSTER_UNKNOWN, n),
        RosterRefusal::Width(n) => put_at(out, by, ROSTER_WIDTH, n),
        RosterRefusal::Weeks(n) => put_at(out, by, ROSTER_WEEKS, n),
    }
}

/// Tells why a roster is refused.
pub fn put_roster_refusal_told(out: &mut Vec<u8>, problem: &Problem, why: RosterRefusal) -> Done
    ensures { OnOk result (out.new.items
        ≡ out.old.items ++ told_lines problem.now (roster_refusal_statement why ∷ [])) }
{
    put_roster_refusal(out, &told_by(problem), why)
}

// Appends that a roster breaks a rule, and the place, with so many days there.
fn put_breaks(out: &mut Vec<u8>, by: &Teller, text: &[u8], broken: Broken, days: u32) -> Done
    ensures { OnOk result (out.new.items ≡ out.old.items ++ said by.now (breaks text.now broken days)) }
{
    let parts = [
        Number(broken.rule),
        Stated(broken.rule),
        Number(broken.week),
        Number(broken.day),
        Days(days),
    ];
    put_line(out, by, text, &parts)
}

// Appends how a roster breaks a rule.
fn put_rule_broken(out: &mut Vec<u8>, by: &Teller, broken: Broken, rule: Rule) -> Done
    ensures { OnOk result (out.new.items ≡ out.old.items ++ said by.now (rule_broken broken rule)) }
{
    let days = broken.length;
    match rule {
        Rule::Most(_) => put_breaks(out, by, TOO_LONG, broken, days),
        Rule::Least(_) => put_breaks(out, by, TOO_SHORT, broken, days.saturating_sub(2)),
        Rule::Never(_) => put_breaks(out, by, FORBIDDEN, broken, days),
        Rule::Day(_) => put_breaks(out, by, BREAKS, broken, days),
    }
}

// In which range the number of a symbol on a day has to be.
fn wanted_range(problem: &Problem, number: u8, day: u32) -> Bounds
    requires day { IsDay problem.now day }
    requires number { number ≤ shift_count problem.now }
    ensures { result ≡ wanted_range problem.now number day }
{
    if number == 0 {
        off_range(problem, day)
    } else {
        problem.demand(Symbol { number }, day)
    }
}

// The class of one symbol.
fn class_of(number: u8) -> Class
    ensures { result ≡ class_of number }
{
    if number == 0 {
        Class::Off
    } else {
        Class::Shift(Symbol { number })
    }
}

// Whether the number of weeks with the symbol on the day is not in the range that is demanded.
fn is_outside(problem: &Problem, cells: &[Symbol], day: u32, number: u8) -> bool
    requires cells { length cells.now ≡ problem.now.weeks * problem.now.days }
    requires day { IsDay problem.now day }
    requires number { number ≤ shift_count problem.now }
    ensures { result ≡ is_outside problem.now cells.now day number }
{
    let symbol = Symbol { number };
    let weeks = weeks_with(problem, cells, symbol, day) as i32;
    !(problem.demand_least(symbol, day) <= weeks && weeks <= problem.demand_greatest(symbol, day))
}

// The first shift for which it isn't.
#[tactic(auto, using(crate::proofs::Joined::none_found))]
fn first_shift_outside(problem: &Problem, cells: &[Symbol], day: u32) -> Option<u8>
    requires cells { length cells.now ≡ problem.now.weeks * problem.now.days }
    requires day { IsDay problem.now day }
    ensures value { result
        ≡ find (is_outside problem.now cells.now day) (range_with_len 1 (shift_count problem.now)) }
    ensures within { IfSome result (λ x. x ≤ shift_count problem.now) }
{
    for place in 0..problem.shifts() {
        if is_outside(problem, cells, day, place + 1) {
            return Some(place + 1);
        }
    }
    None
}

// That shift, or else the day off, if it is outside.
fn first_outside(problem: &Problem, cells: &[Symbol], day: u32) -> Option<u8>
    requires cells { length cells.now ≡ problem.now.weeks * problem.now.days }
    requires day { IsDay problem.now day }
    ensures value { result ≡ first_outside problem.now cells.now day }
    ensures within { IfSome result (λ x. x ≤ shift_count problem.now) }
{
    match first_shift_outside(problem, cells, day) {
        Some(number) => Some(number),
        None if is_outside(problem, cells, day, 0) => Some(0),
        None => None,
    }
}

// Tells how a roster breaks the rule of a day: how often it has a symbol, and how often it should.
fn put_broken_day(
    out: &mut Vec<u8>,
    problem: &Problem,
    cells: &[Symbol],
    broken: Broken,
    day: u32,
) -> Done
    requires cells { length cells.now ≡ problem.now.weeks * problem.now.days }
    requires day { IsDay problem.now day }
    ensures { OnOk result (out.new.items ≡ out.old.items ++ told_line problem.now
        (broken_day problem.now cells.now broken day
        (first_crossed problem.now day) (first_outside problem.now cells.now day))) }
{
    match (
        first_crossed(problem, day),
        first_outside(problem, cells, day),
    ) {
        (None, Some(number)) => {
            let parts = [
                Number(broken.rule),
                Number(day),
                Number(weeks_with(problem, cells, Symbol { number }, day)),
                OfClass(class_of(number)),
                Range(wanted_range(problem, number, day)),
            ];
            put_line(out, &told_by(problem), MISCOUNTED, &parts)
        }
        _ => put_rule_broken(out, &told_by(problem), broken, Rule::Day(day)),
    }
}

/// Tells which rule a roster with these cells breaks, and where: of the rule of a day, how often the day has the first
/// shift for which that isn't in its range, or the day off, and that range.
pub fn put_broken_told(
    out: &mut Vec<u8>,
    problem: &Problem,
    cells: &[Symbol],
    broken: Broken,
) -> Done
    requires cells { length cells.now ≡ problem.now.weeks * problem.now.days }
    requires broken { HasBroken problem.now broken }
    ensures { OnOk result (out.new.items
        ≡ out.old.items ++ told_lines problem.now (broken_statement problem.now cells.now broken ∷ [])) }
{
    match rule_at(problem, broken.rule) {
        Rule::Day(day) => put_broken_day(out, problem, cells, broken, day),
        rule => put_rule_broken(out, &told_by(problem), broken, rule),
    }
}

// Whether the problem may have so many weeks.
fn is_size(problem: &Problem, weeks: u32) -> bool
    ensures value { result ≡ is_size problem.now weeks }
    ensures size { IsTrue result → IsSize problem.now weeks }
{
    1 <= weeks && weeks <= MOST_WEEKS && weeks * problem.days() <= MOST_CELLS
}

// The number of weeks for which a staff text fails.
fn failed_size(why: &StaffRefusal) -> Option<u32>
    ensures { result ≡ failed_size why.now }
{
    match why {
        StaffRefusal::Log(weeks, _)
        | StaffRefusal::Roster(weeks, _)
        | StaffRefusal::Breaks(weeks, _) => Some(*weeks),
        StaffRefusal::Form(_) | StaffRefusal::Ends => None,
    }
}

// Appends why a staff text fails.
fn put_failure(out: &mut Vec<u8>, by: &Teller, why: &StaffRefusal) -> Done
    requires { NamesItsOwn by.now.problem.now why.now }
    ensures { OnOk result (out.new.items
        ≡ out.old.items ++ said by.now (failure_statement by.now.problem.now why.now)) }
{
    match why {
        StaffRefusal::Form(n) => put_at(out, by, STAFF_FORM, *n),
        StaffRefusal::Log(_, why) => put_log_refusal(out, by, why),
        StaffRefusal::Roster(_, why) => put_roster_refusal(out, by, *why),
        StaffRefusal::Breaks(_, broken) => {
            put_rule_broken(out, by, *broken, rule_at(by.problem, broken.rule))
        }
        StaffRefusal::Ends => put_line(out, by, STAFF_ENDS, &[]),
    }
}

// Tells why it fails for so many weeks, of the problem with these.
fn put_sized_failure(out: &mut Vec<u8>, problem: &Problem, weeks: u32, why: &StaffRefusal) -> Done
    requires size { IsSize problem.now weeks }
    requires own { NamesItsOwn problem.now why.now }
    ensures { OnOk result (out.new.items ≡ out.old.items ++ told_lines problem.now
        (Told.ForSize weeks (failure_statement (with_weeks problem.now weeks) why.now) ∷ [])) }
{
    let sized = with_weeks(problem, weeks)?;
    put(out, TOLD)?;
    put_filled(out, problem, FOR_WEEKS, &[Weeks(weeks)])?;
    let by = Teller {
        front: b"".as_slice(),
        problem: &sized,
    };
    put_failure(out, &by, why)?;
    Ok(())
}

/// Tells why a staff text is refused; nothing, where it is for a number of weeks that the problem can't have.
pub fn put_staff_refusal_told(out: &mut Vec<u8>, problem: &Problem, why: &StaffRefusal) -> Done
    requires { NamesItsOwn problem.now why.now }
    ensures { OnOk result (out.new.items
        ≡ out.old.items ++ told_lines problem.now (staff_refusal_statements problem.now why.now)) }
{
    match failed_size(why) {
        None => put_failure(out, &told_by(problem), why),
        Some(weeks) if is_size(problem, weeks) => put_sized_failure(out, problem, weeks, why),
        Some(_) => Ok(()),
    }
}

/// Tells what an accepted staff text decides.
pub fn put_staffed_told(out: &mut Vec<u8>, problem: &Problem, staffed: Staffed) -> Done
    ensures { OnOk result (out.new.items ≡ out.old.items ++ told_lines problem.now (staffed_statements staffed)) }
{
    put_told(out, problem, STAFF_PASSES, &[])?;
    match staffed {
        Staffed::Least(low, weeks) => put_enough_told(out, problem, low, weeks),
        Staffed::NoneTo(low, last) => put_none_told(out, problem, low, last),
    }
}
