// What is told of logs: with a goal, with given cells or with neither, and of numbers of weeks.
#![tactic(auto, using(crate::proofs::Joined::behind, crate::proofs::Joined::one_of))]

ghost use Rattle.std.specs.Prelude.{◌≡◌, ◌++◌, ◌∷◌, ◌+◌, ◌≤◌, ◌==◌, [], ℕ, length, map, slice_get, Some, IfSome, OnOk, count_by};
ghost use Rattle.std.specs.List.{list_any, flat_map, range_with_len};
ghost use Rattle.rwsp_terms.specs.declared.limits.TheConstants.{MOST_WEEKS};
ghost use Rattle.rwsp_terms.specs.Instance.{shift_count, IsDay};
ghost use Rattle.refutation_terms.specs.Log.{Log as LogValue, Fits, OpeningFits};
ghost use Rattle.crew_size.specs.Sizes.{with_weeks, IsSize};
ghost use Rattle.crew_size.specs.Fitting.{EndFits, FitsSizes};
ghost use Rattle.plain_words.specs.Statements.{told_line, told_lines};
ghost use Rattle.plain_words.specs.LogTold.{is_on, weighs_on, cites_day, lone_turn, rule_statement, counts_blocks, counted_at, counted_statements, rules_statements, reason_statements, is_open, is_closed, spent_statement, log_statements, rosters_by, rosters_of, accepted_statements, end_text, end_statement, reduced_statements, size_statement, size_in, sized_statements, logs_statements, none_below, end_statements, staff_statements};

use crate::counted::is_misfit;
use crate::part::Part::{Closed, Length, Number, Open, Rule as Stated, Unknown, Works};
use crate::pieces::{
    AT_ONCE, BY_A_COUNT, BY_CASES, BY_WEIGHTS, COUNTING, Done, LEAVES, LOG_PASSES, NUMBERED_RULE,
    ONLY_TURN, SPENT,
};
use crate::reason::Rosters;
use crate::rule_words::rule_number;
use crate::statement::{
    put_cells_told, put_counted_if, put_enough_told, put_first_told, put_if, put_line,
    put_none_told, put_numbers_told, put_told, told_by,
};
use crew_size::{StaffEnd, StaffRun, with_weeks};
use refutation_log::Log;
use refutation_terms::{Leaf, Line, Opening, Turn, WordClaim};
use rwsp_model::Problem;
use rwsp_terms::{Rule, Symbol, Weight};

// Whether one of the weights is on the day.
fn some_is_on(day: u32, weights: &[Weight]) -> bool
    ensures { result ≡ list_any (is_on day) weights.now }
{
    weights.iter().any(|e| e.day == day)
}

// Whether a claim weighs a symbol on the day.
fn weighs_on(day: u32, claim: &WordClaim) -> bool
    ensures { result ≡ weighs_on day claim.now }
{
    match claim {
        WordClaim::Light { weights, .. } => some_is_on(day, weights.entries()),
        WordClaim::Dead { .. } => false,
    }
}

// Whether the number is among these.
fn has_number(number: u32, rules: &[u32]) -> bool
    ensures { result ≡ list_any (λ n. n == number) rules.now }
{
    rules.iter().any(|n| *n == number)
}

// Whether a line rests on the rule with this number, which is that of this day.
fn cites_day(number: u32, day: u32, line: &Line) -> bool
    ensures { result ≡ cites_day number day line.now }
{
    match line {
        Line::Closing(Leaf::Window { rule, .. }) => *rule == number,
        Line::Closing(Leaf::Day { day: own, .. }) => *own == day,
        Line::Closing(Leaf::Words { rules, claim, .. }) => {
            has_number(number, rules.numbers()) || weighs_on(day, claim)
        }
        Line::Closing(Leaf::Blocks { .. }) => true,
        _ => false,
    }
}

// Whether one of the lines does. It goes over all that they list and weigh.
fn some_cites_day(number: u32, day: u32, lines: &[Line]) -> bool
    ensures { result ≡ list_any (cites_day number day) lines.now }
{
    lines.iter().any(|line| cites_day(number, day, line))
}

// The turn, where no line rests on the rule of its day.
fn lone_turn(problem: &Problem, opening: &Opening, lines: &[Line]) -> Option<Turn>
    requires { OpeningFits problem.now opening.now }
    ensures turn { result ≡ lone_turn problem.now opening.now lines.now }
    ensures day { IfSome result (λ t. IsDay problem.now t.day) }
{
    let Opening::Turned(turn) = opening else {
        return None;
    };
    let number = rule_number(problem, Rule::Day(turn.day));
    if some_cites_day(number, turn.day, lines) {
        None
    } else {
        Some(*turn)
    }
}

// Tells of a named rule, or of it only the turn.
#[tactic(auto, unfolding(crate::specs::Statements::line, crate::specs::Statements::statement_words))]
fn put_rule_told(out: &mut Vec<u8>, problem: &Problem, lone: Option<Turn>, rule: u32) -> Done
    requires { IfSome lone (λ t. IsDay problem.now t.day) }
    ensures { OnOk result (out.new.items ≡ out.old.items
        ++ told_line problem.now (rule_statement problem.now lone rule)) }
{
    match lone {
        Some(turn) if rule == rule_number(problem, Rule::Day(turn.day)) => {
            let parts = [Number(rule), Works(turn.x), Number(turn.day)];
            put_line(out, &told_by(problem), ONLY_TURN, &parts)
        }
        _ => {
            let parts = [Number(rule), Stated(rule)];
            put_line(out, &told_by(problem), NUMBERED_RULE, &parts)
        }
    }
}

// Tells of each rule.
fn put_rules_told(out: &mut Vec<u8>, problem: &Problem, lone: Option<Turn>, rules: &[u32]) -> Done
    requires { IfSome lone (λ t. IsDay problem.now t.day) }
    ensures { OnOk result (out.new.items
        ≡ out.old.items ++ told_lines problem.now (map (rule_statement problem.now lone) rules.now)) }
{
    for rule in rules {
        put_rule_told(out, problem, lone, *rule)?;
    }
    Ok(())
}

// Whether the line counts the blocks of the symbol.
fn counts_blocks(x: Symbol, line: &Line) -> bool
    ensures { result ≡ counts_blocks x line.now }
{
    match line {
        Line::Closing(Leaf::Blocks { x: counted }) => counted.number == x.number,
        _ => false,
    }
}

// Whether one of the lines does.
fn some_counts_blocks(x: Symbol, lines: &[Line]) -> bool
    ensures { result ≡ list_any (counts_blocks x) lines.now }
{
    lines.iter().any(|line| counts_blocks(x, line))
}

// Tells what counting the blocks of a symbol shows, where a line counts them rightly.
fn put_counted_at(out: &mut Vec<u8>, problem: &Problem, lines: &[Line], number: u8) -> Done
    requires { number ≤ shift_count problem.now }
    ensures { OnOk result (out.new.items ≡ out.old.items ++ told_lines problem.now (counted_at problem.now lines.now number)) }
{
    let x = Symbol { number };
    let is_counted = some_counts_blocks(x, lines) && is_misfit(problem, x);
    put_counted_if(out, &told_by(problem), is_counted, COUNTING, x)
}

// Tells what counting shows, of the day off and of the shifts. It goes over the lines once for each.
fn put_counts_told(out: &mut Vec<u8>, problem: &Problem, lines: &[Line]) -> Done
    ensures { OnOk result (out.new.items
        ≡ out.old.items ++ told_lines problem.now (counted_statements problem.now lines.now)) }
{
    for number in 0..problem.shifts() + 1 {
        put_counted_at(out, problem, lines, number)?;
    }
    Ok(())
}

// Tells that no such roster meets these rules together behind this opening.
fn put_refuted_told(
    out: &mut Vec<u8>,
    problem: &Problem,
    opening: &Opening,
    rosters: Rosters,
    lone: Option<Turn>,
    rules: &[u32],
) -> Done
    requires opening { OpeningFits problem.now opening.now }
    requires lone { IfSome lone (λ t. IsDay problem.now t.day) }
    ensures { OnOk result (out.new.items
        ≡ out.old.items ++ told_lines problem.now (rules_statements problem.now opening.now rosters lone rules.now)) }
{
    match opening {
        Opening::Given(given) => put_cells_told(out, problem, given.cells(), rules)?,
        Opening::Full | Opening::Turned(_) => put_first_told(out, problem, rosters, rules)?,
    }
    put_rules_told(out, problem, lone, rules)
}

// Tells of a log with no open line.
fn put_reason_told(out: &mut Vec<u8>, problem: &Problem, rosters: Rosters, log: &Log) -> Done
    requires { Fits problem.now log.now }
    ensures { OnOk result (out.new.items
        ≡ out.old.items ++ told_lines problem.now (reason_statements problem.now rosters log.now)) }
{
    let opening = log.opening();
    let lines = log.lines();
    let lone = lone_turn(problem, opening, lines);
    put_refuted_told(out, problem, opening, rosters, lone, log.named().numbers())?;
    put_counts_told(out, problem, lines)?;
    Ok(())
}

// How many cases were left open.
fn count_open(lines: &[Line]) -> usize
    ensures { result ≡ count_by is_open lines.now }
{
    lines
        .iter()
        .filter(|line| matches!(line, Line::Unfinished))
        .count()
}

// How many cases are closed.
fn count_closed(lines: &[Line]) -> usize
    ensures { result ≡ count_by is_closed lines.now }
{
    lines
        .iter()
        .filter(|line| matches!(line, Line::Closing(_)))
        .count()
}

// Tells how far a log came.
fn put_spent_told(out: &mut Vec<u8>, problem: &Problem, rosters: Rosters, lines: &[Line]) -> Done
    ensures { OnOk result (out.new.items
        ≡ out.old.items ++ told_lines problem.now (spent_statement rosters lines.now ∷ [])) }
{
    let closed = Closed(count_closed(lines) as u64);
    let left = Open(count_open(lines) as u64);
    let parts = [closed, left, Unknown(rosters)];
    put_told(out, problem, SPENT, &parts)
}

/// Tells of a log, as one about these rosters: the rules that it names and the symbols whose blocks it counts rightly,
/// or where it has open lines how far it came. It goes over the lines about a dozen times.
pub fn put_log_told(out: &mut Vec<u8>, problem: &Problem, rosters: Rosters, log: &Log) -> Done
    requires { Fits problem.now log.now }
    ensures { OnOk result (out.new.items
        ≡ out.old.items ++ told_lines problem.now (log_statements problem.now rosters log.now)) }
{
    if count_open(log.lines()) == 0 {
        put_reason_told(out, problem, rosters, log)
    } else {
        put_spent_told(out, problem, rosters, log.lines())
    }
}

// The rosters that a log with this goal or none is about.
fn rosters_by(goal: Option<u32>) -> Rosters
    ensures { result ≡ rosters_by goal }
{
    match goal {
        None | Some(0) => Rosters::Every,
        Some(goal) => Rosters::Free(goal),
    }
}

/// The rosters that a log is about: those with its given cells, if it gives any, or those of its goal.
pub fn rosters_of(log: &Log) -> Rosters
    ensures { result ≡ rosters_of log.now }
{
    match log.opening() {
        Opening::Given(_) => Rosters::Given,
        Opening::Full | Opening::Turned(_) => rosters_by(log.goal()),
    }
}

/// Tells of a log that was judged, which has this opening and this goal or none, and names these rules.
pub fn put_accepted_told(
    out: &mut Vec<u8>,
    problem: &Problem,
    opening: &Opening,
    goal: Option<u32>,
    rules: &[u32],
) -> Done
    requires { OpeningFits problem.now opening.now }
    ensures { OnOk result (out.new.items
        ≡ out.old.items ++ told_lines problem.now (accepted_statements problem.now opening.now goal rules.now)) }
{
    put_told(out, problem, LOG_PASSES, &[])?;
    put_refuted_told(out, problem, opening, rosters_by(goal), None, rules)
}

// How a search without a roster ended, by its log.
fn end_text(lines: &[Line]) -> &'static [u8]
    ensures { result.now ≡ end_text lines.now }
{
    match lines {
        [Line::Closing(Leaf::Blocks { .. })] => BY_A_COUNT,
        [
            Line::Closing(
                Leaf::Words {
                    claim: WordClaim::Light { .. },
                    ..
                },
            ),
        ] => BY_WEIGHTS,
        [_] => AT_ONCE,
        _ => BY_CASES,
    }
}

/// Tells how a search without a roster ended, by its log.
pub fn put_end_told(out: &mut Vec<u8>, problem: &Problem, lines: &[Line]) -> Done
    ensures { OnOk result (out.new.items
        ≡ out.old.items ++ told_lines problem.now (end_statement lines.now ∷ [])) }
{
    put_told(out, problem, end_text(lines), &[Length(lines.len() as u64)])
}

/// Tells of a log that is left of one which names so many rules.
pub fn put_reduced_told(out: &mut Vec<u8>, problem: &Problem, before: usize, log: &Log) -> Done
    requires { Fits problem.now log.now }
    ensures { OnOk result (out.new.items
        ≡ out.old.items ++ told_lines problem.now (reduced_statements problem.now before log.now)) }
{
    let after = log.named().numbers().len();
    let parts = [Length(before as u64), Length(after as u64)];
    put_if(out, &told_by(problem), after < before, LEAVES, &parts)?;
    put_log_told(out, problem, Rosters::Every, log)
}

// Tells of a log for so many weeks by the numbers of its rules, or how far it came.
fn put_size_told(out: &mut Vec<u8>, problem: &Problem, weeks: u32, log: &Log) -> Done
    ensures { OnOk result (out.new.items
        ≡ out.old.items ++ told_lines problem.now (size_statement weeks log.now ∷ [])) }
{
    if count_open(log.lines()) == 0 {
        put_numbers_told(out, problem, Rosters::Weeks(weeks), log.named().numbers())
    } else {
        put_spent_told(out, problem, Rosters::Weeks(weeks), log.lines())
    }
}

// Tells of the first of the logs for `low` weeks, one more and so on.
fn put_sizes_told(
    out: &mut Vec<u8>,
    problem: &Problem,
    low: u32,
    logs: &[Log],
    count: usize,
) -> Done
    requires within { count ≤ length logs.now }
    requires few { low + count ≤ MOST_WEEKS + 1 }
    ensures { OnOk result (out.new.items
        ≡ out.old.items ++ told_lines problem.now (flat_map (size_in low logs.now) (range_with_len 0 count))) }
{
    for place in 0..count {
        put_size_told(out, problem, low + place as u32, &logs[place])?;
    }
    Ok(())
}

// Tells of a log for so many weeks.
fn put_sized_told(out: &mut Vec<u8>, problem: &Problem, weeks: u32, log: &Log) -> Done
    requires size { IsSize problem.now weeks }
    requires fits { Fits (with_weeks problem.now weeks) log.now }
    ensures { OnOk result (out.new.items
        ≡ out.old.items ++ told_lines problem.now (sized_statements problem.now weeks log.now)) }
{
    let sized = with_weeks(problem, weeks)?;
    put_log_told(out, &sized, Rosters::Weeks(weeks), log)?;
    Ok(())
}

// Tells of the last log, and then of those before it.
fn put_logs_told(out: &mut Vec<u8>, problem: &Problem, low: u32, logs: &[Log]) -> Done
    requires few { low + length logs.now ≤ MOST_WEEKS + 1 }
    requires sizes { (k : ℕ) (g : LogValue) → slice_get logs.now k ≡ Some g → IsSize problem.now (low + k) }
    requires fits { (k : ℕ) (g : LogValue) → slice_get logs.now k ≡ Some g → Fits (with_weeks problem.now (low + k)) g }
    ensures { OnOk result (out.new.items ≡ out.old.items ++ told_lines problem.now (logs_statements problem.now low logs.now)) }
{
    if logs.is_empty() {
        return Ok(());
    }
    let before = logs.len() - 1;
    put_sized_told(out, problem, low + before as u32, &logs[before])?;
    put_sizes_told(out, problem, low, logs, before)?;
    Ok(())
}

// Tells that the numbers of weeks below this one have no roster, where there are some.
fn put_none_below(out: &mut Vec<u8>, problem: &Problem, low: u32, weeks: u32) -> Done
    ensures { OnOk result (out.new.items ≡ out.old.items ++ told_lines problem.now (none_below low weeks)) }
{
    if low == weeks {
        Ok(())
    } else {
        put_none_told(out, problem, low, weeks.saturating_sub(1))
    }
}

// Tells of the end, where this number of weeks comes next.
fn put_end_of_staff(
    out: &mut Vec<u8>,
    problem: &Problem,
    low: u32,
    weeks: u32,
    end: &StaffEnd,
) -> Done
    requires { EndFits problem.now weeks end.now }
    ensures { OnOk result (out.new.items
        ≡ out.old.items ++ told_lines problem.now (end_statements problem.now low weeks end.now)) }
{
    match end {
        StaffEnd::Least(_) => put_enough_told(out, problem, low, weeks),
        StaffEnd::NoneTo => put_none_below(out, problem, low, weeks),
        StaffEnd::Undecided(log) => {
            put_none_below(out, problem, low, weeks)?;
            put_sized_told(out, problem, weeks, log)
        }
    }
}

/// Tells of a search by numbers of weeks: of its end, of the log of the last number without a roster, and by a line of
/// the logs before it.
pub fn put_staff_told(out: &mut Vec<u8>, problem: &Problem, run: &StaffRun) -> Done
    requires { FitsSizes problem.now run.now }
    ensures { OnOk result (out.new.items
        ≡ out.old.items ++ told_lines problem.now (staff_statements problem.now run.now)) }
{
    let logs = run.logs();
    let weeks = run.low() + logs.len() as u32;
    put_end_of_staff(out, problem, run.low(), weeks, run.end())?;
    put_logs_told(out, problem, run.low(), logs)?;
    Ok(())
}
