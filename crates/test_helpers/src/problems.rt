// Small problems as the texts of their files, and what tests make of a problem.
ghost use Rattle.std.specs.Prelude.{◌≡◌, ◌==◌, ◌&&◌, ◌||◌, not, ℕ, IfOk};
ghost use Rattle.rwsp_terms.specs.Instance.{Instance};
ghost use Rattle.rwsp_terms.specs.Roster.{IsRoster};
ghost use Rattle.rwsp_terms.specs.Rules.{NamesShortRules};
ghost use Rattle.refutation_terms.specs.Log.{Fits};
ghost use Rattle.refutation_terms.specs.LogText.{log_text};
ghost use Rattle.refutation_terms.specs.declared.lines.LogKind.TheVariants.{WithoutGoal};
ghost use Rattle.refutation_terms.specs.Verdict.{kind_of_log};
ghost use Rattle.rwsp_file.specs.Spelling.{SpellsProblem};
ghost use Rattle.roster_print.specs.RosterText.{SpellsRoster};
ghost use Rattle.domain_store.specs.Store.{BelongsTo, has_domain};

use clean_words::{Automaton, Told};
use domain_store::Domains;
use refutation_log::{Log, LogKind, read_log};
use roster_print::read_roster;
use rwsp_file::read_problem;
use rwsp_model::{Problem, Roster, is_short, rule_at, rule_count};
use rwsp_terms::{RuleList, Symbol};
use std::alloc::{AllocError, Global};
use std::test::Fail;

/// A day off.
pub const OFF: Symbol = Symbol::OFF;

/// The first shift.
pub const D: Symbol = Symbol { number: 1 };

/// The second shift.
pub const N: Symbol = Symbol { number: 2 };

/// One cell, for which D is too short alone, and so is the day off.
pub const ONE_CELL: &[u8] = b"1\n1\n1\n1\nD 360 480 1 7\n1 1\n1 7\n0 0\n";

/// Three D are asked of two cells.
pub const THREE_IN_TWO: &[u8] = b"1\n2\n1\n3\nD 360 480 1 7\n1 1\n1 7\n0 0\n";

/// Single D with two days off behind: two in four cells are too many.
pub const TWO_IN_FOUR: &[u8] = b"1\n4\n1\n2\nD 360 480 1 1\n2 2\n1 4\n0 0\n";

/// Single D with single days off between: half of the four cells.
pub const HALF_OF_FOUR: &[u8] = b"1\n4\n1\n2\nD 360 480 1 1\n1 1\n1 1\n0 0\n";

/// Three of them.
pub const MOST_OF_FOUR: &[u8] = b"1\n4\n1\n3\nD 360 480 1 1\n1 1\n1 1\n0 0\n";

/// Two D and two days off in turn: they close up in four cells, and never in six (`TWOS_IN_SIX`).
pub const TWOS_IN_FOUR: &[u8] = b"1\n4\n1\n2\nD 360 480 2 2\n2 2\n2 2\n0 0\n";

/// Six cells.
pub const TWOS_IN_SIX: &[u8] = b"1\n6\n1\n3\nD 360 480 2 2\n2 2\n2 2\n0 0\n";

/// Five D are asked of six cells.
pub const CROWDED_TWOS_IN_SIX: &[u8] = b"1\n6\n1\n5\nD 360 480 2 2\n2 2\n2 2\n0 0\n";

/// Two D with one or two days off between.
pub const THREE_IN_FIVE: &[u8] = b"1\n5\n1\n3\nD 360 480 2 2\n1 2\n2 2\n0 0\n";

/// One week of two days with single days of work: D on both.
pub const D_ON_BOTH_DAYS: &[u8] = b"2\n1\n1\n1 1\nD 360 480 1 1\n1 1\n1 1\n0 0\n";

/// D on the first day alone.
pub const D_ON_DAY_1: &[u8] = b"2\n1\n1\n1 0\nD 360 480 1 1\n1 1\n1 1\n0 0\n";

/// D on whichever day, on both, or on none.
pub const D_ON_EITHER_DAY: &[u8] = b"2\n1\n1\n0..1 0..1\nD 360 480 1 1\n1 1\n1 1\n0 0\n";

/// D on no day.
pub const NO_DEMAND: &[u8] = b"2\n1\n1\n0 0\nD 360 480 1 1\n1 1\n1 1\n0 0\n";

/// Two D on day 1 of the only week, and one on day 3.
pub const TWO_D_AND_ONE: &[u8] = b"3\n1\n1\n2 0 1\nD 360 480 1 2\n1 7\n1 7\n0 0\n";

/// Three weeks with two D on each day: six or seven days of work, and two to four off. One weekend can be free at most;
/// with more days of work in a row (`LONGER_BLOCKS`) two can.
pub const LONG_BLOCKS: &[u8] = b"7\n3\n1\n2 2 2 2 2 2 2\nD 360 480 6 7\n2 4\n6 7\n0 0\n";

/// Up to twenty days of work in a row.
pub const LONGER_BLOCKS: &[u8] = b"7\n3\n1\n2 2 2 2 2 2 2\nD 360 480 6 20\n2 4\n6 20\n0 0\n";

/// Four weeks with D in two or three of them on each day.
pub const MOST_OF_FOUR_WEEKS: &[u8] =
    b"7\n4\n1\n2..3 2..3 2..3 2..3 2..3 2..3 2..3\nD 360 480 3 6\n1 3\n3 6\n0 0\n";

/// D in each of the four weeks, which no roster has.
pub const ALL_OF_FOUR_WEEKS: &[u8] = b"7\n4\n1\n4 4 4 4 4 4 4\nD 360 480 3 6\n1 3\n3 6\n0 0\n";

/// Three weeks that may hold any number of D and N.
pub const DAYS_OR_NIGHTS: &[u8] =
    b"7\n3\n2\n0..3 0..3 0..3 0..3 0..3 0..3 0..3\n0..3 0..3 0..3 0..3 0..3 0..3 0..3\nD 360 480 1 7\nN 360 480 1 7\n1 7\n1 7\n0 0\n";

/// Blocks of 2 to 3 days D, of 2 to 30 nights N, of 2 days off at least and of 3 days of work at least; no D behind an
/// N, and no N behind two D.
pub const DAYS_AND_NIGHTS: &[u8] =
    b"7\n3\n2\n1 1 1 1 1 1 1\n1 1 1 1 1 1 1\nD 360 480 2 3\nN 360 480 2 30\n2 40\n3 40\n1 1\nN D\nD D N\n";

/// Three shifts, and three forbidden sequences that are the same.
pub const THREE_SHIFTS: &[u8] =
    b"7\n3\n3\n1..2 1..2 1..2 1..2 1..2 1..2 1..2\n1..2 1..2 1..2 1..2 1..2 1..2 1..2\n1..2 1..2 1..2 1..2 1..2 1..2 1..2\nD 360 480 2 31\nA 360 480 2 31\nN 360 480 2 31\n1 4\n3 5\n3 0\nD -\nD -\nD -\n";

/// The sequences `D D` and `D - D` are forbidden, in one week of two days.
pub const SEQUENCES: &[u8] = b"2\n1\n1\n1 1\nD 360 480 1 1\n1 1\n1 1\n1 1\nD D\nD - D\n";

/// Two weeks.
pub const SEQUENCES_IN_TWO_WEEKS: &[u8] =
    b"2\n2\n1\n1 1\nD 360 480 1 1\n1 1\n1 1\n1 1\nD D\nD - D\n";

/// The problem that the text of a file spells.
pub fn problem_of(alloc: Global, text: &[u8]) -> Result<Problem, Fail>
    ensures { IfOk result (λ P. SpellsProblem text.now P) }
{
    if text.len() > 10_000 {
        return Err(Fail::from("a long text"));
    }
    Ok(read_problem(alloc, text)?)
}

/// The roster that a text spells.
pub fn roster_of(alloc: Global, problem: &Problem, text: &[u8]) -> Result<Roster, Fail>
    ensures spelled { IfOk result (λ r. SpellsRoster problem.now text.now r.cells) }
    ensures roster { IfOk result (λ r. IsRoster problem.now r.cells) }
    ensures days { IfOk result (λ r. r.days ≡ problem.now.days) }
{
    if text.len() > 10_000 {
        return Err(Fail::from("a long text"));
    }
    Ok(read_roster(alloc, problem, text)?)
}

/// The log that a text spells, without a goal and without given cells.
pub fn log_of(alloc: Global, problem: &Problem, text: &[u8]) -> Result<Log, Fail>
    ensures kind { IfOk result (λ log. kind_of_log log ≡ WithoutGoal) }
    ensures text { IfOk result (λ log. text.now ≡ log_text problem.now log) }
    ensures fits { IfOk result (λ log. Fits problem.now log) }
{
    log_of_kind(alloc, problem, LogKind::WithoutGoal, text)
}

/// The log of this kind that a text spells.
pub fn log_of_kind(
    alloc: Global,
    problem: &Problem,
    kind: LogKind,
    text: &[u8],
) -> Result<Log, Fail>
    ensures kind { IfOk result (λ log. kind_of_log log ≡ kind) }
    ensures text { IfOk result (λ log. text.now ≡ log_text problem.now log) }
    ensures fits { IfOk result (λ log. Fits problem.now log) }
{
    if text.len() > 10_000 {
        return Err(Fail::from("a long text"));
    }
    if matches!(kind, LogKind::WithGoal) && problem.days() != 7 {
        return Err(Fail::from("no week of seven days"));
    }
    match read_log(alloc, problem, kind, text) {
        Ok(log) => Ok(log),
        Err(why) => Err(Fail::from(why)),
    }
}

/// The automaton of all short rules.
pub fn all_rules(alloc: Global, problem: &Problem) -> Result<Automaton, AllocError>
    ensures problem { IfOk result (λ automaton. automaton.problem ≡ problem.now) }
    ensures short { IfOk result (λ automaton. NamesShortRules problem.now automaton.rules) }
{
    Automaton::of_short_rules(alloc, problem, Told::DayOff)
}

/// The automaton of one short rule alone.
pub fn one_rule(alloc: Global, problem: &Problem, number: u32) -> Result<Automaton, Fail>
    ensures problem { IfOk result (λ automaton. automaton.problem ≡ problem.now) }
{
    if number < 1 || number > rule_count(problem) {
        return Err(Fail::from("no rule"));
    }
    if !is_short(problem, rule_at(problem, number)) {
        return Err(Fail::from("no short rule"));
    }
    let mut rules = RuleList::new(alloc);
    rules.put(number)?;
    Ok(Automaton::of(alloc, problem, &rules, Told::DayOff)?)
}

/// Takes the symbol away from the position, where another is left.
pub fn take_away(doms: &mut Domains, p: u32, x: Symbol) -> Result<(), Fail>
    ensures taken { IfOk result (λ _. (q y : ℕ)
        → has_domain doms.new q y ≡ ((not (q == p) || not (y == x.number)) && has_domain doms.old q y)) }
    ensures belongs { (P : Instance) → BelongsTo P doms.old → BelongsTo P doms.new }
{
    if p >= doms.cells() || !doms.has(p, x) || doms.size(p) < 2 {
        return Err(Fail::from("no other symbol is left"));
    }
    doms.remove(p, x);
    Ok(())
}
