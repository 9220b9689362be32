// Lines of a log's text, read by their fields.
ghost use Rattle.std.specs.Prelude.{◌≡◌, ◌≢◌, ◌<◌, ◌^◌, ◌++◌, ◌∷◌, ℕ, List, [], Option, Some, None, MatchOption, IfOk, IfSome, OnOk, All};
ghost use Rattle.std.specs.List.Sorted.{IsStrictlyIncreasing};
ghost use Rattle.rwsp_terms.specs.Rules.{rules};
ghost use Rattle.rwsp_model.specs.Refusals.{MatchAnswer};
ghost use Rattle.refutation_terms.specs.LogText.{RawSplit, RawWindow, RawDay, RawBlocks, most_turns};
ghost use Rattle.refutation_terms.specs.Verdict.{Spells};
ghost use Rattle.rwsp_text.specs.Lines.{words_of};
ghost use Rattle.refutation_log.specs.Refusals.{IsLineRefused};
ghost use Rattle.rwsp_text.specs.Fields.{IsValue};
ghost use Rattle.rwsp_text.specs.Reads.{Reads};
ghost use Rattle.rwsp_terms.specs.declared.limits.TheConstants.{GREATEST_WEIGHT};
ghost use Rattle.refutation_log.specs.Reading.{split_at, window_at, day_at, head_at, rules_in, dead_at, named_weight_at, all_weights_at, weighed_at, bound_at, free_head_at, free_at, blocks_at, last_at, without_goal_at, with_goal_at, raw_at, Answers, AnswersWeighed, light_line};
ghost use Rattle.refutation_log.specs.Gathering.{GivesAll, IsWeighed};

use crate::LineRefusal;
use crate::gather::{Gathered, add};
use refutation_terms::{Leaf, Line, Terms, WordClaim};
use rwsp_model::{Fail, Problem, rule_count};
use rwsp_terms::limits::{GREATEST_REWARD, GREATEST_WEIGHT, LONGEST_WORD};
use rwsp_terms::{RuleList, Weights};
use rwsp_text::Fields;
use std::alloc::{AllocError, Global};

const FORM: Fail<LineRefusal> = Fail::Refused(LineRefusal::Form);

const NAME: Fail<LineRefusal> = Fail::Refused(LineRefusal::Name);

/// The line of a log of these terms that a line of text spells. It needs its LF.
pub fn read_line(
    alloc: Global,
    problem: &Problem,
    terms: Terms,
    bytes: &[u8],
) -> Result<Line, Fail<LineRefusal>>
    ensures { MatchAnswer result
        (Spells problem.now terms.goal terms.counts bytes.now)
        (IsLineRefused problem.now terms.goal terms.counts bytes.now) }
{
    problem.prove_limits();
    match body_of(bytes) {
        None => Err(FORM),
        Some(body) => read_body(alloc, problem, terms, body),
    }
}

/// A line of text without its LF.
pub fn body_of(bytes: &[u8]) -> Option<&[u8]>
    ensures { MatchOption result ((body : List ℕ) → bytes.now ≢ body ++ 10 ∷ [])
        (λ body. bytes.now ≡ body.now ++ 10 ∷ []) }
{
    let (last, body) = bytes.split_last()?;
    if *last == b'\n' { Some(body) } else { None }
}

#[tactic(auto, unfolding(crate::specs::Reading::raw_at))]
fn read_body(
    alloc: Global,
    problem: &Problem,
    terms: Terms,
    body: &[u8],
) -> Result<Line, Fail<LineRefusal>>
    ensures { Answers problem.now (raw_at problem.now terms.goal terms.counts (words_of body.now)) result }
{
    let mut fields = Fields::of(body);
    let Some(word) = fields.next() else {
        return Err(FORM);
    };
    if word == b"split".as_slice() {
        read_split(problem, &mut fields)
    } else if word == b"window".as_slice() {
        read_window(problem, &mut fields)
    } else if word == b"day".as_slice() {
        read_day(problem, &mut fields)
    } else if word == b"dead".as_slice() {
        read_dead(alloc, problem, &mut fields)
    } else {
        match terms.goal {
            None => read_without_goal(alloc, problem, terms.counts, word, &mut fields),
            Some(_) => read_with_goal(alloc, problem, terms.counts, word, &mut fields),
        }
    }
}

// A line of a kind that only a log without a goal has, or of the last kinds.
#[tactic(auto, unfolding(crate::specs::Reading::without_goal_at))]
fn read_without_goal(
    alloc: Global,
    problem: &Problem,
    counts: bool,
    word: &[u8],
    fields: &mut Fields,
) -> Result<Line, Fail<LineRefusal>>
    ensures { Answers problem.now (without_goal_at problem.now counts word.now fields.old) result }
{
    if word == b"bound".as_slice() {
        read_bound(alloc, problem, fields)
    } else {
        read_last(problem, counts, word, fields)
    }
}

// A line of a kind that only a free log has, or of the last kinds.
#[tactic(auto, unfolding(crate::specs::Reading::with_goal_at))]
fn read_with_goal(
    alloc: Global,
    problem: &Problem,
    counts: bool,
    word: &[u8],
    fields: &mut Fields,
) -> Result<Line, Fail<LineRefusal>>
    ensures { Answers problem.now (with_goal_at problem.now counts word.now fields.old) result }
{
    if word == b"few".as_slice() {
        if fields.is_done() {
            Ok(Line::Closing(Leaf::Few))
        } else {
            Err(FORM)
        }
    } else if word == b"free".as_slice() {
        read_free(alloc, problem, fields)
    } else {
        read_last(problem, counts, word, fields)
    }
}

// A line of a kind that only a log has that may count, or an unfinished one.
#[tactic(auto, unfolding(crate::specs::Reading::last_at))]
fn read_last(
    problem: &Problem,
    counts: bool,
    word: &[u8],
    fields: &mut Fields,
) -> Result<Line, Fail<LineRefusal>>
    ensures { Answers problem.now (last_at counts word.now fields.old) result }
{
    if counts && word == b"blocks".as_slice() {
        read_blocks(problem, fields)
    } else if word == b"open".as_slice() && fields.is_done() {
        Ok(Line::Unfinished)
    } else {
        Err(FORM)
    }
}

#[tactic(auto, unfolding(crate::specs::Reading::split_at))]
fn split_parts<'a>(problem: &Problem, fields: &mut Fields<'a>) -> Option<(u32, &'a [u8])>
    ensures { MatchOption result (split_at problem.now fields.old ≡ None)
        (λ r. split_at problem.now fields.old ≡ Some (RawSplit r.0 r.1.now)) }
{
    let p = fields.place(problem.weeks(), problem.days())?;
    let name = fields.name()?;
    if fields.is_done() {
        Some((p, name))
    } else {
        None
    }
}

fn read_split(problem: &Problem, fields: &mut Fields) -> Result<Line, Fail<LineRefusal>>
    ensures { Answers problem.now (split_at problem.now fields.old) result }
{
    let Some((p, name)) = split_parts(problem, fields) else {
        return Err(FORM);
    };
    match problem.symbol(name) {
        None => Err(NAME),
        Some(x) => Ok(Line::Split { p, x }),
    }
}

#[tactic(auto, unfolding(crate::specs::Reading::window_at))]
fn window_parts(problem: &Problem, fields: &mut Fields) -> Option<(u32, u32, u32)>
    ensures { MatchOption result (window_at problem.now fields.old ≡ None)
        (λ r. window_at problem.now fields.old ≡ Some (RawWindow r.0 r.1 r.2)) }
{
    let rule = fields.number(1, rule_count(problem))?;
    let p = fields.place(problem.weeks(), problem.days())?;
    let len = fields.number(1, LONGEST_WORD)?;
    if fields.is_done() {
        Some((rule, p, len))
    } else {
        None
    }
}

fn read_window(problem: &Problem, fields: &mut Fields) -> Result<Line, Fail<LineRefusal>>
    ensures { Answers problem.now (window_at problem.now fields.old) result }
{
    match window_parts(problem, fields) {
        None => Err(FORM),
        Some((rule, p, len)) => Ok(Line::Closing(Leaf::Window { rule, p, len })),
    }
}

#[tactic(auto, unfolding(crate::specs::Reading::day_at))]
fn day_parts<'a>(problem: &Problem, fields: &mut Fields<'a>) -> Option<(u32, &'a [u8], bool)>
    ensures { MatchOption result (day_at problem.now fields.old ≡ None)
        (λ r. day_at problem.now fields.old ≡ Some (RawDay r.0 r.1.now r.2)) }
{
    let day = fields.number(1, problem.days())?;
    let name = fields.name()?;
    let over = fields.choice(b"over", b"short")?;
    if fields.is_done() {
        Some((day, name, over))
    } else {
        None
    }
}

fn read_day(problem: &Problem, fields: &mut Fields) -> Result<Line, Fail<LineRefusal>>
    ensures { Answers problem.now (day_at problem.now fields.old) result }
{
    let Some((day, name, over)) = day_parts(problem, fields) else {
        return Err(FORM);
    };
    match problem.symbol(name) {
        None => Err(NAME),
        Some(x) => Ok(Line::Closing(Leaf::Day { day, x, over })),
    }
}

// A position, a number of at most `high`, and the word that begins a list of rules.
#[tactic(auto, unfolding(crate::specs::Reading::head_at))]
fn head(problem: &Problem, fields: &mut Fields, high: u32) -> Option<(u32, u32)>
    requires { high < 10 ^ 9 }
    ensures { Reads (head_at problem.now high fields.old) result fields.new }
{
    let p = fields.place(problem.weeks(), problem.days())?;
    let n = fields.number(1, high)?;
    fields.word(b"rules")?;
    Some((p, n))
}

/// The ascending numbers of rules in front.
#[tactic(auto, unfolding(rwsp_text::specs::Fields::rules_at))]
pub fn rule_numbers(
    alloc: Global,
    problem: &Problem,
    fields: &mut Fields,
) -> Result<RuleList, AllocError>
    ensures { IfOk result (λ R. rules_in problem.now fields.old ≡ (R, fields.new)) }
{
    let high = rule_count(problem);
    let mut list = RuleList::new(alloc);
    let mut last = 0;
    while let Some(n) = fields.number(last + 1, high) {
        put_behind(&mut list, n)?;
        last = n;
    }
    Ok(list)
}

// Puts a number behind all others.
fn put_behind(list: &mut RuleList, n: u32) -> Result<(), AllocError>
    requires ascends { IsStrictlyIncreasing list.old }
    requires last { All (λ k. k < n) list.old }
    ensures ascends { IsStrictlyIncreasing list.new }
    ensures value { OnOk result (list.new ≡ list.old ++ n ∷ []) }
{
    list.put(n)
}

#[tactic(auto, unfolding(crate::specs::Reading::dead_at))]
fn read_dead(
    alloc: Global,
    problem: &Problem,
    fields: &mut Fields,
) -> Result<Line, Fail<LineRefusal>>
    ensures { Answers problem.now (dead_at problem.now fields.old) result }
{
    let Some((p, len)) = head(problem, fields, LONGEST_WORD) else {
        return Err(FORM);
    };
    let Ok(rules) = rule_numbers(alloc, problem, fields) else {
        return Err(Fail::Memory);
    };
    if fields.is_done() {
        Ok(Line::Closing(Leaf::Words {
            p,
            rules,
            claim: WordClaim::Dead { len },
        }))
    } else {
        Err(FORM)
    }
}

#[tactic(auto, unfolding(rwsp_text::specs::Fields::weight_in))]
fn weight<'a>(problem: &Problem, fields: &mut Fields<'a>) -> Option<(u32, &'a [u8], i32)>
    ensures value { MatchOption result (named_weight_at problem.now fields.old ≡ None)
        (λ r. named_weight_at problem.now fields.old
        ≡ Some (record { day = r.0; name = r.1.now; value = r.2 }, fields.new)) }
    ensures range { IfSome result (λ r. IsValue GREATEST_WEIGHT r.2) }
{
    let day = fields.number(1, problem.days())?;
    let name = fields.name()?;
    let value = fields.value(GREATEST_WEIGHT)?;
    Some((day, name, value))
}

// All fields that are left as weights.
fn weights(
    alloc: Global,
    problem: &Problem,
    fields: &mut Fields,
) -> Result<Option<Gathered>, AllocError>
    ensures { IfOk result (GivesAll problem.now (all_weights_at problem.now fields.old)) }
{
    let mut state = Gathered::Rising(Weights::new(alloc));
    while !fields.is_done() {
        let Some((day, name, value)) = weight(problem, fields) else {
            return Ok(None);
        };
        state = add(state, problem, day, name, value)?;
    }
    Ok(Some(state))
}

// The rules and the weights with which a line ends that weighs words.
#[tactic(auto, unfolding(crate::specs::Reading::weighed_at))]
fn weighed(
    alloc: Global,
    problem: &Problem,
    fields: &mut Fields,
) -> Result<(RuleList, Weights), Fail<LineRefusal>>
    ensures { AnswersWeighed problem.now (weighed_at problem.now fields.old) result }
{
    let Ok(rules) = rule_numbers(alloc, problem, fields) else {
        return Err(Fail::Memory);
    };
    let Some(()) = fields.word(b"weights") else {
        return Err(FORM);
    };
    match weights(alloc, problem, fields) {
        Err(_) => Err(Fail::Memory),
        Ok(None) => Err(FORM),
        Ok(Some(state)) => with_rules(rules, state),
    }
}

fn with_rules(rules: RuleList, state: Gathered) -> Result<(RuleList, Weights), Fail<LineRefusal>>
    ensures { IsWeighed rules state result }
{
    match state {
        Gathered::Rising(weights) => Ok((rules, weights)),
        Gathered::Falling => Err(FORM),
        Gathered::Unknown => Err(NAME),
    }
}

// The line that says of the words from p on that they are light, with the rules and the weights that end it.
fn light_line(
    p: u32,
    turns: u32,
    reward: u32,
    weighed: Result<(RuleList, Weights), Fail<LineRefusal>>,
) -> Result<Line, Fail<LineRefusal>>
    ensures { result ≡ light_line p turns reward weighed }
{
    match weighed {
        Err(fail) => Err(fail),
        Ok((rules, weights)) => Ok(Line::Closing(Leaf::Words {
            p,
            rules,
            claim: WordClaim::Light {
                turns,
                reward,
                weights,
            },
        })),
    }
}

#[tactic(auto, unfolding(crate::specs::Reading::bound_at), using(crate::proofs::LineTexts::few_turns))]
fn read_bound(
    alloc: Global,
    problem: &Problem,
    fields: &mut Fields,
) -> Result<Line, Fail<LineRefusal>>
    ensures { Answers problem.now (bound_at problem.now fields.old) result }
{
    let Some((p, turns)) = head(problem, fields, most_turns(problem)) else {
        return Err(FORM);
    };
    light_line(p, turns, 0, weighed(alloc, problem, fields))
}

// The turns, the reward, and the word that begins a list of rules.
#[tactic(auto, unfolding(crate::specs::Reading::free_head_at), using(crate::proofs::LineTexts::few_turns))]
fn free_head(problem: &Problem, fields: &mut Fields) -> Option<(u32, u32)>
    ensures { Reads (free_head_at problem.now fields.old) result fields.new }
{
    let turns = fields.number(1, most_turns(problem))?;
    let reward = fields.number(0, GREATEST_REWARD)?;
    fields.word(b"rules")?;
    Some((turns, reward))
}

#[tactic(auto, unfolding(crate::specs::Reading::free_at))]
fn read_free(
    alloc: Global,
    problem: &Problem,
    fields: &mut Fields,
) -> Result<Line, Fail<LineRefusal>>
    ensures { Answers problem.now (free_at problem.now fields.old) result }
{
    let Some((turns, reward)) = free_head(problem, fields) else {
        return Err(FORM);
    };
    light_line(0, turns, reward, weighed(alloc, problem, fields))
}

#[tactic(auto, unfolding(crate::specs::Reading::blocks_at))]
fn blocks_name<'a>(fields: &mut Fields<'a>) -> Option<&'a [u8]>
    ensures { MatchOption result (blocks_at fields.old ≡ None)
        (λ name. blocks_at fields.old ≡ Some (RawBlocks name.now)) }
{
    let name = fields.name()?;
    if fields.is_done() { Some(name) } else { None }
}

fn read_blocks(problem: &Problem, fields: &mut Fields) -> Result<Line, Fail<LineRefusal>>
    ensures { Answers problem.now (blocks_at fields.old) result }
{
    let Some(name) = blocks_name(fields) else {
        return Err(FORM);
    };
    match problem.symbol(name) {
        None => Err(NAME),
        Some(x) => Ok(Line::Closing(Leaf::Blocks { x })),
    }
}

// The most turns that a leaf may speak of.
fn most_turns(problem: &Problem) -> u32
    ensures { result ≡ most_turns problem.now }
{
    problem.prove_limits();
    LONGEST_WORD / problem.cells()
}
