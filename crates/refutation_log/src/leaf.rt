// Leaves, kind by kind: how each is copied, how it is printed, and which rules it cites.
ghost use Rattle.std.specs.Prelude.{◌≡◌, ◌⊎◌, ℕ, ◌<◌, ◌++◌, Bool, Option, IfOk, OnOk, OnErr, All, Contains};
ghost use Rattle.std.specs.List.{join_with_byte};
ghost use Rattle.rwsp_terms.specs.declared.data.Rule.{Rule};
ghost use Rattle.rwsp_terms.specs.Instance.{cells, IsDay, IsSymbol, name_of};
ghost use Rattle.rwsp_terms.specs.Roster.{IsRule};
ghost use Rattle.refutation_terms.specs.declared.lines.Line.{Line};
ghost use Rattle.refutation_terms.specs.Ranges.{WeightsFit};
ghost use Rattle.refutation_terms.specs.WordsLeaf.{WordsFit, WordsCite};
ghost use Rattle.refutation_terms.specs.BlocksLeaf.{BlocksCite, IsBlockRule};
ghost use Rattle.refutation_terms.specs.Leaves.{LeafFits, LeafCites};
ghost use Rattle.refutation_terms.specs.LogText.{RawWindow, RawDay, RawDead, RawBlocks, raw, raw_fields};
ghost use Rattle.refutation_log.specs.Cited.{Adds, AddsSome, IsCited, IsDayRule, IsSomeDay, IsWeighedDayRule, ListAndClaimFit};
ghost use Rattle.refutation_log.specs.Printing.{spaced, light_head, weighed_words};

use crate::fields::{put_count, put_numbers, put_place, put_way, put_weights, put_word};
use refutation_terms::{Leaf, Terms, WordClaim};
use rwsp_model::{Problem, number_of};
use rwsp_terms::{Class, Rule, RuleList, Symbol, Weight, Weights};
use std::alloc::AllocError;

/// A copy of the leaf.
pub fn copy_leaf(leaf: &Leaf) -> Result<Leaf, AllocError>
    ensures { IfOk result (λ same. same ≡ leaf.now) }
{
    match leaf {
        Leaf::Window { rule, p, len } => Ok(Leaf::Window {
            rule: *rule,
            p: *p,
            len: *len,
        }),
        Leaf::Day { day, x, over } => Ok(Leaf::Day {
            day: *day,
            x: *x,
            over: *over,
        }),
        Leaf::Words { p, rules, claim } => {
            let rules = rules.copy()?;
            let claim = copy_claim(claim)?;
            Ok(Leaf::Words {
                p: *p,
                rules,
                claim,
            })
        }
        Leaf::Few => Ok(Leaf::Few),
        Leaf::Blocks { x } => Ok(Leaf::Blocks { x: *x }),
    }
}

fn copy_claim(claim: &WordClaim) -> Result<WordClaim, AllocError>
    ensures { IfOk result (λ same. same ≡ claim.now) }
{
    match claim {
        WordClaim::Dead { len } => Ok(WordClaim::Dead { len: *len }),
        WordClaim::Light {
            turns,
            reward,
            weights,
        } => {
            let weights = weights.copy()?;
            Ok(WordClaim::Light {
                turns: *turns,
                reward: *reward,
                weights,
            })
        }
    }
}

/// The fields of the leaf of a log of these terms, with a blank between each two.
pub fn put_leaf(
    out: &mut Vec<u8>,
    problem: &Problem,
    terms: Terms,
    leaf: &Leaf,
) -> Result<(), AllocError>
    requires { LeafFits problem.now terms.goal terms.counts leaf.now }
    ensures { OnOk result (out.new.items ≡ out.old.items
        ++ join_with_byte 32 (raw_fields problem.now (raw problem.now terms.goal (Line.Closing leaf.now)))) }
{
    match leaf {
        Leaf::Window { rule, p, len } => put_window(out, problem, *rule, *p, *len),
        Leaf::Day { day, x, over } => put_day(out, problem, *day, *x, *over),
        Leaf::Words { p, rules, claim } => put_words(
            out,
            problem,
            terms.goal,
            *p,
            rules.numbers(),
            claim,
        ),
        Leaf::Few => out.extend_from_slice(b"few"),
        Leaf::Blocks { x } => put_blocks(out, problem, *x),
    }
}

fn put_words(
    out: &mut Vec<u8>,
    problem: &Problem,
    goal: Option<u32>,
    p: u32,
    rules: &[u32],
    claim: &WordClaim,
) -> Result<(), AllocError>
    requires { WordsFit problem.now goal p rules.now claim.now }
    ensures { OnOk result (out.new.items ≡ out.old.items
        ++ join_with_byte 32 (raw_fields problem.now
        (raw problem.now goal (Line.Closing (Leaf.Words p rules.now claim.now))))) }
{
    match claim {
        WordClaim::Dead { len } => put_dead(out, problem, p, *len, rules),
        WordClaim::Light {
            turns,
            reward,
            weights,
        } => {
            put_light_head(out, problem, goal, p, *turns, *reward)?;
            put_weighed(out, problem, rules, weights.entries())
        }
    }
}

#[tactic(auto, using(crate::proofs::PrintedTexts::window_text))]
fn put_window(
    out: &mut Vec<u8>,
    problem: &Problem,
    rule: u32,
    p: u32,
    len: u32,
) -> Result<(), AllocError>
    requires { p < cells problem.now }
    ensures { OnOk result (out.new.items ≡ out.old.items
        ++ join_with_byte 32 (raw_fields problem.now (RawWindow rule p len))) }
{
    out.extend_from_slice(b"window")?;
    put_count(out, rule)?;
    put_place(out, problem, p)?;
    put_count(out, len)
}

#[tactic(auto, using(crate::proofs::PrintedTexts::day_text))]
fn put_day(
    out: &mut Vec<u8>,
    problem: &Problem,
    day: u32,
    x: Symbol,
    over: bool,
) -> Result<(), AllocError>
    requires { IsSymbol problem.now x }
    ensures { OnOk result (out.new.items ≡ out.old.items
        ++ join_with_byte 32 (raw_fields problem.now (RawDay day (name_of problem.now x) over))) }
{
    out.extend_from_slice(b"day")?;
    put_count(out, day)?;
    put_word(out, problem.name(x))?;
    put_way(out, over)
}

#[tactic(auto, using(crate::proofs::PrintedTexts::dead_text))]
fn put_dead(
    out: &mut Vec<u8>,
    problem: &Problem,
    p: u32,
    len: u32,
    rules: &[u32],
) -> Result<(), AllocError>
    requires { p < cells problem.now }
    ensures { OnOk result (out.new.items ≡ out.old.items
        ++ join_with_byte 32 (raw_fields problem.now (RawDead p len rules.now))) }
{
    out.extend_from_slice(b"dead")?;
    put_place(out, problem, p)?;
    put_count(out, len)?;
    put_word(out, b"rules")?;
    put_numbers(out, rules)
}

// How the line begins that weighs words: in a log with a goal it has a word of its own and the reward.
#[tactic(auto, using(crate::proofs::PrintedTexts::bound_head_text, crate::proofs::PrintedTexts::free_head_text))]
fn put_light_head(
    out: &mut Vec<u8>,
    problem: &Problem,
    goal: Option<u32>,
    p: u32,
    turns: u32,
    reward: u32,
) -> Result<(), AllocError>
    requires { p < cells problem.now }
    ensures { OnOk result (out.new.items ≡ out.old.items
        ++ join_with_byte 32 (light_head problem.now goal p turns reward)) }
{
    match goal {
        None => {
            out.extend_from_slice(b"bound")?;
            put_place(out, problem, p)?;
            put_count(out, turns)
        }
        Some(_) => {
            out.extend_from_slice(b"free")?;
            put_count(out, turns)?;
            put_count(out, reward)
        }
    }
}

// How it ends.
#[tactic(auto, using(crate::proofs::PrintedTexts::weighed_text))]
fn put_weighed(
    out: &mut Vec<u8>,
    problem: &Problem,
    rules: &[u32],
    weights: &[Weight],
) -> Result<(), AllocError>
    requires { WeightsFit problem.now weights.now }
    ensures { OnOk result (out.new.items ≡ out.old.items
        ++ spaced (weighed_words problem.now rules.now weights.now)) }
{
    put_word(out, b"rules")?;
    put_numbers(out, rules)?;
    put_word(out, b"weights")?;
    put_weights(out, problem, weights)
}

#[tactic(auto, using(crate::proofs::PrintedTexts::blocks_text))]
fn put_blocks(out: &mut Vec<u8>, problem: &Problem, x: Symbol) -> Result<(), AllocError>
    requires { IsSymbol problem.now x }
    ensures { OnOk result (out.new.items ≡ out.old.items
        ++ join_with_byte 32 (raw_fields problem.now (RawBlocks (name_of problem.now x)))) }
{
    out.extend_from_slice(b"blocks")?;
    put_word(out, problem.name(x))
}

/// Puts the rules that the leaf cites into the list.
pub fn put_leaf_cited(
    rules: &mut RuleList,
    problem: &Problem,
    leaf: &Leaf,
) -> Result<(), AllocError>
    requires { (goal : Option ℕ) × (counts : Bool) × LeafFits problem.now goal counts leaf.now }
    ensures ok { OnOk result (Adds rules.old rules.new (IsCited problem.now (LeafCites problem.now leaf.now))) }
    ensures err { OnErr result (AddsSome rules.old rules.new (IsCited problem.now (LeafCites problem.now leaf.now))) }
{
    match leaf {
        Leaf::Few => Ok(()),
        Leaf::Window { rule, .. } => rules.put(*rule),
        Leaf::Day { day, .. } => put_day_rule(rules, problem, *day),
        Leaf::Words {
            rules: listed,
            claim,
            ..
        } => put_words_cited(rules, problem, listed, claim),
        Leaf::Blocks { x } => put_blocks_cited(rules, problem, *x),
    }
}

fn put_words_cited(
    rules: &mut RuleList,
    problem: &Problem,
    listed: &RuleList,
    claim: &WordClaim,
) -> Result<(), AllocError>
    requires { ListAndClaimFit problem.now listed.now claim.now }
    ensures ok { OnOk result (Adds rules.old rules.new
        (IsCited problem.now (WordsCite problem.now listed.now claim.now))) }
    ensures err { OnErr result (AddsSome rules.old rules.new
        (IsCited problem.now (WordsCite problem.now listed.now claim.now))) }
{
    match claim {
        WordClaim::Dead { .. } => put_all(rules, listed),
        WordClaim::Light { weights, .. } => put_listed_and_days(rules, problem, listed, weights),
    }
}

/// Puts the rule of the day into the list. After want of memory the list is unchanged.
pub fn put_day_rule(rules: &mut RuleList, problem: &Problem, day: u32) -> Result<(), AllocError>
    requires { IsDay problem.now day }
    ensures ok { OnOk result (Adds rules.old rules.new (IsDayRule problem.now day)) }
    ensures err { OnErr result (rules.new ≡ rules.old) }
{
    rules.put(number_of(problem, Rule::Day(day)))
}

fn put_all(rules: &mut RuleList, listed: &RuleList) -> Result<(), AllocError>
    ensures ok { OnOk result (Adds rules.old rules.new (Contains listed.now)) }
    ensures err { OnErr result (AddsSome rules.old rules.new (Contains listed.now)) }
{
    for number in listed.numbers() {
        rules.put(*number)?;
    }
    Ok(())
}

fn put_days(rules: &mut RuleList, problem: &Problem, weights: &Weights) -> Result<(), AllocError>
    requires { WeightsFit problem.now weights.now }
    ensures ok { OnOk result (Adds rules.old rules.new (IsWeighedDayRule problem.now weights.now)) }
    ensures err { OnErr result (AddsSome rules.old rules.new (IsWeighedDayRule problem.now weights.now)) }
{
    for entry in weights.entries() {
        put_day_rule(rules, problem, entry.day)?;
    }
    Ok(())
}

fn put_listed_and_days(
    rules: &mut RuleList,
    problem: &Problem,
    listed: &RuleList,
    weights: &Weights,
) -> Result<(), AllocError>
    requires { WeightsFit problem.now weights.now }
    ensures ok { OnOk result (Adds rules.old rules.new
        (λ k. Contains listed.now k ⊎ IsWeighedDayRule problem.now weights.now k)) }
    ensures err { OnErr result (AddsSome rules.old rules.new
        (λ k. Contains listed.now k ⊎ IsWeighedDayRule problem.now weights.now k)) }
{
    put_all(rules, listed)?;
    put_days(rules, problem, weights)
}

fn put_blocks_cited(rules: &mut RuleList, problem: &Problem, x: Symbol) -> Result<(), AllocError>
    requires { IsSymbol problem.now x }
    ensures ok { OnOk result (Adds rules.old rules.new (IsCited problem.now (BlocksCite problem.now x))) }
    ensures err { OnErr result (AddsSome rules.old rules.new (IsCited problem.now (BlocksCite problem.now x))) }
{
    put_block_rules(rules, problem, x)?;
    put_each_day(rules, problem)
}

// The rules on the lengths of the blocks of the symbol, and for the day off those of work too.
fn put_block_rules(rules: &mut RuleList, problem: &Problem, x: Symbol) -> Result<(), AllocError>
    requires { IsSymbol problem.now x }
    ensures ok { OnOk result (Adds rules.old rules.new (IsCited problem.now (IsBlockRule x.number))) }
    ensures err { OnErr result (AddsSome rules.old rules.new (IsCited problem.now (IsBlockRule x.number))) }
{
    if x.number == 0 {
        put_rules(
            rules,
            problem,
            &[
                Rule::Most(Class::Off),
                Rule::Least(Class::Off),
                Rule::Most(Class::Work),
                Rule::Least(Class::Work),
            ],
        )
    } else {
        let class = Class::Shift(x);
        put_rules(rules, problem, &[Rule::Most(class), Rule::Least(class)])
    }
}

fn put_rules(rules: &mut RuleList, problem: &Problem, listed: &[Rule]) -> Result<(), AllocError>
    requires { All (IsRule problem.now) listed.now }
    ensures ok { OnOk result (Adds rules.old rules.new (IsCited problem.now (Contains listed.now))) }
    ensures err { OnErr result (AddsSome rules.old rules.new (IsCited problem.now (Contains listed.now))) }
{
    for rule in listed {
        rules.put(number_of(problem, *rule))?;
    }
    Ok(())
}

fn put_each_day(rules: &mut RuleList, problem: &Problem) -> Result<(), AllocError>
    ensures ok { OnOk result (Adds rules.old rules.new (IsCited problem.now (IsSomeDay problem.now))) }
    ensures err { OnErr result (AddsSome rules.old rules.new (IsCited problem.now (IsSomeDay problem.now))) }
{
    for day in 0..problem.days() {
        put_day_rule(rules, problem, day + 1)?;
    }
    Ok(())
}
