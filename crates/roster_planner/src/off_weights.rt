// Leaves whose weights tell days off from work alone.
ghost use Rattle.std.specs.Prelude.{◌≡◌, ◌*◌, ◌<◌, ◌≤◌, ◌≤ℤ◌, pos, neg_ℤ, IfOk, OnOk};
ghost use Rattle.std.specs.Option.{IfSome};
ghost use Rattle.rwsp_terms.specs.declared.limits.TheConstants.{LONGEST_WORD, GREATEST_WEIGHT};
ghost use Rattle.rwsp_terms.specs.Instance.{cells, IsDay};
ghost use Rattle.refutation_terms.specs.declared.lines.Opening.TheVariants.{Full};
ghost use Rattle.refutation_terms.specs.Log.{GoalFits};
ghost use Rattle.refutation_terms.specs.Ranges.{AreWeightsOf};
ghost use Rattle.refutation_terms.specs.WordsLeaf.{RewardFits};
ghost use Rattle.domain_store.specs.Store.{BelongsTo, HasSameShape, has_domain};
ghost use Rattle.domain_store.specs.Cycles.{AreShortRules};
ghost use Rattle.domain_store.specs.Leaves.{IsHoldingLeaf};
ghost use Rattle.roster_planner.specs.OneShift.{HasDaysOf, IsClaimIn};

use clean_words::{Automaton, Claim, claim_escape};
use domain_store::Domains;
use propagators::NearestWeights;
use refutation_terms::{Leaf, Line, WordClaim};
use rwsp_model::Problem;
use rwsp_terms::limits::GREATEST_WEIGHT;
use rwsp_terms::{Symbol, Weights};
use std::alloc::{AllocError, Global};

/// A search for leaves by weights that are the same for all shifts. The weights come from the problem with one shift,
/// whose words are few; each leaf is tested on the words of the problem itself.
#[derive(Drop)]
pub struct OffWeights<'a> {
    one: &'a Automaton,
    weights: NearestWeights<'a>,
}

impl<'a> OffWeights<'a> {
    /// A search over the automaton with one shift.
    pub fn new(alloc: Global, one: &'a Automaton) -> OffWeights<'a>
        requires { AreShortRules one.now.problem one.now.rules }
        ensures { (result.one.now ≡ one.now) × (result.weights.problem ≡ one.now.problem) }
    {
        OffWeights {
            one,
            weights: NearestWeights::new(alloc, one),
        }
    }

    /// A leaf that holds under the domains, where one is found; at the top of a tree its words may have many turns.
    /// None says nothing.
    pub fn leaf(
        &mut self,
        alloc: Global,
        automaton: &Automaton,
        doms: &Domains,
        goal: Option<u32>,
        is_top: bool,
    ) -> Result<Option<Line>, AllocError>
        requires short { AreShortRules automaton.now.problem automaton.now.rules }
        requires belongs { BelongsTo automaton.now.problem doms.now }
        requires goal { GoalFits automaton.now.problem Full goal }
        requires days { HasDaysOf self.old.one.now.problem automaton.now.problem }
        requires one { self.old.weights.problem ≡ self.old.one.now.problem }
        ensures same { (self.new.one.now ≡ self.old.one.now) × (self.new.weights.problem ≡ self.old.weights.problem) }
        ensures leaf { IfOk result
            (λ found. IfSome found (IsHoldingLeaf automaton.now.problem goal (has_domain doms.now))) }
    {
        let days_off = one_shift_domains(alloc, self.one.problem(), doms)?;
        let found = if is_top {
            self.weights.leaf_at_top(alloc, &days_off, goal)
        } else {
            self.weights.leaf_within(alloc, &days_off, goal)
        };
        drop(days_off);
        match found? {
            Some(line) => spread(alloc, automaton, doms, goal, line),
            None => Ok(None),
        }
    }
}

// The leaf of the weights of this leaf of the problem with one shift, where it holds.
fn spread(
    alloc: Global,
    automaton: &Automaton,
    doms: &Domains,
    goal: Option<u32>,
    line: Line,
) -> Result<Option<Line>, AllocError>
    requires short { AreShortRules automaton.now.problem automaton.now.rules }
    requires belongs { BelongsTo automaton.now.problem doms.now }
    requires goal { GoalFits automaton.now.problem Full goal }
    requires claim { IsClaimIn automaton.now.problem goal line }
    ensures { IfOk result
        (λ found. IfSome found (IsHoldingLeaf automaton.now.problem goal (has_domain doms.now))) }
{
    match &line {
        Line::Closing(
            Leaf::Words {
                p,
                claim: WordClaim::Light {
                    turns,
                    reward,
                    weights,
                },
                ..
            },
        ) => {
            let claim = Claim {
                goal,
                position: *p,
                turns: *turns,
                reward: *reward,
                weights,
            };
            spread_leaf(alloc, automaton, doms, claim)
        }
        _ => Ok(None),
    }
}

// The leaf of a claim whose weights are those of one shift, where it holds with them for each shift.
fn spread_leaf(
    alloc: Global,
    automaton: &Automaton,
    doms: &Domains,
    claim: Claim<'_>,
) -> Result<Option<Line>, AllocError>
    requires short { AreShortRules automaton.now.problem automaton.now.rules }
    requires belongs { BelongsTo automaton.now.problem doms.now }
    requires goal { GoalFits automaton.now.problem Full claim.goal }
    requires position { claim.position < cells automaton.now.problem }
    requires some { 1 ≤ claim.turns }
    requires few { claim.turns * cells automaton.now.problem ≤ LONGEST_WORD }
    requires reward { RewardFits claim.goal claim.position claim.reward }
    ensures { IfOk result
        (λ found. IfSome found (IsHoldingLeaf automaton.now.problem claim.entry.goal (has_domain doms.now))) }
{
    let problem = automaton.problem();
    problem.prove_limits();
    let weights = spread_weights(alloc, problem, claim.weights)?;
    let spread = Claim {
        goal: claim.goal,
        position: claim.position,
        turns: claim.turns,
        reward: claim.reward,
        weights: &weights,
    };
    if let Some(_) = claim_escape(alloc, automaton, doms, spread)? {
        return Ok(None);
    }
    let rules = automaton.rules().copy()?;
    let light = WordClaim::Light {
        turns: claim.turns,
        reward: claim.reward,
        weights,
    };
    Ok(Some(Line::Closing(Leaf::Words {
        p: claim.position,
        rules,
        claim: light,
    })))
}

// The weights of one shift as those of each shift.
fn spread_weights(alloc: Global, problem: &Problem, of_one: &Weights) -> Result<Weights, AllocError>
    ensures { IfOk result (λ y. AreWeightsOf problem.now y) }
{
    let mut weights = Weights::new(alloc);
    for i in 0..problem.days() {
        spread_day(&mut weights, problem, of_one, i + 1)?;
    }
    Ok(weights)
}

// The weights of one day.
fn spread_day(
    weights: &mut Weights,
    problem: &Problem,
    of_one: &Weights,
    day: u32,
) -> Result<(), AllocError>
    requires weights { AreWeightsOf problem.now weights.old }
    requires day { IsDay problem.now day }
    ensures { OnOk result (AreWeightsOf problem.now weights.new) }
{
    for number in 0..problem.shifts() + 1 {
        let of_class = Symbol {
            number: number.min(1),
        };
        weights.put(day, Symbol { number }, as_weight(of_one.at(day, of_class)))?;
    }
    Ok(())
}

// The number in the range of weights.
fn as_weight(value: i32) -> i32
    ensures low { neg_ℤ (pos GREATEST_WEIGHT) ≤ℤ result }
    ensures high { result ≤ℤ pos GREATEST_WEIGHT }
{
    let greatest = GREATEST_WEIGHT as i32;
    value.max(-greatest).min(greatest)
}

// The domains of the problem with one shift: what is off here is off there, and what isn't is the shift.
fn one_shift_domains(alloc: Global, one: &Problem, doms: &Domains) -> Result<Domains, AllocError>
    ensures { IfOk result (λ own. BelongsTo one.now own) }
{
    let mut own = Domains::new(alloc, one)?;
    for p in 0..own.cells().min(doms.cells()) {
        if doms.has_only(p, Symbol::OFF) {
            leave(&mut own, p, Symbol::OFF);
        } else if !doms.has(p, Symbol::OFF) {
            leave(&mut own, p, Symbol { number: 1 });
        }
    }
    Ok(own)
}

// Leaves the position this symbol alone, where it has it beside another.
fn leave(doms: &mut Domains, p: u32, x: Symbol)
    ensures { HasSameShape doms.old doms.new }
{
    if p < doms.cells() && doms.size(p) > 1 && doms.has(p, x) {
        doms.set_only(p, x);
    }
}
