// Leaves by nearest points.
ghost use Rattle.std.specs.Prelude.{◌≡◌, ◌*◌, ◌≤◌, ◌<◌, IfOk, IfSome, Option, None};
ghost use Rattle.rwsp_terms.specs.Instance.{cells};
ghost use Rattle.rwsp_terms.specs.declared.limits.TheConstants.{LONGEST_WORD};
ghost use Rattle.refutation_terms.specs.declared.lines.Opening.TheVariants.{Full};
ghost use Rattle.refutation_terms.specs.Log.{GoalFits};
ghost use Rattle.domain_store.specs.Store.{BelongsTo, has_domain};
ghost use Rattle.domain_store.specs.Cycles.{AreShortRules};
ghost use Rattle.domain_store.specs.Leaves.{IsHoldingLeaf};

use crate::demand::{Demand, Shape};
use crate::field::Field;
use crate::near_closing::found_leaf;
use crate::near_search::Effort;
use crate::sweep::Place;
use clean_words::Automaton;
use domain_store::Domains;
use refutation_terms::Line;
use rwsp_model::Problem;
use rwsp_terms::limits::LONGEST_WORD;
use std::alloc::{AllocError, Global};
use std::marker::Model;

// Words at the top have about this many days. A word's ends owe no rule to what lies beside them, so a heaviest word
// gains by them; the longer it is, the less they count.
const DAYS_AT_TOP: u32 = 1500;

// How many words are tried at the top, where one search is made, and how many steps follow each.
const ROUNDS_AT_TOP: u32 = 200;

const STEPS_AT_TOP: u32 = 300;

// How many words are tried within a tree, and how many steps follow each: fewer, since a search is made for each case.
const ROUNDS_WITHIN: u32 = 24;

const STEPS_WITHIN: u32 = 60;

// How many within a tree where the log has a goal: more, since the nearest point has one coordinate more there, and a
// leaf that is missed costs more lines.
const ROUNDS_WITHIN_WITH_GOAL: u32 = 80;

const STEPS_WITHIN_WITH_GOAL: u32 = 240;

// Within a tree no leaf is looked for where a roster has more cells: a search is made for each case, and costs more the
// more cells there are.
const MOST_CELLS_WITHIN: u32 = 700;

// Within a tree words begin in the middle of the first decided positions; at most this many of them count.
const MOST_DECIDED: u32 = 28;

/// A search for bound leaves and free leaves, with the short rules of an automaton.
///
/// A bound leaf of some weights says that no clean word has the demanded numbers of weeks, not even on average. Such
/// weights are a plane between the demand and the hull of what clean words have. The search for it goes to the nearest
/// point of that hull, which it learns word by word (column generation): the heaviest word by the present weights is
/// one more corner, and the next weights lead from the nearest mix of the corners to the demand. For a free leaf the
/// number of free weekends is one count more, and the goal its demand.
#[derive(Drop)]
pub struct NearestWeights<'a> {
    automaton: &'a Automaton,
    // The weights to begin with within a tree: those with which the last search ended that was at the top or found a
    // leaf.
    last: Vec<i64>,
}

impl<'a> Model for NearestWeights<'a> {
    ghost use Rattle.propagators.specs.NearLeaves.{Searcher};
    ghost use Rattle.domain_store.specs.Cycles.{AreShortRules};

    ghost Value = { Searcher };

    ghost view = { λ n. record { problem = n.automaton.now.problem } };

    ghost invariant = { λ n. AreShortRules n.automaton.now.problem n.automaton.now.rules };
}

impl<'a> NearestWeights<'a> {
    /// A search with the rules of the automaton, which are all short rules of its problem.
    pub fn new(alloc: Global, automaton: &'a Automaton) -> NearestWeights<'a>
        requires short { AreShortRules automaton.now.problem automaton.now.rules }
        ensures { result.problem ≡ automaton.now.problem }
    {
        NearestWeights {
            automaton,
            last: Vec::new(alloc),
        }
    }

    /// A leaf at the top of a tree, where one is found: a bound leaf, or with a goal a free leaf. Its words have many
    /// turns, from position 0 on. None says nothing. The weights are whole numbers as small as they can easily be made.
    pub fn leaf_at_top(
        &mut self,
        alloc: Global,
        doms: &Domains,
        goal: Option<u32>,
    ) -> Result<Option<Line>, AllocError>
        requires belongs { BelongsTo self.old.problem doms.now }
        requires goal { GoalFits self.old.problem Full goal }
        ensures same { self.new ≡ self.old }
        ensures leaf { IfOk result
            (λ found. IfSome found (IsHoldingLeaf self.old.problem goal (has_domain doms.now))) }
    {
        let weights = Vec::new(alloc);
        let (line, last) = leaf_from(alloc, self.automaton, doms, goal, Start::Top, weights)?;
        self.last = last;
        Ok(line)
    }

    /// A leaf within a tree, where one is found: a bound leaf, or with a goal a free leaf. Its words have one turn.
    /// Those of a bound leaf begin and end among the first positions, where these are decided. The search begins with
    /// the weights with which the last one ended that was at the top or found a leaf. None says nothing.
    pub fn leaf_within(
        &mut self,
        alloc: Global,
        doms: &Domains,
        goal: Option<u32>,
    ) -> Result<Option<Line>, AllocError>
        requires belongs { BelongsTo self.old.problem doms.now }
        requires goal { GoalFits self.old.problem Full goal }
        ensures same { self.new ≡ self.old }
        ensures leaf { IfOk result
            (λ found. IfSome found (IsHoldingLeaf self.old.problem goal (has_domain doms.now))) }
    {
        if self.automaton.problem().cells() > MOST_CELLS_WITHIN {
            return Ok(None);
        }
        let weights = self.last.clone()?;
        let (line, last) = leaf_from(alloc, self.automaton, doms, goal, Start::Within, weights)?;
        if line.is_some() {
            self.last = last;
        }
        Ok(line)
    }
}

// Where a search begins.
#[derive(Clone, Copy)]
enum Start {
    Top,
    Within,
}

// The leaf that a search finds which begins with these weights, and the weights with which it ended.
fn leaf_from(
    alloc: Global,
    automaton: &Automaton,
    doms: &Domains,
    goal: Option<u32>,
    start: Start,
    weights: Vec<i64>,
) -> Result<(Option<Line>, Vec<i64>), AllocError>
    requires short { AreShortRules automaton.now.problem automaton.now.rules }
    requires belongs { BelongsTo automaton.now.problem doms.now }
    requires goal { GoalFits automaton.now.problem Full goal }
    ensures { IfOk result
        (λ r. IfSome r.0 (IsHoldingLeaf automaton.now.problem goal (has_domain doms.now))) }
{
    let problem = automaton.problem();
    let demand = Demand::of(alloc, problem, goal)?;
    let position = position_of(problem, doms, goal, start);
    let place = Place::of(alloc, Shape::of(problem), doms, position)?;
    let field = Field {
        automaton,
        doms,
        goal,
        place: &place,
        demand: &demand,
    };
    found_leaf(alloc, &field, weights, effort_of(problem, goal, start))
}

// How far a search goes.
fn effort_of(problem: &Problem, goal: Option<u32>, start: Start) -> Effort
    ensures some { (1 ≤ result.first_turns) × (result.first_turns ≤ result.most_turns) }
    ensures few { result.most_turns * cells problem.now ≤ LONGEST_WORD }
{
    problem.prove_limits();
    match start {
        Start::Within => effort_within(goal),
        Start::Top => {
            let most_turns = LONGEST_WORD / problem.cells();
            Effort {
                first_turns: (DAYS_AT_TOP / problem.cells()).max(1).min(most_turns),
                most_turns,
                rounds: ROUNDS_AT_TOP,
                steps: STEPS_AT_TOP,
            }
        }
    }
}

fn effort_within(goal: Option<u32>) -> Effort
    ensures { (result.first_turns ≡ 1) × (result.most_turns ≡ 1) }
{
    let (rounds, steps) = match goal {
        None => (ROUNDS_WITHIN, STEPS_WITHIN),
        Some(_) => (ROUNDS_WITHIN_WITH_GOAL, STEPS_WITHIN_WITH_GOAL),
    };
    Effort {
        first_turns: 1,
        most_turns: 1,
        rounds,
        steps,
    }
}

// Where words begin: those of a bound leaf within a tree in the middle of the first positions that have one symbol each,
// so that they begin and end among them.
fn position_of(problem: &Problem, doms: &Domains, goal: Option<u32>, start: Start) -> u32
    requires { BelongsTo problem.now doms.now }
    ensures { result < cells problem.now }
{
    problem.prove_limits();
    match (start, goal) {
        (Start::Within, None) => decided(doms) / 2,
        _ => 0,
    }
}

// How many positions have one symbol, counted from the first to one that has more, or up to `MOST_DECIDED`.
fn decided(doms: &Domains) -> u32
    ensures { result ≤ doms.now.weeks * doms.now.days }
{
    let most = doms.cells().min(MOST_DECIDED);
    for p in 0..most {
        if doms.size(p) > 1 {
            return p;
        }
    }
    most
}
