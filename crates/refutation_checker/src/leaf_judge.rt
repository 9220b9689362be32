// Single lines of a log whose other lines are known to hold.
ghost use Rattle.std.specs.Prelude.{◌≡◌, ◌∷◌, [], false, IfOk};
ghost use Rattle.refutation_terms.specs.declared.lines.Opening.TheVariants.{Full};
ghost use Rattle.refutation_terms.specs.Log.{GoalFits, LineFits, ListsShortOnly};
ghost use Rattle.domain_store.specs.States.{IsWalkOf, HasReadOn};
ghost use Rattle.refutation_checker.specs.LineTexts.{TellsLeaf, IsHoldingNext};

use crate::judge::{Judge, Judging};
use crate::line_walk::step;
use domain_store::Walk;
use refutation_terms::{Line, Terms};
use rwsp_model::Problem;
use rwsp_terms::RuleList;
use std::alloc::{AllocError, Global};
use std::marker::Model;

/// Judges leaves of words apart from the other lines of their log, which is of some terms. What was made for the list
/// of one leaf serves the next leaves with the same list.
#[derive(Drop)]
pub struct LeafJudge<'a> {
    judge: Judge<'a>,
}

impl<'a> Model for LeafJudge<'a> {
    ghost use Rattle.refutation_terms.specs.declared.lines.Opening.TheVariants.{Full};
    ghost use Rattle.refutation_terms.specs.Log.{GoalFits};
    ghost use Rattle.refutation_checker.specs.LineTexts.{Judging};

    ghost Value = { Judging };

    ghost view = { λ j. j.judge };

    ghost invariant = { λ j. GoalFits j.judge.problem Full j.judge.goal };
}

impl<'a> LeafJudge<'a> {
    /// A judge of leaves of a log for this problem that names these rules, of these terms.
    pub fn new(problem: &'a Problem, named: &'a RuleList, terms: Terms) -> LeafJudge<'a>
        requires { GoalFits problem.now Full terms.goal }
        ensures { result
            ≡ record { problem = problem.now; named = named.now; goal = terms.goal; counts = terms.counts } }
    {
        let judging = Judging {
            problem,
            named,
            terms,
        };
        let judge = Judge::new(&judging);
        drop(judging);
        LeafJudge { judge }
    }

    /// Whether the leaf holds as the next line behind those that the walk has read. Of lines that are no leaf of words
    /// this says nothing.
    pub fn holds(&mut self, alloc: Global, walk: &Walk, leaf: &Line) -> Result<bool, AllocError>
        requires state { IsWalkOf self.old.problem walk.now }
        requires fits { LineFits self.old.problem self.old.goal self.old.counts leaf.now }
        requires short { ListsShortOnly self.old.problem leaf.now }
        ensures same { self.new ≡ self.old }
        ensures holds { IfOk result (TellsLeaf self.old walk.now leaf.now) }
    {
        if let Some(_word) = self.judge.leaf_escape(alloc, walk.domains(), leaf)? {
            return Ok(false);
        }
        Ok(true)
    }
}

/// The walk reads a line that is known to hold there, which isn't judged.
pub fn go_past(walk: &mut Walk, problem: &Problem, line: &Line) -> Result<(), AllocError>
    requires part { walk.old.whole ≡ false }
    requires holds { IsHoldingNext problem.now walk.old line.now }
    ensures { IfOk result (λ _. HasReadOn walk.old (line.now ∷ []) walk.new) }
{
    problem.prove_limits();
    walk.domains().prove_facts();
    step(walk, line)
}
