// What a search has written so far.
ghost use Rattle.std.specs.Prelude.{◌≡◌, ◌↔◌, ℕ, ◌+◌, ◌<◌, ◌≤◌, [], ◌∷◌, ◌++◌, length, false, IsTrue, Some, Contains, IfOk};
ghost use Rattle.rwsp_terms.specs.Instance.{Instance, cells};
ghost use Rattle.refutation_terms.specs.declared.lines.Line.TheVariants.{Split};
ghost use Rattle.refutation_terms.specs.Word.{AreSame};
ghost use Rattle.refutation_terms.specs.Tree.{First, narrowed, domains_at, is_idle};
ghost use Rattle.refutation_terms.specs.Log.{OpeningFits, GoalFits, OpeningCites};
ghost use Rattle.rwsp_terms.specs.Rules.{rule_of, Names};
ghost use Rattle.rwsp_terms.specs.declared.data.Rule.{Rule};
ghost use Rattle.domain_store.specs.Store.{has_domain, IsStore, HasDomains};
ghost use Rattle.domain_store.specs.Splits.{is_idle_in};
ghost use Rattle.domain_store.specs.Leaves.{IsHoldingLeaf};
ghost use Rattle.roster_search.specs.Written.{IsProgress, IsSplitOff, HasRoom};

use crate::Aim;
use domain_store::Walk;
use refutation_log::{put_cited, put_opening_cited};
use refutation_terms::{Line, Opening};
use rwsp_model::Problem;
use rwsp_terms::{RuleList, Symbol};
use std::alloc::{AllocError, Global};

/// The lines that were written, the domains behind them, and the rules that they and the opening cite.
#[derive(Drop)]
pub struct Progress {
    pub aim: Aim,
    pub walk: Walk,
    pub lines: Vec<Line>,
    pub named: RuleList,
}

impl Progress {
    /// No line yet.
    pub fn new(alloc: Global, problem: &Problem, aim: Aim) -> Result<Progress, AllocError>
        requires opening { OpeningFits problem.now aim.opening }
        requires goal { GoalFits problem.now aim.opening aim.goal }
        ensures written { IfOk result (λ s. IsProgress problem.now s) }
        ensures aim { IfOk result (λ s. s.aim ≡ aim) }
        ensures none { IfOk result (λ s. s.lines.items ≡ []) }
    {
        let walk = Walk::new(alloc, problem, &aim.opening)?;
        let named = opening_rules(alloc, problem, &aim.opening)?;
        Ok(Progress {
            aim,
            walk,
            lines: Vec::new(alloc),
            named,
        })
    }

    /// Whether the budget has room for one more line.
    pub fn has_room(&self) -> bool
        ensures { IsTrue result ↔ (length self.now.lines.items < self.now.aim.budget) }
    {
        self.lines.len() < self.aim.budget as usize
    }

    /// Whether the tree isn't whole.
    pub fn is_open(&self) -> bool
        ensures { IsTrue result ↔ (self.now.walk.whole ≡ false) }
    {
        !self.walk.is_whole()
    }

    /// Whether it isn't whole and the budget has room for one more line.
    pub fn goes_on(&self) -> bool
        ensures { IsTrue result ↔ HasRoom self.now }
    {
        self.is_open() && self.has_room()
    }

    /// Brings into a proof what holds of the domains at the next line. Does nothing when run.
    pub fn prove_domains(&self)
        ensures store { IsStore self.now.walk.store }
        ensures tests { HasDomains self.now.walk.store }
        ensures same { (P : Instance) → IsProgress P self.now
            → AreSame P (has_domain self.now.walk.store)
            (domains_at P self.now.aim.opening self.now.lines.items (length self.now.lines.items)) }
    {
        self.walk.domains().prove_facts();
    }

    /// Writes a leaf. After want of memory the lines can't be used.
    pub fn close(&mut self, problem: &Problem, line: Line) -> Result<(), AllocError>
        requires part { self.old.walk.whole ≡ false }
        requires written { IsProgress problem.now self.old }
        requires leaf { IsHoldingLeaf problem.now self.old.aim.goal
            (domains_at problem.now self.old.aim.opening self.old.lines.items (length self.old.lines.items)) line }
        ensures written { IfOk result (λ _. IsProgress problem.now self.new) }
        ensures aim { self.new.aim ≡ self.old.aim }
        ensures lines { IfOk result (λ _. self.new.lines.items ≡ self.old.lines.items ++ line ∷ []) }
    {
        put_cited(&mut self.named, problem, &line)?;
        self.lines.push(line)?;
        self.walk.read_leaf();
        Ok(())
    }

    /// Writes a split. After want of memory the lines can't be used.
    pub fn split(&mut self, p: u32, x: Symbol) -> Result<(), AllocError>
        requires part { self.old.walk.whole ≡ false }
        requires position { p < length self.old.walk.store.sets }
        requires useful { is_idle_in self.old.walk.store p x.number ≡ false }
        ensures off { IfOk result (λ _. (P : Instance) → IsProgress P self.old → IsSplitOff P self.old self.new p x) }
        ensures lines { IfOk result (λ _. self.new.lines.items ≡ self.old.lines.items ++ Split p x ∷ []) }
        ensures part { IfOk result (λ _. self.new.walk.whole ≡ false) }
        ensures aim { self.new.aim ≡ self.old.aim }
    {
        self.prove_domains();
        self.lines.push(Line::Split { p, x })?;
        self.walk.read_split(p, x)?;
        self.prove_domains();
        Ok(())
    }

    /// Writes a split and the leaf of its first side, where there is room for the leaf. After want of
    /// memory the lines can't be used.
    pub fn cut(
        &mut self,
        problem: &Problem,
        p: u32,
        x: Symbol,
        line: Line,
    ) -> Result<(), AllocError>
        requires room { HasRoom self.old }
        requires written { IsProgress problem.now self.old }
        requires position { p < cells problem.now }
        requires useful { is_idle problem.now (has_domain self.old.walk.store) p x.number ≡ false }
        requires leaf { IsHoldingLeaf problem.now self.old.aim.goal
            (narrowed (has_domain self.old.walk.store) (Split p x) First) line }
        ensures off { IfOk result (λ _. IsSplitOff problem.now self.old self.new p x) }
        ensures few { IfOk result (λ _. length self.new.lines.items ≤ self.old.aim.budget) }
        ensures leaf { IfOk result (λ _.
            length self.old.lines.items + 1 < self.old.aim.budget
            → self.new.lines.items ≡ self.old.lines.items ++ Split p x ∷ line ∷ []) }
        ensures aim { self.new.aim ≡ self.old.aim }
    {
        problem.prove_limits();
        self.prove_domains();
        self.split(p, x)?;
        if self.has_room() {
            self.close(problem, line)?;
            self.prove_domains();
        }
        Ok(())
    }
}

// The rules that an opening rests on.
fn opening_rules(
    alloc: Global,
    problem: &Problem,
    opening: &Opening,
) -> Result<RuleList, AllocError>
    requires { OpeningFits problem.now opening.now }
    ensures cited { IfOk result (λ R. (r : Rule) → Names problem.now R r ↔ OpeningCites opening.now r) }
    ensures numbers { IfOk result (λ R. (k : ℕ) → Contains R k → (r : Rule) × (rule_of problem.now k ≡ Some r)) }
{
    let mut named = RuleList::new(alloc);
    put_opening_cited(&mut named, problem, opening)?;
    Ok(named)
}
