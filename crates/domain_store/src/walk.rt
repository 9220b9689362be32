// A walk through the lines of a log.
ghost use Rattle.std.specs.Prelude.{◌≡◌, ◌+◌, ◌<◌, ◌≤◌, ◌↔◌, List, [], ◌∷◌, ◌++◌, length, false, IsTrue, IfOk, OnErr};
ghost use Rattle.rwsp_terms.specs.Instance.{Instance, cells};
ghost use Rattle.refutation_terms.specs.declared.lines.Line.{Line};
ghost use Rattle.refutation_terms.specs.declared.lines.Line.TheVariants.{Split};
ghost use Rattle.refutation_terms.specs.Word.{AreSame};
ghost use Rattle.refutation_terms.specs.Tree.{IsLeaf, IsTree, after_trees, domains_at, is_idle};
ghost use Rattle.refutation_terms.specs.Log.{OpeningFits};
ghost use Rattle.domain_store.specs.Store.{HasSameShape, has_domain};
ghost use Rattle.domain_store.specs.Splits.{second_sides_to_come, is_idle_in};

use crate::Domains;
use crate::ending::end_tree;
use crate::open_split::OpenSplit;
use crate::opening::opening_domains;
use refutation_terms::Opening;
use rwsp_model::Problem;
use rwsp_terms::Symbol;
use rwsp_terms::limits::MOST_CELLS;
use std::alloc::{AllocError, Global};
use std::marker::Model;

/// How far the lines of a log have been read, with the domains there.
///
/// A split costs constant time, and a leaf as much as the splits that it closes. Positions count from 0.
#[derive(Drop)]
pub struct Walk {
    domains: Domains,
    splits: Vec<OpenSplit>,
    whole: bool,
}

impl Model for Walk {
    ghost use Rattle.domain_store.specs.States.{State};

    ghost Value = { State };

    ghost use Rattle.domain_store.specs.States.{IsWalk};

    ghost view = { λ w. record { store = w.domains; splits = w.splits.items; whole = w.whole } };

    ghost invariant = { λ w. IsWalk (record { store = w.domains; splits = w.splits.items; whole = w.whole }) };
}

impl Walk {
    ghost use Rattle.domain_store.specs.States.{IsStateOf, OfLinesRead, HasReadOn, open_trees};

    /// A walk that has read no line. The symbol of a turn is alone on its day of the first week, and the symbol of each
    /// given cell at its position. Costs as much as there are given cells, beside the domains.
    pub fn new(alloc: Global, problem: &Problem, start: &Opening) -> Result<Walk, AllocError>
        requires { OpeningFits problem.now start.now }
        ensures starts { IfOk result (λ w. IsStateOf problem.now start.now [] w) }
        ensures part { IfOk result (λ w. w.whole ≡ false) }
        ensures one { IfOk result (λ w. open_trees w ≡ 1) }
    {
        let domains = opening_domains(alloc, problem, start)?;
        domains.prove_facts();
        Ok(Walk {
            domains,
            splits: Vec::new(alloc),
            whole: false,
        })
    }

    /// An independent copy, as a worker needs that judges the lines behind this place by itself.
    pub fn copy(&self) -> Result<Walk, AllocError>
        ensures { IfOk result (λ w. w ≡ self.now) }
    {
        let alloc = *self.splits.allocator();
        let domains = self.domains.copy()?;
        let splits = copied_splits(alloc, &self.splits)?;
        Ok(Walk {
            domains,
            splits,
            whole: self.whole,
        })
    }

    /// The number of positions.
    pub fn cells(&self) -> u32
        ensures positions { result ≡ length self.now.store.sets }
        ensures value { (P : Instance) → OfLinesRead P self.now (λ start lines. result ≡ cells P) }
        ensures few { result ≤ MOST_CELLS }
    {
        self.domains.prove_facts();
        self.domains.cells()
    }

    /// The domains at the next line.
    pub fn domains(&self) -> &Domains
        ensures value { result.now ≡ self.now.store }
        ensures has { (P : Instance) → OfLinesRead P self.now (λ start lines.
            AreSame P (has_domain result.now) (domains_at P start lines (length lines))) }
    {
        self.domains.prove_facts();
        &self.domains
    }

    /// Whether the lines are those of one whole tree, with no line behind it.
    pub fn is_whole(&self) -> bool
        ensures value { result ≡ self.now.whole }
        ensures tree { (P : Instance) → OfLinesRead P self.now (λ start lines. IsTrue result ↔ IsTree lines) }
    {
        self.whole
    }

    /// How many whole trees must still follow, so that the lines become those of one.
    pub fn open_count(&self) -> usize
        ensures value { result ≡ open_trees self.now }
        ensures trees { (rest : List Line) → (P : Instance) → OfLinesRead P self.now (λ start lines.
            after_trees 1 (lines ++ rest) ≡ after_trees result rest) }
    {
        if self.whole {
            0
        } else {
            second_sides_to_come(&self.splits) + 1
        }
    }

    /// Whether a split at the position would be idle here: its symbol isn't in the domain, or is alone there.
    pub fn is_idle(&self, p: u32, x: Symbol) -> bool
        requires { p < length self.now.store.sets }
        ensures value { result ≡ is_idle_in self.now.store p x.number }
        ensures idle { (P : Instance) → OfLinesRead P self.now (λ start lines.
            result ≡ is_idle P (domains_at P start lines (length lines)) p x.number) }
    {
        self.domains.prove_facts();
        is_idle_there(&self.domains, p, x)
    }

    /// Reads a split, whose first side begins. After want of memory nothing was read.
    pub fn read_split(&mut self, p: u32, x: Symbol) -> Result<(), AllocError>
        requires part { self.old.whole ≡ false }
        requires position { p < length self.old.store.sets }
        requires useful { is_idle_in self.old.store p x.number ≡ false }
        ensures splits { IfOk result (λ _. HasReadOn self.old (Split p x ∷ []) self.new) }
        ensures one_more { IfOk result (λ _. open_trees self.new ≡ open_trees self.old + 1) }
        ensures part_still { IfOk result (λ _. self.new.whole ≡ false) }
        ensures same { HasSameShape self.old.store self.new.store }
        ensures failed { OnErr result (self.new ≡ self.old) }
    {
        let mark = self.domains.mark();
        self.splits.push(OpenSplit {
            p,
            x,
            mark,
            in_second: false,
        })?;
        self.domains.set_only(p, x);
        Ok(())
    }

    /// Reads a leaf, by which the second side of a split may begin, or the whole tree end. A whole tree leaves the same
    /// walk as a leaf in its place: so this also goes past the lines of one that nobody looks at.
    pub fn read_leaf(&mut self)
        requires { self.old.whole ≡ false }
        ensures ends { (leaf : Line) → IsLeaf leaf → HasReadOn self.old (leaf ∷ []) self.new }
        ensures trees { (tree : List Line) → IsTree tree → HasReadOn self.old tree self.new }
        ensures one_less { open_trees self.old ≡ open_trees self.new + 1 }
        ensures same { HasSameShape self.old.store self.new.store }
    {
        self.whole = end_tree(&mut self.domains, &mut self.splits);
    }
}

fn is_idle_there(domains: &Domains, p: u32, x: Symbol) -> bool
    requires { p < length domains.now.sets }
    ensures { result ≡ is_idle_in domains.now p x.number }
{
    !domains.has(p, x) || domains.size(p) <= 1
}

fn copied_splits(alloc: Global, splits: &[OpenSplit]) -> Result<Vec<OpenSplit>, AllocError>
    ensures { IfOk result (λ v. v.items ≡ splits.now) }
{
    let mut copies = Vec::with_capacity(alloc, splits.len())?;
    for split in splits {
        copies.push(*split)?;
    }
    Ok(copies)
}

// How many of the open splits are in their first side, so that their second is still to come.
fn second_sides_to_come(splits: &[OpenSplit]) -> usize
    ensures value { result ≡ second_sides_to_come splits.now }
    ensures few { result ≤ length splits.now }
{
    splits.iter().filter(|split| !split.in_second).count()
}

// A walk may be sent to other threads and shared with them.
fn shared<T: Send + Sync>(_: &T) {}

fn walks_are_shared(walk: &Walk) {
    shared(walk);
}
