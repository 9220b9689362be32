// What is seen before a line is written.
ghost use Rattle.std.specs.Prelude.{◌≡◌, ◌⊎◌, ℕ, ◌↔◌, Option, IsTrue, IfOk};
ghost use Rattle.rwsp_terms.specs.Instance.{Instance};
ghost use Rattle.refutation_terms.specs.declared.lines.Opening.{Opening};
ghost use Rattle.refutation_terms.specs.FewLeaf.{FewHolds};
ghost use Rattle.refutation_terms.specs.Log.{GoalFits};
ghost use Rattle.domain_store.specs.Store.{BelongsTo, has_domain};
ghost use Rattle.domain_store.specs.Looks.{IsSame};
ghost use Rattle.roster_search.specs.Guides.{IsLeafGiven, IsGiven, IsSight};
ghost use Rattle.roster_search.specs.Written.{IsSearching};

use crate::Guide;
use crate::progress::Progress;
use domain_store::{Domains, Look, Propagator, few_holds};
use refutation_terms::{Leaf, Line};
use rwsp_model::Problem;
use rwsp_terms::Symbol;
use std::alloc::{AllocError, Global};

/// How a search came to the domains at hand. It says what the guide is asked there, and no promise speaks of it.
#[derive(Clone, Copy)]
pub enum Arrival {
    /// A case begins: at the start, behind a split of the search's own choice, or behind a leaf.
    NewCase,
    /// A spent symbol was taken away.
    Cut,
}

impl Arrival {
    fn is_leaf_due(self, is_quiet: bool) -> bool {
        match self {
            Arrival::Cut => is_quiet,
            Arrival::NewCase => true,
        }
    }
}

/// What a search does next.
#[derive(Drop)]
pub enum Sight {
    /// The leaf closes the domains.
    Leaf(Line),
    /// A spent symbol, and the leaf of its side.
    Cut { p: u32, x: Symbol, line: Line },
    /// There is no leaf and no spent symbol.
    Quiet,
}

impl Sight {
    fn is_quiet(&self) -> bool {
        match self {
            Sight::Quiet => true,
            _ => false,
        }
    }

    /// How the search comes to the domains behind what it writes for this.
    pub fn next_arrival(&self) -> Arrival {
        match self {
            Sight::Cut { .. } => Arrival::Cut,
            _ => Arrival::NewCase,
        }
    }
}

/// What is seen under the domains. With a goal the leaf of few weeks comes first; then the propagator's leaf; then what
/// the guide gives, where it is due; then a spent symbol.
pub fn see<A: Propagator, G: Guide>(
    alloc: Global,
    problem: &Problem,
    propagator: &mut A,
    guide: &mut G,
    arrival: Arrival,
    progress: &Progress,
) -> Result<Sight, AllocError>
    requires searching { IsSearching problem.now A.serves A.tracks A.leaves propagator.old progress.now }
    requires guide { G.serves guide.old problem.now progress.now.aim.goal }
    ensures searching { IsSearching problem.now A.serves A.tracks A.leaves propagator.new progress.now }
    ensures sight { let S = progress.now.walk.store in
        IfOk result (IsSight problem.now progress.now.aim.goal (A.leaves propagator.new S) (A.spent propagator.new S) S) }
    ensures same { IsSame A.serves A.leaves A.spent propagator.old propagator.new }
    ensures guide { (P : Instance) (goal : Option ℕ) → G.serves guide.old P goal ↔ G.serves guide.new P goal }
{
    let doms = progress.walk.domains();
    if is_short_of(problem, progress.aim.goal, doms) {
        return Ok(Sight::Leaf(Line::Closing(Leaf::Few)));
    }
    match propagator.look(alloc, doms)? {
        Look::Closed(line) => Ok(Sight::Leaf(line)),
        Look::Cut { p, x, line } => {
            leaf_or(alloc, guide, arrival, doms, Sight::Cut { p, x, line })
        }
        Look::Quiet => leaf_or(alloc, guide, arrival, doms, Sight::Quiet),
    }
}

// The guide's leaf where it is due and there is one, or else what was seen.
fn leaf_or<G: Guide>(
    alloc: Global,
    guide: &mut G,
    arrival: Arrival,
    doms: &Domains,
    seen: Sight,
) -> Result<Sight, AllocError>
    requires problem { (P : Instance) × (goal : Option ℕ) × G.serves guide.old P goal × BelongsTo P doms.now }
    ensures sight { IfOk result (λ sight.
        (sight ≡ seen) ⊎ ((P : Instance) (goal : Option ℕ) → G.serves guide.old P goal → IsGiven P goal doms.now sight)) }
    ensures serves { (P : Instance) (goal : Option ℕ) → G.serves guide.old P goal ↔ G.serves guide.new P goal }
{
    match leaf_if_due(alloc, guide, arrival, seen.is_quiet(), doms) {
        Ok(None) => Ok(seen),
        Ok(Some(line)) => {
            drop(seen);
            Ok(Sight::Leaf(line))
        }
        Err(error) => {
            drop(seen);
            Err(error)
        }
    }
}

// Whether fewer weeks than the goal, where there is one, can still have a free weekend.
fn is_short_of(problem: &Problem, goal: Option<u32>, doms: &Domains) -> bool
    requires belongs { BelongsTo problem.now doms.now }
    requires goal { (start : Opening) × GoalFits problem.now start goal }
    ensures { IsTrue result ↔ FewHolds problem.now goal (has_domain doms.now) }
{
    match goal {
        Some(goal) => few_holds(problem, doms, goal),
        None => false,
    }
}

// The guide's leaf, where it is due.
fn leaf_if_due<G: Guide>(
    alloc: Global,
    guide: &mut G,
    arrival: Arrival,
    is_quiet: bool,
    doms: &Domains,
) -> Result<Option<Line>, AllocError>
    requires problem { (P : Instance) × (goal : Option ℕ) × G.serves guide.old P goal × BelongsTo P doms.now }
    ensures leaf { IfOk result (λ line.
        (P : Instance) (goal : Option ℕ) → G.serves guide.old P goal → IsLeafGiven P goal doms.now line) }
    ensures serves { (P : Instance) (goal : Option ℕ) → G.serves guide.old P goal ↔ G.serves guide.new P goal }
{
    if arrival.is_leaf_due(is_quiet) {
        guide.leaf(alloc, doms)
    } else {
        Ok(None)
    }
}
