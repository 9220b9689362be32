// How many free weekends are worth asking for.
ghost use Rattle.std.specs.Prelude.{◌≡◌, ◌+◌, ◌≤◌, Some, IfOk, IsTrue};
ghost use Rattle.rwsp_terms.specs.declared.limits.TheConstants.{DAYS_OF_WEEK};
ghost use Rattle.refutation_terms.specs.declared.lines.Line.{Line};
ghost use Rattle.domain_store.specs.Store.{BelongsTo, has_domain};
ghost use Rattle.domain_store.specs.Cycles.{AreShortRules};
ghost use Rattle.domain_store.specs.Leaves.{IsHoldingLeaf};

use clean_words::Automaton;
use domain_store::Domains;
use propagators::NearestWeights;
use rwsp_model::Problem;
use std::alloc::{AllocError, Global};

/// The most free weekends, by halving, for which no free leaf is found at the top. It says nothing of the rosters, but
/// mostly one has as many.
pub fn likely_most(alloc: Global, automaton: &Automaton) -> Result<u32, AllocError>
    requires short { AreShortRules automaton.now.problem automaton.now.rules }
    requires week { automaton.now.problem.days ≡ DAYS_OF_WEEK }
    ensures { IfOk result (λ n. n ≤ automaton.now.problem.weeks) }
{
    let mut weights = NearestWeights::new(alloc, automaton);
    let most = halved(alloc, automaton.problem(), &mut weights);
    drop(weights);
    most
}

// The most free weekends for which these weights give no leaf at the top, by halving.
fn halved(
    alloc: Global,
    problem: &Problem,
    weights: &mut NearestWeights<'_>,
) -> Result<u32, AllocError>
    requires week { problem.now.days ≡ DAYS_OF_WEEK }
    requires problem { weights.old.problem ≡ problem.now }
    ensures same { weights.new ≡ weights.old }
    ensures most { IfOk result (λ n. n ≤ problem.now.weeks) }
{
    problem.prove_limits();
    let doms = Domains::new(alloc, problem)?;
    let mut low = 0;
    let mut high = problem.weeks() + 1;
    while low + 1 < high {
        let goal = low + (high - low) / 2;
        if has_leaf(alloc, weights, &doms, goal)? {
            high = goal;
        } else {
            low = goal;
        }
    }
    Ok(low)
}

// Whether a free leaf with this goal is found at the top.
fn has_leaf(
    alloc: Global,
    weights: &mut NearestWeights<'_>,
    doms: &Domains,
    goal: u32,
) -> Result<bool, AllocError>
    requires belongs { BelongsTo weights.old.problem doms.now }
    requires week { weights.old.problem.days ≡ DAYS_OF_WEEK }
    requires goal { goal ≤ weights.old.problem.weeks + 1 }
    ensures same { weights.new ≡ weights.old }
    ensures leaf { IfOk result (λ has. IsTrue has → (line : Line)
        × IsHoldingLeaf weights.old.problem (Some goal) (has_domain doms.now) line) }
{
    let leaf = weights.leaf_at_top(alloc, doms, Some(goal))?;
    let has = leaf.is_some();
    drop(leaf);
    Ok(has)
}
