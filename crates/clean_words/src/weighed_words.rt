// The heaviest clean words over domains.
ghost use Rattle.std.specs.Prelude.{◌≤◌, IfOk};
ghost use Rattle.rwsp_terms.specs.declared.limits.TheConstants.{GREATEST_REWARD};
ghost use Rattle.refutation_terms.specs.FreeWeekends.{free_weight};
ghost use Rattle.domain_store.specs.Store.{has_domain};
ghost use Rattle.clean_words.specs.Heaviest.{IsHeaviestFound};

use crate::weighing::Weighing;
use crate::weight_table::weight_table;
use crate::{CleanWords, HeavyWord, heaviest_by_gain};
use rwsp_terms::Weights;
use std::alloc::{AllocError, Global};

/// The heaviest of the words by the weights of the days and the reward for each free weekend, with the least of them, if
/// it weighs `least` at least; None exactly where every clean word weighs less.
pub fn heaviest(
    alloc: Global,
    words: &CleanWords<'_>,
    weights: &Weights,
    reward: u32,
    least: i64,
) -> Result<Option<HeavyWord>, AllocError>
    requires { reward ≤ GREATEST_REWARD }
    ensures { let W = words.now in let A = W.automaton.now in
        IfOk result (IsHeaviestFound A.problem (has_domain W.domains.now) W.position W.days A.rules
        (free_weight A.problem weights.now reward W.position) least) }
{
    let problem = words.automaton.problem();
    problem.prove_limits();
    let days = problem.days();
    let table = weight_table(alloc, weights, days)?;
    let weighing = Weighing {
        weights,
        table: &table,
        position: words.position,
        days,
        reward,
    };
    heaviest_by_gain(alloc, words, &weighing, least)
}
