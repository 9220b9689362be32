// From a search to a leaf.
ghost use Rattle.std.specs.Prelude.{◌*◌, ◌≤◌, IfOk, IfSome};
ghost use Rattle.rwsp_terms.specs.Instance.{cells};
ghost use Rattle.rwsp_terms.specs.declared.limits.TheConstants.{LONGEST_WORD};
ghost use Rattle.propagators.specs.Fields.{IsField, IsLeafIn};

use crate::field::Field;
use crate::near_leaf::leaf_of;
use crate::near_search::{Effort, search};
use crate::near_small::{few_turns, small_weights};
use crate::sweep::Sweep;
use refutation_terms::Line;
use std::alloc::{AllocError, Global};

// The leaf that a search finds which begins with these weights, and the weights with which it ended: a bound leaf, or a
// free leaf of a log with the field's goal. Words for free leaves are those from position 0 on.
pub fn found_leaf(
    alloc: Global,
    field: &Field<'_>,
    mut weights: Vec<i64>,
    effort: Effort,
) -> Result<(Option<Line>, Vec<i64>), AllocError>
    requires field { IsField field.now }
    requires some { (1 ≤ effort.first_turns) × (effort.first_turns ≤ effort.most_turns) }
    requires few { effort.most_turns * cells field.now.automaton.now.problem ≤ LONGEST_WORD }
    ensures { IfOk result (λ r. IfSome r.0 (IsLeafIn field.now)) }
{
    let mut sweep = Sweep::of(alloc, field.automaton, field.days(effort.first_turns))?;
    let found = search(alloc, field, &mut sweep, &mut weights, effort)?;
    let line = match found {
        Some(turns) => small_leaf(alloc, field, &mut sweep, &weights, turns)?,
        None => None,
    };
    Ok((line, weights))
}

// The leaf of these weights and turns, or of smaller ones whose leaf holds.
fn small_leaf(
    alloc: Global,
    field: &Field<'_>,
    sweep: &mut Sweep,
    weights: &[i64],
    turns: u32,
) -> Result<Option<Line>, AllocError>
    requires field { IsField field.now }
    requires some { 1 ≤ turns }
    requires few { turns * cells field.now.automaton.now.problem ≤ LONGEST_WORD }
    ensures { IfOk result (λ found. IfSome found (IsLeafIn field.now)) }
{
    if let Some(small) = small_weights(alloc, field, sweep, weights, turns)? {
        let fewer = few_turns(field, sweep, &small, turns);
        if let Some(line) = leaf_of(alloc, field, fewer, &small)? {
            return Ok(Some(line));
        }
    }
    let fewer = few_turns(field, sweep, weights, turns);
    leaf_of(alloc, field, fewer, weights)
}
