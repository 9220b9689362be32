// The domains at the first line of a log.
ghost use Rattle.std.specs.Prelude.{◌≡◌, ◌<◌, ℕ, IfOk, nat_le};
ghost use Rattle.rwsp_terms.specs.Instance.{cells, shift_count};
ghost use Rattle.refutation_terms.specs.declared.lines.Opening.TheVariants.{Given};
ghost use Rattle.refutation_terms.specs.GivenCells.{AreGivenIn};
ghost use Rattle.refutation_terms.specs.Word.{AreSame};
ghost use Rattle.refutation_terms.specs.Tree.{opening};
ghost use Rattle.refutation_terms.specs.Log.{OpeningFits};
ghost use Rattle.domain_store.specs.Store.{has_domain, BelongsTo};

use crate::Domains;
use refutation_terms::{GivenCell, Opening};
use rwsp_model::Problem;
use std::alloc::{AllocError, Global};

// All symbols, but for a turn or given cells.
pub fn opening_domains(
    alloc: Global,
    problem: &Problem,
    start: &Opening,
) -> Result<Domains, AllocError>
    requires { OpeningFits problem.now start.now }
    ensures belongs { IfOk result (λ D. BelongsTo problem.now D) }
    ensures has { IfOk result (λ D. AreSame problem.now (has_domain D) (opening problem.now start.now)) }
{
    let mut domains = Domains::new(alloc, problem)?;
    problem.prove_limits();
    match start {
        Opening::Full => {}
        Opening::Turned(turn) => {
            let first = GivenCell {
                p: turn.day - 1,
                x: turn.x,
            };
            give(&mut domains, problem, &[first]);
        }
        Opening::Given(given) => give(&mut domains, problem, given.cells()),
    }
    Ok(domains)
}

// Leaves the position of each given cell its symbol alone.
fn give(domains: &mut Domains, problem: &Problem, given: &[GivenCell])
    requires cells { AreGivenIn problem.now given.now }
    requires belongs { BelongsTo problem.now domains.old }
    requires full { (p x : ℕ) → p < cells problem.now
        → has_domain domains.old p x ≡ nat_le x (shift_count problem.now) }
    ensures belongs_still { BelongsTo problem.now domains.new }
    ensures has { AreSame problem.now (has_domain domains.new) (opening problem.now (Given given.now)) }
{
    problem.prove_limits();
    for cell in given {
        domains.prove_facts();
        domains.set_only(cell.p, cell.x);
    }
}
