// The verdict on a staff text.
ghost use Rattle.std.specs.Prelude.{◌≤◌, length};
ghost use Rattle.rwsp_terms.specs.declared.limits.TheConstants.{LONGEST_LOG, MOST_WORKERS};
ghost use Rattle.rwsp_model.specs.Refusals.{MatchAnswer};
ghost use Rattle.crew_size.specs.Verdict.{IsStaffAccepted, IsStaffRefused};

use crate::sections::Sections;
use clean_words::Gate;
use crew_size::{StaffRefusal, Staffed};
use rwsp_model::{Fail, Problem};
use std::alloc::Global;
use std::thread::Threads;

/// The verdict on a staff text: the first and the last number of weeks that it decides, where the log of each section
/// passes and a roster at the end meets every rule; else its first failure. Each log is judged by the workers, who pass
/// the gate.
pub fn check_staff<R: Threads + Sync, G: Gate>(
    rt: &R,
    alloc: Global,
    problem: &Problem,
    bytes: &[u8],
    workers: u32,
    gate: &G,
) -> Result<Staffed, Fail<StaffRefusal>>
    requires long { length bytes.now ≤ LONGEST_LOG }
    requires workers { (1 ≤ workers) × (workers ≤ MOST_WORKERS) }
    ensures { MatchAnswer result (IsStaffAccepted problem.now bytes.now) (IsStaffRefused problem.now bytes.now) }
{
    let mut sections = Sections::new(bytes);
    loop {
        if let Some(staffed) = sections.pass(rt, alloc, problem, workers, gate)? {
            return Ok(staffed);
        }
    }
}
