// The steps that a fractional roster takes.
ghost use Rattle.std.specs.Prelude.{All, IfOk};
ghost use Rattle.roster_finder.specs.ByStep.{IsByStep};
ghost use Rattle.roster_finder.specs.UsedSteps.{IsUsedOf};

use crate::cost::{minus, plus};
use crate::setting::Setting;
use crate::table::Table;
use std::alloc::AllocError;

/// A step that has a share on a weekday.
#[derive(Clone, Copy)]
pub(crate) struct Used {
    pub weekday: usize,
    pub number: usize,
    pub share: i64,
}

/// The steps that have a share, those of the greatest shares first.
#[tactic(auto, using(crate::proofs::UsedSteps::still_all))]
pub(crate) fn used_steps(setting: Setting<'_>, uses: &Table<i64>) -> Result<Vec<Used>, AllocError>
    requires { IsByStep setting uses.now }
    ensures { IfOk result (λ used. All (IsUsedOf setting.entry) used.items) }
{
    let mut used = steps_with_share(setting, uses)?;
    used.sort_unstable_by_key(|step| minus(0, step.share));
    Ok(used)
}

// The steps that have a share, by weekday and number.
fn steps_with_share(setting: Setting<'_>, uses: &Table<i64>) -> Result<Vec<Used>, AllocError>
    requires { IsByStep setting uses.now }
    ensures { IfOk result (λ used. All (IsUsedOf setting.entry) used.items) }
{
    let mut used = Vec::new(setting.alloc);
    for weekday in 0..setting.demand.days {
        for number in 0..setting.layer.step_count() {
            let share = uses.at(weekday, number);
            if share > 0 {
                used.push(Used {
                    weekday,
                    number,
                    share,
                })?;
            }
        }
    }
    Ok(used)
}

/// How much of the roster all steps have.
pub(crate) fn whole_flow(used: &[Used]) -> i64 {
    let mut sum = 0;
    for step in used {
        sum = plus(sum, step.share);
    }
    sum
}
