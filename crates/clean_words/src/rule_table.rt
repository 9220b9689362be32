// The table of the words that are clean for a list of rules.
ghost use Rattle.std.specs.Prelude.{◌≡◌, ◌+◌, ◌<◌, length, drop, IfOk};
ghost use Rattle.clean_words.specs.Tables.{IsReader};

use crate::joint::joined;
use crate::last::Told;
use crate::monitor::{Monitor, monitor_of};
use crate::monitor_table::table_of;
use crate::table::Table;
use rwsp_model::Problem;
use rwsp_terms::RuleList;
use std::alloc::{AllocError, Global};

// The table for the rules of the list from a place on, by that for the rules behind it.
fn with_rule(
    alloc: Global,
    problem: &Problem,
    list: &RuleList,
    place: usize,
    table: Table,
) -> Result<Table, AllocError>
    requires place { place < length list.now }
    requires table { IsReader problem.now (drop (place + 1) list.now) table }
    ensures { IfOk result (IsReader problem.now (drop place list.now)) }
{
    let Some(monitor) = monitor_of(problem, list.at(place)) else {
        return Ok(table);
    };
    let own = table_of(alloc, problem, monitor)?;
    joined(alloc, problem, &table, &own)
}

/// The table of the list, whose states tell of the last symbols. The rules are put together from the last on: those on
/// sequences have few states together, so what comes first stays small.
pub fn rule_table(
    alloc: Global,
    problem: &Problem,
    list: &RuleList,
    told: Told,
) -> Result<Table, AllocError>
    ensures { IfOk result (IsReader problem.now list.now) }
{
    let mut table = table_of(alloc, problem, Monitor::Last(told))?;
    let mut left = list.len();
    while left > 0 {
        left -= 1;
        table = with_rule(alloc, problem, list, left, table)?;
    }
    Ok(table)
}
