// The steady layer of the search for rosters against a listing of all words, and the cuts round parts that aren't joined.
ghost use Rattle.std.specs.Prelude.{◌≡◌, ◌<◌, length, IfOk};
ghost use Rattle.roster_finder.specs.ByStep.{IsByStep};

use roster_finder::{Demand, ONE_USE, Quota, Setting, SteadyLayer, Table, add_cuts, met_roster};
use rwsp_model::Problem;
use std::alloc::{AllocError, Global};
use std::test::Fail;
use test_helpers::problem_of;

// Three weeks of two days, with any demand and blocks of one or two days of A, of two days of B and of one or two days
// off, and work for two or three days. B may not follow on A.
const THREE_WEEKS: &[u8] =
    b"2\n3\n2\n0..3 0..3\n0..3 0..3\nA 360 480 1 2\nB 360 480 2 2\n1 2\n2 3\n1 0\nA B\n";

// Two weeks of seven days, with any demand, blocks of four or five days of D, and two or three days off.
const TWO_WEEKS: &[u8] =
    b"7\n2\n1\n0..2 0..2 0..2 0..2 0..2 0..2 0..2\nD 360 480 4 5\n2 3\n4 5\n0 0\n";

// The word of six days whose symbols are the digits of a number.
fn word_of(alloc: Global, number: usize) -> Result<Vec<usize>, AllocError> {
    let mut word = Vec::new(alloc);
    let mut left = number;
    for _ in 0..6 {
        word.push(left % 3)?;
        left /= 3;
    }
    Ok(word)
}

// Where a word leads from a node.
fn end_of(layer: &SteadyLayer, node: usize, word: &[usize]) -> Option<usize>
    requires { node < layer.now.nodes }
{
    let mut at = node;
    for symbol in word {
        if *symbol >= layer.symbols {
            return None;
        }
        at = layer.next(at, *symbol)?;
    }
    Some(at)
}

// Whether a word leads from some node back to this node.
fn leads_round(layer: &SteadyLayer, word: &[usize]) -> bool {
    for node in 0..layer.nodes {
        if end_of(layer, node, word) == Some(node) {
            return true;
        }
    }
    false
}

// Whether a word leads round when it is read from the first day on.
fn is_round(layer: &SteadyLayer, word: &[usize]) -> bool {
    word.iter().all(|symbol| *symbol < layer.symbols) && layer.leads_round(word)
}

// Whether a word leads round, by the nodes and read from the first day on, exactly where it meets every rule.
fn agrees(
    alloc: Global,
    problem: &Problem,
    layer: &SteadyLayer,
    word: &[usize],
) -> Result<bool, AllocError> {
    let is_met = met_roster(alloc, problem, 0, word)?.is_some();
    Ok(is_met == leads_round(layer, word) && is_met == is_round(layer, word))
}

// How many of all words of six days lead round, if this agrees with the rules for each.
fn count_round(
    alloc: Global,
    problem: &Problem,
    layer: &SteadyLayer,
) -> Result<Option<usize>, AllocError> {
    let mut count: usize = 0;
    for number in 0..729 {
        let word = word_of(alloc, number)?;
        if !agrees(alloc, problem, layer, &word)? {
            return Ok(None);
        }
        count = count.saturating_add(usize::from(leads_round(layer, &word)));
    }
    Ok(Some(count))
}

fn count_by_layer(alloc: Global, problem: &Problem) -> Result<Option<usize>, AllocError> {
    let layer = SteadyLayer::of(alloc, problem)?;
    count_round(alloc, problem, &layer)
}

#[test]
fn words_lead_round_where_they_meet_the_rules(rt: HostRuntime) -> Result<(), Fail> {
    let problem = problem_of(rt.alloc(), THREE_WEEKS)?;
    assert_eq!(rt; count_by_layer(rt.alloc(), &problem)?, Some(12));
    Ok(())
}

// Uses the steps of a week of five days D and two days off once, which begins on a weekday.
fn use_week(layer: &SteadyLayer, uses: &mut Table<i64>, first: usize)
    requires weekdays { 0 < uses.old.rows }
    requires steps { uses.old.columns ≡ length layer.now.steps.items }
    ensures weekdays { uses.new.rows ≡ uses.old.rows }
    ensures steps { uses.new.columns ≡ uses.old.columns }
{
    let week = [1, 1, 1, 1, 1, 0, 0];
    for node in 0..layer.nodes {
        if end_of(layer, node, &week) == Some(node) {
            use_steps(layer, uses, node, first, &week);
        }
    }
}

// Uses the steps of a word from a node on.
fn use_steps(layer: &SteadyLayer, uses: &mut Table<i64>, node: usize, first: usize, word: &[usize])
    requires node { node < layer.now.nodes }
    requires weekdays { 0 < uses.old.rows }
    requires steps { uses.old.columns ≡ length layer.now.steps.items }
    ensures weekdays { uses.new.rows ≡ uses.old.rows }
    ensures steps { uses.new.columns ≡ uses.old.columns }
{
    let mut at = node;
    let mut weekday = first % uses.rows;
    for symbol in word {
        if *symbol >= layer.symbols {
            return;
        }
        let Some(number) = layer.step_number(at, *symbol) else {
            return;
        };
        uses.set(weekday, number, ONE_USE);
        at = layer.step(number).to;
        weekday = (weekday + 1) % uses.rows;
    }
}

// The uses of two such weeks, one of which begins a day later than the other.
fn used_weeks(setting: Setting<'_>) -> Result<Table<i64>, AllocError>
    ensures { IfOk result (IsByStep setting.entry) }
{
    let steps = setting.layer.step_count();
    let mut uses = Table::new(setting.alloc, setting.demand.days, steps, 0i64)?;
    use_week(setting.layer, &mut uses, 0);
    use_week(setting.layer, &mut uses, 1);
    Ok(uses)
}

// How many steps each quota is of.
fn sizes_of(alloc: Global, quotas: &[Quota]) -> Result<Vec<usize>, AllocError> {
    let mut sizes = Vec::new(alloc);
    for quota in quotas {
        sizes.push(quota.steps.len())?;
    }
    Ok(sizes)
}

// The numbers of steps of the cuts round these weeks.
fn sizes_of_cuts(setting: Setting<'_>) -> Result<Vec<usize>, AllocError> {
    let uses = used_weeks(setting)?;
    let mut quotas = Vec::new(setting.alloc);
    add_cuts(setting, &uses, &mut quotas)?;
    sizes_of(setting.alloc, &quotas)
}

fn cuts_of_weeks(alloc: Global, problem: &Problem) -> Result<Vec<usize>, AllocError> {
    let layer = SteadyLayer::of(alloc, problem)?;
    let demand = Demand::of(alloc, problem, 0)?;
    sizes_of_cuts(Setting {
        alloc,
        layer: &layer,
        demand: &demand,
    })
}

// A week is left by a block of four days, and by a third day off.
#[test]
fn weeks_that_are_not_joined_are_cut_apart(rt: HostRuntime) -> Result<(), Fail> {
    let problem = problem_of(rt.alloc(), TWO_WEEKS)?;
    let sizes = cuts_of_weeks(rt.alloc(), &problem)?;
    assert_eq!(rt; sizes.as_slice(), [2, 2].as_slice());
    Ok(())
}
