// Cuts round parts of the steady layer that a fractional roster hardly leaves.
ghost use Rattle.std.specs.Prelude.{◌≡◌, ◌*◌, ◌<◌, length, All, IfOk, OnOk};
ghost use Rattle.roster_finder.specs.ByStep.{IsByStep};
ghost use Rattle.roster_finder.specs.Quotas.{IsQuotaOf};
ghost use Rattle.roster_finder.specs.UsedSteps.{IsUsedOf};

use crate::cost::{minus, plus, times};
use crate::numbers::Numbers;
use crate::quotas::Quota;
use crate::setting::Setting;
use crate::shares::ONE_USE;
use crate::table::Table;
use crate::used::{Used, used_steps, whole_flow};
use std::alloc::AllocError;

/// The most new cuts that are made at a time.
const MOST_CUTS: usize = 20;

/// A part of the layer counts that holds this many days at least, or a week where that is longer, and leaves as many
/// outside.
const FEWEST_DAYS: usize = 7;

// How much of a fractional roster a part of the layer holds, and how much leaves it.
#[derive(Clone, Copy)]
struct Flow {
    held: i64,
    leaving: i64,
}

// The parts that the layer's nodes are joined to on each weekday, as trees (union-find: B. Galler and M. Fischer, 1964).
#[derive(Drop)]
struct Parts {
    weekdays: usize,
    nodes: usize,
    // For each weekday and node, by `place`, another one of its part; for the root of the part itself.
    above: Numbers,
    ghost places: { above.below ≡ nodes * weekdays },
    ghost whole: { length above.entries.items ≡ above.below },
}

impl Parts {
    ghost use Rattle.roster_finder.specs.Parts.{ArePartsOf};

    // A part for each node on each weekday.
    fn new(setting: Setting<'_>) -> Result<Parts, AllocError>
        ensures { IfOk result (ArePartsOf setting.entry) }
    {
        let weekdays = setting.demand.days;
        let nodes = setting.layer.nodes;
        // No memory holds more places than a number of it can count.
        let Some(places) = nodes.checked_mul(weekdays) else {
            return Err(AllocError);
        };
        Ok(Parts {
            weekdays,
            nodes,
            above: Numbers::counting(setting.alloc, places)?,
        })
    }

    #[tactic(auto, using(crate::proofs::Places::place_within))]
    fn place(&self, weekday: usize, node: usize) -> usize
        requires weekday { weekday < self.now.weekdays }
        requires node { node < self.now.nodes }
        ensures { result < self.now.above.below }
    {
        weekday * self.nodes + node
    }

    // The root of a part. Takes few steps, as each join leads roots to roots.
    fn root(&self, place: usize) -> usize
        requires { place < self.now.above.below }
        ensures { result < self.now.above.below }
    {
        let mut at = place;
        for _ in 0..self.above.below {
            let above = self.above.at(at);
            if above == at {
                break;
            }
            at = above;
        }
        at
    }

    // The parts that a step leads from and to, by their roots.
    fn ends(&self, setting: Setting<'_>, weekday: usize, number: usize) -> (usize, usize)
        requires parts { ArePartsOf setting self.now }
        requires weekday { weekday < setting.demand.now.days }
        requires number { number < length setting.layer.now.steps.items }
        ensures { (result.0 < self.now.above.below) × (result.1 < self.now.above.below) }
    {
        let step = setting.layer.step(number);
        let next = if weekday + 1 < setting.demand.days {
            weekday + 1
        } else {
            0
        };
        let from = self.place(weekday, step.from);
        let to = self.place(next, step.to);
        (self.root(from), self.root(to))
    }

    // Joins one part to another, both by their roots, and leads each place right to its root.
    fn join(&mut self, part: usize, to: usize)
        requires part { part < self.old.above.below }
        requires to { to < self.old.above.below }
        ensures weekdays { self.new.weekdays ≡ self.old.weekdays }
        ensures nodes { self.new.nodes ≡ self.old.nodes }
        ensures places { self.new.above.below ≡ self.old.above.below }
    {
        self.above.set(part, to);
        for place in 0..self.above.below {
            let root = self.root(place);
            self.above.set(place, root);
        }
    }

    // How much a part holds and how much leaves it.
    fn flow(&self, setting: Setting<'_>, used: &[Used], part: usize) -> Flow
        requires parts { ArePartsOf setting self.now }
        requires used { All (IsUsedOf setting) used.now }
    {
        let mut held = 0;
        let mut leaving = 0;
        for k in 0..used.len() {
            let Used {
                weekday,
                number,
                share,
            } = used[k];
            let (from, to) = self.ends(setting, weekday, number);
            if from == part {
                held = plus(held, share);
                if to != part {
                    leaving = plus(leaving, share);
                }
            }
        }
        Flow { held, leaving }
    }

    // The steps that leave a part. A roster that has days in the part and days outside of it takes one of them at
    // least.
    fn cut(&self, setting: Setting<'_>, part: usize) -> Result<Quota, AllocError>
        requires { ArePartsOf setting self.now }
        ensures { IfOk result (IsQuotaOf setting.entry) }
    {
        let mut steps = Vec::new(setting.alloc);
        for weekday in 0..setting.demand.days {
            for number in 0..setting.layer.step_count() {
                let (from, to) = self.ends(setting, weekday, number);
                if from == part && to != part {
                    steps.push((weekday, number))?;
                }
            }
        }
        Ok(Quota { steps, least: 1 })
    }

    // Joins the parts that a step leads from and to. The joined part, if they were two.
    fn join_ends(&mut self, setting: Setting<'_>, step: Used) -> Option<usize>
        requires parts { ArePartsOf setting self.old }
        requires step { IsUsedOf setting step }
        ensures { ArePartsOf setting.entry self.new }
    {
        let (from, to) = self.ends(setting, step.weekday, step.number);
        if from == to {
            return None;
        }
        self.join(from, to);
        Some(to)
    }

    // Adds the cut round a part that holds and leaves days enough and is hardly left. Whether there was none yet.
    fn add_cut(
        &self,
        setting: Setting<'_>,
        part: usize,
        flow: Flow,
        all: i64,
        quotas: &mut Vec<Quota>,
    ) -> Result<bool, AllocError>
        requires parts { ArePartsOf setting self.now }
        requires quotas { All (IsQuotaOf setting) quotas.old.items }
        ensures { OnOk result (All (IsQuotaOf setting.entry) quotas.new.items) }
    {
        if !is_hardly_left(setting, flow, all) {
            return Ok(false);
        }
        let cut = self.cut(setting, part)?;
        if quotas.contains(&cut) {
            return Ok(false);
        }
        quotas.push(cut)?;
        Ok(true)
    }

    // Joins the parts by each step, and adds the cuts round them that aren't there yet, until there are many new ones.
    fn join_along(
        &mut self,
        setting: Setting<'_>,
        used: &[Used],
        quotas: &mut Vec<Quota>,
    ) -> Result<(), AllocError>
        requires parts { ArePartsOf setting self.old }
        requires used { All (IsUsedOf setting) used.now }
        requires quotas { All (IsQuotaOf setting) quotas.old.items }
        ensures { OnOk result (All (IsQuotaOf setting.entry) quotas.new.items) }
    {
        let all = whole_flow(used);
        let mut new: usize = 0;
        for k in 0..used.len() {
            if new == MOST_CUTS {
                break;
            }
            let Some(part) = self.join_ends(setting, used[k]) else {
                continue;
            };
            if self.add_cut(setting, part, self.flow(setting, used, part), all, quotas)? {
                new += 1;
            }
        }
        Ok(())
    }
}

// Whether a part that holds and leaves days enough, of a whole flow, is left by less than three quarters of a use.
fn is_hardly_left(setting: Setting<'_>, flow: Flow, all: i64) -> bool {
    let days = times(ONE_USE, setting.demand.days.max(FEWEST_DAYS) as i64);
    let is_large = flow.held >= days && minus(all, flow.held) >= days;
    is_large && flow.leaving < ONE_USE * 3 / 4
}

/// Adds connectivity cuts round the parts that hold and leave days enough and are left by less than three quarters of a
/// use (subtours: G. Dantzig, R. Fulkerson and S. Johnson, 1954). Nodes are joined to parts by the steps of the greatest
/// shares first. Costs for each step with a share a look at all of them and at each node on each weekday.
pub fn add_cuts(
    setting: Setting<'_>,
    uses: &Table<i64>,
    quotas: &mut Vec<Quota>,
) -> Result<(), AllocError>
    requires uses { IsByStep setting uses.now }
    requires quotas { All (IsQuotaOf setting) quotas.old.items }
    ensures { OnOk result (All (IsQuotaOf setting.entry) quotas.new.items) }
{
    let used = used_steps(setting, uses)?;
    let mut parts = Parts::new(setting)?;
    parts.join_along(setting, &used, quotas)
}
