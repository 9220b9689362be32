// Steps of which a roster takes a least number.
ghost use Rattle.std.specs.Prelude.{◌≡◌, All, IfOk};
ghost use Rattle.roster_finder.specs.ByStep.{IsPlaceWithin};

use crate::cost::plus;
use crate::demand::{Demand, Range};
use crate::setting::Setting;
use crate::table::Table;
use std::alloc::AllocError;

/// Steps, each with its weekday, and how often a roster takes one of them at least.
#[derive(Drop, PartialEq, Eq)]
pub struct Quota {
    /// Each step's weekday and number, both from 0.
    pub steps: Vec<(usize, usize)>,
    /// How often a roster takes one of them at least.
    pub least: i64,
}

impl Quota {
    ghost use Rattle.roster_finder.specs.Quotas.{IsQuotaOf};

    /// Free weekends: the steps on the last day of a week that is off like the day before.
    pub fn of_weekends(setting: Setting<'_>) -> Result<Quota, AllocError>
        ensures { IfOk result (IsQuotaOf setting.entry) }
    {
        let mut steps = Vec::new(setting.alloc);
        for weekday in 0..setting.demand.days {
            for number in 0..setting.layer.step_count() {
                if setting.layer.step(number).ends_weekend(weekday) {
                    steps.push((weekday, number))?;
                }
            }
        }
        Ok(Quota {
            steps,
            least: i64::from(setting.demand.free),
        })
    }

    /// How often a roster takes the steps.
    pub fn range(&self, demand: &Demand) -> Range {
        Range {
            least: self.least,
            greatest: demand.cells() as i64,
        }
    }

    /// Adds to the weights of the steps.
    pub fn add_weight(&self, weights: &mut Table<i64>, weight: i64)
        requires { All (IsPlaceWithin weights.old.rows weights.old.columns) self.now.steps.items }
        ensures rows { weights.new.rows ≡ weights.old.rows }
        ensures columns { weights.new.columns ≡ weights.old.columns }
    {
        for place in 0..self.steps.len() {
            let (weekday, number) = self.steps[place];
            let sum = plus(weights.at(weekday, number), weight);
            weights.set(weekday, number, sum);
        }
    }

    /// How often the steps are taken.
    pub fn uses(&self, uses: &Table<i64>) -> i64
        requires { All (IsPlaceWithin uses.now.rows uses.now.columns) self.now.steps.items }
    {
        let mut sum = 0;
        for place in 0..self.steps.len() {
            let (weekday, number) = self.steps[place];
            sum = plus(sum, uses.at(weekday, number));
        }
        sum
    }
}
