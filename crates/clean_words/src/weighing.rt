// What the symbols of words weigh, with a reward where a free weekend ends.
ghost use Rattle.std.specs.Prelude.{◌≡◌, ◌+◌, ◌*◌, ◌%◌, ◌≤◌, pos, neg_ℤ, ◌≤ℤ◌};
ghost use Rattle.rwsp_terms.specs.declared.limits.TheConstants.{GREATEST_REWARD, GREATEST_WEIGHT, MOST_SYMBOLS};
ghost use Rattle.rwsp_terms.specs.Weights.{weight_at};
ghost use Rattle.clean_words.specs.Gains.{reward_behind, free_gain};
ghost use Rattle.clean_words.specs.WeightTables.{HoldsWeights};

use crate::Gain;
use crate::weight_table::weight_in;
use rwsp_terms::limits::{DAYS_OF_WEEK, SUNDAY};
use rwsp_terms::{Symbol, Weights};

// What the symbols of a word weigh that begins at a position, with the reward where a free weekend ends: on day 7 of a
// week of the word, its days counted from its first. Without a reward words may begin anywhere, in weeks of any length.
#[derive(Clone, Copy)]
pub struct Weighing<'a> {
    pub weights: &'a Weights,
    pub table: &'a [i32],
    pub position: u32,
    pub days: u32,
    pub reward: u32,
    ghost some: { 1 ≤ days },
    ghost laid: { HoldsWeights weights.now table.now (days * MOST_SYMBOLS) },
    ghost small: { reward ≤ GREATEST_REWARD },
}

impl<'a> Weighing<'a> {
    // What the symbol weighs on a day of the word.
    fn weight(&self, day: u32, symbol: Symbol) -> i32
        ensures value { result
            ≡ weight_at self.now.weights.now ((self.now.position + day) % self.now.days + 1) symbol.number }
        ensures low { neg_ℤ (pos GREATEST_WEIGHT) ≤ℤ result }
        ensures high { result ≤ℤ pos GREATEST_WEIGHT }
    {
        self.weights.entries();
        let place = u64::from(self.position) + u64::from(day);
        let in_week = (place % u64::from(self.days)) as u32;
        weight_in(self.weights, self.table, self.days, in_week, symbol)
    }
}

impl<'a> Gain for Weighing<'a> {
    ghost gain_of = { λ g day behind_off x. free_gain g.weights.now g.position g.days g.reward day behind_off x };

    fn gain(&self, day: u32, behind_off: bool, symbol: Symbol) -> i32 {
        self.weight(day, symbol) + reward_behind(self.reward, day, behind_off, symbol)
    }
}

// The reward, where a free weekend ends: day 7 of a week of the word, off as the day before.
fn reward_behind(reward: u32, day: u32, behind_off: bool, symbol: Symbol) -> i32
    requires { reward ≤ GREATEST_REWARD }
    ensures value { result ≡ pos (reward_behind reward day behind_off symbol) }
    ensures low { pos 0 ≤ℤ result }
    ensures high { result ≤ℤ pos GREATEST_REWARD }
{
    if day % DAYS_OF_WEEK == SUNDAY && behind_off && symbol.number == 0 {
        reward as i32
    } else {
        0
    }
}
