// What the symbols of a word gain.
ghost use Rattle.std.specs.Prelude.{◌≡◌, ℕ, ◌+◌, Bool, ℤ, pos, neg_ℤ, ◌≤ℤ◌};
ghost use Rattle.rwsp_terms.specs.declared.limits.TheConstants.{GREATEST_REWARD, GREATEST_WEIGHT};
ghost use Rattle.rwsp_terms.specs.declared.data.Symbol.{Symbol};

use rwsp_terms::Symbol;

/// What the symbols of a word gain, from -1,000 to 2,000 each.
pub trait Gain {
    ghost gain_of: { Self → ℕ → Bool → Symbol → ℤ };

    /// What the symbol gains on a day of the word, counted from 0, where the day before is off or not. Before day 0 no
    /// day is off.
    fn gain(&self, day: u32, behind_off: bool, symbol: Symbol) -> i32
        ensures value { result ≡ gain_of self.now day behind_off symbol }
        ensures low { neg_ℤ (pos GREATEST_WEIGHT) ≤ℤ result }
        ensures high { result ≤ℤ pos (GREATEST_WEIGHT + GREATEST_REWARD) };
}
