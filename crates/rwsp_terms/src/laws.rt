// Laws of the definitions. Each function's contract is the law.
ghost use Rattle.std.specs.Prelude.{◌≡◌, ◌↔◌, ℕ, List, length, Contains};
ghost use Rattle.std.specs.List.Sorted.{IsStrictlyIncreasing};
ghost use Rattle.rwsp_terms.specs.declared.data.Symbol.{Symbol};
ghost use Rattle.rwsp_terms.specs.declared.data.Weight.{Weight};
ghost use Rattle.rwsp_terms.specs.Weights.{AreWeights, weight_at};
ghost use Rattle.rwsp_terms.specs.Window.{window};

/// A window has as many symbols as were asked for.
pub fn window_is_long()
    ensures { (s : List Symbol) (p len : ℕ) → length (window s p len) ≡ len }
{}

/// Lists of rules that hold the same numbers are equal.
pub fn rule_lists_are_sets()
    ensures { (r s : List ℕ) → IsStrictlyIncreasing r → IsStrictlyIncreasing s
        → ((k : ℕ) → Contains r k ↔ Contains s k) → r ≡ s }
{}

/// Weights that are the same everywhere are equal.
pub fn weights_are_told_by_values()
    ensures { (y z : List Weight) → AreWeights y → AreWeights z → ((j x : ℕ) → weight_at y j x ≡ weight_at z j x)
        → y ≡ z }
{}
