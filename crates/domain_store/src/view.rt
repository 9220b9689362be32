// What the rules on windows ask of whoever knows the days.
ghost use Rattle.std.specs.Prelude.{ℕ, ◌↔◌, IsTrue};
ghost use Rattle.rwsp_terms.specs.declared.data.Symbol.{Symbol};
ghost use Rattle.domain_store.specs.Views.{LiesIn, LiesOutside};

use rwsp_terms::Class;

/// What is known of the symbols of an endless word that goes round a cycle of days. Its positions count from 0.
pub trait View {
    // the cycle has a day, and so there is an endless word
    ghost has_days: { Self → Type 0 };

    // the possible symbols of a position
    ghost allows: { Self → ℕ → Symbol → Type 0 };

    /// Some symbol is possible at each position. This does nothing when the program runs.
    fn prove_some(&self)
        requires { has_days self.now }
        ensures { (p : ℕ) → (x : Symbol) × allows self.now p x };

    /// Whether each possible symbol of the position is in the class.
    fn lies_in(&self, class: Class, p: u32) -> bool
        requires { has_days self.now }
        ensures { IsTrue result ↔ LiesIn (allows self.now) class p };

    /// Whether no possible symbol of the position is in the class.
    fn lies_outside(&self, class: Class, p: u32) -> bool
        requires { has_days self.now }
        ensures { IsTrue result ↔ LiesOutside (allows self.now) class p };
}
