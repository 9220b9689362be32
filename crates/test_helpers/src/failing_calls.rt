// Counted calls, of which the listed ones fail.
ghost use Rattle.std.specs.Prelude.{◌≡◌};
ghost use Rattle.test_helpers.specs.CallPlan.{next_fails, after_call};

use std::marker::Model;

// The numbers of the calls that fail, from 1 on, and how many calls were made.
#[derive(Drop)]
pub(crate) struct Calls {
    failing: Vec<u64>,
    made: u64,
}

impl Model for Calls {
    ghost use Rattle.test_helpers.specs.CallPlan.{CallPlan};

    ghost Value = { CallPlan };

    ghost view = { λ c. record { failing = c.failing.items; made = c.made } };
}

impl Calls {
    pub(crate) fn new(failing: Vec<u64>) -> Calls
        ensures { result ≡ record { failing = failing.items; made = 0 } }
    {
        Calls { failing, made: 0 }
    }

    // Counts a call, and says whether it is a listed one.
    pub(crate) fn next_fails(&mut self) -> bool
        ensures listed { result ≡ next_fails self.old }
        ensures counted { self.new ≡ after_call self.old }
    {
        self.made = self.made.saturating_add(1);
        self.failing.contains(&self.made)
    }
}
