// The view by domains: the possible symbols of a position are those that are left.
ghost use Rattle.std.specs.Prelude.{◌<◌, length};
ghost use Rattle.domain_store.specs.Views.{left_in};

use crate::{Domains, View};
use rwsp_terms::{Class, Symbol};

impl View for Domains {
    ghost has_days = { λ S. 0 < length S.sets };

    ghost allows = { λ S. left_in S };

    fn prove_some(&self) {
        self.prove_facts();
    }

    fn lies_in(&self, class: Class, p: u32) -> bool {
        self.prove_facts();
        let position = p % self.cells();
        match class {
            Class::Shift(shift) => self.has_only(position, shift),
            Class::Off => self.has_only(position, Symbol::OFF),
            Class::Work => !self.has(position, Symbol::OFF),
        }
    }

    fn lies_outside(&self, class: Class, p: u32) -> bool {
        self.prove_facts();
        let position = p % self.cells();
        match class {
            Class::Shift(shift) => !self.has(position, shift),
            Class::Off => !self.has(position, Symbol::OFF),
            Class::Work => self.has_only(position, Symbol::OFF),
        }
    }
}
