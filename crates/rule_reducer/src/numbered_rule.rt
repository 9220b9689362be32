// Rules with their numbers.

use rwsp_terms::Rule;

/// A rule of a problem, and its number there.
#[derive(Clone, Copy)]
pub struct NumberedRule {
    pub number: u32,
    pub rule: Rule,
}
