// Windows over a position that make every word over their domains bad for a rule.
ghost use Rattle.std.specs.Prelude.{◌≡◌, ℕ, ◌<◌, ◌≤◌, length, MatchOption};
ghost use Rattle.rwsp_terms.specs.Instance.{cells};
ghost use Rattle.rwsp_terms.specs.Rules.{rules};
ghost use Rattle.refutation_terms.specs.declared.lines.Line.TheVariants.{Closing};
ghost use Rattle.refutation_terms.specs.declared.lines.Leaf.TheVariants.{Window};
ghost use Rattle.domain_store.specs.Store.{BelongsTo};
ghost use Rattle.propagators.specs.Windows.{IsWindow, NoWindowOver};

use domain_store::{Domains, bad_window_over};
use refutation_terms::{Leaf, Line};
use rwsp_model::{Problem, rule_at, rule_count};
use rwsp_terms::limits::LONGEST_WORD;

/// A window leaf. Rules count from 1, positions from 0.
#[derive(Clone, Copy)]
pub struct WindowLeaf {
    pub rule: u32,
    pub p: u32,
    pub len: u32,
}

impl WindowLeaf {
    /// The leaf as a line.
    pub fn line(self) -> Line
        ensures { result ≡ Closing (Window self.rule self.p self.len) }
    {
        Line::Closing(Leaf::Window {
            rule: self.rule,
            p: self.p,
            len: self.len,
        })
    }
}

/// A window leaf that holds. Where there is none, none that lies over the position holds. It costs a few steps for
/// each rule and each day of its bound.
pub fn window_over(problem: &Problem, doms: &Domains, q: u32) -> Option<WindowLeaf>
    requires domains { BelongsTo problem.now doms.now }
    requires position { q < cells problem.now }
    ensures { MatchOption result
        ((number : ℕ) → NoWindowOver problem.now doms.now number q)
        (λ leaf. IsWindow problem.now doms.now leaf.rule leaf.p leaf.len) }
{
    for number in 1..rule_count(problem) + 1 {
        if let Some(leaf) = window_of_rule(problem, doms, number, q) {
            return Some(leaf);
        }
    }
    None
}

// A window leaf of the rule of the number.
fn window_of_rule(problem: &Problem, doms: &Domains, number: u32, q: u32) -> Option<WindowLeaf>
    requires domains { BelongsTo problem.now doms.now }
    requires number { (1 ≤ number) × (number ≤ length (rules problem.now)) }
    requires position { q < cells problem.now }
    ensures { MatchOption result
        (NoWindowOver problem.now doms.now number q)
        (λ leaf. IsWindow problem.now doms.now leaf.rule leaf.p leaf.len) }
{
    problem.prove_limits();
    doms.prove_facts();
    let cells = problem.cells();
    // the same position some rounds later, so that a window of any length may begin before it
    let later = q + LONGEST_WORD * cells;
    match bad_window_over(doms, problem, rule_at(problem, number), later) {
        Some(window) => Some(WindowLeaf {
            rule: number,
            p: window.start % cells,
            len: window.length,
        }),
        None => None,
    }
}
