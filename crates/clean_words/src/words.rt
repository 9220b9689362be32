// The words that are looked at.
ghost use Rattle.std.specs.Prelude.{◌≡◌, ◌+◌, ◌%◌, ◌<◌, ◌≤◌, length};
ghost use Rattle.rwsp_terms.specs.declared.limits.TheConstants.{LONGEST_WORD};
ghost use Rattle.rwsp_terms.specs.Instance.{cells};
ghost use Rattle.domain_store.specs.Store.{BelongsTo};

use crate::Automaton;
use domain_store::Domains;

/// The clean words of `days` days over domains, from a position on, round the cycle.
#[derive(Clone, Copy)]
pub struct CleanWords<'a> {
    /// The automaton of the rules for which they are clean.
    pub automaton: &'a Automaton,
    /// The symbols that they may have at each position.
    pub domains: &'a Domains,
    /// The position of their first day.
    pub position: u32,
    /// Their length in days.
    pub days: u32,
    pub ghost belongs: { BelongsTo automaton.now.problem domains.now },
    pub ghost starts: { position < cells automaton.now.problem },
    pub ghost few: { days ≤ LONGEST_WORD },
}
