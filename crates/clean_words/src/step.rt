// Steps between states.
use rwsp_terms::Symbol;

/// A step by a symbol from one state to another.
#[derive(Clone, Copy, PartialEq, Eq)]
pub struct Step {
    /// The state where it begins.
    pub from: usize,
    /// The symbol.
    pub symbol: Symbol,
    /// The state where it leads.
    pub to: usize,
}
