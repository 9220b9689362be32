use crate::symbol_set::SymbolSet;

/// A change of a domain: its position, and the domain that was there before.
#[derive(Clone, Copy)]
pub struct Change {
    pub position: u32,
    pub before: SymbolSet,
}
