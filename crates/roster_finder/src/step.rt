// Steps through the layer.

/// The last weekday of a weekend, which has two days.
pub(crate) const LAST_OF_WEEKEND: usize = 6;

/// One step through the layer, from node to node by a symbol.
#[derive(Clone, Copy)]
pub struct Step {
    /// The node before it.
    pub from: usize,
    /// The node behind it.
    pub to: usize,
    /// The symbol's number.
    pub symbol: usize,
    /// Whether the symbol is the day off, like the one before.
    pub stays_off: bool,
}

impl Step {
    /// Whether the step makes a weekend free where it is taken on a weekday.
    pub fn ends_weekend(self, weekday: usize) -> bool {
        self.stays_off && weekday == LAST_OF_WEEKEND
    }
}
