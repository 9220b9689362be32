// How far a search may go.

/// How far a search may go, and by which means.
#[derive(Clone, Copy)]
pub struct Effort {
    /// The most lines of a log.
    pub budget: u32,
    /// Whether blocks are counted first. A log of one that doesn't count may not count.
    pub counts: bool,
}

/// A plan within so many lines is a short one.
pub const FEW_LINES: u32 = 64;
