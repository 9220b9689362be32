use crate::Mark;
use rwsp_terms::Symbol;

/// A split whose sides haven't all been read: its position and symbol, the mark of the domains before it, and whether
/// its first side has been read.
#[derive(Clone, Copy)]
pub struct OpenSplit {
    pub p: u32,
    pub x: Symbol,
    pub mark: Mark,
    pub in_second: bool,
}
