use refutation_terms::Line;
use rwsp_terms::Symbol;

/// What a propagator sees under domains.
#[derive(Drop)]
pub enum Look {
    /// No leaf holds, and no symbol is spent.
    Quiet,
    /// This leaf holds.
    Closed(Line),
    /// No leaf holds yet, but this one does once the domain of position `p` is cut to `x`. Positions count from 0.
    Cut { p: u32, x: Symbol, line: Line },
}
