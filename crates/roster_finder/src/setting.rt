// What a search goes over.
ghost use Rattle.std.specs.Prelude.{◌≡◌};

use crate::demand::Demand;
use crate::steady_layer::SteadyLayer;
use std::alloc::Global;

/// The steps that clean words take, and the demand that they should meet.
#[derive(Clone, Copy)]
pub struct Setting<'a> {
    /// Where memory is taken from.
    pub alloc: Global,
    /// The steps.
    pub layer: &'a SteadyLayer,
    /// The demand.
    pub demand: &'a Demand,
    ghost symbols: { layer.now.symbols ≡ demand.now.symbols },
}
