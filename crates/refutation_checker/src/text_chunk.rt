// Some lines of a log, with the walk in front of them.
use domain_store::Walk;
use std::marker::Model;

/// Some lines of a log's tree that follow one another.
#[derive(Drop)]
pub struct Chunk<'a> {
    /// Which chunk it is, from 1 on.
    pub number: u32,
    /// The walk in front of its lines.
    pub walk: Walk,
    pub bytes: &'a [u8],
    /// The number of its first line among all lines of the text, from 1 on.
    pub first: u32,
}

impl<'a> Model for Chunk<'a> {
    ghost use Rattle.refutation_checker.specs.Starts.{Start};

    ghost Value = { Start };

    ghost view = { λ c. record { walk = c.walk; bytes = c.bytes.now; first = c.first } };
}
