// The limits of the numbers in a file, each under the number that a refusal names.
ghost use Rattle.std.specs.Prelude.{◌≡◌};
ghost use Rattle.rwsp_file.specs.Reading.{sequence_limit};

use crate::misfit::Kind;
use rwsp_terms::limits::{
    GREATEST_BOUND, MOST_CELLS, MOST_DAYS, MOST_SEQUENCES, MOST_SHIFTS, MOST_WEEKS,
};

/// A limit: the number by which a refusal names it, and the least and the greatest number that keep it.
#[derive(Clone, Copy)]
pub struct Limit {
    pub number: u32,
    pub least: u32,
    pub greatest: u32,
}

/// How many days a week has.
pub const DAYS: Limit = Limit {
    number: 1,
    least: 1,
    greatest: MOST_DAYS,
};

/// How many weeks there are.
pub const WEEKS: Limit = Limit {
    number: 2,
    least: 1,
    greatest: MOST_WEEKS,
};

/// How many days all weeks have.
pub const CELLS: Limit = Limit {
    number: 3,
    least: 1,
    greatest: MOST_CELLS,
};

/// How many shifts there are.
pub const SHIFTS: Limit = Limit {
    number: 4,
    least: 1,
    greatest: MOST_SHIFTS,
};

/// Both numbers of a demand.
pub const DEMAND: Limit = Limit {
    number: 5,
    least: 0,
    greatest: MOST_WEEKS,
};

/// The start and the length of a shift, in minutes.
pub const MINUTES: Limit = Limit {
    number: 6,
    least: 0,
    greatest: GREATEST_BOUND,
};

/// Both bounds of blocks, in days.
pub const BLOCK: Limit = Limit {
    number: 7,
    least: 0,
    greatest: GREATEST_BOUND,
};

/// How many sequences of a kind are forbidden.
pub fn sequence_limit(kind: Kind) -> Limit
    ensures { result ≡ sequence_limit kind }
{
    Limit {
        number: match kind {
            Kind::Pair => 8,
            Kind::Triple => 9,
        },
        least: 0,
        greatest: MOST_SEQUENCES,
    }
}
