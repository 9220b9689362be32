use std::error::Error;
use std::fmt;

/// Why parts make no problem: their shape, the number of the first limit that they break, or the number of the first
/// shift whose name is bad. Limits and shifts count from 1.
#[derive(Clone, Copy, Debug, PartialEq, Eq)]
pub enum PartsRefusal {
    Shape,
    Range(u32),
    Name(u32),
}

impl fmt::Display for PartsRefusal {
    fn fmt<W: fmt::Write>(&self, f: &mut fmt::Formatter<W>) -> fmt::Result {
        match self {
            PartsRefusal::Shape => f.write_str("the parts don't have the shape of a problem"),
            PartsRefusal::Range(limit) => write!(f, "limit {limit} is broken"),
            PartsRefusal::Name(shift) => write!(f, "the name of shift {shift} is bad"),
        }
    }
}

impl Error for PartsRefusal {}
