// What may stand in the holes of a sentence.
use crate::reason::Rosters;
use rwsp_terms::{Bounds, Class, Symbol};

/// A part of a sentence: it stands for a hole.
#[derive(Clone, Copy)]
pub enum Part {
    /// A number, of a line, a day or a rule.
    Number(u32),
    /// The length of a list, or a part of a greater number.
    Length(u64),
    // So many things.
    Days(u32),
    Weeks(u32),
    Weekends(u32),
    Pairs(u64),
    Triples(u64),
    /// So many blocks, or pairs of a block of days off and one of work, with the verb behind them.
    BlocksHave(u32),
    RoundsHave(u32),
    /// So many cases that are closed, and that were left open.
    Closed(u64),
    Open(u64),
    /// So many changes that were left open, if any.
    Left(u64),
    // From a least number to a greatest; of days the least may be above the greatest.
    Range(Bounds),
    DayRange(Bounds),
    BlockRange(Bounds),
    /// The name of a shift by its number, and how many shifts there are with all their names.
    Name(u32),
    AllShifts,
    /// That no number meets the demand of a shift, by its number.
    Crossed(u32, Bounds),
    /// What somebody does who has the symbol, and what a cell holds.
    Works(Symbol),
    Held(Symbol),
    /// Which days a class is made of, and its blocks.
    OfClass(Class),
    BlockOf(Class),
    /// The rule of a number in words, if there is one.
    Rule(u32),
    /// Which rosters something is said of, or nothing is known of.
    Of(Rosters),
    Unknown(Rosters),
    /// Whether a number is the nearest, of which nothing is said.
    Nearest(bool),
}
