// What was awaited where a text stops to spell a problem, and what was found.
ghost use Rattle.std.specs.Prelude.{◌≡◌};
ghost use Rattle.rwsp_file.specs.Misfits.{refusal_of, refusal_on};

use crate::FileRefusal;
use crate::cursor::Lexeme;
use crate::limits::{CELLS, Limit};

/// The forbidden sequences of two symbols, or those of three.
#[derive(Clone, Copy)]
pub enum Kind {
    Pair,
    Triple,
}

/// A place of a problem's text: what has to be there. Shifts, days, sequences and their symbols count from 1.
#[derive(Clone, Copy)]
pub enum Place {
    /// The number of days of the week.
    Days,
    /// The number of weeks.
    Weeks,
    /// The number of shifts.
    Shifts,
    /// The demand of a shift on a day.
    Demand(u32, u32),
    /// The line of a shift, of five or six words.
    ShiftLine(u32),
    /// The name of a shift.
    ShiftName(u32),
    /// The start of a shift.
    Start(u32),
    /// The length of a shift.
    Minutes(u32),
    /// The least length of a shift's blocks.
    LeastBlock(u32),
    /// The greatest length of a shift's blocks.
    GreatestBlock(u32),
    /// The least length of a block of days off.
    LeastOff,
    /// The greatest length of a block of days off.
    GreatestOff,
    /// The least length of a block of work.
    LeastWork,
    /// The greatest length of a block of work.
    GreatestWork,
    /// The number of forbidden sequences of a kind.
    Sequences(Kind),
    /// In a forbidden sequence, which has this number among those of its kind, one of its symbols.
    InSequence(Kind, u32, u32),
    /// Nothing more.
    TextEnd,
}

/// What is wrong with a word.
#[derive(Clone, Copy)]
pub enum Fault {
    /// It is no number, or no demand.
    NoNumber,
    /// It is a number that breaks the limit.
    Beyond(Limit),
    /// So many weeks of so many days have too many days.
    TooManyDays(u32, u32),
    /// It begins a shift's line of so many words.
    WordCount(usize),
    /// It is longer than a name may be.
    LongName,
    /// It is the name of the day off.
    OffName,
    /// It is the name of this earlier shift.
    TakenName(u32),
    /// It is no symbol's name.
    NoSymbol,
    /// The text should have ended before it.
    NotEnd,
}

/// The first failure in a text.
#[derive(Drop)]
pub enum Misfit<'a> {
    /// The text ends on this line, where something was awaited.
    TextEnds(Place, u32),
    /// A word that isn't what was awaited.
    BadWord(Place, Lexeme<'a>, Fault),
}

impl Fault {
    // The refusal of a word on the line.
    fn refusal(self, line: u32) -> FileRefusal
        ensures { result ≡ refusal_on line self }
    {
        match self {
            Fault::NoNumber => FileRefusal::Number(line),
            Fault::Beyond(limit) => FileRefusal::Range(line, limit.number),
            Fault::TooManyDays(_, _) => FileRefusal::Range(line, CELLS.number),
            Fault::WordCount(_) => FileRefusal::Row(line),
            Fault::LongName | Fault::OffName | Fault::TakenName(_) => FileRefusal::Name(line),
            Fault::NoSymbol => FileRefusal::Unknown(line),
            Fault::NotEnd => FileRefusal::Extra(line),
        }
    }
}

impl<'a> Misfit<'a> {
    /// The refusal, which says only the kind and the line.
    pub fn refusal(&self) -> FileRefusal
        ensures { result ≡ refusal_of self.now }
    {
        match self {
            Misfit::TextEnds(_, line) => FileRefusal::Ends(*line),
            Misfit::BadWord(_, word, fault) => (*fault).refusal(word.line()),
        }
    }
}
