// The lines of a log, what is known before them, and the causes for which a log is refused. Positions count from 0,
// days and rules from 1.
ghost use Rattle.std.specs.Prelude.{◌≡◌, IfOk};

use crate::cells::GivenCells;
use rwsp_terms::{RuleList, Symbol, Weights, Word};
use std::alloc::AllocError;

/// A line of a log: a split of the cases in two, a leaf that closes a case, or a case that wasn't worked out.
#[derive(Drop)]
pub enum Line {
    /// First the rosters that hold `x` at position `p`, then those that don't.
    Split { p: u32, x: Symbol },
    /// A leaf: no roster is left in its case.
    Closing(Leaf),
    /// A case that wasn't worked out, written `open`.
    Unfinished,
}

/// Why no roster is left in a case.
#[derive(Drop)]
pub enum Leaf {
    /// Every word of `len` days from position `p` is bad for the rule.
    Window {
        rule: u32,
        p: u32,
        len: u32,
    },
    /// Too many cells of a day certainly hold `x`, or too few still can.
    Day {
        day: u32,
        x: Symbol,
        over: bool,
    },
    /// What is claimed of the words from position `p` on that are clean for the rules.
    Words {
        p: u32,
        rules: RuleList,
        claim: WordClaim,
    },
    /// Fewer weeks than the log's goal can have both days 6 and 7 off.
    Few,
    /// No number of blocks of `x` has as many days as the demand asks for, by their least and greatest lengths. Only in
    /// a log that may count.
    Blocks {
        x: Symbol,
    },
}

/// What a leaf claims of the clean words from a position on.
#[derive(Drop)]
pub enum WordClaim {
    /// There is none of `len` days. Written `dead`.
    Dead {
        len: u32,
    },
    /// Each word of `turns` rounds through all weeks weighs less than the demand asks for. Written `bound` in a log
    /// without a goal, where the reward is 0; and `free` in one with a goal, where the words begin on the first day,
    /// each free weekend weighs `reward`, and the goal asks for so many.
    Light {
        turns: u32,
        reward: u32,
        weights: Weights,
    },
}

/// The assumption that week 1 holds `x` on the day.
#[derive(Clone, Copy, Debug, PartialEq, Eq)]
pub struct Turn {
    pub day: u32,
    pub x: Symbol,
}

/// What is known of the cells before the first line of a log.
#[derive(Drop)]
pub enum Opening {
    /// Each cell may hold each symbol.
    Full,
    /// Week 1 holds the symbol of the turn on its day.
    Turned(Turn),
    /// These cells hold their symbols.
    Given(GivenCells),
}

impl Opening {
    /// A copy of the opening.
    pub fn copy(&self) -> Result<Opening, AllocError>
        ensures { IfOk result (λ same. same ≡ self.now) }
    {
        match self {
            Opening::Full => Ok(Opening::Full),
            Opening::Turned(turn) => Ok(Opening::Turned(*turn)),
            Opening::Given(given) => Ok(Opening::Given(given.copy()?)),
        }
    }
}

/// What the lines of a log may be: which kinds there are goes by its goal, if it has one, and by whether it may count
/// blocks.
#[derive(Clone, Copy, Debug, PartialEq, Eq)]
pub struct Terms {
    pub goal: Option<u32>,
    pub counts: bool,
}

/// What a text is read as: a log without a goal, a free log, or a fill log, which gives cells.
#[derive(Clone, Copy, Debug, PartialEq, Eq)]
pub enum LogKind {
    WithoutGoal,
    WithGoal,
    WithCells,
}

/// The form of a log's text, by its first line.
#[derive(Clone, Copy, Debug, PartialEq, Eq)]
pub enum Version {
    /// `rwsp-log 1`, a log without a turn.
    Version1,
    /// `rwsp-log 2`, a log with a turn on line 3.
    Version2,
    /// `rwsp-log 3`, a log that may count, with its turn or none on line 3.
    Version3,
    /// `rwsp-free 1`, a free log with its goal on line 3.
    Free1,
    /// `rwsp-free 2`, a free log that may count, with its goal on line 3.
    Free2,
    /// `rwsp-fill 1`, a log that may count, with its given cells on line 3.
    Fill1,
}

/// Why a log is refused. The first number is the line of the text, from 1 on; the second is the rule.
#[derive(Debug, Drop)]
pub enum LogRefusal {
    /// The line isn't spelled as it should be.
    Form(u32),
    /// A name is no symbol's name.
    Name(u32),
    /// The line cites a rule that the header doesn't name; the least such rule.
    Unnamed(u32, u32),
    /// The symbol of a split isn't in the domain, or is alone there.
    Idle(u32),
    /// A list holds a rule that isn't short; the least such rule.
    Long(u32, u32),
    /// A window or a day leaf, or one of few free weekends or of blocks, doesn't hold.
    Fails(u32),
    /// A leaf of words doesn't hold, as the word shows.
    Escape(u32, Word),
    /// The case wasn't worked out.
    Unfinished(u32),
    /// The text ends before the tree does.
    Ends,
    /// The line is behind the whole tree.
    Extra(u32),
    /// The symbol of the turn need not be there in any week.
    Turn(u32),
}

// Lines of a log and causes of a refusal may be sent to other threads and shared with them.
fn shared<T: Send + Sync>(_: &T) {}

fn lines_are_shared(line: &Line, leaf: &Leaf, opening: &Opening, why: &LogRefusal) {
    shared(line);
    shared(leaf);
    shared(opening);
    shared(why);
}
