ghost use Rattle.std.specs.Prelude.{Some};
ghost use Rattle.rwsp_file.specs.RefusalText.{file_refusal_text};

use std::error::Error;
use std::fmt;

/// Why bytes are no problem file. The first number is the line, counted from 1; the second of a range is the number of
/// the limit that is broken.
#[derive(Clone, Copy, Debug, PartialEq, Eq)]
pub enum FileRefusal {
    /// A word is wanted where the text ends.
    Ends(u32),
    /// No number, or no demand.
    Number(u32),
    /// A number that breaks a limit:
    /// 1. the days, 1 to 28;
    /// 2. the weeks, 1 to 600;
    /// 3. the days of all weeks, at most 4,200;
    /// 4. the shifts, 1 to 8;
    /// 5. both numbers of a demand, at most 600;
    /// 6. the start and the length of a shift, at most 10,000 minutes;
    /// 7. both bounds of blocks, at most 10,000 days;
    /// 8. the number of pairs, at most 64;
    /// 9. the number of triples, at most 64.
    Range(u32, u32),
    /// A shift that has not five or six words on its line.
    Row(u32),
    /// A shift's name that is longer than 32 bytes, that of the day off or that of an earlier shift.
    Name(u32),
    /// No name of a symbol in a sequence.
    Unknown(u32),
    /// A word behind the last sequence.
    Extra(u32),
}

impl fmt::Display for FileRefusal {
    ghost output = { λ refusal. Some (file_refusal_text refusal) };

    fn fmt<W: fmt::Write>(&self, f: &mut fmt::Formatter<W>) -> fmt::Result {
        match self {
            FileRefusal::Ends(line) => write!(f, "file refused: ends line {line}"),
            FileRefusal::Number(line) => write!(f, "file refused: number line {line}"),
            FileRefusal::Range(line, limit) => {
                write!(f, "file refused: range {limit} line {line}")
            }
            FileRefusal::Row(line) => write!(f, "file refused: row line {line}"),
            FileRefusal::Name(line) => write!(f, "file refused: name line {line}"),
            FileRefusal::Unknown(line) => write!(f, "file refused: unknown line {line}"),
            FileRefusal::Extra(line) => write!(f, "file refused: extra line {line}"),
        }
    }
}

impl Error for FileRefusal {}
