// The lines of a text, one after another.
ghost use Rattle.std.specs.Prelude.{◌≡◌, ◌≢◌, ◌<◌, ◌≤◌, ℕ, List, [], ◌++◌, length, take, drop, MatchOption};
ghost use Rattle.rwsp_text.specs.Lines.{IsNextLine};

use memchr::memchr;
use std::marker::Model;

/// The bytes of a text that are left to be read, line after line.
#[derive(Drop)]
pub struct LineReader<'a> {
    bytes: &'a [u8],
}

impl<'a> Model for LineReader<'a> {
    ghost use Rattle.std.specs.Prelude.{List, ℕ};

    ghost Value = { List ℕ };

    ghost view = { λ r. r.bytes.now };
}

impl<'a> LineReader<'a> {
    /// A reader of all lines of the text.
    pub fn new(bytes: &'a [u8]) -> LineReader<'a>
        ensures { result ≡ bytes.now }
    {
        LineReader { bytes }
    }

    /// The next line, with its LF; the last one as it is. None exactly at the end.
    pub fn next(&mut self) -> Option<&'a [u8]>
        ensures line { MatchOption result (self.old ≡ []) (λ line.
            (line.now ≢ []) × (self.old ≡ line.now ++ self.new)) }
        ensures end { MatchOption result (self.new ≡ []) (λ line. IsNextLine line.now self.new) }
    {
        if self.bytes.is_empty() {
            return None;
        }
        let end = line_end(self.bytes);
        let (line, rest) = self.bytes.split_at(end);
        self.bytes = rest;
        Some(line)
    }

    /// The bytes that are left.
    pub fn rest(&self) -> &'a [u8]
        ensures { result.now ≡ self.now }
    {
        self.bytes
    }
}

// Where the first line ends, behind its LF. Many bytes are looked at at once.
fn line_end(bytes: &[u8]) -> usize
    requires { 0 < length bytes.now }
    ensures within { (0 < result) × (result ≤ length bytes.now) }
    ensures line { IsNextLine (take result bytes.now) (drop result bytes.now) }
{
    match memchr(b'\n', bytes) {
        Some(i) => i + 1,
        None => bytes.len(),
    }
}
