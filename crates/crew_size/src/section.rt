// Where the log of a section ends.
ghost use Rattle.std.specs.Prelude.{◌≡◌, ◌<◌, ◌≤◌, length, take, drop, count_by, ◌==◌, MatchBool};
ghost use Rattle.crew_size.specs.Sections.{AreUpToHeading, AreWholeLines, HasHeadingAt};

use crate::heading::begins_as_heading;

/// How many bytes are in front of the first line that begins as a heading does; all of them where none does.
pub fn section_end(bytes: &[u8]) -> usize
    ensures within { result ≤ length bytes.now }
    ensures end { AreUpToHeading (take result bytes.now) (drop result bytes.now) }
{
    for at in 0..bytes.len() {
        if is_heading_at(bytes, at) {
            return at;
        }
    }
    bytes.len()
}

fn is_heading_at(bytes: &[u8], at: usize) -> bool
    requires { at < length bytes.now }
    ensures { MatchBool result (HasHeadingAt bytes.now at) (HasHeadingAt bytes.now at → ⊥) }
{
    if !begins_line(bytes, at) {
        return false;
    }
    begins_as_heading(&bytes[at..])
}

fn begins_line(bytes: &[u8], at: usize) -> bool
    requires { at < length bytes.now }
    ensures { MatchBool result (AreWholeLines (take at bytes.now)) (AreWholeLines (take at bytes.now) → ⊥) }
{
    if at == 0 {
        return true;
    }
    bytes[at - 1] == b'\n'
}

/// The number of lines that end with LF.
pub fn count_feeds(bytes: &[u8]) -> usize
    ensures value { result ≡ count_by (λ b. b == 10) bytes.now }
    ensures few { result ≤ length bytes.now }
{
    bytes.iter().filter(|byte| **byte == b'\n').count()
}
