// Splits whose lines are passed without being read, to find which of them are open at a place.
ghost use Rattle.std.specs.Prelude.{◌≡◌, ◌<◌, ◌++◌, ◌∷◌, [], length, vec_len, vec_capacity, slice_index, ◌==◌, IfOk};
ghost use Rattle.refutation_checker.specs.UnreadSplits.{IsLeafPassed, IsLinePassed};

use refutation_log::LineReader;
use std::alloc::AllocError;
use std::marker::Model;

/// The line of a split that was passed without being read, and whether its first side was passed too.
#[derive(Drop)]
pub struct UnreadSplit<'a> {
    pub line: &'a [u8],
    pub in_second: bool,
}

impl<'a> Model for UnreadSplit<'a> {
    ghost use Rattle.refutation_checker.specs.UnreadSplits.{UnreadSplit};

    ghost Value = { UnreadSplit };

    ghost view = { λ s. record { line = s.line.now; in_second = s.in_second } };
}

// Whether a line is that of a split, if it is spelled: no other kind of line begins with this letter.
fn begins_as_split(line: &[u8]) -> bool
    requires { 0 < length line.now }
    ensures { result ≡ (slice_index line.now 0 == 115) }
{
    line[0] == b's'
}

// Puts a split on a stack that has room for it.
fn put_back<'a>(splits: &mut Vec<UnreadSplit<'a>>, split: UnreadSplit<'a>)
    requires { vec_len splits.old < vec_capacity splits.old }
    ensures { splits.new.items ≡ splits.old.items ++ split.entry ∷ [] }
{
    let _ = splits.push(split);
}

// Passes the last line of a tree: each split whose second side ends with it is closed, and the innermost one that is in
// its first side goes over to its second. Whether there is one; else the whole tree ends.
fn pass_leaf(splits: &mut Vec<UnreadSplit>) -> bool
    ensures { IsLeafPassed splits.old.items splits.new.items result }
{
    while let Some(split) = splits.pop() {
        if !split.in_second {
            put_back(
                splits,
                UnreadSplit {
                    line: split.line,
                    in_second: true,
                },
            );
            return true;
        }
    }
    false
}

/// Passes a line: a split is opened, and any other line is taken for a leaf. Whether the tree continues behind it.
pub fn pass_line<'a>(splits: &mut Vec<UnreadSplit<'a>>, line: &'a [u8]) -> Result<bool, AllocError>
    requires { 0 < length line.now }
    ensures { IfOk result (IsLinePassed splits.old.items splits.new.items line.now) }
{
    if !begins_as_split(line) {
        return Ok(pass_leaf(splits));
    }
    splits.push(UnreadSplit {
        line,
        in_second: false,
    })?;
    Ok(true)
}
