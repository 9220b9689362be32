// A shelf of named files, read a piece at a time.
ghost use Rattle.std.specs.Prelude.{◌≡◌, ℕ, ◌+◌, ◌<◌, ◌≤◌, List, length, take, drop, Option, Some, vec_len, IfOk, OnOk, OnErr, IsErr, IsErrOf, Bool, true, false};
ghost use Rattle.std.specs.Result.{IsOkUnless};
ghost use Rattle.std.specs.Io.{ReadsAtMost};
ghost use Rattle.std.specs.Io.KnownBytes.{ReadConsumes, Consumes, IsAtEnd};
ghost use Rattle.rwsp_io.specs.Told.{Told, Bytes, Missing, told_bytes, Rose, NeverFall, AllRose};
ghost use Rattle.rwsp_io.specs.Reading.{IsTooLongUnlessMemory};

use std::alloc::{AllocError, Global};

/// A file could not be opened or read.
#[derive(Clone, Copy, Debug, PartialEq, Eq)]
pub struct ShelfFault;

/// Why a file was not read whole.
#[derive(Clone, Copy, Debug, PartialEq, Eq)]
pub enum ReadFail {
    /// The shelf could not open or read it, or holds nothing under the name.
    Fault,
    /// It holds more bytes than the limit.
    TooLong,
    /// There was no memory for its bytes.
    Memory,
}

impl From<AllocError> for ReadFail {
    ghost use Rattle.rwsp_io.specs.declared.shelf.ReadFail.{ReadFail};

    ghost from_gives = { λ _ r. r ≡ ReadFail.Memory };

    fn from(_: AllocError) -> ReadFail {
        ReadFail::Memory
    }
}

/// Named files that are read a piece at a time, one after another.
///
/// No call changes what is held under a name. For each name the shelf counts its faults in a `u64`, and a count that
/// is at its last value, 2^64 - 1, counts as risen by every fault.
pub trait Shelf {
    /// What is known of a name: nothing, that no file is held under it, or the bytes of its file.
    ghost held: { Self → List ℕ → Told };

    /// Whether a name is chosen.
    ghost chosen: { Self → Bool };

    /// The bytes that are left of the chosen name, where they are known.
    ghost left: { Self → Option (List ℕ) };

    /// How often a name has failed.
    ghost faults: { Self → List ℕ → ℕ };

    /// Chooses a name, to be read from its first byte on. A name that is not held is a fault, and after a fault no name
    /// is chosen.
    fn choose(&mut self, name: &str) -> Result<(), ShelfFault>
        ensures chosen { OnOk result (chosen self.new ≡ true) }
        ensures unchosen { OnErr result (chosen self.new ≡ false) }
        ensures left { OnOk result (left self.new ≡ told_bytes (held self.old name.now)) }
        ensures missing { held self.old name.now ≡ Missing → IsErr result }
        ensures held { (other : List ℕ) → held self.new other ≡ held self.old other }
        ensures faults { NeverFall (faults self.old) (faults self.new) }
        ensures cause { OnErr result (Rose (faults self.old name.now) (faults self.new name.now)) };

    /// Fills the front of the piece with the next bytes of the chosen name and gives their number. It is 0 only where
    /// nothing is left or the piece is empty, and an empty piece is never a fault. The name stays chosen, and after a
    /// fault no byte was taken.
    fn take(&mut self, piece: &mut [u8]) -> Result<usize, ShelfFault>
        requires { chosen self.old ≡ true }
        ensures bound { ReadsAtMost result piece.new }
        ensures bytes { ReadConsumes (left self.old) (left self.new) result piece.new }
        ensures empty { length piece.new ≡ 0 → result ≡ Ok 0 }
        ensures chosen { chosen self.new ≡ true }
        ensures held { (other : List ℕ) → held self.new other ≡ held self.old other }
        ensures faults { NeverFall (faults self.old) (faults self.new) }
        ensures cause { OnErr result (AllRose (faults self.old) (faults self.new)) };
}

/// The greatest limit on the bytes of a file: half a gibibyte.
pub const GREATEST_LIMIT: usize = 512 * 1024 * 1024;

// The first piece that is read of a file, in bytes.
const FIRST_PIECE: usize = 64 * 1024;

// The longest piece, in bytes.
const LONGEST_PIECE: usize = 1024 * 1024;

/// All bytes that are held under the name, where they are no more than the limit.
///
/// At most `limit` + 1 bytes are taken and kept. The memory taken is in proportion to the bytes of the file. After
/// `Memory` the name may be chosen and some of its bytes taken.
pub fn read_all<S: Shelf>(
    alloc: Global,
    shelf: &mut S,
    name: &str,
    limit: usize,
) -> Result<Vec<u8>, ReadFail>
    requires { limit ≤ GREATEST_LIMIT }

    // An answer's bytes are those of the file, and they keep the limit.
    ensures all { (bytes : List ℕ) → S.held shelf.old name.now ≡ Bytes bytes
        → IfOk result (λ v. v.items ≡ bytes) }
    ensures within { IfOk result (λ v. vec_len v ≤ limit) }

    // The reason for a failure is true.
    ensures fault { IsErrOf result ReadFail.Fault
        → Rose (S.faults shelf.old name.now) (S.faults shelf.new name.now) }
    ensures too_long { IsErrOf result ReadFail.TooLong
        → (bytes : List ℕ) → S.held shelf.old name.now ≡ Bytes bytes
        → (limit < length bytes) × (S.left shelf.new ≡ Some (drop (limit + 1) bytes)) }

    // And it is given wherever it is true, want of memory aside.
    ensures missing { S.held shelf.old name.now ≡ Missing → IsErrOf result ReadFail.Fault }
    ensures beyond { (bytes : List ℕ) → S.held shelf.old name.now ≡ Bytes bytes
        → limit < length bytes → IsErr result }
    ensures refused { (bytes : List ℕ) → S.held shelf.old name.now ≡ Bytes bytes
        → limit < length bytes
        → ¬ Rose (S.faults shelf.old name.now) (S.faults shelf.new name.now)
        → IsTooLongUnlessMemory result }
    ensures read { (bytes : List ℕ) → S.held shelf.old name.now ≡ Bytes bytes
        → length bytes ≤ limit
        → ¬ Rose (S.faults shelf.old name.now) (S.faults shelf.new name.now)
        → IsOkUnless result ReadFail.Memory }

    // What stays.
    ensures held { (other : List ℕ) → S.held shelf.new other ≡ S.held shelf.old other }
    ensures faults { NeverFall (S.faults shelf.old) (S.faults shelf.new) }
{
    if shelf.choose(name).is_err() {
        return Err(ReadFail::Fault);
    }
    let mut bytes = Vec::new(alloc);
    let mut filled = 0;
    while filled <= limit {
        let count = read_piece(shelf, &mut bytes, filled, limit + 1)?;
        if count == 0 {
            bytes.truncate(filled);
            return Ok(bytes);
        }
        filled += count;
    }
    Err(ReadFail::TooLong)
}

// Takes the next bytes of the chosen name into `bytes`, behind the first `filled` ones, and gives their number. Room is
// made first, so that want of memory loses no byte.
fn read_piece<S: Shelf>(
    shelf: &mut S,
    bytes: &mut Vec<u8>,
    filled: usize,
    most: usize,
) -> Result<usize, ReadFail>
    requires chosen { S.chosen shelf.old ≡ true }
    requires filled { filled ≤ vec_len bytes.old }
    requires room { filled < most }
    requires few { vec_len bytes.old ≤ most }
    ensures front { take filled bytes.new.items ≡ take filled bytes.old.items }
    ensures within { IfOk result (λ k. filled + k ≤ vec_len bytes.new) }
    ensures few { vec_len bytes.new ≤ most }
    ensures taken { IfOk result (λ k.
        Consumes (S.left shelf.old) (S.left shelf.new) (take k (drop filled bytes.new.items))) }
    ensures end { IfOk result (λ k. k ≡ 0 → IsAtEnd (S.left shelf.new)) }
    ensures failure { ¬ IsErrOf result ReadFail.TooLong }
    ensures fault { IsErrOf result ReadFail.Fault → AllRose (S.faults shelf.old) (S.faults shelf.new) }
    ensures chosen { S.chosen shelf.new ≡ true }
    ensures held { (other : List ℕ) → S.held shelf.new other ≡ S.held shelf.old other }
    ensures faults { NeverFall (S.faults shelf.old) (S.faults shelf.new) }
{
    make_room(bytes, filled, most)?;
    take_behind(shelf, bytes.as_mut_slice(), filled)
}

// Takes the next bytes of the chosen name into `bytes` from a place on.
fn take_behind<S: Shelf>(shelf: &mut S, bytes: &mut [u8], place: usize) -> Result<usize, ReadFail>
    requires chosen { S.chosen shelf.old ≡ true }
    requires room { place < length bytes.old }
    ensures front { take place bytes.new ≡ take place bytes.old }
    ensures within { IfOk result (λ k. place + k ≤ length bytes.new) }
    ensures taken { IfOk result (λ k.
        Consumes (S.left shelf.old) (S.left shelf.new) (take k (drop place bytes.new))) }
    ensures end { IfOk result (λ k. k ≡ 0 → IsAtEnd (S.left shelf.new)) }
    ensures failure { OnErr result (IsErrOf result ReadFail.Fault) }
    ensures fault { OnErr result (AllRose (S.faults shelf.old) (S.faults shelf.new)) }
    ensures chosen { S.chosen shelf.new ≡ true }
    ensures held { (other : List ℕ) → S.held shelf.new other ≡ S.held shelf.old other }
    ensures faults { NeverFall (S.faults shelf.old) (S.faults shelf.new) }
{
    match shelf.take(&mut bytes[place..]) {
        Ok(count) => Ok(count),
        Err(ShelfFault) => Err(ReadFail::Fault),
    }
}

// Makes the bytes longer than `filled`, by zeros, and no longer than `most`. What an earlier piece left unfilled stays.
// The capacity doubles, so all copying is in proportion to the bytes.
fn make_room(bytes: &mut Vec<u8>, filled: usize, most: usize) -> Result<(), AllocError>
    requires filled { filled ≤ vec_len bytes.old }
    requires room { filled < most }
    requires few { vec_len bytes.old ≤ most }
    ensures longer { OnOk result (filled < vec_len bytes.new) }
    ensures within { filled ≤ vec_len bytes.new }
    ensures front { take filled bytes.new.items ≡ take filled bytes.old.items }
    ensures few { vec_len bytes.new ≤ most }
{
    if filled < bytes.len() {
        return Ok(());
    }
    let left = most - filled;
    let piece = filled.clamp(FIRST_PIECE, LONGEST_PIECE).min(left);
    if bytes.capacity() < filled + piece {
        bytes.reserve_exact(filled.max(piece).min(left))?;
    }
    bytes.resize(filled + piece, 0)
}
