// A shelf and a sink in memory, whose calls fail where they are told to.
ghost use Rattle.std.specs.Prelude.{◌≡◌, ℕ, ◌+◌, ◌<◌, ◌≤◌, ◌==◌, ◌&&◌, ◌||◌, List, [], ◌++◌, length, take, drop, Some, vec_len, vec_capacity, min, IfOk, IfSome, OnOk, OnErr, IsErr, is_err, true, false, nat_lt, slice_get, MatchOption, ◌^◌};
ghost use Rattle.std.specs.Io.{ReadsAtMost, WritesAtMost};
ghost use Rattle.std.specs.Io.KnownBytes.{ReadConsumes, WriteAppends};
ghost use Rattle.rwsp_io.specs.Told.{Missing, told_bytes, is_missing, Rose, NeverFall, AllRose};
ghost use Rattle.test_helpers.specs.Files.{file_of, bytes_from, IsFileAt};
ghost use Rattle.test_helpers.specs.CallPlan.{next_fails, after_call};

use crate::failing_calls::Calls;
use rwsp_io::{Shelf, ShelfFault, Sink, SinkFault};
use std::alloc::{AllocError, Global};

/// Named files in memory. Where two have one name, the first of them is held under it.
///
/// A take gives at most `step` bytes. The calls of `choose` and `take` whose numbers are listed fail, counted together
/// from 1, except a `take` of an empty piece, and so does a `choose` of a name that is not held; no other call does.
/// All names are counted together.
#[derive(Drop)]
pub struct MemoryShelf {
    files: Vec<(String, Vec<u8>)>,
    step: usize,
    calls: Calls,
    at: Option<(usize, usize)>,
    faults: u64,
    ghost steps: { 0 < step },
}

impl MemoryShelf {
    ghost use Rattle.test_helpers.specs.MemoryForms.{shelf_held, shelf_chosen, shelf_faults, shelf_calls, shelf_step};

    /// A shelf that holds these files, with nothing chosen and no fault counted. `failing` lists the calls that fail.
    pub fn new(files: Vec<(String, Vec<u8>)>, step: usize, failing: Vec<u64>) -> MemoryShelf
        requires { 0 < step }
        ensures held { shelf_held result ≡ file_of files.items }
        ensures chosen { shelf_chosen result ≡ false }
        ensures faults { (name : List ℕ) → shelf_faults result name ≡ 0 }
        ensures calls { shelf_calls result ≡ record { failing = failing.items; made = 0 } }
        ensures step { shelf_step result ≡ step }
    {
        MemoryShelf {
            files,
            step,
            calls: Calls::new(failing),
            at: None,
            faults: 0,
        }
    }
}

// Where the file with the name is.
fn place_of(files: &[(String, Vec<u8>)], name: &str) -> Option<usize>
    ensures { MatchOption result (file_of files.now name.now ≡ Missing) (IsFileAt files.now name.now) }
{
    for (i, file) in files.iter().enumerate() {
        if file.0.as_str() == name {
            return Some(i);
        }
    }
    None
}

// The bytes of the file at a place from an index on.
fn rest_of(files: &[(String, Vec<u8>)], place: usize, from: usize) -> &[u8]
    ensures rest { IfSome (bytes_from (slice_get files.now place) from) (λ rest. result.now ≡ rest) }
    ensures fits { from + length result.now < 2 ^ 64 }
{
    let Some(file) = files.get(place) else {
        return &[];
    };
    if from <= file.1.len() {
        &file.1[from..]
    } else {
        &[]
    }
}

// Copies the front of the bytes to the front of the piece, at most a step of them, and gives their number.
fn give(rest: &[u8], step: usize, piece: &mut [u8]) -> usize
    requires { 0 < step }
    ensures count { result ≡ min (min (length rest.now) (length piece.new)) step }
    ensures bytes { rest.now ≡ take result piece.new ++ drop result rest.now }
    ensures end { result ≡ 0 → 0 < length piece.new → rest.now ≡ [] }
{
    let count = rest.len().min(piece.len()).min(step);
    piece[..count].copy_from_slice(&rest[..count]);
    count
}

impl MemoryShelf {
    // Counts a fault.
    fn fault(&mut self) -> ShelfFault
        ensures same { self.new ≡ record self.old { faults = self.new.faults } }
        ensures rose { Rose self.old.faults self.new.faults × (self.old.faults ≤ self.new.faults) }
    {
        self.faults = self.faults.saturating_add(1);
        ShelfFault
    }
}

impl Shelf for MemoryShelf {
    ghost use Rattle.test_helpers.specs.MemoryForms.{shelf_held, shelf_chosen, shelf_left, shelf_faults, shelf_calls, shelf_step};

    ghost held = { shelf_held };

    ghost chosen = { shelf_chosen };

    ghost left = { shelf_left };

    ghost faults = { shelf_faults };

    fn choose(&mut self, name: &str) -> Result<(), ShelfFault>
        ensures chosen { OnOk result (shelf_chosen self.new ≡ true) }
        ensures unchosen { OnErr result (shelf_chosen self.new ≡ false) }
        ensures left { OnOk result (shelf_left self.new ≡ told_bytes (shelf_held self.old name.now)) }
        ensures missing { shelf_held self.old name.now ≡ Missing → IsErr result }
        ensures held { (other : List ℕ) → shelf_held self.new other ≡ shelf_held self.old other }
        ensures faults { NeverFall (shelf_faults self.old) (shelf_faults self.new) }
        ensures cause { OnErr result
            (Rose (shelf_faults self.old name.now) (shelf_faults self.new name.now)) }

        // Which calls fail.
        ensures exact { is_err result ≡ (next_fails (shelf_calls self.old)
            || is_missing (shelf_held self.old name.now)) }
        ensures counted { shelf_calls self.new ≡ after_call (shelf_calls self.old) }
        ensures step { shelf_step self.new ≡ shelf_step self.old }
    {
        self.at = None;
        if self.calls.next_fails() {
            return Err(self.fault());
        }
        let Some(place) = place_of(&self.files, name) else {
            return Err(self.fault());
        };
        self.at = Some((place, 0));
        Ok(())
    }

    fn take(&mut self, piece: &mut [u8]) -> Result<usize, ShelfFault>
        requires { shelf_chosen self.old ≡ true }
        ensures bound { ReadsAtMost result piece.new }
        ensures bytes { ReadConsumes (shelf_left self.old) (shelf_left self.new) result piece.new }
        ensures empty { length piece.new ≡ 0 → result ≡ Ok 0 }
        ensures chosen { shelf_chosen self.new ≡ true }
        ensures held { (other : List ℕ) → shelf_held self.new other ≡ shelf_held self.old other }
        ensures faults { NeverFall (shelf_faults self.old) (shelf_faults self.new) }
        ensures cause { OnErr result (AllRose (shelf_faults self.old) (shelf_faults self.new)) }

        // Which calls fail, and how many bytes the others give.
        ensures exact { is_err result ≡ (next_fails (shelf_calls self.old) && nat_lt 0 (length piece.new)) }
        ensures count { IfOk result (λ k. IfSome (shelf_left self.old)
            (λ rest. k ≡ min (min (length rest) (length piece.new)) (shelf_step self.old))) }
        ensures counted { shelf_calls self.new ≡ after_call (shelf_calls self.old) }
        ensures step { shelf_step self.new ≡ shelf_step self.old }
    {
        if self.calls.next_fails() && !piece.is_empty() {
            return Err(self.fault());
        }
        let Some((place, from)) = self.at else {
            unreachable!();
        };
        let count = give(rest_of(&self.files, place, from), self.step, piece);
        self.at = Some((place, from + count));
        Ok(count)
    }
}

/// The bytes that were put, up to a room.
///
/// A put takes at most `step` bytes. The calls of `put` whose numbers are listed fail, counted from 1, and so does a
/// put of a piece that is not empty where no room is left; no other call does.
#[derive(Drop)]
pub struct MemorySink {
    bytes: Vec<u8>,
    room: usize,
    step: usize,
    calls: Calls,
    faults: u64,
    ghost steps: { 0 < step },
    ghost fits: { vec_len bytes + room ≤ vec_capacity bytes },
}

impl MemorySink {
    ghost use Rattle.test_helpers.specs.MemoryForms.{sink_got, sink_faults, sink_calls, sink_room, sink_step};

    /// A sink with room for `room` bytes, that has got none and counted no fault. `failing` lists the calls that fail.
    pub fn new(
        alloc: Global,
        room: usize,
        step: usize,
        failing: Vec<u64>,
    ) -> Result<MemorySink, AllocError>
        requires { 0 < step }
        ensures got { IfOk result (λ s. sink_got s ≡ Some []) }
        ensures faults { IfOk result (λ s. sink_faults s ≡ 0) }
        ensures calls { IfOk result (λ s. sink_calls s ≡ record { failing = failing.items; made = 0 }) }
        ensures room { IfOk result (λ s. sink_room s ≡ room) }
        ensures step { IfOk result (λ s. sink_step s ≡ step) }
    {
        Ok(MemorySink {
            bytes: Vec::with_capacity(alloc, room)?,
            room,
            step,
            calls: Calls::new(failing),
            faults: 0,
        })
    }

    /// The bytes that were put, in order.
    pub fn bytes(&self) -> &[u8]
        ensures { sink_got self.now ≡ Some result.now }
    {
        &self.bytes
    }
}

impl Sink for MemorySink {
    ghost use Rattle.test_helpers.specs.MemoryForms.{sink_got, sink_faults, sink_calls, sink_room, sink_step};

    ghost got = { sink_got };

    ghost faults = { sink_faults };

    fn put(&mut self, piece: &[u8]) -> Result<usize, SinkFault>
        ensures bound { WritesAtMost result piece.now }
        ensures some { 0 < length piece.now → IfOk result (λ k. 0 < k) }
        ensures bytes { WriteAppends (sink_got self.old) (sink_got self.new) result piece.now }
        ensures faults { sink_faults self.old ≤ sink_faults self.new }
        ensures cause { OnErr result (Rose (sink_faults self.old) (sink_faults self.new)) }

        // Which calls fail, and how many bytes the others take.
        ensures exact { is_err result ≡ (next_fails (sink_calls self.old)
            || (sink_room self.old == 0 && nat_lt 0 (length piece.now))) }
        ensures count { IfOk result (λ k.
            k ≡ min (min (length piece.now) (sink_room self.old)) (sink_step self.old)) }
        ensures room { IfOk result (λ k. sink_room self.new + k ≡ sink_room self.old) }
        ensures full { OnErr result (sink_room self.new ≡ sink_room self.old) }
        ensures counted { sink_calls self.new ≡ after_call (sink_calls self.old) }
        ensures step { sink_step self.new ≡ sink_step self.old }
    {
        if self.calls.next_fails() || (self.room == 0 && !piece.is_empty()) {
            self.faults = self.faults.saturating_add(1);
            return Err(SinkFault);
        }
        let count = piece.len().min(self.room).min(self.step);
        let MemorySink { bytes, room, .. } = self;
        *room -= count;
        match bytes.extend_from_slice(&piece[..count]) {
            Ok(()) => Ok(count),
            Err(_) => unreachable!(),
        }
    }
}
