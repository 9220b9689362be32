// A sink that bytes are put into.
ghost use Rattle.std.specs.Prelude.{ℕ, ◌<◌, ◌≤◌, List, length, take, Option, IfOk, OnOk, OnErr, IsOk};
ghost use Rattle.std.specs.Io.{WritesAtMost};
ghost use Rattle.std.specs.Io.KnownBytes.{WriteAppends, Appends};
ghost use Rattle.rwsp_io.specs.Told.{Rose};

/// Bytes could not be put.
#[derive(Clone, Copy, Debug, PartialEq, Eq)]
pub struct SinkFault;

/// A text was not written whole.
#[derive(Clone, Copy, Debug, PartialEq, Eq)]
pub struct WriteFault;

/// Takes bytes a piece at a time.
///
/// It counts its faults in a `u64`, and a count that is at its last value, 2^64 - 1, counts as risen by every
/// fault.
pub trait Sink {
    /// The bytes that it got, where they are known.
    ghost got: { Self → Option (List ℕ) };

    /// How often it has failed.
    ghost faults: { Self → ℕ };

    /// Puts the first bytes of a piece and gives their number, which is at least 1 unless the piece is empty. After a
    /// fault no byte was put.
    fn put(&mut self, piece: &[u8]) -> Result<usize, SinkFault>
        ensures bound { WritesAtMost result piece.now }
        ensures some { 0 < length piece.now → IfOk result (λ k. 0 < k) }
        ensures bytes { WriteAppends (got self.old) (got self.new) result piece.now }
        ensures faults { faults self.old ≤ faults self.new }
        ensures cause { OnErr result (Rose (faults self.old) (faults self.new)) };
}

/// Puts all bytes, or a prefix of them where the sink failed. It takes no memory.
pub fn write_all<K: Sink>(sink: &mut K, bytes: &[u8]) -> Result<(), WriteFault>
    ensures ok { OnOk result (Appends (K.got sink.old) (K.got sink.new) bytes.now) }
    ensures prefix { OnErr result ((n : ℕ) × (n ≤ length bytes.now)
        × Appends (K.got sink.old) (K.got sink.new) (take n bytes.now)) }
    ensures faults { K.faults sink.old ≤ K.faults sink.new }
    ensures cause { OnErr result (Rose (K.faults sink.old) (K.faults sink.new)) }
    ensures whole { ¬ Rose (K.faults sink.old) (K.faults sink.new) → IsOk result }
{
    let mut put = 0;
    while put < bytes.len() {
        let Ok(count) = sink.put(&bytes[put..]) else {
            return Err(WriteFault);
        };
        put += count;
    }
    Ok(())
}
