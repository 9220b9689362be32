// Reads and writes that are made again where a signal interrupts them. The system says then that nothing was moved.
ghost use Rattle.std.specs.Io.{ReadsAtMost, WritesAtMost};
ghost use Rattle.std.specs.Io.KnownBytes.{ReadConsumes, WriteAppends};

use crate::{ShelfFault, SinkFault};
use std::io::{ErrorKind, Read, Write};

/// The next bytes of a reader, at the front of the piece, and their number, which is 0 where there are none or no room
/// for one. Gives a fault where the reader fails, unless a signal interrupted it.
pub fn read_again<F: Read>(reader: &mut F, piece: &mut [u8]) -> Result<usize, ShelfFault>
    ensures bound { ReadsAtMost result piece.new }
    ensures bytes { ReadConsumes (F.remaining reader.old) (F.remaining reader.new) result piece.new }
{
    for _ in 0..u64::MAX {
        match reader.read(piece) {
            Ok(count) => return Ok(count),
            Err(error) if error.kind() == ErrorKind::Interrupted => {}
            Err(_) => return Err(ShelfFault),
        }
    }
    Err(ShelfFault)
}

/// Writes the first bytes of the piece, and gives their number. Gives a fault where the writer fails, unless a signal
/// interrupted it.
pub fn write_again<W: Write>(writer: &mut W, piece: &[u8]) -> Result<usize, SinkFault>
    ensures bound { WritesAtMost result piece.now }
    ensures bytes { WriteAppends (W.contents writer.old) (W.contents writer.new) result piece.now }
{
    for _ in 0..u64::MAX {
        match writer.write(piece) {
            Ok(count) => return Ok(count),
            Err(error) if error.kind() == ErrorKind::Interrupted => {}
            Err(_) => return Err(SinkFault),
        }
    }
    Err(SinkFault)
}
