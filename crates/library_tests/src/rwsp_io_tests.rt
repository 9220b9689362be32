// Faults in mid-stream, and the system's files. What is read and written where no call fails, the clauses say.
ghost use Rattle.std.specs.Prelude.{◌<◌};

use rwsp_io::{
    ReadFail, RealShelf, RealSink, ShelfFault, SinkFault, WriteFault, read_again, read_all,
    write_again, write_all,
};
use std::alloc::{AllocError, Global};
use std::io::{ErrorKind, Read, Write};
use std::test::Fail;
use std::{env, fs, io, process};
use test_helpers::{MemoryShelf, MemorySink};

// A shelf with one file, which gives `step` bytes at a time, and whose call with this number fails.
fn shelf_of(
    alloc: Global,
    bytes: &[u8],
    step: usize,
    failing: u64,
) -> Result<MemoryShelf, AllocError>
    requires { 0 < step }
{
    let file = (String::from_str(alloc, "F")?, bytes.to_vec(alloc)?);
    let failing = vec![in alloc; failing]?;
    Ok(MemoryShelf::new(vec![in alloc; file]?, step, failing))
}

#[test]
fn each_refused_call_is_a_fault(rt: HostRuntime) -> Result<(), Fail> {
    let alloc = rt.alloc();
    let text = b"abcdefghijklmnopqrst".as_slice();
    // One call chooses, three take 7, 7 and 6 bytes, and one meets the end.
    for k in 1..6u64 {
        let mut shelf = shelf_of(alloc, text, 7, k)?;
        assert!(rt; matches!(read_all(alloc, &mut shelf, "F", 20), Err(ReadFail::Fault)));
    }
    let mut shelf = shelf_of(alloc, text, 7, 6)?;
    let read = read_all(alloc, &mut shelf, "F", 20).expect(&rt, "it is read");
    assert_eq!(rt; read.as_slice(), text);
    Ok(())
}

#[test]
fn a_long_file_is_read_in_pieces(rt: HostRuntime) -> Result<(), Fail> {
    let alloc = rt.alloc();
    let mut bytes = vec![in alloc; b'a'; 300_000]?;
    bytes.extend_from_slice(b"end")?;
    let mut shelf = shelf_of(alloc, bytes.as_slice(), 70_000, 0)?;
    let read = read_all(alloc, &mut shelf, "F", 400_000).expect(&rt, "it is read");
    assert!(rt; read.as_slice() == bytes.as_slice());
    Ok(())
}

#[test]
fn a_file_may_be_as_long_as_the_limit(rt: HostRuntime) -> Result<(), Fail> {
    let alloc = rt.alloc();
    let mut shelf = shelf_of(alloc, b"ten bytes.", 4, 0)?;
    let read = read_all(alloc, &mut shelf, "F", 10).expect(&rt, "it is read");
    assert_eq!(rt; read.as_slice(), b"ten bytes.".as_slice());
    let mut shelf = shelf_of(alloc, b"ten and one", 4, 0)?;
    assert!(rt; matches!(read_all(alloc, &mut shelf, "F", 10), Err(ReadFail::TooLong)));
    Ok(())
}

// Whether a sink with this much room, which takes a byte at a time, and whose call with this number fails, is left with
// what is wanted where the text is written.
fn leaves(
    alloc: Global,
    room: usize,
    failing: u64,
    text: &[u8],
    want: Result<(), WriteFault>,
    written: &[u8],
) -> Result<[bool; 2], AllocError> {
    let mut sink = MemorySink::new(alloc, room, 1, vec![in alloc; failing]?)?;
    let is_wanted = write_all(&mut sink, text) == want;
    Ok([is_wanted, sink.bytes() == written])
}

#[test]
fn a_fault_leaves_a_prefix_written(rt: HostRuntime) -> Result<(), Fail> {
    let text = b"meets\n".as_slice();
    for (room, failing, want) in [
        (6, 0, Ok(())),
        (3, 0, Err(WriteFault)),
        (6, 4, Err(WriteFault)),
    ] {
        let written = if want.is_ok() {
            text
        } else {
            b"mee".as_slice()
        };
        let found = leaves(rt.alloc(), room, failing, text, want, written)?;
        assert_eq!(rt; found, [true, true]);
    }
    Ok(())
}

#[test]
fn files_of_the_system_are_read(rt: HostRuntime) -> Result<(), Fail> {
    let alloc = rt.alloc();
    let folder = env::temp_dir(&rt)?;
    let path = format!(in alloc; "{}/rwsp_io_{}", folder.as_str(), process::id(rt.process()))?;
    fs::write(&rt, path.as_str(), "meets\n")?;
    let mut shelf = RealShelf::new(&rt);
    let read = read_all(alloc, &mut shelf, path.as_str(), 6);
    let long = read_all(alloc, &mut shelf, path.as_str(), 5);
    fs::remove_file(&rt, path.as_str())?;
    assert_eq!(rt;
        read.expect(&rt, "it is read").as_slice(),
        b"meets\n".as_slice()
    );
    assert!(rt; matches!(long, Err(ReadFail::TooLong)));
    for name in [path.as_str(), folder.as_str()] {
        assert!(rt; matches!(read_all(alloc, &mut shelf, name, 6), Err(ReadFail::Fault)));
    }
    Ok(())
}

#[test]
fn standard_output_takes_a_text(rt: HostRuntime) -> Result<(), Fail> {
    let mut sink = RealSink::new(&rt);
    assert_eq!(rt; write_all(&mut sink, b"written\n".as_slice()), Ok(()));
    Ok(())
}

// A call that a signal interrupts, which no file or memory shelf can be made to do.
// Fails `times` times with this kind of error; then it is at its end, and takes whatever is written.
#[derive(Drop)]
struct Failing {
    kind: ErrorKind,
    times: u32,
}

impl Failing {
    fn call(&mut self) -> io::Result<()> {
        if self.times == 0 {
            return Ok(());
        }
        self.times -= 1;
        Err(io::Error::from(self.kind))
    }
}

impl Read for Failing {
    fn read(&mut self, _piece: &mut [u8]) -> io::Result<usize> {
        self.call()?;
        Ok(0)
    }
}

impl Write for Failing {
    fn write(&mut self, piece: &[u8]) -> io::Result<usize> {
        self.call()?;
        Ok(piece.len())
    }

    fn flush(&mut self) -> io::Result<()> {
        Ok(())
    }
}

#[test]
fn an_interrupted_call_is_made_again(rt: HostRuntime) -> Result<(), Fail> {
    let piece = &mut [0u8; 3];
    for times in 0..3u32 {
        let kind = ErrorKind::Interrupted;
        assert_eq!(rt; read_again(&mut Failing { kind, times }, piece), Ok(0));
        assert_eq!(rt; write_again(&mut Failing { kind, times }, piece), Ok(3));
    }
    let kind = ErrorKind::Other;
    let times = 1;
    assert_eq!(rt;
        read_again(&mut Failing { kind, times }, piece),
        Err(ShelfFault)
    );
    assert_eq!(rt;
        write_again(&mut Failing { kind, times }, piece),
        Err(SinkFault)
    );
    Ok(())
}
