//! What no clause says: that the calls succeed, and what a stream of std does to the count.

ghost use Rattle.std.specs.Prelude.{◌<◌, ◌⊎◌, IfOk, OnErr, length, take};
ghost use Rattle.std.specs.Io.KnownBytes.{Appends, Consumes};
ghost use Rattle.par_io.specs.Faults.{Rose};

use par_io::{Failed, MemSink, MemSource, Sink, Source, StdSink, StdSource, write_whole};
use std::io;
use std::io::{ErrorKind, Read, Write};
use std::test::Fail;

/// Passes one piece of a source on to a sink, and answers how many bytes: the caller of CALLING.md.
fn pass_on<S: Source, O: Sink>(
    source: &mut S,
    sink: &mut O,
    buf: &mut [u8],
) -> Result<usize, Failed>
    requires { 0 < length buf.old }
    ensures read { IfOk result (λ n. Consumes (S.left source.old) (S.left source.new) (take n buf.new)) }
    ensures written { IfOk result (λ n. Appends (O.taken sink.old) (O.taken sink.new) (take n buf.new)) }
    ensures cause { OnErr result (Rose (S.faults source.old) (S.faults source.new) ⊎ Rose (O.faults sink.old) (O.faults sink.new)) }
{
    let count = source.read(buf)?;
    write_whole(sink, &buf[..count])?;
    Ok(count)
}

/// A sink takes small pieces up to its room, and its listed call fails.
#[test]
fn memory_sinks(rt: HostRuntime) -> Result<(), Fail> {
    let table: [(usize, usize, u64, bool, &str); 5] = [
        (2, 9, 0, true, "abcde"),
        (0, 5, 0, true, "abcde"),
        (2, 9, 2, false, "ab"),
        (9, 3, 0, false, "abc"),
        (9, 0, 0, false, ""),
    ];
    for (piece, room, fail, whole, taken) in table {
        let fail = vec![in rt.alloc(); fail]?;
        let mut sink = MemSink::new(rt.alloc(), piece, room, fail)?;
        let wrote = write_whole(&mut sink, b"abcde").is_ok();
        assert_eq!(rt; wrote, whole, "piece {piece}, room {room}");
        assert_eq!(rt;
            sink.written(),
            taken.as_bytes(),
            "piece {piece}, room {room}"
        );
    }
    Ok(())
}

/// A source gives small pieces, its listed call fails and takes nothing, and then it goes on.
#[test]
fn memory_sources(rt: HostRuntime) -> Result<(), Fail> {
    let bytes = Vec::from_slice(rt.alloc(), b"abcdefg")?;
    let fail = vec![in rt.alloc(); 2u64]?;
    let mut source = MemSource::new(bytes, 3, fail);
    let mut sink = MemSink::new(rt.alloc(), 1, 7, Vec::new(rt.alloc()))?;
    let mut buf = [0u8; 4];
    for want in [Some(3), None, Some(3), Some(1), Some(0)] {
        assert_eq!(rt; pass_on(&mut source, &mut sink, &mut buf).ok(), want);
    }
    assert_eq!(rt; sink.written(), b"abcdefg".as_slice());
    Ok(())
}

#[derive(Drop)]
struct Broken;

impl Read for Broken {
    fn read(&mut self, _buf: &mut [u8]) -> io::Result<usize> {
        Err(ErrorKind::Other.into())
    }
}

/// A writer that takes all and cannot pass it on.
impl Write for Broken {
    fn write(&mut self, buf: &[u8]) -> io::Result<usize> {
        Ok(buf.len())
    }

    fn flush(&mut self) -> io::Result<()> {
        Err(ErrorKind::BrokenPipe.into())
    }
}

/// A reader whose first call is interrupted, and whose later calls read on.
#[derive(Drop)]
struct Interrupted<'a> {
    has_failed: bool,
    rest: &'a [u8],
}

impl<'a> Read for Interrupted<'a> {
    fn read(&mut self, buf: &mut [u8]) -> io::Result<usize> {
        if !self.has_failed {
            self.has_failed = true;
            return Err(ErrorKind::Interrupted.into());
        }
        self.rest.read(buf)
    }
}

/// Each error of a reader is a fault, and takes no byte: none is passed over by another try.
#[test]
fn a_reader_that_fails_once(rt: HostRuntime) {
    let mut source = StdSource::new(Interrupted {
        has_failed: false,
        rest: b"ab",
    });
    let mut buf = [0u8; 3];
    assert!(rt; source.read(&mut buf).is_err());
    assert_eq!(rt; source.read(&mut buf).ok(), Some(2));
    assert_eq!(rt; buf, *b"ab\0");
    assert_eq!(rt; source.read(&mut buf).ok(), Some(0));
}

#[test]
fn a_reader_of_std(rt: HostRuntime) {
    let mut source = StdSource::new(b"abc".as_slice());
    let mut buf = [0u8; 2];
    assert_eq!(rt; source.read(&mut buf).ok(), Some(2));
    assert_eq!(rt; buf, *b"ab");
    assert_eq!(rt; source.read(&mut buf).ok(), Some(1));
    assert_eq!(rt; source.read(&mut buf).ok(), Some(0));
    assert!(rt; StdSource::new(Broken).read(&mut buf).is_err());
}

#[test]
fn a_writer_of_std(rt: HostRuntime) {
    let mut out = Vec::new(rt.alloc());
    let mut sink = StdSink::new(&mut out);
    assert!(rt; write_whole(&mut sink, b"abc").is_ok());
    assert_eq!(rt; out.as_slice(), b"abc".as_slice());
    let mut room = [0u8; 2];
    let mut short = StdSink::new(room.as_mut_slice());
    assert!(rt; write_whole(&mut short, b"abc").is_err());
    assert_eq!(rt; room, *b"ab");
    assert!(rt; StdSink::new(Broken).write(b"abc").is_err());
}
