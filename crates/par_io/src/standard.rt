//! A source over a reader of std and a sink over a writer of std: the edge to the system.
//!
//! No clause can say what a stream gives or takes, so these say nothing of the bytes. They keep the count of faults:
//! each error of the reader, the writer or a flush raises it by one.

ghost use Rattle.std.specs.Prelude.{◌<◌, ◌≤◌, IfSome, length, take};
ghost use Rattle.std.specs.Io.KnownBytes.{Appends};

use crate::{Failed, Sink, Source};
use std::io::{Read, Write};

/// A source over a reader. It says nothing of the bytes.
#[derive(Drop)]
pub struct StdSource<R> {
    reader: R,
    faults: u64,
}

impl<R: Read> StdSource<R> {
    ghost use Rattle.std.specs.Prelude.{◌≡◌};
    ghost use Rattle.par_io.specs.OverStd.{reader_of, read_faults};

    /// A source over this reader, with no fault so far.
    pub fn new(reader: R) -> StdSource<R>
        ensures reader { reader_of result ≡ reader }
        ensures faults { read_faults result ≡ 0 }
    {
        StdSource { reader, faults: 0 }
    }
}

impl<R: Read> Source for StdSource<R> {
    ghost use Rattle.std.specs.Prelude.{◌≡◌, ◌<◌, None, length};
    ghost use Rattle.std.specs.Io.{ReadsAtMost};
    ghost use Rattle.std.specs.Io.KnownBytes.{ReadConsumes};
    ghost use Rattle.par_io.specs.Faults.{HasCause, counted};
    ghost use Rattle.par_io.specs.OverStd.{reader_of, read_faults};

    ghost left = { λ s. None };

    ghost faults = { read_faults };

    /// One read of the reader. Each error of the reader, an interruption too, is a fault.
    fn read(&mut self, buf: &mut [u8]) -> Result<usize, Failed>
        requires room { 0 < length buf.old }
        ensures bound { ReadsAtMost result buf.new }
        ensures bytes { ReadConsumes None None result buf.new }
        ensures cause { HasCause (read_faults self.old) (read_faults self.new) result }

        // A fault is counted for each failed call, and for nothing else.
        ensures counted { read_faults self.new ≡ counted (read_faults self.old) result }

        // If the reader says what its bytes are, as one over memory does, they come from it in order.
        ensures through { ReadConsumes (R.remaining (reader_of self.old)) (R.remaining (reader_of self.new)) result buf.new }
    {
        match self.reader.read(buf) {
            Ok(count) => Ok(count),
            Err(_) => {
                self.faults = self.faults.saturating_add(1);
                Err(Failed)
            }
        }
    }
}

/// A sink over a writer. It says nothing of the bytes.
#[derive(Drop)]
pub struct StdSink<W> {
    writer: W,
    faults: u64,
}

impl<W: Write> StdSink<W> {
    ghost use Rattle.std.specs.Prelude.{◌≡◌};
    ghost use Rattle.par_io.specs.OverStd.{writer_of, write_faults};

    /// A sink over this writer, with no fault so far.
    pub fn new(writer: W) -> StdSink<W>
        ensures writer { writer_of result ≡ writer }
        ensures faults { write_faults result ≡ 0 }
    {
        StdSink { writer, faults: 0 }
    }
}

impl<W: Write> Sink for StdSink<W> {
    ghost use Rattle.std.specs.Prelude.{◌≡◌, ◌<◌, IfOk, None, length, take};
    ghost use Rattle.std.specs.Io.{WritesAtMost};
    ghost use Rattle.std.specs.Io.KnownBytes.{Appends, WriteAppends};
    ghost use Rattle.par_io.specs.Faults.{HasCause, counted};
    ghost use Rattle.par_io.specs.OverStd.{writer_of, write_faults};

    ghost taken = { λ s. None };

    ghost faults = { write_faults };

    /// One write of the writer, and a flush. An error of either, and a write that takes nothing, is
    /// a fault; after a failed flush the writer may hold what it took.
    fn write(&mut self, piece: &[u8]) -> Result<usize, Failed>
        requires some { 0 < length piece.now }
        ensures bound { WritesAtMost result piece.now }
        ensures takes { IfOk result (λ n. 0 < n) }
        ensures bytes { WriteAppends None None result piece.now }
        ensures cause { HasCause (write_faults self.old) (write_faults self.new) result }

        // A fault is counted for each failed call, and for nothing else.
        ensures counted { write_faults self.new ≡ counted (write_faults self.old) result }

        // If the writer says what its bytes are, as one over memory does, it has taken these.
        ensures through { IfOk result (λ n. Appends (W.contents (writer_of self.old)) (W.contents (writer_of self.new)) (take n piece.now)) }
    {
        match written_through(&mut self.writer, piece) {
            Some(count) => Ok(count),
            None => {
                self.faults = self.faults.saturating_add(1);
                Err(Failed)
            }
        }
    }
}

/// How many bytes one write took and a flush passed on, or none if either failed.
fn written_through<W: Write>(writer: &mut W, piece: &[u8]) -> Option<usize>
    ensures some { IfSome result (λ n. 0 < n) }
    ensures bound { IfSome result (λ n. n ≤ length piece.now) }
    ensures written { IfSome result (λ n. Appends (W.contents writer.old) (W.contents writer.new) (take n piece.now)) }
{
    match writer.write(piece) {
        Ok(count) if count > 0 => writer.flush().is_ok().then_some(count),
        _ => None,
    }
}
