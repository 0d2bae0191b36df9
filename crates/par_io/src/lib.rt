//! Sources and sinks of bytes that count their faults.
//!
//! A program that reads or writes through [`Source`] and [`Sink`] can say of each failed call whose fault it was: the
//! count of that object rose. Each object keeps one rule: its count never falls, and no call answers [`Failed`] unless
//! it raised the count (or the count is at its last value, 2^64 - 1). What a source has left and what a sink was given
//! are known only if they can be, as in memory; of the system's streams only the faults are known. [`read_whole`] reads
//! a source to its end, [`write_whole`] gives a sink all of some bytes.

#![tactic(auto)]

ghost use Rattle.std.specs.Prelude.{◌<◌, ◌≤◌, ℕ, List, IfOk, OnOk, OnErr, length, take};
ghost use Rattle.std.specs.declared.option.Option.{Option};
ghost use Rattle.std.specs.Io.{ReadsAtMost, WritesAtMost};
ghost use Rattle.std.specs.Io.KnownBytes.{Appends, ReadConsumes, WriteAppends};
ghost use Rattle.par_io.specs.Faults.{HasCause};

mod memory;
mod standard;
mod whole;

pub use memory::{MemSink, MemSource};
pub use standard::{StdSink, StdSource};
pub use whole::{NotWhole, read_whole};

/// A read or a write failed. The object that answers it has raised its count of faults.
#[derive(Debug, Drop)]
pub struct Failed;

/// What bytes are read from.
pub trait Source {
    // The bytes that are left, if they are known.
    ghost left: { Self → Option (List ℕ) };

    // How often a read has failed.
    ghost faults: { Self → ℕ };

    /// Reads the next bytes to the front of `buf` and answers how many; 0 is the end of the input.
    /// A failed read leaves what was left, and may be tried again.
    fn read(&mut self, buf: &mut [u8]) -> Result<usize, Failed>
        requires room { 0 < length buf.old }
        ensures bound { ReadsAtMost result buf.new }
        ensures bytes { ReadConsumes (left self.old) (left self.new) result buf.new }
        ensures cause { HasCause (faults self.old) (faults self.new) result };
}

/// What bytes are written to.
pub trait Sink {
    // The bytes that it was given, if they are known.
    ghost taken: { Self → Option (List ℕ) };

    // How often a write has failed.
    ghost faults: { Self → ℕ };

    /// Takes at least one byte from the front of `piece` and answers how many. A sink that can take none answers
    /// `Failed`; a failed write took nothing if the sink says what it was given.
    fn write(&mut self, piece: &[u8]) -> Result<usize, Failed>
        requires some { 0 < length piece.now }
        ensures bound { WritesAtMost result piece.now }
        ensures takes { IfOk result (λ n. 0 < n) }
        ensures bytes { WriteAppends (taken self.old) (taken self.new) result piece.now }
        ensures cause { HasCause (faults self.old) (faults self.new) result };
}

/// Writes all bytes, in as many calls as the sink needs and one after the other. After `Failed` the sink has taken a
/// prefix of them. If there are no bytes it makes no call.
pub fn write_whole<O: Sink>(sink: &mut O, bytes: &[u8]) -> Result<(), Failed>
    ensures whole { OnOk result (Appends (O.taken sink.old) (O.taken sink.new) bytes.now) }
    ensures prefix { OnErr result ((n : ℕ) × Appends (O.taken sink.old) (O.taken sink.new) (take n bytes.now)) }
    ensures cause { HasCause (O.faults sink.old) (O.faults sink.new) result }
{
    let mut at = 0;
    'pieces: while at < bytes.len() {
        match sink.write(&bytes[at..]) {
            Ok(count) => at += count,
            Err(failed) => return Err(failed),
        }
    }
    Ok(())
}
