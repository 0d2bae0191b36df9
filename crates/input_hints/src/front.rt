//! The first bytes of a source: read to be looked at, and kept until they are given.

ghost use Rattle.std.specs.Prelude.{◌≡◌, ◌==◌, ◌+◌, ◌≤◌, ◌<◌, ◌++◌, [], IfOk, OnErr, drop, false, length, min, take};
ghost use Rattle.std.specs.Io.KnownBytes.{Consumes, IsAtEnd, Keeps, prepend_known};
ghost use Rattle.par_io.specs.Faults.{HasCause};

use par_io::{Failed, Source};
use std::marker::Model;

/// Bytes that were read and not given yet, at most sixteen. Contracts see them as a list.
#[derive(Drop)]
pub(crate) struct Front {
    bytes: [u8; 16],
    count: usize,
}

impl Model for Front {
    ghost use Rattle.std.specs.Prelude.{◌≤◌, ℕ, List, take};

    ghost Value = { List ℕ };

    ghost view = { λ f. take f.count f.bytes };

    ghost invariant = { λ f. f.count ≤ 16 };
}

impl Front {
    /// No bytes.
    pub(crate) fn new() -> Front
        ensures { result ≡ [] }
    {
        Front {
            bytes: [0; 16],
            count: 0,
        }
    }

    /// The bytes.
    pub(crate) fn as_slice(&self) -> &[u8]
        ensures { result.now ≡ self.now }
    {
        &self.bytes[..self.count]
    }

    /// Whether there is no byte.
    pub(crate) fn is_empty(&self) -> bool
        ensures { result ≡ (length self.now == 0) }
    {
        self.count == 0
    }

    /// Whether there is no room for another byte.
    pub(crate) fn is_full(&self) -> bool
        ensures full { result ≡ (length self.now == 16) }
        ensures room { result ≡ false → length self.now < 16 }
    {
        self.count == 16
    }

    /// One read of a source into the room that is left: how many bytes came, which is 0 only at the end of the source.
    pub(crate) fn read<S: Source>(&mut self, source: &mut S) -> Result<usize, Failed>
        requires { length self.old < 16 }
        ensures kept { Keeps (prepend_known self.old (S.left source.old)) (prepend_known self.new (S.left source.new)) }
        ensures more { IfOk result (λ count. length self.new ≡ length self.old + count) }
        ensures end { IfOk result (λ count. count ≡ 0 → IsAtEnd (S.left source.new)) }
        ensures cause { HasCause (S.faults source.old) (S.faults source.new) result }
    {
        let count = read_at(source, &mut self.bytes, self.count)?;
        self.count += count;
        Ok(count)
    }

    /// Gives as many of the bytes as the buffer has room for, and returns how many.
    pub(crate) fn give(&mut self, buf: &mut [u8]) -> usize
        ensures bytes { self.old ≡ take result buf.new ++ self.new }
        ensures count { result ≡ min (length self.old) (length buf.old) }
        ensures room { length buf.new ≡ length buf.old }
    {
        let count = self.count.min(buf.len());
        buf[..count].copy_from_slice(&self.bytes[..count]);
        self.bytes.rotate_left(count);
        self.count -= count;
        count
    }
}

/// One read of a source into a buffer from a place on.
fn read_at<S: Source>(source: &mut S, buf: &mut [u8], at: usize) -> Result<usize, Failed>
    requires { at < length buf.old }
    ensures front { take at buf.new ≡ take at buf.old }
    ensures fits { IfOk result (λ n. at + n ≤ length buf.new) }
    ensures read { IfOk result (λ n. Consumes (S.left source.old) (S.left source.new) (take n (drop at buf.new))) }
    ensures end { IfOk result (λ n. n ≡ 0 → IsAtEnd (S.left source.new)) }
    ensures kept { OnErr result (Keeps (S.left source.old) (S.left source.new)) }
    ensures cause { HasCause (S.faults source.old) (S.faults source.new) result }
{
    source.read(&mut buf[at..])
}
