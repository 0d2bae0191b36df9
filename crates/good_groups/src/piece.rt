//! A piece of a source.

ghost use Rattle.std.specs.Prelude.{◌≡◌, ◌==◌, ◌≤◌, IfOk, OnErr, OnOk, [], drop, false, length};
ghost use Rattle.std.specs.Io.KnownBytes.{Consumes, IsAtEnd, Keeps};
ghost use Rattle.par_io.specs.Faults.{HasCause};

use par_io::{Failed, Source};
use std::alloc::AllocError;
use std::marker::Model;

/// The room for a piece.
const ROOM: usize = 65_536;

/// Bytes that were read of a source and are not looked at yet, and room for others. Contracts see the bytes as a list.
#[derive(Drop)]
pub(crate) struct Piece {
    bytes: Vec<u8>,
    from: usize,
    upto: usize,
}

impl Model for Piece {
    ghost use Rattle.std.specs.Prelude.{◌≤◌, ◌<◌, ◌-◌, ℕ, List, drop, take, vec_len};

    ghost Value = { List ℕ };

    ghost view = { λ p. take (p.upto - p.from) (drop p.from p.bytes.items) };

    ghost invariant = { λ p. (p.from ≤ p.upto) × (p.upto ≤ vec_len p.bytes) × (0 < vec_len p.bytes) };
}

impl Piece {
    /// These bytes.
    pub(crate) fn new(mut bytes: Vec<u8>) -> Result<Piece, AllocError>
        ensures { IfOk result (λ piece. piece ≡ bytes.items) }
    {
        let upto = bytes.len();
        bytes.resize(upto.max(ROOM), 0)?;
        Ok(Piece {
            bytes,
            from: 0,
            upto,
        })
    }

    /// The bytes.
    pub(crate) fn left(&self) -> &[u8]
        ensures { result.now ≡ self.now }
    {
        &self.bytes.as_slice()[self.from..self.upto]
    }

    /// Whether there are none.
    pub(crate) fn is_empty(&self) -> bool
        ensures { result ≡ (length self.now == 0) }
    {
        self.from == self.upto
    }

    /// Leaves out the first ones.
    pub(crate) fn skip(&mut self, count: usize)
        requires { count ≤ length self.old }
        ensures { self.new ≡ drop count self.old }
    {
        self.from += count;
    }

    /// Reads other bytes of a source in place of these, and says whether there are any. If that fails there are none.
    pub(crate) fn read<S: Source>(&mut self, source: &mut S) -> Result<bool, Failed>
        ensures read { OnOk result (Consumes (S.left source.old) (S.left source.new) self.new) }
        ensures end { IfOk result (λ some. some ≡ false → (self.new ≡ []) × IsAtEnd (S.left source.new)) }
        ensures keeps { OnErr result (Keeps (S.left source.old) (S.left source.new)) }
        ensures none { OnErr result (self.new ≡ []) }
        ensures cause { HasCause (S.faults source.old) (S.faults source.new) result }
    {
        self.from = 0;
        self.upto = 0;
        let count = source.read(self.bytes.as_mut_slice())?;
        self.upto = count;
        Ok(count > 0)
    }
}
