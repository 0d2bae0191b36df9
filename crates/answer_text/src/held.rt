//! Bytes on their way to a sink: small pieces wait in a buffer, and go on together. Its memory is taken when it is
//! made, so what was begun is never broken off because memory runs out. A failed write is remembered, and nothing goes
//! on after it, so a caller that puts many pieces may ask at the end.

ghost use Rattle.std.specs.Prelude.{◌≡◌, ◌++◌, [], IfOk, false, length, true};
ghost use Rattle.answer_text.specs.Held.{Puts};

use par_io::{Sink, write_whole};
use std::alloc::{AllocError, Global};
use std::marker::Model;

/// The bytes that wait, at most 65,536. Contracts see them, and whether a write has failed.
#[derive(Drop)]
pub struct Held {
    bytes: Vec<u8>,
    count: usize,
    is_broken: bool,
}

impl Model for Held {
    ghost use Rattle.std.specs.Prelude.{◌≤◌, length, take};
    ghost use Rattle.answer_text.specs.Held.{Waiting};

    ghost Value = { Waiting };

    ghost view = { λ h. record { bytes = take h.count h.bytes.items; is_broken = h.is_broken } };

    ghost invariant = { λ h. h.count ≤ length h.bytes.items };
}

impl Held {
    /// A buffer in which no bytes wait. It takes the memory.
    pub fn new(alloc: Global) -> Result<Held, AllocError>
        ensures empty { IfOk result (λ held. held.bytes ≡ []) }
        ensures whole { IfOk result (λ held. held.is_broken ≡ false) }
    {
        let bytes = vec![in alloc; 0u8; 65_536]?;
        Ok(Held {
            bytes,
            count: 0,
            is_broken: false,
        })
    }

    /// Whether a write has failed.
    pub fn is_broken(&self) -> bool
        ensures { result ≡ self.now.is_broken }
    {
        self.is_broken
    }

    /// Puts a piece after the bytes that wait, or writes them and the piece if there is no room.
    pub fn put<O: Sink>(&mut self, out: &mut O, piece: &[u8])
        ensures { Puts O.taken O.faults out.old out.new self.old self.new piece.now }
    {
        if !self.keep(piece) {
            self.pass_on(out);
            self.write(out, piece);
        }
    }

    /// Writes the bytes that wait.
    pub fn pass_on<O: Sink>(&mut self, out: &mut O)
        ensures puts { Puts O.taken O.faults out.old out.new self.old self.new [] }
        ensures none { self.new.is_broken ≡ false → self.new.bytes ≡ [] }
    {
        if !self.is_broken {
            self.is_broken = write_whole(out, &self.bytes[..self.count]).is_err();
            self.count = 0;
        }
    }

    /// Writes a piece when no bytes wait.
    fn write<O: Sink>(&mut self, out: &mut O, piece: &[u8])
        requires { self.old.is_broken ≡ false → self.old.bytes ≡ [] }
        ensures { Puts O.taken O.faults out.old out.new self.old self.new piece.now }
    {
        if !self.is_broken {
            self.is_broken = write_whole(out, piece).is_err();
        }
    }

    /// Keeps a piece if there is room, and returns whether there was.
    fn keep(&mut self, piece: &[u8]) -> bool
        ensures kept { result ≡ true → self.new.bytes ≡ self.old.bytes ++ piece.now }
        ensures same { result ≡ false → self.new ≡ self.old }
        ensures broken { self.new.is_broken ≡ self.old.is_broken }
    {
        if piece.len() > self.bytes.len() - self.count {
            return false;
        }
        let end = self.count + piece.len();
        self.bytes[self.count..end].copy_from_slice(piece);
        self.count = end;
        true
    }
}
