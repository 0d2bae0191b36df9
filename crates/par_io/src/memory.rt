//! A source and a sink in memory, which move small pieces and fail at the calls that they are made to fail at.
//!
//! They serve as the system's streams if a run must be the same each time, or if a clause is to name every byte. A
//! call's number is fixed by the calls before it, so the model of each type says which call fails and what each call
//! moves.

ghost use Rattle.std.specs.Prelude.{◌≡◌, ◌<◌, ◌≤◌, ◌++◌, [], Some, IfOk, IsErr, IsTrue, ◌↔◌, drop, take, length, max, vec_len, vec_capacity};
ghost use Rattle.std.specs.Io.{ReadsAtMost, WritesAtMost};
ghost use Rattle.std.specs.Io.KnownBytes.{ReadConsumes, WriteAppends};
ghost use Rattle.par_io.specs.Faults.{HasCause};
ghost use Rattle.par_io.specs.InMemory.{Given, Kept, after_read, after_write, read_count, read_fails, write_count, write_fails};

use crate::{Failed, Sink, Source};
use std::alloc::{AllocError, Global};
use std::marker::Model;

/// Bytes in memory, given in small pieces, with reads that fail.
#[derive(Drop)]
pub struct MemSource {
    bytes: Vec<u8>,
    at: usize,
    piece: usize,
    fail: Vec<u64>,
    calls: u64,
    faults: u64,
}

impl Model for MemSource {
    ghost Value = { Given };

    ghost view = { λ s. record { left = drop s.at s.bytes.items; piece = s.piece; fail = s.fail.items; calls = s.calls; faults = s.faults } };

    ghost invariant = { λ s. (s.at ≤ vec_len s.bytes) × (0 < s.piece) };
}

impl MemSource {
    /// A source of these bytes. Each read gives at most `piece` of them, and one if `piece` is 0. The reads whose
    /// numbers, counted from 1, are in `fail` answer a failure.
    pub fn new(bytes: Vec<u8>, piece: usize, fail: Vec<u64>) -> MemSource
        ensures { result ≡ record { left = bytes.items; piece = max piece 1; fail = fail.items; calls = 0; faults = 0 } }
    {
        MemSource {
            bytes,
            at: 0,
            piece: piece.max(1),
            fail,
            calls: 0,
            faults: 0,
        }
    }
}

impl Source for MemSource {
    ghost left = { λ s. Some s.left };

    ghost faults = { λ s. s.faults };

    fn read(&mut self, buf: &mut [u8]) -> Result<usize, Failed>
        requires room { 0 < length buf.old }
        ensures bound { ReadsAtMost result buf.new }
        ensures bytes { ReadConsumes (Some self.old.left) (Some self.new.left) result buf.new }
        ensures cause { HasCause self.old.faults self.new.faults result }

        // Which calls fail, how many bytes the others give, and the source after each.
        ensures fails { IsErr result ↔ IsTrue (read_fails self.old) }
        ensures count { IfOk result (λ n. n ≡ read_count self.old (length buf.old)) }
        ensures after { self.new ≡ after_read self.old (length buf.old) }
    {
        self.calls = self.calls.saturating_add(1);
        if self.fail.contains(&self.calls) {
            self.faults = self.faults.saturating_add(1);
            return Err(Failed);
        }
        let left = &self.bytes[self.at..];
        let count = left.len().min(self.piece).min(buf.len());
        buf[..count].copy_from_slice(&left[..count]);
        self.at += count;
        Ok(count)
    }
}

/// A sink in memory, which takes small pieces up to its room, with writes that fail.
#[derive(Drop)]
pub struct MemSink {
    bytes: Vec<u8>,
    room: usize,
    piece: usize,
    fail: Vec<u64>,
    calls: u64,
    faults: u64,
}

impl Model for MemSink {
    ghost Value = { Kept };

    ghost view = { λ s. record { taken = s.bytes.items; room = s.room; piece = s.piece; fail = s.fail.items; calls = s.calls; faults = s.faults } };

    ghost invariant = { λ s. (vec_len s.bytes ≤ s.room) × (s.room ≤ vec_capacity s.bytes) × (0 < s.piece) };
}

impl MemSink {
    /// A sink with room for `room` bytes, reserved here, so that a write takes no memory. Each write takes at most
    /// `piece` bytes, and one if `piece` is 0. The writes whose numbers, counted from 1, are in `fail` answer a
    /// failure, and so does each write after the room is used up.
    pub fn new(
        alloc: Global,
        piece: usize,
        room: usize,
        fail: Vec<u64>,
    ) -> Result<MemSink, AllocError>
        ensures { IfOk result (λ s. s ≡ record { taken = []; room = room; piece = max piece 1; fail = fail.items; calls = 0; faults = 0 }) }
    {
        Ok(MemSink {
            bytes: Vec::with_capacity(alloc, room)?,
            room,
            piece: piece.max(1),
            fail,
            calls: 0,
            faults: 0,
        })
    }

    /// The bytes that it has taken, in order.
    pub fn written(&self) -> &[u8]
        ensures { result.now ≡ self.now.taken }
    {
        self.bytes.as_slice()
    }
}

impl Sink for MemSink {
    ghost taken = { λ s. Some s.taken };

    ghost faults = { λ s. s.faults };

    fn write(&mut self, piece: &[u8]) -> Result<usize, Failed>
        requires some { 0 < length piece.now }
        ensures bound { WritesAtMost result piece.now }
        ensures takes { IfOk result (λ n. 0 < n) }
        ensures bytes { WriteAppends (Some self.old.taken) (Some self.new.taken) result piece.now }
        ensures cause { HasCause self.old.faults self.new.faults result }

        // Which calls fail, how many bytes the others take, and the sink after each.
        ensures fails { IsErr result ↔ IsTrue (write_fails self.old) }
        ensures count { IfOk result (λ n. n ≡ write_count self.old (length piece.now)) }
        ensures after { self.new ≡ after_write self.old piece.now }
    {
        self.calls = self.calls.saturating_add(1);
        let room = self.room - self.bytes.len();
        if self.fail.contains(&self.calls) || room == 0 {
            self.faults = self.faults.saturating_add(1);
            return Err(Failed);
        }
        let count = room.min(self.piece).min(piece.len());
        // The room was reserved, so this is `Ok`.
        let _ = self.bytes.extend_from_slice(&piece[..count]);
        Ok(count)
    }
}
