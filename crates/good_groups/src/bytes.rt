//! Bytes that were read and not given yet.

ghost use Rattle.std.specs.Prelude.{◌≡◌, ◌==◌, ◌++◌, OnErr, OnOk, length, min, take};

use std::alloc::AllocError;
use std::marker::Model;

/// Bytes in memory, of which those from a place on are left. Contracts see these as a list.
#[derive(Drop)]
pub(crate) struct Bytes {
    bytes: Vec<u8>,
    at: usize,
}

impl Model for Bytes {
    ghost use Rattle.std.specs.Prelude.{◌≤◌, ℕ, List, drop, vec_len};

    ghost Value = { List ℕ };

    ghost view = { λ b. drop b.at b.bytes.items };

    ghost invariant = { λ b. b.at ≤ vec_len b.bytes };
}

impl Bytes {
    /// Puts bytes after those that are left. If there is no memory for them nothing has changed.
    pub(crate) fn put(&mut self, more: &[u8]) -> Result<(), AllocError>
        ensures put { OnOk result (self.new ≡ self.old ++ more.now) }
        ensures err { OnErr result (self.new ≡ self.old) }
    {
        if self.at == self.bytes.len() {
            self.bytes.clear();
            self.at = 0;
        }
        self.bytes.extend_from_slice(more)
    }

    /// All of these.
    pub(crate) fn new(bytes: Vec<u8>) -> Bytes
        ensures { result ≡ bytes.items }
    {
        Bytes { bytes, at: 0 }
    }

    /// Whether none is left.
    pub(crate) fn is_empty(&self) -> bool
        ensures { result ≡ (length self.now == 0) }
    {
        self.at == self.bytes.len()
    }

    /// Gives as many of the bytes as the buffer has room for, and returns how many.
    pub(crate) fn give(&mut self, buf: &mut [u8]) -> usize
        ensures bytes { self.old ≡ take result buf.new ++ self.new }
        ensures count { result ≡ min (length self.old) (length buf.old) }
        ensures room { length buf.new ≡ length buf.old }
    {
        let left = &self.bytes.as_slice()[self.at..];
        let count = left.len().min(buf.len());
        buf[..count].copy_from_slice(&left[..count]);
        self.at += count;
        count
    }
}
