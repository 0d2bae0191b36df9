//! The bytes of a message that is sent: one slice, or several, one after another.
//!
//! A frame's words are packed from one slice straight into the ring. A word may have bytes of two slices, so those of
//! several go by way of a small buffer on the stack.

ghost use Rattle.std.specs.Prelude.{◌≡◌, ◌+◌, ◌-◌, ◌*◌, ◌<◌, ◌≤◌, ◌++◌, ◌^◌, false, length, take, drop, min};
ghost use Rattle.std.specs.List.{fold};
ghost use Rattle.rel_pointer.specs.Bytes.{AllBytes, word_count};
ghost use Rattle.ring_rule.specs.Frames.{IsFramed};
ghost use Rattle.ring_rule.specs.Ends.{puts};
ghost use Rattle.mq_ring.specs.Bursts.{words_from};
ghost use Rattle.mq_handle.specs.Parts.{joined};

use mq_ring::RingTx;
use region_words::Region;
use std::marker::Model;

/// The words that the buffer has room for.
const BURST_WORDS: u64 = 64;

/// Where the bytes lie.
#[derive(Clone, Copy)]
pub(crate) enum Slices<'a> {
    One(&'a [u8]),
    Many(&'a [&'a [u8]]),
}

/// The bytes of a message. Contracts see the list of them.
#[derive(Drop)]
pub(crate) struct Body<'a> {
    slices: Slices<'a>,
    /// How many there are.
    len: u64,
}

impl<'a> Model for Body<'a> {
    ghost use Rattle.std.specs.Prelude.{ℕ, List, ◌≡◌, length};
    ghost use Rattle.rel_pointer.specs.Bytes.{AllBytes};
    ghost use Rattle.mq_handle.specs.Bodies.{bytes_in};

    ghost Value = { List ℕ };

    ghost view = { λ b. bytes_in b.slices };

    ghost invariant = { λ b. (b.len ≡ length (bytes_in b.slices)) × AllBytes (bytes_in b.slices) };
}

impl<'a> Body<'a> {
    /// The bytes of a slice.
    pub(crate) fn of_slice(bytes: &'a [u8]) -> Body<'a>
        ensures { result ≡ bytes.now }
    {
        Body {
            slices: Slices::One(bytes),
            len: bytes.len() as u64,
        }
    }

    /// The bytes of slices, one after another. Looks at the length of each.
    pub(crate) fn of_parts(parts: &'a [&'a [u8]]) -> Body<'a>
        requires few { length (joined parts.now) < 2 ^ 64 }
        ensures { result ≡ joined parts.now }
    {
        let mut len = 0u64;
        for part in parts {
            len += length_of(part);
        }
        Body {
            slices: Slices::Many(parts),
            len,
        }
    }

    /// How many bytes there are.
    pub(crate) fn len(&self) -> u64
        ensures count { result ≡ length self.now }
        ensures bytes { AllBytes self.now }
    {
        self.len
    }

    /// Stores that many words of the bytes, from word `from` on, one after another.
    pub(crate) fn put_words(&self, tx: &mut RingTx, r: &Region, from: u64, words: u64)
        requires here { tx.old.region ≡ r.now }
        requires stays { tx.old.end.gone ≡ false }
        requires inside { from + words ≤ word_count (length self.now) }
        requires room { length tx.old.end.put + words ≤ tx.old.end.room + tx.old.end.ring.size }
        requires framed { IsFramed tx.old.end.ring.max (tx.old.end.put ++ words_from from words self.now) }
        ensures { tx.new ≡ record tx.old { end = fold puts tx.old.end (words_from from words self.now) } }
    {
        match self.slices {
            Slices::One(bytes) => tx.put_words(r, bytes, from, words),
            Slices::Many(parts) => put_parts(tx, r, parts, self.len, from, words),
        }
    }
}

/// How many bytes a slice has.
fn length_of(bytes: &[u8]) -> u64
    ensures count { result ≡ length bytes.now }
    ensures bytes { AllBytes bytes.now }
{
    bytes.len() as u64
}

/// Stores that many words of the parts' bytes, from word `from` on, as many at once as the buffer holds.
fn put_parts(tx: &mut RingTx, r: &Region, parts: &[&[u8]], len: u64, from: u64, words: u64)
    requires here { tx.old.region ≡ r.now }
    requires stays { tx.old.end.gone ≡ false }
    requires len { len ≡ length (joined parts.now) }
    requires inside { from + words ≤ word_count len }
    requires room { length tx.old.end.put + words ≤ tx.old.end.room + tx.old.end.ring.size }
    requires framed { IsFramed tx.old.end.ring.max (tx.old.end.put ++ words_from from words (joined parts.now)) }
    ensures { tx.new ≡ record tx.old { end = fold puts tx.old.end (words_from from words (joined parts.now)) } }
{
    let mut buffer = [0u8; 512];
    let mut done = 0;
    while done < words {
        let run = BURST_WORDS.min(words - done);
        let count = (8 * run).min(len - 8 * (from + done)) as usize;
        put_burst(tx, r, parts, from + done, run, &mut buffer[..count]);
        done += run;
    }
}

/// Stores that many words of the parts' bytes, from word `from` on, whose bytes the buffer has just room for.
fn put_burst(tx: &mut RingTx, r: &Region, parts: &[&[u8]], from: u64, words: u64, buffer: &mut [u8])
    requires here { tx.old.region ≡ r.now }
    requires stays { tx.old.end.gone ≡ false }
    requires small { length (joined parts.now) < 2 ^ 64 }
    requires some { 0 < words }
    requires inside { from + words ≤ word_count (length (joined parts.now)) }
    requires size { length buffer.old ≡ min (8 * words) (length (joined parts.now) - 8 * from) }
    requires room { length tx.old.end.put + words ≤ tx.old.end.room + tx.old.end.ring.size }
    requires framed { IsFramed tx.old.end.ring.max (tx.old.end.put ++ words_from from words (joined parts.now)) }
    ensures { tx.new ≡ record tx.old { end = fold puts tx.old.end (words_from from words (joined parts.now)) } }
{
    gather(parts, 8 * from as usize, buffer);
    tx.put_words(r, buffer, 0, words);
}

/// Copies the parts' bytes from this one on, as many as `out` has room for.
fn gather(parts: &[&[u8]], from: usize, out: &mut [u8])
    requires inside { from + length out.old ≤ length (joined parts.now) }
    ensures bytes { out.new ≡ take (length out.old) (drop from (joined parts.now)) }
    ensures len { length out.new ≡ length out.old }
{
    let mut skip = from;
    let mut done = 0;
    for part in parts {
        let passed = skip.min(part.len());
        let rest = &part[passed..];
        skip -= passed;
        let count = rest.len().min(out.len() - done);
        out[done..done + count].copy_from_slice(&rest[..count]);
        done += count;
    }
}
