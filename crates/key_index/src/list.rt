//! A list of keys whose bytes lie one after the other.

ghost use Rattle.std.specs.Prelude.{◌≡◌, ◌<◌, ◌≤◌, ◌-◌, ◌↔◌, ◌∷◌, ◌++◌, [], All, Some, IsTrue, OnOk, OnErr, drop, get_or, length, slice_get, take};
ghost use Rattle.csv.specs.Records.{prev};
ghost use Rattle.key_index.specs.Front.{AllBytes, IsFrontOf, leading};
ghost use Rattle.key_index.specs.Keys.{key_at, key_cmp};

use std::alloc::{AllocError, Global};
use std::cmp::Ordering;
use std::marker::Model;

/// The bytes of all keys, and where each key ends.
#[derive(Drop)]
pub(crate) struct KeyList {
    bytes: Vec<u8>,
    ends: Vec<usize>,
}

impl Model for KeyList {
    ghost use Rattle.std.specs.Prelude.{ℕ, List, length};
    ghost use Rattle.csv.specs.Records.{cut_from};
    ghost use Rattle.csv_rows.specs.Store.{Covers};

    ghost Value = { List (List ℕ) };

    ghost view = { λ k. cut_from 0 k.ends.items k.bytes.items };

    ghost invariant = { λ k. Covers k.ends.items (length k.bytes.items) };
}

impl KeyList {
    pub(crate) fn new(alloc: Global) -> KeyList
        ensures { result ≡ [] }
    {
        KeyList {
            bytes: Vec::new(alloc),
            ends: Vec::new(alloc),
        }
    }

    pub(crate) fn len(&self) -> usize
        ensures { result ≡ length self.now }
    {
        self.ends.len()
    }

    pub(crate) fn get(&self, at: usize) -> &[u8]
        requires { at < length self.now }
        ensures { slice_get self.now at ≡ Some result.now }
    {
        let (start, end) = span(&self.ends, at);
        &self.bytes.as_slice()[start..end]
    }

    /// How the keys of two places compare, byte by byte. A place that has no key compares as the empty key does.
    pub(crate) fn cmp(&self, a: usize, b: usize) -> Ordering
        ensures { result ≡ key_cmp (key_at self.now a) (key_at self.now b) }
    {
        self.get_or_none(a).cmp(self.get_or_none(b))
    }

    fn get_or_none(&self, at: usize) -> &[u8]
        ensures { result.now ≡ key_at self.now at }
    {
        if at < self.len() { self.get(at) } else { &[] }
    }

    /// The longest front that all keys have in common.
    pub(crate) fn common_front(&self) -> &[u8]
        ensures { All (IsFrontOf result.now) self.now }
    {
        let mut front = self.get_or_none(0);
        for at in 1..self.len() {
            front = common_front(front, self.get(at));
        }
        front
    }

    /// A key's 16 bytes from a place on as a number, highest byte first, that compares as those bytes do.
    pub(crate) fn bytes_from(&self, at: usize, from: usize) -> u128
        ensures number { result ≡ leading 16 (drop from (key_at self.now at)) }
        ensures bytes { AllBytes (take 16 (drop from (key_at self.now at))) }
    {
        let key = self.get_or_none(at);
        let rest = &key[from.min(key.len())..];
        number(&rest[..rest.len().min(16)])
    }

    /// Whether this key is at a place.
    pub(crate) fn is(&self, at: usize, key: &[u8]) -> bool
        ensures { IsTrue result ↔ (slice_get self.now at ≡ Some key.now) }
    {
        at < self.len() && same_bytes(self.get(at), key)
    }

    /// Whether a key that ends with this byte is at a place.
    pub(crate) fn ends_with(&self, at: usize, byte: u8) -> bool {
        at < self.len() && self.get(at).last() == Some(&byte)
    }

    pub(crate) fn push(&mut self, key: &[u8]) -> Result<(), AllocError>
        ensures ok { OnOk result (self.new ≡ self.old ++ key.now ∷ []) }
        ensures err { OnErr result (self.new ≡ self.old) }
    {
        let from = self.bytes.len();
        self.bytes.extend_from_slice(key)?;
        match self.ends.push(self.bytes.len()) {
            Ok(()) => Ok(()),
            Err(_) => {
                self.bytes.truncate(from);
                Err(AllocError)
            }
        }
    }

    /// Takes all keys out, and keeps the memory.
    pub(crate) fn clear(&mut self)
        ensures { self.new ≡ [] }
    {
        self.bytes.clear();
        self.ends.clear();
    }
}

/// How many bytes of two keys are compared at once.
const WORD: usize = 8;

/// Whether two keys are the same. Keys of a word or more are compared word by word, and in the end by their last word,
/// which may begin within the one before: so no byte is compared by itself, and no call is made for a short key.
fn same_bytes(a: &[u8], b: &[u8]) -> bool
    ensures { IsTrue result ↔ (a.now ≡ b.now) }
{
    if a.len() != b.len() {
        return false;
    }
    if a.len() < WORD {
        return a == b;
    }
    same_words(last_word(a), last_word(b))
        && same_words(a.as_chunks::<WORD>().0, b.as_chunks::<WORD>().0)
}

/// The last word of a key, as a list of one.
fn last_word(key: &[u8]) -> &[[u8; 8]]
    requires { 8 ≤ length key.now }
    ensures { result.now ≡ drop (length key.now - 8) key.now ∷ [] }
{
    key[key.len() - WORD..].as_chunks::<WORD>().0
}

/// Whether two lists of the same number of words are the same.
fn same_words(a: &[[u8; 8]], b: &[[u8; 8]]) -> bool
    requires { length a.now ≡ length b.now }
    ensures { IsTrue result ↔ (a.now ≡ b.now) }
{
    for (at, word) in a.iter().enumerate() {
        if *word != b[at] {
            return false;
        }
    }
    true
}

/// Where the key at this place starts and ends.
fn span(ends: &Vec<usize>, at: usize) -> (usize, usize)
    requires { at < length ends.now.items }
    ensures start { result.0 ≡ prev 0 ends.now.items at }
    ensures end { result.1 ≡ get_or ends.now.items at 0 }
{
    let start = if at == 0 { 0 } else { ends[at - 1] };
    (start, ends[at])
}

/// The longest front that both have in common.
fn common_front<'a>(front: &'a [u8], key: &[u8]) -> &'a [u8]
    ensures front { IsFrontOf result.now front.now }
    ensures key { IsFrontOf result.now key.now }
{
    if key.starts_with(front) {
        return front;
    }
    for (at, byte) in front.iter().enumerate() {
        if at >= key.len() || key[at] != *byte {
            return &front[..at];
        }
    }
    front
}

/// Up to 16 bytes as a number, highest first, with zeros after them.
fn number(bytes: &[u8]) -> u128
    requires { length bytes.now ≤ 16 }
    ensures number { result ≡ leading 16 bytes.now }
    ensures bytes { AllBytes bytes.now }
{
    let mut all = [0; 16];
    all[..bytes.len()].copy_from_slice(bytes);
    u128::from_be_bytes(all)
}
