//! A key that goes with a call to a lock. What goes in there has no lifetime, so the key's words are copied, and no
//! memory is taken for them. A short key has room for few, so that few are written at each turn.

ghost use Rattle.std.specs.Prelude.{◌≡◌, ◌≤◌, length};

use std::marker::Model;

/// The most words of a key.
pub const MOST_KEY_WORDS: usize = 64;

/// The most words of a short key.
const MOST_SHORT_WORDS: usize = 4;

/// A key of up to 64 words. Contracts see the list of its words.
#[derive(Drop)]
pub struct Key {
    room: Room,
}

/// A key in the room that it needs.
#[derive(Drop)]
pub enum Room {
    Short(ShortKey),
    Long(LongKey),
}

impl Model for Key {
    ghost use Rattle.std.specs.Prelude.{ℕ, List};
    ghost use Rattle.dshash_parts.specs.Keys.{words_in};

    ghost Value = { List ℕ };

    ghost view = { λ k. words_in k.room };
}

impl Key {
    /// Copies these words.
    #[inline(always)]
    pub fn of(key: &[u64]) -> Key
        requires { length key.now ≤ 64 }
        ensures { result ≡ key.now }
    {
        if key.len() <= MOST_SHORT_WORDS {
            Key {
                room: Room::Short(ShortKey::of(key)),
            }
        } else {
            Key {
                room: Room::Long(LongKey::of(key)),
            }
        }
    }

    /// Its words.
    #[inline(always)]
    pub fn words(&self) -> &[u64]
        ensures { result.now ≡ self.now }
    {
        match &self.room {
            Room::Short(key) => key.words(),
            Room::Long(key) => key.words(),
        }
    }
}

/// Up to 64 words. Contracts see the list of its words.
#[derive(Drop)]
pub struct LongKey {
    words: [u64; MOST_KEY_WORDS],
    len: usize,
}

impl Model for LongKey {
    ghost use Rattle.std.specs.Prelude.{ℕ, ◌≤◌, List, take};

    ghost Value = { List ℕ };

    ghost view = { λ k. take k.len k.words };

    ghost invariant = { λ k. k.len ≤ 64 };
}

impl LongKey {
    /// Copies these words.
    #[inline(always)]
    pub fn of(key: &[u64]) -> LongKey
        requires { length key.now ≤ 64 }
        ensures { result ≡ key.now }
    {
        let mut words = [0; MOST_KEY_WORDS];
        words[..key.len()].copy_from_slice(key);
        LongKey {
            words,
            len: key.len(),
        }
    }

    /// Its words.
    #[inline(always)]
    pub fn words(&self) -> &[u64]
        ensures { result.now ≡ self.now }
    {
        &self.words[..self.len]
    }
}

/// Up to 4 words. Contracts see the list of its words.
#[derive(Drop)]
pub struct ShortKey {
    words: [u64; MOST_SHORT_WORDS],
    len: usize,
}

impl Model for ShortKey {
    ghost use Rattle.std.specs.Prelude.{ℕ, ◌≤◌, List, take};

    ghost Value = { List ℕ };

    ghost view = { λ k. take k.len k.words };

    ghost invariant = { λ k. k.len ≤ 4 };
}

impl ShortKey {
    /// Copies these words.
    #[inline(always)]
    pub fn of(key: &[u64]) -> ShortKey
        requires { length key.now ≤ 4 }
        ensures { result ≡ key.now }
    {
        let mut words = [0; MOST_SHORT_WORDS];
        words[..key.len()].copy_from_slice(key);
        ShortKey {
            words,
            len: key.len(),
        }
    }

    /// Its words.
    #[inline(always)]
    pub fn words(&self) -> &[u64]
        ensures { result.now ≡ self.now }
    {
        &self.words[..self.len]
    }
}
