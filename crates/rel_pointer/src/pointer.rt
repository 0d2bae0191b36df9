//! A relative pointer: the number of a word of the region.

ghost use Rattle.std.specs.Prelude.{◌≡◌, ◌+◌, ◌<◌, ◌^◌, ◌↔◌, IsTrue};

use std::marker::Model;

/// A word number of a region, or 0, the invalid pointer. Contracts see the number.
#[derive(Clone, Copy, PartialEq, Eq, Debug)]
pub struct RelPtr {
    word: u64,
}

impl Model for RelPtr {
    ghost use Rattle.std.specs.Prelude.{ℕ};

    ghost Value = { ℕ };

    ghost view = { λ p. p.word };

    ghost inverse = { λ n. record { word = n } };
}

impl RelPtr {
    /// The pointer to this word.
    pub fn of(word: u64) -> RelPtr
        ensures { result ≡ word }
    {
        RelPtr { word }
    }

    /// The number of the word.
    pub fn word(self) -> u64
        ensures { result ≡ self }
    {
        self.word
    }

    /// Whether it points to a word.
    pub fn is_valid(self) -> bool
        ensures { IsTrue result ↔ (0 < self) }
    {
        self.word > 0
    }

    /// The pointer to the word the given number of words further on.
    pub fn plus(self, words: u64) -> RelPtr
        requires valid { 0 < self }
        requires fits { self + words < 2 ^ 64 }
        ensures { result ≡ self + words }
    {
        RelPtr {
            word: self.word + words,
        }
    }
}
