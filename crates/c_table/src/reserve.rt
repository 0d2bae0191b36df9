//! The words that one caller brings to the table: items and slices are cut off their front.

ghost use Rattle.std.specs.Prelude.{◌≡◌, ℕ, ◌+◌, ◌*◌, ◌<◌, ◌≤◌, ◌^◌, IfNone, IfSome, IsSome};
ghost use Rattle.word_map.specs.WordMap.{at as word_at};
ghost use Rattle.c_table.specs.Reserves.{IsReserve};

use region_words::{Chunk, Part, Region};

/// Words in a row. What is dropped of them nobody can use any more.
#[derive(Drop)]
pub struct Reserve {
    pub(crate) part: Part,
    pub(crate) next: u64,
    pub(crate) left: u64,
}

impl Reserve {
    /// These words of a part.
    pub fn of_part(part: Part, from: u64, words: u64) -> Reserve
        requires valid { 0 < from }
        requires few { from + words ≤ 2 ^ 26 }
        requires owns { (k : ℕ) → from ≤ k → k < from + words → IsSome (word_at part.words k) }
        ensures { IsReserve part.region result × (result.left ≡ words) }
    {
        Reserve {
            part,
            next: from,
            left: words,
        }
    }

    /// The words of a chunk.
    pub fn of_chunk(chunk: Chunk) -> Reserve
        requires some { 8 ≤ chunk.bytes }
        ensures { IsReserve chunk.part.region result × (8 * result.left ≡ chunk.bytes) }
    {
        chunk.is_small();
        let Chunk { at, bytes, part } = chunk;
        Reserve {
            part,
            next: at.word(),
            left: bytes / 8,
        }
    }

    /// How many words are left.
    pub fn left(&self) -> u64
        ensures { result ≡ self.now.left }
    {
        self.left
    }

    /// A chunk of this many words, if that many are left.
    pub fn cut(&mut self, r: &Region, words: u64) -> Option<Chunk>
        requires reserve { IsReserve r.now self.old }
        ensures reserve { IsReserve r.now self.new }
        ensures chunk { IfSome result (λ c. (c.part.region ≡ r.now) × (c.bytes ≡ 8 * words)) }
        ensures less { IfSome result (λ _. self.old.left ≡ self.new.left + words) }
        ensures none { IfNone result ((self.new ≡ self.old) × (self.old.left < words)) }
    {
        if self.left < words {
            return None;
        }
        let chunk = self.part.split_chunk(r, self.next, words);
        self.next += words;
        self.left -= words;
        Some(chunk)
    }
}
