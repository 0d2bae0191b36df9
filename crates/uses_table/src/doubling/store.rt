//! Words that nobody has yet. Chunks are cut off their front, one after the other.

ghost use Rattle.std.specs.Prelude.{◌≡◌, ℕ, ◌+◌, ◌*◌, ◌<◌, ◌≤◌, ◌^◌, cond, Option, Some, None, IfSome};
ghost use Rattle.word_map.specs.WordMap.{at as word_at, is_within, HasJust};
ghost use Rattle.region_words.specs.Parts.{HasJust-prop};

use region_words::{Chunk, Part, Region};
use rel_pointer::RelPtr;

/// The `left` words from `next`.
#[derive(Drop)]
pub struct Store {
    pub part: Part,
    next: u64,
    left: u64,
    ghost valid: { 0 < next },
    ghost small: { next + left ≤ 2 ^ 26 },
    ghost just: { HasJust part.words next left } by { HasJust-prop part.words next left },
}

impl Store {
    /// All words of a new region but the first, whose number is no place.
    pub fn of_region(r: &Region, part: Part, words: u64) -> Store
        requires here { part.region ≡ r.now }
        requires words { (1 ≤ words) × (words ≤ 2 ^ 26) }
        requires zeros { (k : ℕ) → word_at part.words k ≡ cond {A = Option ℕ} (is_within 0 words k) (Some 0) None }
        ensures { result.part.region ≡ r.now }
    {
        let mut part = part;
        let left = words - 1;
        Store {
            part: part.split(r, 1, left),
            next: 1,
            left,
        }
    }

    /// A chunk of this many words, while there are as many.
    pub fn take(&mut self, r: &Region, words: u64) -> Option<Chunk>
        requires here { self.old.part.region ≡ r.now }
        ensures here { self.new.part.region ≡ r.now }
        ensures chunk { IfSome result (λ c. (c.part.region ≡ r.now) × (c.bytes ≡ 8 * words)) }
    {
        if words > self.left {
            return None;
        }
        let at = self.next;
        let part = self.part.split(r, at, words);
        self.next += words;
        self.left -= words;
        Some(Chunk {
            at: RelPtr::of(at),
            bytes: 8 * words,
            part,
        })
    }
}
