//! Chunks and runs: parts whose words lie in a row, so that a place and a length say which they are.

ghost use Rattle.std.specs.Prelude.{◌≡◌, ◌+◌, ◌*◌, ◌/◌, ◌%◌, ◌^◌, ◌<◌, ◌≤◌, Some};
ghost use Rattle.std.specs.FinMap as fin;
ghost use Rattle.word_map.specs.WordMap.{at as word_at, HasJust};
ghost use Rattle.region_words.specs.Parts.{owned, HasJust-prop};

use crate::part::Part;
use crate::region::Region;
use rel_pointer::RelPtr;

/// Words in a row: `bytes / 8` of them from the valid place `at`. The holder of the chunk owns them.
#[derive(Drop)]
pub struct Chunk {
    /// Its first word.
    pub at: RelPtr,
    /// Its length in bytes, a multiple of 8.
    pub bytes: u64,
    /// The token of its words, just these.
    pub part: Part,
    pub ghost valid: { 0 < at },
    pub ghost whole: { bytes % 8 ≡ 0 },
    pub ghost just: { HasJust part.words at (bytes / 8) } by { HasJust-prop part.words at (bytes / 8) },
}

/// The words of pages in a row, 512 a page, from the valid place `at`.
#[derive(Drop)]
pub struct Run {
    /// The first word of its first page.
    pub at: RelPtr,
    /// The number of its pages.
    pub pages: u32,
    /// The token of its words, just these.
    pub words: Part,
    /// Of a superblock: the token of the words of its pages' control records, which lie elsewhere. Which words these
    /// are is for the crate that lays the records out to say.
    pub control: Option<Part>,
    pub ghost valid: { 0 < at },
    pub ghost just: { HasJust words.words at (512 * pages) } by { HasJust-prop words.words at (512 * pages) },
}

impl Chunk {
    /// The chunk of a part that has just the `words` words from the valid place `at`. It takes no step.
    pub fn of(part: Part, at: u64, words: u64) -> Chunk
        requires valid { 0 < at }
        requires row { HasJust part.words at words }
        ensures place { (result.at ≡ at) × (result.bytes ≡ 8 * words) }
        ensures words { result.part ≡ part }
    {
        few_words(&part, at, words);
        Chunk {
            at: RelPtr::of(at),
            bytes: 8 * words,
            part,
        }
    }

    /// Tells that a chunk has at most 2^26 words, all with numbers below 2^26, so that places in it can be added up. It
    /// does nothing.
    #[inline]
    pub fn is_small(&self)
        ensures few { self.now.bytes ≤ 2 ^ 29 }
        ensures low { 0 < self.now.bytes → self.now.at + self.now.bytes / 8 ≤ 2 ^ 26 }
    {
        self.part.is_small();
    }

    /// The value of the chunk's n-th word, from 0.
    #[inline]
    pub fn load(&mut self, r: &Region, n: u64) -> u64
        requires here { self.old.part.region ≡ r.now }
        requires inside { n < self.old.bytes / 8 }
        ensures found { word_at self.old.part.words (self.old.at + n) ≡ Some result }
        ensures part { self.new.part ≡ self.old.part }
        ensures place { (self.new.at ≡ self.old.at) × (self.new.bytes ≡ self.old.bytes) }
    {
        self.part.is_small();
        let place = self.at.plus(n);
        self.part.load(r, place.word())
    }

    /// Changes the chunk's n-th word, from 0.
    #[inline]
    pub fn store(&mut self, r: &Region, n: u64, value: u64)
        requires here { self.old.part.region ≡ r.now }
        requires inside { n < self.old.bytes / 8 }
        ensures part { self.new.part ≡ owned self.old.part.region (fin.insert self.old.part.words (self.old.at + n) value) }
        ensures place { (self.new.at ≡ self.old.at) × (self.new.bytes ≡ self.old.bytes) }
    {
        self.part.is_small();
        let place = self.at.plus(n);
        self.part.store(r, place.word(), value);
    }
}

impl Run {
    /// Tells that a run has at most 2^26 words, all with numbers below 2^26. It does nothing.
    #[inline]
    pub fn is_small(&self)
        ensures few { 512 * self.now.pages ≤ 2 ^ 26 }
        ensures low { 0 < self.now.pages → self.now.at + 512 * self.now.pages ≤ 2 ^ 26 }
    {
        self.words.is_small();
    }
}

/// Tells that a part whose words lie in a row has at most 2^26 of them. It does nothing.
fn few_words(part: &Part, at: u64, words: u64)
    requires { HasJust part.now.words at words }
    ensures { words ≤ 2 ^ 26 }
{
    part.is_small();
}
