//! The table while it grows: the words that only its holder reads, and the chunks that it kept, which are frozen.

ghost use Rattle.std.specs.Prelude.{◌≡◌, ℕ, ◌*◌, ◌/◌, ◌%◌, ◌≤◌, ◌^◌, cond, IfOk, IfErr, OnOk, Option, None};
ghost use Rattle.word_map.specs.WordMap.{at as word_at, is_within, union, HasJust};
ghost use Rattle.shm_toc.specs.Table.{Table, Entry, rounded, free_bytes_of, low_of, front_of, place_of, table_of, IsTable};
ghost use Rattle.shm_toc.specs.Requests.{empty_table, with_chunk, with_entry};
ghost use Rattle.shm_toc.specs.Answers.{IsFull, IsRefused, StaysFrom};
ghost use Rattle.shm_toc.specs.Held.{IsKept};

use crate::frozen::FrozenToc;
use crate::growing::Growing;
use region_words::{Chunk, Frozen, Part, Region};
use rel_pointer::RelPtr;
use std::marker::Model;

/// Why a table refuses a chunk or an entry.
#[derive(Drop, Debug, PartialEq, Eq)]
pub enum TocAnswer {
    /// Fewer bytes are left than are wanted.
    TocFull { wanted: u64, free: u64 },
    /// The key is there already, with this place.
    KeyThere { at: RelPtr },
}

/// A table of contents that grows. Contracts see its region and its words; `table_of` says what the words mean.
#[derive(Drop)]
pub struct Toc {
    growing: Growing,
    kept: Frozen,
}

impl Model for Toc {
    ghost use Rattle.word_map.specs.WordMap.{union};
    ghost use Rattle.region_words.specs.Parts.{Owned, owned, owned_code};
    ghost use Rattle.shm_toc.specs.Held.{IsKept};

    ghost Value = { Owned };

    ghost coded = { owned_code };

    ghost view = { λ t. owned t.growing.region (union t.growing.words t.kept.words) };

    ghost invariant = { λ t. IsKept t.growing t.kept };
}

impl Toc {
    /// An empty table over the words of the part, which it owns from then on.
    pub fn create(r: &Region, part: Part, words: u64, magic: u64) -> Toc
        requires here { part.region ≡ r.now }
        requires owns { HasJust part.words 0 words }
        requires size { (4 ≤ words) × (words % 4 ≡ 0) }
        ensures here { result.region ≡ r.now }
        ensures empty { table_of result.words ≡ empty_table magic (8 * words) }
        ensures others { StaysFrom 4 part.words result.words }
    {
        let mut part = part;
        let kept = part.split(r, 0, 0).freeze(r, 0, 0);
        Toc {
            growing: Growing::create(r, part, words, magic),
            kept,
        }
    }

    /// The bytes that are left. The contract also says that the words have a table in which no key comes twice.
    pub fn free_bytes(&self) -> u64
        ensures free { result ≡ free_bytes_of (table_of self.now.words) }
        ensures table { IsTable self.now.words }
    {
        self.growing.free_bytes()
    }

    /// A chunk of the given number of bytes, rounded up to a multiple of 32, which the caller owns. It is the one
    /// before the chunk that was given last, or before the segment's end.
    pub fn allocate(&mut self, r: &Region, bytes: u64) -> Result<Chunk, TocAnswer>
        requires here { self.old.region ≡ r.now }
        requires size { (1 ≤ bytes) × (bytes ≤ 2 ^ 40) }
        ensures here { self.new.region ≡ self.old.region }
        ensures chunk { IfOk result (λ chunk. (chunk.part.region ≡ r.now) × (chunk.bytes ≡ rounded bytes) × (chunk.at ≡ low_of (table_of self.new.words))) }
        ensures room { OnOk result (rounded bytes ≤ free_bytes_of (table_of self.old.words)) }
        ensures taken { OnOk result (table_of self.new.words ≡ with_chunk (table_of self.old.words) bytes) }
        ensures others { IfOk result (λ chunk. (k : ℕ) → front_of (table_of self.old.words) ≤ k
            → word_at self.new.words k ≡ cond {A = Option ℕ} (is_within chunk.at (chunk.bytes / 8) k) None (word_at self.old.words k)) }
        ensures full { IfErr result (λ answer. IsFull (table_of self.old.words) (rounded bytes) answer × (self.new ≡ self.old)) }
    {
        self.growing.allocate(r, bytes)
    }

    /// Puts the key and the place after the other entries. A key that is there keeps its place.
    pub fn insert(&mut self, r: &Region, key: u64, at: RelPtr) -> Result<(), TocAnswer>
        requires here { self.old.region ≡ r.now }
        ensures here { self.new.region ≡ self.old.region }
        ensures fresh { OnOk result (place_of (table_of self.old.words).entries key ≡ None) }
        ensures room { OnOk result (16 ≤ free_bytes_of (table_of self.old.words)) }
        ensures entered { OnOk result (table_of self.new.words ≡ with_entry (table_of self.old.words) (record { key = key; place = at })) }
        ensures others { OnOk result (StaysFrom (front_of (table_of self.new.words)) self.old.words self.new.words) }
        ensures refused { IfErr result (λ answer. IsRefused (table_of self.old.words) key answer × (self.new ≡ self.old)) }
    {
        self.growing.insert(r, key, at)
    }

    /// Takes a chunk back, so that its words are frozen with the table. A store for each of its words, which are frozen
    /// from now on.
    pub fn keep(&mut self, r: &Region, chunk: Chunk)
        requires here { (self.old.region ≡ r.now) × (chunk.part.region ≡ r.now) }
        ensures here { self.new.region ≡ self.old.region }
        ensures words { self.new.words ≡ union self.old.words chunk.part.words }
        ensures same { table_of self.new.words ≡ table_of self.old.words }
    {
        let frozen = self.growing.freeze_chunk(r, chunk);
        self.kept.gather(r, frozen);
    }

    /// From now on no word of the table or of a chunk that it kept changes. The words that it never gave are frozen
    /// too. A store for each of its words and of those; the chunks that it kept were frozen when it took them back.
    pub fn freeze(self, r: &Region) -> FrozenToc
        requires here { self.region ≡ r.now }
        ensures { result ≡ self }
    {
        let Toc { growing, kept } = self;
        let mut frozen = growing.freeze(r);
        frozen.gather(r, kept);
        FrozenToc::of(frozen)
    }
}
