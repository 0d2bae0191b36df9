//! The words of a table that nobody else reads yet: the header, the entries and what is not given. Words 1 to 3 are
//! kept in fields too, so that no call loads them again.

ghost use Rattle.std.specs.Prelude.{◌≡◌, ℕ, ◌+◌, ◌*◌, ◌/◌, ◌-◌, ◌%◌, ◌<◌, ◌≤◌, ◌^◌, ◌==◌, cond, IfOk, IfErr, OnOk, IsSome, Option, None, Some};
ghost use Rattle.word_map.specs.WordMap.{at as word_at, is_within, Disjoint, HasJust};
ghost use Rattle.shm_toc.specs.Table.{Table, Entry, rounded, free_bytes_of, low_of, front_of, place_of, entries_from, table_of, IsTable};
ghost use Rattle.shm_toc.specs.Requests.{empty_table, with_chunk, with_entry};
ghost use Rattle.shm_toc.specs.Answers.{IsFull, IsRefused, StaysFrom};
ghost use Rattle.shm_toc.specs.Held.{IsHeld, HasNoMore, GivesRow};

use crate::room::round_up;
use crate::table::TocAnswer;
use region_words::{Chunk, Frozen, Part, Region};
use rel_pointer::RelPtr;
use std::marker::Model;

/// The words of a table that grows. Contracts see their region and the map of them.
#[derive(Drop)]
pub(crate) struct Growing {
    part: Part,
    total: u64,
    taken: u64,
    count: u64,
}

impl Model for Growing {
    ghost use Rattle.region_words.specs.Parts.{Owned, owned_code};
    ghost use Rattle.shm_toc.specs.Held.{IsHeld};

    ghost Value = { Owned };

    ghost coded = { owned_code };

    ghost view = { λ t. t.part };

    ghost invariant = { λ t. IsHeld t.part.words t.total t.taken t.count };
}

impl Growing {
    /// An empty table over the words of the part.
    pub(crate) fn create(r: &Region, part: Part, words: u64, magic: u64) -> Growing
        requires here { part.region ≡ r.now }
        requires owns { HasJust part.words 0 words }
        requires size { (4 ≤ words) × (words % 4 ≡ 0) }
        ensures here { result.region ≡ r.now }
        ensures empty { table_of result.words ≡ empty_table magic (8 * words) }
        ensures others { StaysFrom 4 part.words result.words }
        ensures table { IsTable result.words }
    {
        part.is_small();
        let total = 8 * words;
        let mut part = part;
        part.store(r, 0, magic);
        part.store(r, 1, total);
        part.store(r, 2, 0);
        part.store(r, 3, 0);
        Growing {
            part,
            total,
            taken: 0,
            count: 0,
        }
    }

    /// The bytes that are left.
    pub(crate) fn free_bytes(&self) -> u64
        ensures free { result ≡ free_bytes_of (table_of self.now.words) }
    {
        self.total - 32 - 16 * self.count - self.taken
    }

    /// The chunk before the one that was given last, or at the segment's end.
    pub(crate) fn allocate(&mut self, r: &Region, bytes: u64) -> Result<Chunk, TocAnswer>
        requires here { self.old.region ≡ r.now }
        requires size { (1 ≤ bytes) × (bytes ≤ 2 ^ 40) }
        ensures here { self.new.region ≡ self.old.region }
        ensures chunk { IfOk result (λ chunk. (chunk.part.region ≡ r.now) × (chunk.bytes ≡ rounded bytes) × (chunk.at ≡ low_of (table_of self.new.words))) }
        ensures room { OnOk result (rounded bytes ≤ free_bytes_of (table_of self.old.words)) }
        ensures taken { OnOk result (table_of self.new.words ≡ with_chunk (table_of self.old.words) bytes) }
        ensures given { IfOk result (λ chunk. GivesRow chunk.at (chunk.bytes / 8) (front_of (table_of self.old.words)) self.old.words self.new.words) }
        ensures fewer { HasNoMore self.old.words self.new.words }
        ensures full { IfErr result (λ answer. IsFull (table_of self.old.words) (rounded bytes) answer × (self.new ≡ self.old)) }
        ensures table { IsTable self.new.words }
    {
        let wanted = round_up(bytes);
        let free = self.free_bytes();
        if wanted > free {
            return Err(TocAnswer::TocFull { wanted, free });
        }
        self.taken += wanted;
        Ok(give_chunk(&mut self.part, r, self.total, self.taken, wanted))
    }

    /// Puts the key and the place after the other entries. A key that is there keeps its place.
    pub(crate) fn insert(&mut self, r: &Region, key: u64, at: RelPtr) -> Result<(), TocAnswer>
        requires here { self.old.region ≡ r.now }
        ensures here { self.new.region ≡ self.old.region }
        ensures fresh { OnOk result (place_of (table_of self.old.words).entries key ≡ None) }
        ensures room { OnOk result (16 ≤ free_bytes_of (table_of self.old.words)) }
        ensures entered { OnOk result (table_of self.new.words ≡ with_entry (table_of self.old.words) (record { key = key; place = at })) }
        ensures others { OnOk result (StaysFrom (front_of (table_of self.new.words)) self.old.words self.new.words) }
        ensures fewer { HasNoMore self.old.words self.new.words }
        ensures refused { IfErr result (λ answer. IsRefused (table_of self.old.words) key answer × (self.new ≡ self.old)) }
        ensures table { IsTable self.new.words }
    {
        let found = find(&mut self.part, r, self.count, key);
        if let Some(at) = found {
            return Err(TocAnswer::KeyThere { at });
        }
        let free = self.free_bytes();
        if free < 16 {
            return Err(TocAnswer::TocFull { wanted: 16, free });
        }
        put_entry(&mut self.part, r, self.count, key, at);
        self.count += 1;
        Ok(())
    }

    /// Freezes the words of a chunk, and shows that the table has none of them.
    pub(crate) fn freeze_chunk(&mut self, r: &Region, chunk: Chunk) -> Frozen
        requires here { self.old.region ≡ r.now }
        requires chunk_here { chunk.part.region ≡ r.now }
        ensures same { self.new ≡ self.old }
        ensures words { result ≡ chunk.part }
        ensures apart { Disjoint self.old.words chunk.part.words }
    {
        freeze_row(&mut self.part, r, chunk)
    }

    /// Freezes the words: a store for each.
    pub(crate) fn freeze(self, r: &Region) -> Frozen
        requires here { self.region ≡ r.now }
        ensures { result ≡ self }
    {
        let Growing {
            part,
            total,
            taken,
            ..
        } = self;
        part.freeze(r, 0, (total - taken) / 8)
    }
}

/// Freezes the words of a chunk. The part takes them in and gives them away again, which shows that it had none of
/// them.
fn freeze_row(part: &mut Part, r: &Region, chunk: Chunk) -> Frozen
    requires here { part.old.region ≡ r.now }
    requires chunk_here { chunk.part.region ≡ r.now }
    ensures same { part.new ≡ part.old }
    ensures words { result ≡ chunk.part }
    ensures apart { Disjoint part.old.words chunk.part.words }
{
    let Chunk {
        at,
        bytes,
        part: words,
    } = chunk;
    let at = at.word();
    part.join(r, words);
    let words = part.split(r, at, bytes / 8);
    words.freeze(r, at, bytes / 8)
}

/// Splits the lowest chunk off the part and writes down that it is given.
fn give_chunk(part: &mut Part, r: &Region, total: u64, taken: u64, bytes: u64) -> Chunk
    requires here { part.old.region ≡ r.now }
    requires sizes { (bytes % 32 ≡ 0) × (taken % 32 ≡ 0) × (total % 32 ≡ 0) × (taken + 32 ≤ total) × (bytes ≤ taken) }
    requires owns { (k : ℕ) → 8 * k + taken < total + bytes → IsSome (word_at part.old.words k) }
    requires small { total ≤ 2 ^ 29 }
    ensures here { part.new.region ≡ part.old.region }
    ensures chunk { (result.part.region ≡ r.now) × (result.bytes ≡ bytes) × (result.at ≡ (total - taken) / 8) }
    ensures words { (k : ℕ) → word_at part.new.words k
        ≡ cond {A = Option ℕ} (is_within ((total - taken) / 8) (bytes / 8) k) None (cond {A = Option ℕ} (k == 2) (Some taken) (word_at part.old.words k)) }
{
    let at = (total - taken) / 8;
    part.store(r, 2, taken);
    let part = part.split(r, at, bytes / 8);
    Chunk {
        at: RelPtr::of(at),
        bytes,
        part,
    }
}

/// Writes an entry after the others, and then that it is there.
fn put_entry(part: &mut Part, r: &Region, count: u64, key: u64, at: RelPtr)
    requires here { part.old.region ≡ r.now }
    requires owns { (k : ℕ) → k < 6 + 2 * count → IsSome (word_at part.old.words k) }
    requires small { count < 2 ^ 32 }
    ensures here { part.new.region ≡ part.old.region }
    ensures words { (k : ℕ) → word_at part.new.words k
        ≡ cond {A = Option ℕ} (k == 3) (Some (count + 1))
        (cond {A = Option ℕ} (k == 5 + 2 * count) (Some at) (cond {A = Option ℕ} (k == 4 + 2 * count) (Some key) (word_at part.old.words k))) }
{
    part.store(r, 4 + 2 * count, key);
    part.store(r, 5 + 2 * count, at.word());
    part.store(r, 3, count + 1);
}

/// The place of the key, in the first of the entries that has it.
fn find(part: &mut Part, r: &Region, count: u64, key: u64) -> Option<RelPtr>
    requires here { part.old.region ≡ r.now }
    requires owns { (k : ℕ) → k < 4 + 2 * count → IsSome (word_at part.old.words k) }
    requires small { count < 2 ^ 32 }
    ensures same { part.new ≡ part.old }
    ensures found { result ≡ place_of (entries_from part.old.words 4 count) key }
{
    for i in 0..count {
        if part.load(r, 4 + 2 * i) == key {
            return Some(RelPtr::of(part.load(r, 5 + 2 * i)));
        }
    }
    None
}
