//! A bucket slice and its chains: a word for each bucket, which links to the first item of its chain, and each item's
//! first word, which links to the next one. A link of 0 ends the chain.
//!
//! The holder of the `Buckets` owns the words of the slice and of all items, and only it changes them, at any time: a
//! link when an item is hung in or taken out, an item's value when it is written. An item's hash and key never change
//! while it hangs. `AreHung` says how the words represent the chains; no two items have a word in common, and no item
//! hangs twice.

ghost use Rattle.std.specs.Prelude.{◌≡◌, ◌≢◌, ℕ, ◌+◌, ◌*◌, ◌/◌, ◌<◌, ◌≤◌, List, [], ◌∷◌, ◌++◌, ◌^◌, ◌↔◌, length, MatchOption, IfSome, IfNone, IsTrue};
ghost use Rattle.std.specs.List.{All};
ghost use Rattle.dshash_core.specs.Key.{seeded_hash};
ghost use Rattle.dshash_core.specs.Chains.{word, words_at, Item, item_at};
ghost use Rattle.dshash_core.specs.Cells.{all_items};
ghost use Rattle.dshash_core.specs.Hung.{Hung, Layout, empty_hung, chain_of, with_chain, IsSpot, Holds, HasItem, HasNoItem, IsItemChunk, IsFirst, first_place};

use crate::words::{Spot, blank, hang_in, load_words, seek, store_words, take_out};
use region_words::{Chunk, Part, Region};
use rel_pointer::RelPtr;
use std::marker::Model;

/// The buckets of a slice. Contracts see the items of each bucket's chain, in order.
#[derive(Drop)]
pub struct Buckets {
    /// The words of the slice and of all items.
    part: Part,
    /// The first word of the slice, which is that of bucket 0.
    slice: u64,
    /// The words of the slice, at least one for each bucket.
    words: u64,
    /// The number of buckets.
    buckets: u64,
    /// The seed of the items' hashes.
    seed: u64,
    /// The words of a key.
    key_words: u64,
    /// The words of a value.
    value_words: u64,
    /// The bytes of an item's chunk.
    item_bytes: u64,
}

impl Model for Buckets {
    ghost use Rattle.dshash_core.specs.Hung.{Hung, hung_code, hung, AreHung, chain_places};

    ghost Value = { Hung };

    ghost coded = { hung_code };

    ghost view = { λ b. hung b.part b.slice b.words b.buckets b.seed b.key_words b.value_words b.item_bytes };

    ghost invariant = { λ b. AreHung b.slice b.words b.buckets b.seed b.key_words b.value_words b.item_bytes b.part.words (chain_places b.part.words b.slice) };
}

impl Buckets {
    /// Empty chains on the slice, which has a word for each bucket. An item is to take `item_bytes` bytes.
    pub fn new(
        r: &Region,
        slice: Chunk,
        buckets: u64,
        seed: u64,
        key_words: u64,
        value_words: u64,
        item_bytes: u64,
    ) -> Buckets
        requires here { slice.part.region ≡ r.now }
        requires room { buckets ≤ slice.bytes / 8 }
        requires fits { 2 + key_words + value_words ≤ item_bytes / 8 }
        ensures { result ≡ empty_hung r.now slice.at (slice.bytes / 8) buckets seed key_words value_words item_bytes }
    {
        let Chunk {
            at,
            bytes,
            mut part,
        } = slice;
        blank(&mut part, r, at.word(), buckets);
        part.is_small();
        Buckets {
            part,
            slice: at.word(),
            words: bytes / 8,
            buckets,
            seed,
            key_words,
            value_words,
            item_bytes,
        }
    }

    /// The number of buckets.
    pub fn len(&self) -> u64
        ensures { result ≡ length self.now.chains }
    {
        self.buckets
    }

    /// The seed of the items' hashes.
    pub fn seed(&self) -> u64
        ensures { result ≡ self.now.layout.seed }
    {
        self.seed
    }

    /// The words of a key.
    pub fn key_words(&self) -> u64
        ensures { result ≡ self.now.layout.key_words }
    {
        self.key_words
    }

    /// The bytes of an item's chunk.
    pub fn item_bytes(&self) -> u64
        ensures { result ≡ self.now.layout.item_bytes }
    {
        self.item_bytes
    }

    /// Tells that an item has room for its key and its value, that the slice has a word for each bucket, that there are
    /// no more items than the largest region has words, and how many words a key has. It does nothing.
    pub(crate) fn is_sound(&self)
        ensures room { length self.now.chains ≤ self.now.words }
        ensures fits { 2 + self.now.layout.key_words + self.now.layout.value_words ≤ self.now.layout.item_bytes / 8 }
        ensures few { length (all_items self.now.chains) ≤ 2 ^ 26 }
        ensures keys { All (λ it. length it.key ≡ self.now.layout.key_words) (all_items self.now.chains) }
    {
        let _ = &self.buckets;
    }

    /// Looks for the key in its bucket's chain.
    #[inline(always)]
    pub(crate) fn find(&mut self, r: &Region, bucket: u64, hash: u64, key: &[u64]) -> Option<Spot>
        requires here { self.old.region ≡ r.now }
        requires bucket { bucket < length self.old.chains }
        requires key { length key.now ≡ self.old.layout.key_words }
        requires hash { hash ≡ seeded_hash self.old.layout.seed key.now }
        ensures same { self.new ≡ self.old }
        ensures found { MatchOption result (HasNoItem self.old bucket key.now) (λ s. HasItem self.old bucket s.link s.item key.now) }
    {
        seek(&mut self.part, r, self.slice + bucket, hash, key)
    }

    /// Reads an item's key.
    pub(crate) fn read_key(&mut self, r: &Region, item: u64, out: &mut [u64])
        requires here { self.old.region ≡ r.now }
        requires item { (it : Item) × Holds self.old it × (it.at ≡ item) }
        requires room { length out.old ≡ self.old.layout.key_words }
        ensures same { self.new ≡ self.old }
        ensures key { (it : Item) → Holds self.old it → it.at ≡ item → out.new ≡ it.key }
    {
        load_words(&mut self.part, r, item + 2, out);
    }

    /// Reads an item's value.
    #[inline(always)]
    pub(crate) fn read_value(&mut self, r: &Region, item: u64, out: &mut [u64])
        requires here { self.old.region ≡ r.now }
        requires item { (it : Item) × Holds self.old it × (it.at ≡ item) }
        requires room { length out.old ≡ self.old.layout.value_words }
        ensures same { self.new ≡ self.old }
        ensures value { (it : Item) → Holds self.old it → it.at ≡ item → out.new ≡ it.value }
    {
        load_words(&mut self.part, r, item + 2 + self.key_words, out);
    }

    /// Changes an item's value.
    #[inline(always)]
    pub(crate) fn write_value(&mut self, r: &Region, bucket: u64, spot: Spot, value: &[u64])
        requires here { self.old.region ≡ r.now }
        requires bucket { bucket < length self.old.chains }
        requires spot { (it : Item) × IsSpot self.old bucket spot.link it × (it.at ≡ spot.item) }
        requires value { length value.now ≡ self.old.layout.value_words }
        ensures { (it : Item) (s : IsSpot self.old bucket spot.link it) → it.at ≡ spot.item → self.new ≡ with_chain self.old bucket (s.before ++ record it { value = value.now } ∷ s.after) }
    {
        let _ = bucket;
        store_words(&mut self.part, r, spot.item + 2 + self.key_words, value);
    }

    /// Hangs an item in at the head of a bucket's chain.
    #[inline(always)]
    pub fn push(&mut self, r: &Region, bucket: u64, item: Chunk)
        requires here { (self.old.region ≡ r.now) × (item.part.region ≡ r.now) }
        requires bucket { bucket < length self.old.chains }
        requires size { item.bytes ≡ self.old.layout.item_bytes }
        requires item { (it : Item) × IsItemChunk item.at item.part.words self.old.layout it }
        ensures { (it : Item) → IsItemChunk item.at item.part.words self.old.layout it → self.new ≡ with_chain self.old bucket (it ∷ chain_of self.old bucket) }
    {
        let Chunk { at, bytes: _, part } = item;
        hang_in(&mut self.part, r, self.slice + bucket, at.word(), part);
    }

    /// Takes an item out of its chain, whole.
    #[inline(always)]
    pub(crate) fn unlink(&mut self, r: &Region, bucket: u64, spot: Spot) -> Chunk
        requires here { self.old.region ≡ r.now }
        requires bucket { bucket < length self.old.chains }
        requires spot { (it : Item) × IsSpot self.old bucket spot.link it × (it.at ≡ spot.item) }
        ensures rest { (it : Item) (s : IsSpot self.old bucket spot.link it) → it.at ≡ spot.item → self.new ≡ with_chain self.old bucket (s.before ++ s.after) }
        ensures here { (result.part.region ≡ self.old.region) × (result.at ≡ spot.item) × (result.bytes ≡ self.old.layout.item_bytes) }
        ensures item { (it : Item) (s : IsSpot self.old bucket spot.link it) → it.at ≡ spot.item → IsItemChunk result.at result.part.words self.old.layout it }
    {
        let _ = bucket;
        let part = take_out(&mut self.part, r, spot.link, spot.item, self.item_bytes / 8);
        Chunk {
            at: RelPtr::of(spot.item),
            bytes: self.item_bytes,
            part,
        }
    }

    /// The place of the first item of a bucket, and 0 if there is none.
    pub(crate) fn first(&mut self, r: &Region, bucket: u64) -> u64
        requires here { self.old.region ≡ r.now }
        requires bucket { bucket < length self.old.chains }
        ensures same { self.new ≡ self.old }
        ensures first { result ≡ first_place (chain_of self.old bucket) }
        ensures ends { result ≡ 0 → chain_of self.old bucket ≡ [] }
    {
        self.part.load(r, self.slice + bucket)
    }

    /// The place of the item after another one in its chain, and 0 if that is the last.
    pub(crate) fn next(&mut self, r: &Region, bucket: u64, item: u64) -> u64
        requires here { self.old.region ≡ r.now }
        requires bucket { bucket < length self.old.chains }
        requires item { (before : List Item) × (after : List Item) × (it : Item) × (chain_of self.old bucket ≡ before ++ it ∷ after) × (it.at ≡ item) }
        ensures same { self.new ≡ self.old }
        ensures next { (before after : List Item) (it : Item) → chain_of self.old bucket ≡ before ++ it ∷ after → it.at ≡ item → result ≡ first_place after }
        ensures ends { (before after : List Item) (it : Item) → chain_of self.old bucket ≡ before ++ it ∷ after → it.at ≡ item → result ≡ 0 → after ≡ [] }
    {
        let _ = bucket;
        self.part.load(r, item)
    }

    /// Whether a bucket's chain has this many items or more. It looks at no more of them than these.
    pub(crate) fn is_long(&mut self, r: &Region, bucket: u64, longest: u32) -> bool
        requires here { self.old.region ≡ r.now }
        requires bucket { bucket < length self.old.chains }
        ensures same { self.new ≡ self.old }
        ensures long { IsTrue result ↔ (longest ≤ length (chain_of self.old bucket)) }
    {
        let mut item = self.first(r, bucket);
        for _passed in 0..longest {
            if item == 0 {
                return false;
            }
            item = self.next(r, bucket, item);
        }
        true
    }

    /// The place of the first item of a bucket, if it has one.
    pub(crate) fn first_spot(&mut self, r: &Region, bucket: u64) -> Option<Spot>
        requires here { self.old.region ≡ r.now }
        requires bucket { bucket < length self.old.chains }
        ensures same { self.new ≡ self.old }
        ensures none { IfNone result (chain_of self.old bucket ≡ []) }
        ensures some { IfSome result (λ s. (it : Item) × IsSpot self.old bucket s.link it × (it.at ≡ s.item)) }
    {
        let item = self.first(r, bucket);
        if item == 0 {
            return None;
        }
        let link = self.slice + bucket;
        Some(Spot { link, item })
    }

    /// Takes the first item of a bucket out, whole.
    pub fn pop(&mut self, r: &Region, bucket: u64) -> Option<Chunk>
        requires here { self.old.region ≡ r.now }
        requires bucket { bucket < length self.old.chains }
        ensures none { IfNone result ((chain_of self.old bucket ≡ []) × (self.new ≡ self.old)) }
        ensures some { IfSome result (λ c. IsFirst self.old self.new bucket c.at c.bytes c.part) }
    {
        let item = self.first(r, bucket);
        if item == 0 {
            return None;
        }
        let link = self.slice + bucket;
        Some(self.unlink(r, bucket, Spot { link, item }))
    }

    /// The slice, without the items.
    pub fn into_slice(self, r: &Region) -> Chunk
        requires here { self.region ≡ r.now }
        ensures { (result.part.region ≡ self.region) × (result.at ≡ self.slice) × (result.bytes ≡ 8 * self.words) }
    {
        let Buckets {
            mut part,
            slice,
            words,
            buckets: _,
            seed: _,
            key_words: _,
            value_words: _,
            item_bytes: _,
        } = self;
        Chunk {
            at: RelPtr::of(slice),
            bytes: 8 * words,
            part: part.split(r, slice, words),
        }
    }
}
