//! Words in a row of a part, and the walk along one chain of items.

ghost use Rattle.std.specs.Prelude.{◌≡◌, ℕ, ◌+◌, ◌/◌, ◌<◌, ◌≤◌, ◌↔◌, length, IsSome, IsTrue, MatchOption, is_some};
ghost use Rattle.std.specs.FinMap as fin;
ghost use Rattle.word_map.specs.WordMap.{at as word_at, HasJust};
ghost use Rattle.region_words.specs.Parts.{owned};
ghost use Rattle.dshash_core.specs.Key.{seeded_hash};
ghost use Rattle.dshash_core.specs.Chains.{word, words_at, IsChain, Among, Item, item_at};
ghost use Rattle.dshash_core.specs.Walk.{IsReadable, chain_from, IsPlacedFrom, IsNowhereFrom, IsHungIn, IsTakenOut};

use region_words::{Chunk, Part, Region};

/// Where an item lies, and which word links to it.
#[derive(Clone, Copy)]
pub struct Spot {
    /// The word that has the item's place: its bucket's, or the first word of the item before it.
    pub link: u64,
    /// The item's first word.
    pub item: u64,
}

/// Whether these are the words from `at` on.
#[inline(always)]
fn are_words(part: &mut Part, r: &Region, at: u64, words: &[u64]) -> bool
    requires here { part.old.region ≡ r.now }
    requires owns { (k : ℕ) → at ≤ k → k < at + length words.now → IsSome (word_at part.old.words k) }
    ensures same { part.new ≡ part.old }
    ensures equal { IsTrue result ↔ (words_at (word part.old.words) at (length words.now) ≡ words.now) }
{
    part.is_small();
    for (i, x) in words.iter().enumerate() {
        if part.load(r, at + i as u64) != *x {
            return false;
        }
    }
    true
}

/// Reads the words from `at` on.
#[inline(always)]
pub(crate) fn load_words(part: &mut Part, r: &Region, at: u64, out: &mut [u64])
    requires here { part.old.region ≡ r.now }
    requires owns { (k : ℕ) → at ≤ k → k < at + length out.old → IsSome (word_at part.old.words k) }
    ensures same { part.new ≡ part.old }
    ensures words { out.new ≡ words_at (word part.old.words) at (length out.old) }
{
    part.is_small();
    for (i, x) in out.iter_mut().enumerate() {
        *x = part.load(r, at + i as u64);
    }
}

/// Stores a word, unless it is there already.
#[inline(always)]
fn put_word(part: &mut Part, r: &Region, at: u64, value: u64)
    requires here { part.old.region ≡ r.now }
    requires owns { IsSome (word_at part.old.words at) }
    ensures { part.new ≡ owned part.old.region (fin.insert part.old.words at value) }
{
    if part.load(r, at) != value {
        part.store(r, at, value);
    }
}

/// Stores these words from `at` on, except those that are there already.
#[inline(always)]
pub(crate) fn store_words(part: &mut Part, r: &Region, at: u64, words: &[u64])
    requires here { part.old.region ≡ r.now }
    requires owns { (k : ℕ) → at ≤ k → k < at + length words.now → IsSome (word_at part.old.words k) }
    ensures region { part.new.region ≡ part.old.region }
    ensures keys { (k : ℕ) → is_some (word_at part.new.words k) ≡ is_some (word_at part.old.words k) }
    ensures words { words_at (word part.new.words) at (length words.now) ≡ words.now }
    ensures below { (k : ℕ) → k < at → word part.new.words k ≡ word part.old.words k }
    ensures behind { (k : ℕ) → at + length words.now ≤ k → word part.new.words k ≡ word part.old.words k }
{
    part.is_small();
    for (i, x) in words.iter().enumerate() {
        put_word(part, r, at + i as u64, *x);
    }
}

/// Whether the item has the key. Most other items differ in their hash already.
#[inline(always)]
fn has_key(part: &mut Part, r: &Region, item: u64, hash: u64, key: &[u64]) -> bool
    requires here { part.old.region ≡ r.now }
    requires item { (seed : ℕ) × (hash ≡ seeded_hash seed key.now) × IsReadable part.old.words seed (length key.now) item }
    ensures same { part.new ≡ part.old }
    ensures equal { IsTrue result ↔ (words_at (word part.old.words) (item + 2) (length key.now) ≡ key.now) }
{
    part.is_small();
    if part.load(r, item + 1) != hash {
        return false;
    }
    are_words(part, r, item + 2, key)
}

/// Walks along the chain from `link` to the first item that has the key: its hash is compared first.
#[inline(always)]
pub(crate) fn seek(part: &mut Part, r: &Region, link: u64, hash: u64, key: &[u64]) -> Option<Spot>
    requires here { part.old.region ≡ r.now }
    requires link { IsSome (word_at part.old.words link) }
    requires chain { IsChain (word part.old.words) (word part.old.words link) (chain_from part.old.words link) }
    requires items { (seed : ℕ) × (hash ≡ seeded_hash seed key.now) × ((a : ℕ) → Among a (chain_from part.old.words link) → IsReadable part.old.words seed (length key.now) a) }
    ensures same { part.new ≡ part.old }
    ensures found { MatchOption result (IsNowhereFrom part.old.words link key.now) (λ s. IsPlacedFrom part.old.words link s.link s.item key.now) }
{
    let mut behind = link;
    let mut item = part.load(r, link);
    while item != 0 {
        if has_key(part, r, item, hash, key) {
            return Some(Spot { link: behind, item });
        }
        behind = item;
        item = part.load(r, item);
    }
    None
}

/// Hangs the words of an item in: it lies at `at`, and is linked from the word `link`.
#[inline(always)]
pub(crate) fn hang_in(part: &mut Part, r: &Region, link: u64, at: u64, item: Part)
    requires here { (part.old.region ≡ r.now) × (item.region ≡ r.now) }
    requires link { IsSome (word_at part.old.words link) }
    requires item { IsSome (word_at item.words at) }
    ensures region { part.new.region ≡ part.old.region }
    ensures hung { IsHungIn part.old.words item.words part.new.words link at }
{
    part.join(r, item);
    let first = part.load(r, link);
    part.store(r, at, first);
    part.store(r, link, at);
    part.is_small();
}

/// Takes the `len` words of the item at `at` out, which was linked from the word `link`.
#[inline(always)]
pub(crate) fn take_out(part: &mut Part, r: &Region, link: u64, at: u64, len: u64) -> Part
    requires here { part.old.region ≡ r.now }
    requires link { IsSome (word_at part.old.words link) }
    requires item { (0 < len) × ((k : ℕ) → at ≤ k → k < at + len → IsSome (word_at part.old.words k)) }
    requires apart { at ≤ link → at + len ≤ link }
    ensures region { part.new.region ≡ part.old.region }
    ensures item { (result.region ≡ part.old.region) × HasJust result.words at len }
    ensures out { IsTakenOut part.old.words part.new.words result.words link at len }
{
    let next = part.load(r, at);
    part.store(r, link, next);
    let item = part.split(r, at, len);
    part.is_small();
    item
}

/// Stores 0 in `len` words.
pub(crate) fn blank(part: &mut Part, r: &Region, from: u64, len: u64)
    requires here { part.old.region ≡ r.now }
    requires owns { (k : ℕ) → from ≤ k → k < from + len → IsSome (word_at part.old.words k) }
    ensures region { part.new.region ≡ part.old.region }
    ensures zeros { (k : ℕ) → from ≤ k → k < from + len → word part.new.words k ≡ 0 }
    ensures keys { (k : ℕ) → is_some (word_at part.new.words k) ≡ is_some (word_at part.old.words k) }
{
    part.is_small();
    for i in 0..len {
        part.store(r, from + i, 0);
    }
}

/// Fills a chunk with an item that is not hung in yet: its hash, its key and its value.
#[inline(always)]
pub(crate) fn fill(item: Chunk, r: &Region, hash: u64, key: &[u64], value: &[u64]) -> Chunk
    requires here { item.part.region ≡ r.now }
    requires room { 2 + length key.now + length value.now ≤ item.bytes / 8 }
    ensures place { (result.at ≡ item.at) × (result.bytes ≡ item.bytes) × (result.part.region ≡ item.part.region) }
    ensures item { item_at (word result.part.words) (length key.now) (length value.now) result.at ≡ record { at = item.at; key = key.now; value = value.now } }
    ensures hashed { word result.part.words (result.at + 1) ≡ hash }
{
    let Chunk {
        at,
        bytes,
        mut part,
    } = item;
    part.is_small();
    let place = at.word();
    put_word(&mut part, r, place + 1, hash);
    let key_place = place + 2;
    store_words(&mut part, r, key_place, key);
    let value_place = key_place + key.len() as u64;
    store_words(&mut part, r, value_place, value);
    Chunk { at, bytes, part }
}
