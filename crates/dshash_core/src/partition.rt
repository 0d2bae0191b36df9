//! A partition: what is under one lock of the shared hash table. It is a finite map from keys to states, kept in chains
//! of items in the region, one chain a bucket, and it has its own size, from 7 to 20, which says how many buckets it
//! has.
//!
//! The holder of the partition owns the words of its bucket slice and of its items, so a call is one step of one
//! thread: under a lock it is one event of the table. `IsPartition` says what is always so: each item hangs in the
//! bucket of its key's hash, each key once, the count is the number of keys, and the number of keys is at most three
//! quarters of that of the buckets and one more, or the size is 20.

ghost use Rattle.std.specs.Prelude.{◌≡◌, true, false, ◌+◌, ◌*◌, ◌/◌, ◌<◌, ◌≤◌, ◌↔◌, length, is_some, IsTrue, IfErr, IfOk, IfNone, IfSome, MatchOption, OnOk};
ghost use Rattle.std.specs.FinMap as fin;
ghost use Rattle.dshash_core.specs.Key.{item_size, seeded_hash};
ghost use Rattle.dshash_core.specs.Cells.{IsRoomy, AreCells, TakesIn, buckets_of, cells_of, layout_of};
ghost use Rattle.dshash_core.specs.Outcome.{AlwaysRemoves, IsCrowded, IsDone, IsOutcome, HandsOut, ListsAll};
ghost use Rattle.dshash_core.specs.Listing.{HaveWords, pairs_of};
ghost use Rattle.dshash_core.specs.Chains.{Item};
ghost use Rattle.dshash_core.specs.Hung.{IsItemChunk};

use crate::buckets::Buckets;
use crate::calls::answer;
use crate::crowding::is_crowded;
use crate::entries::{Entry, list_all};
use crate::key::seeded_hash_key;
use crate::object::CellObject;
use crate::outcome::CoreOut;
use crate::sizes::{LEAST_SIZE, bucket_count, bucket_of_hash};
use crate::taking::{Taken, spot_at_hand, take_at};
use region_words::{Chunk, Region};
use std::alloc::{AllocError, Global};
use std::marker::{Model, PhantomData};
use std::mem;

/// One partition. Contracts see its region, its slice, its size and the map of states under their keys.
#[derive(Drop)]
pub struct Partition<O: CellObject> {
    /// The slice and the chains.
    buckets: Buckets,
    /// Its size, from 7 to 20.
    size: u32,
    /// The number of its keys.
    count: u64,
    /// The bucket from which `take_any` took last. It goes on from there.
    hand: u64,
    object: PhantomData<O>,
}

impl<O: CellObject> Model for Partition<O> {
    ghost use Rattle.dshash_core.specs.Cells.{PartitionView, partition_code, partition_seen, IsPartition};

    ghost Value = { PartitionView O.State };

    ghost coded = { partition_code O.State.code };

    ghost view = { λ p. partition_seen O.decoded p.buckets p.size };

    ghost invariant = { λ p. IsPartition O.VALUE_WORDS p.size p.count p.buckets };
}

impl<O: CellObject> Partition<O> {
    /// The empty partition of size 7, on a slice of a word or more. Its items are to be chunks of `item_chunk` bytes.
    /// One store.
    pub fn new(r: &Region, slice: Chunk, key_words: u32, item_chunk: u64) -> Partition<O>
        requires here { slice.part.region ≡ r.now }
        requires room { 8 ≤ slice.bytes }
        requires fits { item_size key_words O.VALUE_WORDS ≤ item_chunk }
        requires short { O.VALUE_WORDS ≤ 65536 }
        ensures { result ≡ record { region = r.now; slice = slice.at; words = slice.bytes / 8; seed = 0; key_words = key_words; item_bytes = item_chunk; size = 7; cells = fin.empty } }
    {
        Partition::with_seed(r, slice, key_words, item_chunk, 0)
    }

    /// The same with a seed for the hashes of its keys, which say their buckets.
    pub fn with_seed(
        r: &Region,
        slice: Chunk,
        key_words: u32,
        item_chunk: u64,
        seed: u64,
    ) -> Partition<O>
        requires here { slice.part.region ≡ r.now }
        requires room { 8 ≤ slice.bytes }
        requires fits { item_size key_words O.VALUE_WORDS ≤ item_chunk }
        requires short { O.VALUE_WORDS ≤ 65536 }
        ensures { result ≡ record { region = r.now; slice = slice.at; words = slice.bytes / 8; seed = seed; key_words = key_words; item_bytes = item_chunk; size = 7; cells = fin.empty } }
    {
        let buckets = Buckets::new(
            r,
            slice,
            1,
            seed,
            u64::from(key_words),
            O::VALUE_WORDS as u64,
            item_chunk,
        );
        Partition {
            buckets,
            size: LEAST_SIZE,
            count: 0,
            hand: 0,
            object: PhantomData,
        }
    }

    /// Its size, from 7 to 20: it has 2^(size - 7) buckets.
    pub fn size(&self) -> u32
        ensures is { result ≡ self.now.size }
        ensures range { (7 ≤ result) × (result ≤ 20) }
        ensures room { buckets_of result ≤ self.now.words }
        ensures roomy { IsRoomy result (fin.len self.now.cells) }
    {
        self.buckets.is_sound();
        self.size
    }

    /// The seed of the hashes of its keys.
    pub fn seed(&self) -> u64
        ensures { result ≡ self.now.seed }
    {
        self.buckets.seed()
    }

    /// The number of its keys.
    pub fn count(&self) -> u64
        ensures is { result ≡ fin.len self.now.cells }
        ensures roomy { IsRoomy self.now.size result }
    {
        self.count
    }

    /// Makes a call of a key, or says what it lacks: an item, or more buckets. It hashes the key, walks one chain and
    /// takes no memory.
    pub fn try_call(
        &mut self,
        r: &Region,
        key: &[u64],
        call: &O::Call,
        spare: Option<Chunk>,
    ) -> CoreOut<O>
        requires here { self.old.region ≡ r.now }
        requires key { length key.now ≡ self.old.key_words }
        requires spare { IfSome spare (λ c. (c.part.region ≡ r.now) × (c.bytes ≡ self.old.item_bytes)) }
        ensures outcome { IsOutcome O.stepped self.old.size self.old.cells key.now call.now (is_some spare) result self.new.cells }
        ensures same { self.new ≡ record self.old { cells = self.new.cells } }
        ensures handed { HandsOut self.old.region self.old.item_bytes spare result }
        ensures roomy { IsRoomy self.new.size (fin.len self.new.cells) }
    {
        let hash = seeded_hash_key(self.buckets.seed(), key);
        self.try_call_with_hash(r, hash, key, call, spare)
    }

    /// The same, of a key whose hash is known: a table that needs the hash for the partition's number hashes each key
    /// once.
    #[inline(always)]
    pub fn try_call_with_hash(
        &mut self,
        r: &Region,
        hash: u32,
        key: &[u64],
        call: &O::Call,
        spare: Option<Chunk>,
    ) -> CoreOut<O>
        requires here { self.old.region ≡ r.now }
        requires hash { hash ≡ seeded_hash self.old.seed key.now }
        requires key { length key.now ≡ self.old.key_words }
        requires spare { IfSome spare (λ c. (c.part.region ≡ r.now) × (c.bytes ≡ self.old.item_bytes)) }
        ensures outcome { IsOutcome O.stepped self.old.size self.old.cells key.now call.now (is_some spare) result self.new.cells }
        ensures same { self.new ≡ record self.old { cells = self.new.cells } }
        ensures handed { HandsOut self.old.region self.old.item_bytes spare result }
        ensures roomy { IsRoomy self.new.size (fin.len self.new.cells) }
    {
        answer::<O>(
            &mut self.buckets,
            r,
            &mut self.count,
            self.size,
            u64::from(hash),
            key,
            call,
            spare,
        )
    }

    /// Whether the call would hang its key into a chain that has `longest` items already.
    fn would_crowd(
        &mut self,
        r: &Region,
        hash: u32,
        key: &[u64],
        call: &O::Call,
        longest: u32,
    ) -> bool
        requires here { self.old.region ≡ r.now }
        requires hash { hash ≡ seeded_hash self.old.seed key.now }
        requires key { length key.now ≡ self.old.key_words }
        ensures same { self.new ≡ self.old }
        ensures crowded { IsTrue result ↔ IsCrowded O.stepped self.old.seed self.old.size self.old.cells key.now call.now longest }
        ensures roomy { IsRoomy self.new.size (fin.len self.new.cells) }
    {
        is_crowded::<O>(
            &mut self.buckets,
            r,
            self.count,
            self.size,
            u64::from(hash),
            key,
            call,
            longest,
        )
    }

    /// The same, unless it would hang the key into a chain that has `longest` items already: then nothing has changed,
    /// and the spare item is handed back. A partition all of whose insertions are made so has no chain with more items
    /// than `longest`, whoever chooses the keys. If the partition has to grow first, that is the answer; to grow parts
    /// only keys whose hashes differ. It walks the chain once more, at most `longest` items of it.
    #[inline(always)]
    pub fn try_call_within(
        &mut self,
        r: &Region,
        hash: u32,
        key: &[u64],
        call: &O::Call,
        spare: Option<Chunk>,
        longest: u32,
    ) -> Result<CoreOut<O>, Option<Chunk>>
        requires here { self.old.region ≡ r.now }
        requires hash { hash ≡ seeded_hash self.old.seed key.now }
        requires key { length key.now ≡ self.old.key_words }
        requires spare { IfSome spare (λ c. (c.part.region ≡ r.now) × (c.bytes ≡ self.old.item_bytes)) }
        ensures outcome { IfOk result (λ out. IsOutcome O.stepped self.old.size self.old.cells key.now call.now (is_some spare) out self.new.cells) }
        ensures same { self.new ≡ record self.old { cells = self.new.cells } }
        ensures handed { IfOk result (HandsOut self.old.region self.old.item_bytes spare) }
        ensures within { OnOk result (IsCrowded O.stepped self.old.seed self.old.size self.old.cells key.now call.now longest → ⊥) }
        ensures crowded { IfErr result (λ back. IsCrowded O.stepped self.old.seed self.old.size self.old.cells key.now call.now longest × (back ≡ spare) × (self.new ≡ self.old)) }
        ensures roomy { IsRoomy self.new.size (fin.len self.new.cells) }
    {
        if self.would_crowd(r, hash, key, call, longest) {
            return Err(spare);
        }
        Ok(self.try_call_with_hash(r, hash, key, call, spare))
    }

    /// Takes an entry out, whichever comes next, by a call of its key; None if there is no key. `words` is memory for
    /// the key. It goes round the buckets, each time on from the one where it was last, over those that are empty: to
    /// take one key after another until none is left takes some steps for each key and for each bucket. It takes no
    /// memory.
    pub fn take_any(&mut self, r: &Region, call: &O::Call, words: Vec<u64>) -> Option<Taken<O>>
        requires here { self.old.region ≡ r.now }
        requires words { length words.items ≡ self.old.key_words }
        requires removes { AlwaysRemoves O.stepped call.now }
        ensures none { IfNone result ((self.old.cells ≡ fin.empty) × (self.new ≡ self.old)) }
        ensures taken { IfSome result (λ t. IsDone O.stepped self.old.size self.old.cells t.key call.now false t.reply false true self.new.cells) }
        ensures same { self.new ≡ record self.old { cells = self.new.cells } }
        ensures key { IfSome result (λ t. length t.key ≡ self.old.key_words) }
        ensures item { IfSome result (λ t. (t.item.part.region ≡ self.old.region) × (t.item.bytes ≡ self.old.item_bytes)) }
        ensures roomy { IsRoomy self.new.size (fin.len self.new.cells) }
    {
        if self.count == 0 {
            return None;
        }
        let Some((bucket, spot)) = spot_at_hand(&mut self.buckets, r, self.hand) else {
            return None;
        };
        self.hand = bucket;
        Some(take_at::<O>(
            &mut self.buckets,
            r,
            &mut self.count,
            bucket,
            spot,
            call,
            words,
        ))
    }

    /// Each key with its state, in no stated order. It takes memory for the entries, at once, and for each key.
    pub fn list(&mut self, alloc: Global, r: &Region) -> Result<Vec<Entry<O>>, AllocError>
        requires here { self.old.region ≡ r.now }
        ensures same { self.new ≡ self.old }
        ensures roomy { IsRoomy self.old.size (fin.len self.old.cells) }
        ensures all { IfOk result (λ v. ListsAll self.old.cells (pairs_of v.items)) }
        ensures keys { IfOk result (λ v. HaveWords self.old.key_words (pairs_of v.items)) }
    {
        self.buckets.is_sound();
        list_all::<O>(&mut self.buckets, alloc, r, self.count)
    }

    /// Begins a move: the partition is empty, on a new slice and with the size that it is to have. Its former chains
    /// are handed out; the caller that moves gives their items back by `take_in`. One store for each new bucket.
    pub fn start_over(&mut self, r: &Region, size: u32, slice: Chunk) -> Buckets
        requires here { (self.old.region ≡ r.now) × (slice.part.region ≡ r.now) }
        requires size { (7 ≤ size) × (size ≤ 20) }
        requires room { buckets_of size ≤ slice.bytes / 8 }
        ensures fresh { self.new ≡ record self.old { slice = slice.at; words = slice.bytes / 8; size = size; cells = fin.empty } }
        ensures place { (result.region ≡ self.old.region) × (result.slice ≡ self.old.slice) × (result.words ≡ self.old.words) }
        ensures layout { (result.layout.seed ≡ self.old.seed) × (result.layout.key_words ≡ self.old.key_words) × (result.layout.value_words ≡ O.VALUE_WORDS) × (result.layout.item_bytes ≡ self.old.item_bytes) }
        ensures cells { AreCells self.old.size (fin.len self.old.cells) O.VALUE_WORDS result × (cells_of O.decoded result.chains ≡ self.old.cells) }
    {
        self.buckets.is_sound();
        let buckets = Buckets::new(
            r,
            slice,
            bucket_count(size),
            self.buckets.seed(),
            self.buckets.key_words(),
            O::VALUE_WORDS as u64,
            self.buckets.item_bytes(),
        );
        self.size = size;
        self.count = 0;
        mem::replace(&mut self.buckets, buckets)
    }

    /// Takes in an item that another chain held, whole: a few loads and stores.
    pub fn take_in(&mut self, r: &Region, item: Chunk)
        requires here { (self.old.region ≡ r.now) × (item.part.region ≡ r.now) }
        requires size { item.bytes ≡ self.old.item_bytes }
        requires item { (it : Item) × IsItemChunk item.at item.part.words (layout_of self.old O.VALUE_WORDS) it × (fin.contains_key self.old.cells it.key ≡ false) }
        requires room { IsRoomy self.old.size (fin.len self.old.cells + 1) }
        ensures { TakesIn O.decoded O.VALUE_WORDS self.old self.new item.at item.part.words }
    {
        let mut item = item;
        self.buckets.is_sound();
        let hash = item.load(r, 1);
        let bucket = bucket_of_hash(self.size, hash);
        self.count += 1;
        self.buckets.push(r, bucket, item);
    }
}
