//! The partition: the map of names, and the store of the words that they name.
//!
//! The holder of the partition owns the words of all chunks under its keys, and nobody else does. A chunk that comes is
//! joined to the store when the map has its name, and one that goes is cut off: so a chunk that was put and not taken
//! is the partition's, whatever becomes of the map's own words when it moves to a larger slice.

ghost use Rattle.std.specs.Prelude.{◌≡◌, true, false, ◌*◌, ◌/◌, ◌<◌, ◌≤◌, length, is_some, Some, IfOk, IfNone, IfSome};
ghost use Rattle.std.specs.Option.{option_map};
ghost use Rattle.std.specs.FinMap as fin;
ghost use Rattle.dshash_core.specs.Key.{item_size, seeded_hash};
ghost use Rattle.dshash_core.specs.Cells.{IsRoomy, buckets_of};
ghost use Rattle.dshash_core.specs.Outcome.{IsDone, IsMoved};
ghost use Rattle.dshash_core.specs.Listing.{HaveWords, pairs_of};
ghost use Rattle.dshash_chunks.specs.Held.{held_in, stepped};
ghost use Rattle.dshash_chunks.specs.Outcomes.{HandsBack, IsPutOut, ListsNames};
ghost use Rattle.dshash_chunks.specs.declared.held.ChunkCalls.TheVariants.{Take, With};
ghost use Rattle.dshash_chunks.specs.declared.held.ChunkReplies.TheVariants.{Was, Did};

use crate::name::{ChunkName, NameCall, Names};
use crate::object::ChunkObject;
use crate::outcome::{PutOut, TakenChunk, TookOut};
use crate::store::{cut, cut_if, lay};
use dshash_core::{CoreOut, Entry, Partition, Taken};
use dshash_resize::move_partition;
use region_words::{Chunk, Part, Region};
use std::alloc::{AllocError, Global};
use std::marker::{Model, PhantomData};

/// One partition. Contracts see what they see of dshash_core's, with a chunk and its words under each key.
#[derive(Drop)]
pub struct ChunkPartition<W: ChunkObject> {
    /// The place and the length of the chunk under each key.
    names: Partition<Names>,
    /// The words of these chunks.
    store: Part,
    object: PhantomData<W>,
}

impl<W: ChunkObject> Model for ChunkPartition<W> {
    ghost use Rattle.dshash_core.specs.Cells.{PartitionView, partition_code};
    ghost use Rattle.dshash_chunks.specs.declared.held.Held.{Held};
    ghost use Rattle.dshash_chunks.specs.Held.{held_code};
    ghost use Rattle.dshash_chunks.specs.Stored.{chunks_seen, IsStoring};

    ghost Value = { PartitionView Held };

    ghost coded = { partition_code held_code };

    ghost view = { λ p. chunks_seen p.names p.store };

    ghost invariant = { λ p. IsStoring p.names p.store };
}

impl<W: ChunkObject> ChunkPartition<W> {
    /// The empty partition of size 7, on a slice of a word or more. Its items are to be chunks of `item_chunk` bytes.
    pub fn new(
        r: &Region,
        slice: Chunk,
        key_words: u32,
        item_chunk: u64,
        seed: u64,
    ) -> ChunkPartition<W>
        requires here { slice.part.region ≡ r.now }
        requires room { 8 ≤ slice.bytes }
        requires fits { item_size key_words 2 ≤ item_chunk }
        ensures { result ≡ record { region = r.now; slice = slice.at; words = slice.bytes / 8; seed = seed; key_words = key_words; item_bytes = item_chunk; size = 7; cells = fin.empty } }
    {
        let Chunk {
            at,
            bytes,
            mut part,
        } = slice;
        let store = part.split(r, 0, 0);
        let slice = Chunk::of(part, at.word(), bytes / 8);
        ChunkPartition {
            names: Partition::with_seed(r, slice, key_words, item_chunk, seed),
            store,
            object: PhantomData,
        }
    }

    /// Its size, from 7 to 20: it has 2^(size - 7) buckets.
    pub fn size(&self) -> u32
        ensures is { result ≡ self.now.size }
        ensures range { (7 ≤ result) × (result ≤ 20) }
        ensures room { buckets_of result ≤ self.now.words }
        ensures roomy { IsRoomy result (fin.len self.now.cells) }
    {
        self.names.size()
    }

    /// The number of its keys.
    pub fn count(&self) -> u64
        ensures is { result ≡ fin.len self.now.cells }
        ensures roomy { IsRoomy self.now.size result }
    {
        self.names.count()
    }

    /// Puts a chunk under a key, whatever is there, or says what that lacks: an item, or more buckets. It walks one
    /// chain and takes no memory.
    #[inline]
    pub fn try_put(
        &mut self,
        r: &Region,
        hash: u32,
        key: &[u64],
        chunk: Chunk,
        spare: Option<Chunk>,
    ) -> PutOut
        requires here { (self.old.region ≡ r.now) × (chunk.part.region ≡ r.now) }
        requires hash { hash ≡ seeded_hash self.old.seed key.now }
        requires key { length key.now ≡ self.old.key_words }
        requires spare { IfSome spare (λ c. (c.part.region ≡ r.now) × (c.bytes ≡ self.old.item_bytes)) }
        ensures outcome { IsPutOut (stepped W.worked) self.old.size self.old.cells key.now (held_in chunk) (is_some spare) result self.new.cells }
        ensures same { self.new ≡ record self.old { cells = self.new.cells } }
        ensures handed { HandsBack self.old.region chunk spare result }
        ensures roomy { IsRoomy self.new.size (fin.len self.new.cells) }
    {
        let call = NameCall::Put(ChunkName::of(&chunk));
        match self.names.try_call_with_hash(r, hash, key, &call, spare) {
            CoreOut::Done {
                reply,
                unused,
                freed: _,
            } => {
                let before = cut_if(&mut self.store, r, reply);
                lay(&mut self.store, r, chunk);
                PutOut::Done { before, unused }
            }
            CoreOut::NeedItem => PutOut::NeedItem(chunk),
            CoreOut::TooFull { size, spare } => PutOut::TooFull { size, chunk, spare },
        }
    }

    /// Takes the chunk of a key out, and with it the key's item.
    #[inline]
    pub fn try_take(&mut self, r: &Region, hash: u32, key: &[u64]) -> TookOut
        requires here { self.old.region ≡ r.now }
        requires hash { hash ≡ seeded_hash self.old.seed key.now }
        requires key { length key.now ≡ self.old.key_words }
        ensures outcome { IsDone (stepped W.worked) self.old.size self.old.cells key.now Take false (Was (option_map held_in result.chunk)) false (is_some result.item) self.new.cells }
        ensures same { self.new ≡ record self.old { cells = self.new.cells } }
        ensures chunk { IfSome result.chunk (λ c. c.part.region ≡ self.old.region) }
        ensures item { IfSome result.item (λ c. (c.part.region ≡ self.old.region) × (c.bytes ≡ self.old.item_bytes)) }
        ensures roomy { IsRoomy self.new.size (fin.len self.new.cells) }
    {
        match self
            .names
            .try_call_with_hash(r, hash, key, &NameCall::Take, None)
        {
            CoreOut::Done { reply, freed, .. } => TookOut {
                chunk: cut_if(&mut self.store, r, reply),
                item: freed,
            },
            _ => unreachable!(),
        }
    }

    /// Takes a step on the chunk of a key, if there is one. The chunk stays the partition's.
    #[inline]
    pub fn try_with(
        &mut self,
        r: &Region,
        hash: u32,
        key: &[u64],
        call: &W::Call,
    ) -> Option<W::Reply>
        requires here { self.old.region ≡ r.now }
        requires hash { hash ≡ seeded_hash self.old.seed key.now }
        requires key { length key.now ≡ self.old.key_words }
        ensures outcome { IsDone (stepped W.worked) self.old.size self.old.cells key.now (With call.now) false (Did result) false false self.new.cells }
        ensures same { self.new ≡ record self.old { cells = self.new.cells } }
        ensures roomy { IsRoomy self.new.size (fin.len self.new.cells) }
    {
        match self
            .names
            .try_call_with_hash(r, hash, key, &NameCall::Get, None)
        {
            CoreOut::Done { reply, .. } => {
                let Some(name) = reply else { return None };
                let mut chunk = cut(&mut self.store, r, name);
                let answer = W::work(r, &mut chunk, call);
                lay(&mut self.store, r, chunk);
                Some(answer)
            }
            _ => unreachable!(),
        }
    }

    /// Takes a key out, whichever comes next, with its chunk and its item; None if there is no key. `words` is memory
    /// for the key. To take one after another until none is left takes some steps for each key and each bucket.
    pub fn take_any(&mut self, r: &Region, words: Vec<u64>) -> Option<TakenChunk>
        requires here { self.old.region ≡ r.now }
        requires words { length words.items ≡ self.old.key_words }
        ensures none { IfNone result ((self.old.cells ≡ fin.empty) × (self.new ≡ self.old)) }
        ensures taken { IfSome result (λ t. IsDone (stepped W.worked) self.old.size self.old.cells t.key Take false (Was (Some (held_in t.chunk))) false true self.new.cells) }
        ensures same { self.new ≡ record self.old { cells = self.new.cells } }
        ensures key { IfSome result (λ t. length t.key ≡ self.old.key_words) }
        ensures here { IfSome result (λ t. (t.chunk.part.region ≡ self.old.region) × (t.item.part.region ≡ self.old.region) × (t.item.bytes ≡ self.old.item_bytes)) }
        ensures roomy { IsRoomy self.new.size (fin.len self.new.cells) }
    {
        let Some(taken) = self.names.take_any(r, &NameCall::Take, words) else {
            return None;
        };
        let Taken { key, reply, item } = taken;
        let Some(name) = reply else { unreachable!() };
        let chunk = cut(&mut self.store, r, name);
        Some(TakenChunk { key, chunk, item })
    }

    /// Each key with the place and the length of its chunk, in no stated order. It takes memory for the entries, at
    /// once, and for each key.
    pub fn list(&mut self, alloc: Global, r: &Region) -> Result<Vec<Entry<Names>>, AllocError>
        requires here { self.old.region ≡ r.now }
        ensures same { self.new ≡ self.old }
        ensures roomy { IsRoomy self.old.size (fin.len self.old.cells) }
        ensures all { IfOk result (λ v. ListsNames self.old.cells (pairs_of v.items)) }
        ensures keys { IfOk result (λ v. HaveWords self.old.key_words (pairs_of v.items)) }
    {
        self.names.list(alloc, r)
    }

    /// Moves to a larger slice, of 2^(size - 7) words or more, and returns the former one. The chunks stay where they
    /// are.
    pub fn move_to(&mut self, r: &Region, size: u32, slice: Chunk) -> Chunk
        requires here { (self.old.region ≡ r.now) × (slice.part.region ≡ r.now) }
        requires size { (self.old.size < size) × (size ≤ 20) }
        requires room { buckets_of size ≤ slice.bytes / 8 }
        ensures moved { IsMoved self.old.size self.old.cells size self.new.size self.new.cells }
        ensures same { self.new ≡ record self.old { slice = slice.at; words = slice.bytes / 8; size = size } }
        ensures roomy { IsRoomy self.new.size (fin.len self.new.cells) }
        ensures slice { (result.part.region ≡ self.old.region) × (result.at ≡ self.old.slice) × (result.bytes ≡ 8 * self.old.words) }
    {
        move_partition(&mut self.names, r, size, slice)
    }
}
