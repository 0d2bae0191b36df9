//! The turns that a call of the table takes, each one event of one partition.

ghost use Rattle.std.specs.Prelude.{◌≡◌, ℕ, ◌/◌, ◌<◌, ◌≤◌, true, false, List, length, Some, is_some, IfNone, IfSome};
ghost use Rattle.std.specs.Option.{option_map};
ghost use Rattle.std.specs.FinMap as fin;
ghost use Rattle.lock_book.specs.Shown.{number_of, seen_of};
ghost use Rattle.dsa_area.specs.Sizes.{chunk_size};
ghost use Rattle.dshash_core.specs.Key.{hash_of, seeded_hash};
ghost use Rattle.dshash_core.specs.Cells.{buckets_of, partition_of};
ghost use Rattle.dshash_chunks.specs.Held.{held_in, stepped};
ghost use Rattle.dshash_chunks.specs.Outcomes.{HandsBack};
ghost use Rattle.dshash_chunks.specs.declared.held.ChunkCalls.TheVariants as chunk_call;
ghost use Rattle.dshash_chunks.specs.declared.held.ChunkReplies.TheVariants as said;
ghost use Rattle.dshash_parts.specs.Tables.{map_at, size_at};
ghost use Rattle.dshash_parts.specs.declared.histories.PartitionCalls.TheVariants.{Call, Looks, Moves};
ghost use Rattle.dshash_parts.specs.declared.histories.PartitionReplies.TheVariants.{HasSize, Made, Moved};
ghost use Rattle.chunk_table.specs.Asked.{outcome_of};
ghost use Rattle.chunk_table.specs.Tables.{Belongs, IsTable, Turned};

use crate::asks::{ChunkAnswer, ChunkAsk};
use crate::table::{ChunkPass, ChunkTable};
use dshash_chunks::{ChunkObject, PutOut, TakenChunk, TookOut};
use dshash_core::seeded_hash_key;
use dshash_parts::Key;
use region_words::{Chunk, Region};
use std::sync::Wait;

impl<W: ChunkObject + Send> ChunkTable<W>
where
    W::Call: Send,
    W::Reply: Send,
{
    /// The hash that says a key's bucket, from its hash without a seed: another one only if the table has a seed.
    #[tactic(auto, using(dshash_core::proofs::Hashes::unseeded))]
    #[inline(always)]
    pub(crate) fn own_hash(&self, hash: u32, key: &[u64]) -> u32
        requires { hash ≡ hash_of key.now }
        ensures { result ≡ seeded_hash self.now.seed key.now }
    {
        if self.seed == 0 {
            return hash;
        }
        seeded_hash_key(self.seed, key)
    }
}

/// A put of a chunk, at the key's partition.
#[inline(always)]
pub(crate) fn put_at<R: Wait, W: ChunkObject + Send>(
    rt: &R,
    table: &ChunkTable<W>,
    r: &Region,
    pass: &mut ChunkPass<W>,
    number: u32,
    hash: u32,
    key: &[u64],
    chunk: Chunk,
    spare: Option<Chunk>,
) -> PutOut
where
    W::Call: Send,
    W::Reply: Send,
    requires table { IsTable r.now table.now }
    requires own { Belongs table.now pass.old }
    requires number { number < 128 }
    requires hash { (hash ≡ seeded_hash table.now.seed key.now) × (partition_of (hash_of key.now) ≡ number) }
    requires key { length key.now ≡ table.now.key_words }
    requires may { W.may (number_of pass.old) key.now (chunk_call.Put (held_in chunk)) }
    requires chunk { chunk.part.region ≡ r.now }
    requires spare { IfSome spare (λ c. (c.part.region ≡ r.now) × (c.bytes ≡ chunk_size table.now.item_bytes)) }
    ensures own { Belongs table.now pass.new }
    ensures caller { number_of pass.new ≡ number_of pass.old }
    ensures grows { (k : ℕ) → k < 128 → size_at (seen_of pass.old) k ≤ size_at (seen_of pass.new) k }
    ensures event { Turned (stepped W.worked) pass.old pass.new number (Call key.now (chunk_call.Put (held_in chunk)) (is_some spare)) (outcome_of result) }
    ensures handed { HandsBack r.now chunk spare result }
{
    let ask = ChunkAsk::Put(hash, Key::of(key), chunk, spare);
    match table.shelf.call(rt, r, pass, number as usize, ask) {
        ChunkAnswer::Placed(out) => out,
        _ => unreachable!(),
    }
}

/// The chunk of a key is taken out, at its partition.
#[inline(always)]
pub(crate) fn take_at<R: Wait, W: ChunkObject + Send>(
    rt: &R,
    table: &ChunkTable<W>,
    r: &Region,
    pass: &mut ChunkPass<W>,
    number: u32,
    hash: u32,
    key: &[u64],
) -> TookOut
where
    W::Call: Send,
    W::Reply: Send,
    requires table { IsTable r.now table.now }
    requires own { Belongs table.now pass.old }
    requires number { number < 128 }
    requires hash { (hash ≡ seeded_hash table.now.seed key.now) × (partition_of (hash_of key.now) ≡ number) }
    requires key { length key.now ≡ table.now.key_words }
    requires may { W.may (number_of pass.old) key.now chunk_call.Take }
    ensures own { Belongs table.now pass.new }
    ensures caller { number_of pass.new ≡ number_of pass.old }
    ensures event { Turned (stepped W.worked) pass.old pass.new number (Call key.now chunk_call.Take false) (Made (said.Was (option_map held_in result.chunk)) false (is_some result.item)) }
    ensures chunk { IfSome result.chunk (λ c. c.part.region ≡ r.now) }
    ensures item { IfSome result.item (λ c. (c.part.region ≡ r.now) × (c.bytes ≡ chunk_size table.now.item_bytes)) }
{
    let ask = ChunkAsk::Take(hash, Key::of(key));
    match table.shelf.call(rt, r, pass, number as usize, ask) {
        ChunkAnswer::Out(took) => took,
        _ => unreachable!(),
    }
}

/// A step on the chunk of a key, at its partition.
#[inline(always)]
pub(crate) fn with_at<R: Wait, W: ChunkObject + Send>(
    rt: &R,
    table: &ChunkTable<W>,
    r: &Region,
    pass: &mut ChunkPass<W>,
    number: u32,
    hash: u32,
    key: &[u64],
    call: &W::Call,
) -> Option<W::Reply>
where
    W::Call: Send,
    W::Reply: Send,
    requires table { IsTable r.now table.now }
    requires own { Belongs table.now pass.old }
    requires number { number < 128 }
    requires hash { (hash ≡ seeded_hash table.now.seed key.now) × (partition_of (hash_of key.now) ≡ number) }
    requires key { length key.now ≡ table.now.key_words }
    requires may { W.may (number_of pass.old) key.now (chunk_call.With call.now) }
    ensures own { Belongs table.now pass.new }
    ensures caller { number_of pass.new ≡ number_of pass.old }
    ensures event { Turned (stepped W.worked) pass.old pass.new number (Call key.now (chunk_call.With call.now) false) (Made (said.Did result) false false) }
{
    let ask = ChunkAsk::With(hash, Key::of(key), *call);
    match table.shelf.call(rt, r, pass, number as usize, ask) {
        ChunkAnswer::Did(reply) => reply,
        _ => unreachable!(),
    }
}

/// The size of a partition, and the number of its keys.
pub(crate) fn look_at<R: Wait, W: ChunkObject + Send>(
    rt: &R,
    table: &ChunkTable<W>,
    r: &Region,
    pass: &mut ChunkPass<W>,
    number: u32,
) -> (u32, u64)
where
    W::Call: Send,
    W::Reply: Send,
    requires table { IsTable r.now table.now }
    requires own { Belongs table.now pass.old }
    requires number { number < 128 }
    ensures own { Belongs table.now pass.new }
    ensures caller { number_of pass.new ≡ number_of pass.old }
    ensures grows { (k : ℕ) → k < 128 → size_at (seen_of pass.old) k ≤ size_at (seen_of pass.new) k }
    ensures event { Turned (stepped W.worked) pass.old pass.new number Looks (HasSize result.0 result.1) }
    ensures told { size_at (seen_of pass.new) number ≡ result.0 }
    ensures keys { result.1 ≡ fin.len (map_at (seen_of pass.new) number) }
    ensures size { (7 ≤ result.0) × (result.0 ≤ 20) }
{
    match table
        .shelf
        .call(rt, r, pass, number as usize, ChunkAsk::Look)
    {
        ChunkAnswer::Size(size, keys) => (size, keys),
        _ => unreachable!(),
    }
}

/// A partition moves to a larger slice. Returns the slice that is left over.
pub(crate) fn grow_at<R: Wait, W: ChunkObject + Send>(
    rt: &R,
    table: &ChunkTable<W>,
    r: &Region,
    pass: &mut ChunkPass<W>,
    number: u32,
    size: u32,
    slice: Chunk,
) -> Chunk
where
    W::Call: Send,
    W::Reply: Send,
    requires table { IsTable r.now table.now }
    requires own { Belongs table.now pass.old }
    requires number { number < 128 }
    requires size { (8 ≤ size) × (size ≤ 20) }
    requires slice { (slice.part.region ≡ r.now) × (buckets_of size ≤ slice.bytes / 8) }
    ensures own { Belongs table.now pass.new }
    ensures caller { number_of pass.new ≡ number_of pass.old }
    ensures grows { (k : ℕ) → k < 128 → size_at (seen_of pass.old) k ≤ size_at (seen_of pass.new) k }
    ensures event { Turned (stepped W.worked) pass.old pass.new number (Moves size) (Moved result.bytes) }
    ensures grown { size ≤ size_at (seen_of pass.new) number }
    ensures here { result.part.region ≡ r.now }
{
    let ask = ChunkAsk::Grow(size, slice);
    match table.shelf.call(rt, r, pass, number as usize, ask) {
        ChunkAnswer::LeftOver(left) => left,
        _ => unreachable!(),
    }
}

/// A key is taken out of a partition with its chunk, whichever comes next. If there is none, the turn was a look.
pub(crate) fn draw_at<R: Wait, W: ChunkObject + Send>(
    rt: &R,
    table: &ChunkTable<W>,
    r: &Region,
    pass: &mut ChunkPass<W>,
    number: u32,
    words: Vec<u64>,
) -> Option<TakenChunk>
where
    W::Call: Send,
    W::Reply: Send,
    requires table { IsTable r.now table.now }
    requires own { Belongs table.now pass.old }
    requires number { number < 128 }
    requires may { (key : List ℕ) → partition_of (hash_of key) ≡ number → W.may (number_of pass.old) key chunk_call.Take }
    requires words { length words.items ≡ table.now.key_words }
    ensures own { Belongs table.now pass.new }
    ensures caller { number_of pass.new ≡ number_of pass.old }
    ensures event { IfSome result (λ t. Turned (stepped W.worked) pass.old pass.new number (Call t.key chunk_call.Take false) (Made (said.Was (Some (held_in t.chunk))) false true)) }
    ensures look { IfNone result ((size : ℕ) × Turned (stepped W.worked) pass.old pass.new number Looks (HasSize size 0)) }
    ensures key { IfSome result (λ t. (length t.key ≡ table.now.key_words) × (partition_of (hash_of t.key) ≡ number)) }
    ensures here { IfSome result (λ t. (t.chunk.part.region ≡ r.now) × (t.item.part.region ≡ r.now) × (t.item.bytes ≡ chunk_size table.now.item_bytes)) }
{
    let ask = ChunkAsk::Draw(words);
    match table.shelf.call(rt, r, pass, number as usize, ask) {
        ChunkAnswer::Drawn(taken) => Some(taken),
        ChunkAnswer::Size(_, _) => None,
        _ => unreachable!(),
    }
}
