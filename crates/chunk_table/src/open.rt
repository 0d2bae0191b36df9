//! How a table is made: a bucket slice of one word for each partition, and a pass for each caller.

ghost use Rattle.std.specs.Prelude.{◌≡◌, ℕ, ◌≤◌, [], length, map, IfOk};
ghost use mathlib.Core.Option.{some};
ghost use lib.ListN.{get_elem?};
ghost use Rattle.lock_book.specs.Shown.{mine_of, seen_of};
ghost use Rattle.dshash_core.specs.Key.{item_size};
ghost use Rattle.dshash_parts.specs.Asked.{name_of, state_of};
ghost use Rattle.dshash_parts.specs.Opening.{HaveWords, opens_from};
ghost use Rattle.chunk_table.specs.Tables.{IsTable, key_words_of, item_of, seed_of, AreAll, callers_of};

use crate::locked::Locked;
use crate::table::{ChunkPass, ChunkTable};
use dsa_area::chunk_bytes;
use dshash_chunks::{ChunkObject, ChunkPartition};
use dshash_core::item_bytes;
use lock_book::Shelf;
use region_words::{Chunk, Region};
use std::alloc::{AllocError, Global};

/// The words of a chunk's name in an item: its place and its length.
const NAME_WORDS: u32 = 2;

/// The empty partitions on these slices, in order.
fn partitions<W: ChunkObject>(
    alloc: Global,
    r: &Region,
    slices: Vec<Chunk>,
    seed: u64,
    key_words: u32,
    item_chunk: u64,
) -> Result<Vec<Locked<W>>, AllocError>
    requires slices { HaveWords r.now slices.items }
    requires few { length slices.items ≤ 128 }
    requires fits { item_size key_words 2 ≤ item_chunk }
    ensures { IfOk result (λ v. map (λ x. (name_of x.number x.partition, state_of x.partition)) v.items ≡ opens_from r.now seed key_words item_chunk 0 (length slices.items)) }
{
    let mut parts = Vec::with_capacity(alloc, slices.len())?;
    let mut number = 0;
    for slice in slices {
        let partition = ChunkPartition::new(r, slice, key_words, item_chunk, seed);
        parts.push_reserved(Locked { number, partition });
        number += 1;
    }
    Ok(parts)
}

impl<W: ChunkObject + Send> ChunkTable<W>
where
    W::Call: Send,
    W::Reply: Send,
{
    /// A table of keys of this many words, with 128 empty partitions of size 7, and a pass for each caller, in order of
    /// their numbers from 0. It is made on 128 slices that the caller brings (`cut_slices` of dshash_parts cuts them),
    /// of a word each at least, which are the table's from then on; the items and the larger slices come from the area
    /// that its calls bring. If strangers choose the keys, draw the seed; else let it be 0. It takes memory for the
    /// partitions, their locks and the passes; if there is none, the slices are dropped.
    pub fn on_slices(
        alloc: Global,
        r: &Region,
        slices: Vec<Chunk>,
        seed: u64,
        key_words: u32,
        callers: u32,
    ) -> Result<(ChunkTable<W>, Vec<ChunkPass<W>>), AllocError>
        requires count { length slices.items ≡ 128 }
        requires slices { HaveWords r.now slices.items }
        requires keys { (1 ≤ key_words) × (key_words ≤ 64) }
        requires callers { 1 ≤ callers }
        ensures table { IfOk result (λ t. IsTable r.now t.0) }
        ensures seed { IfOk result (λ t. seed_of t.0 ≡ seed) }
        ensures keys { IfOk result (λ t. key_words_of t.0 ≡ key_words) }
        ensures items { IfOk result (λ t. item_of t.0 ≡ item_size key_words 2) }
        ensures callers { IfOk result (λ t. callers_of t.0 ≡ callers) }
        ensures passes { IfOk result (λ t. AreAll t.0 t.1.items) }
        ensures fresh { IfOk result (λ t. (k : ℕ) (p : _) → get_elem? t.1.items k ≡ some p → (i : ℕ) → (seen_of p i ≡ []) × (mine_of p i ≡ [])) }
    {
        let item = item_bytes(key_words, NAME_WORDS);
        let parts = partitions::<W>(alloc, r, slices, seed, key_words, chunk_bytes(item))?;
        let (shelf, passes) = Shelf::new(alloc, parts, callers)?;
        let table = ChunkTable {
            seed,
            key_words,
            item_bytes: item,
            shelf,
        };
        Ok((table, passes))
    }
}
