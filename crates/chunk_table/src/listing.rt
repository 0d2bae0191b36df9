//! The names of the chunks of one partition, and how many there are.

ghost use Rattle.std.specs.Prelude.{◌≡◌, ℕ, ◌<◌, IfOk};
ghost use Rattle.std.specs.FinMap as fin;
ghost use Rattle.lock_book.specs.Shown.{number_of, seen_of};
ghost use Rattle.dshash_core.specs.Listing.{HaveWords, pairs_of};
ghost use Rattle.dshash_chunks.specs.Held.{stepped};
ghost use Rattle.dshash_chunks.specs.Outcomes.{ListsNames};
ghost use Rattle.dshash_parts.specs.Tables.{map_at};
ghost use Rattle.dshash_parts.specs.declared.histories.PartitionCalls.TheVariants.{Looks};
ghost use Rattle.dshash_parts.specs.declared.histories.PartitionReplies.TheVariants.{HasSize};
ghost use Rattle.chunk_table.specs.Tables.{Belongs, IsTable, Turned, item_of, key_words_of};

use crate::asks::{ChunkAnswer, ChunkAsk};
use crate::table::{ChunkPass, ChunkTable};
use crate::turns::look_at;
use dshash_chunks::{ChunkObject, Names};
use dshash_core::Entry;
use region_words::Region;
use std::alloc::{AllocError, Global};
use std::sync::Wait;

impl<W: ChunkObject + Send> ChunkTable<W>
where
    W::Call: Send,
    W::Reply: Send,
{
    /// The bytes that are asked of the area for an item.
    pub fn item_bytes(&self) -> u64
        ensures { result ≡ item_of self.now }
    {
        self.item_bytes
    }

    /// The keys of a partition with the places and lengths of their chunks, each once, in no stated order, as they were
    /// at one event. It waits for the partition's lock, and takes memory for the entries and their keys while it has it.
    pub fn list_one<R: Wait>(
        &self,
        rt: &R,
        alloc: Global,
        r: &Region,
        pass: &mut ChunkPass<W>,
        partition: u32,
    ) -> Result<Vec<Entry<Names>>, AllocError>
        requires table { IsTable r.now self.now }
        requires own { Belongs self.now pass.old }
        requires number { partition < 128 }
        ensures own { Belongs self.now pass.new }
        ensures caller { number_of pass.new ≡ number_of pass.old }
        ensures all { IfOk result (λ v. ListsNames (map_at (seen_of pass.new) partition) (pairs_of v.items)) }
        ensures keys { IfOk result (λ v. HaveWords (key_words_of self.now) (pairs_of v.items)) }
    {
        match self
            .shelf
            .call(rt, r, pass, partition as usize, ChunkAsk::List(alloc))
        {
            ChunkAnswer::Listed(entries, _) => entries,
            _ => unreachable!(),
        }
    }

    /// The number of keys of a partition, as it was at one event. It waits for the partition's lock, reads one number
    /// and takes no memory.
    pub fn count_one<R: Wait>(
        &self,
        rt: &R,
        r: &Region,
        pass: &mut ChunkPass<W>,
        partition: u32,
    ) -> u64
        requires table { IsTable r.now self.now }
        requires own { Belongs self.now pass.old }
        requires number { partition < 128 }
        ensures own { Belongs self.now pass.new }
        ensures caller { number_of pass.new ≡ number_of pass.old }
        ensures event { (size : ℕ) × Turned (stepped W.worked) pass.old pass.new partition Looks (HasSize size result) }
        ensures counted { result ≡ fin.len (map_at (seen_of pass.new) partition) }
    {
        let (_size, keys) = look_at(rt, self, r, pass, partition);
        keys
    }
}
