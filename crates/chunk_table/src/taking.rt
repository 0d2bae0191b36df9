//! Taking chunks out of a partition, whichever come next: so a table is drained, and a cache makes room, without a list
//! of keys.

ghost use Rattle.std.specs.Prelude.{◌≡◌, ℕ, ◌<◌, true, false, List, length, Some, IfOk, OnErr, IfNone, IfSome};
ghost use Rattle.std.specs.FinMap as fin;
ghost use Rattle.lock_book.specs.Shown.{number_of, seen_of, mine_of};
ghost use Rattle.dshash_core.specs.Key.{hash_of};
ghost use Rattle.dshash_core.specs.Cells.{partition_of};
ghost use Rattle.dshash_chunks.specs.Held.{held_in, stepped};
ghost use Rattle.dshash_chunks.specs.declared.held.ChunkCalls.TheVariants as chunk_call;
ghost use Rattle.dshash_chunks.specs.declared.held.ChunkReplies.TheVariants as said;
ghost use Rattle.dshash_parts.specs.Legal.{AreAllowed};
ghost use Rattle.dshash_parts.specs.Owners.{IsOwner, IsOwnCell};
ghost use Rattle.dshash_parts.specs.Replays.{IsOneCell};
ghost use Rattle.dshash_parts.specs.Tables.{map_at};
ghost use Rattle.dshash_parts.specs.Takes.{IsTakenOut};
ghost use Rattle.dshash_parts.specs.declared.histories.PartitionCalls.TheVariants.{Call, Looks};
ghost use Rattle.dshash_parts.specs.declared.histories.PartitionReplies.TheVariants.{HasSize, Made};
ghost use Rattle.chunk_table.specs.Tables.{Belongs, IsSpare, IsTable, Turned, key_words_of};

use crate::table::{ChunkPass, ChunkTable};
use crate::turns::draw_at;
use dshash_chunks::{ChunkObject, TakenChunk};
use region_words::Region;
use std::alloc::{AllocError, Global};
use std::sync::Wait;

impl<W: ChunkObject + Send> ChunkTable<W>
where
    W::Call: Send,
    W::Reply: Send,
{
    /// Takes a key out of a partition with its chunk and its item, whichever comes next. None if the partition has no
    /// key. A caller that takes so may take the chunk of each key of the partition, so none of them is another
    /// caller's own.
    ///
    /// It may wait for the partition's lock. It takes memory only for the key, and if there is none for it, nothing has
    /// happened. It goes on from the bucket where the last key was taken: draining a partition costs some steps for
    /// each key and each bucket.
    pub fn take_any<R: Wait>(
        &self,
        rt: &R,
        alloc: Global,
        r: &Region,
        pass: &mut ChunkPass<W>,
        partition: u32,
    ) -> Result<Option<TakenChunk>, AllocError>
        requires table { IsTable r.now self.now }
        requires own { Belongs self.now pass.old }
        requires number { partition < 128 }
        requires may { (key : List ℕ) → partition_of (hash_of key) ≡ partition → W.may (number_of pass.old) key chunk_call.Take }
        ensures own { Belongs self.now pass.new }
        ensures caller { number_of pass.new ≡ number_of pass.old }
        ensures event { IfOk result (λ t. IfSome t (λ e. Turned (stepped W.worked) pass.old pass.new partition (Call e.key chunk_call.Take false) (Made (said.Was (Some (held_in e.chunk))) false true))) }
        ensures look { IfOk result (λ t. IfNone t ((size : ℕ) × Turned (stepped W.worked) pass.old pass.new partition Looks (HasSize size 0))) }
        ensures none { IfOk result (λ t. IfNone t (fin.len (map_at (seen_of pass.new) partition) ≡ 0)) }
        ensures taken { IfOk result (λ t. IfSome t (λ e. IsTakenOut (stepped W.worked) (number_of pass.old) chunk_call.Take e.key (said.Was (Some (held_in e.chunk))) (seen_of pass.new partition))) }
        ensures key { IfOk result (λ t. IfSome t (λ e. (length e.key ≡ key_words_of self.now) × (partition_of (hash_of e.key) ≡ partition))) }
        ensures here { IfOk result (λ t. IfSome t (λ e. e.chunk.part.region ≡ r.now)) }
        ensures item { IfOk result (λ t. IfSome t (λ e. IsSpare r.now self.now (Some e.item))) }
        ensures refused { OnErr result (pass.new ≡ pass.old) }
        ensures allowed { (i : ℕ) → i < 128 → AreAllowed W.may (seen_of pass.new i) }
        ensures owned { (k : List ℕ) → IsOwner (stepped W.worked) W.may (number_of pass.old) k → IsOwnCell (stepped W.worked) (seen_of pass.new) (mine_of pass.new) k }
        ensures cells { (k : List ℕ) → IsOneCell (stepped W.worked) (seen_of pass.new) k }
    {
        let words = vec![in alloc; 0u64; self.key_words as usize]?;
        Ok(draw_at(rt, self, r, pass, partition, words))
    }
}
