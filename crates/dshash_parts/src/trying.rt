//! Calls that will not wait: each is one turn at its partition, made at once or not at all.
//!
//! A caller that tries brings what the turn may lack, an item for a new key or a slice for a move, so a try asks
//! nothing of any area; looks and listings lack nothing. If another caller has the partition, what was brought comes
//! back, nothing was done, and the pass counts a miss (`lock_book`'s `misses_of`): a call that gives up by itself has
//! counted none.

ghost use Rattle.std.specs.Prelude.{◌≡◌, ℕ, ◌/◌, ◌<◌, ◌≤◌, false, List, length, is_some, None, IfSome, IfOk, IfErr, OnOk, OnErr};
ghost use Rattle.std.specs.FinMap as fin;
ghost use Rattle.lock_book.specs.Shown.{Missed, misses_of, number_of, seen_of, mine_of};
ghost use Rattle.dsa_area.specs.Sizes.{chunk_size};
ghost use Rattle.dshash_core.specs.Key.{hash_of};
ghost use Rattle.dshash_core.specs.Cells.{buckets_of, partition_of};
ghost use Rattle.dshash_core.specs.Listing.{pairs_of};
ghost use Rattle.dshash_core.specs.Outcome.{HandsOut, ListsAll};
ghost use Rattle.dshash_parts.specs.Asked.{listed_of, outcome_of};
ghost use Rattle.dshash_parts.specs.Legal.{AreAllowed};
ghost use Rattle.dshash_parts.specs.Lookups.{IsFound, KeepsCells};
ghost use Rattle.dshash_parts.specs.Owners.{IsOwner, IsOwnCell};
ghost use Rattle.dshash_parts.specs.Promises.{IsLastCall};
ghost use Rattle.dshash_parts.specs.Replays.{IsOneCell};
ghost use Rattle.dshash_parts.specs.Tables.{AreKeysOf, IsTable, Turned, item_of, key_words_of, map_at, size_at, Belongs};
ghost use Rattle.dshash_parts.specs.Tries.{Tells};
ghost use Rattle.region_words.specs.declared.chunk.Chunk.{Chunk};
ghost use Rattle.dshash_parts.specs.declared.asks.TableAnswer.TheVariants.{Came, Entries, LeftOver, Size};
ghost use Rattle.dshash_parts.specs.declared.histories.PartitionCalls.TheVariants.{Call, Lists, Looks, Moves};
ghost use Rattle.dshash_parts.specs.declared.histories.PartitionReplies.TheVariants.{HasSize, Made, Moved};

use crate::asks::{TableAnswer, TableAsk};
use crate::key::Key;
use crate::table::{DsPass, Dshash};
use dshash_core::{CellObject, CoreOut, Entry, hash_key, partition_of_hash};
use region_words::{Chunk, Region};
use std::alloc::{AllocError, Global};

/// Another caller has the partition at this moment.
#[derive(Clone, Copy, Debug, PartialEq, Eq)]
pub struct Busy;

/// What became of a call of a key, of its answer.
fn came<O: CellObject>(answer: TableAnswer<O>) -> CoreOut<O>
    requires { (out : _) × (answer ≡ Came out) }
    ensures { answer ≡ Came result }
{
    match answer {
        TableAnswer::Came(out) => out,
        _ => unreachable!(),
    }
}

/// The slice that a move left over, of its answer.
fn left_over<O: CellObject>(answer: TableAnswer<O>) -> Chunk
    requires { (left : Chunk) × (answer ≡ LeftOver left) }
    ensures { answer ≡ LeftOver result }
{
    match answer {
        TableAnswer::LeftOver(left) => left,
        _ => unreachable!(),
    }
}

/// The number of keys, of its answer.
fn counted<O: CellObject>(answer: TableAnswer<O>) -> u64
    requires { (size keys : ℕ) × (answer ≡ Size size keys) }
    ensures { (size : ℕ) × (answer ≡ Size size result) }
{
    match answer {
        TableAnswer::Size(_, keys) => keys,
        _ => unreachable!(),
    }
}

/// What became of a listing, of its answer.
fn listed<O: CellObject>(answer: TableAnswer<O>) -> Result<Vec<Entry<O>>, AllocError>
    requires { (entries : _) × (answer ≡ Entries entries) }
    ensures { answer ≡ Entries result }
{
    match answer {
        TableAnswer::Entries(entries) => entries,
        _ => unreachable!(),
    }
}

impl<O: CellObject + Send> Dshash<O>
where
    O::State: Send,
    O::Call: Send,
    O::Reply: Send,
{
    /// Makes a call of a key at once, with a spare item or without: a chunk with the number of bytes that the area
    /// grants for an item of this table. It answers as a partition does: the call was made; or it lacks an item, or the
    /// partition has to grow first (`try_grow`), and then the table is as it was. If another caller has the key's
    /// partition, the spare comes back. It costs one hash, one walk along a chain and one turn, and takes no memory.
    pub fn try_call(
        &self,
        r: &Region,
        pass: &mut DsPass<O>,
        key: &[u64],
        call: &O::Call,
        spare: Option<Chunk>,
    ) -> Result<CoreOut<O>, Option<Chunk>>
        requires table { IsTable r.now self.now }
        requires own { Belongs self.now pass.old }
        requires key { length key.now ≡ key_words_of self.now }
        requires may { O.may (number_of pass.old) key.now call.now }
        requires spare { IfSome spare (λ c. (c.part.region ≡ r.now) × (c.bytes ≡ chunk_size (item_of self.now))) }
        ensures own { Belongs self.now pass.new }
        ensures caller { number_of pass.new ≡ number_of pass.old }
        ensures event { IfOk result (λ out. Turned O.stepped pass.old pass.new (partition_of (hash_of key.now)) (Call key.now call.now (is_some spare)) (outcome_of out)) }
        ensures handed { IfOk result (λ out. HandsOut r.now (chunk_size (item_of self.now)) spare out) }
        ensures told { IfOk result (Tells O.stepped (number_of pass.old) (seen_of pass.new) key.now call.now) }
        ensures free { OnOk result (misses_of pass.new ≡ misses_of pass.old) }
        ensures busy { IfErr result (λ back. (back ≡ spare) × Missed pass.old pass.new) }
        ensures allowed { (i : ℕ) → i < 128 → AreAllowed O.may (seen_of pass.new i) }
        ensures owned { (k : List ℕ) → IsOwner O.stepped O.may (number_of pass.old) k → IsOwnCell O.stepped (seen_of pass.new) (mine_of pass.new) k }
        ensures cells { (k : List ℕ) → IsOneCell O.stepped (seen_of pass.new) k }
    {
        let hash = hash_key(key);
        let number = partition_of_hash(hash);
        let own = self.own_hash(hash, key);
        let ask = TableAsk::Make(own, Key::of(key), *call, spare);
        match self.shelf.try_call(r, pass, number as usize, ask) {
            Ok(answer) => Ok(came(answer)),
            Err(TableAsk::Make(_, _, _, spare)) => Err(spare),
            Err(_) => unreachable!(),
        }
    }

    /// As `find` at once, or not if another caller has the key's partition.
    pub fn try_find(
        &self,
        r: &Region,
        pass: &mut DsPass<O>,
        key: &[u64],
        call: &O::Call,
    ) -> Result<O::Reply, Busy>
        requires table { IsTable r.now self.now }
        requires own { Belongs self.now pass.old }
        requires key { length key.now ≡ key_words_of self.now }
        requires may { O.may (number_of pass.old) key.now call.now }
        requires keeps { KeepsCells O.stepped call.now }
        ensures own { Belongs self.now pass.new }
        ensures caller { number_of pass.new ≡ number_of pass.old }
        ensures event { IfOk result (λ reply. Turned O.stepped pass.old pass.new (partition_of (hash_of key.now)) (Call key.now call.now false) (Made reply false false)) }
        ensures found { IfOk result (λ reply. IsFound O.stepped (seen_of pass.new) key.now call.now reply) }
        ensures last { IfOk result (λ reply. IsLastCall (number_of pass.old) key.now call.now reply (seen_of pass.new (partition_of (hash_of key.now)))) }
        ensures free { OnOk result (misses_of pass.new ≡ misses_of pass.old) }
        ensures busy { OnErr result (Missed pass.old pass.new) }
        ensures allowed { (i : ℕ) → i < 128 → AreAllowed O.may (seen_of pass.new i) }
        ensures owned { (k : List ℕ) → IsOwner O.stepped O.may (number_of pass.old) k → IsOwnCell O.stepped (seen_of pass.new) (mine_of pass.new) k }
        ensures cells { (k : List ℕ) → IsOneCell O.stepped (seen_of pass.new) k }
    {
        match self.try_call(r, pass, key, call, None) {
            Ok(CoreOut::Done { reply, .. }) => Ok(reply),
            Ok(_) => unreachable!(),
            Err(_) => Err(Busy),
        }
    }

    /// Moves the partition of this number to a larger slice at once. Returns the slice that is left over: the former
    /// one, or the one that was brought if the partition has that size already. If another caller has the partition,
    /// the slice comes back. It costs a step for each key of the partition, and takes no memory.
    pub fn try_grow(
        &self,
        r: &Region,
        pass: &mut DsPass<O>,
        partition: u32,
        size: u32,
        slice: Chunk,
    ) -> Result<Chunk, Chunk>
        requires table { IsTable r.now self.now }
        requires own { Belongs self.now pass.old }
        requires number { partition < 128 }
        requires size { (8 ≤ size) × (size ≤ 20) }
        requires slice { (slice.part.region ≡ r.now) × (buckets_of size ≤ slice.bytes / 8) }
        ensures own { Belongs self.now pass.new }
        ensures caller { number_of pass.new ≡ number_of pass.old }
        ensures event { IfOk result (λ left. Turned O.stepped pass.old pass.new partition (Moves size) (Moved left.bytes)) }
        ensures grown { OnOk result (size ≤ size_at (seen_of pass.new) partition) }
        ensures here { IfOk result (λ left. left.part.region ≡ r.now) }
        ensures free { OnOk result (misses_of pass.new ≡ misses_of pass.old) }
        ensures busy { IfErr result (λ back. (back ≡ slice) × Missed pass.old pass.new) }
    {
        let ask = TableAsk::Grow(size, slice);
        match self.shelf.try_call(r, pass, partition as usize, ask) {
            Ok(answer) => Ok(left_over(answer)),
            Err(TableAsk::Grow(_, slice)) => Err(slice),
            Err(_) => unreachable!(),
        }
    }

    /// As `count_one` at once, or not if another caller has the partition.
    pub fn try_count(&self, r: &Region, pass: &mut DsPass<O>, partition: u32) -> Result<u64, Busy>
        requires table { IsTable r.now self.now }
        requires own { Belongs self.now pass.old }
        requires number { partition < 128 }
        ensures own { Belongs self.now pass.new }
        ensures caller { number_of pass.new ≡ number_of pass.old }
        ensures event { IfOk result (λ keys. (size : ℕ) × Turned O.stepped pass.old pass.new partition Looks (HasSize size keys)) }
        ensures counted { IfOk result (λ keys. keys ≡ fin.len (map_at (seen_of pass.new) partition)) }
        ensures free { OnOk result (misses_of pass.new ≡ misses_of pass.old) }
        ensures busy { OnErr result (Missed pass.old pass.new) }
    {
        match self
            .shelf
            .try_call(r, pass, partition as usize, TableAsk::Look)
        {
            Ok(answer) => Ok(counted(answer)),
            Err(_) => Err(Busy),
        }
    }

    /// As `list_one` at once, or not if another caller has the partition. The inner error is that there was no memory
    /// for the entries.
    pub fn try_list(
        &self,
        alloc: Global,
        r: &Region,
        pass: &mut DsPass<O>,
        partition: u32,
    ) -> Result<Result<Vec<Entry<O>>, AllocError>, Busy>
        requires table { IsTable r.now self.now }
        requires own { Belongs self.now pass.old }
        requires number { partition < 128 }
        ensures own { Belongs self.now pass.new }
        ensures caller { number_of pass.new ≡ number_of pass.old }
        ensures event { IfOk result (λ listed. Turned O.stepped pass.old pass.new partition Lists (listed_of (λ v. pairs_of v.items) listed)) }
        ensures all { IfOk result (λ listed. IfOk listed (λ v. ListsAll (map_at (seen_of pass.new) partition) (pairs_of v.items))) }
        ensures keys { IfOk result (λ listed. IfOk listed (λ v. AreKeysOf self.now partition (pairs_of v.items))) }
        ensures free { OnOk result (misses_of pass.new ≡ misses_of pass.old) }
        ensures busy { OnErr result (Missed pass.old pass.new) }
    {
        match self
            .shelf
            .try_call(r, pass, partition as usize, TableAsk::List(alloc))
        {
            Ok(answer) => Ok(listed(answer)),
            Err(_) => Err(Busy),
        }
    }
}
