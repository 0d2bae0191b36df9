//! The entries of one partition, and how many there are.

ghost use Rattle.std.specs.Prelude.{◌≡◌, ℕ, ◌<◌, IfOk};
ghost use Rattle.std.specs.FinMap as fin;
ghost use Rattle.lock_book.specs.Shown.{number_of, seen_of, mine_of};
ghost use Rattle.dshash_core.specs.Listing.{pairs_of};
ghost use Rattle.dshash_core.specs.Outcome.{ListsAll};
ghost use Rattle.dshash_parts.specs.Asked.{listed_of};
ghost use Rattle.dshash_parts.specs.Tables.{AreKeysOf, IsTable, Turned, item_of, map_at, Belongs};
ghost use Rattle.dshash_parts.specs.declared.histories.PartitionCalls.TheVariants.{Lists, Looks};
ghost use Rattle.dshash_parts.specs.declared.histories.PartitionReplies.TheVariants.{HasSize};

use crate::asks::{TableAnswer, TableAsk};
use crate::table::{DsPass, Dshash};
use crate::turns::look_at;
use dshash_core::{CellObject, Entry};
use region_words::Region;
use std::alloc::{AllocError, Global};
use std::sync::Wait;

impl<O: CellObject + Send> Dshash<O>
where
    O::State: Send,
    O::Call: Send,
    O::Reply: Send,
{
    /// The bytes that are asked of the area for an item.
    pub fn item_bytes(&self) -> u64
        ensures { result ≡ item_of self.now }
    {
        self.item_bytes
    }

    /// The entries of a partition, in no stated order, as they were at one event. It waits for the partition's lock,
    /// and takes memory for the entries and their keys while it has it.
    pub fn list_one<R: Wait>(
        &self,
        rt: &R,
        alloc: Global,
        r: &Region,
        pass: &mut DsPass<O>,
        partition: u32,
    ) -> Result<Vec<Entry<O>>, AllocError>
        requires table { IsTable r.now self.now }
        requires own { Belongs self.now pass.old }
        requires number { partition < 128 }
        ensures own { Belongs self.now pass.new }
        ensures caller { number_of pass.new ≡ number_of pass.old }
        ensures event { Turned O.stepped pass.old pass.new partition Lists (listed_of (λ v. pairs_of v.items) result) }
        ensures all { IfOk result (λ v. ListsAll (map_at (seen_of pass.new) partition) (pairs_of v.items)) }
        ensures keys { IfOk result (λ v. AreKeysOf self.now partition (pairs_of v.items)) }
    {
        match self
            .shelf
            .call(rt, r, pass, partition as usize, TableAsk::List(alloc))
        {
            TableAnswer::Entries(entries) => entries,
            _ => unreachable!(),
        }
    }

    /// The number of keys of a partition, as it was at one event. It waits for the partition's lock, reads one number
    /// and takes no memory.
    pub fn count_one<R: Wait>(
        &self,
        rt: &R,
        r: &Region,
        pass: &mut DsPass<O>,
        partition: u32,
    ) -> u64
        requires table { IsTable r.now self.now }
        requires own { Belongs self.now pass.old }
        requires number { partition < 128 }
        ensures own { Belongs self.now pass.new }
        ensures caller { number_of pass.new ≡ number_of pass.old }
        ensures event { (size : ℕ) × Turned O.stepped pass.old pass.new partition Looks (HasSize size result) }
        ensures counted { result ≡ fin.len (map_at (seen_of pass.new) partition) }
    {
        let (_size, keys) = look_at(rt, self, r, pass, partition);
        keys
    }
}
