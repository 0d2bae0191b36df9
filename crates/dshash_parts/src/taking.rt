//! Taking entries out of a partition, whichever comes next: so a table is drained, and a cache makes room, without a
//! list of keys.
//!
//! An entry is taken by a call of the object's, made of a key that the partition chooses. In the history that is a call
//! of that key as any other, so the key's calls are those of one cell, whichever callers made them.

ghost use Rattle.std.specs.Prelude.{◌≡◌, ℕ, ◌<◌, true, false, List, length, is_some, Some, IfOk, OnErr, IfNone, IfSome};
ghost use Rattle.std.specs.FinMap as fin;
ghost use Rattle.lock_book.specs.Shown.{number_of, seen_of, mine_of};
ghost use Rattle.dsa_area.specs.Sizes.{chunk_size};
ghost use Rattle.dsa_area.specs.Shown.{Belongs as AreaBelongs, IsArea, number_of as area_number};
ghost use Rattle.dshash_core.specs.Key.{hash_of};
ghost use Rattle.dshash_core.specs.Cells.{partition_of};
ghost use Rattle.dshash_core.specs.Outcome.{AlwaysRemoves};
ghost use Rattle.dshash_parts.specs.Legal.{AreAllowed};
ghost use Rattle.dshash_parts.specs.Owners.{IsOwner, IsOwnCell};
ghost use Rattle.dshash_parts.specs.Replays.{IsOneCell};
ghost use Rattle.dshash_parts.specs.Sweeps.{GaveBack};
ghost use Rattle.dshash_parts.specs.Tables.{IsHome, IsSpare, IsTable, Turned, item_of, key_words_of, map_at, Belongs};
ghost use Rattle.dshash_parts.specs.Takes.{IsTakenOut};
ghost use Rattle.dshash_parts.specs.declared.histories.PartitionCalls.TheVariants.{Call, Looks};
ghost use Rattle.dshash_parts.specs.declared.histories.PartitionReplies.TheVariants.{HasSize, Made};

use crate::requests::give;
use crate::table::{DsPass, Dshash};
use crate::turns::take_turn;
use dsa_area::{Area, AreaPass};
use dshash_core::{CellObject, KeyWords, Taken};
use region_words::Region;
use std::alloc::{AllocError, Global};
use std::sync::Wait;

impl<O: CellObject + Send> Dshash<O>
where
    O::State: Send,
    O::Call: Send,
    O::Reply: Send,
{
    /// Takes an entry out of a partition, whichever comes next, by a call that removes whatever is there: its key and
    /// what the call replied. None if the partition has no key. A caller that takes so may make the call of each key of
    /// the partition, so none of them is another caller's own.
    ///
    /// It may wait for the partition's lock, and for those of the area, with none of the table's in hand. It takes
    /// memory only for the key, and if there is none for it, nothing has happened. It goes on from the bucket where the
    /// last entry was taken, over empty ones: draining a partition costs some steps for each entry and each bucket.
    pub fn take_any<R: Wait>(
        &self,
        rt: &R,
        alloc: Global,
        r: &Region,
        area: &Area,
        pass: &mut DsPass<O>,
        apass: &mut AreaPass,
        partition: u32,
        call: &O::Call,
    ) -> Result<Option<(KeyWords, O::Reply)>, AllocError>
        requires table { IsTable r.now self.now }
        requires own { Belongs self.now pass.old }
        requires area { IsArea r.now area.now }
        requires home { IsHome area.now self.now }
        requires area_own { AreaBelongs area.now apass.old }
        requires number { partition < 128 }
        requires removes { AlwaysRemoves O.stepped call.now }
        requires may { (key : List ℕ) → partition_of (hash_of key) ≡ partition → O.may (number_of pass.old) key call.now }
        ensures own { Belongs self.now pass.new }
        ensures caller { number_of pass.new ≡ number_of pass.old }
        ensures area_own { AreaBelongs area.now apass.new }
        ensures area_caller { area_number apass.new ≡ area_number apass.old }
        ensures event { IfOk result (λ t. IfSome t (λ e. Turned O.stepped pass.old pass.new partition (Call e.0 call.now false) (Made e.1 false true))) }
        ensures look { IfOk result (λ t. IfNone t ((size : ℕ) × Turned O.stepped pass.old pass.new partition Looks (HasSize size 0))) }
        ensures none { IfOk result (λ t. IfNone t (fin.len (map_at (seen_of pass.new) partition) ≡ 0)) }
        ensures taken { IfOk result (λ t. IfSome t (λ e. IsTakenOut O.stepped (number_of pass.old) call.now e.0 e.1 (seen_of pass.new partition))) }
        ensures key { IfOk result (λ t. IfSome t (λ e. (length e.0 ≡ key_words_of self.now) × (partition_of (hash_of e.0) ≡ partition))) }
        ensures gave { IfOk result (λ t. GaveBack area.now apass.old apass.new (chunk_size (item_of self.now)) (is_some t)) }
        ensures refused { OnErr result ((pass.new ≡ pass.old) × (apass.new ≡ apass.old)) }
        ensures allowed { (i : ℕ) → i < 128 → AreAllowed O.may (seen_of pass.new i) }
        ensures owned { (k : List ℕ) → IsOwner O.stepped O.may (number_of pass.old) k → IsOwnCell O.stepped (seen_of pass.new) (mine_of pass.new) k }
        ensures cells { (k : List ℕ) → IsOneCell O.stepped (seen_of pass.new) k }
    {
        let taken = self.take_out(rt, alloc, r, pass, partition, call)?;
        match taken {
            Some(Taken { key, reply, item }) => {
                give(rt, area, r, apass, item);
                Ok(Some((key, reply)))
            }
            None => Ok(None),
        }
    }

    /// As `take_any`, but hands the entry's item out with it, which `take_any` gives to the area: the caller may keep
    /// it as its spare one (`call_with_spare`). It asks nothing of the area.
    pub fn take_out<R: Wait>(
        &self,
        rt: &R,
        alloc: Global,
        r: &Region,
        pass: &mut DsPass<O>,
        partition: u32,
        call: &O::Call,
    ) -> Result<Option<Taken<O>>, AllocError>
        requires table { IsTable r.now self.now }
        requires own { Belongs self.now pass.old }
        requires number { partition < 128 }
        requires removes { AlwaysRemoves O.stepped call.now }
        requires may { (key : List ℕ) → partition_of (hash_of key) ≡ partition → O.may (number_of pass.old) key call.now }
        ensures own { Belongs self.now pass.new }
        ensures caller { number_of pass.new ≡ number_of pass.old }
        ensures event { IfOk result (λ t. IfSome t (λ e. Turned O.stepped pass.old pass.new partition (Call e.key call.now false) (Made e.reply false true))) }
        ensures look { IfOk result (λ t. IfNone t ((size : ℕ) × Turned O.stepped pass.old pass.new partition Looks (HasSize size 0))) }
        ensures none { IfOk result (λ t. IfNone t (fin.len (map_at (seen_of pass.new) partition) ≡ 0)) }
        ensures taken { IfOk result (λ t. IfSome t (λ e. IsTakenOut O.stepped (number_of pass.old) call.now e.key e.reply (seen_of pass.new partition))) }
        ensures key { IfOk result (λ t. IfSome t (λ e. (length e.key ≡ key_words_of self.now) × (partition_of (hash_of e.key) ≡ partition))) }
        ensures item { IfOk result (λ t. IfSome t (λ e. IsSpare r.now self.now (Some e.item))) }
        ensures refused { OnErr result (pass.new ≡ pass.old) }
        ensures allowed { (i : ℕ) → i < 128 → AreAllowed O.may (seen_of pass.new i) }
        ensures owned { (k : List ℕ) → IsOwner O.stepped O.may (number_of pass.old) k → IsOwnCell O.stepped (seen_of pass.new) (mine_of pass.new) k }
        ensures cells { (k : List ℕ) → IsOneCell O.stepped (seen_of pass.new) k }
    {
        let words = vec![in alloc; 0u64; self.key_words as usize]?;
        Ok(take_turn(rt, self, r, pass, partition, call, words))
    }
}
