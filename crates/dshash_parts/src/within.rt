//! Calls that bound the chains of the table, for callers that have another way for a key.
//!
//! Keys whose hashes are equal share a bucket at each size, so whoever chooses the keys may put as many as he likes into one
//! chain, and each call of such a key walks it. A table all of whose insertions are made by `call_within` has no chain with
//! more items than the bound.

ghost use Rattle.std.specs.Prelude.{◌≡◌, ℕ, ◌<◌, List, length, IfErr, IfOk};
ghost use Rattle.std.specs.FinMap as fin;
ghost use Rattle.lock_book.specs.Shown.{number_of, seen_of, mine_of};
ghost use Rattle.dsa_area.specs.Shown.{Belongs as AreaBelongs, IsArea, number_of as area_number};
ghost use Rattle.dshash_core.specs.Key.{hash_of};
ghost use Rattle.dshash_core.specs.Cells.{IsRoomy, partition_of};
ghost use Rattle.dshash_parts.specs.Legal.{AreAllowed};
ghost use Rattle.dshash_parts.specs.Tables.{IsHome, IsTable, key_words_of, map_at, size_at, Belongs};
ghost use Rattle.dshash_parts.specs.Owners.{IsOwner, IsOwnCell};
ghost use Rattle.dshash_parts.specs.Replays.{IsOneCell};
ghost use Rattle.dshash_parts.specs.Promises.{CallMade, IsLastCall};
ghost use Rattle.dshash_parts.specs.Within.{CallEnded};

use crate::calls::{double, keep_one};
use crate::requests::ask;
use crate::table::{DsPass, Dshash};
use crate::turns::try_within;
use dsa_area::{Area, AreaPass, NoSpace};
use dshash_core::{CellObject, CoreOut, hash_key, partition_of_hash};
use region_words::Region;
use std::sync::Wait;

/// Why a call with a bound was not made.
#[derive(Drop)]
pub enum NoRoom {
    /// The area has no room for an item, or for the table to grow.
    Space(NoSpace),
    /// The call would have hung its key into a chain that has as many items as the bound, or more.
    Chain,
}

impl<O: CellObject + Send> Dshash<O>
where
    O::State: Send,
    O::Call: Send,
    O::Reply: Send,
{
    /// As `call`, unless it would hang a new key into a chain of `longest` items or more: then the call is not made. A
    /// call of a key that is there is made whatever its chain. It costs what `call` does, and one more walk along the
    /// chain, of at most `longest` items. To grow parts only keys whose hashes differ, so a call that finds its chain too
    /// long doesn't ask for it; if the partition has to grow for the number of its keys, it does so first.
    pub fn call_within<R: Wait>(
        &self,
        rt: &R,
        r: &Region,
        area: &Area,
        pass: &mut DsPass<O>,
        apass: &mut AreaPass,
        key: &[u64],
        call: &O::Call,
        longest: u32,
    ) -> Result<O::Reply, NoRoom>
        requires table { IsTable r.now self.now }
        requires own { Belongs self.now pass.old }
        requires area { IsArea r.now area.now }
        requires home { IsHome area.now self.now }
        requires area_own { AreaBelongs area.now apass.old }
        requires key { length key.now ≡ key_words_of self.now }
        requires may { O.may (number_of pass.old) key.now call.now }
        ensures own { Belongs self.now pass.new }
        ensures caller { number_of pass.new ≡ number_of pass.old }
        ensures area_own { AreaBelongs area.now apass.new }
        ensures area_caller { area_number apass.new ≡ area_number apass.old }
        ensures made { IfOk result (CallMade O.stepped self.now area.now pass.old apass.old pass.new apass.new key.now call.now) }
        ensures refused { IfErr result (CallEnded O.stepped self.now area.now pass.old apass.old pass.new apass.new key.now call.now longest) }
        ensures last { IfOk result (λ reply. IsLastCall (number_of pass.old) key.now call.now reply (seen_of pass.new (partition_of (hash_of key.now)))) }
        ensures allowed { (i : ℕ) → i < 128 → AreAllowed O.may (seen_of pass.new i) }
        ensures owned { (k : List ℕ) → IsOwner O.stepped O.may (number_of pass.old) k → IsOwnCell O.stepped (seen_of pass.new) (mine_of pass.new) k }
        ensures cells { (k : List ℕ) → IsOneCell O.stepped (seen_of pass.new) k }
        ensures roomy { (k : ℕ) → k < 128 → IsRoomy (size_at (seen_of pass.new) k) (fin.len (map_at (seen_of pass.new) k)) }
    {
        let hash = hash_key(key);
        let number = partition_of_hash(hash);
        let own = self.own_hash(hash, key);
        let mut held = None;
        'turns: loop {
            match try_within(rt, self, r, pass, number, own, key, call, held, longest) {
                Ok(
                    CoreOut::Done {
                        reply,
                        unused,
                        freed,
                    },
                ) => {
                    let kept = keep_one(rt, self, r, area, apass, unused, freed);
                    self.give_spare(rt, r, area, apass, kept);
                    return Ok(reply);
                }
                Ok(CoreOut::NeedItem) => match ask(rt, area, r, apass, self.item_bytes) {
                    Ok(item) => held = Some(item),
                    Err(lack) => return Err(NoRoom::Space(lack)),
                },
                Ok(CoreOut::TooFull { size, spare: kept }) => {
                    match double(rt, self, r, area, pass, apass, size + 1, kept) {
                        Ok(kept) => held = kept,
                        Err(lack) => return Err(NoRoom::Space(lack)),
                    }
                }
                Err(back) => {
                    self.give_spare(rt, r, area, apass, back);
                    return Err(NoRoom::Chain);
                }
            }
        }
    }
}
