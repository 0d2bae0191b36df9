//! A call of a key: turns at its partition, and between them what it lacks.
//!
//! A caller may keep a spare item between its calls: the item of a key that one of them took out is the one that the
//! next insertion takes. So a key that comes for one that goes costs two turns, one each, and asks nothing of the area.
//!
//! If a turn says that the call lacks an item, one is got from the area, and the call is tried again with it. If the
//! partition has to grow first, all partitions of its size or less do, and the call is tried again. No lock is held in
//! between, so others' turns may come there; the call itself is one turn, the last.

ghost use Rattle.std.specs.Prelude.{◌≡◌, ℕ, ◌<◌, ◌≤◌, ◌&&◌, ◌||◌, List, length, is_some, None, IfSome, IfOk, IfErr, OnErr};
ghost use Rattle.std.specs.FinMap as fin;
ghost use Rattle.lock_book.specs.Shown.{number_of, seen_of, mine_of};
ghost use Rattle.dsa_area.specs.Sizes.{chunk_size};
ghost use Rattle.dsa_area.specs.Shown.{Belongs as AreaBelongs, IsArea, number_of as area_number};
ghost use Rattle.dshash_core.specs.Key.{hash_of};
ghost use Rattle.dshash_core.specs.Cells.{IsRoomy, partition_of};
ghost use Rattle.dshash_parts.specs.Legal.{AreAllowed};
ghost use Rattle.dshash_parts.specs.Tables.{IsHome, IsSpare, IsTable, key_words_of, item_of, map_at, size_at, Belongs};
ghost use Rattle.dshash_parts.specs.Traces.{sight_of};
ghost use Rattle.dshash_parts.specs.Owners.{IsOwner, IsOwnCell};
ghost use Rattle.dshash_parts.specs.Replays.{IsOneCell};
ghost use Rattle.dshash_parts.specs.Promises.{CallMade, CallMadeWith, CallRefused, CallRefusedWith, IsLastCall, KeepsItem};
ghost use Rattle.dshash_parts.specs.Sweeps.{Swept, SweptAndGaveAll, GaveBack};

use crate::growing::grow_all;
use crate::requests::{ask, give};
use crate::table::{DsPass, Dshash};
use crate::turns::try_at;
use dsa_area::{Area, AreaPass, NoSpace};
use dshash_core::{CellObject, CoreOut, hash_key, partition_of_hash};
use region_words::{Chunk, Region};
use std::sync::Wait;

/// Gives a chunk to the area, if there is one.
fn give_back<R: Wait>(rt: &R, area: &Area, r: &Region, apass: &mut AreaPass, chunk: Option<Chunk>)
    requires area { IsArea r.now area.now }
    requires own { AreaBelongs area.now apass.old }
    requires here { IfSome chunk (λ c. c.part.region ≡ r.now) }
    ensures own { AreaBelongs area.now apass.new }
    ensures caller { area_number apass.new ≡ area_number apass.old }
    ensures gave { (bytes : ℕ) → IfSome chunk (λ c. c.bytes ≡ bytes) → GaveBack area.now apass.old apass.new bytes (is_some chunk) }
{
    if let Some(chunk) = chunk {
        give(rt, area, r, apass, chunk);
    }
}

/// Of the item that a call did not use and the one that it freed, one is kept. The other, if there are both, goes to
/// the area.
pub(crate) fn keep_one<R: Wait, O: CellObject + Send>(
    rt: &R,
    table: &Dshash<O>,
    r: &Region,
    area: &Area,
    apass: &mut AreaPass,
    unused: Option<Chunk>,
    freed: Option<Chunk>,
) -> Option<Chunk>
where
    O::State: Send,
    O::Call: Send,
    O::Reply: Send,
    requires area { IsArea r.now area.now }
    requires own { AreaBelongs area.now apass.old }
    requires unused { IsSpare r.now table.now unused }
    requires freed { IsSpare r.now table.now freed }
    ensures own { AreaBelongs area.now apass.new }
    ensures caller { area_number apass.new ≡ area_number apass.old }
    ensures spare { IsSpare r.now table.now result }
    ensures kept { is_some result ≡ (is_some unused || is_some freed) }
    ensures gave { GaveBack area.now apass.old apass.new (chunk_size (item_of table.now)) (is_some unused && is_some freed) }
{
    let _ = table;
    match unused {
        Some(kept) => {
            give_back(rt, area, r, apass, freed);
            Some(kept)
        }
        None => freed,
    }
}

/// All partitions of a smaller size move to this one. If there is no slice for one of them, the spare goes back.
pub(crate) fn double<R: Wait, O: CellObject + Send>(
    rt: &R,
    table: &Dshash<O>,
    r: &Region,
    area: &Area,
    pass: &mut DsPass<O>,
    apass: &mut AreaPass,
    size: u32,
    spare: Option<Chunk>,
) -> Result<Option<Chunk>, NoSpace>
where
    O::State: Send,
    O::Call: Send,
    O::Reply: Send,
    requires table { IsTable r.now table.now }
    requires own { Belongs table.now pass.old }
    requires area { IsArea r.now area.now }
    requires area_own { AreaBelongs area.now apass.old }
    requires size { (8 ≤ size) × (size ≤ 20) }
    requires spare { IfSome spare (λ c. c.part.region ≡ r.now) }
    ensures own { Belongs table.now pass.new }
    ensures caller { number_of pass.new ≡ number_of pass.old }
    ensures area_own { AreaBelongs area.now apass.new }
    ensures area_caller { area_number apass.new ≡ area_number apass.old }
    ensures grows { (k : ℕ) → k < 128 → size_at (seen_of pass.old) k ≤ size_at (seen_of pass.new) k }
    ensures large { IfOk result (λ _. (k : ℕ) → k < 128 → size ≤ size_at (seen_of pass.new) k) }
    ensures spare { IfOk result (λ kept. kept ≡ spare) }
    ensures swept { IfOk result (λ _. Swept O.stepped area.now (number_of pass.old) size 128 (sight_of pass.old apass.old) (sight_of pass.new apass.new)) }
    ensures refused { IfErr result (λ lack. SweptAndGaveAll O.stepped area.now (number_of pass.old) size lack.pages lack.largest spare (sight_of pass.old apass.old) (sight_of pass.new apass.new)) }
{
    match grow_all(rt, table, r, area, pass, apass, size) {
        Ok(()) => Ok(spare),
        Err(lack) => {
            give_back(rt, area, r, apass, spare);
            Err(lack)
        }
    }
}

impl<O: CellObject + Send> Dshash<O>
where
    O::State: Send,
    O::Call: Send,
    O::Reply: Send,
{
    /// Makes a call of a key. The area is the one that the table was made with. It takes no memory. It may wait for the
    /// lock of the key's partition and, if that has to grow, of each partition, one after another; and for those of the
    /// area, with none of the table's in hand. A call of a key that is there costs one hash, one walk along a chain and
    /// one turn; a new key costs a second turn and a chunk of the area; and doubling comes at most 13 times in the life
    /// of a table.
    pub fn call<R: Wait>(
        &self,
        rt: &R,
        r: &Region,
        area: &Area,
        pass: &mut DsPass<O>,
        apass: &mut AreaPass,
        key: &[u64],
        call: &O::Call,
    ) -> Result<O::Reply, NoSpace>
        requires table { IsTable r.now self.now }
        requires own { Belongs self.now pass.old }
        requires area { IsArea r.now area.now }
        requires home { IsHome area.now self.now }
        requires area_own { AreaBelongs area.now apass.old }
        requires key { length key.now ≡ key_words_of self.now }
        requires may { O.may (number_of pass.old) key.now call.now }
        ensures own { Belongs self.now pass.new }
        ensures caller { number_of pass.new ≡ number_of pass.old }
        ensures area_own { AreaBelongs area.now apass.new }
        ensures area_caller { area_number apass.new ≡ area_number apass.old }
        ensures made { IfOk result (CallMade O.stepped self.now area.now pass.old apass.old pass.new apass.new key.now call.now) }
        ensures refused { IfErr result (λ lack. CallRefused O.stepped self.now area.now pass.old apass.old pass.new apass.new key.now call.now lack.pages lack.largest) }
        ensures last { IfOk result (λ reply. IsLastCall (number_of pass.old) key.now call.now reply (seen_of pass.new (partition_of (hash_of key.now)))) }
        ensures allowed { (i : ℕ) → i < 128 → AreAllowed O.may (seen_of pass.new i) }
        ensures owned { (k : List ℕ) → IsOwner O.stepped O.may (number_of pass.old) k → IsOwnCell O.stepped (seen_of pass.new) (mine_of pass.new) k }
        ensures cells { (k : List ℕ) → IsOneCell O.stepped (seen_of pass.new) k }
        ensures roomy { (k : ℕ) → k < 128 → IsRoomy (size_at (seen_of pass.new) k) (fin.len (map_at (seen_of pass.new) k)) }
    {
        let mut spare = None;
        match self.call_with_spare(rt, r, area, pass, apass, &mut spare, key, call) {
            Ok(reply) => {
                self.give_spare(rt, r, area, apass, spare);
                Ok(reply)
            }
            Err(lack) => Err(lack),
        }
    }

    /// As `call`, by a caller that keeps a spare item from one call to the next, or has none: a chunk with the number
    /// of bytes that the area grants for an item of this table. An insertion takes it, and asks the area for none then.
    /// The item of a key that is taken out is kept as the spare one; if the caller has one already, it goes to the
    /// area. A refused call keeps none.
    ///
    /// A key that is taken out and a new key that is put in are one turn each. The spare item is live in the area until
    /// an insertion takes it or `give_spare` gives it back.
    pub fn call_with_spare<R: Wait>(
        &self,
        rt: &R,
        r: &Region,
        area: &Area,
        pass: &mut DsPass<O>,
        apass: &mut AreaPass,
        spare: &mut Option<Chunk>,
        key: &[u64],
        call: &O::Call,
    ) -> Result<O::Reply, NoSpace>
        requires table { IsTable r.now self.now }
        requires own { Belongs self.now pass.old }
        requires area { IsArea r.now area.now }
        requires home { IsHome area.now self.now }
        requires area_own { AreaBelongs area.now apass.old }
        requires spare { IsSpare r.now self.now spare.old }
        requires key { length key.now ≡ key_words_of self.now }
        requires may { O.may (number_of pass.old) key.now call.now }
        ensures own { Belongs self.now pass.new }
        ensures caller { number_of pass.new ≡ number_of pass.old }
        ensures area_own { AreaBelongs area.now apass.new }
        ensures area_caller { area_number apass.new ≡ area_number apass.old }
        ensures spare { IsSpare r.now self.now spare.new }
        ensures made { IfOk result (CallMadeWith O.stepped self.now area.now pass.old apass.old pass.new apass.new key.now call.now (is_some spare.old) (is_some spare.new)) }
        ensures refused { IfErr result (λ lack. CallRefusedWith O.stepped self.now area.now pass.old apass.old pass.new apass.new key.now call.now (is_some spare.old) lack.pages lack.largest) }
        ensures kept { IfOk result (λ reply. KeepsItem (number_of pass.old) key.now call.now reply (is_some spare.new) (seen_of pass.new (partition_of (hash_of key.now)))) }
        ensures none_kept { OnErr result (spare.new ≡ None) }
        ensures last { IfOk result (λ reply. IsLastCall (number_of pass.old) key.now call.now reply (seen_of pass.new (partition_of (hash_of key.now)))) }
        ensures allowed { (i : ℕ) → i < 128 → AreAllowed O.may (seen_of pass.new i) }
        ensures owned { (k : List ℕ) → IsOwner O.stepped O.may (number_of pass.old) k → IsOwnCell O.stepped (seen_of pass.new) (mine_of pass.new) k }
        ensures cells { (k : List ℕ) → IsOneCell O.stepped (seen_of pass.new) k }
        ensures roomy { (k : ℕ) → k < 128 → IsRoomy (size_at (seen_of pass.new) k) (fin.len (map_at (seen_of pass.new) k)) }
    {
        let hash = hash_key(key);
        let number = partition_of_hash(hash);
        let own = self.own_hash(hash, key);
        let mut held = spare.take();
        'turns: loop {
            match try_at(rt, self, r, pass, number, own, key, call, held) {
                CoreOut::Done {
                    reply,
                    unused,
                    freed,
                } => {
                    *spare = keep_one(rt, self, r, area, apass, unused, freed);
                    return Ok(reply);
                }
                CoreOut::NeedItem => match ask(rt, area, r, apass, self.item_bytes) {
                    Ok(item) => held = Some(item),
                    Err(lack) => return Err(lack),
                },
                CoreOut::TooFull { size, spare: kept } => {
                    match double(rt, self, r, area, pass, apass, size + 1, kept) {
                        Ok(kept) => held = kept,
                        Err(lack) => return Err(lack),
                    }
                }
            }
        }
    }

    /// Gives the spare item of a caller back to the area, if it has one. One that the area refuses is dropped, and its
    /// words are lost: `GaveBack` says which of the two it was.
    pub fn give_spare<R: Wait>(
        &self,
        rt: &R,
        r: &Region,
        area: &Area,
        apass: &mut AreaPass,
        spare: Option<Chunk>,
    )
        requires area { IsArea r.now area.now }
        requires home { IsHome area.now self.now }
        requires area_own { AreaBelongs area.now apass.old }
        requires spare { IsSpare r.now self.now spare }
        ensures area_own { AreaBelongs area.now apass.new }
        ensures area_caller { area_number apass.new ≡ area_number apass.old }
        ensures gave { GaveBack area.now apass.old apass.new (chunk_size (item_of self.now)) (is_some spare) }
    {
        give_back(rt, area, r, apass, spare);
    }
}
