//! The calls of a key: a chunk is put under it, taken out, or worked on where it is.
//!
//! A put that is made of a new key takes an item of the table; if it lacks one, one is got from the area, and the put is
//! tried again with it. If the partition has to grow first, all partitions of its size or less do, and the put is tried
//! again. No lock is held in between. The other calls are one turn each, ask nothing of the area and can't be refused.

ghost use Rattle.std.specs.Prelude.{◌≡◌, ℕ, ◌<◌, ◌≤◌, List, length, false, is_some, None, IfSome, IfOk, IfErr, OnErr};
ghost use Rattle.std.specs.Option.{option_map};
ghost use Rattle.std.specs.FinMap as fin;
ghost use Rattle.lock_book.specs.Shown.{number_of, seen_of, mine_of};
ghost use Rattle.dsa_area.specs.Sizes.{chunk_size};
ghost use Rattle.dsa_area.specs.Shown.{Belongs as AreaBelongs, IsArea, number_of as area_number};
ghost use Rattle.dshash_core.specs.Key.{hash_of};
ghost use Rattle.dshash_core.specs.Cells.{IsRoomy, partition_of};
ghost use Rattle.dshash_chunks.specs.Held.{held_in, stepped};
ghost use Rattle.dshash_chunks.specs.declared.held.ChunkCalls.TheVariants as chunk_call;
ghost use Rattle.dshash_chunks.specs.declared.held.ChunkReplies.TheVariants as said;
ghost use Rattle.dshash_parts.specs.Legal.{AreAllowed};
ghost use Rattle.dshash_parts.specs.Lookups.{IsFound};
ghost use Rattle.dshash_parts.specs.Owners.{IsOwner, IsOwnCell};
ghost use Rattle.dshash_parts.specs.Promises.{IsLastCall};
ghost use Rattle.dshash_parts.specs.Replays.{IsOneCell};
ghost use Rattle.dshash_parts.specs.Sweeps.{Swept, SweptAndGaveAll, GaveBack};
ghost use Rattle.dshash_parts.specs.Tables.{map_at, size_at};
ghost use Rattle.dshash_parts.specs.declared.histories.PartitionCalls.TheVariants.{Call};
ghost use Rattle.dshash_parts.specs.declared.histories.PartitionReplies.TheVariants.{Made};
ghost use Rattle.chunk_table.specs.Promises.{CallMade, CallMadeWith, CallRefused, CallRefusedWith};
ghost use Rattle.chunk_table.specs.Tables.{Belongs, IsSpare, IsTable, Turned, item_of, key_words_of, sight_of};

use crate::growing::grow_all;
use crate::requests::{ask, give_back};
use crate::table::{ChunkPass, ChunkTable};
use crate::turns::{put_at, take_at, with_at};
use dsa_area::{Area, AreaPass, NoSpace};
use dshash_chunks::{ChunkObject, PutOut, TookOut};
use dshash_core::{hash_key, partition_of_hash};
use region_words::{Chunk, Region};
use std::sync::Wait;

/// A chunk that was not put, for the area has no room for an item or for the table to grow.
#[derive(Drop)]
pub struct NotPut {
    pub chunk: Chunk,
    pub lack: NoSpace,
}

/// All partitions of a smaller size move to this one. If there is no slice for one of them, the spare goes back.
pub(crate) fn double<R: Wait, W: ChunkObject + Send>(
    rt: &R,
    table: &ChunkTable<W>,
    r: &Region,
    area: &Area,
    pass: &mut ChunkPass<W>,
    apass: &mut AreaPass,
    size: u32,
    spare: Option<Chunk>,
) -> Result<Option<Chunk>, NoSpace>
where
    W::Call: Send,
    W::Reply: Send,
    requires table { IsTable r.now table.now }
    requires own { Belongs table.now pass.old }
    requires area { IsArea r.now area.now }
    requires area_own { AreaBelongs area.now apass.old }
    requires size { (8 ≤ size) × (size ≤ 20) }
    requires spare { IfSome spare (λ c. c.part.region ≡ r.now) }
    ensures own { Belongs table.now pass.new }
    ensures caller { number_of pass.new ≡ number_of pass.old }
    ensures area_own { AreaBelongs area.now apass.new }
    ensures area_caller { area_number apass.new ≡ area_number apass.old }
    ensures grows { (k : ℕ) → k < 128 → size_at (seen_of pass.old) k ≤ size_at (seen_of pass.new) k }
    ensures large { IfOk result (λ _. (k : ℕ) → k < 128 → size ≤ size_at (seen_of pass.new) k) }
    ensures spare { IfOk result (λ kept. kept ≡ spare) }
    ensures swept { IfOk result (λ _. Swept (stepped W.worked) area.now (number_of pass.old) size 128 (sight_of pass.old apass.old) (sight_of pass.new apass.new)) }
    ensures refused { IfErr result (λ lack. SweptAndGaveAll (stepped W.worked) area.now (number_of pass.old) size lack.pages lack.largest spare (sight_of pass.old apass.old) (sight_of pass.new apass.new)) }
{
    match grow_all(rt, table, r, area, pass, apass, size) {
        Ok(()) => Ok(spare),
        Err(lack) => {
            give_back(rt, area, r, apass, spare);
            Err(lack)
        }
    }
}

impl<W: ChunkObject + Send> ChunkTable<W>
where
    W::Call: Send,
    W::Reply: Send,
{
    /// Puts a chunk under a key, and hands out the one that was there, if any. From then on the chunk is the table's.
    /// Bring the area from which the table has its items, always the same; the chunk may be of any area of the region.
    /// A put that is refused hands its chunk back.
    ///
    /// It may wait for the lock of the key's partition and, if that has to grow, of each partition, one after another;
    /// and for those of the area, with none of the table's in hand. A put of a key that is there costs one hash, one
    /// walk along a chain and one turn, whatever the chunk's length; a new key costs a second turn and an item.
    pub fn put_chunk<R: Wait>(
        &self,
        rt: &R,
        r: &Region,
        area: &Area,
        pass: &mut ChunkPass<W>,
        apass: &mut AreaPass,
        key: &[u64],
        chunk: Chunk,
    ) -> Result<Option<Chunk>, NotPut>
        requires table { IsTable r.now self.now }
        requires own { Belongs self.now pass.old }
        requires area { IsArea r.now area.now }
        requires area_own { AreaBelongs area.now apass.old }
        requires key { length key.now ≡ key_words_of self.now }
        requires may { W.may (number_of pass.old) key.now (chunk_call.Put (held_in chunk)) }
        requires chunk { chunk.part.region ≡ r.now }
        ensures own { Belongs self.now pass.new }
        ensures caller { number_of pass.new ≡ number_of pass.old }
        ensures area_own { AreaBelongs area.now apass.new }
        ensures area_caller { area_number apass.new ≡ area_number apass.old }
        ensures here { IfOk result (λ before. IfSome before (λ c. c.part.region ≡ r.now)) }
        ensures made { IfOk result (λ before. CallMade (stepped W.worked) self.now area.now pass.old apass.old pass.new apass.new key.now (chunk_call.Put (held_in chunk)) (said.Was (option_map held_in before))) }
        ensures back { IfErr result (λ why. why.chunk ≡ chunk) }
        ensures refused { IfErr result (λ why. CallRefused (stepped W.worked) self.now area.now pass.old apass.old pass.new apass.new key.now (chunk_call.Put (held_in chunk)) why.lack.pages why.lack.largest) }
        ensures last { IfOk result (λ before. IsLastCall (number_of pass.old) key.now (chunk_call.Put (held_in chunk)) (said.Was (option_map held_in before)) (seen_of pass.new (partition_of (hash_of key.now)))) }
        ensures allowed { (i : ℕ) → i < 128 → AreAllowed W.may (seen_of pass.new i) }
        ensures owned { (k : List ℕ) → IsOwner (stepped W.worked) W.may (number_of pass.old) k → IsOwnCell (stepped W.worked) (seen_of pass.new) (mine_of pass.new) k }
        ensures cells { (k : List ℕ) → IsOneCell (stepped W.worked) (seen_of pass.new) k }
        ensures roomy { (k : ℕ) → k < 128 → IsRoomy (size_at (seen_of pass.new) k) (fin.len (map_at (seen_of pass.new) k)) }
    {
        let mut spare = None;
        match self.put_with_spare(rt, r, area, pass, apass, &mut spare, key, chunk) {
            Ok(before) => {
                self.give_spare(rt, r, area, apass, spare);
                Ok(before)
            }
            Err(why) => Err(why),
        }
    }

    /// As `put_chunk`, by a caller that keeps a spare item from one call to the next, or has none: a chunk with the
    /// number of bytes that the area grants for an item of this table, such as `take_out` hands out. A put of a new key
    /// takes it, and asks the area for none then. A refused put keeps none.
    pub fn put_with_spare<R: Wait>(
        &self,
        rt: &R,
        r: &Region,
        area: &Area,
        pass: &mut ChunkPass<W>,
        apass: &mut AreaPass,
        spare: &mut Option<Chunk>,
        key: &[u64],
        chunk: Chunk,
    ) -> Result<Option<Chunk>, NotPut>
        requires table { IsTable r.now self.now }
        requires own { Belongs self.now pass.old }
        requires area { IsArea r.now area.now }
        requires area_own { AreaBelongs area.now apass.old }
        requires spare { IsSpare r.now self.now spare.old }
        requires key { length key.now ≡ key_words_of self.now }
        requires may { W.may (number_of pass.old) key.now (chunk_call.Put (held_in chunk)) }
        requires chunk { chunk.part.region ≡ r.now }
        ensures own { Belongs self.now pass.new }
        ensures caller { number_of pass.new ≡ number_of pass.old }
        ensures area_own { AreaBelongs area.now apass.new }
        ensures area_caller { area_number apass.new ≡ area_number apass.old }
        ensures spare { IsSpare r.now self.now spare.new }
        ensures here { IfOk result (λ before. IfSome before (λ c. c.part.region ≡ r.now)) }
        ensures made { IfOk result (λ before. CallMadeWith (stepped W.worked) self.now area.now pass.old apass.old pass.new apass.new key.now (chunk_call.Put (held_in chunk)) (is_some spare.old) (is_some spare.new) (said.Was (option_map held_in before))) }
        ensures back { IfErr result (λ why. why.chunk ≡ chunk) }
        ensures refused { IfErr result (λ why. CallRefusedWith (stepped W.worked) self.now area.now pass.old apass.old pass.new apass.new key.now (chunk_call.Put (held_in chunk)) (is_some spare.old) why.lack.pages why.lack.largest) }
        ensures none_kept { OnErr result (spare.new ≡ None) }
        ensures last { IfOk result (λ before. IsLastCall (number_of pass.old) key.now (chunk_call.Put (held_in chunk)) (said.Was (option_map held_in before)) (seen_of pass.new (partition_of (hash_of key.now)))) }
        ensures allowed { (i : ℕ) → i < 128 → AreAllowed W.may (seen_of pass.new i) }
        ensures owned { (k : List ℕ) → IsOwner (stepped W.worked) W.may (number_of pass.old) k → IsOwnCell (stepped W.worked) (seen_of pass.new) (mine_of pass.new) k }
        ensures cells { (k : List ℕ) → IsOneCell (stepped W.worked) (seen_of pass.new) k }
        ensures roomy { (k : ℕ) → k < 128 → IsRoomy (size_at (seen_of pass.new) k) (fin.len (map_at (seen_of pass.new) k)) }
    {
        let hash = hash_key(key);
        let number = partition_of_hash(hash);
        let own = self.own_hash(hash, key);
        let mut held = spare.take();
        let mut carried = chunk;
        'turns: loop {
            match put_at(rt, self, r, pass, number, own, key, carried, held) {
                PutOut::Done { before, unused } => {
                    *spare = unused;
                    return Ok(before);
                }
                PutOut::NeedItem(chunk) => match ask(rt, area, r, apass, self.item_bytes) {
                    Ok(item) => {
                        held = Some(item);
                        carried = chunk;
                    }
                    Err(lack) => return Err(NotPut { chunk, lack }),
                },
                PutOut::TooFull {
                    size,
                    chunk,
                    spare: kept,
                } => match double(rt, self, r, area, pass, apass, size + 1, kept) {
                    Ok(kept) => {
                        held = kept;
                        carried = chunk;
                    }
                    Err(lack) => return Err(NotPut { chunk, lack }),
                },
            }
        }
    }

    /// Takes the chunk of a key out, if there is one: it is the caller's from then on. The key's item goes back to the
    /// area. It may wait for the lock of the key's partition, and for those of the area, with none of the table's in
    /// hand.
    pub fn take_chunk<R: Wait>(
        &self,
        rt: &R,
        r: &Region,
        area: &Area,
        pass: &mut ChunkPass<W>,
        apass: &mut AreaPass,
        key: &[u64],
    ) -> Option<Chunk>
        requires table { IsTable r.now self.now }
        requires own { Belongs self.now pass.old }
        requires area { IsArea r.now area.now }
        requires area_own { AreaBelongs area.now apass.old }
        requires key { length key.now ≡ key_words_of self.now }
        requires may { W.may (number_of pass.old) key.now chunk_call.Take }
        ensures own { Belongs self.now pass.new }
        ensures caller { number_of pass.new ≡ number_of pass.old }
        ensures area_own { AreaBelongs area.now apass.new }
        ensures area_caller { area_number apass.new ≡ area_number apass.old }
        ensures here { IfSome result (λ c. c.part.region ≡ r.now) }
        ensures event { Turned (stepped W.worked) pass.old pass.new (partition_of (hash_of key.now)) (Call key.now chunk_call.Take false) (Made (said.Was (option_map held_in result)) false (is_some result)) }
        ensures gave { GaveBack area.now apass.old apass.new (chunk_size (item_of self.now)) (is_some result) }
        ensures found { IsFound (stepped W.worked) (seen_of pass.new) key.now chunk_call.Take (said.Was (option_map held_in result)) }
        ensures allowed { (i : ℕ) → i < 128 → AreAllowed W.may (seen_of pass.new i) }
        ensures owned { (k : List ℕ) → IsOwner (stepped W.worked) W.may (number_of pass.old) k → IsOwnCell (stepped W.worked) (seen_of pass.new) (mine_of pass.new) k }
        ensures cells { (k : List ℕ) → IsOneCell (stepped W.worked) (seen_of pass.new) k }
    {
        let TookOut { chunk, item } = self.take_out(rt, r, pass, key);
        self.give_spare(rt, r, area, apass, item);
        chunk
    }

    /// The same, and hands the key's item out with the chunk, which `take_chunk` gives to the area: the caller may keep
    /// it as its spare one (`put_with_spare`). It asks nothing of the area.
    pub fn take_out<R: Wait>(
        &self,
        rt: &R,
        r: &Region,
        pass: &mut ChunkPass<W>,
        key: &[u64],
    ) -> TookOut
        requires table { IsTable r.now self.now }
        requires own { Belongs self.now pass.old }
        requires key { length key.now ≡ key_words_of self.now }
        requires may { W.may (number_of pass.old) key.now chunk_call.Take }
        ensures own { Belongs self.now pass.new }
        ensures caller { number_of pass.new ≡ number_of pass.old }
        ensures here { IfSome result.chunk (λ c. c.part.region ≡ r.now) }
        ensures item { IsSpare r.now self.now result.item }
        ensures both { is_some result.item ≡ is_some result.chunk }
        ensures event { Turned (stepped W.worked) pass.old pass.new (partition_of (hash_of key.now)) (Call key.now chunk_call.Take false) (Made (said.Was (option_map held_in result.chunk)) false (is_some result.item)) }
        ensures found { IsFound (stepped W.worked) (seen_of pass.new) key.now chunk_call.Take (said.Was (option_map held_in result.chunk)) }
        ensures allowed { (i : ℕ) → i < 128 → AreAllowed W.may (seen_of pass.new i) }
        ensures owned { (k : List ℕ) → IsOwner (stepped W.worked) W.may (number_of pass.old) k → IsOwnCell (stepped W.worked) (seen_of pass.new) (mine_of pass.new) k }
        ensures cells { (k : List ℕ) → IsOneCell (stepped W.worked) (seen_of pass.new) k }
    {
        let hash = hash_key(key);
        let number = partition_of_hash(hash);
        let own = self.own_hash(hash, key);
        take_at(rt, self, r, pass, number, own, key)
    }

    /// Takes a step on the chunk of a key, while the lock of the key's partition is held; None if there is no chunk.
    /// The chunk stays the table's. It asks nothing of the area and takes no memory.
    pub fn with_chunk<R: Wait>(
        &self,
        rt: &R,
        r: &Region,
        pass: &mut ChunkPass<W>,
        key: &[u64],
        call: &W::Call,
    ) -> Option<W::Reply>
        requires table { IsTable r.now self.now }
        requires own { Belongs self.now pass.old }
        requires key { length key.now ≡ key_words_of self.now }
        requires may { W.may (number_of pass.old) key.now (chunk_call.With call.now) }
        ensures own { Belongs self.now pass.new }
        ensures caller { number_of pass.new ≡ number_of pass.old }
        ensures event { Turned (stepped W.worked) pass.old pass.new (partition_of (hash_of key.now)) (Call key.now (chunk_call.With call.now) false) (Made (said.Did result) false false) }
        ensures found { IsFound (stepped W.worked) (seen_of pass.new) key.now (chunk_call.With call.now) (said.Did result) }
        ensures allowed { (i : ℕ) → i < 128 → AreAllowed W.may (seen_of pass.new i) }
        ensures owned { (k : List ℕ) → IsOwner (stepped W.worked) W.may (number_of pass.old) k → IsOwnCell (stepped W.worked) (seen_of pass.new) (mine_of pass.new) k }
        ensures cells { (k : List ℕ) → IsOneCell (stepped W.worked) (seen_of pass.new) k }
    {
        let hash = hash_key(key);
        let number = partition_of_hash(hash);
        let own = self.own_hash(hash, key);
        with_at(rt, self, r, pass, number, own, key, call)
    }

    /// Gives the spare item of a caller back to the area, if it has one. One that the area refuses is dropped, and its
    /// words are lost: `GaveBack` says which of the two it was.
    pub fn give_spare<R: Wait>(
        &self,
        rt: &R,
        r: &Region,
        area: &Area,
        apass: &mut AreaPass,
        spare: Option<Chunk>,
    )
        requires area { IsArea r.now area.now }
        requires area_own { AreaBelongs area.now apass.old }
        requires spare { IsSpare r.now self.now spare }
        ensures area_own { AreaBelongs area.now apass.new }
        ensures area_caller { area_number apass.new ≡ area_number apass.old }
        ensures gave { GaveBack area.now apass.old apass.new (chunk_size (item_of self.now)) (is_some spare) }
    {
        give_back(rt, area, r, apass, spare);
    }
}
