//! One caller of a table, and its calls.

ghost use Rattle.std.specs.Prelude.{◌≡◌, ◌+◌, ◌*◌, ◌/◌, ◌<◌, ◌≤◌, ◌^◌, [], length, is_some, IsTrue, IfNone, IfSome, IfOk, IfErr};
ghost use Rattle.std.specs.Vec.{vec_capacity};
ghost use Rattle.std.specs.List.{All};
ghost use Rattle.dshash_core.specs.Cells.{buckets_of};
ghost use Rattle.dshash_parts.specs.Promises.{one_if};
ghost use Rattle.c_records.specs.Items.{IsItem};
ghost use Rattle.c_table.specs.Reserves.{IsReserve, chunk_words};
ghost use Rattle.c_records.specs.Tries.{Grows, Stays, Tries};
ghost use Rattle.c_records.specs.Shares.{IsShare};
ghost use Rattle.c_records.specs.declared.value.RecordCall.TheVariants.{Get};

use crate::shared::Share;
use crate::value::{Record, RecordCall};
use c_table::{Code, Reserve, make_places, take_slice};
use dshash_core::{CoreOut, bucket_count, hash_key, partition_of_hash};
use dshash_parts::Busy;
use region_words::{Chunk, Region};
use std::marker::Model;

/// The words of an item: its link, the hash, the key's word and the 17 of the record under it.
const ITEM_WORDS: u64 = 20;

/// One caller: contracts see its share of the table.
#[derive(Drop)]
pub struct Caller {
    pub(crate) share: Share,
}

impl Model for Caller {
    ghost use Rattle.c_records.specs.Codes.{share_code};
    ghost use Rattle.c_records.specs.Shares.{IsShare};
    ghost use Rattle.c_records.specs.declared.shared.Share.{Share};

    ghost Value = { Share };

    ghost coded = { share_code };

    ghost view = { λ c. c.share };

    ghost invariant = { λ c. IsShare c.share };
}

/// An item that holds no key, if the caller has one or the words for one.
fn take_item(r: &Region, reserve: &mut Reserve, items: &mut Vec<Chunk>) -> Option<Chunk>
    requires reserve { IsReserve r.now reserve.old }
    requires items { All (IsItem r.now) items.old.items }
    ensures reserve { IsReserve r.now reserve.new }
    ensures items { All (IsItem r.now) items.new.items }
    ensures item { IfSome result (IsItem r.now) }
    ensures words { reserve.new.left + 20 * length items.new.items + 20 * one_if (is_some result) ≡ reserve.old.left + 20 * length items.old.items }
    ensures none { IfNone result ((reserve.new.left + 20 * length items.new.items ≡ reserve.old.left + 20 * length items.old.items) × (items.old.items ≡ []) × (reserve.old.left < 20)) }
    ensures fewer { length items.new.items ≤ length items.old.items }
    ensures capacity { vec_capacity items.new ≡ vec_capacity items.old }
{
    match items.pop() {
        Some(item) => Some(item),
        None => reserve.cut(r, ITEM_WORDS),
    }
}

/// Keeps an item, if there is one. There is a place for it.
fn keep_item(r: &Region, items: &mut Vec<Chunk>, item: Option<Chunk>)
    requires items { All (IsItem r.now) items.old.items }
    requires item { IfSome item (IsItem r.now) }
    requires place { length items.old.items < vec_capacity items.old }
    ensures items { All (IsItem r.now) items.new.items }
    ensures count { length items.new.items ≡ length items.old.items + one_if (is_some item) }
    ensures capacity { vec_capacity items.new ≡ vec_capacity items.old }
{
    if let Some(item) = item {
        items.push_reserved(item);
    }
}

impl Caller {
    /// The record under a key. One turn at the key's partition.
    pub fn try_get(&mut self, key: u64) -> Result<Option<Record>, Code>
        ensures { Tries self.old self.new key Get result }
    {
        let share = &mut self.share;
        let shared = &share.shared;
        match shared
            .table
            .try_find(&shared.region, &mut share.pass, &[key], &RecordCall::Get)
        {
            Ok(found) => Ok(found),
            Err(Busy) => Err(Code::WouldBlock),
        }
    }

    /// Changes the record under a key, and answers what was there. One turn at the key's partition, and if that has to
    /// grow, one more, in which it does. A new key takes an item of 20 words, and a partition that grows a slice, of
    /// the caller's own words. It takes memory for the places of what is left over, before any turn.
    pub fn try_change(&mut self, key: u64, call: RecordCall) -> Result<Option<Record>, Code>
        ensures { Tries self.old self.new key call result }
    {
        change(&mut self.share, key, call)
    }
}

/// Changes the record under a key, by one caller's share.
fn change(share: &mut Share, key: u64, call: RecordCall) -> Result<Option<Record>, Code>
    requires share { IsShare share.old }
    ensures share { IsShare share.new }
    ensures tries { Tries share.old share.new key call result }
{
    if !make_places(&mut share.items, &mut share.slices) {
        return Err(Code::NoMemory);
    }
    let spare = take_item(&share.shared.region, &mut share.reserve, &mut share.items);
    let shared = &share.shared;
    match shared
        .table
        .try_call(&shared.region, &mut share.pass, &[key], &call, spare)
    {
        Ok(
            CoreOut::Done {
                reply,
                unused,
                freed,
            },
        ) => {
            keep_item(&share.shared.region, &mut share.items, unused);
            keep_item(&share.shared.region, &mut share.items, freed);
            Ok(reply)
        }
        Ok(CoreOut::NeedItem) => Err(Code::NoSpace),
        Ok(CoreOut::TooFull { size, spare }) => {
            keep_item(&share.shared.region, &mut share.items, spare);
            Err(grow(share, key, size + 1))
        }
        Err(spare) => {
            keep_item(&share.shared.region, &mut share.items, spare);
            Err(Code::WouldBlock)
        }
    }
}

/// The partition of a key grows to this size. There is a place for the slice that is left over.
fn grow(share: &mut Share, key: u64, size: u32) -> Code
    requires share { IsShare share.old }
    requires place { length share.old.slices.items < vec_capacity share.old.slices }
    requires size { (8 ≤ size) × (size ≤ 20) }
    ensures share { IsShare share.new }
    ensures stays { Stays share.old share.new }
    ensures grown { Grows share.old share.new key size result }
{
    let number = partition_of_hash(hash_key(&[key]));
    let shared = &share.shared;
    let words = bucket_count(size);
    let Some(slice) = take_slice(&shared.region, &mut share.reserve, &mut share.slices, words)
    else {
        return Code::NoSpace;
    };
    match shared
        .table
        .try_grow(&shared.region, &mut share.pass, number, size, slice)
    {
        Ok(left) => {
            share.slices.push_reserved(left);
            Code::Grown
        }
        Err(slice) => {
            share.slices.push_reserved(slice);
            Code::WouldBlock
        }
    }
}
