//! The turns that a call of the table takes, each one event of one partition.

ghost use Rattle.std.specs.Prelude.{◌≡◌, ℕ, ◌/◌, ◌<◌, ◌≤◌, true, false, List, length, is_some, IfErr, IfNone, IfOk, IfSome};
ghost use Rattle.std.specs.FinMap as fin;
ghost use Rattle.lock_book.specs.Shown.{number_of, seen_of, mine_of};
ghost use Rattle.dsa_area.specs.Sizes.{chunk_size};
ghost use Rattle.dshash_core.specs.Key.{hash_of, seeded_hash};
ghost use Rattle.dshash_core.specs.Cells.{buckets_of, partition_of};
ghost use Rattle.dshash_core.specs.Outcome.{AlwaysRemoves, HandsOut};
ghost use Rattle.dshash_parts.specs.Asked.{outcome_of};
ghost use Rattle.dshash_parts.specs.Tables.{IsTable, Turned, map_at, size_at, Belongs};
ghost use Rattle.dshash_parts.specs.declared.histories.PartitionCalls.TheVariants.{Call, Looks, Moves};
ghost use Rattle.dshash_parts.specs.declared.histories.PartitionReplies.TheVariants.{Crowded, HasSize, Made, Moved};

use crate::asks::{TableAnswer, TableAsk};
use crate::key::Key;
use crate::table::{DsPass, Dshash};
use dshash_core::{CellObject, CoreOut, Taken, seeded_hash_key};
use region_words::{Chunk, Region};
use std::sync::Wait;

impl<O: CellObject + Send> Dshash<O>
where
    O::State: Send,
    O::Call: Send,
    O::Reply: Send,
{
    /// The hash that says a key's bucket, from its hash without a seed: another one only if the table has a seed.
    #[tactic(auto, using(dshash_core::proofs::Hashes::unseeded))]
    #[inline(always)]
    pub(crate) fn own_hash(&self, hash: u32, key: &[u64]) -> u32
        requires { hash ≡ hash_of key.now }
        ensures { result ≡ seeded_hash self.now.seed key.now }
    {
        if self.seed == 0 {
            return hash;
        }
        seeded_hash_key(self.seed, key)
    }
}

/// A call of a key, at its partition.
#[inline(always)]
pub(crate) fn try_at<R: Wait, O: CellObject + Send>(
    rt: &R,
    table: &Dshash<O>,
    r: &Region,
    pass: &mut DsPass<O>,
    number: u32,
    hash: u32,
    key: &[u64],
    call: &O::Call,
    spare: Option<Chunk>,
) -> CoreOut<O>
where
    O::State: Send,
    O::Call: Send,
    O::Reply: Send,
    requires table { IsTable r.now table.now }
    requires own { Belongs table.now pass.old }
    requires number { number < 128 }
    requires hash { (hash ≡ seeded_hash table.now.seed key.now) × (partition_of (hash_of key.now) ≡ number) }
    requires key { length key.now ≡ table.now.key_words }
    requires may { O.may (number_of pass.old) key.now call.now }
    requires spare { IfSome spare (λ c. (c.part.region ≡ r.now) × (c.bytes ≡ chunk_size table.now.item_bytes)) }
    ensures own { Belongs table.now pass.new }
    ensures caller { number_of pass.new ≡ number_of pass.old }
    ensures grows { (k : ℕ) → k < 128 → size_at (seen_of pass.old) k ≤ size_at (seen_of pass.new) k }
    ensures event { Turned O.stepped pass.old pass.new number (Call key.now call.now (is_some spare)) (outcome_of result) }
    ensures handed { HandsOut r.now (chunk_size table.now.item_bytes) spare result }
{
    let ask = TableAsk::Make(hash, Key::of(key), *call, spare);
    match table.shelf.call(rt, r, pass, number as usize, ask) {
        TableAnswer::Came(out) => out,
        _ => unreachable!(),
    }
}

/// The same, unless it would hang the key into a chain that has `longest` items already: then the spare item comes back.
#[inline(always)]
pub(crate) fn try_within<R: Wait, O: CellObject + Send>(
    rt: &R,
    table: &Dshash<O>,
    r: &Region,
    pass: &mut DsPass<O>,
    number: u32,
    hash: u32,
    key: &[u64],
    call: &O::Call,
    spare: Option<Chunk>,
    longest: u32,
) -> Result<CoreOut<O>, Option<Chunk>>
where
    O::State: Send,
    O::Call: Send,
    O::Reply: Send,
    requires table { IsTable r.now table.now }
    requires own { Belongs table.now pass.old }
    requires number { number < 128 }
    requires hash { (hash ≡ seeded_hash table.now.seed key.now) × (partition_of (hash_of key.now) ≡ number) }
    requires key { length key.now ≡ table.now.key_words }
    requires may { O.may (number_of pass.old) key.now call.now }
    requires spare { IfSome spare (λ c. (c.part.region ≡ r.now) × (c.bytes ≡ chunk_size table.now.item_bytes)) }
    ensures own { Belongs table.now pass.new }
    ensures caller { number_of pass.new ≡ number_of pass.old }
    ensures grows { (k : ℕ) → k < 128 → size_at (seen_of pass.old) k ≤ size_at (seen_of pass.new) k }
    ensures event { IfOk result (λ out. Turned O.stepped pass.old pass.new number (Call key.now call.now (is_some spare)) (outcome_of out)) }
    ensures handed { IfOk result (HandsOut r.now (chunk_size table.now.item_bytes) spare) }
    ensures crowded { IfErr result (λ back. Turned O.stepped pass.old pass.new number (Call key.now call.now (is_some spare)) (Crowded table.now.seed longest (is_some back))) }
    ensures back { IfErr result (λ back. back ≡ spare) }
{
    let ask = TableAsk::MakeWithin(longest, hash, Key::of(key), *call, spare);
    match table.shelf.call(rt, r, pass, number as usize, ask) {
        TableAnswer::Came(out) => Ok(out),
        TableAnswer::Long(_, _, spare) => Err(spare),
        _ => unreachable!(),
    }
}

/// The size of a partition, and the number of its keys.
pub(crate) fn look_at<R: Wait, O: CellObject + Send>(
    rt: &R,
    table: &Dshash<O>,
    r: &Region,
    pass: &mut DsPass<O>,
    number: u32,
) -> (u32, u64)
where
    O::State: Send,
    O::Call: Send,
    O::Reply: Send,
    requires table { IsTable r.now table.now }
    requires own { Belongs table.now pass.old }
    requires number { number < 128 }
    ensures own { Belongs table.now pass.new }
    ensures caller { number_of pass.new ≡ number_of pass.old }
    ensures grows { (k : ℕ) → k < 128 → size_at (seen_of pass.old) k ≤ size_at (seen_of pass.new) k }
    ensures event { Turned O.stepped pass.old pass.new number Looks (HasSize result.0 result.1) }
    ensures told { size_at (seen_of pass.new) number ≡ result.0 }
    ensures keys { result.1 ≡ fin.len (map_at (seen_of pass.new) number) }
    ensures size { (7 ≤ result.0) × (result.0 ≤ 20) }
{
    match table
        .shelf
        .call(rt, r, pass, number as usize, TableAsk::Look)
    {
        TableAnswer::Size(size, keys) => (size, keys),
        _ => unreachable!(),
    }
}

/// A partition moves to a larger slice. Returns the slice that is left over.
pub(crate) fn grow_at<R: Wait, O: CellObject + Send>(
    rt: &R,
    table: &Dshash<O>,
    r: &Region,
    pass: &mut DsPass<O>,
    number: u32,
    size: u32,
    slice: Chunk,
) -> Chunk
where
    O::State: Send,
    O::Call: Send,
    O::Reply: Send,
    requires table { IsTable r.now table.now }
    requires own { Belongs table.now pass.old }
    requires number { number < 128 }
    requires size { (8 ≤ size) × (size ≤ 20) }
    requires slice { (slice.part.region ≡ r.now) × (buckets_of size ≤ slice.bytes / 8) }
    ensures own { Belongs table.now pass.new }
    ensures caller { number_of pass.new ≡ number_of pass.old }
    ensures grows { (k : ℕ) → k < 128 → size_at (seen_of pass.old) k ≤ size_at (seen_of pass.new) k }
    ensures event { Turned O.stepped pass.old pass.new number (Moves size) (Moved result.bytes) }
    ensures grown { size ≤ size_at (seen_of pass.new) number }
    ensures here { result.part.region ≡ r.now }
{
    let ask = TableAsk::Grow(size, slice);
    match table.shelf.call(rt, r, pass, number as usize, ask) {
        TableAnswer::LeftOver(left) => left,
        _ => unreachable!(),
    }
}

/// An entry is taken out of a partition, whichever comes next. If there is none, the turn was a look.
pub(crate) fn take_turn<R: Wait, O: CellObject + Send>(
    rt: &R,
    table: &Dshash<O>,
    r: &Region,
    pass: &mut DsPass<O>,
    number: u32,
    call: &O::Call,
    words: Vec<u64>,
) -> Option<Taken<O>>
where
    O::State: Send,
    O::Call: Send,
    O::Reply: Send,
    requires table { IsTable r.now table.now }
    requires own { Belongs table.now pass.old }
    requires number { number < 128 }
    requires removes { AlwaysRemoves O.stepped call.now }
    requires may { (key : List ℕ) → partition_of (hash_of key) ≡ number → O.may (number_of pass.old) key call.now }
    requires words { length words.items ≡ table.now.key_words }
    ensures own { Belongs table.now pass.new }
    ensures caller { number_of pass.new ≡ number_of pass.old }
    ensures event { IfSome result (λ t. Turned O.stepped pass.old pass.new number (Call t.key call.now false) (Made t.reply false true)) }
    ensures look { IfNone result ((size : ℕ) × Turned O.stepped pass.old pass.new number Looks (HasSize size 0)) }
    ensures key { IfSome result (λ t. (length t.key ≡ table.now.key_words) × (partition_of (hash_of t.key) ≡ number)) }
    ensures item { IfSome result (λ t. (t.item.part.region ≡ r.now) × (t.item.bytes ≡ chunk_size table.now.item_bytes)) }
{
    let ask = TableAsk::Take(*call, words);
    match table.shelf.call(rt, r, pass, number as usize, ask) {
        TableAnswer::Took(taken) => Some(taken),
        TableAnswer::Size(_, _) => None,
        _ => unreachable!(),
    }
}
