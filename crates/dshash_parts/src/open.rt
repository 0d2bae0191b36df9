//! How a table is made: a bucket slice of one word for each partition, and a pass for each caller.

ghost use Rattle.std.specs.Prelude.{◌≡◌, ℕ, ◌+◌, ◌<◌, ◌≤◌, ◌^◌, [], length, map, replicate, IfOk, IfErr, IsSome, OnErr, OnOk};
ghost use mathlib.Core.Option.{some};
ghost use lib.ListN.{get_elem?};
ghost use Rattle.lock_book.specs.Shown.{mine_of, seen_of};
ghost use Rattle.word_map.specs.WordMap.{at as word_at, rest_of};
ghost use Rattle.region_words.specs.Parts.{owned};
ghost use Rattle.dsa_area.specs.Shown.{Belongs as AreaBelongs, IsArea, number_of as area_number};
ghost use Rattle.dshash_core.specs.Key.{item_size};
ghost use Rattle.dshash_parts.specs.Asked.{name_of, state_of};
ghost use Rattle.dshash_parts.specs.Tables.{IsHome, IsTable, key_words_of, item_of, seed_of, AreAll, callers_of};
ghost use Rattle.dshash_parts.specs.Traces.{Got};
ghost use Rattle.dshash_parts.specs.Opening.{Asks, AreSlices, HaveWords, GaveSlices, IsNoTable, opens_from};

use crate::numbered::Numbered;
use crate::origin::Origin;
use crate::requests::{ask, give};
use crate::table::{DsPass, Dshash};
use dsa_area::{Area, AreaPass, NoSpace, chunk_bytes};
use dshash_core::{CellObject, PARTITIONS, Partition, item_bytes};
use lock_book::Shelf;
use region_words::{Chunk, Part, Region};
use std::alloc::{AllocError, Global};
use std::sync::Wait;

/// Why there is no table.
#[derive(Drop)]
pub enum DsNew {
    /// The area has no room for a slice: the pages that were wanted, and those of the longest free run. The slices that
    /// it gave went back.
    NoSpace { pages: u32, largest: u32 },
    /// There is no memory: before a slice was asked for, or with all 128 in hand, which are dropped.
    Memory,
}

/// The bytes of a bucket slice of one word.
const SLICE_BYTES: u64 = 8;

/// Gives slices back to the area.
fn give_slices<R: Wait>(
    rt: &R,
    area: &Area,
    r: &Region,
    apass: &mut AreaPass,
    mut slices: Vec<Chunk>,
)
    requires area { IsArea r.now area.now }
    requires own { AreaBelongs area.now apass.old }
    requires slices { AreSlices r.now slices.items }
    ensures own { AreaBelongs area.now apass.new }
    ensures caller { area_number apass.new ≡ area_number apass.old }
    ensures gave { GaveSlices area.now apass.old apass.new (length slices.items) }
{
    while let Some(slice) = slices.pop() {
        give(rt, area, r, apass, slice);
    }
}

/// 128 slices of one word. If the area has too few, those that it gave go back.
fn take_slices<R: Wait>(
    rt: &R,
    alloc: Global,
    r: &Region,
    area: &Area,
    apass: &mut AreaPass,
) -> Result<Vec<Chunk>, DsNew>
    requires area { IsArea r.now area.now }
    requires own { AreaBelongs area.now apass.old }
    ensures own { AreaBelongs area.now apass.new }
    ensures caller { area_number apass.new ≡ area_number apass.old }
    ensures count { IfOk result (λ v. length v.items ≡ 128) }
    ensures slices { IfOk result (λ v. AreSlices r.now v.items) }
    ensures asked { IfOk result (λ _. Asks area.now apass.old apass.new (replicate 128 (Got 8))) }
    ensures refused { IfErr result (λ e. IsNoTable area.now apass.old apass.new e) }
{
    let mut slices = match Vec::with_capacity(alloc, PARTITIONS as usize) {
        Ok(slices) => slices,
        Err(_) => return Err(DsNew::Memory),
    };
    for _taken in 0..PARTITIONS {
        match ask(rt, area, r, apass, SLICE_BYTES) {
            Ok(slice) => slices.push_reserved(slice),
            Err(NoSpace { pages, largest }) => {
                give_slices(rt, area, r, apass, slices);
                return Err(DsNew::NoSpace { pages, largest });
            }
        }
    }
    Ok(slices)
}

/// Cuts the 128 slices of a word each that `on_slices` takes off a part, from its word `from` on. It asks no area, so
/// an area that is made on the rest opens with all of its pages free. It takes memory for the list of the slices.
pub fn cut_slices(
    alloc: Global,
    r: &Region,
    part: &mut Part,
    from: u64,
) -> Result<Vec<Chunk>, AllocError>
    requires here { part.old.region ≡ r.now }
    requires valid { 0 < from }
    requires owns { (k : ℕ) → from ≤ k → k < from + 128 → IsSome (word_at part.old.words k) }
    ensures here { part.new.region ≡ r.now }
    ensures count { IfOk result (λ v. length v.items ≡ 128) }
    ensures slices { IfOk result (λ v. HaveWords r.now v.items) }
    ensures rest { OnOk result (part.new ≡ owned part.old.region (rest_of part.old.words from 128)) }
    ensures none_cut { OnErr result (part.new ≡ part.old) }
{
    part.is_small();
    let mut slices = Vec::with_capacity(alloc, PARTITIONS as usize)?;
    let mut next = from;
    for _cut in 0..PARTITIONS {
        slices.push_reserved(part.split_chunk(r, next, 1));
        next += 1;
    }
    Ok(slices)
}

/// The empty partitions on these slices, in order.
fn partitions<O: CellObject>(
    alloc: Global,
    r: &Region,
    slices: Vec<Chunk>,
    seed: u64,
    key_words: u32,
    item_chunk: u64,
) -> Result<Vec<Numbered<O>>, AllocError>
    requires slices { HaveWords r.now slices.items }
    requires few { length slices.items ≤ 128 }
    requires fits { item_size key_words O.VALUE_WORDS ≤ item_chunk }
    requires short { O.VALUE_WORDS ≤ 65536 }
    ensures { IfOk result (λ v. map (λ x. (name_of x.number x.partition, state_of x.partition)) v.items ≡ opens_from r.now seed key_words item_chunk 0 (length slices.items)) }
{
    let mut parts = Vec::with_capacity(alloc, slices.len())?;
    let mut number = 0;
    for slice in slices {
        let partition = Partition::with_seed(r, slice, key_words, item_chunk, seed);
        parts.push_reserved(Numbered { number, partition });
        number += 1;
    }
    Ok(parts)
}

impl<O: CellObject + Send> Dshash<O>
where
    O::State: Send,
    O::Call: Send,
    O::Reply: Send,
{
    /// A table of keys of this many words, with 128 empty partitions of size 7, and a pass for each caller, in order of
    /// their numbers from 0. It takes 128 slices of 8 bytes from the area, and memory for the partitions, their locks
    /// and the passes.
    pub fn new<R: Wait>(
        rt: &R,
        alloc: Global,
        r: &Region,
        area: &Area,
        apass: &mut AreaPass,
        key_words: u32,
        callers: u32,
    ) -> Result<(Dshash<O>, Vec<DsPass<O>>), DsNew>
        requires area { IsArea r.now area.now }
        requires area_own { AreaBelongs area.now apass.old }
        requires keys { (1 ≤ key_words) × (key_words ≤ 64) }
        requires callers { 1 ≤ callers }
        requires values { O.VALUE_WORDS ≤ 65536 }
        ensures area_own { AreaBelongs area.now apass.new }
        ensures area_caller { area_number apass.new ≡ area_number apass.old }
        ensures table { IfOk result (λ t. IsTable r.now t.0) }
        ensures home { IfOk result (λ t. IsHome area.now t.0) }
        ensures seed { IfOk result (λ t. seed_of t.0 ≡ 0) }
        ensures keys { IfOk result (λ t. key_words_of t.0 ≡ key_words) }
        ensures items { IfOk result (λ t. item_of t.0 ≡ item_size key_words O.VALUE_WORDS) }
        ensures callers { IfOk result (λ t. callers_of t.0 ≡ callers) }
        ensures passes { IfOk result (λ t. AreAll t.0 t.1.items) }
        ensures fresh { IfOk result (λ t. (k : ℕ) (p : _) → get_elem? t.1.items k ≡ some p → (i : ℕ) → (seen_of p i ≡ []) × (mine_of p i ≡ [])) }
        ensures asked { IfOk result (λ _. Asks area.now apass.old apass.new (replicate 128 (Got 8))) }
        ensures refused { IfErr result (λ e. IsNoTable area.now apass.old apass.new e) }
    {
        Dshash::with_seed(rt, alloc, r, area, apass, 0, key_words, callers)
    }

    /// The same, with a seed for the hashes that say a key's bucket: draw one if strangers choose the keys, and keep it from
    /// them. Each call then hashes its key once more, by SipHash-1-3. The partition of a key is that of its hash without a
    /// seed, in every table, so strangers may still choose the keys of one partition, which has one lock.
    pub fn with_seed<R: Wait>(
        rt: &R,
        alloc: Global,
        r: &Region,
        area: &Area,
        apass: &mut AreaPass,
        seed: u64,
        key_words: u32,
        callers: u32,
    ) -> Result<(Dshash<O>, Vec<DsPass<O>>), DsNew>
        requires area { IsArea r.now area.now }
        requires area_own { AreaBelongs area.now apass.old }
        requires keys { (1 ≤ key_words) × (key_words ≤ 64) }
        requires callers { 1 ≤ callers }
        requires values { O.VALUE_WORDS ≤ 65536 }
        ensures area_own { AreaBelongs area.now apass.new }
        ensures area_caller { area_number apass.new ≡ area_number apass.old }
        ensures table { IfOk result (λ t. IsTable r.now t.0) }
        ensures home { IfOk result (λ t. IsHome area.now t.0) }
        ensures seed { IfOk result (λ t. seed_of t.0 ≡ seed) }
        ensures keys { IfOk result (λ t. key_words_of t.0 ≡ key_words) }
        ensures items { IfOk result (λ t. item_of t.0 ≡ item_size key_words O.VALUE_WORDS) }
        ensures callers { IfOk result (λ t. callers_of t.0 ≡ callers) }
        ensures passes { IfOk result (λ t. AreAll t.0 t.1.items) }
        ensures fresh { IfOk result (λ t. (k : ℕ) (p : _) → get_elem? t.1.items k ≡ some p → (i : ℕ) → (seen_of p i ≡ []) × (mine_of p i ≡ [])) }
        ensures asked { IfOk result (λ _. Asks area.now apass.old apass.new (replicate 128 (Got 8))) }
        ensures refused { IfErr result (λ e. IsNoTable area.now apass.old apass.new e) }
    {
        let slices = take_slices(rt, alloc, r, area, apass)?;
        let home = Origin::of(area);
        match Dshash::with_home(alloc, r, slices, seed, key_words, callers, Some(home)) {
            Ok(made) => Ok(made),
            Err(_) => Err(DsNew::Memory),
        }
    }

    /// The same on 128 slices that the caller brings (`cut_slices` cuts them), of a word each at least, which are the
    /// table's from then on. It waits for nobody and asks nothing of any area, so later calls may bring whichever area.
    /// If there is no memory, the slices are dropped.
    pub fn on_slices(
        alloc: Global,
        r: &Region,
        slices: Vec<Chunk>,
        key_words: u32,
        callers: u32,
    ) -> Result<(Dshash<O>, Vec<DsPass<O>>), AllocError>
        requires count { length slices.items ≡ 128 }
        requires slices { HaveWords r.now slices.items }
        requires keys { (1 ≤ key_words) × (key_words ≤ 64) }
        requires callers { 1 ≤ callers }
        requires values { O.VALUE_WORDS ≤ 65536 }
        ensures table { IfOk result (λ t. IsTable r.now t.0) }
        ensures seed { IfOk result (λ t. seed_of t.0 ≡ 0) }
        ensures keys { IfOk result (λ t. key_words_of t.0 ≡ key_words) }
        ensures items { IfOk result (λ t. item_of t.0 ≡ item_size key_words O.VALUE_WORDS) }
        ensures callers { IfOk result (λ t. callers_of t.0 ≡ callers) }
        ensures passes { IfOk result (λ t. AreAll t.0 t.1.items) }
        ensures fresh { IfOk result (λ t. (k : ℕ) (p : _) → get_elem? t.1.items k ≡ some p → (i : ℕ) → (seen_of p i ≡ []) × (mine_of p i ≡ [])) }
        ensures home { IfOk result (λ t. (area : _) → IsHome area t.0) }
    {
        Dshash::on_slices_with_seed(alloc, r, slices, 0, key_words, callers)
    }

    /// The same, with a seed for the hashes that say a key's bucket, as for `with_seed`.
    pub fn on_slices_with_seed(
        alloc: Global,
        r: &Region,
        slices: Vec<Chunk>,
        seed: u64,
        key_words: u32,
        callers: u32,
    ) -> Result<(Dshash<O>, Vec<DsPass<O>>), AllocError>
        requires count { length slices.items ≡ 128 }
        requires slices { HaveWords r.now slices.items }
        requires keys { (1 ≤ key_words) × (key_words ≤ 64) }
        requires callers { 1 ≤ callers }
        requires values { O.VALUE_WORDS ≤ 65536 }
        ensures table { IfOk result (λ t. IsTable r.now t.0) }
        ensures seed { IfOk result (λ t. seed_of t.0 ≡ seed) }
        ensures keys { IfOk result (λ t. key_words_of t.0 ≡ key_words) }
        ensures items { IfOk result (λ t. item_of t.0 ≡ item_size key_words O.VALUE_WORDS) }
        ensures callers { IfOk result (λ t. callers_of t.0 ≡ callers) }
        ensures passes { IfOk result (λ t. AreAll t.0 t.1.items) }
        ensures fresh { IfOk result (λ t. (k : ℕ) (p : _) → get_elem? t.1.items k ≡ some p → (i : ℕ) → (seen_of p i ≡ []) × (mine_of p i ≡ [])) }
        ensures home { IfOk result (λ t. (area : _) → IsHome area t.0) }
    {
        Dshash::with_home(alloc, r, slices, seed, key_words, callers, None)
    }

    /// The same, with what clauses see of the area that the slices are from.
    fn with_home(
        alloc: Global,
        r: &Region,
        slices: Vec<Chunk>,
        seed: u64,
        key_words: u32,
        callers: u32,
        home: Option<Origin<Area>>,
    ) -> Result<(Dshash<O>, Vec<DsPass<O>>), AllocError>
        requires count { length slices.items ≡ 128 }
        requires slices { HaveWords r.now slices.items }
        requires keys { (1 ≤ key_words) × (key_words ≤ 64) }
        requires callers { 1 ≤ callers }
        requires values { O.VALUE_WORDS ≤ 65536 }
        ensures table { IfOk result (λ t. IsTable r.now t.0) }
        ensures seed { IfOk result (λ t. seed_of t.0 ≡ seed) }
        ensures keys { IfOk result (λ t. key_words_of t.0 ≡ key_words) }
        ensures items { IfOk result (λ t. item_of t.0 ≡ item_size key_words O.VALUE_WORDS) }
        ensures callers { IfOk result (λ t. callers_of t.0 ≡ callers) }
        ensures passes { IfOk result (λ t. AreAll t.0 t.1.items) }
        ensures fresh { IfOk result (λ t. (k : ℕ) (p : _) → get_elem? t.1.items k ≡ some p → (i : ℕ) → (seen_of p i ≡ []) × (mine_of p i ≡ [])) }
        ensures home { IfOk result (λ t. t.0.home ≡ home) }
    {
        let item = item_bytes(key_words, O::VALUE_WORDS as u32);
        let parts = partitions::<O>(alloc, r, slices, seed, key_words, chunk_bytes(item))?;
        let (shelf, passes) = Shelf::new(alloc, parts, callers)?;
        let table = Dshash {
            seed,
            key_words,
            item_bytes: item,
            shelf,
            home,
        };
        Ok((table, passes))
    }
}
