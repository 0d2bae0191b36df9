//! A hash table of `dshash_parts`, in its own area, and a thread that puts new keys into it.

ghost use Rattle.std.specs.Prelude.{◌≡◌, ℕ, ◌+◌, ◌^◌, ◌<◌, ◌≤◌, length, IfOk};
ghost use mathlib.Core.Option.{some};
ghost use lib.ListN.{get_elem?};
ghost use Rattle.size_classes.specs.Classes.{class_size};
ghost use Rattle.dsa_area.specs.Sizes.{chunk_size};
ghost use Rattle.dsa_area.specs.Shown.{Belongs as AreaBelongs, IsArea};
ghost use Rattle.area_spares.specs.Spares.{IsSpares, class_of};
ghost use Rattle.dshash_parts.specs.Tables.{IsHome, IsSpare, IsTable, Belongs, item_of, key_words_of};
ghost use Rattle.uses_load.specs.Passes.{AreBoth, HasBoth};

use crate::area::area_for;
use area_spares::Spares;
use dsa_area::{Area, AreaPass};
use dshash_numbers::{Number, NumberCall};
use dshash_parts::{DsPass, Dshash};
use item_spares::{call_from, spares_for};
use region_words::{Chunk, Region};
use std::alloc::{AllocError, Global};
use std::sync::Wait;

/// A caller's two passes.
#[derive(Drop)]
pub struct Passes {
    pub(crate) table: DsPass<Number>,
    pub(crate) area: AreaPass,
}

/// How many keys are a caller's own: those from its number times this many on.
const KEYS_EACH: u64 = 4_294_967_296;

/// The pages of a table with few keys.
const LEAST_PAGES: u32 = 1024;

/// How many keys more a page more is for.
const PAGE_KEYS: u64 = 64;

/// Pages enough for this many items, for the bucket slices, and for the old ones next to the new while the table grows.
fn pages_for(keys: u64) -> u32
    requires { keys ≤ 1000000 }
    ensures { result ≤ 65536 }
{
    LEAST_PAGES + (keys / PAGE_KEYS) as u32
}

/// As many passes of the table as of the area, two by two.
fn paired(
    alloc: Global,
    table: &Dshash<Number>,
    area: &Area,
    mut passes: Vec<DsPass<Number>>,
    mut apasses: Vec<AreaPass>,
) -> Result<Vec<Passes>, AllocError>
    requires own { (i : ℕ) (p : _) → get_elem? passes.items i ≡ some p → Belongs table.now p }
    requires area_own { (i : ℕ) (p : _) → get_elem? apasses.items i ≡ some p → AreaBelongs area.now p }
    requires count { length passes.items ≡ length apasses.items }
    ensures own { IfOk result (λ both. AreBoth table.now area.now both.items) }
    ensures count { IfOk result (λ both. length both.items ≡ length passes.items) }
{
    let _ = table;
    let _ = area;
    let mut both = Vec::new(alloc);
    while let Some(pass) = passes.pop() {
        let Some(apass) = apasses.pop() else {
            unreachable!()
        };
        both.push(Passes {
            table: pass,
            area: apass,
        })?;
    }
    Ok(both)
}

/// A table of keys of one word in an area with room for this many of them; the passes of one caller, and those of the
/// others.
pub(crate) fn table_for<R: Wait>(
    rt: &R,
    alloc: Global,
    keys: u64,
    others: u32,
) -> Result<(Region, Area, Dshash<Number>, Passes, Vec<Passes>), AllocError>
    requires keys { keys ≤ 1000000 }
    requires others { others ≤ 64 }
    ensures area { IfOk result (λ t. IsArea t.0 t.1) }
    ensures table { IfOk result (λ t. IsTable t.0 t.2) }
    ensures home { IfOk result (λ t. IsHome t.1 t.2) }
    ensures keys { IfOk result (λ t. key_words_of t.2 ≡ 1) }
    ensures first { IfOk result (λ t. HasBoth t.2 t.1 t.3) }
    ensures rest { IfOk result (λ t. AreBoth t.2 t.1 t.4.items) }
    ensures count { IfOk result (λ t. length t.4.items ≡ others) }
{
    let (region, area, mut apasses) = area_for(alloc, pages_for(keys), others + 1)?;
    let Some(mut apass) = apasses.pop() else {
        unreachable!()
    };
    let Ok((table, mut passes)) = Dshash::new(rt, alloc, &region, &area, &mut apass, 1, others + 1)
    else {
        return Err(AllocError);
    };
    let Some(pass) = passes.pop() else {
        unreachable!()
    };
    let first = Passes {
        table: pass,
        area: apass,
    };
    let rest = paired(alloc, &table, &area, passes, apasses)?;
    Ok((region, area, table, first, rest))
}

/// Makes a call of a key. Says whether the reply is this.
fn replies<R: Wait>(
    rt: &R,
    table: &Dshash<Number>,
    r: &Region,
    area: &Area,
    passes: &mut Passes,
    spare: &mut Option<Chunk>,
    key: u64,
    call: NumberCall,
    reply: Option<u64>,
) -> bool
    requires table { IsTable r.now table.now }
    requires keys { key_words_of table.now ≡ 1 }
    requires area { IsArea r.now area.now }
    requires home { IsHome area.now table.now }
    requires own { HasBoth table.now area.now passes.old }
    requires spare { IsSpare r.now table.now spare.old }
    ensures own { HasBoth table.now area.now passes.new }
    ensures spare { IsSpare r.now table.now spare.new }
{
    match table.call_with_spare(
        rt,
        r,
        area,
        &mut passes.table,
        &mut passes.area,
        spare,
        &[key],
        &call,
    ) {
        Ok(given) => given == reply,
        Err(_) => false,
    }
}

/// Puts a new key, whose number is the key itself, with an item of the caller's list. Says whether it was not there.
fn puts_new<R: Wait>(
    rt: &R,
    table: &Dshash<Number>,
    r: &Region,
    area: &Area,
    passes: &mut Passes,
    spares: &mut Spares,
    spare: &mut Option<Chunk>,
    key: u64,
) -> bool
    requires table { IsTable r.now table.now }
    requires keys { key_words_of table.now ≡ 1 }
    requires area { IsArea r.now area.now }
    requires home { IsHome area.now table.now }
    requires own { HasBoth table.now area.now passes.old }
    requires spares { IsSpares r.now spares.old }
    requires size { class_size (class_of spares.old) ≡ chunk_size (item_of table.now) }
    requires spare { IsSpare r.now table.now spare.old }
    ensures own { HasBoth table.now area.now passes.new }
    ensures spares { IsSpares r.now spares.new }
    ensures same { class_of spares.new ≡ class_of spares.old }
    ensures spare { IsSpare r.now table.now spare.new }
{
    match call_from(
        rt,
        table,
        r,
        area,
        &mut passes.table,
        &mut passes.area,
        spares,
        spare,
        &[key],
        &NumberCall::Put(key),
    ) {
        Ok(given) => given.is_none(),
        Err(_) => false,
    }
}

/// Puts the caller's next key, its `at`-th. If `most` of its keys come before that one, the first of them goes. Says
/// whether the one was there and the other was not.
fn put_next<R: Wait>(
    rt: &R,
    table: &Dshash<Number>,
    r: &Region,
    area: &Area,
    passes: &mut Passes,
    spares: &mut Spares,
    spare: &mut Option<Chunk>,
    at: u64,
    most: u64,
) -> bool
    requires table { IsTable r.now table.now }
    requires keys { key_words_of table.now ≡ 1 }
    requires area { IsArea r.now area.now }
    requires home { IsHome area.now table.now }
    requires own { HasBoth table.now area.now passes.old }
    requires spares { IsSpares r.now spares.old }
    requires size { class_size (class_of spares.old) ≡ chunk_size (item_of table.now) }
    requires spare { IsSpare r.now table.now spare.old }
    requires few { at < 2 ^ 32 }
    ensures own { HasBoth table.now area.now passes.new }
    ensures spares { IsSpares r.now spares.new }
    ensures same { class_of spares.new ≡ class_of spares.old }
    ensures spare { IsSpare r.now table.now spare.new }
{
    let key = u64::from(passes.area.number()) * KEYS_EACH + at;
    if most <= at {
        let old = key - most;
        if !replies(
            rt,
            table,
            r,
            area,
            passes,
            spare,
            old,
            NumberCall::Delete,
            Some(old),
        ) {
            return false;
        }
    }
    puts_new(rt, table, r, area, passes, spares, spare, key)
}

/// Puts this many of the caller's own keys, of which `most` at most are there at once. The item of a key that goes is
/// kept for the next one, and what is kept goes back at the end. Says how many were new, and 0 if there is no memory for a
/// list, or one of its items does not go back.
pub fn puts<R: Wait>(
    rt: &R,
    alloc: Global,
    table: &Dshash<Number>,
    r: &Region,
    area: &Area,
    mut passes: Passes,
    calls: u64,
    most: u64,
) -> u64
    requires table { IsTable r.now table.now }
    requires keys { key_words_of table.now ≡ 1 }
    requires area { IsArea r.now area.now }
    requires home { IsHome area.now table.now }
    requires own { HasBoth table.now area.now passes }
    requires few { calls ≤ 2 ^ 32 }
    ensures { result ≤ calls }
{
    let Ok(Some(mut spares)) = spares_for(alloc, table) else {
        return 0;
    };
    let mut spare = None;
    let mut new = 0;
    for at in 0..calls {
        if put_next(
            rt,
            table,
            r,
            area,
            &mut passes,
            &mut spares,
            &mut spare,
            at,
            most,
        ) {
            new += 1;
        }
    }
    table.give_spare(rt, r, area, &mut passes.area, spare);
    match spares.give_back(rt, area, r, &mut passes.area) {
        Ok(()) => new,
        Err(_) => 0,
    }
}
