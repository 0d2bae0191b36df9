//! Partitions that have to grow: of each, a look at its size, a slice from the area, a move, and the slice that is left
//! over back to the area. The partition's lock is given up in between, so the area is never asked under it.

ghost use Rattle.std.specs.Prelude.{◌≡◌, ℕ, ◌<◌, ◌≤◌, List, IfOk, MatchResult};
ghost use Rattle.lock_book.specs.Shown.{number_of, seen_of, mine_of};
ghost use Rattle.dsa_area.specs.Shown.{Belongs as AreaBelongs, IsArea, number_of as area_number};
ghost use Rattle.dshash_chunks.specs.Held.{stepped};
ghost use Rattle.dshash_parts.specs.Tables.{size_at};
ghost use Rattle.chunk_table.specs.Tables.{IsTable, Belongs, sight_of};
ghost use Rattle.dshash_parts.specs.Sweeps.{Grew, Stuck, Swept, SweptUntil};

use crate::requests::{ask, give};
use crate::table::{ChunkPass, ChunkTable};
use crate::turns::{grow_at, look_at};
use dsa_area::{Area, AreaPass, NoSpace};
use dshash_chunks::ChunkObject;
use dshash_core::{PARTITIONS, bucket_count};
use region_words::Region;
use std::sync::Wait;

/// The partition of this number moves to this size, if it has a smaller one.
pub(crate) fn grow_one<R: Wait, W: ChunkObject + Send>(
    rt: &R,
    table: &ChunkTable<W>,
    r: &Region,
    area: &Area,
    pass: &mut ChunkPass<W>,
    apass: &mut AreaPass,
    number: u32,
    size: u32,
) -> Result<(), NoSpace>
where
    W::Call: Send,
    W::Reply: Send,
    requires table { IsTable r.now table.now }
    requires own { Belongs table.now pass.old }
    requires area { IsArea r.now area.now }
    requires area_own { AreaBelongs area.now apass.old }
    requires number { number < 128 }
    requires size { (8 ≤ size) × (size ≤ 20) }
    ensures own { Belongs table.now pass.new }
    ensures caller { number_of pass.new ≡ number_of pass.old }
    ensures area_own { AreaBelongs area.now apass.new }
    ensures area_caller { area_number apass.new ≡ area_number apass.old }
    ensures grows { (k : ℕ) → k < 128 → size_at (seen_of pass.old) k ≤ size_at (seen_of pass.new) k }
    ensures large { IfOk result (λ _. size ≤ size_at (seen_of pass.new) number) }
    ensures grown { MatchResult result
        (λ _. Grew (stepped W.worked) area.now (number_of pass.old) number size (sight_of pass.old apass.old) (sight_of pass.new apass.new))
        (λ lack. Stuck (stepped W.worked) area.now (number_of pass.old) number size lack.pages lack.largest (sight_of pass.old apass.old) (sight_of pass.new apass.new)) }
{
    let (found, _keys) = look_at(rt, table, r, pass, number);
    if found >= size {
        return Ok(());
    }
    match ask(rt, area, r, apass, 8 * bucket_count(size)) {
        Ok(slice) => {
            let left = grow_at(rt, table, r, pass, number, size, slice);
            give(rt, area, r, apass, left);
            Ok(())
        }
        Err(lack) => Err(lack),
    }
}

/// All partitions of a smaller size move to this one, from the first to the last.
pub(crate) fn grow_all<R: Wait, W: ChunkObject + Send>(
    rt: &R,
    table: &ChunkTable<W>,
    r: &Region,
    area: &Area,
    pass: &mut ChunkPass<W>,
    apass: &mut AreaPass,
    size: u32,
) -> Result<(), NoSpace>
where
    W::Call: Send,
    W::Reply: Send,
    requires table { IsTable r.now table.now }
    requires own { Belongs table.now pass.old }
    requires area { IsArea r.now area.now }
    requires area_own { AreaBelongs area.now apass.old }
    requires size { (8 ≤ size) × (size ≤ 20) }
    ensures own { Belongs table.now pass.new }
    ensures caller { number_of pass.new ≡ number_of pass.old }
    ensures area_own { AreaBelongs area.now apass.new }
    ensures area_caller { area_number apass.new ≡ area_number apass.old }
    ensures grows { (k : ℕ) → k < 128 → size_at (seen_of pass.old) k ≤ size_at (seen_of pass.new) k }
    ensures large { IfOk result (λ _. (k : ℕ) → k < 128 → size ≤ size_at (seen_of pass.new) k) }
    ensures swept { MatchResult result
        (λ _. Swept (stepped W.worked) area.now (number_of pass.old) size 128 (sight_of pass.old apass.old) (sight_of pass.new apass.new))
        (λ lack. SweptUntil (stepped W.worked) area.now (number_of pass.old) size lack.pages lack.largest (sight_of pass.old apass.old) (sight_of pass.new apass.new)) }
{
    for number in 0..PARTITIONS {
        match grow_one(rt, table, r, area, pass, apass, number, size) {
            Ok(()) => {}
            Err(lack) => return Err(lack),
        }
    }
    Ok(())
}
