//! The two halves of a hash join by hand: rows go into a shared table under their keys, and after it has been closed and
//! frozen, two threads look keys up in it at once.

ghost use Rattle.std.specs.Prelude.{◌≡◌, ◌<◌, ◌^◌, ◌∷◌, [], IfOk, IfSome};
ghost use Rattle.std.specs.FinMap as fin;
ghost use Rattle.lock_book.specs.Shown.{number_of};
ghost use Rattle.dshash_core.specs.Cells.{partition_of};
ghost use Rattle.dshash_core.specs.Key.{hash_of};
ghost use Rattle.dshash_parts.specs.Ending.{Ended, whole_of};
ghost use Rattle.dshash_parts.specs.Tables.{Belongs, IsTable, callers_of};
ghost use Rattle.dshash_parts.specs.Uses.{IsAtHome};
ghost use Rattle.frozen_table.specs.Parts.{AreParts, ListMaps};
ghost use Rattle.join_pairs.specs.Chains.{last_step, number_in};

use dsa_area::{Area, AreaPass, area_words};
use dshash_parts::{DsPass, Dshash};
use frozen_table::{FrozenTable, Lookup, take_all};
use join_pairs::LastRow;
use region_words::Region;
use std::alloc::Global;
use std::sync::Wait;
use std::test::Fail;
use std::thread::{Threads, join};

/// How many keys the rows have.
const KEYS: u64 = 100;

/// A table of keys of one word for one caller, in an area made for it, and the caller's two passes.
fn table_for_rows<R: Wait>(
    rt: &R,
    alloc: Global,
) -> Result<(Region, Area, Dshash<LastRow>, DsPass<LastRow>, AreaPass), Fail>
    ensures home { IfOk result (λ a. IsAtHome a.0 a.1 a.2 1 a.3 a.4) }
    ensures only { IfOk result (λ a. (callers_of a.2 ≡ 1) × (number_of a.3 ≡ 0)) }
{
    let words = area_words(256);
    let (region, mut part) = Region::new(alloc, words as usize + 1)?;
    let chunk = part.split_chunk(&region, 1, words);
    let (area, mut apasses) = Area::new(alloc, &region, chunk, 256, 1)?;
    let Some(mut apass) = apasses.pop() else {
        unreachable!()
    };
    let Ok((table, mut passes)) = Dshash::new(rt, alloc, &region, &area, &mut apass, 1, 1) else {
        return Err(Fail::new("no table"));
    };
    let Some(pass) = passes.pop() else {
        unreachable!()
    };
    Ok((region, area, table, pass, apass))
}

/// Puts the rows from 1 to this number in, each under its number modulo 100. Says how many the table took.
fn put_rows<R: Wait>(
    rt: &R,
    table: &Dshash<LastRow>,
    r: &Region,
    area: &Area,
    pass: &mut DsPass<LastRow>,
    apass: &mut AreaPass,
    rows: u64,
) -> u64
    requires home { IsAtHome r.now area.now table.now 1 pass.old apass.old }
    requires few { rows < 2 ^ 63 }
    ensures home { IsAtHome r.now area.now table.now 1 pass.new apass.new }
    ensures caller { number_of pass.new ≡ number_of pass.old }
{
    let mut taken = 0u64;
    for at in 0..rows {
        let row = at + 1;
        if table
            .call(rt, r, area, pass, apass, &[row % KEYS], &row)
            .is_ok()
        {
            taken = taken.saturating_add(1);
        }
    }
    taken
}

/// Ends a table that had one caller, and freezes it: under each key it has what all calls left there.
pub fn freeze_table(
    alloc: Global,
    r: &Region,
    table: Dshash<LastRow>,
    pass: DsPass<LastRow>,
) -> Option<FrozenTable<LastRow>>
    requires table { IsTable r.now table }
    requires own { Belongs table pass }
    requires only { (callers_of table ≡ 1) × (number_of pass ≡ 0) }
    ensures frozen { IfSome result (λ f. (c : _) × Ended last_step table (pass ∷ []) c × AreParts r.now table (whole_of c) f) }
{
    let Ok(mut passes) = Vec::with_capacity(alloc, 1) else {
        return None;
    };
    passes.push_reserved(pass);
    let mut closed = table.close(passes);
    let Ok(partitions) = take_all(alloc, &mut closed) else {
        return None;
    };
    match FrozenTable::freeze(alloc, r, partitions) {
        Ok(frozen) => Some(frozen),
        Err(_) => None,
    }
}

/// The last row of a key, or 0 if it has none.
pub fn last_row(lookup: &Lookup<LastRow>, key: u64) -> u64
    ensures { (maps : _) → ListMaps maps lookup.now → result ≡ number_in (fin.get (maps (partition_of (hash_of (key ∷ [])))) (key ∷ [])) }
{
    lookup.get(&[key]).unwrap_or(0)
}

/// How many of these keys have the last row that they should have, if this many rows were put in.
fn probe(lookup: &Lookup<LastRow>, from: u64, to: u64, rows: u64) -> u64 {
    let mut good = 0u64;
    for key in from..to {
        let last = rows.saturating_sub(rows.saturating_sub(key) % KEYS);
        if last_row(lookup, key) == last {
            good = good.saturating_add(1);
        }
    }
    good
}

/// Two threads look up half of the keys each, at once.
fn probe_in_two<R: Threads + Wait + Sync>(
    rt: &R,
    lookup: &Lookup<LastRow>,
    rows: u64,
) -> (u64, u64) {
    join(
        rt,
        || probe(lookup, 0, 50, rows),
        || probe(lookup, 50, 100, rows),
    )
}

#[test]
fn two_threads_probe_a_frozen_table(rt: HostRuntime) -> Result<(), Fail> {
    let (region, area, table, mut pass, mut apass) = table_for_rows(&rt, rt.alloc())?;
    let taken = put_rows(&rt, &table, &region, &area, &mut pass, &mut apass, 1000);
    assert_eq!(rt; taken, 1000);
    let Some(frozen) = freeze_table(rt.alloc(), &region, table, pass) else {
        return Err(Fail::new("not frozen"));
    };
    assert_eq!(rt; probe_in_two(&rt, frozen.lookup(), 1000), (50, 50));
    assert_eq!(rt; last_row(frozen.lookup(), 100), 0);
    let mut keys = 0u64;
    for partition in frozen.thaw() {
        keys = keys.saturating_add(partition.count());
    }
    assert_eq!(rt; keys, 100);
    Ok(())
}
