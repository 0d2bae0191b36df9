//! A hash table of `dshash_parts` that all threads call.

ghost use Rattle.std.specs.Prelude.{◌≡◌, ◌^◌, ◌≤◌};
ghost use Rattle.dsa_area.specs.Shown.{IsArea};
ghost use Rattle.dshash_parts.specs.Tables.{IsHome, IsTable, key_words_of};
ghost use Rattle.uses_load.specs.Passes.{HasBoth};

use crate::counts::sum_of;
use crate::present::{fill, gets, sets};
use crate::table::{Passes, puts, table_for};
use dsa_area::Area;
use dshash_numbers::Number;
use dshash_parts::Dshash;
use region_words::Region;
use std::alloc::{AllocError, Global};
use std::sync::Wait;
use std::thread::{Threads, map_vec};

/// What a thread does with keys.
#[derive(Clone, Copy)]
pub enum Work {
    /// Puts new ones.
    Puts,
    /// Gets those that are there.
    Gets,
    /// Puts another number under those that are there.
    Sets,
}

impl Work {
    /// The word that asks for it, and what a key is whose call went as it has to.
    pub fn names(self) -> (&'static str, &'static str) {
        match self {
            Work::Puts => ("puts", "new"),
            Work::Gets => ("gets", "found"),
            Work::Sets => ("sets", "there"),
        }
    }
}

/// Makes this many calls of a table of this many keys. Says how many went as they have to: of threads that share the
/// table, each has `most` new keys there at once.
fn calls_of<R: Wait>(
    rt: &R,
    alloc: Global,
    table: &Dshash<Number>,
    r: &Region,
    area: &Area,
    passes: Passes,
    work: Work,
    calls: u64,
    keys: u64,
    most: u64,
) -> u64
    requires table { IsTable r.now table.now }
    requires keys { key_words_of table.now ≡ 1 }
    requires area { IsArea r.now area.now }
    requires home { IsHome area.now table.now }
    requires own { HasBoth table.now area.now passes }
    requires calls_few { calls ≤ 2 ^ 32 }
    requires some { 1 ≤ keys }
    ensures { result ≤ calls }
{
    match work {
        Work::Puts => puts(rt, alloc, table, r, area, passes, calls, most),
        Work::Gets => gets(rt, table, r, area, passes, calls, keys),
        Work::Sets => sets(rt, table, r, area, passes, calls, keys),
    }
}

/// Makes a table with room for `keys` keys, which are put there first unless new ones are, and has this many threads call
/// it this many times each. Says how many of the keys were new, or there.
pub fn keys_load<R: Threads + Wait + Sync>(
    rt: &R,
    alloc: Global,
    work: Work,
    threads: u32,
    calls: u64,
    keys: u64,
) -> Result<u64, AllocError>
    requires some { 1 ≤ threads }
    requires threads_few { threads ≤ 64 }
    requires calls_few { calls ≤ 2 ^ 32 }
    requires keys_some { 1 ≤ keys }
    requires keys_few { keys ≤ 1000000 }
{
    let (region, area, table, mut first, passes) = table_for(rt, alloc, keys, threads)?;
    if !matches!(work, Work::Puts) {
        fill(rt, &table, &region, &area, &mut first, keys);
    }
    let here = &region;
    let shared_area = &area;
    let shared = &table;
    let most = keys / u64::from(threads);
    let done = map_vec(
        rt,
        passes,
        &|passes: Passes| -> u64
            requires { IsTable here.now shared.now × (key_words_of shared.now ≡ 1) × IsArea here.now shared_area.now × IsHome shared_area.now shared.now × HasBoth shared.now shared_area.now passes × (calls ≤ 2 ^ 32) × (1 ≤ keys) }
        {
            calls_of(
                rt,
                alloc,
                shared,
                here,
                shared_area,
                passes,
                work,
                calls,
                keys,
                most,
            )
        },
    )?;
    Ok(sum_of(done.as_slice()))
}
