//! A hash table of `dshash_parts` that is filled first, and whose keys a thread gets, or puts another number under.

ghost use Rattle.std.specs.Prelude.{◌≡◌, ◌^◌, ◌<◌, ◌≤◌};
ghost use Rattle.dsa_area.specs.Shown.{IsArea};
ghost use Rattle.dshash_parts.specs.Tables.{IsHome, IsTable, key_words_of};
ghost use Rattle.uses_load.specs.Passes.{HasBoth};

use crate::table::Passes;
use dsa_area::Area;
use dshash_numbers::{Number, NumberCall};
use dshash_parts::Dshash;
use region_words::Region;
use std::sync::Wait;

/// An odd number whose multiples are spread over all words.
const SPREAD: u64 = 0x9E37_79B9_7F4A_7C15;

/// How far apart the callers' orders of the keys begin, as a power of two.
const ORDER_BITS: u32 = 32;

/// The key that a caller names at its `i`-th call, of those from 0 on.
fn nth_key(caller: u32, i: u64, keys: u64) -> u64
    requires some { 1 ≤ keys }
    ensures { result < keys }
{
    let from = u64::from(caller) << ORDER_BITS;
    i.wrapping_add(from).wrapping_mul(SPREAD) % keys
}

/// Puts a number under a key. Says whether the key was there.
fn changes<R: Wait>(
    rt: &R,
    table: &Dshash<Number>,
    r: &Region,
    area: &Area,
    passes: &mut Passes,
    key: u64,
    number: u64,
) -> bool
    requires table { IsTable r.now table.now }
    requires keys { key_words_of table.now ≡ 1 }
    requires area { IsArea r.now area.now }
    requires home { IsHome area.now table.now }
    requires own { HasBoth table.now area.now passes.old }
    ensures own { HasBoth table.now area.now passes.new }
{
    match table.call(
        rt,
        r,
        area,
        &mut passes.table,
        &mut passes.area,
        &[key],
        &NumberCall::Put(number),
    ) {
        Ok(before) => before.is_some(),
        Err(_) => false,
    }
}

/// Puts the keys from 0 on, this many of them, each with itself as its number.
pub fn fill<R: Wait>(
    rt: &R,
    table: &Dshash<Number>,
    r: &Region,
    area: &Area,
    passes: &mut Passes,
    keys: u64,
)
    requires table { IsTable r.now table.now }
    requires keys { key_words_of table.now ≡ 1 }
    requires area { IsArea r.now area.now }
    requires home { IsHome area.now table.now }
    requires own { HasBoth table.now area.now passes.old }
    ensures own { HasBoth table.now area.now passes.new }
{
    for key in 0..keys {
        changes(rt, table, r, area, passes, key, key);
    }
}

/// Gets this many of the keys from 0 on, in the caller's own order. Says how many were found.
pub fn gets<R: Wait>(
    rt: &R,
    table: &Dshash<Number>,
    r: &Region,
    area: &Area,
    mut passes: Passes,
    calls: u64,
    keys: u64,
) -> u64
    requires table { IsTable r.now table.now }
    requires keys { key_words_of table.now ≡ 1 }
    requires area { IsArea r.now area.now }
    requires home { IsHome area.now table.now }
    requires own { HasBoth table.now area.now passes }
    requires some { 1 ≤ keys }
    ensures { result ≤ calls }
{
    let number = passes.area.number();
    let mut found = 0;
    for i in 0..calls {
        let key = nth_key(number, i, keys);
        let stands = table.find(rt, r, &mut passes.table, &[key], &NumberCall::Get);
        if stands == Some(key) {
            found += 1;
        }
    }
    found
}

/// Puts other numbers under this many of the keys from 0 on, in the caller's own order. Says how many were there.
pub fn sets<R: Wait>(
    rt: &R,
    table: &Dshash<Number>,
    r: &Region,
    area: &Area,
    mut passes: Passes,
    calls: u64,
    keys: u64,
) -> u64
    requires table { IsTable r.now table.now }
    requires keys { key_words_of table.now ≡ 1 }
    requires area { IsArea r.now area.now }
    requires home { IsHome area.now table.now }
    requires own { HasBoth table.now area.now passes }
    requires some { 1 ≤ keys }
    ensures { result ≤ calls }
{
    let number = passes.area.number();
    let mut there = 0;
    for i in 0..calls {
        let key = nth_key(number, i, keys);
        if changes(rt, table, r, area, &mut passes, key, i) {
            there += 1;
        }
    }
    there
}
