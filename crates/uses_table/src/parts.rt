//! A table of numbers under keys of one word, which two threads fill, and which is emptied again.

ghost use Rattle.std.specs.Prelude.{◌≡◌, ◌+◌, ◌^◌, ◌<◌, ◌≤◌, IfOk};
ghost use Rattle.std.specs.FinMap as fin;
ghost use Rattle.lock_book.specs.Shown.{number_of, seen_of};
ghost use Rattle.dsa_area.specs.Shown.{AreAll as AreAllOfArea, IsArea, callers_of as area_callers, number_of as area_number};
ghost use Rattle.dshash_parts.specs.Tables.{map_at};
ghost use Rattle.dshash_parts.specs.Uses.{IsAtHome};

use dsa_area::{Area, AreaPass, area_words};
use dshash_numbers::{Number, NumberCall};
use dshash_parts::{DsPass, Dshash};
use region_words::Region;
use std::alloc::{AllocError, Global};
use std::sync::Wait;

mod two;

/// A region with an area of this many pages after its first word, and a pass for each caller.
pub(crate) fn area_for(
    alloc: Global,
    pages: u32,
    callers: u32,
) -> Result<(Region, Area, Vec<AreaPass>), AllocError>
    requires few { pages ≤ 65536 }
    requires callers { 1 ≤ callers }
    ensures area { IfOk result (λ a. IsArea a.0 a.1) }
    ensures callers { IfOk result (λ a. area_callers a.1 ≡ callers) }
    ensures passes { IfOk result (λ a. AreAllOfArea a.1 a.2.items) }
{
    let words = area_words(pages);
    let (region, mut part) = Region::new(alloc, words as usize + 1)?;
    let chunk = part.split_chunk(&region, 1, words);
    let (area, passes) = Area::new(alloc, &region, chunk, pages, callers)?;
    Ok((region, area, passes))
}

/// What is done with a key. A key's number is the key itself.
#[derive(Clone, Copy)]
enum Work {
    Put,
    Get,
}

/// Does so with a key. Says whether the answer is that of a key that was not there, for `Put`, and for `Get`
/// that of one that was.
fn does<R: Wait>(
    rt: &R,
    table: &Dshash<Number>,
    r: &Region,
    area: &Area,
    pass: &mut DsPass<Number>,
    apass: &mut AreaPass,
    key: u64,
    work: Work,
) -> bool
    requires home { IsAtHome r.now area.now table.now 1 pass.old apass.old }
    ensures home { IsAtHome r.now area.now table.now 1 pass.new apass.new }
    ensures caller { number_of pass.new ≡ number_of pass.old }
    ensures area_caller { area_number apass.new ≡ area_number apass.old }
{
    let (call, before) = match work {
        Work::Put => (NumberCall::Put(key), None),
        Work::Get => (NumberCall::Get, Some(key)),
    };
    match table.call(rt, r, area, pass, apass, &[key], &call) {
        Ok(reply) => reply == before,
        Err(_) => false,
    }
}

/// Does so with this many keys, from one on. Says how often the answer was such.
fn does_all<R: Wait>(
    rt: &R,
    table: &Dshash<Number>,
    r: &Region,
    area: &Area,
    pass: &mut DsPass<Number>,
    apass: &mut AreaPass,
    from: u64,
    count: u64,
    work: Work,
) -> u64
    requires home { IsAtHome r.now area.now table.now 1 pass.old apass.old }
    requires few { from + count < 2 ^ 64 }
    ensures home { IsAtHome r.now area.now table.now 1 pass.new apass.new }
    ensures caller { number_of pass.new ≡ number_of pass.old }
    ensures area_caller { area_number apass.new ≡ area_number apass.old }
{
    let mut good = 0u64;
    for i in 0..count {
        if does(rt, table, r, area, pass, apass, from + i, work) {
            good = good.saturating_add(1);
        }
    }
    good
}

/// Puts this many keys from one on and gets them. Says how often each of the two went as it has to.
fn put_and_get<R: Wait>(
    rt: &R,
    table: &Dshash<Number>,
    r: &Region,
    area: &Area,
    pass: &mut DsPass<Number>,
    apass: &mut AreaPass,
    from: u64,
    count: u64,
) -> (u64, u64)
    requires home { IsAtHome r.now area.now table.now 1 pass.old apass.old }
    requires few { from + count < 2 ^ 64 }
    ensures home { IsAtHome r.now area.now table.now 1 pass.new apass.new }
    ensures caller { number_of pass.new ≡ number_of pass.old }
    ensures area_caller { area_number apass.new ≡ area_number apass.old }
{
    let put = does_all(rt, table, r, area, pass, apass, from, count, Work::Put);
    let got = does_all(rt, table, r, area, pass, apass, from, count, Work::Get);
    (put, got)
}

/// Takes entries out of a partition until there is none, and says how many there were. Others may put in new ones
/// meanwhile.
fn drain<R: Wait>(
    rt: &R,
    alloc: Global,
    table: &Dshash<Number>,
    r: &Region,
    area: &Area,
    pass: &mut DsPass<Number>,
    apass: &mut AreaPass,
    partition: u32,
) -> Result<u64, AllocError>
    requires home { IsAtHome r.now area.now table.now 1 pass.old apass.old }
    requires number { partition < 128 }
    ensures home { IsAtHome r.now area.now table.now 1 pass.new apass.new }
    ensures empty { IfOk result (λ _. fin.len (map_at (seen_of pass.new) partition) ≡ 0) }
{
    let mut taken = 0u64;
    for _ in rt.forever() {
        let call = NumberCall::Delete;
        match table.take_any(rt, alloc, r, area, pass, apass, partition, &call)? {
            Some((_key, _number)) => taken = taken.saturating_add(1),
            None => return Ok(taken),
        }
    }
    unreachable!()
}

/// Empties each partition in the same way.
fn drain_all<R: Wait>(
    rt: &R,
    alloc: Global,
    table: &Dshash<Number>,
    r: &Region,
    area: &Area,
    pass: &mut DsPass<Number>,
    apass: &mut AreaPass,
) -> Result<u64, AllocError>
    requires home { IsAtHome r.now area.now table.now 1 pass.old apass.old }
    ensures home { IsAtHome r.now area.now table.now 1 pass.new apass.new }
{
    let mut taken = 0u64;
    for partition in 0..128 {
        taken = drain(rt, alloc, table, r, area, pass, apass, partition)?.saturating_add(taken);
    }
    Ok(taken)
}
