//! Rounds of the whole table, and six leases of different lengths that go through them.

ghost use Rattle.std.specs.Prelude.{◌≡◌, ◌≤◌, IfOk};
ghost use Rattle.lock_book.specs.Shown.{number_of, seen_of};
ghost use Rattle.dsa_area.specs.Shown.{number_of as area_number};
ghost use Rattle.dshash_parts.specs.Tables.{callers_of};
ghost use Rattle.dshash_parts.specs.Uses.{IsAtHome};
ghost use Rattle.uses_table.specs.Ticks.{AreLater};

use super::tick_one;
use crate::lease::{Lease, LeaseCall};
use crate::one::table_for_one;
use dsa_area::{Area, AreaPass, NoSpace};
use dshash_parts::{DsPass, Dshash};
use region_words::Region;
use std::alloc::{AllocError, Global};
use std::sync::Wait;
use std::test::Fail;

/// A round of the clock: the same at each partition, one after another. How many leases are gone.
pub fn tick_all<R: Wait>(
    rt: &R,
    alloc: Global,
    leases: &Dshash<Lease>,
    r: &Region,
    area: &Area,
    pass: &mut DsPass<Lease>,
    apass: &mut AreaPass,
) -> Result<u128, AllocError>
    requires home { IsAtHome r.now area.now leases.now 1 pass.old apass.old }
    ensures home { IsAtHome r.now area.now leases.now 1 pass.new apass.new }
    ensures caller { number_of pass.new ≡ number_of pass.old }
    ensures area_caller { area_number apass.new ≡ area_number apass.old }
    ensures alone { callers_of leases.now ≡ 1 → IfOk result (λ gone. AreLater (seen_of pass.old) (seen_of pass.new) gone) }
{
    let mut gone = 0;
    for partition in 0..128 {
        let round = tick_one(rt, alloc, leases, r, area, pass, apass, partition)?;
        gone += u128::from(round.gone);
    }
    Ok(gone)
}

/// Grants a key a lease of this many rounds. What was there before.
fn grant<R: Wait>(
    rt: &R,
    leases: &Dshash<Lease>,
    r: &Region,
    area: &Area,
    pass: &mut DsPass<Lease>,
    apass: &mut AreaPass,
    key: u64,
    rounds: u64,
) -> Result<Option<Lease>, NoSpace>
    requires home { IsAtHome r.now area.now leases.now 1 pass.old apass.old }
    ensures home { IsAtHome r.now area.now leases.now 1 pass.new apass.new }
{
    let lease = Lease { value: key, rounds };
    leases.call(rt, r, area, pass, apass, &[key], &LeaseCall::Grant(lease))
}

/// Grants the keys from 0 on leases of this many rounds. How many had room.
fn grant_all<R: Wait>(
    rt: &R,
    leases: &Dshash<Lease>,
    r: &Region,
    area: &Area,
    pass: &mut DsPass<Lease>,
    apass: &mut AreaPass,
    rounds: &[u64],
) -> u64
    requires home { IsAtHome r.now area.now leases.now 1 pass.old apass.old }
    ensures home { IsAtHome r.now area.now leases.now 1 pass.new apass.new }
{
    let mut granted = 0u64;
    for each in rounds {
        if grant(rt, leases, r, area, pass, apass, granted, *each).is_ok() {
            granted = granted.saturating_add(1);
        }
    }
    granted
}

/// The rounds that are left to the leases of the keys from 0 to 5.
fn left_of<R: Wait>(
    rt: &R,
    leases: &Dshash<Lease>,
    r: &Region,
    area: &Area,
    pass: &mut DsPass<Lease>,
    apass: &AreaPass,
) -> [Option<u64>; 6]
    requires home { IsAtHome r.now area.now leases.now 1 pass.old apass.now }
    ensures home { IsAtHome r.now area.now leases.now 1 pass.new apass.now }
{
    let mut left = [None; 6];
    for key in 0..6usize {
        let lease = leases.find(rt, r, pass, &[key as u64], &LeaseCall::Read);
        left[key] = lease.map(|lease| lease.rounds);
    }
    left
}

/// A round of the clock: how many leases are gone, and the rounds that are left to those of the keys from 0 to 5.
fn next_round<R: Wait>(
    rt: &R,
    alloc: Global,
    leases: &Dshash<Lease>,
    r: &Region,
    area: &Area,
    pass: &mut DsPass<Lease>,
    apass: &mut AreaPass,
) -> Result<(u128, [Option<u64>; 6]), AllocError>
    requires home { IsAtHome r.now area.now leases.now 1 pass.old apass.old }
    ensures home { IsAtHome r.now area.now leases.now 1 pass.new apass.new }
{
    let gone = tick_all(rt, alloc, leases, r, area, pass, apass)?;
    Ok((gone, left_of(rt, leases, r, area, pass, apass)))
}

#[test]
fn leases_run_out(rt: HostRuntime) -> Result<(), Fail> {
    let (region, area, leases, mut pass, mut apass) = table_for_one(&rt, rt.alloc(), 64, 0, 1)?;
    let rounds = [0, 3, 1, 0, 2, 1];
    let granted = grant_all(&rt, &leases, &region, &area, &mut pass, &mut apass, &rounds);
    assert!(rt; granted == 6);
    let (gone, left) = next_round(
        &rt,
        rt.alloc(),
        &leases,
        &region,
        &area,
        &mut pass,
        &mut apass,
    )
    .expect(&rt, "memory");
    assert!(rt; gone == 2 && left == [None, Some(2), Some(0), None, Some(1), Some(0)]);
    let before = grant(&rt, &leases, &region, &area, &mut pass, &mut apass, 2, 1);
    assert!(rt;
        matches!(
            before,
            Ok(Some(Lease {
                value: 2,
                rounds: 0
            }))
        )
    );
    let (gone, left) = next_round(
        &rt,
        rt.alloc(),
        &leases,
        &region,
        &area,
        &mut pass,
        &mut apass,
    )
    .expect(&rt, "memory");
    assert!(rt; gone == 1 && left == [None, Some(1), Some(0), None, Some(0), None]);
    let (gone, left) = next_round(
        &rt,
        rt.alloc(),
        &leases,
        &region,
        &area,
        &mut pass,
        &mut apass,
    )
    .expect(&rt, "memory");
    assert!(rt; gone == 2 && left == [None, Some(0), None, None, None, None]);
    Ok(())
}
