//! Leases that run out. The clock goes in rounds: each visits every lease of the table once, takes out those that are due
//! and leaves the others a round less. A visit is a call of its key as any other, so other callers grant, renew and read
//! leases meanwhile, and nobody waits for a whole round.

ghost use Rattle.std.specs.Prelude.{◌≡◌, ◌<◌, None, IfErr, IfOk};
ghost use Rattle.lock_book.specs.Shown.{number_of, seen_of};
ghost use Rattle.dsa_area.specs.Shown.{number_of as area_number};
ghost use Rattle.dshash_parts.specs.Tables.{Turned, callers_of};
ghost use Rattle.dshash_parts.specs.Uses.{IsAtHome};
ghost use Rattle.dshash_parts.specs.declared.histories.PartitionCalls.TheVariants.{Lists};
ghost use Rattle.dshash_parts.specs.declared.histories.PartitionReplies.TheVariants.{Listed};
ghost use Rattle.uses_table.specs.Leases.{stepped};
ghost use Rattle.uses_table.specs.Ticks.{IsLater, TicksEach};

use crate::lease::{Lease, LeaseCall};
use dsa_area::{Area, AreaPass};
use dshash_parts::{DsPass, Dshash};
use dshash_scan::scan_one;
use region_words::Region;
use std::alloc::{AllocError, Global};
use std::sync::Wait;

mod rounds;

/// How many leases a round visited, and how many of them were due and are gone.
#[derive(Clone, Copy)]
pub struct Round {
    pub visited: u64,
    pub gone: u64,
}

/// A round of the clock at a partition. It takes memory for a list of the partition's leases, and waits for the lock of
/// the partition once for the list and once for each lease.
pub fn tick_one<R: Wait>(
    rt: &R,
    alloc: Global,
    leases: &Dshash<Lease>,
    r: &Region,
    area: &Area,
    pass: &mut DsPass<Lease>,
    apass: &mut AreaPass,
    partition: u32,
) -> Result<Round, AllocError>
    requires home { IsAtHome r.now area.now leases.now 1 pass.old apass.old }
    requires number { partition < 128 }
    ensures home { IsAtHome r.now area.now leases.now 1 pass.new apass.new }
    ensures caller { number_of pass.new ≡ number_of pass.old }
    ensures area_caller { area_number apass.new ≡ area_number apass.old }
    ensures each { IfOk result (λ round. TicksEach leases.now area.now pass.old apass.old pass.new apass.new partition round.visited round.gone) }
    ensures refused { IfErr result (λ _. Turned stepped pass.old pass.new partition Lists (Listed None) × (apass.new ≡ apass.old)) }
    // With no other caller the partition is a round older.
    ensures alone { callers_of leases.now ≡ 1 → IfOk result (λ round. IsLater (seen_of pass.old) (seen_of pass.new) partition round.gone) }
{
    let mut scan = scan_one(rt, alloc, leases, r, pass, partition)?;
    let visited = scan.left();
    let mut gone = 0u64;
    while let Some(visit) = scan.visit_next(rt, leases, r, area, pass, apass, &LeaseCall::Tick) {
        gone += u64::from(visit.removed);
    }
    Ok(Round { visited, gone })
}
