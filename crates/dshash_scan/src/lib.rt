//! All entries of a shared hash table, partition after partition (dshash.c, dshash_seq_next): one lock at a time, so
//! each partition's entries are those of one moment, and nothing is said of one moment for all. A scan of a partition may
//! change or take out each entry that it visits.

#![tactic(auto)]

mod counting;
mod visiting;

ghost use Rattle.std.specs.Prelude.{◌≡◌, ℕ, ◌<◌, IfOk};
ghost use Rattle.lock_book.specs.Shown.{number_of};
ghost use Rattle.dshash_core.specs.Listing.{pairs_of};
ghost use Rattle.dshash_parts.specs.Tables.{IsTable, Belongs};
ghost use Rattle.dshash_scan.specs.Listings.{ListsOnce, ListsTable};

pub use counting::count_all;
use dshash_core::{CellObject, Entry, PARTITIONS};
use dshash_parts::{DsPass, Dshash};
use region_words::Region;
use std::alloc::{AllocError, Global};
use std::sync::Wait;
pub use visiting::{Scan, Visited, scan_one, visit_one};

/// The entries of all partitions, from the first to the last, in no stated order within one. It waits for the lock of
/// each partition, one after another, and takes memory for the entries and their keys. If there is none, some of the
/// partitions were listed.
pub fn list_all<R: Wait, O: CellObject + Send>(
    rt: &R,
    alloc: Global,
    table: &Dshash<O>,
    r: &Region,
    pass: &mut DsPass<O>,
) -> Result<Vec<Entry<O>>, AllocError>
where
    O::State: Send,
    O::Call: Send,
    O::Reply: Send,
    requires table { IsTable r.now table.now }
    requires own { Belongs table.now pass.old }
    ensures own { Belongs table.now pass.new }
    ensures caller { number_of pass.new ≡ number_of pass.old }
    ensures once { (k : ℕ) → k < 128 → ListsOnce O.stepped pass.old pass.new k }
    ensures all { IfOk result (λ v. ListsTable O.stepped pass.old pass.new (pairs_of v.items)) }
{
    let mut all = Vec::new(alloc);
    for number in 0..PARTITIONS {
        let mut entries = match table.list_one(rt, alloc, r, pass, number) {
            Ok(entries) => entries,
            Err(lack) => return Err(lack),
        };
        match all.append(&mut entries) {
            Ok(()) => {}
            Err(lack) => return Err(lack),
        }
    }
    Ok(all)
}
