//! The number of all keys.

ghost use Rattle.std.specs.Prelude.{◌≡◌};
ghost use Rattle.lock_book.specs.Shown.{number_of};
ghost use Rattle.dshash_parts.specs.Tables.{IsTable, Belongs};
ghost use Rattle.dshash_scan.specs.Counts.{CountsTable};

use dshash_core::{CellObject, PARTITIONS};
use dshash_parts::{DsPass, Dshash};
use region_words::Region;
use std::sync::Wait;

/// The number of the keys of all partitions, from the first to the last, each at its own moment. It waits for the lock
/// of each partition, one after another, reads one number there and takes no memory.
pub fn count_all<R: Wait, O: CellObject + Send>(
    rt: &R,
    table: &Dshash<O>,
    r: &Region,
    pass: &mut DsPass<O>,
) -> u128
where
    O::State: Send,
    O::Call: Send,
    O::Reply: Send,
    requires table { IsTable r.now table.now }
    requires own { Belongs table.now pass.old }
    ensures own { Belongs table.now pass.new }
    ensures caller { number_of pass.new ≡ number_of pass.old }
    ensures counted { CountsTable O.stepped pass.old pass.new result }
{
    let mut total = 0;
    for number in 0..PARTITIONS {
        total += u128::from(table.count_one(rt, r, pass, number));
    }
    total
}
