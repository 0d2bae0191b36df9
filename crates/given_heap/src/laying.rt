//! The words of a region in given memory.

ghost use Rattle.std.specs.Prelude.{◌≡◌, ℕ, ◌≤◌, ◌^◌, cond, Option, Some, None, IfOk, replicate};
ghost use Rattle.word_map.specs.WordMap.{at as word_at, is_within};
ghost use Rattle.region_words.specs.Parts.{IsSized};

use crate::{Given, GivenHeap};
use atomic_table::{Refused, Shared, Table};
use region_rule::{Known, RegionRule};
use region_words::Part;
use std::alloc::{AllocError, Global};

/// The given number of zeros.
fn zeros(alloc: Global, count: usize) -> Result<Vec<u64>, AllocError>
    ensures { IfOk result (λ v. v.items ≡ replicate count 0) }
{
    vec![in alloc; 0u64; count]
}

/// The words of a new region, all 0, for good, and the part that owns all of them. The words lie in the first block and
/// the slots in the second, each of 8 bytes a word. It takes 16 bytes a word of the process's own memory while it is made.
pub fn lay(
    alloc: Global,
    first: Given,
    second: Given,
    words: usize,
) -> Result<(&'static Shared<u64, Known, usize, RegionRule>, Part), AllocError>
    requires { (1 ≤ words) × (words ≤ 2 ^ 26) }
    ensures words { IfOk result (λ r. (r.0.now.table_id.words ≡ words) × (r.0.now.key ≡ words)) }
    ensures sized { IfOk result (λ r. IsSized r.0.now.table_id) }
    ensures region { IfOk result (λ r. r.1.region ≡ r.0.now.table_id) }
    ensures zeros { IfOk result (λ r. (k : ℕ) → word_at r.1.words k ≡ cond {A = Option ℕ} (is_within 0 words k) (Some 0) None) }
{
    let row = zeros(alloc, words)?;
    let slots = zeros(alloc, words)?;
    let heap = GivenHeap::new(first, second);
    let (table, seat) = match Table::new(heap, row.as_slice(), slots, &words) {
        Ok(made) => made,
        Err(Refused { slots: _ }) => return Err(AllocError),
    };
    let part = Part::of_seat(seat);
    let table: &'static mut Table<u64, Known, usize, RegionRule, GivenHeap> = match Box::new(
        alloc, table,
    ) {
        Ok(kept) => Box::leak(kept),
        Err(_) => return Err(AllocError),
    };
    Ok((&table.shared, part))
}
