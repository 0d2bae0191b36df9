//! A move: the partition begins again on the larger slice, and takes in one item after another of its former chains.
//!
//! Meanwhile each key is in just one of the two, with its state: `IsMoving` says so. The items' words stay where they
//! are.

ghost use Rattle.std.specs.Prelude.{◌≡◌, ℕ, ◌*◌, ◌/◌, ◌<◌, ◌≤◌, [], length};
ghost use Rattle.std.specs.FinMap as fin;
ghost use Rattle.dshash_core.specs.Cells.{KeyMap, IsRoomy, buckets_of};
ghost use Rattle.dshash_core.specs.Hung.{chain_of};
ghost use Rattle.dshash_core.specs.Outcome.{IsMoved};
ghost use Rattle.dshash_resize.specs.Moving.{IsMoving, IsMovedOn};

use dshash_core::{Buckets, CellObject, Partition};
use region_words::{Chunk, Region};

/// Moves the items of one former bucket.
fn move_chain<O: CellObject>(p: &mut Partition<O>, r: &Region, from: &mut Buckets, bucket: u64)
    requires here { (p.old.region ≡ r.now) × (from.old.region ≡ r.now) }
    requires bucket { bucket < length from.old.chains }
    requires moving { (former : ℕ) × (total : ℕ) × (all : KeyMap O.State) × IsMoving O.decoded O.VALUE_WORDS former total all p.old from.old }
    ensures moved { IsMovedOn O.decoded O.VALUE_WORDS p.old from.old p.new from.new }
    ensures done { chain_of from.new bucket ≡ [] }
    ensures others { (i : ℕ) → chain_of from.old i ≡ [] → chain_of from.new i ≡ [] }
{
    while let Some(item) = from.pop(r, bucket) {
        p.take_in(r, item);
    }
}

/// Moves a partition to a larger slice, of 2^(size - 7) words or more. Its map and its count stay, and its former slice
/// is handed out. It takes no memory, and some steps for each item, each former bucket and each new one.
pub fn move_partition<O: CellObject>(
    p: &mut Partition<O>,
    r: &Region,
    size: u32,
    slice: Chunk,
) -> Chunk
    requires here { (p.old.region ≡ r.now) × (slice.part.region ≡ r.now) }
    requires size { (p.old.size < size) × (size ≤ 20) }
    requires room { buckets_of size ≤ slice.bytes / 8 }
    ensures moved { IsMoved p.old.size p.old.cells size p.new.size p.new.cells }
    ensures same { p.new ≡ record p.old { slice = slice.at; words = slice.bytes / 8; size = size } }
    ensures roomy { IsRoomy p.new.size (fin.len p.new.cells) }
    ensures slice { (result.part.region ≡ p.old.region) × (result.at ≡ p.old.slice) × (result.bytes ≡ 8 * p.old.words) }
{
    let _ = p.count();
    let mut from = p.start_over(r, size, slice);
    for bucket in 0..from.len() {
        move_chain(p, r, &mut from, bucket);
    }
    from.into_slice(r)
}
