//! The shared table of the left rows, in its own area.

ghost use Rattle.std.specs.Prelude.{◌≡◌, ◌≤◌, ◌^◌, ℕ, [], IfOk};
ghost use mathlib.Core.Option.{some};
ghost use lib.ListN.{get_elem?};
ghost use Rattle.lock_book.specs.Shown.{mine_of};
ghost use Rattle.dsa_area.specs.Shown.{AreAll as AreAllOfArea, callers_of as area_callers};
ghost use Rattle.dshash_parts.specs.Tables.{AreAll, callers_of};
ghost use Rattle.hash_join.specs.Stores.{IsStore};

use dsa_area::{Area, AreaPass, area_words};
use dshash_core::PARTITIONS;
use dshash_parts::{DsPass, Dshash, cut_slices};
use join_pairs::LastRow;
use region_words::Region;
use std::alloc::{AllocError, Global};

/// The pages of the area.
pub(crate) const PAGES: u32 = 2048;

/// A table, with the area of its items. Threads share it by reference.
#[derive(Drop)]
pub(crate) struct Store {
    /// The words of the slices with which the table began, and then of the area.
    pub(crate) region: Region,
    /// Where the table's items come from.
    pub(crate) area: Area,
    /// The last row of each key.
    pub(crate) table: Dshash<LastRow>,
    /// The words of a key.
    pub(crate) key_words: u32,
}

/// The passes of all callers, in order of their numbers.
#[derive(Drop)]
pub(crate) struct Passes {
    /// Those of the area.
    pub(crate) areas: Vec<AreaPass>,
    /// Those of the table.
    pub(crate) tables: Vec<DsPass<LastRow>>,
}

/// The first word of the area: word 0 is no place, and the slices come next.
const AREA_AT: u64 = 1 + PARTITIONS as u64;

/// An empty table of keys of this many words for this many callers, with its area, in one region. The table's slices are cut off before the area
/// gets the rest, so the area is asked for nothing, and there is no table only if there was no memory.
#[tactic(auto, using(word_map::proofs::Maps::answers, std::proofs::lemmas::Bool::Decides::nat_tests))]
pub(crate) fn open_store(
    alloc: Global,
    key_words: u32,
    callers: u32,
) -> Result<(Store, Passes), AllocError>
    requires words { (1 ≤ key_words) × (key_words ≤ 32) }
    requires callers { 1 ≤ callers }
    ensures store { IfOk result (λ s. IsStore s.0) }
    ensures words { IfOk result (λ s. s.0.key_words ≡ key_words) }
    ensures callers { IfOk result (λ s. (area_callers s.0.area ≡ callers) × (callers_of s.0.table ≡ callers)) }
    ensures areas { IfOk result (λ s. AreAllOfArea s.0.area s.1.areas.items) }
    ensures tables { IfOk result (λ s. AreAll s.0.table s.1.tables.items) }
    ensures new { IfOk result (λ s. (n : ℕ) (p : _) → get_elem? s.1.tables.items n ≡ some p → (number : ℕ) → mine_of p number ≡ []) }
{
    let words = area_words(PAGES);
    let (region, mut part) = Region::new(alloc, (AREA_AT + words) as usize)?;
    let slices = cut_slices(alloc, &region, &mut part, 1)?;
    let chunk = part.split_chunk(&region, AREA_AT, words);
    let (area, areas) = Area::new(alloc, &region, chunk, PAGES, callers)?;
    let (table, tables) = Dshash::on_slices(alloc, &region, slices, key_words, callers)?;
    let store = Store {
        region,
        area,
        table,
        key_words,
    };
    Ok((store, Passes { areas, tables }))
}
