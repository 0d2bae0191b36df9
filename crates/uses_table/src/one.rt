//! A table for one caller, in an area of its own.

ghost use Rattle.std.specs.Prelude.{◌≡◌, ◌≤◌, IfOk};
ghost use Rattle.dshash_parts.specs.Tables.{seed_of};
ghost use Rattle.dshash_parts.specs.Uses.{IsAtHome};

use crate::numbers::area_for;
use dsa_area::{Area, AreaPass};
use dshash_core::CellObject;
use dshash_parts::{DsPass, Dshash};
use region_words::Region;
use std::alloc::Global;
use std::sync::Wait;
use std::test::Fail;

/// A table of keys of this many words with this seed, in an area of this many pages, and the caller's two passes.
pub(crate) fn table_for_one<O: CellObject + Send, R: Wait>(
    rt: &R,
    alloc: Global,
    pages: u32,
    seed: u64,
    key_words: u32,
) -> Result<(Region, Area, Dshash<O>, DsPass<O>, AreaPass), Fail>
where
    O::State: Send,
    O::Call: Send,
    O::Reply: Send,
    requires few { pages ≤ 65536 }
    requires keys { (1 ≤ key_words) × (key_words ≤ 64) }
    requires values { O.VALUE_WORDS ≤ 65536 }
    ensures seed { IfOk result (λ a. seed_of a.2 ≡ seed) }
    ensures home { IfOk result (λ a. IsAtHome a.0 a.1 a.2 key_words a.3 a.4) }
{
    let (region, area, mut apass) = area_for(alloc, pages)?;
    let Ok((table, mut passes)) = Dshash::with_seed(
        rt, alloc, &region, &area, &mut apass, seed, key_words, 1,
    ) else {
        return Err(Fail::new("no table"));
    };
    let Some(pass) = passes.pop() else {
        unreachable!()
    };
    Ok((region, area, table, pass, apass))
}
