//! A table of chunks in an area made for it: a number is kept, raised where it is, replaced and taken.

ghost use Rattle.std.specs.Prelude.{◌≤◌, ◌≡◌, IfOk};
ghost use Rattle.dsa_area.specs.Shown.{Belongs, IsArea};
ghost use Rattle.chunk_table.specs.Tables.{callers_of};
ghost use Rattle.uses_chunks.specs.Ready.{IsReady};

use crate::growing::Growing;
use crate::keeping::{keep, raise};
use chunk_table::{ChunkPass, ChunkTable};
use dsa_area::{Area, AreaPass, area_words};
use dshash_parts::cut_slices;
use region_words::{Chunk, Region};
use std::alloc::Global;
use std::sync::Wait;
use std::test::Fail;

pub(crate) type One = (
    Region,
    Area,
    ChunkTable<Growing>,
    ChunkPass<Growing>,
    AreaPass,
);

/// A table for one caller, in an area of this many pages.
#[tactic(auto, using(word_map::proofs::Maps::answers, std::proofs::lemmas::Bool::Decides::nat_tests))]
pub(crate) fn open(alloc: Global, pages: u32) -> Result<One, Fail>
    requires few { pages ≤ 4096 }
    ensures ready { IfOk result (λ o. IsReady o.0 o.1 o.2 o.3 o.4) }
    ensures callers { IfOk result (λ o. callers_of o.2 ≡ 1) }
{
    let words = area_words(pages);
    let Ok((region, mut part)) = Region::new(alloc, words as usize + 129) else {
        return Err(Fail::new("no region"));
    };
    let Ok(slices) = cut_slices(alloc, &region, &mut part, 1) else {
        return Err(Fail::new("no slices"));
    };
    let chunk = part.split_chunk(&region, 129, words);
    let Ok((area, mut apasses)) = Area::new(alloc, &region, chunk, pages, 1) else {
        return Err(Fail::new("no area"));
    };
    let Ok((table, mut passes)) = ChunkTable::on_slices(alloc, &region, slices, 0, 1, 1) else {
        return Err(Fail::new("no table"));
    };
    let (Some(apass), Some(pass)) = (apasses.pop(), passes.pop()) else {
        return Err(Fail::new("no pass"));
    };
    Ok((region, area, table, pass, apass))
}

/// The number of a chunk, which goes back to the area.
pub(crate) fn number_of<R: Wait>(
    rt: &R,
    r: &Region,
    area: &Area,
    apass: &mut AreaPass,
    chunk: Chunk,
) -> u64
    requires area { IsArea r.now area.now }
    requires own { Belongs area.now apass.old }
    requires here { chunk.part.region ≡ r.now }
    ensures own { Belongs area.now apass.new }
{
    let mut chunk = chunk;
    if chunk.bytes < 8 {
        return 0;
    }
    let number = chunk.load(r, 0);
    let _refused = area.free(rt, r, apass, chunk);
    number
}

#[test]
fn a_number_is_raised_replaced_and_taken(rt: HostRuntime) -> Result<(), Fail> {
    let (r, area, table, mut pass, mut apass) = open(rt.alloc(), 64)?;
    let first = keep(&rt, &table, &r, &area, &mut pass, &mut apass, 7, 24, 5);
    assert!(rt; matches!(first, Some(None)));
    let raised = raise(&rt, &table, &r, &mut pass, 7, 3);
    assert_eq!(rt; raised, Some(5));
    let missing = raise(&rt, &table, &r, &mut pass, 8, 3);
    assert_eq!(rt; missing, None);
    let Some(Some(before)) = keep(&rt, &table, &r, &area, &mut pass, &mut apass, 7, 8192, 100)
    else {
        return Err(Fail::new("nothing was there"));
    };
    assert_eq!(rt; number_of(&rt, &r, &area, &mut apass, before), 8);
    let Some(taken) = table.take_chunk(&rt, &r, &area, &mut pass, &mut apass, &[7]) else {
        return Err(Fail::new("nothing was there"));
    };
    assert_eq!(rt; taken.bytes, 8192);
    assert_eq!(rt; number_of(&rt, &r, &area, &mut apass, taken), 100);
    let again = table.take_chunk(&rt, &r, &area, &mut pass, &mut apass, &[7]);
    assert!(rt; again.is_none());
    Ok(())
}
