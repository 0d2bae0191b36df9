//! The answers where a request has no space, and where a chunk is none of the area's.

ghost use Rattle.std.specs.Prelude.{◌≡◌, ◌≤◌, ◌^◌};
ghost use Rattle.dsa_area.specs.Shown.{Belongs, IsArea};

use super::area_for_one;
use dsa_area::{Area, AreaPass, NoSpace, chunk_bytes};
use region_words::{Chunk, Region};
use std::sync::Wait;
use std::test::Fail;

/// Asks for this many bytes. The two numbers where they are refused.
fn refusal<R: Wait>(
    rt: &R,
    area: &Area,
    r: &Region,
    pass: &mut AreaPass,
    bytes: u64,
) -> Option<(u32, u32)>
    requires area { IsArea r.now area.now }
    requires own { Belongs area.now pass.old }
    requires some { (1 ≤ bytes) × (bytes ≤ 2 ^ 30) }
    ensures own { Belongs area.now pass.new }
{
    let NoSpace { pages, largest } = area.alloc(rt, r, pass, bytes).err()?;
    Some((pages, largest))
}

/// Gives a chunk back. Whether the area had it.
fn is_taken<R: Wait>(rt: &R, area: &Area, r: &Region, pass: &mut AreaPass, chunk: Chunk) -> bool
    requires area { IsArea r.now area.now }
    requires own { Belongs area.now pass.old }
    requires here { chunk.part.region ≡ r.now }
    ensures own { Belongs area.now pass.new }
{
    area.free(rt, r, pass, chunk).is_ok()
}

/// An area of 64 pages: four superblocks of 16 pages, or one run of all of them.
#[test]
fn the_numbers_of_a_refusal(rt: HostRuntime) -> Result<(), Fail> {
    let (region, area, mut pass) = area_for_one(rt.alloc(), 64)?;
    assert_eq!(rt;
        refusal(&rt, &area, &region, &mut pass, 65 * 4096),
        Some((65, 64))
    );
    assert_eq!(rt; refusal(&rt, &area, &region, &mut pass, 24), None);
    assert_eq!(rt;
        refusal(&rt, &area, &region, &mut pass, 64 * 4096),
        Some((64, 48))
    );
    Ok(())
}

#[test]
fn sizes_of_chunks(rt: HostRuntime) -> Result<(), Fail> {
    assert_eq!(rt;
        (chunk_bytes(1), chunk_bytes(600), chunk_bytes(8192)),
        (8, 640, 8192)
    );
    assert_eq!(rt; (chunk_bytes(8193), chunk_bytes(12_289)), (12_288, 16_384));
    Ok(())
}
