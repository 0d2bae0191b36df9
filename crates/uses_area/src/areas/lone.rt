//! A lone caller's first object: by the laws of `proofs/Uses.antt` it is granted wherever the area has a superblock's
//! pages; and how those pages go back when nothing in them is live.

ghost use Rattle.std.specs.Prelude.{◌≡◌, ◌≤◌};
ghost use Rattle.dsa_area.specs.Sizes.{chunk_size};
ghost use Rattle.dsa_area.specs.Shown.{Belongs, IsArea, IsFresh, callers_of, pages_of};

use super::area_for_one;
use dsa_area::{Area, AreaPass};
use region_words::{Chunk, Region};
use size_classes::class_with;
use std::sync::Wait;
use std::test::Fail;

/// The first object of an area of 16 pages or more. It is never refused.
fn first_object<R: Wait>(rt: &R, area: &Area, r: &Region, pass: &mut AreaPass, bytes: u64) -> Chunk
    requires area { IsArea r.now area.now }
    requires own { Belongs area.now pass.old }
    requires alone { callers_of area.now ≡ 1 }
    requires fresh { IsFresh pass.old }
    requires pages { 16 ≤ pages_of area.now }
    requires some { (1 ≤ bytes) × (bytes ≤ 8192) }
    ensures own { Belongs area.now pass.new }
    ensures here { result.part.region ≡ r.now }
    ensures size { result.bytes ≡ chunk_size bytes }
{
    match area.alloc(rt, r, pass, bytes) {
        Ok(chunk) => chunk,
        Err(_lack) => unreachable!(),
    }
}

#[test]
fn the_first_object_is_granted(rt: HostRuntime) -> Result<(), Fail> {
    let (region, area, mut pass) = area_for_one(rt.alloc(), 16)?;
    let chunk = first_object(&rt, &area, &region, &mut pass, 100);
    assert_eq!(rt; chunk.bytes, 112);
    assert_eq!(rt; area.size(), 65_536);
    Ok(())
}

/// How many pages are granted, and those of the longest free run.
fn pages_used<R: Wait>(rt: &R, area: &Area, r: &Region, pass: &mut AreaPass) -> (u32, u32)
    requires area { IsArea r.now area.now }
    requires own { Belongs area.now pass.old }
    ensures own { Belongs area.now pass.new }
{
    let usage = area.usage(rt, r, pass);
    (usage.used, usage.largest)
}

/// Whether the active superblock of the class with this many bytes went back to the pages.
fn trims<R: Wait>(rt: &R, area: &Area, r: &Region, pass: &mut AreaPass, bytes: u64) -> bool
    requires area { IsArea r.now area.now }
    requires own { Belongs area.now pass.old }
    ensures own { Belongs area.now pass.new }
{
    match class_with(bytes) {
        Some(class) => area.trim(rt, r, pass, class),
        None => false,
    }
}

#[test]
fn an_idle_superblock_goes_back(rt: HostRuntime) -> Result<(), Fail> {
    let (region, area, mut pass) = area_for_one(rt.alloc(), 32)?;
    let chunk = first_object(&rt, &area, &region, &mut pass, 100);
    assert_eq!(rt; pages_used(&rt, &area, &region, &mut pass), (16, 16));
    assert!(rt; !trims(&rt, &area, &region, &mut pass, 112));
    assert!(rt; area.free(&rt, &region, &mut pass, chunk).is_ok());
    assert_eq!(rt; pages_used(&rt, &area, &region, &mut pass), (16, 16));
    assert!(rt; trims(&rt, &area, &region, &mut pass, 112));
    assert_eq!(rt; pages_used(&rt, &area, &region, &mut pass), (0, 32));
    assert!(rt; !trims(&rt, &area, &region, &mut pass, 112));
    Ok(())
}
