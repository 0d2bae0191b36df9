//! An area, and a thread that takes chunks of it and gives them back: each at once, or a hundred calls later.

ghost use Rattle.std.specs.Prelude.{◌≡◌, ◌<◌, ◌≤◌, All, IfOk, vec_len};
ghost use Rattle.dsa_area.specs.Shown.{AreAll, Belongs, IsArea, callers_of};

use dsa_area::{Area, AreaPass, area_words};
use region_words::{Chunk, Region};
use std::alloc::{AllocError, Global};
use std::mem;
use std::sync::Wait;

/// The pages of the area whose chunks are timed: 16 MiB.
pub const PAGES: u32 = 4096;

/// How many chunks of a thread are live at once, if it gives each back that many calls after it was taken.
const WINDOW: usize = 100;

/// A region with an area of this many pages after its first word, and a pass for each caller.
pub fn area_for(
    alloc: Global,
    pages: u32,
    callers: u32,
) -> Result<(Region, Area, Vec<AreaPass>), AllocError>
    requires few { pages ≤ 65536 }
    requires callers { 1 ≤ callers }
    ensures area { IfOk result (λ a. IsArea a.0 a.1) }
    ensures callers { IfOk result (λ a. callers_of a.1 ≡ callers) }
    ensures passes { IfOk result (λ a. AreAll a.1 a.2.items) }
{
    let words = area_words(pages);
    let (region, mut part) = Region::new(alloc, words as usize + 1)?;
    let chunk = part.split_chunk(&region, 1, words);
    let (area, passes) = Area::new(alloc, &region, chunk, pages, callers)?;
    Ok((region, area, passes))
}

/// Takes a chunk, writes its first word and gives it back. Says whether the area gave it and took it.
fn take_and_give<R: Wait>(
    rt: &R,
    area: &Area,
    r: &Region,
    pass: &mut AreaPass,
    bytes: u64,
    number: u64,
) -> bool
    requires area { IsArea r.now area.now }
    requires own { Belongs area.now pass.old }
    requires some { 8 ≤ bytes }
    requires few { bytes ≤ 1000000 }
    ensures own { Belongs area.now pass.new }
{
    let Ok(mut chunk) = area.alloc(rt, r, pass, bytes) else {
        return false;
    };
    chunk.store(r, 0, number);
    area.free(rt, r, pass, chunk).is_ok()
}

/// Takes a chunk, writes its first word and gives it back, this many times. Says how often the area gave the chunk and
/// took it.
pub fn pairs<R: Wait>(
    rt: &R,
    area: &Area,
    r: &Region,
    mut pass: AreaPass,
    bytes: u64,
    calls: u64,
) -> u64
    requires area { IsArea r.now area.now }
    requires own { Belongs area.now pass }
    requires some { 8 ≤ bytes }
    requires few { bytes ≤ 1000000 }
    ensures { result ≤ calls }
{
    let mut good = 0;
    for number in 0..calls {
        if take_and_give(rt, area, r, &mut pass, bytes, number) {
            good += 1;
        }
    }
    good
}

/// Takes the chunks that are live at once, or those that the area has room for.
fn first_chunks<R: Wait>(
    rt: &R,
    alloc: Global,
    area: &Area,
    r: &Region,
    pass: &mut AreaPass,
    bytes: u64,
) -> Result<Vec<Chunk>, AllocError>
    requires area { IsArea r.now area.now }
    requires own { Belongs area.now pass.old }
    requires some { 8 ≤ bytes }
    requires few { bytes ≤ 1000000 }
    ensures own { Belongs area.now pass.new }
    ensures here { IfOk result (λ v. All (λ c. c.part.region ≡ r.now) v.items) }
{
    let mut held = Vec::new(alloc);
    for _ in 0..WINDOW {
        let Ok(chunk) = area.alloc(rt, r, pass, bytes) else {
            return Ok(held);
        };
        held.push(chunk)?;
    }
    Ok(held)
}

/// Takes a chunk, writes its first word, and gives the one back in whose place it is held. Says whether the area gave
/// the one and took the other.
fn exchange<R: Wait>(
    rt: &R,
    area: &Area,
    r: &Region,
    pass: &mut AreaPass,
    bytes: u64,
    held: &mut Vec<Chunk>,
    at: usize,
    number: u64,
) -> bool
    requires area { IsArea r.now area.now }
    requires own { Belongs area.now pass.old }
    requires some { 8 ≤ bytes }
    requires few { bytes ≤ 1000000 }
    requires place { at < vec_len held.old }
    requires here { All (λ c. c.part.region ≡ r.now) held.old.items }
    ensures own { Belongs area.now pass.new }
    ensures len { vec_len held.new ≡ vec_len held.old }
    ensures here { All (λ c. c.part.region ≡ r.now) held.new.items }
{
    let Ok(mut chunk) = area.alloc(rt, r, pass, bytes) else {
        return false;
    };
    chunk.store(r, 0, number);
    let old = mem::replace(&mut held[at], chunk);
    area.free(rt, r, pass, old).is_ok()
}

/// Takes a chunk, writes its first word and gives back the one that was taken longest ago, this many times. Says how
/// often the area gave the one and took the other, and 0 if it has no room for the chunks that are to be live at once.
pub fn exchanges<R: Wait>(
    rt: &R,
    alloc: Global,
    area: &Area,
    r: &Region,
    mut pass: AreaPass,
    bytes: u64,
    calls: u64,
) -> u64
    requires area { IsArea r.now area.now }
    requires own { Belongs area.now pass }
    requires some { 8 ≤ bytes }
    requires few { bytes ≤ 1000000 }
    ensures { result ≤ calls }
{
    let Ok(mut held) = first_chunks(rt, alloc, area, r, &mut pass, bytes) else {
        return 0;
    };
    if held.len() < WINDOW {
        return 0;
    }
    let mut good = 0;
    for number in 0..calls {
        let at = (number % WINDOW as u64) as usize;
        if exchange(rt, area, r, &mut pass, bytes, &mut held, at, number) {
            good += 1;
        }
    }
    good
}
