//! A walk of 2,000 requests over an area of 4,096 pages. Request i asks for `1 + (37 * i) % 20000` bytes, and the
//! chunk of request i - 40 is given back after it. So 40 chunks are held at a time, objects of 33 of the classes and
//! runs of three to five pages among them.

ghost use Rattle.std.specs.Prelude.{◌≡◌, ◌+◌, ◌-◌, ◌/◌, ◌<◌, ◌≤◌, ◌^◌, All, Some};
ghost use Rattle.word_map.specs.WordMap.{at as word_at};
ghost use Rattle.dsa_area.specs.Shown.{Belongs, IsArea};

use super::area_for_one;
use dsa_area::{Area, AreaPass};
use region_words::{Chunk, Region};
use std::alloc::AllocError;
use std::collections::VecDeque;
use std::sync::Wait;
use std::test::Fail;

/// Stores a number in the first and in the last word of a chunk.
#[tactic(auto, using(word_map::proofs::Maps::answers, std::proofs::lemmas::Bool::Decides::nat_tests))]
fn write_number(r: &Region, chunk: &mut Chunk, number: u64)
    requires here { chunk.old.part.region ≡ r.now }
    requires some { 8 ≤ chunk.old.bytes }
    ensures here { chunk.new.part.region ≡ r.now }
    ensures size { chunk.new.bytes ≡ chunk.old.bytes }
    ensures first { word_at chunk.new.part.words chunk.old.at ≡ Some number }
    ensures last { word_at chunk.new.part.words (chunk.old.at + (chunk.old.bytes / 8 - 1)) ≡ Some number }
{
    let last = chunk.bytes / 8 - 1;
    chunk.store(r, 0, number);
    chunk.store(r, last, number);
}

/// Whether a number stands in the first and in the last word of a chunk.
fn has_number(r: &Region, chunk: &mut Chunk, number: u64) -> bool
    requires here { chunk.old.part.region ≡ r.now }
    requires some { 8 ≤ chunk.old.bytes }
    ensures here { chunk.new.part.region ≡ r.now }
{
    let last = chunk.bytes / 8 - 1;
    chunk.load(r, 0) == number && chunk.load(r, last) == number
}

/// Gives the chunk back that is held for the longest time. Says whether it has its number, and was taken back.
fn give_back<R: Wait>(
    rt: &R,
    area: &Area,
    r: &Region,
    pass: &mut AreaPass,
    held: &mut VecDeque<Chunk>,
    number: u64,
) -> bool
    requires area { IsArea r.now area.now }
    requires own { Belongs area.now pass.old }
    requires held { All (λ c. (c.part.region ≡ r.now) × (8 ≤ c.bytes)) held.old.items }
    ensures own { Belongs area.now pass.new }
    ensures held { All (λ c. (c.part.region ≡ r.now) × (8 ≤ c.bytes)) held.new.items }
{
    let Some(mut chunk) = held.pop_front() else {
        return false;
    };
    let same = has_number(r, &mut chunk, number);
    area.free(rt, r, pass, chunk).is_ok() && same
}

/// Request i: a chunk with the number i is held, and from request 40 on one is given back. Says whether all that went
/// as it has to.
fn step<R: Wait>(
    rt: &R,
    area: &Area,
    r: &Region,
    pass: &mut AreaPass,
    held: &mut VecDeque<Chunk>,
    i: u64,
) -> Result<bool, AllocError>
    requires area { IsArea r.now area.now }
    requires own { Belongs area.now pass.old }
    requires held { All (λ c. (c.part.region ≡ r.now) × (8 ≤ c.bytes)) held.old.items }
    requires few { i < 2 ^ 32 }
    ensures own { Belongs area.now pass.new }
    ensures held { All (λ c. (c.part.region ≡ r.now) × (8 ≤ c.bytes)) held.new.items }
{
    let bytes = 1 + (37 * i) % 20000;
    let Ok(mut chunk) = area.alloc(rt, r, pass, bytes) else {
        return Ok(false);
    };
    write_number(r, &mut chunk, i);
    held.push_back(chunk)?;
    Ok(i < 40 || give_back(rt, area, r, pass, held, i - 40))
}

/// The requests below `requests`. Says whether all went as they have to.
fn walk<R: Wait>(
    rt: &R,
    area: &Area,
    r: &Region,
    pass: &mut AreaPass,
    held: &mut VecDeque<Chunk>,
    requests: u64,
) -> Result<bool, AllocError>
    requires area { IsArea r.now area.now }
    requires own { Belongs area.now pass.old }
    requires held { All (λ c. (c.part.region ≡ r.now) × (8 ≤ c.bytes)) held.old.items }
    requires few { requests < 2 ^ 32 }
    ensures own { Belongs area.now pass.new }
    ensures held { All (λ c. (c.part.region ≡ r.now) × (8 ≤ c.bytes)) held.new.items }
{
    for i in 0..requests {
        if !step(rt, area, r, pass, held, i)? {
            return Ok(false);
        }
    }
    Ok(true)
}

/// Gives the chunks of the requests from `from` to below `requests` back.
fn give_rest<R: Wait>(
    rt: &R,
    area: &Area,
    r: &Region,
    pass: &mut AreaPass,
    held: &mut VecDeque<Chunk>,
    from: u64,
    requests: u64,
) -> bool
    requires area { IsArea r.now area.now }
    requires own { Belongs area.now pass.old }
    requires held { All (λ c. (c.part.region ≡ r.now) × (8 ≤ c.bytes)) held.old.items }
    ensures own { Belongs area.now pass.new }
{
    for i in from..requests {
        if !give_back(rt, area, r, pass, held, i) {
            return false;
        }
    }
    true
}

#[test]
fn two_thousand_sizes(rt: HostRuntime) -> Result<(), Fail> {
    let (region, area, mut pass) = area_for_one(rt.alloc(), 4096)?;
    let mut held = VecDeque::new(rt.alloc());
    assert!(rt; walk(&rt, &area, &region, &mut pass, &mut held, 2000)?);
    assert!(rt; give_rest(&rt, &area, &region, &mut pass, &mut held, 1960, 2000));
    assert!(rt; held.is_empty());
    Ok(())
}
