//! Maps of ranges of keys, filled from the blocks of a file side by side.
//!
//! Each thread has maps of its own, and all threads look at the same blocks, so nothing is shared but what is only read.

ghost use Rattle.std.specs.Prelude.{◌≡◌, ◌<◌, [], Err, List, All, IfErr, IfOk, MatchResult, Ok, OnOk, length, map as map_list};
ghost use Rattle.std.specs.FinMap as finite;
ghost use Rattle.partial_agg.specs.Groups.{GroupsByKey};
ghost use Rattle.state_blocks.specs.Blocks.{Group, IsBlock, blocks_bytes};
ghost use Rattle.state_body.specs.Body.{groups_of};
ghost use Rattle.state_keep.specs.declared.keep.KeepFault.TheVariants as fault;
ghost use Rattle.state_order.specs.Order.{Rise};
ghost use Rattle.state_range.specs.Ranges.{ranges_from};
ghost use Rattle.state_ranges.specs.Parts.{AreDone, AreRangesOf, HasFault, IsDone, IsFilled, bytes_of, ends_of};
ghost use Rattle.state_whole.specs.Adding.{IsShape, key_of, sum_with};

use partial_agg::GroupMap;
use state_head::KeyRange;
use state_keep::{KeepFault, keep_blocks};
use state_whole::{Kept, Shape};
use std::alloc::{AllocError, Global};
use std::thread::{Threads, for_each_mut};

/// The groups of the files so far whose keys, of this many columns, lie in one range: from its low end on and before its high end, each
/// empty if it has no such end.
#[derive(Drop)]
pub struct RangeMap {
    pub map: GroupMap,
    pub columns: u32,
    pub low: Vec<u8>,
    pub high: Vec<u8>,
    filled: Result<(), KeepFault>,
}

/// The ranges that begin at each of some keys, and one before them, without groups.
pub fn ranges_between(
    alloc: Global,
    columns: u32,
    cuts: &[Vec<u8>],
) -> Result<Vec<RangeMap>, AllocError>
    ensures ranges { IfOk result (λ ranges. map_list ends_of ranges.items ≡ ranges_from [] (map_list bytes_of cuts.now)) }
    ensures none { IfOk result (λ ranges. AreRangesOf columns finite.empty ranges.items) }
{
    let mut ranges = Vec::new(alloc);
    let mut low: &[u8] = b"";
    for at in 0..cuts.len() {
        let high = cuts[at].as_slice();
        let next = range_between(alloc, columns, low, high)?;
        ranges.push(next)?;
        low = high;
    }
    let last = range_between(alloc, columns, low, b"")?;
    ranges.push(last)?;
    Ok(ranges)
}

/// A range without groups.
fn range_between(
    alloc: Global,
    columns: u32,
    low: &[u8],
    high: &[u8],
) -> Result<RangeMap, AllocError>
    ensures columns { IfOk result (λ range. range.columns ≡ columns) }
    ensures low { IfOk result (λ range. range.low.items ≡ low.now) }
    ensures high { IfOk result (λ range. range.high.items ≡ high.now) }
    ensures none { IfOk result (λ range. range.map ≡ finite.empty) }
{
    let low = Vec::from_slice(alloc, low)?;
    let high = Vec::from_slice(alloc, high)?;
    Ok(RangeMap {
        map: GroupMap::new(alloc),
        columns,
        low,
        high,
        filled: Ok(()),
    })
}

/// Adds the groups of the blocks of a file to the maps of their ranges, by at most this many threads, the caller's among them. The blocks
/// were read before, and their keys are in order. After an error the maps are of no use.
pub fn keep_in_threads<R: Threads + Sync>(
    rt: &R,
    ranges: &mut Vec<RangeMap>,
    blocks: &[u8],
    shape: &Shape<'_>,
    threads: usize,
) -> Result<(), KeepFault>
    requires some { 0 < threads }
    requires shape { IsShape shape.now }
    ensures kept { (m : GroupsByKey) (bs : List (List Group)) → AreRangesOf shape.now.columns m ranges.old.items → All (IsBlock shape.now.columns shape.now.kinds.now) bs → Rise shape.now.columns (map_list key_of (groups_of bs))
        → blocks.now ≡ blocks_bytes shape.now.kinds.now bs → MatchResult result (λ done. AreRangesOf shape.now.columns (sum_with shape.now m (groups_of bs)) ranges.new.items) (λ why. why ≡ fault.Memory) }
    ensures same { map_list ends_of ranges.new.items ≡ map_list ends_of ranges.old.items }
{
    fill_each(rt, ranges, blocks, shape, threads);
    first_fault(ranges)
}

/// Adds the groups to the map of each range, or says there that there was no memory.
fn fill_each<R: Threads + Sync>(
    rt: &R,
    ranges: &mut Vec<RangeMap>,
    blocks: &[u8],
    shape: &Shape<'_>,
    threads: usize,
)
    requires some { 0 < threads }
    requires shape { IsShape shape.now }
    ensures { AreDone shape.now blocks.now ranges.old.items ranges.new.items }
{
    for_each_mut(
        rt,
        ranges.as_mut_slice(),
        threads,
        &|_, range| { fill(range, blocks, shape) },
    );
}

/// Adds the groups to the map of a range, or says there that there was no memory.
fn fill(range: &mut RangeMap, blocks: &[u8], shape: &Shape<'_>)
    requires { IsShape shape.now }
    ensures { IsDone shape.now blocks.now range.old range.new }
{
    let kept = Kept {
        columns: range.columns,
        range: KeyRange {
            low: range.low.as_slice(),
            high: range.high.as_slice(),
        },
    };
    range.filled = keep_blocks(&mut range.map, blocks, shape, kept);
}

/// The first fault of some ranges, if there is one.
fn first_fault(ranges: &[RangeMap]) -> Result<(), KeepFault>
    ensures all { OnOk result (All IsFilled ranges.now) }
    ensures fault { IfErr result (HasFault ranges.now) }
{
    for at in 0..ranges.len() {
        match ranges[at].filled {
            Ok(()) => {}
            Err(why) => return Err(why),
        }
    }
    Ok(())
}
