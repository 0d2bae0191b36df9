//! The sum of several files in ranges of keys, and all stretches of their covers.

ghost use Rattle.std.specs.Prelude.{◌≡◌, ◌<◌, ◌++◌, [], List, All, IfOk, MatchResult, map as map_list};
ghost use Rattle.std.specs.FinMap as finite;
ghost use Rattle.partial_agg.specs.Groups.{GroupsByKey};
ghost use Rattle.state_blocks.specs.Blocks.{Group, IsBlock, blocks_bytes};
ghost use Rattle.state_body.specs.Body.{groups_of};
ghost use Rattle.state_head.specs.declared.cover.Stretch.{Stretch};
ghost use Rattle.state_keep.specs.declared.keep.KeepFault.TheVariants as fault;
ghost use Rattle.state_order.specs.Order.{Rise};
ghost use Rattle.state_ranges.specs.Sums.{AreRangeSums};
ghost use Rattle.state_whole.specs.Adding.{IsShape, key_of, sum_with};

use crate::cuts::cuts_of;
use crate::maps::{RangeMap, keep_in_threads, ranges_between};
use state_head::Stretch;
use state_keep::KeepFault;
use state_whole::Shape;
use std::alloc::{AllocError, Global};
use std::thread::Threads;

/// The groups of the files so far, in the maps of ranges that are all keys together, and the stretches of those files.
#[derive(Drop)]
pub struct RangeSums {
    pub ranges: Vec<RangeMap>,
    pub cover: Vec<Stretch>,
}

impl RangeSums {
    /// No files. The ranges are about this many, of about the same size in the file that has these blocks.
    pub fn new(
        alloc: Global,
        blocks: &[u8],
        shape: &Shape<'_>,
        parts: usize,
    ) -> Result<RangeSums, AllocError>
        requires { IsShape shape.now }
        ensures { IfOk result (AreRangeSums shape.now.columns finite.empty []) }
    {
        let cuts = cuts_of(alloc, blocks, shape, parts)?;
        let ranges = ranges_between(alloc, shape.columns, cuts.as_slice())?;
        Ok(RangeSums {
            ranges,
            cover: Vec::new(alloc),
        })
    }

    /// With the groups and the stretches of one file more, by at most this many threads, the caller's among them. Its blocks were read
    /// before, and their keys are in order.
    pub fn with_file<R: Threads + Sync>(
        mut self,
        rt: &R,
        blocks: &[u8],
        cover: &[Stretch],
        shape: &Shape<'_>,
        threads: usize,
    ) -> Result<RangeSums, KeepFault>
        requires some { 0 < threads }
        requires shape { IsShape shape.now }
        ensures { (m : GroupsByKey) (before : List Stretch) (bs : List (List Group)) → AreRangeSums shape.now.columns m before self → All (IsBlock shape.now.columns shape.now.kinds.now) bs
            → Rise shape.now.columns (map_list key_of (groups_of bs)) → blocks.now ≡ blocks_bytes shape.now.kinds.now bs
            → MatchResult result (AreRangeSums shape.now.columns (sum_with shape.now m (groups_of bs)) (before ++ cover.now)) (λ why. why ≡ fault.Memory) }
    {
        keep_in_threads(rt, &mut self.ranges, blocks, shape, threads)?;
        match self.cover.extend_from_slice(cover) {
            Ok(()) => Ok(self),
            Err(_) => Err(KeepFault::Memory),
        }
    }
}
