//! The groups of all rows so far, in maps of the participants or, where they are many, in maps of the parts of their keys.

ghost use Rattle.std.specs.Prelude.{◌≡◌, ◌<◌, ◌≤◌, ◌^◌, IfErr, IfOk, length, min};
ghost use Rattle.std.specs.Bool.{OnTrue};
ghost use Rattle.part_run.specs.Waiting.{participants};
ghost use Rattle.split_run.specs.Causes.{IsFirstOfAll, IsLow};
ghost use Rattle.split_run.specs.Hands.{most};
ghost use Rattle.split_run.specs.Pieces.{HaveColumns, rows_of};
ghost use Rattle.stream_groups.specs.Gathering.{TakesBatch, participants_of};
ghost use Rattle.stream_groups.specs.declared.gathered.Gathered.TheVariants as kept;

use par_model::BoundPlan;
use part_run::Parts;
use partial_agg::{BlockAnswer, GroupMap};
use row_windows::Window;
use split_run::add_pieces;
use std::alloc::{AllocError, Global};
use std::sync::Wait;
use std::thread::Threads;

/// Keys are parted when a participant has a group for this many bytes of a batch: 4,096 groups by the program.
const BYTES_FOR_GROUP: usize = 1024;

/// But only if the batch had fewer halves of a row than this for each new group.
const FEWEST_HALVES: u64 = 6;

/// The same for a batch that is not whole: of few rows fewer repeat a key.
const FEWEST_AT_FIRST: u64 = 3;

/// The rows that wait are grouped when they have the bytes of this many batches: 24 MiB by the program.
const MOST_BATCHES: usize = 6;

/// But only if they have this many bytes for each group that there is.
const BYTES_EACH: usize = 32;

/// The groups of all rows so far: in maps of the participants, which share the rows, or in maps of the parts of the keys.
#[derive(Drop)]
pub enum Gathered {
    Near(Vec<GroupMap>),
    Parted(Parts),
}

impl Gathered {
    /// How many groups there are at least.
    pub(crate) fn groups(&self) -> u64 {
        match self {
            Gathered::Near(maps) => most_groups(maps) as u64,
            Gathered::Parted(parts) => parts.groups(),
        }
    }

    /// Adds the rows of the pieces of a batch, and gives their number. A whole batch has about this many bytes. If a row is
    /// refused the groups are lost.
    pub(crate) fn add_pieces<R: Threads + Wait + Sync>(
        self,
        rt: &R,
        alloc: Global,
        pieces: &[Window],
        bound: &BoundPlan,
        size: usize,
    ) -> Result<(Gathered, u64), BlockAnswer>
        requires some { 0 < participants_of self }
        requires few { participants_of self < 2 ^ 32 }
        requires pieces { length pieces.now ≤ 64 }
        requires columns { HaveColumns bound.now pieces.now }
        ensures rows { IfOk result (λ r. TakesBatch bound.now pieces.now self r.0) }
        ensures many { IfOk result (λ r. participants_of r.0 ≡ participants_of self) }
        ensures count { IfOk result (λ r. r.1 ≡ min (length (rows_of pieces.now)) most) }
        ensures cause { IfErr result (IsFirstOfAll bound.now pieces.now) }
        ensures low { IfErr result IsLow }
    {
        match self {
            Gathered::Near(maps) => add_near(rt, alloc, pieces, bound, maps, size),
            Gathered::Parted(parts) => add_parted(rt, alloc, pieces, bound, parts, size),
        }
    }
}

/// Adds the rows to the maps of the participants, and parts their keys if the groups are many by then.
fn add_near<R: Threads + Wait + Sync>(
    rt: &R,
    alloc: Global,
    pieces: &[Window],
    bound: &BoundPlan,
    maps: Vec<GroupMap>,
    size: usize,
) -> Result<(Gathered, u64), BlockAnswer>
    requires some { 0 < length maps.items }
    requires few { length maps.items < 2 ^ 32 }
    requires pieces { length pieces.now ≤ 64 }
    requires columns { HaveColumns bound.now pieces.now }
    ensures rows { IfOk result (λ r. TakesBatch bound.now pieces.now (kept.Near maps) r.0) }
    ensures many { IfOk result (λ r. participants_of r.0 ≡ length maps.items) }
    ensures count { IfOk result (λ r. r.1 ≡ min (length (rows_of pieces.now)) most) }
    ensures cause { IfErr result (IsFirstOfAll bound.now pieces.now) }
    ensures low { IfErr result IsLow }
{
    let before = all_groups(&maps);
    let (maps, more) = match add_pieces(rt, alloc, pieces, bound, maps) {
        Ok(done) => done,
        Err(why) => return Err(why),
    };
    let fewest = fewest_halves(pieces, size);
    if may_part(bound, &maps) && are_many(&maps, before, more, fewest, size) {
        let Ok(parts) = Parts::begin(rt, alloc, maps) else {
            return Err(BlockAnswer::Memory);
        };
        return Ok((Gathered::Parted(parts), more));
    }
    Ok((Gathered::Near(maps), more))
}

/// Puts the rows into lists by their parts, and adds all rows that wait to the maps of the parts if they are many.
fn add_parted<R: Threads + Wait + Sync>(
    rt: &R,
    alloc: Global,
    pieces: &[Window],
    bound: &BoundPlan,
    parts: Parts,
    size: usize,
) -> Result<(Gathered, u64), BlockAnswer>
    requires some { 0 < participants parts }
    requires few { participants parts < 2 ^ 32 }
    requires pieces { length pieces.now ≤ 64 }
    requires columns { HaveColumns bound.now pieces.now }
    ensures rows { IfOk result (λ r. TakesBatch bound.now pieces.now (kept.Parted parts) r.0) }
    ensures many { IfOk result (λ r. participants_of r.0 ≡ participants parts) }
    ensures count { IfOk result (λ r. r.1 ≡ min (length (rows_of pieces.now)) most) }
    ensures cause { IfErr result (IsFirstOfAll bound.now pieces.now) }
    ensures low { IfErr result IsLow }
{
    let (mut parts, more) = match parts.add_pieces(rt, alloc, pieces, bound) {
        Ok(done) => done,
        Err(why) => return Err(why),
    };
    if !wait_long(&parts, size) {
        return Ok((Gathered::Parted(parts), more));
    }
    match parts.group(rt) {
        Ok(()) => Ok((Gathered::Parted(parts), more)),
        Err(AllocError) => Err(BlockAnswer::Memory),
    }
}

/// Whether keys of these maps can be parted, which takes columns and a participant.
pub fn may_part(bound: &BoundPlan, maps: &[GroupMap]) -> bool
    ensures columns { OnTrue result (0 < length bound.now.groups) }
    ensures some { OnTrue result (0 < length maps.now) }
{
    !maps.is_empty() && !bound.group_columns().is_empty()
}

/// Whether there are enough groups that parts pay, after a batch of this many rows: before it there were this many groups in all
/// maps. A batch that shows it has fewer than `fewest` halves of a row for each new group. A whole batch has about `size` bytes.
fn are_many(maps: &[GroupMap], before: usize, rows: u64, fewest: u64, size: usize) -> bool {
    let new = all_groups(maps).saturating_sub(before) as u64;
    most_groups(maps) >= size / BYTES_FOR_GROUP
        && rows.saturating_mul(2) < new.saturating_mul(fewest)
}

/// How many halves of a row there are to be for each new group of a batch of these pieces, so that parts do not pay.
fn fewest_halves(pieces: &[Window], size: usize) -> u64 {
    let mut bytes = 0usize;
    for piece in pieces {
        bytes = bytes.saturating_add(piece.table().len());
    }
    if bytes < size {
        FEWEST_AT_FIRST
    } else {
        FEWEST_HALVES
    }
}

/// Whether enough rows wait to be grouped now.
fn wait_long(parts: &Parts, size: usize) -> bool {
    let each = (parts.groups() as usize).saturating_mul(BYTES_EACH);
    parts.waiting() > size.saturating_mul(MOST_BATCHES).max(each)
}

/// How many groups some maps have together.
pub fn all_groups(maps: &[GroupMap]) -> usize {
    let mut count = 0usize;
    for map in maps {
        count = count.saturating_add(map.len());
    }
    count
}

/// How many groups the map has that has most of them.
fn most_groups(maps: &[GroupMap]) -> usize {
    let mut most = 0;
    for map in maps {
        most = map.len().max(most);
    }
    most
}
