//! The end of a query in parts for one range of keys: the lines of these groups only, so that a table of any number of groups can be made
//! piece by piece.

ghost use Rattle.std.specs.Prelude.{◌≡◌, All, IfErr, IfOk, length};
ghost use Rattle.partial_agg.specs.Groups.{GroupsByKey};
ghost use Rattle.partial_agg.specs.Listed.{listed};
ghost use Rattle.result_text.specs.Pieces.{joined};
ghost use Rattle.result_text.specs.Printable.{IsBoundFrom, IsKeyOf};
ghost use Rattle.state_finalize.specs.Finished.{IsFinishedWithin, IsNoText, IsNotFinished};
ghost use Rattle.state_head.specs.Cover.{IsStretch};
ghost use Rattle.state_head.specs.Words.{keys_of};
ghost use Rattle.state_order.specs.Ranges.{AreWithin};
ghost use Rattle.state_range.specs.Ranges.{IsTextWithin};

use crate::finishing::{FinishFault, Finished, are_small};
use par_model::BoundPlan;
use partial_agg::GroupMap;
use plan_spec::Plan;
use state_head::KeyRange;
use state_range::text_within;
use state_total::{first_refused, whole_cover};
use state_whole::Sum;
use std::alloc::{AllocError, Global};

/// What the sum of all files comes to in the range of the groups that it keeps: their text, in one piece, or the first refused row of all.
/// The text has the header before its lines unless the range has a low end. Memory and time are those of [`text_within`].
pub fn finish_range(
    alloc: Global,
    plan: &Plan,
    bound: &BoundPlan,
    sources: u32,
    sum: Sum<'_>,
) -> Result<Finished, FinishFault>
    requires bound { IsBoundFrom plan.now.plan bound.now }
    requires keys { All (λ group. IsKeyOf (length bound.now.groups) group.key) (listed sum.map) }
    requires stretches { All (IsStretch sources) sum.cover.items }
    ensures finished { (m : GroupsByKey) → AreWithin (length bound.now.groups) (keys_of sum.entry.kept.range) m sum.entry.map
        → IfOk result (IsFinishedWithin plan.now.plan bound.now sources (keys_of sum.entry.kept.range) m sum.entry.cover.items) }

    // When each error comes.
    ensures refused { (m : GroupsByKey) → AreWithin (length bound.now.groups) (keys_of sum.entry.kept.range) m sum.entry.map → IfErr result (IsNotFinished sources m sum.entry.cover.items) }
{
    let range = sum.kept.range;
    let (map, mut stretches) = sum.into_parts();
    let cover = match whole_cover(alloc, &mut stretches, sources) {
        Ok(cover) => cover,
        Err(why) => return Err(FinishFault::Total { why }),
    };
    match first_refused(cover.as_slice()) {
        Some(row) => Ok(Finished::Refused(row)),
        None => match range_of(alloc, plan, bound, map, range) {
            Ok(text) => Ok(Finished::Table(text)),
            Err(why) => Err(why),
        },
    }
}

/// The text of the groups of a range, if their counts and sums are as at most 2^50 rows give them.
fn range_of(
    alloc: Global,
    plan: &Plan,
    bound: &BoundPlan,
    map: GroupMap,
    range: KeyRange<'_>,
) -> Result<Vec<Vec<u8>>, FinishFault>
    requires bound { IsBoundFrom plan.now.plan bound.now }
    requires keys { All (λ group. IsKeyOf (length bound.now.groups) group.key) (listed map) }
    ensures text { (m : GroupsByKey) → AreWithin (length bound.now.groups) (keys_of range.entry) m map → IfOk result (λ pieces. IsTextWithin plan.now.plan bound.now (keys_of range.entry) m (joined pieces.items)) }
    ensures refused { (m : GroupsByKey) → AreWithin (length bound.now.groups) (keys_of range.entry) m map → IfErr result (IsNoText m) }
{
    let groups = map.into_groups();
    if !are_small(&groups) {
        return Err(FinishFault::Rows);
    }
    let text = match text_within(alloc, plan, bound, &groups, range.low) {
        Ok(text) => text,
        Err(AllocError) => return Err(FinishFault::Memory),
    };
    match one_piece(alloc, text) {
        Ok(pieces) => Ok(pieces),
        Err(AllocError) => Err(FinishFault::Memory),
    }
}

/// A text as its only piece.
fn one_piece(alloc: Global, text: Vec<u8>) -> Result<Vec<Vec<u8>>, AllocError>
    ensures { IfOk result (λ pieces. joined pieces.items ≡ text.items) }
{
    let mut pieces = Vec::new(alloc);
    pieces.push(text)?;
    Ok(pieces)
}
