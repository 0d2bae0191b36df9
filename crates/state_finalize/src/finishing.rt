//! The end of a query in parts: if the stretches of all files are all bytes of all sources, each once, the text of their groups.

ghost use Rattle.std.specs.Prelude.{◌≡◌, All, IfErr, IfOk, false, length, true};
ghost use Rattle.partial_agg.specs.Listed.{listed};
ghost use Rattle.result_text.specs.Pieces.{joined};
ghost use Rattle.result_text.specs.Printable.{IsBoundFrom, IsKeyOf, IsSmallSlot};
ghost use Rattle.result_text.specs.Text.{IsTextOf};
ghost use Rattle.state_finalize.specs.Finished.{HaveSmallSlots, IsFinished, IsNoText, IsNotFinished};
ghost use Rattle.state_head.specs.Cover.{IsStretch};

use par_model::{BoundPlan, SlotState};
use partial_agg::{GroupMap, Groups};
use plan_spec::Plan;
use result_text::text_in_threads;
use state_total::{FirstRefused, TotalFault, first_refused, whole_cover};
use state_whole::Sum;
use std::alloc::{AllocError, Global};
use std::thread::Threads;

/// The most rows of a table: 2^50.
const MOST_ROWS: u64 = 1 << 50;

/// What all files come to: the text of the table in pieces, one after another, or the first refused row.
#[derive(Drop)]
pub enum Finished {
    Table(Vec<Vec<u8>>),
    Refused(FirstRefused),
}

/// Why files come to nothing: memory ran out; their stretches are not all bytes, each once, as `why` says; a group has a count or a sum
/// that no 2^50 rows give.
#[derive(Clone, Copy, Debug, PartialEq, Eq)]
pub enum FinishFault {
    Memory,
    Total { why: TotalFault },
    Rows,
}

/// What the sum of all files comes to, if they say this of themselves. The lines are shared out to at most this many threads, the
/// caller's among them; memory and time are those of [`text_in_threads`].
pub fn finish<R: Threads + Sync>(
    rt: &R,
    alloc: Global,
    plan: &Plan,
    bound: &BoundPlan,
    sources: u32,
    sum: Sum<'_>,
    threads: usize,
) -> Result<Finished, FinishFault>
    requires bound { IsBoundFrom plan.now.plan bound.now }
    requires keys { All (λ group. IsKeyOf (length bound.now.groups) group.key) (listed sum.map) }
    requires stretches { All (IsStretch sources) sum.cover.items }
    ensures finished { IfOk result (IsFinished plan.now.plan bound.now sources sum.entry.map sum.entry.cover.items) }

    // When each error comes.
    ensures refused { IfErr result (IsNotFinished sources sum.entry.map sum.entry.cover.items) }
{
    let (map, mut stretches) = sum.into_parts();
    let cover = match whole_cover(alloc, &mut stretches, sources) {
        Ok(cover) => cover,
        Err(why) => return Err(FinishFault::Total { why }),
    };
    match first_refused(cover.as_slice()) {
        Some(row) => Ok(Finished::Refused(row)),
        None => match table_of(rt, alloc, plan, bound, map, threads) {
            Ok(text) => Ok(Finished::Table(text)),
            Err(why) => Err(why),
        },
    }
}

/// The text of the table of a map of groups, if counts and sums are as at most 2^50 rows give them.
fn table_of<R: Threads + Sync>(
    rt: &R,
    alloc: Global,
    plan: &Plan,
    bound: &BoundPlan,
    map: GroupMap,
    threads: usize,
) -> Result<Vec<Vec<u8>>, FinishFault>
    requires bound { IsBoundFrom plan.now.plan bound.now }
    requires keys { All (λ group. IsKeyOf (length bound.now.groups) group.key) (listed map) }
    ensures text { IfOk result (λ pieces. IsTextOf plan.now.plan bound.now (listed map) (joined pieces.items)) }
    ensures refused { IfErr result (IsNoText map) }
{
    let groups = map.into_groups();
    if !are_small(&groups) {
        return Err(FinishFault::Rows);
    }
    match text_in_threads(rt, alloc, plan, bound, &groups, threads) {
        Ok(text) => Ok(text),
        Err(AllocError) => Err(FinishFault::Memory),
    }
}

/// Whether the slots of all groups are as at most 2^50 rows give them.
pub(crate) fn are_small(groups: &Groups) -> bool
    ensures small { result ≡ true → HaveSmallSlots groups.now }
    ensures not_small { result ≡ false → HaveSmallSlots groups.now → ⊥ }
{
    for at in 0..groups.len() {
        let state = groups.state(at);
        if !are_small_slots(&state.slots) {
            return false;
        }
    }
    true
}

/// Whether some slots are as at most 2^50 rows give them.
fn are_small_slots(slots: &[SlotState]) -> bool
    ensures small { result ≡ true → All IsSmallSlot slots.now }
    ensures not_small { result ≡ false → All IsSmallSlot slots.now → ⊥ }
{
    for at in 0..slots.len() {
        if !is_small(&slots[at]) {
            return false;
        }
    }
    true
}

/// Whether a slot is as at most 2^50 rows give it.
fn is_small(slot: &SlotState) -> bool
    ensures small { result ≡ true → IsSmallSlot slot.now }
    ensures not_small { result ≡ false → IsSmallSlot slot.now → ⊥ }
{
    if slot.count > MOST_ROWS {
        return false;
    }
    if slot.sum.unsigned_abs() > u128::from(slot.count) * (1 << 63) {
        return false;
    }
    true
}
