//! The rows of a batch among the participants, and the filling of the next one at the same time.

ghost use Rattle.std.specs.Prelude.{◌≡◌, ◌<◌, ◌≤◌, ◌+◌, ◌^◌, ◌⊎◌, [], All, Err, IfErr, IfOk, OnOk, length};
ghost use Rattle.split_run.specs.Pieces.{HaveColumns};
ghost use Rattle.row_windows.specs.declared.window.WindowAnswer.TheVariants as answer;
ghost use Rattle.stream_groups.specs.Before.{IsLostBatch, most_of_batch};
ghost use Rattle.stream_groups.specs.Begins.{IsLined, feeds_of};
ghost use Rattle.stream_groups.specs.Gathering.{participants_of};
ghost use Rattle.stream_groups.specs.Reading.{AddsBatch, IsFilledBatch, IsNotFilled};
ghost use Rattle.stream_groups.specs.Stops.{TellsOfRows};
ghost use Rattle.stream_groups.specs.Taken.{Takes};
ghost use Rattle.stream_groups.specs.declared.stop.Stop.TheVariants as stop;

use crate::batch::Batch;
use crate::gathered::Gathered;
use crate::rows::stop_of_block;
use crate::stop::Stop;
use crate::taken::Taken;
use par_io::Source;
use par_model::BoundPlan;
use plan_spec::{MOST_WORKERS, Plan};
use row_windows::WindowAnswer;
use std::alloc::Global;
use std::mem;
use std::sync::Wait;
use std::thread::{Threads, join_mut};

/// The most rows for which averages are exact: 2^50. A source with more of them is answered as out of memory.
const MOST_ROWS: u64 = 1_125_899_906_842_624;

/// The groups of all rows so far, and how many rows these are.
#[derive(Drop)]
pub(crate) struct Added {
    pub(crate) gathered: Gathered,
    pub(crate) count: u64,
}

/// Adds the rows of a batch and then, if none is refused, fills the one after it, in the caller's thread if there are no
/// workers. If there are it does both at the same time. The next batch is to have about `size` bytes, a whole one about `whole`.
pub(crate) fn add_and_fill<R: Threads + Wait + Sync, S: Source>(
    rt: &R,
    alloc: Global,
    plan: &Plan,
    workers: u32,
    bound: &BoundPlan,
    batch: &Batch,
    added: &mut Added,
    whole: usize,
    next: &mut Batch,
    source: &mut S,
    size: usize,
    taken: &mut Taken,
) -> Result<Result<bool, WindowAnswer>, Stop>
    requires pieces { length batch.now.pieces.items ≤ 64 }
    requires lines { All (IsLined plan.now.reading) batch.now.pieces.items }
    requires feeds { batch.now.before + feeds_of batch.now.pieces.items ≤ 2 ^ 60 }
    requires columns { HaveColumns bound.now batch.now.pieces.items }
    requires workers { workers ≤ MOST_WORKERS }
    requires many { participants_of added.old.gathered ≡ workers + 1 }
    requires few { added.old.count ≤ 2 ^ 50 }
    requires next { next.old.next.lines ≡ [] }
    requires start { next.old.feeds ≡ next.old.before }
    requires few_feeds { next.old.feeds ≤ 2 ^ 60 }
    ensures added { OnOk result (AddsBatch bound.now batch.now added.old added.new) }
    ensures filled { IfOk result (λ filled. IfOk filled (IsFilledBatch (S.left source.old) (S.left source.new) next.old.next next.old.before next.new)) }
    ensures feeds { IfOk result (λ filled. filled ≡ Err answer.LongRecord → next.new.feeds ≡ next.old.feeds) }
    ensures few_feeds { OnOk result (next.new.feeds ≤ 2 ^ 60) }
    ensures not_filled { IfOk result (λ filled. IfErr filled (IsNotFilled (S.left source.old) (S.left source.new) (S.faults source.old) (S.faults source.new) next.old.next next.new.next)) }
    ensures lost { IfOk result (λ filled. filled ≡ Err answer.ReadFault → IsLostBatch (S.left source.old) (S.left source.new) next.old.next.rest (most_of_batch size)) }
    ensures why { IfErr result (TellsOfRows plan.now bound.now batch.now added.old) }
    ensures kind { IfErr result (λ why. ((why ≡ stop.ReadFault) ⊎ (why ≡ stop.WriteFault)) → ⊥) }
    ensures faults { S.faults source.old ≤ S.faults source.new }
    ensures taken { Takes (S.left source.old) (S.left source.new) (S.faults source.old) (S.faults source.new) taken.old taken.new }
{
    if workers > 0 {
        return add_beside(
            rt, alloc, plan, workers, bound, batch, added, whole, next, source, size, taken,
        );
    }
    add_batch(rt, alloc, plan, workers, bound, batch, added, whole)?;
    Ok(next.fill(alloc, source, size, taken))
}

/// Fills the next batch in the caller's thread, and adds the rows of this one in another, by the participants.
fn add_beside<R: Threads + Wait + Sync, S: Source>(
    rt: &R,
    alloc: Global,
    plan: &Plan,
    workers: u32,
    bound: &BoundPlan,
    batch: &Batch,
    added: &mut Added,
    whole: usize,
    next: &mut Batch,
    source: &mut S,
    size: usize,
    taken: &mut Taken,
) -> Result<Result<bool, WindowAnswer>, Stop>
    requires pieces { length batch.now.pieces.items ≤ 64 }
    requires lines { All (IsLined plan.now.reading) batch.now.pieces.items }
    requires feeds { batch.now.before + feeds_of batch.now.pieces.items ≤ 2 ^ 60 }
    requires columns { HaveColumns bound.now batch.now.pieces.items }
    requires workers { workers ≤ MOST_WORKERS }
    requires many { participants_of added.old.gathered ≡ workers + 1 }
    requires few { added.old.count ≤ 2 ^ 50 }
    requires next { next.old.next.lines ≡ [] }
    requires start { next.old.feeds ≡ next.old.before }
    requires few_feeds { next.old.feeds ≤ 2 ^ 60 }
    ensures added { OnOk result (AddsBatch bound.now batch.now added.old added.new) }
    ensures filled { IfOk result (λ filled. IfOk filled (IsFilledBatch (S.left source.old) (S.left source.new) next.old.next next.old.before next.new)) }
    ensures feeds { IfOk result (λ filled. filled ≡ Err answer.LongRecord → next.new.feeds ≡ next.old.feeds) }
    ensures few_feeds { OnOk result (next.new.feeds ≤ 2 ^ 60) }
    ensures not_filled { IfOk result (λ filled. IfErr filled (IsNotFilled (S.left source.old) (S.left source.new) (S.faults source.old) (S.faults source.new) next.old.next next.new.next)) }
    ensures lost { IfOk result (λ filled. filled ≡ Err answer.ReadFault → IsLostBatch (S.left source.old) (S.left source.new) next.old.next.rest (most_of_batch size)) }
    ensures why { IfErr result (TellsOfRows plan.now bound.now batch.now added.old) }
    ensures kind { IfErr result (λ why. ((why ≡ stop.ReadFault) ⊎ (why ≡ stop.WriteFault)) → ⊥) }
    ensures faults { S.faults source.old ≤ S.faults source.new }
    ensures taken { Takes (S.left source.old) (S.left source.new) (S.faults source.old) (S.faults source.new) taken.old taken.new }
{
    let mut add = || -> Result<(), Stop>
        requires pieces { length batch.now.pieces.items ≤ 64 }
        requires lines { All (IsLined plan.now.reading) batch.now.pieces.items }
        requires feeds { batch.now.before + feeds_of batch.now.pieces.items ≤ 2 ^ 60 }
        requires columns { HaveColumns bound.now batch.now.pieces.items }
        requires workers { workers ≤ MOST_WORKERS }
        requires many { participants_of added.now.gathered ≡ workers + 1 }
        requires few { added.now.count ≤ 2 ^ 50 }
        ensures added { OnOk result (AddsBatch bound.entry.now batch.entry.now added.entry.now added.exit.now) }
        ensures why { IfErr result (TellsOfRows plan.entry.now bound.entry.now batch.entry.now added.entry.now) }
        ensures kind { IfErr result (λ why. ((why ≡ stop.ReadFault) ⊎ (why ≡ stop.WriteFault)) → ⊥) }
    { add_batch(rt, alloc, plan, workers, bound, batch, added, whole) };
    let mut read = || -> Result<bool, WindowAnswer>
        requires next { next.now.next.lines ≡ [] }
        requires start { next.now.feeds ≡ next.now.before }
        requires few_feeds { next.now.feeds ≤ 2 ^ 60 }
        ensures filled { IfOk result (IsFilledBatch (S.left source.entry.now) (S.left source.exit.now) next.entry.now.next next.entry.now.before next.exit.now) }
        ensures why { IfErr result (IsNotFilled (S.left source.entry.now) (S.left source.exit.now) (S.faults source.entry.now) (S.faults source.exit.now) next.entry.now.next next.exit.now.next) }
        ensures lost { result ≡ Err answer.ReadFault → IsLostBatch (S.left source.entry.now) (S.left source.exit.now) next.entry.now.next.rest (most_of_batch size) }
        ensures feeds { result ≡ Err answer.LongRecord → next.exit.now.feeds ≡ next.entry.now.feeds }
        ensures few_feeds { next.exit.now.feeds ≤ 2 ^ 60 }
        ensures faults { S.faults source.entry.now ≤ S.faults source.exit.now }
        ensures taken { Takes (S.left source.entry.now) (S.left source.exit.now) (S.faults source.entry.now) (S.faults source.exit.now) taken.entry.now taken.exit.now }
    { next.fill(alloc, source, size, taken) };
    let (adding, filling) = join_mut(rt, &mut add, &mut read);
    adding?;
    Ok(filling)
}

/// Adds the rows of a batch. A whole one has about this many bytes.
pub(crate) fn add_batch<R: Threads + Wait + Sync>(
    rt: &R,
    alloc: Global,
    plan: &Plan,
    workers: u32,
    bound: &BoundPlan,
    batch: &Batch,
    added: &mut Added,
    whole: usize,
) -> Result<(), Stop>
    requires pieces { length batch.now.pieces.items ≤ 64 }
    requires lines { All (IsLined plan.now.reading) batch.now.pieces.items }
    requires feeds { batch.now.before + feeds_of batch.now.pieces.items ≤ 2 ^ 60 }
    requires columns { HaveColumns bound.now batch.now.pieces.items }
    requires workers { workers ≤ MOST_WORKERS }
    requires many { participants_of added.old.gathered ≡ workers + 1 }
    requires few { added.old.count ≤ 2 ^ 50 }
    ensures added { OnOk result (AddsBatch bound.now batch.now added.old added.new) }
    ensures why { IfErr result (TellsOfRows plan.now bound.now batch.now added.old) }
    ensures kind { IfErr result (λ why. ((why ≡ stop.ReadFault) ⊎ (why ≡ stop.WriteFault)) → ⊥) }
{
    let old = mem::replace(&mut added.gathered, Gathered::Near(Vec::new(alloc)));
    let pieces = batch.pieces.as_slice();
    let (new, more) = match old.add_pieces(rt, alloc, pieces, bound, whole) {
        Ok(done) => done,
        Err(why) => {
            let stop = stop_of_block(alloc, plan, bound, pieces, added.count, batch.before, why);
            return Err(stop);
        }
    };
    added.gathered = new;
    added.count = added.count.saturating_add(more);
    if added.count > MOST_ROWS {
        return Err(Stop::Memory);
    }
    Ok(())
}
