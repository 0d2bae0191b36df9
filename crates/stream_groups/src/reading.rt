//! The groups of a source, batch by batch.

ghost use Rattle.std.specs.Prelude.{◌≡◌, ◌<◌, ◌≤◌, ◌+◌, ◌^◌, ◌++◌, ◌∷◌, ◌⊎◌, [], ℕ, List, Option, IfErr, IfOk, OnOk, false, length, true};
ghost use Rattle.std.specs.Io.KnownBytes.{IsAtEnd};
ghost use Rattle.csv_rows.specs.Records.{record_at};
ghost use Rattle.par_io.specs.Faults.{Rose};
ghost use Rattle.row_blocks.specs.Blocks.{Table};
ghost use Rattle.text_lines.specs.Feeds.{count_feeds};
ghost use Rattle.stream_groups.specs.Before.{ReadBefore, most_of_batch};
ghost use Rattle.stream_groups.specs.Begins.{IsLined};
ghost use Rattle.stream_groups.specs.Reading.{AreGroupsOver, HasHeader, HasPart, HasRows, IsBound, IsStream, Reaches};
ghost use Rattle.split_run.specs.Pieces.{piece_records};
ghost use Rattle.stream_groups.specs.Stops.{Tells};
ghost use Rattle.stream_groups.specs.Taken.{Takes};
ghost use Rattle.stream_groups.specs.Ways.{of_text};
ghost use Rattle.stream_groups.specs.declared.stop.Stop.TheVariants as stop;

use crate::adding::{Added, add_and_fill, add_batch};
use crate::batch::{Batch, size_after};
use crate::filling::{First, first_window, header_line, stop_of_window};
use crate::gathered::Gathered;
use crate::progress::{Progress, SoFar};
use crate::rows::bind;
use crate::stop::Stop;
use crate::taken::Taken;
use crate::useful::useful_workers;
use csv_rows::RowStore;
use par_io::Source;
use par_model::BoundPlan;
use plan_spec::{MOST_WORKERS, Plan};
use split_run::begin;
use std::alloc::Global;
use std::sync::Wait;
use std::thread::Threads;

/// The groups of all rows and their number, the line of the header, or its lines, and the plan over its columns.
#[derive(Drop)]
pub struct ReadGroups {
    pub bound: BoundPlan,
    pub header: Vec<u8>,
    pub rows: u64,
    pub gathered: Gathered,
}

/// What there is before the rows of a batch are added: that batch, whether it is the last, another for the next, the
/// header, and what was added so far.
#[derive(Drop)]
pub(crate) struct Stream {
    pub(crate) batch: Batch,
    pub(crate) is_last: bool,
    pub(crate) spare: Batch,
    pub(crate) header: RowStore,
    pub(crate) added: Added,
}

/// The most bytes of the first window, unless a record is longer: so a wrong name is answered early, even if the source is slow.
const FIRST_BYTES: usize = 4096;

/// Reads the whole source, in batches of this many bytes or more, with at most this many workers, and no more than there are
/// processors ([`useful_workers`]), and reports how far it has come. The bytes that the source gave are counted, also if
/// there are no groups. In its bytes the comma and the plan's separator are exchanged.
pub fn read_groups<R: Threads + Wait + Sync, S: Source, P: Progress>(
    rt: &R,
    alloc: Global,
    plan: &Plan,
    workers: u32,
    source: &mut S,
    size: usize,
    progress: &mut P,
    taken: &mut Taken,
) -> Result<ReadGroups, Stop>
    requires workers { workers ≤ MOST_WORKERS }
    ensures groups { IfOk result (AreGroupsOver (of_text plan.now.reading) plan.now (S.left source.old)) }
    ensures why { IfErr result (Tells (of_text plan.now.reading) plan.now (S.left source.old)) }
    ensures read_fault { IfErr result (λ why. why ≡ stop.ReadFault → Rose (S.faults source.old) (S.faults source.new)) }
    ensures read_before { IfErr result (λ why. why ≡ stop.ReadFault → ReadBefore (of_text plan.now.reading) plan.now (S.left source.old) (S.left source.new) (most_of_batch size)) }
    ensures no_write { IfErr result (λ why. (why ≡ stop.WriteFault) → ⊥) }

    // What is left of the source, and how many bytes it gave.
    ensures end { OnOk result (IsAtEnd (S.left source.new)) }
    ensures taken { Takes (S.left source.old) (S.left source.new) (S.faults source.old) (S.faults source.new) taken.old taken.new }
{
    let workers = useful_workers(rt, workers);
    let reading = plan.reading();
    let first = first_window(rt, alloc, reading, source, size.min(FIRST_BYTES), taken)?;
    let bound = bind(alloc, plan, &first.header)?;
    let mut stream = open(alloc, plan, workers, &bound, first)?;
    let mut bytes = 0u64;
    for _ in rt.forever() {
        if stream.is_last {
            return end(rt, alloc, plan, workers, bound, size, stream);
        }
        bytes = bytes.saturating_add(stream.batch.bytes());
        stream = next_window(
            rt, alloc, plan, workers, &bound, source, size, stream, taken,
        )?;
        progress.tell(so_far(bytes, &stream.added));
    }
    unreachable!()
}

/// How far the reading has come if the batches that were added have this many bytes.
fn so_far(bytes: u64, added: &Added) -> SoFar {
    SoFar {
        bytes,
        rows: added.count,
        groups: added.gathered.groups(),
    }
}

/// Makes the maps of the participants, before any row.
fn open(
    alloc: Global,
    plan: &Plan,
    workers: u32,
    bound: &BoundPlan,
    first: First,
) -> Result<Stream, Stop>
    requires header { HasHeader first.header first.window first.is_last }
    requires bound { IsBound plan.now (record_at first.header 0) bound.now }
    requires lined { IsLined plan.now.reading first.window }
    requires few { first.feeds ≤ 2 ^ 60 }
    requires workers { workers ≤ MOST_WORKERS }
    ensures stream { IfOk result (IsStream plan.now workers bound.now) }
    ensures last { IfOk result (λ s. s.is_last ≡ first.is_last) }
    ensures rows { IfOk result (λ s. (from left : Option (List ℕ)) → Reaches plan.now.reading from left (piece_records first.window) (first.feeds + count_feeds first.window.lines) first.window.rest first.is_last
        → (0 < length first.window.lines → HasPart plan.now.reading from left (record_at first.header 0 ∷ []) first.feeds (first.window ∷ []) first.window.rest) → HasRows plan.now.reading bound.now from left s []) }
    ensures why { IfErr result (λ why. why ≡ stop.Memory) }
{
    let _of = plan;
    let _bound = bound;
    let First {
        window,
        header,
        is_last,
        feeds,
    } = first;
    let maps = begin(alloc, workers + 1)?;
    Ok(Stream {
        batch: Batch::of_window(alloc, window, feeds)?,
        is_last,
        spare: Batch::new(alloc, plan.reading()),
        header,
        added: Added {
            gathered: Gathered::Near(maps),
            count: 0,
        },
    })
}

/// Adds the rows of the batch at hand, and fills the one after it.
fn next_window<R: Threads + Wait + Sync, S: Source>(
    rt: &R,
    alloc: Global,
    plan: &Plan,
    workers: u32,
    bound: &BoundPlan,
    source: &mut S,
    size: usize,
    stream: Stream,
    taken: &mut Taken,
) -> Result<Stream, Stop>
    requires workers { workers ≤ MOST_WORKERS }
    requires stream { IsStream plan.now workers bound.now stream }
    requires more { stream.is_last ≡ false }
    ensures stream { IfOk result (IsStream plan.now workers bound.now) }
    ensures rows { IfOk result (λ s. (from : Option (List ℕ)) (rows : Table) → HasRows plan.now.reading bound.now from (S.left source.old) stream rows
        → (all : Table) × HasRows plan.now.reading bound.now from (S.left source.new) s all) }
    ensures why { IfErr result (λ why. (from : Option (List ℕ)) (rows : Table) → HasRows plan.now.reading bound.now from (S.left source.old) stream rows → Tells (of_text plan.now.reading) plan.now from why) }
    ensures read_fault { IfErr result (λ why. why ≡ stop.ReadFault → Rose (S.faults source.old) (S.faults source.new)) }
    ensures read_before { IfErr result (λ why. why ≡ stop.ReadFault → (from : Option (List ℕ)) (rows : Table) → HasRows plan.now.reading bound.now from (S.left source.old) stream rows
        → ReadBefore (of_text plan.now.reading) plan.now from (S.left source.new) (most_of_batch size)) }
    ensures faults { S.faults source.old ≤ S.faults source.new }
    ensures no_write { IfErr result (λ why. (why ≡ stop.WriteFault) → ⊥) }
    ensures end { IfOk result (λ s. s.is_last ≡ true → IsAtEnd (S.left source.new)) }
    ensures taken { Takes (S.left source.old) (S.left source.new) (S.faults source.old) (S.faults source.new) taken.old taken.new }
{
    let Stream {
        batch,
        is_last: _,
        mut spare,
        header,
        mut added,
    } = stream;
    spare.follow(&batch)?;
    let next_size = size_after(&batch, size);
    let filled = add_and_fill(
        rt, alloc, plan, workers, bound, &batch, &mut added, size, &mut spare, source, next_size,
        taken,
    )?;
    let is_last = match filled {
        Ok(is_last) => is_last,
        Err(why) => {
            let text = spare.next.rest();
            return Err(stop_of_window(alloc, why, added.count + 1, spare.feeds, text));
        }
    };
    Ok(Stream {
        batch: spare,
        is_last,
        spare: batch,
        header,
        added,
    })
}

/// Adds the rows of the last batch.
fn end<R: Threads + Wait + Sync>(
    rt: &R,
    alloc: Global,
    plan: &Plan,
    workers: u32,
    bound: BoundPlan,
    size: usize,
    stream: Stream,
) -> Result<ReadGroups, Stop>
    requires stream { IsStream plan.now workers bound stream }
    requires last { stream.is_last ≡ true }
    requires workers { workers ≤ MOST_WORKERS }
    ensures groups { IfOk result (λ r. (from left : Option (List ℕ)) (rows : Table) → HasRows plan.now.reading bound from left stream rows → AreGroupsOver (of_text plan.now.reading) plan.now from r) }
    ensures why { IfErr result (λ why. (from left : Option (List ℕ)) (rows : Table) → HasRows plan.now.reading bound from left stream rows → Tells (of_text plan.now.reading) plan.now from why) }
    ensures kind { IfErr result (λ why. ((why ≡ stop.ReadFault) ⊎ (why ≡ stop.WriteFault)) → ⊥) }
{
    let Stream {
        batch,
        mut added,
        ..
    } = stream;
    add_batch(rt, alloc, plan, workers, &bound, &batch, &mut added, size)?;
    let header = header_line(alloc, plan, &batch.next)?;
    Ok(ReadGroups {
        bound,
        header,
        rows: added.count,
        gathered: added.gathered,
    })
}
