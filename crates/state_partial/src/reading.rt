//! The reading of a source: what all of its rows come to.

ghost use Rattle.std.specs.Prelude.{◌≡◌, ◌⊎◌, ◌≤◌, ℕ, List, Option, IfErr, IfOk, IfSome, length};
ghost use Rattle.std.specs.Io.KnownBytes.{IsAtEnd};
ghost use Rattle.par_io.specs.Faults.{Rose};
ghost use Rattle.plan_spec.specs.Query.{Query};
ghost use Rattle.state_partial.specs.Reads.{IsPartRead};
ghost use Rattle.stream_groups.specs.Reading.{AreGroupsOver};
ghost use Rattle.stream_groups.specs.Stops.{Tells};
ghost use Rattle.stream_groups.specs.Taken.{Takes};
ghost use Rattle.stream_groups.specs.Ways.{of_text};
ghost use Rattle.stream_groups.specs.declared.stop.Stop.TheVariants as stop;
ghost use Rattle.stream_groups.specs.declared.taken.Taken.TheVariants as amount;

use crate::drain::drain;
use crate::groups::gathered_groups;
use par_io::Source;
use plan_spec::{MOST_WORKERS, Plan};
use state_head::{RefusedRow, Rows};
use state_runs::AllGroups;
use std::alloc::Global;
use std::sync::Wait;
use std::thread::Threads;
use stream_groups::{Progress, ReadGroups, RefusedRow as StoppedRow, Stop, Taken, read_groups};

/// What a source comes to: the header as it is written in the input, how many rows there are or the first refused one, their groups, and how many
/// bytes it has.
#[derive(Drop)]
pub(crate) struct Part {
    pub(crate) header: Vec<u8>,
    pub(crate) rows: Rows,
    pub(crate) map: AllGroups,
    pub(crate) size: u64,
}

/// Reads a source whole, also after a refused row, with this many workers. Its text has a comma between two fields.
pub(crate) fn read_part<R: Threads + Wait + Sync, S: Source, P: Progress>(
    rt: &R,
    alloc: Global,
    plan: &Plan,
    workers: u32,
    source: &mut S,
    window_bytes: usize,
    progress: &mut P,
) -> Result<Part, Stop>
    requires workers { workers ≤ MOST_WORKERS }
    ensures read { IfOk result (IsPartRead plan.now (S.left source.old)) }
    ensures why { IfErr result (Tells (of_text plan.now.reading) plan.now (S.left source.old)) }
    ensures no_row { IfErr result (λ why. (row : StoppedRow) → why ≡ stop.Refused row → ⊥) }
    ensures read_fault { IfErr result (λ why. why ≡ stop.ReadFault → Rose (S.faults source.old) (S.faults source.new)) }
    ensures no_write { IfErr result (λ why. (why ≡ stop.WriteFault) → ⊥) }
{
    let mut taken = Taken::Bytes(0);
    let read = read_groups(
        rt,
        alloc,
        plan,
        workers,
        source,
        window_bytes,
        progress,
        &mut taken,
    );
    progress.end();
    match read {
        Ok(read) => counted_part(rt, alloc, read, taken),
        Err(Stop::Refused(row)) => match size_after(source, taken) {
            Ok(size) => Ok(refused_part(alloc, row, size)),
            Err(stop) => Err(stop),
        },
        Err(stop) => Err(stop),
    }
}

/// The part of a source of which all rows were counted.
fn counted_part<R: Threads + Sync>(
    rt: &R,
    alloc: Global,
    read: ReadGroups,
    taken: Taken,
) -> Result<Part, Stop>
    requires { (query : Query) × (from : Option (List ℕ)) × AreGroupsOver (of_text query.reading) query from read }
    ensures read { IfOk result (λ part. (query : Query) (from left : Option (List ℕ)) (before after : ℕ) → AreGroupsOver (of_text query.reading) query from read → IsAtEnd left → Takes from left before after (amount.Bytes 0) taken → IsPartRead query from part) }
    ensures why { IfErr result (λ why. why ≡ stop.Memory) }
{
    let Taken::Bytes(size) = taken else {
        return Err(Stop::Memory);
    };
    let ReadGroups {
        bound: _,
        header,
        rows,
        gathered,
    } = read;
    let map = gathered_groups(rt, alloc, gathered)?;
    Ok(Part {
        header,
        rows: Rows::Counted(rows),
        map,
        size,
    })
}

/// The part of a source of which this row is the first refused one.
fn refused_part(alloc: Global, row: StoppedRow, size: u64) -> Part
    ensures { (query : Query) (from : Option (List ℕ)) → Tells (of_text query.reading) query from (stop.Refused row) → IfSome from (λ bytes. size ≡ length bytes) → IsPartRead query from result }
{
    Part {
        header: row.header,
        rows: Rows::Refused(RefusedRow {
            row: row.row,
            cause: row.why.cause,
            item: row.why.item,
        }),
        map: AllGroups::none(alloc),
        size,
    }
}

/// How many bytes a source has that gave these, and now is read to its end.
fn size_after<S: Source>(source: &mut S, taken: Taken) -> Result<u64, Stop>
    ensures size { IfOk result (λ size. (from : Option (List ℕ)) (before : ℕ) → Takes from (S.left source.old) before (S.faults source.old) (amount.Bytes 0) taken → IfSome from (λ bytes. size ≡ length bytes)) }
    ensures why { IfErr result (λ why. (why ≡ stop.ReadFault) ⊎ (why ≡ stop.Memory)) }
    ensures read_fault { IfErr result (λ why. why ≡ stop.ReadFault → (from : Option (List ℕ)) (before : ℕ) → Takes from (S.left source.old) before (S.faults source.old) (amount.Bytes 0) taken → Rose before (S.faults source.new)) }
{
    match taken {
        Taken::Bytes(bytes) => drain(source, bytes),
        Taken::Fault => Err(Stop::ReadFault),
        Taken::Memory => Err(Stop::Memory),
    }
}
