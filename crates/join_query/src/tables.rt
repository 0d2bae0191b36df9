//! The two tables of an input that is cut, and the column of either.

ghost use Rattle.std.specs.Prelude.{◌≡◌, ◌≢◌, ◌<◌, ◌+◌, ◌⊎◌, ℕ, List, IfErr, IfOk, IfSome, None, length};
ghost use Rattle.csv_rows.specs.Records.{record_at, records_of};
ghost use Rattle.par_model.specs.Named.{column_of};
ghost use Rattle.par_model.specs.Outcome.{most_rows};
ghost use Rattle.join_query.specs.Outcome.{IsOfColumns, IsOfTables};
ghost use Rattle.join_query.specs.Ready.{AreColumns, AreTables, IsTable};
ghost use Rattle.join_query.specs.Stops.{Explains};
ghost use Rattle.join_query.specs.declared.cause.Cause.TheVariants as cause;
ghost use Rattle.join_query.specs.declared.stop.Stop.TheVariants as stop;

use crate::cause::Cause;
use crate::stop::Stop;
use csv_rows::{RowStore, RowsAnswer, rows_in_threads};
use plan_spec::column;
use std::alloc::Global;
use std::thread::Threads;

/// The two tables.
#[derive(Drop)]
pub(crate) struct Tables {
    pub(crate) left: RowStore,
    pub(crate) right: RowStore,
}

/// The tables of these bytes, by at most this many threads.
pub(crate) fn read_tables<R: Threads + Sync>(
    rt: &R,
    alloc: Global,
    left: &[u8],
    right: &[u8],
    threads: usize,
) -> Result<Tables, Stop>
    ensures tables { IfOk result (λ t. AreTables left.now right.now t) }
    ensures why { IfErr result (λ why. (name : List ℕ) → Explains (IsOfTables (records_of left.now) (records_of right.now) name) why) }
    ensures no_fault { IfErr result (λ why. (why ≢ stop.ReadFault) × (why ≢ stop.WriteFault)) }
{
    let left = read_table(rt, alloc, left, threads, false)?;
    let right = read_table(rt, alloc, right, threads, true)?;
    match (left, right) {
        (Some(left), Some(right)) => Ok(Tables { left, right }),
        _ => Err(Stop::Because(Cause::TooManyRows)),
    }
}

/// The records of one of them; none if there are too many rows.
fn read_table<R: Threads + Sync>(
    rt: &R,
    alloc: Global,
    bytes: &[u8],
    threads: usize,
    right: bool,
) -> Result<Option<RowStore>, Stop>
    ensures records { IfOk result (λ table. IfSome table (λ rows. (rows ≡ records_of bytes.now) × IsTable rows)) }
    ensures many { IfOk result (λ table. table ≡ None → most_rows + 1 < length (records_of bytes.now)) }
    ensures why { IfErr result (λ why. ((why ≡ stop.Because (cause.NoHeader right)) × (length (records_of bytes.now) ≡ 0)) ⊎ (why ≡ stop.Memory)) }
{
    match rows_in_threads(rt, alloc, bytes, threads) {
        Ok(rows) => Ok(Some(rows)),
        Err(RowsAnswer::NoHeader) => Err(Stop::Because(Cause::NoHeader { right })),
        Err(RowsAnswer::TooManyRows) => Ok(None),
        Err(RowsAnswer::Memory) => Err(Stop::Memory),
    }
}

/// The column of a name in the left header and in the right one.
pub(crate) fn columns(tables: &Tables, name: &str) -> Result<(u32, u32), Stop>
    requires left { 0 < length tables.now.left }
    requires right { 0 < length tables.now.right }
    ensures columns { IfOk result (λ columns. AreColumns tables.now.left tables.now.right name.now columns.0 columns.1) }
    ensures why { IfErr result (λ why. Explains (IsOfColumns tables.now.left tables.now.right name.now (column_of (record_at tables.now.left 0) name.now) (column_of (record_at tables.now.right 0) name.now)) why) }
    ensures no_fault { IfErr result (λ why. (why ≢ stop.ReadFault) × (why ≢ stop.WriteFault)) }
{
    let Some(left) = column(&tables.left, name) else {
        return Err(Stop::Because(Cause::NoColumn { right: false }));
    };
    let Some(right) = column(&tables.right, name) else {
        return Err(Stop::Because(Cause::NoColumn { right: true }));
    };
    Ok((left, right))
}
