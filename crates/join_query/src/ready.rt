//! What a join needs before its rows are looked at: the tables of the source, and the column of either. The first cause
//! that there is no table ends it.

ghost use Rattle.std.specs.Prelude.{◌≡◌, ◌≢◌, ◌<◌, ◌≤◌, IfErr, IfOk, IfSome, Some, length};
ghost use Rattle.par_io.specs.Faults.{Rose};
ghost use Rattle.par_model.specs.Outcome.{most_bytes};
ghost use Rattle.join_pairs.specs.Join.{width_of};
ghost use Rattle.join_query.specs.Outcome.{IsOfBytes};
ghost use Rattle.join_query.specs.Ready.{IsReady};
ghost use Rattle.join_query.specs.Stops.{Explains, IsExplained};
ghost use Rattle.join_query.specs.Words.{asked_by};
ghost use Rattle.join_query.specs.declared.stop.Stop.TheVariants as stop;

use crate::cause::Cause;
use crate::cut::find_separator;
use crate::stop::Stop;
use crate::tables::{columns, read_tables};
use crate::words::JoinWords;
use csv_rows::{RowStore, read_all};
use par_io::Source;
use std::alloc::Global;
use std::thread::Threads;

/// Two tables that are ready to be joined.
#[derive(Drop)]
pub struct Ready {
    pub left: RowStore,
    pub right: RowStore,
    /// The column of the left table.
    pub left_column: u32,
    /// The column of the right table.
    pub right_column: u32,
}

/// Reads the tables of the source, by the caller's thread and as many others as there are workers, and finds the column
/// in either. Time and memory are linear in the bytes.
pub fn prepare<R: Threads + Sync, S: Source>(
    rt: &R,
    alloc: Global,
    asked: &JoinWords<'_>,
    source: &mut S,
) -> Result<Ready, Stop>
    ensures ready { IfOk result (λ ready. IfSome (S.left source.old) (λ bytes. IsReady asked.now.column.now bytes ready)) }
    ensures left_column { IfOk result (λ ready. ready.left_column < width_of ready.left) }
    ensures right_column { IfOk result (λ ready. ready.right_column < width_of ready.right) }
    ensures why { IfErr result (λ why. IsExplained (Some (asked_by asked.now)) (S.left source.old) why) }
    ensures read_fault { IfErr result (λ why. why ≡ stop.ReadFault → Rose (S.faults source.old) (S.faults source.new)) }
    ensures no_write_fault { IfErr result (λ why. why ≢ stop.WriteFault) }
{
    let bytes = read_all(alloc, source)?;
    let ready = ready_of(rt, alloc, asked, bytes.as_slice())?;
    Ok(ready)
}

/// The tables of bytes.
fn ready_of<R: Threads + Sync>(
    rt: &R,
    alloc: Global,
    asked: &JoinWords<'_>,
    bytes: &[u8],
) -> Result<Ready, Stop>
    requires { length bytes.now ≤ most_bytes }
    ensures ready { IfOk result (λ ready. IsReady asked.now.column.now bytes.now ready) }
    ensures left_column { IfOk result (λ ready. ready.left_column < width_of ready.left) }
    ensures right_column { IfOk result (λ ready. ready.right_column < width_of ready.right) }
    ensures why { IfErr result (λ why. Explains (IsOfBytes asked.now.column.now bytes.now) why) }
    ensures no_fault { IfErr result (λ why. (why ≢ stop.ReadFault) × (why ≢ stop.WriteFault)) }
{
    let Some(place) = find_separator(bytes) else {
        return Err(Stop::Because(Cause::NoSecondTable));
    };
    let threads = asked.workers as usize + 1;
    let tables = read_tables(rt, alloc, &bytes[..place], &bytes[place + 2..], threads)?;
    let (left_column, right_column) = columns(&tables, asked.column)?;
    Ok(Ready {
        left: tables.left,
        right: tables.right,
        left_column,
        right_column,
    })
}
