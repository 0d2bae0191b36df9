//! The whole call: the words and the source, the join, and what is written.

ghost use Rattle.std.specs.Prelude.{◌≡◌, ◌≢◌, ◌⊎◌, ◌<◌, ◌≤◌, ℕ, List, IfErr, IfOk, IfSome, IsNone, OnOk, Contains, Some, Err, take};
ghost use Rattle.std.specs.Io.KnownBytes.{Appends};
ghost use Rattle.row_blocks.specs.Blocks.{Table};
ghost use Rattle.join_pairs.specs.Join.{width_of};
ghost use Rattle.join_query.specs.Lines.{IsLine, IsNoFault, IsStatus};
ghost use Rattle.join_query.specs.Outcome.{IsOfRows, IsOutcome, Joins};
ghost use Rattle.join_query.specs.Stops.{Explains, IsExplained};
ghost use Rattle.answer_text.specs.Words.{texts};
ghost use Rattle.join_query.specs.Words.{asked_by, join_of};
ghost use Rattle.join_query.specs.declared.stop.Stop.TheVariants as stop;
ghost use Rattle.par_io.specs.Faults.{Rose};
ghost use Rattle.par_model.specs.Table.{table_text};
ghost use Rattle.answer_text.specs.Lines.{IsSaid, line, statuses};
ghost use Rattle.join_query.specs.Answers.{status_in, stop_of_join};
ghost use Rattle.join_query.specs.Used.{IsJoinBy, IsJoinOn};

use crate::cause::Cause;
use crate::ready::{Ready, prepare};
use crate::stop::Stop;
use crate::words::{JoinWords, read_words};
use crate::writing::write_joined;
use answer_text::{MISUSED, NO_MEMORY, READ_FAULT, TABLE, WRITE_FAULT};
use hash_join::{JoinAnswer, Joined, join};
use par_io::{Sink, Source};
use std::alloc::Global;
use std::sync::Wait;
use std::thread::Threads;

/// Joins the two tables in the bytes of `source` as `words`, those after the program's name, ask for: `join COLUMN N`.
/// The tables are parted by the first line that is the one byte `%`. It writes the header and a record for each pair of
/// rows whose fields in the column are the same and not empty, in order of the left row and then the right one. `Err`
/// is the exit status, whose line was written to `err`; with `Ok` the status is [`TABLE`].
///
/// Time is linear in the input and in the pairs, but for the order of the pairs. Memory is the input, its records, 8.6
/// MB for the shared table, 24 bytes a row of the left table with the bytes of its key, and 32 bytes a pair; with
/// workers the text of 16,384 records for each thread besides.
pub fn join_tables<R: Threads + Wait + Sync, S: Source, O: Sink, E: Sink>(
    rt: &R,
    alloc: Global,
    words: &[String],
    source: &mut S,
    out: &mut O,
    err: &mut E,
) -> Result<Joined, u8>
    // There is no other status. On 1, 2, 3, 5 and 6 `out` receives nothing. A fault is answered only if it came in this
    // call. With joined records `err` receives nothing.
    ensures statuses { Contains statuses (status_in result) }
    ensures failed { IfErr result (λ status. status ≢ TABLE) }
    ensures nothing { (status_in result ≢ TABLE) → (status_in result ≢ WRITE_FAULT) → out.new ≡ out.old }
    ensures read_fault { status_in result ≡ READ_FAULT → Rose (S.faults source.old) (S.faults source.new) }
    ensures write_fault { status_in result ≡ WRITE_FAULT → Rose (O.faults out.old) (O.faults out.new) }
    ensures quiet { OnOk result (err.new ≡ err.old) }

    // A status that reports no fault is that of the outcome. Without a fault it is so, or there was no memory.
    ensures outcome { IsNoFault (status_in result) → IfSome (S.left source.old) (λ bytes. IsStatus (join_of (texts words.now)) bytes (status_in result)) }
    ensures complete { ¬ Rose (S.faults source.old) (S.faults source.new) → ¬ Rose (O.faults out.old) (O.faults out.new) → IfSome (S.left source.old) (λ bytes.
        (status_in result ≡ NO_MEMORY) ⊎ IsStatus (join_of (texts words.now)) bytes (status_in result)) }

    // `out` receives the joined records, or a prefix of them if a write failed.
    ensures records { OnOk result (IfSome (S.left source.old) (λ bytes. (records : Table) × IsOutcome (join_of (texts words.now)) bytes (Joins records)
        × Appends (O.taken out.old) (O.taken out.new) (table_text records))) }
    ensures part { status_in result ≡ WRITE_FAULT → IfSome (S.left source.old) (λ bytes. (records : Table) × IsOutcome (join_of (texts words.now)) bytes (Joins records)
        × (n : ℕ) × Appends (O.taken out.old) (O.taken out.new) (take n (table_text records))) }

    // Words that are not `join COLUMN N` are answered before anything is read.
    ensures no_words { IsNone (join_of (texts words.now)) → status_in result ≡ MISUSED }
    ensures unread { IsNone (join_of (texts words.now)) → source.new ≡ source.old }

    // `err` receives the line of the status, or a prefix of it if a write of it failed.
    ensures line { IfErr result (λ status. (said : List ℕ) × IsLine (join_of (texts words.now)) (S.left source.old) status said
        × IsSaid (E.taken err.old) (E.taken err.new) (E.faults err.old) (E.faults err.new) said) }

    // What is returned says how the pairs were made.
    ensures joined { IfOk result (λ joined. IfSome (S.left source.old) (λ bytes. IsJoinBy (join_of (texts words.now)) bytes joined)) }
{
    let Some(asked) = read_words(words) else {
        return Err(Stop::Because(Cause::Usage).end("", err));
    };
    match answer(rt, alloc, &asked, source, out) {
        Ok(joined) => Ok(joined),
        Err(stop) => Err(stop.end(asked.column, err)),
    }
}

/// Reads the source, joins its tables, and writes the records.
fn answer<R: Threads + Wait + Sync, S: Source, O: Sink>(
    rt: &R,
    alloc: Global,
    asked: &JoinWords<'_>,
    source: &mut S,
    out: &mut O,
) -> Result<Joined, Stop>
    requires { asked.now.workers ≤ 64 }
    ensures records { OnOk result (IfSome (S.left source.old) (λ bytes. (records : Table) × IsOutcome (Some (asked_by asked.now)) bytes (Joins records)
        × Appends (O.taken out.old) (O.taken out.new) (table_text records))) }
    ensures joined { IfOk result (λ joined. IfSome (S.left source.old) (λ bytes. IsJoinBy (Some (asked_by asked.now)) bytes joined)) }
    ensures part { IfErr result (λ why. why ≡ stop.WriteFault → IfSome (S.left source.old) (λ bytes. (records : Table) × IsOutcome (Some (asked_by asked.now)) bytes (Joins records)
        × (n : ℕ) × Appends (O.taken out.old) (O.taken out.new) (take n (table_text records)))) }
    ensures nothing { IfErr result (λ why. (why ≢ stop.WriteFault) → out.new ≡ out.old) }
    ensures why { IfErr result (λ why. IsExplained (Some (asked_by asked.now)) (S.left source.old) why) }
    ensures read_fault { IfErr result (λ why. why ≡ stop.ReadFault → Rose (S.faults source.old) (S.faults source.new)) }
    ensures write_fault { IfErr result (λ why. why ≡ stop.WriteFault → Rose (O.faults out.old) (O.faults out.new)) }
{
    let ready = prepare(rt, alloc, asked, source)?;
    let joined = join_ready(rt, alloc, &ready, asked.workers)?;
    let threads = asked.workers as usize + 1;
    write_joined(
        rt,
        alloc,
        &ready.left,
        &ready.right,
        &joined.pairs,
        threads,
        out,
    )?;
    Ok(joined)
}

/// Joins two tables that are ready.
fn join_ready<R: Threads + Wait + Sync>(
    rt: &R,
    alloc: Global,
    ready: &Ready,
    workers: u32,
) -> Result<Joined, Stop>
    requires left_column { ready.now.left_column < width_of ready.now.left }
    requires right_column { ready.now.right_column < width_of ready.now.right }
    requires workers { workers ≤ 64 }
    ensures joined { IfOk result (λ j. IsJoinOn ready.now.left ready.now.right ready.now.left_column ready.now.right_column workers j) }
    ensures why { IfErr result (λ why. Explains (IsOfRows ready.now.left ready.now.right ready.now.left_column ready.now.right_column) why) }
    ensures no_fault { IfErr result (λ why. (why ≢ stop.ReadFault) × (why ≢ stop.WriteFault)) }
{
    match join(
        rt,
        alloc,
        &ready.left,
        &ready.right,
        ready.left_column,
        ready.right_column,
        workers,
    ) {
        Ok(joined) => Ok(joined),
        Err(answer) => Err(stop_of(answer)),
    }
}

/// Why there is no join.
fn stop_of(answer: JoinAnswer) -> Stop
    ensures { result ≡ stop_of_join answer }
{
    match answer {
        JoinAnswer::Row { right, row, cause } => {
            Stop::Because(Cause::Refused { right, row, cause })
        }
        JoinAnswer::TooManyPairs => Stop::Because(Cause::TooManyPairs),
        JoinAnswer::Memory => Stop::Memory,
    }
}
