//! One query of `parstream` that leaves out rows that are refused, if there are not too many of them.
//!
//! The rows that the plan does not refuse are gathered by `good_groups`, and their table is written as `par_stream` writes it.
//! After the table a line says how many rows were left out, and of the first one what a refusal would say of it.

#![tactic(auto)]

ghost use Rattle.std.specs.Prelude.{◌≡◌, ◌≢◌, ℕ, List, None, Option, IfErr, IfOk, IfSome, IsNone, OnOk, take};
ghost use Rattle.std.specs.Io.KnownBytes.{Appends};
ghost use Rattle.answer_text.specs.Lines.{IsSaid};
ghost use Rattle.answer_text.specs.Words.{texts};
ghost use Rattle.par_io.specs.Faults.{Rose};
ghost use Rattle.plan_spec.specs.Query.{stream_query_of};
ghost use Rattle.stream_groups.specs.Lines.{line};
ghost use Rattle.stream_groups.specs.Sources.{bare_faults, bare_left};
ghost use Rattle.stream_groups.specs.Stops.{stop_says};
ghost use Rattle.stream_groups.specs.declared.stop.RefusedRow.{RefusedRow};
ghost use Rattle.stream_groups.specs.declared.stop.Stop.{Stop};
ghost use Rattle.stream_groups.specs.declared.stop.Stop.TheVariants as stop;
ghost use Rattle.good_groups.specs.declared.reading.LeftOut.{LeftOut};
ghost use Rattle.good_stream.specs.Good.{HasNoGoodText, IsGoodText, LeavesOut, TellsOfGood};
ghost use Rattle.good_stream.specs.Said.{left_out_text};

mod said;

use good_groups::{GoodGroups, LeftOut, read_good};
use par_io::{Sink, Source};
use par_stream::{Progress, READ_FAULT, REFUSED, Separated, Stop, TABLE, WRITE_FAULT, write_table};
use said::say_left_out;
use std::alloc::Global;
use std::sync::Wait;
use std::thread::Threads;
use stream_groups::read_words;

/// Answers the query of these words as `stream_table` of `par_stream` does, but leaves out the rows that are refused, if there
/// are at most `most` of them: the table is that of the other rows, and `err` is told how many were left out and which is the
/// first.
///
/// Time and memory are those of `stream_table`. Each line is looked at once more, by the caller's thread.
pub fn good_table<R: Threads + Wait + Sync, S: Source, O: Sink, E: Sink, P: Progress>(
    rt: &R,
    alloc: Global,
    words: &[String],
    most: u64,
    source: &mut Separated<S>,
    out: &mut O,
    err: &mut E,
    window_bytes: usize,
    progress: &mut P,
) -> u8
    // On every status but that of a table there is a reason: it is one that the query has if no row is left out, or a write of
    // the table failed. The status is the reason's, and so is the line that `err` receives, or a prefix of it if a write of it
    // failed.
    ensures why { (result ≢ TABLE) → (why : Stop) × TellsOfGood (stream_query_of (texts words.now)) (bare_left S.left source.old) why × (result ≡ (stop_says why).0)
        × IsSaid (E.taken err.old) (E.taken err.new) (E.faults err.old) (E.faults err.new) (line (stop_says why).1) }
    // A row is named only if more of them are refused than may be left out, or a record is too long.
    ensures many { result ≡ REFUSED → IfSome (bare_left S.left source.old) (HasNoGoodText most (stream_query_of (texts words.now))) }
    ensures read_fault { result ≡ READ_FAULT → Rose (bare_faults S.faults source.old) (bare_faults S.faults source.new) }
    ensures write_fault { result ≡ WRITE_FAULT → Rose (O.faults out.old) (O.faults out.new) }

    // With a table, `err` receives the line that says what was left out, or a prefix of it if a write of it failed, and nothing
    // if no row was.
    ensures told { result ≡ TABLE → (left_out : Option LeftOut) × LeavesOut most (stream_query_of (texts words.now)) (bare_left S.left source.old) left_out
        × IfSome left_out (λ rows. IsSaid (E.taken err.old) (E.taken err.new) (E.faults err.old) (E.faults err.new) (line (left_out_text rows)))
        × (left_out ≡ None → err.new ≡ err.old) }

    // `out` receives the table of the other rows, or a prefix of it if a write failed, and on every other status nothing.
    ensures table { result ≡ TABLE → IfSome (bare_left S.left source.old) (λ bytes.
        (text : List ℕ) × IsGoodText most (stream_query_of (texts words.now)) bytes text × Appends (O.taken out.old) (O.taken out.new) text) }
    ensures part { result ≡ WRITE_FAULT → IfSome (bare_left S.left source.old) (λ bytes.
        (text : List ℕ) × IsGoodText most (stream_query_of (texts words.now)) bytes text × (n : ℕ) × Appends (O.taken out.old) (O.taken out.new) (take n text)) }
    ensures nothing { (result ≢ TABLE) → (result ≢ WRITE_FAULT) → out.new ≡ out.old }

    // Words that are no query are answered before anything is read.
    ensures unread { IsNone (stream_query_of (texts words.now)) → source.new ≡ source.old }
{
    match answer_good(rt, alloc, words, most, source, out, window_bytes, progress) {
        Ok(None) => TABLE,
        Ok(Some(left_out)) => {
            say_left_out(&left_out, err);
            TABLE
        }
        Err(stop) => stop.end(err),
    }
}

/// Reads the words and the source, and writes the table of the rows that are not refused. Gives what was left out.
fn answer_good<R: Threads + Wait + Sync, S: Source, O: Sink, P: Progress>(
    rt: &R,
    alloc: Global,
    words: &[String],
    most: u64,
    source: &mut Separated<S>,
    out: &mut O,
    window_bytes: usize,
    progress: &mut P,
) -> Result<Option<LeftOut>, Stop>
    ensures left_out { IfOk result (LeavesOut most (stream_query_of (texts words.now)) (bare_left S.left source.old)) }
    ensures table { OnOk result (IfSome (bare_left S.left source.old) (λ bytes.
        (text : List ℕ) × IsGoodText most (stream_query_of (texts words.now)) bytes text × Appends (O.taken out.old) (O.taken out.new) text)) }
    ensures part { IfErr result (λ why. why ≡ stop.WriteFault → IfSome (bare_left S.left source.old) (λ bytes.
        (text : List ℕ) × IsGoodText most (stream_query_of (texts words.now)) bytes text × (n : ℕ) × Appends (O.taken out.old) (O.taken out.new) (take n text))) }
    ensures nothing { IfErr result (λ why. (why ≢ stop.WriteFault) → out.new ≡ out.old) }
    ensures why { IfErr result (TellsOfGood (stream_query_of (texts words.now)) (bare_left S.left source.old)) }
    ensures many { IfErr result (λ why. (first : RefusedRow) → why ≡ stop.Refused first → IfSome (bare_left S.left source.old) (HasNoGoodText most (stream_query_of (texts words.now)))) }
    ensures read_fault { IfErr result (λ why. why ≡ stop.ReadFault → Rose (bare_faults S.faults source.old) (bare_faults S.faults source.new)) }
    ensures write_fault { IfErr result (λ why. why ≡ stop.WriteFault → Rose (O.faults out.old) (O.faults out.new)) }
    ensures some { OnOk result (IsNone (stream_query_of (texts words.now)) → ⊥) }
    ensures unread { IsNone (stream_query_of (texts words.now)) → source.new ≡ source.old }
{
    let plan = read_words(alloc, words)?;
    let workers = plan.workers();
    let read = read_good(
        rt,
        alloc,
        &plan,
        workers,
        most,
        source,
        window_bytes,
        progress,
    );
    progress.end();
    let GoodGroups { groups, left_out } = read?;
    write_table(rt, alloc, &plan, groups, out)?;
    Ok(left_out)
}
