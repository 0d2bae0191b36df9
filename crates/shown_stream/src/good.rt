//! A query that leaves out rows that are refused, and of whose table it is shown what the options ask for.

ghost use Rattle.std.specs.Prelude.{◌≡◌, ◌≢◌, [], ℕ, List, None, Ok, Option, IfErr, IfOk, IfSome, IsNone, take};
ghost use Rattle.std.specs.Io.KnownBytes.{Appends};
ghost use Rattle.answer_text.specs.Lines.{IsSaid};
ghost use Rattle.answer_text.specs.Words.{texts};
ghost use Rattle.good_groups.specs.declared.reading.LeftOut.{LeftOut};
ghost use Rattle.good_stream.specs.Good.{HasNoGoodText, LeavesOut, TellsOfGood};
ghost use Rattle.par_io.specs.Faults.{Rose};
ghost use Rattle.plan_spec.specs.Query.{stream_query_of};
ghost use Rattle.shown_stream.specs.Ended.{EndsFor, PutsPart, PutsShown, SaysWrong};
ghost use Rattle.shown_stream.specs.Good.{IsGoodShownOf, SaysLeftOut, skip_in};
ghost use Rattle.shown_stream.specs.Shown.{how_in};
ghost use Rattle.shown_words.specs.Taking.{taken_as};
ghost use Rattle.stream_groups.specs.Lines.{line};
ghost use Rattle.stream_groups.specs.Sources.{bare_faults, bare_left};
ghost use Rattle.stream_groups.specs.Stops.{stop_says};
ghost use Rattle.stream_groups.specs.declared.stop.Stop.{Stop};

use crate::how::{How, how_of, say_memory, say_wrong};
use crate::kept::{end_kept, say_bytes};
use crate::text::Text;
use good_stream::good_table;
use par_io::{Sink, Source};
use par_stream::{Progress, READ_FAULT, REFUSED, Separated, TABLE, WRITE_FAULT};
use shown_words::{Taken, asked_of};
use std::alloc::{AllocError, Global};
use std::sync::Wait;
use std::thread::Threads;
use stream_groups::{Stop, read_words};

/// How many refused rows the options allow to be left out.
pub fn skip_of(taken: &Taken<'_>) -> u64
    ensures { result ≡ skip_in (taken_as taken.now) }
{
    match asked_of(taken) {
        Ok(asked) => asked.skip,
        Err(_) => 0,
    }
}

/// Answers the query of the words that are left, as [`shown_table`](crate::shown_table) does, but leaves out the rows that are
/// refused, if there are at most as many of them as the options allow; after the table a line says how many were left out, and
/// which is the first.
///
/// Time and memory are those of `shown_table`. Each line of the input is looked at once more, by the caller's thread.
pub fn shown_good<R: Threads + Wait + Sync, S: Source, O: Sink, E: Sink, P: Progress>(
    rt: &R,
    alloc: Global,
    taken: &Taken<'_>,
    source: &mut Separated<S>,
    out: &mut O,
    err: &mut E,
    window_bytes: usize,
    progress: &mut P,
) -> u8
    // If an option is wrong, nothing is read or written, and the line says how, or that memory ran out.
    ensures wrong { IfErr (how_in (taken_as taken.now)) (λ text. (source.new ≡ source.old) × (out.new ≡ out.old)
        × SaysWrong text result (E.taken err.old) (E.taken err.new) (E.faults err.old) (E.faults err.new)) }

    // Otherwise, on every status but that of a table, the reason, the status and the line are some that the query has if no row
    // is left out, or a write of the table failed.
    ensures why { (result ≢ TABLE) → IfOk (how_in (taken_as taken.now)) (λ _. (why : Stop) × TellsOfGood (stream_query_of (taken_as taken.now).rest) (bare_left S.left source.old) why × (result ≡ (stop_says why).0)
        × IsSaid (E.taken err.old) (E.taken err.new) (E.faults err.old) (E.faults err.new) (line (stop_says why).1)) }

    // A row is named only if more of them are refused than may be left out, or a record is too long.
    ensures many { result ≡ REFUSED → IfSome (bare_left S.left source.old) (HasNoGoodText (skip_in (taken_as taken.now)) (stream_query_of (taken_as taken.now).rest)) }
    ensures read_fault { result ≡ READ_FAULT → Rose (bare_faults S.faults source.old) (bare_faults S.faults source.new) }
    ensures write_fault { result ≡ WRITE_FAULT → Rose (O.faults out.old) (O.faults out.new) }

    // With a table, `err` receives the line that says what was left out, or a prefix of it if a write of it failed, and nothing
    // if no row was.
    ensures told { result ≡ TABLE → (left_out : Option LeftOut) × LeavesOut (skip_in (taken_as taken.now)) (stream_query_of (taken_as taken.now).rest) (bare_left S.left source.old) left_out
        × SaysLeftOut left_out (E.taken err.old) (E.taken err.new) (E.faults err.old) (E.faults err.new) × (left_out ≡ None → err.new ≡ err.old) }

    // `out` receives what is shown of the table of the other rows, or a prefix of it if a write failed, and on every other
    // status nothing.
    ensures table { result ≡ TABLE → (how : How) × (how_in (taken_as taken.now) ≡ Ok how) × IfSome (bare_left S.left source.old) (λ bytes.
        (text : List ℕ) × IsGoodShownOf (skip_in (taken_as taken.now)) how (stream_query_of (taken_as taken.now).rest) bytes text × Appends (O.taken out.old) (O.taken out.new) text) }
    ensures part { result ≡ WRITE_FAULT → (how : How) × (how_in (taken_as taken.now) ≡ Ok how) × IfSome (bare_left S.left source.old) (λ bytes.
        (text : List ℕ) × IsGoodShownOf (skip_in (taken_as taken.now)) how (stream_query_of (taken_as taken.now).rest) bytes text × (n : ℕ) × Appends (O.taken out.old) (O.taken out.new) (take n text)) }
    ensures nothing { (result ≢ TABLE) → (result ≢ WRITE_FAULT) → out.new ≡ out.old }

    // Words that are no query are answered before anything is read.
    ensures unread { IsNone (stream_query_of (taken_as taken.now).rest) → source.new ≡ source.old }
{
    match how_of(alloc, taken) {
        Ok(Ok(how)) => show_good(
            rt,
            alloc,
            taken.rest.as_slice(),
            skip_of(taken),
            how,
            source,
            out,
            err,
            window_bytes,
            progress,
        ),
        Ok(Err(text)) => say_wrong(err, text.as_str()),
        Err(AllocError) => say_memory(err),
    }
}

/// Answers the query of these words with its table and its line in memory, leaves out this many refused rows at most, and then
/// shows the table so.
fn show_good<R: Threads + Wait + Sync, S: Source, O: Sink, E: Sink, P: Progress>(
    rt: &R,
    alloc: Global,
    words: &[String],
    most: u64,
    how: How,
    source: &mut Separated<S>,
    out: &mut O,
    err: &mut E,
    window_bytes: usize,
    progress: &mut P,
) -> u8
    ensures why { (result ≢ TABLE) → (why : Stop) × TellsOfGood (stream_query_of (texts words.now)) (bare_left S.left source.old) why × (result ≡ (stop_says why).0)
        × IsSaid (E.taken err.old) (E.taken err.new) (E.faults err.old) (E.faults err.new) (line (stop_says why).1) }
    ensures many { result ≡ REFUSED → IfSome (bare_left S.left source.old) (HasNoGoodText most (stream_query_of (texts words.now))) }
    ensures read_fault { result ≡ READ_FAULT → Rose (bare_faults S.faults source.old) (bare_faults S.faults source.new) }
    ensures write_fault { result ≡ WRITE_FAULT → Rose (O.faults out.old) (O.faults out.new) }
    ensures told { result ≡ TABLE → (left_out : Option LeftOut) × LeavesOut most (stream_query_of (texts words.now)) (bare_left S.left source.old) left_out
        × SaysLeftOut left_out (E.taken err.old) (E.taken err.new) (E.faults err.old) (E.faults err.new) × (left_out ≡ None → err.new ≡ err.old) }
    ensures table { result ≡ TABLE → IfSome (bare_left S.left source.old) (λ bytes.
        (text : List ℕ) × IsGoodShownOf most how (stream_query_of (texts words.now)) bytes text × Appends (O.taken out.old) (O.taken out.new) text) }
    ensures part { result ≡ WRITE_FAULT → IfSome (bare_left S.left source.old) (λ bytes.
        (text : List ℕ) × IsGoodShownOf most how (stream_query_of (texts words.now)) bytes text × (n : ℕ) × Appends (O.taken out.old) (O.taken out.new) (take n text)) }
    ensures nothing { (result ≢ TABLE) → (result ≢ WRITE_FAULT) → out.new ≡ out.old }
    ensures unread { IsNone (stream_query_of (texts words.now)) → source.new ≡ source.old }
{
    // Words that are no query have no table that could not be written.
    if let Err(stop) = read_words(alloc, words) {
        return stop.end(err);
    }
    let mut table = Text::new(alloc);
    let mut said = Text::new(alloc);
    let status = good_table(
        rt,
        alloc,
        words,
        most,
        source,
        &mut table,
        &mut said,
        window_bytes,
        progress,
    );
    end_good(alloc, status, &table, &said, how, out, err)
}

/// Ends a query whose table and whose line were kept in memory: writes what is shown of the table, and then the line, or only
/// the line.
fn end_good<O: Sink, E: Sink>(
    alloc: Global,
    status: u8,
    table: &Text,
    said: &Text,
    how: How,
    out: &mut O,
    err: &mut E,
) -> u8
    ensures table { result ≡ TABLE → (status ≡ TABLE) × PutsShown how table.now.bytes.items (O.taken out.old) (O.taken out.new) }
    ensures part { result ≡ WRITE_FAULT → (status ≡ TABLE) × PutsPart how table.now.bytes.items (O.taken out.old) (O.taken out.new) }
    ensures nothing { (result ≢ TABLE) → (result ≢ WRITE_FAULT) → out.new ≡ out.old }
    ensures write_fault { result ≡ WRITE_FAULT → Rose (O.faults out.old) (O.faults out.new) }
    ensures whole { result ≡ TABLE → said.now.faults ≡ 0 }
    ensures told { result ≡ TABLE → IsSaid (E.taken err.old) (E.taken err.new) (E.faults err.old) (E.faults err.new) said.now.bytes.items }
    ensures quiet { result ≡ TABLE → said.now.bytes.items ≡ [] → err.new ≡ err.old }
    ensures why { (result ≢ TABLE) → EndsFor status said.now.bytes.items said.now.faults result (E.taken err.old) (E.taken err.new) (E.faults err.old) (E.faults err.new) }
{
    if said.is_short() {
        return Stop::Memory.end(err);
    }
    let ends = end_kept(alloc, status, table, said, how, out, err);
    if ends != TABLE {
        return ends;
    }
    say_some(err, said.as_slice());
    ends
}

/// Writes bytes that were said, if there are any.
fn say_some<E: Sink>(err: &mut E, said: &[u8])
    ensures said { IsSaid (E.taken err.old) (E.taken err.new) (E.faults err.old) (E.faults err.new) said.now }
    ensures quiet { said.now ≡ [] → err.new ≡ err.old }
{
    if said.is_empty() {
        return;
    }
    say_bytes(err, said);
}
