//! One query of `parstream` whose table is shown in another order, up to a number of rows, or in another form.
//!
//! The options that say so are taken off the words by `shown_words`, and the words that are left are the query. Without such an
//! option the table goes straight to the output, as `stream_table` writes it. With one it is put together in memory first, and
//! what is shown of it is a function of its text, so nothing is written before all of it is there, and a fault is the one that
//! the query has without the option. If the words say that the input has no header, its source gets one: the numbers of its
//! columns.

#![tactic(auto)]

ghost use Rattle.std.specs.Prelude.{◌≡◌, ◌≢◌, ℕ, List, IfErr, IfOk, IfSome, IsNone, take};
ghost use Rattle.std.specs.Io.KnownBytes.{Appends};
ghost use Rattle.answer_text.specs.Lines.{IsSaid};
ghost use Rattle.answer_text.specs.Words.{texts};
ghost use Rattle.par_io.specs.Faults.{Rose};
ghost use Rattle.plan_spec.specs.Query.{stream_query_of};
ghost use Rattle.shown_stream.specs.Ended.{SaysWrong};
ghost use Rattle.shown_stream.specs.Shown.{IsShownOf, how_in};
ghost use Rattle.shown_words.specs.Taking.{taken_as};
ghost use Rattle.stream_groups.specs.Before.{ReadBeforeOf};
ghost use Rattle.stream_groups.specs.Lines.{line};
ghost use Rattle.stream_groups.specs.Sources.{bare_faults, bare_left};
ghost use Rattle.stream_groups.specs.Stops.{TellsOf, stop_says};
ghost use Rattle.shown_stream.specs.declared.how.How.{How};
ghost use Rattle.stream_groups.specs.declared.stop.Stop.{Stop};

mod good;
mod how;
mod input;
mod kept;
mod text;

use crate::how::{how_of, say_memory, say_wrong};
use crate::kept::end_kept;
use crate::text::Text;
pub use good::{shown_good, skip_of};
pub use how::{ByColumn, How, refuse_options};
pub use input::shown_input;
use par_io::{Sink, Source};
use par_stream::{Progress, READ_FAULT, Separated, TABLE, WRITE_FAULT, stream_table};
pub use shown_words::{Taken, take_options};
use std::alloc::{AllocError, Global};
use std::sync::Wait;
use std::thread::Threads;
use stream_groups::read_words;

/// Answers the query of the words that are left, as `stream_table` of `par_stream` does, but shows of its table what the
/// options that were taken off ask for, and returns the exit status.
///
/// Time and memory are those of `stream_table`. With an option the text of the table is in memory besides, and what
/// `shown_rows` of `table_order` takes: for n groups n log n comparisons, 64 bytes a group, and the text that is shown.
pub fn shown_table<R: Threads + Wait + Sync, S: Source, O: Sink, E: Sink, P: Progress>(
    rt: &R,
    alloc: Global,
    taken: &Taken<'_>,
    source: &mut Separated<S>,
    out: &mut O,
    err: &mut E,
    window_bytes: usize,
    progress: &mut P,
) -> u8
    // If an option is wrong, nothing is read or written, and the line says how, or that memory ran out.
    ensures wrong { IfErr (how_in (taken_as taken.now)) (λ text. (source.new ≡ source.old) × (out.new ≡ out.old)
        × SaysWrong text result (E.taken err.old) (E.taken err.new) (E.faults err.old) (E.faults err.new)) }

    // Otherwise, on every status but that of a table, the reason, the status and the line are some that the query has without
    // the options.
    ensures why { (result ≢ TABLE) → IfOk (how_in (taken_as taken.now)) (λ _. (why : Stop) × TellsOf (stream_query_of (taken_as taken.now).rest) (bare_left S.left source.old) why × (result ≡ (stop_says why).0)
        × IsSaid (E.taken err.old) (E.taken err.new) (E.faults err.old) (E.faults err.new) (line (stop_says why).1)) }
    ensures read_fault { result ≡ READ_FAULT → Rose (bare_faults S.faults source.old) (bare_faults S.faults source.new) }
    ensures read_before { result ≡ READ_FAULT → ReadBeforeOf (stream_query_of (taken_as taken.now).rest) (bare_left S.left source.old) (bare_left S.left source.new) window_bytes }
    ensures write_fault { result ≡ WRITE_FAULT → Rose (O.faults out.old) (O.faults out.new) }
    ensures quiet { result ≡ TABLE → err.new ≡ err.old }

    // `out` receives what is shown of the table, or a prefix of it if a write failed, and on every other status nothing.
    ensures table { result ≡ TABLE → (how : How) × (how_in (taken_as taken.now) ≡ Ok how) × IfSome (bare_left S.left source.old) (λ bytes.
        (text : List ℕ) × IsShownOf how (stream_query_of (taken_as taken.now).rest) bytes text × Appends (O.taken out.old) (O.taken out.new) text) }
    ensures part { result ≡ WRITE_FAULT → (how : How) × (how_in (taken_as taken.now) ≡ Ok how) × IfSome (bare_left S.left source.old) (λ bytes.
        (text : List ℕ) × IsShownOf how (stream_query_of (taken_as taken.now).rest) bytes text × (n : ℕ) × Appends (O.taken out.old) (O.taken out.new) (take n text)) }
    ensures nothing { (result ≢ TABLE) → (result ≢ WRITE_FAULT) → out.new ≡ out.old }

    // Words that are no query are answered before anything is read.
    ensures unread { IsNone (stream_query_of (taken_as taken.now).rest) → source.new ≡ source.old }
{
    match how_of(alloc, taken) {
        Ok(Ok(how)) => show_query(
            rt,
            alloc,
            taken.rest.as_slice(),
            how,
            source,
            out,
            err,
            window_bytes,
            progress,
        ),
        Ok(Err(text)) => say_wrong(err, text.as_str()),
        Err(AllocError) => say_memory(err),
    }
}

/// Answers the query of these words, and shows its table so.
fn show_query<R: Threads + Wait + Sync, S: Source, O: Sink, E: Sink, P: Progress>(
    rt: &R,
    alloc: Global,
    words: &[String],
    how: How,
    source: &mut Separated<S>,
    out: &mut O,
    err: &mut E,
    window_bytes: usize,
    progress: &mut P,
) -> u8
    ensures why { (result ≢ TABLE) → (why : Stop) × TellsOf (stream_query_of (texts words.now)) (bare_left S.left source.old) why × (result ≡ (stop_says why).0)
        × IsSaid (E.taken err.old) (E.taken err.new) (E.faults err.old) (E.faults err.new) (line (stop_says why).1) }
    ensures read_fault { result ≡ READ_FAULT → Rose (bare_faults S.faults source.old) (bare_faults S.faults source.new) }
    ensures read_before { result ≡ READ_FAULT → ReadBeforeOf (stream_query_of (texts words.now)) (bare_left S.left source.old) (bare_left S.left source.new) window_bytes }
    ensures write_fault { result ≡ WRITE_FAULT → Rose (O.faults out.old) (O.faults out.new) }
    ensures quiet { result ≡ TABLE → err.new ≡ err.old }
    ensures table { result ≡ TABLE → IfSome (bare_left S.left source.old) (λ bytes.
        (text : List ℕ) × IsShownOf how (stream_query_of (texts words.now)) bytes text × Appends (O.taken out.old) (O.taken out.new) text) }
    ensures part { result ≡ WRITE_FAULT → IfSome (bare_left S.left source.old) (λ bytes.
        (text : List ℕ) × IsShownOf how (stream_query_of (texts words.now)) bytes text × (n : ℕ) × Appends (O.taken out.old) (O.taken out.new) (take n text)) }
    ensures nothing { (result ≢ TABLE) → (result ≢ WRITE_FAULT) → out.new ≡ out.old }
    ensures unread { IsNone (stream_query_of (texts words.now)) → source.new ≡ source.old }
{
    if how.is_plain() {
        stream_table(rt, alloc, words, source, out, err, window_bytes, progress)
    } else {
        show_kept(
            rt,
            alloc,
            words,
            how,
            source,
            out,
            err,
            window_bytes,
            progress,
        )
    }
}

/// Answers the query of these words with its table and its line in memory, and then shows the table so.
fn show_kept<R: Threads + Wait + Sync, S: Source, O: Sink, E: Sink, P: Progress>(
    rt: &R,
    alloc: Global,
    words: &[String],
    how: How,
    source: &mut Separated<S>,
    out: &mut O,
    err: &mut E,
    window_bytes: usize,
    progress: &mut P,
) -> u8
    ensures why { (result ≢ TABLE) → (why : Stop) × TellsOf (stream_query_of (texts words.now)) (bare_left S.left source.old) why × (result ≡ (stop_says why).0)
        × IsSaid (E.taken err.old) (E.taken err.new) (E.faults err.old) (E.faults err.new) (line (stop_says why).1) }
    ensures read_fault { result ≡ READ_FAULT → Rose (bare_faults S.faults source.old) (bare_faults S.faults source.new) }
    ensures read_before { result ≡ READ_FAULT → ReadBeforeOf (stream_query_of (texts words.now)) (bare_left S.left source.old) (bare_left S.left source.new) window_bytes }
    ensures write_fault { result ≡ WRITE_FAULT → Rose (O.faults out.old) (O.faults out.new) }
    ensures quiet { result ≡ TABLE → err.new ≡ err.old }
    ensures table { result ≡ TABLE → IfSome (bare_left S.left source.old) (λ bytes.
        (text : List ℕ) × IsShownOf how (stream_query_of (texts words.now)) bytes text × Appends (O.taken out.old) (O.taken out.new) text) }
    ensures part { result ≡ WRITE_FAULT → IfSome (bare_left S.left source.old) (λ bytes.
        (text : List ℕ) × IsShownOf how (stream_query_of (texts words.now)) bytes text × (n : ℕ) × Appends (O.taken out.old) (O.taken out.new) (take n text)) }
    ensures nothing { (result ≢ TABLE) → (result ≢ WRITE_FAULT) → out.new ≡ out.old }
    ensures unread { IsNone (stream_query_of (texts words.now)) → source.new ≡ source.old }
{
    // Words that are no query have no table that could not be written.
    if let Err(stop) = read_words(alloc, words) {
        return stop.end(err);
    }
    let mut table = Text::new(alloc);
    let mut said = Text::new(alloc);
    let status = stream_table(
        rt,
        alloc,
        words,
        source,
        &mut table,
        &mut said,
        window_bytes,
        progress,
    );
    end_kept(alloc, status, &table, &said, how, out, err)
}
