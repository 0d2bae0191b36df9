//! One query over separated bytes of any length, from the words of a command line to an exit status, with workers
//! or by the caller's thread only.
//!
//! The words name a plan; the bytes are read window by window, whole records each. The windows of a batch are shared out to
//! the participants, and if there are workers the caller's thread fills the next batch meanwhile. Each participant has a map
//! of the groups of its rows; when these are many the keys are parted, and from then on each part has one map (`part_run`).
//! After the last batch the text of all groups is made and written. So nothing is written before the last byte was read, and
//! only the groups, two batches, the rows of one window a participant, and with parts some rows that wait for theirs, are in
//! memory.
//!
//! The first fault ends it: the words, a read that failed, no header, a column that it lacks, a record that is too long, a
//! refused row, and the writing, as they come on the way through the input.

#![tactic(auto)]

ghost use Rattle.std.specs.Prelude.{◌≡◌, ◌≢◌, ℕ, List, IfErr, IfSome, IsNone, OnOk, take};
ghost use Rattle.std.specs.Io.KnownBytes.{Appends};
ghost use Rattle.par_io.specs.Faults.{Rose};
ghost use Rattle.answer_text.specs.Lines.{IsSaid};
ghost use Rattle.answer_text.specs.Words.{texts};
ghost use Rattle.par_stream.specs.Answers.{IsTableText};
ghost use Rattle.stream_groups.specs.Before.{ReadBeforeOf};
ghost use Rattle.stream_groups.specs.Lines.{line};
ghost use Rattle.stream_groups.specs.Sources.{bare_faults, bare_left};
ghost use Rattle.stream_groups.specs.Stops.{TellsOf, stop_says, usage_text};
ghost use Rattle.plan_spec.specs.Query.{stream_query_of};
ghost use Rattle.stream_groups.specs.declared.stop.Stop.{Stop};
ghost use Rattle.stream_groups.specs.declared.stop.Stop.TheVariants as stop;

mod output;

pub use answer_text::{MISUSED, NO_MEMORY, READ_FAULT, REFUSED, TABLE, WRITE_FAULT};
pub use output::write_table;
use par_io::{Sink, Source};
use std::alloc::Global;
use std::sync::Wait;
use std::thread::Threads;
pub use stream_groups::{LONG_RECORD, Progress, Separated, SoFar, Stop, Untold};
use stream_groups::{Taken, read_input, read_words};

/// The bytes that a batch of the program's windows is to have: 4 MiB.
pub const WINDOW_BYTES: usize = 4_194_304;

/// Answers the query that `words`, those after the program's name, name by options: writes its table to `out`, or a line
/// to `err` that says why there is none, and returns the exit status. The source is read in batches of `window_bytes`
/// ([`WINDOW_BYTES`] by the program), the first of 4,096 at most; one is longer if a record or the header's line is. As
/// many workers as the words ask for share the rows with the caller's thread. How far the reading has come is told batch
/// by batch to `progress` ([`Untold`] if nobody asks), and that it has ended before anything is written.
///
/// Time is linear in the input, but for the look-up of each row's group and the order of the groups. Memory is two
/// batches of windows, for each participant the records of one window, and the groups and the text: few groups are
/// in a map for each participant; many are in one map for each part of the keys, with the keys and values of rows that wait to
/// be added, as many bytes as six batches have or 32 for each group.
pub fn stream_table<R: Threads + Wait + Sync, S: Source, O: Sink, E: Sink, P: Progress>(
    rt: &R,
    alloc: Global,
    words: &[String],
    source: &mut Separated<S>,
    out: &mut O,
    err: &mut E,
    window_bytes: usize,
    progress: &mut P,
) -> u8
    // On every status but that of a table there is a reason, which tells of the outcome over all bytes; the status is the
    // reason's, and so is the line that `err` receives, or a prefix of it if a write of it failed. A fault is answered
    // only if it came in this call.
    ensures why { (result ≢ TABLE) → (why : Stop) × TellsOf (stream_query_of (texts words.now)) (bare_left S.left source.old) why × (result ≡ (stop_says why).0)
        × IsSaid (E.taken err.old) (E.taken err.new) (E.faults err.old) (E.faults err.new) (line (stop_says why).1) }
    ensures read_fault { result ≡ READ_FAULT → Rose (bare_faults S.faults source.old) (bare_faults S.faults source.new) }

    // What was read before a read failed comes to a table, but for a batch and a record at most.
    ensures read_before { result ≡ READ_FAULT → ReadBeforeOf (stream_query_of (texts words.now)) (bare_left S.left source.old) (bare_left S.left source.new) window_bytes }
    ensures write_fault { result ≡ WRITE_FAULT → Rose (O.faults out.old) (O.faults out.new) }
    ensures quiet { result ≡ TABLE → err.new ≡ err.old }

    // `out` receives the table, or a prefix of it if a write failed, and on every other status nothing.
    ensures table { result ≡ TABLE → IfSome (bare_left S.left source.old) (λ bytes.
        (text : List ℕ) × IsTableText (stream_query_of (texts words.now)) bytes text × Appends (O.taken out.old) (O.taken out.new) text) }
    ensures part { result ≡ WRITE_FAULT → IfSome (bare_left S.left source.old) (λ bytes.
        (text : List ℕ) × IsTableText (stream_query_of (texts words.now)) bytes text × (n : ℕ) × Appends (O.taken out.old) (O.taken out.new) (take n text)) }
    ensures nothing { (result ≢ TABLE) → (result ≢ WRITE_FAULT) → out.new ≡ out.old }

    // Words that are no query are answered before anything is read.
    ensures unread { IsNone (stream_query_of (texts words.now)) → source.new ≡ source.old }
{
    match answer_stream(rt, alloc, words, source, out, window_bytes, progress) {
        Ok(()) => TABLE,
        Err(stop) => stop.end(err),
    }
}

/// Answers a command line of which a word is no UTF-8, by the line that says how the program is called. It takes no memory.
pub fn say_usage<E: Sink>(err: &mut E) -> u8
    ensures status { result ≡ MISUSED }
    ensures usage { IsSaid (E.taken err.old) (E.taken err.new) (E.faults err.old) (E.faults err.new) (line usage_text) }
{
    Stop::Usage.end(err)
}

/// Reads the words and the source, and writes the table.
fn answer_stream<R: Threads + Wait + Sync, S: Source, O: Sink, P: Progress>(
    rt: &R,
    alloc: Global,
    words: &[String],
    source: &mut Separated<S>,
    out: &mut O,
    window_bytes: usize,
    progress: &mut P,
) -> Result<(), Stop>
    ensures table { OnOk result (IfSome (bare_left S.left source.old) (λ bytes.
        (text : List ℕ) × IsTableText (stream_query_of (texts words.now)) bytes text × Appends (O.taken out.old) (O.taken out.new) text)) }
    ensures part { IfErr result (λ why. why ≡ stop.WriteFault → IfSome (bare_left S.left source.old) (λ bytes.
        (text : List ℕ) × IsTableText (stream_query_of (texts words.now)) bytes text × (n : ℕ) × Appends (O.taken out.old) (O.taken out.new) (take n text))) }
    ensures nothing { IfErr result (λ why. (why ≢ stop.WriteFault) → out.new ≡ out.old) }
    ensures why { IfErr result (TellsOf (stream_query_of (texts words.now)) (bare_left S.left source.old)) }
    ensures read_fault { IfErr result (λ why. why ≡ stop.ReadFault → Rose (bare_faults S.faults source.old) (bare_faults S.faults source.new)) }
    ensures read_before { IfErr result (λ why. why ≡ stop.ReadFault → ReadBeforeOf (stream_query_of (texts words.now)) (bare_left S.left source.old) (bare_left S.left source.new) window_bytes) }
    ensures write_fault { IfErr result (λ why. why ≡ stop.WriteFault → Rose (O.faults out.old) (O.faults out.new)) }
    ensures some { OnOk result (IsNone (stream_query_of (texts words.now)) → ⊥) }
    ensures unread { IsNone (stream_query_of (texts words.now)) → source.new ≡ source.old }
{
    let plan = read_words(alloc, words)?;
    let mut taken = Taken::Bytes(0);
    let workers = plan.workers();
    let read = read_input(
        rt,
        alloc,
        &plan,
        workers,
        source,
        window_bytes,
        progress,
        &mut taken,
    );
    progress.end();
    write_table(rt, alloc, &plan, read?, out)
}
