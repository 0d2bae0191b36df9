//! Rows in order, from the words `merge COLUMNS N` to what is written: with workers that sort their rows, besides the
//! caller's thread.
//!
//! What comes before the rows is the crate `table_query`'s. Here they are put in order, and go out one after the other:
//! only all rows, or if a write failed a prefix of them, go to `out`. Without workers they are written one by one; with
//! workers, all threads make their text.

#![tactic(auto)]

ghost use Rattle.std.specs.Prelude.{◌≡◌, ◌≢◌, ◌⊎◌, ℕ, List, Some, IfErr, IfOk, IfSome, IsNone, Err, take};
ghost use Rattle.std.specs.Io.KnownBytes.{Appends};
ghost use Rattle.par_io.specs.Faults.{Rose};
ghost use Rattle.plan_spec.specs.Merging.{merge_of};
ghost use Rattle.answer_text.specs.Words.{texts};
ghost use Rattle.table_query.specs.Answers.{outcome_over};
ghost use Rattle.table_query.specs.Stops.{IsExplained, IsFirstStop};
ghost use Rattle.table_query.specs.declared.stop.Stop.TheVariants as stop;
ghost use Rattle.order_query.specs.Ordered.{IsMergedBy, IsOrderText, merge_plan_of, merge_workers_of};

mod names;
mod rows;

pub use gather_merge::Merged;
use gather_merge::merge;
use names::stop_of_merge;
use par_io::{Sink, Source};
use rows::write_rows;
use std::alloc::Global;
use std::sync::Wait;
use std::thread::Threads;
use table_query::{InThreads, Stop, Wanted, prepare};
use worker_run::Gate;

/// Answers the query that `words`, those after the program's name, name by `merge COLUMNS N`: reads the source and
/// writes the header and the rows in the order of these columns to `out`, with N workers besides the caller's thread.
/// Each participant passes the gate before each of its blocks. `Err` says why there are none; its line is still to be
/// written.
///
/// Time is linear in the input, but for the order of the rows. Memory is the input, its records, 16 bytes a row, 82 KB
/// for each worker, and 64 KiB of bytes that wait to be written; with workers, the text of 16,384 rows for each thread
/// besides.
pub fn answer_merge<R: Threads + Wait + Sync, S: Source, O: Sink, G: Gate + Sync>(
    rt: &R,
    alloc: Global,
    words: &[String],
    source: &mut S,
    out: &mut O,
    gate: &G,
) -> Result<Merged, Stop>
    // `out` receives the header and the rows in the order that was merged, or a prefix of that if a write failed, and
    // on every other answer nothing. With them what is returned says how they were put in order.
    ensures rows { IfOk result (λ merged. IfSome (S.left source.old) (λ bytes. (text : List ℕ) × IsOrderText (merge_plan_of (texts words.now)) bytes text
        × IsMergedBy (merge_of (texts words.now)) bytes text merged × Appends (O.taken out.old) (O.taken out.new) text)) }
    ensures part { IfErr result (λ why. why ≡ stop.WriteFault → IfSome (S.left source.old) (λ bytes.
        (text : List ℕ) × IsOrderText (merge_plan_of (texts words.now)) bytes text × (n : ℕ) × Appends (O.taken out.old) (O.taken out.new) (take n text))) }
    ensures nothing { IfErr result (λ why. (why ≢ stop.WriteFault) → out.new ≡ out.old) }

    // `Err` explains the outcome. A fault is answered only if it came in this call.
    ensures why { IfErr result (λ why. IsExplained (merge_plan_of (texts words.now)) (S.left source.old) why) }
    ensures read_fault { IfErr result (λ why. why ≡ stop.ReadFault → Rose (S.faults source.old) (S.faults source.new)) }
    ensures write_fault { IfErr result (λ why. why ≡ stop.WriteFault → Rose (O.faults out.old) (O.faults out.new)) }

    // Words that are not `merge COLUMNS N` are answered before anything is read. Without workers the row that is named
    // is the first that is refused.
    ensures no_plan { IsNone (merge_plan_of (texts words.now)) → (result ≡ Err stop.Usage) ⊎ (result ≡ Err stop.Memory) }
    ensures unread { IsNone (merge_plan_of (texts words.now)) → source.new ≡ source.old }
    ensures first { merge_workers_of (texts words.now) ≡ Some 0 → IfErr result (λ why. IfSome (S.left source.old) (λ bytes.
        IsFirstStop (merge_plan_of (texts words.now)) why (outcome_over (merge_plan_of (texts words.now)) bytes))) }
{
    let ready = prepare(alloc, Wanted::Order, words, source, &InThreads { rt })?;
    let merged = match merge(
        rt,
        alloc,
        &ready.rows,
        &ready.bound,
        ready.plan.workers(),
        gate,
    ) {
        Ok(merged) => merged,
        Err(answer) => return Err(stop_of_merge(alloc, &ready.plan, answer)),
    };
    let threads = ready.plan.workers() as usize + 1;
    write_rows(rt, alloc, &ready, &merged.order, threads, out)?;
    Ok(merged)
}
