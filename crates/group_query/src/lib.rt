//! The table of a plan, from the words that name it to what is written: by workers besides the caller's thread, or only
//! in the caller's thread.
//!
//! What comes before the rows is the crate `table_query`'s. Here the rows come to groups, the groups to a text, and the
//! text is written when it is there as a whole, in one piece or in several: only a whole table, or if a write failed a
//! prefix of it, goes to `out`.

#![tactic(auto)]

ghost use Rattle.std.specs.Prelude.{◌≡◌, ◌≢◌, ◌⊎◌, ℕ, List, Some, IfErr, IfOk, IfSome, IsNone, OnOk, Err, take};
ghost use Rattle.std.specs.Io.KnownBytes.{Appends};
ghost use Rattle.par_io.specs.Faults.{Rose};
ghost use Rattle.plan_spec.specs.Query.{query_of};
ghost use Rattle.answer_text.specs.Words.{texts};
ghost use Rattle.table_query.specs.Answers.{outcome_over};
ghost use Rattle.table_query.specs.Stops.{IsExplained, IsFirstStop};
ghost use Rattle.table_query.specs.declared.stop.Stop.TheVariants as stop;
ghost use Rattle.group_query.specs.Answers.{IsTableText, plan_of, workers_of};
ghost use Rattle.group_query.specs.Made.{IsMadeBy};

mod alone;
mod groups;
mod names;
mod output;

pub use alone::aggregate_alone;
pub use gather_run::Gathered;
use gather_run::gather;
use names::stop_of_gather;
use output::write_gathered;
use par_io::{Sink, Source};
use std::alloc::Global;
use std::sync::Wait;
use std::thread::Threads;
use table_query::{InThreads, Stop, Wanted, prepare};
use worker_run::Gate;

/// Answers the query that `words`, those after the program's name, name by options: reads the source and writes the
/// table to `out`, with as many workers besides the caller's thread as the words ask for. The text is made by as many
/// threads. Each participant passes the gate before each of its blocks. `Err` says why there is no table; its line is
/// still to be written.
///
/// Time is linear in the input, but for the look-up of each row's group and the order of the groups. Memory is the
/// input, its records, the groups, for each worker 82 KB and the groups of its own rows, the area of a shared table,
/// and the text.
pub fn answer_plan<R: Threads + Wait + Sync, S: Source, O: Sink, G: Gate + Sync>(
    rt: &R,
    alloc: Global,
    words: &[String],
    source: &mut S,
    out: &mut O,
    gate: &G,
) -> Result<Gathered, Stop>
    // `out` receives the table, which is that of the groups that were gathered, or a prefix of it if a write failed,
    // and on every other answer nothing. With a table what is returned says how its groups were made.
    ensures table { IfOk result (λ gathered. IfSome (S.left source.old) (λ bytes. (text : List ℕ) × IsTableText (plan_of (texts words.now)) bytes text
        × IsMadeBy (query_of (texts words.now)) bytes text gathered × Appends (O.taken out.old) (O.taken out.new) text)) }
    ensures part { IfErr result (λ why. why ≡ stop.WriteFault → IfSome (S.left source.old) (λ bytes.
        (text : List ℕ) × IsTableText (plan_of (texts words.now)) bytes text × (n : ℕ) × Appends (O.taken out.old) (O.taken out.new) (take n text))) }
    ensures nothing { IfErr result (λ why. (why ≢ stop.WriteFault) → out.new ≡ out.old) }

    // `Err` explains the outcome. A fault is answered only if it came in this call.
    ensures why { IfErr result (λ why. IsExplained (plan_of (texts words.now)) (S.left source.old) why) }
    ensures read_fault { IfErr result (λ why. why ≡ stop.ReadFault → Rose (S.faults source.old) (S.faults source.new)) }
    ensures write_fault { IfErr result (λ why. why ≡ stop.WriteFault → Rose (O.faults out.old) (O.faults out.new)) }

    // Words that are no plan are answered before anything is read. Without workers the row that is named is the first
    // that is refused.
    ensures no_plan { IsNone (plan_of (texts words.now)) → (result ≡ Err stop.Usage) ⊎ (result ≡ Err stop.Memory) }
    ensures unread { IsNone (plan_of (texts words.now)) → source.new ≡ source.old }
    ensures first { workers_of (texts words.now) ≡ Some 0 → IfErr result (λ why. IfSome (S.left source.old) (λ bytes.
        IsFirstStop (plan_of (texts words.now)) why (outcome_over (plan_of (texts words.now)) bytes))) }
{
    let ready = prepare(alloc, Wanted::Groups, words, source, &InThreads { rt })?;
    match gather(
        rt,
        alloc,
        &ready.rows,
        &ready.bound,
        ready.plan.workers(),
        ready.plan.area_pages(),
        gate,
    ) {
        Ok(gathered) => write_gathered(rt, alloc, &ready, gathered, out),
        Err(answer) => Err(stop_of_gather(alloc, &ready.plan, answer)),
    }
}
