//! The query in the caller's thread, with no workers: its blocks go one after the other, so a refused row that it names
//! is the first.

ghost use Rattle.std.specs.Prelude.{◌≡◌, ◌≢◌, ◌⊎◌, ℕ, List, Contains, IfErr, IfSome, IsNone, OnOk, Err, take};
ghost use Rattle.std.specs.Io.KnownBytes.{Appends};
ghost use Rattle.par_io.specs.Faults.{Rose};
ghost use Rattle.par_model.specs.Outcome.{Outcome};
ghost use Rattle.answer_text.specs.Lines.{IsSaid, line, statuses};
ghost use Rattle.answer_text.specs.Words.{texts};
ghost use Rattle.table_query.specs.Answers.{IsOutcome, outcome_over, status_of};
ghost use Rattle.table_query.specs.Asked.{usage_text};
ghost use Rattle.table_query.specs.Lines.{IsLine, NamesFirst};
ghost use Rattle.table_query.specs.Stops.{IsExplained, IsFirstStop};
ghost use Rattle.table_query.specs.declared.stop.Stop.TheVariants as stop;
ghost use Rattle.group_query.specs.Answers.{IsOtherForm, IsTableText, plan_of};

use crate::groups::groups_of;
use crate::names::stop_of_block;
use crate::output::write_table;
use answer_text::{MISUSED, NO_MEMORY, READ_FAULT, REFUSED, TABLE, WRITE_FAULT};
use par_io::{Sink, Source};
use std::alloc::Global;
use table_query::{Alone, Stop, Wanted, prepare};

/// Answers the query that `words`, those after the program's name, name by options: writes the table to `out`, or a
/// line to `err` that says why there is none, and returns the exit status. It does so only in the caller's thread, with
/// no wait, whatever number of workers the words give. Words that begin with `merge`, `join` or `gen` are no plan here.
///
/// Time is linear in the input, but for the look-up of each row's group and the order of the groups. Memory is the
/// input, its records, the groups, and the text of the table.
pub fn aggregate_alone<S: Source, O: Sink, E: Sink>(
    alloc: Global,
    words: &[String],
    source: &mut S,
    out: &mut O,
    err: &mut E,
) -> u8
    // There is no other status, and one that reports no fault is that of the outcome.
    ensures statuses { Contains statuses result }
    ensures outcome { IfSome (S.left source.old) (λ bytes. (result ≢ READ_FAULT) → (result ≢ WRITE_FAULT) → (result ≢ NO_MEMORY)
        → result ≡ status_of (outcome_over (plan_of (texts words.now)) bytes)) }

    // `out` receives the table, or a prefix of it if a write failed, and on every other status nothing.
    ensures table { result ≡ TABLE → IfSome (S.left source.old) (λ bytes.
        (text : List ℕ) × IsTableText (plan_of (texts words.now)) bytes text × Appends (O.taken out.old) (O.taken out.new) text) }
    ensures part { result ≡ WRITE_FAULT → IfSome (S.left source.old) (λ bytes.
        (text : List ℕ) × IsTableText (plan_of (texts words.now)) bytes text × (n : ℕ) × Appends (O.taken out.old) (O.taken out.new) (take n text)) }
    ensures nothing { (result ≢ TABLE) → (result ≢ WRITE_FAULT) → out.new ≡ out.old }

    // A fault is answered only if it came in this call. Without one the status is the outcome's, or there was no
    // memory.
    ensures read_fault { result ≡ READ_FAULT → Rose (S.faults source.old) (S.faults source.new) }
    ensures write_fault { result ≡ WRITE_FAULT → Rose (O.faults out.old) (O.faults out.new) }
    ensures complete { ¬ Rose (S.faults source.old) (S.faults source.new) → ¬ Rose (O.faults out.old) (O.faults out.new)
        → IfSome (S.left source.old) (λ bytes. (result ≡ NO_MEMORY) ⊎ (result ≡ status_of (outcome_over (plan_of (texts words.now)) bytes))) }

    // Words that are no plan are answered before anything is read.
    ensures no_plan { IsNone (plan_of (texts words.now)) → (result ≡ MISUSED) ⊎ (result ≡ NO_MEMORY) }
    ensures unread { IsNone (plan_of (texts words.now)) → source.new ≡ source.old }
    ensures other_form { IsOtherForm (texts words.now) → IsNone (plan_of (texts words.now)) }

    // `err` receives the line of the status, or a prefix of it if a write of it failed, and with a table nothing.
    ensures line { (result ≢ TABLE) → (o : Outcome) × IsOutcome (plan_of (texts words.now)) (S.left source.old) o
        × (said : List ℕ) × IsLine usage_text (plan_of (texts words.now)) result o said × IsSaid (E.taken err.old) (E.taken err.new) (E.faults err.old) (E.faults err.new) said }
    ensures quiet { result ≡ TABLE → err.new ≡ err.old }
    ensures usage { IsNone (plan_of (texts words.now)) → result ≡ MISUSED
        → IsSaid (E.taken err.old) (E.taken err.new) (E.faults err.old) (E.faults err.new) (line usage_text) }

    // The row that it names is the first that is refused.
    ensures first { result ≡ REFUSED → IfSome (S.left source.old) (λ bytes.
        (said : List ℕ) × NamesFirst (plan_of (texts words.now)) (outcome_over (plan_of (texts words.now)) bytes) said
        × IsSaid (E.taken err.old) (E.taken err.new) (E.faults err.old) (E.faults err.new) said) }
{
    match answer_alone(alloc, words, source, out) {
        Ok(()) => TABLE,
        Err(stop) => stop.end(Wanted::Groups, err),
    }
}

/// Reads the words and the source, and writes the table, in the caller's thread.
fn answer_alone<S: Source, O: Sink>(
    alloc: Global,
    words: &[String],
    source: &mut S,
    out: &mut O,
) -> Result<(), Stop>
    ensures table { OnOk result (IfSome (S.left source.old) (λ bytes.
        (text : List ℕ) × IsTableText (plan_of (texts words.now)) bytes text × Appends (O.taken out.old) (O.taken out.new) text)) }
    ensures part { IfErr result (λ why. why ≡ stop.WriteFault → IfSome (S.left source.old) (λ bytes.
        (text : List ℕ) × IsTableText (plan_of (texts words.now)) bytes text × (n : ℕ) × Appends (O.taken out.old) (O.taken out.new) (take n text))) }
    ensures nothing { IfErr result (λ why. (why ≢ stop.WriteFault) → out.new ≡ out.old) }
    ensures why { IfErr result (λ why. IsExplained (plan_of (texts words.now)) (S.left source.old) why) }
    ensures read_fault { IfErr result (λ why. why ≡ stop.ReadFault → Rose (S.faults source.old) (S.faults source.new)) }
    ensures write_fault { IfErr result (λ why. why ≡ stop.WriteFault → Rose (O.faults out.old) (O.faults out.new)) }
    ensures no_plan { IsNone (plan_of (texts words.now)) → (result ≡ Err stop.Usage) ⊎ (result ≡ Err stop.Memory) }
    ensures unread { IsNone (plan_of (texts words.now)) → source.new ≡ source.old }
    ensures first { IfErr result (λ why. IfSome (S.left source.old) (λ bytes. IsFirstStop (plan_of (texts words.now)) why (outcome_over (plan_of (texts words.now)) bytes))) }
{
    let ready = prepare(alloc, Wanted::Groups, words, source, &Alone)?;
    match groups_of(alloc, &ready.rows, &ready.bound) {
        Ok(groups) => write_table(alloc, &ready, &groups, out),
        Err(answer) => Err(stop_of_block(alloc, &ready.plan, answer)),
    }
}
