//! One query over comma-separated bytes, from the words of a command line to an exit status, only in the caller's
//! thread or with workers besides it: the table of groups that options name, with `merge` the rows in order, with
//! `join` the join of two tables, or with `gen` what is said of generated rows.
//!
//! The calls keep one order of faults: the words, then the reading, the header, the number of rows, the columns, the
//! rows, and the writing. The first that holds ends it. Only a whole table is written to `out`, or all rows; one place
//! writes the line on `err`, and what becomes of that line changes no status. What a form of the words comes to is the
//! business of the crates below; here the first word chooses one (`query_of`), and each is shown to answer its query
//! (`AnswersBy`).

#![tactic(auto)]

ghost use Rattle.std.specs.Prelude.{◌≡◌, ◌≢◌, ◌⊎◌, ℕ, List, Option, IfSome, None, Contains};
ghost use Rattle.par_io.specs.Faults.{Rose};
ghost use Rattle.answer_text.specs.Lines.{IsSaid, line, statuses};
ghost use Rattle.answer_text.specs.Words.{texts};
ghost use Rattle.par_gather.specs.Answers.{Answers, IsLine, IsStatus};
ghost use Rattle.par_gather.specs.Query.{ReadsNothing, input_of, query_of, usage_of};
ghost use Rattle.par_gather.specs.Runs.{IsMade};

mod form;
mod forms;

pub use answer_text::{MISUSED, NO_MEMORY, READ_FAULT, REFUSED, TABLE, TOO_LARGE, WRITE_FAULT};
use form::{Form, form_of};
use forms::{in_gen, in_join, in_merge, in_plan};
use gather_merge::Merged;
use gather_run::Gathered;
pub use group_query::aggregate_alone;
use join_query::{Cause, Joined};
use par_io::{Sink, Source};
use std::alloc::Global;
use std::sync::Wait;
use std::thread::Threads;
use table_query::{Stop, Wanted};
pub use worker_run::{Gate, OpenGate};

/// How what was written was made.
#[derive(Drop)]
pub enum Ran {
    /// A table, or what is said of generated rows, by workers that gathered their groups.
    Gather(Gathered),
    /// Rows in order, by workers that sorted theirs.
    Merge(Merged),
    /// Joined records, by workers that shared a table of the left rows.
    Join(Joined),
}

/// Answers the query that `words` name, over the bytes of `source`: writes its table to `out`, or a line to `err` that
/// says why there is none, and returns the exit status. `words` are those after the program's name. Words that begin
/// with `merge` are to be `merge COLUMNS N`; their query puts the rows in the order of these columns, with N workers,
/// and writes the header and then the rows. Words that begin with `join` are to be `join COLUMN N`; their
/// query joins two tables, as [`join_query::join_tables`] says. Words that begin with `gen` are to be `gen SEED ROWS`;
/// nothing is read then, and what is written is the line of [`gen_query::answer_generated`].
///
/// The bytes are cut into records by the caller's thread and as many workers as the words ask for, each a part of them.
/// The rows are shared out, by blocks of 256, among the same number; each participant passes the gate before each of
/// its blocks, the caller's thread as participant 0. In the plan `hash`, with `--area-pages` of 16 or more, they share
/// a table of groups in an area of this many pages of 4 KiB; a group that finds no room there, and each group in the
/// plan `gather`, comes to the caller's thread. What is written is the same. Of several refused rows the line may name
/// any one, unless no workers are asked for.
///
/// Time is linear in the input, but for the look-up of each row's group and the order of the groups, or of the rows.
/// Memory is the input, its records, the groups, for each worker 82 KB and the groups of its own rows, and the area of
/// a shared table; for rows in order it is the input, its records, 16 bytes a row, 82 KB for each worker, and 64 KiB of
/// bytes that wait to be written.
pub fn pargather<R: Threads + Wait + Sync, S: Source, O: Sink, E: Sink, G: Gate + Sync>(
    rt: &R,
    alloc: Global,
    words: &[String],
    source: &mut S,
    out: &mut O,
    err: &mut E,
    gate: &G,
    ran: &mut Option<Ran>,
) -> u8
    // There is no other status. On 1, 2, 3, 5 and 6 `out` receives nothing. A fault is answered only if it came in this
    // call. On 0 `err` receives nothing; on every other status `ran` is None.
    ensures statuses { Contains statuses result }
    ensures nothing { (result ≢ TABLE) → (result ≢ WRITE_FAULT) → out.new ≡ out.old }
    ensures read_fault { result ≡ READ_FAULT → Rose (S.faults source.old) (S.faults source.new) }
    ensures write_fault { result ≡ WRITE_FAULT → Rose (O.faults out.old) (O.faults out.new) }
    ensures quiet { result ≡ TABLE → err.new ≡ err.old }
    ensures none { (result ≢ TABLE) → ran.new ≡ None }

    // The call answers what the words ask for: its status is that of the outcome, on 0 `out` receives the text, and on 4
    // a prefix of it.
    ensures answers { Answers (query_of (texts words.now)) (S.left source.old) result (O.taken out.old) (O.taken out.new) }

    // On 0 `ran` says how that text was made.
    ensures made { result ≡ TABLE → IsMade (query_of (texts words.now)) (S.left source.old) ran.new (O.taken out.old) (O.taken out.new) }

    // If no fault came in this call, the status is that of the outcome, or there was no memory.
    ensures complete { ¬ Rose (S.faults source.old) (S.faults source.new) → ¬ Rose (O.faults out.old) (O.faults out.new)
        → IfSome (input_of (query_of (texts words.now)) (S.left source.old)) (λ bytes. (result ≡ NO_MEMORY) ⊎ IsStatus (query_of (texts words.now)) bytes result) }

    // Wrong words are answered before anything is read, and generated rows are made of nothing that is: then no reading
    // fails either.
    ensures unread { ReadsNothing (query_of (texts words.now)) → (source.new ≡ source.old) × (result ≢ READ_FAULT) }

    // On every other status than 0 `err` receives the line of the status, or a prefix of it if a write of it failed.
    ensures line { (result ≢ TABLE) → (said : List ℕ) × IsLine (query_of (texts words.now)) (S.left source.old) result said
        × IsSaid (E.taken err.old) (E.taken err.new) (E.faults err.old) (E.faults err.new) said }
{
    *ran = None;
    match form_of(words) {
        Form::Plan => in_plan(rt, alloc, words, source, out, err, gate, ran),
        Form::Merge => in_merge(rt, alloc, words, source, out, err, gate, ran),
        Form::Join => in_join(rt, alloc, words, source, out, err, ran),
        Form::Gen => in_gen(rt, alloc, words, out, err, gate, ran),
    }
}

/// Answers the query as [`pargather`] does, with a gate that is open, and keeps nothing of how it was made: the
/// program's own call.
pub fn answer<R: Threads + Wait + Sync, S: Source, O: Sink, E: Sink>(
    rt: &R,
    alloc: Global,
    words: &[String],
    source: &mut S,
    out: &mut O,
    err: &mut E,
) -> u8
    ensures statuses { Contains statuses result }
    ensures nothing { (result ≢ TABLE) → (result ≢ WRITE_FAULT) → out.new ≡ out.old }
    ensures read_fault { result ≡ READ_FAULT → Rose (S.faults source.old) (S.faults source.new) }
    ensures write_fault { result ≡ WRITE_FAULT → Rose (O.faults out.old) (O.faults out.new) }
    ensures quiet { result ≡ TABLE → err.new ≡ err.old }
    ensures answers { Answers (query_of (texts words.now)) (S.left source.old) result (O.taken out.old) (O.taken out.new) }
    ensures complete { ¬ Rose (S.faults source.old) (S.faults source.new) → ¬ Rose (O.faults out.old) (O.faults out.new)
        → IfSome (input_of (query_of (texts words.now)) (S.left source.old)) (λ bytes. (result ≡ NO_MEMORY) ⊎ IsStatus (query_of (texts words.now)) bytes result) }
    ensures unread { ReadsNothing (query_of (texts words.now)) → (source.new ≡ source.old) × (result ≢ READ_FAULT) }
    ensures line { (result ≢ TABLE) → (said : List ℕ) × IsLine (query_of (texts words.now)) (S.left source.old) result said
        × IsSaid (E.taken err.old) (E.taken err.new) (E.faults err.old) (E.faults err.new) said }
{
    pargather(rt, alloc, words, source, out, err, &OpenGate, &mut None)
}

/// Answers a command line that is not the text of words, such as one with a word that is not UTF-8: by the line that
/// says how the program is called in the form that `words` begin with, which are those of its first words that are
/// wanted for that. It returns the exit status [`MISUSED`]. It takes no memory.
pub fn say_usage<E: Sink>(words: &[String], err: &mut E) -> u8
    ensures status { result ≡ MISUSED }
    ensures usage { IsSaid (E.taken err.old) (E.taken err.new) (E.faults err.old) (E.faults err.new) (line (usage_of (query_of (texts words.now)))) }
{
    match form_of(words) {
        Form::Plan => Stop::Usage.end(Wanted::Groups, err),
        Form::Merge => Stop::Usage.end(Wanted::Order, err),
        Form::Join => join_query::Stop::Because(Cause::Usage).end("", err),
        Form::Gen => Stop::Usage.end(Wanted::Groups, err),
    }
}
