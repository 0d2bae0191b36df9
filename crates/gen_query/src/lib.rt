//! Generated rows and what is said of them: the words `gen SEED ROWS` make the text of that many rows by a generator of
//! numbers, which is read as the bytes of a file are read, grouped with two workers besides the caller's thread by
//! `--group g --agg count,sum:v`, and answered by the one line `rows R groups G sum S`: how many rows there are, how
//! many groups, and the sum of all values.
//!
//! That line is put together from the groups. That it is the line of the numbers that were generated is what is proved
//! of all the steps together: of the text, its records, their groups and the sums of these.

#![tactic(auto)]

ghost use Rattle.std.specs.Prelude.{◌≡◌, ◌≢◌, ◌⊎◌, ◌≤◌, IfErr, IfOk, IsNone, IsSome, OnOk, Some, Err};
ghost use Rattle.par_io.specs.Faults.{Rose};
ghost use Rattle.par_model.specs.Outcome.{most_rows};
ghost use Rattle.answer_text.specs.Words.{texts};
ghost use Rattle.gen_query.specs.Summary.{IsAnswered, IsBegun};
ghost use Rattle.gen_query.specs.Used.{IsGatheredBy};
ghost use Rattle.gen_query.specs.Words.{asked_by, gen_of};
ghost use Rattle.gen_query.specs.declared.GenAnswer.TheVariants as answer;

mod gathering;
mod generator;
mod summary;
mod words;

use gather_run::Gathered;
use gathering::{gather_rows, read_generated};
use par_io::{Sink, write_whole};
use std::alloc::{AllocError, Global};
use std::sync::Wait;
use std::thread::Threads;
use summary::summary_of;
pub use words::is_gen;
use words::{GenWords, read_words};
use worker_run::Gate;

/// Why there is no line, or not all of it.
#[derive(Debug, Clone, Copy, PartialEq, Eq)]
pub enum GenAnswer {
    /// The words are not `gen SEED ROWS`.
    Usage,
    /// A write of the line failed.
    WriteFault,
    /// There was no memory.
    Memory,
}

impl From<AllocError> for GenAnswer {
    ghost from_gives = { λ _ why. why ≡ answer.Memory };

    fn from(_error: AllocError) -> GenAnswer {
        GenAnswer::Memory
    }
}

/// Makes the rows that `words`, those after the program's name, ask for: `gen SEED ROWS`. It gathers their groups with
/// two workers, and writes the line `rows R groups G sum S` to `out`. Each participant passes the gate before each of
/// its blocks. SEED is 1 to 20 digits with a value from 1 to 2^64 - 1, and ROWS 1 to 7 digits with a value up to
/// 4,194,304.
///
/// Time is linear in the rows. Memory is 11 bytes a row for the text, as much again for the fields with 8 bytes a row
/// for their places, 700 bytes for each of at most 1,000 groups, and 82 KB for each worker with the groups that it
/// keeps.
pub fn answer_generated<R: Threads + Wait + Sync, O: Sink, G: Gate + Sync>(
    rt: &R,
    alloc: Global,
    words: &[String],
    out: &mut O,
    gate: &G,
) -> Result<Gathered, GenAnswer>
    // It is Usage exactly if the words ask for no rows. Otherwise, without a fault, only memory can be missing.
    ensures no_words { IsNone (gen_of (texts words.now)) → result ≡ Err answer.Usage }
    ensures usage { result ≡ Err answer.Usage → IsNone (gen_of (texts words.now)) }
    ensures complete { IsSome (gen_of (texts words.now)) → ¬ Rose (O.faults out.old) (O.faults out.new) → IfErr result (λ why. why ≡ answer.Memory) }

    // `out` receives the line of the rows, or a prefix of it if a write failed, and else nothing. WriteFault comes only
    // if a fault of `out` rose in this call.
    ensures summary { OnOk result (IsAnswered (gen_of (texts words.now)) (O.taken out.old) (O.taken out.new)) }
    ensures part { result ≡ Err answer.WriteFault → IsBegun (gen_of (texts words.now)) (O.taken out.old) (O.taken out.new) }
    ensures nothing { IfErr result (λ why. (why ≢ answer.WriteFault) → out.new ≡ out.old) }
    ensures write_fault { result ≡ Err answer.WriteFault → Rose (O.faults out.old) (O.faults out.new) }

    // What is returned has the groups of the rows, and says how they were made.
    ensures gathered { IfOk result (λ gathered. IsGatheredBy (gen_of (texts words.now)) gathered) }
{
    match read_words(words) {
        Some(asked) => summarize(rt, alloc, &asked, out, gate),
        None => Err(GenAnswer::Usage),
    }
}

/// Makes the rows, gathers their groups, and writes the line.
fn summarize<R: Threads + Wait + Sync, O: Sink, G: Gate + Sync>(
    rt: &R,
    alloc: Global,
    asked: &GenWords,
    out: &mut O,
    gate: &G,
) -> Result<Gathered, GenAnswer>
    requires { asked.now.rows ≤ most_rows }
    ensures summary { OnOk result (IsAnswered (Some (asked_by asked.now)) (O.taken out.old) (O.taken out.new)) }
    ensures gathered { IfOk result (λ gathered. IsGatheredBy (Some (asked_by asked.now)) gathered) }
    ensures part { result ≡ Err answer.WriteFault → IsBegun (Some (asked_by asked.now)) (O.taken out.old) (O.taken out.new) }
    ensures nothing { IfErr result (λ why. (why ≢ answer.WriteFault) → out.new ≡ out.old) }
    ensures write_fault { result ≡ Err answer.WriteFault → Rose (O.faults out.old) (O.faults out.new) }
    ensures why { IfErr result (λ why. (why ≡ answer.WriteFault) ⊎ (why ≡ answer.Memory)) }
{
    let rows = read_generated(rt, alloc, asked.seed, asked.rows)?;
    let gathered = gather_rows(rt, alloc, &rows, gate)?;
    let text = summary_of(alloc, &gathered.groups)?;
    match write_whole(out, text.as_slice()) {
        Ok(()) => Ok(gathered),
        Err(_) => Err(GenAnswer::WriteFault),
    }
}
