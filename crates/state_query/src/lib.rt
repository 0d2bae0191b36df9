//! Partial states over a source and a sink: several files as one file, and the table that the files of all parts come
//! to.
//!
//! The source may have any number of files, one after another. Each is added as it comes and then dropped, so memory is
//! that of one file, or of two if threads add them; if one is not taken, nothing is written.

#![tactic(auto)]

ghost use Rattle.std.specs.Prelude.{◌≡◌, ◌≢◌, List, ℕ, IfErr, IfSome, OnOk, take};
ghost use Rattle.std.specs.Io.KnownBytes.{Appends};
ghost use Rattle.answer_text.specs.Lines.{IsSaid};
ghost use Rattle.par_io.specs.Faults.{Rose};
ghost use Rattle.state_query.specs.Inputs.{AreOneFile, IsTableOf};
ghost use Rattle.state_query.specs.Ranges.{IsRangeText, IsRangeWhy};
ghost use Rattle.state_query.specs.Stops.{line, stop_says};
ghost use Rattle.state_query.specs.Whys.{IsWhy};
ghost use Rattle.state_query.specs.declared.stop.Stop.{Stop};
ghost use Rattle.state_query.specs.declared.stop.Stop.TheVariants as stop;

mod input;
mod outcome;
mod range;
mod stop;

use answer_text::{READ_FAULT, WRITE_FAULT, write_each};
use outcome::{one_file, table_pieces};
use par_io::{Sink, Source, write_whole};
pub use range::RangeWords;
use range::range_pieces;
use std::alloc::Global;
use std::thread::Threads;
pub use stop::{BAD_STATES, MISSING, Stop, WRITTEN};

/// Reads files of one query and writes them as one file, or a line to `err` that says why there is none; the exit
/// status. Time is linear in the input but for the order of its groups; memory is that of all groups, of the largest
/// file of the input, and of the file.
pub fn combine_states<S: Source, O: Sink, E: Sink>(
    alloc: Global,
    source: &mut S,
    out: &mut O,
    err: &mut E,
) -> u8
    // On every status but that of a file there is a reason; the status is the reason's, and so is the line that `err`
    // receives, or a prefix of it if a write of it failed. A fault is answered only if it came in this call.
    ensures why { (result ≢ WRITTEN) → (why : Stop) × IfSome (S.left source.old) (λ bytes. IsWhy bytes why) × (result ≡ (stop_says why).0)
        × IsSaid (E.taken err.old) (E.taken err.new) (E.faults err.old) (E.faults err.new) (line (stop_says why).1) }
    ensures read_fault { result ≡ READ_FAULT → Rose (S.faults source.old) (S.faults source.new) }
    ensures write_fault { result ≡ WRITE_FAULT → Rose (O.faults out.old) (O.faults out.new) }
    ensures quiet { result ≡ WRITTEN → err.new ≡ err.old }

    // `out` receives the file, or a prefix of it if a write failed, and on every other status nothing.
    ensures states { result ≡ WRITTEN → IfSome (S.left source.old) (λ bytes. (file : List ℕ) × AreOneFile bytes file × Appends (O.taken out.old) (O.taken out.new) file) }
    ensures part { result ≡ WRITE_FAULT → IfSome (S.left source.old) (λ bytes.
        (file : List ℕ) × AreOneFile bytes file × (n : ℕ) × Appends (O.taken out.old) (O.taken out.new) (take n file)) }
    ensures nothing { (result ≢ WRITTEN) → (result ≢ WRITE_FAULT) → out.new ≡ out.old }
{
    match combine(alloc, source, out) {
        Ok(()) => WRITTEN,
        Err(stop) => stop.end(err),
    }
}

/// Reads the files of all parts and writes the table that they come to, or a line to `err` that says why there is none;
/// the exit status. At most this many threads work, including the caller's. If there are two or more and the plan
/// groups by columns, they add each file in ranges of keys while the next one is checked, and then make the lines of
/// each range. Otherwise only the lines are shared out. Time is linear in the input but for the order of its groups;
/// memory is that of all groups, of the text, and of the largest file of the input, or of two files if they are added
/// in ranges.
pub fn finalize_states<R: Threads + Sync, S: Source, O: Sink, E: Sink>(
    rt: &R,
    alloc: Global,
    threads: usize,
    source: &mut S,
    out: &mut O,
    err: &mut E,
) -> u8
    // On every status but that of a table there is a reason; the status is the reason's, and so is the line that `err`
    // receives, or a prefix of it if a write of it failed. A fault is answered only if it came in this call.
    ensures why { (result ≢ WRITTEN) → (why : Stop) × IfSome (S.left source.old) (λ bytes. IsWhy bytes why) × (result ≡ (stop_says why).0)
        × IsSaid (E.taken err.old) (E.taken err.new) (E.faults err.old) (E.faults err.new) (line (stop_says why).1) }
    ensures read_fault { result ≡ READ_FAULT → Rose (S.faults source.old) (S.faults source.new) }
    ensures write_fault { result ≡ WRITE_FAULT → Rose (O.faults out.old) (O.faults out.new) }
    ensures quiet { result ≡ WRITTEN → err.new ≡ err.old }

    // `out` receives the table, or a prefix of it if a write failed, and on every other status nothing.
    ensures table { result ≡ WRITTEN → IfSome (S.left source.old) (λ bytes. (text : List ℕ) × IsTableOf bytes text × Appends (O.taken out.old) (O.taken out.new) text) }
    ensures part { result ≡ WRITE_FAULT → IfSome (S.left source.old) (λ bytes.
        (text : List ℕ) × IsTableOf bytes text × (n : ℕ) × Appends (O.taken out.old) (O.taken out.new) (take n text)) }
    ensures nothing { (result ≢ WRITTEN) → (result ≢ WRITE_FAULT) → out.new ≡ out.old }
{
    match finalize(rt, alloc, threads, source, out) {
        Ok(()) => WRITTEN,
        Err(stop) => stop.end(err),
    }
}

/// Reads the files of all parts and writes the lines of one range of the table that they come to, after the header if
/// the range has no low end; or a line to `err` that says why there are none; the exit status. The texts of ranges one
/// after another are the table. Time is linear in the input but for the order of its groups; memory is that of the
/// groups and the text of the range, and of the largest file of the input.
pub fn finalize_range<S: Source, O: Sink, E: Sink>(
    alloc: Global,
    words: RangeWords<'_>,
    source: &mut S,
    out: &mut O,
    err: &mut E,
) -> u8
    // On every status but that of a text there is a reason; the status is the reason's, and so is the line that `err`
    // receives, or a prefix of it if a write of it failed. A fault is answered only if it came in this call.
    ensures why { (result ≢ WRITTEN) → (why : Stop) × IfSome (S.left source.old) (λ bytes. IsRangeWhy words.entry.above.now words.entry.below.now bytes why) × (result ≡ (stop_says why).0)
        × IsSaid (E.taken err.old) (E.taken err.new) (E.faults err.old) (E.faults err.new) (line (stop_says why).1) }
    ensures read_fault { result ≡ READ_FAULT → Rose (S.faults source.old) (S.faults source.new) }
    ensures write_fault { result ≡ WRITE_FAULT → Rose (O.faults out.old) (O.faults out.new) }
    ensures quiet { result ≡ WRITTEN → err.new ≡ err.old }

    // `out` receives the text of the range, or a prefix of it if a write failed, and on every other status nothing.
    ensures table { result ≡ WRITTEN → IfSome (S.left source.old) (λ bytes.
        (text : List ℕ) × IsRangeText words.entry.above.now words.entry.below.now bytes text × Appends (O.taken out.old) (O.taken out.new) text) }
    ensures part { result ≡ WRITE_FAULT → IfSome (S.left source.old) (λ bytes.
        (text : List ℕ) × IsRangeText words.entry.above.now words.entry.below.now bytes text × (n : ℕ) × Appends (O.taken out.old) (O.taken out.new) (take n text)) }
    ensures nothing { (result ≢ WRITTEN) → (result ≢ WRITE_FAULT) → out.new ≡ out.old }
{
    match write_range(alloc, words, source, out) {
        Ok(()) => WRITTEN,
        Err(stop) => stop.end(err),
    }
}

/// Reads files, and writes one range of the table that they come to.
fn write_range<S: Source, O: Sink>(
    alloc: Global,
    words: RangeWords<'_>,
    source: &mut S,
    out: &mut O,
) -> Result<(), Stop>
    ensures table { OnOk result (IfSome (S.left source.old) (λ bytes.
        (text : List ℕ) × IsRangeText words.entry.above.now words.entry.below.now bytes text × Appends (O.taken out.old) (O.taken out.new) text)) }
    ensures part { IfErr result (λ why. why ≡ stop.WriteFault → IfSome (S.left source.old) (λ bytes.
        (text : List ℕ) × IsRangeText words.entry.above.now words.entry.below.now bytes text × (n : ℕ) × Appends (O.taken out.old) (O.taken out.new) (take n text))) }
    ensures nothing { IfErr result (λ why. (why ≢ stop.WriteFault) → out.new ≡ out.old) }
    ensures why { IfErr result (λ why. IfSome (S.left source.old) (λ bytes. IsRangeWhy words.entry.above.now words.entry.below.now bytes why)) }
    ensures read_fault { IfErr result (λ why. why ≡ stop.ReadFault → Rose (S.faults source.old) (S.faults source.new)) }
    ensures write_fault { IfErr result (λ why. why ≡ stop.WriteFault → Rose (O.faults out.old) (O.faults out.new)) }
{
    let pieces = range_pieces(alloc, words, source)?;
    write_each(out, &pieces)?;
    Ok(())
}

/// Reads files, and writes them as one.
fn combine<S: Source, O: Sink>(alloc: Global, source: &mut S, out: &mut O) -> Result<(), Stop>
    ensures states { OnOk result (IfSome (S.left source.old) (λ bytes. (file : List ℕ) × AreOneFile bytes file × Appends (O.taken out.old) (O.taken out.new) file)) }
    ensures part { IfErr result (λ why. why ≡ stop.WriteFault → IfSome (S.left source.old) (λ bytes.
        (file : List ℕ) × AreOneFile bytes file × (n : ℕ) × Appends (O.taken out.old) (O.taken out.new) (take n file))) }
    ensures nothing { IfErr result (λ why. (why ≢ stop.WriteFault) → out.new ≡ out.old) }
    ensures why { IfErr result (λ why. IfSome (S.left source.old) (λ bytes. IsWhy bytes why)) }
    ensures read_fault { IfErr result (λ why. why ≡ stop.ReadFault → Rose (S.faults source.old) (S.faults source.new)) }
    ensures write_fault { IfErr result (λ why. why ≡ stop.WriteFault → Rose (O.faults out.old) (O.faults out.new)) }
{
    let file = one_file(alloc, source)?;
    write_whole(out, file.as_slice())?;
    Ok(())
}

/// Reads files, and writes the table that they come to.
fn finalize<R: Threads + Sync, S: Source, O: Sink>(
    rt: &R,
    alloc: Global,
    threads: usize,
    source: &mut S,
    out: &mut O,
) -> Result<(), Stop>
    ensures table { OnOk result (IfSome (S.left source.old) (λ bytes. (text : List ℕ) × IsTableOf bytes text × Appends (O.taken out.old) (O.taken out.new) text)) }
    ensures part { IfErr result (λ why. why ≡ stop.WriteFault → IfSome (S.left source.old) (λ bytes.
        (text : List ℕ) × IsTableOf bytes text × (n : ℕ) × Appends (O.taken out.old) (O.taken out.new) (take n text))) }
    ensures nothing { IfErr result (λ why. (why ≢ stop.WriteFault) → out.new ≡ out.old) }
    ensures why { IfErr result (λ why. IfSome (S.left source.old) (λ bytes. IsWhy bytes why)) }
    ensures read_fault { IfErr result (λ why. why ≡ stop.ReadFault → Rose (S.faults source.old) (S.faults source.new)) }
    ensures write_fault { IfErr result (λ why. why ≡ stop.WriteFault → Rose (O.faults out.old) (O.faults out.new)) }
{
    let pieces = table_pieces(rt, alloc, threads, source)?;
    write_each(out, &pieces)?;
    Ok(())
}
