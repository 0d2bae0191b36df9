//! The words, the reading and the file, one after another.

ghost use Rattle.std.specs.Prelude.{◌≡◌, ◌≢◌, ◌⊎◌, ◌<◌, ◌≤◌, ℕ, List, IfErr, IfOk, IfSome, IsNone, OnOk, Some, option_map, take};
ghost use Rattle.std.specs.Io.KnownBytes.{Appends};
ghost use Rattle.answer_text.specs.Lines.{IsSaid};
ghost use Rattle.answer_text.specs.Words.{texts};
ghost use Rattle.answer_text.specs.declared.status.TheConstants.{READ_FAULT, WRITE_FAULT};
ghost use Rattle.par_io.specs.Faults.{Rose};
ghost use Rattle.state_partial.specs.NoPart.{AskForTile, HasOtherSize, IsNoPart, IsShorter, IsWhyOf, OfTile, no_part_says};
ghost use Rattle.state_partial.specs.Parts.{IsPartText, IsTextOf};
ghost use Rattle.state_partial.specs.Words.{asked_in, asked_of, words_after};
ghost use Rattle.state_partial.specs.declared.no_part.NoPart.{NoPart};
ghost use Rattle.state_partial.specs.declared.no_part.NoPart.TheVariants as no_part;
ghost use Rattle.state_plan.specs.FilePlans.{AskFor, HaveNoQuery};
ghost use Rattle.stream_groups.specs.Lines.{line};
ghost use Rattle.stream_groups.specs.Sources.{bare_faults, bare_left};
ghost use Rattle.stream_groups.specs.declared.stop.Stop.TheVariants as stop;
ghost use Rattle.tile_source.specs.Left.{IsUncut, lacks, source_faults, source_left};

use crate::file::file_of;
use crate::no_part::{NoPart, WRITTEN};
use crate::places::{begin_of, place_of};
use crate::reading::read_part;
use crate::words::PartWords;
use par_io::{Sink, Source, write_whole};
use plan_spec::{MOST_WORKERS, Plan};
use state_plan::plan_of as plan_in;
use std::alloc::Global;
use std::sync::Wait;
use std::thread::Threads;
use stream_groups::{Progress, Separated, Stop};
use tile_source::TileSource;

/// The words after `partial`, if that is the first of the words after the program's name.
pub fn part_words(words: &[String]) -> Option<&[String]>
    ensures { option_map (λ rest. texts rest.now) result ≡ words_after (texts words.now) }
{
    match words.split_first() {
        Some((word, rest)) if word.as_str() == "partial" => Some(rest),
        _ => None,
    }
}

/// Reads a source of which nothing was read, whole or a tile of it, and writes the file that its rows come to by the plan of the words, those after `partial`; or a
/// line to `err` that says why there is none; the exit status. The source is read in batches of `window_bytes`, by as many workers as the words ask for
/// beside the caller's thread, and how far the reading has come is told to `progress`.
///
/// Time is linear in the input, but for the look-up of each row's group and the order of the groups. Memory is that of
/// [`read_groups`], the groups, and the file.
pub fn partial_states<R: Threads + Wait + Sync, S: Source, O: Sink, E: Sink, P: Progress>(
    rt: &R,
    alloc: Global,
    words: &[String],
    source: &mut TileSource<Separated<S>>,
    out: &mut O,
    err: &mut E,
    window_bytes: usize,
    progress: &mut P,
) -> u8
    requires uncut { IsUncut source.old }

    // `out` receives the file, or a prefix of it if a write failed, and on every other status nothing.
    ensures states { result ≡ WRITTEN → IfSome (source_left (bare_left S.left) source.old) (λ bytes.
        (text : List ℕ) × IsPartText (texts words.now) bytes text × Appends (O.taken out.old) (O.taken out.new) text) }
    ensures part { result ≡ WRITE_FAULT → IfSome (source_left (bare_left S.left) source.old) (λ bytes.
        (text : List ℕ) × IsPartText (texts words.now) bytes text × (n : ℕ) × Appends (O.taken out.old) (O.taken out.new) (take n text)) }
    ensures nothing { (result ≢ WRITTEN) → (result ≢ WRITE_FAULT) → out.new ≡ out.old }

    // On every other status than that of a file there is a reason, which is one of the words and the bytes; the status is the reason's, and
    // so is the line that `err` receives, or a prefix of it if a write of it failed. A fault is answered only if it came in this call.
    ensures why { (result ≢ WRITTEN) → (why : NoPart) × IsNoPart (texts words.now) (source_left (bare_left S.left) source.old) (lacks source.new) why × (result ≡ (no_part_says why).0)
        × IsSaid (E.taken err.old) (E.taken err.new) (E.faults err.old) (E.faults err.new) (line (no_part_says why).1) }
    ensures read_fault { result ≡ READ_FAULT → Rose (source_faults (bare_faults S.faults) source.old) (source_faults (bare_faults S.faults) source.new)
        ⊎ AskForTile HasOtherSize (texts words.now) (source_left (bare_left S.left) source.old) }
    ensures write_fault { result ≡ WRITE_FAULT → Rose (O.faults out.old) (O.faults out.new) }
    ensures quiet { result ≡ WRITTEN → err.new ≡ err.old }

    // Words that ask for no part are answered before anything is read.
    ensures unread { IsNone (asked_in (texts words.now)) → source.new ≡ source.old }
{
    match write_part(rt, alloc, words, source, out, window_bytes, progress) {
        Ok(()) => WRITTEN,
        Err(why) => why.end(err),
    }
}

/// Reads the words and the source, and writes the file.
fn write_part<R: Threads + Wait + Sync, S: Source, O: Sink, P: Progress>(
    rt: &R,
    alloc: Global,
    words: &[String],
    source: &mut TileSource<Separated<S>>,
    out: &mut O,
    window_bytes: usize,
    progress: &mut P,
) -> Result<(), NoPart>
    requires uncut { IsUncut source.old }
    ensures states { OnOk result (IfSome (source_left (bare_left S.left) source.old) (λ bytes.
        (text : List ℕ) × IsPartText (texts words.now) bytes text × Appends (O.taken out.old) (O.taken out.new) text)) }
    ensures part { IfErr result (λ why. why ≡ no_part.Stopped stop.WriteFault → IfSome (source_left (bare_left S.left) source.old) (λ bytes.
        (text : List ℕ) × IsPartText (texts words.now) bytes text × (n : ℕ) × Appends (O.taken out.old) (O.taken out.new) (take n text))) }
    ensures nothing { IfErr result (λ why. (why ≢ no_part.Stopped stop.WriteFault) → out.new ≡ out.old) }
    ensures why { IfErr result (IsNoPart (texts words.now) (source_left (bare_left S.left) source.old) (lacks source.new)) }
    ensures read_fault { IfErr result (λ why. why ≡ no_part.Stopped stop.ReadFault → Rose (source_faults (bare_faults S.faults) source.old) (source_faults (bare_faults S.faults) source.new)) }
    ensures short { IfErr result (λ why. why ≡ no_part.Short → Rose (source_faults (bare_faults S.faults) source.old) (source_faults (bare_faults S.faults) source.new) ⊎ AskForTile IsShorter (texts words.now) (source_left (bare_left S.left) source.old)) }
    ensures write_fault { IfErr result (λ why. why ≡ no_part.Stopped stop.WriteFault → Rose (O.faults out.old) (O.faults out.new)) }
    ensures unread { IsNone (asked_in (texts words.now)) → source.new ≡ source.old }
{
    let file = match make_part(rt, alloc, words, source, window_bytes, progress) {
        Ok(file) => file,
        Err(why) => return Err(why),
    };
    match write_whole(out, file.as_slice()) {
        Ok(()) => Ok(()),
        Err(_) => Err(NoPart::Stopped(Stop::WriteFault)),
    }
}

/// Reads the words and the source, and makes the file.
fn make_part<R: Threads + Wait + Sync, S: Source, P: Progress>(
    rt: &R,
    alloc: Global,
    words: &[String],
    source: &mut TileSource<Separated<S>>,
    window_bytes: usize,
    progress: &mut P,
) -> Result<Vec<u8>, NoPart>
    requires uncut { IsUncut source.old }
    ensures file { IfOk result (λ file. IfSome (source_left (bare_left S.left) source.old) (λ bytes. IsPartText (texts words.now) bytes file.items)) }
    ensures why { IfErr result (IsNoPart (texts words.now) (source_left (bare_left S.left) source.old) (lacks source.new)) }
    ensures read_fault { IfErr result (λ why. why ≡ no_part.Stopped stop.ReadFault → Rose (source_faults (bare_faults S.faults) source.old) (source_faults (bare_faults S.faults) source.new)) }
    ensures short { IfErr result (λ why. why ≡ no_part.Short → Rose (source_faults (bare_faults S.faults) source.old) (source_faults (bare_faults S.faults) source.new) ⊎ AskForTile IsShorter (texts words.now) (source_left (bare_left S.left) source.old)) }
    ensures no_write { IfErr result (λ why. (why ≡ no_part.Stopped stop.WriteFault) → ⊥) }
    ensures unread { IsNone (asked_in (texts words.now)) → source.new ≡ source.old }
{
    let Ok(found) = PartWords::of_words(alloc, words) else {
        return Err(NoPart::Stopped(Stop::Memory));
    };
    match found {
        Some(asked) => make_asked(rt, alloc, &asked, source, window_bytes, progress),
        None => Err(NoPart::of_words(words)),
    }
}

/// Reads the source, and makes the file that is asked for: from here on the comma and the separator of the plan are exchanged.
fn make_asked<R: Threads + Wait + Sync, S: Source, P: Progress>(
    rt: &R,
    alloc: Global,
    asked: &PartWords<'_>,
    source: &mut TileSource<Separated<S>>,
    window_bytes: usize,
    progress: &mut P,
) -> Result<Vec<u8>, NoPart>
    requires uncut { IsUncut source.old }
    requires workers { asked.now.workers ≤ MOST_WORKERS }
    requires part { asked.now.part.source < asked.now.part.sources }
    ensures file { IfOk result (λ file. (words : List (List ℕ)) → asked_in words ≡ Some (asked_of asked.now) → IfSome (source_left (bare_left S.left) source.old) (λ bytes. IsPartText words bytes file.items)) }
    ensures why { IfErr result (λ why. (words : List (List ℕ)) → asked_in words ≡ Some (asked_of asked.now) → IsNoPart words (source_left (bare_left S.left) source.old) (lacks source.new) why) }
    ensures read_fault { IfErr result (λ why. why ≡ no_part.Stopped stop.ReadFault → Rose (source_faults (bare_faults S.faults) source.old) (source_faults (bare_faults S.faults) source.new)) }
    ensures short { IfErr result (λ why. (words : List (List ℕ)) → asked_in words ≡ Some (asked_of asked.now) → why ≡ no_part.Short
        → Rose (source_faults (bare_faults S.faults) source.old) (source_faults (bare_faults S.faults) source.new) ⊎ AskForTile IsShorter words (source_left (bare_left S.left) source.old)) }
    ensures no_write { IfErr result (λ why. (why ≡ no_part.Stopped stop.WriteFault) → ⊥) }
{
    let plan = match plan_of(alloc, asked) {
        Ok(plan) => plan,
        Err(why) => return Err(why),
    };
    source.source.separate(plan.reading().separator);
    make_read(rt, alloc, asked, plan, source, window_bytes, progress)
}

/// Reads a source of text with commas, and makes the file of it.
fn make_read<R: Threads + Wait + Sync, S: Source, P: Progress>(
    rt: &R,
    alloc: Global,
    asked: &PartWords<'_>,
    plan: Plan,
    source: &mut TileSource<S>,
    window_bytes: usize,
    progress: &mut P,
) -> Result<Vec<u8>, NoPart>
    requires uncut { IsUncut source.old }
    requires workers { asked.now.workers ≤ MOST_WORKERS }
    requires part { asked.now.part.source < asked.now.part.sources }
    requires ask { AskFor (asked_of asked.now).words plan }
    ensures file { IfOk result (λ file. (words : List (List ℕ)) → asked_in words ≡ Some (asked_of asked.now) → IsTextOf words plan (source_left S.left source.old) file.items) }
    ensures why { IfErr result (λ why. (words : List (List ℕ)) → asked_in words ≡ Some (asked_of asked.now) → IsWhyOf words plan (source_left S.left source.old) (lacks source.new) why) }
    ensures read_fault { IfErr result (λ why. why ≡ no_part.Stopped stop.ReadFault → Rose (source_faults S.faults source.old) (source_faults S.faults source.new)) }
    ensures short { IfErr result (λ why. why ≡ no_part.Short → Rose (source_faults S.faults source.old) (source_faults S.faults source.new) ⊎ OfTile IsShorter asked.now.extent (source_left S.left source.old)) }
    ensures no_write { IfErr result (λ why. (why ≡ no_part.Stopped stop.WriteFault) → ⊥) }
{
    let begin = match begin_of(alloc, asked.extent, source) {
        Ok(begin) => begin,
        Err(why) => return Err(why),
    };
    let read = read_part(
        rt,
        alloc,
        &plan,
        asked.workers,
        source,
        window_bytes,
        progress,
    );
    let part = match read {
        Ok(part) => part,
        Err(why) => return Err(stopped(source, why)),
    };
    match place_of(asked.part.source, asked.extent, begin, part.size) {
        Some(place) => file_of(rt, alloc, asked, plan, part, place),
        None => Err(NoPart::Grown),
    }
}

/// The reason for a reading that stopped: its source may have ended before its size.
fn stopped<S: Source>(source: &TileSource<S>, why: Stop) -> NoPart
    ensures { ((result ≡ no_part.Short) × (why ≡ stop.ReadFault) × (0 < lacks source.now)) ⊎ (result ≡ no_part.Stopped why) }
{
    if source.is_short() && matches!(&why, Stop::ReadFault) {
        NoPart::Short
    } else {
        NoPart::Stopped(why)
    }
}

/// The plan that is asked for.
fn plan_of(alloc: Global, asked: &PartWords<'_>) -> Result<Plan, NoPart>
    ensures plan { IfOk result (AskFor (asked_of asked.now).words) }
    ensures why { IfErr result (λ why. ((why ≡ no_part.Usage) × HaveNoQuery (asked_of asked.now).words) ⊎ (why ≡ no_part.Stopped stop.Memory)) }
{
    match plan_in(alloc, asked.plan_words()) {
        Ok(Some(plan)) => Ok(plan),
        Ok(None) => Err(NoPart::Usage),
        Err(_) => Err(NoPart::Stopped(Stop::Memory)),
    }
}
