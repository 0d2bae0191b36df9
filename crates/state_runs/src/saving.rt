//! Puts the groups of many maps into a file, in the order of the table.

ghost use Rattle.std.specs.Prelude.{◌≡◌, ◌<◌, ◌≤◌, ◌^◌, ◌++◌, [], ℕ, All, Bool, Err, IfOk, List, OnOk, length, map as map_list};
ghost use Rattle.line_runs.specs.Entries.{all_entries};
ghost use Rattle.result_text.specs.Printable.{IsKeyOf};
ghost use Rattle.state_blocks.specs.Blocks.{Group};
ghost use Rattle.state_head.specs.Head.{head_bytes, preface_of};
ghost use Rattle.state_runs.specs.Runs.{AreApart, IsRunOf, entry_of, groups_in};
ghost use Rattle.state_save.specs.Saving.{AreTuplesOf, AreWritten, DoNotFit, IsFileOf};
ghost use Rattle.state_whole.specs.Adding.{IsShape};
ghost use Rattle.state_whole.specs.Files.{StateFile, file_bytes};
ghost use Rattle.state_writer.specs.Writing.{Fit, FitInBlocks, Goes, HasTaken};
ghost use Rattle.state_writer.specs.declared.writer.WriteError.TheVariants as variant;

use crate::runs::runs_of;
use line_runs::{Run, sorted_runs};
use partial_agg::GroupMap;
use state_front::{FrontWrite, push_front};
use state_head::Head;
use state_whole::Shape;
use state_writer::{BodyWriter, WriteError};
use std::alloc::{AllocError, Global};
use std::thread::Threads;

/// Puts a file at the end of `out`: this head, and the groups of all maps in the order of the table. At most this many threads work,
/// the caller's among them. A map is gone when its tuples are made; beside the maps that are left it takes memory for the file, and for
/// each group's key, values and 16 bytes twice. After an error the bytes at the end of `out` are of no use.
pub(crate) fn push_apart_file<R: Threads + Sync>(
    rt: &R,
    alloc: Global,
    out: &mut Vec<u8>,
    head: &Head<'_>,
    maps: Vec<GroupMap>,
    shape: &Shape<'_>,
    threads: usize,
) -> Result<(), WriteError>
    requires some { 0 < threads }
    requires shape { IsShape shape.now }
    requires keys { All (λ group. IsKeyOf shape.now.columns group.key) (groups_in maps.items) }
    requires apart { AreApart maps.items }
    ensures file { OnOk result ((f : StateFile) × IsFileOf shape.now (preface_of head.now) (groups_in maps.items) f × (out.new.items ≡ out.old.items ++ file_bytes shape.now.kinds.now f)) }
    ensures short { OnOk result (length (head_bytes (preface_of head.now)) ≤ 2 ^ 28) }

    // When the error comes that is not of memory: the head or what comes after it is too long for a file.
    ensures long { result ≡ Err variant.Long → DoNotFit shape.now (preface_of head.now) (groups_in maps.items) }
{
    let from = out.len();
    match push_front(alloc, out, head) {
        Ok(()) => {}
        Err(FrontWrite::Memory) => return Err(WriteError::Memory),
        Err(FrontWrite::Long) => return Err(WriteError::Long),
    }
    let at = (out.len() - from) as u64;
    push_apart(rt, alloc, out, at, maps, shape, threads)
}

/// Puts what comes after a head at the end of `out`, if that head ends at this place of its file.
fn push_apart<R: Threads + Sync>(
    rt: &R,
    alloc: Global,
    out: &mut Vec<u8>,
    at: u64,
    maps: Vec<GroupMap>,
    shape: &Shape<'_>,
    threads: usize,
) -> Result<(), WriteError>
    requires some { 0 < threads }
    requires shape { IsShape shape.now }
    requires keys { All (λ group. IsKeyOf shape.now.columns group.key) (groups_in maps.items) }
    requires apart { AreApart maps.items }
    ensures written { OnOk result (AreWritten shape.now (groups_in maps.items) at out.old.items out.new.items) }

    // When the error comes that is not of memory.
    ensures long { result ≡ Err variant.Long → (tuples : List Group) × AreTuplesOf shape.now (groups_in maps.items) tuples × (Fit shape.now.kinds.now at tuples → ⊥) }
{
    let sorted = sorted_of(rt, alloc, maps, shape, threads)?;
    let mut writer = BodyWriter::new(alloc, at);
    push_runs(&mut writer, out, &sorted)?;
    writer.finish(alloc, out)
}

/// The tuples of all maps in the order of the table, in runs one after another.
fn sorted_of<R: Threads + Sync>(
    rt: &R,
    alloc: Global,
    maps: Vec<GroupMap>,
    shape: &Shape<'_>,
    threads: usize,
) -> Result<Vec<Run>, AllocError>
    requires some { 0 < threads }
    requires shape { IsShape shape.now }
    requires keys { All (λ group. IsKeyOf shape.now.columns group.key) (groups_in maps.items) }
    requires apart { AreApart maps.items }
    ensures { IfOk result (λ sorted. IsRunOf shape.now (groups_in maps.items) (all_entries sorted.items)) }
{
    let runs = runs_of(rt, alloc, maps, shape, threads)?;
    sorted_runs(rt, alloc, &runs, shape.columns, threads)
}

/// Takes the tuples of runs into a file, one run after another.
fn push_runs(writer: &mut BodyWriter, out: &mut Vec<u8>, runs: &[Run]) -> Result<(), WriteError>
    ensures taken { (kinds : List Bool) (start : ℕ) (tuples : List Group) → HasTaken kinds start [] [] writer.old → all_entries runs.now ≡ map_list (entry_of kinds) tuples
        → OnOk result (Goes kinds start tuples [] out.old.items out.new.items writer.new) }
    ensures long { (kinds : List Bool) (start : ℕ) (tuples : List Group) → HasTaken kinds start [] [] writer.old → all_entries runs.now ≡ map_list (entry_of kinds) tuples → result ≡ Err variant.Long
        → FitInBlocks kinds start tuples → ⊥ }
{
    for run in runs {
        push_run(writer, out, run)?;
    }
    Ok(())
}

/// Takes the tuples of a run into a file.
fn push_run(writer: &mut BodyWriter, out: &mut Vec<u8>, run: &Run) -> Result<(), WriteError>
    ensures taken { (kinds : List Bool) (start : ℕ) (groups tuples : List Group) (written : List ℕ) → HasTaken kinds start groups written writer.old → run.now ≡ map_list (entry_of kinds) tuples
        → OnOk result (Goes kinds start (groups ++ tuples) written out.old.items out.new.items writer.new) }
    ensures long { (kinds : List Bool) (start : ℕ) (groups tuples : List Group) (written : List ℕ) → HasTaken kinds start groups written writer.old → run.now ≡ map_list (entry_of kinds) tuples → result ≡ Err variant.Long
        → FitInBlocks kinds start (groups ++ tuples) → ⊥ }
{
    for at in 0..run.len() {
        writer.push_made(out, run.key(at), run.line(at))?;
    }
    Ok(())
}
