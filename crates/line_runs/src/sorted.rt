//! Runs of any lines in the order of their keys, range by range.

ghost use Rattle.std.specs.Prelude.{◌≡◌, ◌<◌, All, IfOk, Ok, length, map as map_list};
ghost use Rattle.line_runs.specs.Order.{entry_at};
ghost use Rattle.line_runs.specs.Ranges.{AreInOrder, AreOrdered, AreRangeRuns, IsRangeRun, count_of};
ghost use Rattle.line_runs.specs.Runs.{Rise};

use crate::order::LineRef;
use crate::ranges::Ranges;
use crate::run::Run;
use crate::texts::{RANGES, lines_of};
use std::alloc::{AllocError, Global};
use std::thread::{Threads, for_each_mut};

/// A run, or no memory for it.
type Made = Result<Run, AllocError>;

/// The lines of all runs in the order of their keys, which have this many columns, in other runs, one after another. The lines of a run
/// rise strictly. At most this many threads work, the caller's among them; it takes as much memory as the runs, and 16 bytes a line.
pub fn sorted_runs<R: Threads + Sync>(
    rt: &R,
    alloc: Global,
    runs: &[Run],
    columns: u32,
    threads: usize,
) -> Result<Vec<Run>, AllocError>
    requires some { 0 < threads }
    requires rise { All (Rise columns) runs.now }
    ensures { IfOk result (λ sorted. AreInOrder columns runs.now sorted.items) }
{
    let ranges = Ranges::new(alloc, runs, columns, threads.saturating_mul(RANGES))?;
    let made = range_runs(rt, alloc, runs, &ranges, threads)?;
    all_made(alloc, made)
}

/// The runs of all ranges.
fn range_runs<R: Threads + Sync>(
    rt: &R,
    alloc: Global,
    runs: &[Run],
    ranges: &Ranges<'_>,
    threads: usize,
) -> Result<Vec<Made>, AllocError>
    requires some { 0 < threads }
    requires ordered { AreOrdered ranges.now }
    requires rise { All (Rise ranges.now.columns) runs.now }
    ensures { IfOk result (λ made. AreRangeRuns ranges.now runs.now (count_of ranges.now) made.items) }
{
    let mut made = no_runs(alloc, ranges.count())?;
    for_each_mut(
        rt,
        made.as_mut_slice(),
        threads,
        &|range, run| { *run = range_run(alloc, runs, ranges, range) },
    );
    Ok(made)
}

/// This many runs that are not made.
fn no_runs(alloc: Global, count: usize) -> Result<Vec<Made>, AllocError>
    ensures { IfOk result (λ runs. length runs.items ≡ count) }
{
    let mut runs = Vec::with_capacity(alloc, count)?;
    for _range in 0..count {
        runs.push(Err(AllocError))?;
    }
    Ok(runs)
}

/// The lines of a range of all runs, in order.
fn range_run(alloc: Global, runs: &[Run], ranges: &Ranges<'_>, range: usize) -> Made
    requires ordered { AreOrdered ranges.now }
    requires range { range < count_of ranges.now }
    requires rise { All (Rise ranges.now.columns) runs.now }
    ensures { IfOk result (IsRangeRun ranges.now runs.now range) }
{
    let found = lines_of(alloc, runs, ranges, range)?;
    run_of(alloc, runs, found.lines.as_slice(), found.bytes)
}

/// A run of lines of other runs, for which this many bytes are enough.
fn run_of(alloc: Global, runs: &[Run], lines: &[LineRef], bytes: usize) -> Made
    ensures { IfOk result (λ run. run ≡ map_list (entry_at runs.now) lines.now) }
{
    let mut run = Run::with_capacity(alloc, lines.len(), bytes)?;
    for line in lines {
        run = run.push_entry(line.entry(runs))?;
    }
    Ok(run)
}

/// The runs that were made, if there was memory for all of them.
fn all_made(alloc: Global, made: Vec<Made>) -> Result<Vec<Run>, AllocError>
    ensures { IfOk result (λ runs. map_list Ok runs.items ≡ made.items) }
{
    let mut runs = Vec::with_capacity(alloc, made.len())?;
    for run in made {
        runs.push(run?)?;
    }
    Ok(runs)
}
