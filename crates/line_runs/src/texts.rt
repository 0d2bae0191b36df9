//! The text of the table, range by range.

ghost use Rattle.std.specs.Prelude.{◌≡◌, ◌<◌, ◌≤◌, ◌^◌, ◌∷◌, ◌++◌, ◌-◌, [], ℕ, List, All, IfOk, Ok, OnOk, drop, get_or, length, map as map_list, take};
ghost use Rattle.std.specs.List.{concat};
ghost use Rattle.std.specs.List.Sorted.{IsPermutation, IsSortedBy};
ghost use Rattle.par_model.specs.Named.{bound_plan};
ghost use Rattle.par_model.specs.Outcome.{IsAnswer};
ghost use Rattle.partial_agg.specs.Listed.{listed};
ghost use Rattle.result_text.specs.Pieces.{joined};
ghost use Rattle.result_text.specs.Printable.{ArePrintable, IsBoundFrom};
ghost use Rattle.row_blocks.specs.Blocks.{Table};
ghost use Rattle.part_run.specs.Parted.{AreParted};
ghost use Rattle.line_runs.specs.Entries.{Entry, comes_before};
ghost use Rattle.line_runs.specs.Jobs.{AreDone, IsDone};
ghost use Rattle.line_runs.specs.Order.{entry_at};
ghost use Rattle.line_runs.specs.Ranges.{AreOrdered, AreRangeTexts, IsRangeText, count_of, entries_of};
ghost use Rattle.line_runs.specs.Runs.{AreRunsOf, Rise};

use crate::order::{LineRef, sort_by_keys, sort_lines};
use crate::ranges::Ranges;
use crate::run::{Run, group_count};
use par_model::BoundPlan;
use partial_agg::GroupMap;
use plan_spec::Plan;
use result_text::{Part, behind, header_text};
use std::alloc::{AllocError, Global};
use std::mem;
use std::thread::{Threads, for_each_mut};

/// Lines of a range, and about how many bytes they have.
#[derive(Drop)]
pub(crate) struct Found {
    pub(crate) lines: Vec<LineRef>,
    pub(crate) bytes: usize,
}

/// How many ranges there are for each thread.
pub(crate) const RANGES: usize = 4;

/// The map of a part, and then the run of its lines, or no memory for it.
#[derive(Drop)]
struct Job {
    map: GroupMap,
    run: Result<Run, AllocError>,
}

/// The text of the table of all rows, by the maps of the parts of their keys, in pieces, one after another. At most this many
/// threads work, the caller's among them. A map is gone when its lines are made; beside them it takes memory for the text.
pub fn table_of_parts<R: Threads + Sync>(
    rt: &R,
    alloc: Global,
    plan: &Plan,
    bound: &BoundPlan,
    maps: Vec<GroupMap>,
    threads: usize,
) -> Result<Vec<Vec<u8>>, AllocError>
    requires some { 0 < threads }
    requires columns { 0 < length bound.now.groups }
    requires bound { IsBoundFrom plan.now.plan bound.now }
    requires rows { (width : ℕ) × (rows : Table) × (length rows ≤ 2 ^ 50) × AreParted bound.now width rows maps.items }
    ensures { IfOk result (λ pieces. (header : List (List ℕ)) (width : ℕ) (rows : Table) → bound.now ≡ bound_plan header plan.now.plan → length rows ≤ 2 ^ 50 → AreParted bound.now width rows maps.items
        → IsAnswer plan.now.plan (header ∷ rows) (joined pieces.items)) }
{
    let runs = runs_of(rt, alloc, bound, maps, threads)?;
    let count = threads.saturating_mul(RANGES);
    let ranges = Ranges::new(alloc, &runs, group_count(bound), count)?;
    let header = header_text(alloc, plan, bound)?;
    let texts = range_texts(rt, alloc, bound, &runs, &ranges, threads)?;
    behind(alloc, header, texts)
}

/// The runs of the lines of all maps.
fn runs_of<R: Threads + Sync>(
    rt: &R,
    alloc: Global,
    bound: &BoundPlan,
    maps: Vec<GroupMap>,
    threads: usize,
) -> Result<Vec<Run>, AllocError>
    requires some { 0 < threads }
    requires printable { All (λ groups. ArePrintable bound.now (listed groups)) maps.items }
    ensures { IfOk result (λ runs. AreRunsOf bound.now maps.items runs.items) }
{
    let mut jobs = jobs_of(alloc, maps)?;
    make_runs(rt, alloc, bound, &mut jobs, threads);
    take_runs(alloc, jobs)
}

/// A job for each map.
fn jobs_of(alloc: Global, maps: Vec<GroupMap>) -> Result<Vec<Job>, AllocError>
    ensures { IfOk result (λ jobs. map_list (λ job. job.map) jobs.items ≡ maps.items) }
{
    let mut jobs = Vec::with_capacity(alloc, maps.len())?;
    for map in maps {
        jobs.push(Job {
            map,
            run: Err(AllocError),
        })?;
    }
    Ok(jobs)
}

/// Makes the lines of each map, which is empty afterwards.
fn make_runs<R: Threads + Sync>(
    rt: &R,
    alloc: Global,
    bound: &BoundPlan,
    jobs: &mut Vec<Job>,
    threads: usize,
)
    requires some { 0 < threads }
    requires printable { All (λ job. ArePrintable bound.now (listed job.map)) jobs.old.items }
    ensures { AreDone bound.now jobs.old.items jobs.new.items }
{
    for_each_mut(
        rt,
        jobs.as_mut_slice(),
        threads,
        &|_, job| { make_run(alloc, bound, job) },
    );
}

/// Makes the lines of a map, which is empty afterwards.
fn make_run(alloc: Global, bound: &BoundPlan, job: &mut Job)
    requires { ArePrintable bound.now (listed job.old.map) }
    ensures { IsDone bound.now job.old job.new }
{
    let map = mem::replace(&mut job.map, GroupMap::new(alloc));
    job.run = Run::of_map(alloc, bound, map);
}

/// The runs that were made, if there was memory for all of them.
fn take_runs(alloc: Global, jobs: Vec<Job>) -> Result<Vec<Run>, AllocError>
    ensures { IfOk result (λ runs. map_list Ok runs.items ≡ map_list (λ job. job.run) jobs.items) }
{
    let mut runs = Vec::with_capacity(alloc, jobs.len())?;
    for job in jobs {
        runs.push(job.run?)?;
    }
    Ok(runs)
}

/// The texts of all ranges.
fn range_texts<R: Threads + Sync>(
    rt: &R,
    alloc: Global,
    bound: &BoundPlan,
    runs: &[Run],
    ranges: &Ranges<'_>,
    threads: usize,
) -> Result<Vec<Part>, AllocError>
    requires some { 0 < threads }
    requires ordered { AreOrdered ranges.now }
    requires columns { ranges.now.columns ≡ length bound.now.groups }
    requires rise { All (Rise ranges.now.columns) runs.now }
    ensures { IfOk result (λ texts. AreRangeTexts ranges.now runs.now (count_of ranges.now) texts.items) }
{
    let mut texts = no_texts(alloc, ranges.count())?;
    for_each_mut(
        rt,
        texts.as_mut_slice(),
        threads,
        &|range, text| { *text = range_text(alloc, runs, ranges, range) },
    );
    Ok(texts)
}

/// This many texts of no bytes.
fn no_texts(alloc: Global, count: usize) -> Result<Vec<Part>, AllocError>
    ensures { IfOk result (λ texts. length texts.items ≡ count) }
{
    let mut texts = Vec::with_capacity(alloc, count)?;
    for _range in 0..count {
        texts.push(Ok(Vec::new(alloc)))?;
    }
    Ok(texts)
}

/// The lines of a range of all runs, in order.
fn range_text(alloc: Global, runs: &[Run], ranges: &Ranges<'_>, range: usize) -> Part
    requires ordered { AreOrdered ranges.now }
    requires range { range < count_of ranges.now }
    requires rise { All (Rise ranges.now.columns) runs.now }
    ensures { IfOk result (λ text. IsRangeText ranges.now runs.now range text.items) }
{
    let found = lines_of(alloc, runs, ranges, range)?;
    text_of(alloc, runs, found.lines.as_slice(), found.bytes)
}

/// The lines of a range of all runs, in order.
pub(crate) fn lines_of(
    alloc: Global,
    runs: &[Run],
    ranges: &Ranges<'_>,
    range: usize,
) -> Result<Found, AllocError>
    requires ordered { AreOrdered ranges.now }
    requires range { range < count_of ranges.now }
    requires rise { All (Rise ranges.now.columns) runs.now }
    ensures same { IfOk result (λ found. IsPermutation (entries_of ranges.now runs.now range) (map_list (entry_at runs.now) found.lines.items)) }
    ensures sorted { IfOk result (λ found. IsSortedBy (comes_before ranges.now.columns) (map_list (entry_at runs.now) found.lines.items)) }
{
    let mut found = lines_in(alloc, runs, ranges, range)?;
    sort_range(found.lines.as_mut_slice(), runs, ranges, range);
    Ok(found)
}

/// Puts lines of a range in the order of the table. Without columns nothing is shared, and there are no numbers.
fn sort_range(lines: &mut [LineRef], runs: &[Run], ranges: &Ranges<'_>, range: usize)
    requires range { range < count_of ranges.now }
    ensures same { IsPermutation (map_list (entry_at runs.now) lines.old) (map_list (entry_at runs.now) lines.new) }
    ensures sorted { IsSortedBy (comes_before ranges.now.columns) (map_list (entry_at runs.now) lines.new) }
{
    let columns = ranges.columns();
    if columns == 0 {
        sort_by_keys(lines, runs, columns);
        return;
    }
    sort_lines(lines, runs, &ranges.shared(range), columns);
}

/// The lines of a range of all runs, run by run.
fn lines_in(
    alloc: Global,
    runs: &[Run],
    ranges: &Ranges<'_>,
    range: usize,
) -> Result<Found, AllocError>
    requires ordered { AreOrdered ranges.now }
    requires range { range < count_of ranges.now }
    requires rise { All (Rise ranges.now.columns) runs.now }
    ensures { IfOk result (λ found. map_list (entry_at runs.now) found.lines.items ≡ entries_of ranges.now runs.now range) }
{
    let mut lines = Vec::new(alloc);
    let mut bytes = 0usize;
    for at in 0..runs.len() {
        let run = &runs[at];
        let from = ranges.start_in(run, range);
        let to = ranges.end_in(run, range);
        bytes = bytes.saturating_add(run.bytes_between(from, to));
        add_lines(&mut lines, at, from, to)?;
    }
    Ok(Found { lines, bytes })
}

/// Adds the lines of a run from one place on to another.
fn add_lines(lines: &mut Vec<LineRef>, run: usize, from: usize, to: usize) -> Result<(), AllocError>
    requires { from ≤ to }
    ensures { OnOk result ((runs : List (List Entry)) → to ≤ length (get_or runs run []) → map_list (entry_at runs) lines.new.items ≡ map_list (entry_at runs) lines.old.items ++ take (to - from) (drop from (get_or runs run []))) }
{
    lines.reserve(to - from)?;
    for at in from..to {
        lines.push(LineRef::new(run, at)?)?;
    }
    Ok(())
}

/// Lines one after another, for which this many bytes are enough.
fn text_of(alloc: Global, runs: &[Run], lines: &[LineRef], bytes: usize) -> Part
    ensures { IfOk result (λ text. text.items ≡ concat (map_list (λ entry. entry.1) (map_list (entry_at runs.now) lines.now))) }
{
    let mut text = Vec::with_capacity(alloc, bytes)?;
    for line in lines {
        text.extend_from_slice(line.line(runs))?;
    }
    Ok(text)
}
