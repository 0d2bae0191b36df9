//! The tuples of maps in runs: of each tuple its key, and what comes after it in a file, in the order of the table.

ghost use Rattle.std.specs.Prelude.{◌≡◌, ◌<◌, ◌≤◌, ◌++◌, ◌∷◌, [], All, IfOk, Ok, OnOk, length, map as map_list};
ghost use Rattle.par_model.specs.Refuse.{longest_key};
ghost use Rattle.partial_agg.specs.Listed.{listed};
ghost use Rattle.result_text.specs.GroupOrder.{group_of};
ghost use Rattle.result_text.specs.Printable.{IsKeyOf};
ghost use Rattle.state_groups.specs.Group.{values_bytes};
ghost use Rattle.state_lanes.specs.Lanes.{lane_slots};
ghost use Rattle.state_runs.specs.Jobs.{AreDone, IsDone};
ghost use Rattle.state_runs.specs.Runs.{AreRunsOf, IsRunOf, entry_of, groups_in};
ghost use Rattle.state_save.specs.Saving.{tuple_of, tuples_at};
ghost use Rattle.state_whole.specs.Adding.{IsShape};

use line_runs::Run;
use par_model::AggState;
use partial_agg::{GroupMap, Groups};
use result_text::{GroupRef, in_order};
use state_groups::push_values;
use state_lanes::lane_slots;
use state_whole::Shape;
use std::alloc::{AllocError, Global};
use std::mem;
use std::thread::{Threads, for_each_mut};

/// A map, and then the run of its tuples, or no memory for it.
#[derive(Drop)]
struct Job {
    map: GroupMap,
    run: Result<Run, AllocError>,
}

/// The runs of all maps.
pub(crate) fn runs_of<R: Threads + Sync>(
    rt: &R,
    alloc: Global,
    maps: Vec<GroupMap>,
    shape: &Shape<'_>,
    threads: usize,
) -> Result<Vec<Run>, AllocError>
    requires some { 0 < threads }
    requires shape { IsShape shape.now }
    requires keys { All (λ group. IsKeyOf shape.now.columns group.key) (groups_in maps.items) }
    ensures { IfOk result (λ runs. AreRunsOf shape.now maps.items runs.items) }
{
    let mut jobs = jobs_of(alloc, maps)?;
    make_runs(rt, alloc, &mut jobs, shape, threads);
    take_runs(alloc, jobs)
}

/// A job for each map.
fn jobs_of(alloc: Global, maps: Vec<GroupMap>) -> Result<Vec<Job>, AllocError>
    ensures { IfOk result (λ jobs. map_list (λ job. job.map) jobs.items ≡ maps.items) }
{
    let mut jobs = Vec::with_capacity(alloc, maps.len())?;
    for map in maps {
        jobs.push(Job {
            map,
            run: Err(AllocError),
        })?;
    }
    Ok(jobs)
}

/// Makes the run of each map, which is empty afterwards.
fn make_runs<R: Threads + Sync>(
    rt: &R,
    alloc: Global,
    jobs: &mut Vec<Job>,
    shape: &Shape<'_>,
    threads: usize,
)
    requires some { 0 < threads }
    requires shape { IsShape shape.now }
    requires keys { All (λ job. All (λ group. IsKeyOf shape.now.columns group.key) (listed job.map)) jobs.old.items }
    ensures { AreDone shape.now jobs.old.items jobs.new.items }
{
    for_each_mut(
        rt,
        jobs.as_mut_slice(),
        threads,
        &|_, job| { make_run(alloc, job, shape) },
    );
}

/// Makes the run of a map, which is empty afterwards.
fn make_run(alloc: Global, job: &mut Job, shape: &Shape<'_>)
    requires shape { IsShape shape.now }
    requires keys { All (λ group. IsKeyOf shape.now.columns group.key) (listed job.old.map) }
    ensures { IsDone shape.now job.old job.new }
{
    let map = mem::replace(&mut job.map, GroupMap::new(alloc));
    job.run = run_of_map(alloc, map, shape);
}

/// The runs that were made, if there was memory for all of them.
fn take_runs(alloc: Global, jobs: Vec<Job>) -> Result<Vec<Run>, AllocError>
    ensures { IfOk result (λ runs. map_list Ok runs.items ≡ map_list (λ job. job.run) jobs.items) }
{
    let mut runs = Vec::with_capacity(alloc, jobs.len())?;
    for job in jobs {
        runs.push(job.run?)?;
    }
    Ok(runs)
}

/// The run of a map, which is gone afterwards.
fn run_of_map(alloc: Global, map: GroupMap, shape: &Shape<'_>) -> Result<Run, AllocError>
    requires shape { IsShape shape.now }
    requires keys { All (λ group. IsKeyOf shape.now.columns group.key) (listed map) }
    ensures { IfOk result (IsRunOf shape.now (listed map)) }
{
    let groups = map.into_groups();
    groups.keys_rise();
    let refs = in_order(alloc, &groups, shape.columns)?;
    run_of_groups(alloc, &groups, &refs, shape)
}

/// The tuples of groups, in this order.
fn run_of_groups(
    alloc: Global,
    groups: &Groups,
    refs: &[GroupRef<'_>],
    shape: &Shape<'_>,
) -> Result<Run, AllocError>
    requires shape { IsShape shape.now }
    requires within { All (λ group. group.at < length groups.now) refs.now }
    requires short { All (λ group. length group.key.now ≤ longest_key) refs.now }
    ensures { IfOk result (λ run. run ≡ map_list (entry_of shape.now.kinds.now) (tuples_at shape.now groups.now refs.now)) }
{
    let mut run = Run::with_capacity(alloc, refs.len(), 0)?;
    let mut values = Vec::new(alloc);
    for group in refs {
        run = push_tuple(run, &mut values, groups, *group, shape)?;
    }
    Ok(run)
}

/// A run with the tuple of a group more. `values` is used for what comes after the key.
fn push_tuple(
    run: Run,
    values: &mut Vec<u8>,
    groups: &Groups,
    group: GroupRef<'_>,
    shape: &Shape<'_>,
) -> Result<Run, AllocError>
    requires shape { IsShape shape.now }
    requires place { group.at < length groups.now }
    requires short { length group.key.now ≤ longest_key }
    ensures { IfOk result (λ more. more ≡ run ++ entry_of shape.now.kinds.now (tuple_of shape.now (group_of groups.now group.entry)) ∷ []) }
{
    let state = groups.state(group.at);
    values.clear();
    push_state(values, &state, shape)?;
    run.push(group.key, values.as_slice())
}

/// Puts what a tuple has after its key at the end of some bytes.
fn push_state(out: &mut Vec<u8>, state: &AggState, shape: &Shape<'_>) -> Result<(), AllocError>
    requires { IsShape shape.now }
    ensures { OnOk result (out.new.items ≡ out.old.items ++ values_bytes shape.now.kinds.now state.now.rows (lane_slots shape.now.lanes.now shape.now.items.now state.now.slots)) }
{
    let found = lane_slots(shape.lanes, shape.items, &state.slots);
    push_values(out, shape.kinds, state.rows, &found[..shape.lanes.len()])
}
