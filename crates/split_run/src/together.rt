//! The maps of all participants put together, by halves.

ghost use Rattle.std.specs.Prelude.{◌≡◌, ◌<◌, ◌^◌, IfOk, length};
ghost use Rattle.std.specs.Thread.{IsSync};
ghost use Rattle.row_blocks.specs.Blocks.{Table};
ghost use Rattle.par_model.specs.Plan.{Plan};
ghost use Rattle.partial_agg.specs.Groups.{AreGroups, with_groups};
ghost use Rattle.gather_law.specs.Shares.{AreShared};
ghost use Rattle.split_run.specs.Together.{Joins};

use partial_agg::GroupMap;
use std::alloc::{AllocError, Global};
use std::thread::{Threads, join};

/// The map of all rows, by the maps of participants that share them. Each half of the maps is put together in a thread of
/// its own, so at most half as many threads as maps work at once; a map that is added to another is put in the order of
/// its keys first. One map stays as it is.
pub fn put_together<R: Threads + Sync>(
    rt: &R,
    alloc: Global,
    maps: Vec<GroupMap>,
) -> Result<GroupMap, AllocError>
    ensures { IfOk result (λ whole. (plan : Plan) (width : _) (rows : Table) → AreShared plan width rows maps.items → length rows < 2 ^ 64 → AreGroups plan rows whole) }
{
    join_all(rt, alloc, maps)
}

/// The same, of any maps.
fn join_all<R: Threads + Sync>(
    rt: &R,
    alloc: Global,
    mut front: Vec<GroupMap>,
) -> Result<GroupMap, AllocError>
    ensures { IfOk result (Joins front.items) }
{
    if front.len() < 2 {
        return Ok(at_most_one(alloc, front));
    }
    let back = front.split_off(front.len() / 2)?;
    let (first, second) = join(
        rt,
        || -> Result<GroupMap, AllocError>
            requires { IsSync R.row }
            ensures { IfOk result (Joins front.items) }
        { join_all(rt, alloc, front) },
        || -> Result<GroupMap, AllocError>
            requires { IsSync R.row }
            ensures { IfOk result (Joins back.items) }
        { join_all(rt, alloc, back) },
    );
    let groups = first?;
    let others = second?;
    add_groups(groups, others)
}

/// The only map, or that of no rows.
fn at_most_one(alloc: Global, mut maps: Vec<GroupMap>) -> GroupMap
    requires { length maps.items < 2 }
    ensures { Joins maps.items result }
{
    match maps.pop() {
        Some(groups) => groups,
        None => GroupMap::new(alloc),
    }
}

/// Adds the groups of a map to another.
fn add_groups(mut groups: GroupMap, others: GroupMap) -> Result<GroupMap, AllocError>
    ensures { IfOk result (λ whole. whole ≡ with_groups groups others) }
{
    let list = others.into_groups();
    for at in 0..list.len() {
        let group = list.get(at);
        groups.add(group.key, &group.state)?;
    }
    Ok(groups)
}
