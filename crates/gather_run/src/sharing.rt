//! The leader's blocks: without a table of groups it adds their rows to its map. With one it does as the workers do: it
//! keeps the groups of its blocks in a second map until they are many, or there are no more blocks, and then shares them
//! out: each is put into the table, by one call, and only one for which the table has no room is added to its first map.

ghost use Rattle.std.specs.Prelude.{◌≡◌, ◌<◌, ◌+◌, ◌*◌, All, IfErr, OnOk, length};
ghost use Rattle.std.specs.FinMap as map;
ghost use Rattle.agg_table.specs.Shown.{Grew, IsPart, IsSeat, StaysSeated, use_in, use_of};
ghost use Rattle.partial_agg.specs.Groups.{with_rows};
ghost use Rattle.partial_agg.specs.Rows.{IsAccepted, header_width};
ghost use Rattle.row_blocks.specs.Blocks.{block_rows};
ghost use Rattle.worker_run.specs.Job.{IsJob, IsSeated};
ghost use Rattle.gather_run.specs.Sharing.{DoesBlock, SharesGroup, SharesGroups, SharesMany, SharesRest, StopsAt};

use par_model::AggState;
use parallel_ctx::{HashPart, HashSeat};
use partial_agg::{BlockAnswer, GroupKey, GroupMap};
use region_words::Region;
use row_blocks::BLOCK_ROWS;
use std::alloc::AllocError;
use std::sync::Wait;
use worker_run::{Job, MOST_KEPT};

/// Puts a group into the table, or adds it to the map if the table has no room.
fn share_group<R: Wait>(
    rt: &R,
    r: &Region,
    part: &HashPart,
    seat: &mut HashSeat,
    groups: &mut GroupMap,
    key: GroupKey,
    state: &AggState,
) -> Result<(), AllocError>
    requires part { IsPart r.now part.now }
    requires seat { IsSeat part.now seat.old }
    ensures seat { IsSeat part.now seat.new × Grew seat.old seat.new }
    ensures shared { OnOk result (SharesGroup (use_of seat.old) (use_of seat.new) groups.old groups.new (key, state.now)) }
{
    if part.put(rt, r, seat, &key, state) {
        return Ok(());
    }
    groups.add(key, state)
}

/// Shares out all groups that are kept, in the order of their keys.
fn share_groups<R: Wait>(
    rt: &R,
    r: &Region,
    part: &HashPart,
    seat: &mut HashSeat,
    kept: &mut GroupMap,
    groups: &mut GroupMap,
) -> Result<(), AllocError>
    requires part { IsPart r.now part.now }
    requires seat { IsSeat part.now seat.old }
    ensures seat { IsSeat part.now seat.new × Grew seat.old seat.new }
    ensures empty { OnOk result (kept.new ≡ map.empty) }
    ensures shared { OnOk result (SharesGroups (map.entries kept.old) (use_of seat.old) (use_of seat.new) groups.old groups.new) }
{
    for _ in rt.forever() {
        let Some((key, state)) = kept.take_first() else {
            return Ok(());
        };
        share_group(rt, r, part, seat, groups, key, &state)?;
    }
    unreachable!()
}

/// Shares out all groups that are kept, if they are many.
fn share_many<R: Wait>(
    rt: &R,
    r: &Region,
    part: &HashPart,
    seat: &mut HashSeat,
    kept: &mut GroupMap,
    groups: &mut GroupMap,
) -> Result<(), AllocError>
    requires part { IsPart r.now part.now }
    requires seat { IsSeat part.now seat.old }
    ensures seat { IsSeat part.now seat.new × Grew seat.old seat.new }
    ensures shared { OnOk result (SharesMany kept.old (use_of seat.old) (use_of seat.new) kept.new groups.old groups.new) }
{
    if kept.len() < MOST_KEPT {
        return Ok(());
    }
    share_groups(rt, r, part, seat, kept, groups)
}

/// Adds the rows of a block to the groups that are kept, and shares these out if they are many.
fn share_block<G, R: Wait>(
    rt: &R,
    job: &Job<'_, G>,
    block: u64,
    part: &HashPart,
    seat: &mut HashSeat,
    kept: &mut GroupMap,
    groups: &mut GroupMap,
) -> Result<(), BlockAnswer>
    requires job { IsJob job.now }
    requires block { BLOCK_ROWS * block + 1 < length job.now.rows.now }
    requires part { IsPart job.now.region.now part.now }
    requires seat { IsSeat part.now seat.old }
    ensures seat { IsSeat part.now seat.new × Grew seat.old seat.new }
    ensures accepted { OnOk result (All (IsAccepted job.now.plan.now (header_width job.now.rows.now)) (block_rows job.now.rows.now block)) }
    ensures shared { OnOk result (SharesMany (with_rows job.now.plan.now kept.old (block_rows job.now.rows.now block)) (use_of seat.old) (use_of seat.new) kept.new groups.old groups.new) }
    ensures stopped { IfErr result (StopsAt job.now.plan.now job.now.rows.now block) }
{
    if let Err(why) = kept.add_block(job.rows, job.plan, block) {
        return Err(why);
    }
    if share_many(rt, job.region, part, seat, kept, groups).is_err() {
        return Err(BlockAnswer::Memory);
    }
    Ok(())
}

/// Does a block of the leader's: adds its rows to its map, or, if there is a table, to the groups that it keeps for
/// the table.
pub(crate) fn do_block<G, R: Wait>(
    rt: &R,
    job: &Job<'_, G>,
    block: u64,
    seat: &mut Option<HashSeat>,
    kept: &mut GroupMap,
    groups: &mut GroupMap,
) -> Result<(), BlockAnswer>
    requires job { IsJob job.now }
    requires block { BLOCK_ROWS * block + 1 < length job.now.rows.now }
    requires seat { IsSeated job.now.region.now job.now.table.now seat.old }
    ensures seat { StaysSeated job.now.table.now seat.old seat.new }
    ensures accepted { OnOk result (All (IsAccepted job.now.plan.now (header_width job.now.rows.now)) (block_rows job.now.rows.now block)) }
    ensures done { OnOk result (DoesBlock job.now.plan.now job.now.rows.now block (use_in seat.old) (use_in seat.new) kept.old kept.new groups.old groups.new) }
    ensures stopped { IfErr result (StopsAt job.now.plan.now job.now.rows.now block) }
{
    match seat {
        None => groups.add_block(job.rows, job.plan, block),
        Some(seat) => match job.table {
            None => unreachable!(),
            Some(part) => share_block(rt, job, block, part, seat, kept, groups),
        },
    }
}

/// Shares out the groups that are kept, once there are no more blocks. Without a table none are.
pub(crate) fn share_rest<G, R: Wait>(
    rt: &R,
    job: &Job<'_, G>,
    seat: &mut Option<HashSeat>,
    kept: &mut GroupMap,
    groups: &mut GroupMap,
) -> Result<(), AllocError>
    requires seat { IsSeated job.now.region.now job.now.table.now seat.old }
    ensures seat { StaysSeated job.now.table.now seat.old seat.new }
    ensures shared { OnOk result (SharesRest (use_in seat.old) (use_in seat.new) kept.old groups.old groups.new) }
{
    match seat {
        None => Ok(()),
        Some(seat) => match job.table {
            None => unreachable!(),
            Some(part) => share_groups(rt, job.region, part, seat, kept, groups),
        },
    }
}
