//! A worker's loop: it draws blocks until there are no more, and passes on the groups of many at once. Between two
//! blocks one thing holds (`IsAtWork`): the rows of its blocks are those of the batches that it has passed on and of the
//! map that it keeps. Without a table of groups each group of these batches was sent; with one each is in the table or
//! was sent.

ghost use Rattle.std.specs.Prelude.{◌≡◌, ◌<◌, ◌≤◌, IfNone, IfSome, length};
ghost use Rattle.std.specs.FinMap as map;
ghost use Rattle.agg_table.specs.Shown.{IsHashSeat, StaysSeated, use_in};
ghost use Rattle.scan_claim.specs.Shown.{blocks_of, draws_of};
ghost use Rattle.worker_run.specs.Ended.{sends_of};
ghost use Rattle.worker_run.specs.Job.{AreFreshHands, AreHands, IsJob, IsSeated, KeepsHands};
ghost use Rattle.worker_run.specs.Tabled.{EndsWith, IsAtWork};
ghost use Rattle.worker_run.specs.Working.{most_kept};
ghost use Rattle.tuple_codec.specs.declared.write.TheConstants.{TUPLE_BYTES};

use crate::WorkerEnd;
use crate::gate::Gate;
use crate::job::Job;
use crate::notices::give_up;
use crate::passing::{finish, pass_many};
use agg_table::HashSeat;
use mq_handle::Sender;
use par_model::BoundPlan;
use partial_agg::GroupMap;
use scan_claim::ClaimSeat;
use std::alloc::Global;
use std::sync::Wait;

/// How many aggregates a plan has.
fn slots_of(plan: &BoundPlan) -> u32
    ensures items { result ≡ length plan.now.items }
    ensures few { result ≤ 8 }
{
    plan.items().len() as u32
}

/// Draws the next block, adds its rows to the groups, and passes these on if they are many. Answers the worker's end, if
/// this is it.
fn work_next<G: Gate, R: Wait>(
    rt: &R,
    job: &Job<'_, G>,
    claim: &mut ClaimSeat,
    seat: &mut Option<HashSeat>,
    groups: &mut GroupMap,
    errors: &mut Sender,
    tuples: &mut Sender,
) -> Option<WorkerEnd>
    requires job { IsJob job.now }
    requires hands { AreHands job.now claim.old errors.old tuples.old }
    requires seat { IsSeated job.now.region.now job.now.table.now seat.old }
    requires working { IsAtWork job.now.plan.now job.now.rows.now (draws_of claim.old) (use_in seat.old) groups.old errors.old.end tuples.old.end }
    ensures hands { KeepsHands job.now claim.old errors.old tuples.old claim.new errors.new tuples.new }
    ensures seat { StaysSeated job.now.table.now seat.old seat.new }
    ensures working { IfNone result (IsAtWork job.now.plan.now job.now.rows.now (draws_of claim.new) (use_in seat.new) groups.new errors.new.end tuples.new.end) }
    ensures few { IfNone result (map.len groups.new < most_kept) }
    ensures ended { IfSome result (EndsWith job.now.plan.now job.now.rows.now (blocks_of job.now.claims.now) (draws_of claim.new) (use_in seat.new) (sends_of errors.new.end tuples.new.end)) }
{
    let slots = slots_of(job.plan);
    let Some(block) = job.draw(claim) else {
        return Some(finish(
            rt, job.region, job.table, seat, errors, tuples, groups, slots,
        ));
    };
    if let Err(why) = groups.add_block(job.rows, job.plan, block) {
        return Some(give_up(rt, job.region, errors, why));
    }
    if !pass_many(rt, job.region, job.table, seat, tuples, groups, slots) {
        return Some(WorkerEnd::Stopped);
    }
    None
}

/// Draws blocks until the worker's end.
pub(crate) fn work_all<G: Gate, R: Wait>(
    rt: &R,
    alloc: Global,
    job: &Job<'_, G>,
    claim: &mut ClaimSeat,
    seat: &mut Option<HashSeat>,
    errors: &mut Sender,
    tuples: &mut Sender,
) -> WorkerEnd
    requires job { IsJob job.now }
    requires hands { AreFreshHands job.now TUPLE_BYTES claim.old errors.old tuples.old }
    requires seat { IsHashSeat job.now.region.now job.now.number job.now.table.now seat.old }
    ensures hands { KeepsHands job.now claim.old errors.old tuples.old claim.new errors.new tuples.new }
    ensures seat { StaysSeated job.now.table.now seat.old seat.new }
    ensures ended { EndsWith job.now.plan.now job.now.rows.now (blocks_of job.now.claims.now) (draws_of claim.new) (use_in seat.new) (sends_of errors.new.end tuples.new.end) result }
{
    let mut groups = GroupMap::new(alloc);
    for _ in rt.forever() {
        if let Some(end) = work_next(rt, job, claim, seat, &mut groups, errors, tuples) {
            return end;
        }
    }
    unreachable!()
}
