//! The leader's loop: before each of its own blocks it hears all workers, and when there are no more blocks it hears
//! them until none has more to say. Its map then has the rows of its own blocks and all groups that the workers sent.
//! With a table of groups it has of its own blocks only the groups that found no room there; those that it has not
//! shared out yet are in a second map (`IsKeeping`).

ghost use Rattle.std.specs.Prelude.{◌≡◌, suc, All, length, map};
ghost use Rattle.std.specs.List.{AllZip};
ghost use Rattle.agg_table.specs.Shown.{StaysSeated, use_in};
ghost use Rattle.scan_claim.specs.Shown.{Belongs, blocks_of, callers_of, draws_of, number_of};
ghost use Rattle.parallel_ctx.specs.Accounts.{heard};
ghost use Rattle.parallel_ctx.specs.Tokens.{SameQueues};
ghost use Rattle.worker_run.specs.Job.{IsJob, IsSeated};
ghost use Rattle.gather_run.specs.Leading.{DrawsInOrder, IsKeeping, IsLeading, Led};
ghost use Rattle.gather_run.specs.Looks.{IsOpen, tuples_of};
ghost use Rattle.gather_run.specs.BlockSteps.{Steps, StepsAlone};

use crate::GatherAnswer;
use crate::messages::{Hearing, hear_all, hear_out};
use crate::sharing::{do_block, share_rest};
use crate::verdicts::answer_of;
use parallel_ctx::{HashSeat, LeaderEnds};
use partial_agg::GroupMap;
use scan_claim::ClaimSeat;
use std::alloc::Global;
use std::sync::Wait;
use worker_run::{Gate, Job};

/// What came of one of the leader's blocks.
#[derive(Clone, Copy)]
enum Step {
    /// A block was done.
    Next,
    /// There are no more blocks.
    NoMore,
    /// There is no answer, for this reason.
    Failed(GatherAnswer),
}

/// Draws a block and does it. If there are no more, it shares out the groups that are kept.
fn lead_block<G: Gate, R: Wait>(
    rt: &R,
    job: &Job<'_, G>,
    claim: &mut ClaimSeat,
    seat: &mut Option<HashSeat>,
    kept: &mut GroupMap,
    groups: &mut GroupMap,
) -> Step
    requires job { IsJob job.now }
    requires claim { Belongs job.now.claims.now claim.old × DrawsInOrder job.now.claims.now claim.old }
    requires seat { IsSeated job.now.region.now job.now.table.now seat.old }
    ensures claim { Belongs job.now.claims.now claim.new × (number_of claim.new ≡ number_of claim.old) }
    ensures in_order { DrawsInOrder job.now.claims.now claim.new }
    ensures seat { StaysSeated job.now.table.now seat.old seat.new }
    ensures step { StepsAlone job.now.plan.now job.now.rows.now job.now.claims.now (draws_of claim.old) (draws_of claim.new) (use_in seat.old) (use_in seat.new) kept.old kept.new groups.old groups.new result }
{
    let Some(block) = job.draw(claim) else {
        if share_rest(rt, job, seat, kept, groups).is_err() {
            return Step::Failed(GatherAnswer::Memory);
        }
        return Step::NoMore;
    };
    if let Err(why) = do_block(rt, job, block, seat, kept, groups) {
        return Step::Failed(answer_of(why));
    }
    Step::Next
}

/// Hears all workers, and then does one of its own blocks.
fn lead_next<G: Gate, R: Wait>(
    rt: &R,
    job: &Job<'_, G>,
    claim: &mut ClaimSeat,
    seat: &mut Option<HashSeat>,
    queues: &mut [LeaderEnds],
    kept: &mut GroupMap,
    groups: &mut GroupMap,
) -> Step
    requires job { IsJob job.now }
    requires claim { Belongs job.now.claims.now claim.old × DrawsInOrder job.now.claims.now claim.old }
    requires seat { IsSeated job.now.region.now job.now.table.now seat.old }
    requires queues { All (IsOpen job.now.region.now) queues.old }
    requires leading { IsKeeping job.now.plan.now job.now.rows.now (draws_of claim.old) (use_in seat.old) (map tuples_of queues.old) kept.old groups.old }
    ensures claim { Belongs job.now.claims.now claim.new × (number_of claim.new ≡ number_of claim.old) }
    ensures in_order { DrawsInOrder job.now.claims.now claim.new }
    ensures seat { StaysSeated job.now.table.now seat.old seat.new }
    ensures same { AllZip SameQueues queues.old queues.new }
    ensures open { All (IsOpen job.now.region.now) queues.new }
    ensures step { Steps job.now.plan.now job.now.rows.now job.now.claims.now (draws_of claim.new) (use_in seat.new) queues.new kept.new groups.new result }
{
    match hear_all(rt, job.region, queues, groups) {
        Hearing::More { took: _ } => {}
        Hearing::Ended => {}
        Hearing::NoRoom => return Step::Failed(GatherAnswer::Memory),
        Hearing::Names { row, cause, item } => {
            return Step::Failed(GatherAnswer::Row { row, cause, item });
        }
    }
    lead_block(rt, job, claim, seat, kept, groups)
}

/// Does blocks until there are no more, and then hears the workers to the end. If there is no answer it says why, at
/// once. With a table it keeps the groups of its blocks in a second map until it shares them out.
pub(crate) fn lead_all<G: Gate, R: Wait>(
    rt: &R,
    alloc: Global,
    job: &Job<'_, G>,
    claim: &mut ClaimSeat,
    seat: &mut Option<HashSeat>,
    queues: &mut [LeaderEnds],
    groups: &mut GroupMap,
) -> Option<GatherAnswer>
    requires job { IsJob job.now }
    requires claim { Belongs job.now.claims.now claim.old × DrawsInOrder job.now.claims.now claim.old }
    requires callers { callers_of job.now.claims.now ≡ suc (length queues.old) }
    requires seat { IsSeated job.now.region.now job.now.table.now seat.old }
    requires queues { All (IsOpen job.now.region.now) queues.old }
    requires leading { IsLeading job.now.plan.now job.now.rows.now (draws_of claim.old) (use_in seat.old) (map tuples_of queues.old) groups.old }
    ensures claim { Belongs job.now.claims.now claim.new × (number_of claim.new ≡ number_of claim.old) }
    ensures seat { StaysSeated job.now.table.now seat.old seat.new }
    ensures same { AllZip SameQueues queues.old queues.new }
    ensures led { Led job.now.plan.now job.now.rows.now (blocks_of job.now.claims.now) (draws_of claim.new) (use_in seat.new) (map heard queues.new) groups.new result }
{
    let mut kept = GroupMap::new(alloc);
    for _ in rt.forever() {
        match lead_next(rt, job, claim, seat, queues, &mut kept, groups) {
            Step::Next => {}
            Step::NoMore => return hear_out(rt, job.region, queues, groups),
            Step::Failed(why) => return Some(why),
        }
    }
    unreachable!()
}
