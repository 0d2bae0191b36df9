//! A worker of a merge: it draws blocks, puts their rows in order, and sends the rows' numbers. On its error queue it
//! sends a single notice: `X` as its last act, when all its rows are sent, or `E` with the row that is refused. So a
//! leader that reads `X` knows that the messages before it are all rows of the worker's blocks, in order.

ghost use Rattle.std.specs.Prelude.{◌≡◌, true};
ghost use Rattle.scan_claim.specs.Shown.{Belongs, blocks_of, draws_of, number_of};
ghost use Rattle.worker_run.specs.Ended.{sends_of};
ghost use Rattle.worker_run.specs.Job.{AreFreshHands, IsJob, KeepsHands};
ghost use Rattle.worker_run.specs.Sent.{IsReady};
ghost use Rattle.worker_run.specs.Steps.{KeepsQueues};
ghost use Rattle.gather_merge.specs.Ended.{Finishes, HasEnded};
ghost use Rattle.gather_merge.specs.Order.{columns_at};
ghost use Rattle.gather_merge.specs.RowWords.{AreWords};

use crate::drawing::draw_all;
use crate::sending::send_rows;
use crate::sorting::sort_rows;
use mq_handle::Sender;
use region_words::Region;
use scan_claim::ClaimSeat;
use std::alloc::Global;
use std::sync::Wait;
use worker_run::{Gate, Job, WorkerEnd, end_in_order, give_up};

/// Sends all rows, and then says by an `X` that the work is done.
fn finish<R: Wait>(
    rt: &R,
    r: &Region,
    errors: &mut Sender,
    tuples: &mut Sender,
    list: &[u64],
) -> WorkerEnd
    requires errors_here { errors.old.region ≡ r.now }
    requires errors_ready { IsReady 14 errors.old.end }
    requires here { tuples.old.region ≡ r.now }
    requires ready { IsReady 8 tuples.old.end }
    ensures errors_kept { errors.new ≡ record errors.old { end = errors.new.end } }
    ensures tuples_kept { tuples.new ≡ record tuples.old { end = tuples.new.end } }
    ensures queues { KeepsQueues errors.old.end tuples.old.end errors.new.end tuples.new.end }
    ensures end { Finishes list.now errors.old.end tuples.old.end errors.new.end tuples.new.end result }
{
    if !send_rows(rt, r, tuples, list) {
        return WorkerEnd::Stopped;
    }
    end_in_order(rt, r, errors, tuples)
}

/// Draws blocks until there are no more, puts their rows in order, and sends them.
fn work_rows<G: Gate, R: Wait>(
    rt: &R,
    alloc: Global,
    job: &Job<'_, G>,
    words: &[u64],
    claim: &mut ClaimSeat,
    errors: &mut Sender,
    tuples: &mut Sender,
) -> WorkerEnd
    requires job { IsJob job.now }
    requires words { AreWords (columns_at job.now.plan.now job.now.rows.now) words.now }
    requires hands { AreFreshHands job.now 8 claim.old errors.old tuples.old }
    ensures hands { KeepsHands job.now claim.old errors.old tuples.old claim.new errors.new tuples.new }
    ensures ended { HasEnded job.now.plan.now job.now.rows.now (blocks_of job.now.claims.now) (draws_of claim.new) (sends_of errors.new.end tuples.new.end) result }
{
    let mut list = Vec::new(alloc);
    let mut nobody = Vec::new(alloc);
    if let Some(why) = draw_all(rt, job, claim, &mut nobody, &mut list) {
        return give_up(rt, job.region, errors, why);
    }
    let Ok(()) = sort_rows(alloc, job.rows, job.plan, words, &mut list) else {
        return WorkerEnd::NoMemory;
    };
    finish(rt, job.region, errors, tuples, &list)
}

/// Draws blocks until there are no more, puts their rows in order, and sends them. It passes the gate before each
/// block. Both ends are detached afterwards, the tuple queue's first. It waits while a queue is full, until the
/// receiver takes something or is gone.
pub(crate) fn work<G: Gate, R: Wait>(
    rt: &R,
    alloc: Global,
    job: &Job<'_, G>,
    words: &[u64],
    claim: &mut ClaimSeat,
    errors: &mut Sender,
    tuples: &mut Sender,
) -> WorkerEnd
    requires job { IsJob job.now }
    requires words { AreWords (columns_at job.now.plan.now job.now.rows.now) words.now }
    requires hands { AreFreshHands job.now 8 claim.old errors.old tuples.old }
    ensures seat { Belongs job.now.claims.now claim.new × (number_of claim.new ≡ number_of claim.old) }
    ensures errors_kept { errors.new ≡ record errors.old { end = errors.new.end } }
    ensures tuples_kept { tuples.new ≡ record tuples.old { end = tuples.new.end } }
    ensures errors { (errors.new.end.ring ≡ errors.old.end.ring) × (errors.new.end.gone ≡ true) }
    ensures tuples { (tuples.new.end.ring ≡ tuples.old.end.ring) × (tuples.new.end.gone ≡ true) }
    ensures ended { HasEnded job.now.plan.now job.now.rows.now (blocks_of job.now.claims.now) (draws_of claim.new) (sends_of errors.new.end tuples.new.end) result }
{
    let end = work_rows(rt, alloc, job, words, claim, errors, tuples);
    tuples.detach(job.region);
    errors.detach(job.region);
    end
}
