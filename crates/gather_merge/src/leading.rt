//! The leader of a merge: it draws blocks as the workers do and sorts their rows, takes the workers' rows, and merges
//! all of these lists, each of which is in order.

ghost use Rattle.std.specs.Prelude.{◌≡◌, [], suc, All, length, map};
ghost use Rattle.std.specs.List.{AllZip};
ghost use Rattle.scan_claim.specs.Shown.{Belongs, blocks_of, callers_of, draws_of, number_of};
ghost use Rattle.parallel_ctx.specs.Accounts.{heard};
ghost use Rattle.parallel_ctx.specs.Tokens.{SameQueues};
ghost use Rattle.worker_run.specs.Job.{IsJob};
ghost use Rattle.gather_merge.specs.Hearing.{AreOpen, HasGivenNoRow};
ghost use Rattle.gather_merge.specs.Leading.{Led, Merges};
ghost use Rattle.gather_merge.specs.Order.{columns_at};
ghost use Rattle.gather_merge.specs.RowWords.{AreWords};

use crate::MergeAnswer;
use crate::drawing::draw_all;
use crate::hearing::hear_all;
use crate::sorting::{merge_rows, sort_rows};
use crate::verdicts::answer_of;
use csv_rows::RowStore;
use par_model::BoundPlan;
use parallel_ctx::LeaderEnds;
use region_words::Region;
use scan_claim::ClaimSeat;
use std::alloc::Global;
use std::sync::Wait;
use worker_run::{Gate, Job};

/// Puts the workers' rows after the leader's own, which are in order, and merges them. It says why there is no order,
/// if there is none.
fn merge_all<R: Wait>(
    rt: &R,
    alloc: Global,
    r: &Region,
    plan: &BoundPlan,
    rows: &RowStore,
    words: &[u64],
    queues: &mut [LeaderEnds],
    list: &mut Vec<u64>,
) -> Option<MergeAnswer>
    requires words { AreWords (columns_at plan.now rows.now) words.now }
    requires open { AreOpen r.now queues.old }
    requires unheard { All HasGivenNoRow queues.old }
    ensures same { AllZip SameQueues queues.old queues.new }
    ensures merged { Merges plan.now rows.now list.old.items list.new.items queues.new result }
{
    let failure = hear_all(rt, r, queues, list);
    if failure.is_some() {
        return failure;
    }
    match merge_rows(alloc, rows, plan, words, list) {
        Ok(()) => None,
        Err(_) => Some(MergeAnswer::Memory),
    }
}

/// Draws blocks until there are no more, and merges. If there is no order it says why, at once.
pub(crate) fn lead_all<G: Gate, R: Wait>(
    rt: &R,
    alloc: Global,
    job: &Job<'_, G>,
    words: &[u64],
    claim: &mut ClaimSeat,
    queues: &mut [LeaderEnds],
    order: &mut Vec<u64>,
) -> Option<MergeAnswer>
    requires job { IsJob job.now }
    requires words { AreWords (columns_at job.now.plan.now job.now.rows.now) words.now }
    requires seat { Belongs job.now.claims.now claim.old × (draws_of claim.old ≡ []) }
    requires callers { callers_of job.now.claims.now ≡ suc (length queues.old) }
    requires open { AreOpen job.now.region.now queues.old }
    requires unheard { All HasGivenNoRow queues.old }
    ensures seat { Belongs job.now.claims.now claim.new × (number_of claim.new ≡ number_of claim.old) }
    ensures same { AllZip SameQueues queues.old queues.new }
    ensures led { Led job.now.plan.now job.now.rows.now (blocks_of job.now.claims.now) (draws_of claim.new) (map heard queues.new) order.new.items result }
{
    let mut list = Vec::new(alloc);
    if let Some(why) = draw_all(rt, job, claim, queues, &mut list) {
        return Some(answer_of(why));
    }
    let Ok(()) = sort_rows(alloc, job.rows, job.plan, words, &mut list) else {
        return Some(MergeAnswer::Memory);
    };
    if queues.is_empty() {
        *order = list;
        return None;
    }
    let failure = merge_all(
        rt, alloc, job.region, job.plan, job.rows, words, queues, &mut list,
    );
    *order = list;
    failure
}
