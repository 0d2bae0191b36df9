//! What each participant does at first: it draws blocks until there are no more, and keeps the numbers of their rows.
//! The leader hears the workers' notices before each of its blocks.

ghost use Rattle.std.specs.Prelude.{◌≡◌, ◌<◌, ◌+◌, ◌*◌, ◌++◌, OnOk, IfErr, All, length};
ghost use Rattle.std.specs.List.{AllZip};
ghost use Rattle.par_model.specs.Columns.{HasColumns};
ghost use Rattle.partial_agg.specs.Rows.{IsAccepted, header_width};
ghost use Rattle.row_blocks.specs.Blocks.{block_numbers, block_rows};
ghost use Rattle.scan_claim.specs.Shown.{Belongs, number_of};
ghost use Rattle.parallel_ctx.specs.Tokens.{SameQueues};
ghost use Rattle.worker_run.specs.Job.{IsJob};
ghost use Rattle.gather_merge.specs.Drawn.{Draws, DrawsNext, Drew, HasDrawn, Stops};
ghost use Rattle.gather_merge.specs.Hearing.{AreOpen, HasGivenNoRow};

use crate::hearing::hear_early;
use csv_rows::RowStore;
use par_model::{BoundPlan, Refusal};
use parallel_ctx::LeaderEnds;
use partial_agg::{BlockAnswer, refusal};
use row_blocks::BLOCK_ROWS;
use scan_claim::ClaimSeat;
use std::sync::Wait;
use worker_run::{Gate, Job};

/// Puts the numbers of a block's rows after the others. A refused row stops it, the first of the block.
fn take_block(
    rows: &RowStore,
    plan: &BoundPlan,
    block: u64,
    list: &mut Vec<u64>,
) -> Result<(), BlockAnswer>
    requires block { BLOCK_ROWS * block + 1 < length rows.now }
    requires columns { HasColumns plan.now (header_width rows.now) }
    ensures taken { OnOk result (list.new.items ≡ list.old.items ++ block_numbers rows.now block) }
    ensures accepted { OnOk result (All (IsAccepted plan.now (header_width rows.now)) (block_rows rows.now block)) }
    ensures stopped { IfErr result (λ why. Stops plan.now rows.now block why) }
{
    let last = rows.count();
    let first = BLOCK_ROWS * block + 1;
    let count = (last - first + 1).min(BLOCK_ROWS);
    for at in 0..count {
        if let Some(Refusal { cause, item }) = refusal(rows, first + at, plan) {
            return Err(BlockAnswer::Row {
                row: first + at,
                cause,
                item,
            });
        }
        if list.push(first + at).is_err() {
            return Err(BlockAnswer::Memory);
        }
    }
    Ok(())
}

/// What came of one block.
pub(crate) enum Step {
    /// The numbers of its rows were taken.
    Next,
    /// There are no more blocks.
    NoMore,
    /// It was not taken, for this reason.
    Stopped(BlockAnswer),
}

/// Draws a block and takes the numbers of its rows.
fn draw_block<G: Gate>(job: &Job<'_, G>, claim: &mut ClaimSeat, list: &mut Vec<u64>) -> Step
    requires job { IsJob job.now }
    requires seat { Belongs job.now.claims.now claim.old }
    requires drawn { HasDrawn job.now.plan.now job.now.rows.now job.now.claims.now claim.old list.old.items }
    ensures seat { Belongs job.now.claims.now claim.new × (number_of claim.new ≡ number_of claim.old) }
    ensures step { Draws job.now.plan.now job.now.rows.now job.now.claims.now claim.new list.new.items result }
{
    let Some(block) = job.draw(claim) else {
        return Step::NoMore;
    };
    match take_block(job.rows, job.plan, block, list) {
        Ok(()) => Step::Next,
        Err(why) => Step::Stopped(why),
    }
}

/// Hears the notices of the workers that there are, and then draws a block: so a row that a worker refused stops the
/// leader at its next block. A worker hears nobody.
fn draw_next<G: Gate, R: Wait>(
    rt: &R,
    job: &Job<'_, G>,
    claim: &mut ClaimSeat,
    queues: &mut [LeaderEnds],
    list: &mut Vec<u64>,
) -> Step
    requires job { IsJob job.now }
    requires seat { Belongs job.now.claims.now claim.old }
    requires drawn { HasDrawn job.now.plan.now job.now.rows.now job.now.claims.now claim.old list.old.items }
    requires open { AreOpen job.now.region.now queues.old }
    requires unheard { All HasGivenNoRow queues.old }
    ensures seat { Belongs job.now.claims.now claim.new × (number_of claim.new ≡ number_of claim.old) }
    ensures same { AllZip SameQueues queues.old queues.new }
    ensures open { AreOpen job.now.region.now queues.new }
    ensures unheard { All HasGivenNoRow queues.new }
    ensures step { DrawsNext job.now.plan.now job.now.rows.now job.now.claims.now claim.new queues.new list.new.items result }
{
    if let Some(why) = hear_early(rt, job.region, queues) {
        return Step::Stopped(why);
    }
    draw_block(job, claim, list)
}

/// Draws blocks until there are no more, and takes the numbers of their rows. It answers why it stopped, if it did not
/// get to the end.
pub(crate) fn draw_all<G: Gate, R: Wait>(
    rt: &R,
    job: &Job<'_, G>,
    claim: &mut ClaimSeat,
    queues: &mut [LeaderEnds],
    list: &mut Vec<u64>,
) -> Option<BlockAnswer>
    requires job { IsJob job.now }
    requires seat { Belongs job.now.claims.now claim.old }
    requires drawn { HasDrawn job.now.plan.now job.now.rows.now job.now.claims.now claim.old list.old.items }
    requires open { AreOpen job.now.region.now queues.old }
    requires unheard { All HasGivenNoRow queues.old }
    ensures seat { Belongs job.now.claims.now claim.new × (number_of claim.new ≡ number_of claim.old) }
    ensures same { AllZip SameQueues queues.old queues.new }
    ensures open { AreOpen job.now.region.now queues.new }
    ensures unheard { All HasGivenNoRow queues.new }
    ensures drawn { Drew job.now.plan.now job.now.rows.now job.now.claims.now claim.new queues.new list.new.items result }
{
    for _ in rt.forever() {
        match draw_next(rt, job, claim, queues, list) {
            Step::Next => {}
            Step::NoMore => return None,
            Step::Stopped(why) => return Some(why),
        }
    }
    unreachable!()
}
