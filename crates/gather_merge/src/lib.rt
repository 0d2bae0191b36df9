//! The rows of a table in order, by sorted workers, in the manner of nodeGatherMerge.c: each participant sorts the rows
//! of the blocks that it draws, and the leader merges the workers' streams with its own.
//!
//! Rows are known by their numbers, and compare by their columns and then by these numbers, so no two are alike and
//! there is one order of all rows (`IsOrder`), no matter which participant drew which block. Each row has a word of the
//! first bytes of its first column, and if two words tell the rows apart nothing else is looked at. That a merge of
//! sorted streams is this order is a fact about plain lists (`merges_all`); here it is shown that a run is one of those
//! that the fact speaks of. A worker that ended early has left rows out, so the answer is then a refused row or a lack
//! of memory, and no order.

#![tactic(auto)]

ghost use Rattle.std.specs.Prelude.{◌≡◌, ◌≤◌, IfErr, IfOk, OnOk, All, drop, length};
ghost use Rattle.par_model.specs.Columns.{HasColumns};
ghost use Rattle.partial_agg.specs.Rows.{IsAccepted, header_width};
ghost use Rattle.gather_merge.specs.Answers.{IsCause, IsFirstCause, OrdersRows};
ghost use Rattle.gather_merge.specs.Order.{IsOrder};
ghost use Rattle.gather_merge.specs.Used.{IsUsed};

use csv_rows::RowStore;
use par_model::BoundPlan;
use parallel_ctx::{Context, Finished};
use roles::{Leader, Team};
use row_blocks::count_blocks;
use std::alloc::Global;
use std::sync::Wait;
use std::thread::Threads;
use verdicts::{answer_of, verdict};
use words::first_words;
use worker_run::{Gate, WorkerEnd};

mod comparing;
mod drawing;
mod hearing;
mod laws;
mod leading;
mod order;
mod roles;
mod sending;
mod sorting;
mod verdicts;
mod words;
mod working;

pub use laws::{merges_all, one_order};
pub use order::Order;

/// Why there is no order.
#[derive(Debug, Clone, Copy, PartialEq, Eq)]
pub enum MergeAnswer {
    /// This row is refused, for this cause: [`par_model::WIDTH_CAUSE`] or [`par_model::KEY_CAUSE`].
    Row { row: u64, cause: u8 },
    /// There was no memory.
    Memory,
}

/// What a merge comes to.
#[derive(Drop)]
pub struct Merged {
    /// The numbers of all rows, in order.
    pub order: Order,
    /// What the participants brought home.
    pub finished: Finished<WorkerEnd>,
}

/// Puts the rows in the order of the plan's columns, as bytes, and of their numbers. It runs in the caller's thread, as
/// participant 0, with this many workers besides it; each participant passes the gate before each of its blocks. Of
/// several refused rows any may be named, unless there are no workers. A refused row that the leader met or read goes
/// before a worker's lack of memory; on either, and if it has no memory itself, the leader leaves its queues at once,
/// which stops the workers. Fewer workers than asked for may start, also none.
///
/// The blocks of 256 rows and their sorting are shared out. Each row of a worker is one message. The leader takes the
/// messages off, worker by worker, puts these streams after its own rows, and merges all by a sort that keeps long
/// runs: if the first words tell most rows apart that is a few comparisons of words for each row. A row is looked up
/// once for each seven bytes of its columns by which it has to be told apart from others. Memory is 82 KB for each
/// worker, 8 bytes a row for the words, 8 for the participants' lists, 8 for the order, and 32 more while all is
/// merged.
pub fn merge<G: Gate + Sync, R: Threads + Wait + Sync>(
    rt: &R,
    alloc: Global,
    rows: &RowStore,
    plan: &BoundPlan,
    workers: u32,
    gate: &G,
) -> Result<Merged, MergeAnswer>
    requires plan { OrdersRows plan.now }
    requires columns { HasColumns plan.now (header_width rows.now) }
    requires workers { workers ≤ 64 }
    ensures accepted { OnOk result (All (IsAccepted plan.now (header_width rows.now)) (drop 1 rows.now)) }
    ensures order { IfOk result (λ m. IsOrder plan.now rows.now m.order) }
    ensures row { IfErr result (λ why. IsCause plan.now rows.now why) }
    ensures first { workers ≡ 0 → IfErr result (λ why. IsFirstCause plan.now rows.now why) }
    ensures used { IfOk result (λ m. IsUsed plan.now rows.now workers m.finished) }
{
    let Ok(context) = Context::build(rt, alloc, plan, workers, 0, count_blocks(rows)) else {
        return Err(MergeAnswer::Memory);
    };
    let Ok(all_words) = first_words(rt, alloc, rows, plan, workers as usize + 1) else {
        return Err(MergeAnswer::Memory);
    };
    let words = all_words.as_slice();
    let team = Team {
        alloc,
        rows,
        words,
        gate,
    };
    let mut leader = Leader {
        alloc,
        rows,
        words,
        gate,
        order: Vec::new(alloc),
        failure: None,
    };
    let Ok(finished) = context.run(rt, alloc, &team, &mut leader) else {
        return Err(MergeAnswer::Memory);
    };
    let (list, failure) = leader.into_order();
    if let Some(why) = failure {
        return Err(why);
    }
    if let Some(why) = verdict(&finished.workers) {
        return Err(answer_of(why));
    }
    Ok(Merged {
        order: Order::of(list),
        finished,
    })
}
