//! A worker of a query, next to the leader and the other workers.
//!
//! A worker draws blocks of rows until there are no more, adds the rows of each to a map of groups, and passes these on:
//! all of them if they are many, and the rest at the end. They go as tuples on its tuple queue, or into the table of
//! groups if there is one. On its error queue it sends a single notice: `X` as its last act, when all its tuples are
//! sent, or `E` with the row that is refused. So a leader that reads `X` knows that the tuples before it stand for all
//! rows of the worker's blocks, but for the groups that it put into the table.
//!
//! What leaders and other workers share with it is here too: what a participant works on and how it draws blocks
//! (`Job`), what is said and heard by notices, and what the workers' ends mean.

#![tactic(auto)]

ghost use Rattle.std.specs.Prelude.{◌≡◌, [], true};
ghost use Rattle.agg_table.specs.Shown.{IsHashSeat, StaysSeated, use_in};
ghost use Rattle.par_model.specs.Columns.{HasColumns};
ghost use Rattle.par_model.specs.Plan.{Plan};
ghost use Rattle.partial_agg.specs.Rows.{header_width};
ghost use Rattle.scan_claim.specs.Shown.{Belongs, blocks_of, draws_of, number_of};
ghost use Rattle.row_blocks.specs.Blocks.{AreBlocks};
ghost use Rattle.plan_descriptor.specs.Planned.{HasPlan};
ghost use Rattle.worker_run.specs.Sent.{IsFreshQueue};
ghost use Rattle.worker_run.specs.Ended.{sends_of};
ghost use Rattle.worker_run.specs.Tabled.{EndsWith};
ghost use Rattle.tuple_codec.specs.declared.write.TheConstants.{TUPLE_BYTES};
ghost use Rattle.error_queue.specs.declared.TheConstants.{MESSAGE_BYTES};

use agg_table::{HashPart, HashSeat};
use csv_rows::RowStore;
use mq_handle::Sender;
use plan_descriptor::plan_in;
use region_words::Region;
use scan_claim::{ClaimSeat, Claims};
use shm_toc::FrozenToc;
use std::alloc::Global;
use std::sync::Wait;
use worker::work_all;

mod gate;
mod job;
mod notices;
mod passing;
mod sending;
mod tabled;
mod verdicts;
mod worker;

pub use gate::{Gate, OpenGate};
pub use job::Job;
pub use notices::{News, end_in_order, give_up, hear_last, hear_notices};
pub use passing::MOST_KEPT;
pub use verdicts::verdict_with;

/// How a worker ended.
#[derive(Debug, Clone, Copy, PartialEq, Eq)]
pub enum WorkerEnd {
    /// There were no more blocks; all its tuples were sent, and then `X`.
    Finished,
    /// A send found that its receiver is gone.
    Stopped,
    /// This row of its blocks is refused, for this cause; `E` names it, unless the receiver was gone.
    Refused { row: u64, cause: u8, item: u32 },
    /// There was no memory for its groups.
    NoMemory,
}

/// Works by the plan in the table of contents until there are no more blocks, and returns how it ended. It passes the
/// gate before each block, as participant `number`. It keeps the groups of its blocks until they are 1,048,576 or there
/// are no more blocks. If there is a table of groups, it then puts them there, one call each, and a group for which there
/// is no room goes as a tuple. Tuples are sent without flush, the notice with it; both ends are detached afterwards, the
/// tuple queue's first. It waits while a queue is full, until the receiver takes something or is gone. Time is that of
/// `add_block` over its blocks, and of `encode` or of `HashPart::put` over its groups; memory is that of a map of the
/// groups of its rows, 1,048,831 at most.
pub fn work<G: Gate, R: Wait>(
    rt: &R,
    alloc: Global,
    r: &Region,
    number: u32,
    toc: &mut FrozenToc,
    claims: &Claims,
    claim: &mut ClaimSeat,
    part: &Option<HashPart>,
    seat: &mut Option<HashSeat>,
    rows: &RowStore,
    errors: &mut Sender,
    tuples: &mut Sender,
    gate: &G,
) -> WorkerEnd
    requires toc { toc.old.region ≡ r.now }
    requires plan { (plan : Plan) × HasPlan toc.old.words plan × HasColumns plan (header_width rows.now) }
    requires seat { Belongs claims.now claim.old }
    requires fresh { draws_of claim.old ≡ [] }
    requires blocks { AreBlocks rows.now (blocks_of claims.now) }
    requires hash { IsHashSeat r.now number part.now seat.old }
    requires errors_here { errors.old.region ≡ r.now }
    requires here { tuples.old.region ≡ r.now }
    requires errors_fresh { IsFreshQueue MESSAGE_BYTES errors.old.end }
    requires tuples_fresh { IsFreshQueue TUPLE_BYTES tuples.old.end }
    ensures toc { toc.new ≡ toc.old }
    ensures seat { Belongs claims.now claim.new × (number_of claim.new ≡ number_of claim.old) }
    ensures hash { StaysSeated part.now seat.old seat.new }
    ensures errors_kept { errors.new ≡ record errors.old { end = errors.new.end } }
    ensures tuples_kept { tuples.new ≡ record tuples.old { end = tuples.new.end } }
    ensures errors { (errors.new.end.ring ≡ errors.old.end.ring) × (errors.new.end.gone ≡ true) }
    ensures tuples { (tuples.new.end.ring ≡ tuples.old.end.ring) × (tuples.new.end.gone ≡ true) }
    ensures ended { (plan : Plan) → HasPlan toc.old.words plan → EndsWith plan rows.now (blocks_of claims.now) (draws_of claim.new) (use_in seat.new) (sends_of errors.new.end tuples.new.end) result }
{
    let plan = plan_in(toc, r);
    let job = Job {
        region: r,
        rows,
        plan: &plan,
        claims,
        table: part,
        gate,
        number,
    };
    let end = work_all(rt, alloc, &job, claim, seat, errors, tuples);
    tuples.detach(r);
    errors.detach(r);
    end
}
