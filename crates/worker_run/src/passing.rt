//! What a worker does with the groups of its blocks. It keeps them over many blocks, and passes all of them on when they
//! are many, and at the end: with a table of groups it gives them out, and without one it sends them. So a key that comes
//! in many blocks costs one call of the table, or one tuple, for all of them.

ghost use Rattle.std.specs.Prelude.{◌≡◌, ◌≤◌, MatchBool};
ghost use Rattle.std.specs.FinMap as map;
ghost use Rattle.std.specs.List.{AllByRecursion};
ghost use Rattle.agg_table.specs.Shown.{StaysSeated, use_in};
ghost use Rattle.worker_run.specs.Job.{IsSeated};
ghost use Rattle.worker_run.specs.Sent.{HasZeros, IsReady, StoppedSending};
ghost use Rattle.worker_run.specs.Steps.{Finishes, KeepsQueues};
ghost use Rattle.worker_run.specs.Tabled.{PassesMany, PassesOn};
ghost use Rattle.tuple_codec.specs.declared.write.TheConstants.{TUPLE_BYTES};
ghost use Rattle.error_queue.specs.declared.TheConstants.{MESSAGE_BYTES};

use crate::WorkerEnd;
use crate::notices::end_in_order;
use crate::sending::send_groups;
use crate::tabled::give_groups;
use agg_table::{HashPart, HashSeat};
use mq_handle::Sender;
use partial_agg::GroupMap;
use region_words::Region;
use std::sync::Wait;

/// A participant passes its groups on once it keeps this many after a block.
pub const MOST_KEPT: usize = 1_048_576;

/// Passes all groups on: gives them out if there is a table, and else sends them. Answers false if the receiver is gone.
fn pass_all<R: Wait>(
    rt: &R,
    r: &Region,
    part: &Option<HashPart>,
    seat: &mut Option<HashSeat>,
    tuples: &mut Sender,
    groups: &mut GroupMap,
    slots: u32,
) -> bool
    requires seat { IsSeated r.now part.now seat.old }
    requires here { tuples.old.region ≡ r.now }
    requires ready { IsReady TUPLE_BYTES tuples.old.end }
    requires few { slots ≤ 8 }
    requires zeros { AllByRecursion (HasZeros slots) (map.entries groups.old) }
    ensures seat { StaysSeated part.now seat.old seat.new }
    ensures kept { tuples.new ≡ record tuples.old { end = tuples.new.end } }
    ensures passed { MatchBool result (PassesOn slots (use_in seat.old) (use_in seat.new) groups.old groups.new tuples.old.end tuples.new.end) (StoppedSending slots tuples.old.end tuples.new.end) }
{
    match seat {
        None => send_groups(rt, r, tuples, groups, slots),
        Some(seat) => match part {
            None => unreachable!(),
            Some(part) => give_groups(rt, r, part, seat, tuples, groups, slots),
        },
    }
}

/// Passes all groups on if they are many. Answers false if the receiver is gone.
pub(crate) fn pass_many<R: Wait>(
    rt: &R,
    r: &Region,
    part: &Option<HashPart>,
    seat: &mut Option<HashSeat>,
    tuples: &mut Sender,
    groups: &mut GroupMap,
    slots: u32,
) -> bool
    requires seat { IsSeated r.now part.now seat.old }
    requires here { tuples.old.region ≡ r.now }
    requires ready { IsReady TUPLE_BYTES tuples.old.end }
    requires few { slots ≤ 8 }
    requires zeros { AllByRecursion (HasZeros slots) (map.entries groups.old) }
    ensures seat { StaysSeated part.now seat.old seat.new }
    ensures kept { tuples.new ≡ record tuples.old { end = tuples.new.end } }
    ensures passed { MatchBool result (PassesMany slots (use_in seat.old) (use_in seat.new) groups.old groups.new tuples.old.end tuples.new.end) (StoppedSending slots tuples.old.end tuples.new.end) }
{
    if groups.len() < MOST_KEPT {
        return true;
    }
    pass_all(rt, r, part, seat, tuples, groups, slots)
}

/// Passes on the groups that are left, and then says by an `X` that the work is done.
pub(crate) fn finish<R: Wait>(
    rt: &R,
    r: &Region,
    part: &Option<HashPart>,
    seat: &mut Option<HashSeat>,
    errors: &mut Sender,
    tuples: &mut Sender,
    groups: &mut GroupMap,
    slots: u32,
) -> WorkerEnd
    requires seat { IsSeated r.now part.now seat.old }
    requires errors_here { errors.old.region ≡ r.now }
    requires errors_ready { IsReady MESSAGE_BYTES errors.old.end }
    requires here { tuples.old.region ≡ r.now }
    requires ready { IsReady TUPLE_BYTES tuples.old.end }
    requires few { slots ≤ 8 }
    requires zeros { AllByRecursion (HasZeros slots) (map.entries groups.old) }
    ensures seat { StaysSeated part.now seat.old seat.new }
    ensures errors_kept { errors.new ≡ record errors.old { end = errors.new.end } }
    ensures tuples_kept { tuples.new ≡ record tuples.old { end = tuples.new.end } }
    ensures queues { KeepsQueues errors.old.end tuples.old.end errors.new.end tuples.new.end }
    ensures end { Finishes slots (use_in seat.old) (use_in seat.new) groups.old errors.old.end tuples.old.end errors.new.end tuples.new.end result }
{
    if !pass_all(rt, r, part, seat, tuples, groups, slots) {
        return WorkerEnd::Stopped;
    }
    end_in_order(rt, r, errors, tuples)
}
