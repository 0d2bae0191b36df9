//! Where the leader's rows come from, besides its own: the workers' queues. Worker by worker it takes all rows of the
//! tuple queue, and then the last notice. A worker whose turn has not come waits with a full queue.

ghost use Rattle.std.specs.Prelude.{◌≡◌, All, Any, IfSome, false};
ghost use Rattle.std.specs.List.{AllZip};
ghost use Rattle.parallel_ctx.specs.Tokens.{SameQueues};
ghost use Rattle.gather_merge.specs.Hearing.{AreOpen, HasGivenNoRow, Hears, HearsAll, HearsEnd, HearsRows, IsNamedIn, IsOpen};
ghost use Rattle.gather_merge.specs.Sent.{row_of};

use crate::MergeAnswer;
use mq_handle::{ReceiveDone, Receiver};
use parallel_ctx::LeaderEnds;
use partial_agg::BlockAnswer;
use region_words::Region;
use std::sync::Wait;
use worker_run::{News, hear_last, hear_notices};

/// What came of asking a worker for its next row.
#[derive(Clone, Copy)]
enum Next {
    /// This row.
    Row(u64),
    /// There are no more.
    Over,
    /// A notice names this row, which is refused.
    Names { row: u64, cause: u8, item: u32 },
    /// A message that is no row number.
    Lost,
}

/// The number of a row that a message is.
fn read_row(message: &[u8]) -> Option<u64>
    ensures { IfSome result (λ row. row ≡ row_of message.now) }
{
    match *message {
        [a, b, c, d, e, f, g, h] => Some(u64::from_le_bytes([a, b, c, d, e, f, g, h])),
        _ => None,
    }
}

/// Hears the last notice of a worker that sends no more rows, and waits for it. One that ended early has sent none, or
/// names a refused row.
fn hear_end<R: Wait>(rt: &R, r: &Region, errors: &mut Receiver) -> Next
    requires here { errors.old.region ≡ r.now }
    requires stays { errors.old.end.gone ≡ false }
    ensures region { errors.new.region ≡ errors.old.region }
    ensures ring { errors.new.end.ring ≡ errors.old.end.ring }
    ensures stays { errors.new.end.gone ≡ false }
    ensures heard { HearsEnd errors.new.end result }
{
    match hear_last(rt, r, errors) {
        News::Refused { row, cause, item } => Next::Names { row, cause, item },
        News::Over => Next::Over,
        News::Nothing => unreachable!(),
    }
}

/// Takes the next row of a worker, and waits for it.
fn hear<R: Wait>(rt: &R, r: &Region, queue: &mut LeaderEnds) -> Next
    requires { IsOpen r.now queue.old }
    ensures same { SameQueues queue.old queue.new }
    ensures open { IsOpen r.now queue.new }
    ensures heard { Hears queue.old queue.new result }
{
    match queue.tuples.receive(rt, r) {
        ReceiveDone::Detached => hear_end(rt, r, &mut queue.errors),
        ReceiveDone::Message => match read_row(queue.tuples.message()) {
            Some(row) => Next::Row(row),
            None => Next::Lost,
        },
    }
}

/// Hears the notices of a worker that are there.
fn hear_notice<R: Wait>(rt: &R, r: &Region, queue: &mut LeaderEnds) -> Option<BlockAnswer>
    requires open { IsOpen r.now queue.old }
    requires unheard { HasGivenNoRow queue.old }
    ensures same { SameQueues queue.old queue.new }
    ensures open { IsOpen r.now queue.new }
    ensures unheard { HasGivenNoRow queue.new }
    ensures named { IfSome result (IsNamedIn queue.new) }
{
    match hear_notices(rt, r, &mut queue.errors) {
        News::Refused { row, cause, item } => Some(BlockAnswer::Row { row, cause, item }),
        News::Over => None,
        News::Nothing => None,
    }
}

/// Hears the notices of all workers that are there, up to one that names a refused row. It waits for none.
pub(crate) fn hear_early<R: Wait>(
    rt: &R,
    r: &Region,
    queues: &mut [LeaderEnds],
) -> Option<BlockAnswer>
    requires open { AreOpen r.now queues.old }
    requires unheard { All HasGivenNoRow queues.old }
    ensures same { AllZip SameQueues queues.old queues.new }
    ensures open { AreOpen r.now queues.new }
    ensures unheard { All HasGivenNoRow queues.new }
    ensures named { IfSome result (λ why. Any (λ queue. IsNamedIn queue why) queues.new) }
{
    for at in 0..queues.len() {
        let named = hear_notice(rt, r, &mut queues[at]);
        if named.is_some() {
            return named;
        }
    }
    None
}

/// Puts the rows of a worker after the list, up to its last, and waits for them. It says why there is no order, if it
/// learns that.
fn hear_rows<R: Wait>(
    rt: &R,
    r: &Region,
    queue: &mut LeaderEnds,
    list: &mut Vec<u64>,
) -> Option<MergeAnswer>
    requires open { IsOpen r.now queue.old }
    requires unheard { HasGivenNoRow queue.old }
    ensures same { SameQueues queue.old queue.new }
    ensures open { IsOpen r.now queue.new }
    ensures heard { HearsRows list.old.items list.new.items queue.new result }
{
    for _ in rt.forever() {
        match hear(rt, r, queue) {
            Next::Row(row) => {
                if list.push(row).is_err() {
                    return Some(MergeAnswer::Memory);
                }
            }
            Next::Over => return None,
            Next::Names {
                row,
                cause,
                item: _,
            } => return Some(MergeAnswer::Row { row, cause }),
            Next::Lost => return Some(MergeAnswer::Memory),
        }
    }
    unreachable!()
}

/// Puts the rows of all workers after the list, one worker after the other.
pub(crate) fn hear_all<R: Wait>(
    rt: &R,
    r: &Region,
    queues: &mut [LeaderEnds],
    list: &mut Vec<u64>,
) -> Option<MergeAnswer>
    requires open { AreOpen r.now queues.old }
    requires unheard { All HasGivenNoRow queues.old }
    ensures same { AllZip SameQueues queues.old queues.new }
    ensures heard { HearsAll list.old.items list.new.items queues.new result }
{
    for worker in 0..queues.len() {
        let failure = hear_rows(rt, r, &mut queues[worker], list);
        if failure.is_some() {
            return failure;
        }
    }
    None
}
