//! The notices of a worker: what it says on its error queue, and what the leader hears of it.
//!
//! A worker sends one notice at most. `X` says that all its tuples are sent, and goes out only once the other side can
//! read them all (`IsPublished`): a leader that reads `X` finds the tuples before it. `E` names the row that is
//! refused. A worker that is stopped, or has no memory, says nothing and detaches.

ghost use Rattle.std.specs.Prelude.{◌≡◌, ◌⊎◌, [], ◌∷◌, MatchBool, false};
ghost use Rattle.error_queue.specs.Message.{encoding, IsMessage};
ghost use Rattle.error_queue.specs.declared.ErrorMessage.{ErrorMessage};
ghost use Rattle.ring_rule.specs.Ends.{publishes};
ghost use Rattle.worker_run.specs.Notices.{EndsInOrder, GivesUp, IsLast, IsPublished, LookIs, NewsIs};
ghost use Rattle.worker_run.specs.Sent.{FoundGone, HasSent, IsReady};
ghost use Rattle.worker_run.specs.declared.WorkerEnd.{WorkerEnd};

use crate::WorkerEnd;
use crossbeam_utils::Backoff;
use error_queue::{ErrorMessage, MESSAGE_BYTES};
use mq_handle::{ReceiveAnswer, Receiver, SendDone, Sender};
use partial_agg::BlockAnswer;
use region_words::Region;
use std::sync::Wait;

/// Sends a notice on the error queue, with flush. Answers false if the receiver is gone.
fn send_notice<R: Wait>(rt: &R, r: &Region, errors: &mut Sender, notice: &ErrorMessage) -> bool
    requires here { errors.old.region ≡ r.now }
    requires ready { IsReady MESSAGE_BYTES errors.old.end }
    ensures kept { errors.new ≡ record errors.old { end = errors.new.end } }
    ensures sent { MatchBool result (HasSent errors.old.end errors.new.end (encoding notice.now ∷ [])) (FoundGone errors.old.end errors.new.end []) }
{
    let mut bytes = [0; MESSAGE_BYTES];
    let len = notice.write(&mut bytes);
    match errors.send(rt, r, &bytes[..len], true) {
        SendDone::Sent => true,
        SendDone::Detached => false,
        SendDone::TooLong { length: _ } => unreachable!(),
    }
}

/// Names a refused row by an `E`.
fn refuse<R: Wait>(
    rt: &R,
    r: &Region,
    errors: &mut Sender,
    row: u64,
    cause: u8,
    item: u32,
) -> WorkerEnd
    requires here { errors.old.region ≡ r.now }
    requires ready { IsReady MESSAGE_BYTES errors.old.end }
    ensures end { result ≡ WorkerEnd.Refused row cause item }
    ensures fits { IsMessage (ErrorMessage.Row row cause item) }
    ensures kept { errors.new ≡ record errors.old { end = errors.new.end } }
    ensures sent { HasSent errors.old.end errors.new.end (encoding (ErrorMessage.Row row cause item) ∷ []) ⊎ FoundGone errors.old.end errors.new.end [] }
{
    let _told = send_notice(rt, r, errors, &ErrorMessage::Row { row, cause, item });
    WorkerEnd::Refused { row, cause, item }
}

/// Names the refused row that stopped a block, if it was one, and gives the worker's end.
pub fn give_up<R: Wait>(rt: &R, r: &Region, errors: &mut Sender, why: BlockAnswer) -> WorkerEnd
    requires here { errors.old.region ≡ r.now }
    requires ready { IsReady MESSAGE_BYTES errors.old.end }
    ensures kept { errors.new ≡ record errors.old { end = errors.new.end } }
    ensures ring { errors.new.end.ring ≡ errors.old.end.ring }
    ensures stays { errors.new.end.gone ≡ false }
    ensures end { GivesUp errors.old.end errors.new.end why result }
{
    match why {
        BlockAnswer::Row { row, cause, item } => refuse(rt, r, errors, row, cause, item),
        BlockAnswer::Memory => WorkerEnd::NoMemory,
    }
}

/// Says by an `X` that all is sent. It takes the end of the tuple queue to see that all can be read. Answers false if
/// the receiver is gone.
fn say_end<R: Wait>(rt: &R, r: &Region, errors: &mut Sender, _tuples: &Sender) -> bool
    requires here { errors.old.region ≡ r.now }
    requires ready { IsReady MESSAGE_BYTES errors.old.end }
    requires published { IsPublished _tuples.now.end }
    ensures kept { errors.new ≡ record errors.old { end = errors.new.end } }
    ensures sent { MatchBool result (HasSent errors.old.end errors.new.end (encoding ErrorMessage.End ∷ [])) (FoundGone errors.old.end errors.new.end []) }
{
    send_notice(rt, r, errors, &ErrorMessage::End)
}

/// Ends in order a worker that has sent all its tuples: lets them be read, and then says `X`. Gives the worker's end:
/// `Stopped` if nobody hears it.
pub fn end_in_order<R: Wait>(
    rt: &R,
    r: &Region,
    errors: &mut Sender,
    tuples: &mut Sender,
) -> WorkerEnd
    requires errors_here { errors.old.region ≡ r.now }
    requires ready { IsReady MESSAGE_BYTES errors.old.end }
    requires here { tuples.old.region ≡ r.now }
    requires stays { tuples.old.end.gone ≡ false }
    ensures errors_kept { errors.new ≡ record errors.old { end = errors.new.end } }
    ensures ring { errors.new.end.ring ≡ errors.old.end.ring }
    ensures stays { errors.new.end.gone ≡ false }
    ensures tuples { tuples.new ≡ record tuples.old { end = publishes tuples.old.end } }
    ensures end { EndsInOrder errors.old.end errors.new.end result }
{
    tuples.flush(r);
    if !say_end(rt, r, errors, tuples) {
        return WorkerEnd::Stopped;
    }
    WorkerEnd::Finished
}

/// What the leader knows of a worker by its notices.
#[derive(Debug, Clone, Copy, PartialEq, Eq)]
pub enum News {
    /// Nothing more is there yet.
    Nothing,
    /// There is nothing more: the worker has detached, and all that it said is read.
    Over,
    /// This row is refused, for this cause; `item` is the place of the aggregate if the cause is an aggregate's.
    Refused { row: u64, cause: u8, item: u32 },
}

/// What came of one look at a worker's error queue.
#[derive(Clone, Copy)]
enum Notice {
    /// A notice that names no row.
    Read,
    /// None, or one that is the last of what there is to know.
    Last(News),
}

/// Takes one notice, if one is there.
fn take_notice(r: &Region, errors: &mut Receiver) -> Notice
    requires here { errors.old.region ≡ r.now }
    requires stays { errors.old.end.gone ≡ false }
    ensures region { errors.new.region ≡ errors.old.region }
    ensures ring { errors.new.end.ring ≡ errors.old.end.ring }
    ensures stays { errors.new.end.gone ≡ false }
    ensures news { LookIs errors.new.end result }
{
    match errors.try_receive(r) {
        ReceiveAnswer::WouldBlock => Notice::Last(News::Nothing),
        ReceiveAnswer::Detached => Notice::Last(News::Over),
        ReceiveAnswer::Message => {
            let Ok(ErrorMessage::Row { row, cause, item }) = ErrorMessage::read(errors.message())
            else {
                return Notice::Read;
            };
            Notice::Last(News::Refused { row, cause, item })
        }
    }
}

/// Hears a worker's notices, as far as they are there, until one names a refused row. Waits for none of them.
pub fn hear_notices<R: Wait>(rt: &R, r: &Region, errors: &mut Receiver) -> News
    requires here { errors.old.region ≡ r.now }
    requires stays { errors.old.end.gone ≡ false }
    ensures region { errors.new.region ≡ errors.old.region }
    ensures ring { errors.new.end.ring ≡ errors.old.end.ring }
    ensures stays { errors.new.end.gone ≡ false }
    ensures news { NewsIs errors.new.end result }
{
    for _ in rt.forever() {
        match take_notice(r, errors) {
            Notice::Read => {}
            Notice::Last(news) => return news,
        }
    }
    unreachable!()
}

/// Hears a worker's notices to their end, or to one that names a refused row. It waits for them: call it once the
/// worker has detached its tuple queue, since its last notice is sent before that.
pub fn hear_last<R: Wait>(rt: &R, r: &Region, errors: &mut Receiver) -> News
    requires here { errors.old.region ≡ r.now }
    requires stays { errors.old.end.gone ≡ false }
    ensures region { errors.new.region ≡ errors.old.region }
    ensures ring { errors.new.end.ring ≡ errors.old.end.ring }
    ensures stays { errors.new.end.gone ≡ false }
    ensures news { NewsIs errors.new.end result }
    ensures last { IsLast result }
{
    let backoff = Backoff::new();
    for _ in rt.forever() {
        match hear_notices(rt, r, errors) {
            News::Nothing => backoff.snooze(),
            News::Over => return News::Over,
            News::Refused { row, cause, item } => return News::Refused { row, cause, item },
        }
    }
    unreachable!()
}
