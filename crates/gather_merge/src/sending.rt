//! What a worker sends on its tuple queue: its rows' numbers, one message each. A send that finds the receiver gone
//! ends the work.

ghost use Rattle.std.specs.Prelude.{◌≡◌, [], ◌∷◌, MatchBool};
ghost use Rattle.worker_run.specs.Sent.{FoundGone, HasSent, IsReady};
ghost use Rattle.gather_merge.specs.Sent.{HasSentRows, StoppedSending, message_of};

use mq_handle::{SendDone, Sender};
use region_words::Region;
use std::sync::Wait;

/// Sends the number of a row, without flush. Answers false if the receiver is gone.
fn send_row<R: Wait>(rt: &R, r: &Region, tuples: &mut Sender, row: u64) -> bool
    requires here { tuples.old.region ≡ r.now }
    requires ready { IsReady 8 tuples.old.end }
    ensures kept { tuples.new ≡ record tuples.old { end = tuples.new.end } }
    ensures sent { MatchBool result (HasSent tuples.old.end tuples.new.end (message_of row ∷ [])) (FoundGone tuples.old.end tuples.new.end []) }
{
    match tuples.send(rt, r, &row.to_le_bytes(), false) {
        SendDone::Sent => true,
        SendDone::Detached => false,
        SendDone::TooLong { length: _ } => unreachable!(),
    }
}

/// Sends the numbers of rows, in this order. Answers false if the receiver is gone.
pub(crate) fn send_rows<R: Wait>(rt: &R, r: &Region, tuples: &mut Sender, list: &[u64]) -> bool
    requires here { tuples.old.region ≡ r.now }
    requires ready { IsReady 8 tuples.old.end }
    ensures kept { tuples.new ≡ record tuples.old { end = tuples.new.end } }
    ensures sent { MatchBool result (HasSentRows list.now tuples.old.end tuples.new.end) (StoppedSending tuples.old.end tuples.new.end) }
{
    for row in list {
        if !send_row(rt, r, tuples, *row) {
            return false;
        }
    }
    true
}
