//! One try to send, by the ring's end.

ghost use Rattle.std.specs.Prelude.{◌≡◌, ◌<◌, ◌≤◌, ◌+◌, false, length};
ghost use Rattle.ring_rule.specs.Ring.{Sending};
ghost use Rattle.mq_handle.specs.Sends.{Continues, StaysOpen};
ghost use Rattle.mq_handle.specs.SendAnswers.{Answers};
ghost use Rattle.mq_handle.specs.SendSteps.{StepsAre};
ghost use Rattle.mq_handle.specs.Told.{SendFound};
ghost use Rattle.mq_handle.specs.Held.{Counted, InFrames};

use crate::answers::SendAnswer;
use crate::body::Body;
use crate::storing::{Stored, finish_storing, store_words};
use mq_ring::RingTx;
use region_words::Region;

/// Loads the flag, then stores words until the frame is whole or the ring is full.
pub(crate) fn send_frame(
    tx: &mut RingTx,
    r: &Region,
    message: &Body<'_>,
    counts: Stored,
    flush: bool,
) -> (Stored, SendAnswer)
    requires here { tx.old.region ≡ r.now }
    requires stays { tx.old.end.gone ≡ false }
    requires counted { Counted tx.old.end counts.free counts.unpublished }
    requires framed { InFrames tx.old.end.ring.max tx.old.end.put counts.words }
    requires continues { Continues tx.old.end.put message.now }
    ensures kept { tx.new ≡ record tx.old { end = tx.new.end } }
    ensures stays { StaysOpen tx.old.end tx.new.end }
    ensures answer { Answers tx.old.end tx.new.end message.now flush result.1 }
    ensures steps { StepsAre tx.old.end tx.new.end message.now flush result.1 }
    ensures told { SendFound tx.old.told tx.old.end tx.new.end result.1 }
    ensures counted { Counted tx.new.end result.0.free result.0.unpublished }
    ensures framed { InFrames tx.new.end.ring.max tx.new.end.put result.0.words }
{
    let length = message.len();
    if length > u64::from(tx.max()) {
        return (counts, SendAnswer::TooLong { length });
    }
    if tx.look_flag(r) {
        return (counts, SendAnswer::Detached);
    }
    let (counts, done) = store_words(tx, r, message, counts);
    if !done {
        let stored = counts.words;
        return (counts, SendAnswer::WouldBlock { stored });
    }
    let counts = finish_storing(tx, r, counts, flush);
    (counts, SendAnswer::Sent)
}
