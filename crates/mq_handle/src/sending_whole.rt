//! One try to send a message whole or not at all, by the ring's end.

ghost use Rattle.std.specs.Prelude.{◌≡◌, ◌<◌, ◌≤◌, ◌+◌, false, length, IsTrue};
ghost use Rattle.ring_rule.specs.Ring.{Sending};
ghost use Rattle.mq_handle.specs.Sends.{Continues, StaysOpen};
ghost use Rattle.mq_handle.specs.Wholes.{FitsRing, AnswersWhole};
ghost use Rattle.mq_handle.specs.Told.{SendFound};
ghost use Rattle.mq_handle.specs.Held.{Counted, InFrames};

use crate::answers::SendAnswer;
use crate::body::Body;
use crate::looking::look_for_room;
use crate::storing::{Stored, finish_storing, store_run};
use mq_ring::RingTx;
use region_words::Region;
use rel_pointer::words_of;

/// Whether the message is short enough for the queue, and its frame for an empty ring.
fn fits_ring(tx: &RingTx, message: &Body<'_>) -> bool
    ensures yes { IsTrue result → FitsRing tx.now.end.ring message.now }
    ensures no { result ≡ false → FitsRing tx.now.end.ring message.now → ⊥ }
{
    let length = message.len();
    length <= u64::from(tx.max()) && 1 + words_of(length) <= tx.words()
}

/// Loads the flag, then looks for the room that what is left of the frame needs, and stores all of it or nothing.
pub(crate) fn send_whole(
    tx: &mut RingTx,
    r: &Region,
    message: &Body<'_>,
    counts: Stored,
    flush: bool,
) -> (Stored, SendAnswer)
    requires here { tx.old.region ≡ r.now }
    requires stays { tx.old.end.gone ≡ false }
    requires counted { Counted tx.old.end counts.free counts.unpublished }
    requires framed { InFrames tx.old.end.ring.max tx.old.end.put counts.words }
    requires continues { Continues tx.old.end.put message.now }
    ensures kept { tx.new ≡ record tx.old { end = tx.new.end } }
    ensures stays { StaysOpen tx.old.end tx.new.end }
    ensures answer { AnswersWhole tx.old.end tx.new.end message.now flush result.1 }
    ensures told { SendFound tx.old.told tx.old.end tx.new.end result.1 }
    ensures counted { Counted tx.new.end result.0.free result.0.unpublished }
    ensures framed { InFrames tx.new.end.ring.max tx.new.end.put result.0.words }
{
    let length = message.len();
    if !fits_ring(tx, message) {
        return (counts, SendAnswer::TooLong { length });
    }
    if tx.look_flag(r) {
        return (counts, SendAnswer::Detached);
    }
    let wanted = 1 + words_of(length) - counts.words;
    let counts = look_for_room(tx, r, counts, wanted);
    if counts.free < wanted {
        let stored = counts.words;
        return (counts, SendAnswer::WouldBlock { stored });
    }
    let counts = store_run(tx, r, message, counts);
    let counts = finish_storing(tx, r, counts, flush);
    (counts, SendAnswer::Sent)
}
