//! The sending end of a queue.

ghost use Rattle.std.specs.Prelude.{◌≡◌, ◌<◌, ◌≤◌, ◌+◌, ◌^◌, false, true, length};
ghost use Rattle.ring_rule.specs.Ring.{Sending};
ghost use Rattle.ring_rule.specs.Ends.{publishes, sender_leaves};
ghost use Rattle.mq_handle.specs.Sends.{Continues, StaysOpen};
ghost use Rattle.mq_handle.specs.SendAnswers.{Answers};
ghost use Rattle.mq_handle.specs.SendSteps.{StepsAre};
ghost use Rattle.mq_handle.specs.Wholes.{AnswersWhole};
ghost use Rattle.mq_handle.specs.Told.{SendFound};
ghost use Rattle.mq_handle.specs.Held.{IsUnsent};
ghost use Rattle.mq_handle.specs.Parts.{joined};

use crate::answers::SendAnswer;
use crate::body::Body;
use crate::sending::send_frame;
use crate::sending_whole::send_whole;
use crate::storing::Stored;
use mq_ring::RingTx;
use region_words::Region;
use std::marker::Model;

/// The sending end of a queue. Contracts see the ring's end; `whole_of` of its words gives the messages sent. A sender
/// that is dropped says nothing to the receiver, and the ring's words are lost: `detach` first, and bring both ends
/// `home`.
#[derive(Drop)]
pub struct Sender {
    pub(crate) tx: RingTx,
    counts: Stored,
    /// Whether this end was detached.
    gone: bool,
}

impl Model for Sender {
    ghost use Rattle.mq_ring.specs.Ends.{SendingEnd, sending_end_code};
    ghost use Rattle.mq_handle.specs.Told.{SendFound};
    ghost use Rattle.mq_handle.specs.Held.{IsSender};

    ghost Value = { SendingEnd };

    ghost coded = { sending_end_code };

    ghost view = { λ s. s.tx };

    ghost invariant = { λ s. IsSender s.tx.end s.counts.words s.counts.free s.counts.unpublished s.gone };
}

impl Sender {
    /// The sending end over a ring on which nothing was put.
    pub(crate) fn new(tx: RingTx) -> Sender
        requires { IsUnsent tx.end }
        ensures { result ≡ tx }
    {
        let free = tx.words();
        let counts = Stored {
            words: 0,
            free,
            unpublished: 0,
        };
        Sender {
            tx,
            counts,
            gone: false,
        }
    }

    /// Puts the message on the ring as far as there is room. If a part of a frame is stored, the message has to be that
    /// frame's: repeat the call with it. If the message fits it costs one load, one store a word and at most one store
    /// of the count, and one store and one load of the counts more each time that the room known is used up. It takes
    /// no memory and keeps nothing of `message`. `flush` lets the receiver see the message at once; without it up to a
    /// quarter of the ring may stay unseen until a later call.
    pub fn try_send(&mut self, r: &Region, message: &[u8], flush: bool) -> SendAnswer
        requires here { self.old.region ≡ r.now }
        requires stays { self.old.end.gone ≡ false }
        requires continues { Continues self.old.end.put message.now }
        ensures kept { self.new ≡ record self.old { end = self.new.end } }
        ensures stays { StaysOpen self.old.end self.new.end }
        ensures answer { Answers self.old.end self.new.end message.now flush result }
        ensures steps { StepsAre self.old.end self.new.end message.now flush result }
        ensures told { SendFound self.old.told self.old.end self.new.end result }
    {
        let message = Body::of_slice(message);
        let (counts, answer) = send_frame(&mut self.tx, r, &message, self.counts, flush);
        self.counts = counts;
        answer
    }

    /// Puts the message on the ring if there is room for all of it, and nothing of it otherwise. A message is too long
    /// not only if the queue takes none so long, but also if an empty ring has no room for its frame, one word and a
    /// word for each eight bytes: it could never be put whole. If too little room is known, what was put before is
    /// published, so that the receiver can make room, and the read count is looked at once. After WouldBlock any
    /// message may follow, unless `try_send` had stored a part of one: then, as there, the message has to be that one,
    /// and what is left of its frame is stored or not. It costs as much as `try_send`, takes no memory and keeps
    /// nothing of `message`.
    pub fn try_send_whole(&mut self, r: &Region, message: &[u8], flush: bool) -> SendAnswer
        requires here { self.old.region ≡ r.now }
        requires stays { self.old.end.gone ≡ false }
        requires continues { Continues self.old.end.put message.now }
        ensures kept { self.new ≡ record self.old { end = self.new.end } }
        ensures stays { StaysOpen self.old.end self.new.end }
        ensures answer { AnswersWhole self.old.end self.new.end message.now flush result }
        ensures told { SendFound self.old.told self.old.end self.new.end result }
    {
        let message = Body::of_slice(message);
        let (counts, answer) = send_whole(&mut self.tx, r, &message, self.counts, flush);
        self.counts = counts;
        answer
    }

    /// `try_send` of the parts as one message, which is their bytes one after another: the receiver can't tell it from
    /// a message that came in one slice. A repeated call may cut the message into other parts; only the bytes have to
    /// be the same. Costs what `try_send` costs and one copy more, by way of 512 bytes of the stack; the list of parts
    /// is gone over once for each such buffer. It takes no memory.
    pub fn try_send_parts(&mut self, r: &Region, parts: &[&[u8]], flush: bool) -> SendAnswer
        requires here { self.old.region ≡ r.now }
        requires stays { self.old.end.gone ≡ false }
        requires few { length (joined parts.now) < 2 ^ 64 }
        requires continues { Continues self.old.end.put (joined parts.now) }
        ensures kept { self.new ≡ record self.old { end = self.new.end } }
        ensures stays { StaysOpen self.old.end self.new.end }
        ensures answer { Answers self.old.end self.new.end (joined parts.now) flush result }
        ensures steps { StepsAre self.old.end self.new.end (joined parts.now) flush result }
        ensures told { SendFound self.old.told self.old.end self.new.end result }
    {
        let message = Body::of_parts(parts);
        let (counts, answer) = send_frame(&mut self.tx, r, &message, self.counts, flush);
        self.counts = counts;
        answer
    }

    /// `try_send_whole` of the parts as one message, which is their bytes one after another. Costs as much as
    /// `try_send_parts`.
    pub fn try_send_parts_whole(&mut self, r: &Region, parts: &[&[u8]], flush: bool) -> SendAnswer
        requires here { self.old.region ≡ r.now }
        requires stays { self.old.end.gone ≡ false }
        requires few { length (joined parts.now) < 2 ^ 64 }
        requires continues { Continues self.old.end.put (joined parts.now) }
        ensures kept { self.new ≡ record self.old { end = self.new.end } }
        ensures stays { StaysOpen self.old.end self.new.end }
        ensures answer { AnswersWhole self.old.end self.new.end (joined parts.now) flush result }
        ensures told { SendFound self.old.told self.old.end self.new.end result }
    {
        let message = Body::of_parts(parts);
        let (counts, answer) = send_whole(&mut self.tx, r, &message, self.counts, flush);
        self.counts = counts;
        answer
    }

    /// Wakes a receiver that sleeps in `receive`, if all that was put is published. `send` and `send_parts` do so
    /// themselves. After any other call, `detach` too, a receiver that sleeps looks again within a millisecond, or at
    /// once if this call follows. One load; a store and a system call only if the receiver sleeps.
    #[inline]
    pub fn wake_receiver(&mut self, r: &Region)
        requires here { self.old.region ≡ r.now }
        ensures { self.new ≡ self.old }
    {
        if self.counts.unpublished == 0 {
            self.tx.wake_receiver(r);
        }
    }

    /// Lets the receiver see all that was put, including a part of a message. One store.
    pub fn flush(&mut self, r: &Region)
        requires here { self.old.region ≡ r.now }
        requires stays { self.old.end.gone ≡ false }
        ensures { self.new ≡ record self.old { end = publishes self.old.end } }
    {
        self.tx.publish(r);
        self.counts.unpublished = 0;
    }

    /// Lets the receiver see all that was put, and that no more comes. Two stores; afterwards the end can only meet and
    /// come home. On a detached end it does nothing.
    pub fn detach(&mut self, r: &Region)
        requires here { self.old.region ≡ r.now }
        ensures first { self.old.end.gone ≡ false → self.new ≡ record self.old { end = sender_leaves (publishes self.old.end) } }
        ensures again { self.old.end.gone ≡ true → self.new ≡ self.old }
    {
        if self.gone {
            return;
        }
        self.tx.publish(r);
        self.tx.set_flag(r);
        self.counts.unpublished = 0;
        self.gone = true;
    }

    /// The ring's end, for the way home. The contract says that a sender that is gone has published all that it put.
    pub(crate) fn into_ring(self) -> RingTx
        ensures ring { result ≡ self }
        ensures flushed { self.end.gone ≡ true → self.end.published ≡ length self.end.put }
    {
        let Sender { tx, .. } = self;
        tx
    }
}
