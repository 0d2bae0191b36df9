//! The receiving end of a queue.

ghost use Rattle.std.specs.Prelude.{◌≡◌, ◌+◌, ◌*◌, ◌≤◌, ◌++◌, List, ℕ, false, true, [], length};
ghost use Rattle.rel_pointer.specs.Bytes.{word_count};
ghost use Rattle.ring_rule.specs.Ring.{Receiving};
ghost use Rattle.ring_rule.specs.Ends.{receiver_leaves};
ghost use Rattle.mq_handle.specs.Held.{IsUnread};
ghost use Rattle.mq_handle.specs.Receives.{incoming};
ghost use Rattle.mq_handle.specs.ReceiveAnswers.{Gives, steps_beside};
ghost use Rattle.mq_handle.specs.Told.{ReceiveFound};

use crate::answers::ReceiveAnswer;
use crate::receiving::receive_frame;
use crate::taking::Taken;
use mq_ring::RingRx;
use region_words::Region;
use std::marker::Model;

/// The receiving end of a queue. Contracts see the ring's end, `whole_of` of whose words gives the messages received,
/// and the message of the last receive call. It owns a buffer for the greatest message. A receiver that is dropped says
/// nothing to the sender: `detach` first.
#[derive(Drop)]
pub struct Receiver {
    pub(crate) rx: RingRx,
    /// The bytes of the message in hand, at the front.
    buffer: Vec<u8>,
    taken: Taken,
    /// Whether the message in hand is the one that the last call gave.
    whole: bool,
    /// Whether this end was detached.
    gone: bool,
}

impl Model for Receiver {
    ghost use Rattle.std.specs.Prelude.{[], cond, take, List, ℕ};
    ghost use Rattle.mq_handle.specs.Receives.{Incoming, incoming_code, incoming};
    ghost use Rattle.mq_handle.specs.Taking.{IsReceiver};

    ghost Value = { Incoming };

    ghost coded = { incoming_code };

    ghost view = { λ q. incoming q.rx.region q.rx.end q.rx.told (cond {A = List ℕ} q.whole (take q.taken.len q.buffer.items) []) };

    ghost invariant = { λ q. IsReceiver q.rx.end q.buffer.items q.taken.words q.taken.len q.taken.ready q.taken.unreturned q.whole q.gone };
}

impl Receiver {
    /// The receiving end over a ring from which nothing was taken, with a buffer for the greatest message.
    pub(crate) fn new(rx: RingRx, buffer: Vec<u8>) -> Receiver
        requires unread { IsUnread rx.end }
        requires room { length buffer.items ≡ rx.end.ring.max }
        ensures { result ≡ incoming rx.region rx.end rx.told [] }
    {
        // The number of cells is a word, which the proof of the counts needs.
        let _size = rx.words();
        let taken = Taken {
            words: 0,
            len: 0,
            ready: 0,
            unreturned: 0,
        };
        Receiver {
            rx,
            buffer,
            taken,
            whole: false,
            gone: false,
        }
    }

    /// Takes the next message off the ring, if a whole one is there, and a part of it otherwise. Each byte is copied
    /// once, from the ring to the receiver's buffer, which loses the message before. A word costs one load; each time
    /// that the words known are used up, it loads the written count, and if there are no more the flag, and at the end
    /// it may store the read count. It takes no memory.
    pub fn try_receive(&mut self, r: &Region) -> ReceiveAnswer
        requires here { self.old.region ≡ r.now }
        requires stays { self.old.end.gone ≡ false }
        ensures kept { self.new ≡ incoming self.old.region self.new.end self.old.told self.new.message }
        ensures ring { self.new.end.ring ≡ self.old.end.ring }
        ensures stays { self.new.end.gone ≡ false }
        ensures later { self.old.end.turn ≤ self.new.end.turn }
        ensures grows { (rest : List ℕ) × (self.new.end.taken ≡ self.old.end.taken ++ rest) }
        ensures set { self.old.end.flag_value ≡ 1 → self.new.end.flag_value ≡ 1 }
        ensures steps { self.new.end.turn + 4 * length self.old.end.taken ≤ self.old.end.turn + 4 * length self.new.end.taken + steps_beside result }
        ensures few { length self.new.end.taken ≤ length self.old.end.taken + word_count self.old.end.ring.max + 1 }
        ensures answer { Gives self.old.end self.new.end self.new.message result }
        ensures told { ReceiveFound self.old.told self.old.end self.new.end result }
    {
        let buffer = self.buffer.as_mut_slice();
        let (taken, answer) = receive_frame(&mut self.rx, r, buffer, self.taken);
        self.taken = taken;
        self.whole = answer == ReceiveAnswer::Message;
        answer
    }

    /// Wakes a sender that sleeps in `send` or `send_parts`, if room was given back for all that was taken, or this end
    /// was detached. `receive` does so itself. After any other call, `detach` too, a sender that sleeps looks again
    /// within a millisecond, or at once if this call follows. One load; a store and a system call only if the sender
    /// sleeps.
    #[inline]
    pub fn wake_sender(&mut self, r: &Region)
        requires here { self.old.region ≡ r.now }
        ensures { self.new ≡ self.old }
    {
        if self.taken.unreturned == 0 || self.gone {
            self.rx.wake_sender(r);
        }
    }

    /// The message of the last receive call, if it answered Message; else nothing. It is lent from the receiver's
    /// buffer, without a copy, up to the next receive call.
    pub fn message(&self) -> &[u8]
        ensures { result.now ≡ self.now.message }
    {
        if self.whole {
            &self.buffer[..self.taken.len as usize]
        } else {
            &[]
        }
    }

    /// Lets the sender know that nothing more is received; what is on the ring stays there. One store; afterwards the
    /// end can only meet, come home and lend its last message. On a detached end it does nothing.
    pub fn detach(&mut self, r: &Region)
        requires here { self.old.region ≡ r.now }
        ensures first { self.old.end.gone ≡ false → self.new ≡ record self.old { end = receiver_leaves self.old.end } }
        ensures again { self.old.end.gone ≡ true → self.new ≡ self.old }
    {
        if self.gone {
            return;
        }
        self.rx.set_flag(r);
        self.gone = true;
    }

    /// The ring's end, for the way home.
    pub(crate) fn into_ring(self) -> RingRx
        ensures here { result.region ≡ self.region }
        ensures end { (result.end ≡ self.end) × (result.told ≡ self.told) }
    {
        let Receiver { rx, .. } = self;
        rx
    }
}
