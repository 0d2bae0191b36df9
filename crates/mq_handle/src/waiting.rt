//! The calls that wait for the other end: they try again and again, for a few microseconds, and then sleep between two
//! tries. After each try they wake the other end, if it sleeps and may find something.

ghost use Rattle.std.specs.Prelude.{◌≡◌, ◌<◌, ◌≤◌, ◌++◌, ◌^◌, List, ℕ, false, length};
ghost use Rattle.mq_handle.specs.Sends.{Continues, StaysOpen};
ghost use Rattle.mq_handle.specs.SendAnswers.{Answers};
ghost use Rattle.mq_handle.specs.Receives.{incoming};
ghost use Rattle.mq_handle.specs.ReceiveAnswers.{Gives};
ghost use Rattle.mq_handle.specs.Waiting.{EndsSend, EndsReceive};
ghost use Rattle.mq_handle.specs.Told.{SendFound, SendEndFound, ReceiveFound, ReceiveEndFound};
ghost use Rattle.mq_handle.specs.Parts.{joined};

use crate::answers::{ReceiveAnswer, ReceiveDone, SendAnswer, SendDone};
use crate::receiver::Receiver;
use crate::sender::Sender;
use crossbeam_utils::Backoff;
use region_words::Region;
use std::sync::Wait;

impl Sender {
    /// What follows a try that waits: it wakes the receiver, and waits a little if the ring was full.
    #[inline]
    fn after_try<R: Wait>(&mut self, rt: &R, r: &Region, backoff: &Backoff, answer: SendAnswer)
        requires here { self.old.region ≡ r.now }
        ensures { self.new ≡ self.old }
    {
        self.wake_receiver(r);
        if !matches!(answer, SendAnswer::WouldBlock { .. }) {
            return;
        }
        if backoff.is_completed() {
            self.tx.sleep(rt, r);
        } else {
            backoff.snooze();
        }
    }

    /// One try of a send.
    #[inline]
    fn send_once<R: Wait>(
        &mut self,
        rt: &R,
        r: &Region,
        backoff: &Backoff,
        message: &[u8],
        flush: bool,
    ) -> SendAnswer
        requires here { self.old.region ≡ r.now }
        requires stays { self.old.end.gone ≡ false }
        requires continues { Continues self.old.end.put message.now }
        ensures kept { self.new ≡ record self.old { end = self.new.end } }
        ensures stays { StaysOpen self.old.end self.new.end }
        ensures answer { Answers self.old.end self.new.end message.now flush result }
        ensures told { SendFound self.old.told self.old.end self.new.end result }
    {
        let answer = self.try_send(r, message, flush);
        self.after_try(rt, r, backoff, answer);
        answer
    }

    /// Sends the message, and waits while the ring is full: it tries again and again, and sleeps in between. It
    /// answers as the last try did, which did not block. It may wait forever, if the receiver neither takes words nor
    /// detaches.
    pub fn send<R: Wait>(&mut self, rt: &R, r: &Region, message: &[u8], flush: bool) -> SendDone
        requires here { self.old.region ≡ r.now }
        requires stays { self.old.end.gone ≡ false }
        requires continues { Continues self.old.end.put message.now }
        ensures kept { self.new ≡ record self.old { end = self.new.end } }
        ensures stays { StaysOpen self.old.end self.new.end }
        ensures answer { EndsSend self.old.end self.new.end message.now flush result }
        ensures told { SendEndFound self.old.told self.old.end self.new.end result }
    {
        let backoff = Backoff::new();
        for _ in rt.forever() {
            match self.send_once(rt, r, &backoff, message, flush) {
                SendAnswer::WouldBlock { stored: _ } => {}
                SendAnswer::Sent => return SendDone::Sent,
                SendAnswer::Detached => return SendDone::Detached,
                SendAnswer::TooLong { length } => return SendDone::TooLong { length },
            }
        }
        unreachable!()
    }

    /// One try of a send of the parts.
    fn send_parts_once<R: Wait>(
        &mut self,
        rt: &R,
        r: &Region,
        backoff: &Backoff,
        parts: &[&[u8]],
        flush: bool,
    ) -> SendAnswer
        requires here { self.old.region ≡ r.now }
        requires stays { self.old.end.gone ≡ false }
        requires few { length (joined parts.now) < 2 ^ 64 }
        requires continues { Continues self.old.end.put (joined parts.now) }
        ensures kept { self.new ≡ record self.old { end = self.new.end } }
        ensures stays { StaysOpen self.old.end self.new.end }
        ensures answer { Answers self.old.end self.new.end (joined parts.now) flush result }
        ensures told { SendFound self.old.told self.old.end self.new.end result }
    {
        let answer = self.try_send_parts(r, parts, flush);
        self.after_try(rt, r, backoff, answer);
        answer
    }

    /// `send` of the parts as one message, which is their bytes one after another: the receiver can't tell it from a
    /// message that came in one slice. Each try costs as much as `try_send_parts`. It may wait forever, if the receiver
    /// neither takes words nor detaches.
    pub fn send_parts<R: Wait>(
        &mut self,
        rt: &R,
        r: &Region,
        parts: &[&[u8]],
        flush: bool,
    ) -> SendDone
        requires here { self.old.region ≡ r.now }
        requires stays { self.old.end.gone ≡ false }
        requires few { length (joined parts.now) < 2 ^ 64 }
        requires continues { Continues self.old.end.put (joined parts.now) }
        ensures kept { self.new ≡ record self.old { end = self.new.end } }
        ensures stays { StaysOpen self.old.end self.new.end }
        ensures answer { EndsSend self.old.end self.new.end (joined parts.now) flush result }
        ensures told { SendEndFound self.old.told self.old.end self.new.end result }
    {
        let backoff = Backoff::new();
        for _ in rt.forever() {
            match self.send_parts_once(rt, r, &backoff, parts, flush) {
                SendAnswer::WouldBlock { stored: _ } => {}
                SendAnswer::Sent => return SendDone::Sent,
                SendAnswer::Detached => return SendDone::Detached,
                SendAnswer::TooLong { length } => return SendDone::TooLong { length },
            }
        }
        unreachable!()
    }
}

impl Receiver {
    /// What follows a try that waits: it wakes the sender, and waits a little if no message was there.
    #[inline]
    fn after_try<R: Wait>(&mut self, rt: &R, r: &Region, backoff: &Backoff, answer: ReceiveAnswer)
        requires here { self.old.region ≡ r.now }
        ensures { self.new ≡ self.old }
    {
        self.wake_sender(r);
        if !matches!(answer, ReceiveAnswer::WouldBlock) {
            return;
        }
        if backoff.is_completed() {
            self.rx.sleep(rt, r);
        } else {
            backoff.snooze();
        }
    }

    /// One try of a receive.
    #[inline]
    fn receive_once<R: Wait>(&mut self, rt: &R, r: &Region, backoff: &Backoff) -> ReceiveAnswer
        requires here { self.old.region ≡ r.now }
        requires stays { self.old.end.gone ≡ false }
        ensures kept { self.new ≡ incoming self.old.region self.new.end self.old.told self.new.message }
        ensures ring { self.new.end.ring ≡ self.old.end.ring }
        ensures stays { self.new.end.gone ≡ false }
        ensures later { self.old.end.turn ≤ self.new.end.turn }
        ensures grows { (rest : List ℕ) × (self.new.end.taken ≡ self.old.end.taken ++ rest) }
        ensures set { self.old.end.flag_value ≡ 1 → self.new.end.flag_value ≡ 1 }
        ensures answer { Gives self.old.end self.new.end self.new.message result }
        ensures told { ReceiveFound self.old.told self.old.end self.new.end result }
    {
        let answer = self.try_receive(r);
        self.after_try(rt, r, backoff, answer);
        answer
    }

    /// Receives the next message, and waits while none is there: it tries again and again, and sleeps in between. It
    /// answers as the last try did, which did not block. It may wait forever, if the sender neither sends nor detaches.
    pub fn receive<R: Wait>(&mut self, rt: &R, r: &Region) -> ReceiveDone
        requires here { self.old.region ≡ r.now }
        requires stays { self.old.end.gone ≡ false }
        ensures kept { self.new ≡ incoming self.old.region self.new.end self.old.told self.new.message }
        ensures ring { self.new.end.ring ≡ self.old.end.ring }
        ensures stays { self.new.end.gone ≡ false }
        ensures later { self.old.end.turn ≤ self.new.end.turn }
        ensures set { self.old.end.flag_value ≡ 1 → self.new.end.flag_value ≡ 1 }
        ensures grows { (rest : List ℕ) × (self.new.end.taken ≡ self.old.end.taken ++ rest) }
        ensures answer { EndsReceive self.old.end self.new.end self.new.message result }
        ensures told { ReceiveEndFound self.old.told self.old.end self.new.end result }
    {
        let backoff = Backoff::new();
        for _ in rt.forever() {
            match self.receive_once(rt, r, &backoff) {
                ReceiveAnswer::WouldBlock => {}
                ReceiveAnswer::Message => return ReceiveDone::Message,
                ReceiveAnswer::Detached => return ReceiveDone::Detached,
            }
        }
        unreachable!()
    }
}
