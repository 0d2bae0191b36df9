//! The receiving end.

ghost use Rattle.std.specs.Prelude.{◌≡◌, ◌+◌, ◌<◌, ◌^◌, ◌++◌, ◌∷◌, [], false, length, take};
ghost use Rattle.placed_queue.specs.Sides.{side};
ghost use Rattle.placed_queue.specs.Calls.{IsNext, Receives};

use crate::history::Law;
use crate::item::{Item, MOST_BYTES, Text};
use crate::letter::Letter;
use crate::queue::Queue;
use counted_slot::{FREE, Fits, PRESENT, TAKEN};
use logbook::Seen;
use std::marker::Model;

/// What a receive answers.
#[derive(Clone, Copy, Debug, PartialEq, Eq)]
pub enum ReceiveAnswer {
    /// A message was written.
    Received,
    /// No letter is in the next cell.
    WouldBlock,
    /// The sender has left, and all that it sent was received.
    Detached,
    /// The bytes have no room for the longest message.
    ShortBuffer,
    /// The letter in the next cell was not the next one.
    OutOfOrder,
}

/// What the next cell had.
pub enum Next {
    /// A message, the next item.
    Message(Text),
    /// The end, the next item.
    End,
    /// Nothing.
    Nothing,
    /// Another letter, which is lost.
    Other,
}

/// The receiving end: contracts see what it has received, a beginning of the queue's history.
#[derive(Drop)]
pub struct Receiver {
    count: u64,
    over: bool,
    seen: Seen<Item, u64, Law>,
}

impl Model for Receiver {
    ghost use Rattle.std.specs.Prelude.{◌≡◌, length};
    ghost use Rattle.placed_queue.specs.Sides.{Side, side, side_code};

    ghost Value = { Side };

    ghost coded = { side_code };

    ghost view = { λ s. side s.seen.book s.seen.log s.over };

    ghost invariant = { λ s. s.count ≡ length s.seen.log };
}

/// The place in a queue where its receiving end waits has ends of that queue.
impl Fits for Receiver {
    type Tag = Seen<Item, u64, Law>;

    ghost fits = { λ tag receiver. receiver.queue ≡ tag.book };
}

impl Receiver {
    /// The receiving end that has received nothing.
    pub(crate) fn first(seen: Seen<Item, u64, Law>) -> Receiver
        requires { seen.log ≡ [] }
        ensures { result ≡ side seen.book [] false }
    {
        Receiver {
            count: 0,
            over: false,
            seen,
        }
    }

    /// The token of what it has received.
    pub(crate) fn seen(&self) -> &Seen<Item, u64, Law>
        ensures { (result.now.book ≡ self.now.queue) × (result.now.log ≡ self.now.history) }
    {
        &self.seen
    }

    /// Writes the next message to the front of `out`, if it is there, and answers its length. `out` has to have room
    /// for `MOST_BYTES` bytes; else that number is the answer, and nothing was done. One compare-exchange and one
    /// store; the message is copied twice.
    pub fn receive(&mut self, queue: &Queue, out: &mut [u8]) -> (ReceiveAnswer, usize)
        requires { self.old.queue ≡ queue.now }
        ensures { Receives self.old self.new out.old out.new result.0 result.1 }
    {
        if self.over {
            return (ReceiveAnswer::Detached, 0);
        }
        if out.len() < MOST_BYTES {
            return (ReceiveAnswer::ShortBuffer, MOST_BYTES);
        }
        match self.next(queue) {
            Next::Message(text) => (ReceiveAnswer::Received, text.write_to(out)),
            Next::End => (ReceiveAnswer::Detached, 0),
            Next::Nothing => (ReceiveAnswer::WouldBlock, 0),
            Next::Other => (ReceiveAnswer::OutOfOrder, 0),
        }
    }

    /// Takes the letter out of the next cell.
    fn next(&mut self, queue: &Queue) -> Next
        requires { self.old.queue ≡ queue.now }
        ensures { IsNext self.old self.new result }
    {
        let (found, claim) = queue.cell(self.count).turn(PRESENT, TAKEN);
        if found != PRESENT {
            claim.done();
            return Next::Nothing;
        }
        match claim.put(None, FREE) {
            Some(letter) => self.accept(letter),
            None => Next::Nothing,
        }
    }

    /// Goes on by the letter's item, if it is the next one.
    fn accept(&mut self, letter: Letter) -> Next
        requires { letter.seen.book ≡ self.old.queue }
        ensures { IsNext self.old self.new result }
    {
        let Letter { number, item, seen } = letter;
        if number != self.count {
            return Next::Other;
        }
        self.go_on(seen, &item);
        match item {
            Item::Message(text) => Next::Message(text),
            Item::End => {
                self.over = true;
                Next::End
            }
        }
    }

    /// Takes the history over that goes on by this item.
    fn go_on(&mut self, seen: Seen<Item, u64, Law>, item: &Item)
        requires here { seen.book ≡ self.old.queue }
        requires next { (length seen.log ≡ length self.old.history + 1) × (seen.log ≡ take (length self.old.history) seen.log ++ item.now ∷ []) }
        requires small { length seen.log < 2 ^ 64 }
        ensures { self.new ≡ side self.old.queue (self.old.history ++ item.now ∷ []) self.old.over }
    {
        let _ = item;
        let mut both = self.seen.again();
        both.learn(&seen);
        self.seen = seen;
        self.count += 1;
    }
}
