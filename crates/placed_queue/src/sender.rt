//! A sending end.

ghost use Rattle.std.specs.Prelude.{◌≡◌, [], false};
ghost use mathlib.Core.List.{IsPrefix};
ghost use Rattle.placed_queue.specs.Sides.{side};
ghost use Rattle.placed_queue.specs.Calls.{IsBehind, Puts, Sends, Finishes};

use crate::history::{Law, add_item, observe};
use crate::item::{Item, MOST_BYTES, Text};
use crate::letter::Letter;
use crate::queue::Queue;
use crate::receiver::Receiver;
use counted_slot::{FREE, PRESENT, TAKEN};
use logbook::Seen;
use std::marker::Model;

/// What a send answers.
#[derive(Clone, Copy, Debug, PartialEq, Eq)]
pub enum SendAnswer {
    /// It was sent.
    Sent,
    /// The next cell is not free.
    WouldBlock,
    /// Another sender was first. What it sent is known now, and this message may be sent again.
    Overtaken,
    /// The message is longer than `MOST_BYTES`.
    TooLong,
    /// This end has left.
    Gone,
}

/// A sending end: contracts see the history that it knows. If nobody else sends, that is what it sent. A queue may have
/// several; what each sent stands in the one history.
#[derive(Drop)]
pub struct Sender {
    count: u64,
    over: bool,
    seen: Seen<Item, u64, Law>,
}

impl Model for Sender {
    ghost use Rattle.std.specs.Prelude.{◌≡◌, length};
    ghost use Rattle.placed_queue.specs.Sides.{Side, side, side_code};

    ghost Value = { Side };

    ghost coded = { side_code };

    ghost view = { λ s. side s.seen.book s.seen.log s.over };

    ghost invariant = { λ s. s.count ≡ length s.seen.log };
}

impl Sender {
    /// A sending end of the queue, that knows nothing yet.
    pub fn new(queue: &Queue) -> Sender
        ensures { result ≡ side queue.now [] false }
    {
        Sender {
            count: 0,
            over: false,
            seen: queue.first(),
        }
    }

    /// Learns the history as it is now. One load.
    pub fn observe(&mut self, queue: &Queue)
        requires { self.old.queue ≡ queue.now }
        ensures same { (self.new.queue ≡ self.old.queue) × (self.new.over ≡ self.old.over) }
        ensures grows { IsPrefix self.old.history self.new.history }
    {
        self.count = observe(queue.head(), &mut self.seen);
    }

    /// Learns the history as it is now, and says that all that the receiving end has received is a beginning of it. One
    /// load.
    pub fn meet(&mut self, queue: &Queue, receiver: &Receiver)
        requires one_queue { (self.old.queue ≡ queue.now) × (receiver.now.queue ≡ queue.now) }
        ensures same { (self.new.queue ≡ self.old.queue) × (self.new.over ≡ self.old.over) }
        ensures grows { IsPrefix self.old.history self.new.history }
        ensures beginning { IsPrefix receiver.now.history self.new.history }
    {
        self.seen.learn(receiver.seen());
        self.count = observe(queue.head(), &mut self.seen);
    }

    /// Sends the message, if there is room and nobody else was first. Two compare-exchanges; the message is copied
    /// twice.
    pub fn send(&mut self, queue: &Queue, message: &[u8]) -> SendAnswer
        requires { self.old.queue ≡ queue.now }
        ensures { Sends self.old self.new message.now result }
    {
        if self.over {
            return SendAnswer::Gone;
        }
        if message.len() > MOST_BYTES {
            return SendAnswer::TooLong;
        }
        self.put(queue, Item::Message(Text::of(message)))
    }

    /// Leaves: the receiving end gets what was sent, and then learns it. It needs room as a message does.
    pub fn finish(&mut self, queue: &Queue) -> SendAnswer
        requires { self.old.queue ≡ queue.now }
        ensures { Finishes self.old self.new result }
    {
        if self.over {
            return SendAnswer::Gone;
        }
        let answer = self.put(queue, Item::End);
        if matches!(answer, SendAnswer::Sent) {
            self.over = true;
        }
        answer
    }

    /// Adds the item to the history, and lays its letter in its cell.
    fn put(&mut self, queue: &Queue, item: Item) -> SendAnswer
        requires { self.old.queue ≡ queue.now }
        ensures { Puts self.old self.new item result }
    {
        let number = self.count;
        if number >= u64::MAX - 1 {
            return SendAnswer::WouldBlock;
        }
        let (found, claim) = queue.cell(number).turn(FREE, TAKEN);
        if found != FREE {
            claim.done();
            return self.look_ahead(queue);
        }
        let length = add_item(queue.head(), &mut self.seen, number, &item);
        if length != number {
            self.count = length;
            claim.put(None, FREE);
            return SendAnswer::Overtaken;
        }
        self.count = number + 1;
        let seen = self.seen.again();
        claim.put(Some(Letter { number, item, seen }), PRESENT);
        SendAnswer::Sent
    }

    /// Why the next cell is not free: others sent meanwhile, or there is no room. One load.
    fn look_ahead(&mut self, queue: &Queue) -> SendAnswer
        requires { self.old.queue ≡ queue.now }
        ensures { IsBehind self.old self.new result }
    {
        let number = self.count;
        self.count = observe(queue.head(), &mut self.seen);
        if self.count == number {
            SendAnswer::WouldBlock
        } else {
            SendAnswer::Overtaken
        }
    }
}
