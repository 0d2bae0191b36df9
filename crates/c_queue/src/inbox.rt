//! The receiving side of a queue.

ghost use Rattle.std.specs.Prelude.{◌≡◌, ◌≤◌, false, length};
ghost use Rattle.std_alloc.specs.Arc.{arc_value};
ghost use Rattle.c_queue.specs.Receives.{Receives, StopsReceiving, Has};

use crate::code::Code;
use mq_handle::{ReceiveAnswer, Receiver};
use region_words::Region;
use std::marker::Model;
use std::sync::Arc;

/// The receiving side: contracts see its end of the queue. It owns room for the greatest message. If it is dropped the
/// sending side learns nothing: `leave` first.
#[derive(Drop)]
pub struct Inbox {
    pub(crate) region: Arc<Region>,
    pub(crate) receiver: Receiver,
    max: u32,
    gone: bool,
}

impl Model for Inbox {
    ghost use Rattle.std_alloc.specs.Arc.{arc_value};
    ghost use Rattle.mq_handle.specs.Receives.{Incoming, incoming_code};
    ghost use Rattle.c_queue.specs.Sides.{IsInbox};

    ghost Value = { Incoming };

    ghost coded = { incoming_code };

    ghost view = { λ q. q.receiver };

    ghost invariant = { λ q. IsInbox (arc_value q.region) q.receiver q.max q.gone };
}

impl Inbox {
    /// The side over an end.
    pub fn new(region: Arc<Region>, receiver: Receiver, max: u32) -> Inbox
        requires here { receiver.region ≡ arc_value region }
        requires max { max ≡ receiver.end.ring.max }
        requires stays { receiver.end.gone ≡ false }
        ensures { result ≡ receiver }
    {
        Inbox {
            region,
            receiver,
            max,
            gone: false,
        }
    }

    /// Writes the next message to the front of `out`, if a whole one is there, and answers its length. `out` has to
    /// have room for the greatest message of the queue; else the answer is that length, and nothing was done. The costs
    /// are those of `mq_handle::Receiver::try_receive`, and each byte is copied once more. It takes no memory.
    pub fn try_receive(&mut self, out: &mut [u8]) -> (Code, usize)
        ensures { Receives self.old self.new out.old out.new result.0 result.1 }
    {
        if self.gone {
            return (Code::Gone, 0);
        }
        let max = self.max as usize;
        if out.len() < max {
            return (Code::ShortBuffer, max);
        }
        match self.receiver.try_receive(&self.region) {
            ReceiveAnswer::Message => (Code::Done, write_front(out, self.receiver.message())),
            ReceiveAnswer::WouldBlock => (Code::WouldBlock, 0),
            ReceiveAnswer::Detached => (Code::Detached, 0),
        }
    }

    /// Whether it has left.
    pub fn has_left(&self) -> bool
        ensures { result ≡ self.now.end.gone }
    {
        self.gone
    }

    /// Leaves: the sending side is answered Detached from then on. One store.
    pub fn leave(&mut self) -> Code
        ensures { StopsReceiving self.old self.new result }
    {
        if self.gone {
            return Code::Gone;
        }
        self.receiver.detach(&self.region);
        self.gone = true;
        Code::Done
    }
}

/// Writes the message to the front of the bytes.
fn write_front(out: &mut [u8], message: &[u8]) -> usize
    requires { length message.now ≤ length out.old }
    ensures { Has out.old out.new message.now result }
{
    let len = message.len();
    out[..len].copy_from_slice(message);
    len
}
