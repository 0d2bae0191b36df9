//! The sending side of a queue.

ghost use Rattle.std.specs.Prelude.{◌≡◌, ◌≢◌, ◌≤◌, false, length, IsTrue, IfSome, IfOk, List, [], ℕ, Some, None};
ghost use Rattle.std_alloc.specs.Arc.{arc_value};
ghost use Rattle.mq_handle.specs.Messages.{left_of};
ghost use Rattle.c_queue.specs.Sides.{outgoing, begun_of};
ghost use Rattle.c_queue.specs.Sends.{Sends, SendsWhole, Flushes, Leaves, begun_after};

use crate::code::Code;
use mq_handle::{SendAnswer, Sender};
use region_words::Region;
use std::alloc::{AllocError, Global};
use std::marker::Model;
use std::sync::Arc;

/// The sending side: contracts see its end of the queue (`sender`), and the message of which a part may be on the ring
/// (`begun`). It owns room for the greatest message. If it is dropped the receiving side learns nothing: `leave` first.
#[derive(Drop)]
pub struct Outbox {
    pub(crate) region: Arc<Region>,
    pub(crate) sender: Sender,
    buffer: Vec<u8>,
    /// The length of the message of which a part is on the ring; the message is in the buffer.
    begun: Option<usize>,
    gone: bool,
}

impl Model for Outbox {
    ghost use Rattle.std_alloc.specs.Arc.{arc_value};
    ghost use Rattle.c_queue.specs.Sides.{Outgoing, outgoing_code, outgoing, begun_of, IsOutbox};

    ghost Value = { Outgoing };

    ghost coded = { outgoing_code };

    ghost view = { λ o. outgoing o.sender (begun_of o.begun o.buffer.items) };

    ghost invariant = { λ o. IsOutbox (arc_value o.region) o.sender o.buffer.items o.begun o.gone };
}

impl Outbox {
    /// The side over an end by which nothing was sent, with room for the greatest message.
    pub(crate) fn new(
        alloc: Global,
        region: Arc<Region>,
        sender: Sender,
        max: u32,
    ) -> Result<Outbox, AllocError>
        requires here { sender.region ≡ arc_value region }
        requires max { max ≡ sender.end.ring.max }
        requires stays { sender.end.gone ≡ false }
        requires fresh { left_of sender.end.put ≡ [] }
        ensures { IfOk result (λ o. o ≡ outgoing sender None) }
    {
        let buffer = vec![in alloc; 0u8; max as usize]?;
        Ok(Outbox::over(region, sender, buffer))
    }

    /// The same with bytes that the caller brings, as many as the greatest message has. It takes no memory.
    pub fn over(region: Arc<Region>, sender: Sender, buffer: Vec<u8>) -> Outbox
        requires here { sender.region ≡ arc_value region }
        requires room { length buffer.items ≡ sender.end.ring.max }
        requires stays { sender.end.gone ≡ false }
        requires fresh { left_of sender.end.put ≡ [] }
        ensures { result ≡ outgoing sender None }
    {
        Outbox {
            region,
            sender,
            buffer,
            begun: None,
            gone: false,
        }
    }

    /// Its end of the queue again.
    pub fn into_sender(self) -> Sender
        ensures { result ≡ self.sender }
    {
        let Outbox { sender, .. } = self;
        sender
    }

    /// Puts the message on the ring as far as there is room. The costs are those of `mq_handle::Sender::try_send`, and
    /// if the ring is full the message is copied once, to know it again. It takes no memory.
    pub fn try_send(&mut self, message: &[u8], flush: bool) -> Code
        ensures { Sends self.old self.new message.now flush result }
    {
        if self.gone {
            return Code::Gone;
        }
        if is_other(self.buffer.as_slice(), self.begun, message) {
            return Code::OtherMessage;
        }
        match self.sender.try_send(&self.region, message, flush) {
            SendAnswer::Sent => {
                self.begun = None;
                Code::Done
            }
            SendAnswer::WouldBlock { stored } => {
                self.begun = begin(self.buffer.as_mut_slice(), self.begun, message, stored);
                Code::WouldBlock
            }
            SendAnswer::Detached => Code::Detached,
            SendAnswer::TooLong { .. } => Code::TooLong,
        }
    }

    /// Puts the message on the ring if there is room for all of it, and nothing of it otherwise; so after WouldBlock
    /// any message may follow, unless a part of one is on the ring from a `try_send`. The costs are those of
    /// `mq_handle::Sender::try_send_whole`. It takes no memory and keeps no copy.
    pub fn try_send_whole(&mut self, message: &[u8], flush: bool) -> Code
        ensures { SendsWhole self.old self.new message.now flush result }
    {
        if self.gone {
            return Code::Gone;
        }
        if is_other(self.buffer.as_slice(), self.begun, message) {
            return Code::OtherMessage;
        }
        match self.sender.try_send_whole(&self.region, message, flush) {
            SendAnswer::Sent => {
                self.begun = None;
                Code::Done
            }
            SendAnswer::WouldBlock { .. } => Code::WouldBlock,
            SendAnswer::Detached => Code::Detached,
            SendAnswer::TooLong { .. } => Code::TooLong,
        }
    }

    /// Shows the receiving side all that was put. One store.
    pub fn flush(&mut self) -> Code
        ensures { Flushes self.old self.new result }
    {
        if self.gone {
            return Code::Gone;
        }
        self.sender.flush(&self.region);
        Code::Done
    }

    /// Whether it has left.
    pub fn has_left(&self) -> bool
        ensures { result ≡ self.now.sender.end.gone }
    {
        self.gone
    }

    /// Leaves: the receiving side gets what was sent, and then learns it. One or two stores.
    pub fn leave(&mut self) -> Code
        ensures { Leaves self.old self.new result }
    {
        if self.gone {
            return Code::Gone;
        }
        self.sender.detach(&self.region);
        self.gone = true;
        Code::Done
    }
}

/// Whether a message other than this one is begun.
fn is_other(buffer: &[u8], begun: Option<usize>, message: &[u8]) -> bool
    requires fits { IfSome begun (λ n. n ≤ length buffer.now) }
    ensures other { IsTrue result → (m : List ℕ) × (begun_of begun buffer.now ≡ Some m) × (m ≢ message.now) }
    ensures same { result ≡ false → IfSome (begun_of begun buffer.now) (λ m. m ≡ message.now) }
{
    match begun {
        Some(len) => &buffer[..len] != message,
        None => false,
    }
}

/// Keeps the message, of whose frame this many words are on the ring.
fn begin(buffer: &mut [u8], begun: Option<usize>, message: &[u8], stored: u64) -> Option<usize>
    requires fits { IfSome begun (λ n. n ≤ length buffer.old) }
    requires room { length message.now ≤ length buffer.old }
    ensures room { length buffer.new ≡ length buffer.old }
    ensures fits { IfSome result (λ n. n ≤ length buffer.new) }
    ensures begun { begun_of result buffer.new ≡ begun_after stored (begun_of begun buffer.old) message.now }
{
    if begun.is_some() || stored == 0 {
        return begun;
    }
    let len = message.len();
    buffer[..len].copy_from_slice(message);
    Some(len)
}
