//! A queue is made of both its sides, and its sides are compared.

ghost use Rattle.std.specs.Prelude.{◌≡◌, ◌++◌, List, ℕ, [], IfOk, IfErr};
ghost use Rattle.c_queue.specs.Made.{IsQueue, IsRefused};
ghost use Rattle.c_queue.specs.Sides.{IsOneQueue, sent_by, received_by};
ghost use Rattle.c_queue.specs.declared.code.Code.TheVariants.{NoMemory};
ghost use Rattle.ring_rule.specs.Ends.{first_receiving};
ghost use Rattle.mq_handle.specs.Held.{IsUnsent};
ghost use Rattle.mq_handle.specs.Messages.{left_of};

use crate::code::Code;
use crate::inbox::Inbox;
use crate::outbox::Outbox;
use mq_handle::{Receiver, Sender, attach};
use mq_ring::{Ring, is_ring_size};
use region_words::Region;
use std::alloc::Global;
use std::sync::Arc;

/// The longest message of any queue, in bytes.
const MOST_BYTES: u32 = 1048576;

/// Both sides of a queue over a ring of `words` words, for messages of at most `max` bytes. It takes memory for the
/// ring, twice for the greatest message, and for the count of those that share the ring.
pub fn new_queue(alloc: Global, words: u64, max: u32) -> Result<(Outbox, Inbox), Code>
    ensures made { IfOk result (λ sides. IsQueue words max sides.0 sides.1) }
    ensures refused { IfErr result (λ code. IsRefused words max code) }
{
    if max > MOST_BYTES || !is_ring_size(words) {
        return Err(Code::BadSize);
    }
    let Ok((r, part)) = Region::new(alloc, words as usize + 4) else {
        return Err(Code::NoMemory);
    };
    let mut part = part;
    let chunk = part.split_chunk(&r, 1, words + 3);
    let (tx, rx) = Ring::create(&r, chunk, words, 0, max);
    match attach(alloc, tx, rx) {
        Ok((sender, receiver)) => share(alloc, r, sender, receiver, max),
        Err(_) => Err(Code::NoMemory),
    }
}

/// Each side has its end, and both share the region.
fn share(
    alloc: Global,
    r: Region,
    sender: Sender,
    receiver: Receiver,
    max: u32,
) -> Result<(Outbox, Inbox), Code>
    requires here { (sender.region ≡ r) × (receiver.region ≡ r) }
    requires one_ring { sender.end.ring ≡ receiver.end.ring }
    requires max { sender.end.ring.max ≡ max }
    requires unsent { IsUnsent sender.end }
    requires fresh { left_of sender.end.put ≡ [] }
    requires unread { receiver.end ≡ first_receiving receiver.end.ring }
    ensures made { IfOk result (λ sides. IsQueue sender.end.ring.size max sides.0 sides.1) }
    ensures refused { IfErr result (λ code. code ≡ NoMemory) }
{
    let Ok(region) = Arc::new(alloc, r) else {
        return Err(Code::NoMemory);
    };
    let Ok(shared) = Arc::try_clone(&region) else {
        return Err(Code::NoMemory);
    };
    let Ok(outbox) = Outbox::new(alloc, region, sender, max) else {
        return Err(Code::NoMemory);
    };
    Ok((outbox, Inbox::new(shared, receiver, max)))
}

/// Says what holds of both sides of a queue, whatever they did since it was made: what was received is a beginning of
/// what was sent. Three loads; nothing that was sent, received or published changes.
pub fn meet(tx: &mut Outbox, rx: &mut Inbox)
    requires one_queue { IsOneQueue tx.old rx.old }
    ensures same { (sent_by tx.new ≡ sent_by tx.old) × (received_by rx.new ≡ received_by rx.old) × IsOneQueue tx.new rx.new }
    ensures beginning { (rest : List (List ℕ)) × (sent_by tx.old ≡ received_by rx.old ++ rest) }
{
    mq_handle::meet(&mut tx.sender, &mut rx.receiver, &tx.region);
}
