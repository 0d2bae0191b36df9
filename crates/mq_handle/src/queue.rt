//! A queue is made of the two ends of a ring; its ends meet, and come home.

ghost use Rattle.std.specs.Prelude.{◌≡◌, List, [], ℕ, ◌++◌, true, length, IfOk, IfErr, Some};
ghost use Rattle.ring_rule.specs.Ring.{AreEnds};
ghost use Rattle.region_words.specs.Parts.{owned};
ghost use Rattle.word_map.specs.WordMap.{union};
ghost use Rattle.region_rule.specs.RingMap.{ring_map};
ghost use Rattle.mq_ring.specs.Ends.{ends_home};
ghost use Rattle.mq_handle.specs.Messages.{whole_of, left_of};
ghost use Rattle.mq_handle.specs.Held.{IsUnsent, IsUnread};
ghost use Rattle.mq_handle.specs.Receives.{incoming};

use crate::receiver::Receiver;
use crate::sender::Sender;
use mq_ring::{RingDone, RingRx, RingTx};
use region_words::{Chunk, Region};
use std::alloc::Global;
use std::marker::Model;

/// There was no memory for the receiver's buffer; the two ends are as they were.
#[derive(Drop)]
pub struct AttachRefused {
    pub tx: RingTx,
    pub rx: RingRx,
}

/// The two ends of a queue that came home. Contracts see the last view of each end.
#[derive(Drop)]
pub struct MqDone {
    done: RingDone,
}

impl Model for MqDone {
    ghost use Rattle.mq_ring.specs.Ends.{EndsHome, ends_home_code};
    ghost use Rattle.mq_handle.specs.Home.{CameHome};

    ghost Value = { EndsHome };

    ghost coded = { ends_home_code };

    ghost view = { λ d. d.done };

    ghost invariant = { λ d. CameHome d.done };
}

/// Makes a queue of the ends of a ring that was not used yet; they are its handles' from then on. It takes memory for
/// the greatest message, fills it with zeros, and is the only call that takes any. It makes no step on the ring.
#[tactic(auto, using(crate::proofs::Uses::left_nothing))]
pub fn attach(alloc: Global, tx: RingTx, rx: RingRx) -> Result<(Sender, Receiver), AttachRefused>
    requires here { tx.region ≡ rx.region }
    requires one_ring { tx.end.ring ≡ rx.end.ring }
    requires unsent { IsUnsent tx.end }
    requires unread { IsUnread rx.end }
    ensures ends { IfOk result (λ ends. (ends.0 ≡ tx) × (ends.1 ≡ incoming rx.region rx.end rx.told [])) }
    ensures fresh { IfOk result (λ ends. left_of ends.0.end.put ≡ []) }
    ensures refused { IfErr result (λ back. (back.tx ≡ tx) × (back.rx ≡ rx)) }
{
    let max = rx.max() as usize;
    let Ok(buffer) = vec![in alloc; 0u8; max] else {
        return Err(AttachRefused { tx, rx });
    };
    Ok((Sender::new(tx), Receiver::new(rx, buffer)))
}

/// The two ends of a queue meet, detached or not: each learns what the other is, and the caller learns what holds of
/// both. Nothing that was sent, received, published or set changes. Three loads.
pub fn meet(s: &mut Sender, q: &mut Receiver, r: &Region)
    requires here { s.old.region ≡ r.now }
    requires q_here { q.old.region ≡ r.now }
    requires one_ring { s.old.end.ring ≡ q.old.end.ring }
    ensures sender { s.new ≡ record s.old { told = Some q.old.end } }
    ensures receiver { q.new ≡ record q.old { told = Some s.old.end } }
    ensures ends { AreEnds s.old.end q.old.end }
{
    mq_ring::meet(&mut s.tx, &mut q.rx, r);
}

/// Ends a queue, whether its ends are detached or not. What was received is a beginning of what was sent, and all of it
/// if the receiver was answered Detached. Two loads; the receiver's buffer is given back to its allocator.
pub fn home(s: Sender, q: Receiver, r: &Region) -> MqDone
    requires here { s.region ≡ r.now }
    requires q_here { q.region ≡ r.now }
    requires one_ring { s.end.ring ≡ q.end.ring }
    ensures ends { result ≡ ends_home s.region s.end q.end s.rest s.bytes }
    ensures sound { AreEnds s.end q.end }
    ensures beginning { (rest : List (List ℕ)) × (whole_of s.end.put ≡ whole_of q.end.taken ++ rest) }
    ensures all { q.end.final ≡ true → length q.end.taken ≡ q.end.avail → q.end.taken ≡ s.end.put }
{
    let tx = s.into_ring();
    let rx = q.into_ring();
    MqDone {
        done: mq_ring::home(tx, rx, r),
    }
}

impl MqDone {
    /// Tells that what was received is a beginning of what was sent, and all of it if the receiver was answered
    /// Detached. It does nothing.
    pub fn is_sound(&self)
        ensures sound { AreEnds self.now.sender self.now.receiver }
        ensures beginning { (rest : List (List ℕ)) × (whole_of self.now.sender.put ≡ whole_of self.now.receiver.taken ++ rest) }
        ensures all { self.now.receiver.final ≡ true → length self.now.receiver.taken ≡ self.now.receiver.avail → self.now.receiver.taken ≡ self.now.sender.put }
    {
        let _ = &self.done;
    }

    /// The chunk that the ring was made of, whole again, for its next use. Three loads.
    pub fn into_chunk(self, r: &Region) -> Chunk
        requires { self.region ≡ r.now }
        ensures place { (result.at ≡ self.sender.ring.base) × (result.bytes ≡ self.bytes) }
        ensures part { result.part ≡ owned self.region (union (ring_map self.sender self.receiver) self.rest) }
    {
        let MqDone { done } = self;
        done.into_chunk(r)
    }
}
