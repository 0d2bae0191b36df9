//! How an end sleeps until the other end wakes it.
//!
//! An end that waits says on a word of advice that it sleeps, looks once more at what it waits for, and then sleeps on
//! that word. The other end looks at the word after it has stored a count; if it finds that somebody sleeps, it takes
//! that back and wakes the sleeper. All these steps are sequentially consistent, so either the one sees the count or the
//! other sees that somebody sleeps. Nothing is proved of that, and a wake that is lost costs a millisecond and no
//! answer: the rule of the region says nothing of advice.
//!
//! The words of advice are the atomic words of the first two cells, which themselves lie in their slots. In a ring of
//! one cell both ends have the same word, so each has its own number there.

ghost use Rattle.std.specs.Prelude.{◌≡◌, ◌+◌, ◌<◌, ◌^◌, min};
ghost use Rattle.region_rule.specs.Places.{InSlot, IsIdle};

use crate::receiver::RingRx;
use crate::sender::RingTx;
use atomic_table::Seat;
use region_rule::{Advises, Known};
use region_words::Region;
use std::sync::Wait;
use std::time::Duration;

/// A word of advice while nobody sleeps. That of a new ring may be anything.
const NOBODY: u64 = 0;

/// While the sender sleeps, or is about to.
const SENDER: u32 = 1;

/// While the receiver does.
const RECEIVER: u32 = 2;

/// The longest sleep in milliseconds, after which an end looks again: the calls that try wake nobody, so that they can
/// be part of a library for C, which may not wake threads.
const LONGEST_SLEEP: u64 = 1;

/// The word of advice of a sender.
#[inline]
fn sender_word(base: u64) -> u64
    requires small { base < 2 ^ 27 }
    ensures { result ≡ base + 3 }
{
    base + 3
}

/// The word of advice of a receiver.
#[inline]
fn receiver_word(base: u64, size: u64) -> u64
    requires small { base < 2 ^ 27 }
    ensures { result ≡ base + 2 + min size 2 }
{
    base + 2 + size.min(2)
}

/// Stores advice.
fn advise(r: &Region, seat: &mut Seat<u64, Known>, word: u64, advice: u64)
    requires here { seat.old.table_id ≡ r.now }
    requires inside { word < r.now.words }
    requires idle { IsIdle seat.old.me seat.old.me.0.view }
    requires cell { InSlot seat.old.me.0.view word }
    ensures { (seat.new.table_id ≡ seat.old.table_id) × (seat.new.me ≡ seat.old.me) }
{
    r.store_as::<Advises>(seat, word, advice);
}

/// If the word says that `who` sleeps, sleeps until it is woken; else says it there.
#[cold]
fn sleep_on<R: Wait>(rt: &R, r: &Region, seat: &mut Seat<u64, Known>, word: u64, who: u32)
    requires here { seat.old.table_id ≡ r.now }
    requires inside { word < r.now.words }
    requires idle { IsIdle seat.old.me seat.old.me.0.view }
    requires cell { InSlot seat.old.me.0.view word }
    ensures { (seat.new.table_id ≡ seat.old.table_id) × (seat.new.me ≡ seat.old.me) }
{
    if r.peek(word) == u64::from(who) {
        r.park_timeout(rt, word, who, Duration::from_millis(LONGEST_SLEEP));
    } else {
        advise(r, seat, word, u64::from(who));
    }
}

/// Takes back that somebody sleeps, and wakes who does.
#[cold]
fn wake(r: &Region, seat: &mut Seat<u64, Known>, word: u64)
    requires here { seat.old.table_id ≡ r.now }
    requires inside { word < r.now.words }
    requires idle { IsIdle seat.old.me seat.old.me.0.view }
    requires cell { InSlot seat.old.me.0.view word }
    ensures { (seat.new.table_id ≡ seat.old.table_id) × (seat.new.me ≡ seat.old.me) }
{
    advise(r, seat, word, NOBODY);
    r.wake_one(word);
}

/// Wakes who sleeps, if the word says that `who` does.
#[inline]
fn wake_if_asleep(r: &Region, seat: &mut Seat<u64, Known>, word: u64, who: u32)
    requires here { seat.old.table_id ≡ r.now }
    requires inside { word < r.now.words }
    requires idle { IsIdle seat.old.me seat.old.me.0.view }
    requires cell { InSlot seat.old.me.0.view word }
    ensures { (seat.new.table_id ≡ seat.old.table_id) × (seat.new.me ≡ seat.old.me) }
{
    if r.peek(word) == u64::from(who) {
        wake(r, seat, word);
    }
}

impl RingTx {
    /// One step of a wait, after a look that found no room. The first says that this end sleeps, and returns for
    /// another look; a further one sleeps until the receiver takes that back, a millisecond at most. It may also return
    /// for no reason.
    pub fn sleep<R: Wait>(&mut self, rt: &R, r: &Region)
        requires here { self.old.region ≡ r.now }
        ensures { self.new ≡ self.old }
    {
        let word = sender_word(self.site.base);
        sleep_on(rt, r, &mut self.seat, word, SENDER);
    }

    /// Wakes the receiver if it has said that it sleeps: one load if it has not. It has to come after the store of the
    /// count that the receiver waits for.
    #[inline]
    pub fn wake_receiver(&mut self, r: &Region)
        requires here { self.old.region ≡ r.now }
        ensures { self.new ≡ self.old }
    {
        let word = receiver_word(self.site.base, self.site.size);
        wake_if_asleep(r, &mut self.seat, word, RECEIVER);
    }
}

impl RingRx {
    /// One step of a wait, after a look that found no words; as the sender's `sleep`.
    pub fn sleep<R: Wait>(&mut self, rt: &R, r: &Region)
        requires here { self.old.region ≡ r.now }
        ensures { self.new ≡ self.old }
    {
        let word = receiver_word(self.base, self.size);
        sleep_on(rt, r, &mut self.seat, word, RECEIVER);
    }

    /// Wakes the sender if it has said that it sleeps: one load if it has not. It has to come after the store of the
    /// read count.
    #[inline]
    pub fn wake_sender(&mut self, r: &Region)
        requires here { self.old.region ≡ r.now }
        ensures { self.new ≡ self.old }
    {
        let word = sender_word(self.base);
        wake_if_asleep(r, &mut self.seat, word, SENDER);
    }
}
