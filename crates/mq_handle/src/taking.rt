//! The words of a frame are taken in runs, as many at once as may be taken, and the bytes of each go to their place in
//! the receiver's buffer.

ghost use Rattle.std.specs.Prelude.{◌≡◌, ◌+◌, ◌-◌, ◌*◌, ◌/◌, ◌<◌, ◌≤◌, ◌++◌, ◌∷◌, [], ℕ, false, true, length, suc, cond, MatchBool, MatchOption, IsTrue};
ghost use Rattle.rel_pointer.specs.Bytes.{word_count};
ghost use Rattle.ring_rule.specs.Ends.{takes, gives_back, sees_written, receiver_sees_flag};
ghost use Rattle.ring_rule.specs.Ring.{Receiving};
ghost use Rattle.mq_handle.specs.Receives.{returned_of};
ghost use Rattle.mq_handle.specs.Taking.{Ready, InHand, IsOpen, Takes, before_of};

use mq_ring::RingRx;
use region_words::Region;
use rel_pointer::words_of;

/// What a receiver knows of its ring, besides the ring's own end.
#[derive(Clone, Copy)]
pub(crate) struct Taken {
    /// How many words of the frame in hand are taken.
    pub(crate) words: u64,
    /// The bytes of its message, once the first of its words is taken.
    pub(crate) len: u64,
    /// How many more words may be taken, by the last look at the written count.
    pub(crate) ready: u64,
    /// How many words are taken whose room was not given back.
    pub(crate) unreturned: u64,
}

/// Takes the next words of the frame in hand: its length, or as many of its other words as may be taken.
fn take_run(rx: &mut RingRx, r: &Region, buffer: &mut [u8], taken: Taken) -> Taken
    requires here { rx.old.region ≡ r.now }
    requires stays { rx.old.end.gone ≡ false }
    requires some { 0 < taken.ready }
    requires counted { Ready rx.old.end taken.ready taken.unreturned }
    requires hand { InHand rx.old.end.ring.max (before_of rx.old.end taken.words) rx.old.end.taken buffer.old taken.words taken.len }
    requires unfinished { IsOpen taken.words taken.len }
    requires room { length buffer.old ≡ rx.old.end.ring.max }
    ensures kept { rx.new ≡ record rx.old { end = rx.new.end } }
    ensures takes { Takes rx.old.end rx.new.end }
    ensures steps { rx.new.end.turn + length rx.old.end.taken ≡ rx.old.end.turn + length rx.new.end.taken }
    ensures words { result.words + length rx.old.end.taken ≡ taken.words + length rx.new.end.taken }
    ensures looks { (rx.new.end.looked ≡ rx.old.end.looked) × (rx.new.end.avail ≡ rx.old.end.avail) }
    ensures counted { Ready rx.new.end result.ready result.unreturned }
    ensures hand { InHand rx.new.end.ring.max (before_of rx.old.end taken.words) rx.new.end.taken buffer.new result.words result.len }
    ensures some { taken.words < result.words }
    ensures further { result.words + result.ready ≡ taken.words + taken.ready }
{
    if taken.words == 0 {
        let len = rx.take(r);
        return Taken {
            words: 1,
            len,
            ready: taken.ready - 1,
            unreturned: taken.unreturned + 1,
        };
    }
    let run = taken.ready.min(1 + words_of(taken.len) - taken.words);
    rx.take_words(r, buffer, taken.words - 1, run);
    Taken {
        words: taken.words + run,
        len: taken.len,
        ready: taken.ready - run,
        unreturned: taken.unreturned + run,
    }
}

/// Takes words until the message is whole or no more may be taken. Returns whether it is whole.
pub(crate) fn take_words(
    rx: &mut RingRx,
    r: &Region,
    buffer: &mut [u8],
    taken: Taken,
) -> (Taken, bool)
    requires here { rx.old.region ≡ r.now }
    requires stays { rx.old.end.gone ≡ false }
    requires counted { Ready rx.old.end taken.ready taken.unreturned }
    requires hand { InHand rx.old.end.ring.max (before_of rx.old.end taken.words) rx.old.end.taken buffer.old taken.words taken.len }
    requires unfinished { IsOpen taken.words taken.len }
    requires room { length buffer.old ≡ rx.old.end.ring.max }
    ensures kept { rx.new ≡ record rx.old { end = rx.new.end } }
    ensures takes { Takes rx.old.end rx.new.end }
    ensures steps { rx.new.end.turn + length rx.old.end.taken ≡ rx.old.end.turn + length rx.new.end.taken }
    ensures words { result.0.words + length rx.old.end.taken ≡ taken.words + length rx.new.end.taken }
    ensures looks { (rx.new.end.looked ≡ rx.old.end.looked) × (rx.new.end.avail ≡ rx.old.end.avail) }
    ensures counted { Ready rx.new.end result.0.ready result.0.unreturned }
    ensures hand { InHand rx.new.end.ring.max (before_of rx.old.end taken.words) rx.new.end.taken buffer.new result.0.words result.0.len }
    ensures whole { MatchBool result.1 (result.0.words ≡ suc (word_count result.0.len)) (IsOpen result.0.words result.0.len × (result.0.ready ≡ 0)) }
    ensures further { 0 < taken.ready → taken.words < result.0.words }
{
    let mut taken = taken;
    while taken.ready > 0 {
        taken = take_run(rx, r, buffer, taken);
        if taken.words == 1 + words_of(taken.len) {
            return (taken, true);
        }
    }
    (taken, false)
}

/// At the end of a message, gives room back if more than a quarter of the ring was not given back.
pub(crate) fn finish_taking(rx: &mut RingRx, r: &Region, taken: Taken) -> Taken
    requires here { rx.old.region ≡ r.now }
    requires stays { rx.old.end.gone ≡ false }
    requires counted { Ready rx.old.end taken.ready taken.unreturned }
    ensures kept { rx.new ≡ record rx.old { end = record rx.old.end { returned = rx.new.end.returned; turn = rx.new.end.turn } } }
    ensures counted { Ready rx.new.end result.ready result.unreturned }
    ensures returned { rx.new.end.returned ≡ returned_of (length rx.old.end.taken) rx.old.end.returned (rx.old.end.ring.size / 4) }
    ensures next { (result.words ≡ 0) × (result.len ≡ taken.len) }
    ensures later { rx.old.end.turn ≤ rx.new.end.turn }
    ensures few { rx.new.end.turn ≤ rx.old.end.turn + 1 }
{
    if taken.unreturned > rx.words() / 4 {
        rx.publish_read(r);
        return Taken {
            words: 0,
            unreturned: 0,
            ..taken
        };
    }
    Taken { words: 0, ..taken }
}
