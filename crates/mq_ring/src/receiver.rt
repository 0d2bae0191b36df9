//! The receiver's end of a ring. Only it stores the read count.

ghost use Rattle.std.specs.Prelude.{◌≡◌, ◌+◌, ◌<◌, ◌≤◌, false, true, length, IfSome, IsTrue};
ghost use Rattle.ring_rule.specs.Frames.{IsFramed};
ghost use Rattle.ring_rule.specs.Ring.{flag_word};
ghost use Rattle.ring_rule.specs.Ends.{takes, gives_back, sees_written, receiver_leaves, receiver_sees_flag};

use crate::place::place_at;
use atomic_table::Seat;
use region_rule::{GivesBack, Known, Leaves, LoadsFlag, LooksWritten, Takes};
use region_words::Region;
use std::marker::Model;

/// The receiver's end of a ring. Contracts see its region, what it knows (`end`), and what the sender was at their last
/// meeting (`told`).
#[derive(Drop)]
pub struct RingRx {
    pub(crate) seat: Seat<u64, Known>,
    /// The word of the written count, the first of the ring.
    pub(crate) base: u64,
    /// How many cells the ring has, a power of two.
    pub(crate) size: u64,
    /// The bytes of the greatest message.
    pub(crate) max: u32,
    /// The word of the count of what was taken.
    pub(crate) position: u64,
}

impl Model for RingRx {
    ghost use Rattle.mq_ring.specs.Ends.{ReceivingEnd, receiving_end_code, receiving_end, rx_of, rx_told, IsReceiver};

    ghost Value = { ReceivingEnd };

    ghost coded = { receiving_end_code };

    ghost view = { λ e. receiving_end e.seat.table_id (rx_of e.seat.me.0.view) (rx_told e.seat.me.0.view) };

    ghost invariant = { λ e. IsReceiver e.seat.table_id e.seat.me e.base e.size e.max e.position };
}

impl RingRx {
    /// The number of cells of the ring, in words.
    pub fn words(&self) -> u64
        ensures { result ≡ self.now.end.ring.size }
    {
        self.size
    }

    /// The greatest length of a message, in bytes.
    pub fn max(&self) -> u32
        ensures { result ≡ self.now.end.ring.max }
    {
        self.max
    }

    /// Loads the written count, and returns how many published words are not yet taken. If the last look at the flag
    /// found it set, this is the last count that the sender ever publishes.
    pub fn look_written(&mut self, r: &Region) -> u64
        requires here { self.old.region ≡ r.now }
        requires stays { self.old.end.gone ≡ false }
        ensures ready { result + length self.old.end.taken ≡ self.new.end.avail }
        ensures end { self.new ≡ record self.old { end = sees_written self.old.end self.new.end.avail } }
        ensures within { self.new.end.avail ≤ self.old.end.returned + self.old.end.ring.size }
        ensures later { self.old.end.avail ≤ self.new.end.avail }
        ensures told { IfSome self.old.told (λ old. old.published ≤ self.new.end.avail) }
    {
        let found = r.load_as::<LooksWritten>(&mut self.seat, self.base);
        found.wrapping_sub(self.position)
    }

    /// Takes the next word that was put. What was taken is a beginning of the frames of some messages, since what was
    /// put is.
    pub fn take(&mut self, r: &Region) -> u64
        requires here { self.old.region ≡ r.now }
        requires stays { self.old.end.gone ≡ false }
        requires ready { length self.old.end.taken < self.old.end.avail }
        ensures end { self.new ≡ record self.old { end = takes self.old.end result } }
        ensures framed { IsFramed self.old.end.ring.max self.new.end.taken }
    {
        let place = place_at(self.base, self.size, self.position);
        let word = r.load_slot_as::<Takes>(&mut self.seat, place);
        self.position = self.position.wrapping_add(1);
        word
    }

    /// Stores the read count: the cells of all that was taken may be used again.
    pub fn publish_read(&mut self, r: &Region)
        requires here { self.old.region ≡ r.now }
        requires stays { self.old.end.gone ≡ false }
        ensures { self.new ≡ record self.old { end = gives_back self.old.end } }
    {
        r.store_as::<GivesBack>(&mut self.seat, self.base + 1, self.position);
    }

    /// Sets the flag: this end is gone, and makes no further step.
    pub fn set_flag(&mut self, r: &Region)
        requires here { self.old.region ≡ r.now }
        requires stays { self.old.end.gone ≡ false }
        ensures { self.new ≡ record self.old { end = receiver_leaves self.old.end } }
    {
        r.store_as::<Leaves>(&mut self.seat, self.base + 2, 1);
    }

    /// Loads the flag: whether the sender is gone. A flag that was found set is found set from then on.
    pub fn look_flag(&mut self, r: &Region) -> bool
        requires here { self.old.region ≡ r.now }
        requires stays { self.old.end.gone ≡ false }
        ensures end { self.new ≡ record self.old { end = receiver_sees_flag self.old.end (flag_word result) } }
        ensures told { IfSome self.old.told (λ old. old.gone ≡ true → IsTrue result) }
        ensures stays_set { self.old.end.flag_value ≡ 1 → IsTrue result }
    {
        r.load_as::<LoadsFlag>(&mut self.seat, self.base + 2) == 1
    }
}
