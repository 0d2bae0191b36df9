//! The sender's end of a ring. Only it stores the cells and the written count.

ghost use Rattle.std.specs.Prelude.{◌≡◌, ◌+◌, ◌<◌, ◌≤◌, ◌++◌, ◌∷◌, [], false, true, length, IfSome, IsTrue};
ghost use Rattle.ring_rule.specs.Frames.{IsFramed};
ghost use Rattle.ring_rule.specs.Ring.{flag_word};
ghost use Rattle.ring_rule.specs.Ends.{puts, publishes, looks_read, sender_leaves, sender_sees_flag};

use crate::place::place_at;
use crate::site::Site;
use atomic_table::Seat;
use region_rule::{Known, Leaves, LoadsFlag, LooksRead, Publishes, Puts};
use region_words::Region;
use std::marker::Model;

/// The sender's end of a ring. Contracts see its region, what it knows (`end`), what the receiver was at their last
/// meeting (`told`), and what it keeps of the chunk (`rest`, `bytes`).
#[derive(Drop)]
pub struct RingTx {
    pub(crate) seat: Seat<u64, Known>,
    /// A token of no words, which replaces the receiver's while the ends are joined.
    pub(crate) spare: Option<Seat<u64, Known>>,
    pub(crate) site: Site,
    /// The word of the count of what was put.
    pub(crate) position: u64,
}

impl Model for RingTx {
    ghost use Rattle.std.specs.Prelude.{IsSome};
    ghost use Rattle.mq_ring.specs.Ends.{SendingEnd, sending_end_code, sending_end, tx_of, tx_told, IsSender};

    ghost Value = { SendingEnd };

    ghost coded = { sending_end_code };

    ghost view = { λ e. sending_end e.seat.table_id (tx_of e.seat.me.0.view) (tx_told e.seat.me.0.view) e.site.rest.words e.site.bytes };

    ghost invariant = { λ e. IsSender e.seat.table_id e.site.rest.region e.seat.me e.site.base e.site.size e.site.max e.position × IsSome e.spare };
}

impl RingTx {
    /// The number of cells of the ring, in words.
    pub fn words(&self) -> u64
        ensures { result ≡ self.now.end.ring.size }
    {
        self.site.size
    }

    /// The greatest length of a message, in bytes.
    pub fn max(&self) -> u32
        ensures { result ≡ self.now.end.ring.max }
    {
        self.site.max
    }

    /// Stores one word in the ring, by a plain store. The receiver may take it once it is published.
    pub fn put(&mut self, r: &Region, word: u64)
        requires here { self.old.region ≡ r.now }
        requires stays { self.old.end.gone ≡ false }
        requires room { length self.old.end.put < self.old.end.room + self.old.end.ring.size }
        requires framed { IsFramed self.old.end.ring.max (self.old.end.put ++ word ∷ []) }
        ensures { self.new ≡ record self.old { end = puts self.old.end word } }
    {
        let place = place_at(self.site.base, self.site.size, self.position);
        r.store_slot_as::<Puts>(&mut self.seat, place, word);
        self.position = self.position.wrapping_add(1);
    }

    /// Stores the written count: all that was put may be taken.
    pub fn publish(&mut self, r: &Region)
        requires here { self.old.region ≡ r.now }
        requires stays { self.old.end.gone ≡ false }
        ensures { self.new ≡ record self.old { end = publishes self.old.end } }
    {
        r.store_as::<Publishes>(&mut self.seat, self.site.base, self.position);
    }

    /// Loads the read count, and returns how many more words may be put.
    pub fn look_read(&mut self, r: &Region) -> u64
        requires here { self.old.region ≡ r.now }
        requires stays { self.old.end.gone ≡ false }
        ensures room { result + length self.old.end.put ≡ self.new.end.room + self.old.end.ring.size }
        ensures end { self.new ≡ record self.old { end = looks_read self.old.end self.new.end.room } }
        ensures within { self.new.end.room ≤ length self.old.end.put }
        ensures later { self.old.end.room ≤ self.new.end.room }
        ensures told { IfSome self.old.told (λ old. old.returned ≤ self.new.end.room) }
    {
        let found = r.load_as::<LooksRead>(&mut self.seat, self.site.base + 1);
        self.site.size - self.position.wrapping_sub(found)
    }

    /// Sets the flag: this end is gone, and makes no further step.
    pub fn set_flag(&mut self, r: &Region)
        requires here { self.old.region ≡ r.now }
        requires stays { self.old.end.gone ≡ false }
        ensures { self.new ≡ record self.old { end = sender_leaves self.old.end } }
    {
        r.store_as::<Leaves>(&mut self.seat, self.site.base + 2, 1);
    }

    /// Loads the flag: whether the receiver is gone. A flag that was found set is found set from then on.
    pub fn look_flag(&mut self, r: &Region) -> bool
        requires here { self.old.region ≡ r.now }
        requires stays { self.old.end.gone ≡ false }
        ensures end { self.new ≡ record self.old { end = sender_sees_flag self.old.end (flag_word result) } }
        ensures told { IfSome self.old.told (λ old. old.gone ≡ true → IsTrue result) }
        ensures stays_set { self.old.end.flag_value ≡ 1 → IsTrue result }
    {
        r.load_as::<LoadsFlag>(&mut self.seat, self.site.base + 2) == 1
    }
}
