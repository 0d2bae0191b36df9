//! The two ends of a ring come home, and give their chunk back.

ghost use Rattle.std.specs.Prelude.{◌≡◌, suc, ◌+◌, ◌<◌, ◌≤◌, [], length};
ghost use Rattle.word_map.specs.WordMap.{union};
ghost use Rattle.ring_rule.specs.Ring.{AreEnds};
ghost use Rattle.region_rule.specs.View.{Done};
ghost use Rattle.region_rule.specs.Places.{copying, IsIdle, IsCount};
ghost use Rattle.region_rule.specs.RingMap.{ring_map};
ghost use Rattle.region_words.specs.Parts.{owned, IsSized};
ghost use Rattle.mq_ring.specs.Ends.{ends_home, tx_of, rx_of};

use crate::receiver::RingRx;
use crate::sender::RingTx;
use crate::site::Site;
use atomic_table::Seat;
use region_rule::{Begins, Copies, Ends, Known, LoadsCount, LoadsDone, Meeting, Range};
use region_words::{Chunk, Part, Region};
use rel_pointer::RelPtr;
use std::marker::{Brand, Model};

/// The two ends of a ring that came home. Contracts see the last view of each, and what the sender's end kept of the
/// chunk.
#[derive(Drop)]
pub struct RingDone {
    seat: Seat<u64, Known>,
    site: Site,
}

impl Model for RingDone {
    ghost use Rattle.mq_ring.specs.Ends.{EndsHome, ends_home_code, ends_home, tx_of, rx_of, IsHome};

    ghost Value = { EndsHome };

    ghost coded = { ends_home_code };

    ghost view = { λ e. ends_home e.seat.table_id (tx_of e.seat.me.0.view) (rx_of e.seat.me.0.view) e.site.rest.words e.site.bytes };

    ghost invariant = { λ e. IsHome e.seat.table_id e.site.rest.region e.seat.me e.site.base e.site.size e.site.max };
}

/// Ends a ring, whether its ends are gone or not. The caller learns what holds of both ends.
pub fn home(tx: RingTx, rx: RingRx, r: &Region) -> RingDone
    requires here { tx.region ≡ r.now }
    requires rx_here { rx.region ≡ r.now }
    requires one_ring { tx.end.ring ≡ rx.end.ring }
    ensures lists { result ≡ ends_home tx.region tx.end rx.end tx.rest tx.bytes }
    ensures ends { AreEnds tx.end rx.end }
{
    let RingTx {
        mut seat,
        spare: _,
        site,
        position: _,
    } = tx;
    let RingRx {
        seat: receiver,
        base: _,
        size: _,
        max: _,
        position: _,
    } = rx;
    r.join_as::<Meeting>(&mut seat, receiver);
    r.load_as::<LoadsDone>(&mut seat, 0);
    RingDone { seat, site }
}

impl RingDone {
    /// The chunk that the ring was made of, whole again.
    pub fn into_chunk(self, r: &Region) -> Chunk
        requires { self.region ≡ r.now }
        ensures place { (result.at ≡ self.sender.ring.base) × (result.bytes ≡ self.bytes) }
        ensures part { result.part ≡ owned self.region (union (ring_map self.sender self.receiver) self.rest) }
    {
        let RingDone { seat, site } = self;
        let Site {
            base,
            size: _,
            max: _,
            bytes,
            rest,
        } = site;
        let mut part = ring_part::<Brand>(r, seat, base);
        part.join(r, rest);
        Chunk {
            at: RelPtr::of(base),
            bytes,
            part,
        }
    }
}

/// The words of a ring whose ends are joined, once its counts and its flag are back in their slots. `J` names the first
/// of them, since a step can't take it as an argument.
fn ring_part<J: Range>(r: &Region, mut seat: Seat<u64, Known>, base: u64) -> Part
    requires here { seat.table_id ≡ r.now }
    requires sized { IsSized r.now }
    requires done { IsIdle seat.me (Done (ring_map (tx_of seat.me.0.view) (rx_of seat.me.0.view)) (tx_of seat.me.0.view) (rx_of seat.me.0.view)) }
    requires counted { length (tx_of seat.me.0.view).cells ≡ (tx_of seat.me.0.view).ring.size }
    requires range { (J.from ≡ base) × (base ≡ (tx_of seat.me.0.view).ring.base) }
    requires inside { base + 3 + (tx_of seat.me.0.view).ring.size ≤ r.now.words }
    ensures { result ≡ owned r.now (ring_map (tx_of seat.me.0.view) (rx_of seat.me.0.view)) }
{
    r.load_as::<Begins<J>>(&mut seat, 0);
    restore_word(r, &mut seat, base);
    restore_word(r, &mut seat, base + 1);
    restore_word(r, &mut seat, base + 2);
    r.load_as::<Ends>(&mut seat, 0);
    Part::of_seat(seat)
}

/// Copies the next of a ring's counts and flag back to its slot.
fn restore_word(r: &Region, seat: &mut Seat<u64, Known>, at: u64)
    requires here { seat.old.table_id ≡ r.now }
    requires sized { IsSized r.now }
    requires inside { at < r.now.words }
    requires done { seat.old.me ≡ (copying (Done (ring_map (tx_of seat.old.me.0.view) (rx_of seat.old.me.0.view)) (tx_of seat.old.me.0.view) (rx_of seat.old.me.0.view)) seat.old.me.0.from seat.old.me.0.copied, []) }
    requires counted { length (tx_of seat.old.me.0.view).cells ≡ (tx_of seat.old.me.0.view).ring.size }
    requires count { IsCount (tx_of seat.old.me.0.view).ring at }
    requires next { at ≡ seat.old.me.0.from + seat.old.me.0.copied }
    ensures seat { (seat.new.table_id ≡ seat.old.table_id) × (seat.new.id ≡ seat.old.id) }
    ensures copied { seat.new.me ≡ (copying seat.old.me.0.view seat.old.me.0.from (suc seat.old.me.0.copied), []) }
{
    let value = r.load_as::<LoadsCount>(seat, at);
    r.store_slot_as::<Copies>(seat, at, value);
}
