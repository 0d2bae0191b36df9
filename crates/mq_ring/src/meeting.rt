//! The two ends of a ring meet.

ghost use Rattle.std.specs.Prelude.{◌≡◌, Some};
ghost use Rattle.ring_rule.specs.Ring.{AreEnds};

use crate::receiver::RingRx;
use crate::sender::RingTx;
use region_rule::{LoadsDone, Meeting};
use region_words::Region;

/// The two ends of a ring meet, gone or not: each learns what the other is, and the caller learns what holds of both.
/// It changes nothing that they have put, taken, published or set. Three loads.
pub fn meet(tx: &mut RingTx, rx: &mut RingRx, r: &Region)
    requires here { tx.old.region ≡ r.now }
    requires rx_here { rx.old.region ≡ r.now }
    requires one_ring { tx.old.end.ring ≡ rx.old.end.ring }
    ensures tx { tx.new ≡ record tx.old { told = Some rx.old.end } }
    ensures rx { rx.new ≡ record rx.old { told = Some tx.old.end } }
    ensures ends { AreEnds tx.old.end rx.old.end }
{
    let spare = tx.spare.take().unwrap();
    let receiver = std::mem::replace(&mut rx.seat, spare);
    r.join_as::<Meeting>(&mut tx.seat, receiver);
    r.load_as::<LoadsDone>(&mut tx.seat, 0);
    let receiver = r.split_as::<Meeting>(&mut tx.seat);
    tx.spare = Some(std::mem::replace(&mut rx.seat, receiver));
}
