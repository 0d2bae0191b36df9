//! A word goes through a ring.

ghost use Rattle.std.specs.Prelude.{◌≡◌, ℕ, ◌+◌, ◌<◌, ◌≤◌, ◌++◌, ◌∷◌, [], false, length, List, IfSome, IfNone};
ghost use Rattle.ring_rule.specs.Frames.{IsFramed};
ghost use Rattle.ring_rule.specs.Ends.{puts, publishes};

use mq_ring::{RingRx, RingTx, meet};
use region_words::Region;
use std::thread::{Threads, join};

/// Puts one word and publishes it.
pub fn send_word(r: &Region, tx: &mut RingTx, word: u64)
    requires here { tx.old.region ≡ r.now }
    requires stays { tx.old.end.gone ≡ false }
    requires room { length tx.old.end.put < tx.old.end.room + tx.old.end.ring.size }
    requires framed { IsFramed tx.old.end.ring.max (tx.old.end.put ++ word ∷ []) }
    ensures { tx.new ≡ record tx.old { end = publishes (puts tx.old.end word) } }
{
    tx.put(r, word);
    tx.publish(r);
}

/// Takes a word that the sender has published: after the two ends have met, the next look is sure to find it, and it is
/// the next one put.
pub fn hand_over(r: &Region, tx: &mut RingTx, rx: &mut RingRx) -> u64
    requires here { tx.old.region ≡ r.now }
    requires rx_here { rx.old.region ≡ r.now }
    requires one_ring { tx.old.end.ring ≡ rx.old.end.ring }
    requires stays { rx.old.end.gone ≡ false }
    requires published { length rx.old.end.taken < tx.old.end.published }
    ensures next { (rest : List ℕ) × (tx.old.end.put ≡ (rx.old.end.taken ++ result ∷ []) ++ rest) }
    ensures taken { rx.new.end.taken ≡ rx.old.end.taken ++ result ∷ [] }
{
    meet(tx, rx, r);
    rx.look_written(r);
    let word = rx.take(r);
    meet(tx, rx, r);
    word
}

/// Takes the next word, if the receiver's next look finds it.
pub fn try_take(r: &Region, rx: &mut RingRx) -> Option<u64>
    requires here { rx.old.region ≡ r.now }
    requires stays { rx.old.end.gone ≡ false }
    ensures here { rx.new.region ≡ rx.old.region }
    ensures ring { rx.new.end.ring ≡ rx.old.end.ring }
    ensures stays { rx.new.end.gone ≡ false }
    ensures taken { IfSome result (λ word. rx.new.end.taken ≡ rx.old.end.taken ++ word ∷ []) }
    ensures nothing { IfNone result (rx.new.end.taken ≡ rx.old.end.taken) }
{
    if rx.look_written(r) > 0 {
        Some(rx.take(r))
    } else {
        None
    }
}

/// Both ends at work at once, each in its own thread: the sender puts a word and publishes it, and the receiver takes
/// it, if it looks late enough.
pub fn at_once<R: Threads + Sync>(
    rt: &R,
    r: &Region,
    tx: RingTx,
    rx: RingRx,
    word: u64,
) -> (RingTx, RingRx, Option<u64>)
    requires here { tx.region ≡ r.now }
    requires rx_here { rx.region ≡ r.now }
    requires stays { (tx.end.gone ≡ false) × (rx.end.gone ≡ false) }
    requires room { length tx.end.put < tx.end.room + tx.end.ring.size }
    requires framed { IsFramed tx.end.ring.max (tx.end.put ++ word ∷ []) }
    ensures sent { result.0 ≡ record tx { end = publishes (puts tx.end word) } }
    ensures rx_here { result.1.region ≡ rx.region }
    ensures ring { result.1.end.ring ≡ rx.end.ring }
    ensures rx_stays { result.1.end.gone ≡ false }
    ensures taken { IfSome result.2 (λ word. result.1.end.taken ≡ rx.end.taken ++ word ∷ []) }
    ensures nothing { IfNone result.2 (result.1.end.taken ≡ rx.end.taken) }
{
    let mut tx = tx;
    let mut rx = rx;
    let (tx, (rx, found)) = join(
        rt,
        || -> RingTx
            requires { (tx.region ≡ r.now) × (tx.end.gone ≡ false) × (length tx.end.put < tx.end.room + tx.end.ring.size) × IsFramed tx.end.ring.max (tx.end.put ++ word ∷ []) }
            ensures { result ≡ record tx { end = publishes (puts tx.end word) } }
        {
            send_word(r, &mut tx, word);
            tx
        },
        || -> (RingRx, Option<u64>)
            requires { (rx.region ≡ r.now) × (rx.end.gone ≡ false) }
            ensures { (result.0.region ≡ rx.region) × (result.0.end.ring ≡ rx.end.ring) × (result.0.end.gone ≡ false)
                × IfSome result.1 (λ word. result.0.end.taken ≡ rx.end.taken ++ word ∷ []) × IfNone result.1 (result.0.end.taken ≡ rx.end.taken) }
        {
            let found = try_take(r, &mut rx);
            (rx, found)
        },
    );
    (tx, rx, found)
}
