//! An end that can't go on by what it knows looks at what the other end has published. If too few words fit, the sender
//! publishes what it put and looks at the read count; if no more words may be taken, the receiver looks at the written
//! count, then at the flag, and if this is set at the count once more.

ghost use Rattle.std.specs.Prelude.{◌≡◌, ◌+◌, ◌<◌, ◌≤◌, false, length};
ghost use Rattle.mq_handle.specs.Taking.{Ready};
ghost use Rattle.mq_handle.specs.Looking.{LooksForRoom, Finds};
ghost use Rattle.mq_handle.specs.Filling.{publishes_rest};
ghost use Rattle.mq_handle.specs.Told.{LookFound, SawRoom, RoomFound};
ghost use Rattle.mq_handle.specs.Held.{Counted};

use crate::answers::ReceiveAnswer;
use crate::storing::Stored;
use crate::taking::Taken;
use mq_ring::{RingRx, RingTx};
use region_words::Region;

/// Publishes what was put, if some of it is not published yet.
fn publish_rest(tx: &mut RingTx, r: &Region, counts: Stored)
    requires here { tx.old.region ≡ r.now }
    requires stays { tx.old.end.gone ≡ false }
    requires counted { Counted tx.old.end counts.free counts.unpublished }
    ensures { tx.new ≡ record tx.old { end = publishes_rest tx.old.end } }
{
    if counts.unpublished > 0 {
        tx.publish(r);
    }
}

/// If fewer words fit than are wanted, publishes what was put and looks again.
pub(crate) fn look_for_room(tx: &mut RingTx, r: &Region, counts: Stored, wanted: u64) -> Stored
    requires here { tx.old.region ≡ r.now }
    requires stays { tx.old.end.gone ≡ false }
    requires counted { Counted tx.old.end counts.free counts.unpublished }
    ensures kept { tx.new ≡ record tx.old { end = tx.new.end } }
    ensures stored { result.words ≡ counts.words }
    ensures counted { Counted tx.new.end result.free result.unpublished }
    ensures looks { LooksForRoom tx.old.end tx.new.end wanted counts.free result.unpublished }
    ensures told { result.free < wanted → SawRoom tx.old.told tx.new.end }
    ensures found { RoomFound tx.old.told tx.old.end tx.new.end }
{
    if counts.free >= wanted {
        return counts;
    }
    publish_rest(tx, r, counts);
    let free = tx.look_read(r);
    Stored {
        words: counts.words,
        free,
        unpublished: 0,
    }
}

/// Gives back the room of what was taken, if some of it was not given back yet.
fn return_rest(rx: &mut RingRx, r: &Region, taken: Taken)
    requires here { rx.old.region ≡ r.now }
    requires stays { rx.old.end.gone ≡ false }
    requires counted { Ready rx.old.end taken.ready taken.unreturned }
    ensures end { rx.new ≡ record rx.old { end = record rx.old.end { returned = length rx.old.end.taken; turn = rx.new.end.turn } } }
    ensures later { rx.old.end.turn ≤ rx.new.end.turn }
    ensures few { rx.new.end.turn ≤ rx.old.end.turn + 1 }
{
    if taken.unreturned > 0 {
        rx.publish_read(r);
    }
}

/// Looks for more words. If there are none it says why.
pub(crate) fn look_for_words(
    rx: &mut RingRx,
    r: &Region,
    taken: Taken,
) -> (Taken, Option<ReceiveAnswer>)
    requires here { rx.old.region ≡ r.now }
    requires stays { rx.old.end.gone ≡ false }
    requires counted { Ready rx.old.end taken.ready taken.unreturned }
    ensures kept { rx.new ≡ record rx.old { end = rx.new.end } }
    ensures counted { Ready rx.new.end result.0.ready result.0.unreturned }
    ensures same { (result.0.words ≡ taken.words) × (result.0.len ≡ taken.len) }
    ensures found { Finds rx.old.end rx.new.end result.0.ready result.1 }
    ensures told { LookFound rx.old.told rx.old.end rx.new.end result.1 }
{
    let ready = rx.look_written(r);
    if ready > 0 {
        return (Taken { ready, ..taken }, None);
    }
    if !rx.look_flag(r) {
        let taken = Taken { ready, ..taken };
        return_rest(rx, r, taken);
        let taken = Taken {
            unreturned: 0,
            ..taken
        };
        return (taken, Some(ReceiveAnswer::WouldBlock));
    }
    let last = rx.look_written(r);
    if last > 0 {
        return (
            Taken {
                ready: last,
                ..taken
            },
            None,
        );
    }
    (
        Taken {
            ready: last,
            ..taken
        },
        Some(ReceiveAnswer::Detached),
    )
}
