//! The words of a frame are stored in runs, as many at once as are known to fit, with what the sender's end counts.

ghost use Rattle.std.specs.Prelude.{◌≡◌, ◌+◌, ◌-◌, ◌*◌, ◌/◌, ◌<◌, ◌≤◌, ◌++◌, ◌⊎◌, ℕ, false, true, length, take, drop, min, IsTrue, MatchBool, cond, ◌||◌, ltb};
ghost use Rattle.std.specs.List.{fold};
ghost use Rattle.rel_pointer.specs.Bytes.{word_count};
ghost use Rattle.ring_rule.specs.Frames.{frame, IsFramed};
ghost use Rattle.ring_rule.specs.Ends.{puts};
ghost use Rattle.mq_handle.specs.Held.{Counted};
ghost use Rattle.mq_handle.specs.Told.{SawRoom, RoomFound};
ghost use Rattle.mq_handle.specs.Filling.{FillsTo, base_of, finishes};

use crate::body::Body;
use crate::looking::look_for_room;
use mq_ring::RingTx;
use region_words::Region;
use rel_pointer::words_of;

/// What a sender knows of its ring, besides the ring's own end.
#[derive(Clone, Copy)]
pub(crate) struct Stored {
    /// How many words of the frame in hand are stored.
    pub(crate) words: u64,
    /// How many more words fit, by the last look at the read count.
    pub(crate) free: u64,
    /// How many words are stored and not published.
    pub(crate) unpublished: u64,
}

/// Stores the given number of words of the message's frame, from word `at` on.
fn put_frame_words(tx: &mut RingTx, r: &Region, message: &Body<'_>, at: u64, run: u64)
    requires here { tx.old.region ≡ r.now }
    requires stays { tx.old.end.gone ≡ false }
    requires some { 0 < run }
    requires inside { at + run ≤ length (frame message.now) }
    requires room { length tx.old.end.put + run ≤ tx.old.end.room + tx.old.end.ring.size }
    requires framed { IsFramed tx.old.end.ring.max (tx.old.end.put ++ take run (drop at (frame message.now))) }
    ensures { tx.new ≡ record tx.old { end = fold puts tx.old.end (take run (drop at (frame message.now))) } }
{
    if at > 0 {
        message.put_words(tx, r, at - 1, run);
        return;
    }
    tx.put(r, message.len());
    message.put_words(tx, r, 0, run - 1);
}

/// Stores the next words of the frame, as many as are known to fit.
pub(crate) fn store_run(tx: &mut RingTx, r: &Region, message: &Body<'_>, counts: Stored) -> Stored
    requires here { tx.old.region ≡ r.now }
    requires stays { tx.old.end.gone ≡ false }
    requires counted { Counted tx.old.end counts.free counts.unpublished }
    requires some { 0 < counts.free }
    requires more { counts.words < length (frame message.now) }
    requires framed { IsFramed tx.old.end.ring.max (tx.old.end.put ++ drop counts.words (frame message.now)) }
    ensures end { tx.new ≡ record tx.old { end = fold puts tx.old.end (take counts.free (drop counts.words (frame message.now))) } }
    ensures counted { Counted tx.new.end result.free result.unpublished }
    ensures words { result.words ≡ counts.words + min counts.free (length (frame message.now) - counts.words) }
{
    let total = 1 + words_of(message.len());
    let run = counts.free.min(total - counts.words);
    put_frame_words(tx, r, message, counts.words, run);
    Stored {
        words: counts.words + run,
        free: counts.free - run,
        unpublished: counts.unpublished + run,
    }
}

/// Stores words of the frame as long as they fit. Returns whether all are stored.
pub(crate) fn store_words(
    tx: &mut RingTx,
    r: &Region,
    message: &Body<'_>,
    counts: Stored,
) -> (Stored, bool)
    requires here { tx.old.region ≡ r.now }
    requires stays { tx.old.end.gone ≡ false }
    requires counted { Counted tx.old.end counts.free counts.unpublished }
    requires stored { counts.words ≤ length (frame message.now) }
    requires begins { tx.old.end.put ≡ base_of tx.old.end counts.words ++ take counts.words (frame message.now) }
    requires framed { IsFramed tx.old.end.ring.max (base_of tx.old.end counts.words ++ frame message.now) }
    ensures kept { tx.new ≡ record tx.old { end = tx.new.end } }
    ensures steps { FillsTo result.1 (length (base_of tx.old.end counts.words ++ frame message.now)) tx.old.end tx.new.end }
    ensures counted { Counted tx.new.end result.0.free result.0.unpublished }
    ensures put { tx.new.end.put ≡ base_of tx.old.end counts.words ++ take result.0.words (frame message.now) }
    ensures told { result.1 ≡ false → SawRoom tx.old.told tx.new.end }
    ensures found { RoomFound tx.old.told tx.old.end tx.new.end }
    ensures all { MatchBool result.1 (result.0.words ≡ length (frame message.now)) (result.0.words < length (frame message.now)) }
{
    let total = 1 + words_of(message.len());
    let mut counts = counts;
    while counts.words < total {
        counts = look_for_room(tx, r, counts, 1);
        if counts.free == 0 {
            return (counts, false);
        }
        counts = store_run(tx, r, message, counts);
    }
    (counts, true)
}

/// At the end of a message, publishes if that is asked for or more than a quarter of the ring is not published.
pub(crate) fn finish_storing(tx: &mut RingTx, r: &Region, counts: Stored, flush: bool) -> Stored
    requires here { tx.old.region ≡ r.now }
    requires stays { tx.old.end.gone ≡ false }
    requires counted { Counted tx.old.end counts.free counts.unpublished }
    ensures end { tx.new ≡ record tx.old { end = finishes flush tx.old.end } }
    ensures counted { Counted tx.new.end result.free result.unpublished }
    ensures stored { result.words ≡ 0 }
{
    if flush || counts.unpublished > tx.words() / 4 {
        tx.publish(r);
        return Stored {
            words: 0,
            free: counts.free,
            unpublished: 0,
        };
    }
    Stored { words: 0, ..counts }
}
