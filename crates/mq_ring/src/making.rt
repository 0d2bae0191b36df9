//! A ring is made of a chunk.

ghost use Rattle.std.specs.Prelude.{◌≡◌, ◌≢◌, ℕ, ◌+◌, ◌*◌, ◌^◌, ◌<◌, ◌≤◌, [], None, false, IsTrue};
ghost use Rattle.word_map.specs.WordMap.{rest_of, values_from};
ghost use Rattle.ring_rule.specs.Ends.{first_sending, first_receiving};
ghost use Rattle.region_rule.specs.RingMap.{IsFresh};
ghost use Rattle.region_rule.specs.View.{Own};
ghost use Rattle.region_rule.specs.Places.{copying};
ghost use Rattle.region_words.specs.Parts.{own_map};
ghost use Rattle.mq_ring.specs.Ends.{sending_end, receiving_end, ring_of, LiesIn};

use crate::receiver::RingRx;
use crate::sender::RingTx;
use crate::site::Site;
use atomic_table::Seat;
use region_rule::{Known, Makes, Shape};
use region_words::{Chunk, Region};
use std::marker::Brand;

/// A ring that is to be made; its two ends are the values to hold.
pub struct Ring;

/// Whether a ring may have this number of cells: a power of two, up to 2^20. At most 21 steps.
#[tactic(auto, using(crate::proofs::Distances::power_few))]
pub fn is_ring_size(words: u64) -> bool
    ensures allowed { IsTrue result → (e : ℕ) × (words ≡ 2 ^ e) × (e ≤ 20) }
    ensures few { IsTrue result → words ≤ 2 ^ 20 }
    ensures refused { result ≡ false → (e : ℕ) → e ≤ 20 → words ≢ 2 ^ e }
{
    for e in 0..21u32 {
        if words == 2u64.pow(e) {
            return true;
        }
    }
    false
}

impl Ring {
    /// Makes a ring of the first `words + 3` words of a chunk, and keeps the rest of it in the sender's end. Both
    /// counts begin at `from`; a message has at most `max` bytes. The cells keep what their words held.
    pub fn create(r: &Region, chunk: Chunk, words: u64, from: u64, max: u32) -> (RingTx, RingRx)
        requires here { chunk.part.region ≡ r.now }
        requires power { (e : ℕ) × (words ≡ 2 ^ e) × (e ≤ 20) }
        requires room { 8 * (words + 3) ≤ chunk.bytes }
        requires max { max ≤ 1048576 }
        ensures tx { result.0 ≡ sending_end r.now (first_sending (ring_of chunk.at words from max) (values_from chunk.part.words (chunk.at + 3) words)) None (rest_of chunk.part.words chunk.at (words + 3)) chunk.bytes }
        ensures rx { result.1 ≡ receiving_end r.now (first_receiving (ring_of chunk.at words from max)) None }
    {
        let Chunk {
            at,
            bytes,
            part: mut rest,
        } = chunk;
        let base = at.word();
        rest.is_small();
        let mut part = rest.split(r, base, words + 3);
        part.store(r, base, from);
        part.store(r, base + 1, from);
        part.store(r, base + 2, 0);
        let spare = rest.split(r, base, 0).into_seat();
        let site = Site {
            base,
            size: words,
            max,
            bytes,
            rest,
        };
        let seat = part.into_copied_seat(r, base, 3);
        part_ends::<Brand>(r, seat, spare, site, from)
    }
}

/// The owner of a fresh ring, which has copied the counts and the flag, becomes its two ends. `J` names the ring, since
/// a cut can't take it as an argument.
fn part_ends<J: Shape>(
    r: &Region,
    mut seat: Seat<u64, Known>,
    spare: Seat<u64, Known>,
    site: Site,
    from: u64,
) -> (RingTx, RingRx)
    requires here { seat.table_id ≡ r.now }
    requires rest { site.rest.region ≡ r.now }
    requires ring { J.ring ≡ ring_of site.base site.size from site.max }
    requires owns { seat.me ≡ (copying (Own (own_map seat.me.0.view) None) J.ring.base 3, []) }
    requires fresh { IsFresh (own_map seat.me.0.view) J.ring }
    requires lies { LiesIn r.now J.ring site.base site.size site.max }
    ensures tx { result.0 ≡ sending_end r.now (first_sending J.ring (values_from (own_map seat.me.0.view) (J.ring.base + 3) J.ring.size)) None site.rest.words site.bytes }
    ensures rx { result.1 ≡ receiving_end r.now (first_receiving J.ring) None }
{
    let _ = from;
    let receiver = r.split_as::<Makes<J>>(&mut seat);
    let rx = RingRx {
        seat: receiver,
        base: site.base,
        size: site.size,
        max: site.max,
        position: from,
    };
    let tx = RingTx {
        seat,
        spare: Some(spare),
        site,
        position: from,
    };
    (tx, rx)
}
