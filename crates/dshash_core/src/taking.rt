//! Taking entries out, whichever comes next: the partition chooses the key, and makes a call of it that removes
//! whatever is there, as of any other key.

ghost use Rattle.std.specs.Prelude.{◌≡◌, ℕ, ◌<◌, ◌≤◌, List, [], true, false, length, IfNone, IfSome};
ghost use Rattle.dshash_core.specs.Chains.{Item};
ghost use Rattle.dshash_core.specs.Hung.{IsSpot, chain_of};
ghost use Rattle.dshash_core.specs.Cells.{AreCells};
ghost use Rattle.dshash_core.specs.Outcome.{AlwaysRemoves};
ghost use Rattle.dshash_core.specs.Calls.{IsTakenBy};

use crate::buckets::Buckets;
use crate::calls::{SOME_WORDS, change};
use crate::entries::KeyWords;
use crate::object::{CellObject, MOST_VALUE_WORDS};
use crate::words::Spot;
use region_words::{Chunk, Region};

/// The key that was taken out, what the call replied, and the key's item.
#[derive(Drop)]
pub struct Taken<O: CellObject> {
    pub key: KeyWords,
    pub reply: O::Reply,
    pub item: Chunk,
}

/// The first item of the first bucket that has one, among those from one on and below another.
fn next_spot(buckets: &mut Buckets, r: &Region, from: u64, end: u64) -> Option<(u64, Spot)>
    requires here { buckets.old.region ≡ r.now }
    requires end { end ≤ length buckets.old.chains }
    ensures same { buckets.new ≡ buckets.old }
    ensures none { IfNone result ((i : ℕ) → from ≤ i → i < end → chain_of buckets.old i ≡ []) }
    ensures bucket { IfSome result (λ s. s.0 < length buckets.old.chains) }
    ensures spot { IfSome result (λ s. (it : Item) × IsSpot buckets.old s.0 s.1.link it × (it.at ≡ s.1.item)) }
{
    for bucket in from..end {
        if let Some(spot) = buckets.first_spot(r, bucket) {
            return Some((bucket, spot));
        }
    }
    None
}

/// The first item of the first bucket that has one, from the bucket at the hand on and round to it again.
pub(crate) fn spot_at_hand(buckets: &mut Buckets, r: &Region, hand: u64) -> Option<(u64, Spot)>
    requires here { buckets.old.region ≡ r.now }
    ensures same { buckets.new ≡ buckets.old }
    ensures none { IfNone result ((i : ℕ) → i < length buckets.old.chains → chain_of buckets.old i ≡ []) }
    ensures bucket { IfSome result (λ s. s.0 < length buckets.old.chains) }
    ensures spot { IfSome result (λ s. (it : Item) × IsSpot buckets.old s.0 s.1.link it × (it.at ≡ s.1.item)) }
{
    let end = buckets.len();
    match next_spot(buckets, r, hand, end) {
        Some(found) => Some(found),
        None => next_spot(buckets, r, 0, hand.min(end)),
    }
}

/// Takes the item at a spot out, by a call of its key. `words` is memory for the key, and `buffer` for the value.
fn take_in<O: CellObject>(
    buckets: &mut Buckets,
    r: &Region,
    count: &mut u64,
    buffer: &mut [u64],
    bucket: u64,
    spot: Spot,
    call: &O::Call,
    words: Vec<u64>,
) -> Taken<O>
    requires here { buckets.old.region ≡ r.now }
    requires bucket { bucket < length buckets.old.chains }
    requires spot { (it : Item) × IsSpot buckets.old bucket spot.link it × (it.at ≡ spot.item) }
    requires buffer { length buffer.old ≡ O.VALUE_WORDS }
    requires words { length words.items ≡ buckets.old.layout.key_words }
    requires cells { (size : ℕ) × AreCells size count.old O.VALUE_WORDS buckets.old }
    requires removes { AlwaysRemoves O.stepped call.now }
    ensures buffer { length buffer.new ≡ length buffer.old }
    ensures key { length result.key ≡ buckets.old.layout.key_words }
    ensures called { IsTakenBy O.stepped O.decoded O.VALUE_WORDS buckets.old count.old buckets.new count.new result.key call.now result.reply }
    ensures item { (result.item.part.region ≡ buckets.old.region) × (result.item.bytes ≡ buckets.old.layout.item_bytes) }
{
    let mut words = words;
    buckets.read_key(r, spot.item, words.as_mut_slice());
    let (reply, freed) = change::<O>(buckets, r, count, buffer, bucket, spot, call);
    let Some(item) = freed else { unreachable!() };
    Taken {
        key: KeyWords::of(words),
        reply,
        item,
    }
}

/// The same with memory on the stack for a value of this many words.
fn take_on<O: CellObject, const ROOM: usize>(
    buckets: &mut Buckets,
    r: &Region,
    count: &mut u64,
    bucket: u64,
    spot: Spot,
    call: &O::Call,
    words: Vec<u64>,
) -> Taken<O>
    requires here { buckets.old.region ≡ r.now }
    requires bucket { bucket < length buckets.old.chains }
    requires spot { (it : Item) × IsSpot buckets.old bucket spot.link it × (it.at ≡ spot.item) }
    requires room { (O.VALUE_WORDS ≤ ROOM) × (ROOM ≤ 65536) }
    requires words { length words.items ≡ buckets.old.layout.key_words }
    requires cells { (size : ℕ) × AreCells size count.old O.VALUE_WORDS buckets.old }
    requires removes { AlwaysRemoves O.stepped call.now }
    ensures key { length result.key ≡ buckets.old.layout.key_words }
    ensures called { IsTakenBy O.stepped O.decoded O.VALUE_WORDS buckets.old count.old buckets.new count.new result.key call.now result.reply }
    ensures item { (result.item.part.region ≡ buckets.old.region) × (result.item.bytes ≡ buckets.old.layout.item_bytes) }
{
    let mut value = [0; ROOM];
    let buffer = &mut value[..O::VALUE_WORDS];
    take_in::<O>(buckets, r, count, buffer, bucket, spot, call, words)
}

/// The same with memory for the longest value, in a frame that no other call has.
#[cold]
#[inline(never)]
fn take_long<O: CellObject>(
    buckets: &mut Buckets,
    r: &Region,
    count: &mut u64,
    bucket: u64,
    spot: Spot,
    call: &O::Call,
    words: Vec<u64>,
) -> Taken<O>
    requires here { buckets.old.region ≡ r.now }
    requires bucket { bucket < length buckets.old.chains }
    requires spot { (it : Item) × IsSpot buckets.old bucket spot.link it × (it.at ≡ spot.item) }
    requires short { O.VALUE_WORDS ≤ 65536 }
    requires words { length words.items ≡ buckets.old.layout.key_words }
    requires cells { (size : ℕ) × AreCells size count.old O.VALUE_WORDS buckets.old }
    requires removes { AlwaysRemoves O.stepped call.now }
    ensures key { length result.key ≡ buckets.old.layout.key_words }
    ensures called { IsTakenBy O.stepped O.decoded O.VALUE_WORDS buckets.old count.old buckets.new count.new result.key call.now result.reply }
    ensures item { (result.item.part.region ≡ buckets.old.region) × (result.item.bytes ≡ buckets.old.layout.item_bytes) }
{
    take_on::<O, MOST_VALUE_WORDS>(buckets, r, count, bucket, spot, call, words)
}

/// The same with the memory that a value of the object needs.
pub(crate) fn take_at<O: CellObject>(
    buckets: &mut Buckets,
    r: &Region,
    count: &mut u64,
    bucket: u64,
    spot: Spot,
    call: &O::Call,
    words: Vec<u64>,
) -> Taken<O>
    requires here { buckets.old.region ≡ r.now }
    requires bucket { bucket < length buckets.old.chains }
    requires spot { (it : Item) × IsSpot buckets.old bucket spot.link it × (it.at ≡ spot.item) }
    requires short { O.VALUE_WORDS ≤ 65536 }
    requires words { length words.items ≡ buckets.old.layout.key_words }
    requires cells { (size : ℕ) × AreCells size count.old O.VALUE_WORDS buckets.old }
    requires removes { AlwaysRemoves O.stepped call.now }
    ensures key { length result.key ≡ buckets.old.layout.key_words }
    ensures called { IsTakenBy O.stepped O.decoded O.VALUE_WORDS buckets.old count.old buckets.new count.new result.key call.now result.reply }
    ensures item { (result.item.part.region ≡ buckets.old.region) × (result.item.bytes ≡ buckets.old.layout.item_bytes) }
{
    if O::VALUE_WORDS <= SOME_WORDS {
        take_on::<O, SOME_WORDS>(buckets, r, count, bucket, spot, call, words)
    } else {
        take_long::<O>(buckets, r, count, bucket, spot, call, words)
    }
}
