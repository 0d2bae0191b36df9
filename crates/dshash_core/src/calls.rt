//! The calls of a partition, on its buckets: of a key that is there, and of one that is not.

ghost use Rattle.std.specs.Prelude.{◌≡◌, ℕ, ◌+◌, ◌/◌, ◌<◌, ◌≤◌, Bool, List, ◌∷◌, length, Option, Some, None, is_some, IfSome};
ghost use Rattle.dshash_core.specs.Key.{seeded_hash};
ghost use Rattle.dshash_core.specs.Chains.{Item};
ghost use Rattle.dshash_core.specs.Hung.{HasItem, HasNoItem, with_chain, chain_of};
ghost use Rattle.dshash_core.specs.Cells.{AreCells, all_items, bucket_of, cells_of};
ghost use Rattle.dshash_core.specs.Outcome.{HandsOut};
ghost use Rattle.dshash_core.specs.Calls.{IsCalled, IsAnswered};

use crate::buckets::Buckets;
use crate::object::{CellObject, MOST_VALUE_WORDS};
use crate::outcome::CoreOut;
use crate::sizes::{bucket_of_hash, is_full_at};
use crate::words::{Spot, fill};
use region_words::{Chunk, Region};

/// The room that a call has for the words of a short value, and of one of middle length.
pub(crate) const FEW_WORDS: usize = 4;

pub(crate) const SOME_WORDS: usize = 64;

/// Makes the call of the item at a spot: its state is changed, or the item is taken out. A call that only reads stores
/// nothing.
#[inline(always)]
pub(crate) fn change<O: CellObject>(
    buckets: &mut Buckets,
    r: &Region,
    count: &mut u64,
    buffer: &mut [u64],
    bucket: u64,
    spot: Spot,
    call: &O::Call,
) -> (O::Reply, Option<Chunk>)
    requires here { buckets.old.region ≡ r.now }
    requires bucket { bucket < length buckets.old.chains }
    requires spot { (key : List ℕ) × HasItem buckets.old bucket spot.link spot.item key }
    requires buffer { length buffer.old ≡ O.VALUE_WORDS }
    requires cells { (size : ℕ) × AreCells size count.old O.VALUE_WORDS buckets.old }
    ensures buffer { length buffer.new ≡ length buffer.old }
    ensures called { (size : ℕ) (key : List ℕ) (spare : Bool) → AreCells size count.old O.VALUE_WORDS buckets.old → HasItem buckets.old bucket spot.link spot.item key
        → IsCalled O.stepped O.decoded size count.new O.VALUE_WORDS buckets.old buckets.new key call.now spare result.0 spare (is_some result.1) }
    ensures freed { IfSome result.1 (λ c. (c.part.region ≡ buckets.old.region) × (c.bytes ≡ buckets.old.layout.item_bytes)) }
{
    buckets.read_value(r, spot.item, buffer);
    let state = O::decode(buffer);
    let (next, reply) = O::step(Some(&state), call);
    match next {
        Some(next) => {
            if O::reads(call) {
                return (reply, None);
            }
            O::encode(&next, buffer);
            buckets.write_value(r, bucket, spot, buffer);
            (reply, None)
        }
        None => {
            *count -= 1;
            (reply, Some(buckets.unlink(r, bucket, spot)))
        }
    }
}

/// Hangs a new item in for the key, with this state.
#[inline(always)]
fn insert<O: CellObject>(
    buckets: &mut Buckets,
    r: &Region,
    buffer: &mut [u64],
    bucket: u64,
    hash: u64,
    key: &[u64],
    state: &O::State,
    item: Chunk,
)
    requires here { (buckets.old.region ≡ r.now) × (item.part.region ≡ r.now) }
    requires bucket { bucket < length buckets.old.chains }
    requires hash { hash ≡ seeded_hash buckets.old.layout.seed key.now }
    requires key { length key.now ≡ buckets.old.layout.key_words }
    requires buffer { length buffer.old ≡ O.VALUE_WORDS }
    requires values { buckets.old.layout.value_words ≡ O.VALUE_WORDS }
    requires size { item.bytes ≡ buckets.old.layout.item_bytes }
    requires room { 2 + length key.now + O.VALUE_WORDS ≤ item.bytes / 8 }
    ensures { (it : Item) × (it.key ≡ key.now) × (O.decoded it.value ≡ state.now) × (buckets.new ≡ with_chain buckets.old bucket (it ∷ chain_of buckets.old bucket)) }
{
    O::encode(state, buffer);
    let item = fill(item, r, hash, key, buffer);
    buckets.push(r, bucket, item);
}

/// What the call makes if there is no state yet.
pub(crate) fn first_step<O: CellObject>(call: &O::Call) -> (Option<O::State>, O::Reply)
    ensures { result ≡ O.stepped None call.now }
{
    let nothing: Option<O::State> = None;
    O::step(nothing.as_ref(), call)
}

/// Makes the call of a key that is not there: if it makes a state, and the partition is not full, the spare item takes
/// it in.
#[inline(always)]
fn put_in<O: CellObject>(
    buckets: &mut Buckets,
    r: &Region,
    count: &mut u64,
    buffer: &mut [u64],
    size: u32,
    hash: u64,
    key: &[u64],
    call: &O::Call,
    spare: Option<Chunk>,
) -> CoreOut<O>
    requires here { buckets.old.region ≡ r.now }
    requires hash { hash ≡ seeded_hash buckets.old.layout.seed key.now }
    requires key { length key.now ≡ buckets.old.layout.key_words }
    requires buffer { length buffer.old ≡ O.VALUE_WORDS }
    requires cells { AreCells size count.old O.VALUE_WORDS buckets.old }
    requires absent { HasNoItem buckets.old (bucket_of size hash) key.now }
    requires spare { IfSome spare (λ c. (c.part.region ≡ r.now) × (c.bytes ≡ buckets.old.layout.item_bytes)) }
    ensures answered { IsAnswered O.stepped O.decoded size count.old count.new O.VALUE_WORDS buckets.old buckets.new key.now call.now (is_some spare) result }
    ensures handed { HandsOut buckets.old.region buckets.old.layout.item_bytes spare result }
{
    let (next, reply) = first_step::<O>(call);
    let state = match next {
        Some(state) => state,
        None => {
            return CoreOut::Done {
                reply,
                unused: spare,
                freed: None,
            };
        }
    };
    if is_full_at(size, *count) {
        return CoreOut::TooFull { size, spare };
    }
    match spare {
        Some(item) => {
            buckets.is_sound();
            *count += 1;
            let bucket = bucket_of_hash(size, hash);
            insert::<O>(buckets, r, buffer, bucket, hash, key, &state, item);
            CoreOut::Done {
                reply,
                unused: None,
                freed: None,
            }
        }
        None => CoreOut::NeedItem,
    }
}

/// Makes a call of a partition of a size, of a key with this hash, with memory for a value's words.
#[inline(always)]
fn answer_in<O: CellObject>(
    buckets: &mut Buckets,
    r: &Region,
    count: &mut u64,
    buffer: &mut [u64],
    size: u32,
    hash: u64,
    key: &[u64],
    call: &O::Call,
    spare: Option<Chunk>,
) -> CoreOut<O>
    requires here { buckets.old.region ≡ r.now }
    requires hash { hash ≡ seeded_hash buckets.old.layout.seed key.now }
    requires key { length key.now ≡ buckets.old.layout.key_words }
    requires buffer { length buffer.old ≡ O.VALUE_WORDS }
    requires cells { AreCells size count.old O.VALUE_WORDS buckets.old }
    requires spare { IfSome spare (λ c. (c.part.region ≡ r.now) × (c.bytes ≡ buckets.old.layout.item_bytes)) }
    ensures answered { IsAnswered O.stepped O.decoded size count.old count.new O.VALUE_WORDS buckets.old buckets.new key.now call.now (is_some spare) result }
    ensures handed { HandsOut buckets.old.region buckets.old.layout.item_bytes spare result }
{
    let bucket = bucket_of_hash(size, hash);
    match buckets.find(r, bucket, hash, key) {
        Some(spot) => {
            let (reply, freed) = change::<O>(buckets, r, count, buffer, bucket, spot, call);
            CoreOut::Done {
                reply,
                unused: spare,
                freed,
            }
        }
        None => put_in::<O>(buckets, r, count, buffer, size, hash, key, call, spare),
    }
}

/// The same with memory on the stack for this many words.
#[inline(always)]
fn answer_on<O: CellObject, const ROOM: usize>(
    buckets: &mut Buckets,
    r: &Region,
    count: &mut u64,
    size: u32,
    hash: u64,
    key: &[u64],
    call: &O::Call,
    spare: Option<Chunk>,
) -> CoreOut<O>
    requires here { buckets.old.region ≡ r.now }
    requires hash { hash ≡ seeded_hash buckets.old.layout.seed key.now }
    requires key { length key.now ≡ buckets.old.layout.key_words }
    requires room { (O.VALUE_WORDS ≤ ROOM) × (ROOM ≤ 65536) }
    requires cells { AreCells size count.old O.VALUE_WORDS buckets.old }
    requires spare { IfSome spare (λ c. (c.part.region ≡ r.now) × (c.bytes ≡ buckets.old.layout.item_bytes)) }
    ensures answered { IsAnswered O.stepped O.decoded size count.old count.new O.VALUE_WORDS buckets.old buckets.new key.now call.now (is_some spare) result }
    ensures handed { HandsOut buckets.old.region buckets.old.layout.item_bytes spare result }
{
    let mut value = [0; ROOM];
    let words = &mut value[..O::VALUE_WORDS];
    answer_in::<O>(buckets, r, count, words, size, hash, key, call, spare)
}

/// The same with memory for the longest value, in a frame that no other call has.
#[cold]
#[inline(never)]
fn answer_long<O: CellObject>(
    buckets: &mut Buckets,
    r: &Region,
    count: &mut u64,
    size: u32,
    hash: u64,
    key: &[u64],
    call: &O::Call,
    spare: Option<Chunk>,
) -> CoreOut<O>
    requires here { buckets.old.region ≡ r.now }
    requires hash { hash ≡ seeded_hash buckets.old.layout.seed key.now }
    requires key { length key.now ≡ buckets.old.layout.key_words }
    requires short { O.VALUE_WORDS ≤ 65536 }
    requires cells { AreCells size count.old O.VALUE_WORDS buckets.old }
    requires spare { IfSome spare (λ c. (c.part.region ≡ r.now) × (c.bytes ≡ buckets.old.layout.item_bytes)) }
    ensures answered { IsAnswered O.stepped O.decoded size count.old count.new O.VALUE_WORDS buckets.old buckets.new key.now call.now (is_some spare) result }
    ensures handed { HandsOut buckets.old.region buckets.old.layout.item_bytes spare result }
{
    answer_on::<O, MOST_VALUE_WORDS>(buckets, r, count, size, hash, key, call, spare)
}

/// The same with the memory that a value of the object needs, so that a call of a number clears four words.
#[inline(always)]
pub(crate) fn answer<O: CellObject>(
    buckets: &mut Buckets,
    r: &Region,
    count: &mut u64,
    size: u32,
    hash: u64,
    key: &[u64],
    call: &O::Call,
    spare: Option<Chunk>,
) -> CoreOut<O>
    requires here { buckets.old.region ≡ r.now }
    requires hash { hash ≡ seeded_hash buckets.old.layout.seed key.now }
    requires key { length key.now ≡ buckets.old.layout.key_words }
    requires short { O.VALUE_WORDS ≤ 65536 }
    requires cells { AreCells size count.old O.VALUE_WORDS buckets.old }
    requires spare { IfSome spare (λ c. (c.part.region ≡ r.now) × (c.bytes ≡ buckets.old.layout.item_bytes)) }
    ensures answered { IsAnswered O.stepped O.decoded size count.old count.new O.VALUE_WORDS buckets.old buckets.new key.now call.now (is_some spare) result }
    ensures handed { HandsOut buckets.old.region buckets.old.layout.item_bytes spare result }
{
    if O::VALUE_WORDS <= FEW_WORDS {
        answer_on::<O, FEW_WORDS>(buckets, r, count, size, hash, key, call, spare)
    } else if O::VALUE_WORDS <= SOME_WORDS {
        answer_on::<O, SOME_WORDS>(buckets, r, count, size, hash, key, call, spare)
    } else {
        answer_long::<O>(buckets, r, count, size, hash, key, call, spare)
    }
}
