//! From bytes to a group.

ghost use Rattle.std.specs.Prelude.{◌≡◌, ◌<◌, ◌≤◌, ◌+◌, ◌-◌, ◌*◌, ◌^◌, ℕ, List, IfOk, IfErr, MatchResult, OnErr, drop, length, map, replicate, take};
ghost use Rattle.std.specs.List.{AllByRecursion, concat};
ghost use Rattle.par_model.specs.Aggregate.{no_values};
ghost use Rattle.par_model.specs.declared.state.AggState.{AggState};
ghost use Rattle.tuple_codec.specs.Shape.{HasShape};
ghost use Rattle.tuple_codec.specs.Tuple.{IsSlot, IsTuple, refusal, slot_bytes, slots_refusal, sum_bytes, tuple_bytes, word};

use par_model::{AggState, SlotState};
use partial_agg::{GroupKey, LONGEST_KEY, empty};

/// Why bytes are no tuple: a part is cut off, which begins at this place; this many bytes are left; or the number at
/// this place is too great.
#[derive(Debug, Clone, Copy, PartialEq, Eq)]
pub enum TupleRead {
    Short { at: u64 },
    Trailing { left: u64 },
    Range { at: u64 },
}

/// Where the parts of a tuple lie: the length of its key, and how many slots it has.
#[derive(Clone, Copy)]
struct Shape {
    key: usize,
    slots: usize,
}

/// The group whose tuple these bytes are.
pub fn decode(bytes: &[u8]) -> Result<(GroupKey, AggState), TupleRead>
    ensures tuple { IfOk result (λ group. (slots : ℕ) × IsTuple group.0 group.1 slots × (tuple_bytes group.0 group.1 slots ≡ bytes.now)) }
    ensures written { (key : List ℕ) (state : AggState) (slots : ℕ) → IsTuple key state slots → bytes.now ≡ tuple_bytes key state slots → result ≡ Ok (key, state) }

    // When each error comes.
    ensures accepted { IfOk result (λ group. refusal bytes.now ≡ None) }
    ensures refused { IfErr result (λ why. refusal bytes.now ≡ Some why) }
{
    let mut state = empty();
    match decode_into(bytes, &mut state) {
        Ok(key) => Ok((GroupKey::of(key).unwrap(), state)),
        Err(why) => Err(why),
    }
}

/// The group whose tuple these bytes are: its key where it lies in the bytes, and its state, which replaces the one in
/// `state`, so that nothing is copied. Bytes that are no tuple leave `state` as it was.
pub fn decode_into<'a>(bytes: &'a [u8], state: &mut AggState) -> Result<&'a [u8], TupleRead>
    ensures tuple { IfOk result (λ key. (slots : ℕ) × IsTuple key.now state.new slots × (tuple_bytes key.now state.new slots ≡ bytes.now)) }
    ensures written { (key : List ℕ) (now : AggState) (slots : ℕ) → IsTuple key now slots → bytes.now ≡ tuple_bytes key now slots
        → MatchResult result (λ found. (found.now ≡ key) × (state.new ≡ now)) (λ why. ⊥) }
    ensures kept { OnErr result (state.new ≡ state.old) }

    // When each error comes.
    ensures accepted { IfOk result (λ key. refusal bytes.now ≡ None) }
    ensures refused { IfErr result (λ why. refusal bytes.now ≡ Some why) }
{
    let shape = match shape_of(bytes) {
        Ok(shape) => shape,
        Err(why) => return Err(why),
    };
    let rows = 4 + shape.key;
    *state = empty();
    state.rows = word_at(bytes, rows);
    read_slots(&mut state.slots, &bytes[rows + 9..], shape.slots);
    Ok(&bytes[4..rows])
}

/// The shape of the tuple that these bytes are.
fn shape_of(bytes: &[u8]) -> Result<Shape, TupleRead>
    ensures shape { IfOk result (HasShape bytes.now) }
    ensures accepted { IfOk result (λ shape. refusal bytes.now ≡ None) }
    ensures refused { IfErr result (λ why. refusal bytes.now ≡ Some why) }
{
    let size = bytes.len();
    if size < 4 {
        return Err(TupleRead::Short { at: 0 });
    }
    let key = u32::from_le_bytes([bytes[0], bytes[1], bytes[2], bytes[3]]) as usize;
    if key > LONGEST_KEY {
        return Err(TupleRead::Range { at: 0 });
    }
    if size < 4 + key {
        return Err(TupleRead::Short { at: 4 });
    }
    if size < 12 + key {
        return Err(short_at(4 + key));
    }
    if size < 13 + key {
        return Err(short_at(12 + key));
    }
    let slots = bytes[12 + key] as usize;
    if slots > 8 {
        return Err(TupleRead::Range {
            at: 12 + key as u64,
        });
    }
    match refuse_slots(13 + key, size - (13 + key), slots) {
        Some(why) => Err(why),
        None => Ok(Shape { key, slots }),
    }
}

/// Why this many bytes from a place on are not this many slots.
fn refuse_slots(at: usize, left: usize, slots: usize) -> Option<TupleRead>
    requires fits { at + left < 2 ^ 64 }
    requires few { slots ≤ 8 }
    ensures { result ≡ slots_refusal at left slots }
{
    if left < 40 * slots {
        Some(short_at(at + 40 * (left / 40)))
    } else if left > 40 * slots {
        Some(TupleRead::Trailing {
            left: (left - 40 * slots) as u64,
        })
    } else {
        None
    }
}

fn short_at(at: usize) -> TupleRead
    ensures { result ≡ TupleRead.Short at }
{
    TupleRead::Short { at: at as u64 }
}

/// The word at a place.
#[tactic(auto, unfolding(crate::specs::Tuple::word))]
fn word_at(bytes: &[u8], at: usize) -> u64
    requires { at + 8 ≤ length bytes.now }
    ensures { word result ≡ take 8 (drop at bytes.now) }
{
    u64::from_le_bytes([
        bytes[at],
        bytes[at + 1],
        bytes[at + 2],
        bytes[at + 3],
        bytes[at + 4],
        bytes[at + 5],
        bytes[at + 6],
        bytes[at + 7],
    ])
}

/// Reads slots into the front of the array, whose slots are all zeros.
fn read_slots(slots: &mut [SlotState; 8], bytes: &[u8], count: usize)
    requires few { count ≤ 8 }
    requires size { length bytes.now ≡ 40 * count }
    requires zeros { slots.old ≡ replicate 8 no_values }
    ensures bytes { concat (map slot_bytes (take count slots.new)) ≡ bytes.now }
    ensures zeros { drop count slots.new ≡ replicate (8 - count) no_values }
    ensures numbers { AllByRecursion IsSlot slots.new }
    ensures long { length slots.new ≡ 8 }
{
    for i in 0..count {
        slots[i] = slot_at(bytes, 40 * i);
    }
}

/// The slot at a place.
fn slot_at(bytes: &[u8], at: usize) -> SlotState
    requires { at + 40 ≤ length bytes.now }
    ensures bytes { slot_bytes result ≡ take 40 (drop at bytes.now) }
    ensures numbers { IsSlot result }
{
    SlotState {
        count: word_at(bytes, at),
        sum: sum_at(bytes, at + 8),
        least: word_at(bytes, at + 24).cast_signed(),
        greatest: word_at(bytes, at + 32).cast_signed(),
    }
}

/// The sum at a place.
fn sum_at(bytes: &[u8], at: usize) -> i128
    requires { at + 16 ≤ length bytes.now }
    ensures { sum_bytes result ≡ take 16 (drop at bytes.now) }
{
    let low = u128::from(word_at(bytes, at));
    let high = u128::from(word_at(bytes, at + 8));
    (high * (1 << 64) + low).cast_signed()
}
