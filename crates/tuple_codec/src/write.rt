//! From a group to bytes.

ghost use Rattle.std.specs.Prelude.{◌≡◌, ◌<◌, ◌≤◌, ◌+◌, ◌-◌, ◌*◌, ◌^◌, ◌++◌, ℕ, All, drop, length, map, replicate, slice_index, take};
ghost use Rattle.std.specs.List.{concat};
ghost use Rattle.par_model.specs.Aggregate.{no_values};
ghost use Rattle.par_model.specs.declared.refusal.TheConstants.{LONGEST_KEY};
ghost use Rattle.tuple_codec.specs.Tuple.{IsSlot, IsTuple, slot_bytes, tuple_bytes, word};

use par_model::{AggState, SlotState};
use partial_agg::GroupKey;

/// The bytes of the longest tuple, with the longest key and eight slots.
pub const TUPLE_BYTES: usize = 581;

/// A tuple: the first `len` bytes. Those after them mean nothing.
#[derive(Debug, Drop)]
pub struct Tuple {
    pub bytes: [u8; TUPLE_BYTES],
    pub len: u32,
}

impl Tuple {
    /// A tuple of no bytes yet.
    pub fn new() -> Tuple
        ensures { result.len ≡ 0 }
    {
        Tuple {
            bytes: [0; TUPLE_BYTES],
            len: 0,
        }
    }
}

/// The tuple of a key and a state with this many slots, past which the state's are zeros.
pub fn encode(key: &GroupKey, state: &AggState, slots: u32) -> Tuple
    requires few { slots ≤ 8 }
    requires zeros { drop slots state.now.slots ≡ replicate (8 - slots) no_values }
    ensures bytes { take result.len result.bytes ≡ tuple_bytes key.now state.now slots }
    ensures length { result.len ≡ length (tuple_bytes key.now state.now slots) }
    ensures tuple { IsTuple key.now state.now slots }
{
    let mut tuple = Tuple::new();
    encode_into(&mut tuple, key.bytes(), state, slots);
    tuple
}

/// Replaces the bytes of `tuple` by the tuple of a state and the key of these bytes. So a caller that sends many tuples
/// fills the same memory again.
pub fn encode_into(tuple: &mut Tuple, key: &[u8], state: &AggState, slots: u32)
    requires key { length key.now ≤ LONGEST_KEY }
    requires few { slots ≤ 8 }
    requires zeros { drop slots state.now.slots ≡ replicate (8 - slots) no_values }
    ensures bytes { take tuple.new.len tuple.new.bytes ≡ tuple_bytes key.now state.now slots }
    ensures length { tuple.new.len ≡ length (tuple_bytes key.now state.now slots) }
    ensures tuple { IsTuple key.now state.now slots }
{
    tuple.len = 0;
    push(tuple, &(key.len() as u32).to_le_bytes());
    push(tuple, key);
    push_word(tuple, state.rows);
    push(tuple, &[slots as u8]);
    push_slots(tuple, &state.slots, slots as usize);
}

/// Adds bytes after those that are there.
fn push(tuple: &mut Tuple, part: &[u8])
    requires { tuple.old.len + length part.now ≤ TUPLE_BYTES }
    ensures bytes { take tuple.new.len tuple.new.bytes ≡ take tuple.old.len tuple.old.bytes ++ part.now }
    ensures len { tuple.new.len ≡ tuple.old.len + length part.now }
    ensures fit { (i : ℕ) → slice_index part.now i < 2 ^ 8 }
{
    let start = tuple.len as usize;
    let end = start + part.len();
    tuple.bytes[start..end].copy_from_slice(part);
    tuple.len = end as u32;
}

/// Adds slots.
fn push_slots(tuple: &mut Tuple, slots: &[SlotState; 8], count: usize)
    requires few { count ≤ 8 }
    requires room { tuple.old.len + 40 * count ≤ TUPLE_BYTES }
    ensures bytes { take tuple.new.len tuple.new.bytes ≡ take tuple.old.len tuple.old.bytes ++ concat (map slot_bytes (take count slots.now)) }
    ensures len { tuple.new.len ≡ tuple.old.len + 40 * count }
    ensures long { length slots.now ≡ 8 }
    ensures numbers { All IsSlot (take count slots.now) }
{
    for slot in &slots[..count] {
        push_slot(tuple, slot);
    }
}

fn push_slot(tuple: &mut Tuple, slot: &SlotState)
    requires { tuple.old.len + 40 ≤ TUPLE_BYTES }
    ensures bytes { take tuple.new.len tuple.new.bytes ≡ take tuple.old.len tuple.old.bytes ++ slot_bytes slot.now }
    ensures len { tuple.new.len ≡ tuple.old.len + 40 }
    ensures numbers { IsSlot slot.now }
{
    let sum = slot.sum.cast_unsigned();
    push_word(tuple, slot.count);
    push_word(tuple, (sum % (1 << 64)) as u64);
    push_word(tuple, (sum / (1 << 64)) as u64);
    push_word(tuple, slot.least.cast_unsigned());
    push_word(tuple, slot.greatest.cast_unsigned());
}

#[tactic(auto, unfolding(crate::specs::Tuple::word))]
fn push_word(tuple: &mut Tuple, n: u64)
    requires { tuple.old.len + 8 ≤ TUPLE_BYTES }
    ensures bytes { take tuple.new.len tuple.new.bytes ≡ take tuple.old.len tuple.old.bytes ++ word n }
    ensures len { tuple.new.len ≡ tuple.old.len + 8 }
    ensures fits { n < 2 ^ 64 }
{
    push(tuple, &n.to_le_bytes());
}
