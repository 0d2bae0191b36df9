//! How a state is stored in the words of a cell.
//!
//! Word 0 is the number of rows. After it come the eight slots, five words each: the count, the low and the high word
//! of the sum, the least and the greatest value. Signed numbers are in two's complement.

ghost use Rattle.std.specs.Prelude.{◌≡◌, ◌+◌, ◌*◌, ◌≤◌, length, map};
ghost use Rattle.std.specs.List.{AllByRecursion, concat, range_with_len};
ghost use Rattle.agg_cell.specs.StateWords.{IsSlot, IsState, joined_sum, slot_at, slot_start, slot_words, state_of_words, state_words};

use par_model::{AggState, NO_VALUES, SlotState};

/// The words of a state.
pub const STATE_WORDS: usize = 41;

/// The word at which the first slot begins.
const FIRST_SLOT: usize = 1;

/// The words of a slot.
const SLOT_WORDS: usize = 5;

/// Writes a state into its words.
pub(crate) fn write_state(state: &AggState, words: &mut [u64])
    requires { length words.old ≡ STATE_WORDS }
    ensures words { words.new ≡ state_words state.now }
    ensures value { IsState state.now }
{
    words[0] = state.rows;
    write_slots(&state.slots, &mut words[FIRST_SLOT..]);
}

/// Writes slots one after the other.
fn write_slots(slots: &[SlotState; 8], words: &mut [u64])
    requires { length words.old ≡ 8 * SLOT_WORDS }
    ensures words { words.new ≡ concat (map slot_words slots.now) }
    ensures long { length slots.now ≡ 8 }
    ensures numbers { AllByRecursion IsSlot slots.now }
{
    for i in 0..8 {
        let at = SLOT_WORDS * i;
        words[at..at + SLOT_WORDS].copy_from_slice(&words_of(slots[i]));
    }
}

/// The words of a slot.
fn words_of(slot: SlotState) -> [u64; SLOT_WORDS]
    ensures words { result ≡ slot_words slot }
    ensures numbers { IsSlot slot }
{
    let sum = slot.sum.cast_unsigned();
    [
        slot.count,
        (sum % (1 << 64)) as u64,
        (sum / (1 << 64)) as u64,
        slot.least.cast_unsigned(),
        slot.greatest.cast_unsigned(),
    ]
}

/// Reads a state from its words.
pub(crate) fn read_state(words: &[u64]) -> AggState
    requires { length words.now ≡ STATE_WORDS }
    ensures { result ≡ state_of_words words.now }
{
    AggState {
        rows: words[0],
        slots: read_slots(words),
    }
}

fn read_slots(words: &[u64]) -> [SlotState; 8]
    requires { length words.now ≡ STATE_WORDS }
    ensures { result ≡ map (λ i. slot_at words.now (slot_start i)) (range_with_len 0 8) }
{
    let mut slots = [NO_VALUES; 8];
    for i in 0..8 {
        slots[i] = read_slot(words, FIRST_SLOT + SLOT_WORDS * i);
    }
    slots
}

/// Reads the slot that begins at a word.
fn read_slot(words: &[u64], at: usize) -> SlotState
    requires { at + SLOT_WORDS ≤ length words.now }
    ensures { result ≡ slot_at words.now at }
{
    SlotState {
        count: words[at],
        sum: join_sum(words[at + 1], words[at + 2]),
        least: words[at + 3].cast_signed(),
        greatest: words[at + 4].cast_signed(),
    }
}

/// The number of 128 bits with this low and this high word.
fn join_sum(low: u64, high: u64) -> i128
    ensures { result ≡ joined_sum low high }
{
    (u128::from(high) * (1 << 64) + u128::from(low)).cast_signed()
}
