//! A group as bytes: its key, the number of its rows, and its slots.
//!
//! Nothing that is read is taken on trust: the key has to be the encoding of this many columns, and the numbers such as rows
//! can give. The key is lent where it lies.

ghost use Rattle.std.specs.Prelude.{◌≡◌, ◌<◌, ◌≤◌, ◌^◌, ◌++◌, ℕ, List, IfSome, IsTrue, MatchOption, OnOk, length, take};
ghost use Rattle.par_model.specs.Key.{encoded};
ghost use Rattle.par_model.specs.declared.refusal.TheConstants.{LONGEST_KEY};
ghost use Rattle.par_model.specs.declared.state.SlotState.{SlotState};
ghost use Rattle.state_file.specs.Number.{number_bytes};
ghost use Rattle.state_file.specs.Text.{text_bytes};
ghost use Rattle.state_groups.specs.Group.{AreSlots, IsGroup, IsKey, group_bytes, slots_bytes, values_bytes};

use crate::slot::{push_slot, read_slot};
use par_model::{AggState, LONGEST_KEY, SlotState};
use state_file::{push_number, push_text, read_bytes, read_count, read_text, read_u32};
use std::alloc::AllocError;

/// The most rows of a table: 2^50.
const MOST_ROWS: u64 = 1 << 50;

/// Puts a group, with a slot for each kind, at the end of some bytes: at most 652 bytes.
pub fn push_group(
    out: &mut Vec<u8>,
    kinds: &[bool],
    key: &[u8],
    rows: u64,
    slots: &[SlotState],
) -> Result<(), AllocError>
    requires { length kinds.now ≤ length slots.now }
    ensures { OnOk result (out.new.items ≡ out.old.items ++ group_bytes kinds.now key.now rows slots.now) }
{
    push_text(out, key)?;
    push_values(out, kinds, rows, slots)
}

/// Puts what a group has after its key at the end of some bytes: its rows, and a slot for each kind.
pub fn push_values(
    out: &mut Vec<u8>,
    kinds: &[bool],
    rows: u64,
    slots: &[SlotState],
) -> Result<(), AllocError>
    requires { length kinds.now ≤ length slots.now }
    ensures { OnOk result (out.new.items ≡ out.old.items ++ values_bytes kinds.now rows slots.now) }
{
    push_number(out, u128::from(rows))?;
    push_slots(out, kinds, slots)
}

/// Puts slots, one for each kind, at the end of some bytes.
fn push_slots(out: &mut Vec<u8>, kinds: &[bool], slots: &[SlotState]) -> Result<(), AllocError>
    requires { length kinds.now ≤ length slots.now }
    ensures { OnOk result (out.new.items ≡ out.old.items ++ slots_bytes kinds.now slots.now) }
{
    for at in 0..kinds.len() {
        push_slot(out, kinds[at], &slots[at])?;
    }
    Ok(())
}

/// The key of the group that some bytes begin with, and the bytes after the group. Its rows, and its slots, one for each kind,
/// come into `state`, whose other slots stay as they are; without a group those too tell nothing.
pub fn read_group<'a>(
    bytes: &'a [u8],
    columns: u32,
    kinds: &[bool],
    state: &mut AggState,
) -> Option<(&'a [u8], &'a [u8])>
    requires { length kinds.now ≤ 8 }
    ensures read { IfSome result (λ found. (bytes.now ≡ group_bytes kinds.now found.0.now state.new.rows (take (length kinds.now) state.new.slots) ++ found.1.now)
        × IsGroup columns kinds.now found.0.now state.new.rows (take (length kinds.now) state.new.slots)) }
    ensures written { (key : List ℕ) (rows : ℕ) (slots : List SlotState) (rest : List ℕ) → IsGroup columns kinds.now key rows slots → bytes.now ≡ group_bytes kinds.now key rows slots ++ rest
        → MatchOption result ⊥ (λ found. (found.0.now ≡ key) × (found.1.now ≡ rest) × (state.new.rows ≡ rows) × (take (length kinds.now) state.new.slots ≡ slots)) }
{
    let Some((key, after)) = read_key(bytes, columns) else {
        return None;
    };
    let Some((rows, after)) = read_rows(after) else {
        return None;
    };
    state.rows = rows;
    match read_slots(after, kinds, rows, &mut state.slots) {
        Some(rest) => Some((key, rest)),
        None => None,
    }
}

/// The key, an encoding of this many columns, that some bytes begin with, and the bytes after it.
fn read_key(bytes: &[u8], columns: u32) -> Option<(&[u8], &[u8])>
    ensures read { IfSome result (λ found. (bytes.now ≡ text_bytes found.0.now ++ found.1.now) × IsKey columns found.0.now) }
    ensures written { (key rest : List ℕ) → IsKey columns key → bytes.now ≡ text_bytes key ++ rest → MatchOption result ⊥ (λ found. (found.0.now ≡ key) × (found.1.now ≡ rest)) }
{
    match read_text(bytes, LONGEST_KEY as u64) {
        Some((key, rest)) => {
            if is_encoded(key, columns) {
                Some((key, rest))
            } else {
                None
            }
        }
        None => None,
    }
}

/// Whether these bytes, which are no longer than a key may be, are the encoding of this many columns.
fn is_encoded(key: &[u8], columns: u32) -> bool
    requires { length key.now ≤ LONGEST_KEY }
    ensures key { IsTrue result → IsKey columns key.now }
    ensures written { (fields : List (List ℕ)) → length fields ≡ columns → key.now ≡ encoded fields → IsTrue result }
{
    if columns == 0 {
        return key.is_empty();
    }
    let Some((size, after)) = read_u32(key) else {
        return false;
    };
    match read_bytes(after, size as usize) {
        Some((_, rest)) => is_encoded(rest, columns - 1),
        None => false,
    }
}

/// The number of rows that some bytes begin with, from 1 to 2^50, and the bytes after it.
fn read_rows(bytes: &[u8]) -> Option<(u64, &[u8])>
    ensures read { IfSome result (λ found. (bytes.now ≡ number_bytes found.0 ++ found.1.now) × (0 < found.0) × (found.0 ≤ 2 ^ 50)) }
    ensures written { (n : ℕ) (rest : List ℕ) → 0 < n → n ≤ 2 ^ 50 → bytes.now ≡ number_bytes n ++ rest → MatchOption result ⊥ (λ found. (found.0 ≡ n) × (found.1.now ≡ rest)) }
{
    match read_count(bytes, MOST_ROWS) {
        Some((n, rest)) => { if n > 0 { Some((n, rest)) } else { None } }
        None => None,
    }
}

/// Reads the slots, one for each kind, that some bytes begin with into the front of an array. The bytes after them.
fn read_slots<'a>(
    bytes: &'a [u8],
    kinds: &[bool],
    rows: u64,
    slots: &mut [SlotState; 8],
) -> Option<&'a [u8]>
    requires kinds { length kinds.now ≤ 8 }
    requires few { rows ≤ 2 ^ 50 }
    ensures read { IfSome result (λ rest. (bytes.now ≡ slots_bytes kinds.now (take (length kinds.now) slots.new) ++ rest.now) × AreSlots kinds.now rows (take (length kinds.now) slots.new)) }
    ensures written { (found : List SlotState) (rest : List ℕ) → AreSlots kinds.now rows found → bytes.now ≡ slots_bytes kinds.now found ++ rest
        → MatchOption result ⊥ (λ left. (left.now ≡ rest) × (take (length kinds.now) slots.new ≡ found)) }
{
    let mut rest = bytes;
    for at in 0..kinds.len() {
        let Some((slot, after)) = read_slot(rest, kinds[at], rows) else {
            return None;
        };
        slots[at] = slot;
        rest = after;
    }
    Some(rest)
}
