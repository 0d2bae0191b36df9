//! The aggregates of a group over one column, as bytes, and only such as rows can have given.
//!
//! Count, sum, least, and how far the greatest is above the least, each as a number in as few bytes as it needs. A column of
//! which only values are counted has the count; so has one without values.

ghost use Rattle.std.specs.Prelude.{◌≡◌, ◌<◌, ◌≤◌, ◌*◌, ◌+ℤ◌, ◌-ℤ◌, ◌^◌, ◌++◌, ◌↔◌, ℕ, ℤ, List, pos, FitsSigned, IfSome, IsTrue, MatchOption, OnOk, unsigned_abs};
ghost use Rattle.std.specs.Int.{w64};
ghost use Rattle.par_model.specs.Aggregate.{no_values};
ghost use Rattle.par_model.specs.declared.state.SlotState.{SlotState};
ghost use Rattle.state_file.specs.Number.{folded, number_bytes};
ghost use Rattle.state_groups.specs.Slot.{IsOfIntegers, IsSlot, has_integers, integers_bytes, slot_bytes, spread};

use par_model::{NO_VALUES, SlotState};
use state_file::{push_number, push_signed, read_count, read_number, read_signed};
use std::alloc::AllocError;

/// Puts a slot, of a column whose integers are read or not, at the end of some bytes: at most 49 bytes.
pub fn push_slot(out: &mut Vec<u8>, integers: bool, slot: &SlotState) -> Result<(), AllocError>
    ensures { OnOk result (out.new.items ≡ out.old.items ++ slot_bytes integers slot.now) }
{
    push_number(out, u128::from(slot.count))?;
    if has_integers(integers, slot.count) {
        push_integers(out, slot)
    } else {
        Ok(())
    }
}

/// Whether a slot of this many values, of a column whose integers are read or not, has integers to write.
fn has_integers(integers: bool, count: u64) -> bool
    ensures { result ≡ has_integers integers count }
{
    integers && count > 0
}

/// Puts what some integers come to at the end.
fn push_integers(out: &mut Vec<u8>, slot: &SlotState) -> Result<(), AllocError>
    ensures { OnOk result (out.new.items ≡ out.old.items ++ integers_bytes slot.now) }
{
    push_signed(out, slot.sum)?;
    push_signed(out, i128::from(slot.least))?;
    push_number(out, spread(slot))
}

/// How far the greatest integer is above the least.
fn spread(slot: &SlotState) -> u128
    ensures { result ≡ spread slot.now }
{
    (i128::from(slot.greatest) - i128::from(slot.least)).unsigned_abs()
}

/// The slot that some bytes begin with, if at most this many rows can have given it, and the bytes after it.
pub fn read_slot(bytes: &[u8], integers: bool, rows: u64) -> Option<(SlotState, &[u8])>
    requires few { rows ≤ 2 ^ 50 }
    ensures read { IfSome result (λ found. (bytes.now ≡ slot_bytes integers found.0 ++ found.1.now) × IsSlot integers rows found.0) }
    ensures written { (slot : SlotState) (rest : List ℕ) → IsSlot integers rows slot → bytes.now ≡ slot_bytes integers slot ++ rest → MatchOption result ⊥ (λ found. (found.0 ≡ slot) × (found.1.now ≡ rest)) }
{
    let Some((count, after)) = read_count(bytes, rows) else {
        return None;
    };
    if has_integers(integers, count) {
        match read_integers(after, count) {
            Some((slot, rest)) => Some((slot, rest)),
            None => None,
        }
    } else {
        Some((only_count(count), after))
    }
}

/// A slot of this many values, without integers.
fn only_count(count: u64) -> SlotState
    ensures { result ≡ record no_values { count = count } }
{
    SlotState { count, ..NO_VALUES }
}

/// A slot of this many integers, whose sum, least and spread some bytes begin with, and the bytes after it.
fn read_integers(bytes: &[u8], count: u64) -> Option<(SlotState, &[u8])>
    requires { count ≤ 2 ^ 50 }
    ensures read { IfSome result (λ found. (bytes.now ≡ integers_bytes found.0 ++ found.1.now) × IsOfIntegers found.0 × (found.0.count ≡ count)) }
    ensures written { (slot : SlotState) (rest : List ℕ) → IsOfIntegers slot → slot.count ≡ count → bytes.now ≡ integers_bytes slot ++ rest → MatchOption result ⊥ (λ found. (found.0 ≡ slot) × (found.1.now ≡ rest)) }
{
    let Some((sum, after)) = read_signed(bytes) else {
        return None;
    };
    let Some((least, after)) = read_signed(after) else {
        return None;
    };
    let Some((above, rest)) = read_number(after) else {
        return None;
    };
    match slot_of(count, sum, least, above) {
        Some(slot) => Some((slot, rest)),
        None => None,
    }
}

/// The slot of these numbers, if integers can have given them.
fn slot_of(count: u64, sum: i128, least: i128, above: u128) -> Option<SlotState>
    requires { count ≤ 2 ^ 50 }
    ensures is { IfSome result (λ slot. IsOfIntegers slot × (slot.count ≡ count) × (slot.sum ≡ sum) × (slot.least ≡ least) × (spread slot ≡ above)) }
    ensures none { (slot : SlotState) → IsOfIntegers slot → slot.count ≡ count → slot.sum ≡ sum → slot.least ≡ least → spread slot ≡ above → result ≡ Some slot }
{
    if sum.unsigned_abs() > u128::from(count) * (1 << 63) {
        return None;
    }
    match bounds_of(least, above) {
        Some((least, greatest)) => Some(SlotState {
            count,
            sum,
            least,
            greatest,
        }),
        None => None,
    }
}

/// A least integer of 64 bits, and the one that is so far above it, if they are of 64 bits.
fn bounds_of(least: i128, above: u128) -> Option<(i64, i64)>
    ensures is { IfSome result (λ found. (found.0 ≡ least) × (found.1 ≡ least +ℤ pos above)) }
    ensures none { (greatest : ℤ) → FitsSigned w64 least → FitsSigned w64 greatest → greatest ≡ least +ℤ pos above → result ≡ Some (least, greatest) }
{
    if above >= 1 << 64 || !is_short(least) {
        return None;
    }
    let greatest = least + above.cast_signed();
    if is_short(greatest) {
        Some((least as i64, greatest as i64))
    } else {
        None
    }
}

/// Whether a number is one of 64 bits.
fn is_short(n: i128) -> bool
    ensures { IsTrue result ↔ FitsSigned w64 n }
{
    n >= i128::from(i64::MIN) && n <= i128::from(i64::MAX)
}
