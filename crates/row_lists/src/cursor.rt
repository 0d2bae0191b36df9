//! The rows of a list, read from front to back.

ghost use Rattle.std.specs.Prelude.{◌≡◌, ◌≤◌, ◌++◌, ◌∷◌, [], ℕ, ℤ, List, Option, pos, IfNone, IfSome, IsNone, MatchOption, length, take};
ghost use Rattle.std.specs.List.{AllByRecursion};
ghost use Rattle.par_model.specs.declared.refusal.TheConstants.{LONGEST_KEY};
ghost use Rattle.row_lists.specs.Carried.{AreRows, Carried, IsCarried, IsValue, carried, last_of, row_bytes, rows_in, value_bytes, values_bytes};

use crate::list::{NONE, SAME};
use std::marker::Model;

/// Rows that are left to be read.
#[derive(Drop)]
pub struct RowCursor<'a> {
    rest: &'a [u8],
}

impl<'a> Model for RowCursor<'a> {
    ghost use Rattle.std.specs.Prelude.{List};
    ghost use Rattle.row_lists.specs.Carried.{AreRows, Carried, rows_in};

    ghost Value = { List Carried };

    ghost view = { λ c. rows_in c.rest.now };

    ghost invariant = { λ c. AreRows c.rest.now };
}

impl<'a> RowCursor<'a> {
    /// The rows whose bytes these are.
    pub(crate) fn of_bytes(rest: &'a [u8]) -> RowCursor<'a>
        requires { AreRows rest.now }
        ensures { result ≡ rows_in rest.now }
    {
        RowCursor { rest }
    }

    /// Takes the first row: gives its key and the number of its values, which come to the front of the array.
    #[inline(always)]
    pub fn next(&mut self, values: &mut [Option<i64>; 8]) -> Option<(&'a [u8], usize)>
        ensures row { IfSome result (λ row. self.old ≡ carried row.0.now (take row.1 values.new) ∷ self.new) }
        ensures short { IfSome result (λ row. length row.0.now ≤ LONGEST_KEY) }
        ensures few { IfSome result (λ row. row.1 ≤ 8) }
        ensures none { IfNone result (self.old ≡ []) }
    {
        let Some((key, count, rest)) = read_key(self.rest) else {
            return None;
        };
        self.rest = read_values(rest, &mut values[..count]);
        Some((key, count))
    }
}

/// The key that a row begins with, the number of its values, and the bytes after these.
#[inline(always)]
fn read_key<'a>(bytes: &'a [u8]) -> Option<(&'a [u8], usize, &'a [u8])>
    ensures row { (row : Carried) (more : List ℕ) → IsCarried row → bytes.now ≡ row_bytes row ++ more
        → MatchOption result ⊥ (λ read. (read.0.now ≡ row.key) × (read.1 ≡ length row.values) × (read.2.now ≡ values_bytes (pos 0) row.values ++ more)) }
    ensures few { IfSome result (λ read. read.1 ≤ 8) }
    ensures none { bytes.now ≡ [] → IsNone result }
{
    let Some((size, rest)) = bytes.split_first() else {
        return None;
    };
    let (key, rest) = rest.split_at((*size as usize).min(rest.len()));
    let Some((count, rest)) = rest.split_first() else {
        return None;
    };
    Some((key, (*count as usize).min(8), rest))
}

/// Reads as many values as there are places for, and gives what comes after them.
#[inline(always)]
fn read_values<'a>(bytes: &'a [u8], values: &mut [Option<i64>]) -> &'a [u8]
    ensures written { (written : List (Option ℤ)) (more : List ℕ) → AllByRecursion IsValue written → length written ≡ length values.old → bytes.now ≡ values_bytes (pos 0) written ++ more
        → (values.new ≡ written) × (result.now ≡ more) }
    ensures len { length values.new ≡ length values.old }
{
    let mut rest = bytes;
    let mut last = 0;
    for at in 0..values.len() {
        let (value, more) = read_value(rest, &mut last);
        values[at] = value;
        rest = more;
    }
    rest
}

/// Reads a value if this number is known before it, and gives it and what comes after it.
#[inline(always)]
fn read_value<'a>(bytes: &'a [u8], last: &mut i64) -> (Option<i64>, &'a [u8])
    ensures { (value : Option ℤ) (more : List ℕ) → IsValue value → bytes.now ≡ value_bytes last.old value ++ more
        → (result.0 ≡ value) × (result.1.now ≡ more) × (last.new ≡ last_of last.old value) }
{
    let Some((kind, rest)) = bytes.split_first() else {
        return (None, bytes);
    };
    if *kind == NONE {
        return (None, rest);
    }
    if *kind == SAME {
        return (Some(*last), rest);
    }
    let Some((number, rest)) = rest.split_first_chunk::<8>() else {
        return (None, rest);
    };
    *last = i64::from_le_bytes(*number);
    (Some(*last), rest)
}
