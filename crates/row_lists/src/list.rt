//! A list of rows as bytes.
//!
//! A row is the length of its key in one byte, the key, the number of its values in one byte, and the values. A value is one
//! byte that says what it is: none, the same number as the value before it, or a number of its own, of which eight bytes
//! follow. Aggregates of one column take the same number, which so is written once.

ghost use Rattle.std.specs.Prelude.{◌≡◌, ◌≤◌, ◌++◌, ◌∷◌, [], pos, OnErr, OnOk, length};
ghost use Rattle.std.specs.List.{AllByRecursion};
ghost use Rattle.key_index.specs.Front.{IsFrontOf};
ghost use Rattle.par_model.specs.declared.refusal.TheConstants.{LONGEST_KEY};
ghost use Rattle.row_lists.specs.Carried.{IsValue, carried, last_of, row_bytes, value_bytes, values_bytes};

use crate::cursor::RowCursor;
use std::alloc::{AllocError, Global};
use std::marker::Model;

/// A value that is none.
pub(crate) const NONE: u8 = 0;

/// A value that is the number of the value before it.
pub(crate) const SAME: u8 = 1;

/// A value whose number follows.
pub(crate) const NEW: u8 = 2;

/// The most bytes of a row: those of the longest key, of eight values, and two for their lengths.
const MOST_BYTES: usize = 322;

/// Rows in order.
#[derive(Drop)]
pub struct RowList {
    bytes: Vec<u8>,
}

impl Model for RowList {
    ghost use Rattle.std.specs.Prelude.{List};
    ghost use Rattle.row_lists.specs.Carried.{AreRows, Carried, rows_in};

    ghost Value = { List Carried };

    ghost view = { λ l. rows_in l.bytes.items };

    ghost invariant = { λ l. AreRows l.bytes.items };
}

impl RowList {
    /// No rows. Takes no memory.
    pub fn new(alloc: Global) -> RowList
        ensures { result ≡ [] }
    {
        RowList {
            bytes: Vec::new(alloc),
        }
    }

    /// How many bytes its rows have.
    pub fn bytes(&self) -> usize {
        self.bytes.len()
    }

    /// Puts a row after the others.
    pub fn push(&mut self, key: &[u8], values: &[Option<i64>]) -> Result<(), AllocError>
        requires short { length key.now ≤ LONGEST_KEY }
        requires few { length values.now ≤ 8 }
        ensures ok { OnOk result (self.new ≡ self.old ++ carried key.now values.now ∷ []) }
        ensures err { OnErr result (self.new ≡ self.old) }
    {
        let from = self.bytes.len();
        match write_row(&mut self.bytes, key, values) {
            Ok(()) => Ok(()),
            Err(AllocError) => {
                self.bytes.truncate(from);
                Err(AllocError)
            }
        }
    }

    /// The rows, from the first on.
    pub fn cursor(&self) -> RowCursor<'_>
        ensures { result ≡ self.now }
    {
        RowCursor::of_bytes(self.bytes.as_slice())
    }

    /// Takes all rows out, and keeps the memory.
    pub fn clear(&mut self)
        ensures { self.new ≡ [] }
    {
        self.bytes.clear();
    }
}

/// Puts the bytes of a row at the end of a text. There is room for all of them before the first is put.
#[inline(always)]
fn write_row(bytes: &mut Vec<u8>, key: &[u8], values: &[Option<i64>]) -> Result<(), AllocError>
    requires short { length key.now ≤ LONGEST_KEY }
    requires few { length values.now ≤ 8 }
    ensures bytes { OnOk result (bytes.new.items ≡ bytes.old.items ++ row_bytes (carried key.now values.now)) }
    ensures whole { OnOk result (AllByRecursion IsValue values.now) }
    ensures front { IsFrontOf bytes.old.items bytes.new.items }
{
    bytes.reserve(MOST_BYTES)?;
    bytes.push(key.len() as u8)?;
    bytes.extend_from_slice(key)?;
    bytes.push(values.len() as u8)?;
    write_values(bytes, values)
}

/// Puts the bytes of values at the end of a text.
#[inline(always)]
fn write_values(bytes: &mut Vec<u8>, values: &[Option<i64>]) -> Result<(), AllocError>
    ensures bytes { OnOk result (bytes.new.items ≡ bytes.old.items ++ values_bytes (pos 0) values.now) }
    ensures whole { OnOk result (AllByRecursion IsValue values.now) }
    ensures front { IsFrontOf bytes.old.items bytes.new.items }
{
    let mut last = 0;
    for value in values {
        write_value(bytes, &mut last, *value)?;
    }
    Ok(())
}

/// Puts the bytes of a value at the end of a text, if this number is known before it.
#[inline(always)]
fn write_value(bytes: &mut Vec<u8>, last: &mut i64, value: Option<i64>) -> Result<(), AllocError>
    ensures bytes { OnOk result (bytes.new.items ≡ bytes.old.items ++ value_bytes last.old value) }
    ensures whole { OnOk result (IsValue value) }
    ensures last { OnOk result (last.new ≡ last_of last.old value) }
    ensures front { IsFrontOf bytes.old.items bytes.new.items }
{
    match value {
        None => {
            bytes.push(NONE)?;
            Ok(())
        }
        Some(n) if n == *last => {
            bytes.push(SAME)?;
            Ok(())
        }
        Some(n) => {
            *last = n;
            bytes.push(NEW)?;
            bytes.extend_from_slice(&n.to_le_bytes())
        }
    }
}
