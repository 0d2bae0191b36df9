//! A scan of a text without quotes and carriage returns: where its fields end, and where its records.
//!
//! The bytes stay where they are. Each comma and each line feed ends a field, and the next one begins after it; a line
//! feed ends a record too. The scan keeps [`IsAt`](../specs/Splits.antt): what the lists have and what is left of the
//! text give the records of the whole. An empty line is no record but would appear among the fields, so a text with one
//! is not split at all.

ghost use Rattle.std.specs.Prelude.{◌≡◌, ◌≤◌, ◌<◌, ◌+◌, [], IfOk, IfSome, OnOk, length, slice_index, true};
ghost use Rattle.csv_rows.specs.Plain.{NoReturn};
ghost use Rattle.csv_rows.specs.Splits.{IsAt, IsWhole, NoSeparator, is_separator};

use crate::masks::{BLOCK, lowest, separators, without};
use crate::piece::push_end;
use crate::row_ends::RowEnds;
use std::alloc::AllocError;

/// Where a scan is: at the first byte of a field, and in the record whose first field has this number.
#[derive(Clone, Copy, Drop)]
struct Cursor {
    from: usize,
    first: usize,
}

/// Fills the lists, unless the text has an empty line: then it answers false. After an error or after false the lists
/// can only be dropped.
pub(crate) fn split(
    text: &[u8],
    ends: &mut Vec<u32>,
    row_ends: &mut RowEnds,
) -> Result<bool, AllocError>
    requires lines { NoReturn text.now }
    requires ends { ends.old.items ≡ [] }
    requires rows { row_ends.old ≡ [] }
    ensures { IfOk result (λ whole. whole ≡ true → IsWhole text.now ends.new.items row_ends.new) }
{
    let mut cursor = Cursor { from: 0, first: 0 };
    'blocks: for block in 0..=text.len() / BLOCK {
        match push_block(text, ends, row_ends, cursor, block * BLOCK)? {
            Some(next) => cursor = next,
            None => return Ok(false),
        }
    }
    push_last(text, ends, row_ends, cursor)?;
    Ok(true)
}

/// Goes past the next 64 bytes, unless one of them ends an empty line.
fn push_block(
    text: &[u8],
    ends: &mut Vec<u32>,
    row_ends: &mut RowEnds,
    start: Cursor,
    at: usize,
) -> Result<Option<Cursor>, AllocError>
    requires lines { NoReturn text.now }
    requires scan { IsAt text.now ends.old.items row_ends.old start.from start.first }
    requires low { start.from ≤ at }
    requires before { NoSeparator text.now start.from at }
    requires within { at ≤ length text.now }
    ensures scan { IfOk result (λ next. IfSome next (λ c. IsAt text.now ends.new.items row_ends.new c.from c.first)) }
    ensures low { IfOk result (λ next. IfSome next (λ c. c.from ≤ at + 64)) }
    ensures before { IfOk result (λ next. IfSome next (λ c. NoSeparator text.now c.from (at + 64))) }
{
    let mut cursor = start;
    let mut mask = separators(text, at);
    'marks: while mask != 0 {
        let bit = lowest(mask);
        match push_mark(text, ends, row_ends, cursor, at + bit)? {
            Some(next) => cursor = next,
            None => return Ok(None),
        }
        mask = without(mask, bit);
    }
    Ok(Some(cursor))
}

/// Goes past the byte that ends the field at hand, unless it ends an empty line.
fn push_mark(
    text: &[u8],
    ends: &mut Vec<u32>,
    row_ends: &mut RowEnds,
    cursor: Cursor,
    place: usize,
) -> Result<Option<Cursor>, AllocError>
    requires lines { NoReturn text.now }
    requires scan { IsAt text.now ends.old.items row_ends.old cursor.from cursor.first }
    requires low { cursor.from ≤ place }
    requires high { place < length text.now }
    requires mark { is_separator (slice_index text.now place) ≡ true }
    requires before { NoSeparator text.now cursor.from place }
    ensures scan { IfOk result (λ next. IfSome next (λ c. IsAt text.now ends.new.items row_ends.new c.from c.first)) }
    ensures from { IfOk result (λ next. IfSome next (λ c. c.from ≡ place + 1)) }
{
    let is_line = text[place] == b'\n';
    if is_line && place == cursor.from && ends.len() == cursor.first {
        return Ok(None);
    }
    push_end(ends, place)?;
    let from = place + 1;
    if !is_line {
        let first = cursor.first;
        return Ok(Some(Cursor { from, first }));
    }
    let first = ends.len();
    row_ends.push(first)?;
    Ok(Some(Cursor { from, first }))
}

/// Adds the record that no line feed ends, if there is one.
fn push_last(
    text: &[u8],
    ends: &mut Vec<u32>,
    row_ends: &mut RowEnds,
    cursor: Cursor,
) -> Result<(), AllocError>
    requires lines { NoReturn text.now }
    requires scan { IsAt text.now ends.old.items row_ends.old cursor.from cursor.first }
    requires before { NoSeparator text.now cursor.from (length text.now) }
    ensures { OnOk result (IsWhole text.now ends.new.items row_ends.new) }
{
    if cursor.from == text.len() && ends.len() == cursor.first {
        return Ok(());
    }
    push_end(ends, text.len())?;
    row_ends.push(ends.len())
}
