//! A line put straight at the end of a text, for a caller that has to know where each line ends.
//!
//! The text is the one that the crate `csv` writes: a comma between two fields, quotes around a field that has a comma, a
//! quote or an end of line in it, two quotes for a line of one empty field, and a line feed. While a line is made, each of its
//! fields has a comma after it.

ghost use Rattle.std.specs.Prelude.{◌≡◌, ◌==◌, ◌<◌, ◌≤◌, ◌-◌, ◌++◌, ◌∷◌, [], ℕ, List, All, OnOk, if◌then◌else◌, length, map, take};
ghost use Rattle.std.specs.List.{concat};
ghost use Rattle.csv.specs.Writing.{default_writer, escaped, field_text, needs_byte, needs_quotes, quoted, row_text};
ghost use Rattle.par_model.specs.Decimal.{number_text};
ghost use Rattle.par_model.specs.Table.{value_text, values_text};
ghost use Rattle.par_model.specs.declared.plan.TheConstants.{MOST_PLACES};
ghost use Rattle.result_text.specs.KeyColumns.{columns_in};
ghost use Rattle.result_text.specs.Lines.{followed};
ghost use Rattle.result_text.specs.Printable.{IsSmallSlot, MOST_TEXT_PLACES};

use crate::decimal::{average, push_number};
use crate::order::split_column;
use crate::values::group_count;
use itoa::Integer;
use par_model::{AggState, BoundPlan, Item, ItemKind, SlotState};
use std::alloc::AllocError;

/// Puts the line of a group with this key at the end of a text. An error means that memory ran out; the text then has some
/// of the line at its end. It takes memory only as the text grows, and time by the length of the line.
pub fn push_line(
    text: &mut Vec<u8>,
    bound: &BoundPlan,
    key: &[u8],
    state: &AggState,
) -> Result<(), AllocError>
    requires small { All IsSmallSlot state.now.slots }
    ensures { OnOk result (text.new.items ≡ text.old.items ++ row_text default_writer (columns_in (length bound.now.groups) key.now ++ values_text bound.now state.now)) }
{
    let from = text.len();
    push_columns(text, key, group_count(bound))?;
    push_values(text, bound, state)?;
    end_line(text, from)
}

/// The columns of an encoded key, this many.
fn push_columns(text: &mut Vec<u8>, key: &[u8], columns: u32) -> Result<(), AllocError>
    ensures { OnOk result (text.new.items ≡ text.old.items ++ concat (map followed (columns_in columns key.now))) }
{
    let mut rest = key;
    for _at in 0..columns {
        let (column, more) = split_column(rest);
        push_field(text, column)?;
        rest = more;
    }
    Ok(())
}

/// The values of a group's aggregates.
fn push_values(text: &mut Vec<u8>, bound: &BoundPlan, state: &AggState) -> Result<(), AllocError>
    requires small { All IsSmallSlot state.now.slots }
    ensures { OnOk result (text.new.items ≡ text.old.items ++ concat (map followed (values_text bound.now state.now))) }
{
    for (item, slot) in bound.items().iter().zip(state.slots.iter()) {
        push_value(text, *item, state.rows, slot)?;
    }
    Ok(())
}

/// The value of one aggregate, or an empty field if it is null, and the comma after it. A number needs no quotes.
fn push_value(text: &mut Vec<u8>, item: Item, rows: u64, slot: &SlotState) -> Result<(), AllocError>
    requires small { IsSmallSlot slot.now }
    requires places { item.places ≤ MOST_PLACES }
    ensures { OnOk result (text.new.items ≡ text.old.items ++ followed (value_text item.kind item.places rows slot.now)) }
{
    push_bare_value(text, item, rows, slot)?;
    text.push(b',')?;
    Ok(())
}

/// The value of one aggregate, or nothing if it is null.
fn push_bare_value(
    text: &mut Vec<u8>,
    item: Item,
    rows: u64,
    slot: &SlotState,
) -> Result<(), AllocError>
    requires small { IsSmallSlot slot.now }
    requires places { item.places ≤ MOST_PLACES }
    ensures { OnOk result (text.new.items ≡ text.old.items ++ value_text item.kind item.places rows slot.now) }
{
    match item.kind {
        ItemKind::Rows => push_integer(text, rows),
        ItemKind::Count => push_integer(text, slot.count),
        _ if slot.count == 0 => Ok(()),
        ItemKind::Sum => push_units(text, slot.sum, item.places),
        ItemKind::Min => push_units(text, i128::from(slot.least), item.places),
        ItemKind::Max => push_units(text, i128::from(slot.greatest), item.places),
        ItemKind::Avg => push_units(text, average(slot.sum, slot.count), item.places + 4),
    }
}

/// A number of units of 10^-`places`.
fn push_units(text: &mut Vec<u8>, n: i128, places: u32) -> Result<(), AllocError>
    requires { places ≤ MOST_TEXT_PLACES }
    ensures { OnOk result (text.new.items ≡ text.old.items ++ number_text places n) }
{
    if places == 0 {
        return push_integer(text, n);
    }
    push_number(text, n, places)
}

/// An integer of any width.
fn push_integer<I: Integer>(text: &mut Vec<u8>, n: I) -> Result<(), AllocError>
    ensures { OnOk result (text.new.items ≡ text.old.items ++ I.text n) }
{
    text.extend_from_slice(itoa::Buffer::new().format(n).as_bytes())
}

/// A field of any bytes, and the comma after it.
fn push_field(text: &mut Vec<u8>, field: &[u8]) -> Result<(), AllocError>
    ensures { OnOk result (text.new.items ≡ text.old.items ++ followed field.now) }
{
    push_field_text(text, field)?;
    text.push(b',')?;
    Ok(())
}

/// A field of any bytes, in quotes if it calls for them.
fn push_field_text(text: &mut Vec<u8>, field: &[u8]) -> Result<(), AllocError>
    ensures { OnOk result (text.new.items ≡ text.old.items ++ field_text default_writer field.now) }
{
    if has_special(field) {
        return push_quoted(text, field);
    }
    text.extend_from_slice(field)?;
    Ok(())
}

/// Whether a byte of the field calls for quotes.
fn has_special(field: &[u8]) -> bool
    ensures { result ≡ needs_quotes default_writer field.now }
{
    field.iter().any(|byte| is_special(*byte))
}

/// Whether a byte calls for quotes.
fn is_special(byte: u8) -> bool
    ensures { result ≡ needs_byte default_writer byte }
{
    byte == b',' || byte == b'"' || byte == b'\r' || byte == b'\n'
}

/// A field in quotes.
fn push_quoted(text: &mut Vec<u8>, field: &[u8]) -> Result<(), AllocError>
    ensures { OnOk result (text.new.items ≡ text.old.items ++ quoted default_writer field.now) }
{
    text.push(b'"')?;
    push_escaped(text, field)?;
    text.push(b'"')?;
    Ok(())
}

/// The bytes of a field, each quote twice.
fn push_escaped(text: &mut Vec<u8>, field: &[u8]) -> Result<(), AllocError>
    ensures { OnOk result (text.new.items ≡ text.old.items ++ escaped default_writer field.now) }
{
    for byte in field {
        push_byte(text, *byte)?;
    }
    Ok(())
}

/// A byte, and a quote twice.
fn push_byte(text: &mut Vec<u8>, byte: u8) -> Result<(), AllocError>
    ensures { OnOk result (text.new.items ≡ text.old.items ++ escaped default_writer (byte ∷ [])) }
{
    if byte == b'"' {
        return text.extend_from_slice(b"\"\"");
    }
    text.push(byte)?;
    Ok(())
}

/// Ends the line that begins at a place, of which each field has a comma after it: the last of these goes, and a line of no
/// bytes gets two quotes.
fn end_line(text: &mut Vec<u8>, from: usize) -> Result<(), AllocError>
    ensures { OnOk result ((before : List ℕ) (fields : List (List ℕ)) → length before ≡ from → text.old.items ≡ before ++ concat (map followed fields)
        → text.new.items ≡ before ++ row_text default_writer fields) }
{
    drop_comma(text, from);
    mark_blank(text, from)?;
    text.push(b'\n')?;
    Ok(())
}

/// The last byte of a line that begins at a place goes, if it has one.
fn drop_comma(text: &mut Vec<u8>, from: usize)
    ensures some { from < length text.old.items → text.new.items ≡ take (length text.old.items - 1) text.old.items }
    ensures none { length text.old.items ≤ from → text.new.items ≡ text.old.items }
{
    if from < text.len() {
        text.pop();
    }
}

/// Two quotes for a line of no bytes that begins at a place.
fn mark_blank(text: &mut Vec<u8>, from: usize) -> Result<(), AllocError>
    ensures { OnOk result (text.new.items ≡ text.old.items ++ (if length text.old.items == from then 34 ∷ 34 ∷ [] else [])) }
{
    if text.len() != from {
        return Ok(());
    }
    text.extend_from_slice(b"\"\"")
}
