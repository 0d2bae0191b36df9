//! The rows of a table's text, read one at a time into a record that is used again.

ghost use Rattle.std.specs.Prelude.{◌≡◌, ◌==◌, ◌<◌, ◌≤◌, ◌++◌, ◌∷◌, [], false, true, ℕ, List, IfOk, OnOk, drop, get_or, length, slice_index, take};
ghost use Rattle.csv.specs.Records.{fields_of, partial_of};
ghost use Rattle.csv.specs.Writing.{default_writer, read_back, row_text};
ghost use Rattle.table_form.specs.Reading.{IsFieldText, once};
ghost use Rattle.table_order.specs.Lines.{between_quotes, size_to};

use csv::ByteRecord;
use std::alloc::AllocError;
use table_order::size_to;

/// Reads the first row of a text, and returns the text after it. What the buffer has does not matter.
pub(crate) fn read_row<'a>(
    row: &mut ByteRecord,
    buffer: &mut Vec<u8>,
    text: &'a [u8],
) -> Result<&'a [u8], AllocError>
    ensures fields { OnOk result ((fields : List (List ℕ)) (rest : List ℕ) → text.entry.now ≡ row_text default_writer fields ++ rest → fields_of row.new ≡ read_back fields) }
    ensures rest { IfOk result (λ left. (fields : List (List ℕ)) (rest : List ℕ) → text.entry.now ≡ row_text default_writer fields ++ rest → left.now ≡ rest) }
    ensures shorter { IfOk result (λ left. 0 < length text.entry.now → length left.now < length text.entry.now) }
{
    row.clear();
    let mut left = text;
    'fields: while !left.is_empty() {
        let (field, more) = split_field(left);
        read_field(row, buffer, field)?;
        let next = without_first(more);
        if !begins_with(more, b',') {
            return Ok(next);
        }
        left = next;
    }
    Ok(left)
}

/// The text of the first field of a line, and what comes after it.
fn split_field(text: &[u8]) -> (&[u8], &[u8])
    ensures field { result.0.now ≡ take (size_to true false text.entry.now) text.entry.now }
    ensures rest { result.1.now ≡ drop (size_to true false text.entry.now) text.entry.now }
    ensures within { length result.1.now ≤ length text.entry.now }
{
    text.split_at(size_to(text, true))
}

/// Puts the field of this text at the end of a record.
fn read_field(row: &mut ByteRecord, buffer: &mut Vec<u8>, text: &[u8]) -> Result<(), AllocError>
    requires { partial_of row.old ≡ [] }
    ensures field { OnOk result ((field : List ℕ) → IsFieldText field text.now → fields_of row.new ≡ fields_of row.old ++ field ∷ []) }
    ensures partial { OnOk result (partial_of row.new ≡ []) }
{
    if begins_with(text, b'"') {
        put_once(buffer, between_quotes(text))?;
        row.push_field(buffer.as_slice())?;
        Ok(())
    } else {
        row.push_field(text)?;
        Ok(())
    }
}

/// The bytes between the quotes of a field's text.
fn between_quotes(text: &[u8]) -> &[u8]
    requires { slice_index text.now 0 ≡ 34 }
    ensures { result.now ≡ between_quotes text.entry.now }
{
    &text[1..text.len().max(2) - 1]
}

/// Whether a text begins with a byte.
pub(crate) fn begins_with(text: &[u8], byte: u8) -> bool
    requires { 0 < byte }
    ensures { result ≡ (slice_index text.now 0 == byte) }
{
    !text.is_empty() && text[0] == byte
}

/// A text without its first byte.
pub(crate) fn without_first(text: &[u8]) -> &[u8]
    ensures { result.now ≡ drop 1 text.entry.now }
{
    match text {
        [] => &[],
        [_, more @ ..] => more,
    }
}

/// Makes a buffer the bytes between the quotes of a field, each quote once of the two.
fn put_once(buffer: &mut Vec<u8>, inner: &[u8]) -> Result<(), AllocError>
    ensures { OnOk result (buffer.new.items ≡ once false inner.now) }
{
    buffer.clear();
    let mut after_quote = false;
    for byte in inner {
        let next = put_byte(buffer, after_quote, *byte)?;
        after_quote = next;
    }
    Ok(())
}

/// Puts a byte, unless it is the second of two quotes, and says whether the next may be.
fn put_byte(buffer: &mut Vec<u8>, after_quote: bool, byte: u8) -> Result<bool, AllocError>
    ensures { IfOk result (λ after. (rest : List ℕ) → buffer.new.items ++ once after rest ≡ buffer.old.items ++ once after_quote (byte ∷ rest)) }
{
    if byte == b'"' && after_quote {
        return Ok(false);
    }
    buffer.push(byte)?;
    Ok(byte == b'"')
}

/// The field at a place of a record, or none of bytes past its end.
pub(crate) fn field_at(row: &ByteRecord, at: usize) -> &[u8]
    ensures { result.now ≡ get_or (fields_of row.now) at [] }
{
    match row.get(at) {
        Some(field) => field,
        None => &[],
    }
}
