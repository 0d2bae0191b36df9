//! A table as lines of JSON: an object a row.

ghost use Rattle.std.specs.Prelude.{◌≡◌, ◌<◌, ◌++◌, ◌∷◌, ℕ, List, IfOk, OnOk, map};
ghost use Rattle.std.specs.Char.{digit_char};
ghost use Rattle.std.specs.List.{concat, flat_map, list_any};
ghost use Rattle.std.specs.Str.Lossy.{utf8_lossy};
ghost use Rattle.csv.specs.Records.{fields_of};
ghost use Rattle.csv.specs.Writing.{read_back};
ghost use Rattle.par_model.specs.Table.{table_text};
ghost use Rattle.table_form.specs.Json.{is_json_special, json_byte, json_code, json_control, json_field, json_member, json_name, json_row, json_string, json_text};

use crate::between::put_lead;
use crate::number::is_number;
use crate::row::{field_at, read_row};
use csv::ByteRecord;
use std::alloc::{AllocError, Global};
use std::str;

/// The text of a table as lines of JSON. The first `keys` columns are texts.
pub(crate) fn as_json(alloc: Global, text: &[u8], keys: usize) -> Result<Vec<u8>, AllocError>
    ensures { IfOk result (λ out. (header : List (List ℕ)) (rows : List (List (List ℕ))) → text.now ≡ table_text (header ∷ rows) → out.items ≡ json_text keys (read_back header) (map read_back rows)) }
{
    let mut row = ByteRecord::new(alloc);
    let mut buffer = Vec::new(alloc);
    let rows = read_row(&mut row, &mut buffer, text)?;
    let names = name_texts(alloc, &row)?;
    let mut out = Vec::new(alloc);
    put_rows(&mut out, alloc, &names, keys, rows)?;
    Ok(out)
}

/// Puts the rows of a text, under names with their colons.
fn put_rows(
    out: &mut Vec<u8>,
    alloc: Global,
    names: &ByteRecord,
    keys: usize,
    text: &[u8],
) -> Result<(), AllocError>
    ensures { OnOk result ((rows : List (List (List ℕ))) → text.now ≡ table_text rows → out.new.items ≡ out.old.items ++ concat (map (json_row keys (fields_of names.now)) (map read_back rows))) }
{
    let mut row = ByteRecord::new(alloc);
    let mut buffer = Vec::new(alloc);
    let mut left = text;
    'rows: while !left.is_empty() {
        let next = read_row(&mut row, &mut buffer, left)?;
        put_row(out, alloc, names, keys, &row)?;
        left = next;
    }
    Ok(())
}

/// What the names of the columns are in an object.
fn name_texts(alloc: Global, header: &ByteRecord) -> Result<ByteRecord, AllocError>
    ensures { IfOk result (λ names. fields_of names ≡ map json_name (fields_of header.now)) }
{
    let mut names = ByteRecord::new(alloc);
    let mut name = Vec::new(alloc);
    for at in 0..header.len() {
        name.clear();
        put_string(&mut name, alloc, field_at(header, at))?;
        name.push(b':')?;
        names.push_field(name.as_slice())?;
    }
    Ok(names)
}

/// Puts a row, under names with their colons.
fn put_row(
    out: &mut Vec<u8>,
    alloc: Global,
    names: &ByteRecord,
    keys: usize,
    row: &ByteRecord,
) -> Result<(), AllocError>
    ensures { OnOk result (out.new.items ≡ out.old.items ++ json_row keys (fields_of names.now) (fields_of row.now)) }
{
    out.push(b'{')?;
    'fields: for at in 0..names.len() {
        put_lead(out, at, b",")?;
        put_member(out, alloc, names, keys, row, at)?;
    }
    out.extend_from_slice(b"}\n")?;
    Ok(())
}

/// Puts the member of the column at a place.
fn put_member(
    out: &mut Vec<u8>,
    alloc: Global,
    names: &ByteRecord,
    keys: usize,
    row: &ByteRecord,
    at: usize,
) -> Result<(), AllocError>
    ensures { OnOk result (out.new.items ≡ out.old.items ++ json_member keys (fields_of names.now) (fields_of row.now) at) }
{
    let name = field_at(names, at);
    let field = field_at(row, at);
    out.extend_from_slice(name)?;
    put_field(out, alloc, at < keys, field)?;
    Ok(())
}

/// Puts a field: that of a key as a string, and any other as a number or a null if it is one.
fn put_field(out: &mut Vec<u8>, alloc: Global, is_key: bool, field: &[u8]) -> Result<(), AllocError>
    ensures { OnOk result (out.new.items ≡ out.old.items ++ json_field is_key field.now) }
{
    if is_key {
        return put_string(out, alloc, field);
    }
    if field.is_empty() {
        return out.extend_from_slice(b"null");
    }
    if is_number(field) {
        return out.extend_from_slice(field);
    }
    put_string(out, alloc, field)
}

/// Puts a string.
fn put_string(out: &mut Vec<u8>, alloc: Global, text: &[u8]) -> Result<(), AllocError>
    ensures { OnOk result (out.new.items ≡ out.old.items ++ json_string text.now) }
{
    out.push(b'"')?;
    put_text(out, alloc, text)?;
    out.push(b'"')?;
    Ok(())
}

/// Puts what is between the quotes of a string. Only bytes that are not UTF-8 take memory besides.
fn put_text(out: &mut Vec<u8>, alloc: Global, text: &[u8]) -> Result<(), AllocError>
    ensures { OnOk result (out.new.items ≡ out.old.items ++ flat_map json_byte (utf8_lossy text.now)) }
{
    match str::from_utf8(text) {
        Ok(_) => {
            put_bytes(out, text)?;
            Ok(())
        }
        Err(_) => put_lossy(out, alloc, text),
    }
}

/// Puts what is between the quotes of a string with U+FFFD for what is not UTF-8.
fn put_lossy(out: &mut Vec<u8>, alloc: Global, bytes: &[u8]) -> Result<(), AllocError>
    ensures { OnOk result (out.new.items ≡ out.old.items ++ flat_map json_byte (utf8_lossy bytes.now)) }
{
    let text = String::from_utf8_lossy(alloc, bytes)?;
    put_bytes(out, text.as_bytes())?;
    Ok(())
}

/// Puts bytes of a string.
fn put_bytes(out: &mut Vec<u8>, bytes: &[u8]) -> Result<(), AllocError>
    ensures { OnOk result (out.new.items ≡ out.old.items ++ flat_map json_byte bytes.now) }
{
    if has_special(bytes) {
        return put_escaped(out, bytes);
    }
    out.extend_from_slice(bytes)?;
    Ok(())
}

/// Puts bytes of a string one by one.
fn put_escaped(out: &mut Vec<u8>, bytes: &[u8]) -> Result<(), AllocError>
    ensures { OnOk result (out.new.items ≡ out.old.items ++ flat_map json_byte bytes.now) }
{
    for byte in bytes {
        put_byte(out, *byte)?;
    }
    Ok(())
}

/// Whether some byte is not written as it is.
fn has_special(bytes: &[u8]) -> bool
    ensures { result ≡ list_any is_json_special bytes.now }
{
    bytes.iter().any(|byte| is_special(*byte))
}

/// Whether a byte is not written as it is.
fn is_special(byte: u8) -> bool
    ensures { result ≡ is_json_special byte }
{
    byte < 32 || byte == b'"' || byte == b'\\'
}

/// Puts a byte of a string.
fn put_byte(out: &mut Vec<u8>, byte: u8) -> Result<(), AllocError>
    ensures { OnOk result (out.new.items ≡ out.old.items ++ json_byte byte) }
{
    if byte == b'"' {
        out.extend_from_slice(b"\\\"")
    } else if byte == b'\\' {
        out.extend_from_slice(b"\\\\")
    } else if byte < 32 {
        put_control(out, byte)
    } else {
        out.push(byte)?;
        Ok(())
    }
}

/// Puts a control character.
fn put_control(out: &mut Vec<u8>, byte: u8) -> Result<(), AllocError>
    requires { byte < 32 }
    ensures { OnOk result (out.new.items ≡ out.old.items ++ json_control byte) }
{
    if byte == 8 {
        out.extend_from_slice(b"\\b")
    } else if byte == b'\t' {
        out.extend_from_slice(b"\\t")
    } else if byte == b'\n' {
        out.extend_from_slice(b"\\n")
    } else if byte == 12 {
        out.extend_from_slice(b"\\f")
    } else if byte == b'\r' {
        out.extend_from_slice(b"\\r")
    } else {
        put_code(out, byte)
    }
}

/// Puts a control character by its number.
fn put_code(out: &mut Vec<u8>, byte: u8) -> Result<(), AllocError>
    requires { byte < 32 }
    ensures { OnOk result (out.new.items ≡ out.old.items ++ json_code byte) }
{
    out.extend_from_slice(b"\\u00")?;
    out.push(digit(byte / 16))?;
    out.push(digit(byte % 16))?;
    Ok(())
}

/// A digit of base 16.
fn digit(value: u8) -> u8
    requires { value < 16 }
    ensures { result ≡ digit_char value }
{
    if value < 10 {
        b'0' + value
    } else {
        b'a' - 10 + value
    }
}
