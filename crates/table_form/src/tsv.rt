//! A table with its fields divided by tabs, as PostgreSQL's COPY writes it, but for nulls, which are empty.

ghost use Rattle.std.specs.Prelude.{◌≡◌, ◌++◌, ℕ, List, IfOk, OnOk, map};
ghost use Rattle.std.specs.List.{list_any};
ghost use Rattle.csv.specs.Records.{fields_of};
ghost use Rattle.csv.specs.Writing.{read_back};
ghost use Rattle.par_model.specs.Table.{table_text};
ghost use Rattle.table_form.specs.Tsv.{is_tsv_special, tsv_byte, tsv_field, tsv_row, tsv_text};

use crate::between::put_lead;
use crate::row::{field_at, read_row};
use csv::ByteRecord;
use std::alloc::{AllocError, Global};

/// The text of a table with tabs.
pub(crate) fn as_tsv(alloc: Global, text: &[u8]) -> Result<Vec<u8>, AllocError>
    ensures { IfOk result (λ out. (table : List (List (List ℕ))) → text.now ≡ table_text table → out.items ≡ tsv_text (map read_back table)) }
{
    let mut out = Vec::new(alloc);
    let mut row = ByteRecord::new(alloc);
    let mut buffer = Vec::new(alloc);
    let mut left = text;
    'rows: while !left.is_empty() {
        let next = read_row(&mut row, &mut buffer, left)?;
        put_row(&mut out, &row)?;
        left = next;
    }
    Ok(out)
}

/// Puts a row.
fn put_row(out: &mut Vec<u8>, row: &ByteRecord) -> Result<(), AllocError>
    ensures { OnOk result (out.new.items ≡ out.old.items ++ tsv_row (fields_of row.now)) }
{
    'fields: for at in 0..row.len() {
        put_lead(out, at, b"\t")?;
        put_field(out, field_at(row, at))?;
    }
    out.push(b'\n')?;
    Ok(())
}

/// Puts a field.
fn put_field(out: &mut Vec<u8>, field: &[u8]) -> Result<(), AllocError>
    ensures { OnOk result (out.new.items ≡ out.old.items ++ tsv_field field.now) }
{
    if has_special(field) {
        return put_escaped(out, field);
    }
    out.extend_from_slice(field)?;
    Ok(())
}

/// Puts a field byte by byte.
fn put_escaped(out: &mut Vec<u8>, field: &[u8]) -> Result<(), AllocError>
    ensures { OnOk result (out.new.items ≡ out.old.items ++ tsv_field field.now) }
{
    for byte in field {
        put_byte(out, *byte)?;
    }
    Ok(())
}

/// Whether a field has a byte that is not written as it is.
fn has_special(field: &[u8]) -> bool
    ensures { result ≡ list_any is_tsv_special field.now }
{
    field.iter().any(|byte| is_special(*byte))
}

/// Whether a byte is not written as it is.
fn is_special(byte: u8) -> bool
    ensures { result ≡ is_tsv_special byte }
{
    byte == b'\t' || byte == b'\n' || byte == b'\r' || byte == b'\\'
}

/// Puts a byte of a field.
fn put_byte(out: &mut Vec<u8>, byte: u8) -> Result<(), AllocError>
    ensures { OnOk result (out.new.items ≡ out.old.items ++ tsv_byte byte) }
{
    if byte == b'\t' {
        out.extend_from_slice(b"\\t")
    } else if byte == b'\n' {
        out.extend_from_slice(b"\\n")
    } else if byte == b'\r' {
        out.extend_from_slice(b"\\r")
    } else if byte == b'\\' {
        out.extend_from_slice(b"\\\\")
    } else {
        out.push(byte)?;
        Ok(())
    }
}
