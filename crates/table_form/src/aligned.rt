//! A table whose columns are aligned, for a reader: the header, a line of dashes, and the rows.

ghost use Rattle.std.specs.Prelude.{◌≡◌, ◌++◌, ◌∷◌, ℕ, List, IfOk, OnOk, map, replicate};
ghost use Rattle.std.specs.List.{concat};
ghost use Rattle.csv.specs.Records.{fields_of};
ghost use Rattle.csv.specs.Writing.{read_back};
ghost use Rattle.par_model.specs.Table.{table_text};
ghost use Rattle.table_form.specs.Aligned.{aligned_cell, aligned_row, aligned_text, dashes};

use crate::between::put_lead;
use crate::row::{field_at, read_row};
use crate::sizes::{characters, column_sizes, put_cell};
use csv::ByteRecord;
use std::alloc::{AllocError, Global};

/// What comes between two columns.
const GAP: &[u8] = b"  ";

/// The text of a table whose columns are aligned. The first `keys` columns are texts.
pub(crate) fn as_aligned(alloc: Global, text: &[u8], keys: usize) -> Result<Vec<u8>, AllocError>
    ensures { IfOk result (λ out. (header : List (List ℕ)) (rows : List (List (List ℕ))) → text.now ≡ table_text (header ∷ rows) → out.items ≡ aligned_text keys (read_back header) (map read_back rows)) }
{
    let sizes = column_sizes(alloc, text)?;
    let mut row = ByteRecord::new(alloc);
    let mut buffer = Vec::new(alloc);
    let rows = read_row(&mut row, &mut buffer, text)?;
    let mut out = Vec::new(alloc);
    let mut cell = String::new(alloc);
    let widths = sizes.as_slice();
    put_row(&mut out, &mut cell, widths, keys, &row)?;
    put_dashes(&mut out, widths)?;
    put_rows(&mut out, alloc, widths, keys, rows)?;
    Ok(out)
}

/// Puts the rows of a text.
fn put_rows(
    out: &mut Vec<u8>,
    alloc: Global,
    sizes: &[usize],
    keys: usize,
    text: &[u8],
) -> Result<(), AllocError>
    ensures { OnOk result ((rows : List (List (List ℕ))) → text.now ≡ table_text rows → out.new.items ≡ out.old.items ++ concat (map (aligned_row keys sizes.now) (map read_back rows))) }
{
    let mut row = ByteRecord::new(alloc);
    let mut buffer = Vec::new(alloc);
    let mut cell = String::new(alloc);
    let mut left = text;
    'rows: while !left.is_empty() {
        let next = read_row(&mut row, &mut buffer, left)?;
        put_row(out, &mut cell, sizes, keys, &row)?;
        left = next;
    }
    Ok(())
}

/// Puts a row. What the cell has does not matter.
fn put_row(
    out: &mut Vec<u8>,
    cell: &mut String,
    sizes: &[usize],
    keys: usize,
    row: &ByteRecord,
) -> Result<(), AllocError>
    ensures { OnOk result (out.new.items ≡ out.old.items ++ aligned_row keys sizes.now (fields_of row.now)) }
{
    'fields: for at in 0..sizes.len() {
        put_lead(out, at, GAP)?;
        put_cell(cell, field_at(row, at))?;
        put_aligned(out, cell.as_bytes(), at < keys, sizes[at])?;
    }
    out.push(b'\n')?;
    Ok(())
}

/// Puts what is shown of a field in this many characters: a key to the left, a number to the right.
fn put_aligned(out: &mut Vec<u8>, text: &[u8], is_key: bool, size: usize) -> Result<(), AllocError>
    ensures { OnOk result (out.new.items ≡ out.old.items ++ aligned_cell is_key size text.now) }
{
    let spaces = size.saturating_sub(characters(text));
    if is_key {
        put_left(out, text, spaces)
    } else {
        put_right(out, text, spaces)
    }
}

/// Puts a text and then spaces.
fn put_left(out: &mut Vec<u8>, text: &[u8], spaces: usize) -> Result<(), AllocError>
    ensures { OnOk result (out.new.items ≡ out.old.items ++ (text.now ++ replicate spaces 32)) }
{
    out.extend_from_slice(text)?;
    put_times(out, spaces, b' ')?;
    Ok(())
}

/// Puts spaces and then a text.
fn put_right(out: &mut Vec<u8>, text: &[u8], spaces: usize) -> Result<(), AllocError>
    ensures { OnOk result (out.new.items ≡ out.old.items ++ (replicate spaces 32 ++ text.now)) }
{
    put_times(out, spaces, b' ')?;
    out.extend_from_slice(text)?;
    Ok(())
}

/// Puts a line of dashes under each column.
fn put_dashes(out: &mut Vec<u8>, sizes: &[usize]) -> Result<(), AllocError>
    ensures { OnOk result (out.new.items ≡ out.old.items ++ dashes sizes.now) }
{
    'columns: for at in 0..sizes.len() {
        put_lead(out, at, GAP)?;
        put_times(out, sizes[at], b'-')?;
    }
    out.push(b'\n')?;
    Ok(())
}

/// Puts a byte this many times.
fn put_times(out: &mut Vec<u8>, times: usize, byte: u8) -> Result<(), AllocError>
    ensures { OnOk result (out.new.items ≡ out.old.items ++ replicate times byte) }
{
    for _at in 0..times {
        out.push(byte)?;
    }
    Ok(())
}
