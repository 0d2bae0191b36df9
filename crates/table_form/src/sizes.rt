//! How many characters the widest field of each column has.

ghost use Rattle.std.specs.Prelude.{◌≡◌, ◌<◌, ◌∷◌, ℕ, List, IfOk, OnOk, length, map, max, replicate, slice_index, slice_set, string_bytes};
ghost use Rattle.csv.specs.Records.{fields_of};
ghost use Rattle.csv.specs.Writing.{read_back};
ghost use Rattle.par_model.specs.Table.{table_text};
ghost use Rattle.table_form.specs.Aligned.{begins_character, characters, column_sizes, shown};
ghost use Rattle.table_form.specs.Sizes.{AreWide, AreWidened};

use crate::row::{field_at, read_row};
use csv::ByteRecord;
use shown_text::put_escaped;
use std::alloc::{AllocError, Global};

/// How many characters the widest field of each column has as it is shown, its name among them.
pub(crate) fn column_sizes(alloc: Global, text: &[u8]) -> Result<Vec<usize>, AllocError>
    ensures { IfOk result (λ sizes. (header : List (List ℕ)) (rows : List (List (List ℕ))) → text.now ≡ table_text (header ∷ rows) → sizes.items ≡ column_sizes (read_back header) (map read_back rows)) }
{
    let mut row = ByteRecord::new(alloc);
    let mut buffer = Vec::new(alloc);
    let rows = read_row(&mut row, &mut buffer, text)?;
    let mut sizes = zeros(alloc, row.len())?;
    let mut cell = String::new(alloc);
    widen(&mut sizes, &row, &mut cell)?;
    widen_all(&mut sizes, alloc, rows)?;
    Ok(sizes)
}

/// This many zeros.
fn zeros(alloc: Global, count: usize) -> Result<Vec<usize>, AllocError>
    ensures { IfOk result (λ sizes. sizes.items ≡ replicate count 0) }
{
    let mut sizes = Vec::new(alloc);
    sizes.resize(count, 0)?;
    Ok(sizes)
}

/// Makes each size at least that of the fields of all rows of a text.
fn widen_all(sizes: &mut Vec<usize>, alloc: Global, text: &[u8]) -> Result<(), AllocError>
    ensures { OnOk result ((rows : List (List (List ℕ))) → text.now ≡ table_text rows → AreWide sizes.old.items sizes.new.items (map read_back rows)) }
{
    let mut row = ByteRecord::new(alloc);
    let mut buffer = Vec::new(alloc);
    let mut cell = String::new(alloc);
    let mut left = text;
    'rows: while !left.is_empty() {
        let next = read_row(&mut row, &mut buffer, left)?;
        widen(sizes, &row, &mut cell)?;
        left = next;
    }
    Ok(())
}

/// Makes each size at least that of a row's field. What the cell has does not matter.
fn widen(sizes: &mut Vec<usize>, row: &ByteRecord, cell: &mut String) -> Result<(), AllocError>
    ensures { OnOk result (AreWidened sizes.old.items sizes.new.items (fields_of row.now)) }
{
    'columns: for at in 0..sizes.len() {
        put_cell(cell, field_at(row, at))?;
        let size = characters(cell.as_bytes());
        raise(sizes, at, size);
    }
    Ok(())
}

/// Makes the size at a place at least this one.
fn raise(sizes: &mut Vec<usize>, at: usize, size: usize)
    requires { at < length sizes.old.items }
    ensures { sizes.new.items ≡ slice_set sizes.old.items at (max (slice_index sizes.old.items at) size) }
{
    sizes[at] = sizes[at].max(size);
}

/// Makes a cell what is shown of a field.
pub(crate) fn put_cell(cell: &mut String, field: &[u8]) -> Result<(), AllocError>
    ensures { OnOk result (string_bytes cell.new ≡ shown field.now) }
{
    cell.clear();
    put_escaped(cell, field)?;
    Ok(())
}

/// How many characters a text of UTF-8 has.
pub(crate) fn characters(text: &[u8]) -> usize
    ensures { result ≡ characters text.now }
{
    text.iter().filter(|byte| begins_character(**byte)).count()
}

/// Whether a byte of UTF-8 begins a character.
fn begins_character(byte: u8) -> bool
    ensures { result ≡ begins_character byte }
{
    byte < 128 || byte >= 192
}
