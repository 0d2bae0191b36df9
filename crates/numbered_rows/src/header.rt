//! The header of a table that has none.

ghost use Rattle.std.specs.Prelude.{◌≡◌, ◌++◌, ◌∷◌, [], IfOk, OnOk, decimal, length, map, min, take};
ghost use Rattle.csv_rows.specs.Readings.{exchanged};
ghost use Rattle.numbered_rows.specs.Numbers.{header_text, headed, lead, mark_text, number_text, width_of};

use crate::front::FRONT;
use csv_rows::{RowsAnswer, exchange, rows, without_mark};
use std::alloc::{AllocError, Global};

/// The front of a table behind a header, and without a byte order mark. An error means that memory ran out.
pub(crate) fn headed(alloc: Global, separator: u8, front: &[u8]) -> Result<Vec<u8>, AllocError>
    ensures { IfOk result (λ text. text.items ≡ headed separator (width_of separator (take FRONT front.now)) front.now) }
{
    let width = width_of(alloc, separator, counted(front))?;
    let mut text = header_text(alloc, separator, width)?;
    text.extend_from_slice(without_mark(front))?;
    Ok(text)
}

/// The bytes among which fields are counted.
fn counted(front: &[u8]) -> &[u8]
    ensures { result.now ≡ take (min (length front.entry.now) FRONT) front.entry.now }
{
    &front[..front.len().min(FRONT)]
}

/// How many fields the first record has: none if there is no record.
fn width_of(alloc: Global, separator: u8, front: &[u8]) -> Result<u32, AllocError>
    ensures { IfOk result (λ width. width ≡ width_of separator front.now) }
{
    let text = with_commas(alloc, separator, front)?;
    match rows(alloc, text.as_slice()) {
        Ok(store) => Ok(store.width(0)),
        Err(RowsAnswer::NoHeader) => Ok(0),
        Err(_) => Err(AllocError),
    }
}

/// A copy of some bytes in which the comma and the separator are exchanged.
fn with_commas(alloc: Global, separator: u8, front: &[u8]) -> Result<Vec<u8>, AllocError>
    ensures { IfOk result (λ text. text.items ≡ map (exchanged separator) front.now) }
{
    let mut text = Vec::from_slice(alloc, front)?;
    exchange(text.as_mut_slice(), separator);
    Ok(text)
}

/// The numbers from 1 on with the separator between two, and a carriage return; nothing if there are none.
fn header_text(alloc: Global, separator: u8, width: u32) -> Result<Vec<u8>, AllocError>
    ensures { IfOk result (λ text. text.items ≡ header_text separator width) }
{
    let mut text = Vec::new(alloc);
    if width == 0 {
        return Ok(text);
    }
    'columns: for at in 0..width {
        put_lead(&mut text, separator, at)?;
        put_number(&mut text, separator, u64::from(at) + 1)?;
    }
    text.push(b'\r')?;
    Ok(text)
}

/// Puts what comes before the number at a place: the separator, unless it is the first.
fn put_lead(text: &mut Vec<u8>, separator: u8, at: u32) -> Result<(), AllocError>
    ensures { OnOk result (text.new.items ≡ text.old.items ++ lead at (separator ∷ [])) }
{
    if at == 0 {
        return Ok(());
    }
    text.push(separator)?;
    Ok(())
}

/// Puts a number as a field.
fn put_number(text: &mut Vec<u8>, separator: u8, number: u64) -> Result<(), AllocError>
    ensures { OnOk result (text.new.items ≡ text.old.items ++ number_text separator number) }
{
    put_mark(text, separator)?;
    put_digits(text, number)?;
    put_mark(text, separator)
}

/// Puts a quote, if the separator is a digit.
fn put_mark(text: &mut Vec<u8>, separator: u8) -> Result<(), AllocError>
    ensures { OnOk result (text.new.items ≡ text.old.items ++ mark_text separator) }
{
    if !separator.is_ascii_digit() {
        return Ok(());
    }
    text.push(b'"')?;
    Ok(())
}

/// Puts a number.
fn put_digits(text: &mut Vec<u8>, number: u64) -> Result<(), AllocError>
    ensures { OnOk result (text.new.items ≡ text.old.items ++ decimal number) }
{
    text.extend_from_slice(itoa::Buffer::new().format(number).as_bytes())?;
    Ok(())
}
