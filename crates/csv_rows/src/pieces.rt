//! The pieces of a text, each read in a separate thread.
//!
//! The text is halved before a line feed that is outside quotes, and so are its halves. A cut before a line feed needs
//! no care for the bytes around it: the first half ends its last record there as at the end of a text, and the second
//! begins with an end of line, which begins no record, so that a byte order mark after it is not taken for one.

ghost use Rattle.std.specs.Prelude.{◌≡◌, ◌≢◌, ◌<◌, ◌≤◌, [], IfOk, length};
ghost use Rattle.std.specs.Thread.{IsSync};
ghost use Rattle.csv_rows.specs.InPieces.{joined};
ghost use Rattle.csv_rows.specs.Readings.{records_as};
ghost use Rattle.csv_rows.specs.Records.{records_of};
ghost use Rattle.csv_rows.specs.declared.records.RowsAnswer.TheVariants as answer;

use crate::cleaning::Reading;
use crate::cut::find_cut;
use crate::piece::Piece;
use crate::reading::read_records;
use crate::records::{MOST_RECORDS, RowsAnswer};
use std::alloc::Global;
use std::thread::{Threads, join};

/// The pieces of a text, at most this many, of which none is empty.
pub(crate) fn read_pieces<R: Threads + Sync>(
    rt: &R,
    alloc: Global,
    bytes: &[u8],
    parts: usize,
) -> Result<Vec<Piece>, RowsAnswer>
    ensures records { IfOk result (λ pieces. joined pieces.items ≡ records_of bytes.now) }
    ensures no_header { result ≢ Err answer.NoHeader }
    ensures too_many { result ≡ Err answer.TooManyRows → MOST_RECORDS < length (records_of bytes.now) }
{
    if parts < 2 {
        return read_one(alloc, bytes);
    }
    let low = parts / 2;
    let high = parts - low;
    let Some(at) = find_cut(rt, bytes, bytes.len() / parts * low, parts) else {
        return read_one(alloc, bytes);
    };
    let (front, back) = bytes.split_at(at);
    let (first, second) = join(
        rt,
        || -> Result<Vec<Piece>, RowsAnswer>
            requires { IsSync R.row }
            ensures { IfOk result (λ pieces. joined pieces.items ≡ records_of front.entry.now) × (result ≢ Err answer.NoHeader) × (result ≡ Err answer.TooManyRows → MOST_RECORDS < length (records_of front.entry.now)) }
        { read_pieces(rt, alloc, front, low) },
        || -> Result<Vec<Piece>, RowsAnswer>
            requires { IsSync R.row }
            ensures { IfOk result (λ pieces. joined pieces.items ≡ records_of back.entry.now) × (result ≢ Err answer.NoHeader) × (result ≡ Err answer.TooManyRows → MOST_RECORDS < length (records_of back.entry.now)) }
        { read_pieces(rt, alloc, back, high) },
    );
    let mut all = match first {
        Ok(all) => all,
        Err(why) => return Err(why),
    };
    let mut rest = match second {
        Ok(rest) => rest,
        Err(why) => return Err(why),
    };
    if all.append(&mut rest).is_err() {
        return Err(RowsAnswer::Memory);
    }
    Ok(all)
}

/// The one piece of a text, if that has records, read in the caller's thread.
pub(crate) fn read_one(alloc: Global, bytes: &[u8]) -> Result<Vec<Piece>, RowsAnswer>
    ensures records { IfOk result (λ pieces. joined pieces.items ≡ records_of bytes.now) }
    ensures no_header { result ≢ Err answer.NoHeader }
    ensures too_many { result ≡ Err answer.TooManyRows → MOST_RECORDS < length (records_of bytes.now) }
{
    let mut pieces = Vec::new(alloc);
    match read_records(alloc, bytes) {
        Ok(piece) => {
            if pieces.push(piece).is_err() {
                return Err(RowsAnswer::Memory);
            }
            Ok(pieces)
        }
        Err(RowsAnswer::NoHeader) => Ok(pieces),
        Err(why) => Err(why),
    }
}

/// The one piece of a text, if that has records, each field as it is read.
pub(crate) fn read_one_as(
    alloc: Global,
    reading: &Reading,
    bytes: &[u8],
) -> Result<Vec<Piece>, RowsAnswer>
    ensures records { IfOk result (λ pieces. joined pieces.items ≡ records_as reading.now bytes.now) }
    ensures no_header { result ≢ Err answer.NoHeader }
    ensures too_many { result ≡ Err answer.TooManyRows → MOST_RECORDS < length (records_as reading.now bytes.now) }
{
    let mut pieces = Vec::new(alloc);
    match read_records_as(alloc, reading, bytes) {
        Ok(piece) => {
            if pieces.push(piece).is_err() {
                return Err(RowsAnswer::Memory);
            }
            Ok(pieces)
        }
        Err(RowsAnswer::NoHeader) => Ok(pieces),
        Err(why) => Err(why),
    }
}

/// The records of a text, each field as it is read.
fn read_records_as(alloc: Global, reading: &Reading, bytes: &[u8]) -> Result<Piece, RowsAnswer>
    ensures records { IfOk result (λ piece. piece ≡ records_as reading.now bytes.now) }
    ensures no_header { result ≡ Err answer.NoHeader → records_as reading.now bytes.now ≡ [] }
    ensures too_many { result ≡ Err answer.TooManyRows → MOST_RECORDS < length (records_as reading.now bytes.now) }
{
    let piece = match read_records(alloc, bytes) {
        Ok(piece) => piece,
        Err(why) => return Err(why),
    };
    let swapped = piece.exchanged(reading.separator);
    match swapped.cleaned(alloc, reading) {
        Ok(read) => Ok(read),
        Err(_) => Err(RowsAnswer::Memory),
    }
}
