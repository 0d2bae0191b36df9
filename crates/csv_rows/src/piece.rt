//! A piece of a store: records with no allocation for a record or a field.
//!
//! The bytes of the fields lie in one list; a second list has the place where each field ends among the bytes, and
//! [`RowEnds`] the place where each record ends among the fields. In both the places rise, so a field is a run of bytes
//! and a record a run of fields. Between two fields there is no byte if csv's machine gave them one by one, and the
//! byte that parts them if a text was copied as a whole.

ghost use Rattle.std.specs.Prelude.{◌≡◌, ◌<◌, ◌≤◌, ◌∷◌, ◌++◌, ◌+◌, ℕ, List, [], IfOk, OnOk, drop, get_or, length, map, take};
ghost use Rattle.csv.specs.Records.{Rising, cut_from, fields_of, text_of};
ghost use Rattle.csv_rows.specs.Readings.{cleaned, exchanged};
ghost use Rattle.csv_rows.specs.Records.{field_of, record_at};
ghost use Rattle.csv_rows.specs.Store.{Apart, Covers, cut_apart, field_start, stored, stored_apart};

use crate::cleaning::Reading;
use crate::exchanging::exchange;
use crate::records::MOST_RECORDS;
use crate::row_ends::RowEnds;
use csv::ByteRecord;
use std::alloc::{AllocError, Global};
use std::marker::Model;

/// A list of records, each a list of fields, of which there is at least one. They are numbered from 0 on.
#[derive(Drop)]
pub(crate) struct Piece {
    bytes: Vec<u8>,
    ends: Vec<u32>,
    row_ends: RowEnds,
    gap: u8,
}

impl Model for Piece {
    ghost use Rattle.std.specs.Prelude.{ℕ, List};
    ghost use Rattle.csv_rows.specs.Store.{IsStore, stored_apart};

    ghost Value = { List (List (List ℕ)) };

    ghost view = { λ s. stored_apart s.gap s.bytes.items s.ends.items s.row_ends };

    ghost invariant = { λ s. IsStore s.gap s.bytes.items s.ends.items s.row_ends };
}

impl Piece {
    /// The piece of these lists, in which this many bytes lie between two fields.
    pub(crate) fn of_lists(bytes: Vec<u8>, ends: Vec<u32>, row_ends: RowEnds, gap: u8) -> Piece
        requires fields { Apart gap 0 ends.items (length bytes.items) }
        requires rows { Rising 0 row_ends (length ends.items) }
        requires some { 0 < length row_ends }
        requires few { length row_ends ≤ MOST_RECORDS }
        ensures { result ≡ stored_apart gap bytes.items ends.items row_ends }
    {
        Piece {
            bytes,
            ends,
            row_ends,
            gap,
        }
    }

    /// The number of the last record.
    pub(crate) fn last(&self) -> u64
        ensures last { result + 1 ≡ length self.now }
        ensures few { result < MOST_RECORDS }
    {
        self.row_ends.len() as u64 - 1
    }

    /// How many fields a record has. In constant time.
    pub(crate) fn width(&self, row: u64) -> u32
        requires { row < length self.now }
        ensures { result ≡ length (record_at self.now row) }
    {
        self.row_ends.width(row as usize)
    }

    /// A field of a record. In constant time.
    pub(crate) fn field(&self, row: u64, at: u32) -> &[u8]
        requires row { row < length self.now }
        requires place { at < length (record_at self.now row) }
        ensures { result.now ≡ field_of self.now row at }
    {
        let first = self.row_ends.start(row as usize);
        let (start, end) = span(&self.ends, first + at as usize, self.gap);
        &self.bytes.as_slice()[start..end]
    }

    /// The same records, with the comma and the separator exchanged in each field. In linear time, and in place.
    pub(crate) fn exchanged(self, separator: u8) -> Piece
        ensures { result ≡ map (map (map (exchanged separator))) self }
    {
        let Piece {
            bytes,
            ends,
            row_ends,
            gap,
        } = self;
        Piece::of_lists(exchanged_bytes(bytes, separator), ends, row_ends, gap)
    }

    /// The same records, with each field cleaned. Takes no memory if fields are read as they are; otherwise it makes the
    /// lists anew, in linear time.
    pub(crate) fn cleaned(self, alloc: Global, reading: &Reading) -> Result<Piece, AllocError>
        ensures { IfOk result (λ piece. piece ≡ map (map (cleaned reading.now)) self) }
    {
        if reading.keeps_all() {
            return Ok(self);
        }
        let Piece {
            bytes,
            ends,
            row_ends,
            gap,
        } = self;
        let (texts, places) = cleaned_fields(alloc, reading, &bytes, &ends, gap)?;
        Ok(Piece::of_lists(texts, places, row_ends, 0))
    }
}

/// Bytes in which the comma and the separator are exchanged.
fn exchanged_bytes(mut bytes: Vec<u8>, separator: u8) -> Vec<u8>
    ensures { result.items ≡ map (exchanged separator) bytes.items }
{
    if separator == b',' {
        return bytes;
    }
    exchange(bytes.as_mut_slice(), separator);
    bytes
}

/// The bytes and the ends of these fields, each cleaned, with no bytes between them.
fn cleaned_fields(
    alloc: Global,
    reading: &Reading,
    bytes: &Vec<u8>,
    ends: &Vec<u32>,
    gap: u8,
) -> Result<(Vec<u8>, Vec<u32>), AllocError>
    requires { Apart gap 0 ends.now.items (length bytes.now.items) }
    ensures covers { IfOk result (λ r. Covers r.1.items (length r.0.items)) }
    ensures fields { IfOk result (λ r. cut_from 0 r.1.items r.0.items ≡ map (cleaned reading.now) (cut_apart gap 0 ends.now.items bytes.now.items)) }
{
    let mut texts = Vec::new(alloc);
    texts.reserve_exact(bytes.len())?;
    let mut places = Vec::new(alloc);
    places.reserve_exact(ends.len())?;
    'fields: for i in 0..ends.len() {
        let field = field_at(bytes.as_slice(), ends, gap, i);
        push_field(&mut texts, &mut places, reading.cleaned(field))?;
    }
    Ok((texts, places))
}

/// The field at this place.
fn field_at<'a>(bytes: &'a [u8], ends: &Vec<u32>, gap: u8, i: usize) -> &'a [u8]
    requires fields { Apart gap 0 ends.now.items (length bytes.now) }
    requires place { i < length ends.now.items }
    ensures { result.now ≡ get_or (cut_apart gap 0 ends.now.items bytes.entry.now) i [] }
{
    let (start, end) = span(ends, i, gap);
    &bytes[start..end]
}

/// Where the field at this place starts and ends.
fn span(ends: &Vec<u32>, i: usize, gap: u8) -> (usize, usize)
    requires { i < length ends.now.items }
    ensures start { result.0 ≡ field_start gap 0 ends.now.items i }
    ensures end { result.1 ≡ get_or ends.now.items i 0 }
{
    let start = if i == 0 {
        0
    } else {
        ends[i - 1] as usize + gap as usize
    };
    (start, ends[i] as usize)
}

/// Adds a record to the lists of a piece. After a refusal they are only dropped.
pub(crate) fn push_record(
    bytes: &mut Vec<u8>,
    ends: &mut Vec<u32>,
    row_ends: &mut RowEnds,
    row: &ByteRecord,
) -> Result<(), AllocError>
    requires fields { Covers ends.old.items (length bytes.old.items) }
    requires rows { Covers row_ends.old (length ends.old.items) }
    ensures fields { OnOk result (Covers ends.new.items (length bytes.new.items)) }
    ensures rows { OnOk result (Covers row_ends.new (length ends.new.items)) }
    ensures stored { OnOk result (stored bytes.new.items ends.new.items row_ends.new ≡ stored bytes.old.items ends.old.items row_ends.old ++ fields_of row.now ∷ []) }
    ensures count { OnOk result (length row_ends.new ≡ length row_ends.old + 1) }
{
    push_fields(bytes, ends, row)?;
    row_ends.push(ends.len())
}

/// Adds the fields of a record: the bytes of all of them in one copy, and then their ends. The contracts of csv tie a
/// field to a place of the record's text only while no field after the first is empty. So from the first such field on
/// each is copied by itself.
fn push_fields(bytes: &mut Vec<u8>, ends: &mut Vec<u32>, row: &ByteRecord) -> Result<(), AllocError>
    requires covers { Covers ends.old.items (length bytes.old.items) }
    ensures covers { OnOk result (Covers ends.new.items (length bytes.new.items)) }
    ensures fields { OnOk result (cut_from 0 ends.new.items bytes.new.items ≡ cut_from 0 ends.old.items bytes.old.items ++ fields_of row.now) }
{
    let from = bytes.len();
    bytes.extend_from_slice(row.as_slice())?;
    let (count, end) = push_ends(ends, bytes.as_slice(), from, row)?;
    bytes.truncate(end);
    'fields: for i in count..row.len() {
        if let Some(field) = row.get(i) {
            push_field(bytes, ends, field)?;
        }
    }
    Ok(())
}

/// Adds the ends of the first fields of a record, whose text lies from this place on: those before an empty field that
/// is not the first of all. Returns how many they are, and where the last of them ends.
fn push_ends(
    ends: &mut Vec<u32>,
    bytes: &[u8],
    from: usize,
    row: &ByteRecord,
) -> Result<(usize, usize), AllocError>
    requires covers { Covers ends.old.items from }
    requires text { drop from bytes.now ≡ text_of row.now }
    requires within { from ≤ length bytes.now }
    ensures covers { IfOk result (λ r. Covers ends.new.items r.1) }
    ensures within { IfOk result (λ r. r.1 ≤ length bytes.now) }
    ensures fields { IfOk result (λ r. cut_from 0 ends.new.items bytes.now ≡ cut_from 0 ends.old.items bytes.now ++ take r.0 (fields_of row.now)) }
{
    let mut end = from;
    'fields: for i in 0..row.len() {
        match row.get(i) {
            Some(field) if i == 0 || !field.is_empty() => {
                end += field.len();
                push_end(ends, end)?;
            }
            _ => return Ok((i, end)),
        }
    }
    Ok((row.len(), end))
}

/// Adds one field.
fn push_field(bytes: &mut Vec<u8>, ends: &mut Vec<u32>, field: &[u8]) -> Result<(), AllocError>
    requires covers { Covers ends.old.items (length bytes.old.items) }
    ensures covers { OnOk result (Covers ends.new.items (length bytes.new.items)) }
    ensures fields { OnOk result (cut_from 0 ends.new.items bytes.new.items ≡ cut_from 0 ends.old.items bytes.old.items ++ field.now ∷ []) }
{
    bytes.extend_from_slice(field)?;
    push_end(ends, bytes.len())
}

/// Adds the end of one field.
pub(crate) fn push_end(ends: &mut Vec<u32>, end: usize) -> Result<(), AllocError>
    ensures { OnOk result (ends.new.items ≡ ends.old.items ++ end ∷ []) }
{
    if end > u32::MAX as usize || ends.push(end as u32).is_err() {
        return Err(AllocError);
    }
    Ok(())
}
