//! A store of records, in pieces that follow one another.
//!
//! A record is looked for among the pieces, of which there are no more than threads that read them. A caller that goes
//! through the records in turn keeps a [`NearRows`], which searches only at the end of a piece.

ghost use Rattle.std.specs.Prelude.{◌≡◌, ◌<◌, ◌≤◌, ◌+◌, [], IfErr, IfOk, IfSome, OnOk, get_or, length, slice_index_or, vec_len};
ghost use Rattle.csv_rows.specs.InPieces.{IsPieceAt, joined};
ghost use Rattle.csv_rows.specs.Records.{field_of, record_at};
ghost use Rattle.csv_rows.specs.declared.records.RowsAnswer.TheVariants as answer;

use crate::piece::Piece;
use crate::records::{MOST_RECORDS, RowsAnswer};
use std::marker::Model;

/// A list of records, each a list of fields. Record 0 is the header of the table and is always there; the rows of the
/// table are the records from 1 on, of which there are at most 4,194,304. So a record's number is its row's.
#[derive(Drop)]
pub struct RowStore {
    pieces: Vec<Piece>,
    last: u64,
}

impl Model for RowStore {
    ghost use Rattle.std.specs.Prelude.{ℕ, List};
    ghost use Rattle.csv_rows.specs.InPieces.{IsLast, joined};

    ghost Value = { List (List (List ℕ)) };

    ghost view = { λ s. joined s.pieces.items };

    ghost invariant = { λ s. IsLast (joined s.pieces.items) s.last };
}

impl RowStore {
    /// The store of these pieces, if they have records and not too many.
    pub(crate) fn of_pieces(pieces: Vec<Piece>) -> Result<RowStore, RowsAnswer>
        ensures records { IfOk result (λ store. store ≡ joined pieces.items) }
        ensures some { OnOk result (0 < length (joined pieces.items)) }
        ensures few { OnOk result (length (joined pieces.items) ≤ MOST_RECORDS) }
        ensures no_header { result ≡ Err answer.NoHeader → joined pieces.items ≡ [] }
        ensures too_many { result ≡ Err answer.TooManyRows → MOST_RECORDS < length (joined pieces.items) }
    {
        let total = count_all(&pieces)?;
        if total == 0 {
            return Err(RowsAnswer::NoHeader);
        }
        Ok(RowStore {
            pieces,
            last: total - 1,
        })
    }

    /// How many rows there are besides the header, which is also the number of the last record.
    pub fn count(&self) -> u64
        ensures rows { result + 1 ≡ length self.now }
        ensures few { result < MOST_RECORDS }
    {
        self.last
    }

    /// How many fields a record has, the header being record 0. The time is that of [`RowStore::find`].
    pub fn width(&self, row: u64) -> u32
        requires { row < length self.now }
        ensures { result ≡ length (record_at self.now row) }
    {
        self.find(row).width()
    }

    /// A field of a record, the header being record 0. The time is that of [`RowStore::find`].
    pub fn field(&self, row: u64, at: u32) -> &[u8]
        requires row { row < length self.now }
        requires place { at < length (record_at self.now row) }
        ensures { result.now ≡ field_of self.now row at }
    {
        self.find(row).field(at)
    }

    /// A record, the header being record 0. In constant time if one thread read the records, and otherwise in time
    /// linear in how many threads did.
    pub fn find(&self, row: u64) -> Record<'_>
        requires { row < length self.now }
        ensures { result ≡ record_at self.now row }
    {
        let (piece, first) = find_piece(&self.pieces, row);
        Record {
            piece: &self.pieces[piece],
            row: row - first,
        }
    }

    /// The records, of which those near this one are found in constant time.
    pub fn near(&self, row: u64) -> NearRows<'_>
        requires { row < length self.now }
        ensures { result ≡ self.now }
    {
        let (piece, first) = find_piece(&self.pieces, row);
        NearRows {
            rows: self,
            piece: &self.pieces[piece],
            first,
        }
    }
}

/// A record where it lies in its store: a list of fields.
#[derive(Drop)]
pub struct Record<'a> {
    piece: &'a Piece,
    row: u64,
}

impl<'a> Model for Record<'a> {
    ghost use Rattle.std.specs.Prelude.{◌<◌, ℕ, List, length};
    ghost use Rattle.csv_rows.specs.Records.{record_at};

    ghost Value = { List (List ℕ) };

    ghost view = { λ r. record_at r.piece.now r.row };

    ghost invariant = { λ r. r.row < length r.piece.now };
}

impl<'a> Record<'a> {
    /// How many fields it has. In constant time.
    pub fn width(&self) -> u32
        ensures { result ≡ length self.now }
    {
        self.piece.width(self.row)
    }

    /// A field of it. In constant time.
    pub fn field(&self, at: u32) -> &'a [u8]
        requires { at < length self.now }
        ensures { result.now ≡ get_or self.now at [] }
    {
        self.piece.field(self.row, at)
    }
}

/// The records of a store, for a caller that goes through them in turn: those of one piece are found without a search.
#[derive(Drop)]
pub struct NearRows<'a> {
    rows: &'a RowStore,
    piece: &'a Piece,
    first: u64,
}

impl<'a> Model for NearRows<'a> {
    ghost use Rattle.std.specs.Prelude.{ℕ, List};
    ghost use Rattle.csv_rows.specs.InPieces.{IsPieceAt};

    ghost Value = { List (List (List ℕ)) };

    ghost view = { λ n. n.rows.now };

    ghost invariant = { λ n. IsPieceAt n.rows.now n.first n.piece.now };
}

impl<'a> NearRows<'a> {
    /// A record, the header being record 0. In constant time if it lies in the piece, and otherwise in the time of
    /// [`RowStore::find`].
    pub fn find(&self, row: u64) -> Record<'a>
        requires { row < length self.now }
        ensures { result ≡ record_at self.now row }
    {
        if row < self.first || row - self.first > self.piece.last() {
            return self.rows.find(row);
        }
        Record {
            piece: self.piece,
            row: row - self.first,
        }
    }
}

/// How many records the pieces have, unless they are too many.
fn count_all(pieces: &Vec<Piece>) -> Result<u64, RowsAnswer>
    ensures count { IfOk result (λ total. total ≡ length (joined pieces.now.items)) }
    ensures few { IfOk result (λ total. total ≤ MOST_RECORDS) }
    ensures too_many { IfErr result (λ why. (why ≡ answer.TooManyRows) × (MOST_RECORDS < length (joined pieces.now.items))) }
{
    let mut total = 0;
    'pieces: for at in 0..pieces.len() {
        let last = pieces[at].last();
        if last >= MOST_RECORDS - total {
            return Err(RowsAnswer::TooManyRows);
        }
        total += last + 1;
    }
    Ok(total)
}

/// The piece that has the record of this number, and the number of its first record.
fn find_piece(pieces: &Vec<Piece>, row: u64) -> (usize, u64)
    requires { row < length (joined pieces.now.items) }
    ensures piece { result.0 < vec_len pieces.now }
    ensures first { result.1 ≤ row }
    ensures within { row < result.1 + length (slice_index_or pieces.now.items result.0 []) }
    ensures is { IsPieceAt (joined pieces.now.items) result.1 (slice_index_or pieces.now.items result.0 []) }
{
    let mut first = 0;
    'pieces: for at in 0..pieces.len() {
        let last = pieces[at].last();
        if row - first <= last {
            return (at, first);
        }
        first += last + 1;
    }
    unreachable!()
}
