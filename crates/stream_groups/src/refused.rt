//! The row that is refused, found again in the pieces of its batch, and what the line says of it.

ghost use Rattle.std.specs.Prelude.{◌≡◌, ◌<◌, ◌≤◌, ◌+◌, ◌^◌, ◌∷◌, ℕ, List, IfOk, IfSome, length, string_bytes, take};
ghost use Rattle.csv_rows.specs.Records.{record_at};
ghost use Rattle.par_model.specs.Record.{field_of};
ghost use Rattle.split_run.specs.Pieces.{AreUnder, piece_records, rows_of};
ghost use Rattle.stream_groups.specs.Begins.{feeds_of, piece_at};
ghost use Rattle.stream_groups.specs.Said.{filter_field, item_field, row_says};
ghost use Rattle.stream_groups.specs.Stops.{IsRow};

use csv_rows::{Record, RowStore, rows_as};
use par_model::{BoundPlan, ITEM_CAUSE, KEY_CAUSE, Refusal, WIDTH_CAUSE};
use plan_spec::Plan;
use row_windows::Window;
use shown_text::{number_text, width_text};
use std::alloc::{AllocError, Global};
use text_lines::line_feeds;

/// A row in the store of the piece that it is in, by its place there, the piece, and how many line feeds are in the lines of
/// the pieces before it.
#[derive(Drop)]
pub(crate) struct Found {
    pub(crate) store: RowStore,
    pub(crate) at: u64,
    pub(crate) piece: usize,
    pub(crate) feeds: u64,
}

/// Finds a row by its number over all pieces. It reads the pieces up to it anew: so nothing is kept of a row until one is
/// refused. It takes the memory of one piece's store.
pub(crate) fn find_row(alloc: Global, pieces: &[Window], row: u64) -> Result<Found, AllocError>
    requires pieces { length pieces.now ≤ 64 }
    requires few { feeds_of pieces.now ≤ 2 ^ 60 }
    ensures within { IfOk result (λ f. f.at < length f.store) }
    ensures some { IfOk result (λ f. 1 ≤ f.at) }
    ensures row { IfOk result (λ f. (header : List (List ℕ)) → AreUnder header pieces.now → IsRow (header ∷ rows_of pieces.now) row f.store f.at) }
    ensures piece { IfOk result (λ f. f.piece < length pieces.now) }
    ensures store { IfOk result (λ f. f.store ≡ piece_records (piece_at pieces.now f.piece)) }
    ensures number { IfOk result (λ f. length (rows_of (take f.piece pieces.now)) + f.at ≡ row) }
    ensures feeds { IfOk result (λ f. f.feeds ≡ feeds_of (take f.piece pieces.now)) }
{
    let mut before = 0u64;
    let mut feeds = 0u64;
    let mut number = 0;
    for piece in pieces {
        let Ok(store) = rows_as(alloc, piece.reading(), piece.table()) else {
            return Err(AllocError);
        };
        match place_in(row, before, store.count()) {
            Some(place) => return Ok(Found {
                store,
                at: place,
                piece: number,
                feeds,
            }),
            None => before += store.count(),
        }
        feeds += line_feeds(piece.lines());
        number += 1;
    }
    Err(AllocError)
}

/// The place of a row in a piece of this many rows, before which there are others, if it is there.
fn place_in(row: u64, before: u64, count: u64) -> Option<u64>
    ensures place { IfSome result (λ at. before + at ≡ row) }
    ensures some { IfSome result (λ at. 1 ≤ at) }
    ensures within { IfSome result (λ at. at ≤ count) }
{
    if before < row && row - before <= count {
        Some(row - before)
    } else {
        None
    }
}

/// What the line says of a row that is refused.
pub fn row_says(
    alloc: Global,
    plan: &Plan,
    bound: &BoundPlan,
    header: &Record<'_>,
    row: &Record<'_>,
    why: Refusal,
) -> Result<String, AllocError>
    ensures { IfOk result (λ text. string_bytes text ≡ row_says plan.now.plan bound.now header.now row.now why) }
{
    if why.cause == WIDTH_CAUSE {
        return width_text(alloc, row.width(), header.width());
    }
    if why.cause == KEY_CAUSE {
        return String::from_str(alloc, "group key is longer than 248 bytes");
    }
    if why.cause == ITEM_CAUSE {
        let name = plan.item_name(why.item).unwrap_or("");
        let places = plan.item_places(why.item);
        return number_text(
            alloc,
            name.as_bytes(),
            places,
            item_field(bound, row, why.item),
        );
    }
    let name = plan.filter_name(why.item).unwrap_or("");
    let places = plan.filter_places(why.item);
    let said = number_text(
        alloc,
        name.as_bytes(),
        places,
        filter_field(bound, row, why.item),
    )?;
    let mut text = String::from_str(alloc, "filter ")?;
    text.push_str(said.as_str())?;
    Ok(text)
}

/// The field of a row that an aggregate reads.
fn item_field<'a>(bound: &BoundPlan, row: &Record<'a>, at: u32) -> &'a [u8]
    ensures { result.now ≡ item_field bound.now row.now at }
{
    match bound.items().get(at as usize) {
        Some(item) => field(row, item.column),
        None => b"",
    }
}

/// The field of a row that a filter reads.
fn filter_field<'a>(bound: &BoundPlan, row: &Record<'a>, at: u32) -> &'a [u8]
    ensures { result.now ≡ filter_field bound.now row.now at }
{
    match bound.filters().get(at as usize) {
        Some(filter) => field(row, filter.column),
        None => b"",
    }
}

/// The field of a row in a column; past the row's end it is empty.
fn field<'a>(row: &Record<'a>, column: u32) -> &'a [u8]
    ensures { result.now ≡ field_of row.now column }
{
    if column < row.width() {
        row.field(column)
    } else {
        b""
    }
}
