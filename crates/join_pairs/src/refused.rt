//! Which rows are refused. All rows are tested before any is joined.

ghost use Rattle.std.specs.Prelude.{◌≡◌, ◌<◌, ℕ, IfSome, IfNone, length};
ghost use Rattle.csv_rows.specs.Records.{field_of};
ghost use Rattle.rel_pointer.specs.Bytes.{AllBytes};
ghost use Rattle.join_pairs.specs.Join.{AllAccepted, IsAccepted, IsFirstRefused, IsRefused, IsRow, width_of};

use csv_rows::RowStore;
use par_model::{KEY_CAUSE, LONGEST_KEY, WIDTH_CAUSE};

/// A refused row, with its cause.
#[derive(Debug, Clone, Copy, PartialEq, Eq)]
pub struct Refused {
    pub row: u64,
    pub cause: u8,
}

/// Why a row is refused of a table whose header has this many fields, if it is.
fn cause_of(rows: &RowStore, width: u32, column: u32, row: u64) -> Option<u8>
    requires row { IsRow rows.now row }
    requires width { width ≡ width_of rows.now }
    requires column { column < width }
    ensures refused { IfSome result (λ cause. IsRefused rows.now column row cause) }
    ensures accepted { IfNone result (IsAccepted rows.now column row) }
    ensures bytes { IfNone result (AllBytes (field_of rows.now row column)) }
{
    let record = rows.find(row);
    if record.width() != width {
        return Some(WIDTH_CAUSE);
    }
    let field = record.field(column);
    if field.len() > LONGEST_KEY {
        return Some(KEY_CAUSE);
    }
    None
}

/// The first row of a table that is refused, if one is.
pub fn first_refused(rows: &RowStore, column: u32) -> Option<Refused>
    requires column { column < width_of rows.now }
    ensures refused { IfSome result (λ r. IsFirstRefused rows.now column r.row r.cause) }
    ensures accepted { IfNone result (AllAccepted rows.now column) }
    ensures bytes { IfNone result ((row : ℕ) → IsRow rows.now row → AllBytes (field_of rows.now row column)) }
{
    let width = rows.width(0);
    for row in 1..rows.count() + 1 {
        if let Some(cause) = cause_of(rows, width, column, row) {
            return Some(Refused { row, cause });
        }
    }
    None
}
