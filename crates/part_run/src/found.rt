//! The rows of a piece, put into lists as they are found, with no store between.

ghost use Rattle.std.specs.Prelude.{◌≡◌, ◌<◌, ◌^◌, ◌∷◌, [], All, IfErr, IfNone, IfOk, IfSome, OnOk, OnSome, drop, length};
ghost use Rattle.csv_rows.specs.Records.{records_of};
ghost use Rattle.par_model.specs.Columns.{HasColumns};
ghost use Rattle.partial_agg.specs.Rows.{IsAccepted, header_width};
ghost use Rattle.split_run.specs.Causes.{IsCause};
ghost use Rattle.part_run.specs.Carrying.{spread};

use crate::piece::spread_row;
use found_rows::{Found, FoundRows};
use par_model::BoundPlan;
use partial_agg::{BlockAnswer, RowBuffer};
use row_lists::PartLists;
use std::alloc::Global;

/// Puts the rows of some bytes into lists and gives their number. `None` if [`FoundRows`] does not take these bytes; then
/// none is put.
pub(crate) fn spread_found(
    alloc: Global,
    bytes: &[u8],
    plan: &BoundPlan,
    lists: &mut PartLists,
) -> Result<Option<u64>, BlockAnswer>
    requires columns { HasColumns plan.now (header_width (records_of bytes.now)) }
    ensures spread { IfOk result (λ done. OnSome done (lists.new ≡ spread plan.now lists.old (drop 1 (records_of bytes.now)))) }
    ensures accepted { IfOk result (λ done. OnSome done (All (IsAccepted plan.now (header_width (records_of bytes.now))) (drop 1 (records_of bytes.now)))) }
    ensures count { IfOk result (λ done. IfSome done (λ count. count ≡ length (drop 1 (records_of bytes.now)))) }
    ensures none { IfOk result (λ done. IfNone done (lists.new ≡ lists.old)) }
    ensures refused { IfErr result (IsCause plan.now (records_of bytes.now)) }
{
    let _size = bytes.len();
    let Some(mut rows) = FoundRows::of(alloc, bytes) else {
        return Ok(None);
    };
    match rows.next() {
        Ok(Found::Row) => {}
        _ => return Ok(None),
    }
    match spread_left(&mut rows, plan, lists) {
        Ok(count) => Ok(Some(count)),
        Err(why) => Err(why),
    }
}

/// Puts the records that are left into lists, as rows of a table with the columns of the record that was found last.
fn spread_left(
    rows: &mut FoundRows<'_>,
    plan: &BoundPlan,
    lists: &mut PartLists,
) -> Result<u64, BlockAnswer>
    requires columns { HasColumns plan.now (length rows.old.row) }
    requires few { length rows.old.left < 2 ^ 64 }
    ensures spread { OnOk result (lists.new ≡ spread plan.now lists.old rows.old.left) }
    ensures accepted { OnOk result (All (IsAccepted plan.now (length rows.old.row)) rows.old.left) }
    ensures count { IfOk result (λ count. count ≡ length rows.old.left) }
    ensures refused { IfErr result (IsCause plan.now (rows.old.row ∷ rows.old.left)) }
{
    let width = rows.width();
    let mut buffer = RowBuffer::new();
    let mut count = 0;
    'rows: while rows.next_row(width)? {
        spread_row(&mut buffer, 1, rows, width as u32, plan, lists)?;
        count += 1;
    }
    Ok(count)
}
