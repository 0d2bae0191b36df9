//! The rows of a piece, added to a map as they are found, with no store between.

ghost use Rattle.std.specs.Prelude.{◌≡◌, ◌<◌, ◌^◌, ◌∷◌, [], All, IfErr, IfNone, IfOk, IfSome, OnOk, OnSome, drop, length};
ghost use Rattle.csv_rows.specs.Records.{records_of};
ghost use Rattle.par_model.specs.Columns.{HasColumns};
ghost use Rattle.partial_agg.specs.Groups.{with_rows};
ghost use Rattle.partial_agg.specs.Rows.{IsAccepted, header_width};
ghost use Rattle.split_run.specs.Causes.{IsCause};

use found_rows::{Found, FoundRows};
use par_model::BoundPlan;
use partial_agg::{BlockAnswer, GroupMap};
use std::alloc::Global;

/// Adds the rows of some bytes to a map and gives their number. `None` if [`FoundRows`] does not take these bytes; then none
/// is added.
pub(crate) fn add_found(
    alloc: Global,
    bytes: &[u8],
    plan: &BoundPlan,
    groups: &mut GroupMap,
) -> Result<Option<u64>, BlockAnswer>
    requires columns { HasColumns plan.now (header_width (records_of bytes.now)) }
    ensures added { IfOk result (λ done. OnSome done (groups.new ≡ with_rows plan.now groups.old (drop 1 (records_of bytes.now)))) }
    ensures accepted { IfOk result (λ done. OnSome done (All (IsAccepted plan.now (header_width (records_of bytes.now))) (drop 1 (records_of bytes.now)))) }
    ensures count { IfOk result (λ done. IfSome done (λ count. count ≡ length (drop 1 (records_of bytes.now)))) }
    ensures none { IfOk result (λ done. IfNone done (groups.new ≡ groups.old)) }
    ensures refused { IfErr result (IsCause plan.now (records_of bytes.now)) }
{
    let _size = bytes.len();
    let Some(mut rows) = FoundRows::of(alloc, bytes) else {
        return Ok(None);
    };
    match rows.next() {
        Ok(Found::Row) => {}
        _ => return Ok(None),
    }
    match add_left(&mut rows, plan, groups) {
        Ok(count) => Ok(Some(count)),
        Err(why) => Err(why),
    }
}

/// Adds the records that are left to a map, as rows of a table with the columns of the record that was found last.
fn add_left(
    rows: &mut FoundRows<'_>,
    plan: &BoundPlan,
    groups: &mut GroupMap,
) -> Result<u64, BlockAnswer>
    requires columns { HasColumns plan.now (length rows.old.row) }
    requires few { length rows.old.left < 2 ^ 64 }
    ensures added { OnOk result (groups.new ≡ with_rows plan.now groups.old rows.old.left) }
    ensures accepted { OnOk result (All (IsAccepted plan.now (length rows.old.row)) rows.old.left) }
    ensures count { IfOk result (λ count. count ≡ length rows.old.left) }
    ensures refused { IfErr result (IsCause plan.now (rows.old.row ∷ rows.old.left)) }
{
    let width = rows.width() as u32;
    match groups.add_left(rows, width, plan) {
        Ok(count) => Ok(count),
        Err(why) => Err(why),
    }
}
