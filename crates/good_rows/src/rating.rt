//! Whether the row of a line is refused.

ghost use Rattle.std.specs.Prelude.{◌≡◌, ◌<◌, ◌≤◌, IfOk, IfSome, length, true};
ghost use Rattle.std.specs.List.{list_all};
ghost use Rattle.csv_rows.specs.Readings.{records_as};
ghost use Rattle.csv_rows.specs.Records.{records_of};
ghost use Rattle.par_model.specs.Columns.{HasColumns};
ghost use Rattle.good_rows.specs.Good.{has_good, is_good};
ghost use Rattle.good_rows.specs.Judging.{IsJudged};

use csv_rows::{Reading, Record, RowStore, RowsAnswer, rows_as};
use par_model::{BoundPlan, Refusal};
use partial_agg::{RowBuffer, RowStatus};
use std::alloc::{AllocError, Global};

/// What a line has: no record, a row that is not refused, or one that is refused for this cause.
#[derive(Debug, Drop)]
pub enum Judged {
    Nothing,
    Good,
    Refused(Refusal),
}

/// Judges a line, under a header of this width. In linear time, with the memory of its fields.
pub fn judge(
    alloc: Global,
    reading: &Reading,
    plan: &BoundPlan,
    width: u32,
    line: &[u8],
) -> Result<Judged, AllocError>
    requires columns { HasColumns plan.now width }
    requires few { length (records_of line.now) ≤ 1 }
    ensures { IfOk result (IsJudged reading.now plan.now width line.now) }
{
    let store = match rows_as(alloc, reading, line) {
        Ok(store) => store,
        Err(RowsAnswer::NoHeader) => return Ok(Judged::Nothing),
        Err(_) => return Err(AllocError),
    };
    match RowBuffer::new().read(&store.find(0), width, plan) {
        RowStatus::Refused(why) => Ok(Judged::Refused(why)),
        RowStatus::LeftOut => Ok(Judged::Good),
        RowStatus::Kept => Ok(Judged::Good),
    }
}

/// How many rows some lines have, under a header of this width, if none of them is refused, and neither memory runs out nor are
/// they more than a store of records has. In linear time, with the memory of their fields.
pub fn count_good(
    alloc: Global,
    reading: &Reading,
    plan: &BoundPlan,
    width: u32,
    lines: &[u8],
) -> Option<u64>
    requires columns { HasColumns plan.now width }
    ensures count { IfSome result (λ count. count ≡ length (records_as reading.now lines.now)) }
    ensures good { IfSome result (λ _. has_good reading.now plan.now width lines.now ≡ true) }
{
    match rows_as(alloc, reading, lines) {
        Ok(store) => count_all(&store, plan, width),
        Err(RowsAnswer::NoHeader) => Some(0),
        Err(_) => None,
    }
}

/// How many records there are, if none of them is a row that is refused.
fn count_all(store: &RowStore, plan: &BoundPlan, width: u32) -> Option<u64>
    requires columns { HasColumns plan.now width }
    requires some { 0 < length store.now }
    ensures count { IfSome result (λ count. count ≡ length store.now) }
    ensures good { IfSome result (λ _. list_all (is_good plan.now width) store.now ≡ true) }
{
    let count = store.count() + 1;
    let near = store.near(0);
    let mut buffer = RowBuffer::new();
    'rows: for row in 0..count {
        if !is_good(&mut buffer, &near.find(row), plan, width) {
            return None;
        }
    }
    Some(count)
}

/// Whether a row is not refused.
fn is_good(buffer: &mut RowBuffer, row: &Record<'_>, plan: &BoundPlan, width: u32) -> bool
    requires columns { HasColumns plan.now width }
    ensures { result ≡ is_good plan.now width row.now }
{
    match buffer.read(row, width, plan) {
        RowStatus::Refused(_) => false,
        RowStatus::LeftOut => true,
        RowStatus::Kept => true,
    }
}
