//! How two rows compare, by their numbers. Their words decide first, which lie in one list; if these are the same, the
//! rows are compared where they lie, so nothing of them is copied.

ghost use Rattle.std.specs.Prelude.{◌≡◌, [], unwrap_or};
ghost use Rattle.csv_rows.specs.Records.{record_at};
ghost use Rattle.par_model.specs.Record.{field_of};
ghost use Rattle.gather_merge.specs.Order.{columns_at, row_cmp};
ghost use Rattle.gather_merge.specs.RowWords.{AreWords, tail_cmp};

use crate::words::{is_whole, word_at};
use csv_rows::{Record, RowStore};
use par_model::BoundPlan;
use std::cmp::Ordering;

/// A record, if there is one of this number.
pub(crate) fn find_row(rows: &RowStore, row: u64) -> Option<Record<'_>>
    ensures { unwrap_or result [] ≡ record_at rows.now row }
{
    if row <= rows.count() {
        Some(rows.find(row))
    } else {
        None
    }
}

/// A field of a record, and nothing if it is not there.
pub(crate) fn field_or_none<'a>(row: &Option<Record<'a>>, column: u32) -> &'a [u8]
    ensures { result.now ≡ field_of (unwrap_or row.entry.now []) column }
{
    match row {
        Some(row) if column < row.width() => row.field(column),
        _ => &[],
    }
}

/// How two rows compare by the plan's columns from this one on in turn, and then by their numbers. A number that no row
/// has counts as that of a row with no fields. No memory is taken; each row is looked up once, and not at all if no
/// column is left.
fn compare_from(rows: &RowStore, plan: &BoundPlan, from: usize, a: u64, b: u64) -> Ordering
    ensures { result ≡ tail_cmp (columns_at plan.now rows.now) from a b }
{
    let columns = plan.group_columns();
    if from >= columns.len() {
        return a.cmp(&b);
    }
    let left = find_row(rows, a);
    let right = find_row(rows, b);
    for at in from..columns.len() {
        let order = field_or_none(&left, columns[at]).cmp(field_or_none(&right, columns[at]));
        if order.is_ne() {
            return order;
        }
    }
    a.cmp(&b)
}

/// How two rows compare: by the plan's columns in turn, and then by their numbers. The rows are looked up only if their
/// words are the same and do not have the whole of the columns.
pub(crate) fn compare(rows: &RowStore, plan: &BoundPlan, words: &[u64], a: u64, b: u64) -> Ordering
    requires words { AreWords (columns_at plan.now rows.now) words.now }
    ensures { result ≡ row_cmp plan.now rows.now a b }
{
    let word = word_at(words, a);
    let order = word.cmp(&word_at(words, b));
    if order.is_ne() {
        return order;
    }
    compare_from(rows, plan, if is_whole(word) { 1 } else { 0 }, a, b)
}
