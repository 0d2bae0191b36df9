//! The definition of a group's aggregates as a plain slow program over rows in memory.
//!
//! It goes through all the rows once for each number that it gives: how many rows the group has, and for each aggregate
//! how many values, their sum, the least and the greatest. It takes no memory, and equals the definition of
//! `specs/Aggregate`: what a fast program gives for a group can be compared with it.

ghost use Rattle.std.specs.Prelude.{◌≡◌, ◌≢◌, ◌<◌, ◌++◌, ◌&&◌, ℕ, All, IsTrue, List, MatchOption, bytes_eq, filter_map, if◌then◌else◌, length};
ghost use Rattle.std.specs.Int.{int_max, int_min};
ghost use Rattle.std.specs.Option.{option_map_or};
ghost use Rattle.par_model.specs.Aggregate.{greatest, least, rows_of, slot_of, state_of, total, values_of};
ghost use Rattle.par_model.specs.Columns.{HasColumns, reads_column};
ghost use Rattle.par_model.specs.Keep.{is_kept};
ghost use Rattle.par_model.specs.Key.{encoded_field, key_of};
ghost use Rattle.par_model.specs.Number.{decimal_of};
ghost use Rattle.par_model.specs.Record.{field_of};

use crate::slow::keeps;
use par_model::number::read_number;
use par_model::plan::{BoundPlan, Item, ItemKind};
use par_model::row::Row;
use par_model::state::{AggState, NO_VALUES, SlotState};

/// The aggregates of the group with this encoded key, over the rows that the plan keeps. A group of no rows has zeros.
/// It reads all the rows up to 33 times: once to count them, and four times for each aggregate.
pub fn slow_state(rows: &[Row], key: &[u8], plan: &BoundPlan) -> AggState
    requires { All (λ row. HasColumns plan.now (length row)) rows.now }
    ensures { result ≡ state_of plan.now rows.now key.now }
{
    let mut slots = [NO_VALUES; 8];
    let items = plan.items();
    'items: for at in 0..items.len() {
        slots[at] = slot(rows, key, plan, items[at]);
    }
    let rows = count_rows(rows, key, plan);
    AggState { rows, slots }
}

/// The slot of an aggregate.
fn slot(rows: &[Row], key: &[u8], plan: &BoundPlan, item: Item) -> SlotState
    requires plan { All (λ row. HasColumns plan.now (length row)) rows.now }
    requires item { IsTrue (reads_column item.kind) → All (λ row. item.column < length row) rows.now }
    ensures { result ≡ slot_of (rows_of plan.now rows.now key.now) item }
{
    match item.kind {
        ItemKind::Rows => NO_VALUES,
        ItemKind::Count => SlotState {
            count: count_values(rows, key, plan, item.column),
            sum: 0,
            least: 0,
            greatest: 0,
        },
        ItemKind::Sum | ItemKind::Min | ItemKind::Max | ItemKind::Avg => SlotState {
            count: count_values(rows, key, plan, item.column),
            sum: sum(rows, key, plan, item),
            least: least(rows, key, plan, item),
            greatest: greatest(rows, key, plan, item),
        },
    }
}

/// How many rows the group has.
fn count_rows(rows: &[Row], key: &[u8], plan: &BoundPlan) -> u64
    requires { All (λ row. HasColumns plan.now (length row)) rows.now }
    ensures { result ≡ length (rows_of plan.now rows.now key.now) }
{
    let mut count = 0;
    'rows: for row in rows {
        if is_in_group(row, key, plan) {
            count += 1;
        }
    }
    count
}

/// How many fields of a column are not null, in the group's rows.
fn count_values(rows: &[Row], key: &[u8], plan: &BoundPlan, column: u32) -> u64
    requires plan { All (λ row. HasColumns plan.now (length row)) rows.now }
    requires column { All (λ row. column < length row) rows.now }
    ensures { result ≡ length (values_of column (rows_of plan.now rows.now key.now)) }
{
    let mut count = 0;
    'rows: for row in rows {
        if is_in_group(row, key, plan) && !row.field(column).is_empty() {
            count += 1;
        }
    }
    count
}

/// The sum of an item's numbers in the group's rows.
fn sum(rows: &[Row], key: &[u8], plan: &BoundPlan, item: Item) -> i128
    requires plan { All (λ row. HasColumns plan.now (length row)) rows.now }
    requires column { All (λ row. item.column < length row) rows.now }
    ensures { result ≡ total (filter_map (decimal_of item.places) (values_of item.column (rows_of plan.now rows.now key.now))) }
{
    let mut sum: i128 = 0;
    'rows: for row in rows {
        if let Some(number) = number_of(row, key, plan, item) {
            sum += i128::from(number);
        }
    }
    sum
}

/// The least of an item's numbers in the group's rows, and 0 if there is none.
fn least(rows: &[Row], key: &[u8], plan: &BoundPlan, item: Item) -> i64
    requires plan { All (λ row. HasColumns plan.now (length row)) rows.now }
    requires column { All (λ row. item.column < length row) rows.now }
    ensures { result ≡ least (filter_map (decimal_of item.places) (values_of item.column (rows_of plan.now rows.now key.now))) }
{
    let mut least: Option<i64> = None;
    'rows: for row in rows {
        if let Some(number) = number_of(row, key, plan, item) {
            least = Some(lesser(least, number));
        }
    }
    least.unwrap_or(0)
}

/// The greatest of an item's numbers in the group's rows, and 0 if there is none.
fn greatest(rows: &[Row], key: &[u8], plan: &BoundPlan, item: Item) -> i64
    requires plan { All (λ row. HasColumns plan.now (length row)) rows.now }
    requires column { All (λ row. item.column < length row) rows.now }
    ensures { result ≡ greatest (filter_map (decimal_of item.places) (values_of item.column (rows_of plan.now rows.now key.now))) }
{
    let mut greatest: Option<i64> = None;
    'rows: for row in rows {
        if let Some(number) = number_of(row, key, plan, item) {
            greatest = Some(greater(greatest, number));
        }
    }
    greatest.unwrap_or(0)
}

/// The lesser of a number and the least one so far, if there is one.
fn lesser(so_far: Option<i64>, number: i64) -> i64
    ensures { result ≡ option_map_or (λ least. int_min least number) so_far number }
{
    match so_far {
        None => number,
        Some(least) => least.min(number),
    }
}

/// The greater of a number and the greatest one so far, if there is one.
fn greater(so_far: Option<i64>, number: i64) -> i64
    ensures { result ≡ option_map_or (λ greatest. int_max greatest number) so_far number }
{
    match so_far {
        None => number,
        Some(greatest) => greatest.max(number),
    }
}

/// The number of an item in a row of the group, if the row is one and the field is one.
fn number_of(row: &Row, key: &[u8], plan: &BoundPlan, item: Item) -> Option<i64>
    requires plan { HasColumns plan.now (length row.now) }
    requires column { item.column < length row.now }
    ensures { result ≡ (if is_kept plan.now row.now && bytes_eq (key_of plan.now row.now) key.now then decimal_of item.places (field_of row.now item.column) else None) }
{
    if !is_in_group(row, key, plan) {
        return None;
    }
    read_number(row.field(item.column), item.places)
}

/// Whether a row is one of the group: the plan keeps it, and it has the key.
fn is_in_group(row: &Row, key: &[u8], plan: &BoundPlan) -> bool
    requires { HasColumns plan.now (length row.now) }
    ensures { result ≡ (is_kept plan.now row.now && bytes_eq (key_of plan.now row.now) key.now) }
{
    keeps(row, plan) && has_key(row, key, plan)
}

/// Whether a row's encoded key is this one: the row's fields are taken off the key's front, one by one.
fn has_key(row: &Row, key: &[u8], plan: &BoundPlan) -> bool
    requires { HasColumns plan.now (length row.now) }
    ensures { result ≡ bytes_eq (key_of plan.now row.now) key.now }
{
    let mut rest = key;
    let groups = plan.group_columns();
    'groups: for at in 0..groups.len() {
        match after_field(rest, row.field(groups[at])) {
            Some(after) => rest = after,
            None => return false,
        }
    }
    rest.is_empty()
}

/// What comes after the encoding of a field in a text, if the text begins with it.
fn after_field<'a>(text: &'a [u8], field: &[u8]) -> Option<&'a [u8]>
    ensures { MatchOption result ((rest : List ℕ) → text.now ≢ encoded_field field.now ++ rest) (λ rest. text.now ≡ encoded_field field.now ++ rest.now) }
{
    let length = field.len().to_le_bytes();
    text.strip_prefix(&length[..4])?.strip_prefix(field)
}
