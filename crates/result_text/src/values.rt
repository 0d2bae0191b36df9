//! The fields of a line, each put at the end of a record.

ghost use Rattle.std.specs.Prelude.{◌≡◌, ◌≤◌, ◌++◌, ◌∷◌, [], All, OnOk, length, map};
ghost use Rattle.csv.specs.Records.{fields_of, partial_of};
ghost use Rattle.par_model.specs.Table.{item_text, table_header, value_text, values_text};
ghost use Rattle.result_text.specs.KeyColumns.{columns_in};
ghost use Rattle.par_model.specs.Decimal.{number_text};
ghost use Rattle.par_model.specs.declared.plan.TheConstants.{MOST_PLACES};
ghost use Rattle.result_text.specs.Printable.{IsBoundFrom, IsSmallSlot, MOST_TEXT_PLACES};

use crate::decimal::{average, push_number};
use crate::order::split_column;
use csv::ByteRecord;
use itoa::Integer;
use par_model::{AggState, BoundPlan, Item, ItemKind, SlotState};
use plan_spec::Plan;
use std::alloc::AllocError;

/// How many columns a plan groups by. Its aggregates are few, too.
pub(crate) fn group_count(bound: &BoundPlan) -> u32
    ensures count { result ≡ length bound.now.groups }
    ensures items { length bound.now.items ≤ 8 }
{
    let _items = bound.items();
    bound.group_columns().len() as u32
}

/// The names of the output columns: those to group by, then those of the aggregates.
pub(crate) fn push_header(
    row: &mut ByteRecord,
    plan: &Plan,
    bound: &BoundPlan,
) -> Result<(), AllocError>
    requires whole { partial_of row.old ≡ [] }
    requires bound { IsBoundFrom plan.now.plan bound.now }
    ensures fields { OnOk result (fields_of row.new ≡ fields_of row.old ++ table_header plan.now.plan) }
{
    push_names(row, plan, group_count(bound))?;
    push_item_texts(row, plan, bound.items().len() as u32)
}

/// The names that a plan groups by, this many.
fn push_names(row: &mut ByteRecord, plan: &Plan, columns: u32) -> Result<(), AllocError>
    requires whole { partial_of row.old ≡ [] }
    requires columns { columns ≡ length plan.now.plan.groups }
    ensures fields { OnOk result (fields_of row.new ≡ fields_of row.old ++ plan.now.plan.groups) }
    ensures whole { OnOk result (partial_of row.new ≡ []) }
{
    for at in 0..columns {
        row.push_field(plan.name(at).as_bytes())?;
    }
    Ok(())
}

/// The names of a plan's aggregates, this many.
fn push_item_texts(row: &mut ByteRecord, plan: &Plan, count: u32) -> Result<(), AllocError>
    requires whole { partial_of row.old ≡ [] }
    requires items { count ≡ length plan.now.plan.items }
    ensures fields { OnOk result (fields_of row.new ≡ fields_of row.old ++ map item_text plan.now.plan.items) }
{
    for at in 0..count {
        row.push_field(plan.item_text(at).as_bytes())?;
    }
    Ok(())
}

/// The columns of an encoded key, this many.
pub(crate) fn push_columns(row: &mut ByteRecord, key: &[u8], columns: u32) -> Result<(), AllocError>
    requires whole { partial_of row.old ≡ [] }
    ensures fields { OnOk result (fields_of row.new ≡ fields_of row.old ++ columns_in columns key.now) }
    ensures whole { OnOk result (partial_of row.new ≡ []) }
{
    let mut rest = key;
    for _at in 0..columns {
        let (column, more) = split_column(rest);
        row.push_field(column)?;
        rest = more;
    }
    Ok(())
}

/// The values of a group's aggregates. The text of a number with places is made in `text`.
pub(crate) fn push_values(
    row: &mut ByteRecord,
    text: &mut Vec<u8>,
    bound: &BoundPlan,
    state: &AggState,
) -> Result<(), AllocError>
    requires whole { partial_of row.old ≡ [] }
    requires small { All IsSmallSlot state.now.slots }
    ensures fields { OnOk result (fields_of row.new ≡ fields_of row.old ++ values_text bound.now state.now) }
{
    for (item, slot) in bound.items().iter().zip(state.slots.iter()) {
        push_value(row, text, *item, state.rows, slot)?;
    }
    Ok(())
}

/// The value of one aggregate, or an empty field if it is null.
fn push_value(
    row: &mut ByteRecord,
    text: &mut Vec<u8>,
    item: Item,
    rows: u64,
    slot: &SlotState,
) -> Result<(), AllocError>
    requires whole { partial_of row.old ≡ [] }
    requires small { IsSmallSlot slot.now }
    requires places { item.places ≤ MOST_PLACES }
    ensures fields { OnOk result (fields_of row.new ≡ fields_of row.old ++ value_text item.kind item.places rows slot.now ∷ []) }
    ensures whole { OnOk result (partial_of row.new ≡ []) }
{
    match item.kind {
        ItemKind::Rows => push_integer(row, rows),
        ItemKind::Count => push_integer(row, slot.count),
        _ if slot.count == 0 => row.push_field(&[]),
        ItemKind::Sum => push_units(row, text, slot.sum, item.places),
        ItemKind::Min => push_units(row, text, i128::from(slot.least), item.places),
        ItemKind::Max => push_units(row, text, i128::from(slot.greatest), item.places),
        ItemKind::Avg => push_units(row, text, average(slot.sum, slot.count), item.places + 4),
    }
}

/// A number of units of 10^-`places`. Without places it is an integer, which needs no text.
fn push_units(
    row: &mut ByteRecord,
    text: &mut Vec<u8>,
    n: i128,
    places: u32,
) -> Result<(), AllocError>
    requires whole { partial_of row.old ≡ [] }
    requires few { places ≤ MOST_TEXT_PLACES }
    ensures fields { OnOk result (fields_of row.new ≡ fields_of row.old ++ number_text places n ∷ []) }
    ensures whole { OnOk result (partial_of row.new ≡ []) }
{
    if places == 0 {
        return push_integer(row, n);
    }
    text.clear();
    push_number(text, n, places)?;
    row.push_field(text)
}

/// An integer of any width.
fn push_integer<I: Integer>(row: &mut ByteRecord, n: I) -> Result<(), AllocError>
    requires whole { partial_of row.old ≡ [] }
    ensures fields { OnOk result (fields_of row.new ≡ fields_of row.old ++ I.text n ∷ []) }
    ensures whole { OnOk result (partial_of row.new ≡ []) }
{
    row.push_field(itoa::Buffer::new().format(n).as_bytes())
}
