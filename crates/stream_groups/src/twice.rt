//! A column of the plan that the header has twice.

ghost use Rattle.std.specs.Prelude.{◌≡◌, ◌<◌, ◌+◌, ◌++◌, [], IfOk, IfSome, IsTrue, decimal, get_or, length, string_bytes};
ghost use Rattle.par_model.specs.Columns.{HasColumns, reads_column};
ghost use Rattle.stream_groups.specs.Twice.{filter_twice, first_some, group_twice, item_same, item_twice, later_same, twice_of, twice_text};

use csv_rows::Record;
use par_model::{BoundPlan, Item, ItemKind};
use shown_text::put_shown;
use std::alloc::{AllocError, Global};

/// Two fields of a header that are the same, by their places.
#[derive(Clone, Copy, Drop)]
pub(crate) struct Twice {
    pub(crate) first: u32,
    pub(crate) second: u32,
}

/// The first column that the plan reads which the header has once more, in the order of the group columns, the aggregates
/// and the filters. In time linear in the header for each column.
pub(crate) fn find_twice(bound: &BoundPlan, header: &Record<'_>) -> Option<Twice>
    requires { HasColumns bound.now (length header.now) }
    ensures is { result ≡ twice_of bound.now header.now }
    ensures within { IfSome result (λ twice. twice.first < length header.now) }
{
    match group_twice(bound, header) {
        Some(twice) => return Some(twice),
        None => {}
    }
    match item_twice(bound, header) {
        Some(twice) => return Some(twice),
        None => {}
    }
    filter_twice(bound, header)
}

/// The same among the columns to group by.
fn group_twice(bound: &BoundPlan, header: &Record<'_>) -> Option<Twice>
    requires { HasColumns bound.now (length header.now) }
    ensures is { result ≡ first_some (group_twice bound.now header.now) }
    ensures within { IfSome result (λ twice. twice.first < length header.now) }
{
    let columns = bound.group_columns();
    for at in 0..columns.len() {
        match twice_at(header, columns[at]) {
            Some(twice) => return Some(twice),
            None => {}
        }
    }
    None
}

/// The same among the columns of the aggregates.
fn item_twice(bound: &BoundPlan, header: &Record<'_>) -> Option<Twice>
    requires { HasColumns bound.now (length header.now) }
    ensures is { result ≡ first_some (item_twice bound.now header.now) }
    ensures within { IfSome result (λ twice. twice.first < length header.now) }
{
    let items = bound.items();
    for at in 0..items.len() {
        match twice_of_item(header, items[at]) {
            Some(twice) => return Some(twice),
            None => {}
        }
    }
    None
}

/// The column of an aggregate and the next one with the same name, if it reads one and there is one.
fn twice_of_item(header: &Record<'_>, item: Item) -> Option<Twice>
    requires { IsTrue (reads_column item.kind) → item.column < length header.now }
    ensures is { result ≡ item_same header.now item }
    ensures within { IfSome result (λ twice. twice.first < length header.now) }
{
    if item.kind == ItemKind::Rows {
        return None;
    }
    twice_at(header, item.column)
}

/// The same among the columns of the filters.
fn filter_twice(bound: &BoundPlan, header: &Record<'_>) -> Option<Twice>
    requires { HasColumns bound.now (length header.now) }
    ensures is { result ≡ first_some (filter_twice bound.now header.now) }
    ensures within { IfSome result (λ twice. twice.first < length header.now) }
{
    let filters = bound.filters();
    for at in 0..filters.len() {
        match twice_at(header, filters[at].column) {
            Some(twice) => return Some(twice),
            None => {}
        }
    }
    None
}

/// A column of a header and the next one with the same name, if there is one.
fn twice_at(header: &Record<'_>, column: u32) -> Option<Twice>
    requires { column < length header.now }
    ensures is { result ≡ later_same header.now column }
    ensures within { IfSome result (λ twice. twice.first < length header.now) }
{
    let name = header.field(column);
    let width = header.width();
    for at in column + 1..width {
        if name == header.field(at) {
            return Some(Twice {
                first: column,
                second: at,
            });
        }
    }
    None
}

/// What the line says of two fields of a header that are the same.
pub(crate) fn twice_text(
    alloc: Global,
    header: &Record<'_>,
    twice: Twice,
) -> Result<String, AllocError>
    requires { twice.first < length header.now }
    ensures { IfOk result (λ said. string_bytes said ≡ twice_text (get_or header.now twice.first []) twice) }
{
    let mut said = String::from_str(alloc, "the header has column ")?;
    put_shown(&mut said, header.field(twice.first))?;
    said.push_str(" twice: fields ")?;
    put_place(&mut said, twice.first)?;
    said.push_str(" and ")?;
    put_place(&mut said, twice.second)?;
    Ok(said)
}

/// Puts the number of a field, of which the first is number 1.
fn put_place(said: &mut String, at: u32) -> Result<(), AllocError>
    ensures { IfOk result (λ _. string_bytes said.new ≡ string_bytes said.old ++ decimal (at + 1)) }
{
    said.push_str(itoa::Buffer::new().format(at as u64 + 1))
}
