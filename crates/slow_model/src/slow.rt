//! The definition of a refused row as a plain slow program over a row in memory.
//!
//! It asks one thing at a time and reads the row again for the next. It takes no memory, and equals the definition of
//! `specs/Refuse`: what a fast program answers can be compared with it.

ghost use Rattle.std.specs.Prelude.{◌≡◌, ◌≤◌, ◌<◌, ◌&&◌, ◌==◌, IfSome, Some, if◌then◌else◌, None, true, false, not, length, nat_lt, option_map};
ghost use Rattle.std.specs.List.{position_from};
ghost use Rattle.par_model.specs.Columns.{HasColumns};
ghost use Rattle.par_model.specs.Keep.{deciding, is_kept, keeps, passes};
ghost use Rattle.par_model.specs.Key.{key_of};
ghost use Rattle.par_model.specs.Record.{field_of};
ghost use Rattle.par_model.specs.Refuse.{is_misread, is_no_number, is_unreadable, longest_key, reads_numbers, refusal, refused_by};

use par_model::number::read_number;
use par_model::plan::{BoundPlan, Filter, FilterTest, Item, ItemKind};
use par_model::refusal::{FILTER_CAUSE, ITEM_CAUSE, KEY_CAUSE, LONGEST_KEY, Refusal, WIDTH_CAUSE};
use par_model::row::Row;

/// Why the plan refuses the row under a header of this width, if it does.
pub fn slow_refusal(row: &Row, width: u32, plan: &BoundPlan) -> Option<Refusal>
    requires { HasColumns plan.now width }
    ensures { result ≡ refusal plan.now width row.now }
{
    if row.width() != width as usize {
        return Some(Refusal {
            cause: WIDTH_CAUSE,
            item: 0,
        });
    }
    if let Some(at) = deciding(row, plan) {
        return refused_by(row, plan, at);
    }
    if has_long_key(row, plan) {
        return Some(Refusal {
            cause: KEY_CAUSE,
            item: 0,
        });
    }
    let item = first_unreadable(row, plan)?;
    Some(Refusal {
        cause: ITEM_CAUSE,
        item,
    })
}

/// Whether a field is neither null nor a number with this many places.
fn is_no_number(field: &[u8], places: u32) -> bool
    ensures { result ≡ is_no_number places field.now }
{
    !field.is_empty() && read_number(field, places).is_none()
}

/// The place of the first filter that does not keep the row.
fn deciding(row: &Row, plan: &BoundPlan) -> Option<u32>
    requires { HasColumns plan.now (length row.now) }
    ensures place { result ≡ deciding plan.now row.now }
    ensures within { IfSome result (λ at. at < length plan.now.filters) }
{
    let filters = plan.filters();
    'filters: for at in 0..filters.len() {
        if !keeps_row(&filters[at], row) {
            return Some(at as u32);
        }
    }
    None
}

/// The refusal for the filter at a place, if it cannot read its field.
fn refused_by(row: &Row, plan: &BoundPlan, at: u32) -> Option<Refusal>
    requires columns { HasColumns plan.now (length row.now) }
    requires place { at < length plan.now.filters }
    ensures { result ≡ refused_by plan.now row.now at }
{
    if !is_misread(&plan.filters()[at as usize], row) {
        return None;
    }
    Some(Refusal {
        cause: FILTER_CAUSE,
        item: at,
    })
}

/// Whether a filter cannot read its field.
fn is_misread(filter: &Filter, row: &Row) -> bool
    requires { filter.now.column < length row.now }
    ensures { result ≡ is_misread row.now filter.now }
{
    match filter.test {
        FilterTest::Number(_, _) => is_no_number(row.field(filter.column), filter.places),
        FilterTest::Is(_) | FilterTest::IsNot(_) => false,
    }
}

/// Whether the plan keeps the row.
pub(crate) fn keeps(row: &Row, plan: &BoundPlan) -> bool
    requires { HasColumns plan.now (length row.now) }
    ensures { result ≡ is_kept plan.now row.now }
{
    deciding(row, plan).is_none()
}

/// Whether a filter keeps the row.
fn keeps_row(filter: &Filter, row: &Row) -> bool
    requires { filter.now.column < length row.now }
    ensures { result ≡ keeps filter.now row.now }
{
    passes(row.field(filter.column), &filter.test, filter.places)
}

/// Whether a field passes a test.
fn passes(field: &[u8], test: &FilterTest, places: u32) -> bool
    ensures { result ≡ passes places test.now field.now }
{
    match test {
        FilterTest::Number(op, value) => match read_number(field, places) {
            None => false,
            Some(number) => op.stands(number, *value),
        },
        FilterTest::Is(text) => field == text.bytes(),
        FilterTest::IsNot(text) => !field.is_empty() && field != text.bytes(),
    }
}

/// Whether the row's encoded key is too long: each field takes four bytes more than it has.
fn has_long_key(row: &Row, plan: &BoundPlan) -> bool
    requires { HasColumns plan.now (length row.now) }
    ensures { result ≡ nat_lt longest_key (length (key_of plan.now row.now)) }
{
    let mut room = LONGEST_KEY;
    let groups = plan.group_columns();
    'groups: for at in 0..groups.len() {
        let length = row.field(groups[at]).len();
        if room < 4 || room - 4 < length {
            return true;
        }
        room -= length + 4;
    }
    false
}

/// The place of the first item that cannot read its field.
fn first_unreadable(row: &Row, plan: &BoundPlan) -> Option<u32>
    requires { HasColumns plan.now (length row.now) }
    ensures { result ≡ position_from (is_unreadable row.now) 0 plan.now.items }
{
    let items = plan.items();
    'items: for at in 0..items.len() {
        if is_unreadable(row, items[at]) {
            return Some(at as u32);
        }
    }
    None
}

/// Whether an item cannot read its field.
fn is_unreadable(row: &Row, item: Item) -> bool
    requires { reads_numbers item.kind ≡ true → item.column < length row.now }
    ensures { result ≡ is_unreadable row.now item }
{
    match item.kind {
        ItemKind::Rows | ItemKind::Count => false,
        ItemKind::Sum | ItemKind::Min | ItemKind::Max | ItemKind::Avg => {
            is_no_number(row.field(item.column), item.places)
        }
    }
}
