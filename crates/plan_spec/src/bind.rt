//! The columns of a plan's names in a header.

ghost use Rattle.std.specs.Prelude.{◌≡◌, ◌<◌, ◌≤◌, ◌-◌, ◌^◌, None, Some, [], All, IfErr, IfNone, IfOk, IfSome, IsTrue, OnOk, OnSome, drop, filter_map, length, map, option_map, option_to_list, replicate, slice_index_or, string_bytes, take};
ghost use Rattle.csv_rows.specs.Records.{record_at};
ghost use Rattle.par_model.specs.Columns.{HasColumns, reads_column};
ghost use Rattle.par_model.specs.Named.{bound_column, bound_filter, bound_item, bound_plan, column_of, missing_name, names_of};
ghost use Rattle.par_model.specs.Plain.{is_plain, is_plain_named};
ghost use Rattle.par_model.specs.PlanLayout.{unused};
ghost use Rattle.par_model.specs.declared.plan.TheConstants.{MOST_PLACES};
ghost use Rattle.plan_spec.specs.Binding.{missing_from, missing_place};

use crate::plan::{Plan, PlanFilter, PlanItem};
use csv_rows::RowStore;
use par_model::{BoundPlan, Filter, Item, ItemKind, NO_FILTER};

/// A name of a plan that is no field of the header: its place among the plan's names.
#[derive(Debug, Drop)]
pub struct NoColumn {
    pub at: u32,
}

impl Plan {
    /// The plan over the columns of the header, the first record. A name means the first field with its bytes. It takes
    /// no memory; the time is that of the names times the header's fields.
    pub fn bind(&self, rows: &RowStore) -> Result<BoundPlan, NoColumn>
        ensures bound { IfOk result (λ bound. bound ≡ bound_plan (record_at rows.now 0) self.now.plan) }
        ensures whole { OnOk result (missing_name (record_at rows.now 0) self.now.plan ≡ None) }

        // Each column that it reads is one of the header.
        ensures columns { IfOk result (λ bound. HasColumns bound (length (record_at rows.now 0))) }
        ensures plain { IfOk result (λ bound. is_plain bound ≡ is_plain_named self.now.plan) }

        // The first name that the header lacks, by its place.
        ensures place { IfErr result (λ e. missing_place (record_at rows.now 0) self.now.plan ≡ Some e.at) }
        ensures within { IfErr result (λ e. e.at < length (names_of self.now.plan)) }
        ensures name { IfErr result (λ e. missing_name (record_at rows.now 0) self.now.plan ≡ Some (slice_index_or (names_of self.now.plan) e.at [])) }
    {
        let before_items = self.groups.len() as u32;
        let groups = match bind_groups(self.groups.as_slice(), rows) {
            Ok(groups) => groups,
            Err(at) => return Err(NoColumn { at }),
        };
        let (items, named) = match bind_items(self.items.as_slice(), rows) {
            Ok(bound) => bound,
            Err(at) => return Err(NoColumn {
                at: before_items + at,
            }),
        };
        let filters = match bind_filters(self.filters.as_slice(), rows) {
            Ok(filters) => filters,
            Err(at) => return Err(NoColumn {
                at: before_items + named + at,
            }),
        };
        Ok(BoundPlan {
            groups,
            group_count: before_items,
            items,
            item_count: self.items.len() as u32,
            hash: self.hash,
            filters,
            filter_count: self.filters.len() as u32,
        })
    }
}

/// The columns to group by, or the place of the first name that is no field.
fn bind_groups(names: &[String], rows: &RowStore) -> Result<[u32; 8], u32>
    requires { length names.now ≤ 8 }
    ensures columns { IfOk result (λ xs. take (length names.now) xs ≡ map (bound_column (record_at rows.now 0)) (map string_bytes names.now)) }
    ensures unused { IfOk result (λ xs. drop (length names.now) xs ≡ replicate (8 - length names.now) 0) }
    ensures below { IfOk result (λ xs. All (λ column. column < length (record_at rows.now 0)) (take (length names.now) xs)) }
    ensures whole { OnOk result (missing_from (record_at rows.now 0) (map string_bytes names.now) ≡ None) }
    ensures missing { IfErr result (λ at. missing_from (record_at rows.now 0) (map string_bytes names.now) ≡ Some at) }
{
    let mut columns = [0u32; 8];
    'names: for (at, name) in names.iter().enumerate() {
        match column(rows, name.as_str()) {
            Some(place) => columns[at] = place,
            None => return Err(at as u32),
        }
    }
    Ok(columns)
}

/// The aggregates over their columns, with how many have one, or the place of the first name that is
/// no field.
fn bind_items(items: &[PlanItem], rows: &RowStore) -> Result<([Item; 8], u32), u32>
    requires { length items.now ≤ 8 }
    ensures items { IfOk result (λ r. take (length items.now) r.0 ≡ map (bound_item (record_at rows.now 0)) items.now) }
    ensures unused { IfOk result (λ r. drop (length items.now) r.0 ≡ replicate (8 - length items.now) unused) }
    ensures no_column { IfOk result (λ r. All (λ item. item.kind ≡ ItemKind.Rows → (item.column ≡ 0) × (item.places ≡ 0)) r.0) }
    ensures below { IfOk result (λ r. All (λ item. IsTrue (reads_column item.kind) → item.column < length (record_at rows.now 0)) r.0) }
    ensures places { IfOk result (λ r. All (λ item. item.places ≤ MOST_PLACES) r.0) }
    ensures named { IfOk result (λ r. r.1 ≡ length (filter_map (λ i. i.column) items.now)) }
    ensures few { IfOk result (λ r. r.1 ≤ 8) }
    ensures whole { OnOk result (missing_from (record_at rows.now 0) (filter_map (λ i. i.column) items.now) ≡ None) }
    ensures near { IfErr result (λ at. at ≤ 8) }
    ensures missing { IfErr result (λ at. missing_from (record_at rows.now 0) (filter_map (λ i. i.column) items.now) ≡ Some at) }
{
    let unused = Item {
        kind: ItemKind::Rows,
        column: 0,
        places: 0,
    };
    let mut bound = [unused; 8];
    let mut named = 0u32;
    'items: for (at, item) in items.iter().enumerate() {
        match bind_item(item, rows) {
            Some((one, count)) => {
                bound[at] = one;
                named += count;
            }
            None => return Err(named),
        }
    }
    Ok((bound, named))
}

/// An aggregate over its column, with how many columns it has, or none if its name is no field.
fn bind_item(item: &PlanItem, rows: &RowStore) -> Option<(Item, u32)>
    ensures item { IfSome result (λ r. r.0 ≡ bound_item (record_at rows.now 0) item.now) }
    ensures no_column { IfSome result (λ r. r.0.kind ≡ ItemKind.Rows → (r.0.column ≡ 0) × (r.0.places ≡ 0)) }
    ensures below { IfSome result (λ r. IsTrue (reads_column r.0.kind) → r.0.column < length (record_at rows.now 0)) }
    ensures places { IfSome result (λ r. r.0.places ≤ MOST_PLACES) }
    ensures count { IfSome result (λ r. r.1 ≡ length (option_to_list item.now.column)) }
    ensures within { IfSome result (λ r. r.1 ≤ 1) }
    ensures whole { OnSome result (missing_from (record_at rows.now 0) (option_to_list item.now.column) ≡ None) }
    ensures missing { IfNone result (missing_from (record_at rows.now 0) (option_to_list item.now.column) ≡ Some 0) }
{
    let kind = item.kind;
    let places = item.places;
    match &item.column {
        None => Some((
            Item {
                kind,
                column: 0,
                places,
            },
            0,
        )),
        Some(name) => {
            let column = column(rows, name.as_str())?;
            Some((
                Item {
                    kind,
                    column,
                    places,
                },
                1,
            ))
        }
    }
}

/// The filters over their columns, or the place of the first name that is no field.
fn bind_filters(filters: &[PlanFilter], rows: &RowStore) -> Result<[Filter; 8], u32>
    requires { length filters.now ≤ 8 }
    ensures filters { IfOk result (λ xs. take (length filters.now) xs ≡ map (bound_filter (record_at rows.now 0)) filters.now) }
    ensures below { IfOk result (λ xs. All (λ filter. filter.column < length (record_at rows.now 0)) (take (length filters.now) xs)) }
    ensures places { IfOk result (λ xs. All (λ filter. filter.places ≤ MOST_PLACES) xs) }
    ensures whole { OnOk result (missing_from (record_at rows.now 0) (map (λ f. f.column) filters.now) ≡ None) }
    ensures near { IfErr result (λ at. at < 8) }
    ensures missing { IfErr result (λ at. missing_from (record_at rows.now 0) (map (λ f. f.column) filters.now) ≡ Some at) }
{
    let mut bound = [NO_FILTER; 8];
    'filters: for (at, filter) in filters.iter().enumerate() {
        match bind_filter(filter, rows) {
            Some(one) => bound[at] = one,
            None => return Err(at as u32),
        }
    }
    Ok(bound)
}

/// A filter over its column, or none if its name is no field.
fn bind_filter(filter: &PlanFilter, rows: &RowStore) -> Option<Filter>
    ensures filter { IfSome result (λ f. f ≡ bound_filter (record_at rows.now 0) filter.now) }
    ensures below { IfSome result (λ f. f.column < length (record_at rows.now 0)) }
    ensures places { IfSome result (λ f. f.places ≤ MOST_PLACES) }
    ensures whole { OnSome result (column_of (record_at rows.now 0) filter.now.column ≡ Some (bound_column (record_at rows.now 0) filter.now.column)) }
    ensures missing { IfNone result (column_of (record_at rows.now 0) filter.now.column ≡ None) }
{
    let test = filter.test;
    let places = filter.places;
    let column = column(rows, filter.column.as_str())?;
    Some(Filter {
        column,
        test,
        places,
    })
}

/// The column of a name: the first field of the header, the store's first record, with its bytes. Takes no memory; the
/// time is that of the header.
pub fn column(rows: &RowStore, name: &str) -> Option<u32>
    ensures first { result ≡ column_of (record_at rows.now 0) name.now }
    ensures below { IfSome result (λ at. at < length (record_at rows.now 0)) }
    ensures narrow { IfSome result (λ at. at < 2 ^ 32) }
{
    // Tells that there is a header. It does nothing.
    let _rows = rows.count();
    'fields: for at in 0..rows.width(0) {
        if name.as_bytes() == rows.field(0, at) {
            return Some(at);
        }
    }
    None
}
