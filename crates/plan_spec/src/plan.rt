//! A plan by the names of its columns, with the number of workers and the pages of the shared area.

ghost use Rattle.std.specs.Prelude.{◌≡◌, ◌<◌, ◌≤◌, ◌++◌, [], IfSome, filter_map, is_some, length, map, option_and_then, option_map, slice_get, slice_index_or};
ghost use Rattle.std.specs.Option.{option_map_or};
ghost use Rattle.csv_rows.specs.Readings.{IsSeparator};
ghost use Rattle.par_model.specs.Columns.{reads_column};
ghost use Rattle.par_model.specs.Named.{names_of};
ghost use Rattle.par_model.specs.Table.{item_text};

use csv_rows::Reading;
use par_model::{FilterTest, ItemKind};
use std::marker::Model;

/// The most workers that words may ask for.
pub const MOST_WORKERS: u32 = 64;

/// The most pages that words may ask for.
pub const MOST_AREA_PAGES: u32 = 65_536;

/// Why words gave no plan: they aren't those of one, or memory ran out.
#[derive(Debug, Drop)]
pub enum PlanAnswer {
    Usage,
    Memory,
}

/// An aggregate with the name of its column, if it reads one, the places of the column's numbers, and the name of its
/// output column.
#[derive(Drop)]
pub(crate) struct PlanItem {
    pub(crate) kind: ItemKind,
    pub(crate) column: Option<String>,
    pub(crate) places: u32,
    /// `count`, or the kind with the column, as `sum(v)`.
    pub(crate) text: String,
}

impl Model for PlanItem {
    ghost use Rattle.std.specs.Prelude.{option_map, string_bytes};
    ghost use Rattle.par_model.specs.Named.{NamedItem};
    ghost use Rattle.plan_spec.specs.Parts.{IsItem};

    ghost Value = { NamedItem };

    ghost view = { λ i. record { kind = i.kind; column = option_map string_bytes i.column; places = i.places } };

    ghost invariant = { λ i. IsItem i.kind (option_map string_bytes i.column) i.places (string_bytes i.text) };
}

/// A filter by the name of its column, with the test and the places of the column's numbers.
#[derive(Drop)]
pub(crate) struct PlanFilter {
    pub(crate) column: String,
    pub(crate) test: FilterTest,
    pub(crate) places: u32,
}

impl Model for PlanFilter {
    ghost use Rattle.std.specs.Prelude.{string_bytes};
    ghost use Rattle.par_model.specs.Named.{NamedFilter};

    ghost Value = { NamedFilter };

    ghost view = { λ f. record { column = string_bytes f.column; test = f.test; places = f.places } };

    ghost use Rattle.std.specs.Prelude.{◌≤◌};
    ghost use Rattle.par_model.specs.declared.plan.TheConstants.{MOST_PLACES};

    ghost invariant = { λ f. f.places ≤ MOST_PLACES };
}

/// A plan by the names of its columns. It owns its texts, and is made by [`Plan::of_words`].
#[derive(Drop)]
pub struct Plan {
    /// The columns to group by, eight at most.
    pub(crate) groups: Vec<String>,
    /// The aggregates, one to eight.
    pub(crate) items: Vec<PlanItem>,
    /// The filters, eight at most.
    pub(crate) filters: Vec<PlanFilter>,
    /// Whether the workers share a hash table of groups.
    pub(crate) hash: bool,
    /// How many workers are asked for, [`MOST_WORKERS`] at most.
    pub(crate) workers: u32,
    /// The pages of that table's area, [`MOST_AREA_PAGES`] at most.
    pub(crate) area_pages: u32,
    /// How the fields of the input are read.
    pub(crate) reading: Reading,
}

impl Model for Plan {
    ghost use Rattle.std.specs.Prelude.{◌≤◌, ◌<◌, length, map, string_bytes};
    ghost use Rattle.plan_spec.specs.Query.{Query};
    ghost use Rattle.plan_spec.specs.Parts.{FitsLimits};

    ghost Value = { Query };

    ghost view = { λ p. record { plan = record { groups = map string_bytes p.groups.items; items = p.items.items; hash = p.hash; filters = p.filters.items }; workers = p.workers; area_pages = p.area_pages; reading = p.reading } };

    ghost invariant = { λ p. FitsLimits (length p.groups.items) (length p.items.items) (length p.filters.items) p.workers p.area_pages p.reading.separator };
}

impl Plan {
    /// How many workers are asked for, up to [`MOST_WORKERS`].
    pub fn workers(&self) -> u32
        ensures value { result ≡ self.now.workers }
        ensures within { result ≤ MOST_WORKERS }
    {
        self.workers
    }

    /// How many pages the shared area is to have, up to [`MOST_AREA_PAGES`].
    pub fn area_pages(&self) -> u32
        ensures value { result ≡ self.now.area_pages }
        ensures within { result ≤ MOST_AREA_PAGES }
    {
        self.area_pages
    }

    /// How the fields of the input are read.
    pub fn reading(&self) -> &Reading
        ensures value { result.now ≡ self.now.reading }
        ensures separator { IsSeparator result.now.separator }
    {
        &self.reading
    }

    /// A name of the plan: names are counted through the columns to group by, the aggregates that
    /// have a column, and the filters.
    pub fn name(&self, at: u32) -> &str
        requires { at < length (names_of self.now.plan) }
        ensures { result.now ≡ slice_index_or (names_of self.now.plan) at [] }
    {
        let at = at as usize;
        if at < self.groups.len() {
            return self.groups[at].as_str();
        }
        column_name(
            self.items.as_slice(),
            self.filters.as_slice(),
            at - self.groups.len(),
        )
    }

    /// How an aggregate is written as an output column, as `count` or `sum(v)`.
    pub fn item_text(&self, at: u32) -> &str
        requires { at < length self.now.plan.items }
        ensures { result.now ≡ slice_index_or (map item_text self.now.plan.items) at [] }
    {
        let item = &self.items[at as usize];
        item.text.as_str()
    }

    /// The name of the column that an aggregate reads, if it reads one. There is none past the last aggregate.
    pub fn item_name(&self, at: u32) -> Option<&str>
        ensures name { option_map (λ s. s.now) result ≡ option_and_then (λ item. item.column) (slice_get self.now.plan.items at) }
        ensures reads { IfSome (slice_get self.now.plan.items at) (λ item. is_some result ≡ reads_column item.kind) }
    {
        let item = self.items.get(at as usize)?;
        match &item.column {
            Some(name) => Some(name.as_str()),
            None => None,
        }
    }

    /// How many places the numbers of the column have that an aggregate reads. There are none past the last aggregate.
    pub fn item_places(&self, at: u32) -> u32
        ensures { result ≡ option_map_or (λ item. item.places) (slice_get self.now.plan.items at) 0 }
    {
        match self.items.get(at as usize) {
            Some(item) => item.places,
            None => 0,
        }
    }

    /// How many places the numbers of a filter's column have. There are none past the last filter.
    pub fn filter_places(&self, at: u32) -> u32
        ensures { result ≡ option_map_or (λ filter. filter.places) (slice_get self.now.plan.filters at) 0 }
    {
        match self.filters.get(at as usize) {
            Some(filter) => filter.places,
            None => 0,
        }
    }

    /// The name of a filter's column. There is none past the last filter.
    pub fn filter_name(&self, at: u32) -> Option<&str>
        ensures { option_map (λ s. s.now) result ≡ option_map (λ filter. filter.column) (slice_get self.now.plan.filters at) }
    {
        match self.filters.get(at as usize) {
            Some(filter) => Some(filter.column.as_str()),
            None => None,
        }
    }
}

/// A name among those of the aggregates and the filters.
fn column_name<'a>(items: &'a [PlanItem], filters: &'a [PlanFilter], place: usize) -> &'a str
    requires { place < length (filter_map (λ i. i.column) items.now ++ map (λ f. f.column) filters.now) }
    ensures { result.now ≡ slice_index_or (filter_map (λ i. i.column) items.entry.now ++ map (λ f. f.column) filters.entry.now) place [] }
{
    let mut left = place;
    'items: for item in items {
        match &item.column {
            Some(name) if left == 0 => return name.as_str(),
            Some(_) => left -= 1,
            None => {}
        }
    }
    let filter = &filters[left];
    filter.column.as_str()
}
