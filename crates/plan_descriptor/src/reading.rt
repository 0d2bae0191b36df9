//! The plan of a descriptor's words, if each of them is allowed.

ghost use Rattle.std.specs.Prelude.{◌≡◌, ◌+◌, ◌*◌, ◌<◌, ◌≤◌, ◌^◌, ℕ, All, FitsSigned, IfErr, IfOk, None, OnOk, Some, length, slice_index, slice_index_or, take};
ghost use Rattle.std.specs.Int.{w64};
ghost use Rattle.std.specs.Option.{ForSome, option_map_or};
ghost use Rattle.par_model.specs.Plan.{Plan};
ghost use Rattle.par_model.specs.PlanLayout.{unused};
ghost use Rattle.par_model.specs.declared.plan.TheConstants.{MOST_PLACES};
ghost use Rattle.plan_descriptor.specs.Descriptor.{IsDescriptor, IsWritable, bad_word, column_word, filter_word, is_allowed, is_column, is_filter, is_head, is_item, is_placed, kind_word, plain_filters, relation_word, size_of};

use crate::BadDescriptor;
use crate::words::NumberFilter;
use par_model::{BoundPlan, Filter, FilterOp, FilterTest, Item, ItemKind, MOST_PLACES, NO_FILTER};

/// The plan of the words of a descriptor, or the least word that is not allowed.
pub(crate) fn decode(words: &[u64]) -> Result<BoundPlan, BadDescriptor>
    requires { length words.now ≡ size_of (slice_index words.now 0) }
    ensures descriptor { IfOk result (λ plan. IsDescriptor words.now plan) }
    ensures reads_back { (plan : Plan) → IsWritable plan → IsDescriptor words.now plan → result ≡ Ok plan }
    ensures refused { IfErr result (λ e. bad_word words.now ≡ Some e.at) }
    ensures whole { OnOk result (bad_word words.now ≡ None) }
{
    match first_bad(words) {
        Some(at) => Err(BadDescriptor { at }),
        None => Ok(allowed_plan(words)),
    }
}

/// The least word that is not allowed.
fn first_bad(words: &[u64]) -> Option<u64>
    requires { length words.now ≡ size_of (slice_index words.now 0) }
    ensures { result ≡ bad_word words.now }
{
    'words: for place in 0..words.len() {
        if !is_allowed(words, place) {
            return Some(place as u64);
        }
    }
    None
}

/// Whether the word at a place is allowed there, given the words before it.
fn is_allowed(words: &[u64], place: usize) -> bool
    requires size { 28 ≤ length words.now }
    requires inside { place < length words.now }
    ensures { result ≡ is_allowed words.now place }
{
    let word = words[place];
    if place < 4 {
        return is_head(place, word);
    }
    if place < 12 {
        return is_column((place as u64 - 4) < words[1], word);
    }
    if place < 28 {
        return is_item(words, (place - 12) / 2, place % 2, word);
    }
    is_filter(words, place - 28, word)
}

fn is_head(place: usize, word: u64) -> bool
    ensures { result ≡ is_head place word }
{
    match place {
        0 => word == 1 || word == 2,
        1 => word <= 8,
        2 => 1 <= word && word <= 8,
        _ => word <= 1,
    }
}

/// A column if there is one, and else zero.
fn is_column(stands: bool, word: u64) -> bool
    ensures { result ≡ is_column stands word }
{
    if stands { word < 1 << 32 } else { word == 0 }
}

/// A column with the places of its numbers, of which version 1 has none, and else zero.
fn is_placed(words: &[u64], stands: bool, word: u64) -> bool
    requires { 28 ≤ length words.now }
    ensures { result ≡ is_placed words.now stands word }
{
    if words[0] == 1 {
        return is_column(stands, word);
    }
    if stands {
        word < u64::from(MOST_PLACES + 1) << 32
    } else {
        word == 0
    }
}

/// The two words of an aggregate.
fn is_item(words: &[u64], at: usize, place: usize, word: u64) -> bool
    requires size { 28 ≤ length words.now }
    requires inside { at < 8 }
    ensures { result ≡ is_item words.now at place word }
{
    let stands = (at as u64) < words[2];
    if place == 0 {
        return if stands { word <= 5 } else { word == 0 };
    }
    is_placed(words, stands && words[12 + 2 * at] != 0, word)
}

/// The words of the filter.
fn is_filter(words: &[u64], place: usize, word: u64) -> bool
    requires { 29 ≤ length words.now }
    ensures { result ≡ is_filter words.now place word }
{
    let stands = words[28] != 0;
    match place {
        0 => word <= 6,
        1 => is_placed(words, stands, word),
        2 => stands || word == 0,
        _ => word == 0,
    }
}

/// The plan of words that are allowed.
fn allowed_plan(words: &[u64]) -> BoundPlan
    requires size { length words.now ≡ size_of (slice_index words.now 0) }
    requires allowed { bad_word words.now ≡ None }
    ensures descriptor { IsDescriptor words.now result }
    ensures plan { IsWritable result }
{
    let (filters, filter_count) = filters_of(filter(words));
    BoundPlan {
        groups: groups(words),
        group_count: words[1] as u32,
        items: items(words),
        item_count: words[2] as u32,
        hash: words[3] == 1,
        filters,
        filter_count,
    }
}

/// The filters of a plan that has this one, or none, and how many they are.
fn filters_of(filter: Option<NumberFilter>) -> ([Filter; 8], u32)
    requires { ForSome filter (λ filter. filter.places ≤ MOST_PLACES) }
    ensures filters { take result.1 result.0 ≡ plain_filters filter }
    ensures few { result.1 ≤ 8 }
    ensures places { All (λ filter. filter.places ≤ MOST_PLACES) result.0 }
{
    let mut filters = [NO_FILTER; 8];
    match filter {
        None => (filters, 0),
        Some(filter) => {
            filters[0] = Filter {
                column: filter.column,
                test: FilterTest::Number(filter.op, filter.value),
                places: filter.places,
            };
            (filters, 1)
        }
    }
}

/// The columns to group by, each at its place.
fn groups(words: &[u64]) -> [u32; 8]
    requires size { 28 ≤ length words.now }
    requires columns { (k : ℕ) → k < 8 → slice_index words.now (4 + k) < 2 ^ 32 }
    ensures size { length result ≡ 8 }
    ensures columns { (k : ℕ) → k < 8 → slice_index result k ≡ slice_index words.now (4 + k) }
{
    let mut groups = [0; 8];
    'groups: for at in 0..8 {
        groups[at] = words[4 + at] as u32;
    }
    groups
}

/// The aggregates, each at its place.
fn items(words: &[u64]) -> [Item; 8]
    requires size { 28 ≤ length words.now }
    requires kinds { (k : ℕ) → k < 8 → slice_index words.now (12 + 2 * k) ≤ 5 }
    requires columns { (k : ℕ) → k < 8 → slice_index words.now (13 + 2 * k) < 2 ^ 32 * (MOST_PLACES + 1) }
    ensures size { length result ≡ 8 }
    ensures kinds { (k : ℕ) → k < 8 → kind_word (slice_index_or result k unused).kind ≡ slice_index words.now (12 + 2 * k) }
    ensures columns { (k : ℕ) → k < 8 → column_word (slice_index_or result k unused).column (slice_index_or result k unused).places ≡ slice_index words.now (13 + 2 * k) }
    ensures narrow { (k : ℕ) → k < 8 → (slice_index_or result k unused).column < 2 ^ 32 }
    ensures places { (k : ℕ) → k < 8 → (slice_index_or result k unused).places ≤ MOST_PLACES }
{
    let mut items = [Item {
        kind: ItemKind::Rows,
        column: 0,
        places: 0,
    }; 8];
    'items: for at in 0..8 {
        let kind = kind_of(words[12 + 2 * at]);
        let (column, places) = column_of(words[13 + 2 * at]);
        items[at] = Item {
            kind,
            column,
            places,
        };
    }
    items
}

/// The column and the places of a word.
fn column_of(word: u64) -> (u32, u32)
    requires { word < 2 ^ 32 * (MOST_PLACES + 1) }
    ensures word { column_word result.0 result.1 ≡ word }
    ensures narrow { result.0 < 2 ^ 32 }
    ensures places { result.1 ≤ MOST_PLACES }
{
    ((word % (1 << 32)) as u32, (word >> 32) as u32)
}

fn kind_of(word: u64) -> ItemKind
    requires { word ≤ 5 }
    ensures { kind_word result ≡ word }
{
    match word {
        0 => ItemKind::Rows,
        1 => ItemKind::Count,
        2 => ItemKind::Sum,
        3 => ItemKind::Min,
        4 => ItemKind::Max,
        _ => ItemKind::Avg,
    }
}

/// The filter, if there is one.
fn filter(words: &[u64]) -> Option<NumberFilter>
    requires size { length words.now ≡ size_of (slice_index words.now 0) }
    requires allowed { bad_word words.now ≡ None }
    ensures old { length words.now ≡ 28 → result ≡ None }
    ensures fits { ForSome result (λ filter. (filter.column < 2 ^ 32) × (filter.places ≤ MOST_PLACES) × FitsSigned w64 filter.value) }
    ensures words { length words.now ≡ 32 → (k : ℕ) → k < 4 → filter_word result k ≡ slice_index words.now (28 + k) }
{
    if words.len() < 32 {
        return None;
    }
    let op = relation_of(words[28])?;
    let (column, places) = column_of(words[29]);
    Some(NumberFilter {
        column,
        op,
        value: words[30].cast_signed(),
        places,
    })
}

/// The relation of a word, or none for 0.
fn relation_of(word: u64) -> Option<FilterOp>
    requires { word ≤ 6 }
    ensures { option_map_or relation_word result 0 ≡ word }
{
    match word {
        1 => Some(FilterOp::Equal),
        2 => Some(FilterOp::NotEqual),
        3 => Some(FilterOp::Less),
        4 => Some(FilterOp::LessEqual),
        5 => Some(FilterOp::Greater),
        6 => Some(FilterOp::GreaterEqual),
        _ => None,
    }
}
