//! The grammars of the options' values: lists between commas, aggregates, filters, numbers, and how many places the
//! numbers of a column have.

ghost use Rattle.std.specs.Prelude.{◌≡◌, ◌==◌, ◌≤◌, None, Some, All, IfOk, IfSome, IsTrue, bytes_eq, length, map, option_map, string_bytes, true, vec_len};
ghost use Rattle.std.specs.List.{count_by, list_any, position_or_len};
ghost use Rattle.std.specs.Option.{option_map_or};
ghost use Rattle.par_model.specs.Columns.{reads_column};
ghost use Rattle.par_model.specs.Table.{kind_text};
ghost use Rattle.plan_spec.specs.Grammar.{Places, bare_number_in, entry_in, filter_in, filter_over, filters_in, hash_in, is_bare, is_relation_byte, is_separator, item_in, item_over, items_in, kind_in, names_in, nulls_in, number_in, parts_of, places_in, places_of, relation_in, separator_in, short_text_in, test_in, text_in, text_test};
ghost use Rattle.csv_rows.specs.Readings.{IsSeparator};
ghost use Rattle.plan_spec.specs.Given.{entry_of};
ghost use Rattle.plan_spec.specs.declared.plan.PlanAnswer.TheVariants as answer;

use crate::PlanAnswer;
use crate::plan::{PlanFilter, PlanItem};
use csv_rows::read_number;
use par_model::{FilterOp, FilterTest, ItemKind, MOST_PLACES, Text};
use std::alloc::{AllocError, Global};

/// The greatest bound of a number.
pub const MOST_NUMBER: u32 = 65_536;

/// One to eight names between commas.
pub(crate) fn names(alloc: Global, text: &str) -> Result<Vec<String>, PlanAnswer>
    ensures names { IfOk result (λ v. names_in text.now ≡ Some (map string_bytes v.items)) }
    ensures within { IfOk result (λ v. vec_len v ≤ 8) }
    ensures none { result ≡ Err answer.Usage → names_in text.now ≡ None }
{
    let Ok(parts) = parts(alloc, text) else {
        return Err(PlanAnswer::Memory);
    };
    if parts.len() > 8 {
        return Err(PlanAnswer::Usage);
    }
    if has_empty(parts.as_slice()) {
        return Err(PlanAnswer::Usage);
    }
    match owned(alloc, parts.as_slice()) {
        Ok(names) => Ok(names),
        Err(_) => Err(PlanAnswer::Memory),
    }
}

/// How many places numbers have: those of the column of this name, or of any column.
#[derive(Clone, Copy)]
pub(crate) struct PlacesOf<'a> {
    column: Option<&'a str>,
    places: u32,
}

/// Such entries between commas.
pub(crate) fn places<'a>(alloc: Global, text: &'a str) -> Result<Vec<PlacesOf<'a>>, PlanAnswer>
    ensures places { IfOk result (λ v. places_in text.entry.now ≡ Some (map entry_of v.items)) }
    ensures within { IfOk result (λ v. All (λ entry. entry.places ≤ MOST_PLACES) v.items) }
    ensures none { result ≡ Err answer.Usage → places_in text.entry.now ≡ None }
{
    let Ok(parts) = parts(alloc, text) else {
        return Err(PlanAnswer::Memory);
    };
    let mut places = Vec::new(alloc);
    'parts: for part in parts.as_slice() {
        let Some(entry) = entry(part) else {
            return Err(PlanAnswer::Usage);
        };
        if places.push(entry).is_err() {
            return Err(PlanAnswer::Memory);
        }
    }
    Ok(places)
}

/// Reads an entry: `price=2`, or `2`.
fn entry(text: &str) -> Option<PlacesOf<'_>>
    ensures entry { option_map entry_of result ≡ entry_in text.now }
    ensures within { IfSome result (λ entry. entry.places ≤ MOST_PLACES) }
{
    match text.split_once('=') {
        Some((name, number_text)) => Some(PlacesOf {
            column: Some(name),
            places: number(number_text, MOST_PLACES)?,
        }),
        None => Some(PlacesOf {
            column: None,
            places: number(text, MOST_PLACES)?,
        }),
    }
}

/// How many places the numbers of a column have: as the first entry for it says, and otherwise none.
fn places_of(places: &[PlacesOf<'_>], name: &str) -> u32
    requires { All (λ entry. entry.places ≤ MOST_PLACES) places.now }
    ensures value { result ≡ places_of (map entry_of places.now) name.now }
    ensures within { result ≤ MOST_PLACES }
{
    match places.iter().find(|entry| is_for(entry, name)) {
        Some(entry) => entry.places,
        None => 0,
    }
}

/// Whether an entry is for a column.
fn is_for(entry: &PlacesOf<'_>, name: &str) -> bool
    ensures { result ≡ option_map_or (bytes_eq name.now) (entry_of entry.now).0 true }
{
    match entry.column {
        Some(column) => column == name,
        None => true,
    }
}

/// One to eight aggregates between commas.
pub(crate) fn items(
    alloc: Global,
    places: &[PlacesOf<'_>],
    text: &str,
) -> Result<Vec<PlanItem>, PlanAnswer>
    requires { All (λ entry. entry.places ≤ MOST_PLACES) places.now }
    ensures items { IfOk result (λ v. items_in (map entry_of places.now) text.now ≡ Some v.items) }
    ensures some { IfOk result (λ v. 1 ≤ vec_len v) }
    ensures within { IfOk result (λ v. vec_len v ≤ 8) }
    ensures none { result ≡ Err answer.Usage → items_in (map entry_of places.now) text.now ≡ None }
{
    let Ok(parts) = parts(alloc, text) else {
        return Err(PlanAnswer::Memory);
    };
    if parts.len() > 8 {
        return Err(PlanAnswer::Usage);
    }
    let mut items = Vec::new(alloc);
    'parts: for part in parts.as_slice() {
        match item(alloc, places, part) {
            Ok(item) => {
                if items.push(item).is_err() {
                    return Err(PlanAnswer::Memory);
                }
            }
            Err(answer) => return Err(answer),
        }
    }
    Ok(items)
}

/// The parts of a text between commas.
fn parts<'a>(alloc: Global, text: &'a str) -> Result<Vec<&'a str>, AllocError>
    ensures { IfOk result (λ v. map (λ s. s.now) v.items ≡ parts_of text.entry.now) }
{
    text.split(',').collect(alloc)
}

fn has_empty(parts: &[&str]) -> bool
    ensures { result ≡ list_any (λ part. length part.now == 0) parts.entry.now }
{
    parts.iter().any(|part| part.is_empty())
}

/// Copies of the texts.
fn owned(alloc: Global, parts: &[&str]) -> Result<Vec<String>, AllocError>
    ensures { IfOk result (λ v. map string_bytes v.items ≡ map (λ s. s.now) parts.entry.now) }
{
    let mut texts = Vec::new(alloc);
    'parts: for part in parts {
        let text = String::from_str(alloc, part)?;
        if texts.push(text).is_err() {
            return Err(AllocError);
        }
    }
    Ok(texts)
}

/// Reads an aggregate.
fn item(alloc: Global, places: &[PlacesOf<'_>], text: &str) -> Result<PlanItem, PlanAnswer>
    requires { All (λ entry. entry.places ≤ MOST_PLACES) places.now }
    ensures item { IfOk result (λ i. item_in (map entry_of places.now) text.now ≡ Some i) }
    ensures none { result ≡ Err answer.Usage → item_in (map entry_of places.now) text.now ≡ None }
{
    if text == "count" {
        return row_count(alloc).map_err(|_| PlanAnswer::Memory);
    }
    let Some((word, name)) = text.split_once(':') else {
        return Err(PlanAnswer::Usage);
    };
    if name.is_empty() {
        return Err(PlanAnswer::Usage);
    }
    let Some(kind) = kind(word) else {
        return Err(PlanAnswer::Usage);
    };
    column_item(alloc, kind, name, places_of(places, name)).map_err(|_| PlanAnswer::Memory)
}

/// The aggregate that counts rows.
pub(crate) fn row_count(alloc: Global) -> Result<PlanItem, AllocError>
    ensures { IfOk result (λ i. i ≡ record { kind = ItemKind.Rows; column = None; places = 0 }) }
{
    Ok(PlanItem {
        kind: ItemKind::Rows,
        column: None,
        places: 0,
        text: String::from_str(alloc, "count")?,
    })
}

/// An aggregate of a column.
fn column_item(
    alloc: Global,
    kind: ItemKind,
    name: &str,
    places: u32,
) -> Result<PlanItem, AllocError>
    requires reads { IsTrue (reads_column kind) }
    requires few { places ≤ MOST_PLACES }
    ensures { IfOk result (λ i. i ≡ record { kind = kind; column = Some name.now; places = places }) }
{
    let mut text = String::from_str(alloc, kind_word(kind))?;
    text.push_str("(")?;
    text.push_str(name)?;
    text.push_str(")")?;
    Ok(PlanItem {
        kind,
        column: Some(String::from_str(alloc, name)?),
        places,
        text,
    })
}

/// How a kind of aggregate is written.
fn kind_word(kind: ItemKind) -> &'static str
    ensures { result.now ≡ kind_text kind }
{
    match kind {
        ItemKind::Rows | ItemKind::Count => "count",
        ItemKind::Sum => "sum",
        ItemKind::Min => "min",
        ItemKind::Max => "max",
        ItemKind::Avg => "avg",
    }
}

/// The kind of aggregate of a column that a word names.
fn kind(word: &str) -> Option<ItemKind>
    ensures kind { result ≡ kind_in word.now }
    ensures reads { IfSome result (λ kind. IsTrue (reads_column kind)) }
{
    if word == "count" {
        Some(ItemKind::Count)
    } else if word == "sum" {
        Some(ItemKind::Sum)
    } else if word == "min" {
        Some(ItemKind::Min)
    } else if word == "max" {
        Some(ItemKind::Max)
    } else if word == "avg" {
        Some(ItemKind::Avg)
    } else {
        None
    }
}

/// Reads up to eight filters, which may compare texts or not.
pub(crate) fn filters(
    alloc: Global,
    places: &[PlacesOf<'_>],
    values: &[&str],
    texts: bool,
) -> Result<Vec<PlanFilter>, PlanAnswer>
    requires { All (λ entry. entry.places ≤ MOST_PLACES) places.now }
    ensures filters { IfOk result (λ v. filters_in texts (map entry_of places.now) (map (λ s. s.now) values.now) ≡ Some v.items) }
    ensures within { IfOk result (λ v. vec_len v ≤ 8) }
    ensures none { result ≡ Err answer.Usage → filters_in texts (map entry_of places.now) (map (λ s. s.now) values.now) ≡ None }
{
    if values.len() > 8 {
        return Err(PlanAnswer::Usage);
    }
    let mut filters = Vec::new(alloc);
    'values: for value in values {
        match filter(alloc, places, value, texts) {
            Ok(filter) => {
                if filters.push(filter).is_err() {
                    return Err(PlanAnswer::Memory);
                }
            }
            Err(answer) => return Err(answer),
        }
    }
    Ok(filters)
}

/// Reads a filter.
fn filter(
    alloc: Global,
    places: &[PlacesOf<'_>],
    text: &str,
    texts: bool,
) -> Result<PlanFilter, PlanAnswer>
    requires { All (λ entry. entry.places ≤ MOST_PLACES) places.now }
    ensures filter { IfOk result (λ f. filter_in texts (map entry_of places.now) text.now ≡ Some f) }
    ensures none { result ≡ Err answer.Usage → filter_in texts (map entry_of places.now) text.now ≡ None }
{
    let bytes = text.as_bytes();
    let at = relation_place(bytes);
    if at == 0 {
        return Err(PlanAnswer::Usage);
    }
    column_filter(alloc, places, &text[..at], &bytes[at..], texts)
}

/// A filter over the column of a name, by a text that begins with a relation.
fn column_filter(
    alloc: Global,
    places: &[PlacesOf<'_>],
    name: &str,
    text: &[u8],
    texts: bool,
) -> Result<PlanFilter, PlanAnswer>
    requires { All (λ entry. entry.places ≤ MOST_PLACES) places.now }
    ensures filter { IfOk result (λ f. filter_over texts (map entry_of places.now) name.now text.now ≡ Some f) }
    ensures none { result ≡ Err answer.Usage → filter_over texts (map entry_of places.now) name.now text.now ≡ None }
{
    let places = places_of(places, name);
    let Some(test) = test(text, places, texts) else {
        return Err(PlanAnswer::Usage);
    };
    match String::from_str(alloc, name) {
        Ok(column) => Ok(PlanFilter {
            column,
            test,
            places,
        }),
        Err(_) => Err(PlanAnswer::Memory),
    }
}

/// Where the first relation is, or the end of the text.
fn relation_place(bytes: &[u8]) -> usize
    ensures place { result ≡ position_or_len is_relation_byte bytes.now }
    ensures within { result ≤ length bytes.now }
{
    bytes.iter().take_while(|byte| !is_relation(**byte)).count()
}

fn is_relation(byte: u8) -> bool
    ensures { result ≡ is_relation_byte byte }
{
    byte == b'<' || byte == b'=' || byte == b'>' || byte == b'!'
}

/// Reads a relation, and the number or the text after it.
fn test(bytes: &[u8], places: u32, texts: bool) -> Option<FilterTest>
    ensures { result ≡ test_in texts places bytes.now }
{
    let (op, text) = relation(bytes)?;
    match bare_number(text, places) {
        Some(value) => Some(FilterTest::Number(op, value)),
        None => { if texts { text_test(op, text) } else { None } }
    }
}

/// A number with no space around it.
fn bare_number(text: &[u8], places: u32) -> Option<i64>
    ensures { result ≡ bare_number_in places text.now }
{
    if text.contains(&b' ') {
        return None;
    }
    read_number(text, places)
}

/// The test of a relation to the text after it.
fn text_test(op: FilterOp, text: &[u8]) -> Option<FilterTest>
    ensures { result ≡ text_test op text.now }
{
    match op {
        FilterOp::Equal => Some(FilterTest::Is(short_text(text)?)),
        FilterOp::NotEqual => Some(FilterTest::IsNot(short_text(text)?)),
        FilterOp::Less | FilterOp::LessEqual | FilterOp::Greater | FilterOp::GreaterEqual => None,
    }
}

/// The text after a relation, if it is not too long.
fn short_text(text: &[u8]) -> Option<Text>
    ensures { result ≡ short_text_in text.now }
{
    Text::of(bare_text(text)?)
}

/// The text after a relation: what is between double quotes, or all, if it may come without them.
fn bare_text(text: &[u8]) -> Option<&[u8]>
    ensures { option_map (λ found. found.now) result ≡ text_in text.now }
{
    match text {
        [b'"', inner @ .., b'"'] => Some(inner),
        _ if is_bare(text) => Some(text),
        _ => None,
    }
}

/// Whether a text may come without double quotes: it begins with no relation's byte, and if it has a space it has none at all.
fn is_bare(text: &[u8]) -> bool
    ensures { result ≡ is_bare text.now }
{
    match text {
        [first, ..] if is_relation(*first) => false,
        _ => !(text.contains(&b' ') && has_relation(text)),
    }
}

/// Whether a text has a relation's byte.
fn has_relation(text: &[u8]) -> bool
    ensures { result ≡ list_any is_relation_byte text.now }
{
    text.iter().any(|byte| is_relation(*byte))
}

/// Reads a relation. Returns it and what comes after it.
fn relation(bytes: &[u8]) -> Option<(FilterOp, &[u8])>
    ensures { option_map (λ found. (found.0, found.1.now)) result ≡ relation_in bytes.now }
{
    match bytes {
        [b'!', b'=', rest @ ..] => Some((FilterOp::NotEqual, rest)),
        [b'<', b'=', rest @ ..] => Some((FilterOp::LessEqual, rest)),
        [b'>', b'=', rest @ ..] => Some((FilterOp::GreaterEqual, rest)),
        [b'=', rest @ ..] => Some((FilterOp::Equal, rest)),
        [b'<', rest @ ..] => Some((FilterOp::Less, rest)),
        [b'>', rest @ ..] => Some((FilterOp::Greater, rest)),
        _ => None,
    }
}

/// One to five digits, with a value up to `most`, which is at most [`MOST_NUMBER`]. Takes no memory.
pub fn number(text: &str, most: u32) -> Option<u32>
    requires { most ≤ MOST_NUMBER }
    ensures { result ≡ number_in most text.now }
{
    let digits = text.as_bytes();
    if digits.is_empty() || digits.len() > 5 {
        return None;
    }
    let mut value: u32 = 0;
    'digits: for digit in digits {
        if !digit.is_ascii_digit() || value > 6553 {
            return None;
        }
        value = value * 10 + u32::from(*digit - b'0');
    }
    (value <= most).then_some(value)
}

/// The byte that parts fields: one character of ASCII that is no quote and ends no line, or `tab`.
pub(crate) fn separator(text: &str) -> Option<u8>
    ensures byte { result ≡ separator_in text.now }
    ensures fits { IfSome result IsSeparator }
{
    if text == "tab" {
        return Some(b'\t');
    }
    match text.as_bytes() {
        [byte] if is_separator(*byte) => Some(*byte),
        _ => None,
    }
}

/// Whether a byte may part fields.
fn is_separator(byte: u8) -> bool
    ensures is { result ≡ is_separator byte }
    ensures fits { result ≡ true → IsSeparator byte }
{
    byte < 128 && byte != b'"' && byte != b'\r' && byte != b'\n'
}

/// One to eight texts between commas, not too long together.
pub(crate) fn nulls(text: &str) -> Option<Text>
    ensures { result ≡ nulls_in text.now }
{
    let bytes = text.as_bytes();
    if count_commas(bytes) > 7 {
        return None;
    }
    Text::of(bytes)
}

fn count_commas(bytes: &[u8]) -> usize
    ensures { result ≡ count_by (λ byte. byte == 44) bytes.now }
{
    bytes.iter().filter(|byte| **byte == b',').count()
}

/// Whether a plan is the one over the shared hash table.
pub(crate) fn hash(text: &str) -> Option<bool>
    ensures { result ≡ hash_in text.now }
{
    if text == "gather" {
        Some(false)
    } else if text == "hash" {
        Some(true)
    } else {
        None
    }
}
