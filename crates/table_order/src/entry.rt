//! What is sorted in place of rows.

ghost use Rattle.std.specs.Prelude.{◌≡◌, ◌∷◌, ◌<◌, ℕ, List, All, IfOk, length, map};
ghost use Rattle.std.specs.List.{range_with_len};
ghost use Rattle.csv.specs.Writing.{default_writer, row_text};
ghost use Rattle.table_order.specs.Entries.{AreEntries, IsEntry, IsOrderedText, entries_cmp, left_of, line_at, others_cmp, rank_of, turned_answer, turned_rank};
ghost use Rattle.table_order.specs.Order.{fields_cmp, numbers_cmp};

use crate::line::field;
use crate::number::Number;
use crate::order::{By, Order};
use std::alloc::{AllocError, Global};
use std::cmp::Ordering;

/// A row by its place: the rank of its field, and the field, if the rank leaves open how it compares.
#[derive(Clone, Copy)]
pub(crate) struct Entry<'a> {
    rank: u64,
    left: &'a [u8],
    at: usize,
}

/// The lines of rows in this order.
pub(crate) fn ordered<'a>(
    alloc: Global,
    lines: &[&'a [u8]],
    order: Order,
) -> Result<Vec<&'a [u8]>, AllocError>
    ensures { IfOk result (λ ordered. (rows : List (List (List ℕ))) → map (λ line. line.now) lines.now ≡ map (row_text default_writer) rows → IsOrderedText order rows (map (λ line. line.now) ordered.items)) }
{
    let mut entries = entries(alloc, lines, order)?;
    entries.sort_unstable_by(|a, b| compare_entries(a, b, order));
    lines_of(alloc, lines, entries.as_slice())
}

/// The lines of the entries' rows.
fn lines_of<'a>(
    alloc: Global,
    lines: &[&'a [u8]],
    entries: &[Entry<'_>],
) -> Result<Vec<&'a [u8]>, AllocError>
    requires { All (λ entry. entry.at < length lines.now) entries.now }
    ensures { IfOk result (λ ordered. map (λ line. line.now) ordered.items ≡ map (line_at (map (λ line. line.now) lines.now)) entries.now) }
{
    let mut ordered = Vec::with_capacity(alloc, entries.len())?;
    for entry in entries {
        ordered.push(lines[entry.at])?;
    }
    Ok(ordered)
}

/// An entry for each row.
fn entries<'a>(
    alloc: Global,
    lines: &[&'a [u8]],
    order: Order,
) -> Result<Vec<Entry<'a>>, AllocError>
    ensures rows { IfOk result (λ entries. map (λ entry. entry.at) entries.items ≡ range_with_len 0 (length lines.now)) }
    ensures entries { IfOk result (λ entries. (rows : List (List (List ℕ))) → map (λ line. line.now) lines.now ≡ map (row_text default_writer) rows → AreEntries order rows entries.items) }
{
    let mut entries = Vec::with_capacity(alloc, lines.len())?;
    for (at, line) in lines.iter().enumerate() {
        entries.push(entry_of(field(line, order.column), order, at))?;
    }
    Ok(entries)
}

/// The entry of a row with this field.
fn entry_of<'a>(field: &'a [u8], order: Order, at: usize) -> Entry<'a>
    ensures row { result.at ≡ at }
    ensures entry { IsEntry order field.entry.now result }
{
    let rank = rank(field, order.by, order.down);
    Entry {
        rank,
        left: left_of(rank, field),
        at,
    }
}

/// The rank of a field.
fn rank(field: &[u8], by: By, down: bool) -> u64
    ensures { result ≡ rank_of by down field.now }
{
    match by {
        By::Bytes => 0,
        By::Numbers(places) => match Number::of(field, places) {
            None => u64::MAX,
            Some(number) => turned_rank(number.rank(), down),
        },
    }
}

/// A rank from the other end.
fn turned_rank(rank: u64, down: bool) -> u64
    ensures { result ≡ turned_rank down rank }
{
    if down { u64::MAX - rank } else { rank }
}

/// What is left to compare of a field of this rank.
fn left_of<'a>(rank: u64, field: &'a [u8]) -> &'a [u8]
    ensures { result.now ≡ left_of rank field.entry.now }
{
    if 0 < rank && rank < u64::MAX {
        &[]
    } else {
        field
    }
}

/// How two entries compare.
fn compare_entries(a: &Entry<'_>, b: &Entry<'_>, order: Order) -> Ordering
    ensures { result ≡ entries_cmp order a.now b.now }
{
    match a.rank.cmp(&b.rank) {
        Ordering::Equal => {}
        unequal => return unequal,
    }
    match compare_fields(a.left, b.left, order) {
        Ordering::Equal => a.at.cmp(&b.at),
        unequal => unequal,
    }
}

/// How two fields compare in an order.
fn compare_fields(a: &[u8], b: &[u8], order: Order) -> Ordering
    ensures { result ≡ fields_cmp order.by order.down a.now b.now }
{
    match order.by {
        By::Bytes => turned(a.cmp(b), order.down),
        By::Numbers(places) => compare_numbers(a, b, places, order.down),
    }
}

/// How two fields compare as numbers.
fn compare_numbers(a: &[u8], b: &[u8], places: usize, down: bool) -> Ordering
    ensures { result ≡ numbers_cmp places down a.now b.now }
{
    match (Number::of(a, places), Number::of(b, places)) {
        (Some(x), Some(y)) => turned(x.compare(&y), down),
        (Some(_), None) => Ordering::Less,
        (None, Some(_)) => Ordering::Greater,
        (None, None) => compare_others(a, b, down),
    }
}

/// How two fields compare that are no numbers.
fn compare_others(a: &[u8], b: &[u8], down: bool) -> Ordering
    ensures { result ≡ others_cmp down a.now b.now }
{
    match (a.is_empty(), b.is_empty()) {
        (true, true) => Ordering::Equal,
        (true, false) => Ordering::Greater,
        (false, true) => Ordering::Less,
        (false, false) => turned(a.cmp(b), down),
    }
}

/// An answer, or that from the other end.
fn turned(answer: Ordering, down: bool) -> Ordering
    ensures { result ≡ turned_answer down answer }
{
    if down { answer.reverse() } else { answer }
}
