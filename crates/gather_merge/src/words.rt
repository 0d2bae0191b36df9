//! The words by which rows are compared before anything of them is looked at: the first bytes of a text, the highest
//! first, and then its length if it is short. So two words compare as their texts do, and texts of at most seven bytes
//! that have the same word are the same. The words of the first column are in one list for all participants, which
//! nobody changes.

ghost use Rattle.std.specs.Prelude.{◌≡◌, ◌<◌, ◌%◌, IfOk, get_or, nat_lt};
ghost use Rattle.gather_merge.specs.Order.{columns_at};
ghost use Rattle.gather_merge.specs.RowWords.{AreBytes, AreLoaded, AreWords, HasWord, text_at, word};

use crate::comparing::{field_or_none, find_row};
use csv_rows::RowStore;
use par_model::BoundPlan;
use std::alloc::{AllocError, Global};
use std::thread::{Threads, for_each_mut};

/// A byte of a text; zero after its end.
fn byte_at(text: &[u8], at: usize) -> u64
    ensures { (result ≡ get_or text.now at 0) × (result < 256) }
{
    if at < text.len() { text[at] as u64 } else { 0 }
}

/// The word of a text. Proves too that the text consists of bytes.
pub(crate) fn word_of(text: &[u8]) -> u64
    ensures is { result ≡ word text.now }
    ensures bytes { AreBytes text.now }
{
    let mut bytes: u64 = 0;
    for at in 0..7 {
        bytes = bytes * 256 + byte_at(text, at);
    }
    bytes * 256 + text.len().min(8) as u64
}

/// Whether a word is that of only one text, which has at most seven bytes.
pub(crate) fn is_whole(word: u64) -> bool
    ensures { result ≡ nat_lt (word % 256) 8 }
{
    word % 256 < 8
}

/// What a row has in one of the plan's columns, from this byte on; nothing if that is not there.
pub(crate) fn text_from<'a>(
    rows: &'a RowStore,
    plan: &BoundPlan,
    row: u64,
    column: usize,
    from: usize,
) -> &'a [u8]
    ensures { result.now ≡ text_at (columns_at plan.now rows.now) column from row }
{
    let columns = plan.group_columns();
    if column >= columns.len() {
        return &[];
    }
    let field = field_or_none(&find_row(rows, row), columns[column]);
    if from >= field.len() {
        &[]
    } else {
        &field[from..]
    }
}

/// Sets the word of a record's first column.
fn load_word(rows: &RowStore, plan: &BoundPlan, row: u64, place: &mut u64)
    ensures { HasWord (columns_at plan.now rows.now) row place.new }
{
    *place = word_of(text_from(rows, plan, row, 0, 0));
}

/// Sets the word of each record's first column at the record's number, in at most this many threads.
fn load_all<R: Threads + Sync>(
    rt: &R,
    rows: &RowStore,
    plan: &BoundPlan,
    threads: usize,
    words: &mut Vec<u64>,
)
    requires threads { 0 < threads }
    ensures { AreLoaded (columns_at plan.now rows.now) words.old.items words.new.items }
{
    for_each_mut(
        rt,
        words.as_mut_slice(),
        threads,
        &|row, place| { load_word(rows, plan, row as u64, place) },
    );
}

/// The word of each record's first column, made by at most this many threads. In time linear in the records, and with 8
/// bytes for each.
pub(crate) fn first_words<R: Threads + Sync>(
    rt: &R,
    alloc: Global,
    rows: &RowStore,
    plan: &BoundPlan,
    threads: usize,
) -> Result<Vec<u64>, AllocError>
    requires threads { 0 < threads }
    ensures { IfOk result (λ words. AreWords (columns_at plan.now rows.now) words.items) }
{
    let mut words = vec![in alloc; 0u64; rows.count() as usize + 1]?;
    load_all(rt, rows, plan, threads, &mut words);
    Ok(words)
}

/// The word of a row; that of no text if there is no such row.
pub(crate) fn word_at(words: &[u64], row: u64) -> u64
    ensures { result ≡ get_or words.now row 0 }
{
    let at = row as usize;
    if at < words.len() { words[at] } else { 0 }
}
