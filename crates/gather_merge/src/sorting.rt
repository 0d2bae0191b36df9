//! How a participant puts its rows in order. Each row is paired with a word of seven bytes of its columns, and such
//! pairs are sorted as numbers. Rows that have the same word get their next one, and are sorted among themselves: so
//! each level fetches a row once, and no comparison fetches anything. Below the last level whole rows are compared.

ghost use Rattle.std.specs.Prelude.{◌≡◌, ◌≢◌, ◌<◌, ◌≤◌, ◌+◌, ◌*◌, ℕ, IfOk, OnOk, All, length};
ghost use Rattle.std.specs.List.Sorted.{IsPermutation, IsSorted};
ghost use Rattle.gather_merge.specs.Levels.{AreTied, Follows, HaveOneWord, IsWorded, Sorts, pair_cmp, rows_of, word_of_pair};
ghost use Rattle.gather_merge.specs.Order.{columns_at, row_cmp};
ghost use Rattle.gather_merge.specs.RowWords.{AreWords};

use crate::comparing::compare;
use crate::words::{is_whole, text_from, word_at, word_of};
use csv_rows::RowStore;
use par_model::BoundPlan;
use std::alloc::{AllocError, Global};

/// How many levels there are below the first: 448 bytes of a column.
const LEVELS: u32 = 64;

/// A row, and the word by which it is sorted.
#[derive(Clone, Copy, Debug, PartialEq, Eq, PartialOrd, Ord)]
struct Keyed {
    word: u64,
    row: u64,
}

/// Where the pairs that have the same word as this one end.
fn end_of_ties(run: &[Keyed], from: usize) -> usize
    requires { from < length run.now }
    ensures within { (from < result) × (result ≤ length run.now) }
    ensures same { (k : ℕ) → from ≤ k → k < result → word_of_pair run.now k ≡ word_of_pair run.now from }
    ensures other { result < length run.now → word_of_pair run.now result ≢ word_of_pair run.now from }
{
    let word = run[from].word;
    for to in from + 1..run.len() {
        if run[to].word != word {
            return to;
        }
    }
    run.len()
}

/// Gives each row its word of this column from this byte on.
fn load_words(rows: &RowStore, plan: &BoundPlan, run: &mut [Keyed], column: usize, from: usize)
    ensures rows { rows_of run.new ≡ rows_of run.old }
    ensures worded { All (IsWorded (columns_at plan.now rows.now) column from) run.new }
{
    for keyed in run {
        keyed.word = word_of(text_from(rows, plan, keyed.row, column, from));
    }
}

/// Where rows that have the same word of a level differ first: in the next column, if the word is whole, and else seven
/// bytes on.
fn next_level(word: u64, column: usize, offset: usize) -> (usize, usize)
    requires few { (column ≤ 8) × (offset ≤ 448) }
    ensures { Follows word column offset result.0 result.1 }
{
    if is_whole(word) {
        (column + 1, 0)
    } else {
        (column, offset + 7)
    }
}

/// Sorts rows that are the same up to this byte of this column, paired with their words from there on.
#[cycle(levels)]
fn sort_level(
    rows: &RowStore,
    plan: &BoundPlan,
    words: &[u64],
    run: &mut [Keyed],
    column: usize,
    offset: usize,
    levels: u32,
)
    requires words { AreWords (columns_at plan.now rows.now) words.now }
    requires worded { All (IsWorded (columns_at plan.now rows.now) column offset) run.old }
    requires tied { AreTied (row_cmp plan.now rows.now) (columns_at plan.now rows.now) column offset (rows_of run.old) }
    requires few { (column ≤ 8) × (offset + 7 * levels ≤ 448) }
    ensures { Sorts (row_cmp plan.now rows.now) (rows_of run.old) (rows_of run.new) }
{
    run.sort_unstable();
    let mut from = 0;
    while from < run.len() {
        let to = end_of_ties(run, from);
        sort_ties(
            rows,
            plan,
            words,
            &mut run[from..to],
            column,
            offset,
            levels,
        );
        from = to;
    }
}

/// Sorts rows that have the same word of this level, by their next words. They are in order of their numbers.
#[cycle(levels)]
fn sort_ties(
    rows: &RowStore,
    plan: &BoundPlan,
    words: &[u64],
    ties: &mut [Keyed],
    column: usize,
    offset: usize,
    levels: u32,
)
    requires words { AreWords (columns_at plan.now rows.now) words.now }
    requires some { 0 < length ties.old }
    requires sorted { IsSorted pair_cmp ties.old }
    requires one { HaveOneWord ties.old }
    requires worded { All (IsWorded (columns_at plan.now rows.now) column offset) ties.old }
    requires tied { AreTied (row_cmp plan.now rows.now) (columns_at plan.now rows.now) column offset (rows_of ties.old) }
    requires few { (column ≤ 8) × (offset + 7 * levels ≤ 448) }
    ensures { Sorts (row_cmp plan.now rows.now) (rows_of ties.old) (rows_of ties.new) }
{
    let (column, offset) = next_level(ties[0].word, column, offset);
    if ties.len() == 1 || column >= plan.group_columns().len() {
        return;
    }
    if levels == 0 {
        ties.sort_unstable_by(|a, b| compare(rows, plan, words, a.row, b.row));
        return;
    }
    load_words(rows, plan, ties, column, offset);
    sort_level(rows, plan, words, ties, column, offset, levels - 1);
}

/// Rows paired with their words of the first column.
fn with_words(
    alloc: Global,
    rows: &RowStore,
    plan: &BoundPlan,
    words: &[u64],
    list: &[u64],
) -> Result<Vec<Keyed>, AllocError>
    requires words { AreWords (columns_at plan.now rows.now) words.now }
    ensures rows { IfOk result (λ run. rows_of run.items ≡ list.now) }
    ensures worded { IfOk result (λ run. All (IsWorded (columns_at plan.now rows.now) 0 0) run.items) }
{
    let mut run = Vec::with_capacity(alloc, list.len())?;
    for row in list {
        run.push(Keyed {
            word: word_at(words, *row),
            row: *row,
        })?;
    }
    Ok(run)
}

/// Replaces a list by the rows of pairs.
fn put_rows(run: &[Keyed], list: &mut Vec<u64>) -> Result<(), AllocError>
    ensures { OnOk result (list.new.items ≡ rows_of run.now) }
{
    list.clear();
    for keyed in run {
        list.push(keyed.row)?;
    }
    Ok(())
}

/// Sorts rows, paired with their words of the first column, and replaces the list by them.
fn sort_pairs(
    rows: &RowStore,
    plan: &BoundPlan,
    words: &[u64],
    mut run: Vec<Keyed>,
    list: &mut Vec<u64>,
) -> Result<(), AllocError>
    requires words { AreWords (columns_at plan.now rows.now) words.now }
    requires worded { All (IsWorded (columns_at plan.now rows.now) 0 0) run.items }
    ensures permutation { OnOk result (IsPermutation (rows_of run.items) list.new.items) }
    ensures sorted { OnOk result (IsSorted (row_cmp plan.now rows.now) list.new.items) }
{
    sort_level(rows, plan, words, &mut run, 0, 0, LEVELS);
    put_rows(&run, list)
}

/// Puts numbers in the order of their rows. Takes 16 bytes for each while it runs.
pub(crate) fn sort_rows(
    alloc: Global,
    rows: &RowStore,
    plan: &BoundPlan,
    words: &[u64],
    list: &mut Vec<u64>,
) -> Result<(), AllocError>
    requires words { AreWords (columns_at plan.now rows.now) words.now }
    ensures permutation { OnOk result (IsPermutation list.old.items list.new.items) }
    ensures sorted { OnOk result (IsSorted (row_cmp plan.now rows.now) list.new.items) }
{
    let run = with_words(alloc, rows, plan, words, list)?;
    sort_pairs(rows, plan, words, run, list)
}

/// Rows paired with their words of the first column, in order of the pairs. A stable sort keeps long runs of its input
/// and merges them.
fn merge_runs(
    alloc: Global,
    rows: &RowStore,
    plan: &BoundPlan,
    words: &[u64],
    list: &[u64],
) -> Result<Vec<Keyed>, AllocError>
    requires words { AreWords (columns_at plan.now rows.now) words.now }
    ensures rows { IfOk result (λ run. IsPermutation list.now (rows_of run.items)) }
    ensures worded { IfOk result (λ run. All (IsWorded (columns_at plan.now rows.now) 0 0) run.items) }
{
    let mut run = with_words(alloc, rows, plan, words, list)?;
    run.sort()?;
    Ok(run)
}

/// Sorts the rows of a list that consists of lists in order, one after the other. Takes 32 bytes for each number while
/// it runs.
pub(crate) fn merge_rows(
    alloc: Global,
    rows: &RowStore,
    plan: &BoundPlan,
    words: &[u64],
    list: &mut Vec<u64>,
) -> Result<(), AllocError>
    requires words { AreWords (columns_at plan.now rows.now) words.now }
    ensures permutation { OnOk result (IsPermutation list.old.items list.new.items) }
    ensures sorted { OnOk result (IsSorted (row_cmp plan.now rows.now) list.new.items) }
{
    let run = merge_runs(alloc, rows, plan, words, list)?;
    sort_pairs(rows, plan, words, run, list)
}
