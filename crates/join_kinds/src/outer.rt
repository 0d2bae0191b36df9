//! The outer joins: the pairs, and the rows that have none.

ghost use Rattle.std.specs.Prelude.{◌≡◌, ◌≤◌, ◌+◌, ◌++◌, ℕ, IfOk, OnOk, drop, length, map};
ghost use Rattle.std.specs.List.{take_while};
ghost use Rattle.row_blocks.specs.Blocks.{Table};
ghost use Rattle.join_pairs.specs.Join.{pairs_of};
ghost use Rattle.join_kinds.specs.Kinds.{full_join_of, left_outer_join_of, right_outer_join_of};
ghost use Rattle.join_kinds.specs.declared.outer.JoinedRow.TheVariants as kind;
ghost use Rattle.join_kinds.specs.Outer.{has_left, lone_rows, with_pairs};

use crate::partners::{Side, anti_join};
use join_pairs::Pair;
use std::alloc::{AllocError, Global};

/// A row of the result of an outer join: a pair, or a row of one side that has none, so that the fields of the other
/// side are null.
#[derive(Debug, Clone, Copy, PartialEq, Eq)]
pub enum JoinedRow {
    Both(Pair),
    LeftOnly(u64),
    RightOnly(u64),
}

/// Adds a left row with its pairs, which begin at this place if it has any, and gives the place after them.
fn add_left(
    pairs: &[Pair],
    from: usize,
    row: u64,
    joined: &mut Vec<JoinedRow>,
) -> Result<usize, AllocError>
    requires from { from ≤ length pairs.now }
    ensures place { IfOk result (λ at. at ≡ from + length (take_while (has_left row) (drop from pairs.now))) }
    ensures within { IfOk result (λ at. at ≤ length pairs.now) }
    ensures added { OnOk result (joined.new.items
        ≡ joined.old.items ++ with_pairs row (take_while (has_left row) (drop from pairs.now))) }
{
    let mut at = from;
    while at < pairs.len() && pairs[at].left == row {
        joined.push(JoinedRow::Both(pairs[at]))?;
        at += 1;
    }
    if at == from {
        joined.push(JoinedRow::LeftOnly(row))?;
    }
    Ok(at)
}

/// The pairs as rows of a result.
fn as_joined(alloc: Global, pairs: &[Pair]) -> Result<Vec<JoinedRow>, AllocError>
    ensures { IfOk result (λ v. v.items ≡ map kind.Both pairs.now) }
{
    pairs
        .iter()
        .map(|pair| JoinedRow::Both(*pair))
        .collect(alloc)
}

/// Adds the right rows, of this many, that have no pair.
fn add_lone(
    alloc: Global,
    pairs: &[Pair],
    rows: u64,
    joined: &mut Vec<JoinedRow>,
) -> Result<(), AllocError>
    ensures { OnOk result (joined.new.items ≡ joined.old.items ++ lone_rows pairs.now rows) }
{
    for row in anti_join(alloc, pairs, Side::Right, rows)? {
        joined.push(JoinedRow::RightOnly(row))?;
    }
    Ok(())
}

/// The left outer join of two tables, from their pairs in order, as `hash_join` gives them: each of these
/// left rows with each of its partners, or once if it has none. The time is linear in the pairs and the rows, and there is no
/// memory but the result's.
pub fn left_outer_join(
    alloc: Global,
    pairs: &[Pair],
    rows: u64,
) -> Result<Vec<JoinedRow>, AllocError>
    ensures { IfOk result (λ v. (left right : Table) (left_column right_column : ℕ)
        → pairs.now ≡ pairs_of left right left_column right_column → rows + 1 ≡ length left
        → v.items ≡ left_outer_join_of left right left_column right_column) }
{
    let mut joined = Vec::new(alloc);
    let mut at = 0;
    for row in 0..rows {
        at = add_left(pairs, at, row + 1, &mut joined)?;
    }
    Ok(joined)
}

/// The right outer join of two tables, from their pairs: the pairs as they come, and then each right row, of this many,
/// that has no partner. The time is linear in the pairs and the rows, and the memory is a byte for each right row and 8
/// for each that has no partner, besides the result.
pub fn right_outer_join(
    alloc: Global,
    pairs: &[Pair],
    rows: u64,
) -> Result<Vec<JoinedRow>, AllocError>
    ensures { IfOk result (λ v. (left right : Table) (left_column right_column : ℕ)
        → pairs.now ≡ pairs_of left right left_column right_column → rows + 1 ≡ length right
        → v.items ≡ right_outer_join_of left right left_column right_column) }
{
    let mut joined = as_joined(alloc, pairs)?;
    add_lone(alloc, pairs, rows, &mut joined)?;
    Ok(joined)
}

/// The full outer join of two tables, from their pairs in order: the left outer join, and then each right row, of so
/// many, that has no partner. Time and memory are those of both outer joins.
pub fn full_join(
    alloc: Global,
    pairs: &[Pair],
    left_rows: u64,
    right_rows: u64,
) -> Result<Vec<JoinedRow>, AllocError>
    ensures { IfOk result (λ v. (left right : Table) (left_column right_column : ℕ)
        → pairs.now ≡ pairs_of left right left_column right_column → left_rows + 1 ≡ length left → right_rows + 1 ≡ length right
        → v.items ≡ full_join_of left right left_column right_column) }
{
    let mut joined = left_outer_join(alloc, pairs, left_rows)?;
    add_lone(alloc, pairs, right_rows, &mut joined)?;
    Ok(joined)
}
