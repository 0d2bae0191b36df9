//! Which rows of a side have a pair, and which have none.

ghost use Rattle.std.specs.Prelude.{◌≡◌, ◌+◌, ℕ, List, IfOk, filter, length};
ghost use Rattle.row_blocks.specs.Blocks.{Table};
ghost use Rattle.join_pairs.specs.Join.{pairs_of};
ghost use Rattle.join_kinds.specs.Kinds.{anti_join_of, semi_join_of, table_on};
ghost use Rattle.join_kinds.specs.Partners.{HasFlags, anti_rows, rows_that, row_on, semi_rows};

use join_pairs::Pair;
use std::alloc::{AllocError, Global};

/// A side of a join.
#[derive(Debug, Clone, Copy, PartialEq, Eq)]
pub enum Side {
    Left,
    Right,
}

impl Side {
    /// The row of a pair that is on this side.
    fn row(self, pair: &Pair) -> u64
        ensures { result ≡ row_on self pair.now }
    {
        match self {
            Side::Left => pair.left,
            Side::Right => pair.right,
        }
    }
}

/// A flag for each row of a side, from row 1 on: whether the row has a pair.
fn match_flags(
    alloc: Global,
    pairs: &[Pair],
    side: Side,
    rows: u64,
) -> Result<Vec<bool>, AllocError>
    ensures { IfOk result (λ flags. HasFlags side pairs.now rows flags.items) }
{
    let mut flags = vec![in alloc; false; rows as usize]?;
    for pair in pairs {
        let row = side.row(pair);
        if row != 0 && row <= rows {
            flags[row as usize - 1] = true;
        }
    }
    Ok(flags)
}

/// The rows of a side that have a pair, or those that have none.
fn rows_with(
    alloc: Global,
    pairs: &[Pair],
    side: Side,
    rows: u64,
    paired: bool,
) -> Result<Vec<u64>, AllocError>
    ensures { IfOk result (λ v. v.items ≡ rows_that paired side pairs.now rows) }
{
    let flags = match_flags(alloc, pairs, side, rows)?;
    let mut list = Vec::new(alloc);
    for at in 0..flags.len() {
        if flags[at] == paired {
            list.push(at as u64 + 1)?;
        }
    }
    Ok(list)
}

/// The semi join: the rows of a side, of this many, that have a pair, in order, each once. The pairs may come in any
/// order; one of a row that the side doesn't have counts for nothing. The time is linear in the pairs and the rows, and
/// the memory is a byte for each row besides the result.
pub fn semi_join(
    alloc: Global,
    pairs: &[Pair],
    side: Side,
    rows: u64,
) -> Result<Vec<u64>, AllocError>
    ensures rows { IfOk result (λ v. v.items ≡ semi_rows side pairs.now rows) }
    // and if the pairs are those of two tables, this is their semi join
    ensures tables { IfOk result (λ v. (left right : Table) (left_column right_column : ℕ)
        → pairs.now ≡ pairs_of left right left_column right_column → rows + 1 ≡ length (table_on left right side)
        → v.items ≡ semi_join_of left right left_column right_column side) }
{
    rows_with(alloc, pairs, side, rows, true)
}

/// The anti join: the rows of a side, of this many, that have no pair, in order. A row whose field is empty is one of
/// them, since it has a pair with no row. Order, time and memory are as for [`semi_join`].
pub fn anti_join(
    alloc: Global,
    pairs: &[Pair],
    side: Side,
    rows: u64,
) -> Result<Vec<u64>, AllocError>
    ensures rows { IfOk result (λ v. v.items ≡ anti_rows side pairs.now rows) }
    ensures tables { IfOk result (λ v. (left right : Table) (left_column right_column : ℕ)
        → pairs.now ≡ pairs_of left right left_column right_column → rows + 1 ≡ length (table_on left right side)
        → v.items ≡ anti_join_of left right left_column right_column side) }
{
    rows_with(alloc, pairs, side, rows, false)
}
