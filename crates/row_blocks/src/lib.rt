//! The rows of a table in blocks of 256, which participants draw by their numbers.
//!
//! Block `b` has the rows from `256 b + 1` to `256 b + 256` that exist; record 0 is the header. `specs/Blocks.antt`
//! says what blocks are over a list of records, and `proofs/` what the blocks come to if each was drawn once, in any
//! order: all rows, and the numbers of all rows. Every crate that shares out rows, for a query, a merge or a join, uses
//! these.

#![tactic(auto)]

ghost use Rattle.std.specs.Prelude.{◌≤◌, ◌^◌, length};
ghost use Rattle.row_blocks.specs.Blocks.{AreBlocks};

use csv_rows::{MOST_RECORDS, RowStore};

/// How many rows a block has, but for the last one, which may have fewer.
pub const BLOCK_ROWS: u64 = 256;

/// How many blocks the rows make. Its contract also bounds their number. It takes the same time for any table.
pub fn count_blocks(rows: &RowStore) -> u64
    ensures blocks { AreBlocks rows.now result }
    ensures few { result ≤ 2 ^ 32 }
    ensures short { length rows.now ≤ MOST_RECORDS }
{
    rows.count().div_ceil(BLOCK_ROWS)
}
