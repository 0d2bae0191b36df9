//! A row that has no partner, from the pairs of a join.

ghost use Rattle.std.specs.Prelude.{◌≡◌, IfOk};
ghost use Rattle.join_kinds.specs.Kinds.{anti_join_of};
ghost use Rattle.join_kinds.specs.declared.partners.Side.TheVariants as side;
ghost use Rattle.join_pairs.specs.Join.{pairs_of};

use csv_rows::RowStore;
use join_kinds::{Side, anti_join};
use join_pairs::Pairs;
use std::alloc::{AllocError, Global};

/// The left rows that have no partner on these columns.
pub fn orphans(
    alloc: Global,
    left: &RowStore,
    right: &RowStore,
    columns: (u32, u32),
    pairs: &Pairs,
) -> Result<Vec<u64>, AllocError>
    requires pairs { pairs.now ≡ pairs_of left.now right.now columns.0 columns.1 }
    ensures { IfOk result (λ v. v.items ≡ anti_join_of left.now right.now columns.0 columns.1 side.Left) }
{
    anti_join(alloc, pairs.list(), Side::Left, left.count())
}
