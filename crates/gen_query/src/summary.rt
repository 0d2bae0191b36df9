//! The line that is said of the rows, put together from their groups.

ghost use Rattle.std.specs.Prelude.{◌≡◌, ◌≤◌, ◌^◌, ◌≤ℤ◌, neg_ℤ, pos, All, IfOk, length};
ghost use Rattle.gen_query.specs.Summary.{summary_text};
ghost use Rattle.gen_query.specs.Totals.{IsSmall, all_rows, all_sums};

use partial_agg::Groups;
use std::alloc::{AllocError, Global};

/// The rows of all groups, and the sum of their sums.
fn totals(groups: &Groups) -> (u64, i128)
    requires few { length groups.now ≤ 2 ^ 23 }
    requires small { All IsSmall groups.now }
    ensures rows { result.0 ≡ all_rows groups.now }
    ensures sum { result.1 ≡ all_sums groups.now }
    ensures low { neg_ℤ (pos (2 ^ 118)) ≤ℤ result.1 }
    ensures high { result.1 ≤ℤ pos (2 ^ 118) }
{
    let mut rows: u64 = 0;
    let mut sum: i128 = 0;
    'groups: for at in 0..groups.len() {
        let state = groups.state(at);
        rows += state.rows;
        sum += state.slots[1].sum;
    }
    (rows, sum)
}

/// The line of groups: `rows R groups G sum S`.
pub(crate) fn summary_of(alloc: Global, groups: &Groups) -> Result<Vec<u8>, AllocError>
    requires few { length groups.now ≤ 2 ^ 23 }
    requires small { All IsSmall groups.now }
    ensures { IfOk result (λ text. text.items ≡ summary_text (all_rows groups.now) (length groups.now) (all_sums groups.now)) }
{
    let (rows, sum) = totals(groups);
    let mut digits = itoa::Buffer::new();
    let mut text = Vec::from_slice(alloc, b"rows ")?;
    text.extend_from_slice(digits.format(rows).as_bytes())?;
    text.extend_from_slice(b" groups ")?;
    text.extend_from_slice(digits.format(groups.len()).as_bytes())?;
    text.extend_from_slice(b" sum ")?;
    text.extend_from_slice(digits.format(sum).as_bytes())?;
    text.extend_from_slice(b"\n")?;
    Ok(text)
}
