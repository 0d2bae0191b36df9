//! Which blocks have no key of a range, by the keys that they and the next ones begin with.

ghost use Rattle.std.specs.Prelude.{◌≡◌, ◌≤◌, ◌++◌, ◌∷◌, List, All, IfSome, MatchOption, false, length, map as map_list, true};
ghost use Rattle.state_blocks.specs.Blocks.{Group, IsBlock, block_bytes, blocks_bytes, first_key};
ghost use Rattle.state_body.specs.Body.{groups_of};
ghost use Rattle.state_keep.specs.Passing.{AllOutside, BeginEarly};
ghost use Rattle.state_order.specs.Order.{Rise};
ghost use Rattle.state_order.specs.Ranges.{is_before, is_below, is_from};
ghost use Rattle.state_whole.specs.Adding.{IsShape, key_of};

use result_text::compare_columns;
use state_blocks::{read_first, split_block};
use state_whole::{Kept, Shape};

/// Whether a block has no key that is kept, by its first key and that of the blocks after it.
pub(crate) fn is_passed(part: &[u8], after: &[u8], shape: &Shape<'_>, kept: Kept<'_>) -> bool
    requires { IsShape shape.now }
    ensures { (block : List Group) (later : List (List Group)) → IsBlock shape.now.columns shape.now.kinds.now block → All (IsBlock shape.now.columns shape.now.kinds.now) later
        → Rise kept.entry.columns (map_list key_of (groups_of (block ∷ later))) → part.now ≡ block_bytes shape.now.kinds.now block → after.now ≡ blocks_bytes shape.now.kinds.now later → result ≡ true → AllOutside kept.entry block }
{
    is_past(part, shape, kept) || is_early(after, shape, kept)
}

/// Whether a block begins at the high end of what is kept, or after it.
fn is_past(part: &[u8], shape: &Shape<'_>, kept: Kept<'_>) -> bool
    requires { IsShape shape.now }
    ensures { (block : List Group) → IsBlock shape.now.columns shape.now.kinds.now block → part.now ≡ block_bytes shape.now.kinds.now block → result ≡ true → is_below kept.entry.columns kept.entry.range.high.now (first_key block) ≡ false }
{
    let high = kept.range.high;
    if high.is_empty() {
        return false;
    }
    match read_first(part, shape.columns, shape.kinds) {
        Some(key) => !compare_columns(key, high, kept.columns).is_lt(),
        None => false,
    }
}

/// Whether there are blocks that begin at the low end of what is kept, or before it.
fn is_early(after: &[u8], shape: &Shape<'_>, kept: Kept<'_>) -> bool
    requires { IsShape shape.now }
    ensures { (later : List (List Group)) → All (IsBlock shape.now.columns shape.now.kinds.now) later → after.now ≡ blocks_bytes shape.now.kinds.now later → result ≡ true → BeginEarly kept.entry later }
{
    let low = kept.range.low;
    if low.is_empty() || after.is_empty() {
        return false;
    }
    let Some((part, _rest)) = split_block(after) else {
        return false;
    };
    match read_first(part, shape.columns, shape.kinds) {
        Some(key) => !compare_columns(low, key, kept.columns).is_lt(),
        None => false,
    }
}
