//! Which keys lie within a range.

ghost use Rattle.std.specs.Prelude.{◌≡◌};
ghost use Rattle.state_head.specs.Words.{keys_of};
ghost use Rattle.state_order.specs.Ranges.{is_before, is_below, is_from, is_within};

use result_text::compare_columns;
use state_head::KeyRange;

/// Whether a key of this many columns lies within a range. It costs at most two comparisons.
pub fn is_within(range: KeyRange<'_>, key: &[u8], columns: u32) -> bool
    ensures { result ≡ is_within columns (keys_of range.entry) key.now }
{
    is_from(range.low, key, columns) && is_below(range.high, key, columns)
}

/// Whether a key lies from the low end of a range on, if it has one.
fn is_from(low: &[u8], key: &[u8], columns: u32) -> bool
    ensures { result ≡ is_from columns low.now key.now }
{
    if low.is_empty() {
        return true;
    }
    !is_before(key, low, columns)
}

/// Whether a key lies below the high end of a range, if it has one.
fn is_below(high: &[u8], key: &[u8], columns: u32) -> bool
    ensures { result ≡ is_below columns high.now key.now }
{
    if high.is_empty() {
        return true;
    }
    is_before(key, high, columns)
}

/// Whether the line of a key comes before that of another.
pub(crate) fn is_before(a: &[u8], b: &[u8], columns: u32) -> bool
    ensures { result ≡ is_before columns a.now b.now }
{
    compare_columns(a, b, columns).is_lt()
}
