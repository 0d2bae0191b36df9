//! Where a word of a ring lies in the region, and how many more lie next to it.

ghost use Rattle.std.specs.Prelude.{◌≡◌, ℕ, ◌+◌, ◌%◌, ◌^◌, ◌<◌, ◌≤◌};

/// The word of the region that is the cell of a count's word.
#[inline]
pub(crate) fn place_at(base: u64, size: u64, position: u64) -> u64
    requires power { (e : ℕ) × (size ≡ 2 ^ e) × (e ≤ 20) }
    requires small { base < 2 ^ 27 }
    ensures { result ≡ base + 3 + position % size }
{
    base + 3 + (position & (size - 1))
}

/// How many cells lie in a row, from the one of a count's word on.
#[inline]
pub(crate) fn cells_ahead(size: u64, position: u64) -> u64
    requires power { (e : ℕ) × (size ≡ 2 ^ e) × (e ≤ 20) }
    ensures ahead { position % size + result ≡ size }
    ensures some { 0 < result }
{
    size - (position & (size - 1))
}
