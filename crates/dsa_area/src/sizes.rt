//! How large chunks are, and by which sizes a request is served.

ghost use Rattle.std.specs.Prelude.{◌≡◌, ◌≤◌, ◌^◌};
ghost use Rattle.dsa_area.specs.Sizes.{chunk_size, pages_for};

use free_pages::PAGE_WORDS;
use size_classes::{class_bytes, class_of};

/// The bytes of a page.
pub(crate) const PAGE_BYTES: u64 = 8 * PAGE_WORDS;

/// The bytes of the largest object of a size class.
pub(crate) const LARGEST_SIZE: u64 = 8192;

/// The number of the first size class.
pub(crate) const FIRST_CLASS: u8 = 2;

/// The bytes of the chunk that a request of this many bytes gets: those of the least class that holds it, or whole
/// pages.
pub fn chunk_bytes(bytes: u64) -> u64
    requires some { (1 ≤ bytes) × (bytes ≤ 2 ^ 30) }
    ensures size { result ≡ chunk_size bytes }
    ensures holds { bytes ≤ result }
{
    match class_of(bytes as u32) {
        Some(class) => u64::from(class_bytes(class)),
        None => PAGE_BYTES * u64::from(page_count(bytes)),
    }
}

/// The pages that hold this many bytes.
pub(crate) fn page_count(bytes: u64) -> u32
    requires { (1 ≤ bytes) × (bytes ≤ 2 ^ 30) }
    ensures pages { result ≡ pages_for bytes }
    ensures some { 1 ≤ result }
{
    bytes.div_ceil(PAGE_BYTES) as u32
}
