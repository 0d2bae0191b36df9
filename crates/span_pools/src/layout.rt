//! Where the words of a pool lie.

ghost use Rattle.std.specs.Prelude.{◌≡◌, ◌+◌, ◌*◌, ◌≤◌, ◌^◌};
ghost use Rattle.size_classes.specs.Classes.{IsClass};
ghost use Rattle.free_pages.specs.Area as area;
ghost use Rattle.span_pools.specs.Places.{IsLayout};
ghost use Rattle.span_pools.specs.PoolView.{layout_of};

use free_pages::{CLASS_END, PAGE_WORDS, RECORD_WORDS, SUPERBLOCK_PAGES, front, mark_words};
use size_classes::{class_bytes, objects_of};

/// The words of a superblock.
pub(crate) const SUPERBLOCK_WORDS: u64 = SUPERBLOCK_PAGES as u64 * PAGE_WORDS;

/// The words of the control records of a superblock.
pub(crate) const SUPERBLOCK_RECORDS: u64 = SUPERBLOCK_PAGES as u64 * RECORD_WORDS;

/// Where the words of a pool lie: six numbers that say the class and the area. Contracts see them; callers have no use
/// for one except to name a pool in a contract.
#[derive(Clone, Copy)]
pub struct Layout {
    /// The first word of page 0.
    pub(crate) first: u64,
    /// How many pages the area has.
    pub(crate) pages: u64,
    /// The words of an object.
    pub(crate) size: u64,
    /// The objects of a superblock.
    pub(crate) objects: u64,
    /// The first word of page 0's control record.
    pub(crate) records: u64,
    /// The first word of the class's bits.
    pub(crate) marks: u64,
}

/// The layout of a class, in an area of this many pages whose page 0 begins at word `first`.
pub(crate) fn layout_for(class: u8, first: u64, pages: u64) -> Layout
    requires class { IsClass class }
    requires place { (area.head_words + area.front pages ≤ first) × (first + area.page_words * pages ≤ 2 ^ 26) }
    ensures layout { result ≡ layout_of class first pages }
    ensures fits { IsLayout result }
{
    Layout {
        first,
        pages,
        size: u64::from(class_bytes(class)) / 8,
        objects: u64::from(objects_of(class)),
        records: first - front(pages) + pages,
        marks: first - (CLASS_END - u64::from(class)) * mark_words(pages),
    }
}
