//! Where the words of an area lie: the numbers of its layout, and the sums that give the place of each kind of word.
//!
//! `specs/Area.antt` says the same for contracts. The layers above take these numbers from here.

ghost use Rattle.std.specs.Prelude.{◌≡◌, ◌≤◌, ◌^◌};
ghost use Rattle.free_pages.specs.Area as area;

/// The words of a page of 4,096 bytes.
pub const PAGE_WORDS: u64 = 512;

/// The words at the head of an area.
pub const HEAD_WORDS: u64 = 64;

/// The words of a page's control record.
pub const RECORD_WORDS: u64 = 7;

/// The pages of a superblock.
pub const SUPERBLOCK_PAGES: u32 = 16;

/// How many size classes have bits of the pages.
pub const CLASS_COUNT: u64 = 36;

/// The number after the last class's; the classes are numbered from 2.
pub const CLASS_END: u64 = 38;

/// The words of one class's bits of this many pages.
pub fn mark_words(pages: u64) -> u64
    requires small { pages ≤ 2 ^ 32 }
    ensures { result ≡ area.mark_words pages }
{
    pages.div_ceil(64)
}

/// The words of the run words and the control records of this many pages.
pub fn control_words(pages: u64) -> u64
    requires small { pages ≤ 2 ^ 32 }
    ensures { result ≡ area.control_words pages }
{
    (1 + RECORD_WORDS) * pages
}

/// The words between the first run word and page 0, in an area of this many pages.
pub fn front(pages: u64) -> u64
    requires small { pages ≤ 2 ^ 32 }
    ensures { result ≡ area.front pages }
{
    control_words(pages) + CLASS_COUNT * mark_words(pages)
}

/// The words of an area of this many pages.
pub fn area_words(pages: u32) -> u64
    ensures { result ≡ area.area_size pages }
{
    let count = u64::from(pages);
    HEAD_WORDS + front(count) + PAGE_WORDS * count
}
