//! The bits of a class, one for each page, in words of the region: a superblock of the class begins at a page whose bit
//! is set.
//!
//! Only the class's pool changes them. `mark_of` of `specs/View.antt` reads them.

ghost use Rattle.std.specs.Prelude.{◌≡◌, ◌≢◌, ℕ, ◌+◌, ◌*◌, ◌/◌, ◌<◌, ◌≤◌, true, false, Some, IfSome, IfNone, IsSome};
ghost use Rattle.word_map.specs.WordMap.{at as word_at, HasJust};
ghost use Rattle.free_pages.specs.Area as area;
ghost use Rattle.span_pools.specs.Places.{IsLayout, place as place_of};
ghost use Rattle.span_pools.specs.View.{mark_of, IsMarked};

use crate::layout::Layout;
use free_pages::mark_words;
use region_words::{Part, Region};

/// Whether the bit of a page is set.
pub(crate) fn is_marked(marks: &mut Part, r: &Region, layout: Layout, page: u64) -> bool
    requires here { marks.old.region ≡ r.now }
    requires layout { IsLayout layout }
    requires bits { HasJust marks.old.words layout.marks (area.mark_words layout.pages) }
    requires inside { page < layout.pages }
    ensures same { marks.new ≡ marks.old }
    ensures marked { result ≡ mark_of layout marks.old.words page }
{
    let word = marks.load(r, layout.marks + page / 64);
    (word >> (page % 64)) & 1 == 1
}

/// Sets the bit of a page.
pub(crate) fn set_mark(marks: &mut Part, r: &Region, layout: Layout, page: u64)
    requires here { marks.old.region ≡ r.now }
    requires layout { IsLayout layout }
    requires bits { HasJust marks.old.words layout.marks (area.mark_words layout.pages) }
    requires inside { page < layout.pages }
    ensures { IsMarked layout page true marks.old marks.new }
{
    let word = marks.load(r, layout.marks + page / 64);
    marks.store(r, layout.marks + page / 64, word | (1 << (page % 64)));
}

/// Clears the bit of a page.
pub(crate) fn clear_mark(marks: &mut Part, r: &Region, layout: Layout, page: u64)
    requires here { marks.old.region ≡ r.now }
    requires layout { IsLayout layout }
    requires bits { HasJust marks.old.words layout.marks (area.mark_words layout.pages) }
    requires inside { page < layout.pages }
    ensures { IsMarked layout page false marks.old marks.new }
{
    let word = marks.load(r, layout.marks + page / 64);
    marks.store(r, layout.marks + page / 64, word & !(1 << (page % 64)));
}

/// Clears all bits.
pub(crate) fn clear_marks(marks: &mut Part, r: &Region, layout: Layout)
    requires here { marks.old.region ≡ r.now }
    requires layout { IsLayout layout }
    requires bits { HasJust marks.old.words layout.marks (area.mark_words layout.pages) }
    ensures region { marks.new.region ≡ marks.old.region }
    ensures bits { HasJust marks.new.words layout.marks (area.mark_words layout.pages) }
    ensures clear { (p : ℕ) → mark_of layout marks.new.words p ≡ false }
{
    for n in 0..mark_words(layout.pages) {
        marks.store(r, layout.marks + n, 0);
    }
}
