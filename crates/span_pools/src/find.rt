//! How a pool finds its superblocks: by the bits of its class.

ghost use Rattle.std.specs.Prelude.{◌≡◌, ◌≢◌, ℕ, ◌+◌, ◌*◌, ◌-◌, ◌/◌, ◌<◌, ◌≤◌, true, false, Some, IfSome, IfNone, IsSome};
ghost use Rattle.std.specs.Int.{bit_at};
ghost use Rattle.word_map.specs.WordMap.{at as word_at, HasJust};
ghost use Rattle.free_pages.specs.Area as area;
ghost use Rattle.free_pages.specs.Area.{page_words, superblock_pages};
ghost use Rattle.span_pools.specs.Places.{IsLayout, record_at};
ghost use Rattle.span_pools.specs.Places.{place as place_of};
ghost use Rattle.span_pools.specs.View.{mark_of, HasRoom};

use crate::layout::Layout;
use crate::marks::is_marked;
use crate::objects::room;
use free_pages::{PAGE_WORDS, SUPERBLOCK_PAGES, mark_words};
use region_words::{Part, Region};

/// The first page from `from` on whose superblock has a free object, among the 64 pages of one word of bits.
fn find_in_word(records: &mut Part, r: &Region, layout: Layout, from: u64, word: u64) -> Option<u64>
    requires here { records.old.region ≡ r.now }
    requires layout { IsLayout layout }
    requires has { (b : ℕ) → b < 64 → bit_at word b ≡ 1 → (from + b < layout.pages) × IsSome (word_at records.old.words (record_at layout (from + b))) }
    ensures same { records.new ≡ records.old }
    ensures found { IfSome result (λ p. (b : ℕ) × (b < 64) × (bit_at word b ≡ 1) × (p ≡ from + b) × HasRoom layout records.old.words p) }
    ensures none { IfNone result ((b : ℕ) → b < 64 → bit_at word b ≡ 1 → word_at records.old.words (record_at layout (from + b)) ≡ Some 0) }
{
    for bit in 0..64 {
        if (word >> bit) & 1 == 1 && room(records, r, layout, from + bit) > 0 {
            return Some(from + bit);
        }
    }
    None
}

/// The first page whose superblock has a free object. Goes over the bits a word at a time, and passes by the words that
/// are 0.
fn find_free(marks: &mut Part, records: &mut Part, r: &Region, layout: Layout) -> Option<u64>
    requires here { (marks.old.region ≡ r.now) × (records.old.region ≡ r.now) }
    requires layout { IsLayout layout }
    requires bits { HasJust marks.old.words layout.marks (area.mark_words layout.pages) }
    requires has { (p : ℕ) → mark_of layout marks.old.words p ≡ true → (p < layout.pages) × IsSome (word_at records.old.words (record_at layout p)) }
    ensures same { (marks.new ≡ marks.old) × (records.new ≡ records.old) }
    ensures found { IfSome result (λ p. (mark_of layout marks.old.words p ≡ true) × HasRoom layout records.old.words p) }
    ensures none { IfNone result ((p : ℕ) → mark_of layout marks.old.words p ≡ true → word_at records.old.words (record_at layout p) ≡ Some 0) }
{
    for n in 0..mark_words(layout.pages) {
        let word = marks.load(r, layout.marks + n);
        if word != 0 {
            let found = find_in_word(records, r, layout, 64 * n, word);
            if found.is_some() {
                return found;
            }
        }
    }
    None
}

/// The first page at which a superblock begins. Looks at one bit for each page before it.
pub(crate) fn first_page(marks: &mut Part, r: &Region, layout: Layout) -> Option<u64>
    requires here { marks.old.region ≡ r.now }
    requires layout { IsLayout layout }
    requires bits { HasJust marks.old.words layout.marks (area.mark_words layout.pages) }
    ensures same { marks.new ≡ marks.old }
    ensures found { IfSome result (λ p. mark_of layout marks.old.words p ≡ true) }
    ensures none { IfNone result ((p : ℕ) → p < layout.pages → mark_of layout marks.old.words p ≡ false) }
{
    for page in 0..layout.pages {
        if is_marked(marks, r, layout, page) {
            return Some(page);
        }
    }
    None
}

/// A page whose superblock has a free object: the active one's, if that has one, and else the spare one, if there is
/// one.
pub(crate) fn free_page(
    active: Option<u64>,
    spare: Option<u64>,
    marks: &mut Part,
    records: &mut Part,
    r: &Region,
    layout: Layout,
) -> Option<u64>
    requires here { (marks.old.region ≡ r.now) × (records.old.region ≡ r.now) }
    requires layout { IsLayout layout }
    requires bits { HasJust marks.old.words layout.marks (area.mark_words layout.pages) }
    requires has { (p : ℕ) → mark_of layout marks.old.words p ≡ true → (p < layout.pages) × IsSome (word_at records.old.words (record_at layout p)) }
    requires active { (p : ℕ) → active ≡ Some p → mark_of layout marks.old.words p ≡ true }
    requires spare { (p : ℕ) → spare ≡ Some p → (mark_of layout marks.old.words p ≡ true) × HasRoom layout records.old.words p }
    ensures same { (marks.new ≡ marks.old) × (records.new ≡ records.old) }
    ensures found { IfSome result (λ p. (mark_of layout marks.old.words p ≡ true) × HasRoom layout records.old.words p) }
    ensures first { IfSome result (λ p. (q : ℕ) → active ≡ Some q → HasRoom layout records.old.words q → q ≡ p) }
    ensures none { IfNone result ((p : ℕ) → mark_of layout marks.old.words p ≡ true → word_at records.old.words (record_at layout p) ≡ Some 0) }
{
    if let Some(page) = active {
        if room(records, r, layout, page) > 0 {
            return Some(page);
        }
    }
    match spare {
        Some(page) => Some(page),
        None => find_free(marks, records, r, layout),
    }
}

/// Whether an object of the superblock at a page has this place.
fn is_object(layout: Layout, page: u64, place: u64) -> bool
    requires layout { IsLayout layout }
    requires inside { page < layout.pages }
    requires behind { layout.first + page_words * page ≤ place }
    ensures yes { result ≡ true → (i : ℕ) × (i < layout.objects) × (place ≡ place_of layout page i) }
    ensures no { result ≡ false → (i : ℕ) → i < layout.objects → place ≢ place_of layout page i }
{
    let offset = place - (layout.first + PAGE_WORDS * page);
    offset % layout.size == 0 && offset / layout.size < layout.objects
}

/// How many pages before a page the active superblock begins, if it has that page, and else 0.
fn first_back(active: Option<u64>, page: u64) -> u64
    ensures few { result < superblock_pages }
    ensures begins { 0 < result → (p : ℕ) × (active ≡ Some p) × (p + result ≡ page) }
{
    match active {
        Some(first) if first <= page && page - first < u64::from(SUPERBLOCK_PAGES) => page - first,
        _ => 0,
    }
}

/// The page whose superblock has an object at a place: looks at the bit of the place's page and those of the 15 pages
/// before it, and at only one bit if the active superblock has the place.
pub(crate) fn holder(
    active: Option<u64>,
    marks: &mut Part,
    r: &Region,
    layout: Layout,
    place: u64,
) -> Option<u64>
    requires here { marks.old.region ≡ r.now }
    requires layout { IsLayout layout }
    requires bits { HasJust marks.old.words layout.marks (area.mark_words layout.pages) }
    requires inside { (p : ℕ) → mark_of layout marks.old.words p ≡ true → p + superblock_pages ≤ layout.pages }
    requires apart { (p q : ℕ) → mark_of layout marks.old.words p ≡ true → mark_of layout marks.old.words q ≡ true → p < q → p + superblock_pages ≤ q }
    requires active { (p : ℕ) → active ≡ Some p → mark_of layout marks.old.words p ≡ true }
    ensures same { marks.new ≡ marks.old }
    ensures found { IfSome result (λ p. (mark_of layout marks.old.words p ≡ true) × (i : ℕ) × (i < layout.objects) × (place ≡ place_of layout p i)) }
    ensures none { IfNone result ((p i : ℕ) → mark_of layout marks.old.words p ≡ true → i < layout.objects → place ≢ place_of layout p i) }
{
    if place < layout.first || (place - layout.first) / PAGE_WORDS >= layout.pages {
        return None;
    }
    let page = (place - layout.first) / PAGE_WORDS;
    for back in first_back(active, page)..u64::from(SUPERBLOCK_PAGES) {
        if back > page {
            return None;
        }
        if is_marked(marks, r, layout, page - back) {
            return if is_object(layout, page - back, place) {
                Some(page - back)
            } else {
                None
            };
        }
    }
    None
}
