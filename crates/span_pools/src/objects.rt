//! The objects of a superblock and its record, which is in the first three words of its first page's control record:
//! how many objects are free, the place of the first of the list of free ones or 0, and how many were used so far.
//!
//! Only the pool changes a record. The list goes through the first words of the free objects, each of which has the
//! place of the next; an object that was never used is free and on no list. `IsRecordOf` of `specs/View.antt` says what
//! a record means.

ghost use Rattle.std.specs.Prelude.{◌≡◌, ℕ, ◌||◌, ◌+◌, ◌*◌, ◌-◌, ◌/◌, ◌<◌, ◌≤◌, true, false, Some, IfSome, IfNone, IsSome};
ghost use Rattle.word_map.specs.WordMap.{at as word_at, Disjoint, HasJust, is_within};
ghost use Rattle.free_pages.specs.Area.{superblock_pages};
ghost use Rattle.span_pools.specs.Places.{IsLayout, base, record_at, superblock_records, superblock_words};
ghost use Rattle.span_pools.specs.Places.{place as place_of};
ghost use Rattle.span_pools.specs.View.{IsRecordOf, HasRoom, IsNext, IsTakenOut, IsPutBack, IsMarked, IsAdmitted, IsReleased, owns};

use crate::layout::{Layout, SUPERBLOCK_RECORDS, SUPERBLOCK_WORDS};
use free_pages::{PAGE_WORDS, RECORD_WORDS};
use region_words::{Chunk, Part, Region};

/// How many objects of the superblock at a page are free.
pub(crate) fn room(records: &mut Part, r: &Region, layout: Layout, page: u64) -> u64
    requires here { records.old.region ≡ r.now }
    requires layout { IsLayout layout }
    requires inside { page < layout.pages }
    requires has { IsSome (word_at records.old.words (record_at layout page)) }
    ensures same { records.new ≡ records.old }
    ensures room { word_at records.old.words (record_at layout page) ≡ Some result }
{
    records.load(r, layout.records + RECORD_WORDS * page)
}

/// The place of the next object, which goes off the list, or is counted as used.
fn next_free(
    words: &mut Part,
    records: &mut Part,
    r: &Region,
    layout: Layout,
    page: u64,
    room: u64,
) -> u64
    requires here { (words.old.region ≡ r.now) × (records.old.region ≡ r.now) }
    requires layout { IsLayout layout }
    requires inside { page < layout.pages }
    requires says { IsRecordOf layout records.old.words words.old.words page }
    requires room { word_at records.old.words (record_at layout page) ≡ Some room }
    requires some { 0 < room }
    ensures words { words.new ≡ words.old }
    ensures next { IsNext layout page records.old words.old records.new room result }
{
    let record = layout.records + RECORD_WORDS * page;
    let head = records.load(r, record + 1);
    if head > 0 {
        let next = words.load(r, head);
        records.store(r, record + 1, next);
        return head;
    }
    let used = records.load(r, record + 2);
    records.store(r, record + 2, used + 1);
    layout.first + PAGE_WORDS * page + layout.size * used
}

/// Takes an object out of a superblock that has a free one, with its words: its place and its words.
pub(crate) fn take_object(
    words: &mut Part,
    records: &mut Part,
    r: &Region,
    layout: Layout,
    page: u64,
) -> (u64, Part)
    requires here { (words.old.region ≡ r.now) × (records.old.region ≡ r.now) }
    requires layout { IsLayout layout }
    requires inside { page < layout.pages }
    requires says { IsRecordOf layout records.old.words words.old.words page }
    requires room { HasRoom layout records.old.words page }
    requires whole { (i k : ℕ) → i < layout.objects → owns words.old.words (place_of layout page i) ≡ true → is_within (place_of layout page i) layout.size k ≡ true → owns words.old.words k ≡ true }
    ensures { IsTakenOut layout page records.old words.old records.new words.new result.1 result.0 }
{
    let room = room(records, r, layout, page);
    let place = next_free(words, records, r, layout, page, room);
    records.store(r, layout.records + RECORD_WORDS * page, room - 1);
    (place, words.split(r, place, layout.size))
}

/// Takes an object back: its words, and its place goes first on the list.
pub(crate) fn put_object(
    words: &mut Part,
    records: &mut Part,
    r: &Region,
    layout: Layout,
    page: u64,
    place: u64,
    part: Part,
)
    requires here { (words.old.region ≡ r.now) × (records.old.region ≡ r.now) × (part.region ≡ r.now) }
    requires layout { IsLayout layout }
    requires inside { page < layout.pages }
    requires says { IsRecordOf layout records.old.words words.old.words page }
    requires object { (i : ℕ) × (i < layout.objects) × (place ≡ place_of layout page i) }
    requires just { HasJust part.words place layout.size }
    ensures { IsPutBack layout page records.old words.old records.new words.new place }
{
    words.join(r, part);
    let record = layout.records + RECORD_WORDS * page;
    let room = records.load(r, record);
    let head = records.load(r, record + 1);
    words.store(r, place, head);
    records.store(r, record + 1, place);
    records.store(r, record, room + 1);
}

/// Takes a new superblock in and gives the words of its first object.
pub(crate) fn admit(
    words: &mut Part,
    records: &mut Part,
    r: &Region,
    layout: Layout,
    page: u64,
    run: Part,
    control: Part,
) -> Part
    requires here { (words.old.region ≡ r.now) × (records.old.region ≡ r.now) × (run.region ≡ r.now) × (control.region ≡ r.now) }
    requires layout { IsLayout layout }
    requires inside { page + superblock_pages ≤ layout.pages }
    requires run { HasJust run.words (base layout page) superblock_words }
    requires control { HasJust control.words (record_at layout page) superblock_records }
    ensures { IsAdmitted layout page records.old words.old control run records.new words.new result }
{
    records.join(r, control);
    let record = layout.records + RECORD_WORDS * page;
    records.store(r, record, layout.objects - 1);
    records.store(r, record + 1, 0);
    records.store(r, record + 2, 1);
    words.join(r, run);
    words.split(r, layout.first + PAGE_WORDS * page, layout.size)
}

/// Gives all words of a superblock and its control records, when the words of its last live object are back.
pub(crate) fn release(
    words: &mut Part,
    records: &mut Part,
    r: &Region,
    layout: Layout,
    page: u64,
    last: Part,
) -> (Part, Part)
    requires here { (words.old.region ≡ r.now) × (records.old.region ≡ r.now) × (last.region ≡ r.now) }
    requires layout { IsLayout layout }
    requires inside { page + superblock_pages ≤ layout.pages }
    requires words { Disjoint words.old.words last.words → (k : ℕ) → is_within (base layout page) superblock_words k ≡ true → (owns words.old.words k || owns last.words k) ≡ true }
    requires records { (k : ℕ) → is_within (record_at layout page) superblock_records k ≡ true → owns records.old.words k ≡ true }
    ensures { IsReleased layout page records.old words.old last records.new words.new result.0 result.1 }
{
    words.join(r, last);
    let run = words.split(r, layout.first + PAGE_WORDS * page, SUPERBLOCK_WORDS);
    (
        run,
        records.split(r, layout.records + RECORD_WORDS * page, SUPERBLOCK_RECORDS),
    )
}

/// Hands an object back that no superblock has. Its words are joined to those that the pool owns and cut off again,
/// since a join tells that the two have none in common.
pub(crate) fn hand_back(words: &mut Part, r: &Region, object: Chunk) -> Chunk
    requires here { (words.old.region ≡ r.now) × (object.part.region ≡ r.now) }
    ensures same { words.new ≡ words.old }
    ensures back { result ≡ object }
    ensures apart { Disjoint words.old.words object.part.words }
{
    let Chunk { at, bytes, part } = object;
    words.join(r, part);
    words.split_chunk(r, at.word(), bytes / 8)
}
