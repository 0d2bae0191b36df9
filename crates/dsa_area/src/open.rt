//! How an area is made: its words are given to the pages and to the pools, and each caller gets a pass of both shelves.
//!
//! The words are cut off the chunk from its front, in the order in which they lie (`free_pages/specs/Area.antt`): those
//! at the head with the run words and the control records, the bits of each class, the pages.

ghost use Rattle.std.specs.Prelude.{◌≡◌, ℕ, ◌+◌, ◌-◌, ◌*◌, ◌<◌, ◌≤◌, ◌^◌, IfOk, length, map, []};
ghost use Rattle.std.specs.List.{zip};
ghost use mathlib.Core.Option.{some};
ghost use lib.ListN.{get_elem?};
ghost use Rattle.size_classes.specs.Classes.{IsClass, first_class};
ghost use Rattle.free_pages.specs.Area.{area_size, class_count, head_words, marks_at, page_words};
ghost use Rattle.free_pages.specs.Area as area;
ghost use Rattle.free_pages.specs.PagesView.{pages_view};
ghost use Rattle.dsa_area.specs.Opening.{HasWords, empty_pool, AreEmptyPools};
ghost use Rattle.dsa_area.specs.Shown.{IsArea, AreAll, IsFresh, first_of, pages_of, callers_of};

use crate::area::{Area, AreaPass};
use crate::pages::LockedPages;
use crate::pools::LockedPool;
use crate::sizes::FIRST_CLASS;
use free_pages::{CLASS_END, HEAD_WORDS, PAGE_WORDS, Pages, control_words, front, mark_words};
use lock_book::{Pass, Shelf};
use region_words::{Chunk, Part, Region};
use rel_pointer::RelPtr;
use span_pools::Pool;
use std::alloc::{AllocError, Global};

/// The pool of a class, without a superblock, whose bits are the first words of the part.
fn next_pool(r: &Region, bits: &mut Part, class: u8, first: u64, pages: u32) -> LockedPool
    requires here { bits.old.region ≡ r.now }
    requires class { IsClass class }
    requires place { (head_words + area.front pages ≤ first) × (first + page_words * pages ≤ 2 ^ 26) }
    requires owns { HasWords bits.old.words (marks_at first pages class) (first + page_words * pages) }
    ensures pool { result ≡ record { pool = empty_pool r.now first pages class } }
    ensures here { bits.new.region ≡ r.now }
    ensures rest { HasWords bits.new.words (marks_at first pages (class + 1)) (first + page_words * pages) }
{
    let len = mark_words(u64::from(pages));
    let from = first - (CLASS_END - u64::from(class)) * len;
    let marks = bits.split(r, from, len);
    LockedPool {
        pool: Pool::new(r, class, RelPtr::of(first), pages, marks),
    }
}

/// The pools of all classes, without a superblock.
fn empty_pools(
    alloc: Global,
    r: &Region,
    bits: &mut Part,
    first: u64,
    pages: u32,
) -> Result<Vec<LockedPool>, AllocError>
    requires here { bits.old.region ≡ r.now }
    requires place { (head_words + area.front pages ≤ first) × (first + page_words * pages ≤ 2 ^ 26) }
    requires owns { HasWords bits.old.words (marks_at first pages first_class) (first + page_words * pages) }
    ensures all { IfOk result (λ v. length v.items ≡ class_count) }
    ensures pools { IfOk result (λ v. AreEmptyPools r.now first pages v.items) }
    ensures here { bits.new.region ≡ r.now }
    ensures rest { IfOk result (λ _. HasWords bits.new.words first (first + page_words * pages)) }
{
    let mut pools = Vec::new(alloc);
    for class in FIRST_CLASS..CLASS_END as u8 {
        pools.push(next_pool(r, bits, class, first, pages))?;
    }
    Ok(pools)
}

/// The pages and the pools of an area in a chunk, and the first word of page 0.
fn lay_out(
    alloc: Global,
    r: &Region,
    chunk: Chunk,
    pages: u32,
) -> Result<(u64, LockedPages, Vec<LockedPool>), AllocError>
    requires here { chunk.part.region ≡ r.now }
    requires size { chunk.bytes ≡ 8 * area_size pages }
    requires few { pages ≤ 65536 }
    ensures place { IfOk result (λ a. a.0 ≡ chunk.at + head_words + area.front pages) }
    ensures pages { IfOk result (λ a. a.1 ≡ record { pages = pages_view r.now a.0 pages [] }) }
    ensures all { IfOk result (λ a. length a.2.items ≡ class_count) }
    ensures pools { IfOk result (λ a. AreEmptyPools r.now a.0 pages a.2.items) }
{
    chunk.is_small();
    let Chunk {
        at,
        bytes: _,
        mut part,
    } = chunk;
    let count = u64::from(pages);
    let base = at.word();
    let first = base + HEAD_WORDS + front(count);
    let control = part.split(r, base, HEAD_WORDS + control_words(count));
    let pools = empty_pools(alloc, r, &mut part, first, pages)?;
    let words = part.split(r, first, PAGE_WORDS * count);
    let pages = Pages::new(r, RelPtr::of(first), pages, words, control);
    Ok((first, LockedPages { pages }, pools))
}

/// The two passes of each caller together.
fn pair_up(
    alloc: Global,
    pages: Vec<Pass<LockedPages>>,
    pools: Vec<Pass<LockedPool>>,
) -> Result<Vec<AreaPass>, AllocError>
    requires { length pools.items ≡ length pages.items }
    ensures { IfOk result (λ v. v.items ≡ map (λ x. record { pages = x.0; pools = x.1 }) (zip pages.items pools.items)) }
{
    let mut passes = Vec::with_capacity(alloc, pages.len())?;
    let mut rest = pools.into_iter();
    for pages in pages {
        let Some(pools) = rest.next() else {
            unreachable!()
        };
        passes.push_reserved(AreaPass { pages, pools });
    }
    Ok(passes)
}

impl Area {
    /// An area of this many pages in a chunk of `8 * area_words(pages)` bytes, which it owns from then on, and a pass
    /// for each caller, in order of their numbers from 0. No page is granted, and no pool has a superblock. It takes
    /// memory for its locks and its passes; if there is none, the chunk is dropped. Writes each run word and each word
    /// of bits once.
    pub fn new(
        alloc: Global,
        r: &Region,
        chunk: Chunk,
        pages: u32,
        callers: u32,
    ) -> Result<(Area, Vec<AreaPass>), AllocError>
        requires here { chunk.part.region ≡ r.now }
        requires size { chunk.bytes ≡ 8 * area_size pages }
        requires few { pages ≤ 65536 }
        requires callers { 1 ≤ callers }
        ensures area { IfOk result (λ a. IsArea r.now a.0) }
        ensures place { IfOk result (λ a. first_of a.0 ≡ chunk.at + head_words + area.front pages) }
        ensures pages { IfOk result (λ a. pages_of a.0 ≡ pages) }
        ensures callers { IfOk result (λ a. callers_of a.0 ≡ callers) }
        ensures passes { IfOk result (λ a. AreAll a.0 a.1.items) }
        ensures fresh { IfOk result (λ a. (k : ℕ) (p : _) → get_elem? a.1.items k ≡ some p → IsFresh p) }
    {
        let (first, book, pools) = lay_out(alloc, r, chunk, pages)?;
        let mut books = Vec::new(alloc);
        books.push(book)?;
        let (page_shelf, page_passes) = Shelf::new(alloc, books, callers)?;
        let (pool_shelf, pool_passes) = Shelf::new(alloc, pools, callers)?;
        let passes = pair_up(alloc, page_passes, pool_passes)?;
        let area = Area {
            first,
            count: pages,
            pages: page_shelf,
            pools: pool_shelf,
        };
        Ok((area, passes))
    }
}
