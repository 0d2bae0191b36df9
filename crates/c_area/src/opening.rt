//! How an area is made: its words are given to the pages and to the pools, in the order in which they lie
//! (`free_pages/specs/Area.antt`): those at the head with the run words and the control records, the bits of each class,
//! the pages.

ghost use Rattle.std.specs.Prelude.{◌≡◌, ℕ, ◌+◌, ◌-◌, ◌*◌, ◌<◌, ◌≤◌, ◌^◌, IfOk, length, []};
ghost use Rattle.std.specs.List.{All};
ghost use Rattle.size_classes.specs.Classes.{IsClass, first_class};
ghost use Rattle.free_pages.specs.Area.{area_size, class_count, head_words, marks_at, page_words};
ghost use Rattle.free_pages.specs.Area as area;
ghost use Rattle.dsa_area.specs.Opening.{HasWords, empty_pool};
ghost use Rattle.c_area.specs.Arenas.{ArePools, IsArena, IsNew, name_in, name_of, state_of};
ghost use Rattle.c_area.specs.States.{no_superblock};

use crate::arena::{Arena, FIRST_CLASS};
use free_pages::{CLASS_END, HEAD_WORDS, PAGE_WORDS, Pages, control_words, front, mark_words};
use region_words::{Chunk, Part, Region};
use rel_pointer::RelPtr;
use span_pools::Pool;
use std::alloc::{AllocError, Global};

/// The pool of a class, without a superblock, whose bits are the first words of the part.
fn next_pool(r: &Region, bits: &mut Part, class: u8, first: u64, pages: u32) -> Pool
    requires here { bits.old.region ≡ r.now }
    requires class { IsClass class }
    requires place { (head_words + area.front pages ≤ first) × (first + page_words * pages ≤ 2 ^ 26) }
    requires owns { HasWords bits.old.words (marks_at first pages class) (first + page_words * pages) }
    ensures pool { result ≡ empty_pool r.now first pages class }
    ensures here { bits.new.region ≡ r.now }
    ensures rest { HasWords bits.new.words (marks_at first pages (class + 1)) (first + page_words * pages) }
{
    let len = mark_words(u64::from(pages));
    let from = first - (CLASS_END - u64::from(class)) * len;
    let marks = bits.split(r, from, len);
    Pool::new(r, class, RelPtr::of(first), pages, marks)
}

/// The pools of all classes, without a superblock.
fn empty_pools(
    alloc: Global,
    r: &Region,
    bits: &mut Part,
    first: u64,
    pages: u32,
) -> Result<Vec<Pool>, AllocError>
    requires here { bits.old.region ≡ r.now }
    requires place { (head_words + area.front pages ≤ first) × (first + page_words * pages ≤ 2 ^ 26) }
    requires owns { HasWords bits.old.words (marks_at first pages first_class) (first + page_words * pages) }
    ensures all { IfOk result (λ v. length v.items ≡ class_count) }
    ensures pools { IfOk result (λ v. ArePools (record { region = r.now; first = first; pages = pages }) first_class v.items) }
    ensures empty { IfOk result (λ v. All (λ b. b.state ≡ no_superblock) v.items) }
    ensures here { bits.new.region ≡ r.now }
    ensures rest { IfOk result (λ _. HasWords bits.new.words first (first + page_words * pages)) }
{
    let mut pools = Vec::new(alloc);
    for class in FIRST_CLASS..CLASS_END as u8 {
        pools.push(next_pool(r, bits, class, first, pages))?;
    }
    Ok(pools)
}

/// The pages and the pools of an area in a chunk from word 1 on. No page is granted, and no pool has a superblock.
pub(crate) fn lay_out(
    alloc: Global,
    r: &Region,
    chunk: Chunk,
    pages: u32,
) -> Result<Arena, AllocError>
    requires here { chunk.part.region ≡ r.now }
    requires place { chunk.at ≡ 1 }
    requires size { chunk.bytes ≡ 8 * area_size pages }
    requires few { pages ≤ 65536 }
    ensures arena { IfOk result (λ a. IsArena a) }
    ensures name { IfOk result (λ a. name_of a ≡ name_in r.now pages) }
    ensures opens { IfOk result (λ a. IsNew pages (state_of a)) }
{
    chunk.is_small();
    let Chunk {
        at,
        bytes: _,
        mut part,
    } = chunk;
    let count = u64::from(pages);
    let base = at.word();
    let first = base + HEAD_WORDS + front(count);
    let control = part.split(r, base, HEAD_WORDS + control_words(count));
    let pools = empty_pools(alloc, r, &mut part, first, pages)?;
    let words = part.split(r, first, PAGE_WORDS * count);
    let pages = Pages::new(r, RelPtr::of(first), pages, words, control);
    Ok(Arena { pages, pools })
}
