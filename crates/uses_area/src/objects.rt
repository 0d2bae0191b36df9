//! Pools that give objects and take them back, and a caller that proves what it needs of the contracts.

ghost use Rattle.std.specs.Prelude.{◌≡◌, ℕ, ◌+◌, ◌-◌, ◌*◌, ◌/◌, ◌<◌, ◌≤◌, ◌^◌, [], None, IfOk, IfSome, IsSome};
ghost use Rattle.word_map.specs.WordMap.{at as word_at};
ghost use Rattle.size_classes.specs.Classes.{IsClass};
ghost use Rattle.free_pages.specs.Area.{area_size, front, head_words};
ghost use Rattle.free_pages.specs.PagesView.{pages_view};
ghost use Rattle.span_pools.specs.PoolView.{pool_view, layout_of, IsOver};

use free_pages::{
    CLASS_END, HEAD_WORDS, PAGE_WORDS, Pages, SUPERBLOCK_PAGES, control_words, front, mark_words,
};
use region_words::{Chunk, Part, Region};
use rel_pointer::RelPtr;
use span_pools::Pool;
use std::alloc::{AllocError, Global};
use std::test::Fail;

/// A region and all its words.
fn words_of(alloc: Global, words: usize) -> Result<(Region, Part), AllocError>
    requires { (1 ≤ words) × (words ≤ 2 ^ 26) }
    ensures region { IfOk result (λ r. r.1.region ≡ r.0) }
    ensures owns { IfOk result (λ r. (k : ℕ) → k < words → IsSome (word_at r.1.words k)) }
{
    Region::new(alloc, words)
}

/// The pages of an area at the start of the region, and the pool of one class.
fn area(r: &Region, mut part: Part, pages: u32, class: u8) -> (Pages, Pool)
    requires here { part.region ≡ r.now }
    requires class { IsClass class }
    requires small { area_size pages ≤ 2 ^ 26 }
    requires owns { (k : ℕ) → k < area_size pages → IsSome (word_at part.words k) }
    ensures pages { result.0 ≡ pages_view r.now (head_words + front pages) pages [] }
    ensures pool { result.1 ≡ pool_view r.now (layout_of class (head_words + front pages) pages) (record { spans = []; active = None }) }
{
    let count = u64::from(pages);
    let first = HEAD_WORDS + front(count);
    let control = part.split(r, 0, HEAD_WORDS + control_words(count));
    let words = part.split(r, first, PAGE_WORDS * count);
    let size = mark_words(count);
    let marks = part.split(r, first - (CLASS_END - u64::from(class)) * size, size);
    (
        Pages::new(r, RelPtr::of(first), pages, words, control),
        Pool::new(r, class, RelPtr::of(first), pages, marks),
    )
}

/// A superblock of these pages comes in: its first object.
fn grow(r: &Region, pages: &mut Pages, pool: &mut Pool) -> Option<Chunk>
    requires here { (pages.old.region ≡ r.now) × (pool.old.region ≡ r.now) }
    requires over { IsOver pool.old.layout pages.old.first pages.old.state.pages }
    ensures pages { pages.new ≡ record pages.old { state = pages.new.state } }
    ensures as_many { pages.new.state.pages ≡ pages.old.state.pages }
    ensures pool { pool.new ≡ record pool.old { state = pool.new.state } }
    ensures here { IfSome result (λ c. c.part.region ≡ r.now) }
{
    match pages.take(r, SUPERBLOCK_PAGES, true) {
        Ok(run) => Some(pool.add(r, run)),
        Err(_) => None,
    }
}

/// Takes objects as long as there are, up to `n`, then takes in a superblock, and gives the objects back, the last
/// first: how many they were, how many superblocks went out, and the first object of the new one.
fn fill(r: &Region, pages: &mut Pages, pool: &mut Pool, n: u32) -> (u32, u32, Option<Chunk>)
    requires here { (pages.old.region ≡ r.now) × (pool.old.region ≡ r.now) }
    requires over { IsOver pool.old.layout pages.old.first pages.old.state.pages }
    ensures pages { pages.new ≡ record pages.old { state = pages.new.state } }
    ensures as_many { pages.new.state.pages ≡ pages.old.state.pages }
    ensures pool { pool.new ≡ record pool.old { state = pool.new.state } }
    ensures few { (result.0 ≤ n) × (result.1 ≤ n) }
    ensures here { IfSome result.2 (λ c. c.part.region ≡ r.now) }
{
    if n == 0 {
        return (0, 0, None);
    }
    match pool.alloc(r) {
        None => (0, 0, grow(r, pages, pool)),
        Some(chunk) => {
            let (taken, gone, second) = fill(r, pages, pool, n - 1);
            match pool.free(r, chunk) {
                Ok(Some(_)) => (taken + 1, gone + 1, second),
                _ => (taken + 1, gone, second),
            }
        }
    }
}

/// Gives the last object of a superblock back, and its run to the pages.
fn give_last(r: &Region, pages: &mut Pages, pool: &mut Pool, last: Chunk) -> bool
    requires here { (pages.old.region ≡ r.now) × (pool.old.region ≡ r.now) × (last.part.region ≡ r.now) }
    requires over { IsOver pool.old.layout pages.old.first pages.old.state.pages }
    ensures pages { pages.new ≡ record pages.old { state = pages.new.state } }
    ensures pool { pool.new ≡ record pool.old { state = pool.new.state } }
{
    match pool.free(r, last) {
        Ok(Some(run)) => pages.give(r, run).is_ok(),
        _ => false,
    }
}

/// A pool may go to another thread, as it does behind a lock.
fn sent<T: Send>(value: T) -> T
    ensures { result ≡ value }
{
    value
}

#[test]
fn a_pool_of_two_superblocks(rt: HostRuntime) -> Result<(), Fail> {
    let (region, part) = words_of(rt.alloc(), 16740)?;
    let (mut pages, pool) = area(&region, part, 32, 37);
    let mut pool = sent(pool);
    let Some(first) = grow(&region, &mut pages, &mut pool) else {
        assert!(rt; false);
        return Ok(());
    };
    let (taken, gone, second) = fill(&region, &mut pages, &mut pool, 100);
    assert_eq!(rt; (taken, gone), (7, 0));
    let Some(second) = second else {
        assert!(rt; false);
        return Ok(());
    };
    assert!(rt; give_last(&region, &mut pages, &mut pool, first));
    match pool.free(&region, second) {
        Ok(None) => {}
        _ => assert!(rt; false),
    }
    Ok(())
}
