//! A use of the cache: threads put their own pages and get them, each in a seat, and all seats come home.

ghost use Rattle.std.specs.Prelude.{◌≡◌, ◌⊎◌, ◌*◌, ℕ, ◌<◌, ◌≤◌, List, length, map, slice_index_or, Some, None, IfOk};
ghost use Rattle.lock_book.specs.Shown.{number_of, seen_of};
ghost use Rattle.dshash_core.specs.Key.{hash_of};
ghost use Rattle.dshash_core.specs.Cells.{partition_of};
ghost use Rattle.chunk_table.specs.Tables.{callers_of};
ghost use Rattle.page_cache.specs.Owned.{WasEvicted};
ghost use Rattle.page_cache.specs.Pages.{owner_of};
ghost use Rattle.page_cache.specs.Seats.{AreSeats, IsCache, IsSeat, StaysSeat};
ghost use Rattle.page_cache.specs.declared.cache.Seat.{Seat};

use crate::cache::{Cache, Seat};
use crate::calls::{NotPut, get, put};
use crate::page::{PAGE_WORDS, Page, Pages};
use chunk_table::ChunkPass;
use std::alloc::{AllocError, Global};
use std::sync::Wait;
use std::thread::{Threads, map_vec};

/// Puts a page under one of the caller's own names and gets it: what was put, or nothing, since that was evicted.
fn put_and_get<R: Wait>(
    rt: &R,
    alloc: Global,
    cache: &Cache,
    seat: &mut Seat,
    name: &[u64; 2],
    page: &Page,
) -> Result<Option<Page>, NotPut>
    requires cache { IsCache cache.now }
    requires seat { IsSeat cache.now seat.old }
    requires owner { owner_of name.now ≡ number_of seat.old.pass }
    ensures seat { StaysSeat cache.now seat.old seat.new }
    ensures kept { IfOk result (λ got. (got ≡ Some page.now) ⊎ ((got ≡ None) × WasEvicted name.now (seen_of seat.new.pass (partition_of (hash_of name.now))))) }
{
    put(rt, alloc, cache, seat, name, page)?;
    Ok(get(rt, cache, seat, name))
}

/// Does so with this many pages. Says how many of them were put.
fn work<R: Wait>(rt: &R, alloc: Global, cache: &Cache, mut seat: Seat, pages: u64) -> (Seat, u64)
    requires cache { IsCache cache.now }
    requires seat { IsSeat cache.now seat }
    ensures seat { StaysSeat cache.now seat result.0 }
    ensures few { result.1 ≤ pages }
{
    let mut good = 0;
    for number in 0..pages {
        let name = [u64::from(seat.pass.number()), number];
        let page = Page {
            words: [number; PAGE_WORDS],
        };
        if put_and_get(rt, alloc, cache, &mut seat, &name, &page).is_ok() {
            good += 1;
        }
    }
    (seat, good)
}

/// A thread for each seat. The seats, in order, and how many of each one's pages were put.
pub fn all_work<R: Threads + Wait + Sync>(
    rt: &R,
    alloc: Global,
    cache: &Cache,
    seats: Vec<Seat>,
    pages: u64,
) -> Result<Vec<(Seat, u64)>, AllocError>
    requires cache { IsCache cache.now }
    requires own { (i : ℕ) (s : _) → i < length seats.items → s ≡ slice_index_or seats.items i s → IsSeat cache.now s }
    ensures count { IfOk result (λ v. length v.items ≡ length seats.items) }
    ensures own { IfOk result (λ v. (i : ℕ) (d : _) → i < length seats.items → StaysSeat cache.now (slice_index_or seats.items i d.0) (slice_index_or v.items i d).0) }
{
    map_vec(
        rt,
        seats,
        &|seat: Seat| -> (Seat, u64)
            requires { IsCache cache.now × IsSeat cache.now seat }
            ensures { StaysSeat cache.entry.now seat result.0 }
        { work(rt, alloc, cache, seat, pages) },
    )
}

/// The passes of the seats, in order, and the sum of what goes with them.
pub fn passes_of(
    alloc: Global,
    seats: Vec<(Seat, u64)>,
) -> Result<(Vec<ChunkPass<Pages>>, u64), AllocError>
    ensures { IfOk result (λ r. r.0.items ≡ map (λ s. s.0.pass) seats.items) }
{
    let mut passes = Vec::with_capacity(alloc, seats.len())?;
    let mut sum = 0u64;
    for (seat, more) in seats {
        sum = sum.saturating_add(more);
        passes.push_reserved(seat.pass);
    }
    Ok((passes, sum))
}

/// Ends a cache to which all seats have come home, and counts its entries.
pub fn entries_left(cache: Cache, passes: Vec<ChunkPass<Pages>>) -> u64
    requires cache { IsCache cache }
    requires seats { (seats : List Seat) × AreSeats cache seats × (passes.items ≡ map (λ s. s.pass) seats) }
    ensures few { result ≤ callers_of cache.table * cache.share }
{
    let mut closed = cache.table.close(passes);
    let mut entries = 0u64;
    while let Some(partition) = closed.take_last() {
        entries = entries.saturating_add(partition.count());
    }
    entries
}
