//! The calls of the cache: a page is got, or put. A caller that puts one and has no ticket left evicts an entry first.
//!
//! A chunk that holds a page is the table's while it is under a name, and the caller's on its way there and back. Each
//! one that comes out of the table goes back to the area before the caller does anything else.

ghost use Rattle.std.specs.Prelude.{◌≡◌, ◌≢◌, ℕ, ◌+◌, ◌%◌, ◌<◌, List, true, false, cond, is_some, Some, IfOk, IfErr, OnErr, OnOk};
ghost use Rattle.std.specs.FinMap as fin;
ghost use Rattle.lock_book.specs.Shown.{mine_of, number_of, seen_of};
ghost use Rattle.dsa_area.specs.Shown.{Belongs as AreaBelongs, number_of as area_number};
ghost use Rattle.dsa_area.specs.Requests.{IsGranted};
ghost use Rattle.dshash_chunks.specs.Held.{contents};
ghost use Rattle.dshash_parts.specs.Sweeps.{GaveBack};
ghost use Rattle.dshash_parts.specs.Tables.{map_at};
ghost use Rattle.page_cache.specs.Causes.{BringsItem, Evicts, IsCause, IsNoRoom};
ghost use Rattle.page_cache.specs.Owned.{IsKept, own_page, under};
ghost use Rattle.page_cache.specs.Pages.{owner_of, read};
ghost use Rattle.page_cache.specs.Seats.{IsCache, IsSeat, StaysSeat};
ghost use Rattle.page_cache.specs.declared.cache.Seat.{Seat};
ghost use Rattle.page_cache.specs.declared.page.Page.{Page};

use crate::cache::{Cache, Seat};
use crate::page::{PAGE_BYTES, Page, store_page};
use chunk_table::NotPut as Refused;
use dsa_area::{AreaPass, NoSpace};
use dshash_core::PARTITIONS;
use region_words::Chunk;
use std::alloc::{AllocError, Global};
use std::sync::Wait;

/// Why a page was not put.
#[derive(Drop)]
pub enum NotPut {
    /// The area has no room for it: the pages of 4 KiB that were wanted, and those of the longest free run.
    NoSpace { pages: u32, largest: u32 },
    /// The caller has no ticket, and no partition had an entry to evict when it was looked at.
    NoneToEvict,
    /// There is no memory for the name of the entry that would be evicted.
    Memory,
}

/// The page under a name, if there is one. Under one of the caller's own names it is what the caller put there last, or
/// it was evicted since.
pub fn get<R: Wait>(rt: &R, cache: &Cache, seat: &mut Seat, name: &[u64; 2]) -> Option<Page>
    requires cache { IsCache cache.now }
    requires seat { IsSeat cache.now seat.old }
    ensures seat { StaysSeat cache.now seat.old seat.new }
    ensures found { result ≡ under (seen_of seat.new.pass) name.now }
    ensures same { (n : List ℕ) → own_page (mine_of seat.new.pass) n ≡ own_page (mine_of seat.old.pass) n }
    ensures kept { owner_of name.now ≡ number_of seat.old.pass → IsKept (seen_of seat.new.pass) (mine_of seat.old.pass) name.now result }
{
    cache
        .table
        .with_chunk(rt, &cache.region, &mut seat.pass, name, &())
}

/// A chunk of the area with this page in it.
fn chunk_of<R: Wait>(
    rt: &R,
    cache: &Cache,
    apass: &mut AreaPass,
    page: &Page,
) -> Result<Chunk, NotPut>
    requires cache { IsCache cache.now }
    requires own { AreaBelongs cache.now.area apass.old }
    ensures own { AreaBelongs cache.now.area apass.new }
    ensures caller { area_number apass.new ≡ area_number apass.old }
    ensures granted { IfOk result (λ c. IsGranted cache.now.area apass.old apass.new 8192 c.at) }
    ensures here { IfOk result (λ c. c.part.region ≡ cache.now.region) }
    ensures words { IfOk result (λ c. read (contents c) ≡ page.now) }
    ensures refused { IfErr result (λ why. IsNoRoom cache.now.area apass.old apass.new why) }
{
    match cache.area.alloc(rt, &cache.region, apass, PAGE_BYTES) {
        Ok(mut chunk) => {
            store_page(&mut chunk, &cache.region, page);
            Ok(chunk)
        }
        Err(NoSpace { pages, largest }) => Err(NotPut::NoSpace { pages, largest }),
    }
}

/// Gives a page's chunk back to the area. If that refuses it, its words are lost.
fn free_page<R: Wait>(rt: &R, cache: &Cache, apass: &mut AreaPass, chunk: Chunk)
    requires cache { IsCache cache.now }
    requires own { AreaBelongs cache.now.area apass.old }
    requires here { chunk.part.region ≡ cache.now.region }
    ensures own { AreaBelongs cache.now.area apass.new }
    ensures caller { area_number apass.new ≡ area_number apass.old }
    ensures gave { GaveBack cache.now.area apass.old apass.new chunk.bytes true }
{
    let _refused = cache.area.free(rt, &cache.region, apass, chunk);
}

/// Takes an entry out of the partition at the hand, whichever caller's it is, by a caller with no ticket, and moves the
/// hand on. Its page goes back to the area; its item is the caller's spare one then, for the entry that it makes next.
/// Says whether there was one, and then the caller has a ticket.
fn evict<R: Wait>(rt: &R, alloc: Global, cache: &Cache, seat: &mut Seat) -> Result<bool, AllocError>
    requires cache { IsCache cache.now }
    requires seat { IsSeat cache.now seat.old }
    requires none { seat.old.tickets ≡ 0 }
    ensures seat { StaysSeat cache.now seat.old seat.new }
    ensures ticket { IfOk result (λ found. seat.new.tickets ≡ cond found 1 0) }
    ensures hand { seat.new.hand ≡ (seat.old.hand + 1) % 128 }
    ensures empty { IfOk result (λ found. found ≡ false → fin.len (map_at (seen_of seat.new.pass) seat.old.hand) ≡ 0) }
    ensures others { (k : ℕ) → k ≢ seat.old.hand → seen_of seat.new.pass k ≡ seen_of seat.old.pass k }
    ensures lack { OnErr result (seat.new.tickets ≡ 0) }
    ensures item { IfOk result (λ found. found ≡ true → is_some seat.new.spare ≡ true) }
    ensures same { (n : List ℕ) → own_page (mine_of seat.new.pass) n ≡ own_page (mine_of seat.old.pass) n }
{
    let partition = seat.hand;
    seat.hand = (partition + 1) % PARTITIONS;
    match cache
        .table
        .take_any(rt, alloc, &cache.region, &mut seat.pass, partition)
    {
        Ok(Some(evicted)) => {
            free_page(rt, cache, &mut seat.apass, evicted.chunk);
            let spare = seat.spare.replace(evicted.item);
            cache
                .table
                .give_spare(rt, &cache.region, &cache.area, &mut seat.apass, spare);
            seat.tickets = 1;
            Ok(true)
        }
        Ok(None) => Ok(false),
        Err(lack) => Err(lack),
    }
}

/// Sees that the caller has a ticket: if it has none it evicts an entry of the first partition that has one, from the
/// hand on and round to it again.
fn make_room<R: Wait>(rt: &R, alloc: Global, cache: &Cache, seat: &mut Seat) -> Result<(), NotPut>
    requires cache { IsCache cache.now }
    requires seat { IsSeat cache.now seat.old }
    ensures seat { StaysSeat cache.now seat.old seat.new }
    ensures ticket { OnOk result (0 < seat.new.tickets) }
    ensures cause { IfErr result (λ why. (name : List ℕ) (page : Page) → IsCause cache.now seat.old seat.new name page why) }
    ensures brings { IfErr result (λ why. (before : Seat) → BringsItem before why) }
    ensures item { OnOk result (seat.old.tickets ≡ 0 → is_some seat.new.spare ≡ true) }
    ensures same { (n : List ℕ) → own_page (mine_of seat.new.pass) n ≡ own_page (mine_of seat.old.pass) n }
{
    if seat.tickets > 0 {
        return Ok(());
    }
    for _seen in 0..PARTITIONS {
        match evict(rt, alloc, cache, seat) {
            Ok(true) => return Ok(()),
            Ok(false) => {}
            Err(_) => return Err(NotPut::Memory),
        }
    }
    Err(NotPut::NoneToEvict)
}

/// Puts a page under one of the caller's own names, in a chunk of the area that is the cache's from then on. If none was
/// there, that costs a ticket; a caller with none left evicts an entry first, whichever caller's it is, and brings its
/// item. The page that was there goes back to the area, and so does the new one if it is not put. What the caller put
/// under its other names stays what it put there last.
pub fn put<R: Wait>(
    rt: &R,
    alloc: Global,
    cache: &Cache,
    seat: &mut Seat,
    name: &[u64; 2],
    page: &Page,
) -> Result<(), NotPut>
    requires cache { IsCache cache.now }
    requires seat { IsSeat cache.now seat.old }
    requires owner { owner_of name.now ≡ number_of seat.old.pass }
    ensures seat { StaysSeat cache.now seat.old seat.new }
    ensures stands { OnOk result (under (seen_of seat.new.pass) name.now ≡ Some page.now) }
    ensures kept { OnOk result (own_page (mine_of seat.new.pass) name.now ≡ Some page.now) }
    ensures evicted { seat.old.tickets ≡ 0 → Evicts (mine_of seat.old.pass) (mine_of seat.new.pass) }
    ensures others { (n : List ℕ) → n ≢ name.now → own_page (mine_of seat.new.pass) n ≡ own_page (mine_of seat.old.pass) n }
    ensures cause { IfErr result (λ why. (before : Seat) × (seat.old.tickets ≡ 0 → BringsItem before why) × IsCause cache.now before seat.new name.now page.now why) }
{
    if let Err(why) = make_room(rt, alloc, cache, seat) {
        return Err(why);
    }
    let chunk = match chunk_of(rt, cache, &mut seat.apass, page) {
        Ok(chunk) => chunk,
        Err(why) => return Err(why),
    };
    match cache.table.put_with_spare(
        rt,
        &cache.region,
        &cache.area,
        &mut seat.pass,
        &mut seat.apass,
        &mut seat.spare,
        name,
        chunk,
    ) {
        Ok(Some(before)) => {
            free_page(rt, cache, &mut seat.apass, before);
            Ok(())
        }
        Ok(None) => {
            seat.tickets -= 1;
            Ok(())
        }
        Err(Refused { chunk, lack }) => {
            free_page(rt, cache, &mut seat.apass, chunk);
            let NoSpace { pages, largest } = lack;
            Err(NotPut::NoSpace { pages, largest })
        }
    }
}
