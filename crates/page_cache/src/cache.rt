//! The cache that all threads share, and the seat that each of them owns.
//!
//! There is a ticket for each entry that the cache may have. They are dealt to the seats in equal shares, and a caller
//! that makes an entry pays one.

ghost use Rattle.std.specs.Prelude.{◌≡◌, ℕ, ◌≤◌, [], length, IfOk};
ghost use mathlib.Core.Option.{some};
ghost use lib.ListN.{get_elem?};
ghost use Rattle.lock_book.specs.Shown.{mine_of, seen_of};
ghost use Rattle.dsa_area.specs.Shown.{AreAll as AreAllOfArea, Belongs as AreaBelongs, IsArea, callers_of as area_callers};
ghost use Rattle.dshash_parts.specs.Opening.{HaveWords};
ghost use Rattle.chunk_table.specs.Tables.{AreAll, callers_of};
ghost use Rattle.page_cache.specs.Seats.{AreSeats, IsCache};
ghost use Rattle.page_cache.specs.declared.cache.Seat.{Seat};

use crate::page::Pages;
use chunk_table::{ChunkPass, ChunkTable};
use dsa_area::{Area, AreaPass, area_words};
use dshash_core::PARTITIONS;
use dshash_parts::cut_slices;
use region_words::{Chunk, Region};
use std::alloc::{AllocError, Global};

/// The words of a name: its owner's number, and a number of the owner's choice.
pub const NAME_WORDS: u32 = 2;

/// What all threads share, by reference. The pages lie in the area, as do the table's items.
#[derive(Drop)]
pub struct Cache {
    pub region: Region,
    pub area: Area,
    pub table: ChunkTable<Pages>,
    /// The tickets that each seat began with.
    pub share: u64,
}

/// What a thread owns, and by which it calls the cache. It may go to another thread.
#[derive(Drop)]
pub struct Seat {
    pub pass: ChunkPass<Pages>,
    pub apass: AreaPass,
    /// The entries that the seat may make before it has to evict one.
    pub tickets: u64,
    /// The partition from which it evicts next.
    pub hand: u32,
    /// The item of an entry that it evicted, for the next one that it makes.
    pub spare: Option<Chunk>,
}

/// A region with a word for each partition of a table after its first word, and then an area of this many pages, with a
/// pass for each caller.
#[tactic(auto, using(word_map::proofs::Maps::answers, std::proofs::lemmas::Bool::Decides::nat_tests))]
fn area_for(
    alloc: Global,
    pages: u32,
    callers: u32,
) -> Result<(Region, Vec<Chunk>, Area, Vec<AreaPass>), AllocError>
    requires few { pages ≤ 65536 }
    requires callers { 1 ≤ callers }
    ensures count { IfOk result (λ a. length a.1.items ≡ 128) }
    ensures slices { IfOk result (λ a. HaveWords a.0 a.1.items) }
    ensures area { IfOk result (λ a. IsArea a.0 a.2) }
    ensures callers { IfOk result (λ a. area_callers a.2 ≡ callers) }
    ensures passes { IfOk result (λ a. AreAllOfArea a.2 a.3.items) }
{
    let front = u64::from(PARTITIONS) + 1;
    let words = area_words(pages);
    let (region, mut part) = Region::new(alloc, (front + words) as usize)?;
    let slices = cut_slices(alloc, &region, &mut part, 1)?;
    let chunk = part.split_chunk(&region, front, words);
    let (area, passes) = Area::new(alloc, &region, chunk, pages, callers)?;
    Ok((region, slices, area, passes))
}

/// A seat for each pass of the cache's table, in order.
fn seats_for(
    alloc: Global,
    cache: &Cache,
    passes: Vec<ChunkPass<Pages>>,
    mut apasses: Vec<AreaPass>,
) -> Result<Vec<Seat>, AllocError>
    requires all { AreAll cache.now.table passes.items }
    requires fresh { (k : ℕ) (p : _) → get_elem? passes.items k ≡ some p → (i : ℕ) → (seen_of p i ≡ []) × (mine_of p i ≡ []) }
    requires area_own { (k : ℕ) (p : _) → get_elem? apasses.items k ≡ some p → AreaBelongs cache.now.area p }
    requires alike { length apasses.items ≡ length passes.items }
    ensures seats { IfOk result (λ seats. AreSeats cache.now seats.items) }
    ensures fresh { IfOk result (λ seats. (k : ℕ) (s : Seat) → get_elem? seats.items k ≡ some s → (i : ℕ) → (seen_of s.pass i ≡ []) × (mine_of s.pass i ≡ [])) }
{
    let mut seats = Vec::new(alloc);
    for pass in passes {
        let Some(apass) = apasses.pop() else {
            unreachable!()
        };
        seats.push(Seat {
            pass,
            apass,
            tickets: cache.share,
            hand: 0,
            spare: None,
        })?;
    }
    Ok(seats)
}

/// A new cache, with no entry, of at most `share` entries for each of its callers, in an area of this many pages of 4
/// KiB, and a seat for each caller, in order of their numbers from 0. An entry takes two pages of the area.
pub fn open(
    alloc: Global,
    pages: u32,
    callers: u32,
    share: u64,
) -> Result<(Cache, Vec<Seat>), AllocError>
    requires few { pages ≤ 65536 }
    requires callers { 1 ≤ callers }
    ensures cache { IfOk result (λ o. IsCache o.0) }
    ensures share { IfOk result (λ o. o.0.share ≡ share) }
    ensures callers { IfOk result (λ o. callers_of o.0.table ≡ callers) }
    ensures seats { IfOk result (λ o. AreSeats o.0 o.1.items) }
    ensures fresh { IfOk result (λ o. (k : ℕ) (s : Seat) → get_elem? o.1.items k ≡ some s → (i : ℕ) → (seen_of s.pass i ≡ []) × (mine_of s.pass i ≡ [])) }
{
    let (region, slices, area, apasses) = area_for(alloc, pages, callers)?;
    let (table, passes) = ChunkTable::on_slices(alloc, &region, slices, 0, NAME_WORDS, callers)?;
    let cache = Cache {
        region,
        area,
        table,
        share,
    };
    let seats = seats_for(alloc, &cache, passes, apasses)?;
    Ok((cache, seats))
}
