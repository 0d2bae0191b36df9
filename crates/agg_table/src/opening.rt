//! How the table of a query is made.

ghost use Rattle.std.specs.Prelude.{◌≡◌, ◌≤◌, ◌*◌, IfOk, map, length};
ghost use Rattle.std.specs.List.{zip};
ghost use Rattle.free_pages.specs.Area.{area_size};
ghost use Rattle.dsa_area.specs.Shown.{pages_of};
ghost use Rattle.dshash_parts.specs.Opening.{HaveWords};
ghost use Rattle.agg_table.specs.Shown.{AreUnusedSeats, IsPart, callers_of, part_size};

use crate::part::{HashPart, HashSeat};
use agg_cell::AggObject;
use dsa_area::{Area, AreaPass, area_words};
use dshash_core::PARTITIONS;
use dshash_parts::{DsPass, Dshash, cut_slices};
use region_words::{Chunk, Region};
use std::alloc::{AllocError, Global};

/// The words of a packed key.
const KEY_WORDS: u32 = 32;

/// The least pages of an area that has room for a group: those of one superblock.
pub const LEAST_PAGES: u32 = 16;

/// The most pages of an area.
pub const MOST_PAGES: u32 = 65_536;

/// The two passes of each participant together.
fn pair_up(
    alloc: Global,
    areas: Vec<AreaPass>,
    tables: Vec<DsPass<AggObject>>,
) -> Result<Vec<HashSeat>, AllocError>
    requires { length tables.items ≡ length areas.items }
    ensures { IfOk result (λ v. v.items ≡ map (λ x. record { area = x.0; table = x.1 }) (zip areas.items tables.items)) }
{
    let mut seats = Vec::with_capacity(alloc, areas.len())?;
    let mut rest = tables.into_iter();
    for area in areas {
        let Some(table) = rest.next() else {
            unreachable!()
        };
        seats.push_reserved(HashSeat { area, table });
    }
    Ok(seats)
}

/// The words of the chunk of a table whose area has this many pages: its 128 slices, and then the area.
pub fn part_words(pages: u32) -> u64
    ensures { result ≡ part_size pages }
{
    u64::from(PARTITIONS) + area_words(pages)
}

/// The slices of an empty table, cut off the front of its chunk, and the rest of that.
fn cut_front(
    alloc: Global,
    r: &Region,
    chunk: Chunk,
    pages: u32,
) -> Result<(Vec<Chunk>, Chunk), AllocError>
    requires here { chunk.part.region ≡ r.now }
    requires size { chunk.bytes ≡ 8 * part_size pages }
    ensures count { IfOk result (λ c. length c.0.items ≡ 128) }
    ensures slices { IfOk result (λ c. HaveWords r.now c.0.items) }
    ensures here { IfOk result (λ c. c.1.part.region ≡ r.now) }
    ensures size { IfOk result (λ c. c.1.bytes ≡ 8 * area_size pages) }
{
    chunk.is_small();
    let Chunk {
        at,
        bytes: _,
        mut part,
    } = chunk;
    let front = at.word();
    let slices = cut_slices(alloc, r, &mut part, front)?;
    let rest = part.split_chunk(r, front + u64::from(PARTITIONS), area_words(pages));
    Ok((slices, rest))
}

/// An empty table in an area of this many pages, in a chunk of `8 * part_words(pages)` bytes, and the passes of this
/// many participants, in order of their numbers from 0. The table's slices are cut off before the area gets the rest of
/// the chunk, so the area is asked for nothing, and no participant has seen anything of it: `AllocError` can only mean
/// that there was no memory for the lists, the locks and the passes.
pub fn open(
    alloc: Global,
    r: &Region,
    chunk: Chunk,
    pages: u32,
    callers: u32,
) -> Result<(HashPart, Vec<HashSeat>), AllocError>
    requires here { chunk.part.region ≡ r.now }
    requires size { chunk.bytes ≡ 8 * part_size pages }
    requires few { pages ≤ MOST_PAGES }
    requires callers { 1 ≤ callers }
    ensures part { IfOk result (λ t. IsPart r.now t.0) }
    ensures pages { IfOk result (λ t. pages_of t.0.area ≡ pages) }
    ensures callers { IfOk result (λ t. callers_of t.0 ≡ callers) }
    ensures seats { IfOk result (λ t. AreUnusedSeats t.0 t.1.items) }
{
    let (slices, rest) = cut_front(alloc, r, chunk, pages)?;
    let (area, areas) = Area::new(alloc, r, rest, pages, callers)?;
    let (table, tables) = Dshash::on_slices(alloc, r, slices, KEY_WORDS, callers)?;
    let seats = pair_up(alloc, areas, tables)?;
    Ok((HashPart { area, table }, seats))
}
